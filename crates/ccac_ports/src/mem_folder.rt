ghost use Rattle.std.specs.Prelude.{◌≡◌, ◌≢◌, ℕ, ◌<◌, ◌≤◌, ◌↔◌, ◌⊎◌, List, length, None, Some, true, false, IsTrue, IsNone, IfOk, IfSome, OnOk, OnErr, IsErrOf};
ghost use Rattle.ccac_ports.specs.Ports.{HasRisen, Tells, one_more};

use crate::ports::{FetchFault, Folder};
use std::alloc::Global;
use std::collections::{BTreeMap, BTreeSet};
use whole::NoMemory;

/// Files in memory, with calls that are planned to fail.
#[derive(Drop)]
pub struct MemFolder {
    files: BTreeMap<String, Vec<u8>>,
    failing: BTreeSet<u64>,
    calls: u64,
    faults: u64,
    excesses: u64,
    alloc: Global,
}

impl MemFolder {
    ghost use Rattle.ccac_ports.specs.MemFolder.{held, fails_at, calls, faults, excesses, IsUnchanged, SameButContent, SameButPlan};

    /// A folder that holds nothing and in which no call is planned to fail.
    pub fn new(alloc: Global) -> MemFolder
        ensures empty { (name : List ℕ) → held result name ≡ None }
        ensures unplanned { (call : ℕ) → fails_at result call ≡ false }
        ensures calls { calls result ≡ 0 }
        ensures faults { faults result ≡ 0 }
        ensures excesses { excesses result ≡ 0 }
    {
        MemFolder {
            files: BTreeMap::new(alloc),
            failing: BTreeSet::new(alloc),
            calls: 0,
            faults: 0,
            excesses: 0,
            alloc,
        }
    }

    /// Sets what the name holds.
    #[tactic(auto, using(std::proofs::lemmas::Map::Text::text_keys))]
    pub fn add(&mut self, name: &str, bytes: &[u8]) -> Result<(), NoMemory>
        ensures held { OnOk result (held self.new name.now ≡ Some bytes.now) }
        ensures others { OnOk result ((other : List ℕ) → other ≢ name.now → held self.new other ≡ held self.old other) }
        ensures same { OnOk result (SameButContent self.old self.new) }
        ensures refused { OnErr result (IsUnchanged self.old self.new) }
    {
        let key = String::from_str(self.alloc, name)?;
        let value = Vec::from_slice(self.alloc, bytes)?;
        self.files.insert(key, value)?;
        Ok(())
    }

    /// Makes the call of `fetch` with this number fail, where the first one has the number 1. The
    /// number of calls stays at `2^64 - 1` once it is there.
    pub fn fail_at(&mut self, call: u64) -> Result<(), NoMemory>
        ensures planned { OnOk result (fails_at self.new call ≡ true) }
        ensures others { OnOk result ((other : ℕ) → other ≢ call → fails_at self.new other ≡ fails_at self.old other) }
        ensures same { OnOk result (SameButPlan self.old self.new) }
        ensures refused { OnErr result (IsUnchanged self.old self.new) }
    {
        self.failing.insert(call)?;
        Ok(())
    }

    fn fault(&mut self) -> FetchFault
        ensures answer { result ≡ FetchFault.Failed }
        ensures counted { self.new ≡ record self.old { faults = one_more self.old.faults } }
        ensures stays { self.old.faults ≤ self.new.faults }
    {
        self.faults = self.faults.saturating_add(1);
        FetchFault::Failed
    }
}

impl Folder for MemFolder {
    ghost use Rattle.ccac_ports.specs.MemFolder.{held, fails_at, calls, faults, excesses, answer, Gives, Counts, SameContent, SamePlan};

    ghost tells = { λ folder. record {
      content = held folder;
      faults = λ _. faults folder;
      excesses = λ _. excesses folder;
    } };

    fn fetch(&mut self, name: &str, limit: u64) -> Result<Vec<u8>, FetchFault>
        ensures given { Gives (answer self.old name.now limit) result }
        ensures counted { Counts self.old self.new result }
        ensures kept { SameContent self.old self.new }
        ensures planned { SamePlan self.old self.new }
    {
        self.calls = self.calls.saturating_add(1);
        if self.failing.contains(&self.calls) {
            return Err(self.fault());
        }
        match self.files.get(name) {
            None => Err(self.fault()),
            Some(bytes) => {
                if bytes.len() as u64 > limit {
                    self.excesses = self.excesses.saturating_add(1);
                    return Err(FetchFault::TooLong);
                }
                Ok(Vec::from_slice(self.alloc, bytes.as_slice())?)
            }
        }
    }
}

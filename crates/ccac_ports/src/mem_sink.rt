ghost use Rattle.std.specs.Prelude.{◌≡◌, ◌≢◌, ℕ, ◌≤◌, List, [], ◌++◌, None, Some, take, OnOk, OnErr};

use crate::ports::{PutFault, Sink};
use std::alloc::Global;
use std::collections::BTreeMap;
use whole::NoMemory;

/// A text in memory, with calls that are planned to fail.
#[derive(Drop)]
pub struct MemSink {
    text: Vec<u8>,
    failing: BTreeMap<u64, u64>,
    calls: u64,
    faults: u64,
}

impl MemSink {
    ghost use Rattle.ccac_ports.specs.MemSink.{text_of, keeps_at, calls, faults, IsUnchanged, SameButPlan};

    /// A sink that got nothing yet and in which no call is planned to fail.
    pub fn new(alloc: Global) -> MemSink
        ensures empty { text_of result ≡ [] }
        ensures unplanned { (call : ℕ) → keeps_at result call ≡ None }
        ensures calls { calls result ≡ 0 }
        ensures faults { faults result ≡ 0 }
    {
        MemSink {
            text: Vec::new(alloc),
            failing: BTreeMap::new(alloc),
            calls: 0,
            faults: 0,
        }
    }

    /// Makes the call of `put` with this number fail once its first `keep` bytes were appended, or
    /// all of them where there are fewer. The first call has the number 1, and the number of calls
    /// stays at `2^64 - 1` once it is there. The last `keep` that is given for a call counts.
    pub fn fail_at(&mut self, call: u64, keep: u64) -> Result<(), NoMemory>
        ensures planned { OnOk result (keeps_at self.new call ≡ Some keep) }
        ensures others { OnOk result ((other : ℕ) → other ≢ call → keeps_at self.new other ≡ keeps_at self.old other) }
        ensures same { OnOk result (SameButPlan self.old self.new) }
        ensures refused { OnErr result (IsUnchanged self.old self.new) }
    {
        self.failing.insert(call, keep)?;
        Ok(())
    }

    /// What the sink got.
    pub fn text(&self) -> &[u8]
        ensures { result.now ≡ text_of self.now }
    {
        self.text.as_slice()
    }
}

impl Sink for MemSink {
    ghost use Rattle.std.specs.Prelude.{Some};
    ghost use Rattle.ccac_ports.specs.Ports.{one_more};
    ghost use Rattle.ccac_ports.specs.MemSink.{text_of, calls, faults, faults_after, Gets, SamePlan};

    ghost got = { λ sink. record { text = Some (text_of sink); faults = faults sink } };

    fn put(&mut self, bytes: &[u8]) -> Result<(), PutFault>
        ensures got { Gets self.old self.new bytes.now result }
        ensures called { calls self.new ≡ one_more (calls self.old) }
        ensures counted { faults self.new ≡ faults_after (faults self.old) result }
        ensures stays { faults self.old ≤ faults self.new }
        ensures planned { SamePlan self.old self.new }
    {
        self.calls = self.calls.saturating_add(1);
        match self.failing.get(&self.calls) {
            Some(keep) => {
                let kept = bytes.len().min(*keep as usize);
                self.text.extend_from_slice(&bytes[..kept])?;
                self.faults = self.faults.saturating_add(1);
                Err(PutFault::Failed)
            }
            None => {
                self.text.extend_from_slice(bytes)?;
                Ok(())
            }
        }
    }
}

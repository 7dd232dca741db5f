ghost use Rattle.std.specs.Prelude.{◌≡◌, ℕ, ◌<◌, ◌≤◌, List, None, length};
ghost use Rattle.ccac_ports.specs.Ports.{one_more};

use crate::ports::{FetchFault, Folder};
use crate::streams::read_whole;
use std::alloc::Global;
use std::fs::File;
use std::rt::Files;

/// The files of the system, by their paths. One number counts the faults of all names, and one the
/// excesses. It tells no content.
#[derive(Drop)]
pub struct RealFolder<'a, R: Files> {
    rt: &'a R,
    alloc: Global,
    faults: u64,
    excesses: u64,
}

impl<'a, R: Files> RealFolder<'a, R> {
    ghost use Rattle.ccac_ports.specs.RealFolder.{faults, excesses};

    /// The files that the runtime reaches.
    pub fn new(rt: &'a R, alloc: Global) -> RealFolder<'a, R>
        ensures faults { faults result ≡ 0 }
        ensures excesses { excesses result ≡ 0 }
    {
        RealFolder {
            rt,
            alloc,
            faults: 0,
            excesses: 0,
        }
    }

    fn fault(&mut self) -> FetchFault
        ensures answer { result ≡ FetchFault.Failed }
        ensures counted { self.new ≡ record self.old { faults = one_more self.old.faults } }
        ensures stays { self.old.faults ≤ self.new.faults }
    {
        self.faults = self.faults.saturating_add(1);
        FetchFault::Failed
    }
}

impl<'a, R: Files> Folder for RealFolder<'a, R> {
    ghost use Rattle.std.specs.Prelude.{None};
    ghost use Rattle.ccac_ports.specs.RealFolder.{faults, excesses};

    ghost tells = { λ folder. record {
      content = λ _. None;
      faults = λ _. faults folder;
      excesses = λ _. excesses folder;
    } };

    fn fetch(&mut self, name: &str, limit: u64) -> Result<Vec<u8>, FetchFault> {
        let mut file = match File::open(self.rt, name) {
            Ok(file) => file,
            Err(_) => return Err(self.fault()),
        };
        match read_whole(self.alloc, &mut file, limit) {
            Ok(bytes) => Ok(bytes),
            Err(FetchFault::Failed) => Err(self.fault()),
            Err(FetchFault::TooLong) => {
                self.excesses = self.excesses.saturating_add(1);
                Err(FetchFault::TooLong)
            }
            Err(FetchFault::NoMemory) => Err(FetchFault::NoMemory),
        }
    }
}

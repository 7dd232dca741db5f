// A theory of named atoms, for tests: it grants all literals.
ghost use Rattle.std.specs.Prelude.{◌<◌, ◌^◌, vec_len};

use clause_form::{Heard, Theory};
use farkas_cert::{Journal, Lit};
use std::alloc::Global;
use whole::Budget;

/// A theory of this many named atoms, which grants all literals.
#[derive(Debug, Drop)]
pub(crate) struct Names {
    pub(crate) atoms: u32,
    pub(crate) told: Vec<Lit>,
    pub(crate) fine: bool,
    pub(crate) works: bool,
    ghost small: { vec_len told < 2 ^ 32 },
}

impl Names {
    ghost use Rattle.std.specs.Prelude.{◌≡◌, [], true, false};
    ghost use Rattle.clause_search.specs.Examples.{seen_names};

    pub(crate) fn new(alloc: Global, atoms: u32) -> Names
        ensures { seen_names result.atoms result.told.items result.fine result.works ≡ seen_names atoms [] false true }
    {
        Names {
            atoms,
            told: Vec::new(alloc),
            fine: false,
            works: true,
        }
    }
}

impl Theory for Names {
    ghost use Rattle.clause_search.specs.Examples.{calm_names, mend_names, names, seen_names};

    ghost State = { Unit {0} };

    ghost relations = { names };

    ghost seen = { λ t. seen_names t.atoms t.told.items t.fine t.works };

    ghost begins_calm = { calm_names };

    ghost pivots_mend = { mend_names };

    fn tell(&mut self, lit: Lit) -> Heard {
        if !self.works {
            return Heard::NoMemory;
        }
        match self.told.push(lit) {
            Ok(()) => {
                self.fine = false;
                Heard::Fine
            }
            Err(_) => {
                self.works = false;
                Heard::NoMemory
            }
        }
    }

    fn check(&mut self, _budget: &mut Budget, _journal: &mut Journal) -> Heard {
        if !self.works {
            return Heard::NoMemory;
        }
        self.fine = true;
        Heard::Fine
    }

    fn mark(&self) -> u32 {
        self.told.len() as u32
    }

    fn undo(&mut self, mark: u32) {
        self.told.truncate(mark as usize);
        self.fine = false;
    }
}

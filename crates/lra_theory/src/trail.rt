//! The literals told.

ghost use Rattle.std.specs.Prelude.{◌≡◌, ◌<◌, ◌^◌, [], None, length};
ghost use Rattle.lra_theory.specs.Standings.{lits_of};
ghost use Rattle.lra_theory.specs.Literals.{lit_at};

use farkas_cert::Lit;
use std::alloc::Global;

/// A literal whose bound was set, and how many limits were put in force before it.
#[derive(Clone, Copy, Debug)]
pub(crate) struct Told {
    pub(crate) lit: Lit,
    pub(crate) mark: u32,
}

/// The literals told, in order. The last one stands apart where its bound contradicts the one in force on the other side,
/// and so wasn't set.
#[derive(Debug, Drop)]
pub(crate) struct Trail {
    pub(crate) told: Vec<Told>,
    pub(crate) refused: Option<Lit>,
}

impl Trail {
    pub(crate) fn new(alloc: Global) -> Trail
        ensures told { result.told.items ≡ [] }
        ensures refused { result.refused ≡ None }
    {
        Trail {
            told: Vec::new(alloc),
            refused: None,
        }
    }

    /// How many literals are told.
    pub(crate) fn len(&self) -> u32
        requires { length (lits_of self.now.told.items self.now.refused) < 2 ^ 32 }
        ensures { result ≡ length (lits_of self.now.told.items self.now.refused) }
    {
        let told = self.told.len() as u32;
        match self.refused {
            Some(_) => told + 1,
            None => told,
        }
    }

    /// The literal at a position.
    pub(crate) fn lit_at(&self, position: u32) -> Lit
        requires { position < length (lits_of self.now.told.items self.now.refused) }
        ensures { result ≡ lit_at (lits_of self.now.told.items self.now.refused) position }
    {
        match (self.told.get(position as usize), self.refused) {
            (Some(told), _) => told.lit,
            (None, Some(lit)) => lit,
            (None, None) => unreachable!(),
        }
    }
}

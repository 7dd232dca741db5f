// Literals, and the lists of literals that clauses are.
ghost use Rattle.std.specs.Prelude.{◌≡◌, ◌↔◌, [], length, IsTrue};
ghost use Rattle.farkas_cert.specs.Literals.{negation};

use std::alloc::AllocError;
use std::hash::{Hash, Hasher};
use std::marker::Model;

/// An atom, counted from 0, or its negation where the literal isn't positive.
#[derive(Clone, Copy, Debug, PartialEq, Eq, Hash)]
pub struct Lit {
    pub atom: u32,
    pub positive: bool,
}

impl Lit {
    /// The literal that is true exactly where this one is false.
    pub fn negated(self) -> Lit
        ensures { result ≡ negation self }
    {
        Lit {
            atom: self.atom,
            positive: !self.positive,
        }
    }
}

/// A list of literals, as a clause is one. Contracts see it as that list.
#[derive(Debug, Drop)]
pub struct Lits {
    items: Vec<Lit>,
}

impl Model for Lits {
    ghost use Rattle.std.specs.Prelude.{List};
    ghost use Rattle.farkas_cert.specs.declared.literals.Lit.{Lit};

    ghost Value = { List Lit };

    ghost view = { λ l. l.items.items };
}

impl Lits {
    /// The same literals, without taking memory.
    pub fn from_vec(items: Vec<Lit>) -> Lits
        ensures { result ≡ items.items }
    {
        Lits { items }
    }

    /// The same literals, without taking memory.
    pub fn into_vec(self) -> Vec<Lit>
        ensures { result.items ≡ self }
    {
        let Lits { items } = self;
        items
    }

    pub fn as_slice(&self) -> &[Lit]
        ensures { result.now ≡ self.now }
    {
        self.items.as_slice()
    }

    pub fn len(&self) -> usize
        ensures { result ≡ length self.now }
    {
        self.items.len()
    }

    pub fn is_empty(&self) -> bool
        ensures { IsTrue result ↔ (self.now ≡ []) }
    {
        self.items.is_empty()
    }
}

impl Clone for Lits {
    ghost use Rattle.std.specs.Prelude.{◌≡◌};

    ghost is_clone = { λ lits copy. copy ≡ lits };

    fn clone(&self) -> Result<Lits, AllocError> {
        Ok(Lits {
            items: self.items.clone()?,
        })
    }
}

impl PartialEq for Lits {
    ghost use Rattle.std.specs.Cmp.Lexicographic.{pointwise, lists_per};
    ghost use Rattle.farkas_cert.specs.contracts.literals.LitPartialEq.TheImpl.Laws.{laws-law as lit_laws};

    ghost eq = { λ a b. pointwise ⟦<Lit as PartialEq>⟧.eq a b };

    ghost laws = { lists_per lit_laws };

    fn eq(&self, other: &Lits) -> bool {
        self.items == other.items
    }
}

impl Eq for Lits {
    ghost use Rattle.std.specs.Cmp.Lexicographic.{lists_equiv};
    ghost use Rattle.farkas_cert.specs.contracts.literals.LitEq.TheImpl.Laws.{laws-law as lit_laws};

    ghost laws = { lists_equiv lit_laws };
}

impl Hash for Lits {
    ghost use Rattle.std.specs.Hash as fed;
    ghost use Rattle.std.specs.Hash.{items_Alike};
    ghost use Rattle.farkas_cert.specs.contracts.literals.LitHash.TheImpl.Laws.{respects_eq-law as lit_writes};

    ghost hash_input = { λ l. fed.slice ⟦<Lit as Hash>⟧.hash_input l };

    ghost respects_eq = { (items_Alike (record { fed = lit_writes })).fed };

    fn hash<H: Hasher>(&self, state: &mut H) {
        self.items.hash(state);
    }
}

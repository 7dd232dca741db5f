// Proof trees, which close a path of literals.
ghost use Rattle.std.specs.Prelude.{◌≡◌, IfOk};
ghost use Rattle.farkas_cert.specs.Trees.{tree_of, split, farkas, clause};

use crate::literals::Lit;
use sqlite_items::Items;
use std::alloc::Global;
use whole::NoMemory;

/// A literal of a contradiction of linear rows, and what its row is multiplied by.
#[derive(Clone, Copy, Debug, PartialEq, Eq)]
pub struct Part {
    pub lit: Lit,
    pub mult: i128,
}

/// A derivation, read along a path of literals that are assumed.
#[derive(Debug, Drop)]
pub enum Proof {
    /// The atom is either true, as `yes` goes on to assume, or false, as `no` does.
    Split {
        atom: u32,
        yes: Box<Proof>,
        no: Box<Proof>,
    },
    /// The rows of literals on the path, multiplied, sum to a contradiction.
    Farkas {
        parts: Items<Part>,
    },
    /// The clause with this number is false on the path. The problem's clauses are counted first,
    /// from 0, and then the lemmas.
    Clause {
        number: u32,
    },
}

impl Proof {
    /// A split whose two sides are these trees.
    pub fn split(alloc: Global, atom: u32, yes: Proof, no: Proof) -> Result<Proof, NoMemory>
        ensures { IfOk result (λ tree. tree_of tree ≡ split atom (tree_of yes) (tree_of no)) }
    {
        Ok(Proof::Split {
            atom,
            yes: Box::new(alloc, yes)?,
            no: Box::new(alloc, no)?,
        })
    }

    /// A leaf that multiplies the rows of these literals.
    pub fn farkas(parts: Items<Part>) -> Proof
        ensures { tree_of result ≡ farkas parts }
    {
        Proof::Farkas { parts }
    }

    /// A leaf that cites the clause with this number.
    pub fn clause(number: u32) -> Proof
        ensures { tree_of result ≡ clause number }
    {
        Proof::Clause { number }
    }
}

#[cfg(test)]
mod tests {
    use super::{Part, Proof};
    use crate::literals::{Lit, Lits};
    use sqlite_items::Items;
    use std::test::Fail;

    // The negation of a literal is told apart from it, and a tree keeps its two sides in order.
    #[test]
    fn a_tree_keeps_its_sides(rt: HostRuntime) -> Result<(), Fail> {
        let alloc = rt.alloc();
        let lit = Lit {
            atom: 4,
            positive: true,
        };
        let lits = Lits::from_vec(Vec::from_slice(alloc, &[lit, lit.negated()])?);
        assert_eq!(rt; lits.clone()?, lits);
        assert_eq!(rt; lits.len(), 2);
        assert!(rt; !lits.is_empty());
        let part = Part { lit, mult: 7 };
        let leaf = Proof::farkas(Items::from_slice(alloc, &[part])?);
        let tree = Proof::split(alloc, 4, Proof::clause(9), leaf).expect(&rt, "memory");
        assert_eq!(rt;
            format!(in alloc; "{tree:?}")?.as_str(),
            "Split { atom: 4, yes: Clause { number: 9 }, no: Farkas { parts: Items { items: [Part { lit: Lit { atom: 4, positive: true }, mult: 7 }] } } }"
        );
        assert_eq!(rt; lits.into_vec().as_slice(), [lit, lit.negated()].as_slice());
        Ok(())
    }
}

// Terms, and the lists of terms that forms and comparisons hold.
ghost use Rattle.std.specs.Prelude.{◌≡◌, ◌↔◌, [], length, IsTrue};

use std::alloc::AllocError;
use std::hash::{Hash, Hasher};
use std::marker::Model;

/// `coef` times the value of the column with this number, counted from 0.
#[derive(Clone, Copy, Debug, PartialEq, Eq, Hash)]
pub struct Term {
    pub column: u32,
    pub coef: i128,
}

/// A list of terms. Contracts see it as that list.
#[derive(Debug, Drop)]
pub struct Terms {
    items: Vec<Term>,
}

impl Model for Terms {
    ghost use Rattle.std.specs.Prelude.{List};
    ghost use Rattle.linear_form.specs.declared.lists.Term.{Term};

    ghost Value = { List Term };

    ghost view = { λ t. t.items.items };
}

impl Terms {
    /// The same terms, without taking memory.
    pub fn from_vec(items: Vec<Term>) -> Terms
        ensures { result ≡ items.items }
    {
        Terms { items }
    }

    /// The same terms, without taking memory.
    pub fn into_vec(self) -> Vec<Term>
        ensures { result.items ≡ self }
    {
        let Terms { items } = self;
        items
    }

    pub fn as_slice(&self) -> &[Term]
        ensures { result.now ≡ self.now }
    {
        self.items.as_slice()
    }

    pub fn len(&self) -> usize
        ensures { result ≡ length self.now }
    {
        self.items.len()
    }

    pub fn is_empty(&self) -> bool
        ensures { IsTrue result ↔ (self.now ≡ []) }
    {
        self.items.is_empty()
    }
}

impl Clone for Terms {
    ghost use Rattle.std.specs.Prelude.{◌≡◌};

    ghost is_clone = { λ terms copy. copy ≡ terms };

    fn clone(&self) -> Result<Terms, AllocError> {
        Ok(Terms {
            items: self.items.clone()?,
        })
    }
}

impl PartialEq for Terms {
    ghost use Rattle.std.specs.Cmp.Lexicographic.{pointwise, lists_per};
    ghost use Rattle.linear_form.specs.contracts.lists.TermPartialEq.TheImpl.Laws.{laws-law as term_laws};

    ghost eq = { λ a b. pointwise ⟦<Term as PartialEq>⟧.eq a b };

    ghost laws = { lists_per term_laws };

    fn eq(&self, other: &Terms) -> bool {
        self.items == other.items
    }
}

impl Eq for Terms {
    ghost use Rattle.std.specs.Cmp.Lexicographic.{lists_equiv};
    ghost use Rattle.linear_form.specs.contracts.lists.TermEq.TheImpl.Laws.{laws-law as term_laws};

    ghost laws = { lists_equiv term_laws };
}

impl Hash for Terms {
    ghost use Rattle.std.specs.Hash as fed;
    ghost use Rattle.std.specs.Hash.{items_Alike};
    ghost use Rattle.linear_form.specs.contracts.lists.TermHash.TheImpl.Laws.{respects_eq-law as term_writes};

    ghost hash_input = { λ t. fed.slice ⟦<Term as Hash>⟧.hash_input t };

    ghost respects_eq = { (items_Alike (record { fed = term_writes })).fed };

    fn hash<H: Hasher>(&self, state: &mut H) {
        self.items.hash(state);
    }
}

/// A sum of terms. In normal form its columns ascend strictly, no coefficient is 0, no number above
/// 1 divides all of them, and the first is above 0.
#[derive(Clone, Debug, Drop, PartialEq, Eq, Hash)]
pub struct Form {
    pub terms: Terms,
}

#[cfg(test)]
mod tests {
    use super::{Form, Term, Terms};
    use crate::relations::{Comparison, Rel};
    use std::test::Fail;

    #[test]
    fn a_copy_equals_what_it_copies(rt: HostRuntime) -> Result<(), Fail> {
        let term = Term {
            column: 3,
            coef: -2,
        };
        let form = Form {
            terms: Terms::from_vec(Vec::from_slice(rt.alloc(), &[term])?),
        };
        assert_eq!(rt; form.clone()?, form);
        let comparison = Comparison {
            terms: form.terms,
            constant: 1,
            rel: Rel::Below,
        };
        assert_eq!(rt; comparison.clone()?, comparison);
        assert_eq!(rt; comparison.terms.into_vec().as_slice(), [term].as_slice());
        Ok(())
    }
}

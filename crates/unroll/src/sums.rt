// Linear sums over the columns of a shape, made part by part.
ghost use Rattle.std.specs.Prelude.{◌≡◌, ◌+ℤ◌, ◌<◌, ◌^◌, IfOk, unsigned_abs};
ghost use Rattle.condition_tree.specs.Trees.{leaf};
ghost use Rattle.clause_form.specs.Formulas.{formula_of};
ghost use Rattle.run_rows.specs.Columns.{HasEntry, column_of};
ghost use Rattle.run_rows.specs.Limits.{IsWithin};
ghost use Rattle.unroll.specs.ClaimFormulas.{related};
ghost use Rattle.unroll.specs.Sums.{comparison, no_sum, with_constant, with_term};

use crate::formulas::both;
use clause_form::Formula;
use linear_form::{Comparison, Rel, Term, Terms};
use run_rows::{Entry, Shape};
use std::alloc::Global;
use std::marker::Model;
use weighing::Rel5;
use whole::NoMemory;

/// A sum of terms of columns and a constant.
#[derive(Debug, Drop)]
pub(crate) struct Sum {
    terms: Vec<Term>,
    constant: i128,
}

impl Model for Sum {
    ghost use Rattle.unroll.specs.Sums.{ColumnSum};

    ghost Value = { ColumnSum };

    ghost view = { λ s. record { terms = s.terms.items; constant = s.constant } };
}

impl Sum {
    /// The sum of nothing.
    pub(crate) fn new(alloc: Global) -> Sum
        ensures { result ≡ no_sum }
    {
        Sum {
            terms: Vec::new(alloc),
            constant: 0,
        }
    }

    /// The sum with a multiple of an entry of the shape, in its column.
    pub(crate) fn plus(self, shape: &Shape, coef: i128, entry: Entry) -> Result<Sum, NoMemory>
        requires within { IsWithin shape.now }
        requires stands { HasEntry shape.now entry }
        ensures { IfOk result (λ sum. sum ≡ with_term self (column_of shape.now entry) coef) }
    {
        let Sum {
            mut terms,
            constant,
        } = self;
        terms.push(Term {
            column: shape.column(entry),
            coef,
        })?;
        Ok(Sum { terms, constant })
    }

    /// The sum with a greater constant.
    pub(crate) fn plus_constant(self, more: i128) -> Sum
        requires { unsigned_abs (self.constant +ℤ more) < 2 ^ 127 }
        ensures { result ≡ with_constant self more }
    {
        let Sum { terms, constant } = self;
        Sum {
            terms,
            constant: constant + more,
        }
    }

    /// The comparison of the sum with 0.
    pub(crate) fn compared(self, rel: Rel) -> Formula
        ensures { formula_of result ≡ leaf (comparison self rel) }
    {
        let Sum { terms, constant } = self;
        Formula::Cmp(Comparison {
            terms: Terms::from_vec(terms),
            constant,
            rel,
        })
    }

    /// That the sum stands so to 0; an equation is a conjunction of two comparisons.
    pub(crate) fn related(self, alloc: Global, rel: Rel5) -> Result<Formula, NoMemory>
        ensures { IfOk result (λ f. formula_of f ≡ related self rel) }
    {
        match rel {
            Rel5::AtMost => Ok(self.compared(Rel::AtMost)),
            Rel5::Below => Ok(self.compared(Rel::Below)),
            Rel5::AtLeast => Ok(self.compared(Rel::AtLeast)),
            Rel5::Above => Ok(self.compared(Rel::Above)),
            Rel5::Equal => self.equal(alloc),
        }
    }

    /// That the sum is 0.
    pub(crate) fn equal(self, alloc: Global) -> Result<Formula, NoMemory>
        ensures { IfOk result (λ f. formula_of f ≡ related self Rel5.Equal) }
    {
        let copy = Sum {
            terms: self.terms.clone()?,
            constant: self.constant,
        };
        both(
            alloc,
            copy.compared(Rel::AtMost),
            self.compared(Rel::AtLeast),
        )
    }
}

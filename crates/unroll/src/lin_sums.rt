// A controller's expressions as sums over the columns of a shape.
ghost use Rattle.std.specs.Prelude.{◌≡◌, ◌+◌, ◌≤◌, neg_ℤ, IfOk, unsigned_abs};
ghost use Rattle.condition_tree.specs.Trees.{leaf};
ghost use Rattle.claims.specs.Subjects.{part};
ghost use Rattle.clause_form.specs.Formulas.{formula_of};
ghost use Rattle.run_rows.specs.Runs.{state_count};
ghost use Rattle.ctrl_types.specs.Limits.{IsSource};
ghost use Rattle.ctrl_meaning.specs.Expressions.{comparison_claim, lin_terms, scale_of_two, scale_with, source_terms};
ghost use Rattle.unroll.specs.ClaimFormulas.{claim_formula};
ghost use Rattle.unroll.specs.FlowLimits.{AreTerms, CanAdd, CanCompare, CanRead};
ghost use Rattle.unroll.specs.Sums.{with_parts};

use crate::sums::Sum;
use clause_form::Formula;
use ctrl_meaning::ReadPoint;
use ctrl_types::{Lin, Source};
use run_rows::{Entry, Shape};
use std::alloc::Global;
use weighing::{Rel5, Side, with_denominator};
use whole::NoMemory;

/// The number with its sign turned.
#[tactic(auto, using(whole::proofs::Overflow::signed))]
pub(crate) fn negated(number: i128) -> i128
    requires { unsigned_abs number ≤ 1000000000000 }
    ensures value { result ≡ neg_ℤ number }
    ensures size { unsigned_abs result ≤ 1000000000000 }
{
    -number
}

impl Sum {
    /// The sum with a multiple of what a term is taken of.
    #[tactic(auto, using(whole::proofs::Overflow::signed))]
    fn plus_source(
        self,
        shape: &Shape,
        at: &ReadPoint,
        factor: i128,
        of: Source,
    ) -> Result<Sum, NoMemory>
        requires read { CanRead shape.now at.now }
        requires source_in { IsSource (state_count shape.now at.now.states) of }
        requires factor_to { unsigned_abs factor ≤ 1000000000000 }
        requires constant_to { unsigned_abs self.constant ≤ 100000000000000 }
        ensures value { IfOk result (λ sum. sum ≡ with_parts shape.now self (source_terms part at.now factor of)) }
        ensures constant { IfOk result (λ sum. unsigned_abs sum.constant ≤ unsigned_abs self.constant + 1000000000000) }
    {
        match of {
            Source::One => Ok(self.plus_constant(factor)),
            Source::State(state) => self.plus(
                shape,
                factor,
                Entry::X {
                    row: at.states,
                    flow: at.flow,
                    state,
                },
            ),
            Source::Acked => self.plus_served(shape, at, factor),
            Source::Lost => self.plus_lost(shape, at, factor),
        }
    }

    /// The sum with a multiple of what was served in the step that the sender hears of.
    #[tactic(auto, using(whole::proofs::Overflow::signed))]
    fn plus_served(self, shape: &Shape, at: &ReadPoint, factor: i128) -> Result<Sum, NoMemory>
        requires read { CanRead shape.now at.now }
        requires factor_to { unsigned_abs factor ≤ 1000000000000 }
        ensures value { IfOk result (λ sum. sum ≡ with_parts shape.now self (source_terms part at.now factor Source.Acked)) }
    {
        let ReadPoint { flow, heard, .. } = *at;
        let now = self.plus(shape, factor, Entry::S { row: heard, flow })?;
        let before = Entry::S {
            row: heard - 1,
            flow,
        };
        now.plus(shape, negated(factor), before)
    }

    /// The sum with a multiple of what was lost in the step that the sender hears of.
    #[tactic(auto, using(whole::proofs::Overflow::signed))]
    fn plus_lost(self, shape: &Shape, at: &ReadPoint, factor: i128) -> Result<Sum, NoMemory>
        requires read { CanRead shape.now at.now }
        requires factor_to { unsigned_abs factor ≤ 1000000000000 }
        ensures value { IfOk result (λ sum. sum ≡ with_parts shape.now self (source_terms part at.now factor Source.Lost)) }
    {
        let ReadPoint { flow, heard, .. } = *at;
        let now = self.plus(shape, factor, Entry::L { row: heard, flow })?;
        let before = Entry::L {
            row: heard - 1,
            flow,
        };
        now.plus(shape, negated(factor), before)
    }

    /// The sum with the terms of an expression on a side of a comparison.
    pub(crate) fn plus_lin(
        self,
        shape: &Shape,
        at: &ReadPoint,
        side: Side,
        scale: u32,
        lin: &Lin,
    ) -> Result<Sum, NoMemory>
        requires read { CanRead shape.now at.now }
        requires lin_in { CanAdd shape.now at.now lin.now }
        requires scale_to { scale ≤ 1000000 }
        requires constant_to { unsigned_abs self.constant ≤ 20000000000000 }
        ensures value { IfOk result (λ sum. sum ≡ with_parts shape.now self (lin_terms part at.now side scale lin.now.terms)) }
        ensures constant { IfOk result (λ sum. unsigned_abs sum.constant ≤ unsigned_abs self.constant + 16000000000000) }
    {
        let mut sum = self;
        for term in lin.terms.as_slice() {
            let factor = term.coef.scaled(scale, side);
            sum = sum.plus_source(shape, at, factor, term.of)?;
        }
        Ok(sum)
    }
}

/// The least common multiple of the scale and the expression's denominators.
pub(crate) fn scale_with(start: u32, shape: &Shape, at: &ReadPoint, lin: &Lin) -> u32
    requires start_from { 1 ≤ start }
    requires terms_in { AreTerms shape.now at.now lin.now.terms }
    requires least_to { scale_with start lin.now.terms ≤ 1000000 }
    ensures { result ≡ scale_with start lin.now.terms }
{
    let mut scale = start;
    for term in lin.terms.as_slice() {
        scale = with_denominator(scale, term.coef);
    }
    scale
}

/// That the sides of a comparison stand so.
pub(crate) fn comparison(
    alloc: Global,
    shape: &Shape,
    at: &ReadPoint,
    left: &Lin,
    rel: Rel5,
    right: &Lin,
) -> Result<Formula, NoMemory>
    requires read { CanRead shape.now at.now }
    requires can { CanCompare shape.now at.now left.now right.now }
    ensures { IfOk result (λ f. formula_of f ≡ claim_formula shape.now (leaf (comparison_claim part at.now left.now rel right.now))) }
{
    let scale = scale_with(scale_with(1, shape, at, left), shape, at, right);
    let left_sum = Sum::new(alloc).plus_lin(shape, at, Side::Left, scale, left)?;
    let sum = left_sum.plus_lin(shape, at, Side::Right, scale, right)?;
    sum.related(alloc, rel)
}

// A question's expressions as sums over the columns of a shape.
ghost use Rattle.std.specs.Prelude.{◌≡◌, ◌+◌, ◌<◌, ◌≤◌, [], ◌∷◌, All, IfOk, unsigned_abs};
ghost use Rattle.condition_tree.specs.Trees.{leaf};
ghost use Rattle.claims.specs.Subjects.{entry as of_entry, each_flow, part};
ghost use Rattle.clause_form.specs.Formulas.{formula_of};
ghost use Rattle.run_rows.specs.Columns.{HasEntry, HasFlow, rows_of};
ghost use Rattle.run_rows.specs.declared.shapes.Shape as shapes;
ghost use Rattle.run_rows.specs.Limits.{IsWithin};
ghost use Rattle.question_text.specs.Expressions.{HasNum, comparison_claim, lin_terms, scale_of_two, scale_with};
ghost use Rattle.question_text.specs.NameMeanings.{flow_terms, of_terms, row_at};
ghost use Rattle.unroll.specs.ClaimFormulas.{claim_formula};
ghost use Rattle.unroll.specs.QuestionFormulas.{counted};
ghost use Rattle.question_text.proofs.Columns.{HasOf};
ghost use Rattle.unroll.specs.QuestionLimits.{CanAdd, CanCompare};
ghost use Rattle.unroll.specs.Sums.{with_parts};

use crate::sums::Sum;
use clause_form::Formula;
use question_text::{Of, QLin, Rows};
use run_rows::{Entry, Shape};
use std::alloc::Global;
use weighing::{Rel5, Side, with_denominator};
use whole::NoMemory;

/// What each flow has on each row.
#[derive(Clone, Copy, Debug)]
pub(crate) enum Count {
    Arrived,
    Served,
    Lost,
}

impl Sum {
    /// The sum with a multiple of what a term is taken of.
    #[tactic(auto, using(whole::proofs::Overflow::signed))]
    fn plus_of(self, shape: &Shape, at: &Rows, factor: i128, of: Of) -> Result<Sum, NoMemory>
        requires within { IsWithin shape.now }
        requires of_in { HasOf shape.now at.now of }
        requires factor_to { unsigned_abs factor ≤ 1000000000000 }
        requires constant_to { unsigned_abs self.constant ≤ 100000000000000 }
        ensures value { IfOk result (λ sum. sum ≡ with_parts shape.now self (of_terms part shape.now.flows at.now factor of)) }
        ensures constant { IfOk result (λ sum. unsigned_abs sum.constant ≤ unsigned_abs self.constant + 1000000000000) }
    {
        match of {
            Of::One => Ok(self.plus_constant(factor)),
            Of::Credit => self.plus(shape, factor, Entry::Credit),
            Of::W(step) => {
                let row = row_of_step(shape, at, step);
                self.plus(shape, factor, Entry::W { row })
            }
            Of::A(flow, step) => {
                let row = row_of_step(shape, at, step);
                self.plus_count(shape, row, flow, Count::Arrived, factor)
            }
            Of::S(flow, step) => {
                let row = row_of_step(shape, at, step);
                self.plus_count(shape, row, flow, Count::Served, factor)
            }
            Of::L(flow, step) => {
                let row = row_of_step(shape, at, step);
                self.plus_count(shape, row, flow, Count::Lost, factor)
            }
            Of::X(state, flow, step) => {
                let row = row_of_step(shape, at, step);
                self.plus(shape, factor, Entry::X { row, flow, state })
            }
        }
    }

    /// The sum with a multiple of what a flow has on a row or, for flow 0, of what each has.
    #[tactic(auto, using(whole::proofs::Overflow::signed))]
    fn plus_count(
        self,
        shape: &Shape,
        row: u32,
        flow: u32,
        count: Count,
        factor: i128,
    ) -> Result<Sum, NoMemory>
        requires within { IsWithin shape.now }
        requires row_in { row < rows_of shape.now }
        requires flow_to { flow ≤ shape.now.flows }
        ensures value { IfOk result (λ sum. sum ≡ with_parts shape.now self (flow_terms part factor (counted count row) shape.now.flows flow)) }
        ensures constant { IfOk result (λ sum. sum.constant ≡ self.constant) }
    {
        if flow == 0 {
            return self.plus_each(shape, row, count, factor);
        }
        self.plus(shape, factor, entry(row, flow, count))
    }

    /// The sum with a multiple of what each flow has on a row.
    #[tactic(auto, using(whole::proofs::Overflow::signed))]
    fn plus_each(self, shape: &Shape, row: u32, count: Count, factor: i128) -> Result<Sum, NoMemory>
        requires within { IsWithin shape.now }
        requires row_in { row < rows_of shape.now }
        ensures value { IfOk result (λ sum. sum ≡ with_parts shape.now self (each_flow (λ f. part factor (counted count row f) ∷ []) shape.now.flows)) }
        ensures constant { IfOk result (λ sum. sum.constant ≡ self.constant) }
    {
        let mut sum = self;
        for index in 0..shape.flows {
            sum = sum.plus(shape, factor, entry(row, index + 1, count))?;
        }
        Ok(sum)
    }

    /// The sum with the terms of an expression on a side of a comparison.
    fn plus_named(
        self,
        shape: &Shape,
        at: &Rows,
        side: Side,
        scale: u32,
        lin: &QLin,
    ) -> Result<Sum, NoMemory>
        requires within { IsWithin shape.now }
        requires lin_in { CanAdd shape.now at.now lin.now }
        requires scale_to { scale ≤ 1000000 }
        requires constant_to { unsigned_abs self.constant ≤ 20000000000000 }
        ensures value { IfOk result (λ sum. sum ≡ with_parts shape.now self (lin_terms part shape.now.flows at.now side scale lin.now.terms)) }
        ensures constant { IfOk result (λ sum. unsigned_abs sum.constant ≤ unsigned_abs self.constant + 17000000000000) }
    {
        let mut sum = self;
        for term in lin.terms.as_slice() {
            let factor = term.coef.scaled(scale, side);
            sum = sum.plus_of(shape, at, factor, term.of)?;
        }
        Ok(sum)
    }
}

/// What a flow has on a row.
fn entry(row: u32, flow: u32, count: Count) -> Entry
    ensures value { of_entry result ≡ counted count row flow }
    ensures stands { (s : shapes.Shape) → HasFlow s row flow → HasEntry s result }
{
    match count {
        Count::Arrived => Entry::A { row, flow },
        Count::Served => Entry::S { row, flow },
        Count::Lost => Entry::L { row, flow },
    }
}

/// The row of a step.
fn row_of_step(shape: &Shape, at: &Rows, step: u32) -> u32
    requires within { IsWithin shape.now }
    requires row_in { row_at at.now step < rows_of shape.now }
    ensures { result ≡ row_at at.now step }
{
    at.opening + step
}

/// The least common multiple of the scale and the expression's denominators.
fn scale_with(start: u32, lin: &QLin) -> u32
    requires start_from { 1 ≤ start }
    requires numbers_in { All HasNum lin.now.terms }
    requires least_to { scale_with start lin.now.terms ≤ 1000000 }
    ensures { result ≡ scale_with start lin.now.terms }
{
    let mut scale = start;
    for term in lin.terms.as_slice() {
        scale = with_denominator(scale, term.coef);
    }
    scale
}

/// The least common multiple of the denominators of both sides.
fn scale_of_two(left: &QLin, right: &QLin) -> u32
    requires left_in { All HasNum left.now.terms }
    requires right_in { All HasNum right.now.terms }
    requires scale_to { scale_of_two left.now right.now ≤ 1000000 }
    ensures { result ≡ scale_of_two left.now right.now }
{
    let of_left = scale_with(1, left);
    scale_with(of_left, right)
}

/// That the sides of a comparison stand so.
pub(crate) fn named_comparison(
    alloc: Global,
    shape: &Shape,
    at: &Rows,
    left: &QLin,
    rel: Rel5,
    right: &QLin,
) -> Result<Formula, NoMemory>
    requires within { IsWithin shape.now }
    requires can { CanCompare shape.now at.now left.now right.now }
    ensures { IfOk result (λ f. formula_of f ≡ claim_formula shape.now (leaf (comparison_claim part shape.now.flows at.now left.now rel right.now))) }
{
    let scale = scale_of_two(left, right);
    let left_sum = Sum::new(alloc).plus_named(shape, at, Side::Left, scale, left)?;
    let sum = left_sum.plus_named(shape, at, Side::Right, scale, right)?;
    sum.related(alloc, rel)
}

//! Expressions as they are weighed: term by term, at a scale that all denominators of the comparison divide.
ghost use Rattle.std.specs.Prelude.{◌≡◌, ◌<◌, ◌≤◌, neg_ℤ, unsigned_abs};
ghost use Rattle.condition_tree.specs.Trees.{leaf};
ghost use Rattle.claims.specs.Subjects.{in_run};
ghost use Rattle.run_rows.specs.Runs.{IsRun};
ghost use Rattle.weighing.specs.Claim.{outcome};
ghost use Rattle.weighing.specs.Weighed.{weighed_from};
ghost use Rattle.ctrl_types.specs.Limits.{IsSource};
ghost use Rattle.ctrl_meaning.specs.Expressions.{AreTerms, comparison_claim, lin_terms, scale_of_two, scale_with, source_terms};
ghost use Rattle.ctrl_meaning.specs.Readings.{IsReading, states_at};

use crate::readings::ReadPoint;
use ctrl_types::{Lin, Source};
use run_rows::Run;
use weighing::{Rel5, Side, Weighing, with_denominator};
use whole::Stuck;

/// The number with its sign turned.
#[tactic(auto, using(whole::proofs::Overflow::signed))]
pub fn negated(number: i128) -> i128
    requires { unsigned_abs number ≤ 1000000000000 }
    ensures value { result ≡ neg_ℤ number }
    ensures size { unsigned_abs result ≤ 1000000000000 }
{
    -number
}

/// The weighing with a multiple of what a term is taken of.
#[tactic(auto, using(whole::proofs::Overflow::signed))]
fn plus_source(weighing: Weighing, run: &Run, at: &ReadPoint, factor: i128, of: Source) -> Weighing
    requires run_in { IsRun run.now }
    requires at_in { IsReading run.now at.now }
    requires source_in { IsSource (states_at run.now at.now) of }
    requires factor_to { unsigned_abs factor ≤ 1000000000000 }
    ensures { result ≡ weighed_from weighing (source_terms (in_run run.now) at.now factor of) }
{
    match of {
        Source::One => weighing.plus(factor, run.over),
        Source::State(state) => {
            let value = run.state(at.states, at.flow, state);
            weighing.plus(factor, value)
        }
        Source::Acked => {
            let now = run.flow(at.heard, at.flow);
            let before = run.flow(at.heard - 1, at.flow);
            weighing.plus(factor, now.s).plus(negated(factor), before.s)
        }
        Source::Lost => {
            let now = run.flow(at.heard, at.flow);
            let before = run.flow(at.heard - 1, at.flow);
            weighing.plus(factor, now.l).plus(negated(factor), before.l)
        }
    }
}

/// The weighing with the terms of an expression on a side of a comparison.
pub fn plus_lin(
    start: Weighing,
    run: &Run,
    at: &ReadPoint,
    side: Side,
    scale: u32,
    lin: &Lin,
) -> Weighing
    requires run_in { IsRun run.now }
    requires at_in { IsReading run.now at.now }
    requires terms_in { AreTerms run.now at.now lin.now.terms }
    requires scale_to { scale ≤ 1000000 }
    ensures { result ≡ weighed_from start (lin_terms (in_run run.now) at.now side scale lin.now.terms) }
{
    let mut weighing = start;
    for term in lin.terms.as_slice() {
        let factor = term.coef.scaled(scale, side);
        weighing = plus_source(weighing, run, at, factor, term.of);
    }
    weighing
}

/// The least common multiple of the scale and the expression's denominators.
pub fn scale_with(start: u32, run: &Run, at: &ReadPoint, lin: &Lin) -> u32
    requires start_from { 1 ≤ start }
    requires terms_in { AreTerms run.now at.now lin.now.terms }
    requires least_to { scale_with start lin.now.terms ≤ 1000000 }
    ensures { result ≡ scale_with start lin.now.terms }
{
    let mut scale = start;
    for term in lin.terms.as_slice() {
        scale = with_denominator(scale, term.coef);
    }
    scale
}

/// Whether the sides of a comparison stand so, or the first operation that overflows in weighing it.
pub fn comparison(
    left: &Lin,
    rel: Rel5,
    right: &Lin,
    run: &Run,
    at: &ReadPoint,
) -> Result<bool, Stuck>
    requires run_in { IsRun run.now }
    requires at_in { IsReading run.now at.now }
    requires left_in { AreTerms run.now at.now left.now.terms }
    requires right_in { AreTerms run.now at.now right.now.terms }
    requires scale_to { scale_of_two left.now right.now ≤ 1000000 }
    ensures { result ≡ outcome at.now.row (leaf (comparison_claim (in_run run.now) at.now left.now rel right.now)) }
{
    let scale = scale_with(scale_with(1, run, at, left), run, at, right);
    let left_sum = plus_lin(Weighing::new(at.row), run, at, Side::Left, scale, left);
    plus_lin(left_sum, run, at, Side::Right, scale, right).stands(rel)
}

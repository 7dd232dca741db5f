//! Expressions as they are weighed: term by term, at a scale that all denominators of the comparison divide.
ghost use Rattle.condition_tree.specs.Trees.{leaf};
ghost use Rattle.claims.specs.Subjects.{in_run};
ghost use Rattle.std.specs.Prelude.{◌≡◌, ◌≤◌, All};
ghost use Rattle.run_rows.specs.Runs.{IsRun, flow_count};
ghost use Rattle.weighing.specs.Claim.{outcome};
ghost use Rattle.weighing.specs.Weighed.{weighed_from};
ghost use Rattle.question_text.specs.Expressions.{CanCompare, CanTake, HasNum, IsLeastScale, comparison_claim, lin_terms, scale_of_two, scale_with};

use crate::conditions::QLin;
use crate::names::{Rows, plus_of};
use run_rows::Run;
use weighing::{Rel5, Side, Weighing, with_denominator};
use whole::Stuck;

/// Whether the sides of a comparison stand so, or the first operation that overflows in weighing it.
pub fn comparison(left: &QLin, rel: Rel5, right: &QLin, run: &Run, at: &Rows) -> Result<bool, Stuck>
    requires run_in { IsRun run.now }
    requires can { CanCompare run.now at.now left.now right.now }
    ensures { result ≡ outcome at.now.last (leaf (comparison_claim (in_run run.now) (flow_count run.now 0) at.now left.now rel right.now)) }
{
    let scale = scale_of_two(left, right);
    let left_sum = plus_lin(Weighing::new(at.last), run, at, Side::Left, scale, left);
    plus_lin(left_sum, run, at, Side::Right, scale, right).stands(rel)
}

/// The least common multiple of the denominators of both sides.
fn scale_of_two(left: &QLin, right: &QLin) -> u32
    requires left_in { All HasNum left.now.terms }
    requires right_in { All HasNum right.now.terms }
    requires scale_to { scale_of_two left.now right.now ≤ 1000000 }
    ensures exact { result ≡ scale_of_two left.now right.now }
    ensures least { IsLeastScale left.now right.now result }
{
    let of_left = scale_with(1, left);
    scale_with(of_left, right)
}

/// The weighing with the terms of an expression on a side of a comparison.
fn plus_lin(start: Weighing, run: &Run, at: &Rows, side: Side, scale: u32, lin: &QLin) -> Weighing
    requires run_in { IsRun run.now }
    requires terms_in { All (CanTake run.now at.now) lin.now.terms }
    requires scale_to { scale ≤ 1000000 }
    ensures { result ≡ weighed_from start (lin_terms (in_run run.now) (flow_count run.now 0) at.now side scale lin.now.terms) }
{
    let mut weighing = start;
    for term in lin.terms.as_slice() {
        let factor = term.coef.scaled(scale, side);
        weighing = plus_of(weighing, run, at, factor, term.of);
    }
    weighing
}

/// The least common multiple of the scale and the expression's denominators.
fn scale_with(start: u32, lin: &QLin) -> u32
    requires start_from { 1 ≤ start }
    requires numbers_in { All HasNum lin.now.terms }
    requires least_to { scale_with start lin.now.terms ≤ 1000000 }
    ensures { result ≡ scale_with start lin.now.terms }
{
    let mut scale = start;
    for term in lin.terms.as_slice() {
        scale = with_denominator(scale, term.coef);
    }
    scale
}

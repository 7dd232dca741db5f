//! The states that a step gives: the rule that fires, and the first state that isn't what it gives.
ghost use Rattle.std.specs.Prelude.{◌≡◌, ◌<◌, length, None, Some};
ghost use Rattle.claims.specs.Subjects.{in_run};
ghost use Rattle.run_rows.specs.Runs.{IsRun, flow_of};
ghost use Rattle.weighing.specs.Claim.{outcome};
ghost use Rattle.ctrl_meaning.specs.Limits.{CanStep, CanSum};
ghost use Rattle.ctrl_meaning.specs.Readings.{IsReading, states_at};
ghost use Rattle.ctrl_meaning.specs.Steps.{differing, fired, set_claim};

use crate::asking::noted;
use crate::expressions::{plus_lin, scale_with};
use crate::gates::gate_holds;
use crate::readings::ReadPoint;
use ctrl_types::{Controller, Lin};
use run_rows::Run;
use weighing::{Rel5, Side, Summand, Weighing, compare};
use whole::Stuck;

/// The number of the first rule whose guard holds; all guards are weighed first.
#[tactic(auto, unfolding(crate::specs::Steps::fired))]
pub fn fired(controller: &Controller, run: &Run, at: &ReadPoint) -> Result<u32, Stuck>
    requires { CanStep controller.now run.now at.now }
    ensures { result ≡ fired controller.now run.now at.now }
{
    let rules = controller.rules.as_slice();
    let mut found = None;
    for rule in 0..rules.len() as u32 {
        let holds = gate_holds(&rules[rule as usize].guard, run, at)?;
        found = noted(found, rule, holds);
    }
    Ok(found.unwrap_or(rules.len() as u32 - 1))
}

/// The first state that isn't what the rule gives it; all states are weighed first.
#[tactic(auto, unfolding(crate::specs::Steps::differing))]
pub fn differing(
    controller: &Controller,
    run: &Run,
    at: &ReadPoint,
    rule: u32,
) -> Result<Option<u32>, Stuck>
    requires can { CanStep controller.now run.now at.now }
    requires rule_in { rule < length controller.now.rules }
    ensures { result ≡ differing controller.now run.now at.now rule }
{
    let sets = controller.rules.as_slice()[rule as usize].sets.as_slice();
    let mut found = None;
    for state in 0..controller.states.len() as u32 {
        let holds = is_set(run, at, state, &sets[state as usize])?;
        found = noted(found, state, !holds);
    }
    Ok(found)
}

/// Whether a state has the value of its expression or, where it has none, the value of the row before.
fn is_set(run: &Run, at: &ReadPoint, state: u32, set: &Option<Lin>) -> Result<bool, Stuck>
    requires run_in { IsRun run.now }
    requires at_in { IsReading run.now at.now }
    requires here { state < length (flow_of run.now at.now.row at.now.flow).x }
    requires before { state < states_at run.now at.now }
    requires set_in { CanSum run.now at.now set.now }
    ensures { result ≡ outcome at.now.row (set_claim (in_run run.now) at.now state set.now) }
{
    match set {
        None => is_kept(run, at, state),
        Some(lin) => has_value(run, at, state, lin),
    }
}

/// Whether a state has the value of the row before.
#[tactic(auto, using(whole::proofs::Overflow::signed))]
fn is_kept(run: &Run, at: &ReadPoint, state: u32) -> Result<bool, Stuck>
    requires run_in { IsRun run.now }
    requires at_in { IsReading run.now at.now }
    requires here { state < length (flow_of run.now at.now.row at.now.flow).x }
    requires before { state < states_at run.now at.now }
    ensures { result ≡ outcome at.now.row (set_claim (in_run run.now) at.now state None) }
{
    let here = run.state(at.row, at.flow, state);
    let before = run.state(at.states, at.flow, state);
    compare(
        at.row,
        &[Summand(1, here), Summand(-1, before)],
        Rel5::Equal,
    )
}

/// Whether a state has the value of the expression.
#[tactic(auto, using(whole::proofs::Overflow::signed))]
fn has_value(run: &Run, at: &ReadPoint, state: u32, lin: &Lin) -> Result<bool, Stuck>
    requires run_in { IsRun run.now }
    requires at_in { IsReading run.now at.now }
    requires here { state < length (flow_of run.now at.now.row at.now.flow).x }
    requires set_in { CanSum run.now at.now (Some lin.now) }
    ensures { result ≡ outcome at.now.row (set_claim (in_run run.now) at.now state (Some lin.now)) }
{
    let here = run.state(at.row, at.flow, state);
    let scale = scale_with(1, run, at, lin);
    let start = Weighing::new(at.row).plus(i128::from(scale), here);
    plus_lin(start, run, at, Side::Right, scale, lin).stands(Rel5::Equal)
}

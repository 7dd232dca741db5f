ghost use Rattle.std.specs.Prelude.{◌≡◌, ◌↔◌, ◌⊎◌, ◌<◌, ◌≤◌, ℕ, length, false};
ghost use Rattle.whole.specs.declared.answers.Stuck.{Stuck};
ghost use Rattle.weighing.specs.Weighed.{times};
ghost use Rattle.run_rows.specs.Runs.{IsEntry, IsRun, flow_count, flow_of};
ghost use Rattle.weighing.specs.Queries.{asked};
ghost use Rattle.weighing.specs.Claim.{all_claims, outcome};
ghost use Rattle.weighing.specs.Scaled.{IsNum};
ghost use Rattle.path_server.specs.Limits.{IsSetting};
ghost use Rattle.ctrl_types.specs.Limits.{IsController};
ghost use Rattle.ctrl_meaning.specs.Limits.{FitsBoth};
ghost use Rattle.ctrl_meaning.specs.Meaning.{IsFirstOut, IsStuckInOpening, NothingOverflowsInOpening, OpensWithin};
ghost use Rattle.ctrl_meaning.specs.Opening.{declared_state, opening, range_claims, state_in_range};

use crate::asking::noted;
use crate::expressions::negated;
use ctrl_types::{Controller, State};
use path_server::Setting;
use run_rows::Run;
use weighing::{Rel5, Summand, both, compare};
use whole::Stuck;

/// Whether the states of a flow lie within their ranges on the opening row.
#[derive(Clone, Copy, Debug, PartialEq, Eq)]
pub enum OpeningHolds {
    Yes,
    /// The first state that is out of its range.
    State { state: u32 },
    /// A comparison of a state with a bound overflows 128 bits.
    Wide(Stuck),
}

/// Whether each state of the flow lies within its range on the opening row. All states are weighed, in order, before
/// any is found to be out of its range. It takes no memory.
pub fn opening_holds(
    controller: &Controller,
    setting: &Setting,
    run: &Run,
    flow: u32,
) -> OpeningHolds
    requires controller_in { IsController controller.now }
    requires setting_in { IsSetting setting.now }
    requires run_in { FitsBoth controller.now setting.now run.now }
    requires flow_from { 1 ≤ flow }
    requires flow_to { flow ≤ setting.now.flows }
    ensures exact { result ≡ opening controller.now setting.now run.now flow }
    ensures yes { (result ≡ OpeningHolds.Yes) ↔ (NothingOverflowsInOpening controller.now setting.now run.now flow × OpensWithin controller.now setting.now run.now flow) }
    ensures state { (state : ℕ) → (result ≡ OpeningHolds.State state) ↔ IsFirstOut controller.now setting.now run.now flow state }
    ensures wide { (stuck : Stuck) → (result ≡ OpeningHolds.Wide stuck) ↔ IsStuckInOpening controller.now setting.now run.now flow stuck }

    // A flow that opens within its ranges is never found to be out of one.
    ensures found { OpensWithin controller.now setting.now run.now flow
        → (result ≡ OpeningHolds.Yes) ⊎ ((stuck : Stuck) × (result ≡ OpeningHolds.Wide stuck)) }
{
    examine_opening(controller, setting, run, flow)
}

/// The states of the flow on the opening row, in order.
#[tactic(auto, unfolding(crate::specs::Opening::opening))]
fn examine_opening(controller: &Controller, setting: &Setting, run: &Run, flow: u32) -> OpeningHolds
    requires controller_in { IsController controller.now }
    requires setting_in { IsSetting setting.now }
    requires run_in { FitsBoth controller.now setting.now run.now }
    requires flow_from { 1 ≤ flow }
    requires flow_to { flow ≤ setting.now.flows }
    ensures { result ≡ opening controller.now setting.now run.now flow }
{
    let states = controller.states.len() as u32;
    let row = setting.shape(states, controller.delay_max).h;
    match first_out_of_range(controller, run, row, flow) {
        Ok(None) => OpeningHolds::Yes,
        Ok(Some(state)) => OpeningHolds::State { state },
        Err(stuck) => OpeningHolds::Wide(stuck),
    }
}

/// The first state of the flow that is out of its range on this row; all are weighed first.
fn first_out_of_range(
    controller: &Controller,
    run: &Run,
    row: u32,
    flow: u32,
) -> Result<Option<u32>, Stuck>
    requires controller_in { IsController controller.now }
    requires run_in { IsRun run.now }
    requires row_in { row < length run.now.rows }
    requires flow_from { 1 ≤ flow }
    requires flow_to { flow ≤ flow_count run.now 0 }
    requires states_in { length (flow_of run.now row flow).x ≡ length controller.now.states }
    ensures { result ≡ asked false (state_in_range controller.now run.now row flow) (length controller.now.states) }
{
    let mut found = None;
    for state in 0..controller.states.len() as u32 {
        let declared = &controller.states.as_slice()[state as usize];
        let value = run.state(row, flow, state);
        let holds = is_in_range(declared, value, run.over, row)?;
        found = noted(found, state, !holds);
    }
    Ok(found)
}

/// Whether the value, in units of `1 / over`, lies within the state's range.
#[tactic(auto, using(whole::proofs::Overflow::signed))]
fn is_in_range(state: &State, value: i128, over: i128, row: u32) -> Result<bool, Stuck>
    requires lo_in { IsNum state.now.lo }
    requires hi_in { IsNum state.now.hi }
    requires value_in { IsEntry value }
    requires over_in { IsEntry over }
    ensures { result ≡ outcome row (all_claims (range_claims times state.now value over)) }
{
    let from = [
        Summand(state.lo.den, value),
        Summand(negated(state.lo.num), over),
    ];
    let to = [
        Summand(state.hi.den, value),
        Summand(negated(state.hi.num), over),
    ];
    both(
        compare(row, &from, Rel5::AtLeast),
        compare(row, &to, Rel5::AtMost),
    )
}

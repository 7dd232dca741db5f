ghost use Rattle.std.specs.Prelude.{◌≡◌, ◌↔◌, ◌⊎◌, ◌≤◌, ℕ};
ghost use Rattle.whole.specs.declared.answers.Stuck.{Stuck};
ghost use Rattle.path_server.specs.Limits.{IsSetting};
ghost use Rattle.ctrl_types.specs.Limits.{IsController};
ghost use Rattle.ctrl_meaning.specs.Limits.{FitsBoth, IsControlled};
ghost use Rattle.ctrl_meaning.specs.Meaning.{IsFirstDiffering, IsOtherArrival, IsStep, IsStuckInSend, IsStuckInStep, NothingOverflows};
ghost use Rattle.ctrl_meaning.specs.Steps.{step, stepping};

use crate::readings::ReadPoint;
use crate::send::sent;
use crate::states::{differing, fired};
use ctrl_types::Controller;
use path_server::Setting;
use run_rows::Run;
use whole::Stuck;

/// Whether a controlled row is a step of the controller for a flow.
#[derive(Clone, Copy, Debug, PartialEq, Eq)]
pub enum StepHolds {
    /// The rule with this number, counted from 0, fired; the states and the arrival are what it gives.
    Yes { rule: u32 },
    /// The first state that differs from what the rule that fires gives it.
    State { state: u32 },
    /// All states agree, and the arrival isn't what the window and the rate give.
    Arrival,
    /// A comparison of a guard or of a state overflows 128 bits.
    StepWide(Stuck),
    /// All states agree, and a comparison of the arrival overflows 128 bits.
    SendWide(Stuck),
}

/// Whether the row is a step of the controller for the flow: the rule that fires over the states of the row before and
/// the signals of the row that the sender hears of, the states that it gives, and what is sent. The guards are weighed
/// in order, then the states, before any of them counts; then the arrival. It takes no memory.
pub fn step_holds(
    controller: &Controller,
    setting: &Setting,
    run: &Run,
    row: u32,
    flow: u32,
) -> StepHolds
    requires controller_in { IsController controller.now }
    requires setting_in { IsSetting setting.now }
    requires run_in { FitsBoth controller.now setting.now run.now }
    requires row_in { IsControlled controller.now setting.now row }
    requires flow_from { 1 ≤ flow }
    requires flow_to { flow ≤ setting.now.flows }
    ensures exact { result ≡ step controller.now setting.now run.now row flow }
    ensures yes { (rule : ℕ) → (result ≡ StepHolds.Yes rule) ↔ (IsStep controller.now setting.now run.now row flow rule × NothingOverflows controller.now setting.now run.now row flow) }
    ensures state { (state : ℕ) → (result ≡ StepHolds.State state) ↔ IsFirstDiffering controller.now run.now (stepping setting.now row flow) state }
    ensures arrival { (result ≡ StepHolds.Arrival) ↔ IsOtherArrival controller.now setting.now run.now row flow }
    ensures step_wide { (stuck : Stuck) → (result ≡ StepHolds.StepWide stuck) ↔ IsStuckInStep controller.now setting.now run.now row flow stuck }
    ensures send_wide { (stuck : Stuck) → (result ≡ StepHolds.SendWide stuck) ↔ IsStuckInSend controller.now setting.now run.now row flow stuck }

    // A step is never found to be none.
    ensures found { (rule : ℕ) → IsStep controller.now setting.now run.now row flow rule
        → (result ≡ StepHolds.Yes rule) ⊎ ((stuck : Stuck) × ((result ≡ StepHolds.StepWide stuck) ⊎ (result ≡ StepHolds.SendWide stuck))) }
{
    examine_step(controller, setting, run, row, flow)
}

/// The guards, then the states, then the arrival.
#[tactic(auto, unfolding(crate::specs::Steps::step))]
fn examine_step(
    controller: &Controller,
    setting: &Setting,
    run: &Run,
    row: u32,
    flow: u32,
) -> StepHolds
    requires controller_in { IsController controller.now }
    requires setting_in { IsSetting setting.now }
    requires run_in { FitsBoth controller.now setting.now run.now }
    requires row_in { IsControlled controller.now setting.now row }
    requires flow_from { 1 ≤ flow }
    requires flow_to { flow ≤ setting.now.flows }
    ensures { result ≡ step controller.now setting.now run.now row flow }
{
    let heard = row - setting.rtt;
    let stepping = ReadPoint {
        row,
        flow,
        states: row - 1,
        heard,
    };
    let rule = match fired(controller, run, &stepping) {
        Ok(rule) => rule,
        Err(stuck) => return StepHolds::StepWide(stuck),
    };
    match differing(controller, run, &stepping, rule) {
        Ok(None) => {}
        Ok(Some(state)) => return StepHolds::State { state },
        Err(stuck) => return StepHolds::StepWide(stuck),
    }
    let sending = ReadPoint {
        row,
        flow,
        states: row,
        heard,
    };
    match sent(controller, run, &sending) {
        Ok(true) => StepHolds::Yes { rule },
        Ok(false) => StepHolds::Arrival,
        Err(stuck) => StepHolds::SendWide(stuck),
    }
}

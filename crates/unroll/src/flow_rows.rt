// The formulas of a row that say that each flow opens within its ranges, or takes a step of its controller.
ghost use Rattle.std.specs.Prelude.{◌≡◌, ◌↔◌, ◌<◌, ◌≤◌, ℕ, ℤ, pos, [], ◌∷◌, length, IfOk};
ghost use Rattle.claims.specs.Columns.{run_of};
ghost use Rattle.claims.specs.Subjects.{each_flow, part};
ghost use Rattle.clause_form.specs.Formulas.{AreTrueAt, CanTake, EachComparison};
ghost use Rattle.path_server.specs.Limits.{IsSetting};
ghost use Rattle.run_rows.specs.Columns.{entries_of, rows_of, value_at};
ghost use Rattle.run_rows.specs.declared.rows.Run.{Run};
ghost use Rattle.ctrl_types.specs.Limits.{IsController};
ghost use Rattle.ctrl_meaning.specs.Flows.{FlowsHold, controlled_row_claims, flow_claims, opening_row_claims, step_claims};
ghost use Rattle.ctrl_meaning.specs.Limits.{HasShape, IsControlled};
ghost use Rattle.ctrl_meaning.specs.Sends.{send_claim};
ghost use Rattle.ctrl_meaning.specs.Steps.{sending, stepping};
ghost use Rattle.unroll.specs.ClaimFormulas.{Adds, claim_formulas, trees};
ghost use Rattle.ctrl_meaning.specs.Flows.{shape_for};

use crate::openings::plus_opening;
use crate::sends::plus_send;
use crate::steps::plus_steps;
use clause_form::Formula;
use ctrl_meaning::ReadPoint;
use ctrl_types::Controller;
use path_server::Setting;
use question_text::Question;
use run_rows::Shape;
use std::alloc::Global;
use whole::NoMemory;

/// The formulas that the controller makes of a row, 0 to the last of the question's runs: on the opening row those of the
/// ranges of the states, by flow and state, or none where the opening is free; on a controlled row those of the rules, by
/// flow and rule, and after them, by flow, those of what is sent.
pub fn flow_row(
    alloc: Global,
    controller: &Controller,
    question: &Question,
    row: u32,
    free: bool,
) -> Result<Vec<Formula>, NoMemory>
    requires controller_in { IsController controller.now }
    requires setting_in { IsSetting question.now.setting }
    requires row_in { row < rows_of (shape_for controller.now question.now.setting) }
    ensures exact { IfOk result (λ fs. trees fs.items ≡ claim_formulas (shape_for controller.now question.now.setting) (flow_claims part free controller.now question.now.setting row)) }

    // At any values of the columns they are all true exactly where each flow opens or steps as it may, in the run of these values.
    ensures made { IfOk result (λ fs. (value : ℕ → ℤ) (over : ℕ) → 0 < over → AreTrueAt value over (trees fs.items) ↔ FlowsHold free controller.now question.now.setting (run_of (shape_for controller.now question.now.setting) value (pos over)) row) }

    // At the values of a run of the shape they are all true exactly where each flow opens or steps as it may in that run.
    ensures read { IfOk result (λ fs. (run : Run) (over : ℕ) → HasShape controller.now question.now.setting run → run.over ≡ pos over → AreTrueAt (value_at (shape_for controller.now question.now.setting) run) over (trees fs.items) ↔ FlowsHold free controller.now question.now.setting run row) }

    // They can be turned into clauses.
    ensures small { IfOk result (λ fs. EachComparison (CanTake (length (entries_of (shape_for controller.now question.now.setting)))) (trees fs.items)) }
{
    row_formulas(alloc, controller, &question.setting, row, free)
}

/// By the kind of the row.
#[tactic(auto, unfolding(ctrl_meaning::specs::Flows::flow_claims))]
fn row_formulas(
    alloc: Global,
    controller: &Controller,
    setting: &Setting,
    row: u32,
    free: bool,
) -> Result<Vec<Formula>, NoMemory>
    requires controller_in { IsController controller.now }
    requires setting_in { IsSetting setting.now }
    requires row_in { row < rows_of (shape_for controller.now setting.now) }
    ensures { IfOk result (λ fs. trees fs.items ≡ claim_formulas (shape_for controller.now setting.now) (flow_claims part free controller.now setting.now row)) }
{
    let shape = setting.shape(controller.states.len() as u32, controller.delay_max);
    if row < shape.h || (row == shape.h && free) {
        return Ok(Vec::new(alloc));
    }
    if row == shape.h {
        return opening_row(alloc, &shape, controller, setting, row);
    }
    controlled_row(alloc, &shape, controller, setting, row)
}

/// The ranges of each flow's states.
fn opening_row(
    alloc: Global,
    shape: &Shape,
    controller: &Controller,
    setting: &Setting,
    row: u32,
) -> Result<Vec<Formula>, NoMemory>
    requires controller_in { IsController controller.now }
    requires setting_in { IsSetting setting.now }
    requires shape_in { shape.now ≡ shape_for controller.now setting.now }
    requires row_in { row ≡ shape.now.h }
    ensures { IfOk result (λ fs. trees fs.items ≡ claim_formulas shape.now (opening_row_claims part controller.now setting.now row)) }
{
    let mut formulas = Vec::new(alloc);
    for index in 0..setting.flows {
        formulas = plus_opening(alloc, formulas, shape, controller, row, index + 1)?;
    }
    Ok(formulas)
}

/// The rules of all flows, and then what each sends.
fn controlled_row(
    alloc: Global,
    shape: &Shape,
    controller: &Controller,
    setting: &Setting,
    row: u32,
) -> Result<Vec<Formula>, NoMemory>
    requires controller_in { IsController controller.now }
    requires setting_in { IsSetting setting.now }
    requires shape_in { shape.now ≡ shape_for controller.now setting.now }
    requires row_in { IsControlled controller.now setting.now row }
    ensures { IfOk result (λ fs. trees fs.items ≡ claim_formulas shape.now (controlled_row_claims part controller.now setting.now row)) }
{
    let formulas = step_formulas(alloc, shape, controller, setting, row)?;
    plus_sends(alloc, formulas, shape, controller, setting, row)
}

/// The rules of each flow.
fn step_formulas(
    alloc: Global,
    shape: &Shape,
    controller: &Controller,
    setting: &Setting,
    row: u32,
) -> Result<Vec<Formula>, NoMemory>
    requires controller_in { IsController controller.now }
    requires setting_in { IsSetting setting.now }
    requires shape_in { shape.now ≡ shape_for controller.now setting.now }
    requires row_in { IsControlled controller.now setting.now row }
    ensures { IfOk result (λ fs. trees fs.items ≡ claim_formulas shape.now (each_flow (λ f. step_claims part controller.now (stepping setting.now row f)) setting.now.flows)) }
{
    let mut formulas = Vec::new(alloc);
    for index in 0..setting.flows {
        let at = ReadPoint {
            row,
            flow: index + 1,
            states: row - 1,
            heard: row - setting.rtt,
        };
        formulas = plus_steps(alloc, formulas, shape, &at, controller)?;
    }
    Ok(formulas)
}

/// The formulas with those of what each flow sends.
fn plus_sends(
    alloc: Global,
    formulas: Vec<Formula>,
    shape: &Shape,
    controller: &Controller,
    setting: &Setting,
    row: u32,
) -> Result<Vec<Formula>, NoMemory>
    requires controller_in { IsController controller.now }
    requires setting_in { IsSetting setting.now }
    requires shape_in { shape.now ≡ shape_for controller.now setting.now }
    requires row_in { IsControlled controller.now setting.now row }
    ensures { IfOk result (λ fs. Adds shape.now formulas.items (each_flow (λ f. send_claim part (sending setting.now row f) controller.now.window controller.now.rate ∷ []) setting.now.flows) fs.items) }
{
    let mut formulas = formulas;
    for index in 0..setting.flows {
        let at = ReadPoint {
            row,
            flow: index + 1,
            states: row,
            heard: row - setting.rtt,
        };
        formulas = plus_send(alloc, formulas, shape, &at, controller)?;
    }
    Ok(formulas)
}

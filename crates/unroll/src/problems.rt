// Problems: whether some run violates a question, as clauses.
ghost use Rattle.std.specs.Prelude.{◌≡◌, ◌<◌, ◌++◌, ℕ, ℤ, pos, Bool, IfOk, length, unsigned_abs};
ghost use Rattle.claims.specs.Columns.{run_of};
ghost use Rattle.clause_form.specs.Answers.{Gives};
ghost use Rattle.clause_form.specs.Building.{clauses_of};
ghost use Rattle.clause_form.specs.Models.{IsModel};
ghost use Rattle.clause_form.specs.WellFormed.{IsWellFormed};
ghost use Rattle.ctrl_meaning.specs.Flows.{shape_for};
ghost use Rattle.ctrl_types.specs.Limits.{IsController};
ghost use Rattle.question_text.specs.Claims.{CanUnroll};
ghost use Rattle.run_rows.specs.Columns.{entries_of, rows_of, value_at};
ghost use Rattle.run_rows.specs.declared.rows.Run.{Run};
ghost use Rattle.unroll.specs.ClaimFormulas.{Adds, trees};
ghost use Rattle.unroll.specs.Problems.{IsViolation, problem_formulas, row_problem};

use crate::flow_rows::flow_row;
use crate::formulas::with_all;
use crate::path_rows::path_row;
use crate::question_rows::question_formulas;
use clause_form::{BuildFault, Clauses, Formula, to_clauses};
use ctrl_types::Controller;
use question_text::Question;
use run_rows::Shape;
use std::alloc::Global;
use whole::NoMemory;

/// Whether some run violates a question, as clauses: their columns are those of the shape.
#[derive(Debug, Drop)]
pub struct Problem {
    pub shape: Shape,
    pub clauses: Clauses,
}

/// The clauses that have a model exactly where some run of the controller violates the question, whatever the run's
/// denominator and the size of its numbers.
///
/// The formulas are made row by row, first those of the path and then those of the flows; after all rows come the
/// assumptions and the negated requirement. Large comes where the next form of several columns, the next atom or the next
/// clause would be too many.
pub fn unroll(
    alloc: Global,
    controller: &Controller,
    question: &Question,
) -> Result<Problem, BuildFault>
    requires controller_in { IsController controller.now }
    requires question_in { CanUnroll (length controller.now.states) question.now }
    ensures exact { Gives (λ (p : Problem). p.clauses) result (clauses_of (length (entries_of (shape_for controller.now question.now.setting))) (problem_formulas controller.now question.now)) }
    ensures shape { IfOk result (λ p. p.shape ≡ shape_for controller.now question.now.setting) }

    // The run of a model's values is one of the controller that violates the question.
    ensures models { IfOk result (λ p. (value : ℕ → ℤ) (over : ℕ) (truth : ℕ → Bool) → 0 < over → IsModel p.clauses value over truth → IsViolation controller.now question.now (run_of p.shape value (pos over))) }

    // The values of each run of the controller that violates the question have truths of the atoms with which they are a model.
    ensures runs { IfOk result (λ p. (run : Run) → IsViolation controller.now question.now run → (truth : ℕ → Bool) × IsModel p.clauses (value_at p.shape run) (unsigned_abs run.over) truth) }

    ensures formed { IfOk result (λ p. IsWellFormed p.clauses) }
{
    let setting = &question.setting;
    let shape = setting.shape(controller.states.len() as u32, controller.delay_max);
    let formulas = formulas(alloc, controller, question, &shape)?;
    let clauses = to_clauses(alloc, shape.columns(), &formulas)?;
    Ok(Problem { shape, clauses })
}

/// The formulas of the rows, in order, and then those of the question.
fn formulas(
    alloc: Global,
    controller: &Controller,
    question: &Question,
    shape: &Shape,
) -> Result<Vec<Formula>, NoMemory>
    requires controller_in { IsController controller.now }
    requires question_in { CanUnroll (length controller.now.states) question.now }
    requires shape_is { shape.now ≡ shape_for controller.now question.now.setting }
    ensures { IfOk result (λ fs. trees fs.items ≡ problem_formulas controller.now question.now) }
{
    let mut formulas = Vec::new(alloc);
    for row in 0..shape.h + shape.t + 1 {
        formulas = with_row(alloc, formulas, controller, question, shape, row)?;
    }
    let asked = question_formulas(alloc, question, shape)?;
    with_all(formulas, asked)
}

/// The formulas of a row: those of the path and then those of the flows.
#[tactic(auto, unfolding(crate::specs::Problems::row_problem))]
fn with_row(
    alloc: Global,
    formulas: Vec<Formula>,
    controller: &Controller,
    question: &Question,
    shape: &Shape,
    row: u32,
) -> Result<Vec<Formula>, NoMemory>
    requires controller_in { IsController controller.now }
    requires question_in { CanUnroll (length controller.now.states) question.now }
    requires shape_is { shape.now ≡ shape_for controller.now question.now.setting }
    requires row_in { row < rows_of shape.now }
    ensures { IfOk result (λ fs. Adds (shape_for controller.now question.now.setting) formulas.items (row_problem controller.now question.now row) fs.items) }
{
    let path = path_row(alloc, &question.setting, shape, row)?;
    let flows = flow_row(alloc, controller, question, row, false)?;
    with_all(with_all(formulas, path)?, flows)
}

ghost use Rattle.std.specs.Prelude.{◌≡◌, ◌<◌, ◌-◌, ◌^◌, length, IfOk};
ghost use Rattle.ctrl_types.specs.Limits.{IsController};
ghost use Rattle.question_text.specs.Limits.{IsQuestion};
ghost use Rattle.problem_smt.specs.Problems.{Answers, answer_of, problem_of, text_of};
ghost use Rattle.problem_smt.specs.AskRefusals.{SaysOfFault};
ghost use Rattle.problem_smt.specs.Shown.{shown};

use crate::reports::{Report, Source};
use crate::requests::Kind;
use asked::{AskFault, Asked, ask};
use clause_form::{BuildFault, Clauses};
use smt_text::{counts_text, problem_text};
use std::alloc::Global;
use unroll::unroll;
use whole::NoMemory;

/// What is answered to the texts of a controller and a question: they are read in this order, and the problem that they pose
/// is unrolled and written.
pub(crate) fn answer(
    alloc: Global,
    kind: Kind,
    controller: &[u8],
    question: &[u8],
) -> Result<Report, NoMemory>
    requires controller_in { length controller.now < 2 ^ 32 - 1 }
    requires question_in { length question.now < 2 ^ 32 - 1 }
    ensures { IfOk result (λ report. Answers kind controller.now question.now (shown report)) }
{
    match ask(alloc, controller, question) {
        Ok(asked) => written(alloc, kind, &asked),
        Err(fault) => unasked(alloc, fault),
    }
}

/// The report on a text that isn't read.
fn unasked(alloc: Global, fault: AskFault) -> Result<Report, NoMemory>
    ensures { IfOk result (λ report. SaysOfFault fault (shown report)) }
{
    match fault {
        AskFault::Controller(refusal) => Ok(Report::refused(alloc, Source::Controller, refusal)?),
        AskFault::Question(refusal) => Ok(Report::refused(alloc, Source::Question, refusal)?),
        AskFault::NoMemory => Err(NoMemory),
    }
}

/// What is written of the problem, or that it is too large.
fn written(alloc: Global, kind: Kind, asked: &Asked) -> Result<Report, NoMemory>
    requires controller_in { IsController asked.now.controller }
    requires question_in { IsQuestion (length asked.now.controller.states) asked.now.question }
    ensures { IfOk result (λ report. shown report ≡ answer_of kind (problem_of asked.now.controller asked.now.question)) }
{
    match unroll(alloc, &asked.controller, &asked.question) {
        Ok(problem) => Ok(Report {
            status: 0,
            text: text_of(alloc, kind, &problem.clauses)?,
        }),
        Err(BuildFault::Large { what, limit }) => Ok(Report::too_large(alloc, what, limit)?),
        Err(BuildFault::NoMemory) => Err(NoMemory),
    }
}

fn text_of(alloc: Global, kind: Kind, clauses: &Clauses) -> Result<Vec<u8>, NoMemory>
    ensures { IfOk result (λ bytes. bytes.items ≡ text_of kind clauses.now) }
{
    match kind {
        Kind::Problem => problem_text(alloc, clauses),
        Kind::Counts => counts_text(alloc, clauses),
    }
}

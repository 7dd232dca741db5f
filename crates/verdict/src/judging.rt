// The verdict on a question about a controller.
ghost use Rattle.std.specs.Prelude.{◌≡◌, ◌<◌, ◌-◌, ◌^◌, Ok, length, IsOkUnless};
ghost use Rattle.run_rows.specs.Runs.{Bounded};
ghost use Rattle.ctrl_types.specs.Limits.{IsController};
ghost use Rattle.ctrl_types.specs.declared.controllers.Controller.{Controller as AController};
ghost use Rattle.question_text.specs.Limits.{IsQuestion};
ghost use Rattle.question_text.specs.declared.questions.Question.{Question as AQuestion};
ghost use Rattle.clause_form.specs.declared.clauses.Clauses.{Clauses as SomeClauses};
ghost use Rattle.asked.specs.Asked.{AreAsked};
ghost use Rattle.unroll.specs.Problems.{IsViolation};
ghost use Rattle.verdict.specs.Deciding.{Decides};
ghost use Rattle.verdict.specs.Judging.{Concludes, FaultUnless, IsReplayed, Judges, Refuses, Settles, of_asking, of_building};
ghost use Rattle.verdict.specs.Problems.{IsProblemOf, problem_of};
ghost use Rattle.verdict.specs.declared.judging.JudgeFault.{JudgeFault as AFault};

use crate::deciding::{Decided, decide, decide_total};
use asked::{AskFault, Asked, ask};
use clause_form::{BuildFault, What};
use farkas_cert::Cert;
use lra_solve::Spent;
use run_rows::{Run, Shape};
use std::alloc::Global;
use thiserror::Error;
use trace_replay::{Replayed, replay};
use unroll::{Problem, unroll};
use whole::{Refusal, Stuck};

/// What is found of a question about a controller.
#[derive(Debug, Drop)]
pub enum Verdict {
    /// The run, of this shape, is one of the controller's flows on an admitted path, and violates the question.
    Violated(Shape, Run),
    /// No run violates the question, as this certificate proves.
    Verified(Cert),
    /// The question's whole budget is spent, and a further move may be made.
    Budget(Spent),
    /// An operation has a result past 128 bits: in the search, in the values of a model, or in replaying their run, whose
    /// place is `Replay`, with the row and 0.
    Wide(Stuck, Spent),
}

/// Why there is no verdict.
#[derive(Clone, Copy, Debug, PartialEq, Eq, Error)]
pub enum JudgeFault {
    #[error("a rule of the controller's text is broken at line {}", .0.line)]
    Controller(Refusal),
    #[error("a rule of the question's text is broken at line {}", .0.line)]
    Question(Refusal),
    #[error("more than {limit} of {what:?}")]
    Large { what: What, limit: u32 },
    #[error("out of memory")]
    NoMemory,
}

/// The verdict on the question whose text the second bytes are, about the controller whose text the first are.
///
/// The controller is read first, then the question, and then their problem is unrolled; the first of these that is refused
/// is the fault. A run that is found is replayed. That it is broken, or that the certificate fails its checker, never comes.
pub fn judge(alloc: Global, controller: &[u8], question: &[u8]) -> Result<Verdict, JudgeFault>
    requires controller_in { length controller.now < 2 ^ 32 - 1 }
    requires question_in { length question.now < 2 ^ 32 - 1 }
    ensures judges { Judges controller.now question.now result }

    // What is refused, or too large, is answered by that fault, unless memory runs out.
    ensures refused { (fault : AFault) → Refuses controller.now question.now fault → FaultUnless fault result }

    // Else there is a verdict, unless memory runs out.
    ensures only { (c : AController) (q : AQuestion) (clauses : SomeClauses) → AreAsked controller.now question.now c q → problem_of c q ≡ Ok clauses
        → IsOkUnless result JudgeFault.NoMemory }
{
    read_and_conclude(alloc, controller, question)
}

/// The verdict on two texts, or why there is none.
fn read_and_conclude(
    alloc: Global,
    controller: &[u8],
    question: &[u8],
) -> Result<Verdict, JudgeFault>
    requires controller_in { length controller.now < 2 ^ 32 - 1 }
    requires question_in { length question.now < 2 ^ 32 - 1 }
    ensures { Judges controller.now question.now result }
{
    match ask(alloc, controller, question) {
        Ok(asked) => conclude(alloc, &asked),
        Err(fault) => Err(of_asking(fault)),
    }
}

/// Why there is no verdict on texts that weren't read.
fn of_asking(fault: AskFault) -> JudgeFault
    ensures { result ≡ of_asking fault }
{
    match fault {
        AskFault::Controller(refusal) => JudgeFault::Controller(refusal),
        AskFault::Question(refusal) => JudgeFault::Question(refusal),
        AskFault::NoMemory => JudgeFault::NoMemory,
    }
}

/// The verdict on a question about a controller, or that their problem is too large.
pub fn conclude(alloc: Global, asked: &Asked) -> Result<Verdict, JudgeFault>
    requires controller_in { IsController asked.now.controller }
    requires question_in { IsQuestion (length asked.now.controller.states) asked.now.question }
    ensures { Concludes asked.now.controller asked.now.question result }
{
    match unroll(alloc, &asked.controller, &asked.question) {
        Ok(problem) => settle(alloc, asked, problem),
        Err(fault) => Err(of_building(fault)),
    }
}

/// Why there is no verdict on a problem that wasn't made.
fn of_building(fault: BuildFault) -> JudgeFault
    ensures { result ≡ of_building fault }
{
    match fault {
        BuildFault::Large { what, limit } => JudgeFault::Large { what, limit },
        BuildFault::NoMemory => JudgeFault::NoMemory,
    }
}

/// The verdict on the problem that a question poses. Where the replay of the run overflows that is found, the search goes on
/// to a truth of each atom, as another run may be weighed exactly.
fn settle(alloc: Global, asked: &Asked, problem: Problem) -> Result<Verdict, JudgeFault>
    requires controller_in { IsController asked.now.controller }
    requires question_in { IsQuestion (length asked.now.controller.states) asked.now.question }
    requires problem_in { IsProblemOf asked.now.controller asked.now.question problem }
    ensures { Concludes asked.now.controller asked.now.question result }
{
    let decided = decide(alloc, &problem, asked.question.setting.budget);
    match confirmed(asked, &problem, decided) {
        Settled::Verdict(verdict) => Ok(verdict),
        Settled::Overflow(_stuck, _spent) => settle_total(alloc, asked, &problem),
        Settled::NoMemory => Err(JudgeFault::NoMemory),
    }
}

/// The same by a search that never stops before each atom has a truth.
fn settle_total(alloc: Global, asked: &Asked, problem: &Problem) -> Result<Verdict, JudgeFault>
    requires controller_in { IsController asked.now.controller }
    requires question_in { IsQuestion (length asked.now.controller.states) asked.now.question }
    requires problem_in { IsProblemOf asked.now.controller asked.now.question problem.now }
    ensures { Concludes asked.now.controller asked.now.question result }
{
    let decided = decide_total(alloc, problem, asked.question.setting.budget);
    match confirmed(asked, problem, decided) {
        Settled::Verdict(verdict) => Ok(verdict),
        Settled::Overflow(stuck, spent) => Ok(Verdict::Wide(stuck, spent)),
        Settled::NoMemory => Err(JudgeFault::NoMemory),
    }
}

/// What an answer about a problem comes to.
#[derive(Debug, Drop)]
enum Settled {
    Verdict(Verdict),
    /// The run of a model is found, and an operation of its replay has a result past 128 bits.
    Overflow(Stuck, Spent),
    NoMemory,
}

/// What an answer about a problem comes to.
fn confirmed(asked: &Asked, problem: &Problem, decided: Decided) -> Settled
    requires controller_in { IsController asked.now.controller }
    requires question_in { IsQuestion (length asked.now.controller.states) asked.now.question }
    requires problem_in { IsProblemOf asked.now.controller asked.now.question problem.now }
    requires decides { Decides problem.now asked.now.question.setting.budget decided }
    ensures { Settles asked.now.controller asked.now.question problem.now decided result }
{
    match decided {
        Decided::Model(run, spent) => replayed(asked, problem.shape, run, spent),
        Decided::Closed(cert) => Settled::Verdict(Verdict::Verified(cert)),
        Decided::Spent(spent) => Settled::Verdict(Verdict::Budget(spent)),
        Decided::Stuck(stuck, spent) => Settled::Verdict(Verdict::Wide(stuck, spent)),
        Decided::NoMemory => Settled::NoMemory,
    }
}

/// The verdict once a run is found: it violates the question, unless a weighing of its replay is stuck.
fn replayed(asked: &Asked, shape: Shape, run: Run, spent: Spent) -> Settled
    requires controller_in { IsController asked.now.controller }
    requires question_in { IsQuestion (length asked.now.controller.states) asked.now.question }
    requires violation { IsViolation asked.now.controller asked.now.question run }
    requires bounded { Bounded run }
    ensures { IsReplayed asked.now.controller asked.now.question shape run spent result }
{
    match replay(&asked.controller, &asked.question, &run) {
        Replayed::Wide(stuck) => Settled::Overflow(stuck, spent),
        // A violation is found to be one, or its replay is stuck.
        _ => Settled::Verdict(Verdict::Violated(shape, run)),
    }
}

//! Whether a run is one of a controller's flows on an admitted path, and whether it violates the question.
ghost use Rattle.std.specs.Prelude.{◌≡◌, ◌↔◌, ◌⊎◌, ℕ, length};
ghost use Rattle.whole.specs.declared.answers.Stuck.{Stuck};
ghost use Rattle.run_rows.specs.Runs.{Bounded};
ghost use Rattle.ctrl_types.specs.Limits.{IsController};
ghost use Rattle.question_text.specs.Limits.{CanAsk, IsQuestion};
ghost use Rattle.question_text.specs.Meaning.{Violates};
ghost use Rattle.question_text.specs.Violation.{violation};
ghost use Rattle.trace_replay.specs.Replaying.{of_question, replaying};
ghost use Rattle.ctrl_meaning.specs.RunOf.{RunOf};
ghost use Rattle.trace_replay.specs.Meaning.{IsFirstBroken, IsFirstWide, NothingOverflows};
ghost use Rattle.trace_replay.specs.declared.replaying.RunRule.{RunRule};

use crate::fitted::FittedRun;
use ctrl_types::Controller;
use path_server::PathScales;
use question_text::{Question, violates};
use run_rows::Run;
use whole::Stuck;

/// What a run of a controller's flows has to keep.
#[derive(Clone, Copy, Debug, PartialEq, Eq)]
pub enum RunRule {
    /// It has the shape of the question's runs.
    Shape,
    /// It keeps the rule of the path with this number, 0 to 9.
    P(u8),
    /// On the opening row each state lies within its range.
    Opening,
    /// On a controlled row each state is what the rule that fires gives it.
    Step,
    /// On a controlled row the arrivals are what the window and the rate give.
    Send,
}

/// What comes of replaying a run.
#[derive(Clone, Copy, Debug, PartialEq, Eq)]
pub enum Replayed {
    /// It is a run of the controller's flows, and violates the question.
    Violating,
    /// It is a run of the controller's flows, and doesn't violate the question.
    Keeps,
    /// The first rule that is broken, with its row, and its flow or 0; row 0 and flow 0 for the shape.
    Broken { rule: RunRule, row: u32, flow: u32 },
    /// A comparison came before any broken rule whose exact weighing overflows 128 bits.
    Wide(Stuck),
}

/// Whether the run is one of the controller's flows on a path of the question, and whether it violates the question.
///
/// The shape is asked first. Then the rows go in order: on each the rules of the path, on the opening row the states'
/// ranges, on a controlled row the steps of all flows and then what they send. After all rows the question is asked.
/// It takes any run, and no memory.
pub fn replay(controller: &Controller, question: &Question, run: &Run) -> Replayed
    requires controller_in { IsController controller.now }
    requires question_in { IsQuestion (length controller.now.states) question.now }
    ensures exact { result ≡ replaying controller.now question.now run.now }
    ensures violating { result ≡ Replayed.Violating → RunOf controller.now question.now.setting run.now × Violates question.now run.now }
    ensures keeps { result ≡ Replayed.Keeps → RunOf controller.now question.now.setting run.now × (Violates question.now run.now → ⊥) }
    ensures broken { (rule : RunRule) (row flow : ℕ) → (result ≡ Replayed.Broken rule row flow)
        ↔ IsFirstBroken controller.now question.now run.now rule row flow }
    ensures wide { (stuck : Stuck) → (result ≡ Replayed.Wide stuck) ↔ IsFirstWide controller.now question.now run.now stuck }

    // Where an answer is about the question, no weighing overflows.
    ensures violating_weighed { result ≡ Replayed.Violating → Bounded run.now × NothingOverflows controller.now question.now run.now }
    ensures keeps_weighed { result ≡ Replayed.Keeps → Bounded run.now × NothingOverflows controller.now question.now run.now }

    // A run of the controller's flows is found to be one, unless a weighing overflows.
    ensures violation_found { RunOf controller.now question.now.setting run.now → Bounded run.now → NothingOverflows controller.now question.now run.now
        → Violates question.now run.now → result ≡ Replayed.Violating }
    ensures keeping_found { RunOf controller.now question.now.setting run.now → Bounded run.now → NothingOverflows controller.now question.now run.now
        → (Violates question.now run.now → ⊥) → result ≡ Replayed.Keeps }

    // Whatever overflows, it is never found to break a rule, nor a violation to be none, nor the other way round.
    ensures violation_answered { RunOf controller.now question.now.setting run.now → Bounded run.now → Violates question.now run.now
        → (result ≡ Replayed.Violating) ⊎ ((stuck : Stuck) × (result ≡ Replayed.Wide stuck)) }
    ensures keeping_answered { RunOf controller.now question.now.setting run.now → Bounded run.now → (Violates question.now run.now → ⊥)
        → (result ≡ Replayed.Keeps) ⊎ ((stuck : Stuck) × (result ≡ Replayed.Wide stuck)) }
{
    examine(controller, question, run)
}

/// The shape, the rows, and then the question.
fn examine(controller: &Controller, question: &Question, run: &Run) -> Replayed
    requires controller_in { IsController controller.now }
    requires question_in { IsQuestion (length controller.now.states) question.now }
    ensures { result ≡ replaying controller.now question.now run.now }
{
    let states = controller.states.len() as u32;
    let shape = question.setting.shape(states, controller.delay_max);
    if !run.fits(&shape) {
        return Replayed::Broken {
            rule: RunRule::Shape,
            row: 0,
            flow: 0,
        };
    }
    let fitted = FittedRun {
        controller,
        question,
        run,
        opening: shape.h,
        scales: PathScales::of(&question.setting.path),
    };
    match fitted.examine_rows() {
        Ok(()) => answer_question(question, run),
        Err(stop) => stop,
    }
}

/// Whether the run violates the question.
fn answer_question(question: &Question, run: &Run) -> Replayed
    requires { CanAsk question.now run.now }
    ensures { result ≡ of_question (violation question.now run.now) }
{
    match violates(question, run) {
        Ok(true) => Replayed::Violating,
        Ok(false) => Replayed::Keeps,
        Err(stuck) => Replayed::Wide(stuck),
    }
}

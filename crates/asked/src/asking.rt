// A controller and a question, read one after the other.
ghost use Rattle.std.specs.Prelude.{◌≡◌, ◌<◌, ◌-◌, ◌^◌, length, IfOk, IfErr, IsOkUnless};
ghost use Rattle.whole.specs.declared.answers.Refusal.{Refusal};
ghost use Rattle.ctrl_syntax.specs.declared.syntax.Syntax.{Syntax};
ghost use Rattle.ctrl_types.specs.declared.controllers.Controller.{Controller as AController};
ghost use Rattle.question_text.specs.Texts.{IsRefused};
ghost use Rattle.question_text.specs.declared.questions.Question.{Question as AQuestion};
ghost use Rattle.asked.specs.Asked.{AreAsked, AskFails, FaultUnless, of_controller, of_question};
ghost use Rattle.asked.specs.Texts.{IsControllerRefused, IsControllerText};

use crate::controllers::read_controller;
use ctrl_types::Controller;
use question_text::{Question, read};
use std::alloc::Global;
use thiserror::Error;
use whole::{ReadFault, Refusal};

/// A controller and a question about it.
#[derive(Debug, Drop)]
pub struct Asked {
    pub controller: Controller,
    pub question: Question,
}

/// Why two texts aren't those of a controller and a question about it.
#[derive(Clone, Copy, Debug, PartialEq, Eq, Error)]
pub enum AskFault {
    #[error("a rule of the controller's text is broken at line {}", .0.line)]
    Controller(Refusal),
    #[error("a rule of the question's text is broken at line {}", .0.line)]
    Question(Refusal),
    #[error("out of memory")]
    NoMemory,
}

/// The controller and the question whose texts these are. The controller is read first; of the text that is refused, the
/// first broken rule is named.
pub fn ask(alloc: Global, controller: &[u8], question: &[u8]) -> Result<Asked, AskFault>
    requires controller_in { length controller.now < 2 ^ 32 - 1 }
    requires question_in { length question.now < 2 ^ 32 - 1 }
    ensures found { IfOk result (λ asked. AreAsked controller.now question.now asked.controller asked.question) }
    ensures refused { IfErr result (λ fault. AskFails controller.now question.now fault) }

    // The two texts of a controller and a question are read, unless memory runs out.
    ensures only { (c : AController) (q : AQuestion) → AreAsked controller.now question.now c q → IsOkUnless result AskFault.NoMemory }

    // What breaks a rule first is refused by it, unless memory runs out.
    ensures first { (r : Refusal) → IsControllerRefused controller.now r → FaultUnless (AskFault.Controller r) result }
    ensures second { (syntax : Syntax) (c : AController) (r : Refusal) → IsControllerText controller.now syntax c → IsRefused c question.now r → FaultUnless (AskFault.Question r) result }
{
    read_both(alloc, controller, question)
}

fn read_both(alloc: Global, controller: &[u8], question: &[u8]) -> Result<Asked, AskFault>
    requires controller_in { length controller.now < 2 ^ 32 - 1 }
    requires question_in { length question.now < 2 ^ 32 - 1 }
    ensures found { IfOk result (λ asked. AreAsked controller.now question.now asked.controller asked.question) }
    ensures refused { IfErr result (λ fault. AskFails controller.now question.now fault) }
{
    let controller = match read_controller(alloc, controller) {
        Ok((_syntax, controller)) => controller,
        Err(fault) => return Err(of_controller(fault)),
    };
    match read(alloc, question, &controller) {
        Ok(question) => Ok(Asked {
            controller,
            question,
        }),
        Err(fault) => Err(of_question(fault)),
    }
}

/// Why the controller's text wasn't read.
fn of_controller(fault: ReadFault) -> AskFault
    ensures { result ≡ of_controller fault }
{
    match fault {
        ReadFault::Refused(refusal) => AskFault::Controller(refusal),
        ReadFault::NoMemory => AskFault::NoMemory,
    }
}

/// Why the question's text wasn't read.
fn of_question(fault: ReadFault) -> AskFault
    ensures { result ≡ of_question fault }
{
    match fault {
        ReadFault::Refused(refusal) => AskFault::Question(refusal),
        ReadFault::NoMemory => AskFault::NoMemory,
    }
}

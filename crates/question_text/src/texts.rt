//! The text of a question for a controller.
ghost use Rattle.std.specs.Prelude.{◌≡◌, ◌^◌, ◌<◌, ◌-◌, ℕ, List, length, IfOk, IsErrOf, Ok, Err};
ghost use Rattle.whole.specs.declared.answers.Refusal.{Refusal};
ghost use Rattle.ctrl_syntax.specs.Views.{GivesSeenUnless};
ghost use Rattle.ctrl_types.specs.Limits.{IsController};
ghost use Rattle.question_syntax.specs.Printed.{printed};
ghost use Rattle.question_text.specs.Limits.{IsQuestion};
ghost use Rattle.question_text.specs.StatementRules.{SeenQuestion, question_seen};
ghost use Rattle.question_text.specs.Texts.{HasText, IsRefused, IsTextOf, sections_written};

use crate::lines::resolved;
use crate::questions::Question;
use crate::writing::written;
use ctrl_types::Controller;
use question_syntax::{print_syntax, read_syntax};
use std::alloc::Global;
use whole::{NoMemory, ReadFault};

/// The question of a text for this controller; where the bytes are no such text, the first rule that they break. Q1 to
/// Q11, which `question_syntax::read_syntax` tells, come first. Then, by line and in one line by the least number: Q12 a
/// name that is unknown, a flow that isn't 1 to `flows` or that a state lacks where there are several or that `credit` or
/// `W` has, a step of `credit` or past `steps`; Q13 names of different kinds in one comparison; Q14 denominators that
/// carry the least common multiple of the controller's and of this text's past 1,000,000.
pub fn read(alloc: Global, bytes: &[u8], controller: &Controller) -> Result<Question, ReadFault>
    requires bytes_to { length bytes.now < 2 ^ 32 - 1 }
    requires controller_in { IsController controller.now }

    // The bytes are a text of the question that is given, and the question of a text is given, unless memory runs out.
    ensures found { IfOk result (λ question. IsTextOf controller.now bytes.now (question_seen question)) }
    ensures only { (question : SeenQuestion) → IsTextOf controller.now bytes.now question → GivesSeenUnless question_seen result (Ok question) }

    // What is refused breaks this rule first, and what breaks a rule first is refused by it, unless memory runs out.
    ensures refused { (r : Refusal) → IsErrOf result (ReadFault.Refused r) → IsRefused controller.now bytes.now r }
    ensures first { (r : Refusal) → IsRefused controller.now bytes.now r → GivesSeenUnless question_seen result (Err r) }

    // What is given is within the limits of questions about the controller.
    ensures limits { IfOk result (λ question. IsQuestion (length controller.now.states) question) }
{
    let syntax = read_syntax(alloc, bytes)?;
    resolved(alloc, &syntax, controller)
}

/// The canonical text of a question that `read` can give for this controller: a state is printed as `x@t` where there is
/// one flow, a sum over the flows without a flow, and the numbers as they were written. Reading it gives the question
/// again.
pub fn print(
    alloc: Global,
    question: &Question,
    controller: &Controller,
) -> Result<Vec<u8>, NoMemory>
    requires controller_in { IsController controller.now }
    requires question_in { HasText controller.now (question_seen question.now) }
    ensures exact { IfOk result (λ out. out.items ≡ printed (sections_written controller.now.states (question_seen question.now))) }
    ensures again { IfOk result (λ out. IsTextOf controller.now out.items (question_seen question.now)) }
{
    text_bytes(alloc, question, controller)
}

fn text_bytes(
    alloc: Global,
    question: &Question,
    controller: &Controller,
) -> Result<Vec<u8>, NoMemory>
    ensures { IfOk result (λ out. out.items ≡ printed (sections_written controller.now.states (question_seen question.now))) }
{
    let syntax = written(alloc, question, controller.states.as_slice())?;
    print_syntax(alloc, &syntax)
}

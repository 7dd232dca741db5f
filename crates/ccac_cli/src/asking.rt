ghost use Rattle.std.specs.Prelude.{◌<◌, ◌-◌, ◌^◌, length, IfOk, IfErr};
ghost use Rattle.asked.specs.Asked.{AreAsked};
ghost use Rattle.ccac_cli.specs.AskAnswers.{AskRefused};
ghost use Rattle.file_reports.specs.Halted.{HaltsBy};
ghost use Rattle.ccac_cli.specs.Halted.{HaltsAsAsked};

use asked::{AskFault, Asked, ask};
use file_reports::{EarlyEnd, Source, halted};
use std::alloc::Global;
use whole::ReadFault;

/// The controller and the question whose texts these are, or the report on the first that is refused.
pub(crate) fn read_asked(
    alloc: Global,
    controller: &[u8],
    question: &[u8],
) -> Result<Asked, EarlyEnd>
    requires controller_in { length controller.now < 2 ^ 32 - 1 }
    requires question_in { length question.now < 2 ^ 32 - 1 }
    ensures found { IfOk result (λ asked. AreAsked controller.now question.now asked.controller asked.question) }
    ensures halted { IfErr result (λ halt. HaltsBy (AskRefused controller.now question.now) halt) }
{
    match ask(alloc, controller, question) {
        Ok(asked) => Ok(asked),
        Err(fault) => Err(unasked(alloc, fault)),
    }
}

/// How a command ends where its controller or its question is refused.
fn unasked(alloc: Global, fault: AskFault) -> EarlyEnd
    ensures { HaltsAsAsked fault result }
{
    match fault {
        AskFault::Controller(refusal) => {
            halted(alloc, Source::Controller, ReadFault::Refused(refusal))
        }
        AskFault::Question(refusal) => {
            halted(alloc, Source::Question, ReadFault::Refused(refusal))
        }
        AskFault::NoMemory => EarlyEnd::NoMemory,
    }
}

ghost use Rattle.std.specs.Prelude.{◌<◌, ◌-◌, ◌^◌, length};
ghost use Rattle.ccac_cli.specs.Formats.{FormatAnswers, QuestionFormat};
ghost use Rattle.file_reports.specs.Halted.{Replies};

use crate::asking::read_asked;
use crate::reports::file_report;
use asked::read_controller;
use ctrl_syntax::print;
use file_reports::{EarlyEnd, Report, Source, halted};
use question_text::print as print_question;
use std::alloc::Global;

/// The report on a controller that is to be put canonically.
pub(crate) fn format(alloc: Global, controller: &[u8]) -> Result<Report, EarlyEnd>
    requires { length controller.now < 2 ^ 32 - 1 }
    ensures { Replies (FormatAnswers controller.now) result }
{
    match read_controller(alloc, controller) {
        Ok((syntax, _controller)) => Ok(file_report(print(alloc, &syntax)?)),
        Err(fault) => Err(halted(alloc, Source::Controller, fault)),
    }
}

/// The report on a question about a controller that is to be put canonically; the controller is read first.
pub(crate) fn format_question(
    alloc: Global,
    controller: &[u8],
    question: &[u8],
) -> Result<Report, EarlyEnd>
    requires controller_in { length controller.now < 2 ^ 32 - 1 }
    requires question_in { length question.now < 2 ^ 32 - 1 }
    ensures { Replies (QuestionFormat controller.now question.now) result }
{
    let asked = match read_asked(alloc, controller, question) {
        Ok(asked) => asked,
        Err(halt) => return Err(halt),
    };
    Ok(file_report(print_question(alloc, &asked.question, &asked.controller)?))
}

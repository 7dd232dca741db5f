ghost use Rattle.std.specs.Prelude.{◌<◌, ◌-◌, ◌^◌, length};
ghost use Rattle.file_reports.specs.Halted.{Replies};
ghost use Rattle.ccac_cli.specs.Replays.{ReplayAnswers, RunAnswers};
ghost use Rattle.ctrl_types.specs.Limits.{IsController};
ghost use Rattle.question_text.specs.Limits.{IsQuestion};

use crate::asking::read_asked;
use crate::reports::replay_report;
use crate::saved::behind_verdict;
use asked::Asked;
use file_reports::{EarlyEnd, Report, Source, halted};
use std::alloc::Global;
use trace_replay::{read_trace, replay as replay_run};

/// The report on a controller, a question and a trace, which are read in this order.
pub(crate) fn replay(
    alloc: Global,
    controller: &[u8],
    question: &[u8],
    trace: &[u8],
) -> Result<Report, EarlyEnd>
    requires controller_in { length controller.now < 2 ^ 32 - 1 }
    requires question_in { length question.now < 2 ^ 32 - 1 }
    requires trace_in { length trace.now < 2 ^ 32 - 1 }
    ensures { Replies (ReplayAnswers controller.now question.now trace.now) result }
{
    let asked = match read_asked(alloc, controller, question) {
        Ok(asked) => asked,
        Err(halt) => return Err(halt),
    };
    replay_trace(alloc, &asked, trace)
}

/// The report on a trace, where a controller is asked a question.
fn replay_trace(alloc: Global, asked: &Asked, trace: &[u8]) -> Result<Report, EarlyEnd>
    requires controller_in { IsController asked.now.controller }
    requires question_in { IsQuestion (length asked.now.controller.states) asked.now.question }
    requires trace_in { length trace.now < 2 ^ 32 - 1 }
    ensures { Replies (RunAnswers trace.now asked.now.controller asked.now.question) result }
{
    match read_trace(alloc, behind_verdict(trace)) {
        Ok((_shape, run)) => {
            let found = replay_run(&asked.controller, &asked.question, &run);
            Ok(replay_report(alloc, found)?)
        }
        Err(fault) => Err(halted(alloc, Source::Trace, fault)),
    }
}

ghost use Rattle.std.specs.Prelude.{◌<◌, ◌-◌, ◌^◌, length, IfOk};
ghost use Rattle.path_server.specs.Limits.{IsPath, IsSetting};
ghost use Rattle.run_rows.specs.Limits.{IsWithin};
ghost use Rattle.run_rows.specs.Runs.{Fits};
ghost use Rattle.draw_trace.specs.Drawing.{Answers, RunAnswers, TraceAnswers};
ghost use Rattle.draw_trace.specs.Shown.{shown};

use crate::reports::{Report, Source};
use crate::saved::behind_verdict;
use path_server::Setting;
use picture_svg::svg;
use question_syntax::read_setting;
use run_rows::{Run, Shape};
use std::alloc::Global;
use trace_picture::{DrawFault, draw};
use trace_text::read_trace;
use whole::{NoMemory, ReadFault};

/// What is answered to the texts of a question and a trace, which are read in this order.
pub(crate) fn answer(alloc: Global, question: &[u8], trace: &[u8]) -> Result<Report, NoMemory>
    requires question_in { length question.now < 2 ^ 32 - 1 }
    requires trace_in { length trace.now < 2 ^ 32 - 1 }
    ensures { IfOk result (λ report. Answers question.now trace.now (shown report)) }
{
    match read_setting(alloc, question) {
        Ok(setting) => on_setting(alloc, &setting, trace),
        Err(ReadFault::Refused(refusal)) => Ok(Report::refused(alloc, Source::Question, refusal)?),
        Err(ReadFault::NoMemory) => Err(NoMemory),
    }
}

/// What is answered to a trace, on the path of a setting.
fn on_setting(alloc: Global, setting: &Setting, trace: &[u8]) -> Result<Report, NoMemory>
    requires setting_in { IsSetting setting.now }
    requires trace_in { length trace.now < 2 ^ 32 - 1 }
    ensures { IfOk result (λ report. TraceAnswers setting.now trace.now (shown report)) }
{
    match read_trace(alloc, behind_verdict(trace)) {
        Ok((shape, run)) => drawn(alloc, setting, &shape, &run),
        Err(ReadFault::Refused(refusal)) => Ok(Report::refused(alloc, Source::Trace, refusal)?),
        Err(ReadFault::NoMemory) => Err(NoMemory),
    }
}

/// The picture of the run, or that its numbers are too wide.
fn drawn(alloc: Global, setting: &Setting, shape: &Shape, run: &Run) -> Result<Report, NoMemory>
    requires path_in { IsPath setting.now.path }
    requires within { IsWithin shape.now }
    requires fits { Fits shape.now run.now }
    ensures { IfOk result (λ report. RunAnswers setting.now shape.now run.now (shown report)) }
{
    match draw(alloc, &setting.path, shape, run) {
        Ok(picture) => Ok(Report {
            status: 0,
            text: svg(alloc, &picture)?,
        }),
        Err(DrawFault::Wide) => Ok(Report::too_wide(alloc)?),
        Err(DrawFault::NoMemory) => Err(NoMemory),
    }
}

ghost use Rattle.std.specs.Prelude.{◌<◌, ◌-◌, ◌^◌, length};
ghost use Rattle.path_server.specs.Limits.{IsSetting};
ghost use Rattle.ccac_cli.specs.Admitting.{AdmitAnswers, TraceAnswers};
ghost use Rattle.file_reports.specs.Halted.{Replies};

use crate::reports::admit_report;
use crate::saved::behind_verdict;
use file_reports::{EarlyEnd, Report, Source, halted};
use path_server::{Setting, admits};
use question_text::read_setting;
use std::alloc::Global;
use trace_replay::read_trace;

/// The report on a question and a trace: the question is read first.
pub(crate) fn admit(alloc: Global, question: &[u8], trace: &[u8]) -> Result<Report, EarlyEnd>
    requires question_in { length question.now < 2 ^ 32 - 1 }
    requires trace_in { length trace.now < 2 ^ 32 - 1 }
    ensures { Replies (AdmitAnswers question.now trace.now) result }
{
    match read_setting(alloc, question) {
        Ok(setting) => admit_trace(alloc, &setting, trace),
        Err(fault) => Err(halted(alloc, Source::Question, fault)),
    }
}

/// The report on a trace, on the path of a setting.
fn admit_trace(alloc: Global, setting: &Setting, trace: &[u8]) -> Result<Report, EarlyEnd>
    requires setting_in { IsSetting setting.now }
    requires trace_in { length trace.now < 2 ^ 32 - 1 }
    ensures { Replies (TraceAnswers setting.now trace.now) result }
{
    match read_trace(alloc, behind_verdict(trace)) {
        Ok((_shape, run)) => Ok(admit_report(alloc, admits(&setting.path, &run))?),
        Err(fault) => Err(halted(alloc, Source::Trace, fault)),
    }
}

ghost use Rattle.std.specs.Prelude.{IfOk, map, string_bytes};
ghost use Rattle.problem_smt.specs.Ordered.{ordered};
ghost use Rattle.problem_smt.specs.Ended.{Delivers, Ends, Settles, WordsSettle};
ghost use Rattle.problem_smt.specs.Requests.{request_of};
ghost use Rattle.problem_smt.specs.Shown.{shown};

use crate::answering::answer;
use crate::fetching::{EarlyEnd, fetch_both};
use crate::reports::Report;
use crate::requests::{Request, request_of};
use ccac_ports::{Folder, PutFault, Sink};
use std::alloc::Global;
use whole::NoMemory;

/// Carries out the words of a call, those after the program's name: fetches the two files, puts what is asked for by one
/// call, and gives the status.
pub(crate) fn run<F: Folder, S: Sink>(
    alloc: Global,
    words: &[String],
    folder: &mut F,
    out: &mut S,
) -> u8
    ensures { Ends (WordsSettle (F.tells folder.old) (F.tells folder.new) (request_of (map string_bytes words.now))) (S.got out.old) (S.got out.new) result }
{
    match report_on(alloc, words, folder) {
        Ok(report) => deliver(&report, out),
        Err(NoMemory) => 7,
    }
}

/// The report on the words.
fn report_on<F: Folder>(alloc: Global, words: &[String], folder: &mut F) -> Result<Report, NoMemory>
    ensures { IfOk result (λ report. WordsSettle (F.tells folder.old) (F.tells folder.new) (request_of (map string_bytes words.now)) (shown report)) }
{
    let Some(request) = request_of(words) else {
        return Ok(Report::usage(alloc)?);
    };
    carried_out(alloc, folder, request)
}

/// The report on a request.
fn carried_out<F: Folder>(
    alloc: Global,
    folder: &mut F,
    request: Request<'_>,
) -> Result<Report, NoMemory>
    ensures { IfOk result (λ report. Settles (F.tells folder.old) (F.tells folder.new) (ordered request.entry) (shown report)) }
{
    match fetch_both(alloc, folder, request.controller, request.question) {
        Ok(texts) => answer(
            alloc,
            request.kind,
            texts.controller.as_slice(),
            texts.question.as_slice(),
        ),
        Err(EarlyEnd::Report(report)) => Ok(report),
        Err(EarlyEnd::NoMemory) => Err(NoMemory),
    }
}

/// Puts the report, and gives the status with which the call ends.
fn deliver<S: Sink>(report: &Report, out: &mut S) -> u8
    ensures { Delivers (shown report.now) (S.got out.old) (S.got out.new) result }
{
    match out.put(report.text.as_slice()) {
        Ok(()) => report.status,
        Err(PutFault::Failed) => 6,
        Err(PutFault::NoMemory) => 7,
    }
}

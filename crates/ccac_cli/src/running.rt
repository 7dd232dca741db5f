ghost use Rattle.std.specs.Prelude.{◌≡◌, ◌≤◌, ◌⊎◌, ℕ, List, IfOk, None, Some, length, map, string_bytes};
ghost use Rattle.ccac_ports.specs.Ports.{HasRisen};
ghost use Rattle.file_reports.specs.Ended.{Ends, IsAnswered};
ghost use Rattle.file_reports.specs.Halted.{Replies};
ghost use Rattle.file_reports.specs.Reports.{Answer};
ghost use Rattle.file_reports.specs.Shown.{shown};
ghost use Rattle.ccac_cli.specs.Commands.{Order, Takes, check, order_of};
ghost use Rattle.ccac_cli.specs.Ended.{Answers, CanCheck, OrderAnswers, ToldAnswers};
ghost use Rattle.ccac_cli.specs.Headline.{Headline};
ghost use Rattle.ccac_cli.specs.Meaning.{IsMeant};

use crate::commands::{Command, order_of};
use ccac_ports::{Folder, Sink};
use file_reports::{EarlyEnd, Report, deliver, fetch_all};
use std::alloc::Global;
use whole::NoMemory;

/// Carries out the words of a command line, those after the program's name: fetches the files that they name,
/// puts the report by one call, and gives the status.
///
/// `check CTRL QUEST` reports `verified` and a certificate that no run violates the question with 0, `violated` and the trace of
/// a run that does with 1, and with 2 `unknown budget`, or `unknown wide` and the operation whose result overflows 128 bits,
/// and the journal of the search. `audit`, `replay` and `admit` take such a report as the file of its certificate or trace.
/// `admit QUEST TRACE` reports `admitted` with 0, `broken RULE row I flow F` with 1, and `wide row I` with 2.
/// `replay CTRL QUEST TRACE` reports `violating` with 0, `keeps` or `broken RULE row I flow F` with 1, and `wide row I`
/// with 2. `audit CTRL QUEST CERT` reports `proved` with 0, `fails lemma N node M cause Kk` with 1, and `wide lemma N node M
/// column J` with 2. `fmt CTRL` and `fmt CTRL QUEST` report the canonical text of the last named file with 0.
/// A refused file is 3, words that are no command 4, a file that can't be read 5, a sink that fails 6,
/// and want of memory 7.
pub fn run<F: Folder, S: Sink>(
    alloc: Global,
    words: &Vec<String>,
    folder: &mut F,
    out: &mut S,
) -> u8
    ensures ended { Ends (Answers (F.tells folder.old) (F.tells folder.new) (order_of (map string_bytes words.now.items))) (S.got out.old) (S.got out.new) result }

    // What `check` comes to, phrase by phrase in the words of the sentence that says what the program does.
    ensures headline { (c q : List ℕ) → order_of (map string_bytes words.now.items) ≡ Some (check c q)
        → Ends (Headline (F.tells folder.old) (F.tells folder.new) c q) (S.got out.old) (S.got out.new) result }

    // What was put with 0, 1 and 2 means what this status says, of the files that the folder tells.
    ensures means { result ≤ 2 → IsMeant (F.tells folder.old) (order_of (map string_bytes words.now.items)) (S.got out.old) (S.got out.new) result }

    // Files that are told, without a fault of them or of the sink, have their answer put, unless memory runs out.
    ensures complete { (order : Order) (a : Answer) → order_of (map string_bytes words.now.items) ≡ Some order
        → ToldAnswers (F.tells folder.old) (F.tells folder.new) order a → (HasRisen (S.got out.old).faults (S.got out.new).faults → ⊥)
        → IsAnswered a (S.got out.old) (S.got out.new) result }

    // A question that is told, with its controller, and whose problem isn't too large, is decided: with 0, 1 or 2.
    ensures decided { (c q : List ℕ) → order_of (map string_bytes words.now.items) ≡ Some (check c q) → CanCheck (F.tells folder.old) (F.tells folder.new) c q
        → (HasRisen (S.got out.old).faults (S.got out.new).faults → ⊥) → (result ≤ 2) ⊎ (result ≡ 7) }
    ensures no_command { result ≡ 4 → order_of (map string_bytes words.now.items) ≡ None }
    ensures usage { order_of (map string_bytes words.now.items) ≡ None → (result ≡ 4) ⊎ (result ≡ 6) ⊎ (result ≡ 7) }
{
    match report_on(alloc, words.as_slice(), folder) {
        Ok(report) => deliver(&report, out),
        Err(NoMemory) => 7,
    }
}

/// The report on the words.
fn report_on<F: Folder>(alloc: Global, words: &[String], folder: &mut F) -> Result<Report, NoMemory>
    ensures { IfOk result (λ report. Answers (F.tells folder.old) (F.tells folder.new) (order_of (map string_bytes words.now)) (shown report)) }
{
    let Some(order) = order_of(words) else {
        return Ok(Report::usage(alloc)?);
    };
    match carried_out(alloc, folder, order.command, order.names) {
        Ok(report) | Err(EarlyEnd::Report(report)) => Ok(report),
        Err(EarlyEnd::NoMemory) => Err(NoMemory),
    }
}

/// The report on a command: its files are fetched in their order, and then their bytes are answered.
fn carried_out<F: Folder>(
    alloc: Global,
    folder: &mut F,
    command: Command,
    names: &[String],
) -> Result<Report, EarlyEnd>
    requires { Takes command (length names.now) }
    ensures { Replies (OrderAnswers (F.tells folder.old) (F.tells folder.new) (record { command = command; names = map string_bytes names.now })) result }
{
    let texts = fetch_all(alloc, folder, command.entry().files, names)?;
    command.answer(alloc, texts.as_slice())
}

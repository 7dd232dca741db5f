ghost use Rattle.std.specs.Prelude.{◌≡◌, ◌++◌, ◌<◌, ◌-◌, ◌^◌, length, IfOk, string_bytes};
ghost use Rattle.ccac_cli.specs.Checks.{CheckAnswers, IsPrintable, op_word, operation_items, pair_items, place_word, verdict_report, wide_line};
ghost use Rattle.file_reports.specs.Halted.{Replies};
ghost use Rattle.file_reports.specs.Shown.{shown};

use crate::reports::size_report;
use cert_text::{print_cert, print_journal};
use file_reports::{EarlyEnd, Report, Source, halted};
use std::alloc::{AllocError, Global};
use trace_text::print_trace;
use verdict::{JudgeFault, Verdict, judge};
use whole::{NoMemory, Op, Pair, Place, ReadFault, Stuck};

/// The report on a controller and a question: the two texts are read in this order, and the question is decided.
pub(crate) fn check(alloc: Global, controller: &[u8], question: &[u8]) -> Result<Report, EarlyEnd>
    requires controller_in { length controller.now < 2 ^ 32 - 1 }
    requires question_in { length question.now < 2 ^ 32 - 1 }
    ensures { Replies (CheckAnswers controller.now question.now) result }
{
    match judge(alloc, controller, question) {
        Ok(verdict) => Ok(verdict_report(alloc, &verdict)?),
        Err(JudgeFault::Controller(refusal)) => {
            let fault = ReadFault::Refused(refusal);
            Err(halted(alloc, Source::Controller, fault))
        }
        Err(JudgeFault::Question(refusal)) => {
            let fault = ReadFault::Refused(refusal);
            Err(halted(alloc, Source::Question, fault))
        }
        Err(JudgeFault::Large { what, limit }) => Ok(size_report(alloc, what, limit)?),
        Err(JudgeFault::NoMemory) => Err(EarlyEnd::NoMemory),
    }
}

/// The verdict, with the run, the certificate, or the journal of the search that was given up.
#[tactic(auto, unfolding(crate::specs::Checks::violated_report, crate::specs::Checks::verified_report, crate::specs::Checks::unknown_report))]
fn verdict_report(alloc: Global, verdict: &Verdict) -> Result<Report, NoMemory>
    requires { IsPrintable verdict.now }
    ensures { IfOk result (λ report. shown report ≡ verdict_report verdict.now) }
{
    match verdict {
        Verdict::Violated(shape, run) => {
            let trace = print_trace(alloc, shape, run)?;
            Ok(headed(alloc, 1, "violated\n", trace)?)
        }
        Verdict::Verified(cert) => {
            let cert = print_cert(alloc, cert)?;
            Ok(headed(alloc, 0, "verified\n", cert)?)
        }
        Verdict::Budget(spent) => {
            let journal = print_journal(alloc, &spent.journal)?;
            Ok(headed(alloc, 2, "unknown budget\n", journal)?)
        }
        Verdict::Wide(stuck, spent) => {
            let line = wide_line(alloc, stuck)?;
            let journal = print_journal(alloc, &spent.journal)?;
            Ok(headed(alloc, 2, line.as_str(), journal)?)
        }
    }
}

/// The report with this status that is a line and then a text.
fn headed(alloc: Global, status: u8, line: &str, text: Vec<u8>) -> Result<Report, AllocError>
    ensures { IfOk result (λ report. shown report ≡ record { status = status; text = line.now ++ text.items }) }
{
    let mut bytes = String::from_str(alloc, line)?.into_bytes();
    let mut text = text;
    bytes.append(&mut text)?;
    Ok(Report {
        status,
        text: bytes,
    })
}

/// The line that names an operation whose result overflows 128 bits.
#[tactic(auto, unfolding(crate::specs::Checks::wide_line))]
fn wide_line(alloc: Global, stuck: &Stuck) -> Result<String, AllocError>
    ensures { IfOk result (λ line. string_bytes line ≡ wide_line stuck.now) }
{
    let operation = operation_items(alloc, stuck)?;
    let left = pair_items(alloc, stuck.left)?;
    let right = pair_items(alloc, stuck.right)?;
    format!(in alloc; "unknown wide {operation} {left} {right}\n")
}

/// Its place, what is numbered there, and what it forms.
#[tactic(auto, unfolding(crate::specs::Checks::operation_items))]
fn operation_items(alloc: Global, stuck: &Stuck) -> Result<String, AllocError>
    ensures { IfOk result (λ items. string_bytes items ≡ operation_items stuck.now) }
{
    let place = place_word(stuck.place);
    let op = op_word(stuck.op);
    let (at, by) = (stuck.at, stuck.by);
    format!(in alloc; "{place} {at} {by} {op}")
}

/// A numerator and a denominator.
#[tactic(auto, unfolding(crate::specs::Checks::pair_items))]
fn pair_items(alloc: Global, pair: Pair) -> Result<String, AllocError>
    ensures { IfOk result (λ items. string_bytes items ≡ pair_items pair) }
{
    let (num, den) = (pair.num, pair.den);
    format!(in alloc; "{num} {den}")
}

fn place_word(place: Place) -> &'static str
    ensures { result.now ≡ place_word place }
{
    match place {
        Place::Bound => "bound",
        Place::Value => "value",
        Place::Pivot => "pivot",
        Place::Multiplier => "multiplier",
        Place::Epsilon => "epsilon",
        Place::Scale => "scale",
        Place::Column => "column",
        Place::Replay => "replay",
    }
}

fn op_word(op: Op) -> &'static str
    ensures { result.now ≡ op_word op }
{
    match op {
        Op::Product => "product",
        Op::Sum => "sum",
    }
}

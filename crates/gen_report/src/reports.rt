ghost use Rattle.std.specs.Prelude.{◌≡◌, ◌++◌, [], IfOk, string_bytes};
ghost use Rattle.gen_report.specs.Reports.{head_lines, report_of, verdict_word};
ghost use Rattle.gen_report.specs.Shown.{seed_seen, shown};

use crate::seeds::Seed;
use std::alloc::{AllocError, Global};

/// The status of a verdict that says that nothing was found, behind which the search's report stands.
const UNKNOWN: u8 = 2;

/// A report with its status.
#[derive(Debug, Drop)]
pub struct Report {
    pub status: u8,
    pub text: Vec<u8>,
}

/// The report on a generated problem whose two texts have these lengths, and for which `check` reports this text with this
/// status: four lines, behind which the report of an unknown follows. A refusal stays as it is.
pub fn report_of(
    alloc: Global,
    seed: Seed,
    controller: usize,
    question: usize,
    status: u8,
    text: &[u8],
) -> Result<Report, AllocError>
    ensures { IfOk result (λ report. shown report ≡ report_of (seed_seen seed) controller question status text.now) }
{
    if status > UNKNOWN {
        return Ok(Report {
            status,
            text: Vec::from_slice(alloc, text)?,
        });
    }
    let mut report = head_lines(alloc, seed, controller, question, status)?.into_bytes();
    if status == UNKNOWN {
        report.extend_from_slice(text)?;
    }
    Ok(Report {
        status: 0,
        text: report,
    })
}

/// The four lines.
#[tactic(auto, unfolding(crate::specs::Reports::head_lines))]
fn head_lines(
    alloc: Global,
    seed: Seed,
    controller: usize,
    question: usize,
    status: u8,
) -> Result<String, AllocError>
    ensures { IfOk result (λ lines. string_bytes lines ≡ head_lines (seed_seen seed) controller question status) }
{
    let size = seed.size;
    let seed = seed.seed;
    let word = verdict_word(status);
    format!(in alloc;
        "gen {seed} {size}\ncontroller {controller}\nquestion {question}\nverdict {word}\n"
    )
}

/// The first word of the verdict that has this status.
fn verdict_word(status: u8) -> &'static str
    ensures { result.now ≡ verdict_word status }
{
    match status {
        0 => "verified",
        1 => "violated",
        _ => "unknown",
    }
}

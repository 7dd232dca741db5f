ghost use Rattle.std.specs.Prelude.{◌≤◌, IfOk};
ghost use Rattle.file_reports.specs.Ended.{Ends};
ghost use Rattle.gen_report.specs.Shown.{seed_seen, shown};
ghost use Rattle.command_line.specs.Generated.{Generates, answer_of};

use ccac_ports::{MemSink, Sink};
use gen_report::{Report, Seed, problem_of, report_of, words_to_check};
use report_put::{NO_MEMORY, put};
use std::alloc::Global;
use whole::NoMemory;

/// The greatest status with which a report was put whole.
pub(crate) const LAST_WHOLE: u8 = 5;

/// Puts the report on the problem of a seed.
pub(crate) fn generate<S: Sink>(alloc: Global, seed: Seed, out: &mut S) -> u8
    requires { (1 ≤ seed.size) × (seed.size ≤ 32) }
    ensures { Ends (Generates (seed_seen seed)) (S.got out.old) (S.got out.new) result }
{
    match generated(alloc, seed) {
        Ok(report) => put(report.status, report.text.as_slice(), out),
        Err(NoMemory) => NO_MEMORY,
    }
}

/// The report on the problem of a seed: its two texts are judged in memory.
fn generated(alloc: Global, seed: Seed) -> Result<Report, NoMemory>
    requires { (1 ≤ seed.size) × (seed.size ≤ 32) }
    ensures { IfOk result (λ report. Generates (seed_seen seed) (answer_of (shown report))) }
{
    let mut problem = problem_of(alloc, seed)?;
    let words = words_to_check(alloc)?;
    let mut kept = MemSink::new(alloc);
    let status = ccac_cli::run(alloc, &words, &mut problem.folder, &mut kept);
    if status > LAST_WHOLE {
        return Err(NoMemory);
    }
    Ok(report_of(
        alloc,
        seed,
        problem.controller,
        problem.question,
        status,
        kept.text(),
    )?)
}

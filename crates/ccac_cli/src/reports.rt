ghost use Rattle.std.specs.Prelude.{◌≡◌, IfOk};
ghost use Rattle.file_reports.specs.Shown.{shown};
ghost use Rattle.ccac_cli.specs.Formats.{formatted};
ghost use Rattle.ccac_cli.specs.Reports.{SaysOfCheck, broken, replay_verdict, size_word, too_large, unproved, verdict, wide, wide_sum};

use cert_check::Checked;
use clause_form::What;
use file_reports::Report;
use path_server::Admit;
use std::alloc::{AllocError, Global};
use trace_replay::{Replayed, RunRule};
use whole::{NoMemory, Stuck};

/// The text of a file, which is put whole.
pub(crate) fn file_report(text: Vec<u8>) -> Report
    ensures { shown result ≡ formatted text.items }
{
    Report { status: 0, text }
}

/// The report on a problem that would pass this limit.
#[tactic(auto, unfolding(crate::specs::Reports::too_large))]
pub(crate) fn size_report(alloc: Global, what: What, limit: u32) -> Result<Report, AllocError>
    ensures { IfOk result (λ report. shown report ≡ too_large what limit) }
{
    let text = format!(in alloc; "refused large {} {limit}\n", size_word(what))?;
    Ok(Report::line(3, text))
}

/// What there is too much of in a problem, as reports name it.
fn size_word(what: What) -> &'static str
    ensures { result.now ≡ size_word what }
{
    match what {
        What::Forms => "forms",
        What::Atoms => "atoms",
        What::Clauses => "clauses",
    }
}

/// The report on a run that a path admits or not.
#[tactic(auto, unfolding(crate::specs::Reports::verdict))]
pub(crate) fn admit_report(alloc: Global, admit: Admit) -> Result<Report, AllocError>
    ensures { IfOk result (λ report. shown report ≡ verdict admit) }
{
    match admit {
        Admit::Yes => Report::of(alloc, 0, "admitted\n"),
        Admit::Broken { rule, row, flow } => broken(alloc, RunRule::P(rule), row, flow),
        Admit::Wide(stuck) => wide(alloc, stuck),
    }
}

/// The report on a run that was replayed.
#[tactic(auto, unfolding(crate::specs::Reports::replay_verdict))]
pub(crate) fn replay_report(alloc: Global, replayed: Replayed) -> Result<Report, AllocError>
    ensures { IfOk result (λ report. shown report ≡ replay_verdict replayed) }
{
    match replayed {
        Replayed::Violating => Report::of(alloc, 0, "violating\n"),
        Replayed::Keeps => Report::of(alloc, 1, "keeps\n"),
        Replayed::Broken { rule, row, flow } => broken(alloc, rule, row, flow),
        Replayed::Wide(stuck) => wide(alloc, stuck),
    }
}

/// The report on a run that breaks a rule at a row, for a flow or, under flow 0, for all.
#[tactic(auto, unfolding(crate::specs::Reports::broken))]
fn broken(alloc: Global, rule: RunRule, row: u32, flow: u32) -> Result<Report, AllocError>
    ensures { IfOk result (λ report. shown report ≡ broken rule row flow) }
{
    let text = match rule {
        RunRule::Shape => format!(in alloc; "broken shape row {row} flow {flow}\n")?,
        RunRule::P(number) => format!(in alloc; "broken P{number} row {row} flow {flow}\n")?,
        RunRule::Opening => format!(in alloc; "broken opening row {row} flow {flow}\n")?,
        RunRule::Step => format!(in alloc; "broken step row {row} flow {flow}\n")?,
        RunRule::Send => format!(in alloc; "broken send row {row} flow {flow}\n")?,
    };
    Ok(Report::line(1, text))
}

/// The report on a run of which a comparison overflows 128 bits.
#[tactic(auto, unfolding(crate::specs::Reports::wide))]
fn wide(alloc: Global, stuck: Stuck) -> Result<Report, AllocError>
    ensures { IfOk result (λ report. shown report ≡ wide stuck) }
{
    let row = stuck.at;
    let text = format!(in alloc; "wide row {row}\n")?;
    Ok(Report::line(2, text))
}

/// The report on a certificate that was checked.
pub(crate) fn audit_report(alloc: Global, checked: Checked) -> Result<Report, NoMemory>
    ensures { IfOk result (λ report. SaysOfCheck checked (shown report)) }
{
    match checked {
        Checked::Proved => Ok(Report::of(alloc, 0, "proved\n")?),
        Checked::Fails { lemma, node, cause } => Ok(unproved(alloc, lemma, node, cause)?),
        Checked::Wide {
            lemma,
            node,
            column,
        } => Ok(wide_sum(alloc, lemma, node, column)?),
        Checked::NoMemory => Err(NoMemory),
    }
}

/// The report on a certificate that fails at a node of a lemma, by the cause with this number.
#[tactic(auto, unfolding(crate::specs::Reports::unproved))]
fn unproved(alloc: Global, lemma: u32, node: u32, cause: u8) -> Result<Report, AllocError>
    ensures { IfOk result (λ report. shown report ≡ unproved lemma node cause) }
{
    let text = format!(in alloc; "fails lemma {lemma} node {node} cause K{cause}\n")?;
    Ok(Report::line(1, text))
}

/// The report on a certificate of which a sum at a node of a lemma overflows 128 bits.
#[tactic(auto, unfolding(crate::specs::Reports::wide_sum))]
fn wide_sum(alloc: Global, lemma: u32, node: u32, column: u32) -> Result<Report, AllocError>
    ensures { IfOk result (λ report. shown report ≡ wide_sum lemma node column) }
{
    let text = format!(in alloc; "wide lemma {lemma} node {node} column {column}\n")?;
    Ok(Report::line(2, text))
}

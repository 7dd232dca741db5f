use crate::sources::Source;
use std::alloc::{AllocError, Global};
use whole::Refusal;

/// What is put, and the status that goes with it.
#[derive(Debug, Drop)]
pub struct Report {
    pub status: u8,
    pub text: Vec<u8>,
}

impl Report {
    ghost use Rattle.std.specs.Prelude.{◌≡◌, IfOk, string_bytes};
    ghost use Rattle.file_reports.specs.Reports.{read_fault, refused, too_long, usage};
    ghost use Rattle.file_reports.specs.Shown.{shown};

    /// The report with this status and this line.
    pub fn line(status: u8, line: String) -> Report
        ensures { shown result ≡ record { status = status; text = string_bytes line } }
    {
        Report {
            status,
            text: line.into_bytes(),
        }
    }

    /// The report with this status and this text.
    pub fn of(alloc: Global, status: u8, text: &str) -> Result<Report, AllocError>
        ensures { IfOk result (λ report. shown report ≡ record { status = status; text = text.now }) }
    {
        Ok(Report::line(status, String::from_str(alloc, text)?))
    }

    /// The report on words that are no command: 4.
    #[tactic(auto, unfolding(crate::specs::Reports::usage))]
    pub fn usage(alloc: Global) -> Result<Report, AllocError>
        ensures { IfOk result (λ report. shown report ≡ usage) }
    {
        Report::of(alloc, 4, "usage\n")
    }

    /// The report on a file that can't be read: 5.
    #[tactic(auto, unfolding(crate::specs::Reports::read_fault))]
    pub fn read_fault(alloc: Global, source: Source) -> Result<Report, AllocError>
        ensures { IfOk result (λ report. shown report ≡ read_fault source) }
    {
        let text = format!(in alloc; "read fault {}\n", source.word())?;
        Ok(Report::line(5, text))
    }

    /// The report on a file that has more bytes than it may: 3.
    #[tactic(auto, unfolding(crate::specs::Reports::too_long))]
    pub fn too_long(alloc: Global, source: Source) -> Result<Report, AllocError>
        ensures { IfOk result (λ report. shown report ≡ too_long source) }
    {
        let text = format!(in alloc; "refused {} too long\n", source.word())?;
        Ok(Report::line(3, text))
    }

    /// The report on a file whose text breaks a rule: 3.
    #[tactic(auto, unfolding(crate::specs::Reports::refused))]
    pub fn refused(alloc: Global, source: Source, refusal: Refusal) -> Result<Report, AllocError>
        ensures { IfOk result (λ report. shown report ≡ refused source refusal) }
    {
        let letter = char::from(refusal.letter);
        let number = refusal.number;
        let line = refusal.line;
        let text = format!(in alloc; "refused {} {letter}{number} line {line}\n", source.word())?;
        Ok(Report::line(3, text))
    }
}

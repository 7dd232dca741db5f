use std::alloc::{AllocError, Global};
use whole::Refusal;

/// A file that is read, as reports name it.
#[derive(Clone, Copy, Debug, PartialEq, Eq)]
pub(crate) enum Source {
    Question,
    Trace,
}

/// What is put, and the status that goes with it.
#[derive(Debug, Drop)]
pub(crate) struct Report {
    pub status: u8,
    pub text: Vec<u8>,
}

impl Source {
    ghost use Rattle.std.specs.Prelude.{◌≡◌};
    ghost use Rattle.draw_trace.specs.Reports.{word_of};

    pub(crate) fn word(self) -> &'static str
        ensures { result.now ≡ word_of self }
    {
        match self {
            Source::Question => "question",
            Source::Trace => "trace",
        }
    }
}

impl Report {
    ghost use Rattle.std.specs.Prelude.{◌≡◌, IfOk, string_bytes};
    ghost use Rattle.draw_trace.specs.Reports.{read_fault, refused, too_wide, too_long, usage};
    ghost use Rattle.draw_trace.specs.Shown.{shown};

    /// The report with this status and this line.
    fn line(status: u8, line: String) -> Report
        ensures { shown result ≡ record { status = status; text = string_bytes line } }
    {
        Report {
            status,
            text: line.into_bytes(),
        }
    }

    #[tactic(auto, unfolding(crate::specs::Reports::usage))]
    pub(crate) fn usage(alloc: Global) -> Result<Report, AllocError>
        ensures { IfOk result (λ report. shown report ≡ usage) }
    {
        let text = String::from_str(alloc, "usage: draw_trace QUEST TRACE\n")?;
        Ok(Report::line(4, text))
    }

    #[tactic(auto, unfolding(crate::specs::Reports::read_fault))]
    pub(crate) fn read_fault(alloc: Global, source: Source) -> Result<Report, AllocError>
        ensures { IfOk result (λ report. shown report ≡ read_fault source) }
    {
        let text = format!(in alloc; "read fault {}\n", source.word())?;
        Ok(Report::line(5, text))
    }

    #[tactic(auto, unfolding(crate::specs::Reports::too_long))]
    pub(crate) fn too_long(alloc: Global, source: Source) -> Result<Report, AllocError>
        ensures { IfOk result (λ report. shown report ≡ too_long source) }
    {
        let text = format!(in alloc; "refused {} too long\n", source.word())?;
        Ok(Report::line(3, text))
    }

    #[tactic(auto, unfolding(crate::specs::Reports::refused))]
    pub(crate) fn refused(
        alloc: Global,
        source: Source,
        refusal: Refusal,
    ) -> Result<Report, AllocError>
        ensures { IfOk result (λ report. shown report ≡ refused source refusal) }
    {
        let letter = char::from(refusal.letter);
        let number = refusal.number;
        let line = refusal.line;
        let text = format!(in alloc; "refused {} {letter}{number} line {line}\n", source.word())?;
        Ok(Report::line(3, text))
    }

    /// The report on a run that isn't drawn.
    #[tactic(auto, unfolding(crate::specs::Reports::too_wide))]
    pub(crate) fn too_wide(alloc: Global) -> Result<Report, AllocError>
        ensures { IfOk result (λ report. shown report ≡ too_wide) }
    {
        let text = String::from_str(alloc, "refused trace too wide\n")?;
        Ok(Report::line(3, text))
    }
}

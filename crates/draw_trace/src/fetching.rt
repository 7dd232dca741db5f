ghost use Rattle.std.specs.Prelude.{IfOk, IfErr};
ghost use Rattle.draw_trace.specs.Fetched.{AreFetched, BothEnd, FetchEnds, IsFetched, IsLater};
ghost use Rattle.draw_trace.specs.Halted.{HaltsBy};

use crate::reports::{Report, Source};
use ccac_ports::{FetchFault, Folder};
use std::alloc::{AllocError, Global};

/// How many bytes a file may have.
const MOST_BYTES: u64 = 65_536;

/// Why a call ends before it has both files.
#[derive(Debug, Drop)]
pub(crate) enum EarlyEnd {
    Report(Report),
    NoMemory,
}

impl From<AllocError> for EarlyEnd {
    ghost use Rattle.std.specs.Prelude.{◌≡◌};
    ghost use Rattle.draw_trace.specs.declared.fetching.EarlyEnd.TheVariants.{NoMemory};

    ghost from_gives = { λ _ halt. halt ≡ NoMemory };

    fn from(_fault: AllocError) -> EarlyEnd {
        EarlyEnd::NoMemory
    }
}

/// The bytes of a question and of a trace.
#[derive(Drop)]
pub(crate) struct Texts {
    pub question: Vec<u8>,
    pub trace: Vec<u8>,
}

/// The bytes of both files, of which the question's is fetched first, or the report on the first that can't be had.
pub(crate) fn fetch_both<F: Folder>(
    alloc: Global,
    folder: &mut F,
    question: &str,
    trace: &str,
) -> Result<Texts, EarlyEnd>
    ensures found { IfOk result (λ texts. AreFetched (F.tells folder.old) question.now trace.now texts.question.items texts.trace.items) }
    ensures halted { IfErr result (λ halt. HaltsBy (BothEnd (F.tells folder.old) (F.tells folder.new) question.now trace.now) halt) }
{
    let question = fetch(alloc, folder, Source::Question, question)?;
    let trace = fetch(alloc, folder, Source::Trace, trace)?;
    Ok(Texts { question, trace })
}

/// The bytes of a file, or the report that says why there are none.
fn fetch<F: Folder>(
    alloc: Global,
    folder: &mut F,
    source: Source,
    name: &str,
) -> Result<Vec<u8>, EarlyEnd>
    ensures found { IfOk result (λ bytes. IsFetched (F.tells folder.old) name.now bytes.items) }
    ensures halted { IfErr result (λ halt. HaltsBy (FetchEnds (F.tells folder.old) (F.tells folder.new) source name.now) halt) }
    ensures later { IsLater (F.tells folder.old) (F.tells folder.new) }
{
    match folder.fetch(name, MOST_BYTES) {
        Ok(bytes) => Ok(bytes),
        Err(FetchFault::Failed) => Err(EarlyEnd::Report(Report::read_fault(alloc, source)?)),
        Err(FetchFault::TooLong) => Err(EarlyEnd::Report(Report::too_long(alloc, source)?)),
        Err(FetchFault::NoMemory) => Err(EarlyEnd::NoMemory),
    }
}

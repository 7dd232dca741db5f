ghost use Rattle.std.specs.Prelude.{IfOk, IfErr};
ghost use Rattle.problem_smt.specs.Fetched.{AreFetched, BothEnd, FetchEnds, IsFetched, IsLater};
ghost use Rattle.problem_smt.specs.Halted.{HaltsBy};

use crate::reports::{Report, Source};
use ccac_ports::{FetchFault, Folder};
use std::alloc::{AllocError, Global};

/// How many bytes a file may have.
const MOST_BYTES: u64 = 65_536;

/// Why a call ends before it has both files.
#[derive(Debug, Drop)]
pub(crate) enum EarlyEnd {
    Report(Report),
    NoMemory,
}

impl From<AllocError> for EarlyEnd {
    ghost use Rattle.std.specs.Prelude.{◌≡◌};
    ghost use Rattle.problem_smt.specs.declared.fetching.EarlyEnd.TheVariants.{NoMemory};

    ghost from_gives = { λ _ halt. halt ≡ NoMemory };

    fn from(_fault: AllocError) -> EarlyEnd {
        EarlyEnd::NoMemory
    }
}

/// The bytes of a controller and of a question.
#[derive(Drop)]
pub(crate) struct Texts {
    pub controller: Vec<u8>,
    pub question: Vec<u8>,
}

/// The bytes of both files, of which the controller's is fetched first, or the report on the first that can't be had.
pub(crate) fn fetch_both<F: Folder>(
    alloc: Global,
    folder: &mut F,
    controller: &str,
    question: &str,
) -> Result<Texts, EarlyEnd>
    ensures found { IfOk result (λ texts. AreFetched (F.tells folder.old) controller.now question.now texts.controller.items texts.question.items) }
    ensures halted { IfErr result (λ halt. HaltsBy (BothEnd (F.tells folder.old) (F.tells folder.new) controller.now question.now) halt) }
{
    let controller = fetch(alloc, folder, Source::Controller, controller)?;
    let question = fetch(alloc, folder, Source::Question, question)?;
    Ok(Texts {
        controller,
        question,
    })
}

/// The bytes of a file, or the report that says why there are none.
fn fetch<F: Folder>(
    alloc: Global,
    folder: &mut F,
    source: Source,
    name: &str,
) -> Result<Vec<u8>, EarlyEnd>
    ensures found { IfOk result (λ bytes. IsFetched (F.tells folder.old) name.now bytes.items) }
    ensures halted { IfErr result (λ halt. HaltsBy (FetchEnds (F.tells folder.old) (F.tells folder.new) source name.now) halt) }
    ensures later { IsLater (F.tells folder.old) (F.tells folder.new) }
{
    match folder.fetch(name, MOST_BYTES) {
        Ok(bytes) => Ok(bytes),
        Err(FetchFault::Failed) => Err(EarlyEnd::Report(Report::read_fault(alloc, source)?)),
        Err(FetchFault::TooLong) => Err(EarlyEnd::Report(Report::too_long(alloc, source)?)),
        Err(FetchFault::NoMemory) => Err(EarlyEnd::NoMemory),
    }
}

ghost use Rattle.file_reports.specs.Halted.{HaltsAs};

use crate::reports::Report;
use crate::sources::Source;
use std::alloc::{AllocError, AllocFailed, Global};
use whole::{NoMemory, ReadFault};

/// Why a command ends before it has an answer of its own.
#[derive(Debug, Drop)]
pub enum EarlyEnd {
    Report(Report),
    NoMemory,
}

impl From<AllocError> for EarlyEnd {
    ghost use Rattle.std.specs.Prelude.{◌≡◌};
    ghost use Rattle.file_reports.specs.declared.early_end.EarlyEnd.TheVariants.{NoMemory};

    ghost from_gives = { λ _ halt. halt ≡ NoMemory };

    fn from(_fault: AllocError) -> EarlyEnd {
        EarlyEnd::NoMemory
    }
}

impl<T: Drop> From<AllocFailed<T>> for EarlyEnd {
    ghost use Rattle.std.specs.Prelude.{◌≡◌};
    ghost use Rattle.file_reports.specs.declared.early_end.EarlyEnd.TheVariants.{NoMemory};

    ghost from_gives = { λ _ halt. halt ≡ NoMemory };

    fn from(_fault: AllocFailed<T>) -> EarlyEnd {
        EarlyEnd::NoMemory
    }
}

impl From<NoMemory> for EarlyEnd {
    ghost use Rattle.std.specs.Prelude.{◌≡◌};
    ghost use Rattle.file_reports.specs.declared.early_end.EarlyEnd.TheVariants.{NoMemory};

    ghost from_gives = { λ _ halt. halt ≡ NoMemory };

    fn from(_fault: NoMemory) -> EarlyEnd {
        EarlyEnd::NoMemory
    }
}

/// How a command ends one of whose files wasn't read.
pub fn halted(alloc: Global, source: Source, fault: ReadFault) -> EarlyEnd
    ensures { HaltsAs source fault result }
{
    match fault {
        ReadFault::Refused(refusal) => match Report::refused(alloc, source, refusal) {
            Ok(report) => EarlyEnd::Report(report),
            Err(_) => EarlyEnd::NoMemory,
        },
        ReadFault::NoMemory => EarlyEnd::NoMemory,
    }
}

//! Why a tableau wasn't made, or wasn't changed.

use std::alloc::{AllocError, AllocFailed};
use thiserror::Error;
use whole::Stuck;

/// An operation that is too wide for the field, or want of memory.
#[derive(Clone, Copy, PartialEq, Eq, Debug, Error)]
pub enum PivotFault {
    #[error("an operation at variable {} and variable {} is too wide", .0.at, .0.by)]
    Stuck(Stuck),
    #[error("out of memory")]
    NoMemory,
}

impl From<AllocError> for PivotFault {
    ghost use Rattle.std.specs.Prelude.{◌≡◌};
    ghost use Rattle.tableau.specs.declared.fault.PivotFault.TheVariants.{NoMemory};

    ghost from_gives = { λ _ fault. fault ≡ NoMemory };

    fn from(_fault: AllocError) -> PivotFault {
        PivotFault::NoMemory
    }
}

impl<T: Drop> From<AllocFailed<T>> for PivotFault {
    ghost use Rattle.std.specs.Prelude.{◌≡◌};
    ghost use Rattle.tableau.specs.declared.fault.PivotFault.TheVariants.{NoMemory};

    ghost from_gives = { λ _ fault. fault ≡ NoMemory };

    fn from(_fault: AllocFailed<T>) -> PivotFault {
        PivotFault::NoMemory
    }
}

//! Why a theory can't go on.

use std::alloc::AllocError;
use thiserror::Error;
use whole::{NoMemory, Stuck};

/// What ends a theory, which then gives the same answer to each later call.
#[derive(Clone, Copy, Debug, PartialEq, Eq, Error)]
pub enum LraFault {
    /// An operation that overflows.
    #[error("a number is too large")]
    Stuck(Stuck),
    #[error("out of memory")]
    NoMemory,
}

impl From<NoMemory> for LraFault {
    ghost use Rattle.std.specs.Prelude.{◌≡◌};
    ghost use Rattle.lra_theory.specs.declared.fault.LraFault.TheVariants.{NoMemory as OutOfMemory};

    ghost from_gives = { λ _ fault. fault ≡ OutOfMemory };

    fn from(_fault: NoMemory) -> LraFault {
        LraFault::NoMemory
    }
}

impl From<AllocError> for LraFault {
    ghost use Rattle.std.specs.Prelude.{◌≡◌};
    ghost use Rattle.lra_theory.specs.declared.fault.LraFault.TheVariants.{NoMemory as OutOfMemory};

    ghost from_gives = { λ _ fault. fault ≡ OutOfMemory };

    fn from(_fault: AllocError) -> LraFault {
        LraFault::NoMemory
    }
}

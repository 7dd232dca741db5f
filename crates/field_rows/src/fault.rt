//! Why a row wasn't formed.

use crate::operation::Operation;
use std::alloc::{AllocError, AllocFailed};

/// The operation that is too wide, and the variable of the entry that it is for.
#[derive(Clone, Copy, PartialEq, Eq, Debug)]
pub struct WideEntry<F> {
    pub variable: u32,
    pub operation: Operation<F>,
}

/// Why a row wasn't formed.
#[derive(Clone, Copy, PartialEq, Eq, Debug)]
pub enum RowFault<F> {
    Wide(WideEntry<F>),
    NoMemory,
}

impl<F> From<AllocError> for RowFault<F> {
    ghost use Rattle.std.specs.Prelude.{◌≡◌};
    ghost use Rattle.field_rows.specs.declared.fault.RowFault.TheVariants.{NoMemory};

    ghost from_gives = { λ _ fault. fault ≡ NoMemory };

    fn from(_fault: AllocError) -> RowFault<F> {
        RowFault::NoMemory
    }
}

impl<F, T: Drop> From<AllocFailed<T>> for RowFault<F> {
    ghost use Rattle.std.specs.Prelude.{◌≡◌};
    ghost use Rattle.field_rows.specs.declared.fault.RowFault.TheVariants.{NoMemory};

    ghost from_gives = { λ _ fault. fault ≡ NoMemory };

    fn from(_fault: AllocFailed<T>) -> RowFault<F> {
        RowFault::NoMemory
    }
}

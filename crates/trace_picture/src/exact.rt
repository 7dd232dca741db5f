// Sums and products of whole numbers, or that one is too wide.
ghost use Rattle.std.specs.Prelude.{◌≡◌, ◌+ℤ◌, ◌-ℤ◌, ◌*ℤ◌, IfOk};

use std::alloc::{AllocError, AllocFailed};

/// Why no picture is made of a run.
#[derive(Clone, Copy, Debug, PartialEq, Eq)]
pub enum DrawFault {
    /// A number on the way overflows 128 bits, or an amount no scale.
    Wide,
    NoMemory,
}

impl From<AllocError> for DrawFault {
    fn from(_fault: AllocError) -> DrawFault {
        DrawFault::NoMemory
    }
}

impl<T: Drop> From<AllocFailed<T>> for DrawFault {
    fn from(_fault: AllocFailed<T>) -> DrawFault {
        DrawFault::NoMemory
    }
}

pub(crate) fn sum(left: i128, right: i128) -> Result<i128, DrawFault>
    ensures { IfOk result (λ z. z ≡ left +ℤ right) }
{
    left.checked_add(right).ok_or(DrawFault::Wide)
}

pub(crate) fn difference(left: i128, right: i128) -> Result<i128, DrawFault>
    ensures { IfOk result (λ z. z ≡ left -ℤ right) }
{
    left.checked_sub(right).ok_or(DrawFault::Wide)
}

pub(crate) fn product(left: i128, right: i128) -> Result<i128, DrawFault>
    ensures { IfOk result (λ z. z ≡ left *ℤ right) }
{
    left.checked_mul(right).ok_or(DrawFault::Wide)
}

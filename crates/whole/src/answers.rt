// The shapes of refusals and of operations whose result was too large.
use std::alloc::{AllocError, AllocFailed};
use thiserror::Error;

/// Memory ran out. It is no fault of the input, and it is merged with no other refusal.
#[derive(Clone, Copy, Debug, PartialEq, Eq)]
pub struct NoMemory;

/// The first broken rule of a text: `letter` is an ASCII letter such as `b'G'`, `number` counts the
/// letter's rules from 1, and `line` counts the lines of the text from 1.
#[derive(Clone, Copy, Debug, PartialEq, Eq)]
pub struct Refusal {
    pub letter: u8,
    pub number: u8,
    pub line: u32,
}

/// Why a text wasn't read.
#[derive(Clone, Copy, Debug, PartialEq, Eq, Error)]
pub enum ReadFault {
    #[error("a rule of the text is broken at line {}", .0.line)]
    Refused(Refusal),
    #[error("out of memory")]
    NoMemory,
}

/// The fraction `num / den` as an operation met it; `den` is at least 1.
#[derive(Clone, Copy, Debug, PartialEq, Eq)]
pub struct Pair {
    pub num: i128,
    pub den: i128,
}

/// What an operation formed of its operands.
#[derive(Clone, Copy, Debug, PartialEq, Eq)]
pub enum Op {
    Product,
    Sum,
}

/// Where in the exact arithmetic an operation stands.
#[derive(Clone, Copy, Debug, PartialEq, Eq)]
pub enum Place {
    Bound,
    Value,
    Pivot,
    Multiplier,
    Epsilon,
    Scale,
    Column,
    Replay,
}

/// An operation whose exact result exceeds `2^127 - 1` in size: its place, what `at` and `by` number
/// there, and its operands.
#[derive(Clone, Copy, Debug, PartialEq, Eq)]
pub struct Stuck {
    pub place: Place,
    pub at: u32,
    pub by: u32,
    pub op: Op,
    pub left: Pair,
    pub right: Pair,
}

impl From<AllocError> for NoMemory {
    fn from(_fault: AllocError) -> NoMemory {
        NoMemory
    }
}

impl<T: Drop> From<AllocFailed<T>> for NoMemory {
    fn from(_fault: AllocFailed<T>) -> NoMemory {
        NoMemory
    }
}

impl From<NoMemory> for ReadFault {
    ghost use Rattle.std.specs.Prelude.{◌≡◌};
    ghost use Rattle.whole.specs.declared.answers.ReadFault.TheVariants.{NoMemory as OutOfMemory};

    ghost from_gives = { λ _ fault. fault ≡ OutOfMemory };

    fn from(_fault: NoMemory) -> ReadFault {
        ReadFault::NoMemory
    }
}

impl From<AllocError> for ReadFault {
    ghost use Rattle.std.specs.Prelude.{◌≡◌};
    ghost use Rattle.whole.specs.declared.answers.ReadFault.TheVariants.{NoMemory as OutOfMemory};

    ghost from_gives = { λ _ fault. fault ≡ OutOfMemory };

    fn from(_fault: AllocError) -> ReadFault {
        ReadFault::NoMemory
    }
}

impl<T: Drop> From<AllocFailed<T>> for ReadFault {
    ghost use Rattle.std.specs.Prelude.{◌≡◌};
    ghost use Rattle.whole.specs.declared.answers.ReadFault.TheVariants.{NoMemory as OutOfMemory};

    ghost from_gives = { λ _ fault. fault ≡ OutOfMemory };

    fn from(_fault: AllocFailed<T>) -> ReadFault {
        ReadFault::NoMemory
    }
}

impl From<Refusal> for ReadFault {
    ghost use Rattle.std.specs.Prelude.{◌≡◌};
    ghost use Rattle.whole.specs.declared.answers.ReadFault.TheVariants.{Refused};

    ghost from_gives = { λ refusal fault. fault ≡ Refused refusal };

    fn from(refusal: Refusal) -> ReadFault {
        ReadFault::Refused(refusal)
    }
}

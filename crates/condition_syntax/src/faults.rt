use std::alloc::{AllocError, AllocFailed};

/// What is wrong at the first token at which nothing allowed stands.
#[derive(Clone, Copy, Debug, PartialEq, Eq)]
pub enum Fault {
    /// A byte begins no token.
    WrongByte,
    /// A number's denominator is 0, or the number exceeds 1,000,000 over 1,000.
    Number,
    /// A term or a part of one is wanted.
    Term,
    /// A part of a condition, a relation, a `)` or the rest of a test of delay is wanted.
    Part,
    /// The 17th nesting opens.
    Depth,
    /// The 17th term of an expression, the 17th comparison of a condition or a name of more than 16 letters begins.
    Count,
}

/// Why reading stopped.
#[derive(Clone, Copy, Debug, PartialEq, Eq)]
pub(crate) enum ReadStop {
    Fault(Fault),
    NoMemory,
}

impl From<Fault> for ReadStop {
    ghost use Rattle.std.specs.Prelude.{◌≡◌};
    ghost use Rattle.condition_syntax.specs.declared.faults.ReadStop.TheVariants.{Fault};

    ghost from_gives = { λ fault halt. halt ≡ Fault fault };

    fn from(fault: Fault) -> ReadStop {
        ReadStop::Fault(fault)
    }
}

impl From<AllocError> for ReadStop {
    ghost use Rattle.std.specs.Prelude.{◌≡◌};
    ghost use Rattle.condition_syntax.specs.declared.faults.ReadStop.TheVariants.{NoMemory};

    ghost from_gives = { λ _ halt. halt ≡ NoMemory };

    fn from(_fault: AllocError) -> ReadStop {
        ReadStop::NoMemory
    }
}

impl<T: Drop> From<AllocFailed<T>> for ReadStop {
    ghost use Rattle.std.specs.Prelude.{◌≡◌};
    ghost use Rattle.condition_syntax.specs.declared.faults.ReadStop.TheVariants.{NoMemory};

    ghost from_gives = { λ _ halt. halt ≡ NoMemory };

    fn from(_fault: AllocFailed<T>) -> ReadStop {
        ReadStop::NoMemory
    }
}

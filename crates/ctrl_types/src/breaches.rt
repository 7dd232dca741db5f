//! The rules that a controller's text may break, and why resolving stops.
ghost use Rattle.std.specs.Prelude.{◌≡◌};
ghost use Rattle.ctrl_types.specs.Statements.{number_of, refusal_of};

use std::alloc::{AllocError, AllocFailed};
use whole::Refusal;

/// A rule of controllers that a line breaks, in the order in which the rules of one line are asked.
#[derive(Clone, Copy, Debug, PartialEq, Eq)]
pub(crate) enum Breach {
    /// A state's name is reserved or an earlier state's.
    Reserved,
    /// A name is no state and, where signals are known, no signal.
    Unknown,
    /// Names of both kinds stand together.
    Kinds,
    /// The least opening value is above the greatest.
    Bounds,
    /// A rule sets a state a second time.
    Twice,
    /// An `otherwise` isn't the last rule, or the last rule is none.
    Otherwise,
    /// A test of delay has a number that isn't whole or exceeds 8.
    Delay,
    /// The least common multiple of the denominators exceeds its limit.
    Denominators,
    /// The window or the rate has a count.
    Count,
}

impl Breach {
    fn number(self) -> u8
        ensures { result ≡ number_of self }
    {
        match self {
            Breach::Reserved => 1,
            Breach::Unknown => 2,
            Breach::Kinds => 3,
            Breach::Bounds => 4,
            Breach::Twice => 5,
            Breach::Otherwise => 6,
            Breach::Delay => 7,
            Breach::Denominators => 8,
            Breach::Count => 9,
        }
    }

    /// The refusal of this line.
    pub(crate) fn refusal(self, line: u32) -> Refusal
        ensures { result ≡ refusal_of self line }
    {
        Refusal {
            letter: b'Y',
            number: self.number(),
            line,
        }
    }
}

/// Why a part of a line isn't resolved.
#[derive(Clone, Copy, Debug, PartialEq, Eq)]
pub(crate) enum ResolveStop {
    Broken(Breach),
    NoMemory,
}

impl From<AllocError> for ResolveStop {
    ghost use Rattle.std.specs.Prelude.{◌≡◌};
    ghost use Rattle.ctrl_types.specs.declared.breaches.ResolveStop.TheVariants.{NoMemory};

    ghost from_gives = { λ _ halt. halt ≡ NoMemory };

    fn from(_fault: AllocError) -> ResolveStop {
        ResolveStop::NoMemory
    }
}

impl<T: Drop> From<AllocFailed<T>> for ResolveStop {
    ghost use Rattle.std.specs.Prelude.{◌≡◌};
    ghost use Rattle.ctrl_types.specs.declared.breaches.ResolveStop.TheVariants.{NoMemory};

    ghost from_gives = { λ _ halt. halt ≡ NoMemory };

    fn from(_fault: AllocFailed<T>) -> ResolveStop {
        ResolveStop::NoMemory
    }
}

impl From<Breach> for ResolveStop {
    ghost use Rattle.std.specs.Prelude.{◌≡◌};
    ghost use Rattle.ctrl_types.specs.declared.breaches.ResolveStop.TheVariants.{Broken};

    ghost from_gives = { λ breach halt. halt ≡ Broken breach };

    fn from(breach: Breach) -> ResolveStop {
        ResolveStop::Broken(breach)
    }
}

// Clauses over atoms, and why there may be none.
use farkas_cert::Lits;
use linear_form::Form;
use sqlite_items::Items;
use std::alloc::{AllocError, AllocFailed};
use thiserror::Error;
use whole::NoMemory;

/// What a literal is about.
#[derive(Clone, Copy, Debug, PartialEq, Eq)]
pub enum Atom {
    /// `den * form <= num`, or `<` where strict. A form below the number of columns is that column;
    /// the others are the forms of several columns, in their order.
    Row {
        form: u32,
        num: i128,
        den: i128,
        strict: bool,
    },
    /// A name for a conjunction or a disjunction.
    Named,
}

/// Clauses over atoms: at least one literal of each is to be true.
#[derive(Debug, Drop)]
pub struct Clauses {
    /// How many columns there are.
    pub columns: u32,
    /// The forms of several columns.
    pub forms: Items<Form>,
    pub atoms: Items<Atom>,
    pub clauses: Items<Lits>,
}

/// What can be too many.
#[derive(Clone, Copy, Debug, PartialEq, Eq)]
pub enum What {
    /// Columns and forms of several columns together.
    Forms,
    Atoms,
    Clauses,
}

/// Why no clauses were made.
#[derive(Clone, Copy, Debug, PartialEq, Eq, Error)]
pub enum BuildFault {
    #[error("more than {limit} of {what:?}")]
    Large { what: What, limit: u32 },
    #[error("out of memory")]
    NoMemory,
}

impl BuildFault {
    ghost use Rattle.std.specs.Prelude.{◌≡◌};
    ghost use Rattle.clause_form.specs.Building.{limit_of};
    ghost use Rattle.clause_form.specs.declared.clauses.BuildFault.TheVariants.{Large};

    /// Too many of these.
    pub(crate) fn large(what: What) -> BuildFault
        ensures { result ≡ Large what (limit_of what) }
    {
        let limit = match what {
            What::Forms => MAX_FORMS,
            What::Atoms => MAX_ATOMS,
            What::Clauses => MAX_CLAUSES,
        };
        BuildFault::Large { what, limit }
    }
}

/// Columns and forms of several columns together.
pub(crate) const MAX_FORMS: u32 = 2_048;

pub(crate) const MAX_ATOMS: u32 = 4_096;

pub(crate) const MAX_CLAUSES: u32 = 1_048_576;

impl From<NoMemory> for BuildFault {
    ghost use Rattle.std.specs.Prelude.{◌≡◌};
    ghost use Rattle.clause_form.specs.declared.clauses.BuildFault.TheVariants.{NoMemory as OutOfMemory};

    ghost from_gives = { λ _ fault. fault ≡ OutOfMemory };

    fn from(_fault: NoMemory) -> BuildFault {
        BuildFault::NoMemory
    }
}

impl From<AllocError> for BuildFault {
    ghost use Rattle.std.specs.Prelude.{◌≡◌};
    ghost use Rattle.clause_form.specs.declared.clauses.BuildFault.TheVariants.{NoMemory as OutOfMemory};

    ghost from_gives = { λ _ fault. fault ≡ OutOfMemory };

    fn from(_fault: AllocError) -> BuildFault {
        BuildFault::NoMemory
    }
}

impl<T: Drop> From<AllocFailed<T>> for BuildFault {
    ghost use Rattle.std.specs.Prelude.{◌≡◌};
    ghost use Rattle.clause_form.specs.declared.clauses.BuildFault.TheVariants.{NoMemory as OutOfMemory};

    ghost from_gives = { λ _ fault. fault ≡ OutOfMemory };

    fn from(_fault: AllocFailed<T>) -> BuildFault {
        BuildFault::NoMemory
    }
}

// What an atom stands for, by which it is found again.
use farkas_cert::Lits;

#[derive(Clone, Copy, Debug, PartialEq, Eq, Hash)]
pub(crate) enum Connective {
    And,
    Or,
}

/// What an atom stands for: a row, or a conjunction or disjunction of literals.
#[derive(Debug, Drop, PartialEq, Eq, Hash)]
pub(crate) enum Key {
    Row {
        form: u32,
        num: i128,
        den: i128,
        strict: bool,
    },
    Named {
        connective: Connective,
        parts: Lits,
    },
}

impl Connective {
    ghost use Rattle.std.specs.Prelude.{◌≡◌};
    ghost use Rattle.clause_form.specs.Keys.{is_and};

    pub(crate) fn is_and(self) -> bool
        ensures { result ≡ is_and self }
    {
        matches!(self, Connective::And)
    }
}

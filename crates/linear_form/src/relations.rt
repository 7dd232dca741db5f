// Comparisons with 0, and the literals of atoms that they become.
use crate::lists::{Form, Terms};

/// How a sum stands to 0.
#[derive(Clone, Copy, Debug, PartialEq, Eq)]
pub enum Rel {
    AtMost,
    Below,
    AtLeast,
    Above,
}

impl Rel {
    ghost use Rattle.std.specs.Prelude.{◌≡◌};
    ghost use Rattle.linear_form.specs.NormalForm.{turned_if};

    /// The relation that the negated number has where the number has this one; this one itself
    /// where it isn't turned.
    pub fn turned_if(self, turn: bool) -> Rel
        ensures { result ≡ turned_if turn self }
    {
        match self {
            _ if !turn => self,
            Rel::AtMost => Rel::AtLeast,
            Rel::Below => Rel::Above,
            Rel::AtLeast => Rel::AtMost,
            Rel::Above => Rel::Below,
        }
    }
}

/// The sum of the terms plus the constant stands in `rel` to 0.
#[derive(Clone, Debug, Drop, PartialEq, Eq)]
pub struct Comparison {
    pub terms: Terms,
    pub constant: i128,
    pub rel: Rel,
}

/// What a comparison says: always true, never true, or a literal of the atom `form <= num / den`,
/// or of `form < num / den` where `strict`. A literal that isn't `positive` negates its atom.
#[derive(Debug, Drop, PartialEq, Eq)]
pub enum Normal {
    Always,
    Never,
    Bound {
        form: Form,
        num: i128,
        den: i128,
        strict: bool,
        positive: bool,
    },
}

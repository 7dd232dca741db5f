//! An operation of the field, named where it is too wide.

ghost use Rattle.std.specs.Prelude.{◌≡◌, pos};
ghost use Rattle.whole.specs.declared.answers.Place.TheVariants.{Epsilon};
ghost use Rattle.tableau.specs.Operations.{IsOperation};

use ordered_field::OrderedField;
use whole::{Op, Pair, Place, Stuck};

/// The operation of two numbers by which epsilon or the value of a variable is formed.
pub(crate) fn operation<F: OrderedField>(variable: u32, op: Op, left: F, right: F) -> Stuck
    ensures { IsOperation Epsilon variable 0 op (F.value left) (F.value right) result }
{
    Stuck {
        place: Place::Epsilon,
        at: variable,
        by: 0,
        op,
        left: pair(left),
        right: pair(right),
    }
}

// The number in lowest terms.
fn pair<F: OrderedField>(number: F) -> Pair
    ensures num { result.num ≡ (F.pair number).num }
    ensures den { result.den ≡ pos (F.pair number).den }
{
    let (num, den) = number.parts();
    Pair { num, den }
}

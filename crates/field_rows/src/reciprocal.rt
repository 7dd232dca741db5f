//! One over a number of the field.

ghost use Rattle.std.specs.Prelude.{◌≡◌, pos};
ghost use Rattle.ordered_field.specs.Rational.{whole, ◌*ℚ◌};

use ordered_field::{OrderedField, one};

/// One over a number that isn't zero. It fits, since its parts in lowest terms are those of the number, exchanged.
pub fn inverse<F: OrderedField>(number: F) -> F
    requires { ¬ (F.value number ≡ whole (pos 0)) }
    ensures { F.value result *ℚ F.value number ≡ whole (pos 1) }
{
    match one::<F>().div(number) {
        Ok(inverse) => inverse,
        Err(_) => unreachable!(),
    }
}

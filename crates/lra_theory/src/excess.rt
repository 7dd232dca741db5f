//! How far a value is from keeping a bound.

ghost use Rattle.std.specs.Prelude.{◌≡◌, pos, ◌≤ℤ◌, IfOk};
ghost use Rattle.ordered_field.specs.Rational.{whole, ◌*ℚ◌};
ghost use Rattle.ordered_field.specs.Delta.{delta_value};
ghost use Rattle.simplex.specs.Bounds.{IsLimitOf, infinitesimal_of};
ghost use Rattle.lra_theory.specs.Excess.{IsExcess, delta_difference, limit_at};

use ordered_field::{Delta, OrderedField, Wide, one, zero};
use simplex::Bound;

/// By how much the value exceeds the bound, which it keeps where this isn't above zero.
pub(crate) fn excess<F: OrderedField>(bound: Bound, value: Delta<F>) -> Result<Delta<F>, Wide>
    requires { pos 1 ≤ℤ bound.den }
    ensures { IfOk result (λ d. IsExcess bound (delta_value F.value value) (delta_value F.value d)) }
{
    let at = limit_of(bound)?;
    if bound.upper {
        difference(value, at)
    } else {
        difference(at, value)
    }
}

// The number of a bound, and an infinitesimal amount for a strict one.
fn limit_of<F: OrderedField>(bound: Bound) -> Result<Delta<F>, Wide>
    requires { pos 1 ≤ℤ bound.den }
    ensures { IfOk result (λ at. IsLimitOf bound 0 (limit_at bound (delta_value F.value at))) }
{
    let number = quotient(bound.num, bound.den)?;
    Ok(Delta::new(number, infinitesimal(bound)))
}

// `num / den` in the field.
fn quotient<F: OrderedField>(num: i128, den: i128) -> Result<F, Wide>
    requires { pos 1 ≤ℤ den }
    ensures { IfOk result (λ x. F.value x *ℚ whole den ≡ whole num) }
{
    let over = F::from_whole(den)?;
    let number = F::from_whole(num)?;
    number.div(over)
}

// The infinitesimal amount: below an upper bound, above a lower one.
fn infinitesimal<F: OrderedField>(bound: Bound) -> F
    ensures { F.value result ≡ infinitesimal_of bound }
{
    if !bound.strict {
        return zero();
    }
    if bound.upper { one::<F>().neg() } else { one() }
}

// `y - x`.
fn difference<F: OrderedField>(y: Delta<F>, x: Delta<F>) -> Result<Delta<F>, Wide>
    ensures { IfOk result (λ d. delta_value F.value d ≡ delta_difference (delta_value F.value y) (delta_value F.value x)) }
{
    y.add(Delta::new(x.real().neg(), x.inf().neg()))
}

//! The limit that a bound means.

ghost use Rattle.std.specs.Prelude.{◌≡◌, pos, ◌≤ℤ◌, IfOk, IfErr, OnOk, OnErr};
ghost use Rattle.ordered_field.specs.Rational.{whole, ◌*ℚ◌};
ghost use Rattle.ordered_field.specs.Wideness.{QuotientExceeds};
ghost use Rattle.whole.specs.Numbers.{IsWithin};
ghost use Rattle.simplex.specs.Limits.{limit_value};
ghost use Rattle.simplex.specs.Bounds.{IsLimitOf, Overflows, IsStuckBound, IsBoundProduct, infinitesimal_of};

use crate::limits::Limit;
use crate::outcome::Bound;
use lowest_terms::reduce;
use ordered_field::{Delta, OrderedField, Wide, one, zero};
use whole::{Op, Pair, Place, Stuck};

/// The limit of a bound: its number, and an infinitesimal amount for a strict one. `Stuck` comes exactly where the
/// number is too wide.
pub(crate) fn limit_of<F: OrderedField>(bound: Bound, tag: u32) -> Result<Limit<Delta<F>>, Stuck>
    requires within { IsWithin bound.num }
    requires positive { pos 1 ≤ℤ bound.den }
    ensures exact { IfOk result (λ l. IsLimitOf bound tag (limit_value F.value l)) }
    ensures kept { OnOk result (¬ Overflows F.LIMIT bound) }
    ensures stuck { IfErr result (IsStuckBound F.LIMIT bound) }
{
    match quotient::<F>(bound.num, bound.den) {
        Ok(number) => Ok(Limit {
            var: bound.var,
            upper: bound.upper,
            at: Delta::new(number, infinitesimal(bound)),
            tag,
        }),
        Err(Wide) => Err(stuck(bound.var, bound.num, bound.den)),
    }
}

// The infinitesimal amount: below an upper bound, above a lower one.
fn infinitesimal<F: OrderedField>(bound: Bound) -> F
    ensures { F.value result ≡ infinitesimal_of bound }
{
    if !bound.strict {
        return zero();
    }
    if bound.upper { one::<F>().neg() } else { one() }
}

// `num / den` in the field.
fn quotient<F: OrderedField>(num: i128, den: i128) -> Result<F, Wide>
    requires within { IsWithin num }
    requires positive { pos 1 ≤ℤ den }
    ensures exact { IfOk result (λ x. F.value x *ℚ whole den ≡ whole num) }
    ensures kept { OnOk result (¬ QuotientExceeds F.LIMIT (whole num) (whole den)) }
    ensures wide { OnErr result (QuotientExceeds F.LIMIT (whole num) (whole den)) }
{
    let lowest = reduce(num, den);
    let over = F::from_whole(lowest.den)?;
    let number = F::from_whole(lowest.num)?;
    number.div(over)
}

// The product of `num / 1` and `1 / den`.
fn stuck(var: u32, num: i128, den: i128) -> Stuck
    requires { pos 1 ≤ℤ den }
    ensures { IsBoundProduct var num den result }
{
    Stuck {
        place: Place::Bound,
        at: var,
        by: 0,
        op: Op::Product,
        left: Pair { num, den: 1 },
        right: Pair { num: 1, den },
    }
}

// Sums over the least common denominator.
ghost use Rattle.std.specs.Prelude.{◌≡◌, ◌≤ℤ◌, pos, ◌+ℤ◌, ◌*ℤ◌, unsigned_abs, IfOk, OnOk, OnErr};
ghost use Rattle.whole.specs.Numbers.{IsWithin};
ghost use Rattle.lowest_terms.specs.Coprime.{IsCoprime};
ghost use Rattle.fraction.specs.Sums.{SumOverflows};

use crate::limit::Limit;
use crate::sized::{bounded_product, bounded_sum};
use lowest_terms::{Reduced, reduce};
use ordered_field::Wide;

// `b / d` in lowest terms, which says how both are brought to their least common multiple.
pub fn denominators(b: i128, d: i128) -> Reduced
    requires left { pos 1 ≤ℤ b }
    requires right { pos 1 ≤ℤ d }
    ensures common { pos 1 ≤ℤ result.common }
    ensures first { pos 1 ≤ℤ result.num }
    ensures second { pos 1 ≤ℤ result.den }
    ensures num { result.num *ℤ result.common ≡ b }
    ensures den { result.den *ℤ result.common ≡ d }
    ensures lowest { IsCoprime (unsigned_abs result.num) (unsigned_abs result.den) }
{
    if b == d {
        return Reduced {
            common: b,
            num: 1,
            den: 1,
        };
    }
    reduce(b, d)
}

// The numerator of the sum of m / b and n / d over the least common denominator, where `dens` is b / d
// in lowest terms.
pub fn common_numerator<L: Limit>(m: i128, n: i128, d: i128, dens: Reduced) -> Result<i128, Wide>
    ensures exact { IfOk result (λ num. num ≡ m *ℤ dens.den +ℤ n *ℤ dens.num) }
    ensures kept { OnOk result (¬ SumOverflows L.LIMIT m n dens.num dens.den d) }
    ensures wide { OnErr result (SumOverflows L.LIMIT m n dens.num dens.den d) }
{
    let _over = bounded_product::<L>(dens.num, d)?;
    let left = bounded_product::<L>(m, dens.den)?;
    let right = bounded_product::<L>(n, dens.num)?;
    bounded_sum::<L>(left, right)
}

// `num` over the least common denominator, in lowest terms, where `dens` is as above and `num` has no
// divisor in common with its two parts, but maybe with the divisor that was taken out of them.
pub fn reduce_over(num: i128, dens: Reduced) -> Reduced
    requires within { IsWithin num }
    requires over { IsWithin (dens.num *ℤ (dens.den *ℤ dens.common)) }
    requires common { pos 1 ≤ℤ dens.common }
    requires first { pos 1 ≤ℤ dens.num }
    requires second { pos 1 ≤ℤ dens.den }
    requires first_coprime { IsCoprime (unsigned_abs num) (unsigned_abs dens.num) }
    requires second_coprime { IsCoprime (unsigned_abs num) (unsigned_abs dens.den) }
    ensures common { pos 1 ≤ℤ result.common }
    ensures num { result.num *ℤ result.common ≡ num }
    ensures den { result.den *ℤ result.common ≡ dens.num *ℤ (dens.den *ℤ dens.common) }
    ensures positive { pos 1 ≤ℤ result.den }
    ensures lowest { IsCoprime (unsigned_abs result.num) (unsigned_abs result.den) }
{
    let lowest = reduce(num, dens.common);
    Reduced {
        common: lowest.common,
        num: lowest.num,
        den: dens.num * (dens.den * lowest.den),
    }
}

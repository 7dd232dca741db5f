//! Fractions in lowest terms.
//!
//! `reduce` takes the greatest common divisor out of a fraction. The laws that its callers need of
//! divisors stand in `proofs/`: that a greatest common divisor scales, Euclid's lemma, the products of
//! coprime numbers, and that a fraction has one form in lowest terms.
#![tactic(auto)]

ghost use Rattle.std.specs.Prelude.{◌≡◌, ℕ, ◌≤◌, ℤ, pos, ◌*ℤ◌, ◌≤ℤ◌, unsigned_abs};
ghost use Rattle.std.specs.Int.{IsGcd, ◌∣◌};
ghost use Rattle.whole.specs.Numbers.{IsWithin};
ghost use Rattle.lowest_terms.specs.Coprime.{IsCoprime};

use whole::gcd;

/// A fraction `num / den` in lowest terms, and the divisor that was taken out of both.
#[derive(Clone, Copy, Debug, PartialEq, Eq)]
pub struct Reduced {
    pub common: i128,
    pub num: i128,
    pub den: i128,
}

/// `num / den` in lowest terms; `den` is at least 1, and `num` isn't `i128::MIN`.
///
/// By Euclid (Elements, book VII, propositions 20 to 22).
#[tactic(auto, using(whole::proofs::Overflow::signed))]
pub fn reduce(num: i128, den: i128) -> Reduced
    requires within { IsWithin num }
    requires positive { pos 1 ≤ℤ den }
    ensures greatest { IsGcd (unsigned_abs num) (unsigned_abs den) (unsigned_abs result.common) }
    ensures common { pos 1 ≤ℤ result.common }
    ensures num { result.num *ℤ result.common ≡ num }
    ensures den { result.den *ℤ result.common ≡ den }
    ensures positive { pos 1 ≤ℤ result.den }
    ensures lowest { IsCoprime (unsigned_abs result.num) (unsigned_abs result.den) }

    // No other pair in lowest terms has the same cross products with `num / den`.
    ensures unique { (n : ℤ) (d : ℕ) → 1 ≤ d → IsCoprime (unsigned_abs n) d → n *ℤ den ≡ num *ℤ pos d → (n ≡ result.num) × (pos d ≡ result.den) }
{
    let common = common_divisor(num, den);
    Reduced {
        common,
        num: quotient(num, common),
        den: quotient(den, common),
    }
}

// The greatest common divisor, at once where one of the two is 1.
#[tactic(auto, using(whole::proofs::Overflow::signed))]
fn common_divisor(num: i128, den: i128) -> i128
    requires within { IsWithin num }
    requires positive { pos 1 ≤ℤ den }
    ensures greatest { IsGcd (unsigned_abs num) (unsigned_abs den) (unsigned_abs result) }
    ensures positive { pos 1 ≤ℤ result }
{
    if num == 1 || den == 1 {
        return 1;
    }
    gcd(num, den)
}

// What is left of `n` over one of its divisors.
#[tactic(auto, using(whole::proofs::Overflow::signed))]
fn quotient(n: i128, divisor: i128) -> i128
    requires positive { pos 1 ≤ℤ divisor }
    requires divides { unsigned_abs divisor ∣ unsigned_abs n }
    ensures { result *ℤ divisor ≡ n }
{
    if divisor == 1 {
        return n;
    }
    n / divisor
}

#[cfg(test)]
mod tests {
    use super::{Reduced, reduce};

    fn parts(common: i128, num: i128, den: i128) -> Reduced {
        Reduced { common, num, den }
    }

    #[test]
    fn the_greatest_common_divisor_is_taken_out(rt: HostRuntime) {
        assert_eq!(rt; reduce(-8, 12), parts(4, -2, 3));
        assert_eq!(rt; reduce(0, 5), parts(5, 0, 1));
        assert_eq!(rt; reduce(1, 6), parts(1, 1, 6));
        assert_eq!(rt; reduce(-i128::MAX, i128::MAX), parts(i128::MAX, -1, 1));
    }
}

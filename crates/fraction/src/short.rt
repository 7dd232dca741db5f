// Fractions in lowest terms whose parts fit 64 bits, and those whose parts don't.
ghost use Rattle.std.specs.Prelude.{pos, ◌<◌, ◌^◌, ◌≤ℤ◌, ◌⊎◌, ◌≤◌, unsigned_abs};
ghost use Rattle.std.proofs.Common.{rules};
ghost use Rattle.lowest_terms.specs.Coprime.{IsCoprime};
ghost use Rattle.fraction.specs.Width.{IsShort};

use crate::frac::Frac128;
use std::alloc::AllocError;
use std::cmp::Ordering;

// The parts of a short fraction are less than this in size.
const SHORT: u128 = 1 << 63;

// A fraction in lowest terms whose parts are below 2^63 in size.
#[derive(Debug)]
pub struct ShortFrac {
    pub num: i64,
    pub den: i64,
    ghost positive: { pos 1 ≤ℤ den },
    ghost lowest: { IsCoprime (unsigned_abs num) (unsigned_abs den) },
    ghost num_short: { unsigned_abs num < 2 ^ 63 },
    ghost den_short: { unsigned_abs den < 2 ^ 63 },
}

// A fraction one of whose parts is at least 2^63 in size.
#[derive(Debug)]
pub struct LongFrac {
    pub frac: Frac128,
    ghost long: { ¬ IsShort frac.num frac.den },
}

impl ShortFrac {
    ghost use Rattle.std.specs.Prelude.{◌≡◌, MatchOption, IfSome, ◌+ℤ◌, ◌*ℤ◌, neg_ℤ};
    ghost use Rattle.std.specs.Ordering.{int_cmp};
    ghost use Rattle.fraction.specs.Width.{WholeResult};

    // The fraction with these parts, which are in lowest terms, where both are short.
    pub fn from_parts(num: i128, den: i128) -> Option<ShortFrac>
        requires positive { pos 1 ≤ℤ den }
        requires lowest { IsCoprime (unsigned_abs num) (unsigned_abs den) }
        ensures { MatchOption result (¬ IsShort num den) (λ s. (s.num ≡ num) × (s.den ≡ den)) }
    {
        if num.unsigned_abs() < SHORT && den.unsigned_abs() < SHORT {
            Some(ShortFrac {
                num: num as i64,
                den: den as i64,
            })
        } else {
            None
        }
    }

    // The whole number `n`, where its opposite fits 64 bits too.
    fn whole(n: i64) -> Option<ShortFrac>
        ensures { IfSome result (λ s. (s.num ≡ n) × (s.den ≡ pos 1)) }
    {
        if n == i64::MIN {
            None
        } else {
            Some(ShortFrac { num: n, den: 1 })
        }
    }

    // The sum of two whole numbers, where it is short.
    pub fn whole_sum(self, other: ShortFrac) -> Option<ShortFrac>
        ensures { IfSome result (λ s. WholeResult self.den other.den s.den × (s.num ≡ self.num +ℤ other.num)) }
    {
        if self.den == 1 && other.den == 1 {
            ShortFrac::whole(self.num.checked_add(other.num)?)
        } else {
            None
        }
    }

    // The product of two whole numbers, where it is short.
    pub fn whole_product(self, other: ShortFrac) -> Option<ShortFrac>
        ensures { IfSome result (λ s. WholeResult self.den other.den s.den × (s.num ≡ self.num *ℤ other.num)) }
    {
        if self.den == 1 && other.den == 1 {
            ShortFrac::whole(self.num.checked_mul(other.num)?)
        } else {
            None
        }
    }

    // The opposite.
    pub fn neg(self) -> ShortFrac
        ensures num { result.num ≡ neg_ℤ self.num }
        ensures den { result.den ≡ self.den }
    {
        ShortFrac {
            num: -self.num,
            den: self.den,
        }
    }

    // How two fractions compare, by their cross products, which fit 128 bits.
    pub fn compare(self, other: ShortFrac) -> Ordering
        ensures { result ≡ int_cmp (self.num *ℤ other.den) (other.num *ℤ self.den) }
    {
        if self.den == other.den {
            return self.num.cmp(&other.num);
        }
        let left = i128::from(self.num) * i128::from(other.den);
        let right = i128::from(other.num) * i128::from(self.den);
        left.cmp(&right)
    }
}

impl Copy for ShortFrac {}

impl Clone for ShortFrac {
    ghost use Rattle.std.specs.Prelude.{⊤, ◌≡◌};

    ghost is_clone = { λ x y. x ≡ y };

    ghost is_infallible = { λ _. ⊤ };

    fn clone(&self) -> Result<ShortFrac, AllocError> {
        Ok(*self)
    }
}

impl Copy for LongFrac {}

impl Clone for LongFrac {
    ghost use Rattle.std.specs.Prelude.{⊤, ◌≡◌};

    ghost is_clone = { λ x y. x ≡ y };

    ghost is_infallible = { λ _. ⊤ };

    fn clone(&self) -> Result<LongFrac, AllocError> {
        Ok(*self)
    }
}

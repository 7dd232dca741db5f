//! Fractions whose parts are kept in 64 bits while they fit.
ghost use Rattle.std.specs.Prelude.{◌≡◌, pos, ◌≤ℤ◌, ◌*ℤ◌};
ghost use Rattle.std.proofs.Common.{rules};
ghost use Rattle.std.specs.Cmp.Rules.{comparing};
ghost use Rattle.std.specs.Ordering.{on, int_eq, int_cmp, eq_of_both, as_partial_cmp};
ghost use Rattle.fraction.specs.Cross.{cross_cmp, cross_total, cross_ties, cross_partial};
ghost use Rattle.fraction.specs.Mixed.{kept_num, kept_den, kept_positive, kept_lowest};

use crate::frac::{Frac, Frac128};
use crate::short::{LongFrac, ShortFrac};
use crate::short_terms::{reduce_short, short_denominators};
use ordered_field::{OrderedField, Wide};
use std::alloc::AllocError;
use std::cmp::Ordering;

/// A fraction in lowest terms, whose numerator and denominator are at most `2^127 - 1` in size, kept in 64 bits
/// while both are below `2^63` in size.
///
/// It answers and refuses as [`Frac128`](crate::Frac128) does.
#[derive(Clone, Copy, Debug)]
pub struct MixedFrac {
    kept: Kept,
}

// The two forms; the long one is for numbers that have no short one.
#[derive(Clone, Copy, Debug)]
enum Kept {
    Short(ShortFrac),
    Long(LongFrac),
}

impl MixedFrac {
    ghost use Rattle.std.specs.Prelude.{IfOk, IfSome, OnOk, OnErr, OnSome};
    ghost use Rattle.whole.specs.Numbers.{IsWithin};
    ghost use Rattle.ordered_field.specs.Rational.{whole, ◌+ℚ◌, ◌*ℚ◌};
    ghost use Rattle.ordered_field.specs.Wideness.{Exceeds, QuotientExceeds, SumIsWide};
    ghost use Rattle.fraction.specs.Mixed.{kept_value, limit};

    /// `n / d`, which times `d` is `n`; `d` is at least 1, and `n` isn't `i128::MIN`. `Wide` exactly where
    /// the numerator or the denominator, in lowest terms, exceeds `2^127 - 1` in size.
    pub fn new(n: i128, d: i128) -> Result<MixedFrac, Wide>
        requires within { IsWithin n }
        requires positive { pos 1 ≤ℤ d }
        ensures exact { IfOk result (λ x. ⟦<MixedFrac as OrderedField>⟧.value x *ℚ whole d ≡ whole n) }
        ensures kept { OnOk result (¬ QuotientExceeds ⟦<MixedFrac as OrderedField>⟧.LIMIT (whole n) (whole d)) }
        ensures wide { OnErr result (QuotientExceeds ⟦<MixedFrac as OrderedField>⟧.LIMIT (whole n) (whole d)) }
    {
        Ok(MixedFrac::narrowed(Frac::new(n, d)?))
    }

    // The sum of two whole numbers, where all three fit 64 bits.
    fn whole_sum(self, other: MixedFrac) -> Option<MixedFrac>
        ensures exact { IfSome result (λ x. kept_value x.kept ≡ kept_value self.kept +ℚ kept_value other.kept) }
        ensures kept { OnSome result (¬ SumIsWide limit (kept_value self.kept) (kept_value other.kept)) }
    {
        match (&self.kept, &other.kept) {
            (Kept::Short(left), Kept::Short(right)) => {
                let sum = left.whole_sum(*right)?;
                Some(MixedFrac {
                    kept: Kept::Short(sum),
                })
            }
            _ => None,
        }
    }

    // The product of two whole numbers, where all three fit 64 bits.
    fn whole_product(self, other: MixedFrac) -> Option<MixedFrac>
        ensures { IfSome result (λ x. kept_value x.kept ≡ kept_value self.kept *ℚ kept_value other.kept) }
    {
        match (&self.kept, &other.kept) {
            (Kept::Short(left), Kept::Short(right)) => {
                let product = left.whole_product(*right)?;
                Some(MixedFrac {
                    kept: Kept::Short(product),
                })
            }
            _ => None,
        }
    }

    // The sum in 128 bits; short fractions are brought to one denominator by 64-bit divisions.
    fn fraction_sum(self, other: MixedFrac) -> Result<Frac128, Wide>
        ensures exact { IfOk result (λ x. ⟦<Frac128 as OrderedField>⟧.value x ≡ kept_value self.kept +ℚ kept_value other.kept) }
        ensures kept { OnOk result (¬ SumIsWide limit (kept_value self.kept) (kept_value other.kept)) }
        ensures wide { OnErr result (SumIsWide limit (kept_value self.kept) (kept_value other.kept)) }
    {
        let left = self.widened();
        let right = other.widened();
        match (self.kept, other.kept) {
            (Kept::Short(a), Kept::Short(b)) => {
                let dens = short_denominators(a.den, b.den);
                left.add_over(right, dens)
            }
            _ => left.add(right),
        }
    }

    // The product in 128 bits; short fractions are cancelled by 64-bit divisions.
    fn fraction_product(self, other: MixedFrac) -> Result<Frac128, Wide>
        ensures exact { IfOk result (λ x. ⟦<Frac128 as OrderedField>⟧.value x ≡ kept_value self.kept *ℚ kept_value other.kept) }
        ensures kept { OnOk result (¬ Exceeds limit (kept_value self.kept *ℚ kept_value other.kept)) }
        ensures wide { OnErr result (Exceeds limit (kept_value self.kept *ℚ kept_value other.kept)) }
    {
        let left = self.widened();
        let right = other.widened();
        match (self.kept, other.kept) {
            (Kept::Short(a), Kept::Short(b)) => {
                let first = reduce_short(a.num, b.den);
                let second = reduce_short(b.num, a.den);
                left.mul_cancelled(right, first, second)
            }
            _ => left.mul(right),
        }
    }

    // The fraction in 64 bits where it fits them.
    fn narrowed(frac: Frac128) -> MixedFrac
        ensures num { kept_num result.kept ≡ frac.num }
        ensures den { kept_den result.kept ≡ frac.den }
    {
        let (num, den) = frac.parts();
        let kept = match ShortFrac::from_parts(num, den) {
            Some(short) => Kept::Short(short),
            None => Kept::Long(LongFrac { frac }),
        };
        MixedFrac { kept }
    }

    // The fraction in 128 bits.
    fn widened(self) -> Frac128
        ensures num { result.num ≡ kept_num self.kept }
        ensures den { result.den ≡ kept_den self.kept }
    {
        match self.kept {
            Kept::Short(short) => Frac::from_parts(i128::from(short.num), i128::from(short.den)),
            Kept::Long(long) => long.frac,
        }
    }
}

impl OrderedField for MixedFrac {
    ghost use Rattle.std.proofs.Common.{lit<, lit≤};
    ghost use Rattle.fraction.specs.Value.{ratio, in_lowest_terms, equal_values, ordered_values};
    ghost use Rattle.fraction.specs.Mixed.{kept_value, kept_num_within, kept_den_within, limit};

    const LIMIT: u128 = i128::MAX as u128;

    ghost LIMIT = { limit };

    ghost pair = { λ x. ratio (kept_num x.kept) (kept_den x.kept) };

    ghost value = { λ x. kept_value x.kept };

    ghost meaning = { λ x. in_lowest_terms (kept_num x.kept) (kept_den x.kept) (kept_positive x.kept) (kept_lowest x.kept) };

    ghost within = { λ x. record { num = kept_num_within x.kept; den = kept_den_within x.kept } };

    ghost limits = { (lit≤ tt, lit< tt) };

    ghost equal = { λ x y. equal_values (kept_num x.kept) (kept_den x.kept) (kept_num y.kept) (kept_den y.kept) (kept_positive x.kept) (kept_positive y.kept) (kept_lowest x.kept) (kept_lowest y.kept) };

    ghost ordered = { λ x y. ordered_values (kept_num x.kept) (kept_den x.kept) (kept_num y.kept) (kept_den y.kept) (kept_positive x.kept) (kept_positive y.kept) };

    fn from_whole(n: i128) -> Result<MixedFrac, Wide> {
        Ok(MixedFrac::narrowed(Frac::from_whole(n)?))
    }

    fn neg(self) -> MixedFrac {
        match self.kept {
            Kept::Short(short) => MixedFrac {
                kept: Kept::Short(short.neg()),
            },
            Kept::Long(long) => MixedFrac::narrowed(long.frac.neg()),
        }
    }

    fn add(self, other: MixedFrac) -> Result<MixedFrac, Wide> {
        match self.whole_sum(other) {
            Some(sum) => Ok(sum),
            None => Ok(MixedFrac::narrowed(self.fraction_sum(other)?)),
        }
    }

    fn mul(self, other: MixedFrac) -> Result<MixedFrac, Wide> {
        match self.whole_product(other) {
            Some(product) => Ok(product),
            None => Ok(MixedFrac::narrowed(self.fraction_product(other)?)),
        }
    }

    fn div(self, other: MixedFrac) -> Result<MixedFrac, Wide> {
        Ok(MixedFrac::narrowed(self.widened().div(other.widened())?))
    }

    fn sign(self) -> i32 {
        self.widened().sign()
    }

    fn parts(self) -> (i128, i128) {
        self.widened().parts()
    }
}

impl PartialEq for MixedFrac {
    ghost eq = { eq_of_both (on (λ x. kept_num x.kept) int_eq) (on (λ x. kept_den x.kept) int_eq) };

    ghost laws = { Prim.search (comparing, rules) };

    fn eq(&self, other: &MixedFrac) -> bool {
        match (&self.kept, &other.kept) {
            (Kept::Short(left), Kept::Short(right)) => {
                left.num == right.num && left.den == right.den
            }
            _ => self.widened() == other.widened(),
        }
    }
}

impl Eq for MixedFrac {
    ghost laws = { Prim.search (comparing, rules) };
}

// The order of the cross products.
impl Ord for MixedFrac {
    ghost cmp = { cross_cmp (λ x. kept_num x.kept) (λ x. kept_den x.kept) };

    ghost total = { cross_total (λ x. kept_num x.kept) (λ x. kept_den x.kept) (λ x. kept_positive x.kept) };

    ghost matches_partial_cmp = { Prim.search (comparing, rules) };

    ghost matches_eq = { cross_ties (λ x. kept_num x.kept) (λ x. kept_den x.kept) (λ x. kept_positive x.kept) (λ x. kept_lowest x.kept) };

    fn cmp(&self, other: &MixedFrac) -> Ordering {
        match (&self.kept, &other.kept) {
            (Kept::Short(left), Kept::Short(right)) => left.compare(*right),
            _ => self.widened().cmp(&other.widened()),
        }
    }
}

impl PartialOrd for MixedFrac {
    ghost partial_cmp = { as_partial_cmp (cross_cmp (λ x. kept_num x.kept) (λ x. kept_den x.kept)) };

    ghost laws = { cross_partial (λ x. kept_num x.kept) (λ x. kept_den x.kept) (λ x. kept_positive x.kept) (λ x. kept_lowest x.kept) };

    fn partial_cmp(&self, other: &MixedFrac) -> Option<Ordering> {
        Some(self.cmp(other))
    }
}

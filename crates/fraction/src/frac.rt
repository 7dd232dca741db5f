//! Fractions in lowest terms, within a limit.
ghost use Rattle.std.specs.Prelude.{pos, ◌≤◌, ◌≤ℤ◌, unsigned_abs};
ghost use Rattle.std.proofs.Common.{rules};
ghost use Rattle.std.specs.Cmp.Rules.{comparing};
ghost use Rattle.std.specs.Ordering.{on, int_eq, eq_of_both, as_partial_cmp};
ghost use Rattle.lowest_terms.specs.Coprime.{IsCoprime};
ghost use Rattle.fraction.specs.Cross.{cross_cmp, cross_total, cross_ties, cross_partial};

use crate::limit::{Full, Limit, Seven};
use crate::order::compare_fractions;
use crate::sized::{bounded, bounded_product};
use crate::sum::{common_numerator, denominators, reduce_over};
use lowest_terms::{Reduced, reduce};
use ordered_field::{OrderedField, Wide};
use std::alloc::AllocError;
use std::cmp::Ordering;
use std::marker::PhantomData;

/// A fraction in lowest terms, whose numerator and denominator are at most `L::LIMIT` in size.
///
/// The denominator is at least 1, so equal fractions have equal parts.
#[derive(Debug)]
pub struct Frac<L: Limit> {
    num: i128,
    den: i128,
    limit: PhantomData<L>,
    ghost positive: { pos 1 ≤ℤ den },
    ghost lowest: { IsCoprime (unsigned_abs num) (unsigned_abs den) },
    ghost num_within: { unsigned_abs num ≤ L.LIMIT },
    ghost den_within: { unsigned_abs den ≤ L.LIMIT },
}

/// The fractions whose parts fit a signed 128-bit number, with its opposite.
pub type Frac128 = Frac<Full>;

/// The fractions with parts up to 127, for tests.
pub type Frac7 = Frac<Seven>;

impl<L: Limit> Frac<L> {
    ghost use Rattle.std.specs.Prelude.{◌≡◌, ◌<◌, IfOk, OnOk, OnErr};
    ghost use Rattle.fraction.specs.Value.{rational};
    ghost use Rattle.whole.specs.Numbers.{IsWithin};
    ghost use Rattle.ordered_field.specs.Rational.{whole, ◌+ℚ◌, ◌*ℚ◌};
    ghost use Rattle.ordered_field.specs.Wideness.{Exceeds, QuotientExceeds, SumIsWide};
    ghost use Rattle.fraction.specs.Reduction.{IsReduction};

    /// `n / d`, which times `d` is `n`; `d` is at least 1, and `n` isn't `i128::MIN`. `Wide` exactly where
    /// the numerator or the denominator, in lowest terms, exceeds the limit in size.
    pub fn new(n: i128, d: i128) -> Result<Frac<L>, Wide>
        requires within { IsWithin n }
        requires positive { pos 1 ≤ℤ d }
        ensures exact { IfOk result (λ x. ⟦<Frac<L> as OrderedField>⟧.value x *ℚ whole d ≡ whole n) }
        ensures kept { OnOk result (¬ QuotientExceeds L.LIMIT (whole n) (whole d)) }
        ensures wide { OnErr result (QuotientExceeds L.LIMIT (whole n) (whole d)) }
    {
        let lowest = reduce(n, d);
        let num = bounded::<L>(lowest.num)?;
        let den = bounded::<L>(lowest.den)?;
        Ok(Frac::from_parts(num, den))
    }

    // The fraction with these parts, which are in lowest terms and within the limit.
    pub(crate) fn from_parts(num: i128, den: i128) -> Frac<L>
        requires positive { pos 1 ≤ℤ den }
        requires lowest { IsCoprime (unsigned_abs num) (unsigned_abs den) }
        requires num_within { unsigned_abs num ≤ L.LIMIT }
        requires den_within { unsigned_abs den ≤ L.LIMIT }
        ensures num { result.num ≡ num }
        ensures den { result.den ≡ den }
    {
        Frac {
            num,
            den,
            limit: PhantomData,
        }
    }

    // The sum, where `dens` is one denominator over the other in lowest terms.
    pub(crate) fn add_over(self, other: Frac<L>, dens: Reduced) -> Result<Frac<L>, Wide>
        requires { IsReduction dens self.den other.den }
        ensures exact { IfOk result (λ x. ⟦<Frac<L> as OrderedField>⟧.value x ≡ ⟦<Frac<L> as OrderedField>⟧.value self +ℚ ⟦<Frac<L> as OrderedField>⟧.value other) }
        ensures kept { OnOk result (¬ SumIsWide L.LIMIT (⟦<Frac<L> as OrderedField>⟧.value self) (⟦<Frac<L> as OrderedField>⟧.value other)) }
        ensures wide { OnErr result (SumIsWide L.LIMIT (⟦<Frac<L> as OrderedField>⟧.value self) (⟦<Frac<L> as OrderedField>⟧.value other)) }
    {
        let num = common_numerator::<L>(self.num, other.num, other.den, dens)?;
        let lowest = reduce_over(num, dens);
        Ok(Frac::from_parts(lowest.num, lowest.den))
    }

    // The product, where `left` and `right` are each numerator over the other's denominator in lowest terms.
    pub(crate) fn mul_cancelled(
        self,
        other: Frac<L>,
        left: Reduced,
        right: Reduced,
    ) -> Result<Frac<L>, Wide>
        requires left { IsReduction left self.num other.den }
        requires right { IsReduction right other.num self.den }
        ensures exact { IfOk result (λ x. ⟦<Frac<L> as OrderedField>⟧.value x ≡ ⟦<Frac<L> as OrderedField>⟧.value self *ℚ ⟦<Frac<L> as OrderedField>⟧.value other) }
        ensures kept { OnOk result (¬ Exceeds L.LIMIT (⟦<Frac<L> as OrderedField>⟧.value self *ℚ ⟦<Frac<L> as OrderedField>⟧.value other)) }
        ensures wide { OnErr result (Exceeds L.LIMIT (⟦<Frac<L> as OrderedField>⟧.value self *ℚ ⟦<Frac<L> as OrderedField>⟧.value other)) }
    {
        let num = bounded_product::<L>(left.num, right.num)?;
        let den = bounded_product::<L>(right.den, left.den)?;
        Ok(Frac::from_parts(num, den))
    }

    // One over the number, which isn't zero.
    fn inverse(self) -> Frac<L>
        requires { 0 < unsigned_abs self.num }
        ensures { rational result.num result.den result.positive *ℚ rational self.num self.den self.positive ≡ whole (pos 1) }
    {
        if self.num < 0 {
            Frac::from_parts(-self.den, -self.num)
        } else {
            Frac::from_parts(self.den, self.num)
        }
    }
}

impl<L: Limit> OrderedField for Frac<L> {
    ghost use Rattle.fraction.specs.Value.{ratio, rational, in_lowest_terms, equal_values, ordered_values};

    const LIMIT: u128 = L::LIMIT;

    ghost LIMIT = { L.LIMIT };

    ghost pair = { λ x. ratio x.num x.den };

    ghost value = { λ x. rational x.num x.den x.positive };

    ghost meaning = { λ x. in_lowest_terms x.num x.den x.positive x.lowest };

    ghost within = { λ x. record { num = x.num_within; den = x.den_within } };

    ghost limits = { (L.some, L.fits) };

    ghost equal = { λ x y. equal_values x.num x.den y.num y.den x.positive y.positive x.lowest y.lowest };

    ghost ordered = { λ x y. ordered_values x.num x.den y.num y.den x.positive y.positive };

    fn from_whole(n: i128) -> Result<Frac<L>, Wide> {
        let num = bounded::<L>(n)?;
        Ok(Frac::from_parts(num, 1))
    }

    fn neg(self) -> Frac<L> {
        Frac::from_parts(-self.num, self.den)
    }

    fn add(self, other: Frac<L>) -> Result<Frac<L>, Wide> {
        self.add_over(other, denominators(self.den, other.den))
    }

    fn mul(self, other: Frac<L>) -> Result<Frac<L>, Wide> {
        let left = reduce(self.num, other.den);
        let right = reduce(other.num, self.den);
        self.mul_cancelled(other, left, right)
    }

    fn div(self, other: Frac<L>) -> Result<Frac<L>, Wide> {
        self.mul(other.inverse())
    }

    fn sign(self) -> i32 {
        self.num.signum() as i32
    }

    fn parts(self) -> (i128, i128) {
        (self.num, self.den)
    }
}

impl<L: Limit> Copy for Frac<L> {}

impl<L: Limit> Clone for Frac<L> {
    ghost use Rattle.std.specs.Prelude.{⊤, ◌≡◌};

    ghost is_clone = { λ x y. x ≡ y };

    ghost is_infallible = { λ _. ⊤ };

    fn clone(&self) -> Result<Frac<L>, AllocError> {
        Ok(*self)
    }
}

impl<L: Limit> PartialEq for Frac<L> {
    ghost eq = { eq_of_both (on (λ x. x.num) int_eq) (on (λ x. x.den) int_eq) };

    ghost laws = { Prim.search (comparing, rules) };

    fn eq(&self, other: &Frac<L>) -> bool {
        self.num == other.num && self.den == other.den
    }
}

impl<L: Limit> Eq for Frac<L> {
    ghost laws = { Prim.search (comparing, rules) };
}

// The order of the cross products.
impl<L: Limit> Ord for Frac<L> {
    ghost cmp = { cross_cmp (λ x. x.num) (λ x. x.den) };

    ghost total = { cross_total (λ x. x.num) (λ x. x.den) (λ x. x.positive) };

    ghost matches_partial_cmp = { Prim.search (comparing, rules) };

    ghost matches_eq = { cross_ties (λ x. x.num) (λ x. x.den) (λ x. x.positive) (λ x. x.lowest) };

    fn cmp(&self, other: &Frac<L>) -> Ordering {
        compare_fractions(self.num, self.den, other.num, other.den)
    }
}

impl<L: Limit> PartialOrd for Frac<L> {
    ghost partial_cmp = { as_partial_cmp (cross_cmp (λ x. x.num) (λ x. x.den)) };

    ghost laws = { cross_partial (λ x. x.num) (λ x. x.den) (λ x. x.positive) (λ x. x.lowest) };

    fn partial_cmp(&self, other: &Frac<L>) -> Option<Ordering> {
        Some(self.cmp(other))
    }
}

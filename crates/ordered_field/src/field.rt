//! Which numbers does a solver compute with, and when does one of its operations refuse?
//!
//! A type that implements [`OrderedField`] holds rational numbers whose numerator and denominator, in lowest
//! terms, are at most `LIMIT` in size. Every operation is exact, or refuses with [`Wide`] exactly where the
//! quantity that its contract names exceeds `LIMIT`. Equality and order never refuse.

ghost use Rattle.std.specs.Prelude.{◌≡◌, ℕ, ◌<◌, ◌≤◌, ◌^◌, ◌↔◌, ℤ, pos, negsuc, unsigned_abs, IfOk, OnOk, OnErr, IsTrue};
ghost use Rattle.std.specs.Ordering.{MatchOrdering};
ghost use Rattle.std.specs.declared.cmp.Ordering.TheVariants.{Less};
ghost use Rattle.ordered_field.specs.Rational.{ℚ, whole, ◌+ℚ◌, ◌*ℚ◌, neg_ℚ};
ghost use Rattle.ordered_field.specs.Order.{◌<ℚ◌};
ghost use Rattle.ordered_field.specs.LowestTerms.{Ratio, InLowestTerms};
ghost use Rattle.ordered_field.specs.Wideness.{IsWithin, Exceeds, SumIsWide, FmaIsWide, QuotientExceeds};

use std::cmp::Ordering;

/// A result, or a quantity on the way to it that the operation names, exceeds the field's limit.
#[derive(Clone, Copy, PartialEq, Eq, Debug, Drop)]
pub struct Wide;

/// Rational numbers with numerator and denominator within a limit.
///
/// `==` is equality of the rationals and `<` is their order, that of the cross products. No call takes memory.
pub trait OrderedField: Copy + Eq + Ord {
    /// The greatest size of a numerator and of a denominator, from 1 to `2^127 - 1`.
    const LIMIT: u128;

    // `LIMIT`, for clauses.
    ghost LIMIT: { ℕ };

    // The numerator and the denominator, in lowest terms.
    ghost pair: { Self → Ratio };

    // The rational number that a value means.
    ghost value: { Self → ℚ };

    /// The whole number `n`. `Wide` exactly where `n` exceeds `LIMIT` in size.
    fn from_whole(n: i128) -> Result<Self, Wide>
        ensures exact { IfOk result (λ x. value x ≡ whole n) }
        ensures kept { OnOk result (unsigned_abs n ≤ LIMIT) }
        ensures wide { OnErr result (LIMIT < unsigned_abs n) };

    /// The opposite, which is never too wide.
    fn neg(self) -> Self
        ensures { value result ≡ neg_ℚ (value self) };

    /// The sum. `Wide` exactly where the least common denominator, one of the two numerators brought to it, or
    /// the sum of these numerators exceeds `LIMIT` in size, even if the sum in lowest terms would fit.
    fn add(self, other: Self) -> Result<Self, Wide>
        ensures exact { IfOk result (λ x. value x ≡ value self +ℚ value other) }
        ensures kept { OnOk result (¬ SumIsWide LIMIT (value self) (value other)) }
        ensures wide { OnErr result (SumIsWide LIMIT (value self) (value other)) };

    /// The product. `Wide` exactly where its numerator or its denominator, in lowest terms, exceeds `LIMIT` in
    /// size.
    fn mul(self, other: Self) -> Result<Self, Wide>
        ensures exact { IfOk result (λ x. value x ≡ value self *ℚ value other) }
        ensures kept { OnOk result (¬ Exceeds LIMIT (value self *ℚ value other)) }
        ensures wide { OnErr result (Exceeds LIMIT (value self *ℚ value other)) };

    /// The quotient, which times `other` is `self`; `other` isn't zero. `Wide` exactly where the quotient's
    /// numerator or denominator, in lowest terms, exceeds `LIMIT` in size.
    fn div(self, other: Self) -> Result<Self, Wide>
        requires { ¬ (value other ≡ whole (pos 0)) }
        ensures exact { IfOk result (λ x. value x *ℚ value other ≡ value self) }
        ensures kept { OnOk result (¬ QuotientExceeds LIMIT (value self) (value other)) }
        ensures wide { OnErr result (QuotientExceeds LIMIT (value self) (value other)) };

    /// `self` plus `k * y`. `Wide` exactly where the product, or then the sum of `self` and the product, is.
    fn fma(self, k: Self, y: Self) -> Result<Self, Wide>
        ensures exact { IfOk result (λ x. value x ≡ value self +ℚ value k *ℚ value y) }
        ensures kept { OnOk result (¬ FmaIsWide LIMIT (value self) (value k) (value y)) }
        ensures wide { OnErr result (FmaIsWide LIMIT (value self) (value k) (value y)) }
    {
        self.add(k.mul(y)?)
    }

    /// -1 below zero, 0 at zero, 1 above zero.
    fn sign(self) -> i32
        ensures negative { (result ≡ negsuc 0) ↔ (value self <ℚ whole (pos 0)) }
        ensures zero { (result ≡ pos 0) ↔ (value self ≡ whole (pos 0)) }
        ensures positive { (result ≡ pos 1) ↔ (whole (pos 0) <ℚ value self) };

    /// The numerator and the denominator, in lowest terms, the denominator at least 1.
    fn parts(self) -> (i128, i128)
        ensures num { result.0 ≡ (pair self).num }
        ensures den { result.1 ≡ pos (pair self).den };

    ghost meaning: { (x : Self) → InLowestTerms (pair x) (value x) };

    ghost within: { (x : Self) → IsWithin LIMIT (pair x) };

    ghost limits: { (1 ≤ LIMIT) × (LIMIT < 2 ^ 127) };

    ghost equal: { (x y : Self) → IsTrue (Self.eq x y) ↔ (value x ≡ value y) };

    ghost ordered: { (x y : Self) → (Self.cmp x y ≡ Less) ↔ (value x <ℚ value y) };
}

/// Zero, which fits every field.
pub fn zero<F: OrderedField>() -> F
    ensures { F.value result ≡ whole (pos 0) }
{
    match F::from_whole(0) {
        Ok(zero) => zero,
        Err(Wide) => unreachable!(),
    }
}

/// One, which fits every field.
pub fn one<F: OrderedField>() -> F
    ensures { F.value result ≡ whole (pos 1) }
{
    match F::from_whole(1) {
        Ok(one) => one,
        Err(Wide) => unreachable!(),
    }
}

/// How two values stand to each other as rational numbers.
pub fn compare<F: OrderedField>(a: F, b: F) -> Ordering
    ensures { MatchOrdering result
        (F.value a <ℚ F.value b)
        (F.value a ≡ F.value b)
        (F.value b <ℚ F.value a) }
{
    a.cmp(&b)
}

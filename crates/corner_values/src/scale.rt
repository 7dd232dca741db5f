//! Numbers over their least common denominator.

ghost use Rattle.std.specs.Prelude.{◌≡◌, ◌<◌, ◌≤◌, ◌*◌, ◌/◌, ◌^◌, pos, ◌≤ℤ◌, map, All, length, unsigned_abs, int_div, IfOk, OnOk, IfErr};
ghost use Rattle.ordered_field.specs.LowestTerms.{numerator_over};
ghost use Rattle.whole.specs.Numbers.{IsWithin, IsLcm, gcd_of};
ghost use Rattle.whole.specs.declared.answers.Stuck.{Stuck as StuckAt};
ghost use Rattle.tableau.specs.Operations.{IfStuck};
ghost use Rattle.corner_values.specs.Scale.{IsScale, numerators, AreOverScale};
ghost use Rattle.corner_values.specs.Faults.{IsWholeProduct, IsWideMultiple, IsWideNumerator, IsStuckMultiple, IsStuckNumerator, IsStuckScaling};

use crate::answer::Values;
use ordered_field::OrderedField;
use sqlite_items::Items;
use std::alloc::Global;
use tableau::PivotFault;
use whole::{Op, Pair, Place, Stuck, checked_fma, gcd, lcm};

/// Some numbers over their least common denominator. `Stuck` names a product that exceeds `2^127 - 1`: one by which the
/// denominator is formed, or a numerator.
pub(crate) fn over_scale<F: OrderedField>(
    alloc: Global,
    numbers: &[F],
) -> Result<Values, PivotFault>
    requires { length numbers.now < 2 ^ 32 }
    ensures exact { IfOk result (λ v. AreOverScale (map F.pair numbers.now) v.over v.values) }
    ensures positive { IfOk result (λ v. pos 1 ≤ℤ v.over) }
    ensures within { IfOk result (λ v. All IsWithin v.values) }
    ensures kept { OnOk result ((s : StuckAt) → ¬ IsStuckScaling (map F.pair numbers.now) s) }
    ensures stuck { IfErr result (λ fault. IfStuck fault (IsStuckScaling (map F.pair numbers.now))) }
{
    match scale(numbers) {
        Ok(over) => over_number(alloc, numbers, over),
        Err(stuck) => Err(PivotFault::Stuck(stuck)),
    }
}

// The numbers over this one.
#[tactic(auto, using(whole::proofs::Overflow::signed))]
fn over_number<F: OrderedField>(
    alloc: Global,
    numbers: &[F],
    over: i128,
) -> Result<Values, PivotFault>
    requires few { length numbers.now < 2 ^ 32 }
    requires positive { pos 1 ≤ℤ over }
    ensures exact { IfOk result (λ v. (v.over ≡ over) × (v.values ≡ numerators (unsigned_abs over) (map F.pair numbers.now))) }
    ensures within { IfOk result (λ v. All IsWithin v.values) }
    ensures kept { OnOk result ((s : StuckAt) → ¬ IsStuckNumerator (map F.pair numbers.now) (unsigned_abs over) s) }
    ensures stuck { IfErr result (λ fault. IfStuck fault (IsStuckNumerator (map F.pair numbers.now) (unsigned_abs over))) }
{
    match numerators(alloc, numbers, over) {
        Ok(values) => Ok(Values {
            over,
            values: Items::from_vec(values),
        }),
        Err(fault) => Err(fault),
    }
}

// The least common denominator of some numbers. `Stuck` names the product by which that of the first of them overflows
// `2^127 - 1`.
fn scale<F: OrderedField>(numbers: &[F]) -> Result<i128, Stuck>
    requires { length numbers.now < 2 ^ 32 }
    ensures exact { IfOk result (λ l. IsScale (map F.pair numbers.now) (unsigned_abs l)) }
    ensures positive { IfOk result (λ l. pos 1 ≤ℤ l) }
    ensures kept { OnOk result ((s : StuckAt) → ¬ IsStuckMultiple (map F.pair numbers.now) s) }
    ensures stuck { IfErr result (IsStuckMultiple (map F.pair numbers.now)) }
{
    let mut scale = 1;
    for (column, number) in numbers.iter().enumerate() {
        let (_, den) = number.parts();
        match multiple(column as u32, scale, den) {
            Ok(product) => scale = product,
            Err(stuck) => return Err(stuck),
        }
    }
    Ok(scale)
}

// The least common multiple of two numbers.
#[tactic(auto, using(whole::proofs::Overflow::signed))]
fn multiple(column: u32, scale: i128, den: i128) -> Result<i128, Stuck>
    requires scale { pos 1 ≤ℤ scale }
    requires den { pos 1 ≤ℤ den }
    ensures exact { IfOk result (λ l. IsLcm (unsigned_abs scale) (unsigned_abs den) (unsigned_abs l)) }
    ensures positive { IfOk result (λ l. pos 1 ≤ℤ l) }
    ensures kept { OnOk result
        (unsigned_abs scale / gcd_of (unsigned_abs scale) (unsigned_abs den) * unsigned_abs den < 2 ^ 127) }
    ensures stuck { IfErr result (IsWideMultiple column (unsigned_abs scale) (unsigned_abs den)) }
{
    match lcm(scale, den) {
        Some(product) => Ok(product),
        None => Err(product_of(column, divided(scale, gcd(scale, den)), den)),
    }
}

// Each numerator over the denominator `scale`. `Stuck` names a product that exceeds `2^127 - 1`.
fn numerators<F: OrderedField>(
    alloc: Global,
    numbers: &[F],
    scale: i128,
) -> Result<Vec<i128>, PivotFault>
    requires few { length numbers.now < 2 ^ 32 }
    requires scale { pos 1 ≤ℤ scale }
    ensures exact { IfOk result (λ ns. ns.items ≡ numerators (unsigned_abs scale) (map F.pair numbers.now)) }
    ensures within { IfOk result (λ ns. All IsWithin ns.items) }
    ensures kept { OnOk result ((s : StuckAt) → ¬ IsStuckNumerator (map F.pair numbers.now) (unsigned_abs scale) s) }
    ensures stuck { IfErr result (λ fault. IfStuck fault (IsStuckNumerator (map F.pair numbers.now) (unsigned_abs scale))) }
{
    let mut numerators = Vec::new(alloc);
    for (column, number) in numbers.iter().enumerate() {
        match numerator(column as u32, *number, scale) {
            Ok(numerator) => numerators.push(numerator)?,
            Err(stuck) => return Err(PivotFault::Stuck(stuck)),
        }
    }
    Ok(numerators)
}

// The numerator over a multiple of its denominator.
#[tactic(auto, using(whole::proofs::Overflow::signed))]
fn numerator<F: OrderedField>(column: u32, number: F, scale: i128) -> Result<i128, Stuck>
    requires { pos 1 ≤ℤ scale }
    ensures exact { IfOk result (λ n. n ≡ numerator_over (unsigned_abs scale) (F.pair number)) }
    ensures within { IfOk result IsWithin }
    ensures kept { OnOk result (IsWithin (numerator_over (unsigned_abs scale) (F.pair number))) }
    ensures stuck { IfErr result (IsWideNumerator column (unsigned_abs scale) (F.pair number)) }
{
    let (num, den) = number.parts();
    let times = divided(scale, den);
    match checked_fma(0, num, times) {
        Some(numerator) => Ok(numerator),
        None => Err(product_of(column, num, times)),
    }
}

// The quotient of two numbers.
#[tactic(auto, using(whole::proofs::Overflow::signed))]
fn divided(n: i128, divisor: i128) -> i128
    requires { pos 1 ≤ℤ divisor }
    ensures { result ≡ int_div n divisor }
{
    n / divisor
}

// The product of two whole numbers, for a column.
#[tactic(auto, using(whole::proofs::Overflow::signed))]
fn product_of(column: u32, left: i128, right: i128) -> Stuck
    ensures { IsWholeProduct column left right result }
{
    Stuck {
        place: Place::Scale,
        at: column,
        by: 0,
        op: Op::Product,
        left: Pair { num: left, den: 1 },
        right: Pair { num: right, den: 1 },
    }
}

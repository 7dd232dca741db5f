//! How do two variables exchange places in a tableau? The row of the one that leaves is solved for the one that
//! enters, and each other row follows it.
//!
//! Both calls write the new row into a buffer of the caller, whose room is used again; a refusal leaves the
//! buffer half written, and no row has changed.

ghost use Rattle.std.specs.Prelude.{◌≡◌, ◌<◌, ℕ, pos, IfOk, OnOk, IfErr, Some, None};
ghost use Rattle.ordered_field.specs.Rational.{whole, ◌+ℚ◌, ◌*ℚ◌, neg_ℚ};
ghost use Rattle.ordered_field.specs.Wideness.{FmaIsWide, Exceeds};
ghost use Rattle.field_rows.specs.Rows.{coefficient, IsRow, AreQuotients, IsSolvedFor, SomeQuotientIsWide, IsSubstituted, Follows, SomeEntryIsWide};
ghost use Rattle.field_rows.specs.Operations.{IsWideProductOf, IsWideStepOf, IsWideQuotient, IsWideEntry, IfWide};
ghost use Rattle.field_rows.specs.Merging.{number_or_zero, either};

use crate::fault::{RowFault, WideEntry};
use crate::merge::{append, next, other_than, split};
use crate::operation::{Operation, product, product_sum};
use crate::reciprocal::inverse;
use crate::row::{Entry, coefficient};
use ordered_field::{OrderedField, one, zero};
use std::alloc::Global;

/// Solves the row of the variable `basic` for `variable`, whose coefficient isn't zero: 1 over the coefficient
/// at `basic`, and elsewhere the opposite coefficient over it.
///
/// Each entry is the product of its dividend and 1 over the coefficient. `Wide` comes exactly where one of these
/// quotients is too wide, and names that product.
pub fn solve<F: OrderedField>(
    alloc: Global,
    basic: u32,
    row: &[Entry<F>],
    variable: u32,
    solved: &mut Vec<Entry<F>>,
) -> Result<(), RowFault<F>>
    requires row { IsRow F.value row.now }
    requires outside { coefficient F.value row.now basic ≡ whole (pos 0) }
    requires solvable { ¬ (coefficient F.value row.now variable ≡ whole (pos 0)) }
    ensures row { OnOk result (IsRow F.value solved.new.items) }
    ensures quotients { OnOk result (AreQuotients basic variable
        (coefficient F.value row.now) (coefficient F.value solved.new.items)) }
    ensures solved { OnOk result ((n : ℕ) → basic < n → variable < n → IsSolvedFor n
        basic (coefficient F.value row.now) variable (coefficient F.value solved.new.items)) }
    ensures kept { OnOk result (¬ SomeQuotientIsWide F.LIMIT basic variable (coefficient F.value row.now)) }
    ensures wide { IfErr result (λ fault. IfWide fault (λ entry. IsWideQuotient F.LIMIT F.value basic variable
        (coefficient F.value row.now) entry.variable entry.operation)) }
{
    let factor = inverse(coefficient(row, variable));
    // The row says that it less `basic` is zero.
    let mut place = Vec::new(alloc);
    append(&mut place, basic, one::<F>().neg())?;
    solved.clear();
    let (mut left, mut right) = (row, place.as_slice());
    while let Some(at) = next(left, right) {
        let (number, left_rest) = split(left, at);
        let (minus, right_rest) = split(right, at);
        match quotient(minus, other_than(variable, at, number), factor) {
            Ok(entry) => append(solved, at, entry)?,
            Err(operation) => return Err(RowFault::Wide(WideEntry {
                variable: at,
                operation,
            })),
        }
        (left, right) = (left_rest, right_rest);
    }
    Ok(())
}

// The opposite of the first number that is there, times the factor.
fn quotient<F: OrderedField>(
    minus: Option<F>,
    number: Option<F>,
    factor: F,
) -> Result<F, Operation<F>>
    ensures exact { IfOk result (λ x. F.value x
        ≡ neg_ℚ (number_or_zero F.value (either minus number)) *ℚ F.value factor) }
    ensures kept { OnOk result
        (¬ Exceeds F.LIMIT (neg_ℚ (number_or_zero F.value (either minus number)) *ℚ F.value factor)) }
    ensures wide { IfErr result (IsWideProductOf F.LIMIT F.value
        (neg_ℚ (number_or_zero F.value (either minus number))) factor) }
{
    match (minus, number) {
        (Some(number), _) => product(number.neg(), factor),
        (None, Some(number)) => product(number.neg(), factor),
        (None, None) => Ok(zero()),
    }
}

/// Puts the solved row of a variable in that variable's place: the row's coefficient there times the solved row
/// is added to the other entries.
///
/// `Wide` comes exactly where one of these products, or then the sum, is too wide, and names it.
pub fn substitute<F: OrderedField>(
    row: &[Entry<F>],
    variable: u32,
    solved: &[Entry<F>],
    followed: &mut Vec<Entry<F>>,
) -> Result<(), RowFault<F>>
    requires row { IsRow F.value row.now }
    requires solved { IsRow F.value solved.now }
    ensures row { OnOk result (IsRow F.value followed.new.items) }
    ensures substituted { OnOk result (IsSubstituted variable (coefficient F.value solved.now)
        (coefficient F.value row.now) (coefficient F.value followed.new.items)) }
    ensures follows { OnOk result ((n : ℕ) → variable < n → Follows n variable (coefficient F.value solved.now)
        (coefficient F.value row.now) (coefficient F.value followed.new.items)) }
    ensures kept { OnOk result (¬ SomeEntryIsWide F.LIMIT variable
        (coefficient F.value solved.now) (coefficient F.value row.now)) }
    ensures wide { IfErr result (λ fault. IfWide fault (λ entry. IsWideEntry F.LIMIT F.value variable
        (coefficient F.value solved.now) (coefficient F.value row.now) entry.variable entry.operation)) }
{
    let factor = coefficient(row, variable);
    followed.clear();
    let (mut left, mut right) = (row, solved);
    while let Some(at) = next(left, right) {
        let (number, left_rest) = split(left, at);
        let (added, right_rest) = split(right, at);
        match step(other_than(variable, at, number), factor, added) {
            Ok(entry) => append(followed, at, entry)?,
            Err(operation) => return Err(RowFault::Wide(WideEntry {
                variable: at,
                operation,
            })),
        }
        (left, right) = (left_rest, right_rest);
    }
    Ok(())
}

// `x + k * y`, where a number that isn't there is zero, which takes no operation.
fn step<F: OrderedField>(x: Option<F>, k: F, y: Option<F>) -> Result<F, Operation<F>>
    ensures exact { IfOk result (λ z. F.value z
        ≡ number_or_zero F.value x +ℚ F.value k *ℚ number_or_zero F.value y) }
    ensures kept { OnOk result
        (¬ FmaIsWide F.LIMIT (number_or_zero F.value x) (F.value k) (number_or_zero F.value y)) }
    ensures wide { IfErr result (IsWideStepOf F.LIMIT F.value
        (number_or_zero F.value x) k (number_or_zero F.value y)) }
{
    match (x, y) {
        (Some(x), Some(y)) => product_sum(x, k, y),
        (Some(x), None) => Ok(x),
        (None, Some(y)) => {
            let added = product(k, y)?;
            Ok(added)
        }
        (None, None) => Ok(zero()),
    }
}

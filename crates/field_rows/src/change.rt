//! A number is put into a row at its variable's place.

ghost use Rattle.std.specs.Prelude.{◌≡◌, ℕ, OnOk};
ghost use Rattle.field_rows.specs.Rows.{coefficient, IsRow, put};
ghost use Rattle.field_rows.specs.Merging.{number_or_zero, either};

use crate::merge::{append, next, other_than, split};
use crate::row::Entry;
use ordered_field::{OrderedField, zero};
use std::alloc::{AllocError, Global};

/// Writes the row with `number` as its coefficient of `variable` into a buffer, whose room is used again.
pub fn put<F: OrderedField>(
    alloc: Global,
    row: &[Entry<F>],
    variable: u32,
    number: F,
    changed: &mut Vec<Entry<F>>,
) -> Result<(), AllocError>
    requires { IsRow F.value row.now }
    ensures row { OnOk result (IsRow F.value changed.new.items) }
    ensures changed { OnOk result ((v : ℕ) → coefficient F.value changed.new.items v
        ≡ put variable (F.value number) (coefficient F.value row.now) v) }
{
    let mut place = Vec::new(alloc);
    append(&mut place, variable, number)?;
    changed.clear();
    let (mut left, mut right) = (row, place.as_slice());
    while let Some(at) = next(left, right) {
        let (old, left_rest) = split(left, at);
        let (new, right_rest) = split(right, at);
        append(changed, at, chosen(new, other_than(variable, at, old)))?;
        (left, right) = (left_rest, right_rest);
    }
    Ok(())
}

// The first number that is there, and else zero.
fn chosen<F: OrderedField>(new: Option<F>, old: Option<F>) -> F
    ensures { F.value result ≡ number_or_zero F.value (either new old) }
{
    match (new, old) {
        (Some(number), _) => number,
        (None, Some(number)) => number,
        (None, None) => zero(),
    }
}

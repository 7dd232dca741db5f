//! Two rows are walked side by side, the least variable in front first.

ghost use Rattle.std.specs.Prelude.{◌≡◌, OnOk, pos};
ghost use Rattle.ordered_field.specs.Rational.{whole};
ghost use Rattle.field_rows.specs.Rows.{put};
ghost use Rattle.field_rows.specs.Merging.{front, lesser, number_in_front, behind, number_or_zero, IsAppended};

use crate::row::Entry;
use ordered_field::OrderedField;
use std::alloc::AllocError;

/// The least variable that two rows have in front; none where both are at their end.
pub(crate) fn next<F: OrderedField>(left: &[Entry<F>], right: &[Entry<F>]) -> Option<u32>
    ensures { result ≡ lesser (front left.now) (front right.now) }
{
    match (front(left), front(right)) {
        (Some(a), Some(b)) => Some(a.min(b)),
        (Some(a), None) => Some(a),
        (None, b) => b,
    }
}

fn front<F: OrderedField>(row: &[Entry<F>]) -> Option<u32>
    ensures { result ≡ front row.now }
{
    match row.split_first() {
        Some((entry, _)) => Some(entry.variable),
        None => None,
    }
}

/// Takes the number of a variable from a row's front, where it stands there.
pub(crate) fn split<F: OrderedField>(row: &[Entry<F>], variable: u32) -> (Option<F>, &[Entry<F>])
    ensures number { result.0 ≡ number_in_front row.now variable }
    ensures rest { result.1.now ≡ behind row.now variable }
{
    match row.split_first() {
        Some((entry, rest)) if entry.variable == variable => {
            let number = entry.number;
            (Some(number), rest)
        }
        _ => (None, row),
    }
}

/// The number at a variable, left out where it is that of the one variable.
#[tactic(auto, unfolding(crate::specs::Rows::put))]
pub(crate) fn other_than<F: OrderedField>(variable: u32, at: u32, number: Option<F>) -> Option<F>
    ensures { number_or_zero F.value result
        ≡ put variable (whole (pos 0)) (λ _. number_or_zero F.value number) at }
{
    if at == variable { None } else { number }
}

/// Adds an entry at a row's end, unless its number is zero.
pub(crate) fn append<F: OrderedField>(
    row: &mut Vec<Entry<F>>,
    variable: u32,
    number: F,
) -> Result<(), AllocError>
    ensures { OnOk result (IsAppended F.value row.old.items variable number row.new.items) }
{
    if number.sign() != 0 {
        row.push(Entry { variable, number })?;
    }
    Ok(())
}

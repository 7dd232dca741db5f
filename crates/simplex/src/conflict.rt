//! Why can't a variable be repaired? Its violated bound, and for each variable of its row the bound that keeps it from
//! helping, are a contradiction.

ghost use Rattle.std.specs.Prelude.{◌≡◌, ◌<◌, ℕ, IfOk, pos};
ghost use Rattle.ordered_field.specs.Rational.{whole};
ghost use Rattle.tableau.specs.Tables.{variables};
ghost use Rattle.simplex.specs.Corners.{CanHelp};
ghost use Rattle.simplex.specs.Assignments.{corner_of, IsAssignment};
ghost use Rattle.simplex.specs.States.{limits_in};
ghost use Rattle.simplex.specs.Choices.{IsFound};
ghost use Rattle.simplex.specs.Shares.{IsConflict};
ghost use Rattle.simplex.specs.Holders.{HasHolder, IsShareOfEntry, IsSizeOf};

use crate::assignment::Assignment;
use crate::choice::{Violation, helps_by_rising};
use crate::limits::Limits;
use crate::outcome::Share;
use field_rows::Entry;
use ordered_field::{OrderedField, one};
use std::alloc::{AllocError, Global};

/// The shares of a violation that nothing can help: its limit with 1, and then for each entry of its row, the least
/// variable first, the limit that keeps its variable from helping, with the entry's size.
pub(crate) fn shares_of<F: OrderedField>(
    alloc: Global,
    assignment: &Assignment<F>,
    limits: &Limits<F>,
    violation: Violation<F>,
) -> Result<Vec<Share<F>>, AllocError>
    requires limits { limits.now.variables ≡ variables assignment.now.table }
    requires sound { IsAssignment F.value assignment.now }
    requires found { IsFound F.value (corner_of F.value assignment.now limits.now) violation }
    requires helpless { (o : ℕ) → ¬ CanHelp F.value (corner_of F.value assignment.now limits.now) violation.upper violation.basic o }
    ensures { IfOk result (λ shares. IsConflict F.value (corner_of F.value assignment.now limits.now)
        violation.upper violation.basic shares.items) }
{
    let mut shares = Vec::new(alloc);
    shares.push(Share {
        tag: violation.limit.tag,
        mult: one(),
    })?;
    let entries = assignment.row(violation.basic);
    let mut rest = entries;
    while let Some((first, behind)) = rest.split_first() {
        let entry = *first;
        shares.push(share(limits, violation.upper, entry))?;
        rest = behind;
    }
    Ok(shares)
}

// The limit that keeps the variable of an entry from helping, with the entry's size.
fn share<F: OrderedField>(limits: &Limits<F>, upper: bool, entry: Entry<F>) -> Share<F>
    requires within { entry.variable < limits.now.variables }
    requires some { ¬ (F.value entry.number ≡ whole (pos 0)) }
    requires holder { HasHolder (limits_in F.value limits.now.limits) upper entry.variable (F.value entry.number) }
    ensures { IsShareOfEntry F.value (limits_in F.value limits.now.limits) upper entry result }
{
    let rising = helps_by_rising(upper, entry.number);
    match limits.in_force(rising, entry.variable) {
        Some(limit) => Share {
            tag: limit.tag,
            mult: size(entry.number),
        },
        None => unreachable!(),
    }
}

// The number without its sign.
fn size<F: OrderedField>(number: F) -> F
    ensures { IsSizeOf (F.value number) (F.value result) }
{
    if number.sign() == -1 {
        number.neg()
    } else {
        number
    }
}

//! Steps of the field, named where they are too wide.

ghost use Rattle.std.specs.Prelude.{◌≡◌, IfOk, IfErr, pos};
ghost use Rattle.ordered_field.specs.Rational.{◌+ℚ◌, ◌*ℚ◌, neg_ℚ};
ghost use Rattle.ordered_field.specs.Delta.{delta_value, delta_sum, delta_scaled};
ghost use Rattle.tableau.specs.Operations.{IsOperation, IfStuck};
ghost use Rattle.simplex.specs.Moves.{change_to, IsStuckChange, IsStuckDifference, IsStuckPart, IsStuckFollowing};

use field_rows::{Operation, product_sum};
use ordered_field::{Delta, OrderedField, Wide};
use tableau::PivotFault;
use whole::{Op, Pair, Place, Stuck};

/// The operation of two numbers of the field at this place.
pub(crate) fn operation<F: OrderedField>(
    place: Place,
    at: u32,
    by: u32,
    op: Op,
    left: F,
    right: F,
) -> Stuck
    ensures { IsOperation place at by op (F.value left) (F.value right) result }
{
    Stuck {
        place,
        at,
        by,
        op,
        left: pair(left),
        right: pair(right),
    }
}

// The number in lowest terms.
fn pair<F: OrderedField>(number: F) -> Pair
    ensures num { result.num ≡ (F.pair number).num }
    ensures den { result.den ≡ pos (F.pair number).den }
{
    let (num, den) = number.parts();
    Pair { num, den }
}

/// The new stand of a variable less its old value.
pub(crate) fn change<F: OrderedField>(
    variable: u32,
    old: Delta<F>,
    to: Delta<F>,
) -> Result<Delta<F>, PivotFault>
    ensures exact { IfOk result (λ d.
        delta_value F.value d ≡ change_to (delta_value F.value old) (delta_value F.value to)) }
    ensures stuck { IfErr result (λ fault. IfStuck fault
        (IsStuckChange F.LIMIT variable (delta_value F.value old) (delta_value F.value to))) }
{
    let real = difference(variable, old.real(), to.real())?;
    let inf = difference(variable, old.inf(), to.inf())?;
    Ok(Delta::new(real, inf))
}

// One part of it.
fn difference<F: OrderedField>(variable: u32, old: F, to: F) -> Result<F, PivotFault>
    ensures exact { IfOk result (λ d. F.value d ≡ F.value to +ℚ neg_ℚ (F.value old)) }
    ensures stuck { IfErr result (λ fault. IfStuck fault
        (IsStuckDifference F.LIMIT variable (F.value to) (F.value old))) }
{
    let less = old.neg();
    match to.add(less) {
        Ok(difference) => Ok(difference),
        Err(Wide) => Err(PivotFault::Stuck(operation(
            Place::Value,
            variable,
            variable,
            Op::Sum,
            to,
            less,
        ))),
    }
}

/// The value of the basic variable `row` once `variable`, which has this entry in its row, has changed.
pub(crate) fn follow<F: OrderedField>(
    row: u32,
    variable: u32,
    old: Delta<F>,
    entry: F,
    change: Delta<F>,
) -> Result<Delta<F>, PivotFault>
    ensures exact { IfOk result (λ d. delta_value F.value d
        ≡ delta_sum (delta_value F.value old) (delta_scaled (F.value entry) (delta_value F.value change))) }
    ensures stuck { IfErr result (λ fault. IfStuck fault (IsStuckFollowing F.LIMIT row variable
        (delta_value F.value old) (F.value entry) (delta_value F.value change))) }
{
    let real = part(row, variable, old.real(), entry, change.real())?;
    let inf = part(row, variable, old.inf(), entry, change.inf())?;
    Ok(Delta::new(real, inf))
}

// One part of it.
fn part<F: OrderedField>(
    row: u32,
    variable: u32,
    old: F,
    entry: F,
    change: F,
) -> Result<F, PivotFault>
    ensures exact { IfOk result (λ x. F.value x ≡ F.value old +ℚ F.value entry *ℚ F.value change) }
    ensures stuck { IfErr result (λ fault. IfStuck fault
        (IsStuckPart F.LIMIT row variable (F.value old) (F.value entry) (F.value change))) }
{
    match product_sum(old, entry, change) {
        Ok(number) => Ok(number),
        Err(Operation::Product(a, b)) => Err(PivotFault::Stuck(operation(
            Place::Value,
            row,
            variable,
            Op::Product,
            a,
            b,
        ))),
        Err(Operation::Sum(a, b)) => Err(PivotFault::Stuck(operation(
            Place::Value,
            row,
            variable,
            Op::Sum,
            a,
            b,
        ))),
    }
}

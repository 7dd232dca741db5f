//! The columns' values once a number is put in for the infinitesimal.

ghost use Rattle.std.specs.Prelude.{◌≡◌, ◌<◌, ◌≤◌, IfOk, OnOk, IfErr};
ghost use Rattle.ordered_field.specs.Delta.{delta_value, delta_at};
ghost use Rattle.whole.specs.declared.answers.Stuck.{Stuck as StuckAt};
ghost use Rattle.tableau.specs.Operations.{IfStuck};
ghost use Rattle.simplex.specs.States.{corner};
ghost use Rattle.corner_values.specs.Scale.{AreNumbers};
ghost use Rattle.corner_values.specs.Values.{value_at};
ghost use Rattle.corner_values.specs.Faults.{IsStuckAt, IsStuckColumnAt};

use crate::operation::operation;
use field_rows::{Operation, product_sum};
use ordered_field::{Delta, OrderedField};
use simplex::Simplex;
use std::alloc::Global;
use tableau::PivotFault;
use whole::{Op, Stuck};

/// The value of each column where the infinitesimal is `epsilon`. `Stuck` names the product of the infinitesimal part
/// and `epsilon`, or its sum with the real part, that is too wide.
pub(crate) fn column_values<F: OrderedField>(
    alloc: Global,
    simplex: &Simplex<F>,
    epsilon: F,
) -> Result<Vec<F>, PivotFault>
    ensures exact { IfOk result (λ xs. AreNumbers F.value simplex.now.table.columns
        (value_at (corner F.value simplex.now) (F.value epsilon)) xs.items) }
    ensures kept { OnOk result ((s : StuckAt) →
        ¬ IsStuckColumnAt F.LIMIT (corner F.value simplex.now) (F.value epsilon) s) }
    ensures stuck { IfErr result (λ fault. IfStuck fault
        (IsStuckColumnAt F.LIMIT (corner F.value simplex.now) (F.value epsilon))) }
{
    let _variables = simplex.variables();
    let mut numbers = Vec::new(alloc);
    for column in 0..simplex.columns() {
        match number_at(column, simplex.value(column), epsilon) {
            Ok(number) => numbers.push(number)?,
            Err(stuck) => return Err(PivotFault::Stuck(stuck)),
        }
    }
    Ok(numbers)
}

// The value of a column.
fn number_at<F: OrderedField>(column: u32, value: Delta<F>, epsilon: F) -> Result<F, Stuck>
    ensures exact { IfOk result (λ x. F.value x ≡ delta_at (delta_value F.value value) (F.value epsilon)) }
    ensures kept { OnOk result ((s : StuckAt) →
        ¬ IsStuckAt F.LIMIT column (delta_value F.value value) (F.value epsilon) s) }
    ensures stuck { IfErr result (IsStuckAt F.LIMIT column (delta_value F.value value) (F.value epsilon)) }
{
    match product_sum(value.real(), value.inf(), epsilon) {
        Ok(number) => Ok(number),
        Err(Operation::Product(a, b)) => Err(operation(column, Op::Product, a, b)),
        Err(Operation::Sum(a, b)) => Err(operation(column, Op::Sum, a, b)),
    }
}

//! The values of the columns at a corner, as whole numbers over one denominator.

ghost use Rattle.std.specs.Prelude.{◌≡◌, pos, ◌≤ℤ◌, All, IfOk, OnOk, IfErr};
ghost use Rattle.whole.specs.Numbers.{IsWithin};
ghost use Rattle.whole.specs.declared.answers.Stuck.{Stuck as StuckValue};
ghost use Rattle.tableau.specs.Operations.{IfStuck};
ghost use Rattle.simplex.specs.States.{corner};
ghost use Rattle.simplex.specs.Checks.{AllWithin};
ghost use Rattle.corner_values.specs.Epsilon.{IsEpsilon};
ghost use Rattle.corner_values.specs.Values.{AreValuesAt, IsSolution};
ghost use Rattle.corner_values.specs.Faults.{IsStuckAfterEpsilon, IsStuckValue};

use crate::answer::Values;
use crate::columns::column_values;
use crate::epsilon::epsilon;
use crate::scale::over_scale;
use ordered_field::OrderedField;
use simplex::Simplex;
use std::alloc::Global;
use tableau::PivotFault;

/// The values of the columns at the corner of a simplex whose values are all within their bounds. They meet each row of
/// the tableau and each bound in force, strict ones strictly.
///
/// Epsilon is put in for the infinitesimal: the least of 1 and, for each variable and each of its bounds, the number at
/// which the value would come to the bound. `over` is the least common denominator of the columns' values then.
///
/// `Stuck` comes exactly where an operation is too wide, and names one: with the place `Epsilon` and the variable, a
/// difference or the quotient of a variable and a bound, or the product or the sum of a column's value; with the place
/// `Scale` and the column, a product by which the least common denominator or a whole value is formed.
pub fn values<F: OrderedField>(alloc: Global, simplex: &Simplex<F>) -> Result<Values, PivotFault>
    requires { AllWithin F.LIMIT F.value (corner F.value simplex.now) }
    ensures exact { IfOk result (λ v. AreValuesAt (corner F.value simplex.now) v.over v.values) }
    ensures solution { IfOk result (λ v. IsSolution F.value (corner F.value simplex.now) v.over v.values) }
    ensures positive { IfOk result (λ v. pos 1 ≤ℤ v.over) }
    ensures within { IfOk result (λ v. All IsWithin v.values) }
    ensures kept { OnOk result ((s : StuckValue) → ¬ IsStuckValue F.LIMIT (corner F.value simplex.now) s) }
    ensures stuck { IfErr result (λ fault. IfStuck fault (IsStuckValue F.LIMIT (corner F.value simplex.now))) }
{
    let _variables = simplex.variables();
    match epsilon(simplex) {
        Ok(epsilon) => at_epsilon(alloc, simplex, epsilon),
        Err(stuck) => Err(PivotFault::Stuck(stuck)),
    }
}

// The values where epsilon is put in for the infinitesimal.
fn at_epsilon<F: OrderedField>(
    alloc: Global,
    simplex: &Simplex<F>,
    epsilon: F,
) -> Result<Values, PivotFault>
    requires { IsEpsilon (corner F.value simplex.now) (F.value epsilon) }
    ensures exact { IfOk result (λ v. AreValuesAt (corner F.value simplex.now) v.over v.values) }
    ensures positive { IfOk result (λ v. pos 1 ≤ℤ v.over) }
    ensures within { IfOk result (λ v. All IsWithin v.values) }
    ensures kept { OnOk result ((s : StuckValue) → ¬ IsStuckAfterEpsilon F.LIMIT (corner F.value simplex.now) s) }
    ensures stuck { IfErr result (λ fault. IfStuck fault (IsStuckAfterEpsilon F.LIMIT (corner F.value simplex.now))) }
{
    let _variables = simplex.variables();
    match column_values(alloc, simplex, epsilon) {
        Ok(numbers) => over_scale(alloc, numbers.as_slice()),
        Err(fault) => Err(fault),
    }
}

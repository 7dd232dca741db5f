//! Which number may be put in for the infinitesimal, so that no value exceeds a limit?

ghost use Rattle.std.specs.Prelude.{◌<◌, Bool, true, false, IfOk, OnOk, IfErr};
ghost use Rattle.whole.specs.declared.answers.Stuck.{Stuck as StuckAt};
ghost use Rattle.tableau.specs.Tables.{variables};
ghost use Rattle.simplex.specs.States.{corner};
ghost use Rattle.corner_values.specs.Epsilon.{IsLeastOf, IsQuotientOn, IsEpsilon};
ghost use Rattle.corner_values.specs.Faults.{IsStuckOn, IsStuckEpsilon};

use crate::meeting::up_to_meeting;
use ordered_field::{OrderedField, one};
use simplex::Simplex;
use whole::Stuck;

/// The least of 1 and the numbers at which some value would meet one of its limits. `Stuck` names a difference or a
/// quotient that is too wide.
pub(crate) fn epsilon<F: OrderedField>(simplex: &Simplex<F>) -> Result<F, Stuck>
    ensures exact { IfOk result (λ e. IsEpsilon (corner F.value simplex.now) (F.value e)) }
    ensures kept { OnOk result ((s : StuckAt) → ¬ IsStuckEpsilon F.LIMIT (corner F.value simplex.now) s) }
    ensures stuck { IfErr result (IsStuckEpsilon F.LIMIT (corner F.value simplex.now)) }
{
    let mut epsilon = one();
    for variable in 0..simplex.variables() {
        match up_to_limits(simplex, variable, epsilon) {
            Ok(number) => epsilon = number,
            Err(stuck) => return Err(stuck),
        }
    }
    Ok(epsilon)
}

// The least of `epsilon` and the numbers at which the value of a variable meets one of its limits.
fn up_to_limits<F: OrderedField>(
    simplex: &Simplex<F>,
    variable: u32,
    epsilon: F,
) -> Result<F, Stuck>
    requires { variable < variables simplex.now.table }
    ensures exact { IfOk result (λ e. IsLeastOf (F.value epsilon)
        (λ q. (upper : Bool) × IsQuotientOn (corner F.value simplex.now) upper variable q) (F.value e)) }
    ensures kept { OnOk result ((s : StuckAt) (upper : Bool) →
        ¬ IsStuckOn F.LIMIT (corner F.value simplex.now) upper variable s) }
    ensures stuck { IfErr result (λ s. (upper : Bool) × IsStuckOn F.LIMIT (corner F.value simplex.now) upper variable s) }
{
    match up_to_lower(simplex, variable, epsilon) {
        Ok(number) => up_to_upper(simplex, variable, number),
        Err(stuck) => Err(stuck),
    }
}

fn up_to_lower<F: OrderedField>(simplex: &Simplex<F>, variable: u32, epsilon: F) -> Result<F, Stuck>
    requires { variable < variables simplex.now.table }
    ensures exact { IfOk result (λ e. IsLeastOf (F.value epsilon)
        (IsQuotientOn (corner F.value simplex.now) false variable) (F.value e)) }
    ensures kept { OnOk result ((s : StuckAt) → ¬ IsStuckOn F.LIMIT (corner F.value simplex.now) false variable s) }
    ensures stuck { IfErr result (IsStuckOn F.LIMIT (corner F.value simplex.now) false variable) }
{
    let value = simplex.value(variable);
    match simplex.lower(variable) {
        Some(limit) => up_to_meeting(variable, limit, value, epsilon),
        None => Ok(epsilon),
    }
}

fn up_to_upper<F: OrderedField>(simplex: &Simplex<F>, variable: u32, epsilon: F) -> Result<F, Stuck>
    requires { variable < variables simplex.now.table }
    ensures exact { IfOk result (λ e. IsLeastOf (F.value epsilon)
        (IsQuotientOn (corner F.value simplex.now) true variable) (F.value e)) }
    ensures kept { OnOk result ((s : StuckAt) → ¬ IsStuckOn F.LIMIT (corner F.value simplex.now) true variable s) }
    ensures stuck { IfErr result (IsStuckOn F.LIMIT (corner F.value simplex.now) true variable) }
{
    let value = simplex.value(variable);
    match simplex.upper(variable) {
        Some(limit) => up_to_meeting(variable, value, limit, epsilon),
        None => Ok(epsilon),
    }
}

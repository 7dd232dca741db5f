//! Which variable is to be repaired, and which one helps? Bland's rule: the least of each ("New finite pivoting rules
//! for the simplex method", 1977), so that a row of pivots never comes back to a corner.

ghost use Rattle.std.specs.Prelude.{◌≡◌, ◌<◌, ◌↔◌, true, false, pos, IsTrue, IfSome, MatchOption, MatchBool};
ghost use Rattle.ordered_field.specs.Rational.{whole};
ghost use Rattle.ordered_field.specs.Delta.{delta_value, ◌≤δ◌, ◌<δ◌};
ghost use Rattle.tableau.specs.Tables.{variables, is_basic};
ghost use Rattle.simplex.specs.Limits.{limit_value, in_force, IsWithin, MayRise, MayFall};
ghost use Rattle.simplex.specs.Corners.{Helps, HelpsByRising, HelpsByFalling};
ghost use Rattle.simplex.specs.Assignments.{corner_of, value_of};
ghost use Rattle.simplex.specs.States.{limits_in};
ghost use Rattle.simplex.specs.Choices.{IsBroken, IsViolation, FindsViolated, FindsHelper};

use crate::assignment::Assignment;
use crate::limits::{Limit, Limits};
use field_rows::Entry;
use ordered_field::{Delta, OrderedField};
use std::cmp::Ordering;

/// A variable outside one of its limits.
#[derive(Clone, Copy, Debug)]
pub(crate) struct Violation<F> {
    pub basic: u32,
    pub upper: bool,
    pub limit: Limit<Delta<F>>,
}

/// The least basic variable that is violated, with its violated limit, the lower one if that is.
pub(crate) fn least_violated<F: OrderedField>(
    assignment: &Assignment<F>,
    limits: &Limits<F>,
) -> Option<Violation<F>>
    requires { limits.now.variables ≡ variables assignment.now.table }
    ensures { FindsViolated F.value (corner_of F.value assignment.now limits.now) result }
{
    for variable in 0..assignment.variables() {
        if let Some(violation) = examined(assignment, limits, variable) {
            return Some(violation);
        }
    }
    None
}

// What limit the value of a variable is outside of, if the variable is basic.
fn examined<F: OrderedField>(
    assignment: &Assignment<F>,
    limits: &Limits<F>,
    variable: u32,
) -> Option<Violation<F>>
    requires limits { limits.now.variables ≡ variables assignment.now.table }
    requires within { variable < variables assignment.now.table }
    ensures { MatchOption result
        (is_basic assignment.now.table variable ≡ true
        → IsWithin (limits_in F.value limits.now.limits) variable (value_of F.value assignment.now variable))
        (λ w. (is_basic assignment.now.table variable ≡ true)
        × IsViolation F.value (limits_in F.value limits.now.limits) variable (value_of F.value assignment.now variable) w) }
{
    if !assignment.is_basic(variable) {
        return None;
    }
    let number = assignment.value(variable);
    violated(limits, variable, number)
}

// What limit the value of a variable is outside of.
fn violated<F: OrderedField>(
    limits: &Limits<F>,
    variable: u32,
    value: Delta<F>,
) -> Option<Violation<F>>
    requires { variable < limits.now.variables }
    ensures { MatchOption result
        (IsWithin (limits_in F.value limits.now.limits) variable (delta_value F.value value))
        (IsViolation F.value (limits_in F.value limits.now.limits) variable (delta_value F.value value)) }
{
    match too_low(limits, variable, value) {
        Some(limit) => Some(Violation {
            basic: variable,
            upper: false,
            limit,
        }),
        None => match too_high(limits, variable, value) {
            Some(limit) => Some(Violation {
                basic: variable,
                upper: true,
                limit,
            }),
            None => None,
        },
    }
}

// The lower limit of a variable whose value is below it.
fn too_low<F: OrderedField>(
    limits: &Limits<F>,
    variable: u32,
    value: Delta<F>,
) -> Option<Limit<Delta<F>>>
    requires { variable < limits.now.variables }
    ensures { MatchOption result
        (IfSome (in_force false variable (limits_in F.value limits.now.limits)) (λ l. l.at ≤δ delta_value F.value value))
        (λ l. IsBroken false (limits_in F.value limits.now.limits) variable (delta_value F.value value) (limit_value F.value l)) }
{
    match limits.in_force(false, variable) {
        Some(limit) => {
            if is_below(value, limit.at) {
                Some(limit)
            } else {
                None
            }
        }
        None => None,
    }
}

// The upper limit of a variable whose value is above it.
fn too_high<F: OrderedField>(
    limits: &Limits<F>,
    variable: u32,
    value: Delta<F>,
) -> Option<Limit<Delta<F>>>
    requires { variable < limits.now.variables }
    ensures { MatchOption result
        (IfSome (in_force true variable (limits_in F.value limits.now.limits)) (λ l. delta_value F.value value ≤δ l.at))
        (λ l. IsBroken true (limits_in F.value limits.now.limits) variable (delta_value F.value value) (limit_value F.value l)) }
{
    match limits.in_force(true, variable) {
        Some(limit) => {
            if is_below(limit.at, value) {
                Some(limit)
            } else {
                None
            }
        }
        None => None,
    }
}

/// The least variable that can help the basic variable `basic`, which is above its upper limit where `upper`, and
/// else below its lower one.
pub(crate) fn helper<F: OrderedField>(
    assignment: &Assignment<F>,
    limits: &Limits<F>,
    upper: bool,
    basic: u32,
) -> Option<u32>
    requires limits { limits.now.variables ≡ variables assignment.now.table }
    requires basic { basic < variables assignment.now.table }
    ensures { FindsHelper F.value (corner_of F.value assignment.now limits.now) upper basic result }
{
    let entries = assignment.row(basic);
    let mut rest = entries;
    while let Some((first, behind)) = rest.split_first() {
        let entry = *first;
        if can_help(assignment, limits, upper, entry) {
            return Some(entry.variable);
        }
        rest = behind;
    }
    None
}

// Whether the variable of an entry can help.
fn can_help<F: OrderedField>(
    assignment: &Assignment<F>,
    limits: &Limits<F>,
    upper: bool,
    entry: Entry<F>,
) -> bool
    requires limits { limits.now.variables ≡ variables assignment.now.table }
    requires within { entry.variable < variables assignment.now.table }
    requires some { ¬ (F.value entry.number ≡ whole (pos 0)) }
    ensures { IsTrue result ↔ Helps upper (F.value entry.number) (limits_in F.value limits.now.limits)
        entry.variable (value_of F.value assignment.now entry.variable) }
{
    let number = assignment.value(entry.variable);
    if helps_by_rising(upper, entry.number) {
        may_rise(limits, entry.variable, number)
    } else {
        may_fall(limits, entry.variable, number)
    }
}

/// Whether a variable with this entry, which isn't zero, helps by rising and not by falling.
pub(crate) fn helps_by_rising<F: OrderedField>(upper: bool, number: F) -> bool
    requires { ¬ (F.value number ≡ whole (pos 0)) }
    ensures { MatchBool result (HelpsByRising upper (F.value number)) (HelpsByFalling upper (F.value number)) }
{
    if number.sign() == 1 { !upper } else { upper }
}

// Whether a variable with this value is below its upper limit, if it has one.
fn may_rise<F: OrderedField>(limits: &Limits<F>, variable: u32, value: Delta<F>) -> bool
    requires { variable < limits.now.variables }
    ensures { IsTrue result ↔ MayRise (limits_in F.value limits.now.limits) variable (delta_value F.value value) }
{
    match limits.in_force(true, variable) {
        Some(limit) => is_below(value, limit.at),
        None => true,
    }
}

// Whether a variable with this value is above its lower limit, if it has one.
fn may_fall<F: OrderedField>(limits: &Limits<F>, variable: u32, value: Delta<F>) -> bool
    requires { variable < limits.now.variables }
    ensures { IsTrue result ↔ MayFall (limits_in F.value limits.now.limits) variable (delta_value F.value value) }
{
    match limits.in_force(false, variable) {
        Some(limit) => is_below(limit.at, value),
        None => true,
    }
}

/// Whether a number is below another.
pub(crate) fn is_below<F: OrderedField>(a: Delta<F>, b: Delta<F>) -> bool
    ensures { IsTrue result ↔ (delta_value F.value a <δ delta_value F.value b) }
{
    match a.compare(b) {
        Ordering::Less => true,
        Ordering::Equal => false,
        Ordering::Greater => false,
    }
}

//! One turn of `check`: Bland's choice is listed, charged and carried out, or what ends the row of pivots is found.

ghost use Rattle.std.specs.Prelude.{◌≡◌, ℕ, None, Some, MatchBool, IfOk, OnErr};
ghost use Rattle.whole.specs.Budget.{counts, spent};
ghost use Rattle.tableau.specs.Tables.{variables};
ghost use Rattle.simplex.specs.Assignments.{corner_of, IsAssignment, IsBuilt};
ghost use Rattle.simplex.specs.Choices.{IsFound};
ghost use Rattle.simplex.specs.Corners.{CanHelp, IsBlandsChoice};
ghost use Rattle.simplex.specs.Limits.{limit_value, in_force};
ghost use Rattle.simplex.specs.States.{limits_in};
ghost use Rattle.simplex.specs.Turns.{tally, one_more, AnswersTurn, EndsHelpless, EndsPivot, IsKeptSound};

use crate::assignment::Assignment;
use crate::choice::{Violation, helper, least_violated};
use crate::conflict::shares_of;
use crate::limits::Limits;
use crate::outcome::Outcome;
use ordered_field::OrderedField;
use std::alloc::{AllocError, Global};
use tableau::PivotFault;
use whole::{Budget, Charge};

/// One pivot, or what ends `check`.
pub(crate) fn turn<F: OrderedField>(
    alloc: Global,
    assignment: &mut Assignment<F>,
    limits: &Limits<F>,
    pivots: &mut Vec<(u32, u32)>,
    budget: &mut Budget,
) -> Option<Outcome<F>>
    requires { IsBuilt F.value assignment.old limits.now None }
    ensures answers { AnswersTurn F.LIMIT F.value
        (corner_of F.value assignment.old limits.now) (tally pivots.old.items (counts budget.old)) result
        (corner_of F.value assignment.new limits.now) (tally pivots.new.items (counts budget.new)) }
    ensures sound { IsKeptSound F.value assignment.old assignment.new }
{
    match least_violated(assignment, limits) {
        None => Some(Outcome::Fine),
        Some(violation) => {
            match helper(assignment, limits, violation.upper, violation.basic) {
                None => Some(helpless(alloc, assignment, limits, violation)),
                Some(other) => exchange(assignment, limits, violation, other, pivots, budget),
            }
        }
    }
}

// The conflict of a violation that nothing can help.
fn helpless<F: OrderedField>(
    alloc: Global,
    assignment: &Assignment<F>,
    limits: &Limits<F>,
    violation: Violation<F>,
) -> Outcome<F>
    requires limits { limits.now.variables ≡ variables assignment.now.table }
    requires sound { IsAssignment F.value assignment.now }
    requires found { IsFound F.value (corner_of F.value assignment.now limits.now) violation }
    requires helpless { (o : ℕ) → ¬ CanHelp F.value (corner_of F.value assignment.now limits.now) violation.upper violation.basic o }
    ensures { EndsHelpless F.LIMIT F.value (corner_of F.value assignment.now limits.now) result }
{
    match shares_of(alloc, assignment, limits, violation) {
        Ok(shares) => Outcome::Conflict(shares),
        Err(_) => Outcome::NoMemory,
    }
}

// Lists and charges the pivot, and carries it out.
fn exchange<F: OrderedField>(
    assignment: &mut Assignment<F>,
    limits: &Limits<F>,
    violation: Violation<F>,
    other: u32,
    pivots: &mut Vec<(u32, u32)>,
    budget: &mut Budget,
) -> Option<Outcome<F>>
    requires built { IsBuilt F.value assignment.old limits.now None }
    requires choice { IsBlandsChoice F.value (corner_of F.value assignment.old limits.now)
        violation.upper violation.basic other }
    requires held { in_force violation.upper violation.basic (limits_in F.value limits.now.limits)
        ≡ Some (limit_value F.value violation.limit) }
    ensures answers { AnswersTurn F.LIMIT F.value
        (corner_of F.value assignment.old limits.now) (tally pivots.old.items (counts budget.old)) result
        (corner_of F.value assignment.new limits.now) (tally pivots.new.items (counts budget.new)) }
    ensures sound { IsKeptSound F.value assignment.old assignment.new }
{
    match list(pivots, budget, violation.basic, other) {
        Ok(true) => carried_out(assignment, limits, violation, other),
        Ok(false) => Some(Outcome::Spent),
        Err(_) => Some(Outcome::NoMemory),
    }
}

fn carried_out<F: OrderedField>(
    assignment: &mut Assignment<F>,
    limits: &Limits<F>,
    violation: Violation<F>,
    other: u32,
) -> Option<Outcome<F>>
    requires built { IsBuilt F.value assignment.old limits.now None }
    requires choice { IsBlandsChoice F.value (corner_of F.value assignment.old limits.now)
        violation.upper violation.basic other }
    requires held { in_force violation.upper violation.basic (limits_in F.value limits.now.limits)
        ≡ Some (limit_value F.value violation.limit) }
    ensures answers { EndsPivot F.LIMIT F.value (corner_of F.value assignment.old limits.now)
        violation.upper violation.basic other result (corner_of F.value assignment.new limits.now) }
    ensures sound { IsKeptSound F.value assignment.old assignment.new }
{
    let _count = limits.len();
    match assignment.pivot_and_update(violation.basic, other, violation.limit.at) {
        Ok(()) => None,
        Err(PivotFault::Stuck(stuck)) => Some(Outcome::Stuck(stuck)),
        Err(PivotFault::NoMemory) => Some(Outcome::NoMemory),
    }
}

// Lists and charges a pivot, or does neither: false where the budget is spent.
fn list(
    pivots: &mut Vec<(u32, u32)>,
    budget: &mut Budget,
    basic: u32,
    other: u32,
) -> Result<bool, AllocError>
    ensures listed { IfOk result (λ listed. MatchBool listed
        (tally pivots.new.items (counts budget.new) ≡ one_more basic other (tally pivots.old.items (counts budget.old)))
        ((tally pivots.new.items (counts budget.new) ≡ tally pivots.old.items (counts budget.old))
        × (spent (counts budget.old) ≡ budget.old.limit))) }
    ensures refused { OnErr result (tally pivots.new.items (counts budget.new) ≡ tally pivots.old.items (counts budget.old)) }
{
    let mut charged = *budget;
    if !charged.charge(Charge::Pivot) {
        return Ok(false);
    }
    pivots.push((basic, other))?;
    *budget = charged;
    Ok(true)
}

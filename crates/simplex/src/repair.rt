//! `check` of the paper: as long as a basic variable is violated, it leaves the basis.

ghost use Rattle.std.specs.Prelude.{◌≡◌, ℕ, [], None, length};
ghost use Rattle.whole.specs.Budget.{counts};
ghost use Rattle.simplex.specs.Assignments.{IsBuilt, state_of};
ghost use Rattle.simplex.specs.States.{rest_of};
ghost use Rattle.simplex.specs.Checks.{AnswersCheckAtWork, pivots_charged};
ghost use Rattle.simplex.specs.Turns.{IsKeptSound};

use crate::assignment::Assignment;
use crate::limits::Limits;
use crate::outcome::Outcome;
use crate::turn::turn;
use ordered_field::OrderedField;
use std::alloc::Global;
use whole::Budget;

/// Pivots by Bland's rule until all is within its limits, or something ends it. Each pivot is listed and charged.
pub(crate) fn repair<F: OrderedField>(
    alloc: Global,
    assignment: &mut Assignment<F>,
    limits: &Limits<F>,
    pivots: &mut Vec<(u32, u32)>,
    budget: &mut Budget,
) -> Outcome<F>
    requires built { IsBuilt F.value assignment.old limits.now None }
    requires none { pivots.old.items ≡ [] }
    ensures answers { AnswersCheckAtWork F.LIMIT F.value (state_of assignment.old limits.now [] None) result
        (state_of assignment.new limits.now pivots.new.items (rest_of result)) (counts budget.new) }
    ensures charged { counts budget.new ≡ pivots_charged (length pivots.new.items) (counts budget.old) }
    ensures built { IsBuilt F.value assignment.new limits.now (rest_of result) }
    ensures sound { IsKeptSound F.value assignment.old assignment.new }
{
    'turns: loop {
        if let Some(outcome) = turn(alloc, assignment, limits, pivots, budget) {
            return outcome;
        }
    }
}

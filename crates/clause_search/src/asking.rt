// The two ways in which the theory is asked: a literal is told, or a common solution is looked for.
ghost use Rattle.std.specs.Prelude.{◌≡◌};
ghost use Rattle.whole.specs.Budget.{counts};
ghost use Rattle.clause_form.specs.declared.clauses.Clauses.{Clauses};
ghost use Rattle.clause_search.specs.Courses.{IsAt, IsDue, MayAssume, MayBeTold, work_left};
ghost use Rattle.clause_search.specs.Upkeep.{IsCovering, CoveringAsked};
ghost use Rattle.clause_search.specs.Opened.{charge_of};
ghost use Rattle.clause_search.specs.Steps.{Asks, LeavesLess};

use crate::course::{Course, Phase};
use clause_form::{Heard, Theory};
use farkas_cert::Lit;
use whole::{Budget, Charge, NoMemory};

/// Charges a literal, puts it on the trail and tells it to the theory. It was decided where `by` is
/// None, and else follows from the clause with this number.
///
/// Spent where the budget refuses it: then nothing changed.
pub(crate) fn assume<T: Theory>(
    course: &mut Course,
    theory: &mut T,
    budget: &mut Budget,
    lit: Lit,
    by: Option<u32>,
) -> Heard
    requires { MayBeTold course.old.trail (T.seen theory.old) lit }
    ensures asks { (c : Clauses) (s : T.State) → MayAssume T.relations c s course.old (T.seen theory.old) (counts budget.old) lit by → Asks T.relations c s course.new (T.seen theory.new) (counts budget.new) result }
    ensures covering { (c : Clauses) → IsCovering c course.old → CoveringAsked c course.new result }
    ensures less { LeavesLess (work_left course.old (counts budget.old)) course.new (counts budget.new) result }
    ensures rows { (T.seen theory.new).rows ≡ (T.seen theory.old).rows }
    ensures limit { budget.new.limit ≡ budget.old.limit }
{
    if !budget.charge(charge_for(by)) {
        return Heard::Spent;
    }
    match course.put(lit, by) {
        Ok(()) => theory.tell(lit),
        Err(NoMemory) => Heard::NoMemory,
    }
}

fn charge_for(by: Option<u32>) -> Charge
    ensures { result ≡ charge_of by }
{
    match by {
        None => Charge::Decision,
        Some(_) => Charge::Propagation,
    }
}

/// Lets the theory look for a common solution of the literals told. Its pivots are charged and
/// written.
pub(crate) fn check<T: Theory>(course: &mut Course, theory: &mut T, budget: &mut Budget) -> Heard
    requires { IsDue course.old.phase (T.seen theory.old) }
    ensures asks { (c : Clauses) (s : T.State) → IsAt T.relations c s course.old (T.seen theory.old) (counts budget.old) → Asks T.relations c s course.new (T.seen theory.new) (counts budget.new) result }
    ensures covering { (c : Clauses) → IsCovering c course.old → CoveringAsked c course.new result }
    ensures less { LeavesLess (work_left course.old (counts budget.old)) course.new (counts budget.new) result }
    ensures rows { (T.seen theory.new).rows ≡ (T.seen theory.old).rows }
    ensures limit { budget.new.limit ≡ budget.old.limit }
{
    let heard = theory.check(budget, &mut course.journal);
    if let Heard::Fine = heard {
        course.phase = Phase::Checked;
    }
    heard
}

// Conflicts: a clause is learned, and the trail is cut.
ghost use Rattle.std.specs.Prelude.{◌≡◌, ℕ, ◌≤◌};
ghost use Rattle.whole.specs.Budget.{counts};
ghost use Rattle.learned_clause.specs.Trails.{known_with};
ghost use Rattle.clause_search.specs.Courses.{work_at_clash};
ghost use Rattle.clause_search.specs.Upkeep.{IsKeptAt, CoveringStep};
ghost use Rattle.clause_search.specs.Steps.{IsConflict, IsJump, MayJump, Refutes, Steps};

use crate::course::Course;
use crate::lessons::best_lesson;
use crate::standing::how_many;
use crate::step::Step;
use clause_form::{Clauses, Theory};
use farkas_cert::Lemma;
use learned_clause::{Learned, Start};
use std::alloc::Global;
use whole::{Budget, NoMemory};

/// Learns from a conflict. The empty clause closes the search, and any other cuts the trail to where
/// it gives a literal.
pub(crate) fn conflict<T: Theory>(
    alloc: Global,
    clauses: &Clauses,
    course: &mut Course,
    theory: &mut T,
    budget: &mut Budget,
    start: Start,
) -> Step
    requires kept { IsKeptAt clauses.now course.old }
    requires start { (s : T.State) × IsConflict T.relations clauses.now s course.old (T.seen theory.old) (counts budget.old) start }
    ensures covering { CoveringStep clauses.now course.new result }
    ensures steps { (s : T.State) → IsConflict T.relations clauses.now s course.old (T.seen theory.old) (counts budget.old) start → (work : ℕ) → work_at_clash course.old (counts budget.old) ≤ work → Steps T.relations clauses.now s work course.new (T.seen theory.new) (counts budget.new) result }
    ensures rows { (T.seen theory.new).rows ≡ (T.seen theory.old).rows }
    ensures limit { budget.new.limit ≡ budget.old.limit }
{
    match best_lesson(
        alloc,
        clauses,
        course.lemmas.as_slice(),
        &course.trail,
        &mut course.agenda,
        start,
    ) {
        Ok(
            Learned {
                clause,
                proof,
                keep,
            },
        ) => {
            let lemma = Lemma { clause, proof };
            if lemma.clause.is_empty() {
                refute(course, lemma)
            } else {
                backjump(clauses, course, theory, budget, lemma, keep)
            }
        }
        Err(NoMemory) => Step::NoMemory,
    }
}

// Adds the empty clause to the lemmas.
fn refute(course: &mut Course, lemma: Lemma) -> Step
    ensures { Refutes course.old.lemmas lemma course.new.lemmas result }
{
    match course.lemmas.push(lemma) {
        Ok(()) => Step::Closed,
        Err(_) => Step::NoMemory,
    }
}

/// Adds the lemma, and cuts the trail to this length.
fn backjump<T: Theory>(
    clauses: &Clauses,
    course: &mut Course,
    theory: &mut T,
    budget: &mut Budget,
    lemma: Lemma,
    keep: u32,
) -> Step
    requires kept { IsKeptAt clauses.now course.old }
    requires may { MayJump (known_with clauses.now.clauses course.old.lemmas) (T.seen theory.old) (counts budget.old) keep }
    ensures covering { (s : T.State) → IsJump T.relations clauses.now s course.old (T.seen theory.old) (counts budget.old) lemma keep → CoveringStep clauses.now course.new result }
    ensures steps { (s : T.State) → IsJump T.relations clauses.now s course.old (T.seen theory.old) (counts budget.old) lemma keep → (work : ℕ) → work_at_clash course.old (counts budget.old) ≤ work → Steps T.relations clauses.now s work course.new (T.seen theory.new) (counts budget.new) result }
    ensures rows { (T.seen theory.new).rows ≡ (T.seen theory.old).rows }
    ensures limit { budget.new.limit ≡ budget.old.limit }
{
    let number = how_many(clauses, course.lemmas.as_slice());
    match course.cut(lemma, keep, number) {
        Ok(()) => {
            theory.undo(keep);
            budget.note_conflict();
            Step::GoesOn
        }
        Err(NoMemory) => Step::NoMemory,
    }
}

// The search itself.
ghost use Rattle.std.specs.Prelude.{◌≡◌, length};
ghost use Rattle.whole.specs.Budget.{counts};
ghost use Rattle.clause_form.specs.WellFormed.{IsWellFormed};
ghost use Rattle.clause_search.specs.Answers.{Finds, FindsUntil, IsStart, starting_at};
ghost use Rattle.clause_form.specs.Journals.{literals};
ghost use Rattle.clause_search.specs.Opened.{IsOfCourse};
ghost use Rattle.clause_search.specs.Steps.{IsAllowedStop};
ghost use Rattle.clause_search.specs.Tables.{NameAll};

use crate::course::Course;
use crate::found::{Found, Until};
use crate::guide::{Guide, Unguided};
use crate::step::{Step, Turn, take_step};
use clause_form::{Clauses, Theory};
use farkas_cert::{Cert, Lemma};
use sqlite_items::Items;
use std::alloc::Global;
use whole::{Budget, NoMemory};

/// Looks for truths of the atoms that make each clause true and that the theory grants, until there
/// are some, or the empty clause is learned, or the budget is spent.
///
/// Want of memory alone is free. A theory that was stuck stays so; after Total it has been told the
/// truths, and its last call was a check that answered Fine.
pub fn search<T: Theory>(
    alloc: Global,
    clauses: &Clauses,
    theory: &mut T,
    budget: &mut Budget,
) -> Found
    requires { IsStart T.relations clauses.now (T.seen theory.old) (counts budget.old) }
    ensures found { Finds (starting_at (T.seen theory.old).state T.relations) clauses.now (T.seen theory.new) (counts budget.new) result }
    ensures rows { (T.seen theory.new).rows ≡ (T.seen theory.old).rows }
    ensures limit { budget.new.limit ≡ budget.old.limit }
{
    search_guided(alloc, clauses, theory, budget, &mut Unguided)
}

/// The same search, which decides as the guide advises. It never stops before Total.
pub fn search_guided<T: Theory, G: Guide<T>>(
    alloc: Global,
    clauses: &Clauses,
    theory: &mut T,
    budget: &mut Budget,
    guide: &mut G,
) -> Found
    requires { IsStart T.relations clauses.now (T.seen theory.old) (counts budget.old) }
    ensures found { Finds (starting_at (T.seen theory.old).state T.relations) clauses.now (T.seen theory.new) (counts budget.new) result }
    ensures rows { (T.seen theory.new).rows ≡ (T.seen theory.old).rows }
    ensures limit { budget.new.limit ≡ budget.old.limit }
{
    match run(alloc, clauses, theory, budget, guide, false) {
        Until::Found(found) => found,
        Until::Stopped(_) => unreachable!(),
    }
}

/// The same search, which the guide may stop at a decision.
pub fn search_until<T: Theory, G: Guide<T>>(
    alloc: Global,
    clauses: &Clauses,
    theory: &mut T,
    budget: &mut Budget,
    guide: &mut G,
) -> Until
    requires { IsStart T.relations clauses.now (T.seen theory.old) (counts budget.old) }
    ensures found { FindsUntil (starting_at (T.seen theory.old).state T.relations) clauses.now (G.stops clauses.now guide.new theory.new) (T.seen theory.new) (counts budget.new) result }
    ensures rows { (T.seen theory.new).rows ≡ (T.seen theory.old).rows }
    ensures limit { budget.new.limit ≡ budget.old.limit }
{
    run(alloc, clauses, theory, budget, guide, true)
}

// Makes steps until one ends the search. The guide is obeyed where it stops only if `may_stop` says so.
fn run<T: Theory, G: Guide<T>>(
    alloc: Global,
    clauses: &Clauses,
    theory: &mut T,
    budget: &mut Budget,
    guide: &mut G,
    may_stop: bool,
) -> Until
    requires { IsStart T.relations clauses.now (T.seen theory.old) (counts budget.old) }
    ensures found { FindsUntil (starting_at (T.seen theory.old).state T.relations) clauses.now (IsAllowedStop may_stop (G.stops clauses.now guide.new theory.new)) (T.seen theory.new) (counts budget.new) result }
    ensures rows { (T.seen theory.new).rows ≡ (T.seen theory.old).rows }
    ensures limit { budget.new.limit ≡ budget.old.limit }
{
    let Ok(mut course) = Course::new(alloc, clauses) else {
        return Until::Found(Found::NoMemory);
    };
    'steps: loop {
        match take_step(alloc, clauses, &mut course, theory, budget, guide, may_stop) {
            Turn::Takes(Step::GoesOn) => {}
            Turn::Takes(Step::Total) => return Until::Found(total(alloc, course)),
            Turn::Takes(Step::Closed) => {
                return Until::Found(Found::Closed(certificate(clauses, course.into_lemmas())));
            }
            Turn::Takes(Step::Spent) => {
                return Until::Found(Found::Spent(course.into_journal()));
            }
            Turn::Takes(Step::Stuck(stuck)) => {
                return Until::Found(Found::Stuck(stuck, course.into_journal()));
            }
            Turn::Takes(Step::NoMemory) => return Until::Found(Found::NoMemory),
            Turn::Stops => return Until::Stopped(course.into_journal()),
        }
    }
}

// The truths of a trail that has each atom.
fn total(alloc: Global, course: Course) -> Found
    requires { NameAll course.trail.atoms (literals course.trail.entries) }
    ensures { IsOfCourse course result }
{
    match course.trail.assignment(alloc) {
        Ok(truths) => Found::Total(truths, course.into_journal()),
        Err(NoMemory) => Found::NoMemory,
    }
}

// The lemmas with the sizes of the problem.
fn certificate(clauses: &Clauses, lemmas: Items<Lemma>) -> Cert
    requires { IsWellFormed clauses.now }
    ensures { result ≡ record { columns = clauses.now.columns; atoms = length clauses.now.atoms; clauses = length clauses.now.clauses; lemmas = lemmas } }
{
    Cert {
        columns: clauses.columns,
        atoms: clauses.atoms.len() as u32,
        clauses: clauses.clauses.len() as u32,
        lemmas,
    }
}

// One step of the search: a conflict, a check, a propagation or a decision, whichever is due first.
ghost use Rattle.std.specs.Prelude.{◌≡◌, ℕ, ◌≤◌, []};
ghost use Rattle.whole.specs.Budget.{counts};
ghost use Rattle.clause_search.specs.Courses.{IsAt, work_left};
ghost use Rattle.clause_search.specs.Upkeep.{IsCovering, CoveringAsked, CoveringStep, CoveringTurn};
ghost use Rattle.clause_search.specs.Steps.{Asks, Chooses, IfFree, IsAdvancing, IsDeciding, IsAllowedStop, IsPropagating, LeavesLess, Steps, Turns};

use crate::agenda::Reason;
use crate::asking::{assume, check};
use crate::conflict::conflict;
use crate::course::{Course, Phase};
use crate::guide::{Advice, Guide};
use crate::trail::Trail;
use clause_form::{Clauses, Heard, Theory};
use farkas_cert::Lit;
use learned_clause::Start;
use std::alloc::Global;
use whole::{Budget, NoMemory, Stuck};

/// What a step came to.
#[derive(Debug, Drop)]
pub(crate) enum Step {
    /// The search goes on.
    GoesOn,
    /// All atoms are on the trail, each clause is true, and the last check answered Fine.
    Total,
    /// The empty clause was learned.
    Closed,
    /// The budget is spent.
    Spent,
    /// An operation of the theory overflowed.
    Stuck(Stuck),
    NoMemory,
}

/// What is done in one turn of the search.
#[derive(Debug, Drop)]
pub(crate) enum Turn {
    /// A step is made.
    Takes(Step),
    /// The guide stops the search at a decision.
    Stops,
}

/// Makes one step. A false clause comes first, then the check that follows a literal, then a clause
/// that gives a literal, and a decision only where there is none. There the guide
/// may stop the search, if `may_stop` says so.
pub(crate) fn take_step<T: Theory, G: Guide<T>>(
    alloc: Global,
    clauses: &Clauses,
    course: &mut Course,
    theory: &mut T,
    budget: &mut Budget,
    guide: &mut G,
    may_stop: bool,
) -> Turn
    requires covering { IsCovering clauses.now course.old }
    requires at { (s : T.State) × IsAt T.relations clauses.now s course.old (T.seen theory.old) (counts budget.old) }
    ensures covering { CoveringTurn clauses.now course.new result }
    ensures turns { (s : T.State) → IsAt T.relations clauses.now s course.old (T.seen theory.old) (counts budget.old) → Turns T.relations clauses.now s (IsAllowedStop may_stop (G.stops clauses.now guide.new theory.new)) (work_left course.old (counts budget.old)) course.new (T.seen theory.new) (counts budget.new) result }
    ensures rows { (T.seen theory.new).rows ≡ (T.seen theory.old).rows }
    ensures limit { budget.new.limit ≡ budget.old.limit }
{
    match course
        .agenda
        .next_false(clauses, course.lemmas.as_slice(), &course.trail)
    {
        Ok(Some(number)) => {
            let step = conflict(
                alloc,
                clauses,
                course,
                theory,
                budget,
                Start::Clause(number),
            );
            Turn::Takes(step)
        }
        Ok(None) => match course.phase {
            Phase::Told => {
                let heard = check(course, theory, budget);
                Turn::Takes(after(alloc, clauses, course, theory, budget, heard))
            }
            _ => advance(alloc, clauses, course, theory, budget, guide, may_stop),
        },
        Err(NoMemory) => Turn::Takes(Step::NoMemory),
    }
}

// Goes on after the theory was asked.
fn after<T: Theory>(
    alloc: Global,
    clauses: &Clauses,
    course: &mut Course,
    theory: &mut T,
    budget: &mut Budget,
    heard: Heard,
) -> Step
    requires covering { CoveringAsked clauses.now course.old heard }
    requires asks { (s : T.State) × Asks T.relations clauses.now s course.old (T.seen theory.old) (counts budget.old) heard }
    ensures covering { CoveringStep clauses.now course.new result }
    ensures steps { (s : T.State) (work : ℕ) → Asks T.relations clauses.now s course.old (T.seen theory.old) (counts budget.old) heard → LeavesLess work course.old (counts budget.old) heard → Steps T.relations clauses.now s work course.new (T.seen theory.new) (counts budget.new) result }
    ensures rows { (T.seen theory.new).rows ≡ (T.seen theory.old).rows }
    ensures limit { budget.new.limit ≡ budget.old.limit }
{
    match heard {
        Heard::Fine => Step::GoesOn,
        Heard::Clash(parts) => conflict(
            alloc,
            clauses,
            course,
            theory,
            budget,
            Start::Clash(parts),
        ),
        Heard::Spent => Step::Spent,
        Heard::Stuck(stuck) => Step::Stuck(stuck),
        Heard::NoMemory => Step::NoMemory,
    }
}

// Propagates, or decides where all is propagated.
fn advance<T: Theory, G: Guide<T>>(
    alloc: Global,
    clauses: &Clauses,
    course: &mut Course,
    theory: &mut T,
    budget: &mut Budget,
    guide: &mut G,
    may_stop: bool,
) -> Turn
    requires covering { IsCovering clauses.now course.old }
    requires none { course.old.agenda.fresh.items ≡ [] }
    requires advancing { (s : T.State) × IsAdvancing T.relations clauses.now s course.old (T.seen theory.old) (counts budget.old) }
    ensures covering { CoveringTurn clauses.now course.new result }
    ensures turns { (s : T.State) → IsAdvancing T.relations clauses.now s course.old (T.seen theory.old) (counts budget.old) → Turns T.relations clauses.now s (IsAllowedStop may_stop (G.stops clauses.now guide.new theory.new)) (work_left course.old (counts budget.old)) course.new (T.seen theory.new) (counts budget.new) result }
    ensures rows { (T.seen theory.new).rows ≡ (T.seen theory.old).rows }
    ensures limit { budget.new.limit ≡ budget.old.limit }
{
    if let Some(reason) = course
        .agenda
        .next_unit(clauses, course.lemmas.as_slice(), &course.trail)
    {
        return Turn::Takes(propagate(alloc, clauses, course, theory, budget, reason));
    }
    let wish = course
        .cursor
        .wish(clauses, course.lemmas.as_slice(), &course.trail);
    consult(
        alloc, clauses, course, theory, budget, guide, wish, may_stop,
    )
}

/// Puts a literal on the trail that follows from a clause.
fn propagate<T: Theory>(
    alloc: Global,
    clauses: &Clauses,
    course: &mut Course,
    theory: &mut T,
    budget: &mut Budget,
    reason: Reason,
) -> Step
    requires covering { IsCovering clauses.now course.old }
    requires propagating { (s : T.State) × IsPropagating T.relations clauses.now s course.old (T.seen theory.old) (counts budget.old) reason.lit reason.by }
    ensures covering { CoveringStep clauses.now course.new result }
    ensures steps { (s : T.State) → IsPropagating T.relations clauses.now s course.old (T.seen theory.old) (counts budget.old) reason.lit reason.by → Steps T.relations clauses.now s (work_left course.old (counts budget.old)) course.new (T.seen theory.new) (counts budget.new) result }
    ensures rows { (T.seen theory.new).rows ≡ (T.seen theory.old).rows }
    ensures limit { budget.new.limit ≡ budget.old.limit }
{
    let heard = assume(course, theory, budget, reason.lit, Some(reason.by));
    after(alloc, clauses, course, theory, budget, heard)
}

// Asks the guide at a decision, and decides unless it stops the search.
fn consult<T: Theory, G: Guide<T>>(
    alloc: Global,
    clauses: &Clauses,
    course: &mut Course,
    theory: &mut T,
    budget: &mut Budget,
    guide: &mut G,
    wish: Option<Lit>,
    may_stop: bool,
) -> Turn
    requires covering { IsCovering clauses.now course.old }
    requires deciding { (s : T.State) × IsDeciding T.relations clauses.now s course.old (T.seen theory.old) (counts budget.old) wish }
    ensures covering { CoveringTurn clauses.now course.new result }
    ensures turns { (s : T.State) → IsDeciding T.relations clauses.now s course.old (T.seen theory.old) (counts budget.old) wish → Turns T.relations clauses.now s (IsAllowedStop may_stop (G.stops clauses.now guide.new theory.new)) (work_left course.old (counts budget.old)) course.new (T.seen theory.new) (counts budget.new) result }
    ensures rows { (T.seen theory.new).rows ≡ (T.seen theory.old).rows }
    ensures limit { budget.new.limit ≡ budget.old.limit }
{
    let advice = guide.advise(
        clauses,
        course.lemmas.as_slice(),
        course.trail.as_slice(),
        &*theory,
    );
    let preferred = match advice {
        Advice::Decide(lit) => Some(lit),
        Advice::Nothing => None,
        Advice::Stop => {
            if may_stop {
                return Turn::Stops;
            }
            None
        }
    };
    Turn::Takes(decide(alloc, clauses, course, theory, budget, preferred, wish))
}

/// Assumes a literal, or finds that each atom is on the trail.
fn decide<T: Theory>(
    alloc: Global,
    clauses: &Clauses,
    course: &mut Course,
    theory: &mut T,
    budget: &mut Budget,
    advice: Option<Lit>,
    wish: Option<Lit>,
) -> Step
    requires covering { IsCovering clauses.now course.old }
    requires deciding { (s : T.State) × IsDeciding T.relations clauses.now s course.old (T.seen theory.old) (counts budget.old) wish }
    ensures covering { CoveringStep clauses.now course.new result }
    ensures steps { (s : T.State) → IsDeciding T.relations clauses.now s course.old (T.seen theory.old) (counts budget.old) wish → Steps T.relations clauses.now s (work_left course.old (counts budget.old)) course.new (T.seen theory.new) (counts budget.new) result }
    ensures rows { (T.seen theory.new).rows ≡ (T.seen theory.old).rows }
    ensures limit { budget.new.limit ≡ budget.old.limit }
{
    match choose(&course.trail, advice, wish) {
        Some(lit) => {
            let heard = assume(course, theory, budget, lit, None);
            after(alloc, clauses, course, theory, budget, heard)
        }
        None => Step::Total,
    }
}

// The literal to decide: the advice, if its atom is off the trail, else the one that is wished for,
// and where each clause is true already the least atom off the trail, negative.
fn choose(trail: &Trail, advice: Option<Lit>, wish: Option<Lit>) -> Option<Lit>
    requires few { trail.now.atoms ≤ 4096 }
    requires wish { IfFree trail.now wish }
    ensures { Chooses trail.now result }
{
    if let Some(lit) = advice {
        if trail.is_free(lit.atom) {
            return Some(lit);
        }
    }
    wish_or_any(trail, wish)
}

fn wish_or_any(trail: &Trail, wish: Option<Lit>) -> Option<Lit>
    requires few { trail.now.atoms ≤ 4096 }
    requires wish { IfFree trail.now wish }
    ensures { Chooses trail.now result }
{
    match wish {
        Some(lit) => Some(lit),
        None => match trail.first_free() {
            Some(atom) => Some(Lit {
                atom,
                positive: false,
            }),
            None => None,
        },
    }
}

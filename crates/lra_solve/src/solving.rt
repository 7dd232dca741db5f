// The search, and after it the values of a model.
ghost use Rattle.std.specs.Prelude.{◌≡◌, ◌≤◌, ◌^◌, true, IfOk, IsSome, IfSome};
ghost use Rattle.clause_form.specs.WellFormed.{IsWellFormed};
ghost use Rattle.lra_theory.specs.Standings.{IsFresh};
ghost use Rattle.fraction.specs.Mixed.{limit};
ghost use Rattle.lra_solve.specs.Solving.{Answers, IsValued, MayValue, Solves, SolvesTotal, seen_of, value_of};
ghost use Rattle.lra_solve.specs.declared.solved.Solved.TheVariants.{Model as AModel};

use crate::solved::{Solved, Spent};
use clause_form::Clauses;
use clause_search::{Found, Until, search_guided, search_until};
use corner_guide::{CornerGuide, CornerModel};
use fraction::MixedFrac;
use lra_theory::{Lra, LraFault};
use sqlite_items::Items;
use std::alloc::Global;
use whole::{Budget, NoMemory};

/// Looks for a model of the clauses, with at most so many decisions, propagated literals and pivots as the budget says,
/// which is at most `2^31`.
///
/// `Model` gives the values of the columns at the corner that the journal reaches, and truths of the atoms with which they
/// are a model. The search stops as soon as the corner is one. So not all atoms are on the trail: one that isn't is as true as
/// its row at these values, and a name as its formula. `Closed` gives a certificate that proves, in which no sum that a
/// checker forms overflows 128 bits. `Spent` comes only where the whole budget is spent and the journal may go on. `Stuck`
/// names an operation that overflows: in carrying out the journal's last move, in a conflict at the corner reached, or in the
/// values of a total assignment. Where the values at a corner overflow before all atoms are on the trail, the search goes on.
pub fn solve(alloc: Global, clauses: &Clauses, budget: u64) -> Solved
    requires formed { IsWellFormed clauses.now }
    requires budget_to { budget ≤ 2 ^ 31 }
    ensures { Solves clauses.now budget result }
{
    let mut theory = match theory_of(alloc, clauses) {
        Ok(theory) => theory,
        Err(NoMemory) => return Solved::NoMemory,
    };
    let Ok(mut guide) = CornerGuide::new(alloc, clauses) else {
        return Solved::NoMemory;
    };
    let mut budget = Budget::new(budget);
    match search_until(alloc, clauses, &mut theory, &mut budget, &mut guide) {
        Until::Stopped(journal) => stopped(guide, Spent { budget, journal }),
        Until::Found(found) => answered(&theory, budget, found),
    }
}

/// The same, but that `Model` comes only where all atoms are on the trail, with its truths.
pub fn solve_total(alloc: Global, clauses: &Clauses, budget: u64) -> Solved
    requires formed { IsWellFormed clauses.now }
    requires budget_to { budget ≤ 2 ^ 31 }
    ensures { SolvesTotal clauses.now budget result }
{
    let mut theory = match theory_of(alloc, clauses) {
        Ok(theory) => theory,
        Err(NoMemory) => return Solved::NoMemory,
    };
    let Ok(mut guide) = CornerGuide::new(alloc, clauses) else {
        return Solved::NoMemory;
    };
    let mut spent = Budget::new(budget);
    let found = search_guided(alloc, clauses, &mut theory, &mut spent, &mut guide);
    answered(&theory, spent, found)
}

/// The model at which the guide stopped the search.
fn stopped(guide: CornerGuide, spent: Spent) -> Solved
    requires { IsSome guide }
    ensures { IfSome guide (λ m. result ≡ AModel m.values m.truths spent) }
{
    match guide.into_model() {
        Some(CornerModel { values, truths }) => Solved::Model(values, truths, spent),
        None => unreachable!(),
    }
}

/// The answer of a search that ended by itself.
fn answered(theory: &Lra<MixedFrac>, budget: Budget, found: Found) -> Solved
    requires { MayValue (seen_of theory.now) found }
    ensures { Answers (seen_of theory.now) budget found result }
{
    match found {
        Found::Total(truths, journal) => valued(theory, truths, Spent { budget, journal }),
        Found::Closed(cert) => Solved::Closed(cert),
        Found::Spent(journal) => Solved::Spent(Spent { budget, journal }),
        Found::Stuck(stuck, journal) => Solved::Stuck(stuck, Spent { budget, journal }),
        Found::NoMemory => Solved::NoMemory,
    }
}

/// The theory of the clauses' rows, to which nothing was told. Their coefficients are far below the largest numbers.
fn theory_of(alloc: Global, clauses: &Clauses) -> Result<Lra<MixedFrac>, NoMemory>
    requires { IsWellFormed clauses.now }
    ensures { IfOk result (λ theory. IsFresh limit value_of clauses.now (seen_of theory)) }
{
    match Lra::new(alloc, clauses) {
        Ok(theory) => Ok(theory),
        Err(LraFault::Stuck(_)) => unreachable!(),
        Err(LraFault::NoMemory) => Err(NoMemory),
    }
}

/// The values of a total assignment.
fn valued(theory: &Lra<MixedFrac>, truths: Items<bool>, spent: Spent) -> Solved
    requires { (seen_of theory.now).fine ≡ true }
    ensures { IsValued (seen_of theory.now) truths spent result }
{
    match theory.values() {
        Ok(values) => Solved::Model(values, truths, spent),
        Err(LraFault::Stuck(stuck)) => Solved::Stuck(stuck, spent),
        Err(LraFault::NoMemory) => Solved::NoMemory,
    }
}

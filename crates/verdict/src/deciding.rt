// Whether an unrolled problem has a model, which is then a run.
ghost use Rattle.std.specs.Prelude.{◌≡◌, ℕ, ◌≤◌, ◌^◌, ◌≤ℤ◌, pos, length, All, IfOk};
ghost use Rattle.claims.specs.Columns.{run_of};
ghost use Rattle.clause_form.specs.WellFormed.{IsWellFormed};
ghost use Rattle.run_rows.specs.Columns.{entries_of};
ghost use Rattle.run_rows.specs.Limits.{IsWithin};
ghost use Rattle.run_rows.specs.Runs.{Fits, IsEntry};
ghost use Rattle.linear_form.specs.Sums.{entry};
ghost use Rattle.lra_solve.specs.Solving.{Solves};
ghost use Rattle.verdict.specs.Deciding.{Decides, DecidesTotal, IsAnswerOf};

use farkas_cert::Cert;
use lra_solve::{Solved, Spent, Values, solve, solve_total};
use run_rows::Run;
use std::alloc::Global;
use unroll::{Problem, run_of};
use whole::{NoMemory, Stuck};

/// What deciding a problem comes to.
#[derive(Debug, Drop)]
pub enum Decided {
    /// The run of a model's values, with the search that found it.
    Model(Run, Spent),
    /// There is no model, as this certificate proves.
    Closed(Cert),
    /// The budget is spent, and a further move may be made.
    Spent(Spent),
    /// An operation has a result past 128 bits.
    Stuck(Stuck, Spent),
    NoMemory,
}

/// Looks for a model of the problem's clauses, by at most so many moves as the budget says, which is at most `2^31`.
///
/// The clauses have as many columns as the shape. The answers are those of [`lra_solve::solve`] on the clauses, but that a
/// model is given as the run of its values.
pub fn decide(alloc: Global, problem: &Problem, budget: u64) -> Decided
    requires formed { IsWellFormed problem.now.clauses }
    requires within { IsWithin problem.now.shape }
    requires columns { problem.now.clauses.columns ≡ length (entries_of problem.now.shape) }
    requires budget_to { budget ≤ 2 ^ 31 }
    ensures { Decides problem.now budget result }
{
    answer(alloc, problem, solve(alloc, &problem.clauses, budget))
}

/// The same by [`lra_solve::solve_total`], which goes on to a truth of each atom.
pub fn decide_total(alloc: Global, problem: &Problem, budget: u64) -> Decided
    requires formed { IsWellFormed problem.now.clauses }
    requires within { IsWithin problem.now.shape }
    requires columns { problem.now.clauses.columns ≡ length (entries_of problem.now.shape) }
    requires budget_to { budget ≤ 2 ^ 31 }
    ensures { DecidesTotal problem.now budget result }
{
    answer(alloc, problem, solve_total(alloc, &problem.clauses, budget))
}

/// The answer about the problem, by what a search came to.
fn answer(alloc: Global, problem: &Problem, solved: Solved) -> Decided
    requires within { IsWithin problem.now.shape }
    requires columns { problem.now.clauses.columns ≡ length (entries_of problem.now.shape) }
    requires solves { (budget : ℕ) × Solves problem.now.clauses budget solved }
    ensures { IsAnswerOf problem.now solved result }
{
    match solved {
        Solved::Model(values, _truths, spent) => match run_at(alloc, problem, &values) {
            Ok(run) => Decided::Model(run, spent),
            Err(NoMemory) => Decided::NoMemory,
        },
        Solved::Closed(cert) => Decided::Closed(cert),
        Solved::Spent(spent) => Decided::Spent(spent),
        Solved::Stuck(stuck, spent) => Decided::Stuck(stuck, spent),
        Solved::NoMemory => Decided::NoMemory,
    }
}

/// The run whose columns have these values.
fn run_at(alloc: Global, problem: &Problem, values: &Values) -> Result<Run, NoMemory>
    requires within { IsWithin problem.now.shape }
    requires count { length values.now.values ≡ length (entries_of problem.now.shape) }
    requires each_in { All IsEntry values.now.values }
    requires over_from { pos 1 ≤ℤ values.now.over }
    ensures exact { IfOk result (λ run. run ≡ run_of problem.now.shape (entry values.now.values) values.now.over) }
    ensures fits { IfOk result (λ run. Fits problem.now.shape run) }
{
    let entries = Vec::from_slice(alloc, values.values.as_slice())?;
    run_of(alloc, problem, &entries, values.over)
}

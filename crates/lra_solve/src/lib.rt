//! The search over the clauses of a problem with the theory of linear rows: a model, a certificate that there is none, or
//! the journal of a search that was given up with its cause.
#![tactic(auto)]

mod solved;
mod solving;
#[cfg(test)]
mod tests;

pub use lra_theory::Values;
pub use solved::{Solved, Spent};
pub use solving::{solve, solve_total};

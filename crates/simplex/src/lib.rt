//! The general simplex of Dutertre and de Moura ("A Fast Linear-Arithmetic Solver for DPLL(T)", CAV 2006) over any
//! ordered field: bounds are asserted one after the other, and `check` finds values within all of them, or some of them
//! whose weighed sum is a contradiction.
#![tactic(auto)]

mod assignment;
mod bound;
mod choice;
mod conflict;
mod laws;
mod limits;
mod outcome;
mod repair;
mod setting;
mod simplex;
mod step;
#[cfg(test)]
mod tests;
mod turn;

pub use laws::conflicts_cancel_columns;
pub use outcome::{Bound, Outcome, Share};
pub use simplex::Simplex;

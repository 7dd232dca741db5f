//! A theory of linear rows for a search over clauses, by the simplex of Dutertre and de Moura ("A Fast Linear-Arithmetic
//! Solver for DPLL(T)", CAV 2006).
//!
//! Each literal of a row bounds a variable. A clash's fractions become whole multipliers of a Farkas leaf, which a checker
//! adds up within 128 bits.
#![tactic(auto)]

mod checking;
mod clash;
mod excess;
mod fault;
mod rows;
mod sums;
mod telling;
#[cfg(test)]
mod tests;
mod theory;
mod trail;
mod undoing;

pub use corner_values::Values;
pub use fault::LraFault;
pub use theory::Lra;

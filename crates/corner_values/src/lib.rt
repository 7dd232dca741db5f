//! Whole values at a corner of the simplex.
//!
//! A corner's values may have infinitesimal parts, by which they keep strict bounds. Once all of them are within their
//! bounds, `values` puts a number in for the infinitesimal that is small enough, and brings the columns' values to one
//! denominator. By Dutertre and de Moura ("A Fast Linear-Arithmetic Solver for DPLL(T)", CAV 2006).
#![tactic(auto)]

mod answer;
mod columns;
mod corner;
mod epsilon;
mod meeting;
mod operation;
mod scale;
#[cfg(test)]
mod tests;

pub use answer::Values;
pub use corner::values;

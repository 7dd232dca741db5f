//! Sparse linear sums with whole coefficients, comparisons of them with 0, and their normal form.
//!
//! When do two comparisons say the same? `normalise` gives each comparison the literal of an atom:
//! a form whose like columns are added, divided by its greatest common divisor, with a first
//! coefficient above 0, against a threshold in lowest terms. `sum_at` evaluates a form exactly.
#![tactic(auto)]

mod lists;
mod normalising;
mod reducing;
mod relations;
mod summing;

pub use lists::{Form, Term, Terms};
pub use normalising::normalise;
pub use relations::{Comparison, Normal, Rel};
pub use summing::sum_at;

//! Linear rows over any ordered field.
#![tactic(auto)]

mod change;
mod fault;
mod laws;
mod merge;
mod operation;
mod pivot;
mod reciprocal;
mod row;
#[cfg(test)]
mod unit;

pub use change::put;
pub use fault::{RowFault, WideEntry};
pub use laws::{contradictions_have_no_solution, zero_fits};
pub use operation::{Operation, product, product_sum};
pub use pivot::{solve, substitute};
pub use reciprocal::inverse;
pub use row::{Entry, coefficient};

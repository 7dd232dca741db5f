//! A tableau of linear rows over any ordered field, whose pivots are exact.
//!
//! Each basic variable has a row: its value is a sum of multiples of variables that aren't basic. A pivot exchanges
//! a basic variable with one that isn't, as in Dantzig's simplex method, and the same vectors meet all rows after it.
#![tactic(auto)]

mod exchange;
mod fault;
mod listed;
mod names;
mod opening;
mod tableau;
mod terms;
#[cfg(test)]
mod tests;

pub use fault::PivotFault;
pub use tableau::Tableau;
pub use terms::RowTerm;

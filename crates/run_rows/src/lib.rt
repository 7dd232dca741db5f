//! What happened on a path, row by row: the runs of flows, their shapes, and the number of each entry's column.
//!
//! A run has rows 0 to `h + t`. Row 0 is the first row of the preamble, row `h` is the opening row,
//! and the rows after it are the controlled ones. Flows are numbered from 1, states from 0.
#![tactic(auto)]

mod columns;
mod rows;
mod shapes;
#[cfg(test)]
mod tests;

pub use columns::Entry;
pub use rows::{FlowRow, Row, Run};
pub use shapes::Shape;

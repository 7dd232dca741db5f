//! Decisions by the corner of a theory of linear rows.
//!
//! A decision promises nothing: the guide only chooses among those that a search may make anyway. A stop
//! promises a model: values at the corner, and truths of the atoms, with which each clause is true.
//!
//! For a decision it measures a literal by how much its row is violated at the corner that the last check
//! found, and decides for the first clause that the corner doesn't satisfy, by its least violated literal.
#![tactic(auto)]

mod definitions;
mod distance;
mod guide;
mod model;
mod outlook;
mod rows;
#[cfg(test)]
mod tests;

pub use guide::CornerGuide;
pub use model::CornerModel;

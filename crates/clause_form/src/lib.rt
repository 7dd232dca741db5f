//! Formulas over linear comparisons, and the clauses that say the same.
//!
//! `to_clauses` gives each formula its clauses: a comparison becomes a literal of a row, and a
//! conjunction or disjunction inside another formula gets a name with clauses that say what it
//! stands for. Values of the columns make the formulas true exactly where they, with some truths of
//! the names, are a model of the clauses.
#![tactic(auto)]

mod building;
mod clauses;
mod converting;
mod demands;
mod formulas;
mod keys;
mod simple;
mod theory;

pub use clauses::{Atom, BuildFault, Clauses, What};
pub use converting::to_clauses;
pub use formulas::Formula;
pub use theory::{Heard, Theory};

//! Questions about the runs of a controller on a path: what is assumed of a run, what is required, and whether a run
//! violates it; the text of a question for a controller.
//!
//! Steps are counted from the opening row, flows from 1, states from 0.
#![tactic(auto)]

mod conditions;
mod denominators;
mod expressions;
mod kinds;
mod lines;
mod names;
mod naming;
mod questions;
mod refusals;
mod scaling;
mod telling;
#[cfg(test)]
mod tests;
#[cfg(test)]
mod text_tests;
mod texts;
mod trees;
mod truth;
mod violation;
mod writing;

pub use conditions::{Of, QCond, QLin, QTerm};
pub use names::Rows;
pub use question_syntax::read_setting;
pub use questions::Question;
pub use scaling::comparisons_hold_at_each_scale;
pub use telling::{
    kinds_are_mixed_by_two_terms, names_stand_by_their_cases, questions_are_told_apart,
    scales_are_least,
};
pub use texts::{print, read};
pub use violation::violates;

//! Whether a run is one of a controller's flows.
//!
//! A run is replayed against a controller and a question: its shape, then row by row the rules of the path, the
//! opening of the states, each flow's step and what it sends, and last whether it violates the question. The text of a
//! run, a trace, is read and printed by `trace_text`, whose calls are given on.
#![tactic(auto)]

mod fitted;
mod replaying;
#[cfg(test)]
mod tests;

pub use replaying::{Replayed, RunRule, replay};
pub use trace_text::{print_trace, read_trace, traces_are_told_apart};

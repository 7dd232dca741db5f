//! A controller whose names are resolved: its states, its rules, and what it lets a sender send.
//!
//! States are numbered from 0 in the order in which the text has them, and so are rules.
#![tactic(auto)]

mod breaches;
mod controllers;
mod expressions;
mod gates;
mod guards;
mod laws;
mod names;
mod resolving;
mod statements;
mod sums;
mod surveys;
#[cfg(test)]
mod tests;

pub use controllers::{Controller, Kind, Rule, State};
pub use expressions::{Lin, LinTerm, Source};
pub use gates::Gate;
pub use laws::{kinds_and_denominators, statements_are_told_apart};
pub use resolving::resolve;
pub use sums::with_number;

//! A stated family of controllers and questions: each seed and size gives one pair of texts, the same on every machine.
//!
//! Measurements and comparisons take their inputs from here. The numbers are drawn by a linear congruential generator
//! (multiplier and increment of Knuth's MMIX), the highest bits first.
#![tactic(auto)]

mod controllers;
mod draws;
mod making;
mod questions;
#[cfg(test)]
mod tests;

pub use making::make;

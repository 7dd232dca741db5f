//! Texts that are read line by line, and lines that are read item by item, each by a state that decides what may stand
//! next.
//!
//! A format says which form the next line has in each state, which state a line leads to, and how what is wrong is
//! named. The laws hold of every format: a text has one reading or one first refusal, and not both; and a whole text
//! is its lines, fed one after another, and then its rest.
#![tactic(auto)]

mod faults;
mod fields;
mod lists;
#[cfg(test)]
mod tests;

pub use faults::Fault;
pub use fields::{Fields, Literal, literal_of};
pub use lists::{LineFault, last_wholes};

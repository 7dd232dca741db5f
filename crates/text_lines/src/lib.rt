//! Texts by lines, and lines by items: a line is cut at its spaces and a text at its LFs, and each
//! item has one spelling. What is read is exactly what is written, and nothing else.
//!
//! The formats of the product (traces, certificates) are made of these lines; each format says which
//! items stand on which line.
#![tactic(auto)]

pub mod cut;
mod items;
mod lines;
mod numbers;
#[cfg(test)]
mod tests;

pub use items::{ItemFault, LineItems};
pub use lines::Lines;
pub use numbers::{natural_of, whole_of};

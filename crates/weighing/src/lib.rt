//! How a comparison of entries is weighed: term by term, in exact whole numbers, or stuck at the first that overflows.
//!
//! A comparison is a list of terms and a relation of their sum to zero. Its coefficients are whole: they are multiplied
//! with the least common multiple of their denominators, the scale. Several comparisons make a claim;
//! all of them are weighed, in order, before the claim's truth is taken.
#![tactic(auto)]

mod outcome;
mod scales;
mod weighings;

pub use outcome::{both, compare, either, not};
pub use scales::{Num, Side, with_denominator};
pub use weighings::{Rel5, Summand, Weighing};

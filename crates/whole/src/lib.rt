//! Whole numbers within 128 bits, and the small types that every layer shares.
//!
//! Which results are exact, and which pass what a signed 128-bit number may hold?
//! `numbers` answers it for the greatest common divisor, the least common multiple and
//! the product-sum; `budget` counts the steps of a search; `answers` has the shapes in
//! which other crates refuse a text or name the operation whose result was too large.
#![tactic(auto)]

mod answers;
mod budget;
mod numbers;

pub use answers::{NoMemory, Op, Pair, Place, ReadFault, Refusal, Stuck};
pub use budget::{Budget, Charge};
pub use numbers::{checked_fma, gcd, lcm};

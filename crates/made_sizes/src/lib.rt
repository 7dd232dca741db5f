//! The unrolled problem of a drawn question is never too large.
#![tactic(auto)]

mod laws;

pub use laws::drawn_problems_are_converted;

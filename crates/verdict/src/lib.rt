//! From the texts of a controller and a question to a verdict: a run that violates the question, a certificate that no run
//! does, or why the search was given up.
#![tactic(auto)]

mod deciding;
mod judging;
#[cfg(test)]
mod tests;

pub use deciding::{Decided, decide, decide_total};
pub use judging::{JudgeFault, Verdict, conclude, judge};

//! The verdict on a drawn problem: its texts are never refused and its problem is never too large.
#![tactic(auto)]

mod judging;
mod laws;
#[cfg(test)]
mod tests;

pub use judging::judge_drawn;
pub use laws::drawn_problems_are_judged;

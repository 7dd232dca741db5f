//! What `gen SEED SIZE` judges, and what it reports: a seed and a size by their words, the files with the two texts of that problem,
//! and the lines on their verdict.
#![tactic(auto)]

mod files;
mod reports;
mod seeds;
#[cfg(test)]
mod tests;

pub use files::{Problem, problem_of, words_to_check};
pub use reports::{Report, report_of};
pub use seeds::{Seed, seed_of};

//! The product's top call: the words of a command line, the files that they name, and the report.
#![tactic(auto)]

mod admitting;
mod asking;
mod auditing;
mod checking;
mod commands;
mod formatting;
mod laws;
mod replaying;
mod reports;
mod running;
mod saved;
#[cfg(test)]
mod tests;

pub use commands::{COMMANDS, Command, Entry};
pub use laws::{canonical_texts_stay, controller_texts_are_told_apart, one_answer, some_answer};
pub use running::run;

//! What a command line asks for by a table of commands, as plain words: a command's word and its values, with no option among them.
//!
//! `clap` reads the words behind a command's own by the command that is made of its entry.
#![tactic(auto)]

mod plain;
#[cfg(test)]
mod tests;

pub use plain::{Plain, plain_words};

//! The words of a command line: which command they name, the values that they give it, and whether its report is to be
//! JSON.
//!
//! The first word names a command of the caller's table. The words behind it are read by a command of `clap` that is made
//! for that entry: the flag `--json`, which may stand once and anywhere before `--`, and as many values as the entry takes.
//! A word of a hyphen and more is an option, unless `--` stands somewhere before it.
#![tactic(auto)]

mod clap_command;
mod forms;
mod laws;
mod requests;
#[cfg(test)]
mod tests;

pub use forms::Form;
pub use laws::clap_takes_what_fits;
pub use requests::{Request, request_of};

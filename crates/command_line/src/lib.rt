//! The program's top call: a command line with its options is carried out, and its report is put as it is or as JSON.
//!
//! The commands on files are those of `ccac_cli`. `gen` makes a problem and judges it in memory, by the same call.
#![tactic(auto)]

mod carrying;
mod generating;
mod json;
mod running;
mod table;
#[cfg(test)]
mod tests;

pub use running::run;

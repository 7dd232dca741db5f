//! A report as one line of JSON, for programs that read it.
#![tactic(auto)]

mod lines;
#[cfg(test)]
mod tests;

pub use lines::report_line;

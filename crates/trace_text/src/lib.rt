//! The text of a run with its shape, a trace: it is read from its one spelling, or refused by the first rule that it
//! breaks, and printed.
//!
//! A trace begins with `ccac-trace 1`, `shape FLOWS STATES H T`, `over N` and `credit N`. Then comes for each row, from
//! 0, a line `row I W` and for each flow, from 1, a line `flow F A S L` with the flow's states behind it on rows `H` and
//! later; then `end`. Each line ends with LF, one space stands between two items, and numbers are decimal with no
//! leading zero.
#![tactic(auto)]

mod laws;
mod lines;
mod printing;
mod reading;
#[cfg(test)]
mod tests;

pub use laws::traces_are_told_apart;
pub use printing::print_trace;
pub use reading::read_trace;

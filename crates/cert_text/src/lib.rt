//! The text of a certificate: it is read from its one spelling, or refused by the first rule that it breaks, and printed.
//!
//! A certificate begins with `ccac-cert 1` and `size COLUMNS ATOMS CLAUSES`. Then comes for each lemma, from 0, a line
//! `lemma N` with the literals of its clause, `+a` or `-a`, and then its tree in prefix order: `s A` splits on an atom and
//! is followed by the tree on which the atom is true and then by that on which it is false; `c N` cites a clause; `f N`
//! with N literals, each with its multiplier, is a Farkas leaf. The last line is `end`. Each line ends with LF, one space
//! stands between two items, and numbers are decimal with no leading zero.
#![tactic(auto)]

mod drafts;
mod journals;
mod laws;
mod lines;
mod printing;
mod reading;
mod splits;
#[cfg(test)]
mod tests;
mod wants;

pub use journals::print_journal;
pub use laws::certificates_are_told_apart;
pub use lines::read_line;
pub use printing::print_cert;
pub use reading::read_cert;
pub use wants::{Line, Want};

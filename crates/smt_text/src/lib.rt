//! Problems in SMT-LIB 2 (logic QF_LRA), so that another solver can be asked the same question.
//!
//! The text is made of the clauses alone: a real constant `x0`, `x1`, .. for each column, a Boolean `a0`, `a1`, .. for each
//! atom, each row atom tied to its row, and each clause asserted, in order.
#![tactic(auto)]

mod forms;
mod problems;
#[cfg(test)]
mod tests;

pub use problems::{counts_text, problem_text};

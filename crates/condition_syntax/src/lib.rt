//! Expressions and conditions as controllers and questions write them.
//!
//! They are read from the tokens that are left of a line, the longest that stands there: `read_expr`, `read_condition`.
//! `specs/Grammar` has how they are spelled, `specs/Ends` where what is spelled ends, `specs/Refused` at which token a line
//! is refused and by which fault. `print_expr` and `print_condition` give the canonical text.
#![tactic(auto)]

mod comparisons;
mod conditions;
mod expressions;
mod faults;
mod fronts;
mod laws;
mod openings;
mod parts;
mod printing;
mod reading;
mod sum_texts;
mod sums;
mod terms;
#[cfg(test)]
mod tests;

pub use conditions::{Cond, Style};
pub use expressions::{ETerm, Expr, Name};
pub use faults::Fault;
pub use fronts::{says, stands};
pub use laws::{conditions_are_told_apart, expressions_are_told_apart};
pub use printing::{print_condition, print_expr, put_condition};
pub use reading::{read_condition, read_expr, refusal};
pub use sum_texts::{put_expr, put_number};
pub use terms::{NAME_LIMIT, number_of, signed};
pub use weighing::{Num, Rel5};

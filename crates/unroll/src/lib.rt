//! The unrolled problem: formulas over the columns of a run that say that the path admits it, that each flow keeps to
//! its controller, and that the question is violated.
//!
//! What is weighed in a run and what is unrolled are the same claims: here each entry stands in its column.
#![tactic(auto)]

mod flow_rows;
mod flow_rules;
mod formulas;
mod gates;
mod lin_sums;
mod name_sums;
mod openings;
mod path_rows;
mod path_sums;
mod problems;
mod question_rows;
mod runs;
mod sends;
mod server_rules;
mod steps;
mod sums;

pub use flow_rows::flow_row;
pub use path_rows::path_row;
pub use problems::{Problem, unroll};
pub use question_rows::question_formulas;
pub use runs::run_of;

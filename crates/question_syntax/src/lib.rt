//! The text of questions, by lines: what each says, with names as they are written.
#![tactic(auto)]

mod laws;
mod lines;
mod printing;
mod reading;
mod refusals;
mod syntax;
#[cfg(test)]
mod tests;
mod values;

pub use ctrl_syntax::Cond;
pub use laws::questions_are_told_apart;
pub use path_server::{Path, Setting};
pub use printing::print_syntax;
pub use reading::{read_setting, read_syntax};
pub use syntax::{ConditionLine, QuestionSyntax};

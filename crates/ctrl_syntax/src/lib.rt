//! The text of controllers, by lines: what each says, with its number.
#![tactic(auto)]

mod laws;
mod lines;
mod parts;
mod printing;
mod reading;
mod refusals;
pub mod rest;
mod sections;
mod syntax;
#[cfg(test)]
mod tests;

pub use condition_syntax::{
    Cond, ETerm, Expr, Name, Num, Rel5, Style, print_condition, read_condition, read_expr,
};
pub use laws::controllers_are_told_apart;
pub use printing::print;
pub use reading::read;
pub use source_text::{Cursor, Token};
pub use syntax::{RateLine, RuleLine, SetLine, StateLine, Syntax};

//! What the texts of controllers and questions are made of: lines, of which blank ones and comments are skipped, and
//! tokens, of which spaces and tabs separate two.
#![tactic(auto)]

mod all_lines;
mod cursor;
mod cutting;
mod header;
mod laws;
mod lexemes;
mod lines;
mod numbers;
mod runs;
#[cfg(test)]
mod tests;

pub use all_lines::SourceLine;
pub use cursor::{Cursor, Token};
pub use header::is_header;
pub use laws::lines_are_cut_once;
pub use lexemes::{Lexeme, Sign};
pub use lines::SourceLines;

//! Formats as tables. A format is a list of lines: the word with which each begins, the kinds of the items behind it, where
//! it may stand and where it leads. What reads and prints texts is the same for every table, and so are its laws: a text is
//! that of one list of rows or has one first refusal, and not both.
//!
//! A table is an instance of the text machine (`text_machine`): its states are the `Spot`s, and `format` of
//! `specs/Tables` says what follows which.
#![tactic(auto)]

mod items;
mod laws;
mod printing;
mod reading;
mod rows;
mod spots;
mod tables;

pub use laws::texts_are_told_apart;
pub use printing::print;
pub use reading::read;
pub use spots::Spot;
pub use tables::{Item, Line, LineTable, Place, Row, word_of};

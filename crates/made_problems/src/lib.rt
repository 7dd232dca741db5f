//! The drawn controllers and questions are always accepted: no reader refuses a text of `ctrl_gen::make`.
#![tactic(auto)]

mod asking;
mod laws;
#[cfg(test)]
mod tests;

pub use asking::ask_drawn;
pub use laws::drawn_problems_are_accepted;

//! A controller and a question about it, from their texts: the controller is read first, and the first text that is
//! refused ends the reading.
#![tactic(auto)]

mod asking;
mod controllers;
#[cfg(test)]
mod tests;

pub use asking::{AskFault, Asked, ask};
pub use controllers::read_controller;

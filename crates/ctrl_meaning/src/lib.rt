//! Whether a row of a run is what a controller makes of the rows before it.
//!
//! On the opening row each state lies within its range. On a controlled row the first rule whose guard holds gives
//! the states, and the window and the rate over these give what the flow sends.
#![tactic(auto)]

mod asking;
mod expressions;
mod gates;
mod opening;
mod readings;
mod send;
mod states;
mod step;
#[cfg(test)]
mod tests;

pub use opening::{OpeningHolds, opening_holds};
pub use readings::ReadPoint;
pub use step::{StepHolds, step_holds};

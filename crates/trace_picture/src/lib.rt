//! A picture of a run: its amounts, the band that the path's rules allow the service, the queue and each state, over the rows.
//!
//! `draw` says which lines stand in which panel, and places each amount of the run in its panel: exactly scaled, and rounded
//! down to a thousandth of a pica. Another crate writes what was placed.
#![tactic(auto)]

mod exact;
mod lines;
mod measures;
mod panels;
mod places;
mod scales;

pub use exact::DrawFault;
pub use lines::{Quantity, Title};
pub use panels::{Line, Panel, Picture, draw};
pub use places::Point;
pub use scales::{Scale, Tick};

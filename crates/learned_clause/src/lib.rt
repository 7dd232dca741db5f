//! What a search learns from a conflict: a clause that follows, with the tree that derives it.
//!
//! The false clause is resolved backwards along the trail until just one of its literals stands at
//! or after the last decision: the first unique implication point (Marques-Silva and Sakallah,
//! GRASP, 1996; Zhang, Madigan, Moskewicz and Malik, 2001).
//!
//! `learning` has the call and its answer, `marks` the atoms that the clause names, `scans` the
//! looks along the trail, `resolving` the walk back with its tree, and `cutting` the clause at its
//! end and the length to which the trail is cut.
#![tactic(auto)]

mod cutting;
mod learning;
mod marks;
mod resolving;
mod scans;
mod trails;

pub use learning::{Learned, Start, learn};
pub use resolving::known;
pub use trails::Assigned;

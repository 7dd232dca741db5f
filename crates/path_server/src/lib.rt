//! The path: its settings, its ten rules, and whether a run obeys them.
#![tactic(auto)]

mod admission;
mod entries;
mod flow_rules;
mod path_rules;
mod scales;
mod server_rules;
mod settings;

pub use admission::{Admit, admits, examine_row};
pub use path_rules::PathRule;
pub use scales::{PathScales, Scale};
pub use settings::{Path, Setting};

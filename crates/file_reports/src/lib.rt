//! What a command on files may do before and after its own work: fetch its files in their order, end early with a report on the one
//! that it can't have, and put a report.
#![tactic(auto)]

mod early_end;
mod fetching;
mod putting;
mod reports;
mod sources;
#[cfg(test)]
mod tests;

pub use early_end::{EarlyEnd, halted};
pub use fetching::fetch_all;
pub use putting::deliver;
pub use reports::Report;
pub use sources::Source;

//! How a call ends that puts its report: as it is, or as one line of JSON.
//!
//! The status is the report's own, 6 where the sink failed, and 7 where memory ran out.
#![tactic(auto)]

mod json;
mod putting;
#[cfg(test)]
mod tests;

pub use json::put_as_json;
pub use putting::{NO_MEMORY, put};

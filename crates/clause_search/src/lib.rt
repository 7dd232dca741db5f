//! A search over clauses for a model that a theory grants, or for a proof that there is none.
//!
//! `search` is the conflict-driven search of Marques-Silva and Sakallah (GRASP, 1996) over a theory
//! that hears literals: it propagates, decides, and learns a clause from each conflict. What it
//! leaves behind, a certificate or a journal, says why its answer holds.
#![tactic(auto)]

mod agenda;
mod asking;
mod conflict;
mod course;
mod cursor;
mod found;
mod guide;
mod lessons;
#[cfg(test)]
mod names;
mod occurrences;
mod searching;
mod standing;
mod step;
#[cfg(test)]
mod tests;
mod trail;

pub use found::{Found, Until};
pub use guide::{Advice, Guide, Unguided};
pub use searching::{search, search_guided, search_until};

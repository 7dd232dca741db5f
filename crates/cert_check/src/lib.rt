//! The checker of certificates: which certificates prove that clauses have no model.
//!
//! `check` reads a certificate once, in order. `nodes` and `leaves` judge one node under a path of
//! assumed literals, `lemmas` goes over the tree of one lemma, `checking` over all lemmas; `paths` and `sums`
//! are the two tables that are kept on the way. `laws` says what a certificate that proves means.
#![tactic(auto)]

mod checking;
mod found;
mod laws;
mod leaves;
mod lemmas;
mod nodes;
mod paths;
mod rows;
mod sums;

pub use checking::check;
pub use found::Checked;
pub use laws::{each_has_a_verdict, proved_have_no_model, small_certificates};

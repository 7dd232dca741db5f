//! Literals, proof trees, certificates and journals: what a search over clauses leaves behind.
//!
//! A certificate is a list of lemmas, each with a tree that derives its clause from the problem's
//! clauses and the lemmas before it. A journal is the list of the moves that a search made.
#![tactic(auto)]

mod certificates;
mod journals;
mod literals;
mod trees;

pub use certificates::{Cert, Lemma};
pub use journals::{Journal, Move};
pub use literals::{Lit, Lits};
pub use trees::{Part, Proof};

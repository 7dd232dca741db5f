//! The one tree of conditions of the logic: how comparisons are joined, and what the joined whole means.
//!
//! The public enums of controllers, questions and formulas each stand for such a tree, with leaves of their own. The
//! rules of the path and of a controller are such trees too. Nothing here runs: the crate is the definitions in `specs/`
//! and the laws about them in `proofs/`.
#![tactic(auto)]

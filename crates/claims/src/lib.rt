//! Claims over the entries of a run: what a rule of the path, of a controller or of a question claims, said once.
//!
//! A rule is a list of comparisons whose terms are made of a whole coefficient and an entry of the run, or its
//! denominator for a constant. How a term is made is left open: of the entry's value a comparison that is weighed, of
//! the entry's column a row of the unrolled problem. Nothing here runs: the crate is the definitions in `specs/` and
//! the laws about them in `proofs/`.
#![tactic(auto)]

//! How many forms, atoms and clauses a list of formulas can give at most, by the sizes of the formulas.
#![tactic(auto)]

mod laws;

pub use laws::small_formulas_are_converted;

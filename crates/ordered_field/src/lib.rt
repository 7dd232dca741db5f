//! Ordered fields of rational numbers within a limit, whose operations refuse for an exact cause.
#![tactic(auto)]

mod delta;
mod field;
mod laws;

pub use delta::Delta;
pub use field::{OrderedField, Wide, compare, one, zero};
pub use laws::rationals_are_an_ordered_field;

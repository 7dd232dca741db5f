//! Fractions in lowest terms whose numerator and denominator stay within a limit.
//!
//! How does a solver compute exactly, in bounded memory, and still say exactly when a number became too
//! large? [`Frac`] is an [`OrderedField`](ordered_field::OrderedField): each operation is exact, or
//! refused exactly where the quantity that it names exceeds the limit. Sums are formed over the least
//! common denominator, products are cancelled crosswise first, and the order is found by quotients and
//! remainders.
#![tactic(auto)]

mod frac;
mod limit;
mod mixed;
mod order;
mod short;
mod short_terms;
mod sized;
mod sum;
#[cfg(test)]
mod tests;

pub use frac::{Frac, Frac7, Frac128};
pub use limit::{Full, Limit, Seven};
pub use mixed::MixedFrac;

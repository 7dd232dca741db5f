//! What is asked of a simplex, and what it answers.

use whole::Stuck;

/// `var <= num / den` where `upper`, and else `var >= num / den`; `<` and `>` where `strict`. `den` is at least 1, and
/// `num` isn't `i128::MIN`.
#[derive(Clone, Copy, PartialEq, Eq, Debug)]
pub struct Bound {
    pub var: u32,
    pub upper: bool,
    pub num: i128,
    pub den: i128,
    pub strict: bool,
}

/// A bound of a conflict by its tag, and its multiplier, which is above zero.
#[derive(Clone, Copy, PartialEq, Eq, Debug)]
pub struct Share<F> {
    pub tag: u32,
    pub mult: F,
}

/// What a call of a simplex found.
#[derive(Debug, Drop)]
pub enum Outcome<F> {
    /// No contradiction.
    Fine,
    /// Bounds in force whose multiples sum to a contradiction.
    Conflict(Vec<Share<F>>),
    /// The budget is spent, and a pivot may be made.
    Spent,
    /// An operation that is too wide for the field.
    Stuck(Stuck),
    NoMemory,
}

//! What the lines of a text come to, one after the other.

/// What the lines so far come to.
#[derive(Clone, Copy, Debug)]
pub(crate) struct Totals {
    /// The greatest number of rows in a test of delay.
    pub(crate) delay_max: u32,
    /// The least common multiple of the denominators, from 1 to 1,000,000.
    pub(crate) den: u32,
}

/// What the comparisons and the tests of delay of a guard come to, with what the lines before it came to.
#[derive(Clone, Copy, Debug)]
pub(crate) struct Survey {
    /// Names of both kinds stand in one comparison.
    pub(crate) mixed: bool,
    /// The number of a test of delay isn't whole or exceeds 8.
    pub(crate) unfit: bool,
    /// The greatest number of rows in a test of delay.
    pub(crate) delay_max: u32,
    /// The least common multiple of the denominators; None once it has passed its limit.
    pub(crate) den: Option<u32>,
}

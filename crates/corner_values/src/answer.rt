//! What the values at a corner are given as.

use sqlite_items::Items;

/// A value for each column: the whole number in its place, over `over`, which is at least 1. None is `i128::MIN`.
#[derive(Debug, Drop)]
pub struct Values {
    pub over: i128,
    pub values: Items<i128>,
}

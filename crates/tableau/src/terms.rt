//! The terms of a form that defines a row.

/// `coef` times the value of variable `var`.
#[derive(Clone, Copy, PartialEq, Eq, Debug)]
pub struct RowTerm {
    pub var: u32,
    pub coef: i128,
}

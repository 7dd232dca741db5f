use ctrl_syntax::Num;
use sqlite_items::Items;

/// What a term of an expression is a multiple of.
#[derive(Clone, Copy, Debug, PartialEq, Eq)]
pub enum Source {
    /// The number 1: the term is a constant.
    One,
    /// The value of the state with this number.
    State(u32),
    /// What was served of the flow in the step that the sender hears of.
    Acked,
    /// What was lost of the flow in that step.
    Lost,
}

/// A term of an expression.
#[derive(Clone, Copy, Debug)]
pub struct LinTerm {
    pub coef: Num,
    pub of: Source,
}

/// A linear expression, the sum of at most 16 terms in their written order.
#[derive(Debug, Drop)]
pub struct Lin {
    pub terms: Items<LinTerm>,
}

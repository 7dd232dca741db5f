use ctrl_syntax::{Num, Rel5};
use sqlite_items::Items;

/// What a term of a question is a multiple of. An entry is named by its flow and then its step; flow 0 stands for the
/// sum over all flows.
#[derive(Clone, Copy, Debug, PartialEq, Eq)]
pub enum Of {
    /// The number 1: the term is a constant.
    One,
    /// What the server may serve at once at the beginning.
    Credit,
    /// The waste at this step.
    W(u32),
    /// What was sent.
    A(u32, u32),
    /// What was served.
    S(u32, u32),
    /// What was lost.
    L(u32, u32),
    /// The value of a state: the state, the flow, which isn't 0, and the step.
    X(u32, u32, u32),
}

/// A term of an expression of a question.
#[derive(Clone, Copy, Debug)]
pub struct QTerm {
    pub coef: Num,
    pub of: Of,
}

/// A linear expression, the sum of at most 16 terms in their written order.
#[derive(Debug, Drop)]
pub struct QLin {
    pub terms: Items<QTerm>,
}

/// A condition over the entries of a run.
#[derive(Debug, Drop)]
pub enum QCond {
    True,
    False,
    Cmp(QLin, Rel5, QLin),
    Not(Box<QCond>),
    And(Vec<QCond>),
    Or(Vec<QCond>),
}

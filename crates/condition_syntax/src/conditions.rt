use crate::expressions::Expr;
use weighing::{Num, Rel5};

/// Whose conditions are read: a controller's have tests of delay, a question's have flows and steps.
#[derive(Clone, Copy, Debug, PartialEq, Eq)]
pub enum Style {
    Controller,
    Question,
}

/// A condition, as it is written.
#[derive(Debug, Drop)]
pub enum Cond {
    True,
    False,
    Cmp(Expr, Rel5, Expr),
    /// `delay >= number`, in controllers alone.
    Delay(Num),
    Not(Box<Cond>),
    /// Two parts or more.
    And(Vec<Cond>),
    /// Two parts or more.
    Or(Vec<Cond>),
}

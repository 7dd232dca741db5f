use condition_syntax::{Cond, Expr, Num};
use sqlite_items::Items;

/// `state NAME data|count init LO HI`
#[derive(Debug, Drop)]
pub struct StateLine {
    /// A letter, then letters, digits and underscores, 16 at most.
    pub name: Items<u8>,
    /// Whether the state is a count and not an amount of data.
    pub count: bool,
    pub lo: Num,
    pub hi: Num,
    /// The number of the line, from 1.
    pub line: u32,
}

/// `set NAME = EXPR`
#[derive(Debug, Drop)]
pub struct SetLine {
    pub name: Items<u8>,
    pub expr: Expr,
    pub line: u32,
}

/// `rule when COND` or `rule otherwise`, with the assignments behind it.
#[derive(Debug, Drop)]
pub struct RuleLine {
    /// None for `otherwise`.
    pub guard: Option<Cond>,
    pub sets: Items<SetLine>,
    pub line: u32,
}

/// `rate EXPR`
#[derive(Debug, Drop)]
pub struct RateLine {
    pub expr: Expr,
    pub line: u32,
}

/// A controller's text as it is written.
#[derive(Debug, Drop)]
pub struct Syntax {
    /// 8 at most.
    pub states: Items<StateLine>,
    /// 16 at most.
    pub rules: Items<RuleLine>,
    pub window: Expr,
    pub window_line: u32,
    pub rate: Option<RateLine>,
}

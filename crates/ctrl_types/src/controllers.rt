use crate::expressions::Lin;
use crate::gates::Gate;
use ctrl_syntax::Num;
use sqlite_items::Items;

/// What a state measures. An amount is a quantity of data; a count is a plain number.
#[derive(Clone, Copy, Debug, PartialEq, Eq)]
pub enum Kind {
    Amount,
    Count,
}

/// A state of a controller, of which each flow has its own.
#[derive(Debug, Drop)]
pub struct State {
    /// The ASCII text of its name, 1 to 16 letters, digits and underscores.
    pub name: Items<u8>,
    pub kind: Kind,
    /// The least value that it may have on the opening row.
    pub lo: Num,
    /// The greatest value that it may have on the opening row.
    pub hi: Num,
}

/// A rule: the first whose guard holds gives the states of the next row.
#[derive(Debug, Drop)]
pub struct Rule {
    pub guard: Gate,
    /// For each state the expression that gives its next value; a state with none keeps its value.
    pub sets: Items<Option<Lin>>,
}

/// A controller, which each flow runs with states of its own.
#[derive(Debug, Drop)]
pub struct Controller {
    /// At most 8.
    pub states: Items<State>,
    /// 1 to 16. The last one's guard is True.
    pub rules: Items<Rule>,
    /// How much may be sent and neither be served nor lost.
    pub window: Lin,
    /// How much more may be sent in a step, where there is such a bound.
    pub rate: Option<Lin>,
    /// The greatest number of rows in a test of delay, 0 where there is none.
    pub delay_max: u32,
    /// The least common multiple of all denominators, at most 1,000,000.
    pub den: i128,
}

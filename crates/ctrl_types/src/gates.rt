use crate::expressions::Lin;
use ctrl_syntax::Rel5;

/// A condition over the states and the signals of a flow.
#[derive(Debug, Drop)]
pub enum Gate {
    True,
    False,
    Cmp(Lin, Rel5, Lin),
    /// All that the path had accepted this many rows, 0 to 8, before the row that the sender hears of was served by then.
    Delay(u32),
    Not(Box<Gate>),
    And(Vec<Gate>),
    Or(Vec<Gate>),
}

/// Where an expression is read.
#[derive(Clone, Copy, Debug)]
pub struct ReadPoint {
    /// The row that is weighed, by which a weighing that is stuck is named.
    pub row: u32,
    pub flow: u32,
    /// The row whose states are read.
    pub states: u32,
    /// The row that the sender hears of, at least 1: its signals are what grew from the row before it.
    pub heard: u32,
}

/// The sizes of a run: how many flows, states per flow, rows before the opening row, and steps after it.
///
/// Within the limits, `flows` is 1 to 4, `states` at most 8, `h` 2 to 16, and `t` 1 to 32.
#[derive(Clone, Copy, Debug, PartialEq, Eq)]
pub struct Shape {
    pub flows: u32,
    pub states: u32,
    pub h: u32,
    pub t: u32,
}

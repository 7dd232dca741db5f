ghost use Rattle.std.specs.Prelude.{◌≡◌, ◌↔◌, ◌<◌, ◌≤◌, All, IsTrue, length};
ghost use Rattle.run_rows.specs.Limits.{IsWithin};
ghost use Rattle.run_rows.specs.Runs.{Fits, FlowFits, IsEntry, IsRun, RowFits, flow_count, flow_of, state_count, state_of, waste};

use crate::shapes::Shape;
use sqlite_items::Items;

/// A run of flows on a path, in units of `1 / over`: each entry is a whole number, and its value is the entry over `over`.
#[derive(Debug, Drop)]
pub struct Run {
    /// The common denominator of all entries, at least 1.
    pub over: i128,
    /// What the server may serve at once at the beginning.
    pub credit: i128,
    pub rows: Items<Row>,
}

/// One row of a run: the path's entry and those of each flow, flow 1 first.
#[derive(Debug, Drop)]
pub struct Row {
    /// The waste so far: what the server could have served and didn't.
    pub w: i128,
    pub flows: Items<FlowRow>,
}

/// The entries of one flow on one row, all counted from the start of the run.
#[derive(Debug, Drop)]
pub struct FlowRow {
    /// What the flow sent: its arrivals at the path.
    pub a: i128,
    /// What the path served of it.
    pub s: i128,
    /// What the path lost of it.
    pub l: i128,
    /// The controller's states, on the opening row and later; empty before.
    pub x: Items<i128>,
}

impl Run {
    /// Whether the run has this shape: a denominator of at least 1, `h + t + 1` rows, the shape's flows on each,
    /// the shape's states on the opening row and later and none before, and no entry that is `i128::MIN`.
    pub fn fits(&self, shape: &Shape) -> bool
        requires { IsWithin shape.now }
        ensures { IsTrue result ↔ Fits shape.now self.now }
    {
        if self.over < 1 || !is_entry(self.credit) {
            return false;
        }
        if self.rows.len() != (shape.h + shape.t + 1) as usize {
            return false;
        }
        for (i, row) in self.rows.as_slice().iter().enumerate() {
            let states = if i < shape.h as usize {
                0
            } else {
                shape.states
            };
            if !row.fits(shape.flows, states) {
                return false;
            }
        }
        true
    }

    /// How many rows the run has: at most 49.
    pub fn row_count(&self) -> u32
        requires { IsRun self.now }
        ensures { result ≡ length self.now.rows }
    {
        self.rows.len() as u32
    }

    /// How many flows the run has, 1 to 4, the same on each row.
    pub fn flow_count(&self) -> u32
        requires { IsRun self.now }
        ensures { result ≡ flow_count self.now 0 }
    {
        self.rows.as_slice()[0].flows.len() as u32
    }

    /// What the path wasted by the row, which is below `row_count`.
    pub fn waste(&self, row: u32) -> i128
        requires { row < length self.now.rows }
        ensures value { result ≡ waste self.now row }
        ensures within { IsRun self.now → IsEntry result }
    {
        self.rows.as_slice()[row as usize].w
    }

    /// The entries of a flow, 1 to `flow_count`, on a row below `row_count`.
    pub fn flow(&self, row: u32, flow: u32) -> &FlowRow
        requires row_in { row < length self.now.rows }
        requires flow_from { 1 ≤ flow }
        requires flow_to { flow ≤ flow_count self.now row }
        ensures value { result.now ≡ flow_of self.now row flow }
        ensures within { (run : IsRun self.now) → FlowFits (state_count run.shape row) result.now }
    {
        let flows = &self.rows.as_slice()[row as usize].flows;
        &flows.as_slice()[flow as usize - 1]
    }

    /// The value of a state of a flow, 1 to `flow_count`, on a row below `row_count`. States are numbered from 0.
    pub fn state(&self, row: u32, flow: u32, state: u32) -> i128
        requires row_in { row < length self.now.rows }
        requires flow_from { 1 ≤ flow }
        requires flow_to { flow ≤ flow_count self.now row }
        requires state_in { state < length (flow_of self.now row flow).x }
        ensures value { result ≡ state_of self.now row flow state }
        ensures within { IsRun self.now → IsEntry result }
    {
        self.flow(row, flow).x.as_slice()[state as usize]
    }
}

impl Row {
    fn fits(&self, flows: u32, states: u32) -> bool
        ensures { IsTrue result ↔ RowFits flows states self.now }
    {
        is_entry(self.w)
            && self.flows.len() == flows as usize
            && self.flows.as_slice().iter().all(|flow| flow.fits(states))
    }
}

impl FlowRow {
    fn fits(&self, states: u32) -> bool
        ensures { IsTrue result ↔ FlowFits states self.now }
    {
        is_entry(self.a)
            && is_entry(self.s)
            && is_entry(self.l)
            && self.x.len() == states as usize
            && are_entries(self.x.as_slice())
    }
}

/// Whether the size of the number is at most `2^127 - 1`, as that of an entry is.
fn is_entry(number: i128) -> bool
    ensures { IsTrue result ↔ IsEntry number }
{
    number != i128::MIN
}

fn are_entries(numbers: &[i128]) -> bool
    ensures { IsTrue result ↔ All IsEntry numbers.now }
{
    numbers.iter().all(|number| is_entry(*number))
}

ghost use Rattle.std.specs.Prelude.{◌≡◌, ℕ, ◌+◌, ◌*◌, ◌<◌, ◌≤◌, Some, IsSomeAnd, length, slice_get};
ghost use Rattle.run_rows.specs.Limits.{IsWithin};
ghost use Rattle.run_rows.specs.Runs.{Fits, state_count};
ghost use Rattle.run_rows.specs.Columns.{HasEntry, column_of, entries_before, entries_of, flow_entries, row_entries, rows_of, value_at, value_of};
ghost use Rattle.run_rows.specs.declared.columns.Entry.{Entry};

use crate::rows::Run;
use crate::shapes::Shape;

/// One entry of a run. Rows are numbered from 0, flows from 1, states from 0.
#[derive(Clone, Copy, Debug, PartialEq, Eq)]
pub enum Entry {
    /// What the server may serve at once at the beginning.
    Credit,
    /// The waste.
    W { row: u32 },
    /// The flow's arrivals.
    A { row: u32, flow: u32 },
    /// What was served of the flow.
    S { row: u32, flow: u32 },
    /// What was lost of the flow.
    L { row: u32, flow: u32 },
    /// A state of the flow's controller.
    X { row: u32, flow: u32, state: u32 },
}

impl Shape {
    /// How many columns a run of the shape has: one for each of its entries.
    pub fn columns(&self) -> u32
        requires { IsWithin self.now }
        ensures count { result ≡ length (entries_of self.now) }

        // The columns hold the entries of the shape and no others.
        ensures standing { (c : ℕ) (entry : Entry) → slice_get (entries_of self.now) c ≡ Some entry → HasEntry self.now entry }
    {
        self.row_start(self.h + self.t + 1)
    }

    /// The entry's column: column 0 is the credit; then, row by row, the waste, and for each flow
    /// its arrivals, its service, its losses and its states.
    pub fn column(&self, entry: Entry) -> u32
        requires within { IsWithin self.now }
        requires stands { HasEntry self.now entry }
        ensures value { result ≡ column_of self.now entry }
        ensures in_range { result < length (entries_of self.now) }
        ensures listed { slice_get (entries_of self.now) result ≡ Some entry }

        // The entry has no other column, and no other entry has this one.
        ensures only { (c : ℕ) → slice_get (entries_of self.now) c ≡ Some entry → c ≡ result }
        ensures apart { (other : Entry) → HasEntry self.now other → column_of self.now other ≡ result → other ≡ entry }
    {
        self.place_of(entry)
    }

    /// The entry's place among all entries.
    fn place_of(&self, entry: Entry) -> u32
        requires within { IsWithin self.now }
        requires stands { HasEntry self.now entry }
        ensures { slice_get (entries_of self.now) result ≡ Some entry }
    {
        match entry {
            Entry::Credit => 0,
            Entry::W { row } => self.row_start(row),
            Entry::A { row, flow } => self.flow_start(row, flow),
            Entry::S { row, flow } => self.flow_start(row, flow) + 1,
            Entry::L { row, flow } => self.flow_start(row, flow) + 2,
            Entry::X { row, flow, state } => self.flow_start(row, flow) + 3 + state,
        }
    }

    /// The entry of a column.
    fn entry_at(&self, column: u32) -> Entry
        requires within { IsWithin self.now }
        requires column_in { column < length (entries_of self.now) }
        ensures listed { slice_get (entries_of self.now) column ≡ Some result }
        ensures stands { HasEntry self.now result }
    {
        if column == 0 {
            return Entry::Credit;
        }
        let row = self.row_holding(column);
        let place = column - self.row_start(row);
        self.row_entry(row, place)
    }

    /// The row among whose columns this one is.
    fn row_holding(&self, column: u32) -> u32
        requires within { IsWithin self.now }
        requires column_from { 1 ≤ column }
        requires column_in { column < length (entries_of self.now) }
        ensures row_in { result < rows_of self.now }
        ensures from { length (entries_before self.now result) ≤ column }
        ensures to { column < length (entries_before self.now (result + 1)) }
    {
        let place = column - 1;
        let narrow = 1 + 3 * self.flows;
        if place < self.h * narrow {
            return place / narrow;
        }
        let wide = 1 + self.flows * (3 + self.states);
        self.h + (place - self.h * narrow) / wide
    }

    /// The entry at a place of the row.
    fn row_entry(&self, row: u32, place: u32) -> Entry
        requires within { IsWithin self.now }
        requires place_in { place < length (row_entries self.now row) }
        ensures { slice_get (row_entries self.now row) place ≡ Some result }
    {
        if place == 0 {
            return Entry::W { row };
        }
        let width = 3 + self.states_on(row);
        let flow = (place - 1) / width + 1;
        match (place - 1) % width {
            0 => Entry::A { row, flow },
            1 => Entry::S { row, flow },
            2 => Entry::L { row, flow },
            item => Entry::X {
                row,
                flow,
                state: item - 3,
            },
        }
    }

    /// The column of the row's waste, with which the row begins; for the row after the last, the number of columns.
    fn row_start(&self, row: u32) -> u32
        requires within { IsWithin self.now }
        requires row_to { row ≤ rows_of self.now }
        ensures value { result ≡ length (entries_before self.now row) }
        ensures size { result < 8192 }
    {
        let states = row.saturating_sub(self.h) * self.flows * self.states;
        1 + row * (1 + 3 * self.flows) + states
    }

    /// The column of the flow's arrivals on the row, with which the flow begins.
    fn flow_start(&self, row: u32, flow: u32) -> u32
        requires within { IsWithin self.now }
        requires row_in { row < rows_of self.now }
        requires flow_from { 1 ≤ flow }
        requires flow_to { flow ≤ self.now.flows }
        ensures value { (j : ℕ) (entry : Entry) → slice_get (flow_entries self.now row flow) j ≡ Some entry → slice_get (entries_of self.now) (result + j) ≡ Some entry }
        ensures size { result < 16384 }
    {
        self.row_start(row) + 1 + (flow - 1) * (3 + self.states_on(row))
    }

    /// How many states a flow has on the row.
    fn states_on(&self, row: u32) -> u32
        ensures { result ≡ state_count self.now row }
    {
        if row < self.h { 0 } else { self.states }
    }
}

impl Run {
    /// What stands in a column of a run that has the shape.
    pub fn at(&self, shape: &Shape, column: u32) -> i128
        requires within { IsWithin shape.now }
        requires fits { Fits shape.now self.now }
        requires column_in { column < length (entries_of shape.now) }
        ensures value { result ≡ value_at shape.now self.now column }
        ensures listed { IsSomeAnd (slice_get (entries_of shape.now) column) (λ entry. result ≡ value_of self.now entry) }
        ensures entry { (entry : Entry) → HasEntry shape.now entry → column_of shape.now entry ≡ column → result ≡ value_of self.now entry }
    {
        self.entry(shape, shape.entry_at(column))
    }

    /// The value of an entry of the run's shape.
    fn entry(&self, shape: &Shape, entry: Entry) -> i128
        requires fits { Fits shape.now self.now }
        requires stands { HasEntry shape.now entry }
        ensures { result ≡ value_of self.now entry }
    {
        match entry {
            Entry::Credit => self.credit,
            Entry::W { row } => self.waste(row),
            Entry::A { row, flow } => self.flow(row, flow).a,
            Entry::S { row, flow } => self.flow(row, flow).s,
            Entry::L { row, flow } => self.flow(row, flow).l,
            Entry::X { row, flow, state } => self.state(row, flow, state),
        }
    }
}

// The run whose columns have given values.
ghost use Rattle.std.specs.Prelude.{◌≡◌, ◌+◌, ◌<◌, ◌≤◌, ◌≤ℤ◌, pos, All, IfOk, length, map};
ghost use Rattle.std.specs.List.{range_with_len};
ghost use Rattle.claims.specs.Columns.{entry_value, flow_made, row_made, run_of};
ghost use Rattle.linear_form.specs.Sums.{entry};
ghost use Rattle.run_rows.specs.Columns.{HasEntry, entries_of, rows_of};
ghost use Rattle.run_rows.specs.Limits.{IsWithin};
ghost use Rattle.run_rows.specs.Runs.{Fits, IsEntry, state_count};
ghost use Rattle.run_rows.specs.declared.columns.Entry.TheVariants.{X};

use crate::problems::Problem;
use run_rows::{Entry, FlowRow, Row, Run, Shape};
use sqlite_items::Items;
use std::alloc::Global;
use whole::NoMemory;

/// The run of the problem's shape whose columns have these values, in units of `1 / over`.
///
/// There is one value for each column, none is `i128::MIN`, and `over` is at least 1.
pub fn run_of(
    alloc: Global,
    problem: &Problem,
    values: &Vec<i128>,
    over: i128,
) -> Result<Run, NoMemory>
    requires within { IsWithin problem.now.shape }
    requires count { length values.now.items ≡ length (entries_of problem.now.shape) }
    requires entries { All IsEntry values.now.items }
    requires over_from { pos 1 ≤ℤ over }
    ensures exact { IfOk result (λ run. run ≡ run_of problem.now.shape (entry values.now.items) over) }
    ensures fits { IfOk result (λ run. Fits problem.now.shape run) }
{
    run(alloc, &problem.shape, values.as_slice(), over)
}

#[tactic(auto, using(whole::proofs::Overflow::signed), unfolding(claims::specs::Columns::run_of))]
fn run(alloc: Global, shape: &Shape, values: &[i128], over: i128) -> Result<Run, NoMemory>
    requires within { IsWithin shape.now }
    requires count { length values.now ≡ length (entries_of shape.now) }
    ensures { IfOk result (λ run. run ≡ run_of shape.now (entry values.now) over) }
{
    let credit = value_of(shape, values, Entry::Credit);
    let rows = rows(alloc, shape, values)?;
    Ok(Run { over, credit, rows })
}

fn rows(alloc: Global, shape: &Shape, values: &[i128]) -> Result<Items<Row>, NoMemory>
    requires within { IsWithin shape.now }
    requires count { length values.now ≡ length (entries_of shape.now) }
    ensures { IfOk result (λ rows. rows ≡ map (row_made shape.now (entry values.now)) (range_with_len 0 (rows_of shape.now))) }
{
    let mut rows = Vec::new(alloc);
    for row in 0..shape.h + shape.t + 1 {
        rows.push(one_row(alloc, shape, values, row)?)?;
    }
    Ok(Items::from_vec(rows))
}

fn one_row(alloc: Global, shape: &Shape, values: &[i128], row: u32) -> Result<Row, NoMemory>
    requires within { IsWithin shape.now }
    requires count { length values.now ≡ length (entries_of shape.now) }
    requires row_in { row < rows_of shape.now }
    ensures { IfOk result (λ made. made ≡ row_made shape.now (entry values.now) row) }
{
    let w = value_of(shape, values, Entry::W { row });
    let flows = flows(alloc, shape, values, row)?;
    Ok(Row { w, flows })
}

fn flows(
    alloc: Global,
    shape: &Shape,
    values: &[i128],
    row: u32,
) -> Result<Items<FlowRow>, NoMemory>
    requires within { IsWithin shape.now }
    requires count { length values.now ≡ length (entries_of shape.now) }
    requires row_in { row < rows_of shape.now }
    ensures { IfOk result (λ flows. flows ≡ map (flow_made shape.now (entry values.now) row) (range_with_len 1 shape.now.flows)) }
{
    let mut flows = Vec::new(alloc);
    for index in 0..shape.flows {
        flows.push(one_flow(alloc, shape, values, row, index + 1)?)?;
    }
    Ok(Items::from_vec(flows))
}

fn one_flow(
    alloc: Global,
    shape: &Shape,
    values: &[i128],
    row: u32,
    flow: u32,
) -> Result<FlowRow, NoMemory>
    requires within { IsWithin shape.now }
    requires count { length values.now ≡ length (entries_of shape.now) }
    requires row_in { row < rows_of shape.now }
    requires flow_from { 1 ≤ flow }
    requires flow_to { flow ≤ shape.now.flows }
    ensures { IfOk result (λ made. made ≡ flow_made shape.now (entry values.now) row flow) }
{
    let a = value_of(shape, values, Entry::A { row, flow });
    let s = value_of(shape, values, Entry::S { row, flow });
    let l = value_of(shape, values, Entry::L { row, flow });
    let x = states(alloc, shape, values, row, flow)?;
    Ok(FlowRow { a, s, l, x })
}

fn states(
    alloc: Global,
    shape: &Shape,
    values: &[i128],
    row: u32,
    flow: u32,
) -> Result<Items<i128>, NoMemory>
    requires within { IsWithin shape.now }
    requires count { length values.now ≡ length (entries_of shape.now) }
    requires row_in { row < rows_of shape.now }
    requires flow_from { 1 ≤ flow }
    requires flow_to { flow ≤ shape.now.flows }
    ensures { IfOk result (λ states. states ≡ map (λ j. entry_value shape.now (entry values.now) (X row flow j)) (range_with_len 0 (state_count shape.now row))) }
{
    let mut states = Vec::new(alloc);
    for state in 0..states_on(shape, row) {
        states.push(value_of(shape, values, Entry::X { row, flow, state }))?;
    }
    Ok(Items::from_vec(states))
}

/// How many states a flow has on the row.
fn states_on(shape: &Shape, row: u32) -> u32
    ensures { result ≡ state_count shape.now row }
{
    if row < shape.h { 0 } else { shape.states }
}

/// What stands in the entry's column.
fn value_of(shape: &Shape, values: &[i128], of: Entry) -> i128
    requires within { IsWithin shape.now }
    requires count { length values.now ≡ length (entries_of shape.now) }
    requires stands { HasEntry shape.now of }
    ensures { result ≡ entry_value shape.now (entry values.now) of }
{
    values[shape.column(of) as usize]
}

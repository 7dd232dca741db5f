// The value of a quantity on a row, in units of 1 / (over * unit), in which the path's numbers are whole.
ghost use Rattle.std.specs.Prelude.{◌≡◌, ◌<◌, ◌-◌, pos, ◌-ℤ◌, ◌*ℤ◌, IfOk, MatchOption, length};
ghost use Rattle.run_rows.specs.Runs.{IsRun, arrived, flow_count, flow_of, lost, no_flow, over_flows, served, state_of, waste};
ghost use Rattle.path_server.specs.Limits.{IsPath};
ghost use Rattle.path_server.specs.Rules.{all_accepted, allowed, buffer_den, rate, unit};
ghost use Rattle.path_server.specs.Servers.{server_of};
ghost use Rattle.trace_picture.specs.Measures.{entry_of, measured, room_of};

use crate::exact::{DrawFault, difference, product, sum};
use crate::lines::{Entry, Quantity};
use path_server::Path;
use run_rows::{FlowRow, Run};

/// The path's unit: the product of the denominators of the rate and the buffer.
pub(crate) fn unit_of(path: &Path) -> Result<i128, DrawFault>
    ensures { IfOk result (λ z. z ≡ unit (server_of path.now)) }
{
    product(path.rate.den, denominator(path))
}

/// The denominator of the buffer, 1 where there is none.
fn denominator(path: &Path) -> i128
    ensures { result ≡ buffer_den path.now.buffer }
{
    match &path.buffer {
        None => 1,
        Some(buffer) => buffer.den,
    }
}

/// The quantity's value.
pub(crate) fn measure(
    path: &Path,
    run: &Run,
    quantity: Quantity,
    row: u32,
) -> Result<i128, DrawFault>
    requires path_in { IsPath path.now }
    requires run_in { IsRun run.now }
    requires row_in { row < length run.now.rows }
    ensures { IfOk result (λ z. z ≡ measured (server_of path.now) run.now quantity row) }
{
    let unit = unit_of(path)?;
    match quantity {
        Quantity::Sent { flow } => product(unit, entry(run, row, Entry::Arrived, flow)),
        Quantity::Accepted { flow } => product(unit, accepted(run, row, flow)?),
        Quantity::Served { flow } => product(unit, entry(run, row, Entry::Served, flow)),
        Quantity::Lost { flow } => product(unit, entry(run, row, Entry::Lost, flow)),
        Quantity::Waiting { flow } => product(unit, waiting(run, row, flow)?),
        Quantity::State { flow, state } => product(unit, state_at(run, row, flow, state)),
        Quantity::Most => allowed(path, run, row, 0),
        Quantity::Least => Ok(allowed(path, run, row, path.jitter)?.max(0)),
        Quantity::AllAccepted => product(unit, all_accepted(run, row)?),
        Quantity::AllServed => product(unit, total(run, row, Entry::Served)?),
        Quantity::Backlog => backlog(path, run, row),
        Quantity::Buffer => room(path, run),
    }
}

/// The flow's entries on the row.
fn flow_at(run: &Run, row: u32, flow: u32) -> Option<&FlowRow>
    requires row_in { row < length run.now.rows }
    ensures { MatchOption result (flow_of run.now row flow ≡ no_flow) (λ found. found.now ≡ flow_of run.now row flow) }
{
    let flows = &run.rows.as_slice()[row as usize].flows;
    flows.as_slice().get(flow.saturating_sub(1) as usize)
}

fn entry(run: &Run, row: u32, entry: Entry, flow: u32) -> i128
    requires row_in { row < length run.now.rows }
    ensures { result ≡ entry_of run.now row entry flow }
{
    match (flow_at(run, row, flow), entry) {
        (Some(found), Entry::Arrived) => found.a,
        (Some(found), Entry::Served) => found.s,
        (Some(found), Entry::Lost) => found.l,
        (None, _) => 0,
    }
}

fn state_at(run: &Run, row: u32, flow: u32, state: u32) -> i128
    requires row_in { row < length run.now.rows }
    ensures { result ≡ state_of run.now row flow state }
{
    let Some(found) = flow_at(run, row, flow) else {
        return 0;
    };
    match found.x.as_slice().get(state as usize) {
        Some(value) => *value,
        None => 0,
    }
}

fn accepted(run: &Run, row: u32, flow: u32) -> Result<i128, DrawFault>
    requires row_in { row < length run.now.rows }
    ensures { IfOk result (λ z. z ≡ arrived run.now row flow -ℤ lost run.now row flow) }
{
    difference(
        entry(run, row, Entry::Arrived, flow),
        entry(run, row, Entry::Lost, flow),
    )
}

fn waiting(run: &Run, row: u32, flow: u32) -> Result<i128, DrawFault>
    requires row_in { row < length run.now.rows }
    ensures { IfOk result (λ z. z ≡ (arrived run.now row flow -ℤ lost run.now row flow) -ℤ served run.now row flow) }
{
    difference(
        accepted(run, row, flow)?,
        entry(run, row, Entry::Served, flow),
    )
}

/// The entry of all flows together.
fn total(run: &Run, row: u32, kind: Entry) -> Result<i128, DrawFault>
    requires run_in { IsRun run.now }
    requires row_in { row < length run.now.rows }
    ensures { IfOk result (λ z. z ≡ over_flows (entry_of run.now row kind) (flow_count run.now 0)) }
{
    let mut total = 0;
    for index in 0..run.flow_count() {
        total = sum(total, entry(run, row, kind, index + 1))?;
    }
    Ok(total)
}

fn all_accepted(run: &Run, row: u32) -> Result<i128, DrawFault>
    requires run_in { IsRun run.now }
    requires row_in { row < length run.now.rows }
    ensures { IfOk result (λ z. z ≡ all_accepted run.now row) }
{
    difference(
        total(run, row, Entry::Arrived)?,
        total(run, row, Entry::Lost)?,
    )
}

/// The path's rate, in its unit.
fn rate_of(path: &Path) -> Result<i128, DrawFault>
    ensures { IfOk result (λ z. z ≡ rate (server_of path.now)) }
{
    product(path.rate.num, denominator(path))
}

/// How many rows there are from `back` to `row`.
fn rows_between(row: u32, back: u32) -> i128
    ensures { result ≡ pos row -ℤ pos back }
{
    i128::from(row) - i128::from(back)
}

/// What the rate serves from `back` to `row`.
fn at_rate(path: &Path, run: &Run, row: u32, back: u32) -> Result<i128, DrawFault>
    ensures { IfOk result (λ z. z ≡ (rate (server_of path.now) *ℤ (pos row -ℤ pos back)) *ℤ run.now.over) }
{
    product(product(rate_of(path)?, rows_between(row, back))?, run.over)
}

/// The credit that wasn't wasted `back` rows before `row`.
fn credit_left(run: &Run, row: u32, back: u32) -> Result<i128, DrawFault>
    requires row_in { row < length run.now.rows }
    ensures { IfOk result (λ z. z ≡ run.now.credit -ℤ waste run.now (row - back)) }
{
    difference(run.credit, run.waste(row.saturating_sub(back)))
}

/// The same in the path's unit.
fn left_over(path: &Path, run: &Run, row: u32, back: u32) -> Result<i128, DrawFault>
    requires row_in { row < length run.now.rows }
    ensures { IfOk result (λ z. z ≡ unit (server_of path.now) *ℤ (run.now.credit -ℤ waste run.now (row - back))) }
{
    product(unit_of(path)?, credit_left(run, row, back)?)
}

/// The most that may have been served `back` rows before `row`.
fn allowed(path: &Path, run: &Run, row: u32, back: u32) -> Result<i128, DrawFault>
    requires row_in { row < length run.now.rows }
    ensures { IfOk result (λ z. z ≡ allowed (server_of path.now) run.now row back) }
{
    sum(
        at_rate(path, run, row, back)?,
        left_over(path, run, row, back)?,
    )
}

/// What was accepted beyond the most that may have been served.
fn backlog(path: &Path, run: &Run, row: u32) -> Result<i128, DrawFault>
    requires run_in { IsRun run.now }
    requires row_in { row < length run.now.rows }
    ensures { IfOk result (λ z. z ≡ unit (server_of path.now) *ℤ all_accepted run.now row -ℤ allowed (server_of path.now) run.now row 0) }
{
    let accepted = product(unit_of(path)?, all_accepted(run, row)?)?;
    difference(accepted, allowed(path, run, row, 0)?)
}

/// The buffer's size, 0 where there is none.
fn room(path: &Path, run: &Run) -> Result<i128, DrawFault>
    ensures { IfOk result (λ z. z ≡ room_of (server_of path.now) run.now path.now.buffer) }
{
    match &path.buffer {
        None => Ok(0),
        Some(buffer) => product(product(buffer.num, path.rate.den)?, run.over),
    }
}

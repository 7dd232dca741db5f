// The points of a line.
ghost use Rattle.std.specs.Prelude.{◌≡◌, ◌+◌, ◌<◌, ◌≤◌, IfOk, length, map};
ghost use Rattle.std.specs.List.{range_with_len};
ghost use Rattle.run_rows.specs.Runs.{IsRun};
ghost use Rattle.path_server.specs.Limits.{IsPath};
ghost use Rattle.path_server.specs.Servers.{server_of};
ghost use Rattle.trace_picture.specs.Places.{across_of, points_of};

use crate::exact::DrawFault;
use crate::lines::Quantity;
use crate::measures::measure;
use crate::scales::{Scale, Span};
use path_server::Path;
use run_rows::Run;
use sqlite_items::Items;
use std::alloc::{AllocError, Global};

/// The width of a panel, in thousandths of a pica.
const WIDTH: u32 = 31_000;

/// A place in a panel, from its lower left corner, in thousandths of a pica.
#[derive(Clone, Copy, Debug, PartialEq, Eq)]
pub struct Point {
    pub across: u32,
    pub up: u128,
}

/// The rows that a line shows: so many from the first on; `last` is the last row of the run.
#[derive(Clone, Copy, Debug)]
pub(crate) struct Rows {
    pub first: u32,
    pub count: u32,
    pub last: u32,
}

/// How far to the right the row stands, where `last` is the last row.
pub(crate) fn across(row: u32, last: u32) -> u32
    requires row_to { row < 64 }
    requires last_from { 1 ≤ last }
    ensures { result ≡ across_of last row }
{
    row * WIDTH / last
}

/// How far to the right each row of the run stands.
pub(crate) fn columns(alloc: Global, last: u32) -> Result<Items<u32>, AllocError>
    requires from { 1 ≤ last }
    requires to { last < 63 }
    ensures { IfOk result (λ columns. columns ≡ map (across_of last) (range_with_len 0 (last + 1))) }
{
    let mut columns = Items::new(alloc);
    for row in 0..last + 1 {
        columns.push(across(row, last))?;
    }
    Ok(columns)
}

/// The span with the quantity's amounts on the rows.
pub(crate) fn span_of(
    path: &Path,
    run: &Run,
    quantity: Quantity,
    rows: Rows,
    start: Span,
) -> Result<Span, DrawFault>
    requires path_in { IsPath path.now }
    requires run_in { IsRun run.now }
    requires rows_in { rows.first + rows.count ≤ length run.now.rows }
    requires few { rows.first + rows.count ≤ 64 }
{
    let mut span = start;
    for index in 0..rows.count {
        span = span.with(measure(path, run, quantity, rows.first + index)?);
    }
    Ok(span)
}

/// The points of the quantity's amounts on the rows.
pub(crate) fn points_of(
    alloc: Global,
    path: &Path,
    run: &Run,
    quantity: Quantity,
    rows: Rows,
    scale: &Scale,
) -> Result<Items<Point>, DrawFault>
    requires path_in { IsPath path.now }
    requires run_in { IsRun run.now }
    requires rows_in { rows.first + rows.count ≤ length run.now.rows }
    requires few { rows.first + rows.count ≤ 64 }
    requires last_from { 1 ≤ rows.last }
    ensures { IfOk result (λ points. points ≡ points_of (server_of path.now) run.now quantity scale.now rows.last rows.first rows.count) }
{
    let mut points = Items::new(alloc);
    for index in 0..rows.count {
        let row = rows.first + index;
        let amount = measure(path, run, quantity, row)?;
        let point = Point {
            across: across(row, rows.last),
            up: scale.up(amount)?,
        };
        points.push(point)?;
    }
    Ok(points)
}

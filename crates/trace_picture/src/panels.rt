// The panels of a picture, with each point at its place.
ghost use Rattle.std.specs.Prelude.{◌≡◌, ◌+◌, ◌-◌, ◌≤◌, ◌*ℤ◌, IfOk, length, map};
ghost use Rattle.run_rows.specs.Limits.{IsWithin};
ghost use Rattle.run_rows.specs.Runs.{Fits, IsRun};
ghost use Rattle.path_server.specs.Limits.{IsPath};
ghost use Rattle.path_server.specs.Rules.{unit};
ghost use Rattle.path_server.specs.Servers.{server_of};
ghost use Rattle.trace_picture.specs.Panels.{IsPanel, IsPicture, IsScale, first_row, last_row, line_of, quantities_of, state_of_flow, titles_of, waiting_of_flow};
ghost use Rattle.std.specs.List.{range_with_len};

use crate::exact::{DrawFault, product};
use crate::lines::{Quantity, Title};
use crate::measures::unit_of;
use crate::places::{Point, Rows, across, columns, points_of, span_of};
use crate::scales::{Scale, Span, Tick, ticks_of};
use path_server::Path;
use run_rows::{Run, Shape};
use sqlite_items::Items;
use std::alloc::{AllocError, Global};

/// A quantity with its points, one for each row from the panel's first on.
#[derive(Debug, Drop)]
pub struct Line {
    pub quantity: Quantity,
    pub points: Items<Point>,
}

/// Lines with one range.
#[derive(Debug, Drop)]
pub struct Panel {
    pub title: Title,
    pub scale: Scale,
    pub ticks: Items<Tick>,
    pub lines: Items<Line>,
}

/// A run as it is drawn.
#[derive(Debug, Drop)]
pub struct Picture {
    pub shape: Shape,
    pub path: Path,
    /// How far to the right each row stands, in thousandths of a pica.
    pub columns: Items<u32>,
    /// How far to the right the opening row stands.
    pub opening: u32,
    pub panels: Items<Panel>,
}

/// The picture of a run on a path. It is refused as too wide where a number on the way overflows 128 bits.
pub fn draw(alloc: Global, path: &Path, shape: &Shape, run: &Run) -> Result<Picture, DrawFault>
    requires path_in { IsPath path.now }
    requires within { IsWithin shape.now }
    requires fits { Fits shape.now run.now }
    ensures { IfOk result (λ drawn. IsPicture path.now shape.now run.now drawn) }
{
    let last = shape.h + shape.t;
    let columns = columns(alloc, last)?;
    let titles = titles(alloc, shape)?;
    let mut panels = Items::new(alloc);
    for title in titles.as_slice() {
        let panel = panel_of(alloc, path, shape, run, *title)?;
        panels.push(panel)?;
    }
    Ok(Picture {
        shape: *shape,
        path: *path,
        columns,
        opening: across(shape.h, last),
        panels,
    })
}

/// The panels in their order: the path, each flow, the queue, each state.
#[tactic(auto, unfolding(crate::specs::Panels::titles_of))]
fn titles(alloc: Global, shape: &Shape) -> Result<Items<Title>, AllocError>
    requires { IsWithin shape.now }
    ensures { IfOk result (λ titles. titles ≡ titles_of shape.now) }
{
    let mut titles = Items::from_slice(alloc, &[Title::OfPath])?;
    titles.append(flow_titles(alloc, shape)?)?;
    let mut rest = Items::from_slice(alloc, &[Title::OfQueue])?;
    rest.append(state_titles(alloc, shape)?)?;
    titles.append(rest)?;
    Ok(titles)
}

fn flow_titles(alloc: Global, shape: &Shape) -> Result<Items<Title>, AllocError>
    requires { IsWithin shape.now }
    ensures { IfOk result (λ titles. titles ≡ map Title.OfFlow (range_with_len 1 shape.now.flows)) }
{
    let mut titles = Items::new(alloc);
    for index in 0..shape.flows {
        titles.push(Title::OfFlow(1 + index))?;
    }
    Ok(titles)
}

fn state_titles(alloc: Global, shape: &Shape) -> Result<Items<Title>, AllocError>
    requires { IsWithin shape.now }
    ensures { IfOk result (λ titles. titles ≡ map Title.OfState (range_with_len 0 shape.now.states)) }
{
    let mut titles = Items::new(alloc);
    for state in 0..shape.states {
        titles.push(Title::OfState(state))?;
    }
    Ok(titles)
}

fn panel_of(
    alloc: Global,
    path: &Path,
    shape: &Shape,
    run: &Run,
    title: Title,
) -> Result<Panel, DrawFault>
    requires path_in { IsPath path.now }
    requires within { IsWithin shape.now }
    requires fits { Fits shape.now run.now }
    ensures panel { IfOk result (λ drawn. IsPanel path.now shape.now run.now drawn) }
    ensures title { IfOk result (λ drawn. drawn.title ≡ title) }
{
    let quantities = quantities(alloc, path, shape, title)?;
    let quantities = quantities.as_slice();
    let scale = scale_of(path, shape, run, title, quantities)?;
    let lines = lines_of(alloc, path, shape, run, title, &scale, quantities)?;
    Ok(Panel {
        title,
        scale,
        ticks: ticks_of(alloc, &scale)?,
        lines,
    })
}

/// The rows that a panel shows: states begin on the opening row.
fn rows_of(shape: &Shape, title: Title) -> Rows
    requires { IsWithin shape.now }
    ensures first { result.first ≡ first_row shape.now title }
    ensures last { result.last ≡ last_row shape.now }
    ensures count { result.count ≡ last_row shape.now + 1 - first_row shape.now title }
    ensures ends { result.first + result.count ≡ last_row shape.now + 1 }
{
    let first = match title {
        Title::OfState(_) => shape.h,
        _ => 0,
    };
    let last = shape.h + shape.t;
    Rows {
        first,
        count: last + 1 - first,
        last,
    }
}

/// The scale that holds all of the quantities' amounts.
fn scale_of(
    path: &Path,
    shape: &Shape,
    run: &Run,
    title: Title,
    quantities: &[Quantity],
) -> Result<Scale, DrawFault>
    requires path_in { IsPath path.now }
    requires within { IsWithin shape.now }
    requires fits { Fits shape.now run.now }
    ensures { IfOk result (λ scale. IsScale (server_of path.now) run.now scale) }
{
    let mut span = Span { least: 0, most: 0 };
    for quantity in quantities {
        span = span_of(path, run, *quantity, rows_of(shape, title), span)?;
    }
    Scale::of(product(unit_of(path)?, run.over)?, span)
}

fn lines_of(
    alloc: Global,
    path: &Path,
    shape: &Shape,
    run: &Run,
    title: Title,
    scale: &Scale,
    quantities: &[Quantity],
) -> Result<Items<Line>, DrawFault>
    requires path_in { IsPath path.now }
    requires within { IsWithin shape.now }
    requires fits { Fits shape.now run.now }
    ensures { IfOk result (λ lines. lines ≡ map (line_of (server_of path.now) shape.now run.now title scale.now) quantities.now) }
{
    let mut lines = Items::new(alloc);
    for quantity in quantities {
        let points = points_of(alloc, path, run, *quantity, rows_of(shape, title), scale)?;
        lines.push(Line {
            quantity: *quantity,
            points,
        })?;
    }
    Ok(lines)
}

/// What a panel shows.
#[tactic(auto, unfolding(crate::specs::Panels::quantities_of))]
fn quantities(
    alloc: Global,
    path: &Path,
    shape: &Shape,
    title: Title,
) -> Result<Items<Quantity>, AllocError>
    requires { IsWithin shape.now }
    ensures { IfOk result (λ quantities. quantities ≡ quantities_of path.now.buffer shape.now title) }
{
    match title {
        Title::OfPath => Items::from_slice(
            alloc,
            &[
                Quantity::Most,
                Quantity::Least,
                Quantity::AllAccepted,
                Quantity::AllServed,
            ],
        ),
        Title::OfFlow(flow) => Items::from_slice(
            alloc,
            &[
                Quantity::Sent { flow },
                Quantity::Accepted { flow },
                Quantity::Served { flow },
                Quantity::Lost { flow },
            ],
        ),
        Title::OfQueue => queue(alloc, path, shape),
        Title::OfState(state) => states(alloc, shape, state),
    }
}

#[tactic(auto, unfolding(crate::specs::Panels::quantities_of))]
fn queue(alloc: Global, path: &Path, shape: &Shape) -> Result<Items<Quantity>, AllocError>
    requires { IsWithin shape.now }
    ensures { IfOk result (λ quantities. quantities ≡ quantities_of path.now.buffer shape.now Title.OfQueue) }
{
    let mut quantities = Items::new(alloc);
    quantities.push(Quantity::Backlog)?;
    if path.buffer.is_some() {
        quantities.push(Quantity::Buffer)?;
    }
    quantities.append(waiting(alloc, shape)?)?;
    Ok(quantities)
}

fn waiting(alloc: Global, shape: &Shape) -> Result<Items<Quantity>, AllocError>
    requires { IsWithin shape.now }
    ensures { IfOk result (λ quantities. quantities ≡ map waiting_of_flow (range_with_len 1 shape.now.flows)) }
{
    let mut quantities = Items::new(alloc);
    for index in 0..shape.flows {
        quantities.push(Quantity::Waiting { flow: 1 + index })?;
    }
    Ok(quantities)
}

fn states(alloc: Global, shape: &Shape, state: u32) -> Result<Items<Quantity>, AllocError>
    requires { IsWithin shape.now }
    ensures { IfOk result (λ quantities. quantities ≡ map (state_of_flow state) (range_with_len 1 shape.now.flows)) }
{
    let mut quantities = Items::new(alloc);
    for index in 0..shape.flows {
        quantities.push(Quantity::State {
            flow: 1 + index,
            state,
        })?;
    }
    Ok(quantities)
}

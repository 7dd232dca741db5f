// The rules in which the server's rate or the buffer stands. They speak of the path as a whole, under flow 0.
ghost use Rattle.std.specs.Prelude.{◌≡◌, ◌<◌, ◌≤◌, ◌-◌, [], ◌∷◌, ◌++◌, neg_ℤ, IfOk};
ghost use Rattle.claims.specs.Subjects.{constant, of_waste, part};
ghost use Rattle.path_server.specs.Claims.{accepted, allowance, buffer_claims, ceiling_claims, common_scale, floor_claims, loss_claims, opposite, rate_scale, room, service, waste_claims, waste_rate_claims};
ghost use Rattle.path_server.specs.Limits.{IsNumber, IsPath};
ghost use Rattle.path_server.specs.Servers.{server_of};
ghost use Rattle.run_rows.specs.Columns.{rows_of};
ghost use Rattle.run_rows.specs.Limits.{IsWithin};
ghost use Rattle.unroll.specs.ClaimFormulas.{Adds};
ghost use Rattle.unroll.specs.Sums.{summed};

use crate::formulas::{either, with};
use crate::sums::Sum;
use clause_form::Formula;
use linear_form::Rel;
use path_server::{Path, Scale};
use run_rows::{Entry, Shape};
use std::alloc::Global;
use whole::{NoMemory, Pair};

/// `P3`.
#[tactic(auto, unfolding(path_server::specs::Claims::ceiling_claims))]
pub(crate) fn ceiling(
    alloc: Global,
    formulas: Vec<Formula>,
    shape: &Shape,
    path: &Path,
    row: u32,
    flow: u32,
) -> Result<Vec<Formula>, NoMemory>
    requires within { IsWithin shape.now }
    requires path_in { IsPath path.now }
    requires row_in { row < rows_of shape.now }
    ensures { IfOk result (λ fs. Adds shape.now formulas.items (ceiling_claims part shape.now.flows (server_of path.now) row flow) fs.items) }
{
    if flow > 0 {
        return Ok(formulas);
    }
    let left = left_to_serve(alloc, shape, path, row)?;
    with(formulas, left.compared(Rel::AtLeast))
}

/// The most that may have been served, less what was.
fn left_to_serve(alloc: Global, shape: &Shape, path: &Path, row: u32) -> Result<Sum, NoMemory>
    requires within { IsWithin shape.now }
    requires path_in { IsPath path.now }
    requires row_in { row < rows_of shape.now }
    ensures { IfOk result (λ sum. sum ≡ summed shape.now (allowance part (server_of path.now) (rate_scale (server_of path.now)) row 0 ++ service part shape.now.flows (opposite (rate_scale (server_of path.now))) row)) }
{
    let scale = Scale::of_rate(path);
    let opposite = scale.opposite();
    let allowed = Sum::new(alloc).plus_allowance(shape, path, &scale, row, 0)?;
    allowed.plus_service(shape, &opposite, row)
}

/// `P4`.
#[tactic(auto, unfolding(path_server::specs::Claims::floor_claims))]
pub(crate) fn floor(
    alloc: Global,
    formulas: Vec<Formula>,
    shape: &Shape,
    path: &Path,
    row: u32,
    flow: u32,
) -> Result<Vec<Formula>, NoMemory>
    requires within { IsWithin shape.now }
    requires path_in { IsPath path.now }
    requires row_in { row < rows_of shape.now }
    ensures { IfOk result (λ fs. Adds shape.now formulas.items (floor_claims part shape.now.flows (server_of path.now) row flow) fs.items) }
{
    if flow > 0 {
        return Ok(formulas);
    }
    let more = served_in_time(alloc, shape, path, row)?;
    with(formulas, more.compared(Rel::AtLeast))
}

/// What was served, less what has to be served but for the jitter.
fn served_in_time(alloc: Global, shape: &Shape, path: &Path, row: u32) -> Result<Sum, NoMemory>
    requires within { IsWithin shape.now }
    requires path_in { IsPath path.now }
    requires row_in { row < rows_of shape.now }
    ensures { IfOk result (λ sum. sum ≡ summed shape.now (service part shape.now.flows (rate_scale (server_of path.now)) row ++ allowance part (server_of path.now) (opposite (rate_scale (server_of path.now))) row path.now.jitter)) }
{
    let scale = Scale::of_rate(path);
    let opposite = scale.opposite();
    let served = Sum::new(alloc).plus_service(shape, &scale, row)?;
    served.plus_allowance(shape, path, &opposite, row, path.jitter)
}

/// `P5`.
#[tactic(auto, using(whole::proofs::Overflow::signed), unfolding(path_server::specs::Claims::waste_claims, path_server::specs::Claims::nothing_waits))]
pub(crate) fn waste(
    alloc: Global,
    formulas: Vec<Formula>,
    shape: &Shape,
    path: &Path,
    row: u32,
    flow: u32,
) -> Result<Vec<Formula>, NoMemory>
    requires within { IsWithin shape.now }
    requires path_in { IsPath path.now }
    requires row_in { row < rows_of shape.now }
    ensures { IfOk result (λ fs. Adds shape.now formulas.items (waste_claims part shape.now.flows (server_of path.now) row flow) fs.items) }
{
    if row == 0 || flow > 0 {
        return Ok(formulas);
    }
    let wasted = Sum::new(alloc)
        .plus(shape, 1, Entry::W { row })?
        .plus(shape, -1, Entry::W { row: row - 1 })?;
    let left = left_to_accept(alloc, shape, path, row)?;
    let rule = either(
        alloc,
        wasted.compared(Rel::AtMost),
        left.compared(Rel::AtLeast),
    )?;
    with(formulas, rule)
}

/// The most that may have been served, less what was accepted.
fn left_to_accept(alloc: Global, shape: &Shape, path: &Path, row: u32) -> Result<Sum, NoMemory>
    requires within { IsWithin shape.now }
    requires path_in { IsPath path.now }
    requires row_in { row < rows_of shape.now }
    ensures { IfOk result (λ sum. sum ≡ summed shape.now (allowance part (server_of path.now) (rate_scale (server_of path.now)) row 0 ++ accepted part shape.now.flows (opposite (rate_scale (server_of path.now))) row)) }
{
    let scale = Scale::of_rate(path);
    let opposite = scale.opposite();
    let allowed = Sum::new(alloc).plus_allowance(shape, path, &scale, row, 0)?;
    allowed.plus_accepted(shape, &opposite, row)
}

/// `P7`.
#[tactic(auto, unfolding(path_server::specs::Claims::buffer_claims, path_server::specs::Claims::queue_fits))]
pub(crate) fn buffer(
    alloc: Global,
    formulas: Vec<Formula>,
    shape: &Shape,
    path: &Path,
    row: u32,
    flow: u32,
) -> Result<Vec<Formula>, NoMemory>
    requires within { IsWithin shape.now }
    requires path_in { IsPath path.now }
    requires row_in { row < rows_of shape.now }
    ensures { IfOk result (λ fs. Adds shape.now formulas.items (buffer_claims part shape.now.flows (server_of path.now) path.now.buffer row flow) fs.items) }
{
    match &path.buffer {
        Some(buffer) if flow == 0 => {
            let free = left_to_fill(alloc, shape, path, buffer, row)?;
            with(formulas, free.compared(Rel::AtLeast))
        }
        _ => Ok(formulas),
    }
}

/// The most that may have been served and the buffer, less what was accepted.
fn left_to_fill(
    alloc: Global,
    shape: &Shape,
    path: &Path,
    buffer: &Pair,
    row: u32,
) -> Result<Sum, NoMemory>
    requires within { IsWithin shape.now }
    requires path_in { IsPath path.now }
    requires buffer_in { IsNumber buffer.now }
    requires row_in { row < rows_of shape.now }
    ensures { IfOk result (λ sum. sum ≡ summed shape.now ((allowance part (server_of path.now) (common_scale (server_of path.now) buffer.now) row 0 ++ room part buffer.now (common_scale (server_of path.now) buffer.now)) ++ accepted part shape.now.flows (opposite (common_scale (server_of path.now) buffer.now)) row)) }
{
    let scale = Scale::of_buffer(path, buffer);
    let opposite = scale.opposite();
    let allowed = Sum::new(alloc).plus_allowance(shape, path, &scale, row, 0)?;
    let roomy = allowed.plus_room(buffer, &scale);
    roomy.plus_accepted(shape, &opposite, row)
}

/// `P8`.
#[tactic(auto, unfolding(path_server::specs::Claims::loss_claims, path_server::specs::Claims::full_or_none, path_server::specs::Claims::queue_was_full))]
pub(crate) fn loss(
    alloc: Global,
    formulas: Vec<Formula>,
    shape: &Shape,
    path: &Path,
    row: u32,
    flow: u32,
) -> Result<Vec<Formula>, NoMemory>
    requires within { IsWithin shape.now }
    requires path_in { IsPath path.now }
    requires row_in { row < rows_of shape.now }
    ensures { IfOk result (λ fs. Adds shape.now formulas.items (loss_claims part shape.now.flows (server_of path.now) path.now.buffer row flow) fs.items) }
{
    if row == 0 || flow > 0 {
        return Ok(formulas);
    }
    let lost = Sum::new(alloc).plus_new_losses(shape, row, row - 1)?;
    let none = lost.compared(Rel::AtMost);
    match &path.buffer {
        None => with(formulas, none),
        Some(buffer) => {
            let over = over_the_buffer(alloc, shape, path, buffer, row, row - 1)?;
            with(formulas, either(alloc, none, over.compared(Rel::AtLeast))?)
        }
    }
}

/// What was accepted by the row, less the most that may have been served by the row before and the buffer.
fn over_the_buffer(
    alloc: Global,
    shape: &Shape,
    path: &Path,
    buffer: &Pair,
    row: u32,
    before: u32,
) -> Result<Sum, NoMemory>
    requires within { IsWithin shape.now }
    requires path_in { IsPath path.now }
    requires buffer_in { IsNumber buffer.now }
    requires row_in { row < rows_of shape.now }
    requires before_in { before < rows_of shape.now }
    ensures { IfOk result (λ sum. sum ≡ summed shape.now ((accepted part shape.now.flows (common_scale (server_of path.now) buffer.now) row ++ allowance part (server_of path.now) (opposite (common_scale (server_of path.now) buffer.now)) before 0) ++ room part buffer.now (opposite (common_scale (server_of path.now) buffer.now)))) }
{
    let scale = Scale::of_buffer(path, buffer);
    let opposite = scale.opposite();
    let accepted = Sum::new(alloc).plus_accepted(shape, &scale, row)?;
    let waiting = accepted.plus_allowance(shape, path, &opposite, before, 0)?;
    Ok(waiting.plus_room(buffer, &opposite))
}

/// `P9`.
#[tactic(auto, unfolding(path_server::specs::Claims::waste_rate_claims))]
pub(crate) fn waste_rate(
    alloc: Global,
    formulas: Vec<Formula>,
    shape: &Shape,
    path: &Path,
    row: u32,
    flow: u32,
) -> Result<Vec<Formula>, NoMemory>
    requires within { IsWithin shape.now }
    requires path_in { IsPath path.now }
    requires row_in { row < rows_of shape.now }
    ensures { IfOk result (λ fs. Adds shape.now formulas.items (waste_rate_claims part (server_of path.now) row flow) fs.items) }
{
    if row == 0 || flow > 0 {
        return Ok(formulas);
    }
    let left = left_to_waste(alloc, shape, path, row, row - 1)?;
    with(formulas, left.compared(Rel::AtLeast))
}

/// What the server can serve in a step, less what it wasted in this one.
#[tactic(auto, using(whole::proofs::Overflow::signed))]
fn left_to_waste(
    alloc: Global,
    shape: &Shape,
    path: &Path,
    row: u32,
    before: u32,
) -> Result<Sum, NoMemory>
    requires within { IsWithin shape.now }
    requires path_in { IsPath path.now }
    requires row_in { row < rows_of shape.now }
    requires before_in { before < rows_of shape.now }
    ensures { IfOk result (λ sum. sum ≡ summed shape.now (part path.now.rate.num constant ∷ part (neg_ℤ path.now.rate.den) (of_waste row) ∷ part path.now.rate.den (of_waste before) ∷ [])) }
{
    let scale = Scale::of_rate(path);
    Sum::new(alloc)
        .plus_constant(path.rate.num)
        .plus(shape, scale.minus, Entry::W { row })?
        .plus(shape, scale.unit, Entry::W { row: before })
}

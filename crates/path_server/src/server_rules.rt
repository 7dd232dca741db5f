//! The rules in which the server's rate or the buffer stands. They speak of the path as a whole, under flow 0.
ghost use Rattle.std.specs.Prelude.{◌≡◌, ◌<◌, ◌≤◌, ◌-◌, Option, None, Some, length};
ghost use Rattle.claims.specs.Subjects.{in_run};
ghost use Rattle.run_rows.specs.Runs.{IsRun, flow_count};
ghost use Rattle.weighing.specs.Claim.{all_claims, outcome};
ghost use Rattle.path_server.specs.Claims.{buffer_claims, ceiling_claims, common_scale, floor_claims, full_or_none, loss_claims, nothing_waits, queue_fits, queue_was_full, waste_claims, waste_rate_claims};
ghost use Rattle.path_server.specs.Limits.{IsNumber, IsPath};
ghost use Rattle.path_server.specs.Scales.{AreScales, IsScale, factors};
ghost use Rattle.path_server.specs.Servers.{server_of};

use crate::entries::{plus_accepted, plus_allowance, plus_new_losses, plus_room, plus_service};
use crate::scales::{PathScales, Scale};
use crate::settings::Path;
use run_rows::Run;
use weighing::{Rel5, Summand, Weighing, compare, either};
use whole::{Pair, Stuck};

/// `P3`.
#[tactic(auto, unfolding(crate::specs::Claims::ceiling_claims))]
pub fn ceiling(
    path: &Path,
    scales: &PathScales,
    run: &Run,
    row: u32,
    flow: u32,
) -> Result<bool, Stuck>
    requires path_in { IsPath path.now }
    requires scales_in { AreScales path.now scales.now }
    requires run_in { IsRun run.now }
    requires row_in { row < length run.now.rows }
    ensures { result ≡ outcome row (all_claims (ceiling_claims (in_run run.now) (flow_count run.now 0) (server_of path.now) row flow)) }
{
    if flow > 0 {
        return Ok(true);
    }
    let scale = &scales.rate;
    let opposite = scale.opposite();
    let allowed = plus_allowance(Weighing::new(row), path, scale, run, row, 0);
    plus_service(allowed, &opposite, run, row).stands(Rel5::AtLeast)
}

/// `P4`.
#[tactic(auto, unfolding(crate::specs::Claims::floor_claims))]
pub fn floor(
    path: &Path,
    scales: &PathScales,
    run: &Run,
    row: u32,
    flow: u32,
) -> Result<bool, Stuck>
    requires path_in { IsPath path.now }
    requires scales_in { AreScales path.now scales.now }
    requires run_in { IsRun run.now }
    requires row_in { row < length run.now.rows }
    ensures { result ≡ outcome row (all_claims (floor_claims (in_run run.now) (flow_count run.now 0) (server_of path.now) row flow)) }
{
    if flow > 0 {
        return Ok(true);
    }
    let scale = &scales.rate;
    let opposite = scale.opposite();
    let served = plus_service(Weighing::new(row), scale, run, row);
    plus_allowance(served, path, &opposite, run, row, path.jitter).stands(Rel5::AtLeast)
}

/// `P5`.
#[tactic(auto, unfolding(crate::specs::Claims::waste_claims))]
pub fn waste(
    path: &Path,
    scales: &PathScales,
    run: &Run,
    row: u32,
    flow: u32,
) -> Result<bool, Stuck>
    requires path_in { IsPath path.now }
    requires scales_in { AreScales path.now scales.now }
    requires run_in { IsRun run.now }
    requires row_in { row < length run.now.rows }
    ensures { result ≡ outcome row (all_claims (waste_claims (in_run run.now) (flow_count run.now 0) (server_of path.now) row flow)) }
{
    if row == 0 || flow > 0 {
        return Ok(true);
    }
    let terms = [Summand(1, run.waste(row)), Summand(-1, run.waste(row - 1))];
    either(
        compare(row, &terms, Rel5::AtMost),
        nothing_waits(path, scales, run, row),
    )
}

/// Whether the server could have served all that was accepted.
fn nothing_waits(path: &Path, scales: &PathScales, run: &Run, row: u32) -> Result<bool, Stuck>
    requires path_in { IsPath path.now }
    requires scales_in { AreScales path.now scales.now }
    requires run_in { IsRun run.now }
    requires row_in { row < length run.now.rows }
    ensures { result ≡ outcome row (nothing_waits (in_run run.now) (flow_count run.now 0) (server_of path.now) row) }
{
    let scale = &scales.rate;
    let opposite = scale.opposite();
    let allowed = plus_allowance(Weighing::new(row), path, scale, run, row, 0);
    plus_accepted(allowed, &opposite, run, row).stands(Rel5::AtLeast)
}

/// `P7`.
#[tactic(auto, unfolding(crate::specs::Claims::buffer_claims))]
pub fn buffer(
    path: &Path,
    scales: &PathScales,
    run: &Run,
    row: u32,
    flow: u32,
) -> Result<bool, Stuck>
    requires path_in { IsPath path.now }
    requires scales_in { AreScales path.now scales.now }
    requires run_in { IsRun run.now }
    requires row_in { row < length run.now.rows }
    ensures { result ≡ outcome row (all_claims (buffer_claims (in_run run.now) (flow_count run.now 0) (server_of path.now) path.now.buffer row flow)) }
{
    match &path.buffer {
        Some(buffer) if flow == 0 => queue_fits(path, buffer, &scales.buffer, run, row),
        _ => Ok(true),
    }
}

/// Whether what waits fits the buffer.
fn queue_fits(path: &Path, buffer: &Pair, scale: &Scale, run: &Run, row: u32) -> Result<bool, Stuck>
    requires path_in { IsPath path.now }
    requires buffer_in { IsNumber buffer.now }
    requires scale_value { factors scale.now ≡ common_scale (server_of path.now) buffer.now }
    requires scale_in { IsScale scale.now }
    requires run_in { IsRun run.now }
    requires row_in { row < length run.now.rows }
    ensures { result ≡ outcome row (queue_fits (in_run run.now) (flow_count run.now 0) (server_of path.now) buffer.now row) }
{
    let opposite = scale.opposite();
    let allowed = plus_allowance(Weighing::new(row), path, scale, run, row, 0);
    let roomy = plus_room(allowed, buffer, scale, run);
    plus_accepted(roomy, &opposite, run, row).stands(Rel5::AtLeast)
}

/// `P8`.
#[tactic(auto, unfolding(crate::specs::Claims::loss_claims, crate::specs::Claims::full_or_none))]
pub fn loss(path: &Path, scales: &PathScales, run: &Run, row: u32, flow: u32) -> Result<bool, Stuck>
    requires path_in { IsPath path.now }
    requires scales_in { AreScales path.now scales.now }
    requires run_in { IsRun run.now }
    requires row_in { row < length run.now.rows }
    ensures { result ≡ outcome row (all_claims (loss_claims (in_run run.now) (flow_count run.now 0) (server_of path.now) path.now.buffer row flow)) }
{
    if row == 0 || flow > 0 {
        return Ok(true);
    }
    let none = plus_new_losses(Weighing::new(row), run, row, row - 1).stands(Rel5::AtMost);
    match &path.buffer {
        None => none,
        Some(buffer) => either(none, queue_was_full(path, buffer, &scales.buffer, run, row)),
    }
}

/// Whether what waits on this row, before the server's work of the row, filled the buffer.
fn queue_was_full(
    path: &Path,
    buffer: &Pair,
    scale: &Scale,
    run: &Run,
    row: u32,
) -> Result<bool, Stuck>
    requires path_in { IsPath path.now }
    requires buffer_in { IsNumber buffer.now }
    requires scale_value { factors scale.now ≡ common_scale (server_of path.now) buffer.now }
    requires scale_in { IsScale scale.now }
    requires run_in { IsRun run.now }
    requires row_from { 0 < row }
    requires row_in { row < length run.now.rows }
    ensures { result ≡ outcome row (queue_was_full (in_run run.now) (flow_count run.now 0) (server_of path.now) buffer.now row (row - 1)) }
{
    let opposite = scale.opposite();
    let waiting = plus_accepted(Weighing::new(row), scale, run, row);
    let over = plus_allowance(waiting, path, &opposite, run, row - 1, 0);
    plus_room(over, buffer, &opposite, run).stands(Rel5::AtLeast)
}

/// `P9`.
#[tactic(auto, unfolding(crate::specs::Claims::waste_rate_claims))]
pub fn waste_rate(
    path: &Path,
    scales: &PathScales,
    run: &Run,
    row: u32,
    flow: u32,
) -> Result<bool, Stuck>
    requires path_in { IsPath path.now }
    requires scales_in { AreScales path.now scales.now }
    requires run_in { IsRun run.now }
    requires row_in { row < length run.now.rows }
    ensures { result ≡ outcome row (all_claims (waste_rate_claims (in_run run.now) (server_of path.now) row flow)) }
{
    if row == 0 || flow > 0 {
        return Ok(true);
    }
    let scale = &scales.rate;
    let terms = [
        Summand(path.rate.num, run.over),
        Summand(scale.minus, run.waste(row)),
        Summand(scale.unit, run.waste(row - 1)),
    ];
    compare(row, &terms, Rel5::AtLeast)
}

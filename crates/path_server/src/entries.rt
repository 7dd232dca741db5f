//! The entries of a run as weighings take them: sums over the flows, and what the path allows.
ghost use Rattle.std.specs.Prelude.{◌≡◌, ◌<◌, ◌≤◌, length};
ghost use Rattle.claims.specs.Subjects.{in_run};
ghost use Rattle.run_rows.specs.Runs.{IsRun, flow_count};
ghost use Rattle.weighing.specs.Weighed.{weighed_from};
ghost use Rattle.path_server.specs.Limits.{IsNumber, IsPath};
ghost use Rattle.path_server.specs.Servers.{server_of};
ghost use Rattle.path_server.specs.Scales.{IsScale, factors};
ghost use Rattle.path_server.specs.Claims.{accepted, allowance, new_losses, room, service};

use crate::scales::Scale;
use crate::settings::Path;
use run_rows::Run;
use weighing::{Summand, Weighing};
use whole::Pair;

/// The weighing with the service of each flow.
pub fn plus_service(start: Weighing, scale: &Scale, run: &Run, row: u32) -> Weighing
    requires run_in { IsRun run.now }
    requires row_in { row < length run.now.rows }
    requires scale_in { IsScale scale.now }
    ensures { result ≡ weighed_from start (service (in_run run.now) (flow_count run.now 0) (factors scale.now) row) }
{
    let mut weighing = start;
    for index in 0..run.flow_count() {
        let now = run.flow(row, index + 1);
        weighing = weighing.plus_all(&[Summand(scale.unit, now.s)]);
    }
    weighing
}

/// The weighing with what arrived of each flow and wasn't lost.
pub fn plus_accepted(start: Weighing, scale: &Scale, run: &Run, row: u32) -> Weighing
    requires run_in { IsRun run.now }
    requires row_in { row < length run.now.rows }
    requires scale_in { IsScale scale.now }
    ensures { result ≡ weighed_from start (accepted (in_run run.now) (flow_count run.now 0) (factors scale.now) row) }
{
    let mut weighing = start;
    for index in 0..run.flow_count() {
        let now = run.flow(row, index + 1);
        weighing = weighing.plus_all(&[Summand(scale.unit, now.a), Summand(scale.minus, now.l)]);
    }
    weighing
}

/// The weighing with the losses that each flow has on `row` and not yet on `before`.
pub fn plus_new_losses(start: Weighing, run: &Run, row: u32, before: u32) -> Weighing
    requires run_in { IsRun run.now }
    requires row_in { row < length run.now.rows }
    requires before_in { before < length run.now.rows }
    ensures { result ≡ weighed_from start (new_losses (in_run run.now) (flow_count run.now 0) row before) }
{
    let mut weighing = start;
    for index in 0..run.flow_count() {
        let (old, new) = (run.flow(before, index + 1), run.flow(row, index + 1));
        weighing = weighing.plus_all(&[Summand(1, new.l), Summand(-1, old.l)]);
    }
    weighing
}

/// The weighing with the most that may have been served `back` rows before `row`.
pub fn plus_allowance(
    start: Weighing,
    path: &Path,
    scale: &Scale,
    run: &Run,
    row: u32,
    back: u32,
) -> Weighing
    requires path_in { IsPath path.now }
    requires run_in { IsRun run.now }
    requires row_in { row < length run.now.rows }
    requires back_in { back ≤ 8 }
    requires scale_in { IsScale scale.now }
    ensures { result ≡ weighed_from start (allowance (in_run run.now) (server_of path.now) (factors scale.now) row back) }
{
    let rate = scale.rate_over(path, row, back);
    let wasted = run.waste(row.saturating_sub(back));
    let terms = [
        Summand(rate, run.over),
        Summand(scale.unit, run.credit),
        Summand(scale.minus, wasted),
    ];
    start.plus_all(&terms)
}

/// The weighing with the buffer.
pub fn plus_room(start: Weighing, buffer: &Pair, scale: &Scale, run: &Run) -> Weighing
    requires buffer_in { IsNumber buffer.now }
    requires run_in { IsRun run.now }
    requires scale_in { IsScale scale.now }
    ensures { result ≡ weighed_from start (room (in_run run.now) buffer.now (factors scale.now)) }
{
    start.plus_all(&[Summand(scale.buffer_of(buffer), run.over)])
}

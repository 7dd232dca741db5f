//! The rules that compare the entries of one flow, or the waste, with each other: no rate and no buffer is in them.
ghost use Rattle.std.specs.Prelude.{◌≡◌, ◌<◌, ◌≤◌, ◌-◌, length};
ghost use Rattle.run_rows.specs.Runs.{IsEntry, IsRun, flow_count, waste};
ghost use Rattle.condition_tree.specs.Trees.{all_of};
ghost use Rattle.weighing.specs.Claim.{all_claims, outcome};
ghost use Rattle.weighing.specs.Weighed.{times};
ghost use Rattle.claims.specs.Subjects.{in_run};
ghost use Rattle.path_server.specs.Claims.{acceptance_claims, growth_claims, is_zero, no_fall, not_negative, service_claims, start_claims};

use run_rows::{FlowRow, Run};
use weighing::{Rel5, Summand, both, compare};
use whole::Stuck;

/// `P0`.
#[tactic(auto, using(whole::proofs::Overflow::signed), unfolding(crate::specs::Claims::start_claims))]
pub fn start(run: &Run, row: u32, flow: u32) -> Result<bool, Stuck>
    requires run_in { IsRun run.now }
    requires row_in { row < length run.now.rows }
    requires flow_in { flow ≤ flow_count run.now 0 }
    ensures { result ≡ outcome row (all_claims (start_claims (in_run run.now) row flow)) }
{
    if row > 0 {
        return Ok(true);
    }
    if flow == 0 {
        return path_starts_empty(run);
    }
    flow_starts_empty(run.flow(0, flow))
}

fn path_starts_empty(run: &Run) -> Result<bool, Stuck>
    requires run_in { IsRun run.now }
    requires row_in { 0 < length run.now.rows }
    ensures { result ≡ outcome 0 (all_of (is_zero times (waste run.now 0)) (not_negative times run.now.credit)) }
{
    let wasted = compare(0, &[Summand(1, run.waste(0))], Rel5::Equal);
    let credit = compare(0, &[Summand(1, run.credit)], Rel5::AtLeast);
    both(wasted, credit)
}

fn flow_starts_empty(now: &FlowRow) -> Result<bool, Stuck>
    requires a_in { IsEntry now.now.a }
    requires s_in { IsEntry now.now.s }
    requires l_in { IsEntry now.now.l }
    ensures { result ≡ outcome 0 (all_of (is_zero times now.now.s) (all_of (is_zero times now.now.l) (not_negative times now.now.a))) }
{
    let served = compare(0, &[Summand(1, now.s)], Rel5::Equal);
    let lost = compare(0, &[Summand(1, now.l)], Rel5::Equal);
    let arrived = compare(0, &[Summand(1, now.a)], Rel5::AtLeast);
    both(served, both(lost, arrived))
}

/// `P1`.
#[tactic(auto, using(whole::proofs::Overflow::signed), unfolding(crate::specs::Claims::growth_claims))]
pub fn growth(run: &Run, row: u32, flow: u32) -> Result<bool, Stuck>
    requires run_in { IsRun run.now }
    requires row_in { row < length run.now.rows }
    requires flow_in { flow ≤ flow_count run.now 0 }
    ensures { result ≡ outcome row (all_claims (growth_claims (in_run run.now) row flow)) }
{
    if row == 0 {
        return Ok(true);
    }
    if flow == 0 {
        return path_grows(run, row);
    }
    flow_grows(row, run.flow(row - 1, flow), run.flow(row, flow))
}

fn path_grows(run: &Run, row: u32) -> Result<bool, Stuck>
    requires run_in { IsRun run.now }
    requires row_from { 0 < row }
    requires row_in { row < length run.now.rows }
    ensures { result ≡ outcome row (no_fall times (waste run.now (row - 1)) (waste run.now row)) }
{
    let terms = [Summand(1, run.waste(row)), Summand(-1, run.waste(row - 1))];
    compare(row, &terms, Rel5::AtLeast)
}

fn flow_grows(row: u32, old: &FlowRow, new: &FlowRow) -> Result<bool, Stuck>
    requires old_a { IsEntry old.now.a }
    requires old_s { IsEntry old.now.s }
    requires old_l { IsEntry old.now.l }
    requires new_a { IsEntry new.now.a }
    requires new_s { IsEntry new.now.s }
    requires new_l { IsEntry new.now.l }
    ensures { result ≡ outcome row (all_of (no_fall times old.now.a new.now.a) (all_of (no_fall times old.now.s new.now.s) (no_fall times old.now.l new.now.l))) }
{
    let arrived = compare(row, &[Summand(1, new.a), Summand(-1, old.a)], Rel5::AtLeast);
    let served = compare(row, &[Summand(1, new.s), Summand(-1, old.s)], Rel5::AtLeast);
    let lost = compare(row, &[Summand(1, new.l), Summand(-1, old.l)], Rel5::AtLeast);
    both(arrived, both(served, lost))
}

/// `P2`.
#[tactic(auto, using(whole::proofs::Overflow::signed), unfolding(crate::specs::Claims::service_claims))]
pub fn service(run: &Run, row: u32, flow: u32) -> Result<bool, Stuck>
    requires run_in { IsRun run.now }
    requires row_in { row < length run.now.rows }
    requires flow_in { flow ≤ flow_count run.now 0 }
    ensures { result ≡ outcome row (all_claims (service_claims (in_run run.now) row flow)) }
{
    if flow == 0 {
        return Ok(true);
    }
    let now = run.flow(row, flow);
    compare(
        row,
        &[Summand(1, now.a), Summand(-1, now.l), Summand(-1, now.s)],
        Rel5::AtLeast,
    )
}

/// `P6`.
#[tactic(auto, using(whole::proofs::Overflow::signed), unfolding(crate::specs::Claims::acceptance_claims))]
pub fn acceptance(run: &Run, row: u32, flow: u32) -> Result<bool, Stuck>
    requires run_in { IsRun run.now }
    requires row_in { row < length run.now.rows }
    requires flow_in { flow ≤ flow_count run.now 0 }
    ensures { result ≡ outcome row (all_claims (acceptance_claims (in_run run.now) row flow)) }
{
    if row == 0 || flow == 0 {
        return Ok(true);
    }
    let (old, new) = (run.flow(row - 1, flow), run.flow(row, flow));
    compare(
        row,
        &[
            Summand(1, new.a),
            Summand(-1, new.l),
            Summand(-1, old.a),
            Summand(1, old.l),
        ],
        Rel5::AtLeast,
    )
}

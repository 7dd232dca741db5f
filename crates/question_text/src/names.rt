//! What the names of a question stand for in a run.
ghost use Rattle.std.specs.Prelude.{◌≡◌, ◌<◌, ◌≤◌, [], ◌∷◌, length, unsigned_abs};
ghost use Rattle.run_rows.specs.Runs.{IsEntry, IsRun, flow_count};
ghost use Rattle.weighing.specs.Weighed.{times, weighed_from};
ghost use Rattle.claims.specs.Subjects.{each_flow, in_run};
ghost use Rattle.question_text.specs.NameMeanings.{IsOf, counted, flow_terms, of_terms, row_at};

use crate::conditions::Of;
use run_rows::Run;
use weighing::Weighing;

/// The rows between which the steps of a question lie.
#[derive(Clone, Copy, Debug)]
pub struct Rows {
    /// The row of step 0.
    pub opening: u32,
    /// The row of the last step, by which a weighing that is stuck is named.
    pub last: u32,
}

/// What each flow has on each row.
#[derive(Clone, Copy, Debug)]
pub enum Count {
    Arrived,
    Served,
    Lost,
}

/// The weighing with a multiple of what a term is taken of.
#[tactic(auto, using(whole::proofs::Overflow::signed))]
pub fn plus_of(weighing: Weighing, run: &Run, at: &Rows, factor: i128, of: Of) -> Weighing
    requires run_in { IsRun run.now }
    requires of_in { IsOf run.now at.now of }
    requires factor_to { unsigned_abs factor ≤ 1000000000000 }
    ensures { result ≡ weighed_from weighing (of_terms (in_run run.now) (flow_count run.now 0) at.now factor of) }
{
    match of {
        Of::One => weighing.plus(factor, run.over),
        Of::Credit => weighing.plus(factor, run.credit),
        Of::W(step) => weighing.plus(factor, run.waste(row_of_step(run, at, step))),
        Of::A(flow, step) => {
            let row = row_of_step(run, at, step);
            plus_count(weighing, run, row, flow, Count::Arrived, factor)
        }
        Of::S(flow, step) => {
            let row = row_of_step(run, at, step);
            plus_count(weighing, run, row, flow, Count::Served, factor)
        }
        Of::L(flow, step) => {
            let row = row_of_step(run, at, step);
            plus_count(weighing, run, row, flow, Count::Lost, factor)
        }
        Of::X(state, flow, step) => {
            let row = row_of_step(run, at, step);
            weighing.plus(factor, run.state(row, flow, state))
        }
    }
}

/// The row of a step.
fn row_of_step(run: &Run, at: &Rows, step: u32) -> u32
    requires run_in { IsRun run.now }
    requires row_in { row_at at.now step < length run.now.rows }
    ensures { result ≡ row_at at.now step }
{
    at.opening + step
}

/// The weighing with a multiple of what a flow has on a row or, for flow 0, of what each has.
#[tactic(auto, using(whole::proofs::Overflow::signed))]
fn plus_count(
    start: Weighing,
    run: &Run,
    row: u32,
    flow: u32,
    count: Count,
    factor: i128,
) -> Weighing
    requires run_in { IsRun run.now }
    requires row_in { row < length run.now.rows }
    requires flow_to { flow ≤ flow_count run.now 0 }
    requires factor_to { unsigned_abs factor ≤ 1000000000000 }
    ensures { result ≡ weighed_from start (flow_terms times factor (counted run.now count row) (flow_count run.now 0) flow) }
{
    if flow == 0 {
        return plus_each(start, run, row, count, factor);
    }
    start.plus(factor, entry(run, row, flow, count))
}

/// The weighing with a multiple of what each flow has on a row.
#[tactic(auto, using(whole::proofs::Overflow::signed))]
fn plus_each(start: Weighing, run: &Run, row: u32, count: Count, factor: i128) -> Weighing
    requires run_in { IsRun run.now }
    requires row_in { row < length run.now.rows }
    requires factor_to { unsigned_abs factor ≤ 1000000000000 }
    ensures { result ≡ weighed_from start (each_flow (λ f. times factor (counted run.now count row f) ∷ []) (flow_count run.now 0)) }
{
    let mut weighing = start;
    for index in 0..run.flow_count() {
        let number = entry(run, row, index + 1, count);
        weighing = weighing.plus(factor, number);
    }
    weighing
}

/// What a flow has on a row.
fn entry(run: &Run, row: u32, flow: u32, count: Count) -> i128
    requires run_in { IsRun run.now }
    requires row_in { row < length run.now.rows }
    requires flow_from { 1 ≤ flow }
    requires flow_to { flow ≤ flow_count run.now 0 }
    ensures value { result ≡ counted run.now count row flow }
    ensures within { IsEntry result }
{
    let entries = run.flow(row, flow);
    match count {
        Count::Arrived => entries.a,
        Count::Served => entries.s,
        Count::Lost => entries.l,
    }
}

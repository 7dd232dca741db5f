//! What a flow sends: the greater of what it had sent and what the window allows and, with a rate, at most that.
ghost use Rattle.std.specs.Prelude.{◌≡◌, Some};
ghost use Rattle.claims.specs.Subjects.{in_run};
ghost use Rattle.run_rows.specs.Runs.{IsRun};
ghost use Rattle.weighing.specs.Weighed.{weighed};
ghost use Rattle.ctrl_meaning.specs.Limits.{CanSend, CanSum};
ghost use Rattle.ctrl_meaning.specs.Readings.{IsReading};
ghost use Rattle.ctrl_meaning.specs.Sends.{growth_terms, paced_outcome, rate_terms, unpaced_outcome, window_terms};
ghost use Rattle.ctrl_meaning.specs.Steps.{sent};

use crate::expressions::{negated, plus_lin, scale_with};
use crate::readings::ReadPoint;
use ctrl_types::{Controller, Lin};
use run_rows::Run;
use weighing::{Rel5, Side, Summand, Weighing, both, either};
use whole::Stuck;

/// Whether the flow's arrivals are what the window and the rate give, or the first operation that overflows. Each of the
/// three sums is weighed once.
#[tactic(auto, unfolding(crate::specs::Steps::sent))]
pub fn sent(controller: &Controller, run: &Run, at: &ReadPoint) -> Result<bool, Stuck>
    requires { CanSend controller.now run.now at.now }
    ensures { result ≡ sent controller.now run.now at.now }
{
    let growth = growth(run, at);
    let window = over_window(run, at, &controller.window);
    match &controller.rate {
        None => unpaced(growth, window),
        Some(rate) => paced(growth, window, over_rate(run, at, rate)),
    }
}

/// Whether the arrivals are the greater of what they were and what the window allows.
fn unpaced(growth: Weighing, window: Weighing) -> Result<bool, Stuck>
    ensures { result ≡ unpaced_outcome growth.sum window.sum }
{
    let not_less = both(
        window.stands(Rel5::AtLeast),
        either(growth.stands(Rel5::AtMost), window.stands(Rel5::AtMost)),
    );
    both(growth.stands(Rel5::AtLeast), not_less)
}

/// Whether the arrivals are the lesser of that and what the rate allows.
fn paced(growth: Weighing, window: Weighing, rate: Weighing) -> Result<bool, Stuck>
    ensures { result ≡ paced_outcome growth.sum window.sum rate.sum }
{
    let within_window = either(growth.stands(Rel5::AtMost), window.stands(Rel5::AtMost));
    let within_rate = either(growth.stands(Rel5::AtMost), rate.stands(Rel5::AtMost));
    let all_of_window = both(growth.stands(Rel5::AtLeast), window.stands(Rel5::AtLeast));
    let all_of_rate = both(growth.stands(Rel5::AtLeast), rate.stands(Rel5::AtLeast));
    both(
        within_window,
        both(within_rate, either(all_of_window, all_of_rate)),
    )
}

/// What the flow sent in this row.
#[tactic(auto, using(whole::proofs::Overflow::signed))]
fn growth(run: &Run, at: &ReadPoint) -> Weighing
    requires run_in { IsRun run.now }
    requires at_in { IsReading run.now at.now }
    ensures { result ≡ weighed at.now.row (growth_terms (in_run run.now) at.now) }
{
    let now = run.flow(at.row, at.flow);
    let before = run.flow(at.row - 1, at.flow);
    Weighing::new(at.row).plus_all(&[Summand(1, now.a), Summand(-1, before.a)])
}

/// By how much the arrivals exceed what was served, what was lost and the window.
#[tactic(auto, using(whole::proofs::Overflow::signed))]
fn over_window(run: &Run, at: &ReadPoint, window: &Lin) -> Weighing
    requires run_in { IsRun run.now }
    requires at_in { IsReading run.now at.now }
    requires window_in { CanSum run.now at.now (Some window.now) }
    ensures { result ≡ weighed at.now.row (window_terms (in_run run.now) at.now window.now) }
{
    let scale = scale_with(1, run, at, window);
    let unit = i128::from(scale);
    let now = run.flow(at.row, at.flow);
    let heard = run.flow(at.heard, at.flow);
    let terms = [
        Summand(unit, now.a),
        Summand(negated(unit), heard.s),
        Summand(negated(unit), heard.l),
    ];
    let start = Weighing::new(at.row).plus_all(&terms);
    plus_lin(start, run, at, Side::Right, scale, window)
}

/// By how much what the flow sent in this row exceeds the rate.
#[tactic(auto, using(whole::proofs::Overflow::signed))]
fn over_rate(run: &Run, at: &ReadPoint, rate: &Lin) -> Weighing
    requires run_in { IsRun run.now }
    requires at_in { IsReading run.now at.now }
    requires rate_in { CanSum run.now at.now (Some rate.now) }
    ensures { result ≡ weighed at.now.row (rate_terms (in_run run.now) at.now rate.now) }
{
    let scale = scale_with(1, run, at, rate);
    let unit = i128::from(scale);
    let now = run.flow(at.row, at.flow);
    let before = run.flow(at.row - 1, at.flow);
    let start = Weighing::new(at.row).plus_all(&[
        Summand(unit, now.a),
        Summand(negated(unit), before.a),
    ]);
    plus_lin(start, run, at, Side::Right, scale, rate)
}

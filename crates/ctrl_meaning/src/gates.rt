//! Guards, all of whose comparisons are weighed, in order, before the guard's truth is taken.
ghost use Rattle.std.specs.Prelude.{◌≡◌, ◌≤◌, map};
ghost use Rattle.condition_tree.specs.Trees.{leaf};
ghost use Rattle.claims.specs.Subjects.{in_run};
ghost use Rattle.run_rows.specs.Runs.{IsRun};
ghost use Rattle.weighing.specs.Claim.{outcome};
ghost use Rattle.ctrl_types.specs.Tests.{conjunction, disjunction, test_of};
ghost use Rattle.ctrl_meaning.specs.Guards.{CanWeigh, delay_claim, test_claim};
ghost use Rattle.ctrl_meaning.specs.Readings.{IsReading};

use crate::expressions::comparison;
use crate::readings::ReadPoint;
use ctrl_types::Gate;
use run_rows::Run;
use weighing::{Rel5, Summand, both, compare, either, not};
use whole::Stuck;

/// Whether the guard holds, or the first operation that overflows in weighing it.
#[cycle(guards)]
pub fn gate_holds(gate: &Gate, run: &Run, at: &ReadPoint) -> Result<bool, Stuck>
    requires run_in { IsRun run.now }
    requires at_in { IsReading run.now at.now }
    requires gate_in { CanWeigh run.now at.now (test_of gate.now) }
    ensures { result ≡ outcome at.now.row (test_claim (in_run run.now) at.now (test_of gate.now)) }
{
    match gate {
        Gate::True => Ok(true),
        Gate::False => Ok(false),
        Gate::Cmp(left, rel, right) => comparison(left, *rel, right, run, at),
        Gate::Delay(rows) => was_served(*rows, run, at),
        Gate::Not(part) => not(gate_holds(part, run, at)),
        Gate::And(parts) => all_hold(parts, run, at),
        Gate::Or(parts) => any_holds(parts, run, at),
    }
}

/// Whether all parts hold.
#[cycle(guards)]
fn all_hold(parts: &Vec<Gate>, run: &Run, at: &ReadPoint) -> Result<bool, Stuck>
    requires run_in { IsRun run.now }
    requires at_in { IsReading run.now at.now }
    requires parts_in { CanWeigh run.now at.now (conjunction (map test_of parts.now.items)) }
    ensures { result ≡ outcome at.now.row (test_claim (in_run run.now) at.now (conjunction (map test_of parts.now.items))) }
{
    let mut all = Ok(true);
    for part in parts {
        all = both(all, gate_holds(part, run, at));
    }
    all
}

/// Whether one of the parts holds.
#[cycle(guards)]
fn any_holds(parts: &Vec<Gate>, run: &Run, at: &ReadPoint) -> Result<bool, Stuck>
    requires run_in { IsRun run.now }
    requires at_in { IsReading run.now at.now }
    requires parts_in { CanWeigh run.now at.now (disjunction (map test_of parts.now.items)) }
    ensures { result ≡ outcome at.now.row (test_claim (in_run run.now) at.now (disjunction (map test_of parts.now.items))) }
{
    let mut any = Ok(false);
    for part in parts {
        any = either(any, gate_holds(part, run, at));
    }
    any
}

/// Whether all that was accepted this many rows before the row that the sender hears of was served by then.
#[tactic(auto, using(whole::proofs::Overflow::signed))]
fn was_served(rows: u32, run: &Run, at: &ReadPoint) -> Result<bool, Stuck>
    requires run_in { IsRun run.now }
    requires at_in { IsReading run.now at.now }
    requires rows_in { rows ≤ at.now.heard }
    ensures { result ≡ outcome at.now.row (leaf (delay_claim (in_run run.now) at.now rows)) }
{
    let then = run.flow(at.heard - rows, at.flow);
    let now = run.flow(at.heard, at.flow);
    let terms = [Summand(1, then.a), Summand(-1, then.l), Summand(-1, now.s)];
    compare(at.row, &terms, Rel5::AtLeast)
}

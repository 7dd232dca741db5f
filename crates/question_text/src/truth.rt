//! Conditions, all of whose comparisons are weighed, in order, before the condition's truth is taken.
ghost use Rattle.claims.specs.Subjects.{in_run};
ghost use Rattle.std.specs.Prelude.{◌≡◌, map};
ghost use Rattle.run_rows.specs.Runs.{IsRun, flow_count};
ghost use Rattle.weighing.specs.Claim.{outcome};
ghost use Rattle.question_text.specs.Conditions.{conjunction, condition_of, disjunction};
ghost use Rattle.question_text.specs.Expressions.{CanWeigh, condition_claim};

use crate::conditions::QCond;
use crate::expressions::comparison;
use crate::names::Rows;
use run_rows::Run;
use weighing::{both, either, not};
use whole::Stuck;

/// Whether the condition holds, or the first operation that overflows in weighing it.
#[cycle(conditions)]
pub fn holds(condition: &QCond, run: &Run, at: &Rows) -> Result<bool, Stuck>
    requires run_in { IsRun run.now }
    requires can { CanWeigh run.now at.now (condition_of condition.now) }
    ensures { result ≡ outcome at.now.last (condition_claim (in_run run.now) (flow_count run.now 0) at.now (condition_of condition.now)) }
{
    match condition {
        QCond::True => Ok(true),
        QCond::False => Ok(false),
        QCond::Cmp(left, rel, right) => comparison(left, *rel, right, run, at),
        QCond::Not(part) => not(holds(part, run, at)),
        QCond::And(parts) => all_hold(parts, run, at),
        QCond::Or(parts) => any_holds(parts, run, at),
    }
}

/// Whether all parts hold.
#[cycle(conditions)]
fn all_hold(parts: &Vec<QCond>, run: &Run, at: &Rows) -> Result<bool, Stuck>
    requires run_in { IsRun run.now }
    requires can { CanWeigh run.now at.now (conjunction (map condition_of parts.now.items)) }
    ensures { result ≡ outcome at.now.last (condition_claim (in_run run.now) (flow_count run.now 0) at.now (conjunction (map condition_of parts.now.items))) }
{
    let mut all = Ok(true);
    for part in parts {
        all = both(all, holds(part, run, at));
    }
    all
}

/// Whether one of the parts holds.
#[cycle(conditions)]
fn any_holds(parts: &Vec<QCond>, run: &Run, at: &Rows) -> Result<bool, Stuck>
    requires run_in { IsRun run.now }
    requires can { CanWeigh run.now at.now (disjunction (map condition_of parts.now.items)) }
    ensures { result ≡ outcome at.now.last (condition_claim (in_run run.now) (flow_count run.now 0) at.now (disjunction (map condition_of parts.now.items))) }
{
    let mut any = Ok(false);
    for part in parts {
        any = either(any, holds(part, run, at));
    }
    any
}

//! Conditions with their names replaced, and what they come to.
ghost use Rattle.std.specs.Prelude.{◌≡◌, map, All, IfSome};
ghost use Rattle.weighing.specs.Scaled.{IsNum};
ghost use Rattle.condition_syntax.specs.Trees.{condition_of};
ghost use Rattle.ctrl_syntax.specs.Limits.{IsExpr};
ghost use Rattle.ctrl_types.specs.Tests.{test_of};
ghost use Rattle.ctrl_types.specs.Statements.{rows_of, is_unfit};
ghost use Rattle.ctrl_types.specs.Denominators.{IsScale};
ghost use Rattle.ctrl_types.specs.Resolving.{AnswersLeaving, AreReadable, EachReadable, comparison_by, gate_by, gates_by, with_comparison, with_delay};
ghost use Rattle.ctrl_types.specs.Scopes.{IsScope};

use crate::breaches::ResolveStop;
use crate::expressions::Lin;
use crate::gates::Gate;
use crate::names::Scope;
use crate::sums::{lin, lins_mix, with_lin};
use crate::surveys::Survey;
use ctrl_syntax::{Cond, Expr, Num, Rel5, StateLine};
use std::alloc::Global;

/// The greatest number of rows in a test of delay.
const MOST_ROWS: u32 = 8;

/// The survey with a comparison more.
#[tactic(auto, unfolding(crate::specs::Resolving::with_comparison))]
fn with_comparison(states: &[StateLine], left: &Lin, right: &Lin, seen: Survey) -> Survey
    requires den_in { IfSome seen.den IsScale }
    requires left_in { All (λ t. IsNum t.coef) left.now.terms }
    requires right_in { All (λ t. IsNum t.coef) right.now.terms }
    ensures exact { result ≡ with_comparison states.now left.now right.now seen }
    ensures within { IfSome result.den IsScale }
{
    Survey {
        mixed: seen.mixed || lins_mix(states, left, right),
        den: with_lin(with_lin(seen.den, left), right),
        ..seen
    }
}

/// The whole part of a number of rows.
#[tactic(auto, using(whole::proofs::Overflow::signed))]
fn rows_of(number: Num) -> u32
    requires { IsNum number }
    ensures { result ≡ rows_of number }
{
    (number.num.unsigned_abs() / number.den.unsigned_abs()) as u32
}

/// Whether the number isn't whole by its value or exceeds 8.
#[tactic(auto, using(whole::proofs::Overflow::signed), unfolding(crate::specs::Statements::is_unfit))]
fn is_unfit(number: Num) -> bool
    requires { IsNum number }
    ensures { result ≡ is_unfit number }
{
    number.num.unsigned_abs() % number.den.unsigned_abs() != 0 || rows_of(number) > MOST_ROWS
}

/// The survey with a test of delay more.
#[tactic(auto, unfolding(crate::specs::Resolving::with_delay))]
fn with_delay(number: Num, seen: Survey) -> Survey
    requires { IsNum number }
    ensures exact { result ≡ with_delay number seen }
    ensures kept { result.den ≡ seen.den }
{
    Survey {
        unfit: seen.unfit || is_unfit(number),
        delay_max: seen.delay_max.max(rows_of(number)),
        ..seen
    }
}

#[tactic(auto, unfolding(crate::specs::Resolving::comparison_by))]
fn comparison(
    alloc: Global,
    scope: &Scope<'_>,
    left: &Expr,
    rel: Rel5,
    right: &Expr,
    seen: &mut Survey,
) -> Result<Gate, ResolveStop>
    requires scope_in { IsScope scope.now }
    requires left_in { IsExpr left.now }
    requires right_in { IsExpr right.now }
    requires den_in { IfSome seen.old.den IsScale }
    ensures exact { AnswersLeaving test_of result seen.new (comparison_by scope.now.states.now left.now rel right.now seen.old) }
    ensures within { IfSome seen.new.den IsScale }
{
    let left = lin(alloc, scope, true, left)?;
    let right = lin(alloc, scope, true, right)?;
    *seen = with_comparison(scope.states, &left, &right, *seen);
    Ok(Gate::Cmp(left, rel, right))
}

/// The condition with its names replaced; `seen` gets what stands in it.
#[cycle(guards)]
#[tactic(auto, using(crate::proofs::TreeLaws::parts_of_And, crate::proofs::TreeLaws::parts_of_Or), unfolding(crate::specs::Resolving::gate_by))]
pub(crate) fn gate(
    alloc: Global,
    scope: &Scope<'_>,
    condition: &Cond,
    seen: &mut Survey,
) -> Result<Gate, ResolveStop>
    requires scope_in { IsScope scope.now }
    requires condition_in { AreReadable (condition_of condition.now) }
    requires den_in { IfSome seen.old.den IsScale }
    ensures exact { AnswersLeaving test_of result seen.new (gate_by scope.now.states.now (condition_of condition.now) seen.old) }
    ensures within { IfSome seen.new.den IsScale }
{
    match condition {
        Cond::True => Ok(Gate::True),
        Cond::False => Ok(Gate::False),
        Cond::Cmp(left, rel, right) => comparison(alloc, scope, left, *rel, right, seen),
        Cond::Delay(number) => {
            *seen = with_delay(*number, *seen);
            Ok(Gate::Delay(rows_of(*number)))
        }
        Cond::Not(part) => {
            let inner = gate(alloc, scope, part, seen)?;
            Ok(Gate::Not(Box::new(alloc, inner)?))
        }
        Cond::And(parts) => Ok(Gate::And(gates(alloc, scope, parts, seen)?)),
        Cond::Or(parts) => Ok(Gate::Or(gates(alloc, scope, parts, seen)?)),
    }
}

/// The parts of a condition.
#[cycle(guards)]
#[tactic(auto, unfolding(crate::specs::Resolving::gates_by))]
fn gates(
    alloc: Global,
    scope: &Scope<'_>,
    parts: &Vec<Cond>,
    seen: &mut Survey,
) -> Result<Vec<Gate>, ResolveStop>
    requires scope_in { IsScope scope.now }
    requires parts_in { EachReadable (map condition_of parts.now.items) }
    requires den_in { IfSome seen.old.den IsScale }
    ensures exact { AnswersLeaving (λ gates. map test_of gates.items) result seen.new (gates_by scope.now.states.now (map condition_of parts.now.items) seen.old) }
    ensures within { IfSome seen.new.den IsScale }
{
    let mut gates = Vec::new(alloc);
    for part in parts {
        let inner = gate(alloc, scope, part, seen)?;
        gates.push(inner)?;
    }
    Ok(gates)
}

//! What one line says with its names replaced, or the first rule that it breaks.
ghost use Rattle.std.specs.Prelude.{◌≡◌, length, [], ◌∷◌, slice_get, Some, IfOk, IfSome};
ghost use Rattle.ctrl_syntax.specs.Limits.{IsExpr, IsGuard, IsSetLine, IsStateLine};
ghost use Rattle.ctrl_syntax.specs.Sections.{guard_of};
ghost use Rattle.weighing.specs.Scaled.{IsNum};
ghost use Rattle.condition_syntax.specs.Trees.{condition_of};
ghost use Rattle.ctrl_types.specs.Tests.{test_of};
ghost use Rattle.ctrl_types.specs.Statements.{is_above};
ghost use Rattle.ctrl_types.specs.Denominators.{IsScale, with_numbers};
ghost use Rattle.ctrl_types.specs.Resolving.{Answers, AnswersLeaving, AreReadable, bound_by, condition_by, demand, guard_by, is_filled, set_by, set_mixes, state_by, surveyed};
ghost use Rattle.ctrl_types.specs.Scopes.{IsScope};

use crate::breaches::{Breach, ResolveStop};
use crate::controllers::{Kind, State};
use crate::expressions::{Lin, Source};
use crate::gates::Gate;
use crate::guards::gate;
use crate::names::{Scope, is_reserved, state_named};
use crate::sums::{has_kind, kind_of_state, lin, lin_has, with_lin, with_number};
use crate::surveys::{Survey, Totals};
use ctrl_syntax::{Cond, Expr, Num, SetLine, StateLine};
use sqlite_items::Items;
use std::alloc::Global;

/// Refuses a line that breaks the rule.
fn demand(broken: bool, breach: Breach) -> Result<(), Breach>
    ensures { result ≡ demand broken breach }
{
    if broken { Err(breach) } else { Ok(()) }
}

/// Whether the first number is greater.
#[tactic(auto, using(whole::proofs::Overflow::signed), unfolding(crate::specs::Statements::is_above))]
fn is_above(first: Num, second: Num) -> bool
    requires first_in { IsNum first }
    requires second_in { IsNum second }
    ensures { result ≡ is_above first second }
{
    first.num * second.den > second.num * first.den
}

/// The least common multiple with the denominators of two numbers more.
#[tactic(auto, unfolding(crate::specs::Denominators::with_numbers))]
fn with_bounds(den: u32, state: &StateLine) -> Option<u32>
    requires den_in { IsScale den }
    requires state_in { IsStateLine state.now }
    ensures exact { result ≡ with_numbers (Some den) (state.now.lo ∷ state.now.hi ∷ []) }
    ensures within { IfSome result IsScale }
{
    with_number(with_number(Some(den), state.lo), state.hi)
}

/// A state, behind the earlier ones.
#[tactic(auto, unfolding(crate::specs::Resolving::state_by))]
pub(crate) fn state(
    alloc: Global,
    is_taken: bool,
    line: &StateLine,
    den: &mut u32,
) -> Result<State, ResolveStop>
    requires line_in { IsStateLine line.now }
    requires den_in { IsScale den.old }
    ensures exact { AnswersLeaving (λ x. x) result den.new (state_by is_taken line.now den.old) }
    ensures within { IsScale den.new }
{
    let word = line.name.as_slice();
    demand(is_reserved(word) || is_taken, Breach::Reserved)?;
    demand(is_above(line.lo, line.hi), Breach::Bounds)?;
    *den = with_bounds(*den, line).ok_or(Breach::Denominators)?;
    Ok(State {
        name: Items::from_slice(alloc, word)?,
        kind: kind_of_state(line),
        lo: line.lo,
        hi: line.hi,
    })
}

/// Whether the kinds of an assignment's target and of its expression's names differ.
#[tactic(auto, unfolding(crate::specs::Resolving::set_mixes))]
fn set_mixes(states: &[StateLine], number: u32, lin: &Lin) -> bool
    ensures { result ≡ set_mixes states.now number lin.now }
{
    let target = Source::State(number);
    (has_kind(states, Kind::Amount, target) || lin_has(states, Kind::Amount, lin))
        && (has_kind(states, Kind::Count, target) || lin_has(states, Kind::Count, lin))
}

/// Whether the place of this state has an expression.
fn is_filled(places: &Items<Option<Lin>>, number: u32) -> bool
    ensures { result ≡ is_filled (slice_get places.now number) }
{
    match places.get(number as usize) {
        Some(place) => place.is_some(),
        None => false,
    }
}

/// An assignment, which fills its state's place.
#[tactic(auto, unfolding(crate::specs::Resolving::set_by))]
pub(crate) fn set(
    alloc: Global,
    scope: &Scope<'_>,
    line: &SetLine,
    places: &mut Items<Option<Lin>>,
    den: &mut u32,
) -> Result<(), ResolveStop>
    requires scope_in { IsScope scope.now }
    requires line_in { IsSetLine line.now }
    requires places_are { length places.old ≡ length scope.now.states.now }
    requires den_in { IsScale den.old }
    ensures exact { Answers (λ _. (places.new, den.new)) result (set_by scope.now.states.now line.now places.old den.old) }
    ensures places_stay { length places.new ≡ length places.old }
    ensures within { IsScale den.new }
{
    let number = state_named(scope, line.name.as_slice()).ok_or(Breach::Unknown)?;
    let lin = lin(alloc, scope, true, &line.expr)?;
    demand(set_mixes(scope.states, number, &lin), Breach::Kinds)?;
    demand(is_filled(places, number), Breach::Twice)?;
    *den = with_lin(Some(*den), &lin).ok_or(Breach::Denominators)?;
    places.set(number as usize, Some(lin));
    Ok(())
}

/// What a guard leaves, if nothing is wrong in it.
#[tactic(auto, unfolding(crate::specs::Resolving::surveyed))]
fn surveyed(seen: Survey) -> Result<Totals, Breach>
    requires den_in { IfSome seen.den IsScale }
    ensures exact { result ≡ surveyed seen }
    ensures within { IfOk result (λ totals. IsScale totals.den) }
{
    demand(seen.mixed, Breach::Kinds)?;
    demand(seen.unfit, Breach::Delay)?;
    Ok(Totals {
        delay_max: seen.delay_max,
        den: seen.den.ok_or(Breach::Denominators)?,
    })
}

/// A guard that is a condition.
#[tactic(auto, unfolding(crate::specs::Resolving::condition_by))]
fn condition(
    alloc: Global,
    scope: &Scope<'_>,
    condition: &Cond,
    totals: &mut Totals,
) -> Result<Gate, ResolveStop>
    requires scope_in { IsScope scope.now }
    requires condition_in { AreReadable (condition_of condition.now) }
    requires totals_in { IsScale totals.old.den }
    ensures exact { AnswersLeaving test_of result totals.new (condition_by scope.now.states.now (condition_of condition.now) totals.old) }
    ensures within { IsScale totals.new.den }
{
    let mut seen = Survey {
        mixed: false,
        unfit: false,
        delay_max: totals.delay_max,
        den: Some(totals.den),
    };
    let gate = gate(alloc, scope, condition, &mut seen)?;
    *totals = surveyed(seen)?;
    Ok(gate)
}

/// A rule's guard. The last rule alone has none.
#[tactic(auto, unfolding(crate::specs::Resolving::guard_by))]
pub(crate) fn guard(
    alloc: Global,
    scope: &Scope<'_>,
    is_last: bool,
    guard: &Option<Cond>,
    totals: &mut Totals,
) -> Result<Gate, ResolveStop>
    requires scope_in { IsScope scope.now }
    requires guard_in { IsGuard guard.now }
    requires totals_in { IsScale totals.old.den }
    ensures exact { AnswersLeaving test_of result totals.new (guard_by scope.now.states.now is_last (guard_of guard.now) totals.old) }
    ensures within { IsScale totals.new.den }
{
    match guard {
        Some(written) => condition(alloc, scope, written, totals),
        None => {
            demand(!is_last, Breach::Otherwise)?;
            Ok(Gate::True)
        }
    }
}

/// The window or the rate. `unended` says, at the window, that the last rule is no `otherwise`.
#[tactic(auto, unfolding(crate::specs::Resolving::bound_by))]
pub(crate) fn bound(
    alloc: Global,
    scope: &Scope<'_>,
    unended: bool,
    expr: &Expr,
    den: &mut u32,
) -> Result<Lin, ResolveStop>
    requires scope_in { IsScope scope.now }
    requires expr_in { IsExpr expr.now }
    requires den_in { IsScale den.old }
    ensures exact { AnswersLeaving (λ x. x) result den.new (bound_by scope.now.states.now unended expr.now den.old) }
    ensures within { IsScale den.new }
{
    let lin = lin(alloc, scope, false, expr)?;
    let counts = lin_has(scope.states, Kind::Count, &lin);
    demand(
        counts && lin_has(scope.states, Kind::Amount, &lin),
        Breach::Kinds,
    )?;
    demand(unended, Breach::Otherwise)?;
    *den = with_lin(Some(*den), &lin).ok_or(Breach::Denominators)?;
    demand(counts, Breach::Count)?;
    Ok(lin)
}

//! Expressions with their names replaced, and the kinds of what they are made of.
ghost use Rattle.std.specs.Prelude.{◌≡◌, All, IfOk, IfSome};
ghost use Rattle.weighing.specs.Scaled.{IsNum};
ghost use Rattle.ctrl_syntax.specs.Limits.{IsPlainTerm};
ghost use Rattle.ctrl_types.specs.declared.breaches.Breach.TheVariants.{Unknown};
ghost use Rattle.ctrl_types.specs.Names.{is_kind, kind_of, kind_of_state, lin_of};
ghost use Rattle.ctrl_types.specs.Scopes.{IsScope};
ghost use Rattle.ctrl_types.specs.Denominators.{IsScale, joined, with_number};
ghost use Rattle.ctrl_types.specs.Resolving.{Answers, wanted, lin_has, lins_mix, with_lin};

use crate::breaches::{Breach, ResolveStop};
use crate::controllers::Kind;
use crate::expressions::{Lin, LinTerm, Source};
use crate::names::{Scope, source_of};
use ctrl_syntax::{Expr, Num, StateLine};
use sqlite_items::Items;
use std::alloc::Global;
use whole::lcm;

/// The greatest least common multiple of denominators.
const MOST_DEN: i128 = 1_000_000;

/// The expression that is meant.
pub(crate) fn lin(
    alloc: Global,
    scope: &Scope<'_>,
    signals: bool,
    expr: &Expr,
) -> Result<Lin, ResolveStop>
    requires scope_in { IsScope scope.now }
    requires expr_in { All IsPlainTerm expr.now.terms }
    ensures exact { Answers (λ x. x) result (wanted (lin_of scope.now.states.now signals expr.now) Unknown) }
    ensures within { IfOk result (λ lin. All (λ t. IsNum t.coef) lin.terms) }
{
    let mut terms = Items::new(alloc);
    for term in expr.terms.as_slice() {
        let of = source_of(scope, signals, &term.name).ok_or(Breach::Unknown)?;
        terms.push(LinTerm {
            coef: term.coef,
            of,
        })?;
    }
    Ok(Lin { terms })
}

pub(crate) fn kind_of_state(state: &StateLine) -> Kind
    ensures { result ≡ kind_of_state state.now }
{
    if state.count {
        Kind::Count
    } else {
        Kind::Amount
    }
}

/// The kind of what is measured; a constant has none.
#[tactic(auto, unfolding(crate::specs::Names::kind_of))]
fn kind_of(states: &[StateLine], of: Source) -> Option<Kind>
    ensures { result ≡ kind_of states.now of }
{
    match of {
        Source::One => None,
        Source::State(number) => match states.get(number as usize) {
            Some(state) => Some(kind_of_state(state)),
            None => None,
        },
        Source::Acked | Source::Lost => Some(Kind::Amount),
    }
}

/// Whether what is measured has this kind.
pub(crate) fn has_kind(states: &[StateLine], kind: Kind, of: Source) -> bool
    ensures { result ≡ is_kind kind (kind_of states.now of) }
{
    match kind_of(states, of) {
        Some(Kind::Amount) => kind == Kind::Amount,
        Some(Kind::Count) => kind == Kind::Count,
        None => false,
    }
}

/// Whether a name of this kind stands in the expression.
#[tactic(auto, unfolding(crate::specs::Resolving::lin_has))]
pub(crate) fn lin_has(states: &[StateLine], kind: Kind, lin: &Lin) -> bool
    ensures { result ≡ lin_has states.now kind lin.now }
{
    for term in lin.terms.as_slice() {
        if has_kind(states, kind, term.of) {
            return true;
        }
    }
    false
}

/// Whether names of both kinds stand in the two expressions.
#[tactic(auto, unfolding(crate::specs::Resolving::lins_mix))]
pub(crate) fn lins_mix(states: &[StateLine], left: &Lin, right: &Lin) -> bool
    ensures { result ≡ lins_mix states.now left.now right.now }
{
    (lin_has(states, Kind::Amount, left) || lin_has(states, Kind::Amount, right))
        && (lin_has(states, Kind::Count, left) || lin_has(states, Kind::Count, right))
}

/// The least common multiple of this one and a number's denominator, unless it exceeds the limit.
#[tactic(auto, using(whole::proofs::Overflow::signed))]
fn joined(den: u32, number: Num) -> Option<u32>
    requires den_in { IsScale den }
    requires number_in { IsNum number }
    ensures exact { result ≡ joined den number }
    ensures within { IfSome result IsScale }
{
    match lcm(i128::from(den), number.den) {
        Some(common) => {
            if common <= MOST_DEN {
                Some(common as u32)
            } else {
                None
            }
        }
        None => None,
    }
}

/// The same, of one that may have passed the limit already.
#[tactic(auto, unfolding(crate::specs::Denominators::with_number))]
pub fn with_number(den: Option<u32>, number: Num) -> Option<u32>
    requires den_in { IfSome den IsScale }
    requires number_in { IsNum number }
    ensures exact { result ≡ with_number den number }
    ensures within { IfSome result IsScale }
{
    match den {
        Some(den) => joined(den, number),
        None => None,
    }
}

/// The least common multiple with an expression's denominators.
#[tactic(auto, unfolding(crate::specs::Resolving::with_lin))]
pub(crate) fn with_lin(den: Option<u32>, lin: &Lin) -> Option<u32>
    requires den_in { IfSome den IsScale }
    requires lin_in { All (λ t. IsNum t.coef) lin.now.terms }
    ensures exact { result ≡ with_lin den lin.now }
    ensures within { IfSome result IsScale }
{
    let mut common = den;
    for term in lin.terms.as_slice() {
        common = with_number(common, term.coef);
    }
    common
}

//! The kinds of what stands in a condition.
ghost use Rattle.std.specs.Prelude.{◌≡◌, map};
ghost use Rattle.std.specs.List.{list_any};
ghost use Rattle.ctrl_types.specs.Names.{is_kind};
ghost use Rattle.question_text.specs.Conditions.{condition_of};
ghost use Rattle.question_text.specs.StatementRules.{kind_of};
ghost use Rattle.question_text.specs.Resolution.{lin_has, lins_mix, mixes};

use crate::conditions::{Of, QCond, QLin};
use ctrl_types::{Kind, State};

/// The kind of what is measured; a constant has none.
#[tactic(auto, unfolding(crate::specs::StatementRules::kind_of))]
fn kind_of(states: &[State], of: Of) -> Option<Kind>
    ensures { result ≡ kind_of states.now of }
{
    match of {
        Of::One => None,
        Of::Credit | Of::W(_) | Of::A(..) | Of::S(..) | Of::L(..) => Some(Kind::Amount),
        Of::X(state, _, _) => match states.get(state as usize) {
            Some(state) => Some(state.kind),
            None => None,
        },
    }
}

fn has_kind(states: &[State], kind: Kind, of: Of) -> bool
    ensures { result ≡ is_kind kind (kind_of states.now of) }
{
    match kind_of(states, of) {
        Some(Kind::Amount) => kind == Kind::Amount,
        Some(Kind::Count) => kind == Kind::Count,
        None => false,
    }
}

/// Whether something of this kind stands in the expression.
#[tactic(auto, unfolding(crate::specs::Resolution::lin_has))]
fn lin_has(states: &[State], kind: Kind, lin: &QLin) -> bool
    ensures { result ≡ lin_has states.now kind lin.now }
{
    for term in lin.terms.as_slice() {
        if has_kind(states, kind, term.of) {
            return true;
        }
    }
    false
}

/// Whether both kinds stand in the two expressions.
#[tactic(auto, unfolding(crate::specs::Resolution::lins_mix))]
fn lins_mix(states: &[State], left: &QLin, right: &QLin) -> bool
    ensures { result ≡ lins_mix states.now left.now right.now }
{
    (lin_has(states, Kind::Amount, left) || lin_has(states, Kind::Amount, right))
        && (lin_has(states, Kind::Count, left) || lin_has(states, Kind::Count, right))
}

/// Whether both kinds stand in one comparison of the condition.
#[cycle(kinds)]
#[tactic(auto, unfolding(crate::specs::Resolution::mixes))]
pub(crate) fn mixes(states: &[State], condition: &QCond) -> bool
    ensures { result ≡ mixes states.now (condition_of condition.now) }
{
    match condition {
        QCond::True => false,
        QCond::False => false,
        QCond::Cmp(left, _, right) => lins_mix(states, left, right),
        QCond::Not(part) => mixes(states, part),
        QCond::And(parts) => one_mixes(states, parts),
        QCond::Or(parts) => one_mixes(states, parts),
    }
}

/// Whether they do in one of the parts.
#[cycle(kinds)]
fn one_mixes(states: &[State], parts: &Vec<QCond>) -> bool
    ensures { result ≡ list_any (mixes states.now) (map condition_of parts.now.items) }
{
    for part in parts {
        if mixes(states, part) {
            return true;
        }
    }
    false
}

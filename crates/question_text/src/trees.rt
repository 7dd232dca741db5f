//! Conditions with their names replaced.
ghost use Rattle.std.specs.Prelude.{◌≡◌, ◌≤◌, length, map};
ghost use Rattle.condition_syntax.specs.Trees as written;
ghost use Rattle.ctrl_syntax.specs.Views.{GivesSeenUnless};
ghost use Rattle.question_text.specs.Conditions.{condition_of};
ghost use Rattle.question_text.specs.NamedValues.{each_found, lin_meant};
ghost use Rattle.question_text.specs.StatementRules.{meant};
ghost use Rattle.question_text.specs.Resolution.{wanted};

use crate::conditions::{QCond, QLin, QTerm};
use crate::naming::of_written;
use crate::refusals::refusal;
use ctrl_syntax::{Cond, Expr, Rel5};
use ctrl_types::State;
use path_server::Setting;
use sqlite_items::Items;
use std::alloc::Global;
use whole::ReadFault;

/// The expression with its names replaced.
fn lin(
    alloc: Global,
    states: &[State],
    setting: &Setting,
    expr: &Expr,
    line: u32,
) -> Result<QLin, ReadFault>
    requires { length states.now ≤ 8 }
    ensures { GivesSeenUnless (λ x. x) result (wanted (lin_meant states.now setting.now expr.now) 12 line) }
{
    let mut terms = Items::new(alloc);
    for term in expr.terms.as_slice() {
        let of = match of_written(states, setting, &term.name) {
            Some(of) => of,
            None => return Err(ReadFault::Refused(refusal(12, line))),
        };
        terms.push(QTerm {
            coef: term.coef,
            of,
        })?;
    }
    Ok(QLin { terms })
}

/// The comparison with its names replaced.
#[tactic(auto, unfolding(crate::specs::StatementRules::meant))]
fn comparison(
    alloc: Global,
    states: &[State],
    setting: &Setting,
    left: &Expr,
    rel: Rel5,
    right: &Expr,
    line: u32,
) -> Result<QCond, ReadFault>
    requires { length states.now ≤ 8 }
    ensures { GivesSeenUnless condition_of result (wanted (meant states.now setting.now (written.comparison left.now rel right.now)) 12 line) }
{
    let left = lin(alloc, states, setting, left, line)?;
    let right = lin(alloc, states, setting, right, line)?;
    Ok(QCond::Cmp(left, rel, right))
}

/// The condition with its names replaced.
#[cycle(resolved)]
#[tactic(auto, unfolding(crate::specs::StatementRules::meant))]
pub(crate) fn condition(
    alloc: Global,
    states: &[State],
    setting: &Setting,
    cond: &Cond,
    line: u32,
) -> Result<QCond, ReadFault>
    requires { length states.now ≤ 8 }
    ensures { GivesSeenUnless condition_of result (wanted (meant states.now setting.now (written.condition_of cond.now)) 12 line) }
{
    match cond {
        Cond::True => Ok(QCond::True),
        Cond::False => Ok(QCond::False),
        Cond::Cmp(left, rel, right) => {
            comparison(alloc, states, setting, left, *rel, right, line)
        }
        // No question's text has a test of delay.
        Cond::Delay(_) => Err(ReadFault::Refused(refusal(12, line))),
        Cond::Not(part) => {
            let inner = condition(alloc, states, setting, part, line)?;
            Ok(QCond::Not(Box::new(alloc, inner)?))
        }
        Cond::And(parts) => Ok(QCond::And(conditions(alloc, states, setting, parts, line)?)),
        Cond::Or(parts) => Ok(QCond::Or(conditions(alloc, states, setting, parts, line)?)),
    }
}

/// The parts of a condition.
#[cycle(resolved)]
fn conditions(
    alloc: Global,
    states: &[State],
    setting: &Setting,
    parts: &Vec<Cond>,
    line: u32,
) -> Result<Vec<QCond>, ReadFault>
    requires { length states.now ≤ 8 }
    ensures { GivesSeenUnless (λ conds. map condition_of conds.items) result (wanted (each_found (meant states.now setting.now) (map written.condition_of parts.now.items)) 12 line) }
{
    let mut resolved = Vec::new(alloc);
    for part in parts {
        resolved.push(condition(alloc, states, setting, part, line)?)?;
    }
    Ok(resolved)
}

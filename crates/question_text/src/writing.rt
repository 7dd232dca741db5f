//! A question as its text writes it, with canonical names.
ghost use Rattle.std.specs.Prelude.{◌≡◌, IfOk, map};
ghost use Rattle.condition_syntax.specs.Trees.{condition_of as written_of};
ghost use Rattle.question_syntax.specs.Sections.{all_wanted_of, sections_of, wanted_of};
ghost use Rattle.question_text.specs.Conditions.{condition_of};
ghost use Rattle.question_text.specs.NamedValues.{flow_written, lin_written, name_of, own_flow_written, state_text, term_written};
ghost use Rattle.question_text.specs.StatementRules.{question_seen};
ghost use Rattle.question_text.specs.Texts.{condition_written, sections_written, wanted_written};

use crate::conditions::{Of, QCond, QLin, QTerm};
use crate::questions::Question;
use ctrl_syntax::{Cond, ETerm, Expr, Name};
use ctrl_types::State;
use path_server::Setting;
use question_syntax::{ConditionLine, QuestionSyntax};
use sqlite_items::Items;
use std::alloc::{AllocError, Global};

/// A name of these parts.
fn named(
    alloc: Global,
    text: &[u8],
    flow: Option<u32>,
    step: Option<u32>,
) -> Result<Name, AllocError>
    ensures { IfOk result (λ name. name ≡ record { text = text.now; flow = flow; step = step }) }
{
    Ok(Name {
        text: Items::from_slice(alloc, text)?,
        flow,
        step,
    })
}

/// The flow as it is written; the sum over all flows has none.
fn flow_written(flow: u32) -> Option<u32>
    ensures { result ≡ flow_written flow }
{
    if flow == 0 { None } else { Some(flow) }
}

/// The flow of a state as it is written; an only flow isn't.
#[tactic(auto, unfolding(crate::specs::NamedValues::own_flow_written))]
fn own_flow_written(setting: &Setting, flow: u32) -> Option<u32>
    ensures { result ≡ own_flow_written setting.now flow }
{
    if setting.flows == 1 { None } else { Some(flow) }
}

/// The name of a state.
#[tactic(auto, unfolding(crate::specs::NamedValues::state_text))]
fn state_text(states: &[State], number: u32) -> &[u8]
    ensures { result.now ≡ state_text states.now number }
{
    match states.get(number as usize) {
        Some(state) => state.name.as_slice(),
        None => b"".as_slice(),
    }
}

/// The canonical name of what a term is a multiple of; a constant has none.
#[tactic(auto, unfolding(crate::specs::NamedValues::name_of))]
fn name_of(
    alloc: Global,
    states: &[State],
    setting: &Setting,
    of: Of,
) -> Result<Option<Name>, AllocError>
    ensures { IfOk result (λ name. name ≡ name_of states.now setting.now of) }
{
    let name = match of {
        Of::One => return Ok(None),
        Of::Credit => named(alloc, b"credit", None, None)?,
        Of::W(step) => named(alloc, b"W", None, Some(step))?,
        Of::A(flow, step) => named(alloc, b"A", flow_written(flow), Some(step))?,
        Of::S(flow, step) => named(alloc, b"S", flow_written(flow), Some(step))?,
        Of::L(flow, step) => named(alloc, b"L", flow_written(flow), Some(step))?,
        Of::X(state, flow, step) => {
            let flow = own_flow_written(setting, flow);
            named(alloc, state_text(states, state), flow, Some(step))?
        }
    };
    Ok(Some(name))
}

#[tactic(auto, unfolding(crate::specs::NamedValues::term_written))]
fn term(
    alloc: Global,
    states: &[State],
    setting: &Setting,
    term: QTerm,
) -> Result<ETerm, AllocError>
    ensures { IfOk result (λ written. written ≡ term_written states.now setting.now term) }
{
    Ok(ETerm {
        coef: term.coef,
        name: name_of(alloc, states, setting, term.of)?,
    })
}

/// The expression with canonical names.
#[tactic(auto, unfolding(crate::specs::NamedValues::lin_written))]
fn lin(alloc: Global, states: &[State], setting: &Setting, lin: &QLin) -> Result<Expr, AllocError>
    ensures { IfOk result (λ expr. expr ≡ lin_written states.now setting.now lin.now) }
{
    let mut terms = Items::new(alloc);
    for part in lin.terms.as_slice() {
        terms.push(term(alloc, states, setting, *part)?)?;
    }
    Ok(Expr { terms })
}

/// The condition with canonical names.
#[cycle(written)]
#[tactic(auto, unfolding(crate::specs::Texts::condition_written))]
fn condition(
    alloc: Global,
    states: &[State],
    setting: &Setting,
    cond: &QCond,
) -> Result<Cond, AllocError>
    ensures { IfOk result (λ written. written_of written ≡ condition_written states.now setting.now (condition_of cond.now)) }
{
    match cond {
        QCond::True => Ok(Cond::True),
        QCond::False => Ok(Cond::False),
        QCond::Cmp(left, rel, right) => {
            let left = lin(alloc, states, setting, left)?;
            let right = lin(alloc, states, setting, right)?;
            Ok(Cond::Cmp(left, *rel, right))
        }
        QCond::Not(part) => {
            let inner = condition(alloc, states, setting, part)?;
            Ok(Cond::Not(Box::new(alloc, inner)?))
        }
        QCond::And(parts) => Ok(Cond::And(conditions(alloc, states, setting, parts)?)),
        QCond::Or(parts) => Ok(Cond::Or(conditions(alloc, states, setting, parts)?)),
    }
}

/// The parts of a condition.
#[cycle(written)]
fn conditions(
    alloc: Global,
    states: &[State],
    setting: &Setting,
    parts: &Vec<QCond>,
) -> Result<Vec<Cond>, AllocError>
    ensures { IfOk result (λ conds. map written_of conds.items ≡ map (condition_written states.now setting.now) (map condition_of parts.now.items)) }
{
    let mut written = Vec::new(alloc);
    for part in parts {
        written.push(condition(alloc, states, setting, part)?)?;
    }
    Ok(written)
}

/// The line of a condition, which has no number yet.
fn line(
    alloc: Global,
    states: &[State],
    setting: &Setting,
    cond: &QCond,
) -> Result<ConditionLine, AllocError>
    ensures { IfOk result (λ line. wanted_of line ≡ wanted_written states.now setting.now (condition_of cond.now)) }
{
    Ok(ConditionLine {
        cond: condition(alloc, states, setting, cond)?,
        line: 0,
    })
}

fn lines(
    alloc: Global,
    states: &[State],
    setting: &Setting,
    conds: &[QCond],
) -> Result<Items<ConditionLine>, AllocError>
    ensures { IfOk result (λ lines. all_wanted_of lines ≡ map (wanted_written states.now setting.now) (map condition_of conds.now)) }
{
    let mut written = Items::new(alloc);
    for cond in conds {
        written.push(line(alloc, states, setting, cond)?)?;
    }
    Ok(written)
}

/// The syntax of the question, whose lines have no numbers yet.
#[tactic(auto, unfolding(crate::specs::Texts::sections_written))]
pub(crate) fn written(
    alloc: Global,
    question: &Question,
    states: &[State],
) -> Result<QuestionSyntax, AllocError>
    ensures { IfOk result (λ syntax. sections_of syntax ≡ sections_written states.now (question_seen question.now)) }
{
    let setting = &question.setting;
    Ok(QuestionSyntax {
        setting: *setting,
        rate_line: 0,
        buffer_line: 0,
        assumes: lines(alloc, states, setting, question.assumes.as_slice())?,
        require: line(alloc, states, setting, &question.require)?,
    })
}

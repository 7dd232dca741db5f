//! The lines of a controller's text, section by section.
ghost use Rattle.std.specs.Prelude.{◌≡◌, suc, [], ◌∷◌, codes, length, IfOk, MatchResult, Ok, Err};
ghost use Rattle.text_lines.specs.Steps.{Gives, GivesRestUnless};
ghost use Rattle.condition_syntax.specs.RefusalRules.{GivesRead};
ghost use Rattle.ctrl_syntax.specs.Views.{GivesSeenUnless};
ghost use Rattle.ctrl_syntax.specs.Sections.{guard_of, rule_of, rules_of, sections_of};
ghost use Rattle.ctrl_syntax.specs.Reading.{refusal, state_at, head_at, set_at, titled_at, end_at, line_by, titled_by, many_by, sets_by, rule_by, rate_by, nothing_left, sections_by};

use crate::lines::{end_of, head_of, set_of, state_of, titled_of};
use crate::refusals::refusal;
use crate::rest::Rest;
use crate::syntax::{RateLine, RuleLine, SetLine, StateLine, Syntax};
use condition_syntax::Cond;
use source_text::Cursor;
use sqlite_items::Items;
use std::alloc::Global;
use whole::{ReadFault, Refusal};

/// The greatest number of states.
const STATE_LIMIT: usize = 8;
/// The greatest number of rules.
const RULE_LIMIT: usize = 16;

/// Takes the next line. Where no line is left, `end` is missing.
fn take_line<'a>(rest: &mut Rest<'a>) -> Result<Cursor<'a>, Refusal>
    ensures taken { MatchResult result
        (λ cursor. rest.old.lines ≡ cursor ∷ rest.new.lines)
        (λ fault. (rest.old.lines ≡ []) × (fault ≡ refusal 14 rest.old.end)) }
    ensures end { rest.new.end ≡ rest.old.end }
{
    let number = rest.number();
    rest.take().ok_or(refusal(14, number))
}

#[tactic(auto, unfolding(crate::specs::Reading::line_by))]
fn state_line(alloc: Global, rest: &mut Rest<'_>) -> Result<StateLine, ReadFault>
    ensures { GivesRestUnless result rest.new (line_by state_at rest.old) }
{
    let cursor = take_line(rest)?;
    state_of(alloc, cursor)
}

#[tactic(auto, unfolding(crate::specs::Reading::line_by))]
fn head_line(alloc: Global, rest: &mut Rest<'_>) -> Result<(Option<Cond>, u32), ReadFault>
    ensures { GivesRead (λ head. (guard_of head.0, head.1)) result rest.new (line_by head_at rest.old) }
{
    let cursor = take_line(rest)?;
    head_of(alloc, cursor)
}

#[tactic(auto, unfolding(crate::specs::Reading::line_by))]
fn set_line(alloc: Global, rest: &mut Rest<'_>) -> Result<SetLine, ReadFault>
    ensures exact { GivesRestUnless result rest.new (line_by set_at rest.old) }
    ensures shorter { IfOk result (λ _. length rest.old.lines ≡ suc (length rest.new.lines)) }
{
    let cursor = take_line(rest)?;
    set_of(alloc, cursor)
}

/// The next line, which has to begin with `window` or `rate`.
#[tactic(auto, unfolding(crate::specs::Reading::titled_by, crate::specs::Reading::line_by))]
fn titled_line(alloc: Global, rest: &mut Rest<'_>, title: &[u8]) -> Result<RateLine, ReadFault>
    ensures { GivesRestUnless result rest.new (titled_by title.now titled_at rest.old) }
{
    if !rest.begins_with(title) {
        return Err(ReadFault::Refused(rest.stray()));
    }
    let cursor = take_line(rest)?;
    titled_of(alloc, cursor)
}

#[tactic(auto, unfolding(crate::specs::Reading::titled_by, crate::specs::Reading::line_by))]
fn end_line(rest: &mut Rest<'_>) -> Result<(), Refusal>
    ensures { Gives result rest.new (titled_by (codes "end") end_at rest.old) }
{
    if !rest.begins_with(b"end") {
        return Err(rest.stray());
    }
    let cursor = take_line(rest)?;
    end_of(cursor)
}

fn states(alloc: Global, rest: &mut Rest<'_>) -> Result<Items<StateLine>, ReadFault>
    ensures { GivesRestUnless result rest.new (many_by (codes "state") (line_by state_at) 8 rest.old) }
{
    let mut states = Items::new(alloc);
    while rest.begins_with(b"state") {
        if states.len() == STATE_LIMIT {
            return Err(ReadFault::Refused(refusal(11, rest.number())));
        }
        let state = state_line(alloc, rest)?;
        states.push(state)?;
    }
    Ok(states)
}

/// The assignments of a rule.
#[tactic(auto, unfolding(crate::specs::Reading::sets_by))]
fn sets(alloc: Global, rest: &mut Rest<'_>) -> Result<Items<SetLine>, ReadFault>
    ensures { GivesRestUnless result rest.new (sets_by rest.old) }
{
    let mut sets = Items::new(alloc);
    while rest.begins_with(b"set") {
        let set = set_line(alloc, rest)?;
        sets.push(set)?;
    }
    Ok(sets)
}

/// A rule's line and its assignments.
#[tactic(auto, unfolding(crate::specs::Reading::rule_by))]
fn rule(alloc: Global, rest: &mut Rest<'_>) -> Result<RuleLine, ReadFault>
    ensures { GivesRead rule_of result rest.new (rule_by rest.old) }
{
    let (guard, line) = head_line(alloc, rest)?;
    let sets = sets(alloc, rest)?;
    Ok(RuleLine { guard, sets, line })
}

fn rules(alloc: Global, rest: &mut Rest<'_>) -> Result<Items<RuleLine>, ReadFault>
    ensures { GivesRead rules_of result rest.new (many_by (codes "rule") rule_by 16 rest.old) }
{
    let mut rules = Items::new(alloc);
    while rest.begins_with(b"rule") {
        if rules.len() == RULE_LIMIT {
            return Err(ReadFault::Refused(refusal(11, rest.number())));
        }
        let rule = rule(alloc, rest)?;
        rules.push(rule)?;
    }
    Ok(rules)
}

#[tactic(auto, unfolding(crate::specs::Reading::rate_by, crate::specs::Reading::titled_by))]
fn rate(alloc: Global, rest: &mut Rest<'_>) -> Result<Option<RateLine>, ReadFault>
    ensures { GivesRestUnless result rest.new (rate_by rest.old) }
{
    if !rest.begins_with(b"rate") {
        return Ok(None);
    }
    Ok(Some(titled_line(alloc, rest, b"rate")?))
}

/// That nothing but skipped lines is left.
#[tactic(auto, unfolding(crate::specs::Reading::nothing_left))]
fn nothing_left(rest: &mut Rest<'_>) -> Result<(), Refusal>
    ensures { result ≡ nothing_left rest.old }
{
    match rest.take() {
        None => Ok(()),
        Some(cursor) => Err(refusal(13, cursor.number())),
    }
}

/// The lines behind the header.
#[tactic(auto, unfolding(crate::specs::Reading::sections_by))]
pub(crate) fn sections(alloc: Global, rest: &mut Rest<'_>) -> Result<Syntax, ReadFault>
    ensures { GivesSeenUnless sections_of result (sections_by rest.old) }
{
    let states = states(alloc, rest)?;
    let rules = rules(alloc, rest)?;
    let window = titled_line(alloc, rest, b"window")?;
    let rate = rate(alloc, rest)?;
    end_line(rest)?;
    nothing_left(rest)?;
    Ok(Syntax {
        states,
        rules,
        window: window.expr,
        window_line: window.line,
        rate,
    })
}

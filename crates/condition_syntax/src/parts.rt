//! Conditions, read from the left. A part nests at most `room` levels of `not` and brackets, so that the recursion is
//! no deeper; chains of parts are loops. `begun` counts the comparisons of the condition.
ghost use Rattle.std.specs.Prelude.{◌≡◌, ◌+◌, suc, length, map, codes};
ghost use Rattle.condition_syntax.specs.Halts.{GivesSeen};
ghost use Rattle.condition_syntax.specs.Trees.{condition_of, conjoined, disjoined};
ghost use Rattle.condition_syntax.specs.Conditions.{pending, opening_of, chain_by, conjunction_by, joined_by, opposite_by, bracketed_by, part_by, condition_within};

use crate::comparisons::{comparison, delay, sign};
use crate::conditions::{Cond, Style};
use crate::faults::{Fault, ReadStop};
use crate::fronts::{says, stands};
use crate::openings::Opening;
use source_text::{Cursor, Sign};
use std::alloc::Global;

/// What the first token opens.
#[tactic(auto, unfolding(crate::specs::Conditions::opening_of))]
fn opening(cursor: &Cursor<'_>, style: Style) -> Opening
    ensures { result ≡ opening_of style cursor.now.tokens }
{
    if stands(cursor, Sign::Open) {
        Opening::Bracket
    } else if says(cursor, b"not") {
        Opening::Not
    } else if says(cursor, b"true") {
        Opening::True
    } else if says(cursor, b"false") {
        Opening::False
    } else if style == Style::Controller && says(cursor, b"delay") {
        Opening::Delay
    } else {
        Opening::Comparison
    }
}

/// The parts as one condition; one alone is the whole.
fn all_of(mut parts: Vec<Cond>) -> Cond
    ensures { condition_of result ≡ conjoined (map condition_of parts.items) }
{
    if parts.len() == 1 {
        if let Some(part) = parts.pop() {
            return part;
        }
    }
    Cond::And(parts)
}

/// The same of a disjunction.
fn any_of(mut parts: Vec<Cond>) -> Cond
    ensures { condition_of result ≡ disjoined (map condition_of parts.items) }
{
    if parts.len() == 1 {
        if let Some(part) = parts.pop() {
            return part;
        }
    }
    Cond::Or(parts)
}

/// A part of a condition.
#[cycle(conditions)]
fn part(
    alloc: Global,
    cursor: &mut Cursor<'_>,
    style: Style,
    room: u32,
    begun: &mut u32,
) -> Result<Cond, ReadStop>
    ensures exact { GivesSeen condition_of result (pending begun.new cursor.new.tokens) (part_by style room (pending begun.old cursor.old.tokens)) }
    ensures line { cursor.new.line ≡ cursor.old.line }
{
    match opening(cursor, style) {
        Opening::True => {
            cursor.advance();
            Ok(Cond::True)
        }
        Opening::False => {
            cursor.advance();
            Ok(Cond::False)
        }
        Opening::Delay => Ok(delay(cursor, begun)?),
        Opening::Comparison => comparison(alloc, cursor, style, begun),
        Opening::Not => {
            if room == 0 {
                return Err(ReadStop::Fault(Fault::Depth));
            }
            opposite(alloc, cursor, style, room - 1, begun)
        }
        Opening::Bracket => {
            if room == 0 {
                return Err(ReadStop::Fault(Fault::Depth));
            }
            bracketed(alloc, cursor, style, room - 1, begun)
        }
    }
}

/// What `not` is of.
#[cycle(conditions)]
fn opposite(
    alloc: Global,
    cursor: &mut Cursor<'_>,
    style: Style,
    room: u32,
    begun: &mut u32,
) -> Result<Cond, ReadStop>
    ensures exact { GivesSeen condition_of result (pending begun.new cursor.new.tokens) (opposite_by (part_by style room) (pending begun.old cursor.old.tokens)) }
    ensures line { cursor.new.line ≡ cursor.old.line }
{
    cursor.advance();
    let inner = part(alloc, cursor, style, room, begun)?;
    Ok(Cond::Not(Box::new(alloc, inner)?))
}

/// What stands between brackets.
#[cycle(conditions)]
fn bracketed(
    alloc: Global,
    cursor: &mut Cursor<'_>,
    style: Style,
    room: u32,
    begun: &mut u32,
) -> Result<Cond, ReadStop>
    ensures exact { GivesSeen condition_of result (pending begun.new cursor.new.tokens) (bracketed_by (joined_by (part_by style room)) (pending begun.old cursor.old.tokens)) }
    ensures line { cursor.new.line ≡ cursor.old.line }
{
    cursor.advance();
    let whole = condition(alloc, cursor, style, room, begun)?;
    sign(cursor, Sign::Close)?;
    Ok(whole)
}

/// Parts joined by `and`.
#[cycle(conditions)]
fn conjuncts(
    alloc: Global,
    cursor: &mut Cursor<'_>,
    style: Style,
    room: u32,
    begun: &mut u32,
) -> Result<Vec<Cond>, ReadStop>
    ensures exact { GivesSeen (λ parts. map condition_of parts.items) result (pending begun.new cursor.new.tokens)
        (chain_by (codes "and") (part_by style room) (suc (length cursor.old.tokens)) (pending begun.old cursor.old.tokens)) }
    ensures line { cursor.new.line ≡ cursor.old.line }
{
    let mut parts = Vec::new(alloc);
    loop {
        let part = part(alloc, cursor, style, room, begun)?;
        parts.push(part)?;
        if !says(cursor, b"and") {
            return Ok(parts);
        }
        cursor.advance();
    }
}

/// A conjunction.
#[cycle(conditions)]
#[tactic(auto, unfolding(crate::specs::Conditions::conjunction_by))]
fn conjunction(
    alloc: Global,
    cursor: &mut Cursor<'_>,
    style: Style,
    room: u32,
    begun: &mut u32,
) -> Result<Cond, ReadStop>
    ensures exact { GivesSeen condition_of result (pending begun.new cursor.new.tokens) (conjunction_by (part_by style room) (pending begun.old cursor.old.tokens)) }
    ensures line { cursor.new.line ≡ cursor.old.line }
{
    let parts = conjuncts(alloc, cursor, style, room, begun)?;
    Ok(all_of(parts))
}

/// Conjunctions joined by `or`.
#[cycle(conditions)]
fn disjuncts(
    alloc: Global,
    cursor: &mut Cursor<'_>,
    style: Style,
    room: u32,
    begun: &mut u32,
) -> Result<Vec<Cond>, ReadStop>
    ensures exact { GivesSeen (λ parts. map condition_of parts.items) result (pending begun.new cursor.new.tokens)
        (chain_by (codes "or") (conjunction_by (part_by style room)) (suc (length cursor.old.tokens)) (pending begun.old cursor.old.tokens)) }
    ensures line { cursor.new.line ≡ cursor.old.line }
{
    let mut parts = Vec::new(alloc);
    loop {
        let part = conjunction(alloc, cursor, style, room, begun)?;
        parts.push(part)?;
        if !says(cursor, b"or") {
            return Ok(parts);
        }
        cursor.advance();
    }
}

/// A condition.
#[cycle(conditions)]
#[tactic(auto, unfolding(crate::specs::Conditions::joined_by))]
pub(crate) fn condition(
    alloc: Global,
    cursor: &mut Cursor<'_>,
    style: Style,
    room: u32,
    begun: &mut u32,
) -> Result<Cond, ReadStop>
    ensures exact { GivesSeen condition_of result (pending begun.new cursor.new.tokens) (joined_by (part_by style room) (pending begun.old cursor.old.tokens)) }
    ensures line { cursor.new.line ≡ cursor.old.line }
{
    let parts = disjuncts(alloc, cursor, style, room, begun)?;
    Ok(any_of(parts))
}

//! The lines of a controller, each from its front on.
ghost use Rattle.std.specs.Prelude.{◌≡◌, MatchResult, Ok, Err};
ghost use Rattle.text_lines.specs.Steps.{GivesUnless};
ghost use Rattle.condition_syntax.specs.RefusalRules.{GivesRead};
ghost use Rattle.ctrl_syntax.specs.Views.{GivesSeenUnless};
ghost use Rattle.ctrl_syntax.specs.Sections.{guard_of};
ghost use Rattle.ctrl_syntax.specs.Reading.{state_at, guard_at, head_at, set_at, titled_at, end_at};

use crate::parts::{assign, bound, condition, done, expr, kind, name, word};
use crate::refusals::lacks;
use crate::syntax::{RateLine, SetLine, StateLine};
use condition_syntax::{Cond, says};
use source_text::Cursor;
use sqlite_items::Items;
use std::alloc::Global;
use whole::{ReadFault, Refusal};

/// `state NAME data|count init LO HI`
#[tactic(auto, unfolding(crate::specs::Reading::state_at))]
pub(crate) fn state_of(alloc: Global, mut cursor: Cursor<'_>) -> Result<StateLine, ReadFault>
    ensures { GivesUnless result (state_at cursor.entry) }
{
    let line = cursor.number();
    cursor.advance();
    let name = name(&mut cursor, 4)?;
    let count = kind(&mut cursor)?;
    word(&mut cursor, b"init", 4)?;
    let lo = bound(&mut cursor)?;
    let hi = bound(&mut cursor)?;
    done(&cursor)?;
    Ok(StateLine {
        name: Items::from_slice(alloc, name)?,
        count,
        lo,
        hi,
        line,
    })
}

/// What stands behind `rule`.
#[tactic(auto, unfolding(crate::specs::Reading::guard_at))]
fn guard(alloc: Global, cursor: &mut Cursor<'_>) -> Result<Option<Cond>, ReadFault>
    ensures { GivesRead guard_of result cursor.new (guard_at cursor.old) }
{
    if says(cursor, b"when") {
        cursor.advance();
        return Ok(Some(condition(alloc, cursor)?));
    }
    if !says(cursor, b"otherwise") {
        return Err(ReadFault::Refused(lacks(5, cursor)));
    }
    cursor.advance();
    Ok(None)
}

/// A rule's guard, with the number of its line.
#[tactic(auto, unfolding(crate::specs::Reading::head_at))]
pub(crate) fn head_of(
    alloc: Global,
    mut cursor: Cursor<'_>,
) -> Result<(Option<Cond>, u32), ReadFault>
    ensures { GivesSeenUnless (λ head. (guard_of head.0, head.1)) result (head_at cursor.entry) }
{
    let line = cursor.number();
    cursor.advance();
    let guard = guard(alloc, &mut cursor)?;
    done(&cursor)?;
    Ok((guard, line))
}

/// `set NAME = EXPR`
#[tactic(auto, unfolding(crate::specs::Reading::set_at))]
pub(crate) fn set_of(alloc: Global, mut cursor: Cursor<'_>) -> Result<SetLine, ReadFault>
    ensures { GivesUnless result (set_at cursor.entry) }
{
    let line = cursor.number();
    cursor.advance();
    let name = name(&mut cursor, 6)?;
    assign(&mut cursor)?;
    let expr = expr(alloc, &mut cursor)?;
    done(&cursor)?;
    Ok(SetLine {
        name: Items::from_slice(alloc, name)?,
        expr,
        line,
    })
}

/// The expression behind `window` or `rate`.
#[tactic(auto, unfolding(crate::specs::Reading::titled_at))]
pub(crate) fn titled_of(alloc: Global, mut cursor: Cursor<'_>) -> Result<RateLine, ReadFault>
    ensures { GivesUnless result (titled_at cursor.entry) }
{
    let line = cursor.number();
    cursor.advance();
    let expr = expr(alloc, &mut cursor)?;
    done(&cursor)?;
    Ok(RateLine { expr, line })
}

/// `end`
#[tactic(auto, unfolding(crate::specs::Reading::end_at))]
pub(crate) fn end_of(mut cursor: Cursor<'_>) -> Result<(), Refusal>
    ensures { result ≡ end_at cursor.entry }
{
    cursor.advance();
    done(&cursor)
}

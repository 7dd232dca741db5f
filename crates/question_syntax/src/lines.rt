//! The lines of a question's text, one after another.
ghost use Rattle.std.specs.Prelude.{◌≡◌, [], ◌∷◌, codes, IfOk, MatchResult, Ok, Err};
ghost use Rattle.text_lines.specs.Steps.{Gives, GivesRestUnless};
ghost use Rattle.condition_syntax.specs.Fronts.{says};
ghost use Rattle.condition_syntax.specs.RefusalRules.{GivesRead};
ghost use Rattle.ctrl_syntax.specs.Views.{GivesSeenUnless};
ghost use Rattle.ctrl_syntax.specs.Rest.{behind};
ghost use Rattle.question_syntax.specs.Sections.{wanted_of, all_wanted_of, sections_of};
ghost use Rattle.question_syntax.specs.Reading.{refusal, behind_title, count_at, rate_at, buffer_at, nothing_at, titled_by, wanted_by, assumes_by, setting_by, nothing_left, sections_by};

use crate::refusals::{lacks, refusal};
use crate::syntax::{ConditionLine, QuestionSyntax, SettingLines};
use crate::values::{buffer, condition, count, done, rate};
use condition_syntax::says;
use ctrl_syntax::rest::Rest;
use path_server::{Path, Setting};
use source_text::Cursor;
use sqlite_items::Items;
use std::alloc::Global;
use whole::{Pair, ReadFault, Refusal};

/// The greatest number of assumptions.
const ASSUME_LIMIT: usize = 16;

/// Takes the next line, which has to begin with this word, and gives what is behind the word.
#[tactic(auto, unfolding(crate::specs::Reading::behind_title))]
fn titled<'a>(rest: &mut Rest<'a>, title: &[u8]) -> Result<Cursor<'a>, Refusal>
    ensures { Gives result rest.new (behind_title title.now rest.old) }
{
    let end = rest.number();
    let Some(mut cursor) = rest.take() else {
        return Err(refusal(11, end));
    };
    if !says(&cursor, title) {
        return Err(lacks(3, &cursor));
    }
    cursor.advance();
    Ok(cursor)
}

/// A count within a range.
#[tactic(auto, unfolding(crate::specs::Reading::titled_by))]
fn count_line(rest: &mut Rest<'_>, title: &[u8], low: u32, high: u32) -> Result<u32, Refusal>
    ensures { Gives result rest.new (titled_by title.now (count_at low high) rest.old) }
{
    let mut cursor = titled(rest, title)?;
    let count = count(&mut cursor, low, high)?;
    done(&cursor)?;
    Ok(count)
}

#[tactic(auto, unfolding(crate::specs::Reading::titled_by))]
fn path_rate(rest: &mut Rest<'_>) -> Result<Pair, Refusal>
    ensures { Gives result rest.new (titled_by (codes "rate") rate_at rest.old) }
{
    let mut cursor = titled(rest, b"rate")?;
    let rate = rate(&mut cursor)?;
    done(&cursor)?;
    Ok(rate)
}

#[tactic(auto, unfolding(crate::specs::Reading::titled_by))]
fn path_buffer(rest: &mut Rest<'_>) -> Result<Option<Pair>, Refusal>
    ensures { Gives result rest.new (titled_by (codes "buffer") buffer_at rest.old) }
{
    let mut cursor = titled(rest, b"buffer")?;
    let buffer = buffer(&mut cursor)?;
    done(&cursor)?;
    Ok(buffer)
}

/// A condition behind this word.
#[tactic(auto, unfolding(crate::specs::Reading::wanted_by, crate::specs::Reading::titled_by))]
fn condition_line(
    alloc: Global,
    rest: &mut Rest<'_>,
    title: &[u8],
) -> Result<ConditionLine, ReadFault>
    ensures { GivesRead wanted_of result rest.new (wanted_by title.now rest.old) }
{
    let line = rest.number();
    let mut cursor = titled(rest, title)?;
    let cond = condition(alloc, &mut cursor)?;
    done(&cursor)?;
    Ok(ConditionLine { cond, line })
}

#[tactic(auto, unfolding(crate::specs::Reading::titled_by, crate::specs::Reading::nothing_at))]
fn end_line(rest: &mut Rest<'_>) -> Result<(), Refusal>
    ensures { Gives result rest.new (titled_by (codes "end") nothing_at rest.old) }
{
    let cursor = titled(rest, b"end")?;
    done(&cursor)
}

/// The lines in front of the conditions.
#[tactic(auto, unfolding(crate::specs::Reading::setting_by))]
fn setting(rest: &mut Rest<'_>) -> Result<SettingLines, Refusal>
    ensures { Gives result rest.new (setting_by rest.old) }
{
    let flows = count_line(rest, b"flows", 1, 4)?;
    let steps = count_line(rest, b"steps", 1, 32)?;
    let rate_line = rest.number();
    let rate = path_rate(rest)?;
    let jitter = count_line(rest, b"jitter", 0, 8)?;
    let rtt = count_line(rest, b"rtt", 1, 8)?;
    let buffer_line = rest.number();
    let buffer = path_buffer(rest)?;
    let budget = count_line(rest, b"budget", 1, 16_777_216)?;
    Ok(SettingLines {
        setting: Setting {
            flows,
            steps,
            rtt,
            path: Path {
                rate,
                jitter,
                buffer,
            },
            budget: u64::from(budget),
        },
        rate_line,
        buffer_line,
    })
}

fn assumes(alloc: Global, rest: &mut Rest<'_>) -> Result<Items<ConditionLine>, ReadFault>
    ensures { GivesRead all_wanted_of result rest.new (assumes_by rest.old) }
{
    let mut assumes = Items::new(alloc);
    while rest.begins_with(b"assume") {
        if assumes.len() == ASSUME_LIMIT {
            return Err(ReadFault::Refused(refusal(9, rest.number())));
        }
        let assume = condition_line(alloc, rest, b"assume")?;
        assumes.push(assume)?;
    }
    Ok(assumes)
}

/// That nothing but skipped lines is left.
#[tactic(auto, unfolding(crate::specs::Reading::nothing_left))]
fn nothing_left(rest: &mut Rest<'_>) -> Result<(), Refusal>
    ensures { result ≡ nothing_left rest.old }
{
    match rest.take() {
        None => Ok(()),
        Some(cursor) => Err(refusal(10, cursor.number())),
    }
}

/// The lines behind the header.
#[tactic(auto, unfolding(crate::specs::Reading::sections_by))]
pub(crate) fn sections(alloc: Global, rest: &mut Rest<'_>) -> Result<QuestionSyntax, ReadFault>
    ensures { GivesSeenUnless sections_of result (sections_by rest.old) }
{
    let SettingLines {
        setting,
        rate_line,
        buffer_line,
    } = setting(rest)?;
    let assumes = assumes(alloc, rest)?;
    let require = condition_line(alloc, rest, b"require")?;
    end_line(rest)?;
    nothing_left(rest)?;
    Ok(QuestionSyntax {
        setting,
        rate_line,
        buffer_line,
        assumes,
        require,
    })
}

ghost use Rattle.std.specs.Prelude.{◌≡◌, [], IfNone};
ghost use Rattle.ctrl_syntax.specs.Rest.{fronts, first_says, number_of_next};
ghost use Rattle.ctrl_syntax.specs.Taken.{front_then, TakesLine};
ghost use Rattle.ctrl_syntax.specs.Reading.{stray};

use crate::refusals::{lacks, refusal};
use condition_syntax::says;
use source_text::{Cursor, SourceLines};
use std::marker::Model;
use whole::Refusal;

/// What is left of a text: a cursor at the front of its next line, and the lines behind that.
#[derive(Drop)]
pub struct Rest<'a> {
    next: Option<Cursor<'a>>,
    others: SourceLines<'a>,
}

impl<'a> Model for Rest<'a> {
    ghost use Rattle.std.specs.Prelude.{◌≡◌, [], IfNone};
    ghost use Rattle.ctrl_syntax.specs.Rest.{Rest, fronts};
    ghost use Rattle.ctrl_syntax.specs.Taken.{front_then};

    ghost Value = { Rest };

    ghost view = { λ rest. record { lines = front_then rest.next (fronts rest.others.lines); end = rest.others.end } };

    ghost invariant = { λ rest. IfNone rest.next (rest.others.lines ≡ []) };
}

impl<'a> Rest<'a> {
    /// These lines.
    pub fn of(mut lines: SourceLines<'a>) -> Rest<'a>
        ensures { result ≡ record { lines = fronts lines.entry.lines; end = lines.entry.end } }
    {
        let next = next_front(&mut lines);
        Rest {
            next,
            others: lines,
        }
    }

    /// Whether the next line begins with this word.
    pub fn begins_with(&self, word: &[u8]) -> bool
        ensures { result ≡ first_says word.now self.now.lines }
    {
        match &self.next {
            Some(cursor) => says(cursor, word),
            None => false,
        }
    }

    /// The number of the next line; where the text ends, that is the number of lines plus 1.
    pub fn number(&self) -> u32
        ensures { result ≡ number_of_next self.now.lines self.now.end }
    {
        match &self.next {
            Some(cursor) => cursor.number(),
            None => self.others.end_number(),
        }
    }

    /// The refusal where no line word that may stand next stands there.
    pub(crate) fn stray(&self) -> Refusal
        ensures { result ≡ stray self.now.lines self.now.end }
    {
        match &self.next {
            Some(cursor) => lacks(3, cursor),
            None => refusal(14, self.others.end_number()),
        }
    }

    /// Takes the next line.
    pub fn take(&mut self) -> Option<Cursor<'a>>
        ensures taken { TakesLine result self.old.lines self.new.lines }
        ensures end { self.new.end ≡ self.old.end }
    {
        let next = self.next.take()?;
        self.next = next_front(&mut self.others);
        Some(next)
    }
}

#[tactic(auto, unfolding(crate::specs::Rest::fronts))]
fn next_front<'a>(lines: &mut SourceLines<'a>) -> Option<Cursor<'a>>
    ensures taken { fronts lines.old.lines ≡ front_then result (fronts lines.new.lines) }
    ensures none { IfNone result (lines.new.lines ≡ []) }
    ensures end { lines.new.end ≡ lines.old.end }
{
    let line = lines.next_line()?;
    Some(Cursor::new(line.bytes, line.number))
}

ghost use Rattle.std.specs.Prelude.{◌≡◌, ◌<◌, ◌-◌, ◌^◌, [], length};
ghost use Rattle.source_text.specs.Lines.{is_kept, is_skipped, source_lines, end_number};
ghost use Rattle.source_text.specs.Taken.{line_of, Takes, TakesKept};

use crate::all_lines::{AllLines, SourceLine};
use crate::cutting::behind_blanks;
use std::marker::Model;

/// The lines of a text that are left, which contracts see as a list of lines with their numbers, beside the number that
/// the text's end has. Behind line 1 a line is skipped that holds blanks alone or whose first other byte is `#`.
#[derive(Drop)]
pub struct SourceLines<'a> {
    next: Option<SourceLine<'a>>,
    others: AllLines<'a>,
}

impl<'a> Model for SourceLines<'a> {
    ghost use Rattle.std.specs.Prelude.{◌≡◌, [], IfNone};
    ghost use Rattle.source_text.specs.Lines.{Unread};
    ghost use Rattle.source_text.specs.Taken.{found_then};

    ghost Value = { Unread };

    ghost view = { λ source. record { lines = found_then source.next source.others.lines; end = source.others.end } };

    ghost invariant = { λ source. IfNone source.next (source.others.lines ≡ []) };
}

impl<'a> SourceLines<'a> {
    /// The lines of a text.
    #[tactic(auto, unfolding(crate::specs::Lines::source_lines, crate::specs::Lines::end_number))]
    pub fn of(text: &'a [u8]) -> SourceLines<'a>
        requires { length text.now < 2 ^ 32 - 1 }
        ensures { result ≡ record { lines = source_lines text.now; end = end_number text.now } }
    {
        let mut others = AllLines::of(text);
        let next = next_kept(&mut others);
        SourceLines { next, others }
    }

    /// Takes the next line that isn't skipped.
    pub fn next_line(&mut self) -> Option<SourceLine<'a>>
        ensures taken { Takes result self.old.lines self.new.lines }
        ensures end { self.new.end ≡ self.old.end }
    {
        let line = self.next?;
        self.next = next_kept(&mut self.others);
        Some(line)
    }

    /// The number of all lines plus 1, once no line is left: skipped lines count, and so does a last line without LF.
    pub fn end_number(&self) -> u32
        requires { self.now.lines ≡ [] }
        ensures { result ≡ self.now.end }
    {
        self.others.end_number()
    }
}

/// Takes the lines up to the first that isn't skipped.
fn next_kept<'a>(lines: &mut AllLines<'a>) -> Option<SourceLine<'a>>
    ensures taken { TakesKept result lines.old.lines lines.new.lines }
    ensures end { lines.new.end ≡ lines.old.end }
{
    while let Some(line) = lines.take() {
        if is_kept(line) {
            return Some(line);
        }
    }
    None
}

#[tactic(auto, unfolding(crate::specs::Lines::is_kept))]
fn is_kept(line: SourceLine<'_>) -> bool
    ensures { result ≡ is_kept (line_of line.entry) }
{
    line.number == 1 || !is_skipped(line.bytes)
}

#[tactic(auto, unfolding(crate::specs::Lines::is_skipped))]
fn is_skipped(line: &[u8]) -> bool
    ensures { result ≡ is_skipped line.now }
{
    match behind_blanks(line) {
        [] => true,
        [first, ..] => *first == b'#',
    }
}

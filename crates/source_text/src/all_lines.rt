ghost use Rattle.std.specs.Prelude.{◌≡◌, ◌<◌, ◌+◌, ◌-◌, ◌^◌, ◌∷◌, [], length, MatchOption, IfSome};
ghost use Rattle.source_text.specs.Lines.{without_cr, lines_in, numbered};
ghost use Rattle.source_text.specs.Taken.{Takes};

use std::marker::Model;
use text_lines::cut::cut;

/// A line of a text, with its number from 1.
#[derive(Clone, Copy, Debug)]
pub struct SourceLine<'a> {
    pub number: u32,
    /// The line's bytes, without LF.
    pub bytes: &'a [u8],
}

/// All lines of a text that are left.
#[derive(Drop)]
pub(crate) struct AllLines<'a> {
    number: u32,
    rest: &'a [u8],
}

impl<'a> Model for AllLines<'a> {
    ghost use Rattle.std.specs.Prelude.{◌<◌, ◌+◌, ◌^◌, length};
    ghost use Rattle.source_text.specs.Lines.{Unread, numbered, lines_in};

    ghost Value = { Unread };

    ghost view = { λ all. record {
      lines = numbered all.number (lines_in all.rest.now);
      end = all.number + length (lines_in all.rest.now);
    } };

    ghost invariant = { λ all. all.number + length all.rest.now < 2 ^ 32 };
}

impl<'a> AllLines<'a> {
    /// The lines of a text.
    pub(crate) fn of(text: &'a [u8]) -> AllLines<'a>
        requires { length text.now < 2 ^ 32 - 1 }
        ensures { result ≡ record { lines = numbered 1 (lines_in text.now); end = length (lines_in text.now) + 1 } }
    {
        AllLines {
            number: 1,
            rest: text,
        }
    }

    /// Takes the next line.
    pub(crate) fn take(&mut self) -> Option<SourceLine<'a>>
        ensures taken { Takes result self.old.lines self.new.lines }
        ensures end { self.new.end ≡ self.old.end }
    {
        let Some((bytes, rest)) = first_line(self.rest) else {
            return None;
        };
        let line = SourceLine {
            number: self.number,
            bytes,
        };
        self.number += 1;
        self.rest = rest;
        Some(line)
    }

    /// The number behind that of the last line, once all are taken.
    pub(crate) fn end_number(&self) -> u32
        requires { self.now.lines ≡ [] }
        ensures { result ≡ self.now.end }
    {
        self.number
    }
}

#[tactic(auto, using(crate::proofs::LineLaws::first_lines))]
/// The first line, without its LF and a CR before that, and what is behind it. A last line may lack its LF.
fn first_line(text: &[u8]) -> Option<(&[u8], &[u8])>
    ensures line { MatchOption result (lines_in text.now ≡ []) (λ parts. lines_in text.now ≡ parts.0.now ∷ lines_in parts.1.now) }
    ensures shorter { IfSome result (λ parts. length parts.1.now < length text.now) }
{
    if text.is_empty() {
        return None;
    }
    let (line, rest) = cut(text, b'\n');
    match rest {
        Some(rest) => Some((without_cr(line), rest)),
        None => Some((line, &[])),
    }
}

#[tactic(auto, using(crate::proofs::LineLaws::no_line_kept))]
fn without_cr(line: &[u8]) -> &[u8]
    ensures { result.now ≡ without_cr line.now }
{
    match line {
        [] => line,
        [front @ .., last] => { if *last == b'\r' { front } else { line } }
    }
}

ghost use Rattle.std.specs.Prelude.{◌≡◌, ◌<◌, ◌+◌, ◌-◌, ◌^◌, ◌↔◌, ◌∷◌, [], None, Some, length, IsTrue, MatchOption};
ghost use Rattle.text_lines.specs.Pieces.{pieces};

use crate::cut::cut;
use std::marker::Model;

/// What is left of a text, by lines. A line ends with its LF.
#[derive(Drop)]
pub struct Lines<'a> {
    rest: &'a [u8],
    number: u32,
}

impl<'a> Model for Lines<'a> {
    ghost use Rattle.std.specs.Prelude.{◌<◌, ◌+◌, ◌^◌, length};
    ghost use Rattle.text_lines.specs.Lines.{Unread};
    ghost use Rattle.text_lines.specs.Pieces.{pieces};

    ghost Value = { Unread };

    ghost view = { λ lines. record { line = lines.number; pieces = pieces 10 lines.rest.now } };

    ghost invariant = { λ lines. lines.number + length lines.rest.now < 2 ^ 32 };
}

impl<'a> Lines<'a> {
    ghost use Rattle.text_lines.specs.Lines.{next, is_finished};

    /// The whole text, whose first line has the number 1.
    pub fn of(text: &'a [u8]) -> Lines<'a>
        requires { length text.now < 2 ^ 32 - 1 }
        ensures { result ≡ record { line = 1; pieces = pieces 10 text.now } }
    {
        Lines {
            rest: text,
            number: 1,
        }
    }

    /// The number of the next line.
    pub fn number(&self) -> u32
        ensures { result ≡ self.now.line }
    {
        self.number
    }

    /// Takes the next line, without its LF; where no LF is left, nothing is taken.
    #[tactic(auto, unfolding(crate::specs::Lines::next))]
    pub fn next_line(&mut self) -> Option<&'a [u8]>
        ensures { MatchOption result
            ((next self.old ≡ None) × (self.new ≡ self.old))
            (λ line. next self.old ≡ Some (line.now, self.new)) }
    {
        let (line, rest) = cut(self.rest, b'\n');
        self.rest = rest?;
        self.number += 1;
        Some(line)
    }

    /// Whether not a byte is left.
    pub fn is_finished(&self) -> bool
        ensures { result ≡ is_finished self.now }
    {
        self.rest.is_empty()
    }
}

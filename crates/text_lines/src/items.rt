ghost use Rattle.std.specs.Prelude.{◌≡◌, ◌∷◌, [], MatchOption};
ghost use Rattle.text_lines.specs.Pieces.{pieces};

use crate::cut::cut;
use std::marker::Model;

/// What is wrong with an item, or with its absence.
#[derive(Clone, Copy, Debug, PartialEq, Eq)]
pub enum ItemFault {
    /// It isn't what is wanted there.
    Form,
    /// It is a number that exceeds `2^127 - 1` in size.
    Large,
}

/// The items of a line that are left, which contracts see as a list.
#[derive(Drop)]
pub struct LineItems<'a> {
    rest: Option<&'a [u8]>,
}

impl<'a> Model for LineItems<'a> {
    ghost use Rattle.std.specs.Prelude.{List, ℕ};
    ghost use Rattle.std.specs.Option.{option_map};
    ghost use Rattle.text_lines.specs.Pieces.{pieces_left};

    ghost Value = { List (List ℕ) };

    ghost view = { λ items. pieces_left 32 (option_map (λ rest. rest.now) items.rest) };
}

impl<'a> LineItems<'a> {
    /// The items of a line: what stands between its spaces.
    pub fn of(line: &'a [u8]) -> LineItems<'a>
        ensures { result ≡ pieces 32 line.now }
    {
        LineItems { rest: Some(line) }
    }

    /// Takes the next item.
    pub fn next_item(&mut self) -> Option<&'a [u8]>
        ensures { MatchOption result ((self.old ≡ []) × (self.new ≡ [])) (λ item. self.old ≡ item.now ∷ self.new) }
    {
        let (item, rest) = cut(self.rest?, b' ');
        self.rest = rest;
        Some(item)
    }
}

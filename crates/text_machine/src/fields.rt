ghost use Rattle.std.specs.Prelude.{◌≡◌, ℕ, pos, true, ◌≤◌, ◌<◌, ◌^◌, ◌≤ℤ◌, ◌&&◌, nat_eq, nat_le, [], ◌∷◌, map, length, position, IfOk, IfSome, IsTrue, MatchOption, MatchResult, Ok, Err};
ghost use Rattle.std.specs.List.{list_all, list_any};
ghost use Rattle.std.specs.Str.{bytes_eq};
ghost use Rattle.text_lines.specs.Numbers.{read_natural};
ghost use Rattle.text_lines.specs.Pieces.{pieces};
ghost use Rattle.text_lines.specs.Steps.{Gives};
ghost use Rattle.text_machine.specs.Items.{natural, positive, whole, index, below, literal, one_of, fresh, is_among, same_sign, is_item, literal_number, place_among, refuse_negative, read_item};
ghost use Rattle.text_machine.specs.Lines.{take_word, take, take_end};
ghost use Rattle.text_machine.specs.Scripts.{GivesAs};

use crate::faults::Fault;
use std::marker::Model;
use text_lines::{ItemFault, LineItems, natural_of, whole_of};

/// An atom, or its negation where the literal isn't positive.
#[derive(Clone, Copy, Debug, PartialEq, Eq)]
pub struct Literal {
    pub atom: u32,
    pub positive: bool,
}

/// The items of a line that are left, which contracts see as a list. Each method takes the first of them; after a
/// fault the place is free.
#[derive(Drop)]
pub struct Fields<'a> {
    items: LineItems<'a>,
}

impl<'a> Model for Fields<'a> {
    ghost use Rattle.std.specs.Prelude.{List, ℕ};

    ghost Value = { List (List ℕ) };

    ghost view = { λ fields. fields.items };
}

impl<'a> Fields<'a> {
    /// The items of a line: what stands between its spaces.
    pub fn of(line: &'a [u8]) -> Fields<'a>
        ensures { result ≡ pieces 32 line.now }
    {
        Fields {
            items: LineItems::of(line),
        }
    }

    /// Takes this very word.
    #[tactic(auto, unfolding(crate::specs::Lines::take_word))]
    pub fn word(&mut self, word: &[u8]) -> Result<(), Fault>
        ensures { MatchResult result (λ _. take_word word.now self.old ≡ Ok self.new) (λ fault. take_word word.now self.old ≡ Err fault) }
    {
        match self.items.next_item() {
            Some(item) if item == word => Ok(()),
            _ => Err(Fault::Form),
        }
    }

    /// Takes a number from `low` to `high`.
    #[tactic(auto, unfolding(crate::specs::Lines::take, crate::specs::Items::read_item))]
    pub fn natural(&mut self, low: u32, high: u32) -> Result<u32, Fault>
        ensures exact { GivesAs (λ n. pos n) result self.new (take (natural low high) self.old) }
        ensures range { IfOk result (λ number. (low ≤ number) × (number ≤ high)) }
    {
        let item = self.items.next_item().ok_or(Fault::Form)?;
        match natural_of(item) {
            Ok(number) if is_between(low, number, high) => Ok(number as u32),
            _ => Err(Fault::Form),
        }
    }

    /// Takes a whole number above 0, of at most `2^127 - 1`.
    #[tactic(auto, using(std::proofs::lemmas::Int::to_z_pos), unfolding(crate::specs::Lines::take, crate::specs::Items::read_item))]
    pub fn positive(&mut self) -> Result<i128, Fault>
        ensures exact { Gives result self.new (take positive self.old) }
        ensures above { IfOk result (λ z. pos 1 ≤ℤ z) }
    {
        let item = self.items.next_item().ok_or(Fault::Form)?;
        let number = natural_of(item)?;
        if number == 0 {
            return Err(Fault::Form);
        }
        Ok(number as i128)
    }

    /// Takes a whole number of at most `2^127 - 1` in size.
    #[tactic(auto, unfolding(crate::specs::Lines::take, crate::specs::Items::read_item))]
    pub fn whole(&mut self) -> Result<i128, Fault>
        ensures { Gives result self.new (take whole self.old) }
    {
        let item = self.items.next_item().ok_or(Fault::Form)?;
        Ok(whole_of(item)?)
    }

    /// Takes a number below the limit; one past it is `Large`.
    #[tactic(auto, unfolding(crate::specs::Lines::take, crate::specs::Items::read_item))]
    pub fn index(&mut self, limit: u64) -> Result<u32, Fault>
        requires { limit ≤ 2 ^ 32 }
        ensures exact { GivesAs (λ n. pos n) result self.new (take (index limit) self.old) }
        ensures below { IfOk result (λ number. number < limit) }
    {
        let item = self.items.next_item().ok_or(Fault::Form)?;
        index_of(item, limit)
    }

    /// Takes a number below the limit; one past it is `Large`, and one below 0 `Negative`.
    #[tactic(auto, unfolding(crate::specs::Lines::take, crate::specs::Items::read_item))]
    pub fn below(&mut self, limit: u128) -> Result<u128, Fault>
        ensures exact { GivesAs (λ n. pos n) result self.new (take (below limit) self.old) }
        ensures below { IfOk result (λ number. (number < limit) × (number < 2 ^ 127)) }
    {
        let item = self.items.next_item().ok_or(Fault::Form)?;
        match natural_of(item) {
            Ok(number) if number < limit => Ok(number),
            Ok(_) | Err(ItemFault::Large) => Err(Fault::Large),
            Err(ItemFault::Form) => Err(negative_fault(item)),
        }
    }

    /// Takes `+` or `-` with a number below the limit; one past it is `Large`.
    #[tactic(auto, unfolding(crate::specs::Lines::take, crate::specs::Items::read_item))]
    pub fn literal(&mut self, limit: u64) -> Result<Literal, Fault>
        requires { limit ≤ 2 ^ 32 }
        ensures exact { GivesAs (λ found. literal_number found.atom found.positive) result self.new (take (literal limit) self.old) }
        ensures below { IfOk result (λ found. found.atom < limit) }
    {
        let item = self.items.next_item().ok_or(Fault::Form)?;
        literal_of(item, limit)
    }

    /// Takes a literal below the limit that isn't among these; one that is among them stands there `Twice`.
    #[tactic(auto, using(crate::proofs::FieldLaws::fresh_is))]
    pub fn fresh_literal(&mut self, limit: u64, seen: &[Literal]) -> Result<Literal, Fault>
        requires { limit ≤ 2 ^ 32 }
        ensures exact { GivesAs (λ found. literal_number found.atom found.positive) result self.new (take (fresh (map (λ old. literal_number old.atom old.positive) seen.now) (literal limit)) self.old) }
        ensures below { IfOk result (λ found. found.atom < limit) }
    {
        let found = self.literal(limit)?;
        if is_among(seen, found) {
            return Err(Fault::Twice);
        }
        Ok(found)
    }

    /// Takes one of these words, and gives its place among them.
    #[tactic(auto, unfolding(crate::specs::Lines::take, crate::specs::Items::read_item))]
    pub fn one_of(&mut self, words: &[&[u8]]) -> Result<usize, Fault>
        ensures exact { (ok : list_all is_item (map (λ word. word.now) words.now) ≡ true) → GivesAs (λ i. pos i) result self.new (take (one_of (map (λ word. word.now) words.now) ok) self.old) }
        ensures place { IfOk result (λ i. i < length words.now) }
    {
        let item = self.items.next_item().ok_or(Fault::Form)?;
        place_of(words, item)
    }

    /// Takes the next item, whatever it is.
    pub fn next_item(&mut self) -> Option<&'a [u8]>
        ensures { MatchOption result ((self.old ≡ []) × (self.new ≡ [])) (λ item. self.old ≡ item.now ∷ self.new) }
    {
        self.items.next_item()
    }

    /// Nothing where no item is left.
    #[tactic(auto, unfolding(crate::specs::Lines::take_end))]
    pub fn end(&mut self) -> Result<(), Fault>
        ensures { MatchResult result (λ _. take_end self.old ≡ Ok []) (λ fault. take_end self.old ≡ Err fault) }
    {
        match self.items.next_item() {
            None => Ok(()),
            Some(_) => Err(Fault::Form),
        }
    }
}

/// The literal that the item spells.
#[tactic(auto, unfolding(crate::specs::Items::read_item))]
pub fn literal_of(item: &[u8], limit: u64) -> Result<Literal, Fault>
    requires { limit ≤ 2 ^ 32 }
    ensures exact { MatchResult result (λ found. read_item (literal limit) item.now ≡ Ok (literal_number found.atom found.positive)) (λ fault. read_item (literal limit) item.now ≡ Err fault) }
    ensures below { IfOk result (λ found. found.atom < limit) }
{
    match item {
        [b'+', digits @ ..] => Ok(Literal {
            atom: index_of(digits, limit)?,
            positive: true,
        }),
        [b'-', digits @ ..] => Ok(Literal {
            atom: index_of(digits, limit)?,
            positive: false,
        }),
        _ => Err(Fault::Form),
    }
}

/// Whether the literal is among these.
fn is_among(seen: &[Literal], one: Literal) -> bool
    ensures { result ≡ is_among (map (λ old. literal_number old.atom old.positive) seen.now) (literal_number one.atom one.positive) }
{
    any_same(seen, one)
}

fn any_same(seen: &[Literal], one: Literal) -> bool
    ensures { result ≡ list_any (λ old. nat_eq old.atom one.atom && same_sign old.positive one.positive) seen.now }
{
    seen.iter().any(|old| old.atom == one.atom && same_sign(old.positive, one.positive))
}

fn same_sign(one: bool, other: bool) -> bool
    ensures { result ≡ same_sign one other }
{
    if one { other } else { !other }
}

/// The number below the limit that the digits spell.
#[tactic(auto, unfolding(crate::specs::Items::read_item))]
fn index_of(digits: &[u8], limit: u64) -> Result<u32, Fault>
    requires { limit ≤ 2 ^ 32 }
    ensures exact { MatchResult result (λ number. read_item (index limit) digits.now ≡ Ok (pos number)) (λ fault. read_item (index limit) digits.now ≡ Err fault) }
    ensures below { IfOk result (λ number. number < limit) }
{
    let number = natural_of(digits)?;
    if number < u128::from(limit) {
        Ok(number as u32)
    } else {
        Err(Fault::Large)
    }
}

/// What is wrong with an item that spells no number.
#[tactic(auto, using(crate::proofs::FieldLaws::negative_is))]
fn negative_fault(item: &[u8]) -> Fault
    requires { read_natural item.now ≡ Err ItemFault.Form }
    ensures { refuse_negative item.now ≡ Err result }
{
    match whole_of(item) {
        Err(ItemFault::Form) => Fault::Form,
        _ => Fault::Negative,
    }
}

/// The place of the item among the words.
#[tactic(auto, using(crate::proofs::FieldLaws::place_none, crate::proofs::FieldLaws::place_some))]
fn place_of(words: &[&[u8]], item: &[u8]) -> Result<usize, Fault>
    ensures exact { MatchResult result (λ i. place_among (map (λ word. word.now) words.now) item.now ≡ Ok i) (λ fault. place_among (map (λ word. word.now) words.now) item.now ≡ Err fault) }
    ensures place { IfOk result (λ i. i < length words.now) }
{
    match position_of(words, item) {
        Some(i) => Ok(i),
        None => Err(Fault::Form),
    }
}

fn position_of(words: &[&[u8]], item: &[u8]) -> Option<usize>
    ensures exact { result ≡ position (λ word. bytes_eq item.now word.now) words.now }
    ensures place { IfSome result (λ i. i < length words.now) }
{
    words.iter().position(|word| item == *word)
}

fn is_between(low: u32, number: u128, high: u32) -> bool
    ensures between { result ≡ (nat_le low number && nat_le number high) }
    ensures from { IsTrue result → low ≤ number }
    ensures to { IsTrue result → number ≤ high }
{
    u128::from(low) <= number && number <= u128::from(high)
}

ghost use Rattle.std.specs.Prelude.{◌≡◌, Some, true};
ghost use Rattle.source_text.specs.Bytes.{behind_blanks, behind_digits, begins_with_digit, begins_with_letter};
ghost use Rattle.source_text.specs.Signs.{sign_of, with_equals};
ghost use Rattle.source_text.specs.Cutting.{part_of, number_at, word_at, sign_at, first_cut, tokens};
ghost use Rattle.source_text.specs.Shown.{IsCut, IsSound, shown};

use crate::lexemes::{Lexeme, Sign};
use crate::numbers::value_of;
use crate::runs::{blanks_len, digits_len, word_len};

/// The first lexeme, and what is behind it.
#[tactic(auto, using(crate::proofs::TokenLaws::first_is_shown))]
pub(crate) fn first_lexeme(line: &[u8]) -> (Lexeme<'_>, &[u8])
    ensures tokens { tokens line.now ≡ shown result.0 (tokens result.1.now) }
    ensures sound { IsSound result.0 }
{
    lexeme_at(behind_blanks(line))
}

#[tactic(auto, unfolding(crate::specs::Bytes::behind_blanks))]
pub(crate) fn behind_blanks(bytes: &[u8]) -> &[u8]
    ensures { result.now ≡ behind_blanks bytes.now }
{
    &bytes[blanks_len(bytes)..]
}

#[tactic(auto, unfolding(crate::specs::Cutting::first_cut))]
fn lexeme_at(bytes: &[u8]) -> (Lexeme<'_>, &[u8])
    ensures cut { IsCut result.0 result.1.now (first_cut bytes.now) }
    ensures sound { IsSound result.0 }
{
    match bytes {
        [] => (Lexeme::End, bytes),
        [first, rest @ ..] => {
            if first.is_ascii_alphabetic() {
                word_at(bytes)
            } else if first.is_ascii_digit() {
                number_at(bytes)
            } else {
                sign_at(*first, rest)
            }
        }
    }
}

#[tactic(auto, using(crate::proofs::ByteLaws::word_in_front), unfolding(crate::specs::Cutting::word_at, crate::specs::Bytes::word_of, crate::specs::Bytes::behind_word))]
fn word_at(bytes: &[u8]) -> (Lexeme<'_>, &[u8])
    requires { begins_with_letter bytes.now ≡ true }
    ensures cut { IsCut result.0 result.1.now (Some (word_at bytes.now)) }
    ensures sound { IsSound result.0 }
{
    let (word, rest) = bytes.split_at(word_len(bytes));
    (Lexeme::Word(word), rest)
}

#[tactic(auto, unfolding(crate::specs::Cutting::number_at, crate::specs::Cutting::number_with))]
fn number_at(bytes: &[u8]) -> (Lexeme<'_>, &[u8])
    ensures cut { IsCut result.0 result.1.now (Some (number_at bytes.now)) }
    ensures sound { IsSound result.0 }
{
    let (num, rest) = part_at(bytes);
    match rest {
        [b'/', behind @ ..] if begins_with_digit(behind) => {
            let (den, rest) = part_at(behind);
            (
                Lexeme::Number {
                    num,
                    den: Some(den),
                },
                rest,
            )
        }
        _ => (Lexeme::Number { num, den: None }, rest),
    }
}

fn begins_with_digit(bytes: &[u8]) -> bool
    ensures { result ≡ begins_with_digit bytes.now }
{
    match bytes {
        [] => false,
        [first, ..] => first.is_ascii_digit(),
    }
}

/// The number that the digits in front spell, and what is behind them.
#[tactic(auto, using(crate::proofs::ByteLaws::digits_in_front), unfolding(crate::specs::Cutting::part_of, crate::specs::Bytes::digits_of, crate::specs::Bytes::behind_digits))]
fn part_at(bytes: &[u8]) -> (u32, &[u8])
    ensures part { result.0 ≡ part_of bytes.now }
    ensures rest { result.1.now ≡ behind_digits bytes.now }
{
    let (digits, rest) = bytes.split_at(digits_len(bytes));
    (value_of(digits), rest)
}

fn sign_at(first: u8, rest: &[u8]) -> (Lexeme<'_>, &[u8])
    ensures cut { IsCut result.0 result.1.now (Some (sign_at (sign_of first) rest.now)) }
    ensures sound { IsSound result.0 }
{
    let Some(sign) = sign_of(first) else {
        return (Lexeme::Wrong, rest);
    };
    match (with_equals(sign), rest) {
        (Some(longer), [b'=', behind @ ..]) => (Lexeme::Sign(longer), behind),
        _ => (Lexeme::Sign(sign), rest),
    }
}

/// The sign that one byte is.
#[tactic(auto, unfolding(crate::specs::Signs::sign_of))]
fn sign_of(byte: u8) -> Option<Sign>
    ensures { result ≡ sign_of byte }
{
    match byte {
        b'<' => Some(Sign::Below),
        b'>' => Some(Sign::Above),
        b'=' => Some(Sign::Assign),
        b'+' => Some(Sign::Plus),
        b'-' => Some(Sign::Minus),
        b'*' => Some(Sign::Times),
        b'(' => Some(Sign::Open),
        b')' => Some(Sign::Close),
        b'.' => Some(Sign::Dot),
        b'@' => Some(Sign::At),
        _ => None,
    }
}

/// The sign that it is with a `=` behind it.
fn with_equals(sign: Sign) -> Option<Sign>
    ensures { result ≡ with_equals sign }
{
    match sign {
        Sign::Below => Some(Sign::AtMost),
        Sign::Above => Some(Sign::AtLeast),
        Sign::Assign => Some(Sign::Equal),
        _ => None,
    }
}

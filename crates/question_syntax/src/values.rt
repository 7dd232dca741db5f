//! The values of lines, read from the left.
ghost use Rattle.std.specs.Prelude.{◌≡◌, ◌<◌, IfOk};
ghost use Rattle.text_lines.specs.Steps.{Gives};
ghost use Rattle.condition_syntax.specs.RefusalRules.{GivesRead};
ghost use Rattle.condition_syntax.specs.Trees.{condition_of};
ghost use Rattle.question_syntax.specs.Grammar.{pair_of};
ghost use Rattle.question_syntax.specs.Reading.{count_at, rate_at, positive, buffer_at, condition_at, done_at};

use crate::refusals::{lacks, refusal};
use condition_syntax::{Cond, Num, Style, number_of, read_condition, refusal as fault_refusal};
use source_text::{Cursor, Lexeme};
use std::alloc::Global;
use whole::{Pair, ReadFault, Refusal};

/// Digits alone, within a range.
#[tactic(auto, unfolding(crate::specs::Reading::count_at))]
pub(crate) fn count(cursor: &mut Cursor<'_>, low: u32, high: u32) -> Result<u32, Refusal>
    ensures { Gives result cursor.new (count_at low high cursor.old) }
{
    match cursor.peek() {
        Lexeme::Number { num, den: None } => {
            if low <= num && num <= high {
                cursor.advance();
                Ok(num)
            } else {
                Err(refusal(6, cursor.number()))
            }
        }
        Lexeme::Number { den: Some(_), .. }
        | Lexeme::End
        | Lexeme::Wrong
        | Lexeme::Word(_)
        | Lexeme::Sign(_) => Err(lacks(4, cursor)),
    }
}

/// The number as a fraction of the path.
fn pair_of(number: Num) -> Pair
    ensures { result ≡ pair_of number }
{
    Pair {
        num: number.num,
        den: number.den,
    }
}

/// A number that is written with this numerator, if that is above 0.
fn positive(cursor: &mut Cursor<'_>, num: u32, number: Num) -> Result<Pair, Refusal>
    ensures { Gives result cursor.new (positive num number cursor.old) }
{
    if num < 1 {
        return Err(refusal(6, cursor.number()));
    }
    cursor.advance();
    Ok(pair_of(number))
}

/// A number above 0.
#[tactic(auto, unfolding(crate::specs::Reading::rate_at))]
pub(crate) fn rate(cursor: &mut Cursor<'_>) -> Result<Pair, Refusal>
    ensures { Gives result cursor.new (rate_at cursor.old) }
{
    match cursor.peek() {
        Lexeme::Number { num, den } => match number_of(num, den) {
            Ok(number) => positive(cursor, num, number),
            Err(fault) => Err(fault_refusal(Style::Question, cursor.number(), fault)),
        },
        Lexeme::End | Lexeme::Wrong | Lexeme::Word(_) | Lexeme::Sign(_) => Err(lacks(4, cursor)),
    }
}

/// `none` or a number.
#[tactic(auto, unfolding(crate::specs::Reading::buffer_at))]
pub(crate) fn buffer(cursor: &mut Cursor<'_>) -> Result<Option<Pair>, Refusal>
    ensures { Gives result cursor.new (buffer_at cursor.old) }
{
    match cursor.peek() {
        Lexeme::Word(word) => {
            if word != b"none".as_slice() {
                return Err(lacks(4, cursor));
            }
            cursor.advance();
            Ok(None)
        }
        Lexeme::Number { num, den } => match number_of(num, den) {
            Ok(number) => {
                cursor.advance();
                Ok(Some(pair_of(number)))
            }
            Err(fault) => Err(fault_refusal(Style::Question, cursor.number(), fault)),
        },
        Lexeme::End | Lexeme::Wrong | Lexeme::Sign(_) => Err(lacks(4, cursor)),
    }
}

/// A condition.
#[tactic(auto, unfolding(crate::specs::Reading::condition_at))]
pub(crate) fn condition(alloc: Global, cursor: &mut Cursor<'_>) -> Result<Cond, ReadFault>
    ensures { GivesRead condition_of result cursor.new (condition_at cursor.old) }
{
    read_condition(alloc, cursor, Style::Question)
}

/// The line's end.
#[tactic(auto, unfolding(crate::specs::Reading::done_at))]
pub(crate) fn done(cursor: &Cursor<'_>) -> Result<(), Refusal>
    ensures { result ≡ done_at cursor.now }
{
    match cursor.peek() {
        Lexeme::End => Ok(()),
        Lexeme::Wrong | Lexeme::Word(_) | Lexeme::Number { .. } | Lexeme::Sign(_) => {
            Err(lacks(10, cursor))
        }
    }
}

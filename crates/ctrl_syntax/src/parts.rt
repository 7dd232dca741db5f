//! The parts of lines, read from the left.
ghost use Rattle.std.specs.Prelude.{◌≡◌, MatchResult, Ok, Err};
ghost use Rattle.text_lines.specs.Steps.{Gives};
ghost use Rattle.condition_syntax.specs.RefusalRules.{GivesRead};
ghost use Rattle.condition_syntax.specs.Trees.{condition_of};
ghost use Rattle.ctrl_syntax.specs.Reading.{expr_at, condition_at, name_at, word_at, kind_at, number_at, bound_at, assign_at, done_at};

use crate::refusals::{lacks, refusal};
use condition_syntax::{
    Cond, Expr, NAME_LIMIT, Num, Style, number_of, read_condition, read_expr,
    refusal as fault_refusal, says, signed, stands,
};
use source_text::{Cursor, Lexeme, Sign};
use std::alloc::Global;
use whole::{ReadFault, Refusal};

/// A name, which the rule `own` asks for.
#[tactic(auto, unfolding(crate::specs::Reading::name_at))]
pub(crate) fn name<'a>(cursor: &mut Cursor<'a>, own: u8) -> Result<&'a [u8], Refusal>
    ensures { MatchResult result
        (λ name. name_at own cursor.old ≡ Ok (name.now, cursor.new))
        (λ fault. name_at own cursor.old ≡ Err fault) }
{
    match cursor.peek() {
        Lexeme::Word(word) => {
            if word.len() > NAME_LIMIT {
                return Err(refusal(11, cursor.number()));
            }
            cursor.advance();
            Ok(word)
        }
        Lexeme::End | Lexeme::Wrong | Lexeme::Number { .. } | Lexeme::Sign(_) => {
            Err(lacks(own, cursor))
        }
    }
}

/// This word, which the rule `own` asks for.
#[tactic(auto, unfolding(crate::specs::Reading::word_at))]
pub(crate) fn word(cursor: &mut Cursor<'_>, word: &[u8], own: u8) -> Result<(), Refusal>
    ensures { MatchResult result
        (λ _. word_at word.now own cursor.old ≡ Ok cursor.new)
        (λ fault. word_at word.now own cursor.old ≡ Err fault) }
{
    if !says(cursor, word) {
        return Err(lacks(own, cursor));
    }
    cursor.advance();
    Ok(())
}

/// Whether a state is a count.
#[tactic(auto, unfolding(crate::specs::Reading::kind_at))]
pub(crate) fn kind(cursor: &mut Cursor<'_>) -> Result<bool, Refusal>
    ensures { Gives result cursor.new (kind_at cursor.old) }
{
    let count = if says(cursor, b"data") {
        false
    } else if says(cursor, b"count") {
        true
    } else {
        return Err(lacks(4, cursor));
    };
    cursor.advance();
    Ok(count)
}

/// The number of a bound, whose sign was read.
#[tactic(auto, unfolding(crate::specs::Reading::number_at))]
fn number(cursor: &mut Cursor<'_>, negative: bool) -> Result<Num, Refusal>
    ensures { Gives result cursor.new (number_at negative cursor.old) }
{
    match cursor.peek() {
        Lexeme::Number { num, den } => match number_of(num, den) {
            Ok(number) => {
                cursor.advance();
                Ok(signed(negative, number))
            }
            Err(fault) => Err(fault_refusal(Style::Controller, cursor.number(), fault)),
        },
        Lexeme::End | Lexeme::Wrong | Lexeme::Word(_) | Lexeme::Sign(_) => Err(lacks(4, cursor)),
    }
}

/// A bound of a state's range: a number, perhaps with a `-`.
#[tactic(auto, unfolding(crate::specs::Reading::bound_at))]
pub(crate) fn bound(cursor: &mut Cursor<'_>) -> Result<Num, Refusal>
    ensures { Gives result cursor.new (bound_at cursor.old) }
{
    let negative = stands(cursor, Sign::Minus);
    if negative {
        cursor.advance();
    }
    number(cursor, negative)
}

/// The sign of an assignment.
#[tactic(auto, unfolding(crate::specs::Reading::assign_at))]
pub(crate) fn assign(cursor: &mut Cursor<'_>) -> Result<(), Refusal>
    ensures { MatchResult result
        (λ _. assign_at cursor.old ≡ Ok cursor.new)
        (λ fault. assign_at cursor.old ≡ Err fault) }
{
    if !stands(cursor, Sign::Assign) {
        return Err(lacks(6, cursor));
    }
    cursor.advance();
    Ok(())
}

/// The line's end.
#[tactic(auto, unfolding(crate::specs::Reading::done_at))]
pub(crate) fn done(cursor: &Cursor<'_>) -> Result<(), Refusal>
    ensures { result ≡ done_at cursor.now }
{
    match cursor.peek() {
        Lexeme::End => Ok(()),
        Lexeme::Wrong | Lexeme::Word(_) | Lexeme::Number { .. } | Lexeme::Sign(_) => {
            Err(lacks(12, cursor))
        }
    }
}

/// An expression.
#[tactic(auto, unfolding(crate::specs::Reading::expr_at))]
pub(crate) fn expr(alloc: Global, cursor: &mut Cursor<'_>) -> Result<Expr, ReadFault>
    ensures { GivesRead (λ expr. expr.terms) result cursor.new (expr_at cursor.old) }
{
    read_expr(alloc, cursor, Style::Controller)
}

/// A condition.
#[tactic(auto, unfolding(crate::specs::Reading::condition_at))]
pub(crate) fn condition(alloc: Global, cursor: &mut Cursor<'_>) -> Result<Cond, ReadFault>
    ensures { GivesRead condition_of result cursor.new (condition_at cursor.old) }
{
    read_condition(alloc, cursor, Style::Controller)
}

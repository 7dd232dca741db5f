//! Comparisons and tests of delay, read from the left.
ghost use Rattle.std.specs.Prelude.{◌≡◌, MatchResult, Ok, Err};
ghost use Rattle.text_lines.specs.Steps.{Gives};
ghost use Rattle.condition_syntax.specs.Halts.{GivesRest, GivesSeen};
ghost use Rattle.condition_syntax.specs.Trees.{condition_of};
ghost use Rattle.condition_syntax.specs.Conditions.{pending, side_begins, counted, rel_by, comparison_by, rows_by, sign_by, delay_by};

use crate::conditions::{Cond, Style};
use crate::faults::{Fault, ReadStop};
use crate::fronts::{blame, is_keyword, stands};
use crate::sums::expr;
use crate::terms::{NAME_LIMIT, number_of};
use source_text::{Cursor, Lexeme, Sign};
use std::alloc::Global;
use weighing::{Num, Rel5};

/// The greatest number of comparisons; tests of delay count.
const COMPARISON_LIMIT: u32 = 16;

/// What is wrong with the first token of a comparison, if anything is.
#[tactic(auto, unfolding(crate::specs::Conditions::side_begins, crate::specs::Fronts::stands, crate::specs::Expressions::number_of))]
fn side_begins(cursor: &Cursor<'_>) -> Result<(), Fault>
    ensures { result ≡ side_begins cursor.now.tokens }
{
    match cursor.peek() {
        Lexeme::Number { num, den } => {
            number_of(num, den)?;
            Ok(())
        }
        Lexeme::Word(word) => {
            if is_keyword(word) {
                Err(Fault::Part)
            } else if word.len() > NAME_LIMIT {
                Err(Fault::Count)
            } else {
                Ok(())
            }
        }
        Lexeme::Sign(Sign::Minus) => Ok(()),
        Lexeme::Wrong => Err(Fault::WrongByte),
        Lexeme::End | Lexeme::Sign(_) => Err(Fault::Part),
    }
}

/// One comparison more than have begun.
#[tactic(auto, unfolding(crate::specs::Conditions::counted))]
fn counted(begun: u32) -> Result<u32, Fault>
    ensures { result ≡ counted begun }
{
    if begun >= COMPARISON_LIMIT {
        Err(Fault::Count)
    } else {
        Ok(begun + 1)
    }
}

/// A relation.
#[tactic(auto, unfolding(crate::specs::Conditions::rel_by))]
fn rel(cursor: &mut Cursor<'_>) -> Result<Rel5, Fault>
    ensures exact { Gives result cursor.new.tokens (rel_by cursor.old.tokens) }
    ensures line { cursor.new.line ≡ cursor.old.line }
{
    let rel = match cursor.peek() {
        Lexeme::Sign(Sign::AtMost) => Rel5::AtMost,
        Lexeme::Sign(Sign::Below) => Rel5::Below,
        Lexeme::Sign(Sign::AtLeast) => Rel5::AtLeast,
        Lexeme::Sign(Sign::Above) => Rel5::Above,
        Lexeme::Sign(Sign::Equal) => Rel5::Equal,
        Lexeme::Wrong => return Err(Fault::WrongByte),
        Lexeme::End | Lexeme::Word(_) | Lexeme::Number { .. } | Lexeme::Sign(_) => {
            return Err(Fault::Part);
        }
    };
    cursor.advance();
    Ok(rel)
}

/// A comparison. `begun` counts the comparisons of the condition.
#[tactic(auto, unfolding(crate::specs::Conditions::comparison_by))]
pub(crate) fn comparison(
    alloc: Global,
    cursor: &mut Cursor<'_>,
    style: Style,
    begun: &mut u32,
) -> Result<Cond, ReadStop>
    ensures exact { GivesSeen condition_of result (pending begun.new cursor.new.tokens) (comparison_by style (pending begun.old cursor.old.tokens)) }
    ensures line { cursor.new.line ≡ cursor.old.line }
{
    side_begins(cursor)?;
    *begun = counted(*begun)?;
    let left = expr(alloc, cursor, style)?;
    let rel = rel(cursor)?;
    let right = expr(alloc, cursor, style)?;
    Ok(Cond::Cmp(left, rel, right))
}

/// This sign.
#[tactic(auto, unfolding(crate::specs::Conditions::sign_by))]
pub(crate) fn sign(cursor: &mut Cursor<'_>, sign: Sign) -> Result<(), Fault>
    ensures exact { MatchResult result
        (λ _. sign_by sign cursor.old.tokens ≡ Ok cursor.new.tokens)
        (λ fault. sign_by sign cursor.old.tokens ≡ Err fault) }
    ensures line { cursor.new.line ≡ cursor.old.line }
{
    if !stands(cursor, sign) {
        return Err(blame(cursor, Fault::Part));
    }
    cursor.advance();
    Ok(())
}

/// The number of a test of delay.
#[tactic(auto, unfolding(crate::specs::Conditions::rows_by))]
fn rows(cursor: &mut Cursor<'_>) -> Result<Num, Fault>
    ensures exact { Gives result cursor.new.tokens (rows_by cursor.old.tokens) }
    ensures line { cursor.new.line ≡ cursor.old.line }
{
    match cursor.peek() {
        Lexeme::Number { num, den } => {
            let number = number_of(num, den)?;
            cursor.advance();
            Ok(number)
        }
        Lexeme::Wrong => Err(Fault::WrongByte),
        Lexeme::End | Lexeme::Word(_) | Lexeme::Sign(_) => Err(Fault::Part),
    }
}

/// A test of delay, which stands first. `begun` counts the comparisons of the condition.
#[tactic(auto, unfolding(crate::specs::Conditions::delay_by))]
pub(crate) fn delay(cursor: &mut Cursor<'_>, begun: &mut u32) -> Result<Cond, Fault>
    ensures exact { MatchResult result
        (λ c. delay_by (pending begun.old cursor.old.tokens) ≡ Ok (condition_of c, pending begun.new cursor.new.tokens))
        (λ fault. delay_by (pending begun.old cursor.old.tokens) ≡ Err fault) }
    ensures line { cursor.new.line ≡ cursor.old.line }
{
    *begun = counted(*begun)?;
    cursor.advance();
    sign(cursor, Sign::AtLeast)?;
    Ok(Cond::Delay(rows(cursor)?))
}

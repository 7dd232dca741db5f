//! Numbers, names and terms, read from the left.
ghost use Rattle.std.specs.Prelude.{◌≡◌, IfOk, MatchResult, Ok, Err};
ghost use Rattle.weighing.specs.Scaled.{IsNum};
ghost use Rattle.text_lines.specs.Steps.{Gives};
ghost use Rattle.condition_syntax.specs.Halts.{GivesRest};
ghost use Rattle.condition_syntax.specs.Words.{signed, fraction};
ghost use Rattle.condition_syntax.specs.Expressions.{number_of, word_by, digits_by, flow_by, step_by, named_by, name_by, factor_by, single_by, term_by, extra_term, is_within};

use crate::conditions::Style;
use crate::expressions::{ETerm, Name};
use crate::faults::{Fault, ReadStop};
use crate::fronts::{blame, is_keyword, stands};
use source_text::{Cursor, Lexeme, Sign};
use sqlite_items::Items;
use std::alloc::Global;
use weighing::Num;

/// The greatest length of a name.
pub const NAME_LIMIT: usize = 16;

/// The number that a token writes, over 1 where it has no denominator. `Err` comes exactly where the denominator is 0 or
/// the number exceeds 1,000,000 over 1,000.
#[tactic(auto, unfolding(crate::specs::Expressions::number_of))]
pub fn number_of(num: u32, den: Option<u32>) -> Result<Num, Fault>
    ensures exact { result ≡ number_of num den }
    ensures within { IfOk result IsNum }
{
    let den = den.unwrap_or(1);
    if num <= 1_000_000 && 1 <= den && den <= 1_000 {
        Ok(Num {
            num: i128::from(num),
            den: i128::from(den),
        })
    } else {
        Err(Fault::Number)
    }
}

/// The number with a sign before it.
#[tactic(auto, using(whole::proofs::Overflow::signed))]
pub fn signed(negative: bool, number: Num) -> Num
    requires { IsNum number }
    ensures { result ≡ signed negative number }
{
    if negative {
        Num {
            num: -number.num,
            den: number.den,
        }
    } else {
        number
    }
}

/// The word of a name.
#[tactic(auto, unfolding(crate::specs::Expressions::word_by))]
fn word<'a>(cursor: &mut Cursor<'a>) -> Result<&'a [u8], Fault>
    ensures exact { MatchResult result
        (λ word. word_by cursor.old.tokens ≡ Ok (word.now, cursor.new.tokens))
        (λ fault. word_by cursor.old.tokens ≡ Err fault) }
    ensures line { cursor.new.line ≡ cursor.old.line }
{
    match cursor.peek() {
        Lexeme::Word(word) => {
            if is_keyword(word) {
                return Err(Fault::Term);
            }
            if word.len() > NAME_LIMIT {
                return Err(Fault::Count);
            }
            cursor.advance();
            Ok(word)
        }
        Lexeme::Wrong => Err(Fault::WrongByte),
        Lexeme::End | Lexeme::Number { .. } | Lexeme::Sign(_) => Err(Fault::Term),
    }
}

/// Digits alone.
#[tactic(auto, unfolding(crate::specs::Expressions::digits_by))]
fn digits(cursor: &mut Cursor<'_>) -> Result<u32, Fault>
    ensures exact { Gives result cursor.new.tokens (digits_by cursor.old.tokens) }
    ensures line { cursor.new.line ≡ cursor.old.line }
{
    match cursor.peek() {
        Lexeme::Number { num, den: None } => {
            cursor.advance();
            Ok(num)
        }
        Lexeme::Wrong => Err(Fault::WrongByte),
        Lexeme::Number { den: Some(_), .. } | Lexeme::End | Lexeme::Word(_) | Lexeme::Sign(_) => {
            Err(Fault::Term)
        }
    }
}

/// The flow, where a `.` stands.
#[tactic(auto, unfolding(crate::specs::Expressions::flow_by))]
fn flow(cursor: &mut Cursor<'_>) -> Result<Option<u32>, Fault>
    ensures exact { Gives result cursor.new.tokens (flow_by cursor.old.tokens) }
    ensures line { cursor.new.line ≡ cursor.old.line }
{
    if !stands(cursor, Sign::Dot) {
        return Ok(None);
    }
    cursor.advance();
    Ok(Some(digits(cursor)?))
}

/// The step behind `@`, which the credit alone may lack.
#[tactic(auto, unfolding(crate::specs::Expressions::step_by))]
fn step(cursor: &mut Cursor<'_>, name: &[u8]) -> Result<Option<u32>, Fault>
    ensures exact { Gives result cursor.new.tokens (step_by name.now cursor.old.tokens) }
    ensures line { cursor.new.line ≡ cursor.old.line }
{
    if stands(cursor, Sign::At) {
        cursor.advance();
        return Ok(Some(digits(cursor)?));
    }
    if name == b"credit".as_slice() {
        Ok(None)
    } else {
        Err(blame(cursor, Fault::Term))
    }
}

/// The flow and the step of a name, which questions alone have.
#[tactic(auto, unfolding(crate::specs::Expressions::named_by))]
fn named(
    alloc: Global,
    cursor: &mut Cursor<'_>,
    style: Style,
    word: &[u8],
) -> Result<Name, ReadStop>
    ensures exact { GivesRest result cursor.new.tokens (named_by style word.now cursor.old.tokens) }
    ensures line { cursor.new.line ≡ cursor.old.line }
{
    match style {
        Style::Controller => {
            let text = Items::from_slice(alloc, word)?;
            Ok(Name {
                text,
                flow: None,
                step: None,
            })
        }
        Style::Question => {
            let flow = flow(cursor)?;
            let step = step(cursor, word)?;
            let text = Items::from_slice(alloc, word)?;
            Ok(Name { text, flow, step })
        }
    }
}

#[tactic(auto, unfolding(crate::specs::Expressions::name_by))]
fn name(alloc: Global, cursor: &mut Cursor<'_>, style: Style) -> Result<Name, ReadStop>
    ensures exact { GivesRest result cursor.new.tokens (name_by style cursor.old.tokens) }
    ensures line { cursor.new.line ≡ cursor.old.line }
{
    let word = word(cursor)?;
    named(alloc, cursor, style, word)
}

/// This multiple of a name, or this constant where no `*` stands.
#[tactic(auto, unfolding(crate::specs::Expressions::factor_by))]
fn factor(
    alloc: Global,
    cursor: &mut Cursor<'_>,
    style: Style,
    coef: Num,
) -> Result<ETerm, ReadStop>
    ensures exact { GivesRest result cursor.new.tokens (factor_by style coef cursor.old.tokens) }
    ensures line { cursor.new.line ≡ cursor.old.line }
{
    if !stands(cursor, Sign::Times) {
        return Ok(ETerm { coef, name: None });
    }
    cursor.advance();
    let name = name(alloc, cursor, style)?;
    Ok(ETerm {
        coef,
        name: Some(name),
    })
}

/// Once or minus once a name.
#[tactic(auto, unfolding(crate::specs::Expressions::single_by))]
fn single(
    alloc: Global,
    cursor: &mut Cursor<'_>,
    style: Style,
    negative: bool,
) -> Result<ETerm, ReadStop>
    ensures exact { GivesRest result cursor.new.tokens (single_by style negative cursor.old.tokens) }
    ensures line { cursor.new.line ≡ cursor.old.line }
{
    let name = name(alloc, cursor, style)?;
    Ok(ETerm {
        coef: signed(negative, Num { num: 1, den: 1 }),
        name: Some(name),
    })
}

/// A term, whose sign was read.
#[tactic(auto, unfolding(crate::specs::Expressions::term_by))]
pub(crate) fn term(
    alloc: Global,
    cursor: &mut Cursor<'_>,
    style: Style,
    negative: bool,
) -> Result<ETerm, ReadStop>
    ensures exact { GivesRest result cursor.new.tokens (term_by style negative cursor.old.tokens) }
    ensures line { cursor.new.line ≡ cursor.old.line }
{
    match cursor.peek() {
        Lexeme::Number { num, den } => {
            let number = number_of(num, den)?;
            cursor.advance();
            factor(alloc, cursor, style, signed(negative, number))
        }
        Lexeme::End | Lexeme::Wrong | Lexeme::Word(_) | Lexeme::Sign(_) => {
            single(alloc, cursor, style, negative)
        }
    }
}

/// What is wrong with a term too many.
#[tactic(auto, unfolding(crate::specs::Expressions::extra_term, crate::specs::Expressions::number_of))]
pub(crate) fn extra_term(cursor: &Cursor<'_>) -> Fault
    ensures { result ≡ extra_term cursor.now.tokens }
{
    match cursor.peek() {
        Lexeme::Number { num, den } => match number_of(num, den) {
            Ok(_) => Fault::Count,
            Err(fault) => fault,
        },
        Lexeme::Word(word) => {
            if is_keyword(word) {
                Fault::Term
            } else {
                Fault::Count
            }
        }
        Lexeme::Wrong => Fault::WrongByte,
        Lexeme::End | Lexeme::Sign(_) => Fault::Term,
    }
}

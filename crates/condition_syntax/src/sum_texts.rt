//! The canonical text of numbers, names and expressions, at the end of a text.
ghost use Rattle.std.specs.Prelude.{◌≡◌, ◌++◌, OnOk, flat_map, Some};
ghost use Rattle.std.specs.Fmt.{decimal};
ghost use Rattle.condition_syntax.specs.CanonicalText.{denominator_text, number_text, mark_text, name_text, is_unit, factor_text, unsigned_text, is_negative, first_text, later_text, expr_text};

use crate::expressions::{ETerm, Expr, Name};
use std::alloc::{AllocError, Global};
use weighing::Num;

fn put_decimal(alloc: Global, out: &mut Vec<u8>, number: u128) -> Result<(), AllocError>
    ensures { OnOk result (out.new.items ≡ out.old.items ++ decimal number) }
{
    let digits = format!(in alloc; "{number}")?;
    out.extend_from_slice(digits.as_bytes())
}

fn put_denominator(alloc: Global, out: &mut Vec<u8>, den: u128) -> Result<(), AllocError>
    ensures { OnOk result (out.new.items ≡ out.old.items ++ denominator_text den) }
{
    if den == 1 {
        return Ok(());
    }
    out.extend_from_slice(b"/")?;
    put_decimal(alloc, out, den)
}

/// Appends the canonical text of the number without its sign.
#[tactic(auto, unfolding(crate::specs::CanonicalText::number_text))]
pub fn put_number(alloc: Global, out: &mut Vec<u8>, number: Num) -> Result<(), AllocError>
    ensures { OnOk result (out.new.items ≡ out.old.items ++ number_text number) }
{
    put_decimal(alloc, out, number.num.unsigned_abs())?;
    put_denominator(alloc, out, number.den.unsigned_abs())
}

/// Digits behind their sign, if there are any.
fn put_mark(
    alloc: Global,
    out: &mut Vec<u8>,
    mark: u8,
    digits: Option<u32>,
) -> Result<(), AllocError>
    ensures { OnOk result (out.new.items ≡ out.old.items ++ mark_text mark digits) }
{
    match digits {
        None => Ok(()),
        Some(number) => {
            out.push(mark)?;
            put_decimal(alloc, out, u128::from(number))
        }
    }
}

#[tactic(auto, unfolding(crate::specs::CanonicalText::name_text))]
fn put_name(alloc: Global, out: &mut Vec<u8>, name: &Name) -> Result<(), AllocError>
    ensures { OnOk result (out.new.items ≡ out.old.items ++ name_text name.now) }
{
    out.extend_from_slice(name.text.as_slice())?;
    put_mark(alloc, out, b'.', name.flow)?;
    put_mark(alloc, out, b'@', name.step)
}

/// Whether the number is kept as 1/1 or -1/1.
fn is_unit(number: Num) -> bool
    ensures { result ≡ is_unit number }
{
    number.num.unsigned_abs() == 1 && number.den.unsigned_abs() == 1
}

/// A term without its sign.
fn put_unsigned(alloc: Global, out: &mut Vec<u8>, term: &ETerm) -> Result<(), AllocError>
    ensures { OnOk result (out.new.items ≡ out.old.items ++ unsigned_text term.now) }
{
    match &term.name {
        None => put_number(alloc, out, term.coef),
        Some(name) => put_multiple(alloc, out, term.coef, name),
    }
}

/// This multiple of a name.
fn put_multiple(alloc: Global, out: &mut Vec<u8>, coef: Num, name: &Name) -> Result<(), AllocError>
    ensures { OnOk result (out.new.items ≡ out.old.items ++ factor_text coef (Some name.now)) }
{
    if is_unit(coef) {
        return put_name(alloc, out, name);
    }
    put_number(alloc, out, coef)?;
    out.extend_from_slice(b" * ")?;
    put_name(alloc, out, name)
}

#[tactic(auto, unfolding(crate::specs::CanonicalText::first_text))]
fn put_first(alloc: Global, out: &mut Vec<u8>, term: &ETerm) -> Result<(), AllocError>
    ensures { OnOk result (out.new.items ≡ out.old.items ++ first_text term.now) }
{
    if term.coef.num < 0 {
        out.extend_from_slice(b"-")?;
    }
    put_unsigned(alloc, out, term)
}

#[tactic(auto, unfolding(crate::specs::CanonicalText::later_text))]
fn put_later(alloc: Global, out: &mut Vec<u8>, term: &ETerm) -> Result<(), AllocError>
    ensures { OnOk result (out.new.items ≡ out.old.items ++ later_text term.now) }
{
    if term.coef.num < 0 {
        out.extend_from_slice(b" - ")?;
    } else {
        out.extend_from_slice(b" + ")?;
    }
    put_unsigned(alloc, out, term)
}

fn put_others(alloc: Global, out: &mut Vec<u8>, terms: &[ETerm]) -> Result<(), AllocError>
    ensures { OnOk result (out.new.items ≡ out.old.items ++ flat_map later_text terms.now) }
{
    for term in terms {
        put_later(alloc, out, term)?;
    }
    Ok(())
}

/// Appends the canonical text of the expression.
#[tactic(auto, unfolding(crate::specs::CanonicalText::expr_text))]
pub fn put_expr(alloc: Global, out: &mut Vec<u8>, expr: &Expr) -> Result<(), AllocError>
    ensures { OnOk result (out.new.items ≡ out.old.items ++ expr_text expr.now.terms) }
{
    match expr.terms.as_slice() {
        [] => Ok(()),
        [first, others @ ..] => {
            put_first(alloc, out, first)?;
            put_others(alloc, out, others)
        }
    }
}

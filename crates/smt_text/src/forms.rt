// Numbers, sums and literals.
ghost use Rattle.std.specs.Prelude.{◌≡◌, ◌++◌, OnOk, string_bytes};
ghost use Rattle.smt_text.specs.Texts.{form_text, listed, literal_text, next_literal, next_term, number_text, signed_text, sum_text, term_text};

use clause_form::Clauses;
use farkas_cert::Lit;
use linear_form::Term;
use std::alloc::AllocError;
use std::fmt::Write;

#[tactic(auto, unfolding(crate::specs::Texts::signed_text))]
fn put_signed(out: &mut String, n: i128) -> Result<(), AllocError>
    ensures { OnOk result (string_bytes out.new ≡ string_bytes out.old ++ signed_text n) }
{
    let amount = n.unsigned_abs();
    if n < 0 {
        write!(out, "(- {})", amount)
    } else {
        write!(out, "{}", amount)
    }
}

/// `num / den`.
#[tactic(auto, unfolding(crate::specs::Texts::number_text))]
pub(crate) fn put_number(out: &mut String, num: i128, den: i128) -> Result<(), AllocError>
    ensures { OnOk result (string_bytes out.new ≡ string_bytes out.old ++ number_text num den) }
{
    if den == 1 {
        return put_signed(out, num);
    }
    out.push_str("(/ ")?;
    put_signed(out, num)?;
    out.push_str(" ")?;
    put_signed(out, den)?;
    out.push_str(")")
}

#[tactic(auto, unfolding(crate::specs::Texts::term_text))]
fn put_term(out: &mut String, term: Term) -> Result<(), AllocError>
    ensures { OnOk result (string_bytes out.new ≡ string_bytes out.old ++ next_term term) }
{
    out.push_str(" (* ")?;
    put_signed(out, term.coef)?;
    write!(out, " x{})", term.column)
}

fn put_terms(out: &mut String, terms: &[Term]) -> Result<(), AllocError>
    ensures { OnOk result (string_bytes out.new ≡ string_bytes out.old ++ listed next_term terms.now) }
{
    for term in terms {
        put_term(out, *term)?;
    }
    Ok(())
}

#[tactic(auto, unfolding(crate::specs::Texts::sum_text))]
fn put_sum(out: &mut String, terms: &[Term]) -> Result<(), AllocError>
    ensures { OnOk result (string_bytes out.new ≡ string_bytes out.old ++ sum_text terms.now) }
{
    out.push_str("(+")?;
    put_terms(out, terms)?;
    out.push_str(")")
}

/// A column alone, or one of the forms of several columns.
#[tactic(auto, unfolding(crate::specs::Texts::form_text))]
pub(crate) fn put_form(out: &mut String, clauses: &Clauses, form: u32) -> Result<(), AllocError>
    ensures { OnOk result (string_bytes out.new ≡ string_bytes out.old ++ form_text clauses.now form) }
{
    if form < clauses.columns {
        return write!(out, "x{}", form);
    }
    match clauses
        .forms
        .as_slice()
        .get((form - clauses.columns) as usize)
    {
        Some(form) => put_sum(out, form.terms.as_slice()),
        None => Ok(()),
    }
}

#[tactic(auto, unfolding(crate::specs::Texts::literal_text))]
pub(crate) fn put_literal(out: &mut String, lit: Lit) -> Result<(), AllocError>
    ensures { OnOk result (string_bytes out.new ≡ string_bytes out.old ++ literal_text lit) }
{
    if lit.positive {
        write!(out, "a{}", lit.atom)
    } else {
        write!(out, "(not a{})", lit.atom)
    }
}

/// The literals, each behind a space.
pub(crate) fn put_literals(out: &mut String, lits: &[Lit]) -> Result<(), AllocError>
    ensures { OnOk result (string_bytes out.new ≡ string_bytes out.old ++ listed next_literal lits.now) }
{
    for lit in lits {
        put_next(out, *lit)?;
    }
    Ok(())
}

fn put_next(out: &mut String, lit: Lit) -> Result<(), AllocError>
    ensures { OnOk result (string_bytes out.new ≡ string_bytes out.old ++ next_literal lit) }
{
    out.push_str(" ")?;
    put_literal(out, lit)
}

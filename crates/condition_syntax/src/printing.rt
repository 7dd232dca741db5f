//! The canonical text of conditions.
ghost use Rattle.std.specs.Prelude.{◌≡◌, ℕ, ◌++◌, ◌||◌, List, IfOk, OnOk, map, codes};
ghost use Rattle.source_text.specs.Tokens.{Token};
ghost use Rattle.source_text.specs.Printed.{AreFromLine};
ghost use Rattle.condition_syntax.specs.Trees.{condition_of, conjunction, disjunction};
ghost use Rattle.condition_syntax.specs.declared.conditions.Style.{Style};
ghost use Rattle.condition_syntax.specs.Grammar.{SpellsExpr, SpellsCond, SpellsJoined, SpellsPart};
ghost use Rattle.condition_syntax.specs.CanonicalTokens.{Prints};
ghost use Rattle.condition_syntax.specs.CanonicalText.{rel_text, number_text, expr_text, is_conjunction, is_disjunction, bracketed_if, condition_text};

use crate::conditions::Cond;
use crate::expressions::Expr;
use crate::sum_texts::{put_expr, put_number};
use std::alloc::{AllocError, Global};
use weighing::{Num, Rel5};
use whole::NoMemory;

fn put_rel(out: &mut Vec<u8>, rel: Rel5) -> Result<(), AllocError>
    ensures { OnOk result (out.new.items ≡ out.old.items ++ rel_text rel) }
{
    match rel {
        Rel5::AtMost => out.extend_from_slice(b" <= "),
        Rel5::Below => out.extend_from_slice(b" < "),
        Rel5::AtLeast => out.extend_from_slice(b" >= "),
        Rel5::Above => out.extend_from_slice(b" > "),
        Rel5::Equal => out.extend_from_slice(b" == "),
    }
}

fn put_comparison(
    alloc: Global,
    out: &mut Vec<u8>,
    left: &Expr,
    rel: Rel5,
    right: &Expr,
) -> Result<(), AllocError>
    ensures { OnOk result (out.new.items ≡ out.old.items ++ (expr_text left.now.terms ++ (rel_text rel ++ expr_text right.now.terms))) }
{
    put_expr(alloc, out, left)?;
    put_rel(out, rel)?;
    put_expr(alloc, out, right)
}

fn put_delay(alloc: Global, out: &mut Vec<u8>, rows: Num) -> Result<(), AllocError>
    ensures { OnOk result (out.new.items ≡ out.old.items ++ (codes "delay >= " ++ number_text rows)) }
{
    out.extend_from_slice(b"delay >= ")?;
    put_number(alloc, out, rows)
}

#[tactic(auto, unfolding(crate::specs::CanonicalText::is_conjunction))]
fn is_conjunction(condition: &Cond) -> bool
    ensures { result ≡ is_conjunction (condition_of condition.now) }
{
    match condition {
        Cond::And(_) => true,
        Cond::True => false,
        Cond::False => false,
        Cond::Cmp(..) => false,
        Cond::Delay(_) => false,
        Cond::Not(_) => false,
        Cond::Or(_) => false,
    }
}

#[tactic(auto, unfolding(crate::specs::CanonicalText::is_disjunction))]
fn is_disjunction(condition: &Cond) -> bool
    ensures { result ≡ is_disjunction (condition_of condition.now) }
{
    match condition {
        Cond::Or(_) => true,
        Cond::True => false,
        Cond::False => false,
        Cond::Cmp(..) => false,
        Cond::Delay(_) => false,
        Cond::Not(_) => false,
        Cond::And(_) => false,
    }
}

/// Appends the canonical text of the condition.
#[cycle(texts)]
#[tactic(auto, unfolding(crate::specs::CanonicalText::condition_text))]
pub fn put_condition(alloc: Global, out: &mut Vec<u8>, condition: &Cond) -> Result<(), AllocError>
    ensures { OnOk result (out.new.items ≡ out.old.items ++ condition_text (condition_of condition.now)) }
{
    match condition {
        Cond::True => out.extend_from_slice(b"true"),
        Cond::False => out.extend_from_slice(b"false"),
        Cond::Cmp(left, rel, right) => put_comparison(alloc, out, left, *rel, right),
        Cond::Delay(rows) => put_delay(alloc, out, *rows),
        Cond::Not(part) => put_opposite(alloc, out, part),
        Cond::And(parts) => put_all(alloc, out, parts),
        Cond::Or(parts) => put_any(alloc, out, parts),
    }
}

/// The condition, between brackets if they are wanted.
#[cycle(texts)]
fn put_bracketed_if(
    alloc: Global,
    out: &mut Vec<u8>,
    wanted: bool,
    condition: &Cond,
) -> Result<(), AllocError>
    ensures { OnOk result (out.new.items ≡ out.old.items ++ bracketed_if wanted (condition_text (condition_of condition.now))) }
{
    if !wanted {
        return put_condition(alloc, out, condition);
    }
    out.extend_from_slice(b"(")?;
    put_condition(alloc, out, condition)?;
    out.extend_from_slice(b")")
}

/// The negation of a part.
#[cycle(texts)]
fn put_opposite(alloc: Global, out: &mut Vec<u8>, part: &Cond) -> Result<(), AllocError>
    ensures { OnOk result (out.new.items ≡ out.old.items ++ (codes "not " ++ bracketed_if (is_conjunction (condition_of part.now) || is_disjunction (condition_of part.now)) (condition_text (condition_of part.now)))) }
{
    out.extend_from_slice(b"not ")?;
    let brackets = is_conjunction(part) || is_disjunction(part);
    put_bracketed_if(alloc, out, brackets, part)
}

/// A conjunction.
#[cycle(texts)]
fn put_all(alloc: Global, out: &mut Vec<u8>, parts: &Vec<Cond>) -> Result<(), AllocError>
    ensures { OnOk result (out.new.items ≡ out.old.items ++ condition_text (conjunction (map condition_of parts.now.items))) }
{
    let mut joint = b"".as_slice();
    for part in parts {
        out.extend_from_slice(joint)?;
        let wanted = is_conjunction(part) || is_disjunction(part);
        put_bracketed_if(alloc, out, wanted, part)?;
        joint = b" and ".as_slice();
    }
    Ok(())
}

/// A disjunction.
#[cycle(texts)]
fn put_any(alloc: Global, out: &mut Vec<u8>, parts: &Vec<Cond>) -> Result<(), AllocError>
    ensures { OnOk result (out.new.items ≡ out.old.items ++ condition_text (disjunction (map condition_of parts.now.items))) }
{
    let mut joint = b"".as_slice();
    for part in parts {
        out.extend_from_slice(joint)?;
        put_bracketed_if(alloc, out, is_disjunction(part), part)?;
        joint = b" or ".as_slice();
    }
    Ok(())
}

/// The canonical text of the condition. Of a condition that a line can spell it is read as tokens that spell the condition,
/// so that reading gives it again.
pub fn print_condition(alloc: Global, condition: &Cond) -> Result<Vec<u8>, NoMemory>
    ensures exact { IfOk result (λ bytes. bytes.items ≡ condition_text (condition_of condition.now)) }
    ensures again { (style : Style) (front : List Token) → SpellsCond style front (condition_of condition.now) → AreFromLine front
        → IfOk result (λ bytes. Prints (SpellsCond style) bytes.items (condition_of condition.now)) }

    // The text nests no deeper than any that spells the condition.
    ensures no_deeper { (style : Style) (room : ℕ) (front : List Token) → SpellsJoined (SpellsPart style room) front (condition_of condition.now) → AreFromLine front
        → IfOk result (λ bytes. Prints (SpellsJoined (SpellsPart style room)) bytes.items (condition_of condition.now)) }
{
    condition_bytes(alloc, condition)
}

fn condition_bytes(alloc: Global, condition: &Cond) -> Result<Vec<u8>, NoMemory>
    ensures { IfOk result (λ bytes. bytes.items ≡ condition_text (condition_of condition.now)) }
{
    let mut out = Vec::new(alloc);
    put_condition(alloc, &mut out, condition)?;
    Ok(out)
}

/// The canonical text of the expression. Of an expression that a line can spell it is read as tokens that spell the
/// expression, so that reading gives it again.
pub fn print_expr(alloc: Global, expr: &Expr) -> Result<Vec<u8>, NoMemory>
    ensures exact { IfOk result (λ bytes. bytes.items ≡ expr_text expr.now.terms) }
    ensures again { (style : Style) (front : List Token) → SpellsExpr style front expr.now.terms → AreFromLine front
        → IfOk result (λ bytes. Prints (SpellsExpr style) bytes.items expr.now.terms) }
{
    expr_bytes(alloc, expr)
}

fn expr_bytes(alloc: Global, expr: &Expr) -> Result<Vec<u8>, NoMemory>
    ensures { IfOk result (λ bytes. bytes.items ≡ expr_text expr.now.terms) }
{
    let mut out = Vec::new(alloc);
    put_expr(alloc, &mut out, expr)?;
    Ok(out)
}

//! Expressions, read from the left term by term.
ghost use Rattle.std.specs.Prelude.{◌≡◌};
ghost use Rattle.condition_syntax.specs.Halts.{GivesRest, GivesSeen};
ghost use Rattle.condition_syntax.specs.Expressions.{onward, terms_by, expr_by};

use crate::conditions::Style;
use crate::expressions::{ETerm, Expr};
use crate::faults::ReadStop;
use crate::fronts::stands;
use crate::terms::{extra_term, term};
use source_text::{Cursor, Sign};
use sqlite_items::Items;
use std::alloc::Global;

/// The greatest number of terms.
const TERM_LIMIT: usize = 16;

/// The sign with which an expression goes on: whether it is a `-`.
#[tactic(auto, unfolding(crate::specs::Expressions::onward))]
fn onward(cursor: &Cursor<'_>) -> Option<bool>
    ensures { result ≡ onward cursor.now.tokens }
{
    if stands(cursor, Sign::Plus) {
        Some(false)
    } else if stands(cursor, Sign::Minus) {
        Some(true)
    } else {
        None
    }
}

/// The terms, the first of which has this sign.
fn terms(
    alloc: Global,
    cursor: &mut Cursor<'_>,
    style: Style,
    mut negative: bool,
) -> Result<Items<ETerm>, ReadStop>
    ensures exact { GivesRest result cursor.new.tokens (terms_by style 16 negative cursor.old.tokens) }
    ensures line { cursor.new.line ≡ cursor.old.line }
{
    let mut terms = Items::new(alloc);
    for _i in 0..TERM_LIMIT {
        let term = term(alloc, cursor, style, negative)?;
        terms.push(term)?;
        match onward(cursor) {
            None => return Ok(terms),
            Some(next) => {
                cursor.advance();
                negative = next;
            }
        }
    }
    Err(ReadStop::Fault(extra_term(cursor)))
}

/// An expression.
#[tactic(auto, unfolding(crate::specs::Expressions::expr_by))]
pub(crate) fn expr(alloc: Global, cursor: &mut Cursor<'_>, style: Style) -> Result<Expr, ReadStop>
    ensures exact { GivesSeen (λ expr. expr.terms) result cursor.new.tokens (expr_by style cursor.old.tokens) }
    ensures line { cursor.new.line ≡ cursor.old.line }
{
    let negative = stands(cursor, Sign::Minus);
    if negative {
        cursor.advance();
    }
    let terms = terms(alloc, cursor, style, negative)?;
    Ok(Expr { terms })
}

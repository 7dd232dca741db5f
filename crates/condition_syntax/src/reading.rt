//! Expressions and conditions, read from the front of what is left of a line.
ghost use Rattle.std.specs.Prelude.{◌≡◌, List, ◌++◌, IfOk, IsErrOf, Ok, Err};
ghost use Rattle.source_text.specs.Tokens.{Token};
ghost use Rattle.condition_syntax.specs.RefusalRules.{refusal, fault_of, refused, GivesRead, IsRefusedBy};
ghost use Rattle.condition_syntax.specs.WrongTokens.{RefusesExpr, RefusesCond};
ghost use Rattle.whole.specs.declared.answers.Refusal.{Refusal};
ghost use Rattle.condition_syntax.specs.Trees.{Condition, condition_of};
ghost use Rattle.condition_syntax.specs.Expressions.{expr_by};
ghost use Rattle.condition_syntax.specs.Conditions.{condition_by};
ghost use Rattle.condition_syntax.specs.Grammar.{SpellsExpr, SpellsCond};
ghost use Rattle.condition_syntax.specs.Limits.{IsExpr, IsCondition};
ghost use Rattle.condition_syntax.specs.Ends.{Taken, EndsExpr, EndsCond};
ghost use Rattle.condition_syntax.specs.declared.expressions.ETerm.{ETerm};
ghost use Rattle.condition_syntax.specs.declared.faults.Fault.{Fault};

use crate::conditions::{Cond, Style};
use crate::expressions::Expr;
use crate::faults::{Fault, ReadStop};
use crate::parts::condition;
use crate::sums::expr;
use source_text::Cursor;
use std::alloc::Global;
use whole::{ReadFault, Refusal};

/// The greatest number of nested `not` and brackets.
const NESTING_LIMIT: u32 = 16;

/// The rule by which a controller or a question is refused.
fn rule(style: Style, fault: Fault) -> u8
    ensures { result ≡ (refusal style 0 fault).number }
{
    match (style, fault) {
        (_, Fault::WrongByte) => 2,
        (Style::Controller, Fault::Number) => 7,
        (Style::Controller, Fault::Term) => 8,
        (Style::Controller, Fault::Part) => 9,
        (Style::Controller, Fault::Depth) => 10,
        (Style::Controller, Fault::Count) => 11,
        (Style::Question, Fault::Number) => 5,
        (Style::Question, Fault::Term) => 7,
        (Style::Question, Fault::Part) => 8,
        (Style::Question, Fault::Depth | Fault::Count) => 9,
    }
}

/// The refusal of a controller or a question for a fault on this line.
pub fn refusal(style: Style, line: u32, fault: Fault) -> Refusal
    ensures { result ≡ refusal style line fault }
{
    let letter = match style {
        Style::Controller => b'G',
        Style::Question => b'Q',
    };
    Refusal {
        letter,
        number: rule(style, fault),
        line,
    }
}

fn read_fault(style: Style, line: u32, halt: ReadStop) -> ReadFault
    ensures { result ≡ fault_of style line halt }
{
    match halt {
        ReadStop::Fault(fault) => ReadFault::Refused(refusal(style, line, fault)),
        ReadStop::NoMemory => ReadFault::NoMemory,
    }
}

/// Reads the longest expression from the cursor on, and leaves it behind. It is refused at the first token at which
/// nothing allowed stands, by that token's line: a controller by G2, G7, G8 or G11, a question by Q2, Q5, Q7 or Q9.
/// After a refusal the cursor's place is free.
pub fn read_expr(alloc: Global, cursor: &mut Cursor<'_>, style: Style) -> Result<Expr, ReadFault>
    ensures exact { GivesRead (λ expr. expr.terms) result cursor.new.tokens (refused style cursor.old.line (expr_by style cursor.old.tokens)) }

    // What is read is spelled by the tokens in front, and what is left can't go on with it. What spells an expression that
    // can't go on is read, unless memory runs out.
    ensures taken { IfOk result (λ expr. Taken (SpellsExpr style) (EndsExpr style) cursor.old.tokens (expr.terms, cursor.new.tokens)) }
    ensures again { (front rest : List Token) (terms : List ETerm) (spelled : SpellsExpr style front terms) → EndsExpr style front terms spelled rest → cursor.old.tokens ≡ front ++ rest
        → GivesRead (λ expr. expr.terms) result cursor.new.tokens (Ok (terms, rest)) }

    // A refusal is by a fault of these tokens, and a fault of these tokens is refused, unless memory runs out.
    ensures refused { (r : Refusal) → IsErrOf result (ReadFault.Refused r) → IsRefusedBy style cursor.old.line (RefusesExpr style cursor.old.tokens) r }
    ensures first { (fault : Fault) → RefusesExpr style cursor.old.tokens fault → GivesRead (λ expr. expr.terms) result cursor.new.tokens (Err (refusal style cursor.old.line fault)) }

    ensures within { IfOk result IsExpr }
    ensures line { cursor.new.line ≡ cursor.old.line }
{
    whole_expr(alloc, cursor, style)
}

fn whole_expr(alloc: Global, cursor: &mut Cursor<'_>, style: Style) -> Result<Expr, ReadFault>
    ensures exact { GivesRead (λ expr. expr.terms) result cursor.new.tokens (refused style cursor.old.line (expr_by style cursor.old.tokens)) }
    ensures line { cursor.new.line ≡ cursor.old.line }
{
    let line = cursor.number();
    match expr(alloc, cursor, style) {
        Ok(expr) => Ok(expr),
        Err(halt) => Err(read_fault(style, line, halt)),
    }
}

/// Reads the longest condition from the cursor on, and leaves it behind. It is refused at the first token at which
/// nothing allowed stands, by that token's line: a controller by G2 or G7 to G11, a question by Q2, Q5 or Q7 to Q9.
/// After a refusal the cursor's place is free.
pub fn read_condition(
    alloc: Global,
    cursor: &mut Cursor<'_>,
    style: Style,
) -> Result<Cond, ReadFault>
    ensures exact { GivesRead condition_of result cursor.new.tokens (refused style cursor.old.line (condition_by style cursor.old.tokens)) }

    // What is read is spelled by the tokens in front, and what is left can't go on with it. What spells a condition that
    // can't go on is read, unless memory runs out.
    ensures taken { IfOk result (λ c. Taken (SpellsCond style) (EndsCond style) cursor.old.tokens (condition_of c, cursor.new.tokens)) }
    ensures again { (front rest : List Token) (c : Condition) (spelled : SpellsCond style front c) → EndsCond style front c spelled rest → cursor.old.tokens ≡ front ++ rest
        → GivesRead condition_of result cursor.new.tokens (Ok (c, rest)) }

    // A refusal is by a fault of these tokens, and a fault of these tokens is refused, unless memory runs out.
    ensures refused { (r : Refusal) → IsErrOf result (ReadFault.Refused r) → IsRefusedBy style cursor.old.line (RefusesCond style cursor.old.tokens) r }
    ensures first { (fault : Fault) → RefusesCond style cursor.old.tokens fault → GivesRead condition_of result cursor.new.tokens (Err (refusal style cursor.old.line fault)) }

    ensures within { IfOk result (λ c. IsCondition (condition_of c)) }
    ensures line { cursor.new.line ≡ cursor.old.line }
{
    whole_condition(alloc, cursor, style)
}

#[tactic(auto, unfolding(crate::specs::Conditions::condition_by, crate::specs::Conditions::condition_within))]
fn whole_condition(alloc: Global, cursor: &mut Cursor<'_>, style: Style) -> Result<Cond, ReadFault>
    ensures exact { GivesRead condition_of result cursor.new.tokens (refused style cursor.old.line (condition_by style cursor.old.tokens)) }
    ensures line { cursor.new.line ≡ cursor.old.line }
{
    let line = cursor.number();
    let mut begun = 0;
    match condition(alloc, cursor, style, NESTING_LIMIT, &mut begun) {
        Ok(condition) => Ok(condition),
        Err(halt) => Err(read_fault(style, line, halt)),
    }
}

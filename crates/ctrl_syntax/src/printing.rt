//! The canonical text of controllers.
ghost use Rattle.std.specs.Prelude.{◌≡◌, ◌++◌, List, ℕ, IfOk, OnOk, flat_map};
ghost use Rattle.ctrl_syntax.specs.Sections.{guard_of, rule_of, rules_of, sections_of};
ghost use Rattle.ctrl_syntax.specs.Grammar.{IsText};
ghost use Rattle.ctrl_syntax.specs.Printed.{bound_text, kind_text, state_text, guard_text, set_text, titled_text, line_text, rule_text, rate_text, printed, SpellsAgain};

use crate::syntax::{RateLine, RuleLine, SetLine, StateLine, Syntax};
use condition_syntax::{Cond, Expr, Num, put_condition, put_expr, put_number};
use std::alloc::{AllocError, Global};
use whole::NoMemory;

/// A bound of a range, with its sign.
#[tactic(auto, unfolding(crate::specs::Printed::bound_text))]
fn put_bound(alloc: Global, out: &mut Vec<u8>, bound: Num) -> Result<(), AllocError>
    ensures { OnOk result (out.new.items ≡ out.old.items ++ bound_text bound) }
{
    if bound.num < 0 {
        out.extend_from_slice(b"-")?;
    }
    put_number(alloc, out, bound)
}

fn put_kind(out: &mut Vec<u8>, count: bool) -> Result<(), AllocError>
    ensures { OnOk result (out.new.items ≡ out.old.items ++ kind_text count) }
{
    if count {
        out.extend_from_slice(b" count init ")
    } else {
        out.extend_from_slice(b" data init ")
    }
}

#[tactic(auto, unfolding(crate::specs::Printed::state_text))]
fn put_state(alloc: Global, out: &mut Vec<u8>, state: &StateLine) -> Result<(), AllocError>
    ensures { OnOk result (out.new.items ≡ out.old.items ++ line_text state_text state.now) }
{
    out.extend_from_slice(b"state ")?;
    out.extend_from_slice(state.name.as_slice())?;
    put_kind(out, state.count)?;
    put_bound(alloc, out, state.lo)?;
    out.extend_from_slice(b" ")?;
    put_bound(alloc, out, state.hi)?;
    out.extend_from_slice(b"\n")
}

fn put_states(alloc: Global, out: &mut Vec<u8>, states: &[StateLine]) -> Result<(), AllocError>
    ensures { OnOk result (out.new.items ≡ out.old.items ++ flat_map (line_text state_text) states.now) }
{
    for state in states {
        put_state(alloc, out, state)?;
    }
    Ok(())
}

fn put_guard(alloc: Global, out: &mut Vec<u8>, guard: &Option<Cond>) -> Result<(), AllocError>
    ensures { OnOk result (out.new.items ≡ out.old.items ++ line_text guard_text (guard_of guard.now)) }
{
    match guard {
        None => out.extend_from_slice(b"rule otherwise\n"),
        Some(condition) => {
            out.extend_from_slice(b"rule when ")?;
            put_condition(alloc, out, condition)?;
            out.extend_from_slice(b"\n")
        }
    }
}

#[tactic(auto, unfolding(crate::specs::Printed::set_text))]
fn put_set(alloc: Global, out: &mut Vec<u8>, set: &SetLine) -> Result<(), AllocError>
    ensures { OnOk result (out.new.items ≡ out.old.items ++ line_text set_text set.now) }
{
    out.extend_from_slice(b"set ")?;
    out.extend_from_slice(set.name.as_slice())?;
    out.extend_from_slice(b" = ")?;
    put_expr(alloc, out, &set.expr)?;
    out.extend_from_slice(b"\n")
}

fn put_sets(alloc: Global, out: &mut Vec<u8>, sets: &[SetLine]) -> Result<(), AllocError>
    ensures { OnOk result (out.new.items ≡ out.old.items ++ flat_map (line_text set_text) sets.now) }
{
    for set in sets {
        put_set(alloc, out, set)?;
    }
    Ok(())
}

/// A rule's line and its assignments.
fn put_rule(alloc: Global, out: &mut Vec<u8>, rule: &RuleLine) -> Result<(), AllocError>
    ensures { OnOk result (out.new.items ≡ out.old.items ++ rule_text (rule_of rule.now)) }
{
    put_guard(alloc, out, &rule.guard)?;
    put_sets(alloc, out, rule.sets.as_slice())
}

fn put_rules(alloc: Global, out: &mut Vec<u8>, rules: &[RuleLine]) -> Result<(), AllocError>
    ensures { OnOk result (out.new.items ≡ out.old.items ++ flat_map rule_text (rules_of rules.now)) }
{
    for rule in rules {
        put_rule(alloc, out, rule)?;
    }
    Ok(())
}

/// `window EXPR` or `rate EXPR`
fn put_titled(alloc: Global, out: &mut Vec<u8>, title: &[u8], expr: &Expr) -> Result<(), AllocError>
    ensures { OnOk result (out.new.items ≡ out.old.items ++ line_text (titled_text title.now) expr.now) }
{
    out.extend_from_slice(title)?;
    put_expr(alloc, out, expr)?;
    out.extend_from_slice(b"\n")
}

fn put_rate(alloc: Global, out: &mut Vec<u8>, rate: &Option<RateLine>) -> Result<(), AllocError>
    ensures { OnOk result (out.new.items ≡ out.old.items ++ rate_text rate.now) }
{
    match rate {
        None => Ok(()),
        Some(rate) => put_titled(alloc, out, b"rate ", &rate.expr),
    }
}

/// The canonical text: one space between tokens, no comments, no skipped lines. Reading gives the syntax again but for
/// its line numbers, whatever text it was read from.
pub fn print(alloc: Global, syntax: &Syntax) -> Result<Vec<u8>, NoMemory>
    ensures exact { IfOk result (λ out. out.items ≡ printed (sections_of syntax.now)) }
    ensures again { (bytes : List ℕ) → IsText bytes (sections_of syntax.now) → IfOk result (λ out. SpellsAgain out.items (sections_of syntax.now)) }
{
    text_bytes(alloc, syntax)
}

#[tactic(auto, unfolding(crate::specs::Printed::printed))]
fn text_bytes(alloc: Global, syntax: &Syntax) -> Result<Vec<u8>, NoMemory>
    ensures { IfOk result (λ out. out.items ≡ printed (sections_of syntax.now)) }
{
    let mut out = Vec::new(alloc);
    out.extend_from_slice(b"ccac-controller 1\n")?;
    put_states(alloc, &mut out, syntax.states.as_slice())?;
    put_rules(alloc, &mut out, syntax.rules.as_slice())?;
    put_titled(alloc, &mut out, b"window ", &syntax.window)?;
    put_rate(alloc, &mut out, &syntax.rate)?;
    out.extend_from_slice(b"end\n")?;
    Ok(out)
}

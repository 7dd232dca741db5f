//! The lines of a drawn controller.

ghost use Rattle.std.specs.Prelude.{◌≡◌, ◌+◌, ◌<◌, ◌≤◌, ◌++◌, ℕ, IfOk, [], ◌∷◌, codes};
ghost use Rattle.condition_syntax.specs.Trees.{condition_of};
ghost use Rattle.ctrl_syntax.specs.Sections.{rule_of, rules_of};
ghost use Rattle.ctrl_gen.specs.Draws.{IsDrawn, each};
ghost use Rattle.ctrl_gen.specs.Problems.{over, alone, number_term, name_term, sum_of, state_name, signal_above, drawn_state, guard_by, drawn_guard, drawn_set, drawn_rule, drawn_rules, otherwise};

use crate::draws::Draws;
use ctrl_syntax::{Cond, ETerm, Expr, Name, Num, Rel5, RuleLine, SetLine, StateLine};
use sqlite_items::Items;
use std::alloc::Global;
use whole::NoMemory;

pub(crate) fn over(num: u32, den: u32) -> Num
    ensures { result ≡ over num den }
{
    Num {
        num: i128::from(num),
        den: i128::from(den),
    }
}

pub(crate) fn number_term(num: Num) -> ETerm
    ensures { result ≡ number_term num }
{
    ETerm {
        coef: num,
        name: None,
    }
}

/// A sum of one term.
pub(crate) fn sum_of_one(alloc: Global, term: ETerm) -> Result<Expr, NoMemory>
    ensures { IfOk result (λ sum. sum ≡ sum_of (term ∷ [])) }
{
    let mut terms = Items::new(alloc);
    terms.push(term)?;
    Ok(Expr { terms })
}

/// A sum of two terms.
pub(crate) fn sum_of_two(alloc: Global, first: ETerm, second: ETerm) -> Result<Expr, NoMemory>
    ensures { IfOk result (λ sum. sum ≡ sum_of (first ∷ second ∷ [])) }
{
    let mut terms = Items::new(alloc);
    terms.push(first)?;
    terms.push(second)?;
    Ok(Expr { terms })
}

/// A name with neither flow nor step, times a number.
pub(crate) fn name_term(coef: Num, text: Items<u8>) -> ETerm
    ensures { result ≡ name_term coef (alone text) }
{
    let name = Name {
        text,
        flow: None,
        step: None,
    };
    ETerm {
        coef,
        name: Some(name),
    }
}

/// `s1`, `s2`, ..
pub(crate) fn state_name(alloc: Global, number: u32) -> Result<Items<u8>, NoMemory>
    ensures { IfOk result (λ name. name ≡ state_name number) }
{
    let name = format!(in alloc; "s{number}")?;
    Ok(Items::from_slice(alloc, name.as_bytes())?)
}

/// `state sJ data init LO HI`
#[tactic(auto, unfolding(crate::specs::Problems::drawn_state))]
fn drawn_state(alloc: Global, draws: &mut Draws, number: u32) -> Result<StateLine, NoMemory>
    ensures { IfOk result (λ state. IsDrawn state draws.new.state (drawn_state number draws.old.state)) }
{
    let lo = 1 + draws.draw(3);
    let spread = draws.draw(3);
    Ok(StateLine {
        name: state_name(alloc, number)?,
        count: false,
        lo: over(lo, 1),
        hi: over(lo + spread, 1),
        line: 0,
    })
}

/// The lines of the states 1 to `count`.
#[tactic(auto, unfolding(crate::specs::Draws::each))]
pub(crate) fn drawn_states(
    alloc: Global,
    draws: &mut Draws,
    count: u32,
) -> Result<Items<StateLine>, NoMemory>
    requires { count ≤ 3 }
    ensures { IfOk result (λ states. IsDrawn states draws.new.state (each drawn_state count draws.old.state)) }
{
    let mut states = Items::new(alloc);
    for number in 0..count {
        let state = drawn_state(alloc, draws, number + 1)?;
        states.push(state)?;
    }
    Ok(states)
}

/// `SIGNAL > N`
fn signal_above(alloc: Global, signal: &[u8], number: u32) -> Result<Cond, NoMemory>
    ensures { IfOk result (λ cond. condition_of cond ≡ signal_above signal.now number) }
{
    let name = Items::from_slice(alloc, signal)?;
    let left = sum_of_one(alloc, name_term(over(1, 1), name))?;
    let right = sum_of_one(alloc, number_term(over(number, 1)))?;
    Ok(Cond::Cmp(left, Rel5::Above, right))
}

/// A guard: one of three kinds.
#[tactic(auto, unfolding(crate::specs::Problems::drawn_guard, crate::specs::Problems::guard_by))]
fn drawn_guard(alloc: Global, draws: &mut Draws) -> Result<Cond, NoMemory>
    ensures { IfOk result (λ cond. IsDrawn (condition_of cond) draws.new.state (drawn_guard draws.old.state)) }
{
    match draws.draw(3) {
        0 => signal_above(alloc, b"lost", 0),
        1 => signal_above(alloc, b"acked", draws.draw(4)),
        _ => Ok(Cond::Delay(over(1 + draws.draw(2), 1))),
    }
}

/// `set sJ = A/B * sJ + C/D`
#[tactic(auto, unfolding(crate::specs::Problems::drawn_set))]
fn drawn_set(alloc: Global, draws: &mut Draws, number: u32) -> Result<SetLine, NoMemory>
    ensures { IfOk result (λ set. IsDrawn set draws.new.state (drawn_set number draws.old.state)) }
{
    let a = 1 + draws.draw(3);
    let b = 1 + draws.draw(4);
    let c = draws.draw(3);
    let d = 1 + draws.draw(4);
    let kept = name_term(over(a, b), state_name(alloc, number)?);
    let expr = sum_of_two(alloc, kept, number_term(over(c, d)))?;
    Ok(SetLine {
        name: state_name(alloc, number)?,
        expr,
        line: 0,
    })
}

/// The assignments to the states 1 to `count`.
#[tactic(auto, unfolding(crate::specs::Draws::each))]
fn drawn_sets(alloc: Global, draws: &mut Draws, count: u32) -> Result<Items<SetLine>, NoMemory>
    requires { count ≤ 3 }
    ensures { IfOk result (λ sets. IsDrawn sets draws.new.state (each drawn_set count draws.old.state)) }
{
    let mut sets = Items::new(alloc);
    for number in 0..count {
        let set = drawn_set(alloc, draws, number + 1)?;
        sets.push(set)?;
    }
    Ok(sets)
}

/// A rule that sets each of the states.
#[tactic(auto, unfolding(crate::specs::Problems::drawn_rule))]
fn drawn_rule(alloc: Global, draws: &mut Draws, states: u32) -> Result<RuleLine, NoMemory>
    requires { states ≤ 3 }
    ensures { IfOk result (λ rule. IsDrawn (rule_of rule) draws.new.state (drawn_rule states draws.old.state)) }
{
    let guard = drawn_guard(alloc, draws)?;
    let sets = drawn_sets(alloc, draws, states)?;
    Ok(RuleLine {
        guard: Some(guard),
        sets,
        line: 0,
    })
}

/// The rules in front of `otherwise`.
#[tactic(auto, unfolding(crate::specs::Problems::drawn_rules, crate::specs::Draws::each))]
pub(crate) fn drawn_rules(
    alloc: Global,
    draws: &mut Draws,
    states: u32,
) -> Result<Items<RuleLine>, NoMemory>
    requires { states ≤ 3 }
    ensures { IfOk result (λ rules. IsDrawn (rules_of rules) draws.new.state (drawn_rules states draws.old.state)) }
{
    let count = draws.draw(3);
    let mut rules = Items::new(alloc);
    for _made in 0..count {
        let rule = drawn_rule(alloc, draws, states)?;
        rules.push(rule)?;
    }
    Ok(rules)
}

/// The rule that is always the last.
pub(crate) fn otherwise(alloc: Global) -> RuleLine
    ensures { rule_of result ≡ otherwise }
{
    RuleLine {
        guard: None,
        sets: Items::new(alloc),
        line: 0,
    }
}

//! A bound is asserted: it contradicts, or is implied, or is put in force.

ghost use Rattle.std.specs.Prelude.{◌≡◌, ◌↔◌, ◌+◌, ◌<◌, ◌^◌, ◌≤ℤ◌, pos, length, ℕ, List, None, IsTrue, IfOk, OnOk, OnErr, IfErr, MatchOption};
ghost use Rattle.ordered_field.specs.Delta.{delta_value};
ghost use Rattle.whole.specs.Numbers.{IsWithin};
ghost use Rattle.tableau.specs.Operations.{IfStuck};
ghost use Rattle.tableau.specs.Tables.{variables};
ghost use Rattle.simplex.specs.Assignments.{IsBuilt, state_of};
ghost use Rattle.simplex.specs.States.{rest_of, limits_in};
ghost use Rattle.simplex.specs.Limits.{limit_value, Contradicts, IsImplied, Excludes, IsNoStronger};
ghost use Rattle.simplex.specs.Shares.{AreShares};
ghost use Rattle.simplex.specs.Bounds.{AnswersBoundAtWork, both_limits};
ghost use Rattle.simplex.specs.Settings.{Opposes, AreOnes, MustMove, IsPut, IsStuckPut, SetsLimit};

use crate::assignment::Assignment;
use crate::bound::limit_of;
use crate::choice::is_below;
use crate::limits::{Limit, Limits};
use crate::outcome::{Bound, Outcome, Share};
use ordered_field::{Delta, OrderedField, one};
use std::alloc::{AllocError, Global};
use tableau::PivotFault;

/// `assert upper` or `assert lower` of the paper.
pub(crate) fn set<F: OrderedField>(
    alloc: Global,
    assignment: &mut Assignment<F>,
    limits: &mut Limits<F>,
    bound: Bound,
    tag: u32,
) -> Outcome<F>
    requires built { IsBuilt F.value assignment.old limits.old None }
    requires within { IsWithin bound.num }
    requires positive { pos 1 ≤ℤ bound.den }
    requires variable { bound.var < variables assignment.old.table }
    requires room { length limits.old.limits + 1 < 2 ^ 32 }
    ensures answers { (ps : List (ℕ × ℕ)) → AnswersBoundAtWork F.LIMIT F.value
        (state_of assignment.old limits.old ps None) bound tag result (state_of assignment.new limits.new ps (rest_of result)) }
    ensures built { IsBuilt F.value assignment.new limits.new (rest_of result) }
{
    match limit_of::<F>(bound, tag) {
        Ok(limit) => set_limit(alloc, assignment, limits, limit),
        Err(stuck) => Outcome::Stuck(stuck),
    }
}

// Sets the limit that a bound means.
fn set_limit<F: OrderedField>(
    alloc: Global,
    assignment: &mut Assignment<F>,
    limits: &mut Limits<F>,
    limit: Limit<Delta<F>>,
) -> Outcome<F>
    requires built { IsBuilt F.value assignment.old limits.old None }
    requires variable { limit.var < variables assignment.old.table }
    requires room { length limits.old.limits + 1 < 2 ^ 32 }
    ensures answers { SetsLimit F.LIMIT F.value assignment.old limits.old limit result assignment.new limits.new }
    ensures built { IsBuilt F.value assignment.new limits.new (rest_of result) }
{
    match opposed(limits, limit) {
        Some(other) => match both(alloc, limit, other) {
            Ok(shares) => Outcome::Conflict(shares),
            Err(_) => Outcome::NoMemory,
        },
        None => set_agreed(assignment, limits, limit),
    }
}

// Sets a limit that contradicts none.
fn set_agreed<F: OrderedField>(
    assignment: &mut Assignment<F>,
    limits: &mut Limits<F>,
    limit: Limit<Delta<F>>,
) -> Outcome<F>
    requires built { IsBuilt F.value assignment.old limits.old None }
    requires variable { limit.var < variables assignment.old.table }
    requires room { length limits.old.limits + 1 < 2 ^ 32 }
    requires agrees { ¬ Contradicts (limits_in F.value limits.old.limits) (limit_value F.value limit) }
    ensures answers { SetsLimit F.LIMIT F.value assignment.old limits.old limit result assignment.new limits.new }
    ensures built { IsBuilt F.value assignment.new limits.new (rest_of result) }
{
    if is_implied(limits, limit) {
        return Outcome::Fine;
    }
    match put_in_force(assignment, limits, limit) {
        Ok(()) => Outcome::Fine,
        Err(PivotFault::Stuck(stuck)) => Outcome::Stuck(stuck),
        Err(PivotFault::NoMemory) => Outcome::NoMemory,
    }
}

// The limit in force on the other side that a new one contradicts.
fn opposed<F: OrderedField>(limits: &Limits<F>, limit: Limit<Delta<F>>) -> Option<Limit<Delta<F>>>
    requires { limit.var < limits.now.variables }
    ensures { MatchOption result
        (¬ Contradicts (limits_in F.value limits.now.limits) (limit_value F.value limit))
        (λ other. Opposes (limits_in F.value limits.now.limits) (limit_value F.value limit) (limit_value F.value other)) }
{
    match limits.in_force(!limit.upper, limit.var) {
        Some(other) => {
            if excludes(limit, other) {
                Some(other)
            } else {
                None
            }
        }
        None => None,
    }
}

// Whether no number is within both.
fn excludes<F: OrderedField>(limit: Limit<Delta<F>>, other: Limit<Delta<F>>) -> bool
    ensures { IsTrue result ↔ Excludes limit.upper (delta_value F.value limit.at) (delta_value F.value other.at) }
{
    if limit.upper {
        is_below(limit.at, other.at)
    } else {
        is_below(other.at, limit.at)
    }
}

// Both limits with 1, the lower one first.
fn both<F: OrderedField>(
    alloc: Global,
    limit: Limit<Delta<F>>,
    other: Limit<Delta<F>>,
) -> Result<Vec<Share<F>>, AllocError>
    ensures { IfOk result (λ shares. AreShares F.value
        (both_limits (limit_value F.value limit) (limit_value F.value other)) shares.items) }
{
    if limit.upper {
        shares(alloc, other.tag, limit.tag)
    } else {
        shares(alloc, limit.tag, other.tag)
    }
}

fn shares<F: OrderedField>(
    alloc: Global,
    lower: u32,
    upper: u32,
) -> Result<Vec<Share<F>>, AllocError>
    ensures { IfOk result (λ shares. AreOnes F.value lower upper shares.items) }
{
    let mut shares = Vec::new(alloc);
    shares.push(Share {
        tag: lower,
        mult: one(),
    })?;
    shares.push(Share {
        tag: upper,
        mult: one(),
    })?;
    Ok(shares)
}

// Whether the limit in force on its side is as strong.
fn is_implied<F: OrderedField>(limits: &Limits<F>, limit: Limit<Delta<F>>) -> bool
    requires { limit.var < limits.now.variables }
    ensures { IsTrue result ↔ IsImplied (limits_in F.value limits.now.limits) (limit_value F.value limit) }
{
    match limits.in_force(limit.upper, limit.var) {
        Some(held) => is_no_stronger(limit, held),
        None => false,
    }
}

fn is_no_stronger<F: OrderedField>(limit: Limit<Delta<F>>, held: Limit<Delta<F>>) -> bool
    ensures { IsTrue result ↔ IsNoStronger limit.upper (delta_value F.value limit.at) (delta_value F.value held.at) }
{
    if limit.upper {
        !is_below(limit.at, held.at)
    } else {
        !is_below(held.at, limit.at)
    }
}

// Puts a limit in force that neither contradicts another nor is implied. After a refusal nothing has changed.
fn put_in_force<F: OrderedField>(
    assignment: &mut Assignment<F>,
    limits: &mut Limits<F>,
    limit: Limit<Delta<F>>,
) -> Result<(), PivotFault>
    requires built { IsBuilt F.value assignment.old limits.old None }
    requires variable { limit.var < variables assignment.old.table }
    requires room { length limits.old.limits + 1 < 2 ^ 32 }
    requires agrees { ¬ Contradicts (limits_in F.value limits.old.limits) (limit_value F.value limit) }
    requires stronger { ¬ IsImplied (limits_in F.value limits.old.limits) (limit_value F.value limit) }
    ensures put { OnOk result (IsPut F.value assignment.old limits.old limit assignment.new limits.new) }
    ensures stuck { IfErr result (λ fault. IfStuck fault
        (IsStuckPut F.LIMIT F.value assignment.old (limit_value F.value limit))) }
    ensures refused { OnErr result ((assignment.new ≡ assignment.old) × (limits.new ≡ limits.old)) }
{
    let mark = limits.len();
    limits.put(limit)?;
    if must_move(assignment, limit) {
        match assignment.update(limit.var, limit.at) {
            Ok(()) => Ok(()),
            Err(fault) => {
                limits.undo(mark);
                Err(fault)
            }
        }
    } else {
        Ok(())
    }
}

// Whether the limit's variable isn't basic and is outside.
fn must_move<F: OrderedField>(assignment: &Assignment<F>, limit: Limit<Delta<F>>) -> bool
    requires { limit.var < variables assignment.now.table }
    ensures { MustMove F.value assignment.now (limit_value F.value limit) result }
{
    if assignment.is_basic(limit.var) {
        return false;
    }
    let value = assignment.value(limit.var);
    if limit.upper {
        is_below(limit.at, value)
    } else {
        is_below(value, limit.at)
    }
}

// The steps of a flow as formulas: where a rule is the first whose guard holds, each state is what it gives.
ghost use Rattle.std.specs.Prelude.{◌≡◌, ◌<◌, ◌≤◌, IfOk, None, Some, length};
ghost use Rattle.claims.specs.Subjects.{part};
ghost use Rattle.clause_form.specs.Formulas.{formula_of};
ghost use Rattle.run_rows.specs.Runs.{state_count};
ghost use Rattle.ctrl_meaning.specs.Flows.{fires_claim, guard_claim, rule_claim, sets_claim, step_claims};
ghost use Rattle.ctrl_meaning.specs.Steps.{set_claim, set_of};
ghost use Rattle.unroll.specs.ClaimFormulas.{Adds, claim_formula};
ghost use Rattle.unroll.specs.FlowLimits.{CanRead, CanSet, CanStep, CanSum};

use crate::formulas::{all, implies, not, with};
use crate::gates::gate_formula;
use crate::lin_sums::scale_with;
use crate::sums::Sum;
use clause_form::Formula;
use ctrl_meaning::ReadPoint;
use ctrl_types::{Controller, Lin};
use run_rows::{Entry, Shape};
use std::alloc::Global;
use weighing::Side;
use whole::NoMemory;

/// The formulas with those of the flow's rules, one for each.
pub(crate) fn plus_steps(
    alloc: Global,
    formulas: Vec<Formula>,
    shape: &Shape,
    at: &ReadPoint,
    controller: &Controller,
) -> Result<Vec<Formula>, NoMemory>
    requires { CanStep shape.now at.now controller.now }
    ensures { IfOk result (λ fs. Adds shape.now formulas.items (step_claims part controller.now at.now) fs.items) }
{
    let mut formulas = formulas;
    for rule in 0..controller.rules.len() as u32 {
        let formula = rule_formula(alloc, shape, at, controller, rule)?;
        formulas = with(formulas, formula)?;
    }
    Ok(formulas)
}

/// That each state is what the rule gives it, where the rule fires.
fn rule_formula(
    alloc: Global,
    shape: &Shape,
    at: &ReadPoint,
    controller: &Controller,
    rule: u32,
) -> Result<Formula, NoMemory>
    requires can { CanStep shape.now at.now controller.now }
    requires rule_in { rule < length controller.now.rules }
    ensures { IfOk result (λ f. formula_of f ≡ claim_formula shape.now (rule_claim part controller.now at.now rule)) }
{
    let fires = fires(alloc, shape, at, controller, rule)?;
    let sets = sets(alloc, shape, at, controller, rule)?;
    implies(alloc, fires, sets)
}

/// That the rule is the first whose guard holds.
fn fires(
    alloc: Global,
    shape: &Shape,
    at: &ReadPoint,
    controller: &Controller,
    rule: u32,
) -> Result<Formula, NoMemory>
    requires can { CanStep shape.now at.now controller.now }
    requires rule_in { rule < length controller.now.rules }
    ensures { IfOk result (λ f. formula_of f ≡ claim_formula shape.now (fires_claim part controller.now at.now rule)) }
{
    let mut parts = Vec::new(alloc);
    for earlier in 0..rule {
        let guard = guard(alloc, shape, at, controller, earlier)?;
        parts = with(parts, not(alloc, guard)?)?;
    }
    let own = guard(alloc, shape, at, controller, rule)?;
    Ok(all(with(parts, own)?))
}

/// That the rule's guard holds.
fn guard(
    alloc: Global,
    shape: &Shape,
    at: &ReadPoint,
    controller: &Controller,
    rule: u32,
) -> Result<Formula, NoMemory>
    requires can { CanStep shape.now at.now controller.now }
    requires rule_in { rule < length controller.now.rules }
    ensures { IfOk result (λ f. formula_of f ≡ claim_formula shape.now (guard_claim part controller.now at.now rule)) }
{
    let gate = &controller.rules.as_slice()[rule as usize].guard;
    gate_formula(alloc, shape, at, gate)
}

/// That each state is what the rule gives it.
fn sets(
    alloc: Global,
    shape: &Shape,
    at: &ReadPoint,
    controller: &Controller,
    rule: u32,
) -> Result<Formula, NoMemory>
    requires can { CanStep shape.now at.now controller.now }
    requires rule_in { rule < length controller.now.rules }
    ensures { IfOk result (λ f. formula_of f ≡ claim_formula shape.now (sets_claim part controller.now at.now rule)) }
{
    let mut parts = Vec::new(alloc);
    for state in 0..controller.states.len() as u32 {
        let set = set_of(alloc, shape, at, controller, rule, state)?;
        parts = with(parts, set)?;
    }
    Ok(all(parts))
}

/// That the state is what the rule gives it.
fn set_of(
    alloc: Global,
    shape: &Shape,
    at: &ReadPoint,
    controller: &Controller,
    rule: u32,
    state: u32,
) -> Result<Formula, NoMemory>
    requires can { CanStep shape.now at.now controller.now }
    requires rule_in { rule < length controller.now.rules }
    requires state_in { state < length controller.now.states }
    ensures { IfOk result (λ f. formula_of f ≡ claim_formula shape.now (set_claim part at.now state (set_of controller.now rule state))) }
{
    let set = &controller.rules.as_slice()[rule as usize].sets.as_slice()[state as usize];
    set_formula(alloc, shape, at, state, set)
}

/// That a state has the value of its expression or, where it has none, the value of the row before.
fn set_formula(
    alloc: Global,
    shape: &Shape,
    at: &ReadPoint,
    state: u32,
    set: &Option<Lin>,
) -> Result<Formula, NoMemory>
    requires read { CanRead shape.now at.now }
    requires here { state < state_count shape.now at.now.row }
    requires before { state < state_count shape.now at.now.states }
    requires set_in { CanSet shape.now at.now set.now }
    ensures { IfOk result (λ f. formula_of f ≡ claim_formula shape.now (set_claim part at.now state set.now)) }
{
    match set {
        None => kept(alloc, shape, at, state),
        Some(lin) => has_value(alloc, shape, at, state, lin),
    }
}

/// That a state has the value of the row before.
#[tactic(auto, using(whole::proofs::Overflow::signed))]
fn kept(alloc: Global, shape: &Shape, at: &ReadPoint, state: u32) -> Result<Formula, NoMemory>
    requires read { CanRead shape.now at.now }
    requires here { state < state_count shape.now at.now.row }
    requires before { state < state_count shape.now at.now.states }
    ensures { IfOk result (λ f. formula_of f ≡ claim_formula shape.now (set_claim part at.now state None)) }
{
    let ReadPoint {
        row,
        flow,
        states,
        ..
    } = *at;
    let before = Entry::X {
        row: states,
        flow,
        state,
    };
    let growth = Sum::new(alloc)
        .plus(shape, 1, Entry::X { row, flow, state })?
        .plus(shape, -1, before)?;
    growth.equal(alloc)
}

/// That a state has the value of the expression.
#[tactic(auto, using(whole::proofs::Overflow::signed))]
fn has_value(
    alloc: Global,
    shape: &Shape,
    at: &ReadPoint,
    state: u32,
    lin: &Lin,
) -> Result<Formula, NoMemory>
    requires read { CanRead shape.now at.now }
    requires here { state < state_count shape.now at.now.row }
    requires set_in { CanSum shape.now at.now lin.now }
    ensures { IfOk result (λ f. formula_of f ≡ claim_formula shape.now (set_claim part at.now state (Some lin.now))) }
{
    let ReadPoint { row, flow, .. } = *at;
    let scale = scale_with(1, shape, at, lin);
    let value = Sum::new(alloc).plus(shape, i128::from(scale), Entry::X { row, flow, state })?;
    let excess = value.plus_lin(shape, at, Side::Right, scale, lin)?;
    excess.equal(alloc)
}

// Guards as formulas over the columns of a shape.
ghost use Rattle.std.specs.Prelude.{◌≡◌, ◌≤◌, IfOk, map};
ghost use Rattle.condition_tree.specs.Trees.{leaf};
ghost use Rattle.claims.specs.Subjects.{part};
ghost use Rattle.clause_form.specs.Formulas.{formula_of};
ghost use Rattle.ctrl_types.specs.Tests.{conjunction, disjunction, test_of};
ghost use Rattle.ctrl_meaning.specs.Guards.{delay_claim, test_claim};
ghost use Rattle.unroll.specs.ClaimFormulas.{claim_formula};
ghost use Rattle.unroll.specs.FlowFormulas.{gate_tree};
ghost use Rattle.unroll.specs.FlowLimits.{CanRead, CanTest};

use crate::formulas::{all, any, not, with};
use crate::lin_sums::comparison;
use crate::sums::Sum;
use clause_form::Formula;
use ctrl_meaning::ReadPoint;
use ctrl_types::Gate;
use linear_form::Rel;
use run_rows::{Entry, Shape};
use std::alloc::Global;
use whole::NoMemory;

/// That the guard holds.
#[cycle(guards)]
pub(crate) fn gate_formula(
    alloc: Global,
    shape: &Shape,
    at: &ReadPoint,
    gate: &Gate,
) -> Result<Formula, NoMemory>
    requires read { CanRead shape.now at.now }
    requires can { CanTest shape.now at.now (test_of gate.now) }
    ensures { IfOk result (λ f. formula_of f ≡ gate_tree shape.now at.now gate.now) }
{
    match gate {
        Gate::True => Ok(Formula::True),
        Gate::False => Ok(Formula::False),
        Gate::Cmp(left, rel, right) => comparison(alloc, shape, at, left, *rel, right),
        Gate::Delay(rows) => was_served(alloc, shape, at, *rows),
        Gate::Not(part) => not(alloc, gate_formula(alloc, shape, at, part)?),
        Gate::And(parts) => all_hold(alloc, shape, at, parts),
        Gate::Or(parts) => any_holds(alloc, shape, at, parts),
    }
}

/// That all parts hold.
#[cycle(guards)]
fn all_hold(
    alloc: Global,
    shape: &Shape,
    at: &ReadPoint,
    parts: &Vec<Gate>,
) -> Result<Formula, NoMemory>
    requires read { CanRead shape.now at.now }
    requires can { CanTest shape.now at.now (conjunction (map test_of parts.now.items)) }
    ensures { IfOk result (λ f. formula_of f ≡ conjunction (map (gate_tree shape.now at.now) parts.now.items)) }
{
    let mut formulas = Vec::new(alloc);
    for part in parts {
        let formula = gate_formula(alloc, shape, at, part)?;
        formulas = with(formulas, formula)?;
    }
    Ok(all(formulas))
}

/// That one of the parts holds.
#[cycle(guards)]
fn any_holds(
    alloc: Global,
    shape: &Shape,
    at: &ReadPoint,
    parts: &Vec<Gate>,
) -> Result<Formula, NoMemory>
    requires read { CanRead shape.now at.now }
    requires can { CanTest shape.now at.now (disjunction (map test_of parts.now.items)) }
    ensures { IfOk result (λ f. formula_of f ≡ disjunction (map (gate_tree shape.now at.now) parts.now.items)) }
{
    let mut formulas = Vec::new(alloc);
    for part in parts {
        let formula = gate_formula(alloc, shape, at, part)?;
        formulas = with(formulas, formula)?;
    }
    Ok(any(formulas))
}

/// That all that was accepted this many rows before the row that the sender hears of was served by then.
#[tactic(auto, using(whole::proofs::Overflow::signed))]
fn was_served(alloc: Global, shape: &Shape, at: &ReadPoint, rows: u32) -> Result<Formula, NoMemory>
    requires read { CanRead shape.now at.now }
    requires rows_in { rows ≤ at.now.heard }
    ensures { IfOk result (λ f. formula_of f ≡ claim_formula shape.now (leaf (delay_claim part at.now rows))) }
{
    let ReadPoint { flow, heard, .. } = *at;
    let row = heard - rows;
    let sum = Sum::new(alloc)
        .plus(shape, 1, Entry::A { row, flow })?
        .plus(shape, -1, Entry::L { row, flow })?
        .plus(shape, -1, Entry::S { row: heard, flow })?;
    Ok(sum.compared(Rel::AtLeast))
}

// The ranges of the states on the opening row as formulas.
ghost use Rattle.std.specs.Prelude.{◌≡◌, ◌<◌, ◌≤◌, [], ◌∷◌, neg_ℤ, IfOk, length};
ghost use Rattle.claims.specs.Subjects.{constant, entry, of_state, part};
ghost use Rattle.clause_form.specs.Formulas.{formula_of};
ghost use Rattle.run_rows.specs.Columns.{HasEntry, HasFlow};
ghost use Rattle.run_rows.specs.Limits.{IsWithin};
ghost use Rattle.run_rows.specs.Runs.{state_count};
ghost use Rattle.ctrl_types.specs.Limits.{IsController};
ghost use Rattle.ctrl_meaning.specs.Flows.{opening_claims};
ghost use Rattle.ctrl_meaning.specs.Opening.{declared_state, range_claims};
ghost use Rattle.weighing.specs.Scaled.{IsNum};
ghost use Rattle.unroll.specs.ClaimFormulas.{Adds};
ghost use Rattle.unroll.specs.FlowFormulas.{stands};

use crate::formulas::with;
use crate::lin_sums::negated;
use crate::sums::Sum;
use clause_form::Formula;
use ctrl_types::{Controller, State};
use linear_form::Rel;
use run_rows::{Entry, Shape};
use std::alloc::Global;
use weighing::Num;
use whole::NoMemory;

/// The formulas with those of the ranges of a flow's states, state by state.
pub(crate) fn plus_opening(
    alloc: Global,
    formulas: Vec<Formula>,
    shape: &Shape,
    controller: &Controller,
    row: u32,
    flow: u32,
) -> Result<Vec<Formula>, NoMemory>
    requires within { IsWithin shape.now }
    requires has { HasFlow shape.now row flow }
    requires controller_in { IsController controller.now }
    requires states_in { length controller.now.states ≤ state_count shape.now row }
    ensures { IfOk result (λ fs. Adds shape.now formulas.items (opening_claims part controller.now row flow) fs.items) }
{
    let mut formulas = formulas;
    for state in 0..controller.states.len() as u32 {
        formulas = plus_state(alloc, formulas, shape, controller, row, flow, state)?;
    }
    Ok(formulas)
}

/// The formulas with those of the range of a state.
fn plus_state(
    alloc: Global,
    formulas: Vec<Formula>,
    shape: &Shape,
    controller: &Controller,
    row: u32,
    flow: u32,
    state: u32,
) -> Result<Vec<Formula>, NoMemory>
    requires within { IsWithin shape.now }
    requires has { HasFlow shape.now row flow }
    requires controller_in { IsController controller.now }
    requires states_in { length controller.now.states ≤ state_count shape.now row }
    requires state_in { state < length controller.now.states }
    ensures { IfOk result (λ fs. Adds shape.now formulas.items (range_claims part (declared_state controller.now state) (of_state row flow state) constant) fs.items) }
{
    let declared = &controller.states.as_slice()[state as usize];
    plus_range(alloc, formulas, shape, declared, row, flow, state)
}

/// The formulas with these: the state is at least its lower bound, and at most its upper bound.
fn plus_range(
    alloc: Global,
    formulas: Vec<Formula>,
    shape: &Shape,
    declared: &State,
    row: u32,
    flow: u32,
    state: u32,
) -> Result<Vec<Formula>, NoMemory>
    requires within { IsWithin shape.now }
    requires has { HasFlow shape.now row flow }
    requires state_in { state < state_count shape.now row }
    requires lo_in { IsNum declared.now.lo }
    requires hi_in { IsNum declared.now.hi }
    ensures { IfOk result (λ fs. Adds shape.now formulas.items (range_claims part declared.now (of_state row flow state) constant) fs.items) }
{
    let entry = Entry::X { row, flow, state };
    let from = bounded(alloc, shape, entry, declared.lo, Rel::AtLeast)?;
    let to = bounded(alloc, shape, entry, declared.hi, Rel::AtMost)?;
    with(with(formulas, from)?, to)
}

/// That the entry stands so to the bound.
#[tactic(auto, using(whole::proofs::Overflow::signed))]
fn bounded(
    alloc: Global,
    shape: &Shape,
    of: Entry,
    bound: Num,
    rel: Rel,
) -> Result<Formula, NoMemory>
    requires within { IsWithin shape.now }
    requires stands { HasEntry shape.now of }
    requires bound_in { IsNum bound }
    ensures { IfOk result (λ f. formula_of f ≡ stands shape.now (part bound.den (entry of) ∷ part (neg_ℤ bound.num) constant ∷ []) rel) }
{
    let sum = Sum::new(alloc).plus(shape, bound.den, of)?;
    Ok(sum.plus_constant(negated(bound.num)).compared(rel))
}

// The rules that compare the entries of one flow, or the waste, with each other: no rate and no buffer is in them.
ghost use Rattle.std.specs.Prelude.{◌≡◌, ◌<◌, ◌≤◌, ◌-◌, [], ◌∷◌, pos, negsuc, IfOk};
ghost use Rattle.claims.specs.Subjects.{entry, of_arrivals, of_credit, of_losses, of_service, of_waste, part};
ghost use Rattle.clause_form.specs.Formulas.{formula_of};
ghost use Rattle.path_server.specs.Claims.{acceptance_claims, growth_claims, is_zero, no_fall, not_negative, service_claims, start_claims};
ghost use Rattle.run_rows.specs.Columns.{HasEntry, rows_of};
ghost use Rattle.run_rows.specs.Limits.{IsWithin};
ghost use Rattle.unroll.specs.ClaimFormulas.{Adds, claim_formula};

use crate::formulas::with;
use crate::sums::Sum;
use clause_form::Formula;
use linear_form::Rel;
use run_rows::{Entry, Shape};
use std::alloc::Global;
use whole::NoMemory;

/// `P0`.
#[tactic(auto, unfolding(path_server::specs::Claims::start_claims))]
pub(crate) fn start(
    alloc: Global,
    formulas: Vec<Formula>,
    shape: &Shape,
    row: u32,
    flow: u32,
) -> Result<Vec<Formula>, NoMemory>
    requires within { IsWithin shape.now }
    requires flow_in { flow ≤ shape.now.flows }
    ensures { IfOk result (λ fs. Adds shape.now formulas.items (start_claims part row flow) fs.items) }
{
    if row > 0 {
        return Ok(formulas);
    }
    if flow == 0 {
        return path_starts_empty(alloc, formulas, shape);
    }
    flow_starts_empty(alloc, formulas, shape, flow)
}

fn path_starts_empty(
    alloc: Global,
    formulas: Vec<Formula>,
    shape: &Shape,
) -> Result<Vec<Formula>, NoMemory>
    requires within { IsWithin shape.now }
    ensures { IfOk result (λ fs. Adds shape.now formulas.items (is_zero part (of_waste 0) ∷ not_negative part of_credit ∷ []) fs.items) }
{
    let wasted = is_zero(alloc, shape, Entry::W { row: 0 })?;
    let credit = not_negative(alloc, shape, Entry::Credit)?;
    with(with(formulas, wasted)?, credit)
}

fn flow_starts_empty(
    alloc: Global,
    formulas: Vec<Formula>,
    shape: &Shape,
    flow: u32,
) -> Result<Vec<Formula>, NoMemory>
    requires within { IsWithin shape.now }
    requires flow_from { 1 ≤ flow }
    requires flow_to { flow ≤ shape.now.flows }
    ensures { IfOk result (λ fs. Adds shape.now formulas.items (is_zero part (of_service 0 flow) ∷ is_zero part (of_losses 0 flow) ∷ not_negative part (of_arrivals 0 flow) ∷ []) fs.items) }
{
    let served = is_zero(alloc, shape, Entry::S { row: 0, flow })?;
    let lost = is_zero(alloc, shape, Entry::L { row: 0, flow })?;
    let arrived = not_negative(alloc, shape, Entry::A { row: 0, flow })?;
    with(with(with(formulas, served)?, lost)?, arrived)
}

/// `P1`.
#[tactic(auto, unfolding(path_server::specs::Claims::growth_claims))]
pub(crate) fn growth(
    alloc: Global,
    formulas: Vec<Formula>,
    shape: &Shape,
    row: u32,
    flow: u32,
) -> Result<Vec<Formula>, NoMemory>
    requires within { IsWithin shape.now }
    requires row_in { row < rows_of shape.now }
    requires flow_in { flow ≤ shape.now.flows }
    ensures { IfOk result (λ fs. Adds shape.now formulas.items (growth_claims part row flow) fs.items) }
{
    if row == 0 {
        return Ok(formulas);
    }
    if flow == 0 {
        let waste = no_fall(alloc, shape, Entry::W { row: row - 1 }, Entry::W { row })?;
        return with(formulas, waste);
    }
    flow_grows(alloc, formulas, shape, row - 1, row, flow)
}

fn flow_grows(
    alloc: Global,
    formulas: Vec<Formula>,
    shape: &Shape,
    before: u32,
    row: u32,
    flow: u32,
) -> Result<Vec<Formula>, NoMemory>
    requires within { IsWithin shape.now }
    requires before_in { before < rows_of shape.now }
    requires row_in { row < rows_of shape.now }
    requires flow_from { 1 ≤ flow }
    requires flow_to { flow ≤ shape.now.flows }
    ensures { IfOk result (λ fs. Adds shape.now formulas.items (no_fall part (of_arrivals before flow) (of_arrivals row flow) ∷ no_fall part (of_service before flow) (of_service row flow) ∷ no_fall part (of_losses before flow) (of_losses row flow) ∷ []) fs.items) }
{
    let arrived = no_fall(
        alloc,
        shape,
        Entry::A { row: before, flow },
        Entry::A { row, flow },
    )?;
    let served = no_fall(
        alloc,
        shape,
        Entry::S { row: before, flow },
        Entry::S { row, flow },
    )?;
    let lost = no_fall(
        alloc,
        shape,
        Entry::L { row: before, flow },
        Entry::L { row, flow },
    )?;
    with(with(with(formulas, arrived)?, served)?, lost)
}

/// `P2`.
#[tactic(auto, using(whole::proofs::Overflow::signed), unfolding(path_server::specs::Claims::service_claims))]
pub(crate) fn service(
    alloc: Global,
    formulas: Vec<Formula>,
    shape: &Shape,
    row: u32,
    flow: u32,
) -> Result<Vec<Formula>, NoMemory>
    requires within { IsWithin shape.now }
    requires row_in { row < rows_of shape.now }
    requires flow_in { flow ≤ shape.now.flows }
    ensures { IfOk result (λ fs. Adds shape.now formulas.items (service_claims part row flow) fs.items) }
{
    if flow == 0 {
        return Ok(formulas);
    }
    let waiting = Sum::new(alloc)
        .plus(shape, 1, Entry::A { row, flow })?
        .plus(shape, -1, Entry::L { row, flow })?
        .plus(shape, -1, Entry::S { row, flow })?;
    with(formulas, waiting.compared(Rel::AtLeast))
}

/// `P6`.
#[tactic(auto, using(whole::proofs::Overflow::signed), unfolding(path_server::specs::Claims::acceptance_claims))]
pub(crate) fn acceptance(
    alloc: Global,
    formulas: Vec<Formula>,
    shape: &Shape,
    row: u32,
    flow: u32,
) -> Result<Vec<Formula>, NoMemory>
    requires within { IsWithin shape.now }
    requires row_in { row < rows_of shape.now }
    requires flow_in { flow ≤ shape.now.flows }
    ensures { IfOk result (λ fs. Adds shape.now formulas.items (acceptance_claims part row flow) fs.items) }
{
    if row == 0 || flow == 0 {
        return Ok(formulas);
    }
    let before = row - 1;
    let accepted = Sum::new(alloc)
        .plus(shape, 1, Entry::A { row, flow })?
        .plus(shape, -1, Entry::L { row, flow })?
        .plus(shape, -1, Entry::A { row: before, flow })?
        .plus(shape, 1, Entry::L { row: before, flow })?;
    with(formulas, accepted.compared(Rel::AtLeast))
}

/// That the entry is 0.
#[tactic(auto, using(whole::proofs::Overflow::signed))]
fn is_zero(alloc: Global, shape: &Shape, of: Entry) -> Result<Formula, NoMemory>
    requires within { IsWithin shape.now }
    requires stands { HasEntry shape.now of }
    ensures { IfOk result (λ f. formula_of f ≡ claim_formula shape.now (is_zero part (entry of))) }
{
    Sum::new(alloc).plus(shape, 1, of)?.equal(alloc)
}

/// That the entry is at least 0.
#[tactic(auto, using(whole::proofs::Overflow::signed))]
fn not_negative(alloc: Global, shape: &Shape, of: Entry) -> Result<Formula, NoMemory>
    requires within { IsWithin shape.now }
    requires stands { HasEntry shape.now of }
    ensures { IfOk result (λ f. formula_of f ≡ claim_formula shape.now (not_negative part (entry of))) }
{
    Ok(Sum::new(alloc).plus(shape, 1, of)?.compared(Rel::AtLeast))
}

/// That the entry doesn't fall from the old to the new.
#[tactic(auto, using(whole::proofs::Overflow::signed))]
fn no_fall(alloc: Global, shape: &Shape, old: Entry, new: Entry) -> Result<Formula, NoMemory>
    requires within { IsWithin shape.now }
    requires old_stands { HasEntry shape.now old }
    requires new_stands { HasEntry shape.now new }
    ensures { IfOk result (λ f. formula_of f ≡ claim_formula shape.now (no_fall part (entry old) (entry new))) }
{
    let growth = Sum::new(alloc).plus(shape, 1, new)?.plus(shape, -1, old)?;
    Ok(growth.compared(Rel::AtLeast))
}

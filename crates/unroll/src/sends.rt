// What a flow sends as formulas: the greater of what it had sent and what the window allows and, with a rate, at most that.
ghost use Rattle.std.specs.Prelude.{◌≡◌, ◌≤◌, [], ◌∷◌, IfOk};
ghost use Rattle.claims.specs.Subjects.{part};
ghost use Rattle.condition_tree.specs.Trees.{disjunction};
ghost use Rattle.clause_form.specs.Formulas.{formula_of};
ghost use Rattle.ctrl_meaning.specs.Sends.{growth_terms, paced_claim, rate_terms, send_claim, unpaced_claim, window_terms};
ghost use Rattle.unroll.specs.ClaimFormulas.{Adds, claim_formula};
ghost use Rattle.unroll.specs.FlowFormulas.{stands};
ghost use Rattle.unroll.specs.FlowLimits.{CanRead, CanSend, CanSum};

use crate::formulas::{all, both, either, with};
use crate::lin_sums::{negated, scale_with};
use crate::sums::Sum;
use clause_form::Formula;
use ctrl_meaning::ReadPoint;
use ctrl_types::{Controller, Lin};
use linear_form::Rel;
use run_rows::{Entry, Shape};
use std::alloc::Global;
use weighing::Side;
use whole::NoMemory;

/// The formulas with that of what the flow sends.
pub(crate) fn plus_send(
    alloc: Global,
    formulas: Vec<Formula>,
    shape: &Shape,
    at: &ReadPoint,
    controller: &Controller,
) -> Result<Vec<Formula>, NoMemory>
    requires { CanSend shape.now at.now controller.now }
    ensures { IfOk result (λ fs. Adds shape.now formulas.items (send_claim part at.now controller.now.window controller.now.rate ∷ []) fs.items) }
{
    let formula = match &controller.rate {
        None => unpaced(alloc, shape, at, &controller.window)?,
        Some(rate) => paced(alloc, shape, at, &controller.window, rate)?,
    };
    with(formulas, formula)
}

/// That the arrivals are the greater of what they were and what the window allows: at least both, and at most one of them.
fn unpaced(alloc: Global, shape: &Shape, at: &ReadPoint, window: &Lin) -> Result<Formula, NoMemory>
    requires read { CanRead shape.now at.now }
    requires window_in { CanSum shape.now at.now window.now }
    ensures { IfOk result (λ f. formula_of f ≡ claim_formula shape.now (unpaced_claim (growth_terms part at.now) (window_terms part at.now window.now))) }
{
    let not_fallen = growth(alloc, shape, at, Rel::AtLeast)?;
    let fills_window = over_window(alloc, shape, at, window, Rel::AtLeast)?;
    let is_one = within_window(alloc, shape, at, window)?;
    Ok(all(vec![in alloc; not_fallen, fills_window, is_one]?))
}

/// That the arrivals are the lesser of that and what the rate allows.
fn paced(
    alloc: Global,
    shape: &Shape,
    at: &ReadPoint,
    window: &Lin,
    rate: &Lin,
) -> Result<Formula, NoMemory>
    requires read { CanRead shape.now at.now }
    requires window_in { CanSum shape.now at.now window.now }
    requires rate_in { CanSum shape.now at.now rate.now }
    ensures { IfOk result (λ f. formula_of f ≡ claim_formula shape.now (paced_claim (growth_terms part at.now) (window_terms part at.now window.now) (rate_terms part at.now rate.now))) }
{
    let within_window = within_window(alloc, shape, at, window)?;
    let not_grown = growth(alloc, shape, at, Rel::AtMost)?;
    let within_rate = either(
        alloc,
        not_grown,
        over_rate(alloc, shape, at, rate, Rel::AtMost)?,
    )?;
    let all_of_window = both(
        alloc,
        growth(alloc, shape, at, Rel::AtLeast)?,
        over_window(alloc, shape, at, window, Rel::AtLeast)?,
    )?;
    let all_of_rate = both(
        alloc,
        growth(alloc, shape, at, Rel::AtLeast)?,
        over_rate(alloc, shape, at, rate, Rel::AtLeast)?,
    )?;
    let all_of_one = either(alloc, all_of_window, all_of_rate)?;
    Ok(all(vec![in alloc; within_window, within_rate, all_of_one]?))
}

/// That the flow has sent nothing, or no more than the window allows.
fn within_window(
    alloc: Global,
    shape: &Shape,
    at: &ReadPoint,
    window: &Lin,
) -> Result<Formula, NoMemory>
    requires read { CanRead shape.now at.now }
    requires window_in { CanSum shape.now at.now window.now }
    ensures { IfOk result (λ f. formula_of f ≡ disjunction (stands shape.now (growth_terms part at.now) Rel.AtMost ∷ stands shape.now (window_terms part at.now window.now) Rel.AtMost ∷ [])) }
{
    let not_grown = growth(alloc, shape, at, Rel::AtMost)?;
    let within = over_window(alloc, shape, at, window, Rel::AtMost)?;
    either(alloc, not_grown, within)
}

/// That what the flow sent in this row stands so to 0.
#[tactic(auto, using(whole::proofs::Overflow::signed))]
fn growth(alloc: Global, shape: &Shape, at: &ReadPoint, rel: Rel) -> Result<Formula, NoMemory>
    requires read { CanRead shape.now at.now }
    ensures { IfOk result (λ f. formula_of f ≡ stands shape.now (growth_terms part at.now) rel) }
{
    let ReadPoint { row, flow, .. } = *at;
    let before = Entry::A { row: row - 1, flow };
    let sum = Sum::new(alloc)
        .plus(shape, 1, Entry::A { row, flow })?
        .plus(shape, -1, before)?;
    Ok(sum.compared(rel))
}

/// That what the arrivals have over what was served, what was lost and the window stands so to 0.
#[tactic(auto, using(whole::proofs::Overflow::signed))]
fn over_window(
    alloc: Global,
    shape: &Shape,
    at: &ReadPoint,
    window: &Lin,
    rel: Rel,
) -> Result<Formula, NoMemory>
    requires read { CanRead shape.now at.now }
    requires window_in { CanSum shape.now at.now window.now }
    ensures { IfOk result (λ f. formula_of f ≡ stands shape.now (window_terms part at.now window.now) rel) }
{
    let ReadPoint {
        row,
        flow,
        heard,
        ..
    } = *at;
    let scale = scale_with(1, shape, at, window);
    let unit = i128::from(scale);
    let under_way = Sum::new(alloc)
        .plus(shape, unit, Entry::A { row, flow })?
        .plus(shape, negated(unit), Entry::S { row: heard, flow })?
        .plus(shape, negated(unit), Entry::L { row: heard, flow })?;
    let excess = under_way.plus_lin(shape, at, Side::Right, scale, window)?;
    Ok(excess.compared(rel))
}

/// That what the flow sent in this row has over the rate stands so to 0.
#[tactic(auto, using(whole::proofs::Overflow::signed))]
fn over_rate(
    alloc: Global,
    shape: &Shape,
    at: &ReadPoint,
    rate: &Lin,
    rel: Rel,
) -> Result<Formula, NoMemory>
    requires read { CanRead shape.now at.now }
    requires rate_in { CanSum shape.now at.now rate.now }
    ensures { IfOk result (λ f. formula_of f ≡ stands shape.now (rate_terms part at.now rate.now) rel) }
{
    let ReadPoint { row, flow, .. } = *at;
    let scale = scale_with(1, shape, at, rate);
    let unit = i128::from(scale);
    let before = Entry::A { row: row - 1, flow };
    let sent = Sum::new(alloc)
        .plus(shape, unit, Entry::A { row, flow })?
        .plus(shape, negated(unit), before)?;
    let excess = sent.plus_lin(shape, at, Side::Right, scale, rate)?;
    Ok(excess.compared(rel))
}

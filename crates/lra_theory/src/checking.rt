//! A common solution is looked for: the simplex repairs its values, and its pivots are charged and written.

ghost use Rattle.std.specs.Prelude.{◌≡◌, ◌+◌, ◌≤◌, ◌++◌, Bool, None, map, length, take};
ghost use Rattle.whole.specs.Budget.{counts, spent};
ghost use Rattle.farkas_cert.specs.declared.journals.Move.TheVariants.{Pivot as PivotMove};
ghost use Rattle.clause_form.specs.Theories.{HearsCheck};
ghost use Rattle.lra_theory.specs.Relations.{relations};
ghost use Rattle.lra_theory.specs.Soundness.{IsSound};
ghost use Rattle.lra_theory.specs.Standings.{after, at_work, is_fine, rest_after, seen};
ghost use Rattle.simplex.specs.Checks.{pivots_charged};

use crate::clash::answer;
use crate::rows::Rows;
use crate::trail::Trail;
use clause_form::Heard;
use farkas_cert::{Journal, Move};
use ordered_field::OrderedField;
use simplex::{Outcome, Simplex};
use std::alloc::Global;
use whole::{Budget, Charge};

/// Looks for a common solution of the literals told.
pub(crate) fn checked<F: OrderedField>(
    alloc: Global,
    rows: &Rows,
    trail: &Trail,
    simplex: &mut Simplex<F>,
    budget: &mut Budget,
    journal: &mut Journal,
) -> Heard
    requires sound { IsSound F.value rows.now trail.now.told.items simplex.old }
    requires works { simplex.old.rest ≡ None }
    requires agrees { trail.now.refused ≡ None }
    ensures answers { (fine owes : Bool) → HearsCheck (relations F.LIMIT F.value)
        (seen F.value (at_work fine owes rows.now trail.now.told.items None simplex.old)) result
        (seen F.value (after (is_fine result) result rows.now trail.now.told.items None simplex.new))
        budget.old budget.new journal.old journal.new }
    ensures sound { IsSound F.value rows.now trail.now.told.items simplex.new }
    ensures works { rest_after result ≡ None → simplex.new.rest ≡ None }
{
    // What the journal can't take isn't charged.
    let mut trial = *budget;
    let outcome = simplex.check(&mut trial);
    let pivots = simplex.pivots().as_slice();
    if write(pivots, budget, journal) < pivots.len() {
        return Heard::NoMemory;
    }
    match outcome {
        Outcome::Fine => Heard::Fine,
        Outcome::Conflict(shares) => answer(alloc, rows, trail, shares.as_slice()),
        Outcome::Spent => Heard::Spent,
        Outcome::Stuck(stuck) => Heard::Stuck(stuck),
        Outcome::NoMemory => Heard::NoMemory,
    }
}

// Charges and writes pivots, up to the first for which there is no memory, and counts them.
fn write(pivots: &[(u32, u32)], budget: &mut Budget, journal: &mut Journal) -> usize
    requires { spent (counts budget.old) + length pivots.now ≤ budget.old.limit }
    ensures charged { counts budget.new ≡ pivots_charged result (counts budget.old) }
    ensures moves { journal.new.moves ≡ journal.old.moves ++ map (λ p. PivotMove p.0 p.1) (take result pivots.now) }
    ensures count { result ≤ length pivots.now }
{
    for (count, pivot) in pivots.iter().enumerate() {
        if journal.moves.push(Move::Pivot(pivot.0, pivot.1)).is_err() {
            return count;
        }
        budget.charge(Charge::Pivot);
    }
    pivots.len()
}

//! A literal is told: its bound is set, or it contradicts the one in force on the other side.

ghost use Rattle.std.specs.Prelude.{◌≡◌, ◌+◌, ◌-◌, ◌<◌, ◌≤◌, ◌^◌, Bool, false, None, Some, length, vec_len, vec_capacity};
ghost use Rattle.clause_form.specs.Theories.{HearsLiteralAtWork};
ghost use Rattle.lra_theory.specs.Literals.{bound_of};
ghost use Rattle.lra_theory.specs.Relations.{relations};
ghost use Rattle.lra_theory.specs.Soundness.{IsGoodBound, IsSound};
ghost use Rattle.lra_theory.specs.Standings.{after, at_work, is_clash, kept, lits_of, rest_after, seen};

use crate::clash::answer;
use crate::rows::Rows;
use crate::trail::{Told, Trail};
use clause_form::Heard;
use farkas_cert::Lit;
use ordered_field::OrderedField;
use simplex::{Bound, Outcome, Simplex};
use std::alloc::Global;

/// Tells a literal. One of a named atom is only listed.
pub(crate) fn told<F: OrderedField>(
    alloc: Global,
    rows: &Rows,
    trail: &mut Trail,
    simplex: &mut Simplex<F>,
    lit: Lit,
) -> Heard
    requires sound { IsSound F.value rows.now trail.old.told.items simplex.old }
    requires works { simplex.old.rest ≡ None }
    requires agrees { trail.old.refused ≡ None }
    requires room { length trail.old.told.items < 2 ^ 32 - 1 }
    ensures answers { (fine owes : Bool) → HearsLiteralAtWork (relations F.LIMIT F.value)
        (seen F.value (at_work fine owes rows.now trail.old.told.items None simplex.old)) lit result
        (seen F.value (after false result rows.now trail.new.told.items trail.new.refused simplex.new)) }
    ensures sound { IsSound F.value rows.now trail.new.told.items simplex.new }
    ensures works { rest_after result ≡ None → simplex.new.rest ≡ None }
    ensures agrees { is_clash result ≡ false → trail.new.refused ≡ None }
    ensures few { length (lits_of trail.new.told.items trail.new.refused) ≤ length trail.old.told.items + 1 }
{
    // The literal is listed after its bound is set, where no memory may be wanted.
    if trail.told.reserve(1).is_err() {
        return Heard::NoMemory;
    }
    match rows.bound(lit) {
        None => named(trail, simplex, rows, lit),
        Some(bound) => set(alloc, rows, trail, simplex, bound, lit),
    }
}

// Lists a literal without a bound.
fn named<F: OrderedField>(trail: &mut Trail, simplex: &Simplex<F>, rows: &Rows, lit: Lit) -> Heard
    requires room { vec_len trail.old.told < vec_capacity trail.old.told }
    requires sound { IsSound F.value rows.now trail.old.told.items simplex.now }
    requires agrees { trail.old.refused ≡ None }
    requires none { bound_of rows.now lit ≡ None }
    ensures answers { (fine owes : Bool) → HearsLiteralAtWork (relations F.LIMIT F.value)
        (seen F.value (at_work fine owes rows.now trail.old.told.items None simplex.now)) lit result
        (seen F.value (after false result rows.now trail.new.told.items trail.new.refused simplex.now)) }
    ensures sound { IsSound F.value rows.now trail.new.told.items simplex.now }
    ensures agrees { trail.new.refused ≡ None }
    ensures works { rest_after result ≡ None }
    ensures few { length trail.new.told.items ≡ length trail.old.told.items + 1 }
{
    let mark = simplex.mark();
    trail.told.push_reserved(Told { lit, mark });
    Heard::Fine
}

// Sets the bound of a literal.
fn set<F: OrderedField>(
    alloc: Global,
    rows: &Rows,
    trail: &mut Trail,
    simplex: &mut Simplex<F>,
    bound: Bound,
    lit: Lit,
) -> Heard
    requires sound { IsSound F.value rows.now trail.old.told.items simplex.old }
    requires works { simplex.old.rest ≡ None }
    requires agrees { trail.old.refused ≡ None }
    requires few { length trail.old.told.items < 2 ^ 32 - 1 }
    requires room { vec_len trail.old.told < vec_capacity trail.old.told }
    requires bound { bound_of rows.now lit ≡ Some bound }
    requires good { IsGoodBound rows.now bound }
    ensures answers { (fine owes : Bool) → HearsLiteralAtWork (relations F.LIMIT F.value)
        (seen F.value (at_work fine owes rows.now trail.old.told.items None simplex.old)) lit result
        (seen F.value (after false result rows.now trail.new.told.items trail.new.refused simplex.new)) }
    ensures sound { IsSound F.value rows.now trail.new.told.items simplex.new }
    ensures works { rest_after result ≡ None → simplex.new.rest ≡ None }
    ensures agrees { is_clash result ≡ false → trail.new.refused ≡ None }
    ensures few { length (lits_of trail.new.told.items trail.new.refused) ≤ length trail.old.told.items + 1 }
{
    let mark = simplex.mark();
    match simplex.set_bound(bound, trail.len()) {
        Outcome::Fine => {
            trail.told.push_reserved(Told { lit, mark });
            Heard::Fine
        }
        Outcome::Conflict(shares) => {
            trail.refused = Some(lit);
            let heard = answer(alloc, rows, trail, shares.as_slice());
            trail.refused = kept(&heard, lit);
            heard
        }
        Outcome::Spent => unreachable!(),
        Outcome::Stuck(stuck) => Heard::Stuck(stuck),
        Outcome::NoMemory => Heard::NoMemory,
    }
}

// The literal that contradicts is listed where the clash is answered.
fn kept(heard: &Heard, lit: Lit) -> Option<Lit>
    ensures { result ≡ kept heard.now lit }
{
    match heard {
        Heard::Clash(_) => Some(lit),
        _ => None,
    }
}

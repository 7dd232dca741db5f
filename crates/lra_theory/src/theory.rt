//! The theory itself: the simplex over the forms of some clauses, told literals of their atoms.

ghost use Rattle.std.specs.Prelude.{◌≡◌, pos, ◌≤ℤ◌, true, unsigned_abs, length, All, IfOk, OnOk, IfErr, IfSome, IsSomeAnd};
ghost use Rattle.whole.specs.Numbers.{IsWithin};
ghost use Rattle.whole.specs.declared.answers.Stuck.{Stuck as StuckValue};
ghost use Rattle.linear_form.specs.Sums.{entry};
ghost use Rattle.ordered_field.specs.Delta.{delta_value};
ghost use Rattle.clause_form.specs.Derivations.{rows_of};
ghost use Rattle.clause_form.specs.Theories.{AreMet};
ghost use Rattle.clause_form.specs.WellFormed.{IsWellFormed};
ghost use Rattle.corner_values.specs.Faults.{IsStuckValue};
ghost use Rattle.corner_values.specs.Values.{AreValuesAt};
ghost use Rattle.lra_theory.specs.Excess.{IsExcess};
ghost use Rattle.lra_theory.specs.Forms.{IsStuckCoefficient};
ghost use Rattle.lra_theory.specs.Literals.{bound_of};
ghost use Rattle.lra_theory.specs.Soundness.{IsGood, IsOpened};
ghost use Rattle.lra_theory.specs.Standings.{IfStuck, IsFresh, is_clash, is_fine, rest_after, seen};

use crate::checking::checked;
use crate::clash::heard;
use crate::excess::excess;
use crate::fault::LraFault;
use crate::rows::Rows;
use crate::telling::told;
use crate::trail::Trail;
use crate::undoing::cut;
use clause_form::{Clauses, Heard, Theory};
use corner_values::Values;
use farkas_cert::{Journal, Lit};
use ordered_field::{Delta, OrderedField, Wide};
use simplex::Simplex;
use std::alloc::Global;
use std::marker::Model;
use tableau::PivotFault;
use whole::Budget;

/// The theory of the linear rows of some clauses, by the simplex of Dutertre and de Moura.
///
/// Each literal of a row is a bound of its form's variable. Contracts see a theory as a `Standing`, and a search sees it
/// through the trait [`Theory`].
#[derive(Drop)]
pub struct Lra<F: OrderedField> {
    alloc: Global,
    rows: Rows,
    trail: Trail,
    simplex: Simplex<F>,
    fine: bool,
    owes: bool,
    rest: Option<LraFault>,
}

impl<F: OrderedField> Model for Lra<F> {
    ghost use Rattle.lra_theory.specs.Standings.{Standing};

    ghost Value = { Standing F };

    ghost use Rattle.lra_theory.specs.Soundness.{IsKept};

    ghost view = { λ s. record { rows = s.rows; told = s.trail.told.items; refused = s.trail.refused; simplex = s.simplex; fine = s.fine; owes = s.owes; rest = s.rest } };

    ghost invariant = { λ s. IsKept F.value s.rows s.trail.told.items s.trail.refused s.simplex s.fine s.owes s.rest };
}

impl<F: OrderedField> Lra<F> {
    /// A theory of these clauses' rows to which nothing was told. `Stuck` comes only where a form has a coefficient that is
    /// too wide for the field.
    pub fn new(alloc: Global, clauses: &Clauses) -> Result<Lra<F>, LraFault>
        requires formed { IsWellFormed clauses.now }
        ensures fresh { IfOk result (λ theory. IsFresh F.LIMIT F.value clauses.now (seen F.value theory)) }
        ensures stuck { IfErr result (λ fault. IfStuck fault (IsStuckCoefficient F.LIMIT (rows_of clauses.now))) }
    {
        let rows = Rows::of_clauses(alloc, clauses)?;
        let simplex = opened(alloc, &rows)?;
        Ok(Lra {
            alloc,
            rows,
            trail: Trail::new(alloc),
            simplex,
            fine: false,
            owes: false,
            rest: None,
        })
    }

    /// The values of the columns at the corner that the last check found, which meet the rows of all literals told. It may be
    /// asked for while that check's `Fine` stands. `Stuck` comes exactly where an operation of the values is too wide, and
    /// names one.
    pub fn values(&self) -> Result<Values, LraFault>
        requires { (seen F.value self.now).fine ≡ true }
        ensures exact { IfOk result (λ v. AreValuesAt (seen F.value self.now).state.corner v.over v.values) }
        ensures met { IfOk result (λ v. AreMet (seen F.value self.now).rows (entry v.values) (unsigned_abs v.over) (seen F.value self.now).told) }
        ensures positive { IfOk result (λ v. pos 1 ≤ℤ v.over) }
        ensures count { IfOk result (λ v. length v.values ≡ (seen F.value self.now).rows.columns) }
        ensures within { IfOk result (λ v. All IsWithin v.values) }
        ensures kept { OnOk result ((s : StuckValue) → ¬ IsStuckValue F.LIMIT (seen F.value self.now).state.corner s) }
        ensures stuck { IfErr result (λ fault. IfStuck fault (IsStuckValue F.LIMIT (seen F.value self.now).state.corner)) }
    {
        let _variables = self.simplex.variables();
        match corner_values::values(self.alloc, &self.simplex) {
            Ok(values) => Ok(values),
            Err(PivotFault::Stuck(stuck)) => Err(LraFault::Stuck(stuck)),
            Err(PivotFault::NoMemory) => Err(LraFault::NoMemory),
        }
    }

    /// By how much the row of a literal is violated at the corner: it holds there where this isn't above zero. There is
    /// none for a name, and where a number is too wide.
    pub fn excess(&self, lit: Lit) -> Option<Delta<F>>
        ensures { IfSome result (λ d. IsSomeAnd (bound_of (seen F.value self.now).rows lit)
            (λ b. IsExcess b ((seen F.value self.now).state.corner.value b.var) (delta_value F.value d))) }
    {
        let bound = self.rows.bound(lit)?;
        if bound.var >= self.simplex.variables() {
            return None;
        }
        match excess(bound, self.simplex.value(bound.var)) {
            Ok(excess) => Some(excess),
            Err(Wide) => None,
        }
    }
}

// The simplex over the forms.
fn opened<F: OrderedField>(alloc: Global, rows: &Rows) -> Result<Simplex<F>, LraFault>
    requires { IsGood rows.now }
    ensures opened { IfOk result (IsOpened F.value rows.now) }
    ensures stuck { IfErr result (λ fault. IfStuck fault (IsStuckCoefficient F.LIMIT rows.now)) }
{
    let defining = match rows.defining(alloc) {
        Ok(defining) => defining,
        Err(_) => return Err(LraFault::NoMemory),
    };
    match Simplex::new(alloc, rows.columns(), &defining) {
        Ok(simplex) => Ok(simplex),
        Err(PivotFault::Stuck(stuck)) => Err(LraFault::Stuck(stuck)),
        Err(PivotFault::NoMemory) => Err(LraFault::NoMemory),
    }
}

impl<F: OrderedField> Theory for Lra<F> {
    ghost use Rattle.lra_theory.specs.Calm.{openings_are_calm, pivots_mend};
    ghost use Rattle.lra_theory.specs.Relations.{relations};
    ghost use Rattle.lra_theory.specs.Standings.{seen};
    ghost use Rattle.lra_theory.specs.States.{State as LraState};

    ghost State = { LraState F };

    ghost relations = { relations F.LIMIT F.value };

    ghost seen = { seen F.value };

    ghost begins_calm = { openings_are_calm F.LIMIT F.value };

    ghost pivots_mend = { pivots_mend F.LIMIT F.value };

    fn tell(&mut self, lit: Lit) -> Heard {
        if let Some(fault) = self.rest {
            return heard(fault);
        }
        let heard = told(
            self.alloc,
            &self.rows,
            &mut self.trail,
            &mut self.simplex,
            lit,
        );
        self.fine = false;
        self.owes = is_clash(&heard);
        self.rest = rest_after(&heard);
        heard
    }

    fn check(&mut self, budget: &mut Budget, journal: &mut Journal) -> Heard {
        if let Some(fault) = self.rest {
            return heard(fault);
        }
        let heard = checked(
            self.alloc,
            &self.rows,
            &self.trail,
            &mut self.simplex,
            budget,
            journal,
        );
        self.fine = is_fine(&heard);
        self.owes = is_clash(&heard);
        self.rest = rest_after(&heard);
        heard
    }

    fn mark(&self) -> u32 {
        self.trail.len()
    }

    fn undo(&mut self, mark: u32) {
        self.fine = false;
        if mark < self.trail.len() {
            cut(&mut self.trail, &mut self.simplex, mark);
            self.owes = false;
        }
    }
}

fn is_clash(heard: &Heard) -> bool
    ensures { result ≡ is_clash heard.now }
{
    matches!(heard, Heard::Clash(_))
}

fn is_fine(heard: &Heard) -> bool
    ensures { result ≡ is_fine heard.now }
{
    matches!(heard, Heard::Fine)
}

fn rest_after(heard: &Heard) -> Option<LraFault>
    ensures { result ≡ rest_after heard.now }
{
    match heard {
        Heard::Stuck(stuck) => Some(LraFault::Stuck(*stuck)),
        Heard::NoMemory => Some(LraFault::NoMemory),
        _ => None,
    }
}

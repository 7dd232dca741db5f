//! A tableau with a value for each variable, which together meet its rows. A value is updated when a variable moves,
//! and never formed anew from all of its row.

ghost use Rattle.std.specs.Prelude.{◌≡◌, ◌+◌, ◌^◌, ◌<◌, ◌↔◌, ℕ, true, false, ◌==◌, if◌then◌else◌, pos, IfOk, OnOk, OnErr, IfErr, length};
ghost use Rattle.ordered_field.specs.Rational.{ℚ, whole};
ghost use Rattle.ordered_field.specs.Delta.{delta_value, delta_sum, delta_scaled};
ghost use Rattle.tableau.specs.Tables.{variables, is_basic, entry, Meets};
ghost use Rattle.tableau.specs.Terms.{AreForms, MeetsForms, CoefficientsFit};
ghost use Rattle.tableau.specs.Operations.{IfStuck};
ghost use Rattle.tableau.specs.Opening.{IsOpening, IsStuckCoefficient};
ghost use Rattle.simplex.specs.Moves.{moved_value, change_to, IsStuckMove, IsStuckValue, IsStuckFollowing};
ghost use Rattle.simplex.specs.States.{value_in, zero_delta};
ghost use Rattle.simplex.specs.Assignments.{value_of, IsAssignment, IsRowOf, IsMoved, IsPivoted, IsStuckPivotTo};

use crate::step::{change, follow};
use field_rows::Entry;
use ordered_field::{Delta, OrderedField, zero};
use std::alloc::{AllocError, Global};
use std::marker::Model;
use std::mem;
use tableau::{PivotFault, RowTerm, Tableau};

/// A tableau, and a value for each variable by which all rows are met.
#[derive(Drop)]
pub(crate) struct Assignment<F: OrderedField> {
    tableau: Tableau<F>,
    values: Vec<Delta<F>>,
    spare: Vec<Delta<F>>,
}

impl<F: OrderedField> Model for Assignment<F> {
    ghost use Rattle.simplex.specs.Assignments.{Assigned, IsKept};

    ghost Value = { Assigned F };

    ghost view = { λ a. record { table = a.tableau; values = a.values.items } };

    ghost invariant = { λ a. IsKept F.value a.tableau a.values.items };
}

impl<F: OrderedField> Assignment<F> {
    /// The tableau of the defining rows, with all values zero.
    pub(crate) fn new(
        alloc: Global,
        columns: u32,
        rows: &Vec<Vec<RowTerm>>,
    ) -> Result<Assignment<F>, PivotFault>
        requires terms { AreForms columns rows.now.items }
        requires few { columns + length rows.now.items < 2 ^ 32 }
        ensures opening { IfOk result (λ a. IsOpening F.value columns rows.now.items a.table) }
        ensures exact { IfOk result (λ a. (x : ℕ → ℚ) → Meets F.value a.table x ↔ MeetsForms columns rows.now.items x) }
        ensures zero { IfOk result (λ a. (v : ℕ) → value_of F.value a v ≡ zero_delta) }
        ensures kept { OnOk result (CoefficientsFit F.LIMIT rows.now.items) }
        ensures stuck { IfErr result (λ fault. IfStuck fault (IsStuckCoefficient F.LIMIT columns rows.now.items)) }
    {
        let tableau = Tableau::new(alloc, columns, rows)?;
        let values = zeros(alloc, tableau.variables())?;
        Ok(Assignment {
            tableau,
            values,
            spare: Vec::new(alloc),
        })
    }

    /// How many variables there are.
    pub(crate) fn variables(&self) -> u32
        ensures count { result ≡ variables self.now.table }
        ensures sound { IsAssignment F.value self.now }
    {
        self.tableau.variables()
    }

    /// How many columns the tableau was made with.
    pub(crate) fn columns(&self) -> u32
        ensures { result ≡ self.now.table.columns }
    {
        self.tableau.columns()
    }

    pub(crate) fn is_basic(&self, variable: u32) -> bool
        requires { variable < variables self.now.table }
        ensures { result ≡ is_basic self.now.table variable }
    {
        self.tableau.is_basic(variable)
    }

    /// The entries of the row of a basic variable that aren't zero, by rising variables.
    pub(crate) fn row(&self, basic: u32) -> &[Entry<F>]
        requires { basic < variables self.now.table }
        ensures { IsRowOf F.value self.now.table basic result.now }
    {
        self.tableau.row(basic)
    }

    /// The value of a variable.
    pub(crate) fn value(&self, variable: u32) -> Delta<F>
        requires { variable < variables self.now.table }
        ensures { delta_value F.value result ≡ value_of F.value self.now variable }
    {
        self.values[variable as usize]
    }

    /// `update` of the paper: a variable that isn't basic moves to another value, and each basic one follows.
    ///
    /// The change is formed first, and then the value of each basic variable, the least one first. `Stuck` names an
    /// operation of these that is too wide. After a refusal nothing has changed.
    pub(crate) fn update(&mut self, variable: u32, to: Delta<F>) -> Result<(), PivotFault>
        requires within { variable < variables self.old.table }
        requires non_basic { is_basic self.old.table variable ≡ false }
        ensures moved { OnOk result (IsMoved F.value self.old variable (delta_value F.value to) self.new) }
        ensures stuck { IfErr result (λ fault. IfStuck fault (IsStuckMove F.LIMIT F.value
            self.old.table (value_of F.value self.old) variable (delta_value F.value to))) }
        ensures refused { OnErr result (self.new ≡ self.old) }
    {
        let change = change(variable, self.values[variable as usize], to)?;
        moved(
            &self.tableau,
            self.values.as_slice(),
            variable,
            to,
            change,
            &mut self.spare,
        )?;
        mem::swap(&mut self.values, &mut self.spare);
        Ok(())
    }

    /// `pivot and update` of the paper: two variables exchange places, and then the one that isn't basic any longer
    /// moves to another value.
    ///
    /// `Stuck` names an operation of the exchange that is too wide, or one of the move after it.
    pub(crate) fn pivot_and_update(
        &mut self,
        basic: u32,
        other: u32,
        to: Delta<F>,
    ) -> Result<(), PivotFault>
        requires within { basic < variables self.old.table }
        requires solvable { ¬ (entry F.value self.old.table basic other ≡ whole (pos 0)) }
        ensures pivoted { OnOk result (IsPivoted F.value self.old basic other (delta_value F.value to) self.new) }
        ensures stuck { IfErr result (λ fault. IfStuck fault (IsStuckPivotTo F.LIMIT F.value
            self.old basic other (delta_value F.value to))) }
        ensures sound { IsAssignment F.value self.new }
        ensures count { variables self.new.table ≡ variables self.old.table }
        ensures same { (x : ℕ → ℚ) → Meets F.value self.new.table x ↔ Meets F.value self.old.table x }
    {
        self.tableau.pivot(basic, other)?;
        let _variables = self.tableau.variables();
        self.update(basic, to)
    }
}

// Zero.
fn origin<F: OrderedField>() -> Delta<F>
    ensures { delta_value F.value result ≡ zero_delta }
{
    Delta::new(zero(), zero())
}

// As many zeros.
fn zeros<F: OrderedField>(alloc: Global, count: u32) -> Result<Vec<Delta<F>>, AllocError>
    ensures length { IfOk result (λ zeros. length zeros.items ≡ count) }
    ensures zero { IfOk result (λ zeros. (v : ℕ) → value_in F.value zeros.items v ≡ zero_delta) }
{
    let mut zeros = Vec::new(alloc);
    for _variable in 0..count {
        zeros.push(origin())?;
    }
    Ok(zeros)
}

// The values after the move of a variable, in a buffer whose room is used again.
fn moved<F: OrderedField>(
    tableau: &Tableau<F>,
    values: &[Delta<F>],
    variable: u32,
    to: Delta<F>,
    change: Delta<F>,
    moved: &mut Vec<Delta<F>>,
) -> Result<(), PivotFault>
    requires values { length values.now ≡ variables tableau.now }
    requires within { variable < variables tableau.now }
    requires change { delta_value F.value change
        ≡ change_to (value_in F.value values.now variable) (delta_value F.value to) }
    ensures length { OnOk result (length moved.new.items ≡ variables tableau.now) }
    ensures moved { OnOk result ((v : ℕ) → value_in F.value moved.new.items v
        ≡ moved_value F.value tableau.now (value_in F.value values.now) variable (delta_value F.value to) v) }
    ensures stuck { IfErr result (λ fault. IfStuck fault (IsStuckValue F.LIMIT F.value
        tableau.now (value_in F.value values.now) variable (delta_value F.value change))) }
{
    moved.clear();
    for v in 0..tableau.variables() {
        match moved_one(tableau, v, values[v as usize], variable, to, change) {
            Ok(value) => moved.push(value)?,
            Err(fault) => return Err(fault),
        }
    }
    Ok(())
}

// The value of `v` after the move.
fn moved_one<F: OrderedField>(
    tableau: &Tableau<F>,
    v: u32,
    old: Delta<F>,
    variable: u32,
    to: Delta<F>,
    change: Delta<F>,
) -> Result<Delta<F>, PivotFault>
    requires { v < variables tableau.now }
    ensures moved { IfOk result (λ d. delta_value F.value d ≡ (if v == variable then delta_value F.value to
        else (if is_basic tableau.now v
        then delta_sum (delta_value F.value old) (delta_scaled (entry F.value tableau.now v variable) (delta_value F.value change))
        else delta_value F.value old))) }
    ensures stuck { IfErr result (λ fault. IfStuck fault (λ stuck. (is_basic tableau.now v ≡ true) × IsStuckFollowing F.LIMIT v variable
        (delta_value F.value old) (entry F.value tableau.now v variable) (delta_value F.value change) stuck)) }
{
    if v == variable {
        return Ok(to);
    }
    if !tableau.is_basic(v) {
        return Ok(old);
    }
    follow(v, variable, old, tableau.entry(v, variable), change)
}

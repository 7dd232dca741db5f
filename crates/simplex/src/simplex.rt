//! Bounds are asserted one after the other (`assert upper` and `assert lower` of the paper), and `check` repairs the
//! values pivot by pivot.

ghost use Rattle.std.specs.Prelude.{◌≡◌, ◌+◌, ◌<◌, ◌≤◌, ◌^◌, ◌↔◌, ℕ, pos, ◌≤ℤ◌, None, [], take, length, option_map, true, false, IfOk, OnOk, IfErr};
ghost use Rattle.ordered_field.specs.Delta.{delta_value};
ghost use Rattle.ordered_field.specs.Rational.{ℚ};
ghost use Rattle.whole.specs.Budget.{counts};
ghost use Rattle.whole.specs.Numbers.{IsWithin};
ghost use Rattle.tableau.specs.Tables.{variables, Meets};
ghost use Rattle.tableau.specs.Terms.{AreForms, MeetsForms, CoefficientsFit};
ghost use Rattle.tableau.specs.Operations.{IfStuck};
ghost use Rattle.tableau.specs.Opening.{IsOpening, IsStuckCoefficient};
ghost use Rattle.simplex.specs.States.{corner, IsSound, Repeats, rest_of, zero_delta};
ghost use Rattle.simplex.specs.Bounds.{AnswersBound};
ghost use Rattle.simplex.specs.Checks.{AnswersCheck};
ghost use Rattle.simplex.specs.InForce.{number_in_force};

use crate::assignment::Assignment;
use crate::limits::Limits;
use crate::outcome::{Bound, Outcome};
use crate::repair::repair;
use crate::setting::set;
use ordered_field::{Delta, OrderedField};
use std::alloc::Global;
use std::marker::Model;
use tableau::{PivotFault, RowTerm};
use whole::Budget;

/// A tableau with a value for each variable, and bounds in force.
///
/// Contracts see it as a `State`: the corner (tableau, values and bounds), the pivots of the last check, and whether it
/// is at rest.
#[derive(Drop)]
pub struct Simplex<F: OrderedField> {
    alloc: Global,
    assignment: Assignment<F>,
    limits: Limits<F>,
    pivots: Vec<(u32, u32)>,
    rest: Option<PivotFault>,
}

impl<F: OrderedField> Model for Simplex<F> {
    ghost use Rattle.simplex.specs.Assignments.{IsBuilt, state_of};
    ghost use Rattle.simplex.specs.States.{State};

    ghost Value = { State F };

    ghost view = { λ s. state_of s.assignment s.limits s.pivots.items s.rest };

    ghost invariant = { λ s. IsBuilt F.value s.assignment s.limits s.rest };
}

impl<F: OrderedField> Simplex<F> {
    /// All values are 0, and there is no bound. The rows are as `Tableau::new` needs them, and `Stuck` comes as it does
    /// there.
    pub fn new(
        alloc: Global,
        columns: u32,
        rows: &Vec<Vec<RowTerm>>,
    ) -> Result<Simplex<F>, PivotFault>
        requires terms { AreForms columns rows.now.items }
        requires few { columns + length rows.now.items < 2 ^ 32 }
        ensures opening { IfOk result (λ s. IsOpening F.value columns rows.now.items s.table) }
        ensures exact { IfOk result (λ s. (x : ℕ → ℚ) → Meets F.value s.table x ↔ MeetsForms columns rows.now.items x) }
        ensures zero { IfOk result (λ s. (v : ℕ) → (corner F.value s).value v ≡ zero_delta) }
        ensures unbounded { IfOk result (λ s. s.limits ≡ []) }
        ensures works { IfOk result (λ s. (s.rest ≡ None) × (s.pivots ≡ [])) }
        ensures kept { OnOk result (CoefficientsFit F.LIMIT rows.now.items) }
        ensures stuck { IfErr result (λ fault. IfStuck fault (IsStuckCoefficient F.LIMIT columns rows.now.items)) }
    {
        let assignment = Assignment::new(alloc, columns, rows)?;
        let limits = Limits::new(alloc, assignment.variables())?;
        Ok(Simplex {
            alloc,
            assignment,
            limits,
            pivots: Vec::new(alloc),
            rest: None,
        })
    }

    /// Puts a bound in force. A variable that isn't basic and is outside moves to the bound.
    ///
    /// `Conflict` comes exactly where the bound's number fits the field, the simplex isn't at rest, and the bound
    /// contradicts the one in force on the other side: two shares of 1, the lower bound's first, and nothing changes.
    /// A bound no stronger than the one in force on its side is `Fine` and changes nothing, so the earlier tag stays.
    /// `Stuck` names the product of `num` and `1 / den`, or an operation of the move, that is too wide. After `Stuck`
    /// or `NoMemory`, and only from then on, the simplex is at rest: each later call gives that answer again.
    pub fn set_bound(&mut self, bound: Bound, tag: u32) -> Outcome<F>
        requires within { IsWithin bound.num }
        requires positive { pos 1 ≤ℤ bound.den }
        requires variable { bound.var < variables self.old.table }
        requires room { length self.old.limits + 1 < 2 ^ 32 }
        ensures answers { AnswersBound F.LIMIT F.value self.old bound tag result self.new }
        ensures sound { IsSound F.value self.new }
    {
        if let Some(fault) = self.rest {
            return repeated(fault);
        }
        let outcome = set(
            self.alloc,
            &mut self.assignment,
            &mut self.limits,
            bound,
            tag,
        );
        self.rest = rest_after(&outcome);
        outcome
    }

    /// Repairs the values by Bland's rule: the least violated basic variable leaves, the least one that can help it
    /// enters, and the first moves to its violated bound. Each pivot is charged and listed before it is made; nothing
    /// else of the budget changes.
    ///
    /// `Fine`: all values are within their bounds. `Conflict`: the least violated variable can't be helped, and the
    /// shares' bounds, multiplied, sum to a contradiction. `Spent`: the budget is spent, and a pivot may be made.
    /// `Stuck` names an operation of the last pivot, or of the values after it, that is too wide. After `Stuck` or
    /// `NoMemory` the simplex is at rest, as after `set_bound`; then no pivot is listed.
    pub fn check(&mut self, budget: &mut Budget) -> Outcome<F>
        ensures answers { AnswersCheck F.LIMIT F.value self.old result self.new (counts budget.old) (counts budget.new) }
        ensures sound { IsSound F.value self.new }
        ensures same { (x : ℕ → ℚ) → Meets F.value self.new.table x ↔ Meets F.value self.old.table x }
    {
        self.pivots.clear();
        if let Some(fault) = self.rest {
            return repeated(fault);
        }
        let outcome = repair(
            self.alloc,
            &mut self.assignment,
            &self.limits,
            &mut self.pivots,
            budget,
        );
        self.rest = rest_after(&outcome);
        outcome
    }

    /// The pivots of the last check, which were charged: basic variable and other one, in order, with the one in which
    /// it stuck.
    pub fn pivots(&self) -> &Vec<(u32, u32)>
        ensures { result.now.items ≡ self.now.pivots }
    {
        &self.pivots
    }

    /// How many variables there are: the columns, and one for each row.
    pub fn variables(&self) -> u32
        ensures count { result ≡ variables self.now.table }
        ensures sound { IsSound F.value self.now }
    {
        self.assignment.variables()
    }

    /// How many columns it was made with: the variables below this number.
    pub fn columns(&self) -> u32
        ensures { result ≡ self.now.table.columns }
    {
        self.assignment.columns()
    }

    /// The number that a variable is at least, if a lower bound of it is in force.
    pub fn lower(&self, var: u32) -> Option<Delta<F>>
        requires { var < variables self.now.table }
        ensures { option_map (delta_value F.value) result ≡ number_in_force false var (corner F.value self.now).limits }
    {
        self.limits.number_in_force(false, var)
    }

    /// The number that a variable is at most, if an upper bound of it is in force.
    pub fn upper(&self, var: u32) -> Option<Delta<F>>
        requires { var < variables self.now.table }
        ensures { option_map (delta_value F.value) result ≡ number_in_force true var (corner F.value self.now).limits }
    {
        self.limits.number_in_force(true, var)
    }

    /// The value of a variable.
    pub fn value(&self, var: u32) -> Delta<F>
        requires { var < variables self.now.table }
        ensures { delta_value F.value result ≡ (corner F.value self.now).value var }
    {
        self.assignment.value(var)
    }

    /// How many bounds were put in force and not undone.
    pub fn mark(&self) -> u32
        ensures count { result ≡ length self.now.limits }
        ensures sound { IsSound F.value self.now }
    {
        self.limits.len()
    }

    /// Takes the bounds back that were put in force after the first `mark`. The tableau and the values stay.
    pub fn undo(&mut self, mark: u32)
        requires { mark ≤ length self.old.limits }
        ensures undone { self.new ≡ record self.old { limits = take mark self.old.limits } }
        ensures sound { IsSound F.value self.new }
    {
        self.limits.undo(mark);
    }
}

// The answer of a call at rest.
fn repeated<F: OrderedField>(fault: PivotFault) -> Outcome<F>
    ensures { Repeats fault result }
{
    match fault {
        PivotFault::Stuck(stuck) => Outcome::Stuck(stuck),
        PivotFault::NoMemory => Outcome::NoMemory,
    }
}

// Whether the simplex is at rest after an answer.
fn rest_after<F: OrderedField>(outcome: &Outcome<F>) -> Option<PivotFault>
    ensures { result ≡ rest_of outcome.now }
{
    match outcome {
        Outcome::Stuck(stuck) => Some(PivotFault::Stuck(*stuck)),
        Outcome::NoMemory => Some(PivotFault::NoMemory),
        _ => None,
    }
}

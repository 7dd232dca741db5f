//! The running sums of a leaf, taken as a checker takes them: of each column, and of the bounds.

ghost use Rattle.std.specs.Prelude.{◌≡◌, ◌<◌, ◌≤◌, ◌^◌, ◌*ℤ◌, ◌⊎◌, ℕ, ℤ, None, Some, length, All, unsigned_abs, IfOk, OnOk, OnErr, IfErr, slice_set};
ghost use Rattle.whole.specs.Numbers.{IsWithin, fma};
ghost use Rattle.whole.specs.declared.answers.Place.TheVariants.{Column};
ghost use Rattle.linear_form.specs.Reduced.{IsReduced};
ghost use Rattle.linear_form.specs.Sums.{coef_at};
ghost use Rattle.clause_form.specs.Derivations.{SumsFit, row_coef, row_of, number_in, terms_of};
ghost use Rattle.lra_theory.specs.Forms.{variables_of};
ghost use Rattle.lra_theory.specs.Clashes.{IsStuckStep, IsStuckSum, operation};
ghost use Rattle.lra_theory.specs.Soundness.{IsGood, IsGoodBound};
ghost use Rattle.lra_theory.specs.Standings.{IfStuck};
ghost use Rattle.lra_theory.specs.Totals.{AllWithin, AreAfterPart, AreAfterRow, AreZero, IsStuckInPart, IsStuckInRow, sum_at, signed};

use crate::fault::LraFault;
use crate::rows::Rows;
use farkas_cert::Part;
use linear_form::Term;
use simplex::Bound;
use std::alloc::{AllocError, Global};
use whole::{Op, Pair, Place, Stuck, checked_fma};

/// The sum of each column, and of the bounds.
#[derive(Debug, Drop)]
struct Sums {
    columns: Vec<i128>,
    bound: i128,
}

/// Tries the running sums of a leaf. `Stuck` names a step that overflows 128 bits.
pub(crate) fn sums_fit(alloc: Global, rows: &Rows, parts: &[Part]) -> Result<(), LraFault>
    requires good { IsGood rows.now }
    requires mults { All (λ p. IsWithin p.mult) parts.now }
    requires few { length parts.now ≤ 2049 }
    ensures fit { OnOk result (SumsFit rows.now parts.now) }
    ensures stuck { IfErr result (λ fault. IfStuck fault (IsStuckSum rows.now parts.now)) }
{
    let mut sums = zeros(alloc, rows.columns())?;
    for (position, part) in parts.iter().enumerate() {
        match add_part(rows, &mut sums, *part, position as u32) {
            Ok(()) => {}
            Err(stuck) => return Err(LraFault::Stuck(stuck)),
        }
    }
    Ok(())
}

fn zeros(alloc: Global, columns: u32) -> Result<Sums, AllocError>
    ensures { IfOk result (AreZero columns) }
{
    Ok(Sums {
        columns: Vec::from_elem(alloc, 0, columns as usize)?,
        bound: 0,
    })
}

// Adds the row of a part.
fn add_part(rows: &Rows, sums: &mut Sums, part: Part, position: u32) -> Result<(), Stuck>
    requires good { IsGood rows.now }
    requires mult { IsWithin part.mult }
    requires columns { length sums.old.columns.items ≡ rows.now.columns }
    requires within { AllWithin sums.old }
    ensures columns { length sums.new.columns.items ≡ rows.now.columns }
    ensures within { OnOk result (AllWithin sums.new) }
    ensures added { OnOk result (AreAfterPart rows.now part sums.old sums.new) }
    ensures stuck { IfErr result (IsStuckInPart rows.now part position sums.old) }
{
    match rows.bound(part.lit) {
        Some(bound) => add_row(rows, sums, bound, part.mult, position),
        None => Ok(()),
    }
}

// Adds the row of a bound.
fn add_row(
    rows: &Rows,
    sums: &mut Sums,
    bound: Bound,
    mult: i128,
    position: u32,
) -> Result<(), Stuck>
    requires good { IsGood rows.now }
    requires of_rows { IsGoodBound rows.now bound }
    requires mult { IsWithin mult }
    requires columns { length sums.old.columns.items ≡ rows.now.columns }
    requires within { AllWithin sums.old }
    ensures columns { length sums.new.columns.items ≡ rows.now.columns }
    ensures added { OnOk result (AreAfterRow rows.now bound mult sums.old sums.new) }
    ensures stuck { IfErr result (IsStuckInRow rows.now bound mult position sums.old) }
{
    let factor = signed(bound.upper, bound.den);
    match add_form(rows, &mut sums.columns, bound.var, mult, factor, position) {
        Ok(()) => add_number(
            sums,
            mult,
            signed(bound.upper, bound.num),
            rows.columns(),
            position,
        ),
        Err(stuck) => Err(stuck),
    }
}

// Adds a number to the sum of the bounds.
fn add_number(
    sums: &mut Sums,
    mult: i128,
    number: i128,
    at: u32,
    position: u32,
) -> Result<(), Stuck>
    requires sum { IsWithin sums.old.bound }
    requires mult { IsWithin mult }
    requires number { IsWithin number }
    ensures columns { sums.new.columns ≡ sums.old.columns }
    ensures exact { OnOk result (fma sums.old.bound mult number ≡ Some sums.new.bound) }
    ensures stuck { IfErr result (IsStuckStep at position sums.old.bound mult number) }
{
    match stepped(sums.bound, mult, number, at, position) {
        Ok(next) => {
            sums.bound = next;
            Ok(())
        }
        Err(stuck) => Err(stuck),
    }
}

// Adds the terms of the form with this number.
fn add_form(
    rows: &Rows,
    sums: &mut Vec<i128>,
    form: u32,
    mult: i128,
    factor: i128,
    position: u32,
) -> Result<(), Stuck>
    requires good { IsGood rows.now }
    requires form { form < variables_of rows.now }
    requires factor { unsigned_abs factor < 10 ^ 16 }
    requires mult { IsWithin mult }
    requires columns { length sums.old.items ≡ rows.now.columns }
    requires within { (column : ℕ) → IsWithin (sum_at sums.old.items column) }
    ensures length { length sums.new.items ≡ length sums.old.items }
    ensures sums { OnOk result ((column : ℕ) → fma (sum_at sums.old.items column) mult (factor *ℤ coef_at column (terms_of rows.now form)) ≡ Some (sum_at sums.new.items column)) }
    ensures stuck { IfErr result (λ k. (column : ℕ) × (column < length sums.old.items)
        × IsStuckStep column position (sum_at sums.old.items column) mult (factor *ℤ coef_at column (terms_of rows.now form)) k) }
{
    if form < rows.columns() {
        let lone = [Term {
            column: form,
            coef: 1,
        }];
        add_terms(sums, &lone, mult, factor, position)
    } else {
        let terms = rows.form_terms(form - rows.columns());
        add_terms(sums, terms, mult, factor, position)
    }
}

// A number of an upper bound, and its opposite for a lower one.
fn signed(upper: bool, number: i128) -> i128
    requires { unsigned_abs number < 10 ^ 16 }
    ensures exact { result ≡ signed upper number }
    ensures small { unsigned_abs result < 10 ^ 16 }
{
    if upper { number } else { -number }
}

// Adds the terms of a row.
fn add_terms(
    sums: &mut Vec<i128>,
    terms: &[Term],
    mult: i128,
    factor: i128,
    position: u32,
) -> Result<(), Stuck>
    requires reduced { IsReduced terms.now }
    requires columns { All (λ t. t.column < length sums.old.items) terms.now }
    requires small { All (λ t. unsigned_abs t.coef < 10 ^ 16) terms.now }
    requires factor { unsigned_abs factor < 10 ^ 16 }
    requires mult { IsWithin mult }
    requires within { (column : ℕ) → IsWithin (sum_at sums.old.items column) }
    ensures length { length sums.new.items ≡ length sums.old.items }
    ensures sums { OnOk result ((column : ℕ) → fma (sum_at sums.old.items column) mult (factor *ℤ coef_at column terms.now) ≡ Some (sum_at sums.new.items column)) }
    ensures stuck { IfErr result (λ k. (column : ℕ) × (column < length sums.old.items)
        × IsStuckStep column position (sum_at sums.old.items column) mult (factor *ℤ coef_at column terms.now) k) }
{
    for term in terms {
        match add(sums, *term, mult, factor, position) {
            Ok(()) => {}
            Err(stuck) => return Err(stuck),
        }
    }
    Ok(())
}

// Adds one term.
fn add(
    sums: &mut Vec<i128>,
    term: Term,
    mult: i128,
    factor: i128,
    position: u32,
) -> Result<(), Stuck>
    requires column { term.column < length sums.old.items }
    requires coef { unsigned_abs term.coef < 10 ^ 16 }
    requires factor { unsigned_abs factor < 10 ^ 16 }
    requires mult { IsWithin mult }
    requires within { IsWithin (sum_at sums.old.items term.column) }
    ensures ok { OnOk result ((next : ℤ) × (fma (sum_at sums.old.items term.column) mult (factor *ℤ term.coef) ≡ Some next) × (sums.new.items ≡ slice_set sums.old.items term.column next)) }
    ensures err { OnErr result (sums.new.items ≡ sums.old.items) }
    ensures stuck { IfErr result (IsStuckStep term.column position (sum_at sums.old.items term.column) mult (factor *ℤ term.coef)) }
{
    let sum = sums[term.column as usize];
    let number = product(factor, term.coef);
    match stepped(sum, mult, number, term.column, position) {
        Ok(next) => {
            sums[term.column as usize] = next;
            Ok(())
        }
        Err(stuck) => Err(stuck),
    }
}

// The product of two small numbers.
fn product(left: i128, right: i128) -> i128
    requires left { unsigned_abs left < 10 ^ 16 }
    requires right { unsigned_abs right < 10 ^ 16 }
    ensures exact { result ≡ left *ℤ right }
    ensures within { IsWithin result }
{
    left * right
}

// A running sum after one more product.
fn stepped(sum: i128, mult: i128, number: i128, at: u32, position: u32) -> Result<i128, Stuck>
    requires sum { IsWithin sum }
    requires mult { IsWithin mult }
    requires number { IsWithin number }
    ensures exact { IfOk result (λ next. fma sum mult number ≡ Some next) }
    ensures stuck { IfErr result (IsStuckStep at position sum mult number) }
{
    match checked_fma(sum, mult, number) {
        Some(next) => Ok(next),
        None => Err(overflowing(sum, mult, number, at, position)),
    }
}

// The operation of a step that overflows: the product, or else the sum.
fn overflowing(sum: i128, mult: i128, number: i128, at: u32, position: u32) -> Stuck
    requires sum { IsWithin sum }
    requires mult { IsWithin mult }
    requires number { IsWithin number }
    requires overflows { fma sum mult number ≡ None }
    ensures { IsStuckStep at position sum mult number result }
{
    match checked_fma(0, mult, number) {
        None => step(at, position, Op::Product, mult, number),
        Some(product) => step(at, position, Op::Sum, sum, product),
    }
}

fn step(at: u32, position: u32, op: Op, left: i128, right: i128) -> Stuck
    ensures { result ≡ operation Column at position op left right }
{
    Stuck {
        place: Place::Column,
        at,
        by: position,
        op,
        left: Pair { num: left, den: 1 },
        right: Pair { num: right, den: 1 },
    }
}

//! The rows that some forms define.

ghost use Rattle.std.specs.Prelude.{◌≡◌, ◌+◌, ◌<◌, ◌≤◌, ◌^◌, ◌↔◌, IsTrue, ℕ, All, IfOk, OnOk, IfErr, length, get_or, unsigned_abs, pos, true, false};
ghost use Rattle.ordered_field.specs.Rational.{whole};
ghost use Rattle.field_rows.specs.Rows.{coefficient, IsRow, IsRowWithin, put};
ghost use Rattle.whole.specs.declared.answers.Op.TheVariants.{Product};
ghost use Rattle.whole.specs.declared.answers.Place.TheVariants.{Bound};
ghost use Rattle.tableau.specs.Terms.{AreTerms, AreForms, CoefficientsFit};
ghost use Rattle.tableau.specs.Operations.{IfStuck, IsOperation};
ghost use Rattle.tableau.specs.Opening.{IsStuckCoefficient};
ghost use Rattle.tableau.specs.Layout.{IsRowOf, IsOpened, IsStuckNumber, IsStuckTerm};

use crate::fault::PivotFault;
use crate::listed::Listed;
use crate::names::{empty_lists, name_row};
use crate::terms::RowTerm;
use field_rows::{Entry, put};
use ordered_field::{OrderedField, Wide};
use std::alloc::{AllocError, Global};
use whole::{Op, Pair, Place, Stuck};

/// The lists of a tableau at its opening.
#[derive(Drop)]
pub(crate) struct Opening<F> {
    pub(crate) basic: Vec<bool>,
    pub(crate) rows: Vec<Listed<Entry<F>>>,
    pub(crate) users: Vec<Listed<u32>>,
}

/// The columns have no row, and each form is the row of the next variable.
pub(crate) fn open_rows<F: OrderedField>(
    alloc: Global,
    columns: u32,
    forms: &Vec<Vec<RowTerm>>,
) -> Result<Opening<F>, PivotFault>
    requires terms { AreForms columns forms.now.items }
    requires few { columns + length forms.now.items < 2 ^ 32 }
    ensures opened { IfOk result (λ p. IsOpened F.LIMIT F.value columns forms.now.items (length forms.now.items) p.basic.items p.rows.items p.users.items) }
    ensures stuck { IfErr result (λ fault. IfStuck fault (IsStuckCoefficient F.LIMIT columns forms.now.items)) }
{
    let mut basic = no_flags(alloc, columns as usize)?;
    let mut rows = empty_lists(alloc, columns as usize)?;
    let mut users = empty_lists(alloc, columns as usize + forms.len())?;
    for terms in forms {
        let variable = rows.len() as u32;
        let row = match row_of(alloc, variable, terms.as_slice()) {
            Ok(row) => row,
            Err(fault) => return Err(fault),
        };
        name_row(&mut users, row.as_slice(), variable)?;
        basic.push(true)?;
        rows.push(row)?;
    }
    Ok(Opening { basic, rows, users })
}

/// As many flags, all false.
fn no_flags(alloc: Global, count: usize) -> Result<Vec<bool>, AllocError>
    ensures length { IfOk result (λ flags. length flags.items ≡ count) }
    ensures none { IfOk result (λ flags. (v : ℕ) → get_or flags.items v false ≡ false) }
{
    let mut flags = Vec::new(alloc);
    for _made in 0..count {
        flags.push(false)?;
    }
    Ok(flags)
}

/// The row of a variable that a list of terms defines.
fn row_of<F: OrderedField>(
    alloc: Global,
    variable: u32,
    terms: &[RowTerm],
) -> Result<Listed<Entry<F>>, PivotFault>
    requires { (n : ℕ) × AreTerms n terms.now }
    ensures row { IfOk result (IsRowOf F.value terms.now) }
    ensures kept { OnOk result (All (λ t. unsigned_abs t.coef ≤ F.LIMIT) terms.now) }
    ensures stuck { IfErr result (λ fault. IfStuck fault (IsStuckTerm F.LIMIT variable terms.now)) }
{
    let mut row = Vec::new(alloc);
    for term in terms {
        match with_term(alloc, row, variable, *term) {
            Ok(more) => row = more,
            Err(fault) => return Err(fault),
        }
    }
    Ok(Listed::from_vec(row))
}

/// A row with one more term. A term of a variable behind those of the row is added at its end, so a form whose variables
/// rise takes as many steps as it has terms.
fn with_term<F: OrderedField>(
    alloc: Global,
    row: Vec<Entry<F>>,
    variable: u32,
    term: RowTerm,
) -> Result<Vec<Entry<F>>, PivotFault>
    requires { IsRow F.value row.items }
    ensures row { IfOk result (λ more. IsRow F.value more.items) }
    ensures entries { IfOk result (λ more. (v : ℕ) → coefficient F.value more.items v
        ≡ put term.var (whole term.coef) (coefficient F.value row.items) v) }
    ensures kept { OnOk result (unsigned_abs term.coef ≤ F.LIMIT) }
    ensures stuck { IfErr result (λ fault. IfStuck fault (IsStuckNumber F.LIMIT variable term)) }
{
    let number = number_of(variable, term)?;
    let more = with_entry(alloc, row, term.var, number)?;
    Ok(more)
}

/// A row with this number as its coefficient of a variable.
fn with_entry<F: OrderedField>(
    alloc: Global,
    row: Vec<Entry<F>>,
    variable: u32,
    number: F,
) -> Result<Vec<Entry<F>>, AllocError>
    requires { IsRow F.value row.items }
    ensures row { IfOk result (λ more. IsRow F.value more.items) }
    ensures entries { IfOk result (λ more. (v : ℕ) → coefficient F.value more.items v
        ≡ put variable (F.value number) (coefficient F.value row.items) v) }
{
    if is_behind(row.as_slice(), variable) {
        return with_last(row, variable, number);
    }
    let mut more = Vec::new(alloc);
    put(alloc, row.as_slice(), variable, number, &mut more)?;
    Ok(more)
}

/// Whether a variable is greater than all of a row.
fn is_behind<F: OrderedField>(row: &[Entry<F>], variable: u32) -> bool
    requires { IsRow F.value row.now }
    ensures { result ≡ true → IsRowWithin F.value 0 variable row.now }
{
    match row.split_last() {
        Some((last, _)) => last.variable < variable,
        None => true,
    }
}

/// A row with one more entry at its end, which is left out where its number is zero.
fn with_last<F: OrderedField>(
    row: Vec<Entry<F>>,
    variable: u32,
    number: F,
) -> Result<Vec<Entry<F>>, AllocError>
    requires { IsRowWithin F.value 0 variable row.items }
    ensures row { IfOk result (λ more. IsRow F.value more.items) }
    ensures entries { IfOk result (λ more. (v : ℕ) → coefficient F.value more.items v
        ≡ put variable (F.value number) (coefficient F.value row.items) v) }
{
    let mut row = row;
    if is_zero(number) {
        return Ok(row);
    }
    row.push(Entry { variable, number })?;
    Ok(row)
}

fn is_zero<F: OrderedField>(number: F) -> bool
    ensures { IsTrue result ↔ (F.value number ≡ whole (pos 0)) }
{
    number.sign() == 0
}

/// The coefficient of a term as a number of the field.
fn number_of<F: OrderedField>(variable: u32, term: RowTerm) -> Result<F, PivotFault>
    ensures exact { IfOk result (λ x. F.value x ≡ whole term.coef) }
    ensures kept { OnOk result (unsigned_abs term.coef ≤ F.LIMIT) }
    ensures stuck { IfErr result (λ fault. IfStuck fault (IsStuckNumber F.LIMIT variable term)) }
{
    match F::from_whole(term.coef) {
        Ok(number) => Ok(number),
        Err(Wide) => Err(PivotFault::Stuck(times_one(variable, term))),
    }
}

/// The product of a term's coefficient and 1.
fn times_one(variable: u32, term: RowTerm) -> Stuck
    ensures { IsOperation Bound variable term.var Product (whole term.coef) (whole (pos 1)) result }
{
    Stuck {
        place: Place::Bound,
        at: variable,
        by: term.var,
        op: Op::Product,
        left: Pair {
            num: term.coef,
            den: 1,
        },
        right: Pair { num: 1, den: 1 },
    }
}

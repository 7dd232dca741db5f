//! The columns, forms and atoms that a theory stands for, and the bounds of literals.

ghost use Rattle.std.specs.Prelude.{◌≡◌, ◌<◌, map, length, IfOk, IfSome};
ghost use Rattle.clause_form.specs.Derivations.{rows_of};
ghost use Rattle.lra_theory.specs.Literals.{AreRowsOf, bound_of, bound_if, den_of, form_terms, row_term};
ghost use Rattle.lra_theory.specs.Soundness.{IsGood, IsGoodBound};

use clause_form::{Atom, Clauses};
use farkas_cert::Lit;
use linear_form::{Form, Term};
use simplex::Bound;
use sqlite_items::Items;
use std::alloc::{AllocError, Global};
use std::marker::Model;
use tableau::RowTerm;
use whole::NoMemory;

/// Columns, forms of several columns, and atoms. Contracts see them as the rows of the clauses.
#[derive(Debug, Drop)]
pub(crate) struct Rows {
    columns: u32,
    forms: Items<Form>,
    atoms: Items<Atom>,
}

impl Model for Rows {
    ghost use Rattle.clause_form.specs.Derivations.{Rows as RowsOfClauses};

    ghost Value = { RowsOfClauses };

    ghost view = { λ r. record { columns = r.columns; forms = r.forms; atoms = r.atoms } };
}

impl Rows {
    /// The rows of some clauses.
    pub(crate) fn of_clauses(alloc: Global, clauses: &Clauses) -> Result<Rows, NoMemory>
        ensures { IfOk result (λ rows. rows ≡ rows_of clauses.now) }
    {
        Ok(Rows {
            columns: clauses.columns,
            forms: copied(alloc, clauses.forms.as_slice())?,
            atoms: Items::from_slice(alloc, clauses.atoms.as_slice())?,
        })
    }

    pub(crate) fn columns(&self) -> u32
        ensures { result ≡ self.now.columns }
    {
        self.columns
    }

    /// The form of several columns with this number.
    pub(crate) fn form_terms(&self, number: u32) -> &[Term]
        requires { number < length self.now.forms }
        ensures { result.now ≡ form_terms self.now number }
    {
        self.forms.as_slice()[number as usize].terms.as_slice()
    }

    /// The defining rows of the forms of several columns.
    pub(crate) fn defining(&self, alloc: Global) -> Result<Vec<Vec<RowTerm>>, AllocError>
        ensures { IfOk result (λ rows. AreRowsOf self.now.forms rows.items) }
    {
        row_lists(alloc, self.forms.as_slice())
    }

    /// The bound of a literal, where its atom is a row's.
    pub(crate) fn bound(&self, lit: Lit) -> Option<Bound>
        requires { IsGood self.now }
        ensures bound { result ≡ bound_of self.now lit }
        ensures good { IfSome result (IsGoodBound self.now) }
    {
        match self.atoms.get(lit.atom as usize) {
            Some(
                Atom::Row {
                    form,
                    num,
                    den,
                    strict,
                },
            ) => Some(bound_if(lit.positive, *form, *num, *den, *strict)),
            _ => None,
        }
    }

    /// The denominator of a literal's bound, and 1 where it has none.
    pub(crate) fn den(&self, lit: Lit) -> i128
        requires { IsGood self.now }
        ensures { result ≡ den_of self.now lit }
    {
        match self.bound(lit) {
            Some(bound) => bound.den,
            None => 1,
        }
    }
}

fn copied(alloc: Global, forms: &[Form]) -> Result<Items<Form>, NoMemory>
    ensures { IfOk result (λ copies. copies ≡ forms.now) }
{
    let mut copies = Items::new(alloc);
    for form in forms {
        copies.push(form.clone()?)?;
    }
    Ok(copies)
}

fn row_lists(alloc: Global, forms: &[Form]) -> Result<Vec<Vec<RowTerm>>, AllocError>
    ensures { IfOk result (λ rows. AreRowsOf forms.now rows.items) }
{
    let mut rows = Vec::new(alloc);
    for form in forms {
        rows.push(row_terms(alloc, form.terms.as_slice())?)?;
    }
    Ok(rows)
}

fn row_terms(alloc: Global, terms: &[Term]) -> Result<Vec<RowTerm>, AllocError>
    ensures { IfOk result (λ row. row.items ≡ map row_term terms.now) }
{
    terms
        .iter()
        .map(|term| RowTerm {
            var: term.column,
            coef: term.coef,
        })
        .collect(alloc)
}

// The bound of an atom's literal.
fn bound_if(positive: bool, form: u32, num: i128, den: i128, strict: bool) -> Bound
    ensures { result ≡ bound_if positive form num den strict }
{
    Bound {
        var: form,
        upper: positive,
        num,
        den,
        strict: if positive { strict } else { !strict },
    }
}

// Is the corner a model, with an epsilon put in for the infinitesimal?
ghost use Rattle.std.specs.Prelude.{◌≡◌, true, length, pos, ◌≤ℤ◌, All, IfNone, IfSome, unsigned_abs};
ghost use Rattle.whole.specs.Numbers.{IsWithin};
ghost use Rattle.linear_form.specs.Sums.{entry};
ghost use Rattle.clause_form.specs.Derivations.{rows_of};
ghost use Rattle.clause_form.specs.Models.{HasTrue, RowsAgree, Satisfies};
ghost use Rattle.clause_form.specs.WellFormed.{IsWellFormed};
ghost use Rattle.clause_search.specs.Answers.{truth_in};
ghost use Rattle.lra_theory.specs.Standings.{seen};
ghost use Rattle.corner_guide.specs.Models.{IsCornerModel};
ghost use Rattle.corner_guide.specs.Truths.{Agrees};

use crate::outlook::{DEEPEST, Outlook};
use crate::rows::row_holds;
use clause_form::{Atom, Clauses};
use farkas_cert::{Lit, Lits};
use lra_theory::{Lra, Values};
use ordered_field::OrderedField;
use sqlite_items::Items;
use std::alloc::Global;

/// A value for each column and a truth for each atom.
#[derive(Debug, Drop)]
pub struct CornerModel {
    pub values: Values,
    pub truths: Items<bool>,
}

/// The model at the corner, if each clause is true there. An atom of a row is as true as its row at the
/// corner's values, and a name off the trail as its formula. None also where a number is too wide, or
/// memory runs out.
///
/// The suspect is the clause that is looked at first: mostly it is false still, and then no other is.
/// It becomes the first one that is false.
pub(crate) fn corner_model<F: OrderedField>(
    alloc: Global,
    clauses: &Clauses,
    outlook: &Outlook<F>,
    theory: &Lra<F>,
    suspect: &mut u32,
) -> Option<CornerModel>
    requires formed { IsWellFormed clauses.now }
    requires rows { (seen F.value theory.now).rows ≡ rows_of clauses.now }
    requires fine { (seen F.value theory.now).fine ≡ true }
    ensures { IfSome result (IsCornerModel clauses.now (seen F.value theory.now)) }
{
    let Ok(values) = theory.values() else {
        return None;
    };
    if is_false(clauses, outlook, &values, *suspect) {
        return None;
    }
    let truths = truths(alloc, clauses, outlook, &values)?;
    match first_false(clauses.clauses.as_slice(), truths.as_slice()) {
        Some(number) => {
            *suspect = number;
            None
        }
        None => Some(CornerModel { values, truths }),
    }
}

// Whether the clause with this number is seen to be false at these values.
fn is_false<F: OrderedField>(
    clauses: &Clauses,
    outlook: &Outlook<F>,
    values: &Values,
    number: u32,
) -> bool
    requires formed { IsWellFormed clauses.now }
    requires count { length values.now.values ≡ clauses.now.columns }
    requires each_in { All IsWithin values.now.values }
{
    let Some(clause) = clauses.clauses.as_slice().get(number as usize) else {
        return false;
    };
    for lit in clause.as_slice() {
        if truth_at(clauses, outlook, values, lit.atom, DEEPEST) != Some(!lit.positive) {
            return false;
        }
    }
    true
}

// The truth of one atom at these values. None where a number is too wide, or a name too deep.
fn truth_at<F: OrderedField>(
    clauses: &Clauses,
    outlook: &Outlook<F>,
    values: &Values,
    atom: u32,
    depth: u32,
) -> Option<bool>
    requires formed { IsWellFormed clauses.now }
    requires count { length values.now.values ≡ clauses.now.columns }
    requires each_in { All IsWithin values.now.values }
{
    let name = Lit {
        atom,
        positive: true,
    };
    if let Some(truth) = outlook.truth(name) {
        return Some(truth);
    }
    if let Atom::Row {
        form,
        num,
        den,
        strict,
    } = clauses.atoms.get(atom as usize)?
    {
        let whole = values.values.as_slice();
        return row_holds(clauses, whole, values.over, *form, *num, *den, *strict);
    }
    if depth == 0 {
        return None;
    }
    let parts = outlook.parts(name)?;
    for part in parts.rest {
        let part = parts.signed(*part);
        let holds = truth_at(clauses, outlook, values, part.atom, depth - 1)? == part.positive;
        if holds != parts.all {
            return Some(holds);
        }
    }
    Some(parts.all)
}

// The truths of the atoms at these values.
fn truths<F: OrderedField>(
    alloc: Global,
    clauses: &Clauses,
    outlook: &Outlook<F>,
    values: &Values,
) -> Option<Items<bool>>
    requires formed { IsWellFormed clauses.now }
    requires count { length values.now.values ≡ clauses.now.columns }
    requires each_in { All IsWithin values.now.values }
    requires over_from { pos 1 ≤ℤ values.now.over }
    ensures count { IfSome result (λ truths. length truths ≡ length clauses.now.atoms) }
    ensures agree { IfSome result (λ truths. RowsAgree clauses.now (entry values.now.values) (unsigned_abs values.now.over) (truth_in truths)) }
{
    let mut truths = Items::new(alloc);
    for atom in clauses.atoms.as_slice() {
        let truth = truth(clauses, outlook, values, atom, truths.as_slice())?;
        let Ok(()) = truths.push(truth) else {
            return None;
        };
    }
    Some(truths)
}

// The truth of an atom, where those before it have these truths.
#[tactic(auto, using(whole::proofs::Overflow::signed))]
fn truth<F: OrderedField>(
    clauses: &Clauses,
    outlook: &Outlook<F>,
    values: &Values,
    atom: &Atom,
    before: &[bool],
) -> Option<bool>
    requires formed { IsWellFormed clauses.now }
    requires count { length values.now.values ≡ clauses.now.columns }
    requires each_in { All IsWithin values.now.values }
    requires over_from { pos 1 ≤ℤ values.now.over }
    ensures { IfSome result (Agrees clauses.now (entry values.now.values) (unsigned_abs values.now.over) atom.now) }
{
    match atom {
        Atom::Row {
            form,
            num,
            den,
            strict,
        } => {
            let whole = values.values.as_slice();
            row_holds(clauses, whole, values.over, *form, *num, *den, *strict)
        }
        Atom::Named => Some(outlook.name_holds(before)),
    }
}

// The number of the first clause without a true literal.
fn first_false(clauses: &[Lits], truths: &[bool]) -> Option<u32>
    ensures { IfNone result (Satisfies (truth_in truths.now) clauses.now) }
{
    let mut number = 0u32;
    for clause in clauses {
        if !has_true(clause.as_slice(), truths) {
            return Some(number);
        }
        number = number.saturating_add(1);
    }
    None
}

fn has_true(clause: &[Lit], truths: &[bool]) -> bool
    ensures { result ≡ true → HasTrue (truth_in truths.now) clause.now }
{
    for lit in clause {
        if truth_in(truths, lit.atom) == lit.positive {
            return true;
        }
    }
    false
}

/// The truth of an atom, and false for one beyond the last.
pub(crate) fn truth_in(truths: &[bool], atom: u32) -> bool
    ensures { result ≡ truth_in truths.now atom }
{
    match truths.get(atom as usize) {
        Some(truth) => *truth,
        None => false,
    }
}

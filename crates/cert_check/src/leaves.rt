// A Farkas leaf, judged under a path: its parts, and then their sums.
ghost use Rattle.std.specs.Prelude.{◌≡◌, ℕ, ℤ, ◌+◌, ◌<◌, ◌^◌, ◌||◌, ◌&&◌, pos, ◌≤ℤ◌, List, ◌∷◌, length, None, Some, unsigned_abs};
ghost use Rattle.std.specs.Int.{is_positive};
ghost use Rattle.whole.specs.Numbers.{IsWithin};
ghost use Rattle.clause_form.specs.Derivations.{rows_of, row_coef};
ghost use Rattle.clause_form.specs.WellFormed.{IsWellFormed};
ghost use Rattle.cert_check.specs.Causes.{asked, is_impossible, of_leaf, of_part, of_parts, of_rows};
ghost use Rattle.cert_check.specs.declared.found.Found.TheVariants.{Sound};
ghost use Rattle.cert_check.specs.Desks.{AreSums, AreTotals, IsReady, IsReadyAgain, IsSmall, NoneNegative, Running, seen_row};
ghost use Rattle.cert_check.specs.Tables.{EachWithin, IsCleared, IsLeastOverflowed, stepped, sum_at};

use crate::found::Found;
use crate::nodes::Desk;
use crate::paths::Path;
use crate::rows::{Row, row_of};
use crate::sums::{Sums, stepped};
use clause_form::Clauses;
use farkas_cert::Part;
use linear_form::Term;

/// A leaf whose rows, multiplied, sum to a contradiction.
///
/// By Farkas' lemma such rows have no common solution. Only the columns that occur in the rows are
/// summed and tested: a product with the coefficient 0 changes no sum, and never overflows.
#[tactic(auto, unfolding(crate::specs::Causes::of_leaf))]
pub(crate) fn leaf(clauses: &Clauses, desk: &mut Desk, parts: &[Part]) -> Found
    requires formed { IsWellFormed clauses.now }
    requires ready { IsReady clauses.now desk.old }
    ensures found { result ≡ of_leaf (rows_of clauses.now) desk.old.path.lits parts.now }
    ensures path { desk.new.path ≡ desk.old.path }
    ensures ready { IsReadyAgain clauses.now desk.old.path desk.new result }
{
    match of_parts(clauses, &desk.path, parts) {
        Found::Sound => {}
        fault => return fault,
    }
    let total = add_parts(clauses, &mut desk.sums, parts);
    of_rows(clauses, &desk.sums, total)
}

fn of_parts(clauses: &Clauses, path: &Path, parts: &[Part]) -> Found
    requires formed { IsWellFormed clauses.now }
    requires atoms { path.now.atoms ≡ length clauses.now.atoms }
    ensures { result ≡ of_parts (rows_of clauses.now) path.now.lits parts.now }
{
    for part in parts {
        match of_part(clauses, path, *part) {
            Found::Sound => {}
            fault => return fault,
        }
    }
    Found::Sound
}

fn of_part(clauses: &Clauses, path: &Path, part: Part) -> Found
    requires formed { IsWellFormed clauses.now }
    requires atoms { path.now.atoms ≡ length clauses.now.atoms }
    ensures { result ≡ of_part (rows_of clauses.now) path.now.lits part }
{
    if !path.has_atom(part.lit.atom) {
        return Found::Breaks(2);
    }
    if !path.has(part.lit) || row_of(clauses, part.lit).is_none() {
        return Found::Breaks(7);
    }
    if part.mult < 0 {
        return Found::Breaks(4);
    }
    Found::Sound
}

/// What the parts of a leaf come to beside the columns' sums.
#[derive(Clone, Copy, Debug)]
struct Total {
    /// The multiplied bounds together; None where a product or a sum overflowed.
    bound: Option<i128>,
    /// A strict row has a multiplier above 0.
    strict: bool,
}

/// Adds the rows of all parts, multiplied, to the sums of their columns.
fn add_parts(clauses: &Clauses, sums: &mut Sums, parts: &[Part]) -> Total
    requires formed { IsWellFormed clauses.now }
    requires cleared { IsCleared clauses.now.columns sums.old }
    requires mults { NoneNegative parts.now }
    ensures sums { AreSums (rows_of clauses.now) parts.now sums.new }
    ensures total { AreTotals (rows_of clauses.now) parts.now result }
{
    let mut total = Total {
        bound: Some(0),
        strict: false,
    };
    for part in parts {
        total = add_part(clauses, sums, total, *part);
    }
    total
}

fn add_part(clauses: &Clauses, sums: &mut Sums, total: Total, part: Part) -> Total
    requires formed { IsWellFormed clauses.now }
    requires columns { length sums.old ≡ clauses.now.columns }
    requires within { EachWithin sums.old }
    requires mult { pos 0 ≤ℤ part.mult }
    requires bound { (sum : ℤ) → total.bound ≡ Some sum → IsWithin sum }
    ensures { (parts left : List Part) → Running (rows_of clauses.now) parts (part ∷ left) sums.old total → Running (rows_of clauses.now) parts left sums.new result }
{
    match row_of(clauses, part.lit) {
        Some(row) => {
            add_row(clauses, sums, part.mult, row);
            total_with(total, part.mult, row)
        }
        None => total,
    }
}

fn total_with(total: Total, mult: i128, row: Row) -> Total
    requires mult { pos 0 ≤ℤ mult }
    requires bound { unsigned_abs row.bound < 10 ^ 16 }
    requires within { (sum : ℤ) → total.bound ≡ Some sum → IsWithin sum }
    ensures bound { result.bound ≡ stepped mult row.bound total.bound }
    ensures strict { result.strict ≡ (total.strict || (row.strict && is_positive mult)) }
    ensures within { (sum : ℤ) → result.bound ≡ Some sum → IsWithin sum }
{
    Total {
        bound: stepped(total.bound, mult, row.bound),
        strict: total.strict || (row.strict && mult > 0),
    }
}

/// Adds a row, multiplied, to the sums of its columns.
fn add_row(clauses: &Clauses, sums: &mut Sums, mult: i128, row: Row)
    requires formed { IsWellFormed clauses.now }
    requires small { IsSmall (clauses.now.columns + length clauses.now.forms) row }
    requires mult { pos 0 ≤ℤ mult }
    requires columns { length sums.old ≡ clauses.now.columns }
    requires within { EachWithin sums.old }
    ensures columns { length sums.new ≡ clauses.now.columns }
    ensures sums { (column : ℕ) → sum_at sums.new column ≡ stepped mult (row_coef column (seen_row (rows_of clauses.now) row)) (sum_at sums.old column) }
    ensures within { EachWithin sums.new }
{
    if row.form < clauses.columns {
        let lone = [Term {
            column: row.form,
            coef: 1,
        }];
        sums.add_terms(&lone, mult, row.factor);
    } else {
        let at = (row.form - clauses.columns) as usize;
        sums.add_terms(
            clauses.forms.as_slice()[at].terms.as_slice(),
            mult,
            row.factor,
        );
    }
}

/// What the rows of a leaf come to: the least column whose sum overflowed, then the bounds' sum, and then
/// whether they contradict.
fn of_rows(clauses: &Clauses, sums: &Sums, total: Total) -> Found
    ensures found { (parts : List Part) → AreSums (rows_of clauses.now) parts sums.now → AreTotals (rows_of clauses.now) parts total → result ≡ of_rows (rows_of clauses.now) parts }
    ensures cleared { result ≡ Sound → IsCleared (length sums.now) sums.now }
{
    match sums.overflowed() {
        Some(column) => Found::Overflows(column),
        None => of_bound(clauses, sums, total),
    }
}

// The same where no column's sum overflowed.
fn of_bound(clauses: &Clauses, sums: &Sums, total: Total) -> Found
    requires { IsLeastOverflowed sums.now None }
    ensures found { (parts : List Part) → AreSums (rows_of clauses.now) parts sums.now → AreTotals (rows_of clauses.now) parts total → result ≡ of_rows (rows_of clauses.now) parts }
    ensures cleared { result ≡ Sound → IsCleared (length sums.now) sums.now }
{
    match total.bound {
        Some(bound) => closed(sums.cancel(), impossible(bound, total.strict)),
        None => Found::Overflows(clauses.columns),
    }
}

fn closed(cancel: bool, impossible: bool) -> Found
    ensures { result ≡ asked 3 (cancel && impossible) }
{
    if cancel && impossible {
        Found::Sound
    } else {
        Found::Breaks(3)
    }
}

// `0 <= bound`, or `0 < bound` where strict, doesn't hold.
fn impossible(bound: i128, strict: bool) -> bool
    ensures { result ≡ is_impossible bound strict }
{
    bound < 0 || bound == 0 && strict
}

// The row of a literal, found by its atom.
ghost use Rattle.std.specs.Prelude.{◌≡◌, ℕ, ◌+◌, ◌<◌, ◌^◌, unsigned_abs, length, IfSome, option_map};
ghost use Rattle.clause_form.specs.Derivations.{rows_of, row_of};
ghost use Rattle.clause_form.specs.WellFormed.{IsWellFormed};
ghost use Rattle.cert_check.specs.Desks.{IsSmall, row_if, seen_row};

use clause_form::{Atom, Clauses};
use farkas_cert::Lit;

/// `factor * form <= bound`, or `<` where strict, with the form by its number.
#[derive(Clone, Copy, Debug)]
pub(crate) struct Row {
    pub(crate) form: u32,
    pub(crate) factor: i128,
    pub(crate) bound: i128,
    pub(crate) strict: bool,
}

/// The row of a literal, where its atom has one. That of a negation is turned.
pub(crate) fn row_of(clauses: &Clauses, lit: Lit) -> Option<Row>
    requires { IsWellFormed clauses.now }
    ensures row { option_map (seen_row (rows_of clauses.now)) result ≡ row_of (rows_of clauses.now) lit }
    ensures small { IfSome result (IsSmall (clauses.now.columns + length clauses.now.forms)) }
{
    match clauses.atoms.get(lit.atom as usize) {
        Some(
            Atom::Row {
                form,
                num,
                den,
                strict,
            },
        ) => Some(row_if(lit.positive, *form, *num, *den, *strict)),
        _ => None,
    }
}

fn row_if(positive: bool, form: u32, num: i128, den: i128, strict: bool) -> Row
    requires num { unsigned_abs num < 10 ^ 16 }
    requires den { unsigned_abs den < 10 ^ 16 }
    ensures { result ≡ row_if positive form num den strict }
{
    if positive {
        Row {
            form,
            factor: den,
            bound: num,
            strict,
        }
    } else {
        Row {
            form,
            factor: -den,
            bound: -num,
            strict: !strict,
        }
    }
}

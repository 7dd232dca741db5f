// The text of a whole problem.
ghost use Rattle.std.specs.Prelude.{◌≡◌, ◌++◌, [], ◌∷◌, codes, length, IfOk, OnOk, string_bytes};
ghost use Rattle.text_lines.specs.Steps.{numbered};
ghost use Rattle.smt_text.specs.Texts.{assertions, boolean_line, clause_text, counted, counts_text, declarations, listed, next_literal, problem_text, real_line, relation_text, row_end, row_front, tie_text};

use crate::forms::{put_form, put_literal, put_literals, put_number};
use clause_form::{Atom, Clauses};
use farkas_cert::{Lit, Lits};
use std::alloc::{AllocError, Global};
use std::fmt::Write;
use whole::NoMemory;

/// The problem as SMT-LIB 2 text, which says that some values of the columns and truths of the atoms are a model of the
/// clauses.
///
/// A form that an atom names is to be in range, as it is in clauses that are well formed.
#[tactic(auto, unfolding(crate::specs::Texts::problem_text))]
pub fn problem_text(alloc: Global, clauses: &Clauses) -> Result<Vec<u8>, NoMemory>
    ensures { IfOk result (λ bytes. bytes.items ≡ problem_text clauses.now) }
{
    let mut out = String::new(alloc);
    out.push_str("(set-logic QF_LRA)\n")?;
    put_declarations(&mut out, clauses)?;
    put_assertions(&mut out, clauses)?;
    out.push_str("(check-sat)\n")?;
    Ok(out.into_bytes())
}

/// The line `columns C forms F atoms A clauses K` with the sizes of the problem.
#[tactic(auto, unfolding(crate::specs::Texts::counts_text))]
pub fn counts_text(alloc: Global, clauses: &Clauses) -> Result<Vec<u8>, NoMemory>
    ensures { IfOk result (λ bytes. bytes.items ≡ counts_text clauses.now) }
{
    let columns = clauses.columns;
    let forms = clauses.forms.len();
    let atoms = clauses.atoms.len();
    let count = clauses.clauses.len();
    let line = format!(in alloc;
        "columns {columns} forms {forms} atoms {atoms} clauses {count}\n"
    )?;
    Ok(line.into_bytes())
}

/// The constants of the columns and of the atoms.
#[tactic(auto, unfolding(crate::specs::Texts::declarations))]
fn put_declarations(out: &mut String, clauses: &Clauses) -> Result<(), AllocError>
    ensures { OnOk result (string_bytes out.new ≡ string_bytes out.old ++ declarations clauses.now) }
{
    put_reals(out, clauses.columns as usize)?;
    put_booleans(out, clauses.atoms.len())
}

fn put_reals(out: &mut String, count: usize) -> Result<(), AllocError>
    ensures { OnOk result (string_bytes out.new ≡ string_bytes out.old ++ counted real_line count) }
{
    for column in 0..count {
        put_real(out, column)?;
    }
    Ok(())
}

fn put_real(out: &mut String, column: usize) -> Result<(), AllocError>
    ensures { OnOk result (string_bytes out.new ≡ string_bytes out.old ++ real_line column) }
{
    write!(out, "(declare-const x{} Real)\n", column)
}

fn put_booleans(out: &mut String, count: usize) -> Result<(), AllocError>
    ensures { OnOk result (string_bytes out.new ≡ string_bytes out.old ++ counted boolean_line count) }
{
    for atom in 0..count {
        put_boolean(out, atom)?;
    }
    Ok(())
}

fn put_boolean(out: &mut String, atom: usize) -> Result<(), AllocError>
    ensures { OnOk result (string_bytes out.new ≡ string_bytes out.old ++ boolean_line atom) }
{
    write!(out, "(declare-const a{} Bool)\n", atom)
}

/// The rows of the atoms, and the clauses.
#[tactic(auto, unfolding(crate::specs::Texts::assertions))]
fn put_assertions(out: &mut String, clauses: &Clauses) -> Result<(), AllocError>
    ensures { OnOk result (string_bytes out.new ≡ string_bytes out.old ++ assertions clauses.now) }
{
    put_ties(out, clauses, clauses.atoms.as_slice())?;
    put_clauses(out, clauses.clauses.as_slice())
}

fn put_ties(out: &mut String, clauses: &Clauses, atoms: &[Atom]) -> Result<(), AllocError>
    ensures { OnOk result (string_bytes out.new ≡ string_bytes out.old ++ numbered (tie_text clauses.now) 0 atoms.now) }
{
    for (i, atom) in atoms.iter().enumerate() {
        put_tie(out, clauses, i, *atom)?;
    }
    Ok(())
}

#[tactic(auto, unfolding(crate::specs::Texts::tie_text))]
fn put_tie(out: &mut String, clauses: &Clauses, number: usize, atom: Atom) -> Result<(), AllocError>
    ensures { OnOk result (string_bytes out.new ≡ string_bytes out.old ++ tie_text clauses.now number atom) }
{
    match atom {
        Atom::Row {
            form,
            num,
            den,
            strict,
        } => {
            put_left(out, number, strict)?;
            put_form(out, clauses, form)?;
            put_right(out, num, den)
        }
        Atom::Named => Ok(()),
    }
}

/// The front of an atom's row, up to its form.
fn put_left(out: &mut String, number: usize, strict: bool) -> Result<(), AllocError>
    ensures { OnOk result (string_bytes out.new ≡ string_bytes out.old ++ row_front number strict) }
{
    write!(out, "(assert (= a{}", number)?;
    out.push_str(relation(strict))
}

/// The rest of an atom's row, behind its form.
fn put_right(out: &mut String, num: i128, den: i128) -> Result<(), AllocError>
    ensures { OnOk result (string_bytes out.new ≡ string_bytes out.old ++ row_end num den) }
{
    out.push_str(" ")?;
    put_number(out, num, den)?;
    out.push_str(")))\n")
}

fn relation(strict: bool) -> &'static str
    ensures { result.now ≡ relation_text strict }
{
    if strict { " (< " } else { " (<= " }
}

fn put_clauses(out: &mut String, clauses: &[Lits]) -> Result<(), AllocError>
    ensures { OnOk result (string_bytes out.new ≡ string_bytes out.old ++ listed clause_text clauses.now) }
{
    for clause in clauses {
        put_clause(out, clause.as_slice())?;
    }
    Ok(())
}

#[tactic(auto, unfolding(crate::specs::Texts::clause_text))]
fn put_clause(out: &mut String, lits: &[Lit]) -> Result<(), AllocError>
    ensures { OnOk result (string_bytes out.new ≡ string_bytes out.old ++ clause_text lits.now) }
{
    match lits {
        [] => out.push_str("(assert false)\n"),
        [lit] => put_unit(out, *lit),
        _ => put_several(out, lits),
    }
}

#[tactic(auto, unfolding(crate::specs::Texts::clause_text))]
fn put_unit(out: &mut String, lit: Lit) -> Result<(), AllocError>
    ensures { OnOk result (string_bytes out.new ≡ string_bytes out.old ++ clause_text (lit ∷ [])) }
{
    out.push_str("(assert ")?;
    put_literal(out, lit)?;
    out.push_str(")\n")
}

fn put_several(out: &mut String, lits: &[Lit]) -> Result<(), AllocError>
    ensures { OnOk result (string_bytes out.new ≡ string_bytes out.old ++ (codes "(assert (or" ++ (listed next_literal lits.now ++ (codes "))" ++ (10 ∷ []))))) }
{
    out.push_str("(assert (or")?;
    put_literals(out, lits)?;
    out.push_str("))\n")
}

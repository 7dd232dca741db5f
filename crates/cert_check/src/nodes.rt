// One node of a proof tree, judged under a path: splits and citations.
ghost use Rattle.std.specs.Prelude.{◌≡◌, [], length, IfOk, slice_get};
ghost use Rattle.std.specs.Option.{option_copied};
ghost use Rattle.clause_form.specs.Derivations.{rows_of};
ghost use Rattle.cert_check.specs.Causes.{of_cited, of_split};
ghost use Rattle.cert_check.specs.Known.{known_with};
ghost use Rattle.cert_check.specs.Desks.{IsReady};

use crate::found::Found;
use crate::paths::Path;
use crate::sums::Sums;
use clause_form::Clauses;
use farkas_cert::{Lemma, Lits};
use std::alloc::Global;
use whole::NoMemory;

/// What is kept while a tree is read.
#[derive(Debug, Drop)]
pub(crate) struct Desk {
    pub(crate) path: Path,
    pub(crate) sums: Sums,
}

impl Desk {
    /// An empty path and sums of 0. Nothing else takes memory later, since no path has more literals
    /// than there are atoms.
    pub(crate) fn new(alloc: Global, clauses: &Clauses) -> Result<Desk, NoMemory>
        ensures { IfOk result (λ desk. IsReady clauses.now desk × (desk.path.lits ≡ [])) }
    {
        Ok(Desk {
            path: Path::new(alloc, clauses.atoms.len())?,
            sums: Sums::new(alloc, clauses.columns)?,
        })
    }
}

/// A split: its atom is in range and not on the path.
pub(crate) fn split(clauses: &Clauses, path: &Path, atom: u32) -> Found
    requires { path.now.atoms ≡ length clauses.now.atoms }
    ensures { result ≡ of_split (rows_of clauses.now) path.now.lits atom }
{
    if path.may_assume(atom) {
        Found::Sound
    } else {
        Found::Breaks(2)
    }
}

/// A leaf that cites a clause: it is known, and false on the path. The problem's clauses are counted
/// first, and then the earlier lemmas.
pub(crate) fn citation(clauses: &Clauses, earlier: &[Lemma], path: &Path, number: u32) -> Found
    ensures { result ≡ of_cited path.now.lits (slice_get (known_with clauses.now.clauses earlier.now) number) }
{
    match known(clauses, earlier, number as usize) {
        Some(clause) if path.refutes(clause.as_slice()) => Found::Sound,
        Some(_) => Found::Breaks(5),
        None => Found::Breaks(6),
    }
}

fn known<'a>(clauses: &'a Clauses, earlier: &'a [Lemma], number: usize) -> Option<&'a Lits>
    ensures { option_copied result ≡ slice_get (known_with clauses.now.clauses earlier.now) number }
{
    let first = clauses.clauses.len();
    if number < first {
        return clauses.clauses.get(number);
    }
    match earlier.get(number - first) {
        Some(lemma) => Some(&lemma.clause),
        None => None,
    }
}

// How a clause stands to a trail.
ghost use Rattle.std.specs.Prelude.{◌≡◌, ℕ, ◌<◌, ◌^◌, List, [], ◌∷◌, ◌++◌, length};
ghost use Rattle.farkas_cert.specs.declared.literals.Lit.{Lit};
ghost use Rattle.clause_form.specs.Derivations.{HasAtom, NamesOnce};
ghost use Rattle.clause_form.specs.Journals.{literals};
ghost use Rattle.learned_clause.specs.Trails.{known_with};
ghost use Rattle.clause_search.specs.Standings.{StandsAs, StandsAt};

use crate::trail::Trail;
use clause_form::Clauses;
use farkas_cert::{Lemma, Lit};
use learned_clause::known;

/// How a clause stands to a trail.
#[derive(Clone, Copy, Debug)]
pub(crate) enum Standing {
    /// A literal is true.
    Satisfied,
    /// No literal is true, and several are off the trail; this one comes first.
    Open(Lit),
    /// This literal alone is off the trail, and the others are false.
    Unit(Lit),
    /// All literals are false.
    False,
}

/// How many clauses are known.
pub(crate) fn how_many(clauses: &Clauses, lemmas: &[Lemma]) -> u32
    requires { length (known_with clauses.now.clauses lemmas.now) < 2 ^ 32 }
    ensures { result ≡ length (known_with clauses.now.clauses lemmas.now) }
{
    (clauses.clauses.len() + lemmas.len()) as u32
}

/// How the clause with this number stands to the trail.
pub(crate) fn standing_of(
    clauses: &Clauses,
    lemmas: &[Lemma],
    trail: &Trail,
    number: u32,
) -> Standing
    requires { number < length (known_with clauses.now.clauses lemmas.now) }
    ensures { StandsAt (known_with clauses.now.clauses lemmas.now) (literals trail.now.entries) number result }
{
    judge(trail, known(clauses, lemmas, number))
}

// How a clause stands to a trail.
fn judge(trail: &Trail, clause: &[Lit]) -> Standing
    ensures { StandsAs (literals trail.now.entries) clause.now result }
{
    let mut standing = Standing::False;
    for lit in clause {
        standing = with_literal(trail, standing, *lit);
        if let Standing::Satisfied = standing {
            return Standing::Satisfied;
        }
    }
    standing
}

// How a clause stands with one literal more at its end.
fn with_literal(trail: &Trail, before: Standing, lit: Lit) -> Standing
    ensures { (front : List Lit) → StandsAs (literals trail.now.entries) front before → StandsAs (literals trail.now.entries) (front ++ lit ∷ []) result }
{
    match trail.value(lit) {
        Some(true) => Standing::Satisfied,
        Some(false) => before,
        None => with_free(before, lit),
    }
}

// So where the literal is off the trail.
fn with_free(before: Standing, lit: Lit) -> Standing
    ensures { (n : ℕ) (lits front : List Lit) → NamesOnce n lits → (HasAtom lit.atom lits → ⊥) → StandsAs lits front before → StandsAs lits (front ++ lit ∷ []) result }
{
    match before {
        Standing::False => Standing::Unit(lit),
        Standing::Unit(first) => {
            if first == lit {
                Standing::Unit(first)
            } else {
                Standing::Open(first)
            }
        }
        Standing::Open(first) => Standing::Open(first),
        Standing::Satisfied => Standing::Satisfied,
    }
}

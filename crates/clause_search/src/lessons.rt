// What a conflict teaches: the best of the clauses that are learned from all that is false.
ghost use Rattle.std.specs.Prelude.{◌≡◌, ◌<◌, ◌^◌, ◌⊎◌, length, IfOk};
ghost use Rattle.clause_form.specs.Derivations.{rows_of};
ghost use Rattle.clause_form.specs.Journals.{literals};
ghost use Rattle.learned_clause.specs.Learning.{IsFalseStart};
ghost use Rattle.learned_clause.specs.Trails.{IsTrail, known_with};
ghost use Rattle.clause_search.specs.Starts.{IsLearnedHere};

use crate::agenda::Agenda;
use crate::trail::Trail;
use clause_form::Clauses;
use farkas_cert::Lemma;
use learned_clause::{Learned, Start, learn};
use std::alloc::Global;
use whole::NoMemory;

/// Learns from this start and from each other clause on the agenda that is false, and keeps the
/// clause that cuts the trail shortest. Of these it is the shortest, and of these the first.
pub(crate) fn best_lesson(
    alloc: Global,
    clauses: &Clauses,
    lemmas: &[Lemma],
    trail: &Trail,
    agenda: &mut Agenda,
    start: Start,
) -> Result<Learned, NoMemory>
    requires few { length (known_with clauses.now.clauses lemmas.now) < 2 ^ 32 }
    requires trail { IsTrail (length clauses.now.atoms) (known_with clauses.now.clauses lemmas.now) trail.now.entries }
    requires start { IsFalseStart (rows_of clauses.now) (known_with clauses.now.clauses lemmas.now) (literals trail.now.entries) start }
    ensures learned { IfOk result (λ learned. IsLearnedHere (rows_of clauses.now) (known_with clauses.now.clauses lemmas.now) trail.now.entries start learned) }
    ensures occurrences { agenda.new.occurrences ≡ agenda.old.occurrences }
{
    let mut best = lesson(alloc, clauses, lemmas, trail, start)?;
    'starts: loop {
        match agenda.next_false(clauses, lemmas, trail)? {
            Some(number) => {
                let other = lesson(alloc, clauses, lemmas, trail, Start::Clause(number))?;
                best = better(best, other);
            }
            None => return Ok(best),
        }
    }
}

// What is learned from one start.
fn lesson(
    alloc: Global,
    clauses: &Clauses,
    lemmas: &[Lemma],
    trail: &Trail,
    start: Start,
) -> Result<Learned, NoMemory>
    requires trail { IsTrail (length clauses.now.atoms) (known_with clauses.now.clauses lemmas.now) trail.now.entries }
    requires start { IsFalseStart (rows_of clauses.now) (known_with clauses.now.clauses lemmas.now) (literals trail.now.entries) start }
    ensures { IfOk result (λ learned. IsLearnedHere (rows_of clauses.now) (known_with clauses.now.clauses lemmas.now) trail.now.entries start learned) }
{
    learn(alloc, clauses, lemmas, trail.as_slice(), start)
}

// The first, unless the other comes before it.
fn better(first: Learned, other: Learned) -> Learned
    ensures { (result ≡ first) ⊎ (result ≡ other) }
{
    if comes_before(&other, &first) {
        other
    } else {
        first
    }
}

fn comes_before(learned: &Learned, other: &Learned) -> bool {
    learned.keep < other.keep
        || (learned.keep == other.keep
            && learned.clause.as_slice().len() < other.clause.as_slice().len())
}

// How far the clauses are known to have a true literal.
ghost use Rattle.std.specs.Prelude.{◌≡◌, ◌<◌, ◌^◌, [], length, slice_index_or, IfOk};
ghost use Rattle.clause_form.specs.Journals.{IsSettled, literals};
ghost use Rattle.learned_clause.specs.Trails.{known_with};
ghost use Rattle.clause_search.specs.Cursors.{IsMarked, Marks, SetsBack};
ghost use Rattle.clause_search.specs.Standings.{IfWanted};

use crate::standing::{Standing, how_many, standing_of};
use crate::trail::Trail;
use clause_form::Clauses;
use farkas_cert::{Lemma, Lit};
use std::alloc::Global;
use whole::NoMemory;

/// How far the clauses are known to have a true literal. That stays so while the trail grows, so no
/// decision looks at these clauses again; a cut sets the cursor back to where it was then.
#[derive(Debug, Drop)]
pub(crate) struct Cursor {
    /// Each clause below this number has a true literal.
    next: u32,
    /// By entry of the trail, what `next` was before it.
    marks: Vec<u32>,
}

impl Cursor {
    /// The cursor before the first clause, at an empty trail.
    pub(crate) fn new(alloc: Global) -> Cursor
        ensures next { result.next ≡ 0 }
        ensures marks { result.marks.items ≡ [] }
    {
        Cursor {
            next: 0,
            marks: Vec::new(alloc),
        }
    }

    /// A literal was put on the trail.
    pub(crate) fn mark(&mut self) -> Result<(), NoMemory>
        ensures { IfOk result (λ _. Marks self.old self.new) }
    {
        self.marks.push(self.next)?;
        Ok(())
    }

    /// The trail was cut to this length.
    pub(crate) fn set_back(&mut self, keep: usize)
        ensures { SetsBack self.old keep self.new }
    {
        self.next = mark_at(self.marks.as_slice(), keep, self.next);
        self.marks.truncate(keep);
    }

    /// The first literal off the trail of the least-numbered clause without a true literal, if there
    /// is such a clause. The clauses before the cursor aren't looked at.
    pub(crate) fn wish(&mut self, clauses: &Clauses, lemmas: &[Lemma], trail: &Trail) -> Option<Lit>
        requires few { length (known_with clauses.now.clauses lemmas.now) < 2 ^ 32 }
        requires settled { IsSettled (known_with clauses.now.clauses lemmas.now) (literals trail.now.entries) }
        requires marked { IsMarked (known_with clauses.now.clauses lemmas.now) (literals trail.now.entries) self.old }
        ensures wish { IfWanted (known_with clauses.now.clauses lemmas.now) (literals trail.now.entries) result }
        ensures marked { IsMarked (known_with clauses.now.clauses lemmas.now) (literals trail.now.entries) self.new }
    {
        while self.next < how_many(clauses, lemmas) {
            match standing_of(clauses, lemmas, trail, self.next) {
                Standing::Satisfied => self.next += 1,
                Standing::Open(lit) => return Some(lit),
                Standing::Unit(_) => unreachable!(),
                Standing::False => unreachable!(),
            }
        }
        None
    }
}

fn mark_at(marks: &[u32], place: usize, or: u32) -> u32
    ensures { result ≡ slice_index_or marks.now place or }
{
    match marks.get(place) {
        Some(mark) => *mark,
        None => or,
    }
}

// All that a search has done so far.
ghost use Rattle.std.specs.Prelude.{◌≡◌, ◌<◌, [], ◌∷◌, ◌++◌, length, IfOk, Option};
ghost use Rattle.clause_form.specs.Derivations.{HasAtom};
ghost use Rattle.clause_form.specs.Journals.{literals};
ghost use Rattle.clause_form.specs.WellFormed.{IsWellFormed};
ghost use Rattle.clause_search.specs.Courses.{move_of};
ghost use Rattle.clause_search.specs.Opened.{Cutting, IsOpened, Putting};

use crate::agenda::Agenda;
use crate::cursor::Cursor;
use crate::trail::Trail;
use clause_form::Clauses;
use farkas_cert::{Cert, Journal, Lemma, Lit, Lits, Move};
use sqlite_items::Items;
use std::alloc::Global;
use whole::NoMemory;

/// What was done last.
#[derive(Clone, Copy, Debug, PartialEq, Eq)]
pub(crate) enum Phase {
    /// A literal was told, or nothing yet: a check is due.
    Told,
    /// A check answered Fine.
    Checked,
    /// The trail was cut after a conflict, and the lemma gives a literal.
    Cut,
}

/// The trail, the lemmas and the moves of a search, the clauses that it looks at next, and those that
/// no decision looks at.
#[derive(Debug, Drop)]
pub(crate) struct Course {
    pub(crate) trail: Trail,
    pub(crate) lemmas: Items<Lemma>,
    pub(crate) journal: Journal,
    pub(crate) agenda: Agenda,
    pub(crate) cursor: Cursor,
    pub(crate) phase: Phase,
}

impl Course {
    /// Nothing is done yet.
    pub(crate) fn new(alloc: Global, clauses: &Clauses) -> Result<Course, NoMemory>
        requires { IsWellFormed clauses.now }
        ensures { IfOk result (λ course. IsOpened clauses.now course) }
    {
        Ok(Course {
            trail: Trail::new(alloc, clauses.atoms.len())?,
            lemmas: Items::new(alloc),
            journal: Journal {
                moves: Items::new(alloc),
            },
            agenda: Agenda::new(alloc, clauses)?,
            cursor: Cursor::new(alloc),
            phase: Phase::Told,
        })
    }

    /// Puts the literal on the trail and writes the move.
    pub(crate) fn put(&mut self, lit: Lit, by: Option<u32>) -> Result<(), NoMemory>
        requires in_range { lit.atom < self.old.trail.atoms }
        requires free { HasAtom lit.atom (literals self.old.trail.entries) → ⊥ }
        ensures { IfOk result (λ _. Putting self.old lit by self.new) }
    {
        self.journal.moves.push(move_for(lit, by))?;
        self.trail.assume(lit, by)?;
        self.agenda.assumed(lit, by)?;
        self.cursor.mark()?;
        self.phase = Phase::Told;
        Ok(())
    }

    /// Adds the lemma, cuts the trail to this length and writes the move. `number` is the lemma's.
    pub(crate) fn cut(&mut self, lemma: Lemma, keep: u32, number: u32) -> Result<(), NoMemory>
        ensures { IfOk result (λ _. Cutting self.old lemma keep number self.new) }
    {
        let clause = lemma.clause.clone()?;
        self.trail.cut(keep as usize);
        self.cursor.set_back(keep as usize);
        self.agenda
            .learned(number, clause.as_slice(), self.trail.as_slice())?;
        self.journal.moves.push(Move::Conflict(clause, keep))?;
        self.lemmas.push(lemma)?;
        self.phase = Phase::Cut;
        Ok(())
    }

    pub(crate) fn into_journal(self) -> Journal
        ensures { result ≡ self.journal }
    {
        let Course {
            trail: _,
            lemmas: _,
            journal,
            agenda: _,
            cursor: _,
            phase: _,
        } = self;
        journal
    }

    pub(crate) fn into_lemmas(self) -> Items<Lemma>
        ensures { result ≡ self.lemmas }
    {
        let Course {
            trail: _,
            lemmas,
            journal: _,
            agenda: _,
            cursor: _,
            phase: _,
        } = self;
        lemmas
    }
}

fn move_for(lit: Lit, by: Option<u32>) -> Move
    ensures { result ≡ move_of lit by }
{
    match by {
        None => Move::Decide(lit),
        Some(number) => Move::Propagate(lit, number),
    }
}

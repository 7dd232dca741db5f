// Which clauses to look at next.
ghost use Rattle.std.specs.Prelude.{◌≡◌, ℕ, ◌<◌, ◌^◌, [], ◌∷◌, ◌++◌, length, false, true, IfOk, IfSome, IfNone, MatchOption, vec_len};
ghost use Rattle.std.specs.BinaryHeap.{heap_items};
ghost use Rattle.clause_form.specs.Derivations.{NamesOnce};
ghost use Rattle.clause_form.specs.Journals.{IsSettled, literals};
ghost use Rattle.clause_form.specs.WellFormed.{IsWellFormed};
ghost use Rattle.learned_clause.specs.Trails.{known_with};
ghost use Rattle.clause_search.specs.Agendas.{Covers, Enters, GivesNone, IsIndexed, Learns, Rouses};
ghost use Rattle.clause_search.specs.Standings.{Follows, IfStandsAt, IsFalseAt};

use crate::occurrences::Occurrences;
use crate::standing::{Standing, how_many, standing_of};
use crate::trail::Trail;
use clause_form::{Atom, Clauses};
use farkas_cert::{Lemma, Lit};
use learned_clause::Assigned;
use std::alloc::Global;
use std::collections::BinaryHeap;
use whole::NoMemory;

/// A clause that gives a literal.
#[derive(Clone, Copy, Debug)]
pub(crate) struct Reason {
    pub(crate) lit: Lit,
    pub(crate) by: u32,
}

/// A clause that waits to give its literal. The greatest comes first.
///
/// After a decision that is the one with the least number. Before any, the short rows come first,
/// since each pivot then changes little: the negated requirement, which is the last clause of the
/// problem, and else a name, a column, and the forms by their number of terms, the later clause
/// first.
#[derive(Clone, Copy, Debug, PartialEq, Eq, PartialOrd, Ord)]
struct Waiting {
    is_requirement: bool,
    shortness: u32,
    turn: u32,
    by: u32,
}

/// The clauses that a move may have made false or unit. A clause changes so only when one of its
/// literals becomes false, so the clauses are kept by literal, and no move looks at all of them: a
/// clause that is neither in `fresh` nor in `units` is neither false nor unit, and one that is only in
/// `units` isn't false.
#[derive(Debug, Drop)]
pub(crate) struct Agenda {
    occurrences: Occurrences,
    /// The clauses of which a literal became false and that weren't looked at since.
    fresh: Vec<u32>,
    /// The clauses that gave a literal when they were looked at.
    units: BinaryHeap<Waiting>,
    /// No decision is on the trail.
    at_root: bool,
}

impl Agenda {
    /// An agenda with each clause of the problem.
    pub(crate) fn new(alloc: Global, clauses: &Clauses) -> Result<Agenda, NoMemory>
        requires { IsWellFormed clauses.now }
        ensures indexed { IfOk result (λ agenda. IsIndexed (length clauses.now.atoms) clauses.now.clauses agenda.occurrences.lists.items) }
        ensures covers { IfOk result (λ agenda. Covers clauses.now.clauses [] agenda.fresh.items (heap_items agenda.units)) }
    {
        let mut agenda = Agenda {
            occurrences: Occurrences::new(alloc, clauses.atoms.len())?,
            fresh: Vec::new(alloc),
            units: BinaryHeap::new(alloc),
            at_root: true,
        };
        let count = clauses.clauses.len() as u32;
        for number in 0..count {
            let clause = clauses.clauses.as_slice()[number as usize].as_slice();
            agenda.enter(number, clause)?;
        }
        Ok(agenda)
    }

    /// A literal was put on the trail: the clauses with its negation are looked at next.
    pub(crate) fn assumed(&mut self, lit: Lit, by: Option<u32>) -> Result<(), NoMemory>
        ensures { IfOk result (λ _. Rouses self.old lit self.new) }
    {
        self.at_root = self.at_root && by.is_some();
        self.fresh
            .extend_from_slice(self.occurrences.with(lit.negated()))?;
        Ok(())
    }

    /// The trail was cut after a conflict: where it ends now nothing but the lemma can be unit.
    pub(crate) fn learned(
        &mut self,
        number: u32,
        clause: &[Lit],
        trail: &[Assigned],
    ) -> Result<(), NoMemory>
        ensures { IfOk result (λ _. Learns self.old number clause.now self.new) }
    {
        self.at_root = trail.iter().all(|entry| entry.by.is_some());
        self.fresh.clear();
        self.units.clear();
        self.enter(number, clause)
    }

    // Lists the clause with each of its literals, and puts it on the agenda.
    fn enter(&mut self, number: u32, clause: &[Lit]) -> Result<(), NoMemory>
        ensures { IfOk result (λ _. Enters self.old number clause.now self.new) }
    {
        self.occurrences.list(number, clause)?;
        self.fresh.push(number)?;
        Ok(())
    }

    /// A false clause among those that changed. The others that give a literal are kept for
    /// `next_unit`.
    pub(crate) fn next_false(
        &mut self,
        clauses: &Clauses,
        lemmas: &[Lemma],
        trail: &Trail,
    ) -> Result<Option<u32>, NoMemory>
        requires { length (known_with clauses.now.clauses lemmas.now) < 2 ^ 32 }
        ensures found { IfOk result (λ found. IfSome found (λ number. IsFalseAt (known_with clauses.now.clauses lemmas.now) (literals trail.now.entries) number)) }
        ensures less { IfOk result (λ found. IfSome found (λ number. vec_len self.new.fresh < vec_len self.old.fresh)) }
        ensures occurrences { self.new.occurrences ≡ self.old.occurrences }
        ensures none { IfOk result (λ found. IfNone found (self.new.fresh.items ≡ [])) }
        ensures covers { (n : ℕ) → NamesOnce n (literals trail.now.entries) → Covers (known_with clauses.now.clauses lemmas.now) (literals trail.now.entries) self.old.fresh.items (heap_items self.old.units)
            → IfOk result (λ found. IfNone found (Covers (known_with clauses.now.clauses lemmas.now) (literals trail.now.entries) self.new.fresh.items (heap_items self.new.units))) }
    {
        while let Some(number) = self.fresh.pop() {
            if self.look_at(clauses, lemmas, trail, number)? {
                return Ok(Some(number));
            }
        }
        Ok(None)
    }

    // Whether the clause with this number is false. One that gives a literal is kept for `next_unit`.
    fn look_at(
        &mut self,
        clauses: &Clauses,
        lemmas: &[Lemma],
        trail: &Trail,
        number: u32,
    ) -> Result<bool, NoMemory>
        requires { length (known_with clauses.now.clauses lemmas.now) < 2 ^ 32 }
        ensures occurrences { self.new.occurrences ≡ self.old.occurrences }
        ensures fresh { self.new.fresh ≡ self.old.fresh }
        ensures found { IfOk result (λ found. found ≡ true → IsFalseAt (known_with clauses.now.clauses lemmas.now) (literals trail.now.entries) number) }
        ensures covers { (n : ℕ) → NamesOnce n (literals trail.now.entries) → Covers (known_with clauses.now.clauses lemmas.now) (literals trail.now.entries) (self.old.fresh.items ++ number ∷ []) (heap_items self.old.units)
            → IfOk result (λ found. found ≡ false → Covers (known_with clauses.now.clauses lemmas.now) (literals trail.now.entries) self.new.fresh.items (heap_items self.new.units)) }
    {
        let Some(standing) = standing_if(clauses, lemmas, trail, number) else {
            return Ok(false);
        };
        match standing {
            Standing::False => Ok(true),
            Standing::Unit(lit) => {
                self.units
                    .push(turn_of(clauses, self.at_root, lit, number))?;
                Ok(false)
            }
            Standing::Open(_) => Ok(false),
            Standing::Satisfied => Ok(false),
        }
    }

    /// The first of the waiting clauses that still gives a literal. It goes on waiting: it is true
    /// when it is looked at again.
    pub(crate) fn next_unit(
        &mut self,
        clauses: &Clauses,
        lemmas: &[Lemma],
        trail: &Trail,
    ) -> Option<Reason>
        requires few { length (known_with clauses.now.clauses lemmas.now) < 2 ^ 32 }
        requires once { NamesOnce trail.now.atoms (literals trail.now.entries) }
        requires none { self.old.fresh.items ≡ [] }
        requires covers { Covers (known_with clauses.now.clauses lemmas.now) (literals trail.now.entries) [] (heap_items self.old.units) }
        ensures found { MatchOption result (IsSettled (known_with clauses.now.clauses lemmas.now) (literals trail.now.entries))
            (λ reason. Follows (known_with clauses.now.clauses lemmas.now) (literals trail.now.entries) reason.lit reason.by) }
        ensures occurrences { self.new.occurrences ≡ self.old.occurrences }
        ensures covers { Covers (known_with clauses.now.clauses lemmas.now) (literals trail.now.entries) self.new.fresh.items (heap_items self.new.units) }
    {
        while let Some(waiting) = self.units.peek() {
            let by = waiting.by;
            if let Some(lit) = given(clauses, lemmas, trail, by) {
                return Some(Reason { lit, by });
            }
            self.units.pop();
        }
        None
    }
}

// The literal that the clause with this number gives.
fn given(clauses: &Clauses, lemmas: &[Lemma], trail: &Trail, number: u32) -> Option<Lit>
    requires few { length (known_with clauses.now.clauses lemmas.now) < 2 ^ 32 }
    requires once { NamesOnce trail.now.atoms (literals trail.now.entries) }
    ensures { MatchOption result (GivesNone (known_with clauses.now.clauses lemmas.now) (literals trail.now.entries) number)
        (λ lit. Follows (known_with clauses.now.clauses lemmas.now) (literals trail.now.entries) lit number) }
{
    let Some(standing) = standing_if(clauses, lemmas, trail, number) else {
        return None;
    };
    match standing {
        Standing::Unit(lit) => Some(lit),
        Standing::Open(_) => None,
        Standing::Satisfied => None,
        Standing::False => None,
    }
}

// How the clause with this number stands, if there is one.
fn standing_if(clauses: &Clauses, lemmas: &[Lemma], trail: &Trail, number: u32) -> Option<Standing>
    requires { length (known_with clauses.now.clauses lemmas.now) < 2 ^ 32 }
    ensures { IfStandsAt (known_with clauses.now.clauses lemmas.now) (literals trail.now.entries) number result }
{
    if number < how_many(clauses, lemmas) {
        Some(standing_of(clauses, lemmas, trail, number))
    } else {
        None
    }
}

// Where a clause that gives this literal stands among those that wait.
fn turn_of(clauses: &Clauses, at_root: bool, lit: Lit, by: u32) -> Waiting
    ensures { result.by ≡ by }
{
    if at_root {
        Waiting {
            is_requirement: by as usize + 1 == clauses.clauses.len(),
            shortness: u32::MAX - terms(clauses, lit),
            turn: by,
            by,
        }
    } else {
        Waiting {
            is_requirement: false,
            shortness: 0,
            turn: u32::MAX - by,
            by,
        }
    }
}

// How many terms the row of a literal has: none for a named literal.
fn terms(clauses: &Clauses, lit: Lit) -> u32 {
    match clauses.atoms.get(lit.atom as usize) {
        Some(Atom::Row { form, .. }) => terms_of(clauses, *form),
        _ => 0,
    }
}

// How many terms a form has, of which those below the number of columns are a column each.
fn terms_of(clauses: &Clauses, form: u32) -> u32 {
    if form < clauses.columns {
        return 1;
    }
    match clauses.forms.get((form - clauses.columns) as usize) {
        Some(form) => u32::try_from(form.terms.as_slice().len()).unwrap_or(u32::MAX),
        None => 1,
    }
}

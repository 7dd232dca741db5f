// The trail: the literals that are assumed, with the truth that they give each atom.
ghost use Rattle.std.specs.Prelude.{◌≡◌, ℕ, ◌-◌, ◌<◌, ◌≤◌, [], ◌∷◌, ◌++◌, length, map, take, slice_index_or, IfOk, MatchOption, Bool, true, Option, None};
ghost use Rattle.clause_form.specs.Derivations.{HasAtom, NamesOnce};
ghost use Rattle.clause_form.specs.Journals.{literals};
ghost use Rattle.learned_clause.specs.Trails.{entries as entries_of};
ghost use Rattle.clause_search.specs.Answers.{IsAssignment};
ghost use Rattle.clause_search.specs.Tables.{Gives, NameAll, Says, is_true_at};

use farkas_cert::Lit;
use learned_clause::Assigned;
use sqlite_items::Items;
use std::alloc::Global;
use std::marker::Model;
use whole::NoMemory;

/// The literals that are assumed, the latest last, no two of one atom. Contracts see their entries
/// and the number of atoms. A literal's truth is looked up by its atom.
#[derive(Debug, Drop)]
pub(crate) struct Trail {
    assigned: Vec<Assigned>,
    truths: Vec<Option<bool>>,
}

impl Model for Trail {
    ghost use Rattle.std.specs.Prelude.{length};
    ghost use Rattle.clause_form.specs.Journals.{literals};
    ghost use Rattle.learned_clause.specs.Trails.{entries as entries_of};
    ghost use Rattle.clause_search.specs.Tables.{Shows, View};

    ghost Value = { View };

    ghost view = { λ t. record { atoms = length t.truths.items; entries = entries_of t.assigned.items } };

    ghost invariant = { λ t. Shows (literals (entries_of t.assigned.items)) t.truths.items };
}

impl Trail {
    /// The empty trail over this many atoms.
    pub(crate) fn new(alloc: Global, atoms: usize) -> Result<Trail, NoMemory>
        ensures { IfOk result (λ t. t ≡ record { atoms = atoms; entries = [] }) }
    {
        Ok(Trail {
            assigned: Vec::new(alloc),
            truths: Vec::from_elem(alloc, None, atoms)?,
        })
    }

    pub(crate) fn len(&self) -> usize
        ensures { result ≡ length self.now.entries }
    {
        self.assigned.len()
    }

    pub(crate) fn as_slice(&self) -> &[Assigned]
        ensures { entries_of result.now ≡ self.now.entries }
    {
        self.assigned.as_slice()
    }

    /// The truth that the trail gives the atom, if it names it.
    pub(crate) fn truth(&self, atom: u32) -> Option<bool>
        ensures says { Says (literals self.now.entries) atom result }
        ensures once { NamesOnce self.now.atoms (literals self.now.entries) }
    {
        truth_at(self.truths.as_slice(), atom)
    }

    /// Whether the trail makes the literal true or false, if it names its atom.
    pub(crate) fn value(&self, lit: Lit) -> Option<bool>
        ensures gives { Gives (literals self.now.entries) lit result }
        ensures once { NamesOnce self.now.atoms (literals self.now.entries) }
    {
        match self.truth(lit.atom) {
            Some(truth) => Some(truth == lit.positive),
            None => None,
        }
    }

    /// Whether the atom is in range and off the trail.
    pub(crate) fn is_free(&self, atom: u32) -> bool
        ensures { result ≡ true → (atom < self.now.atoms) × (HasAtom atom (literals self.now.entries) → ⊥) }
    {
        match self.truth(atom) {
            Some(_) => false,
            None => (atom as usize) < self.truths.len(),
        }
    }

    /// The least atom off the trail.
    pub(crate) fn first_free(&self) -> Option<u32>
        requires { self.now.atoms ≤ 4096 }
        ensures { MatchOption result (NameAll self.now.atoms (literals self.now.entries))
            (λ atom. (atom < self.now.atoms) × (HasAtom atom (literals self.now.entries) → ⊥)) }
    {
        for atom in 0..self.atoms() {
            match self.truth(atom) {
                Some(_) => {}
                None => return Some(atom),
            }
        }
        None
    }

    fn atoms(&self) -> u32
        requires { self.now.atoms ≤ 4096 }
        ensures { result ≡ self.now.atoms }
    {
        self.truths.len() as u32
    }

    /// The truth of each atom, where the trail names them all.
    pub(crate) fn assignment(&self, alloc: Global) -> Result<Items<bool>, NoMemory>
        requires { NameAll self.now.atoms (literals self.now.entries) }
        ensures { IfOk result (λ truths. (length truths ≡ self.now.atoms) × IsAssignment truths (literals self.now.entries)) }
    {
        Ok(Items::from_vec(settled(alloc, self.truths.as_slice())?))
    }

    /// Puts a literal of an atom off the trail at its end.
    pub(crate) fn assume(&mut self, lit: Lit, by: Option<u32>) -> Result<(), NoMemory>
        requires in_range { lit.atom < self.old.atoms }
        requires free { HasAtom lit.atom (literals self.old.entries) → ⊥ }
        ensures { IfOk result (λ _. self.new ≡ record { atoms = self.old.atoms; entries = self.old.entries ++ record { lit = lit; by = by } ∷ [] }) }
    {
        self.assigned.push(Assigned { lit, by })?;
        self.truths[lit.atom as usize] = Some(lit.positive);
        Ok(())
    }

    /// Cuts the trail to this length. It takes no memory.
    pub(crate) fn cut(&mut self, keep: usize)
        ensures { self.new ≡ record { atoms = self.old.atoms; entries = take keep self.old.entries } }
    {
        while self.len() > keep {
            self.retract();
        }
    }

    // Takes back the latest literal, if there is one.
    fn retract(&mut self)
        ensures { self.new ≡ record { atoms = self.old.atoms; entries = take (length self.old.entries - 1) self.old.entries } }
    {
        if let Some(last) = self.assigned.pop() {
            self.truths[last.lit.atom as usize] = None;
        }
    }
}

fn truth_at(truths: &[Option<bool>], atom: u32) -> Option<bool>
    ensures { result ≡ slice_index_or truths.now atom None }
{
    match truths.get(atom as usize) {
        Some(truth) => *truth,
        None => None,
    }
}

fn settled(alloc: Global, truths: &[Option<bool>]) -> Result<Vec<bool>, NoMemory>
    ensures { IfOk result (λ v. v.items ≡ map is_true_at truths.now) }
{
    let settled = truths.iter().map(|truth| is_true(*truth)).collect(alloc)?;
    Ok(settled)
}

fn is_true(truth: Option<bool>) -> bool
    ensures { result ≡ is_true_at truth }
{
    match truth {
        Some(truth) => truth,
        None => false,
    }
}

// The path of literals that are assumed, with the truth that it gives each atom.
ghost use Rattle.std.specs.Prelude.{◌≡◌, ◌↔◌, ◌-◌, ◌<◌, ◌&&◌, [], ◌∷◌, length, map, nat_lt, slice_get, IsTrue, IfOk, None, Some, true};
ghost use Rattle.farkas_cert.specs.Literals.{negation};
ghost use Rattle.cert_check.specs.Causes.{truth_on, is_free, is_on_path, is_false_on, names_once};
ghost use Rattle.cert_check.specs.Tables.{Assumed, without_first};

use farkas_cert::Lit;
use std::alloc::Global;
use std::marker::Model;
use whole::NoMemory;

/// A path of literals, of which no two are of one atom. Contracts see the literals, the latest first,
/// and the number of atoms. A literal's truth is looked up by its atom.
#[derive(Debug, Drop)]
pub(crate) struct Path {
    lits: Vec<Lit>,
    truths: Vec<Option<bool>>,
}

impl Model for Path {
    ghost use Rattle.std.specs.Prelude.{length, reverse};
    ghost use Rattle.cert_check.specs.Tables.{Assumed, Shows};

    ghost Value = { Assumed };

    ghost view = { λ p. record { atoms = length p.truths.items; lits = reverse p.lits.items } };

    ghost invariant = { λ p. Shows (reverse p.lits.items) p.truths.items };
}

impl Path {
    /// The empty path over this many atoms, with room for a literal of each.
    pub(crate) fn new(alloc: Global, atoms: usize) -> Result<Path, NoMemory>
        ensures { IfOk result (λ p. p ≡ record { atoms = atoms; lits = [] }) }
    {
        Ok(Path {
            lits: Vec::with_capacity(alloc, atoms)?,
            truths: Vec::from_elem(alloc, None, atoms)?,
        })
    }

    pub(crate) fn has_atom(&self, atom: u32) -> bool
        ensures { IsTrue result ↔ (atom < self.now.atoms) }
    {
        (atom as usize) < self.truths.len()
    }

    /// The truth that the path gives the atom, if it names it.
    pub(crate) fn truth(&self, atom: u32) -> Option<bool>
        ensures { result ≡ truth_on self.now.lits atom }
    {
        match self.truths.get(atom as usize) {
            Some(truth) => *truth,
            None => None,
        }
    }

    /// The atom is in range and not on the path.
    pub(crate) fn may_assume(&self, atom: u32) -> bool
        ensures { result ≡ (nat_lt atom self.now.atoms && is_free (truth_on self.now.lits atom)) }
    {
        self.has_atom(atom) && self.truth(atom).is_none()
    }

    pub(crate) fn has(&self, lit: Lit) -> bool
        ensures { result ≡ is_on_path self.now.lits lit }
    {
        match self.truth(lit.atom) {
            Some(truth) => truth == lit.positive,
            None => false,
        }
    }

    /// The negation of each of these literals is on the path.
    pub(crate) fn refutes(&self, lits: &[Lit]) -> bool
        ensures { result ≡ is_false_on self.now.lits lits.now }
    {
        for lit in lits {
            if !self.has(lit.negated()) {
                return false;
            }
        }
        true
    }

    fn len(&self) -> usize
        ensures { result ≡ length self.now.lits }
    {
        self.lits.len()
    }

    /// Assumes a literal of an atom that the path doesn't name.
    pub(crate) fn assume(&mut self, lit: Lit) -> Result<(), NoMemory>
        requires in_range { lit.atom < self.old.atoms }
        requires free { truth_on self.old.lits lit.atom ≡ None }
        ensures { IfOk result (λ _. self.new ≡ record { atoms = self.old.atoms; lits = lit ∷ self.old.lits }) }
    {
        self.lits.push(lit)?;
        self.truths[lit.atom as usize] = Some(lit.positive);
        Ok(())
    }

    /// Takes back the latest literal, if there is one.
    pub(crate) fn retract(&mut self)
        ensures { self.new ≡ record { atoms = self.old.atoms; lits = without_first self.old.lits } }
    {
        if let Some(lit) = self.lits.pop() {
            self.truths[lit.atom as usize] = None;
        }
    }

    /// Takes back all literals.
    pub(crate) fn clear(&mut self)
        ensures { self.new ≡ record { atoms = self.old.atoms; lits = [] } }
    {
        for _step in 0..self.len() {
            self.retract();
        }
    }

    /// Assumes the negation of each literal of a clause on an empty path. False where the clause has
    /// an atom out of range, or one twice; the path is of no use then.
    pub(crate) fn assume_negations(&mut self, clause: &[Lit]) -> Result<bool, NoMemory>
        requires { self.old.lits ≡ [] }
        ensures answer { IfOk result (λ once. once ≡ names_once self.old.atoms clause.now) }
        ensures assumed { IfOk result (λ once. once ≡ true → self.new ≡ record { atoms = self.old.atoms; lits = map negation clause.now }) }
    {
        for i in 0..clause.len() {
            let lit = from_end(clause, i);
            if !self.may_assume(lit.atom) {
                return Ok(false);
            }
            self.assume(lit.negated())?;
        }
        Ok(true)
    }
}

// The literal that stands this many places before the last.
fn from_end(lits: &[Lit], i: usize) -> Lit
    requires { i < length lits.now }
    ensures { slice_get lits.now (length lits.now - 1 - i) ≡ Some result }
{
    lits[lits.len() - 1 - i]
}

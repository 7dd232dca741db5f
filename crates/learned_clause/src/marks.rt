// The atoms that a clause names while it is resolved.
ghost use Rattle.std.specs.Prelude.{◌≡◌, ◌<◌, ◌^◌, ◌≤ℤ◌, length, map, pos, slice_index, unsigned_abs, IfOk};
ghost use Rattle.clause_form.specs.WellFormed.{Below};
ghost use Rattle.learned_clause.specs.LightTrees.{AreWithin};
ghost use Rattle.learned_clause.specs.Trails.{entries};
ghost use Rattle.learned_clause.specs.Resolvents.{AreApart, AreFresh, AreMarked, IsLower, IsMarked, NoneNegative, is_on};

use crate::trails::{Assigned, at};
use farkas_cert::{Lit, Part};
use sqlite_items::Items;
use std::alloc::Global;
use whole::NoMemory;

/// The clause that is resolved. All its literals are false on the trail, so its atoms tell it.
#[derive(Debug, Drop)]
pub(crate) struct Marks {
    /// Whether the clause names each atom.
    pub(crate) on: Items<bool>,
    /// Each atom's place on the trail, counted from 1, or 0 where it isn't there.
    pub(crate) ranks: Items<usize>,
    /// The rank of the last decision before the clause's end, or 0 where there is none.
    pub(crate) level: usize,
    /// The least rank from the level on of an atom that is on, or 0 where there is no level.
    pub(crate) lowest: usize,
}

impl Marks {
    /// The empty clause over this many atoms.
    pub(crate) fn new(alloc: Global, atoms: usize, trail: &[Assigned]) -> Result<Marks, NoMemory>
        requires { AreApart atoms (entries trail.now) }
        ensures { IfOk result (λ marks. AreFresh atoms (entries trail.now) marks) }
    {
        let mut ranks = Items::from_vec(Vec::from_elem(alloc, 0, atoms)?);
        for k in 0..trail.len() {
            ranks.set(at(trail, k).lit.atom as usize, k + 1);
        }
        let on = Items::from_vec(Vec::from_elem(alloc, false, atoms)?);
        Ok(Marks {
            on,
            ranks,
            level: 0,
            lowest: 0,
        })
    }

    pub(crate) fn is_on(&self, atom: u32) -> bool
        ensures { result ≡ is_on self.now.on atom }
    {
        match self.on.get(atom as usize) {
            Some(on) => *on,
            None => false,
        }
    }

    fn rank(&self, atom: u32) -> usize
        ensures { result ≡ slice_index self.now.ranks atom }
    {
        match self.ranks.get(atom as usize) {
            Some(rank) => *rank,
            None => 0,
        }
    }

    fn mark(&mut self, atom: u32)
        requires { atom < length self.old.on }
        ensures { IsMarked self.old atom self.new }
    {
        let rank = self.rank(atom);
        self.on.set(atom as usize, true);
        self.lowest = lower(self.level, self.lowest, rank);
    }

    pub(crate) fn mark_all(&mut self, lits: &[Lit])
        requires { Below (length self.old.on) lits.now }
        ensures { AreMarked self.old lits.now self.new }
    {
        for lit in lits {
            self.mark(lit.atom);
        }
    }

    pub(crate) fn mark_parts(&mut self, parts: &[Part])
        requires in_range { Below (length self.old.on) (map (λ p. p.lit) parts.now) }
        requires mults { NoneNegative parts.now }
        ensures marked { AreMarked self.old (map (λ p. p.lit) parts.now) self.new }
        ensures within { AreWithin parts.now }
    {
        for part in parts {
            self.mark_part(*part);
        }
    }

    fn mark_part(&mut self, part: Part)
        requires in_range { part.lit.atom < length self.old.on }
        requires mult { pos 0 ≤ℤ part.mult }
        ensures marked { IsMarked self.old part.lit.atom self.new }
        ensures within { unsigned_abs part.mult < 2 ^ 127 }
    {
        self.mark(part.lit.atom);
    }
}

// The lower of the two, where the rank is at or above the level.
fn lower(level: usize, lowest: usize, rank: usize) -> usize
    ensures { IsLower level lowest rank result }
{
    if level <= rank && rank < lowest {
        rank
    } else {
        lowest
    }
}

// The level before the walk, and the clause and the cut after it.
ghost use Rattle.std.specs.Prelude.{◌≡◌, ◌+◌, ◌^◌, ◌<◌, ◌≤◌, ℕ, List, length, map, take, IfOk};
ghost use Rattle.farkas_cert.specs.Literals.{negation};
ghost use Rattle.farkas_cert.specs.Trees.{Tree};
ghost use Rattle.farkas_cert.specs.declared.literals.Lit.{Lit};
ghost use Rattle.clause_form.specs.Derivations.{Rows};
ghost use Rattle.clause_form.specs.Journals.{literals};
ghost use Rattle.learned_clause.specs.Trails.{DecidedAt, IsTrail, entries};
ghost use Rattle.learned_clause.specs.Resolvents.{AreOn, IsBegun, IsLastOn, IsLeastCut, IsLowestRank, IsResolved, IsWalk, held};

use crate::marks::Marks;
use crate::scans::{first_decision, first_on, last_decision, last_on};
use crate::trails::{Assigned, at};
use farkas_cert::Lits;
use std::alloc::Global;
use whole::NoMemory;

/// Sets the level to the last decision before this last atom that is on.
pub(crate) fn set_level(trail: &[Assigned], marks: &mut Marks, last: usize)
    requires { IsLastOn (entries trail.now) marks.old.on (length trail.now) last }
    ensures walk { (c : Rows) (known : List (List Lit)) (tree : Tree) → IsBegun c known (entries trail.now) marks.old tree → IsWalk c known (entries trail.now) marks.new tree last }
    ensures resolved { (atoms : ℕ) (known : List (List Lit)) (lits : List Lit) → IsTrail atoms known (entries trail.now) → AreOn (entries trail.now) lits marks.old.on → IsResolved known (entries trail.now) lits marks.new last }
{
    let level = last_decision(trail, last);
    marks.lowest = lowest(trail, marks, level, last);
    marks.level = level;
}

// The least rank from the level on of an atom that is on.
fn lowest(trail: &[Assigned], marks: &Marks, level: usize, last: usize) -> usize
    requires order { level ≤ last }
    requires within { last ≤ length trail.now }
    ensures { IsLowestRank (entries trail.now) marks.now.on level last result }
{
    if level == 0 {
        return 0;
    }
    first_on(trail, marks, level - 1, last) + 1
}

/// The negations of the literals whose atoms are on, of so many entries.
pub(crate) fn clause_of(
    alloc: Global,
    trail: &[Assigned],
    marks: &Marks,
    many: usize,
) -> Result<Lits, NoMemory>
    requires { many ≤ length trail.now }
    ensures { IfOk result (λ clause. clause ≡ map negation (held marks.now.on (literals (take many (entries trail.now))))) }
{
    let mut clause = Vec::new(alloc);
    for k in 0..many {
        let lit = at(trail, k).lit;
        if marks.is_on(lit.atom) {
            clause.push(lit.negated())?;
        }
    }
    Ok(Lits::from_vec(clause))
}

/// The least length of the trail that ends before a decision and after all atoms that are on before
/// the level.
pub(crate) fn least_cut(trail: &[Assigned], marks: &Marks) -> u32
    requires few { length trail.now < 2 ^ 32 }
    requires within { marks.now.level ≤ length trail.now }
    ensures { (k : ℕ) → marks.now.level ≡ k + 1 → DecidedAt (entries trail.now) k → IsLeastCut (entries trail.now) marks.now.on k result }
{
    if marks.level == 0 {
        return 0;
    }
    let decision = marks.level - 1;
    let from = last_on(trail, marks, decision);
    first_decision(trail, from, decision) as u32
}

// The walk back along the trail, with the tree that it makes.
ghost use Rattle.std.specs.Prelude.{◌≡◌, ◌+◌, ◌<◌, ◌≤◌, List, length, slice_get, IfOk, Some};
ghost use Rattle.farkas_cert.specs.Trees.{tree_of};
ghost use Rattle.farkas_cert.specs.declared.literals.Lit.{Lit};
ghost use Rattle.clause_form.specs.Derivations.{rows_of};
ghost use Rattle.clause_form.specs.Journals.{literals};
ghost use Rattle.learned_clause.specs.Learning.{IsFalseStart};
ghost use Rattle.learned_clause.specs.Resolutions.{AreFalseAt};
ghost use Rattle.learned_clause.specs.Trails.{IsTrail, entries, known_with};
ghost use Rattle.learned_clause.specs.Resolvents.{AreFresh, AreOn, IsBegun, IsResolved, IsWalk, resolved};

use crate::learning::Start;
use crate::marks::Marks;
use crate::trails::{Assigned, at};
use clause_form::Clauses;
use farkas_cert::{Lemma, Lit, Proof};
use std::alloc::Global;
use whole::NoMemory;

/// Turns the atoms of what is false on, and gives its leaf.
pub(crate) fn begin(
    clauses: &Clauses,
    lemmas: &[Lemma],
    trail: &[Assigned],
    marks: &mut Marks,
    start: Start,
) -> Proof
    requires trail { IsTrail (length clauses.now.atoms) (known_with clauses.now.clauses lemmas.now) (entries trail.now) }
    requires start { IsFalseStart (rows_of clauses.now) (known_with clauses.now.clauses lemmas.now) (literals (entries trail.now)) start }
    requires fresh { AreFresh (length clauses.now.atoms) (entries trail.now) marks.old }
    ensures begun { IsBegun (rows_of clauses.now) (known_with clauses.now.clauses lemmas.now) (entries trail.now) marks.new (tree_of result) }
    ensures on { (lits : List Lit) → AreFalseAt (known_with clauses.now.clauses lemmas.now) start lits → AreOn (entries trail.now) lits marks.new.on }
{
    match start {
        Start::Clause(number) => {
            marks.mark_all(known(clauses, lemmas, number));
            Proof::clause(number)
        }
        Start::Clash(parts) => {
            marks.mark_parts(parts.as_slice());
            Proof::farkas(parts)
        }
    }
}

/// Resolves from so many entries of the trail on, as long as two or more atoms at or after the level
/// are on, or any where there is no decision.
pub(crate) fn resolve(
    alloc: Global,
    clauses: &Clauses,
    lemmas: &[Lemma],
    trail: &[Assigned],
    marks: &mut Marks,
    many: usize,
    leaf: Proof,
) -> Result<Proof, NoMemory>
    requires trail { IsTrail (length clauses.now.atoms) (known_with clauses.now.clauses lemmas.now) (entries trail.now) }
    requires walk { IsWalk (rows_of clauses.now) (known_with clauses.now.clauses lemmas.now) (entries trail.now) marks.old (tree_of leaf) many }
    ensures walk { IfOk result (λ tree. IsWalk (rows_of clauses.now) (known_with clauses.now.clauses lemmas.now) (entries trail.now) marks.new (tree_of tree) marks.new.lowest) }
    ensures resolved { IfOk result (λ tree. (lits : List Lit) → IsResolved (known_with clauses.now.clauses lemmas.now) (entries trail.now) lits marks.old many → IsResolved (known_with clauses.now.clauses lemmas.now) (entries trail.now) lits marks.new marks.new.lowest) }
{
    let mut tree = leaf;
    let mut k = many;
    while k > marks.lowest {
        k -= 1;
        tree = step(alloc, clauses, lemmas, trail, marks, k, tree)?;
    }
    Ok(tree)
}

// Resolves at one entry, if its atom is on.
fn step(
    alloc: Global,
    clauses: &Clauses,
    lemmas: &[Lemma],
    trail: &[Assigned],
    marks: &mut Marks,
    k: usize,
    tree: Proof,
) -> Result<Proof, NoMemory>
    requires trail { IsTrail (length clauses.now.atoms) (known_with clauses.now.clauses lemmas.now) (entries trail.now) }
    requires walk { IsWalk (rows_of clauses.now) (known_with clauses.now.clauses lemmas.now) (entries trail.now) marks.old (tree_of tree) (k + 1) }
    requires above { marks.old.lowest ≤ k }
    ensures walk { IfOk result (λ next. IsWalk (rows_of clauses.now) (known_with clauses.now.clauses lemmas.now) (entries trail.now) marks.new (tree_of next) k) }
    ensures resolved { IfOk result (λ next. (lits : List Lit) → IsResolved (known_with clauses.now.clauses lemmas.now) (entries trail.now) lits marks.old (k + 1) → IsResolved (known_with clauses.now.clauses lemmas.now) (entries trail.now) lits marks.new k) }
{
    let entry = at(trail, k);
    if !marks.is_on(entry.lit.atom) {
        return Ok(tree);
    }
    match entry.by {
        Some(number) => {
            marks.mark_all(known(clauses, lemmas, number));
            resolved(alloc, entry.lit, number, tree)
        }
        None => unreachable!(),
    }
}

// The tree so far on the side where the literal is true, and its clause on the other side.
fn resolved(alloc: Global, lit: Lit, number: u32, tree: Proof) -> Result<Proof, NoMemory>
    ensures { IfOk result (λ next. tree_of next ≡ resolved lit number (tree_of tree)) }
{
    let leaf = Proof::clause(number);
    if lit.positive {
        Proof::split(alloc, lit.atom, tree, leaf)
    } else {
        Proof::split(alloc, lit.atom, leaf, tree)
    }
}

/// The literals of the clause with this number. The problem's clauses are counted first, from 0, and
/// then the lemmas.
pub fn known<'a>(clauses: &'a Clauses, lemmas: &'a [Lemma], number: u32) -> &'a [Lit]
    requires { number < length (known_with clauses.now.clauses lemmas.now) }
    ensures { slice_get (known_with clauses.now.clauses lemmas.now) number ≡ Some result.now }
{
    let number = number as usize;
    let problem = clauses.clauses.as_slice();
    if number < problem.len() {
        problem[number].as_slice()
    } else {
        lemmas[number - problem.len()].clause.as_slice()
    }
}

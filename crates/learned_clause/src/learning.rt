// The learned clause of a conflict.
ghost use Rattle.std.specs.Prelude.{◌≡◌, pos, true, false, [], ◌∷◌, length, IfOk};
ghost use Rattle.farkas_cert.specs.Trees.{tree_of};
ghost use Rattle.clause_form.specs.declared.clauses.Atom.TheVariants.{Row};
ghost use Rattle.clause_form.specs.Derivations.{rows_of};
ghost use Rattle.clause_form.specs.Journals.{literals};
ghost use Rattle.learned_clause.specs.Examples.{IsGiven, four_clauses, two_rows};
ghost use Rattle.learned_clause.specs.Learning.{IsFalseStart, IsLearnedFrom};
ghost use Rattle.learned_clause.specs.Resolutions.{IsLearnedBy};
ghost use Rattle.learned_clause.specs.Trails.{IsTrail, entries, known_with};

use crate::cutting::{clause_of, least_cut, set_level};
use crate::marks::Marks;
use crate::resolving::{begin, resolve};
use crate::scans::last_on;
use crate::trails::Assigned;
use clause_form::Clauses;
use farkas_cert::{Lemma, Lits, Part, Proof};
use sqlite_items::Items;
use std::alloc::Global;
use whole::NoMemory;

/// What is false at a conflict.
#[derive(Debug, Drop)]
pub enum Start {
    /// All literals of the clause with this number are false on the trail. The problem's clauses are
    /// counted first, from 0, and then the lemmas.
    Clause(u32),
    /// The rows of literals on the trail, multiplied, sum to a contradiction.
    Clash(Items<Part>),
}

/// What is learned from a conflict.
#[derive(Debug, Drop)]
pub struct Learned {
    /// The clause, all of whose literals are false on the trail. No atom is named twice.
    pub clause: Lits,
    /// The tree that closes the path of the clause's negated literals.
    pub proof: Proof,
    /// The length to which the trail is cut, at a decision. It means nothing for the empty clause.
    pub keep: u32,
}

/// The learned clause of a conflict.
///
/// While two or more of its literals stand at or after the last decision before their end, the one
/// that stands last is replaced by the other literals of the clause that it follows from. Where no
/// decision is left before them, all are, and the clause is empty.
pub fn learn(
    alloc: Global,
    clauses: &Clauses,
    lemmas: &[Lemma],
    trail: &[Assigned],
    start: Start,
) -> Result<Learned, NoMemory>
    requires trail { IsTrail (length clauses.now.atoms) (known_with clauses.now.clauses lemmas.now) (entries trail.now) }
    requires start { IsFalseStart (rows_of clauses.now) (known_with clauses.now.clauses lemmas.now) (literals (entries trail.now)) start }
    ensures follows { IfOk result (λ learned. IsLearnedFrom (rows_of clauses.now) (known_with clauses.now.clauses lemmas.now) (entries trail.now) learned.clause (tree_of learned.proof) learned.keep) }
    ensures exact { IfOk result (λ learned. IsLearnedBy (known_with clauses.now.clauses lemmas.now) (entries trail.now) start learned.clause learned.keep) }
{
    let mut marks = Marks::new(alloc, clauses.atoms.len(), trail)?;
    let leaf = begin(clauses, lemmas, trail, &mut marks, start);
    let last = last_on(trail, &marks, trail.len());
    set_level(trail, &mut marks, last);
    let proof = resolve(alloc, clauses, lemmas, trail, &mut marks, last, leaf)?;
    let clause = clause_of(alloc, trail, &marks, marks.lowest)?;
    let keep = least_cut(trail, &marks);
    Ok(Learned {
        clause,
        proof,
        keep,
    })
}

#[cfg(test)]
mod tests {
    use super::{Learned, Start, learn};
    use crate::trails::Assigned;
    use clause_form::{Atom, Clauses};
    use farkas_cert::{Lit, Lits, Part};
    use sqlite_items::Items;
    use std::alloc::Global;
    use std::test::Fail;
    use whole::NoMemory;

    fn lit(atom: u32, positive: bool) -> Lit
        ensures { result ≡ record { atom = atom; positive = positive } }
    {
        Lit { atom, positive }
    }

    fn two(alloc: Global, first: Lit, second: Lit) -> Result<Lits, NoMemory>
        ensures { IfOk result (λ lits. lits ≡ first ∷ second ∷ []) }
    {
        Ok(Lits::from_vec(Vec::from_slice(alloc, &[first, second])?))
    }

    // Atom 0 gives 1, 1 gives 2, and 1 and 2 exclude each other. The last clause gives 0.
    fn problem(alloc: Global) -> Result<Clauses, NoMemory>
        ensures { IfOk result (λ c. (c.clauses ≡ four_clauses) × (length c.atoms ≡ 3)) }
    {
        let mut clauses = Items::new(alloc);
        clauses.push(two(alloc, lit(0, false), lit(1, true))?)?;
        clauses.push(two(alloc, lit(1, false), lit(2, true))?)?;
        clauses.push(two(alloc, lit(1, false), lit(2, false))?)?;
        clauses.push(Lits::from_vec(Vec::from_slice(alloc, &[lit(0, true)])?))?;
        Ok(Clauses {
            columns: 0,
            forms: Items::new(alloc),
            atoms: Items::from_slice(alloc, &[Atom::Named, Atom::Named, Atom::Named])?,
            clauses,
        })
    }

    fn entry(lit: Lit, by: Option<u32>) -> Assigned
        ensures { result ≡ record { lit = lit; by = by } }
    {
        Assigned { lit, by }
    }

    // Atom 0 is decided, or follows from its clause.
    fn learned(alloc: Global, by: Option<u32>) -> Result<Learned, NoMemory>
        requires { IsGiven by }
    {
        let clauses = problem(alloc)?;
        let trail = [
            entry(lit(0, true), by),
            entry(lit(1, true), Some(0)),
            entry(lit(2, true), Some(1)),
        ];
        learn(alloc, &clauses, &[], &trail, Start::Clause(2))
    }

    // 1 stands between the decision 0 and the false clause on every way, and later than 0.
    #[test]
    fn the_first_implication_point_is_learned(rt: HostRuntime) -> Result<(), Fail> {
        let alloc = rt.alloc();
        let learned = learned(alloc, None).expect(&rt, "memory");
        assert_eq!(rt; learned.clause.as_slice(), [lit(1, false)].as_slice());
        assert_eq!(rt; learned.keep, 0);
        assert_eq!(rt;
            format!(in alloc; "{:?}", learned.proof)?.as_str(),
            "Split { atom: 2, yes: Clause { number: 2 }, no: Clause { number: 1 } }"
        );
        Ok(())
    }

    // Without a decision all three are resolved away.
    #[test]
    fn the_empty_clause_is_learned_without_a_decision(rt: HostRuntime) -> Result<(), Fail> {
        let alloc = rt.alloc();
        let learned = learned(alloc, Some(3)).expect(&rt, "memory");
        assert!(rt; learned.clause.is_empty());
        assert_eq!(rt;
            format!(in alloc; "{:?}", learned.proof)?.as_str(),
            "Split { atom: 0, yes: Split { atom: 1, yes: Split { atom: 2, yes: Clause { number: 2 }, no: Clause { number: 1 } }, no: Clause { number: 0 } }, no: Clause { number: 3 } }"
        );
        Ok(())
    }

    fn row(num: i128) -> Atom
        ensures { result ≡ Row 0 num (pos 1) false }
    {
        Atom::Row {
            form: 0,
            num,
            den: 1,
            strict: false,
        }
    }

    // Over one column x: atom 0 is `x <= 0`, atom 1 is `x <= 1`.
    fn rows(alloc: Global) -> Result<Clauses, NoMemory>
        ensures { IfOk result (λ c. c ≡ two_rows) }
    {
        Ok(Clauses {
            columns: 1,
            forms: Items::new(alloc),
            atoms: Items::from_slice(alloc, &[row(0), row(1)])?,
            clauses: Items::new(alloc),
        })
    }

    fn once(lit: Lit) -> Part
        ensures { result ≡ record { lit = lit; mult = pos 1 } }
    {
        Part { lit, mult: 1 }
    }

    // `x <= 0` and then `x > 1` are decided, and their sum is a contradiction.
    fn learned_of_rows(alloc: Global) -> Result<Learned, NoMemory> {
        let clauses = rows(alloc)?;
        let trail = [entry(lit(0, true), None), entry(lit(1, false), None)];
        let parts = Items::from_slice(alloc, &[once(lit(0, true)), once(lit(1, false))])?;
        learn(alloc, &clauses, &[], &trail, Start::Clash(parts))
    }

    // The second decision is the late literal, and the cut keeps the first one.
    #[test]
    fn a_clash_gives_its_negated_literals(rt: HostRuntime) -> Result<(), Fail> {
        let alloc = rt.alloc();
        let learned = learned_of_rows(alloc).expect(&rt, "memory");
        assert_eq!(rt;
            learned.clause.as_slice(),
            [lit(0, false), lit(1, true)].as_slice()
        );
        assert_eq!(rt; learned.keep, 1);
        Ok(())
    }
}

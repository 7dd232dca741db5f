// Tests, over a theory of named atoms, which grants all literals.
ghost use Rattle.std.specs.Prelude.{◌≡◌, ◌↔◌, ◌<◌, ◌≤◌, ◌^◌, [], All, IsTrue, IfOk, IfSome, replicate};
ghost use Rattle.clause_form.specs.declared.clauses.Atom.TheVariants.{Named};
ghost use Rattle.clause_search.specs.Examples.{IsNamed};

use crate::found::{Found, Until};
use crate::guide::{Advice, Guide};
use crate::names::Names;
use crate::searching::{search, search_guided, search_until};
use clause_form::{Atom, Clauses};
use farkas_cert::{Lemma, Lit, Lits};
use learned_clause::Assigned;
use sqlite_items::Items;
use std::alloc::Global;
use std::test::Fail;
use whole::{Budget, NoMemory};

// Each literal's atom is below this number.
fn is_below(lits: &[Lit], atoms: u32) -> bool
    ensures { IsTrue result ↔ All (λ l. l.atom < atoms) lits.now }
{
    lits.iter().all(|lit| lit.atom < atoms)
}

fn are_below(clauses: &[Lits], atoms: u32) -> bool
    ensures { IsTrue result ↔ All (λ c. All (λ l. l.atom < atoms) c) clauses.now }
{
    clauses
        .iter()
        .all(|clause| is_below(clause.as_slice(), atoms))
}

fn named_atoms(alloc: Global, count: u32) -> Result<Items<Atom>, NoMemory>
    ensures { IfOk result (λ atoms. atoms ≡ replicate count Named) }
{
    Ok(Items::from_vec(Vec::from_elem(alloc, Atom::Named, count as usize)?))
}

fn over(alloc: Global, atoms: Items<Atom>, clauses: Items<Lits>) -> Clauses
    ensures { result ≡ record { columns = 0; forms = []; atoms = atoms; clauses = clauses } }
{
    Clauses {
        columns: 0,
        forms: Items::new(alloc),
        atoms,
        clauses,
    }
}

// The clauses over this many named atoms, where they are well formed.
fn named(alloc: Global, atoms: u32, clauses: Items<Lits>) -> Result<Option<Clauses>, NoMemory>
    ensures { IfOk result (λ some. IfSome some (λ c. IsNamed atoms c)) }
{
    if !are_below(clauses.as_slice(), atoms) {
        return Ok(None);
    }
    if atoms > 4096 {
        return Ok(None);
    }
    if clauses.len() > 1_048_576 {
        return Ok(None);
    }
    let rows = named_atoms(alloc, atoms)?;
    Ok(Some(over(alloc, rows, clauses)))
}

// A clause of these atoms, all positive or all negative.
fn of_atoms(alloc: Global, atoms: &[u32], positive: bool) -> Result<Lits, NoMemory> {
    let mut lits = Vec::new(alloc);
    for atom in atoms {
        lits.push(Lit {
            atom: *atom,
            positive,
        })?;
    }
    Ok(Lits::from_vec(lits))
}

// Each of 4 items stands in one of 3 places, and no two in one: atom 3 * i + p says that item i
// stands in place p.
fn pigeons(alloc: Global) -> Result<Items<Lits>, NoMemory> {
    let mut clauses = Items::new(alloc);
    for first in [0, 3, 6, 9] {
        clauses.push(of_atoms(alloc, &[first, first + 1, first + 2], true)?)?;
    }
    for place in [0, 1, 2] {
        clauses.push(of_atoms(alloc, &[place, place + 3], false)?)?;
        clauses.push(of_atoms(alloc, &[place, place + 6], false)?)?;
        clauses.push(of_atoms(alloc, &[place, place + 9], false)?)?;
        clauses.push(of_atoms(alloc, &[place + 3, place + 6], false)?)?;
        clauses.push(of_atoms(alloc, &[place + 3, place + 9], false)?)?;
        clauses.push(of_atoms(alloc, &[place + 6, place + 9], false)?)?;
    }
    Ok(clauses)
}

// One of two atoms is true, and the first isn't.
fn two(alloc: Global) -> Result<Items<Lits>, NoMemory> {
    let mut clauses = Items::new(alloc);
    clauses.push(of_atoms(alloc, &[0, 1], true)?)?;
    clauses.push(of_atoms(alloc, &[0], false)?)?;
    Ok(clauses)
}

// What is found over these clauses with this budget.
fn found(
    alloc: Global,
    atoms: u32,
    clauses: Items<Lits>,
    limit: u64,
) -> Result<Option<Found>, NoMemory>
    requires { limit ≤ 2 ^ 31 }
{
    let some = named(alloc, atoms, clauses)?;
    match some {
        Some(clauses) => {
            let mut theory = Names::new(alloc, atoms);
            let mut budget = Budget::new(limit);
            Ok(Some(search(alloc, &clauses, &mut theory, &mut budget)))
        }
        None => Ok(None),
    }
}

// Advises this literal at each decision, also where its atom is on the trail.
#[derive(Debug, Drop)]
struct Prefers {
    lit: Lit,
}

impl Guide<Names> for Prefers {
    ghost stops = { λ clauses guide theory. ⊥ };

    fn advise(
        &mut self,
        _clauses: &Clauses,
        _lemmas: &[Lemma],
        _trail: &[Assigned],
        _theory: &Names,
    ) -> Advice {
        Advice::Decide(self.lit)
    }
}

// What is found over two atoms without a clause, where this literal is preferred.
fn found_by(alloc: Global, lit: Lit) -> Result<Option<Found>, NoMemory> {
    let some = named(alloc, 2, Items::new(alloc))?;
    match some {
        Some(clauses) => {
            let mut theory = Names::new(alloc, 2);
            let mut budget = Budget::new(100);
            let mut guide = Prefers { lit };
            let found = search_guided(alloc, &clauses, &mut theory, &mut budget, &mut guide);
            Ok(Some(found))
        }
        None => Ok(None),
    }
}

// Stops at the first decision.
#[derive(Clone, Copy, Debug)]
struct Stops;

impl Guide<Names> for Stops {
    ghost stops = { λ clauses guide theory. Unit {0} };

    fn advise(
        &mut self,
        _clauses: &Clauses,
        _lemmas: &[Lemma],
        _trail: &[Assigned],
        _theory: &Names,
    ) -> Advice {
        Advice::Stop
    }
}

// What a search comes to over three atoms of which a clause gives the first, where it may be stopped.
fn stopped(alloc: Global) -> Result<Option<Until>, NoMemory> {
    let mut clauses = Items::new(alloc);
    clauses.push(of_atoms(alloc, &[0], true)?)?;
    let some = named(alloc, 3, clauses)?;
    match some {
        Some(clauses) => {
            let mut theory = Names::new(alloc, 3);
            let mut budget = Budget::new(100);
            let until = search_until(alloc, &clauses, &mut theory, &mut budget, &mut Stops);
            Ok(Some(until))
        }
        None => Ok(None),
    }
}

// The same where it may not.
fn not_stopped(alloc: Global) -> Result<Option<Found>, NoMemory> {
    let mut clauses = Items::new(alloc);
    clauses.push(of_atoms(alloc, &[0], true)?)?;
    let some = named(alloc, 3, clauses)?;
    match some {
        Some(clauses) => {
            let mut theory = Names::new(alloc, 3);
            let mut budget = Budget::new(100);
            let found = search_guided(alloc, &clauses, &mut theory, &mut budget, &mut Stops);
            Ok(Some(found))
        }
        None => Ok(None),
    }
}

// A stop leaves the one propagation before the first decision; `search_guided` decides the other two
// atoms all the same.
#[test]
fn a_guide_stops_a_search_that_allows_it(rt: HostRuntime) -> Result<(), Fail> {
    let alloc = rt.alloc();
    match stopped(alloc).expect(&rt, "memory") {
        Some(Until::Stopped(journal)) => assert_eq!(rt; journal.moves.len(), 1),
        other => assert!(rt; false, "{other:?}"),
    }
    match not_stopped(alloc).expect(&rt, "memory") {
        Some(Found::Total(truths, journal)) => {
            assert_eq!(rt; truths.as_slice(), [true, false, false].as_slice());
            assert_eq!(rt; journal.moves.len(), 3);
        }
        other => assert!(rt; false, "{other:?}"),
    }
    Ok(())
}

// Atom 1 is decided as advised, and atom 0 by the search's own rule; an atom out of range is passed
// over.
#[test]
fn advice_is_taken_where_it_may_be(rt: HostRuntime) -> Result<(), Fail> {
    let alloc = rt.alloc();
    for (atom, second) in [(1, true), (7, false)] {
        let lit = Lit {
            atom,
            positive: true,
        };
        match found_by(alloc, lit).expect(&rt, "memory") {
            Some(Found::Total(truths, journal)) => {
                assert_eq!(rt; truths.as_slice(), [false, second].as_slice());
                assert_eq!(rt; journal.moves.len(), 2);
            }
            other => assert!(rt; false, "{other:?}"),
        }
    }
    Ok(())
}

// Four items have no places among three, and few lemmas show it.
#[test]
fn items_without_places_are_refuted(rt: HostRuntime) -> Result<(), Fail> {
    let alloc = rt.alloc();
    let clauses = pigeons(alloc).expect(&rt, "memory");
    assert_eq!(rt; clauses.len(), 22);
    match found(alloc, 12, clauses, 100_000).expect(&rt, "memory") {
        Some(Found::Closed(cert)) => {
            assert_eq!(rt; (cert.columns, cert.atoms, cert.clauses), (0, 12, 22));
            assert_eq!(rt; cert.lemmas.len(), 6);
        }
        other => assert!(rt; false, "{other:?}"),
    }
    Ok(())
}

// A unit clause gives its literal, and a second one follows: the truths of both, and the two moves.
#[test]
fn truths_follow_from_unit_clauses(rt: HostRuntime) -> Result<(), Fail> {
    let alloc = rt.alloc();
    match found(alloc, 2, two(alloc).expect(&rt, "memory"), 2).expect(&rt, "memory") {
        Some(Found::Total(truths, journal)) => {
            assert_eq!(rt; truths.as_slice(), [false, true].as_slice());
            assert_eq!(rt; journal.moves.len(), 2);
        }
        other => assert!(rt; false, "{other:?}"),
    }
    Ok(())
}

// The same with a budget of one move.
#[test]
fn a_budget_of_one_move_is_spent(rt: HostRuntime) -> Result<(), Fail> {
    let alloc = rt.alloc();
    match found(alloc, 2, two(alloc).expect(&rt, "memory"), 1).expect(&rt, "memory") {
        Some(Found::Spent(journal)) => assert_eq!(rt; journal.moves.len(), 1),
        other => assert!(rt; false, "{other:?}"),
    }
    Ok(())
}

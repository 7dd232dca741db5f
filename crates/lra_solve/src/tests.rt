// Over one column x: atom 0 is `x <= 0` and true, and atom 1 is false. Answers worked out by hand.
ghost use Rattle.std.specs.Prelude.{◌≡◌, [], ◌∷◌, IfOk};
ghost use Rattle.cert_check.specs.Examples.{problem};
ghost use Rattle.clause_form.specs.WellFormed.{IsWellFormed};

use crate::{Solved, solve, solve_total};
use cert_check::{Checked, check};
use clause_form::{Atom, Clauses};
use farkas_cert::{Lit, Lits};
use sqlite_items::Items;
use std::alloc::Global;
use std::test::Fail;
use whole::NoMemory;

fn one(alloc: Global, atom: u32, positive: bool) -> Result<Lits, NoMemory>
    ensures { IfOk result (λ lits. lits ≡ record { atom = atom; positive = positive } ∷ []) }
{
    Ok(Lits::from_vec(Vec::from_slice(alloc, &[Lit { atom, positive }])?))
}

// Atom 1 is `x < num` where strict, and else `x <= num`.
#[tactic(auto, using(whole::proofs::Overflow::signed))]
fn problem(alloc: Global, num: i128, strict: bool) -> Result<Clauses, NoMemory>
    ensures { IfOk result (λ c. c ≡ problem strict num) }
{
    let first = Atom::Row {
        form: 0,
        num: 0,
        den: 1,
        strict: false,
    };
    let second = Atom::Row {
        form: 0,
        num,
        den: 1,
        strict,
    };
    let mut clauses = Items::new(alloc);
    clauses.push(one(alloc, 0, true)?)?;
    clauses.push(one(alloc, 1, false)?)?;
    Ok(Clauses {
        columns: 1,
        forms: Items::new(alloc),
        atoms: Items::from_slice(alloc, &[first, second])?,
        clauses,
    })
}

// x is at most 0, and at least 0.
#[tactic(auto, using(cert_check::proofs::SmallProblems::made_formed))]
fn zero(alloc: Global) -> Result<Clauses, NoMemory>
    ensures { IfOk result IsWellFormed }
{
    problem(alloc, 0, true)
}

// x is at most 0, and above 1.
#[tactic(auto, using(cert_check::proofs::SmallProblems::made_formed))]
fn closed(alloc: Global) -> Result<Clauses, NoMemory>
    ensures { IfOk result IsWellFormed }
{
    problem(alloc, 1, false)
}

// x is at most 0, or above 1.
#[tactic(auto, using(whole::proofs::Overflow::signed, crate::proofs::TestLaws::either_formed))]
fn either(alloc: Global) -> Result<Clauses, NoMemory>
    ensures { IfOk result IsWellFormed }
{
    let Clauses {
        columns,
        forms,
        atoms,
        clauses: _both,
    } = problem(alloc, 1, false)?;
    let first = Lit {
        atom: 0,
        positive: true,
    };
    let second = Lit {
        atom: 1,
        positive: false,
    };
    let mut clauses = Items::new(alloc);
    clauses.push(Lits::from_vec(Vec::from_slice(alloc, &[first, second])?))?;
    Ok(Clauses {
        columns,
        forms,
        atoms,
        clauses,
    })
}

// Where x is 0 the clause holds, so the first corner is a model, and no atom is told. Both rows hold there.
#[test]
fn a_corner_that_is_a_model_needs_no_move(rt: HostRuntime) -> Result<(), Fail> {
    let alloc = rt.alloc();
    let clauses = either(alloc).expect(&rt, "memory");
    match solve(alloc, &clauses, 0) {
        Solved::Model(values, truths, spent) => {
            assert_eq!(rt; values.over, 1);
            assert_eq!(rt; values.values.as_slice(), [0].as_slice());
            assert_eq!(rt; truths.as_slice(), [true, true].as_slice());
            assert_eq!(rt; spent.journal.moves.len(), 0);
        }
        other => assert!(rt; false, "{other:?}"),
    }
    Ok(())
}

// A search that tells each atom needs a move for each of them.
#[test]
fn a_search_that_never_stops_tells_each_atom(rt: HostRuntime) -> Result<(), Fail> {
    let alloc = rt.alloc();
    let clauses = either(alloc).expect(&rt, "memory");
    match solve_total(alloc, &clauses, 1) {
        Solved::Spent(spent) => assert_eq!(rt; spent.journal.moves.len(), 1),
        other => assert!(rt; false, "{other:?}"),
    }
    Ok(())
}

// Both unit clauses give their literals, and then all is told: two moves, which may be the whole budget.
#[test]
fn a_column_has_its_value(rt: HostRuntime) -> Result<(), Fail> {
    let alloc = rt.alloc();
    let clauses = zero(alloc).expect(&rt, "memory");
    match solve(alloc, &clauses, 2) {
        Solved::Model(values, truths, spent) => {
            assert_eq!(rt; values.over, 1);
            assert_eq!(rt; values.values.as_slice(), [0].as_slice());
            assert_eq!(rt; truths.as_slice(), [true, false].as_slice());
            assert_eq!(rt; spent.budget.propagations, 2);
            assert_eq!(rt; spent.journal.moves.len(), 2);
        }
        other => assert!(rt; false, "{other:?}"),
    }
    Ok(())
}

// The two rows contradict: the one lemma is the empty clause, and its certificate proves.
#[test]
fn rows_that_contradict_are_refuted(rt: HostRuntime) -> Result<(), Fail> {
    let alloc = rt.alloc();
    let clauses = closed(alloc).expect(&rt, "memory");
    match solve(alloc, &clauses, 2) {
        Solved::Closed(cert) => {
            assert_eq!(rt; (cert.columns, cert.atoms, cert.clauses), (1, 2, 2));
            assert_eq!(rt; cert.lemmas.len(), 1);
            assert_eq!(rt; check(alloc, &clauses, &cert), Checked::Proved);
        }
        other => assert!(rt; false, "{other:?}"),
    }
    Ok(())
}

// With less than two moves neither problem is decided.
#[test]
fn a_budget_is_spent_move_by_move(rt: HostRuntime) -> Result<(), Fail> {
    let alloc = rt.alloc();
    let clauses = closed(alloc).expect(&rt, "memory");
    match solve(alloc, &clauses, 0) {
        Solved::Spent(spent) => assert_eq!(rt; spent.journal.moves.len(), 0),
        other => assert!(rt; false, "{other:?}"),
    }
    match solve(alloc, &clauses, 1) {
        Solved::Spent(spent) => assert_eq!(rt; spent.journal.moves.len(), 1),
        other => assert!(rt; false, "{other:?}"),
    }
    Ok(())
}

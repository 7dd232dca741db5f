// Over one column x, with 0 as its value at the corner: atom 0 is `x <= 0`, which holds there, and atom
// 1 is `x <= num`. Answers worked out by hand.
ghost use Rattle.std.specs.Prelude.{◌≡◌, [], ◌∷◌, false, IfOk};
ghost use Rattle.cert_check.specs.Examples.{problem};
ghost use Rattle.clause_form.specs.WellFormed.{IsWellFormed};

use crate::definitions::Definitions;
use crate::guide::nearest;
use crate::outlook::Outlook;
use clause_form::{Atom, Clauses};
use farkas_cert::{Lit, Lits};
use fraction::MixedFrac;
use lra_theory::Lra;
use sqlite_items::Items;
use std::alloc::Global;
use std::test::Fail;
use whole::NoMemory;

fn one(alloc: Global, atom: u32, positive: bool) -> Result<Lits, NoMemory>
    ensures { IfOk result (λ lits. lits ≡ record { atom = atom; positive = positive } ∷ []) }
{
    Ok(Lits::from_vec(Vec::from_slice(alloc, &[Lit { atom, positive }])?))
}

#[tactic(auto, using(whole::proofs::Overflow::signed))]
fn problem(alloc: Global, num: i128) -> Result<Clauses, NoMemory>
    ensures { IfOk result (λ c. c ≡ problem false num) }
{
    let first = Atom::Row {
        form: 0,
        num: 0,
        den: 1,
        strict: false,
    };
    let second = Atom::Row {
        form: 0,
        num,
        den: 1,
        strict: false,
    };
    let mut clauses = Items::new(alloc);
    clauses.push(one(alloc, 0, true)?)?;
    clauses.push(one(alloc, 1, false)?)?;
    Ok(Clauses {
        columns: 1,
        forms: Items::new(alloc),
        atoms: Items::from_slice(alloc, &[first, second])?,
        clauses,
    })
}

#[tactic(auto, using(cert_check::proofs::SmallProblems::made_formed))]
fn above_one(alloc: Global) -> Result<Clauses, NoMemory>
    ensures { IfOk result IsWellFormed }
{
    problem(alloc, 1)
}

#[tactic(auto, using(cert_check::proofs::SmallProblems::made_formed))]
fn below_three(alloc: Global) -> Result<Clauses, NoMemory>
    ensures { IfOk result IsWellFormed }
{
    problem(alloc, -3)
}

fn lit(atom: u32, positive: bool) -> Lit {
    Lit { atom, positive }
}

// The clause of `x <= 0` holds at the corner, and `x > 1` is violated there by 1 and an infinitesimal.
#[test]
fn a_clause_that_holds_at_the_corner_needs_no_decision(rt: HostRuntime) -> Result<(), Fail> {
    let alloc = rt.alloc();
    let clauses = above_one(alloc).expect(&rt, "memory");
    let definitions = Definitions::new(alloc, &clauses).expect(&rt, "memory");
    let theory: Lra<MixedFrac> = Lra::new(alloc, &clauses).expect(&rt, "memory");
    let outlook = Outlook::new(alloc, &clauses, &definitions, &[], &theory).expect(&rt, "memory");
    assert_eq!(rt; nearest(&outlook, &[lit(0, true)]), None);
    assert_eq!(rt; nearest(&outlook, &[lit(1, false)]), Some(lit(1, false)));
    assert_eq!(rt; nearest(&outlook, &[lit(1, false), lit(0, true)]), None);
    Ok(())
}

// `x <= -3` is violated by 3, and `x > 0` by an infinitesimal.
#[test]
fn the_least_violated_literal_is_decided(rt: HostRuntime) -> Result<(), Fail> {
    let alloc = rt.alloc();
    let clauses = below_three(alloc).expect(&rt, "memory");
    let definitions = Definitions::new(alloc, &clauses).expect(&rt, "memory");
    let theory: Lra<MixedFrac> = Lra::new(alloc, &clauses).expect(&rt, "memory");
    let outlook = Outlook::new(alloc, &clauses, &definitions, &[], &theory).expect(&rt, "memory");
    assert_eq!(rt;
        nearest(&outlook, &[lit(1, true), lit(0, false)]),
        Some(lit(0, false))
    );
    Ok(())
}

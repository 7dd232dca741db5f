// The whole text of a small problem.
use crate::{counts_text, problem_text};
use clause_form::{Atom, Clauses};
use farkas_cert::{Lit, Lits};
use linear_form::{Form, Term, Terms};
use sqlite_items::Items;
use std::alloc::Global;
use std::test::Fail;
use whole::NoMemory;

fn lit(atom: u32, positive: bool) -> Lit {
    Lit { atom, positive }
}

fn form(alloc: Global) -> Result<Form, NoMemory> {
    let terms = [
        Term { column: 0, coef: 1 },
        Term {
            column: 1,
            coef: -2,
        },
    ];
    Ok(Form {
        terms: Terms::from_vec(Vec::from_slice(alloc, &terms)?),
    })
}

fn atoms(alloc: Global) -> Result<Items<Atom>, NoMemory> {
    let column = Atom::Row {
        form: 0,
        num: 0,
        den: 1,
        strict: false,
    };
    let sum = Atom::Row {
        form: 2,
        num: -3,
        den: 2,
        strict: true,
    };
    Ok(Items::from_slice(alloc, &[column, sum, Atom::Named])?)
}

// The clauses {+0, -1}, {-2} and {}, where atom 0 is x0 <= 0, atom 1 is x0 - 2 x1 < -3/2, and atom 2 is a name.
fn problem(alloc: Global) -> Result<Clauses, NoMemory> {
    let mut forms = Items::new(alloc);
    forms.push(form(alloc)?)?;
    let mut clauses = Items::new(alloc);
    clauses.push(Lits::from_vec(Vec::from_slice(alloc, &[lit(0, true), lit(1, false)])?))?;
    clauses.push(Lits::from_vec(Vec::from_slice(alloc, &[lit(2, false)])?))?;
    clauses.push(Lits::from_vec(Vec::new(alloc)))?;
    Ok(Clauses {
        columns: 2,
        forms,
        atoms: atoms(alloc)?,
        clauses,
    })
}

const TEXT: &str = "(set-logic QF_LRA)
(declare-const x0 Real)
(declare-const x1 Real)
(declare-const a0 Bool)
(declare-const a1 Bool)
(declare-const a2 Bool)
(assert (= a0 (<= x0 0)))
(assert (= a1 (< (+ (* 1 x0) (* (- 2) x1)) (/ (- 3) 2))))
(assert (or a0 (not a1)))
(assert (not a2))
(assert false)
(check-sat)
";

#[test]
fn a_problem_is_written_whole(rt: HostRuntime) -> Result<(), Fail> {
    let alloc = rt.alloc();
    let clauses = problem(alloc).expect(&rt, "memory");
    let text = problem_text(alloc, &clauses).expect(&rt, "memory");
    assert_eq!(rt; text.as_slice(), TEXT.as_bytes());
    let counts = counts_text(alloc, &clauses).expect(&rt, "memory");
    assert_eq!(rt;
        counts.as_slice(),
        b"columns 2 forms 1 atoms 3 clauses 3\n".as_slice()
    );
    Ok(())
}

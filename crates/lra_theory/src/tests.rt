// Tests over two columns x and y, of which each row bounds one, or a sum of both.
ghost use Rattle.std.specs.Prelude.{◌≡◌, ◌≤◌, ◌↔◌, true, length, unsigned_abs, IsTrue, IfOk, OnOk};
ghost use Rattle.clause_form.specs.Formulas.{CanTake, formula_of};
ghost use Rattle.clause_form.specs.WellFormed.{IsWellFormed};
ghost use Rattle.condition_tree.specs.Trees.{EachLeaf};
ghost use Rattle.lra_theory.specs.Examples.{HasTold};
ghost use Rattle.lra_theory.specs.Standings.{seen};

use crate::{Lra, LraFault};
use clause_form::{BuildFault, Clauses, Formula, Heard, Theory, to_clauses};
use farkas_cert::{Journal, Lit, Part};
use fraction::{Frac7, Frac128, MixedFrac};
use linear_form::{Comparison, Rel, Term, Terms};
use ordered_field::OrderedField;
use sqlite_items::Items;
use std::alloc::{AllocError, Global};
use std::test::Fail;
use whole::{Budget, Op, Pair, Place, Stuck};

// `x * X + y * Y + constant` stands so to 0
#[derive(Clone, Copy, Debug)]
struct Row {
    x: i128,
    y: i128,
    constant: i128,
    rel: Rel,
}

fn compared(x: i128, y: i128, rel: Rel, than: i128) -> Row {
    Row {
        x,
        y,
        constant: than.wrapping_neg(),
        rel,
    }
}

fn is_small(n: i128) -> bool
    ensures { IsTrue result ↔ (unsigned_abs n ≤ 1000) }
{
    n.unsigned_abs() <= 1000
}

fn formula(alloc: Global, row: Row) -> Result<Formula, AllocError>
    requires x { unsigned_abs row.x ≤ 1000 }
    requires y { unsigned_abs row.y ≤ 1000 }
    requires constant { unsigned_abs row.constant ≤ 1000 }
    ensures { IfOk result (λ f. EachLeaf (CanTake 2) (formula_of f)) }
{
    let terms = [
        Term {
            column: 0,
            coef: row.x,
        },
        Term {
            column: 1,
            coef: row.y,
        },
    ];
    Ok(Formula::Cmp(Comparison {
        terms: Terms::from_vec(Vec::from_slice(alloc, &terms)?),
        constant: row.constant,
        rel: row.rel,
    }))
}

// The clauses that each row holds. The row of number k gives atom k, where the rows differ.
fn clauses(alloc: Global, rows: &[Row]) -> Result<Clauses, BuildFault>
    ensures { IfOk result IsWellFormed }
{
    let mut formulas = Vec::new(alloc);
    for row in rows {
        let row = *row;
        if !is_small(row.x) || !is_small(row.y) || !is_small(row.constant) {
            return Err(BuildFault::NoMemory);
        }
        formulas.push(formula(alloc, row)?)?;
    }
    to_clauses(alloc, 2, &formulas)
}

// The theory of these rows, which have at least as many atoms as there are signs
fn theory<F: OrderedField>(alloc: Global, rows: &[Row], signs: &[bool]) -> Result<Lra<F>, LraFault>
    ensures { IfOk result (λ t. HasTold 0 (length signs.now) (seen F.value t)) }
{
    let clauses = match clauses(alloc, rows) {
        Ok(clauses) => clauses,
        Err(_) => return Err(LraFault::NoMemory),
    };
    if clauses.atoms.len() < signs.len() {
        return Err(LraFault::NoMemory);
    }
    let theory = Lra::new(alloc, &clauses)?;
    Ok(theory)
}

// Tells the atoms 0, 1 and so on with these signs, up to the first that isn't granted
fn tell_all<F: OrderedField>(theory: &mut Lra<F>, signs: &[bool]) -> Result<(), Heard>
    requires { HasTold 0 (length signs.now) (seen F.value theory.old) }
    ensures { OnOk result (HasTold (length signs.now) (length signs.now) (seen F.value theory.new)) }
{
    for (atom, sign) in signs.iter().enumerate() {
        let lit = Lit {
            atom: atom as u32,
            positive: *sign,
        };
        match theory.tell(lit) {
            Heard::Fine => {}
            heard => return Err(heard),
        }
    }
    Ok(())
}

// Tells them, and checks
fn tell_and_check<F: OrderedField>(
    theory: &mut Lra<F>,
    signs: &[bool],
    budget: &mut Budget,
    journal: &mut Journal,
) -> Result<(), Heard>
    requires { HasTold 0 (length signs.now) (seen F.value theory.old) }
    ensures { OnOk result ((seen F.value theory.new).fine ≡ true) }
{
    tell_all(theory, signs)?;
    match theory.check(budget, journal) {
        Heard::Fine => Ok(()),
        heard => Err(heard),
    }
}

fn no_moves(alloc: Global) -> Journal {
    Journal {
        moves: Items::new(alloc),
    }
}

// What is heard, and how many pivots were charged and written, with a budget of so many
fn heard<F: OrderedField>(
    alloc: Global,
    rows: &[Row],
    signs: &[bool],
    limit: u64,
) -> Result<(Result<(), Heard>, u64, usize), LraFault> {
    let mut theory = theory::<F>(alloc, rows, signs)?;
    let mut budget = Budget::new(limit);
    let mut journal = no_moves(alloc);
    let heard = tell_and_check(&mut theory, signs, &mut budget, &mut journal);
    Ok((heard, budget.pivots, journal.moves.len()))
}

// The denominator of the values, x and y
fn found<F: OrderedField>(
    alloc: Global,
    rows: &[Row],
    signs: &[bool],
) -> Result<[i128; 3], LraFault> {
    let mut theory = theory::<F>(alloc, rows, signs)?;
    let mut budget = Budget::new(10);
    let mut journal = no_moves(alloc);
    match tell_and_check(&mut theory, signs, &mut budget, &mut journal) {
        Ok(()) => {
            let values = theory.values()?;
            match values.values.as_slice() {
                [x, y] => Ok([values.over, *x, *y]),
                _ => Err(LraFault::NoMemory),
            }
        }
        Err(Heard::Stuck(stuck)) => Err(LraFault::Stuck(stuck)),
        Err(_) => Err(LraFault::NoMemory),
    }
}

fn part(atom: u32, positive: bool, mult: i128) -> Part {
    Part {
        lit: Lit { atom, positive },
        mult,
    }
}

#[test]
fn values_meet_all_literals_told(rt: HostRuntime) -> Result<(), Fail> {
    let alloc = rt.alloc();
    // x <= 0 and x < 1
    let weaker = [
        compared(1, 0, Rel::AtMost, 0),
        compared(1, 0, Rel::Below, 1),
    ];
    let both = [true, true];
    assert_eq!(rt; found::<Frac128>(alloc, &weaker, &both), Ok([1, 0, 0]));
    // x < 2, and x + y > 1, which is that x + y <= 1 isn't so: the sum changes places with x, which comes to 1 + e and
    // meets 2 - e where e is (2 - 1) / (1 + 1). So x is 3/2.
    let strict = [compared(1, 0, Rel::Below, 2), compared(1, 1, Rel::Above, 1)];
    let signs = [true, false];
    assert_eq!(rt; found::<MixedFrac>(alloc, &strict, &signs), Ok([2, 3, 0]));
    let (answer, pivots, moves) = heard::<MixedFrac>(alloc, &strict, &signs, 10)?;
    assert!(rt; matches!(answer, Ok(())));
    assert_eq!(rt; (pivots, moves), (1, 1));
    let (answer, pivots, moves) = heard::<MixedFrac>(alloc, &strict, &signs, 0)?;
    assert!(rt; matches!(answer, Err(Heard::Spent)));
    assert_eq!(rt; (pivots, moves), (0, 0));
    Ok(())
}

#[test]
fn bounds_that_contradict_clash_at_once(rt: HostRuntime) -> Result<(), Fail> {
    // x <= 0, and x >= 1, which is that x < 1 isn't so: the lower bound comes first.
    let rows = [
        compared(1, 0, Rel::AtMost, 0),
        compared(1, 0, Rel::Below, 1),
    ];
    let parts = [part(1, false, 1), part(0, true, 1)];
    let (answer, pivots, moves) = heard::<Frac128>(rt.alloc(), &rows, &[true, false], 10)?;
    assert_eq!(rt; (pivots, moves), (0, 0));
    match answer {
        Err(Heard::Clash(found)) => assert_eq!(rt; found.as_slice(), parts.as_slice()),
        other => assert!(rt; false, "{other:?}"),
    }
    Ok(())
}

#[test]
fn the_fractions_of_a_clash_become_whole(rt: HostRuntime) -> Result<(), Fail> {
    // x <= 1/2, y <= 1/2 and s = x + 2 y >= 2, which is that s < 2 isn't so. s and x change places, and x = s - 2 y is
    // 2, which is too high. Then x and y do, and y = 1/2 s - 1/2 x is 3/4, which is too high; x may not rise, and s may
    // not fall. The bound of y counts once, those of x and s one half each. With the denominators of their atoms, which
    // are 2, 2 and 1, that is 1/2, 1/4 and 1/2, and 4 is the least number that makes all of them whole: 2, 1 and 2.
    // Indeed 2 (2 y <= 1), 2 x <= 1 and 2 (-s <= -2) sum to 0 <= -1.
    let rows = [
        compared(2, 0, Rel::AtMost, 1),
        compared(0, 2, Rel::AtMost, 1),
        compared(1, 2, Rel::AtLeast, 2),
    ];
    let parts = [part(1, true, 2), part(0, true, 1), part(2, false, 2)];
    let (answer, pivots, moves) = heard::<Frac7>(rt.alloc(), &rows, &[true, true, false], 10)?;
    assert_eq!(rt; (pivots, moves), (2, 2));
    match answer {
        Err(Heard::Clash(found)) => assert_eq!(rt; found.as_slice(), parts.as_slice()),
        other => assert!(rt; false, "{other:?}"),
    }
    Ok(())
}

#[test]
fn a_cut_takes_the_bounds_back(rt: HostRuntime) -> Result<(), Fail> {
    let alloc = rt.alloc();
    let rows = [
        compared(1, 0, Rel::AtMost, 0),
        compared(1, 0, Rel::Below, 1),
    ];
    let signs = [true, false];
    let mut theory = theory::<Frac7>(alloc, &rows, &signs)?;
    assert!(rt; matches!(tell_all(&mut theory, &signs), Err(Heard::Clash(_))));
    assert_eq!(rt; theory.mark(), 2);
    if theory.mark() > 1 {
        theory.undo(1);
        assert_eq!(rt; theory.mark(), 1);
        let mut budget = Budget::new(10);
        let mut journal = no_moves(alloc);
        assert!(rt; matches!(theory.check(&mut budget, &mut journal), Heard::Fine));
    }
    Ok(())
}

#[test]
fn a_coefficient_that_is_too_wide_is_named(rt: HostRuntime) -> Result<(), Fail> {
    // 128 is past the limit of 127.
    let stuck = Stuck {
        place: Place::Bound,
        at: 2,
        by: 0,
        op: Op::Product,
        left: Pair { num: 128, den: 1 },
        right: Pair { num: 1, den: 1 },
    };
    let rows = [compared(128, 1, Rel::AtMost, 0)];
    assert_eq!(rt;
        found::<Frac7>(rt.alloc(), &rows, &[true]),
        Err(LraFault::Stuck(stuck))
    );
    Ok(())
}

ghost use Rattle.std.specs.Prelude.{◌≡◌, length, IfOk};
ghost use Rattle.tableau.specs.Terms.{AreForms};

use crate::{Bound, Outcome, Simplex};
use fraction::{Frac7, MixedFrac};
use ordered_field::OrderedField;
use std::alloc::{AllocError, Global};
use std::test::Fail;
use tableau::{PivotFault, RowTerm};
use whole::Budget;

const X: u32 = 0;

const Y: u32 = 1;

const S: u32 = 2;

// The one form x + y
fn sum_of_two(alloc: Global) -> Result<Vec<Vec<RowTerm>>, AllocError>
    ensures forms { IfOk result (λ rows. AreForms 2 rows.items) }
    ensures one { IfOk result (λ rows. length rows.items ≡ 1) }
{
    let terms = Vec::from_slice(
        alloc,
        &[RowTerm { var: X, coef: 1 }, RowTerm { var: Y, coef: 1 }],
    )?;
    let mut rows = Vec::new(alloc);
    rows.push(terms)?;
    Ok(rows)
}

// Columns x and y, and s = x + y
fn simplex<F: OrderedField>(alloc: Global) -> Result<Simplex<F>, PivotFault> {
    let rows = sum_of_two(alloc)?;
    Simplex::new(alloc, 2, &rows)
}

// The tag and the multiplier of a share of a conflict
fn share<F: OrderedField>(outcome: &Outcome<F>, at: usize) -> Option<(u32, (i128, i128))> {
    match outcome {
        Outcome::Conflict(shares) => match shares.as_slice().get(at) {
            Some(share) => Some((share.tag, share.mult.parts())),
            None => None,
        },
        _ => None,
    }
}

// Sets a bound with a whole number, whose tag is its variable and 10 where it is an upper one
fn set<F: OrderedField>(
    simplex: &mut Simplex<F>,
    var: u32,
    upper: bool,
    num: i8,
    strict: bool,
) -> Outcome<F> {
    if var < simplex.variables() && simplex.mark() < 100 {
        let bound = Bound {
            var,
            upper,
            num: i128::from(num),
            den: 1,
            strict,
        };
        simplex.set_bound(bound, if upper { var.saturating_add(10) } else { var })
    } else {
        Outcome::NoMemory
    }
}

// The value of a variable, in its two parts
fn value<F: OrderedField>(simplex: &Simplex<F>, var: u32) -> [(i128, i128); 2] {
    if var < simplex.variables() {
        let value = simplex.value(var);
        [value.real().parts(), value.inf().parts()]
    } else {
        [(0, 0), (0, 0)]
    }
}

// The number of its lower bound, in its two parts
fn lower<F: OrderedField>(simplex: &Simplex<F>, var: u32) -> Option<[(i128, i128); 2]> {
    if var >= simplex.variables() {
        return None;
    }
    match simplex.lower(var) {
        Some(limit) => Some([limit.real().parts(), limit.inf().parts()]),
        None => None,
    }
}

fn undo<F: OrderedField>(simplex: &mut Simplex<F>, mark: u32) {
    if mark <= simplex.mark() {
        simplex.undo(mark);
    }
}

// x <= 1, y <= 1 and s >= 3 contradict each other; after the pivots of s and x, and of x and y, y is above its bound
fn conflict<F: OrderedField>(
    alloc: Global,
) -> Result<[Option<(u32, (i128, i128))>; 4], PivotFault> {
    let mut simplex = simplex::<F>(alloc)?;
    let _x = set(&mut simplex, X, true, 1, false);
    let _y = set(&mut simplex, Y, true, 1, false);
    let _s = set(&mut simplex, S, false, 3, false);
    let mut budget = Budget::new(10);
    let outcome = simplex.check(&mut budget);
    Ok([
        share(&outcome, 0),
        share(&outcome, 1),
        share(&outcome, 2),
        share(&outcome, 3),
    ])
}

#[test]
fn bounds_that_contradict_each_other_are_shares(rt: HostRuntime) -> Result<(), Fail> {
    let one = (1, 1);
    let shares = [Some((11, one)), Some((10, one)), Some((2, one)), None];
    assert_eq!(rt; conflict::<Frac7>(rt.alloc()), Ok(shares));
    assert_eq!(rt; conflict::<MixedFrac>(rt.alloc()), Ok(shares));
    Ok(())
}

#[test]
fn bounds_that_agree_are_met_and_pivots_are_charged(rt: HostRuntime) -> Result<(), Fail> {
    let mut simplex = simplex::<Frac7>(rt.alloc())?;
    assert!(rt; matches!(set(&mut simplex, X, true, 1, false), Outcome::Fine));
    assert!(rt; matches!(set(&mut simplex, Y, true, 1, false), Outcome::Fine));
    assert!(rt; matches!(set(&mut simplex, S, false, 2, false), Outcome::Fine));
    let mut budget = Budget::new(10);
    assert!(rt; matches!(simplex.check(&mut budget), Outcome::Fine));
    assert_eq!(rt; value(&simplex, X), [(1, 1), (0, 1)]);
    assert_eq!(rt; value(&simplex, Y), [(1, 1), (0, 1)]);
    assert_eq!(rt; value(&simplex, S), [(2, 1), (0, 1)]);
    assert_eq!(rt; simplex.pivots().as_slice(), [(2, 0), (0, 1)].as_slice());
    assert_eq!(rt; budget.pivots, 2);
    assert_eq!(rt; simplex.columns(), 2);
    Ok(())
}

#[test]
fn a_pivot_that_the_budget_refuses_is_not_made(rt: HostRuntime) -> Result<(), Fail> {
    let mut simplex = simplex::<MixedFrac>(rt.alloc())?;
    assert!(rt; matches!(set(&mut simplex, X, false, 0, false), Outcome::Fine));
    assert!(rt; matches!(set(&mut simplex, Y, false, 0, false), Outcome::Fine));
    assert!(rt; matches!(set(&mut simplex, S, false, 3, false), Outcome::Fine));
    let mut budget = Budget::new(0);
    assert!(rt; matches!(simplex.check(&mut budget), Outcome::Spent));
    assert_eq!(rt; simplex.pivots().len(), 0);
    assert_eq!(rt; value(&simplex, S), [(0, 1), (0, 1)]);
    Ok(())
}

#[test]
fn undo_gives_the_bounds_of_the_mark_back(rt: HostRuntime) -> Result<(), Fail> {
    let mut simplex = simplex::<Frac7>(rt.alloc())?;
    assert!(rt; matches!(set(&mut simplex, X, false, 2, false), Outcome::Fine));
    let mark = simplex.mark();
    // a strict bound moves x by an infinitesimal amount
    assert!(rt; matches!(set(&mut simplex, X, false, 5, true), Outcome::Fine));
    assert_eq!(rt; lower(&simplex, X), Some([(5, 1), (1, 1)]));
    assert_eq!(rt; value(&simplex, S), [(5, 1), (1, 1)]);
    let outcome = set(&mut simplex, X, true, 5, false);
    assert_eq!(rt; share(&outcome, 0), Some((0, (1, 1))));
    assert_eq!(rt; share(&outcome, 1), Some((10, (1, 1))));
    undo(&mut simplex, mark);
    assert_eq!(rt; simplex.mark(), 1);
    assert_eq!(rt; lower(&simplex, X), Some([(2, 1), (0, 1)]));
    assert_eq!(rt; value(&simplex, S), [(5, 1), (1, 1)]);
    undo(&mut simplex, 0);
    assert_eq!(rt; lower(&simplex, X), None);
    Ok(())
}

#[test]
fn after_a_refusal_it_is_at_rest(rt: HostRuntime) -> Result<(), Fail> {
    let mut simplex = simplex::<Frac7>(rt.alloc())?;
    let far = set(&mut simplex, X, false, 127, true);
    assert!(rt; matches!(far, Outcome::Fine));
    // s would be 127 + 127
    let stuck = set(&mut simplex, Y, false, 127, false);
    assert!(rt; matches!(stuck, Outcome::Stuck(_)));
    let mut budget = Budget::new(10);
    assert!(rt; matches!(simplex.check(&mut budget), Outcome::Stuck(_)));
    Ok(())
}

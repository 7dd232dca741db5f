ghost use Rattle.std.specs.Prelude.{◌≡◌, length, None, IfOk, OnOk};
ghost use Rattle.tableau.specs.Terms.{AreForms};

use crate::{Values, values};
use fraction::{Frac7, MixedFrac};
use ordered_field::OrderedField;
use simplex::{Bound, Outcome, Simplex};
use std::alloc::{AllocError, Global};
use std::test::Fail;
use tableau::{PivotFault, RowTerm};
use whole::{Budget, Op, Pair, Place, Stuck};

const X: u32 = 0;

const Y: u32 = 1;

const S: u32 = 2;

// The one form x + y
fn sum_of_two(alloc: Global) -> Result<Vec<Vec<RowTerm>>, AllocError>
    ensures forms { IfOk result (λ rows. AreForms 2 rows.items) }
    ensures one { IfOk result (λ rows. length rows.items ≡ 1) }
{
    let terms = Vec::from_slice(
        alloc,
        &[RowTerm { var: X, coef: 1 }, RowTerm { var: Y, coef: 1 }],
    )?;
    let mut rows = Vec::new(alloc);
    rows.push(terms)?;
    Ok(rows)
}

// Columns x and y, and s = x + y
fn simplex<F: OrderedField>(alloc: Global) -> Result<Simplex<F>, PivotFault>
    ensures { IfOk result (λ s. s.rest ≡ None) }
{
    let rows = sum_of_two(alloc)?;
    Simplex::new(alloc, 2, &rows)
}

fn above(var: u32, num: i128) -> Bound {
    Bound {
        var,
        upper: false,
        num,
        den: 1,
        strict: true,
    }
}

fn below(var: u32, num: i128) -> Bound {
    Bound {
        var,
        upper: true,
        num,
        den: 1,
        strict: true,
    }
}

fn at_least(var: u32, num: i128, den: i128) -> Bound {
    Bound {
        var,
        upper: false,
        num,
        den,
        strict: false,
    }
}

// Puts a bound in force that has small numbers
#[tactic(auto, using(crate::proofs::TestLaws::set_works))]
fn set<F: OrderedField>(simplex: &mut Simplex<F>, bound: Bound) -> Result<(), PivotFault>
    requires { simplex.old.rest ≡ None }
    ensures { OnOk result (simplex.new.rest ≡ None) }
{
    if bound.var >= simplex.variables() || simplex.mark() >= 10 {
        return Err(PivotFault::NoMemory);
    }
    if bound.num.unsigned_abs() > 1000 || bound.den < 1 {
        return Err(PivotFault::NoMemory);
    }
    match simplex.set_bound(bound, 0) {
        Outcome::Fine => Ok(()),
        Outcome::Stuck(stuck) => Err(PivotFault::Stuck(stuck)),
        _ => Err(PivotFault::NoMemory),
    }
}

// The values at the corner that meets these bounds
fn values_under<F: OrderedField>(alloc: Global, bounds: &[Bound]) -> Result<Values, PivotFault> {
    let mut simplex = simplex::<F>(alloc)?;
    for bound in bounds {
        set(&mut simplex, *bound)?;
    }
    let mut budget = Budget::new(10);
    match simplex.check(&mut budget) {
        Outcome::Fine => values(alloc, &simplex),
        Outcome::Stuck(stuck) => Err(PivotFault::Stuck(stuck)),
        _ => Err(PivotFault::NoMemory),
    }
}

// Their denominator, x and y
fn found<F: OrderedField>(alloc: Global, bounds: &[Bound]) -> Result<[i128; 3], PivotFault> {
    let values = values_under::<F>(alloc, bounds)?;
    match values.values.as_slice() {
        [x, y] => Ok([values.over, *x, *y]),
        _ => Err(PivotFault::NoMemory),
    }
}

#[test]
fn a_strict_bound_is_kept_by_half_the_way(rt: HostRuntime) -> Result<(), Fail> {
    let alloc = rt.alloc();
    // 0 < x < 1: x stands at 0 + e and meets 1 - e where e is (1 - 0) / (1 + 1), so x is 1/2.
    let between = [above(X, 0), below(X, 1)];
    assert_eq!(rt; found::<Frac7>(alloc, &between), Ok([2, 1, 0]));
    assert_eq!(rt; found::<MixedFrac>(alloc, &between), Ok([2, 1, 0]));
    // x < 0 and then x > -1: x stands at 0 - e and meets -1 + e where e is (0 + 1) / (1 + 1), so x is -1/2.
    let negative = [below(X, 0), above(X, -1)];
    assert_eq!(rt; found::<Frac7>(alloc, &negative), Ok([2, -1, 0]));
    // x > 0 alone: no limit is met, so e is 1.
    assert_eq!(rt; found::<Frac7>(alloc, &[above(X, 0)]), Ok([1, 1, 0]));
    Ok(())
}

#[test]
fn a_strict_bound_of_a_sum_is_met_by_a_pivot(rt: HostRuntime) -> Result<(), Fail> {
    // x < 2, and then s = x + y > 1: s changes places with x, so s stands at 1 + e and x = s - y is 1 + e, which meets
    // 2 - e where e is (2 - 1) / (1 + 1). So x is 3/2.
    let bounds = [below(X, 2), above(S, 1)];
    assert_eq!(rt; found::<Frac7>(rt.alloc(), &bounds), Ok([2, 3, 0]));
    Ok(())
}

#[test]
fn values_stand_over_their_least_common_denominator(rt: HostRuntime) -> Result<(), Fail> {
    // 1/4 and 1/6 are 3/12 and 2/12.
    let bounds = [at_least(X, 1, 4), at_least(Y, 1, 6)];
    assert_eq!(rt; found::<Frac7>(rt.alloc(), &bounds), Ok([12, 3, 2]));
    Ok(())
}

#[test]
fn a_difference_that_is_too_wide_is_named(rt: HostRuntime) -> Result<(), Fail> {
    // x and so s stand at 100, and the limit -100 + e of s is met where e is (100 + 100) / (1 - 0).
    let hundred = Pair { num: 100, den: 1 };
    let stuck = Stuck {
        place: Place::Epsilon,
        at: S,
        by: 0,
        op: Op::Sum,
        left: hundred,
        right: hundred,
    };
    let bounds = [at_least(X, 100, 1), above(S, -100)];
    assert_eq!(rt;
        found::<Frac7>(rt.alloc(), &bounds),
        Err(PivotFault::Stuck(stuck))
    );
    Ok(())
}

//! The smallest ordered field, of -1, 0 and 1: the trait's contracts can be met, and generic calls answer.

ghost use Rattle.std.specs.Prelude.{◌≡◌, ℕ, IfOk, pos, negsuc, ◌≤◌, unsigned_abs, ◌+ℤ◌, ◌*ℤ◌, neg_ℤ};
ghost use Rattle.std.proofs.Common.{lit<, lit≤};
ghost use Rattle.ordered_field.specs.Rational.{whole};
ghost use Rattle.field_rows.specs.Rows.{coefficient, IsRow};
ghost use Rattle.ordered_field.proofs.WholeNumbers.{over_one, whole-lowest, whole-equal, whole-below};

use crate::{Entry, Operation, coefficient, inverse, product, product_sum, put, solve, substitute};
use ordered_field::{Delta, OrderedField, Wide, compare, one, zero};
use std::alloc::{AllocError, Global};
use std::cmp::Ordering;
use std::test::Fail;

#[derive(Clone, Copy, PartialEq, Eq, PartialOrd, Ord, Debug)]
struct Unit {
    n: i128,
    ghost small: { unsigned_abs n ≤ 1 },
}

fn sum_of(a: Unit, b: Unit) -> i128
    ensures { result ≡ a.n +ℤ b.n }
{
    a.n + b.n
}

fn product_of(a: Unit, b: Unit) -> i128
    ensures { result ≡ a.n *ℤ b.n }
{
    a.n * b.n
}

fn opposite(a: Unit) -> i128
    ensures { result ≡ neg_ℤ a.n }
{
    -a.n
}

fn narrowed(a: Unit) -> i32
    ensures { result ≡ a.n }
{
    a.n as i32
}

impl OrderedField for Unit {
    const LIMIT: u128 = 1;

    ghost LIMIT = { 1 };

    ghost pair = { λ x. over_one x.n };

    ghost value = { λ x. whole x.n };

    fn from_whole(n: i128) -> Result<Self, Wide> {
        match n {
            -1..=1 => Ok(Unit { n }),
            _ => Err(Wide),
        }
    }

    fn neg(self) -> Self {
        Unit { n: opposite(self) }
    }

    fn add(self, other: Self) -> Result<Self, Wide> {
        Unit::from_whole(sum_of(self, other))
    }

    fn mul(self, other: Self) -> Result<Self, Wide> {
        Unit::from_whole(product_of(self, other))
    }

    fn div(self, other: Self) -> Result<Self, Wide> {
        Unit::from_whole(product_of(self, other))
    }

    fn sign(self) -> i32 {
        narrowed(self)
    }

    fn parts(self) -> (i128, i128) {
        (self.n, 1)
    }

    ghost meaning = { λ x. whole-lowest x.n };

    ghost within = { λ x. record { num = x.small; den = lit≤ tt } };

    ghost limits = { (lit≤ tt, lit< tt) };

    ghost equal = { λ x y. whole-equal x.n y.n };

    ghost ordered = { λ x y. whole-below x.n y.n };
}

#[test]
fn numbers_of_a_field(rt: HostRuntime) {
    let (zero, one) = (zero::<Unit>(), one::<Unit>());
    let minus = one.neg();
    assert_eq!(rt; one.add(minus), Ok(zero));
    assert_eq!(rt; one.add(one), Err(Wide));
    assert_eq!(rt; minus.mul(minus), Ok(one));
    assert_eq!(rt; one.div(minus), Ok(minus));
    assert_eq!(rt; minus.fma(minus, minus), Ok(zero));
    assert_eq!(rt; one.fma(minus, minus), Err(Wide));
    assert_eq!(rt; Unit::from_whole(2), Err(Wide));
    assert_eq!(rt; (minus.sign(), minus.parts()), (-1, (-1, 1)));
    assert_eq!(rt; compare(minus, zero), Ordering::Less);
}

#[test]
fn numbers_with_an_infinitesimal(rt: HostRuntime) {
    let (zero, one) = (zero::<Unit>(), one::<Unit>());
    let minus = one.neg();
    let above_zero = Delta::new(zero, one);
    let below_one = Delta::new(one, minus);
    assert_eq!(rt; above_zero.compare(below_one), Ordering::Less);
    assert_eq!(rt; below_one.compare(Delta::new(one, zero)), Ordering::Less);
    assert_eq!(rt; above_zero.add(below_one), Ok(Delta::new(one, zero)));
    assert_eq!(rt; below_one.add(Delta::new(zero, minus)), Err(Wide));
    assert_eq!(rt; below_one.scale(minus), Ok(Delta::new(minus, one)));
    assert_eq!(rt; below_one.at(one), Ok(zero));
    assert_eq!(rt; Delta::new(one, one).at(one), Err(Wide));
    assert_eq!(rt; (below_one.real(), below_one.inf()), (one, minus));
}

#[test]
fn operations(rt: HostRuntime) {
    let one = one::<Unit>();
    let minus = one.neg();
    assert_eq!(rt; product_sum(one, one, one), Err(Operation::Sum(one, one)));
    assert_eq!(rt; product(one, minus), Ok(minus));
    assert_eq!(rt; inverse(minus), minus);
}

/// The row of one variable alone.
fn alone(alloc: Global, variable: u32) -> Result<Vec<Entry<Unit>>, AllocError>
    ensures row { IfOk result (λ row. IsRow ⟦<Unit as OrderedField>⟧.value row.items) }
{
    let mut row = Vec::new(alloc);
    put(alloc, &[], variable, one::<Unit>(), &mut row)?;
    Ok(row)
}

/// The row `x0 - x1`.
fn difference(alloc: Global) -> Result<Vec<Entry<Unit>>, AllocError>
    ensures row { IfOk result (λ row. IsRow ⟦<Unit as OrderedField>⟧.value row.items) }
    ensures second { IfOk result (λ row. coefficient ⟦<Unit as OrderedField>⟧.value row.items 1 ≡ whole (negsuc 0)) }
    ensures third { IfOk result (λ row. coefficient ⟦<Unit as OrderedField>⟧.value row.items 2 ≡ whole (pos 0)) }
{
    let one = one::<Unit>();
    let mut second = Vec::new(alloc);
    put(alloc, &[], 1, one.neg(), &mut second)?;
    let mut both = Vec::new(alloc);
    put(alloc, second.as_slice(), 0, one, &mut both)?;
    Ok(both)
}

#[test]
fn rows(rt: HostRuntime) -> Result<(), Fail> {
    let alloc = rt.alloc();
    let one = one::<Unit>();
    let row = difference(alloc)?;
    assert_eq!(rt; coefficient(row.as_slice(), 1), one.neg());
    // x2 = x0 - x1 is x1 = x0 - x2.
    let mut solved = Vec::new(alloc);
    match solve(alloc, 2, row.as_slice(), 1, &mut solved) {
        Ok(()) => {}
        Err(_) => return Err(Fail::from("the row wasn't solved")),
    }
    assert_eq!(rt; solved.len(), 2);
    assert_eq!(rt; (solved[0].variable, solved[0].number), (0, one));
    assert_eq!(rt; (solved[1].variable, solved[1].number), (2, one.neg()));
    // With it the row x1 is x0 - x2.
    let other = alone(alloc, 1)?;
    let mut followed = Vec::new(alloc);
    assert!(rt; substitute(other.as_slice(), 1, solved.as_slice(), &mut followed).is_ok());
    assert_eq!(rt; followed.as_slice(), solved.as_slice());
    Ok(())
}

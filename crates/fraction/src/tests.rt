ghost use Rattle.std.specs.Prelude.{◌≡◌, pos};
ghost use Rattle.ordered_field.specs.Rational.{whole};

use crate::{Frac, Frac7, Frac128, Limit, MixedFrac};
use ordered_field::{Delta, OrderedField, Wide};
use std::test::Fail;

// `n / d`, for small numbers
fn ratio<L: Limit>(n: i8, d: u8) -> Result<Frac<L>, Wide> {
    Frac::new(i128::from(n), i128::from(d.max(1)))
}

fn small(n: i8, d: u8) -> Result<Frac7, Wide> {
    ratio(n, d)
}

// The parts of a sum, of a product, of a quotient and of a product-sum, through the bound alone
fn all_four<F: OrderedField>(a: F, b: F) -> Result<[(i128, i128); 4], Wide>
    requires { ¬ (F.value b ≡ whole (pos 0)) }
{
    Ok([
        a.add(b)?.parts(),
        a.mul(b)?.parts(),
        a.div(b)?.parts(),
        a.fma(b, b)?.parts(),
    ])
}

#[test]
fn new_is_in_lowest_terms_and_within_the_limit(rt: HostRuntime) -> Result<(), Fail> {
    assert_eq!(rt; Frac7::new(-4, 6)?.parts(), (-2, 3));
    assert_eq!(rt; Frac7::new(0, 5)?.parts(), (0, 1));
    assert_eq!(rt; Frac7::new(254, 2)?.parts(), (127, 1));
    assert_eq!(rt; Frac7::new(256, 2), Err(Wide));
    assert_eq!(rt; Frac7::new(1, 128), Err(Wide));
    assert_eq!(rt; Frac128::new(-i128::MAX, i128::MAX)?.parts(), (-1, 1));
    Ok(())
}

#[test]
fn whole_numbers_are_kept_up_to_the_limit(rt: HostRuntime) -> Result<(), Fail> {
    assert_eq!(rt; Frac7::from_whole(-127)?.parts(), (-127, 1));
    assert_eq!(rt; Frac7::from_whole(128), Err(Wide));
    assert_eq!(rt; Frac128::from_whole(i128::MIN), Err(Wide));
    assert_eq!(rt;
        Frac128::from_whole(i128::MAX)?.neg().parts(),
        (-i128::MAX, 1)
    );
    Ok(())
}

#[test]
fn a_sum_is_formed_over_the_least_common_denominator(rt: HostRuntime) -> Result<(), Fail> {
    assert_eq!(rt; small(1, 12)?.add(small(1, 20)?)?.parts(), (2, 15));
    assert_eq!(rt; small(100, 1)?.add(small(27, 1)?)?.parts(), (127, 1));
    assert_eq!(rt; small(100, 1)?.add(small(28, 1)?), Err(Wide));
    // 960 / 56 - 833 / 56 would be 127 / 56
    assert_eq!(rt; small(120, 7)?.add(small(-119, 8)?), Err(Wide));
    assert_eq!(rt; small(1, 127)?.add(small(1, 126)?), Err(Wide));
    assert_eq!(rt; small(1, 126)?.add(small(1, 63)?)?.parts(), (1, 42));
    Ok(())
}

#[test]
fn a_product_is_refused_in_lowest_terms_alone(rt: HostRuntime) -> Result<(), Fail> {
    assert_eq!(rt; small(127, 1)?.mul(small(1, 127)?)?.parts(), (1, 1));
    assert_eq!(rt; small(127, 1)?.mul(small(2, 1)?), Err(Wide));
    assert_eq!(rt; small(100, 63)?.mul(small(-63, 100)?)?.parts(), (-1, 1));
    assert_eq!(rt; small(1, 16)?.mul(small(1, 8)?), Err(Wide));
    Ok(())
}

#[test]
fn fractions_are_ordered_by_their_cross_products(rt: HostRuntime) -> Result<(), Fail> {
    assert!(rt; small(1, 3)? < small(1, 2)?);
    assert!(rt; small(-1, 2)? < small(-1, 3)?);
    assert!(rt; small(-1, 2)? < small(1, 127)?);
    assert!(rt; small(0, 9)? == small(0, 4)?);
    // 1 + 1 / (2^127 - 2) and 1 + 1 / (2^127 - 3): the cross products have 254 bits
    let left = Frac128::new(i128::MAX, i128::MAX - 1)?;
    let right = Frac128::new(i128::MAX - 1, i128::MAX - 2)?;
    assert!(rt; left < right);
    assert!(rt; right.neg() < left.neg());
    assert_eq!(rt; small(-3, 7)?.sign(), -1);
    assert_eq!(rt; small(0, 7)?.sign(), 0);
    assert_eq!(rt; small(3, 7)?.sign(), 1);
    Ok(())
}

#[test]
fn the_field_is_reached_through_its_bound(rt: HostRuntime) -> Result<(), Fail> {
    let want = [(-1, 4), (-3, 8), (-2, 3), (17, 16)];
    let (half, other) = (small(1, 2)?, small(-3, 4)?);
    if other.sign() != 0 {
        assert_eq!(rt; all_four(half, other)?, want);
    }
    let (half, other): (Frac128, Frac128) = (ratio(1, 2)?, ratio(-3, 4)?);
    if other.sign() != 0 {
        assert_eq!(rt; all_four(half, other)?, want);
    }
    let (half, other) = (MixedFrac::new(1, 2)?, MixedFrac::new(-3, 4)?);
    if other.sign() != 0 {
        assert_eq!(rt; all_four(half, other)?, want);
    }
    Ok(())
}

#[test]
fn an_infinitesimal_is_put_in(rt: HostRuntime) -> Result<(), Fail> {
    let one = small(1, 1)?;
    assert_eq!(rt; Delta::new(one, one).at(small(1, 2)?)?.parts(), (3, 2));
    Ok(())
}

// `n / d`, through the bound alone; `Wide` for a denominator of 0
fn quotient<F: OrderedField>(n: i128, d: i128) -> Result<F, Wide> {
    let (top, bottom) = (F::from_whole(n)?, F::from_whole(d)?);
    if bottom.sign() == 0 {
        return Err(Wide);
    }
    top.div(bottom)
}

fn sum<F: OrderedField>(a: (i128, i128), b: (i128, i128)) -> Result<(i128, i128), Wide> {
    Ok(quotient::<F>(a.0, a.1)?.add(quotient(b.0, b.1)?)?.parts())
}

fn product<F: OrderedField>(a: (i128, i128), b: (i128, i128)) -> Result<(i128, i128), Wide> {
    Ok(quotient::<F>(a.0, a.1)?.mul(quotient(b.0, b.1)?)?.parts())
}

// The sum in 128 bits, and that in 64 bits while they fit
fn sums(a: (i128, i128), b: (i128, i128)) -> [Result<(i128, i128), Wide>; 2] {
    [sum::<Frac128>(a, b), sum::<MixedFrac>(a, b)]
}

fn products(a: (i128, i128), b: (i128, i128)) -> [Result<(i128, i128), Wide>; 2] {
    [product::<Frac128>(a, b), product::<MixedFrac>(a, b)]
}

#[test]
fn sums_are_the_same_where_64_bits_end(rt: HostRuntime) {
    let p: i128 = 1 << 63;
    assert_eq!(rt; sums((p - 1, 1), (1, 1)), [Ok((p, 1)); 2]);
    assert_eq!(rt; sums((-p, 1), (1, 1)), [Ok((1 - p, 1)); 2]);
    assert_eq!(rt; sums((1, p), (1, p)), [Ok((1, 1 << 62)); 2]);
    assert_eq!(rt;
        sums((1, p), (1, p + 1)),
        [Ok(((1 << 64) + 1, (1 << 126) + p)); 2]
    );
    assert_eq!(rt; sums((1, 1 << 64), (1, (1 << 64) - 1)), [Err(Wide); 2]);
}

#[test]
fn products_are_the_same_where_64_bits_end(rt: HostRuntime) {
    assert_eq!(rt; products((1 << 40, 1), (3, 1)), [Ok((3 << 40, 1)); 2]);
    assert_eq!(rt;
        products((-1 << 32, 1), (1 << 31, 1)),
        [Ok((-1 << 63, 1)); 2]
    );
    assert_eq!(rt; products((1 << 126, 1), (2, 1)), [Err(Wide); 2]);
    assert_eq!(rt; products((i128::MAX, 1), (1, i128::MAX)), [Ok((1, 1)); 2]);
}

#[test]
fn numbers_of_two_widths_are_compared(rt: HostRuntime) -> Result<(), Fail> {
    let p: i128 = 1 << 63;
    let (short, long) = (MixedFrac::new(p - 1, 1)?, MixedFrac::new(p, 1)?);
    assert!(rt; short < long);
    assert!(rt; long.neg() < short.neg());
    assert!(rt; MixedFrac::new(1, p)? < MixedFrac::new(1, p - 1)?);
    assert!(rt; MixedFrac::new(2, 3)? < MixedFrac::new(3, 4)?);
    assert!(rt; MixedFrac::new(2 * p, 2)? == long);
    assert!(rt; short != long);
    assert_eq!(rt; long.neg().sign(), -1);
    assert_eq!(rt; MixedFrac::new(0, 9)?.sign(), 0);
    assert_eq!(rt;
        MixedFrac::new(i128::MAX, 2)?.neg().parts(),
        (-i128::MAX, 2)
    );
    assert_eq!(rt; MixedFrac::from_whole(i128::MIN), Err(Wide));
    Ok(())
}

// The order of two fractions, found by quotients and remainders.
ghost use Rattle.std.specs.Prelude.{◌≡◌, ◌*◌, ◌<◌, pos, ◌*ℤ◌, ◌≤ℤ◌};
ghost use Rattle.std.specs.Ordering.{nat_cmp, int_cmp};

use std::cmp::Ordering;

// The numbers below it have products that fit.
const SHORT: u128 = 1 << 64;

// How `m / b` compares with `n / d`: by their signs, then by their sizes.
pub fn compare_fractions(m: i128, b: i128, n: i128, d: i128) -> Ordering
    requires left { pos 1 ≤ℤ b }
    requires right { pos 1 ≤ℤ d }
    ensures { result ≡ int_cmp (m *ℤ d) (n *ℤ b) }
{
    if b == d {
        return m.cmp(&n);
    }
    let (left, right) = (m.unsigned_abs(), n.unsigned_abs());
    let (left_den, right_den) = (b.unsigned_abs(), d.unsigned_abs());
    match (m < 0, n < 0) {
        (false, false) => compare_ratios(left, left_den, right, right_den),
        (true, true) => compare_ratios(right, right_den, left, left_den),
        (true, false) => Ordering::Less,
        (false, true) => Ordering::Greater,
    }
}

// How `a / b` compares with `c / d`: as their whole parts do, and where these agree, as the inverses
// of what is left of each do the other way round. So it goes down both continued fractions at once,
// in at most 185 steps, and forms no product that may not fit.
//
// By Knuth, The Art of Computer Programming, volume 2, section 4.5.3.
fn compare_ratios(a: u128, b: u128, c: u128, d: u128) -> Ordering
    requires left { 0 < b }
    requires right { 0 < d }
    ensures { result ≡ nat_cmp (a * d) (c * b) }
{
    if a < SHORT && b < SHORT && c < SHORT && d < SHORT {
        return (a * d).cmp(&(c * b));
    }
    let left = a % b;
    let right = c % d;
    match (a / b).cmp(&(c / d)) {
        Ordering::Equal if left == 0 || right == 0 => left.cmp(&right),
        Ordering::Equal => compare_ratios(d, right, b, left),
        whole => whole,
    }
}

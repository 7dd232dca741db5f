// The greatest common divisor, the least common multiple and the product-sum, each exact or refused.
ghost use Rattle.std.specs.Prelude.{◌≡◌, ◌<◌, ◌≤ℤ◌, ◌+ℤ◌, ◌*ℤ◌, pos, unsigned_abs, IfSome, ℕ};
ghost use Rattle.std.specs.Int.{IsGcd};
ghost use Rattle.whole.specs.Numbers.{IsWithin, whole, fma, IsLcm, gcd_of, lcm_of};

/// The greatest common divisor of the sizes of `a` and `b`, at least 0; that of 0 and 0 is 0.
///
/// By Euclid's algorithm (Elements, book VII, proposition 2).
#[tactic(auto, using(crate::proofs::Overflow::signed, crate::proofs::Divisors::divisors))]
pub fn gcd(a: i128, b: i128) -> i128
    requires first { IsWithin a }
    requires second { IsWithin b }
    ensures exact { result ≡ pos (gcd_of (unsigned_abs a) (unsigned_abs b)) }
    ensures greatest { IsGcd (unsigned_abs a) (unsigned_abs b) (unsigned_abs result) }
    ensures within { IsWithin result }
{
    gcd_of_sizes(a.unsigned_abs(), b.unsigned_abs()) as i128
}

/// The least common multiple of `a` and `b`, both at least 1.
///
/// None exactly where it exceeds `2^127 - 1`, whatever the size of `a * b`.
#[tactic(auto, using(crate::proofs::Overflow::signed, crate::proofs::Divisors::divisors))]
pub fn lcm(a: i128, b: i128) -> Option<i128>
    requires first { pos 1 ≤ℤ a }
    requires second { pos 1 ≤ℤ b }
    ensures exact { result ≡ whole (pos (lcm_of (unsigned_abs a) (unsigned_abs b))) }
    ensures least { (m : ℕ) → IsLcm (unsigned_abs a) (unsigned_abs b) m → result ≡ whole (pos m) }
{
    let left = a.unsigned_abs();
    let right = b.unsigned_abs();
    let parts = left / gcd_of_sizes(left, right);
    match parts.checked_mul(right) {
        Some(size) => signed(size),
        None => None,
    }
}

/// `acc + k * y`.
///
/// None exactly where the size of the product or of the sum exceeds `2^127 - 1`.
#[tactic(auto, using(crate::proofs::Overflow::fma_of_sum, crate::proofs::Overflow::signed))]
pub fn checked_fma(acc: i128, k: i128, y: i128) -> Option<i128>
    requires start { IsWithin acc }
    requires factor { IsWithin k }
    requires entry { IsWithin y }
    ensures exact { result ≡ fma acc k y }
{
    sum(acc, product(k, y)?)
}

fn gcd_of_sizes(a: u128, b: u128) -> u128
    ensures { result ≡ gcd_of a b }
{
    let mut x = a;
    let mut y = b;
    while y != 0 {
        let rest = x % y;
        x = y;
        y = rest;
    }
    x
}

fn signed(size: u128) -> Option<i128>
    ensures { result ≡ whole (pos size) }
{
    if size <= i128::MAX as u128 {
        Some(size as i128)
    } else {
        None
    }
}

#[tactic(auto, using(crate::proofs::Overflow::whole_unfit, crate::proofs::Overflow::signed))]
fn product(k: i128, y: i128) -> Option<i128>
    ensures { result ≡ whole (k *ℤ y) }
{
    kept(k.checked_mul(y)?)
}

#[tactic(auto, using(crate::proofs::Overflow::whole_unfit, crate::proofs::Overflow::signed))]
fn sum(a: i128, b: i128) -> Option<i128>
    ensures { result ≡ whole (a +ℤ b) }
{
    kept(a.checked_add(b)?)
}

// The number itself, but for `i128::MIN`, whose size overflows.
fn kept(z: i128) -> Option<i128>
    ensures { result ≡ whole z }
{
    if z == i128::MIN { None } else { Some(z) }
}

#[cfg(test)]
mod tests {
    use super::{checked_fma, gcd, lcm};

    const LARGEST: i128 = i128::MAX;

    #[test]
    fn gcd_is_never_negative(rt: HostRuntime) {
        assert_eq!(rt; gcd(-12, 18), 6);
        assert_eq!(rt; gcd(0, -7), 7);
        assert_eq!(rt; gcd(0, 0), 0);
        assert_eq!(rt; gcd(-LARGEST, LARGEST), LARGEST);
    }

    #[test]
    fn lcm_is_refused_only_where_it_overflows(rt: HostRuntime) {
        assert_eq!(rt; lcm(4, 6), Some(12));
        assert_eq!(rt; lcm(LARGEST, LARGEST), Some(LARGEST));
        assert_eq!(rt; lcm(LARGEST, 2), None);
        // 2^126 and 2^126 - 2^63 have the common divisor 2^63: the multiple is 2^126 * (2^63 - 1)
        assert_eq!(rt; lcm(1 << 126, (1 << 126) - (1 << 63)), None);
        assert_eq!(rt; lcm(1 << 126, 1 << 125), Some(1 << 126));
    }

    #[test]
    fn product_and_sum_are_each_tested(rt: HostRuntime) {
        assert_eq!(rt; checked_fma(1, 2, -3), Some(-5));
        assert_eq!(rt; checked_fma(LARGEST, 1, 0), Some(LARGEST));
        assert_eq!(rt; checked_fma(LARGEST, 1, 1), None);
        assert_eq!(rt; checked_fma(-LARGEST, 1, -1), None);
        assert_eq!(rt; checked_fma(-LARGEST, 2, 1 << 126), None);
        assert_eq!(rt; checked_fma(-1, 1 << 126, 2), None);
    }
}

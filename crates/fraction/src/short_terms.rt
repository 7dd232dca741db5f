// Fractions of 64-bit parts, brought to lowest terms by 64-bit divisions.
ghost use Rattle.std.specs.Prelude.{◌≡◌, pos, ◌*ℤ◌, ◌≤ℤ◌, unsigned_abs};
ghost use Rattle.std.specs.Int.{IsGcd, ◌∣◌};
ghost use Rattle.whole.specs.Numbers.{gcd_of};
ghost use Rattle.fraction.specs.Reduction.{IsReduction};

use lowest_terms::Reduced;

// One denominator over another, in lowest terms.
pub fn short_denominators(b: i64, d: i64) -> Reduced
    requires left { pos 1 ≤ℤ b }
    requires right { pos 1 ≤ℤ d }
    ensures { IsReduction result b d }
{
    if b == d {
        widened(b, 1, 1)
    } else {
        reduce_short(b, d)
    }
}

// `num / den` in lowest terms.
pub fn reduce_short(num: i64, den: i64) -> Reduced
    requires { pos 1 ≤ℤ den }
    ensures { IsReduction result num den }
{
    let common = common_divisor(num, den);
    let num = quotient(num, common);
    let den = quotient(den, common);
    widened(common, num, den)
}

fn widened(common: i64, num: i64, den: i64) -> Reduced
    ensures common { result.common ≡ common }
    ensures num { result.num ≡ num }
    ensures den { result.den ≡ den }
{
    Reduced {
        common: i128::from(common),
        num: i128::from(num),
        den: i128::from(den),
    }
}

// The greatest common divisor, at once where one of the two is 1.
#[tactic(auto, using(whole::proofs::Overflow::signed))]
fn common_divisor(num: i64, den: i64) -> i64
    requires { pos 1 ≤ℤ den }
    ensures greatest { IsGcd (unsigned_abs num) (unsigned_abs den) (unsigned_abs result) }
    ensures positive { pos 1 ≤ℤ result }
{
    if num == 1 || den == 1 {
        return 1;
    }
    divisor_of_sizes(num.unsigned_abs(), den.unsigned_abs()) as i64
}

// By Euclid (Elements, book VII, proposition 2).
fn divisor_of_sizes(a: u64, b: u64) -> u64
    ensures { result ≡ gcd_of a b }
{
    let mut x = a;
    let mut y = b;
    while y != 0 {
        let rest = x % y;
        x = y;
        y = rest;
    }
    x
}

// What is left of `n` over one of its divisors.
#[tactic(auto, using(whole::proofs::Overflow::signed))]
fn quotient(n: i64, divisor: i64) -> i64
    requires positive { pos 1 ≤ℤ divisor }
    requires divides { unsigned_abs divisor ∣ unsigned_abs n }
    ensures { result *ℤ divisor ≡ n }
{
    if divisor == 1 {
        return n;
    }
    n / divisor
}

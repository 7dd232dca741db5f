// Whole numbers, their sums and their products, each refused where it exceeds the limit.
ghost use Rattle.std.specs.Prelude.{◌≡◌, ◌≤◌, ◌<◌, ◌+ℤ◌, ◌*ℤ◌, unsigned_abs, IfOk, OnOk, OnErr, SomeIff, FitsSigned};
ghost use Rattle.std.specs.Int.{w128};

use crate::limit::Limit;
use ordered_field::Wide;

// The size of a number that is short, so that a product of two such numbers fits.
const SHORT: u128 = 1 << 63;

pub fn bounded<L: Limit>(z: i128) -> Result<i128, Wide>
    ensures exact { IfOk result (λ kept. kept ≡ z) }
    ensures kept { OnOk result (unsigned_abs z ≤ L.LIMIT) }
    ensures wide { OnErr result (L.LIMIT < unsigned_abs z) }
{
    if z.unsigned_abs() <= L::LIMIT {
        Ok(z)
    } else {
        Err(Wide)
    }
}

pub fn bounded_sum<L: Limit>(a: i128, b: i128) -> Result<i128, Wide>
    ensures exact { IfOk result (λ kept. kept ≡ a +ℤ b) }
    ensures kept { OnOk result (unsigned_abs (a +ℤ b) ≤ L.LIMIT) }
    ensures wide { OnErr result (L.LIMIT < unsigned_abs (a +ℤ b)) }
{
    match a.checked_add(b) {
        Some(sum) => bounded::<L>(sum),
        None => Err(Wide),
    }
}

pub fn bounded_product<L: Limit>(a: i128, b: i128) -> Result<i128, Wide>
    ensures exact { IfOk result (λ kept. kept ≡ a *ℤ b) }
    ensures kept { OnOk result (unsigned_abs (a *ℤ b) ≤ L.LIMIT) }
    ensures wide { OnErr result (L.LIMIT < unsigned_abs (a *ℤ b)) }
{
    match product(a, b) {
        Some(product) => bounded::<L>(product),
        None => Err(Wide),
    }
}

// The product where it fits; that of two short numbers does, and isn't tested.
#[tactic(auto, using(whole::proofs::Overflow::signed))]
fn product(a: i128, b: i128) -> Option<i128>
    ensures { SomeIff result (FitsSigned w128 (a *ℤ b)) (a *ℤ b) }
{
    if a.unsigned_abs() < SHORT && b.unsigned_abs() < SHORT {
        return Some(a * b);
    }
    a.checked_mul(b)
}

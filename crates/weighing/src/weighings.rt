ghost use Rattle.std.specs.Prelude.{◌≡◌, ℤ, Bool, Ok, Err};
ghost use Rattle.whole.specs.Numbers.{IsWithin, fma};
ghost use Rattle.whole.specs.declared.answers.Stuck.{Stuck};
ghost use Rattle.condition_tree.specs.Trees.{Says};
ghost use Rattle.weighing.specs.Overflow.{Sums};
ghost use Rattle.weighing.specs.Weighed.{EachWithin, Stands, added, more, related, start, stuck_at, weighed_from};

use std::marker::Model;
use whole::{Op, Pair, Place, Stuck, checked_fma};

/// How the two sides of a comparison stand, or a sum to zero.
#[derive(Clone, Copy, Debug, PartialEq, Eq)]
pub enum Rel5 {
    AtMost,
    Below,
    AtLeast,
    Above,
    Equal,
}

/// A term of a comparison: a coefficient and the entry that it is taken of.
#[derive(Clone, Copy, Debug, PartialEq, Eq)]
pub struct Summand(pub i128, pub i128);

/// A comparison's running sum, or the operation at which it overflowed `2^127 - 1`.
#[derive(Clone, Copy, Debug)]
pub struct Weighing {
    row: u32,
    sum: Result<i128, Stuck>,
}

impl Model for Weighing {
    ghost use Rattle.std.specs.Result.{ForOk};
    ghost use Rattle.whole.specs.Numbers.{IsWithin, fma};
    ghost use Rattle.weighing.specs.Weight.{Weight};

    ghost Value = { Weight };

    ghost view = { λ w. record { row = w.row; sum = w.sum } };

    ghost invariant = { λ w. ForOk w.sum IsWithin };

    ghost inverse = { λ v. record { row = v.row; sum = v.sum } };
}

impl Weighing {
    /// The empty sum, on the row whose number names it.
    pub fn new(row: u32) -> Weighing
        ensures { result ≡ start row }
    {
        Weighing { row, sum: Ok(0) }
    }

    /// The sum with one more term, `coefficient * entry`. A weighing that is stuck stays as it is.
    pub fn plus(self, coefficient: i128, entry: i128) -> Weighing
        requires coefficient_in { IsWithin coefficient }
        requires entry_in { IsWithin entry }
        ensures { result ≡ added self coefficient entry }
    {
        let Ok(sum) = self.sum else {
            return self;
        };
        let sum = match checked_fma(sum, coefficient, entry) {
            Some(more) => Ok(more),
            None => Err(stuck(self.row, sum, coefficient, entry)),
        };
        Weighing { row: self.row, sum }
    }

    /// The sum with these terms, in their order. A weighing that is stuck stays as it is.
    pub fn plus_all(self, terms: &[Summand]) -> Weighing
        requires { EachWithin terms.now }
        ensures exact { result ≡ weighed_from self terms.now }
        ensures means { (sum : ℤ) → self.sum ≡ Ok sum → Sums self.row sum terms.now result.sum }
        ensures stuck { (stuck : Stuck) → self.sum ≡ Err stuck → result ≡ self }
    {
        let mut weighing = self;
        for term in terms {
            weighing = weighing.plus(term.0, term.1);
        }
        weighing
    }

    /// Whether the sum stands so to zero, or the operation at which the weighing is stuck.
    pub fn stands(self, rel: Rel5) -> Result<bool, Stuck>
        ensures exact { result ≡ related rel self.sum }
        ensures means { (sum : ℤ) (b : Bool) → self.sum ≡ Ok sum → result ≡ Ok b → Says b (Stands rel sum) }
        ensures answered { (sum : ℤ) → self.sum ≡ Ok sum → (b : Bool) × (result ≡ Ok b) }
        ensures stuck { (stuck : Stuck) → self.sum ≡ Err stuck → result ≡ Err stuck }
    {
        let sum = self.sum?;
        Ok(match rel {
            Rel5::AtMost => sum <= 0,
            Rel5::Below => sum < 0,
            Rel5::AtLeast => sum >= 0,
            Rel5::Above => sum > 0,
            Rel5::Equal => sum == 0,
        })
    }
}

/// The operation at which `sum + coefficient * entry` overflows: the product, or the sum of the two.
fn stuck(row: u32, sum: i128, coefficient: i128, entry: i128) -> Stuck
    requires sum_in { IsWithin sum }
    requires coefficient_in { IsWithin coefficient }
    requires entry_in { IsWithin entry }
    requires passing { fma sum coefficient entry ≡ None }
    ensures { Err result ≡ more row sum coefficient entry }
{
    match checked_fma(0, coefficient, entry) {
        None => operation(row, Op::Product, coefficient, entry),
        Some(product) => operation(row, Op::Sum, sum, product),
    }
}

fn operation(row: u32, op: Op, left: i128, right: i128) -> Stuck
    ensures { result ≡ stuck_at row op left right }
{
    Stuck {
        place: Place::Replay,
        at: row,
        by: 0,
        op,
        left: Pair { num: left, den: 1 },
        right: Pair { num: right, den: 1 },
    }
}

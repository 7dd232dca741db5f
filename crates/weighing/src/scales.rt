ghost use Rattle.std.specs.Prelude.{◌≡◌, ◌≤◌, ◌<◌, ◌^◌, ◌≤ℤ◌, ◌*ℤ◌, pos, unsigned_abs};
ghost use Rattle.std.specs.Int.{◌∣◌};
ghost use Rattle.whole.specs.Numbers.{IsLcm, lcm_of};
ghost use Rattle.weighing.specs.Scaled.{IsNum, common, den_of, scaled, signed};

use whole::lcm;

/// A number as a text writes it, `num / den`: a numerator of at most 1,000,000 in size over 1 to 1,000, not reduced.
#[derive(Clone, Copy, Debug, PartialEq, Eq)]
pub struct Num {
    pub num: i128,
    pub den: i128,
}

/// The side of a comparison on which a term is written. A term of the right side is weighed with its sign turned.
#[derive(Clone, Copy, Debug, PartialEq, Eq)]
pub enum Side {
    Left,
    Right,
}

/// The least multiple of `scale` which the number's denominator divides.
#[tactic(auto, using(whole::proofs::Overflow::signed))]
pub fn with_denominator(scale: u32, number: Num) -> u32
    requires scale_from { 1 ≤ scale }
    requires number_in { IsNum number }
    requires least_to { common scale number ≤ 1000000 }
    ensures exact { result ≡ common scale number }
    ensures least { IsLcm scale (den_of number) result }
{
    lcm(i128::from(scale), number.den).unwrap_or(0) as u32
}

impl Num {
    /// The number times the scale, which its denominator divides, with the sign that its side gives it.
    #[tactic(auto, using(whole::proofs::Overflow::signed))]
    pub fn scaled(self, scale: u32, side: Side) -> i128
        requires number_in { IsNum self }
        requires scale_to { scale ≤ 1000000 }
        ensures value { result ≡ scaled side scale self }
        ensures size { unsigned_abs result ≤ 1000000000000 }
        ensures whole { den_of self ∣ scale → result *ℤ self.den ≡ signed side (self.num *ℤ pos scale) }
    {
        let times = u128::from(scale) / self.den.unsigned_abs();
        let whole = self.num * times as i128;
        match side {
            Side::Left => whole,
            Side::Right => -whole,
        }
    }
}

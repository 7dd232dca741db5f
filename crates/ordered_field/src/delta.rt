//! How does a solver keep a strict bound? As a bound that may be met, moved by an infinitesimal amount.
//!
//! A [`Delta`] is a number of the field plus a multiple of a positive infinitesimal, as in Dutertre and de Moura's
//! simplex for linear arithmetic: `x < 3` is `x <= 3 - e`. Once all bounds are met, a number small enough is put
//! in the infinitesimal's place by [`Delta::at`].

ghost use Rattle.std.specs.Prelude.{◌≡◌, IfOk, OnOk, OnErr};
ghost use Rattle.std.specs.Ordering.{MatchOrdering};
ghost use Rattle.ordered_field.specs.Wideness.{FmaIsWide};
ghost use Rattle.ordered_field.specs.Delta.{real_part, inf_part, delta_value, delta_sum, delta_scaled, delta_at, ◌<δ◌, DeltaSumIsWide, DeltaScaleIsWide};

use crate::field::{OrderedField, Wide};
use std::cmp::Ordering;

/// The number `real + inf * e`, where `e` is above zero and below every positive number of the field.
///
/// Values are compared by `real`, and where these are equal by `inf`.
#[derive(Clone, Copy, PartialEq, Eq, PartialOrd, Ord, Debug)]
pub struct Delta<F> {
    real: F,
    inf: F,
}

impl<F: OrderedField> Delta<F> {
    /// The number with these two parts.
    pub fn new(real: F, inf: F) -> Delta<F>
        ensures real_part { real_part result ≡ real }
        ensures inf_part { inf_part result ≡ inf }
    {
        Delta { real, inf }
    }

    /// The part that is a number of the field.
    pub fn real(self) -> F
        ensures { result ≡ real_part self }
    {
        self.real
    }

    /// The multiple of the infinitesimal.
    pub fn inf(self) -> F
        ensures { result ≡ inf_part self }
    {
        self.inf
    }

    /// How two numbers stand to each other: by `real`, then by `inf`.
    pub fn compare(self, other: Delta<F>) -> Ordering
        ensures { MatchOrdering result
            (delta_value F.value self <δ delta_value F.value other)
            (delta_value F.value self ≡ delta_value F.value other)
            (delta_value F.value other <δ delta_value F.value self) }
    {
        self.cmp(&other)
    }

    /// The sum of the parts. `Wide` exactly where one of these two sums is.
    pub fn add(self, other: Delta<F>) -> Result<Delta<F>, Wide>
        ensures exact { IfOk result (λ d.
            delta_value F.value d ≡ delta_sum (delta_value F.value self) (delta_value F.value other)) }
        ensures kept { OnOk result
            (¬ DeltaSumIsWide F.LIMIT (delta_value F.value self) (delta_value F.value other)) }
        ensures wide { OnErr result
            (DeltaSumIsWide F.LIMIT (delta_value F.value self) (delta_value F.value other)) }
    {
        let real = self.real.add(other.real)?;
        let inf = self.inf.add(other.inf)?;
        Ok(Delta { real, inf })
    }

    /// `k` times both parts. `Wide` exactly where one of these two products is.
    pub fn scale(self, k: F) -> Result<Delta<F>, Wide>
        ensures exact { IfOk result (λ d.
            delta_value F.value d ≡ delta_scaled (F.value k) (delta_value F.value self)) }
        ensures kept { OnOk result
            (¬ DeltaScaleIsWide F.LIMIT (F.value k) (delta_value F.value self)) }
        ensures wide { OnErr result
            (DeltaScaleIsWide F.LIMIT (F.value k) (delta_value F.value self)) }
    {
        let real = k.mul(self.real)?;
        let inf = k.mul(self.inf)?;
        Ok(Delta { real, inf })
    }

    /// The number of the field where `eps` stands for the infinitesimal: `real + inf * eps`, refused as
    /// [`OrderedField::fma`] is.
    pub fn at(self, eps: F) -> Result<F, Wide>
        ensures exact { IfOk result (λ x.
            F.value x ≡ delta_at (delta_value F.value self) (F.value eps)) }
        ensures kept { OnOk result
            (¬ FmaIsWide F.LIMIT (F.value (real_part self)) (F.value (inf_part self)) (F.value eps)) }
        ensures wide { OnErr result
            (FmaIsWide F.LIMIT (F.value (real_part self)) (F.value (inf_part self)) (F.value eps)) }
    {
        self.real.fma(self.inf, eps)
    }
}

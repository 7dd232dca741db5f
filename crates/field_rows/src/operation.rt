//! Which operation was too wide? The calls here do one step of the field and name it where it is refused.

ghost use Rattle.std.specs.Prelude.{◌≡◌, IfOk, IfErr, OnOk};
ghost use Rattle.ordered_field.specs.Rational.{◌+ℚ◌, ◌*ℚ◌};
ghost use Rattle.ordered_field.specs.Wideness.{Exceeds, SumIsWide, FmaIsWide};
ghost use Rattle.field_rows.specs.Operations.{IsWideProduct, IsWideStep};

use ordered_field::{OrderedField, Wide};

/// An operation of the field, with its two numbers.
#[derive(Clone, Copy, PartialEq, Eq, Debug)]
pub enum Operation<F> {
    Product(F, F),
    Sum(F, F),
}

/// The product, or that operation exactly where it is too wide.
pub fn product<F: OrderedField>(a: F, b: F) -> Result<F, Operation<F>>
    ensures exact { IfOk result (λ x. F.value x ≡ F.value a *ℚ F.value b) }
    ensures kept { OnOk result (¬ Exceeds F.LIMIT (F.value a *ℚ F.value b)) }
    ensures wide { IfErr result (IsWideProduct F.LIMIT F.value a b) }
{
    match a.mul(b) {
        Ok(product) => Ok(product),
        Err(Wide) => Err(Operation::Product(a, b)),
    }
}

/// `x + k * y`, or its product, or then its sum, exactly where that is too wide.
pub fn product_sum<F: OrderedField>(x: F, k: F, y: F) -> Result<F, Operation<F>>
    ensures exact { IfOk result (λ z. F.value z ≡ F.value x +ℚ F.value k *ℚ F.value y) }
    ensures kept { OnOk result (¬ FmaIsWide F.LIMIT (F.value x) (F.value k) (F.value y)) }
    ensures wide { IfErr result (IsWideStep F.LIMIT F.value x k y) }
{
    let added = product(k, y)?;
    match x.add(added) {
        Ok(sum) => Ok(sum),
        Err(Wide) => Err(Operation::Sum(x, added)),
    }
}

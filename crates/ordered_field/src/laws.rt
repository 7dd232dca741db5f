//! What may be relied on above this crate: the rational numbers that its contracts speak of are an ordered field.

ghost use Rattle.std.specs.Prelude.{pos};
ghost use Rattle.ordered_field.specs.Rational.{whole, ◌+ℚ◌, ◌*ℚ◌, neg_ℚ};
ghost use Rattle.ordered_field.specs.Order.{◌≤ℚ◌};
ghost use Rattle.ordered_field.specs.FieldLaws.{IsOrderedField};

/// The rational numbers with their sum, product, opposite and order are an ordered field. It does nothing.
pub fn rationals_are_an_ordered_field()
    ensures { IsOrderedField (whole (pos 0)) (whole (pos 1)) ◌+ℚ◌ ◌*ℚ◌ neg_ℚ ◌≤ℚ◌ }
{}

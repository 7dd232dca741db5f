//! What a solver of linear rows may rely on: laws of rows, as calls that do nothing.

ghost use Rattle.field_rows.specs.Farkas.{ContradictionsHaveNoSolution};
ghost use Rattle.field_rows.specs.Zeros.{ZeroFits};

use ordered_field::OrderedField;

/// Bounds of which some multiples, by numbers that aren't below zero, sum to `0 <= s` with a number s below zero, or
/// to `0 < 0`, have no common solution. This is Farkas' lemma in the direction that a certificate rests on.
pub fn contradictions_have_no_solution()
    ensures { ContradictionsHaveNoSolution }
{}

/// Zero plus a number, a number plus zero and a product with zero are never too wide. So a row may leave zeros out
/// and refuse where a row with all its zeros does.
pub fn zero_fits<F: OrderedField>(number: F)
    ensures { ZeroFits F.LIMIT (F.value number) }
{
    let _number = number;
}

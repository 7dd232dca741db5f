//! What a caller of a simplex may rely on, as a call that does nothing.

ghost use Rattle.simplex.specs.Columns.{ContradictionsCancelColumns};

use ordered_field::OrderedField;

/// The weighed bounds of a conflict sum to 0 in each column, once each form is written out in columns, where the vectors
/// that meet the defining rows meet the tableau.
pub fn conflicts_cancel_columns<F: OrderedField>()
    ensures { ContradictionsCancelColumns F.value }
{}

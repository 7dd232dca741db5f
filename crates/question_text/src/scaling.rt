// What holds of the scales of comparisons, as contracts of a function that does nothing.
ghost use Rattle.std.specs.Prelude.{◌≤◌, ◌↔◌, ℕ, All};
ghost use Rattle.weighing.specs.declared.weighings.Rel5.{Rel5};
ghost use Rattle.run_rows.specs.declared.rows.Run.{Run};
ghost use Rattle.claim_values.specs.Values.{Compares};
ghost use Rattle.question_text.specs.Conditions.{compares};
ghost use Rattle.question_text.specs.Expressions.{AreCleared, HasNum, IsLeastScale, scale_of_two};
ghost use Rattle.question_text.specs.Meaning.{ComparisonHolds, value};
ghost use Rattle.question_text.specs.declared.conditions.QLin.{QLin};
ghost use Rattle.question_text.specs.declared.names.Rows.{Rows};

/// A comparison is weighed at the least common multiple of its denominators, and holds exactly where it does at any
/// other of their common multiples.
pub fn comparisons_hold_at_each_scale()
    ensures least { (left right : QLin) → All HasNum left.terms → All HasNum right.terms → IsLeastScale left right (scale_of_two left right) }
    ensures any { (r : Run) (at : Rows) (left right : QLin) (rel : Rel5) (m : ℕ) → All HasNum left.terms → All HasNum right.terms
        → 1 ≤ m → AreCleared m left.terms → AreCleared m right.terms
        → ComparisonHolds r at (compares left rel right) ↔ Compares rel (value r at m left.terms) (value r at m right.terms) }
{}

// What holds of the sizes of formulas, as contracts of functions that do nothing.
ghost use Rattle.std.specs.Prelude.{ℕ, List, IsOk};
ghost use Rattle.condition_tree.specs.Trees.{Tree};
ghost use Rattle.linear_form.specs.declared.lists.Term.{Term};
ghost use Rattle.linear_form.specs.declared.relations.Comparison.{Comparison};
ghost use Rattle.clause_form.specs.Building.{clauses_of};
ghost use Rattle.clause_limits.specs.Limits.{AreFew};

/// Formulas whose comparisons have so few sums, and that have so few nodes, are converted to clauses: no limit of
/// `to_clauses` is exceeded. A sum that stands in several comparisons counts once.
pub fn small_formulas_are_converted()
    ensures { (columns : ℕ) (sums : List (List Term)) (formulas : List (Tree Comparison)) → AreFew columns sums formulas → IsOk (clauses_of columns formulas) }
{}

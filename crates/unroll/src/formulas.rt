// Formulas of their parts. A list of formulas is known by its trees.
ghost use Rattle.std.specs.Prelude.{◌≡◌, [], ◌∷◌, ◌++◌, IfOk};
ghost use Rattle.condition_tree.specs.Trees.{conjunction, disjunction, opposite};
ghost use Rattle.clause_form.specs.Formulas.{formula_of};
ghost use Rattle.unroll.specs.ClaimFormulas.{trees};

use clause_form::Formula;
use std::alloc::Global;
use whole::NoMemory;

/// That both hold.
pub(crate) fn both(alloc: Global, first: Formula, second: Formula) -> Result<Formula, NoMemory>
    ensures { IfOk result (λ f. formula_of f ≡ conjunction (formula_of first ∷ formula_of second ∷ [])) }
{
    Ok(Formula::And(vec![in alloc; first, second]?))
}

/// That at least one holds.
pub(crate) fn either(alloc: Global, first: Formula, second: Formula) -> Result<Formula, NoMemory>
    ensures { IfOk result (λ f. formula_of f ≡ disjunction (formula_of first ∷ formula_of second ∷ [])) }
{
    Ok(Formula::Or(vec![in alloc; first, second]?))
}

/// That it doesn't hold.
pub(crate) fn not(alloc: Global, part: Formula) -> Result<Formula, NoMemory>
    ensures { IfOk result (λ f. formula_of f ≡ opposite (formula_of part)) }
{
    Ok(Formula::Not(Box::new(alloc, part)?))
}

/// That the second holds where the first does.
pub(crate) fn implies(
    alloc: Global,
    premise: Formula,
    conclusion: Formula,
) -> Result<Formula, NoMemory>
    ensures { IfOk result (λ f. formula_of f ≡ disjunction (opposite (formula_of premise) ∷ formula_of conclusion ∷ [])) }
{
    either(alloc, not(alloc, premise)?, conclusion)
}

/// That all hold.
pub(crate) fn all(parts: Vec<Formula>) -> Formula
    ensures { formula_of result ≡ conjunction (trees parts.items) }
{
    Formula::And(parts)
}

/// That at least one holds.
pub(crate) fn any(parts: Vec<Formula>) -> Formula
    ensures { formula_of result ≡ disjunction (trees parts.items) }
{
    Formula::Or(parts)
}

/// The formulas with one more.
pub(crate) fn with(mut formulas: Vec<Formula>, formula: Formula) -> Result<Vec<Formula>, NoMemory>
    ensures { IfOk result (λ fs. trees fs.items ≡ trees formulas.items ++ formula_of formula ∷ []) }
{
    formulas.push(formula)?;
    Ok(formulas)
}

/// The formulas with more.
pub(crate) fn with_all(
    mut formulas: Vec<Formula>,
    mut more: Vec<Formula>,
) -> Result<Vec<Formula>, NoMemory>
    ensures { IfOk result (λ fs. trees fs.items ≡ trees formulas.items ++ trees more.items) }
{
    formulas.append(&mut more)?;
    Ok(formulas)
}

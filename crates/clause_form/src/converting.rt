// The clauses of a list of formulas.
ghost use Rattle.std.specs.Prelude.{◌≡◌, ◌≤◌, ◌<◌, ℕ, ℤ, Bool, IfOk, map};
ghost use Rattle.clause_form.specs.Answers.{Gives};
ghost use Rattle.clause_form.specs.Building.{clauses_of};
ghost use Rattle.clause_form.specs.Formulas.{AreTrueAt, CanTake, EachComparison, formula_of};
ghost use Rattle.clause_form.specs.Models.{IsModel};
ghost use Rattle.clause_form.specs.WellFormed.{IsWellFormed};

use crate::building::Builder;
use crate::clauses::{BuildFault, Clauses};
use crate::formulas::Formula;
use crate::simple::simplified;
use std::alloc::Global;

/// The clauses that say that all formulas are true.
///
/// At most 2,048 columns. Each comparison is as `normalise` needs it, with columns below `columns`.
/// Large comes where the next form of several columns, the next atom or the next clause would be too
/// many: more than 2,048 columns and forms together, 4,096 atoms or 1,048,576 clauses.
pub fn to_clauses(
    alloc: Global,
    columns: u32,
    formulas: &Vec<Formula>,
) -> Result<Clauses, BuildFault>
    requires room { columns ≤ 2048 }
    requires small { EachComparison (CanTake columns) (map formula_of formulas.now.items) }
    ensures exact { Gives (λ c. c) result (clauses_of columns (map formula_of formulas.now.items)) }

    // The columns of a model make all formulas true.
    ensures models { IfOk result (λ c. (value : ℕ → ℤ) (over : ℕ) (truth : ℕ → Bool) → 0 < over → IsModel c value over truth → AreTrueAt value over (map formula_of formulas.now.items)) }

    // Values that make all formulas true have truths of the atoms with which they are a model.
    ensures truths { IfOk result (λ c. (value : ℕ → ℤ) (over : ℕ) → 0 < over → AreTrueAt value over (map formula_of formulas.now.items) → (truth : ℕ → Bool) × IsModel c value over truth) }

    ensures formed { IfOk result IsWellFormed }
{
    converted(alloc, columns, formulas)
}

#[tactic(auto, unfolding(crate::specs::Building::clauses_of))]
fn converted(alloc: Global, columns: u32, formulas: &Vec<Formula>) -> Result<Clauses, BuildFault>
    requires room { columns ≤ 2048 }
    requires small { EachComparison (CanTake columns) (map formula_of formulas.now.items) }
    ensures { Gives (λ c. c) result (clauses_of columns (map formula_of formulas.now.items)) }
{
    let mut builder = Builder::new(alloc, columns);
    for formula in formulas {
        let known = simplified(alloc, formula)?;
        builder.demand_known(known)?;
    }
    Ok(builder.finish()?)
}

#[cfg(test)]
mod tests {
    use super::to_clauses;
    use crate::formulas::Formula;
    use std::test::Fail;

    #[test]
    fn a_formula_that_is_never_true_gives_the_empty_clause(rt: HostRuntime) -> Result<(), Fail> {
        let alloc = rt.alloc();
        let formulas = vec![in alloc; Formula::True, Formula::False]?;
        let clauses = to_clauses(alloc, 0, &formulas).expect(&rt, "few enough");
        assert_eq!(rt; clauses.atoms.len(), 0);
        assert_eq!(rt; clauses.clauses.len(), 1);
        for clause in clauses.clauses.as_slice() {
            assert!(rt; clause.is_empty());
        }
        Ok(())
    }
}

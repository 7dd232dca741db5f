// The formulas that say that a question is violated.
ghost use Rattle.std.specs.Prelude.{◌≡◌, ◌↔◌, ◌<◌, ◌≤◌, ℕ, ℤ, pos, IfOk, length, map};
ghost use Rattle.claims.specs.Columns.{run_of};
ghost use Rattle.claims.specs.Subjects.{part};
ghost use Rattle.clause_form.specs.Formulas.{AreTrueAt, CanTake, EachComparison, formula_of};
ghost use Rattle.path_server.specs.Shapes.{shape_of};
ghost use Rattle.run_rows.specs.Columns.{entries_of, value_at};
ghost use Rattle.run_rows.specs.Limits.{IsWithin};
ghost use Rattle.run_rows.specs.Runs.{Shaped};
ghost use Rattle.run_rows.specs.declared.rows.Run.{Run};
ghost use Rattle.question_text.specs.Claims.{CanUnroll, question_claims, rows_for};
ghost use Rattle.question_text.specs.Conditions.{condition_of, conjunction, disjunction};
ghost use Rattle.question_text.specs.Meaning.{Violates};
ghost use Rattle.unroll.specs.ClaimFormulas.{claim_formulas, trees};
ghost use Rattle.unroll.specs.QuestionFormulas.{IsShapeFor, condition_tree};
ghost use Rattle.unroll.specs.QuestionLimits.{CanBuild};

use crate::formulas::{all, any, not, with};
use crate::name_sums::named_comparison;
use clause_form::Formula;
use question_text::{QCond, Question, Rows};
use run_rows::Shape;
use std::alloc::Global;
use whole::NoMemory;

/// The formulas of the question: each assumption, and last that the requirement is false. The shape is one of the
/// question's setting with every state that the question names. The question may have any number of assumptions, and a
/// condition any depth and any number of comparisons; an expression may have a 17th term where one is a constant.
pub fn question_formulas(
    alloc: Global,
    question: &Question,
    shape: &Shape,
) -> Result<Vec<Formula>, NoMemory>
    requires { IsShapeFor question.now shape.now }
    ensures exact { IfOk result (λ fs. trees fs.items ≡ claim_formulas shape.now (question_claims part shape.now.flows (rows_for shape.now) question.now)) }

    // At any values of the columns they are all true exactly where the run of these values violates the question.
    ensures made { IfOk result (λ fs. (value : ℕ → ℤ) (over : ℕ) → 0 < over → AreTrueAt value over (trees fs.items) ↔ Violates question.now (run_of shape.now value (pos over))) }

    // At the values of a run of the shape they are all true exactly where that run violates the question.
    ensures read { IfOk result (λ fs. (run : Run) (over : ℕ) → Shaped shape.now run → run.over ≡ pos over → AreTrueAt (value_at shape.now run) over (trees fs.items) ↔ Violates question.now run) }

    // They can be turned into clauses.
    ensures small { IfOk result (λ fs. EachComparison (CanTake (length (entries_of shape.now))) (trees fs.items)) }
{
    violation_formulas(alloc, question, shape)
}

/// The assumptions, then the negated requirement.
fn violation_formulas(
    alloc: Global,
    question: &Question,
    shape: &Shape,
) -> Result<Vec<Formula>, NoMemory>
    requires { IsShapeFor question.now shape.now }
    ensures { IfOk result (λ fs. trees fs.items ≡ claim_formulas shape.now (question_claims part shape.now.flows (rows_for shape.now) question.now)) }
{
    let at = Rows {
        opening: shape.h,
        last: shape.h + shape.t,
    };
    let assumed = assumptions(alloc, question, shape, &at)?;
    let required = condition_formula(alloc, shape, &at, &question.require)?;
    with(assumed, not(alloc, required)?)
}

/// For each assumption, that it holds.
fn assumptions(
    alloc: Global,
    question: &Question,
    shape: &Shape,
    at: &Rows,
) -> Result<Vec<Formula>, NoMemory>
    requires shape_in { IsShapeFor question.now shape.now }
    requires at_in { at.now ≡ rows_for shape.now }
    ensures { IfOk result (λ fs. trees fs.items ≡ map (condition_tree shape.now at.now) question.now.assumes) }
{
    let mut formulas = Vec::new(alloc);
    for assumption in question.assumes.as_slice() {
        let formula = condition_formula(alloc, shape, at, assumption)?;
        formulas = with(formulas, formula)?;
    }
    Ok(formulas)
}

/// That the condition holds.
#[cycle(conditions)]
fn condition_formula(
    alloc: Global,
    shape: &Shape,
    at: &Rows,
    condition: &QCond,
) -> Result<Formula, NoMemory>
    requires within { IsWithin shape.now }
    requires can { CanBuild shape.now at.now (condition_of condition.now) }
    ensures { IfOk result (λ f. formula_of f ≡ condition_tree shape.now at.now condition.now) }
{
    match condition {
        QCond::True => Ok(Formula::True),
        QCond::False => Ok(Formula::False),
        QCond::Cmp(left, rel, right) => named_comparison(alloc, shape, at, left, *rel, right),
        QCond::Not(part) => not(alloc, condition_formula(alloc, shape, at, part)?),
        QCond::And(parts) => all_hold(alloc, shape, at, parts),
        QCond::Or(parts) => any_holds(alloc, shape, at, parts),
    }
}

/// That all parts hold.
#[cycle(conditions)]
fn all_hold(
    alloc: Global,
    shape: &Shape,
    at: &Rows,
    parts: &Vec<QCond>,
) -> Result<Formula, NoMemory>
    requires within { IsWithin shape.now }
    requires can { CanBuild shape.now at.now (conjunction (map condition_of parts.now.items)) }
    ensures { IfOk result (λ f. formula_of f ≡ conjunction (map (condition_tree shape.now at.now) parts.now.items)) }
{
    let mut formulas = Vec::new(alloc);
    for part in parts {
        let formula = condition_formula(alloc, shape, at, part)?;
        formulas = with(formulas, formula)?;
    }
    Ok(all(formulas))
}

/// That one of the parts holds.
#[cycle(conditions)]
fn any_holds(
    alloc: Global,
    shape: &Shape,
    at: &Rows,
    parts: &Vec<QCond>,
) -> Result<Formula, NoMemory>
    requires within { IsWithin shape.now }
    requires can { CanBuild shape.now at.now (disjunction (map condition_of parts.now.items)) }
    ensures { IfOk result (λ f. formula_of f ≡ disjunction (map (condition_tree shape.now at.now) parts.now.items)) }
{
    let mut formulas = Vec::new(alloc);
    for part in parts {
        let formula = condition_formula(alloc, shape, at, part)?;
        formulas = with(formulas, formula)?;
    }
    Ok(any(formulas))
}

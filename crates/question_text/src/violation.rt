//! Whether a run meets all assumptions of a question and breaks its requirement.
ghost use Rattle.claims.specs.Subjects.{in_run};
ghost use Rattle.std.specs.Prelude.{◌≡◌, ◌↔◌, ◌⊎◌, Ok, Err, true, false};
ghost use Rattle.run_rows.specs.Runs.{IsRun, flow_count};
ghost use Rattle.weighing.specs.Claim.{outcome};
ghost use Rattle.whole.specs.declared.answers.Stuck.{Stuck};
ghost use Rattle.question_text.specs.Expressions.{CanWeigh, condition_claim};
ghost use Rattle.question_text.specs.Limits.{CanAsk};
ghost use Rattle.question_text.specs.Meaning.{IsFirstOverflow, NothingOverflows, Violates};
ghost use Rattle.question_text.specs.Violation.{assumptions, violation};

use crate::names::Rows;
use crate::questions::Question;
use crate::truth::holds;
use run_rows::Run;
use weighing::{both, not};
use whole::Stuck;

/// Whether the run violates the question: every assumption holds, and the requirement doesn't. `Err` comes exactly where
/// a weighing overflows 128 bits, and is the first one: all comparisons of the assumptions in order, and then those of the
/// requirement, are weighed before any truth is taken. It takes no memory.
pub fn violates(question: &Question, run: &Run) -> Result<bool, Stuck>
    requires { CanAsk question.now run.now }
    ensures exact { result ≡ violation question.now run.now }
    ensures violated { (result ≡ Ok true) ↔ (NothingOverflows question.now run.now × Violates question.now run.now) }
    ensures kept { (result ≡ Ok false) ↔ (NothingOverflows question.now run.now × (Violates question.now run.now → ⊥)) }
    ensures stuck { (stuck : Stuck) → (result ≡ Err stuck) ↔ IsFirstOverflow question.now run.now stuck }

    // A run that violates the question is never found to keep it, nor the other way round.
    ensures violated_found { Violates question.now run.now → (result ≡ Ok true) ⊎ ((stuck : Stuck) × (result ≡ Err stuck)) }
    ensures kept_found { (Violates question.now run.now → ⊥) → (result ≡ Ok false) ⊎ ((stuck : Stuck) × (result ≡ Err stuck)) }
{
    examine(question, run)
}

/// The assumptions, then the requirement.
#[tactic(auto, unfolding(crate::specs::Violation::violation))]
fn examine(question: &Question, run: &Run) -> Result<bool, Stuck>
    requires { CanAsk question.now run.now }
    ensures { result ≡ violation question.now run.now }
{
    let last = run.row_count() - 1;
    let at = Rows {
        opening: last - question.setting.steps,
        last,
    };
    let assumed = all_assumed(question, run, &at);
    let required = holds(&question.require, run, &at);
    both(assumed, not(required))
}

/// Whether every assumption holds.
fn all_assumed(question: &Question, run: &Run, at: &Rows) -> Result<bool, Stuck>
    requires run_in { IsRun run.now }
    requires can { CanWeigh run.now at.now (assumptions question.now) }
    ensures { result ≡ outcome at.now.last (condition_claim (in_run run.now) (flow_count run.now 0) at.now (assumptions question.now)) }
{
    let mut all = Ok(true);
    for assumption in question.assumes.as_slice() {
        all = both(all, holds(assumption, run, at));
    }
    all
}

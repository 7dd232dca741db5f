// What holds of the verdicts on drawn problems, as the contract of a function that does nothing.
ghost use Rattle.std.specs.Prelude.{◌≤◌, ℕ};
ghost use Rattle.ctrl_gen.specs.Problems.{controller_text, question_text};
ghost use Rattle.verdict.specs.Judging.{Refuses};
ghost use Rattle.verdict.specs.declared.judging.JudgeFault.{JudgeFault};

use made_problems::drawn_problems_are_accepted;
use made_sizes::drawn_problems_are_converted;

/// There is no fault for which `verdict::judge` refuses the texts of a seed and of a size from 1 to 32: no rule is broken,
/// and no limit on forms, atoms or clauses is exceeded.
pub fn drawn_problems_are_judged()
    ensures { (seed size : ℕ) → 1 ≤ size → size ≤ 32 → (fault : JudgeFault) → Refuses (controller_text seed) (question_text seed size) fault → ⊥ }
{
    drawn_problems_are_accepted();
    drawn_problems_are_converted();
}

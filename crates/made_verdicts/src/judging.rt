ghost use Rattle.std.specs.Prelude.{◌≤◌, IfOk, Ok};
ghost use Rattle.ctrl_gen.specs.Problems.{controller_text, question_text};
ghost use Rattle.verdict.specs.Judging.{Judges};

use crate::laws::drawn_problems_are_judged;
use ctrl_gen::make;
use made_problems::drawn_problems_are_accepted;
use std::alloc::Global;
use verdict::{JudgeFault, Verdict, judge};
use whole::NoMemory;

/// The verdict on the problem that is drawn of a seed; the size is the number of steps, 1 to 32. Want of memory alone gives
/// none.
pub fn judge_drawn(alloc: Global, seed: u64, size: u32) -> Result<Verdict, NoMemory>
    requires { (1 ≤ size) × (size ≤ 32) }
    ensures { IfOk result (λ verdict. Judges (controller_text seed) (question_text seed size) (Ok verdict)) }
{
    drawn_problems_are_accepted();
    drawn_problems_are_judged();
    let (controller, question) = make(alloc, seed, size)?;
    match judge(alloc, controller.as_slice(), question.as_slice()) {
        Ok(verdict) => Ok(verdict),
        Err(JudgeFault::NoMemory) => Err(NoMemory),
        Err(JudgeFault::Controller(_)) => unreachable!(),
        Err(JudgeFault::Question(_)) => unreachable!(),
        Err(JudgeFault::Large { .. }) => unreachable!(),
    }
}

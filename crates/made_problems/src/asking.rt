ghost use Rattle.std.specs.Prelude.{◌≤◌, IfOk};
ghost use Rattle.ctrl_gen.specs.Problems.{controller_text, question_text};
ghost use Rattle.asked.specs.Asked.{AreAsked};

use asked::{AskFault, Asked, ask};
use ctrl_gen::make;
use std::alloc::Global;
use whole::NoMemory;

/// The controller and the question that are drawn of a seed, as they are read of their texts; the size is the number of
/// steps, 1 to 32. Want of memory alone gives none.
pub fn ask_drawn(alloc: Global, seed: u64, size: u32) -> Result<Asked, NoMemory>
    requires { (1 ≤ size) × (size ≤ 32) }
    ensures { IfOk result (λ asked. AreAsked (controller_text seed) (question_text seed size) asked.controller asked.question) }
{
    let (controller, question) = make(alloc, seed, size)?;
    match ask(alloc, controller.as_slice(), question.as_slice()) {
        Ok(asked) => Ok(asked),
        Err(AskFault::NoMemory) => Err(NoMemory),
        Err(AskFault::Controller(_)) => unreachable!(),
        Err(AskFault::Question(_)) => unreachable!(),
    }
}

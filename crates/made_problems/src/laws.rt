// What holds of drawn problems, as contracts of functions that do nothing.
ghost use Rattle.std.specs.Prelude.{◌≡◌, ◌≤◌, ◌<◌, ◌-◌, ◌^◌, ℕ, length};
ghost use Rattle.ctrl_types.specs.Limits.{IsController};
ghost use Rattle.ctrl_types.specs.declared.controllers.Controller.{Controller};
ghost use Rattle.ctrl_gen.specs.Problems.{controller_text, question_text};
ghost use Rattle.asked.specs.Asked.{AskFails};
ghost use Rattle.asked.specs.declared.asking.AskFault.{AskFault};
ghost use Rattle.asked.specs.declared.asking.AskFault.TheVariants.{NoMemory};
ghost use Rattle.made_problems.specs.Accepted.{IsControllerAccepted, IsQuestionAccepted};

/// The texts of each seed and of each size from 1 to 32 are accepted: the controller's, and the question's for any
/// controller. They are no longer than readers allow, so want of memory alone is why `asked::ask` may fail on them.
pub fn drawn_problems_are_accepted()
    ensures controllers { (seed : ℕ) → IsControllerAccepted (controller_text seed) }
    ensures questions { (seed size : ℕ) → 1 ≤ size → size ≤ 32 → (c : Controller) → IsController c → IsQuestionAccepted c (question_text seed size) }
    ensures short { (seed size : ℕ) → size ≤ 32 → (length (controller_text seed) < 2 ^ 32 - 1) × (length (question_text seed size) < 2 ^ 32 - 1) }
    ensures never_refused { (seed size : ℕ) → 1 ≤ size → size ≤ 32 → (fault : AskFault) → AskFails (controller_text seed) (question_text seed size) fault → fault ≡ NoMemory }
{}

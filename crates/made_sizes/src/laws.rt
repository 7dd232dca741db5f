// What holds of drawn problems, as contracts of functions that do nothing.
ghost use Rattle.std.specs.Prelude.{◌≤◌, ℕ, IsOk, length};
ghost use Rattle.run_rows.specs.Columns.{entries_of};
ghost use Rattle.ctrl_types.specs.declared.controllers.Controller.{Controller};
ghost use Rattle.ctrl_meaning.specs.Flows.{shape_for};
ghost use Rattle.question_text.specs.declared.questions.Question.{Question};
ghost use Rattle.asked.specs.Asked.{AreAsked};
ghost use Rattle.clause_form.specs.Building.{clauses_of};
ghost use Rattle.unroll.specs.Problems.{problem_formulas};
ghost use Rattle.ctrl_gen.specs.Problems.{controller_text, question_text};
ghost use Rattle.made_sizes.specs.Drawn.{IsSmall};

/// What the texts of each seed and of each size from 1 to 32 mean is small, and the unrolled problem of what is small is
/// converted to clauses: no limit on forms, atoms or clauses is exceeded.
pub fn drawn_problems_are_converted()
    ensures drawn { (seed size : ℕ) → 1 ≤ size → size ≤ 32 → (c : Controller) (q : Question) → AreAsked (controller_text seed) (question_text seed size) c q → IsSmall c q }
    ensures small { (c : Controller) (q : Question) → IsSmall c q → IsOk (clauses_of (length (entries_of (shape_for c q.setting))) (problem_formulas c q)) }
{}

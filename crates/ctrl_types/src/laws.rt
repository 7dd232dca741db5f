// What holds of controllers' statements, as contracts of functions that do nothing.
ghost use Rattle.std.specs.Prelude.{◌≡◌, ◌⊎◌, ◌↔◌, ◌++◌, ℕ, List, All, true, false};
ghost use Rattle.whole.specs.declared.answers.Refusal.{Refusal};
ghost use Rattle.weighing.specs.Scaled.{IsNum};
ghost use Rattle.weighing.specs.declared.scales.Num.{Num};
ghost use Rattle.condition_syntax.specs.declared.expressions.ETerm.{ETerm};
ghost use Rattle.condition_syntax.specs.declared.expressions.Expr.{Expr};
ghost use Rattle.ctrl_syntax.specs.declared.syntax.StateLine.{StateLine};
ghost use Rattle.ctrl_syntax.specs.Grammar.{IsText};
ghost use Rattle.ctrl_syntax.specs.Sections.{Sections};
ghost use Rattle.ctrl_types.specs.declared.controllers.Controller.{Controller};
ghost use Rattle.ctrl_types.specs.Denominators.{IsLeastCommon, least_common};
ghost use Rattle.ctrl_types.specs.Names.{HaveTwoKinds, kind_in, mixes_bound};
ghost use Rattle.ctrl_types.specs.Resolved.{Resolves, SeenResolves};
ghost use Rattle.ctrl_types.specs.Resolving.{SeenController, controller_seen};
ghost use Rattle.ctrl_types.specs.Statements.{IsFirstBroken, IsUnbroken, mixed_sides};

/// A controller's statements break no rule, or one of them breaks one first. Those of a text that break none mean one
/// controller alone, with its guards seen as trees.
pub fn statements_are_told_apart()
    ensures one_refusal { (s : Sections) (r t : Refusal) → IsFirstBroken s r → IsFirstBroken s t → r ≡ t }
    ensures not_both { (s : Sections) (r : Refusal) → IsFirstBroken s r → IsUnbroken s → ⊥ }
    ensures either { (s : Sections) → IsUnbroken s ⊎ ((r : Refusal) × IsFirstBroken s r) }
    ensures one_controller { (s : Sections) (c d : Controller) → Resolves s c → Resolves s d → controller_seen c ≡ controller_seen d }
    ensures some_controller { (bytes : List ℕ) (s : Sections) → IsText bytes s → IsUnbroken s → (c : SeenController) × SeenResolves s c }
{}

/// A comparison, and the window's or the rate's expression, mixes kinds exactly where two of its terms have different kinds;
/// and what the denominators come to is their least common multiple.
pub fn kinds_and_denominators()
    ensures comparison { (states : List StateLine) (left right : Expr) → (mixed_sides states left right ≡ true) ↔ HaveTwoKinds (kind_in states true) (left.terms ++ right.terms) }
    ensures bound { (states : List StateLine) (terms : List ETerm) → (mixes_bound states terms ≡ true) ↔ HaveTwoKinds (kind_in states false) terms }
    ensures denominators { (nums : List Num) → All IsNum nums → IsLeastCommon nums (least_common nums) }
{}

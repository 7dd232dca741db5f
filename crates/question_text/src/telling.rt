// What holds of questions for a controller as texts, and of the names in them, as contracts of functions that do nothing.
ghost use Rattle.std.specs.Prelude.{◌≡◌, ◌⊎◌, ◌↔◌, ◌++◌, ℕ, List, All, Some, true};
ghost use Rattle.whole.specs.declared.answers.Refusal.{Refusal};
ghost use Rattle.path_server.specs.declared.settings.Setting.{Setting};
ghost use Rattle.condition_syntax.specs.declared.expressions.Expr.{Expr};
ghost use Rattle.condition_syntax.specs.declared.expressions.Name.{Name};
ghost use Rattle.ctrl_types.specs.Names.{HaveTwoKinds};
ghost use Rattle.ctrl_types.specs.declared.controllers.Controller.{Controller};
ghost use Rattle.ctrl_types.specs.declared.controllers.State.{State};
ghost use Rattle.ctrl_types.specs.Limits.{IsController};
ghost use Rattle.weighing.specs.Scaled.{IsNum};
ghost use Rattle.question_text.specs.declared.conditions.Of.{Of};
ghost use Rattle.question_text.specs.declared.conditions.QLin.{QLin};
ghost use Rattle.question_text.specs.Expressions.{HasNum, IsLeastScale, scale_of_two};
ghost use Rattle.question_text.specs.NamedValues.{StandsFor, of_named};
ghost use Rattle.question_text.specs.StatementRules.{IsLineScale, SeenQuestion, Statement, kind_in, line_scale, mixed_sides, numbers};
ghost use Rattle.question_text.specs.Texts.{IsRefused, IsTextOf};

/// A question's text says one thing alone for a controller, or it has one first broken rule alone; and one of the
/// two is so.
pub fn questions_are_told_apart()
    ensures one_question { (c : Controller) (bytes : List ℕ) (p q : SeenQuestion) → IsTextOf c bytes p → IsTextOf c bytes q → p ≡ q }
    ensures one_refusal { (c : Controller) (bytes : List ℕ) (r s : Refusal) → IsRefused c bytes r → IsRefused c bytes s → r ≡ s }
    ensures not_both { (c : Controller) (bytes : List ℕ) (r : Refusal) (q : SeenQuestion) → IsRefused c bytes r → IsTextOf c bytes q → ⊥ }
    ensures either { (c : Controller) (bytes : List ℕ) → IsController c → ((q : SeenQuestion) × IsTextOf c bytes q) ⊎ ((r : Refusal) × IsRefused c bytes r) }
{}

/// A comparison mixes kinds exactly where two of its terms have different kinds.
pub fn kinds_are_mixed_by_two_terms()
    ensures { (states : List State) (s : Setting) (left right : Expr) → (mixed_sides states s left right ≡ true) ↔ HaveTwoKinds (kind_in states s) (left.terms ++ right.terms) }
{}

/// What the denominators of a line come to with those before it and the controller's, which may not pass 1,000,000, is their
/// least common multiple; and so is the scale at which the two sides of a comparison are weighed.
pub fn scales_are_least()
    ensures lines { (c : Controller) (x : Statement) → IsController c → All IsNum (x.before ++ numbers x.says) → IsLineScale c x (line_scale c x) }
    ensures sides { (left right : QLin) → All HasNum left.terms → All HasNum right.terms → IsLeastScale left right (scale_of_two left right) }
{}

/// A name stands for what its cases say, and for nothing else.
pub fn names_stand_by_their_cases()
    ensures taken { (states : List State) (s : Setting) (x : Name) (of : Of) → of_named states s x ≡ Some of → StandsFor states s x of }
    ensures again { (states : List State) (s : Setting) (x : Name) (of : Of) → StandsFor states s x of → of_named states s x ≡ Some of }
{}

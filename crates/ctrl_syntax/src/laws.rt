// What holds of controllers as texts, as contracts of functions that do nothing.
ghost use Rattle.std.specs.Prelude.{◌≡◌, ◌⊎◌, ℕ, List};
ghost use Rattle.whole.specs.declared.answers.Refusal.{Refusal};
ghost use Rattle.ctrl_syntax.specs.Sections.{Sections};
ghost use Rattle.ctrl_syntax.specs.Grammar.{IsText};
ghost use Rattle.ctrl_syntax.specs.Refused.{IsRefused};

/// A text says one thing alone, or it has one first broken rule alone; and one of the two is so.
pub fn controllers_are_told_apart()
    ensures one_text { (bytes : List ℕ) (s t : Sections) → IsText bytes s → IsText bytes t → s ≡ t }
    ensures one_refusal { (bytes : List ℕ) (r s : Refusal) → IsRefused bytes r → IsRefused bytes s → r ≡ s }
    ensures not_both { (bytes : List ℕ) (r : Refusal) (s : Sections) → IsRefused bytes r → IsText bytes s → ⊥ }
    ensures either { (bytes : List ℕ) → ((s : Sections) × IsText bytes s) ⊎ ((r : Refusal) × IsRefused bytes r) }
{}

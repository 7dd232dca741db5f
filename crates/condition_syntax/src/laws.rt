//! What holds of expressions and conditions as tokens, as contracts of functions that do nothing.
ghost use Rattle.std.specs.Prelude.{◌≡◌, ◌≤◌, ◌++◌, ◌⊎◌, List, length};
ghost use Rattle.source_text.specs.Tokens.{Token};
ghost use Rattle.condition_syntax.specs.Trees.{Condition};
ghost use Rattle.condition_syntax.specs.Grammar.{SpellsExpr, SpellsCond};
ghost use Rattle.condition_syntax.specs.Ends.{Taken, EndsExpr, EndsCond};
ghost use Rattle.condition_syntax.specs.WrongTokens.{RefusesExpr, RefusesCond};
ghost use Rattle.condition_syntax.specs.declared.conditions.Style.{Style};
ghost use Rattle.condition_syntax.specs.declared.expressions.ETerm.{ETerm};
ghost use Rattle.condition_syntax.specs.declared.faults.Fault.{Fault};

/// Tokens begin with one longest expression alone, or are refused by one fault alone; and one of the two is so.
pub fn expressions_are_told_apart()
    ensures one_expr { (style : Style) (front longer left rest : List Token) (ts us : List ETerm) (p : SpellsExpr style front ts) (q : SpellsExpr style longer us) →
        EndsExpr style front ts p left → EndsExpr style longer us q rest → front ++ left ≡ longer ++ rest → (ts ≡ us) × (left ≡ rest) }
    ensures one_fault { (style : Style) (tokens : List Token) (a b : Fault) → RefusesExpr style tokens a → RefusesExpr style tokens b → a ≡ b }
    ensures not_both { (style : Style) (front left : List Token) (ts : List ETerm) (a : Fault) (p : SpellsExpr style front ts) →
        EndsExpr style front ts p left → RefusesExpr style (front ++ left) a → ⊥ }
    ensures longest { (style : Style) (front longer left rest : List Token) (ts us : List ETerm) (p : SpellsExpr style front ts) →
        EndsExpr style front ts p left → SpellsExpr style longer us → front ++ left ≡ longer ++ rest → length longer ≤ length front }
    ensures either { (style : Style) (tokens : List Token) →
        ((x : List ETerm × List Token) × Taken (SpellsExpr style) (EndsExpr style) tokens x) ⊎ ((a : Fault) × RefusesExpr style tokens a) }
{}

/// Tokens begin with one longest condition alone, or are refused by one fault alone; and one of the two is so.
pub fn conditions_are_told_apart()
    ensures one_condition { (style : Style) (front longer left rest : List Token) (c d : Condition) (p : SpellsCond style front c) (q : SpellsCond style longer d) →
        EndsCond style front c p left → EndsCond style longer d q rest → front ++ left ≡ longer ++ rest → (c ≡ d) × (left ≡ rest) }
    ensures one_fault { (style : Style) (tokens : List Token) (a b : Fault) → RefusesCond style tokens a → RefusesCond style tokens b → a ≡ b }
    ensures not_both { (style : Style) (front left : List Token) (c : Condition) (a : Fault) (p : SpellsCond style front c) →
        EndsCond style front c p left → RefusesCond style (front ++ left) a → ⊥ }
    ensures longest { (style : Style) (front longer left rest : List Token) (c d : Condition) (p : SpellsCond style front c) →
        EndsCond style front c p left → SpellsCond style longer d → front ++ left ≡ longer ++ rest → length longer ≤ length front }
    ensures either { (style : Style) (tokens : List Token) →
        ((x : Condition × List Token) × Taken (SpellsCond style) (EndsCond style) tokens x) ⊎ ((a : Fault) × RefusesCond style tokens a) }
{}

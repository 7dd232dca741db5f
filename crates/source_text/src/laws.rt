//! What holds of lines as bytes, as the contract of a function that does nothing.
ghost use Rattle.std.specs.Prelude.{◌≡◌, ℕ, List};
ghost use Rattle.source_text.specs.Spelling.{IsCutInto};
ghost use Rattle.source_text.specs.Tokens.{Token};

/// A line is cut into one list of tokens alone.
pub fn lines_are_cut_once()
    ensures one_cut { (bytes : List ℕ) (ts us : List Token) → IsCutInto bytes ts → IsCutInto bytes us → ts ≡ us }
    ensures some_cut { (bytes : List ℕ) → (ts : List Token) × IsCutInto bytes ts }
{}

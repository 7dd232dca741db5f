// What holds of the texts of every table, as the contract of a function that does nothing.
ghost use Rattle.std.specs.Prelude.{◌≡◌, ℕ, List};
ghost use Rattle.whole.specs.declared.answers.Refusal.{Refusal};
ghost use Rattle.text_machine.specs.Texts.{Table, Format};
ghost use Rattle.line_tables.specs.declared.spots.Spot.{Spot};
ghost use Rattle.line_tables.specs.Tables.{IsText, IsRefused, IsTextOrRefused, AreLines, AreRows, text_of, text_read, text_fed};

/// A text is that of one list of rows or has one first refusal: one of the two, and not both. What is read of a text is what
/// is read of its lines, fed one after another, and then of its rest. What is printed of all rows of a text is that text.
pub fn texts_are_told_apart()
    ensures one_table { (f : Format Spot Refusal) (bytes : List ℕ) (t u : Table) → IsText f bytes t → IsText f bytes u → t ≡ u }
    ensures one_refusal { (f : Format Spot Refusal) (bytes : List ℕ) (r s : Refusal) → IsRefused f bytes r → IsRefused f bytes s → r ≡ s }
    ensures not_both { (f : Format Spot Refusal) (bytes : List ℕ) (t : Table) (r : Refusal) → IsRefused f bytes r → IsText f bytes t → ⊥ }
    ensures fed { (f : Format Spot Refusal) (bytes rest : List ℕ) (lines : List (List ℕ)) → AreLines bytes lines rest → text_read f bytes ≡ text_fed f lines rest }
    ensures either { (f : Format Spot Refusal) (bytes : List ℕ) → IsTextOrRefused f bytes }
    ensures printed { (f : Format Spot Refusal) (t : Table) → AreRows f t → IsText f (text_of f t) t }
{}

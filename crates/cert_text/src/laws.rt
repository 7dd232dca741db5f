// What holds of certificates as texts, as contracts of functions that do nothing.
ghost use Rattle.std.specs.Prelude.{◌≡◌, ◌⊎◌, ℕ, List};
ghost use Rattle.whole.specs.declared.answers.Refusal.{Refusal};
ghost use Rattle.cert_text.specs.Spelling.{Certificate, IsCertText};
ghost use Rattle.cert_text.specs.Rules.{IsRefused};

/// A text is that of one certificate alone, or it has one first broken rule alone: one of the two, and not both.
pub fn certificates_are_told_apart()
    ensures one_certificate { (bytes : List ℕ) (c d : Certificate) → IsCertText bytes c → IsCertText bytes d → c ≡ d }
    ensures one_refusal { (bytes : List ℕ) (r s : Refusal) → IsRefused bytes r → IsRefused bytes s → r ≡ s }
    ensures not_both { (bytes : List ℕ) (r : Refusal) (c : Certificate) → IsRefused bytes r → IsCertText bytes c → ⊥ }
    ensures either { (bytes : List ℕ) → ((c : Certificate) × IsCertText bytes c) ⊎ ((r : Refusal) × IsRefused bytes r) }
{}

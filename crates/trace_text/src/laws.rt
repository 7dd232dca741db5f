// What holds of traces as texts, as contracts of functions that do nothing.
ghost use Rattle.std.specs.Prelude.{◌≡◌, ◌⊎◌, ℕ, List};
ghost use Rattle.whole.specs.declared.answers.Refusal.{Refusal};
ghost use Rattle.run_rows.specs.declared.shapes.Shape.{Shape};
ghost use Rattle.run_rows.specs.declared.rows.Run.{Run};
ghost use Rattle.trace_text.specs.Spelling.{IsTraceText};
ghost use Rattle.trace_text.specs.Script.{IsRefused};

/// A text is the trace of one shape and one run alone, or it has one first broken rule alone: one of the two, and not both.
pub fn traces_are_told_apart()
    ensures one_trace { (bytes : List ℕ) (shape : Shape) (run : Run) (other : Shape) (another : Run) →
        IsTraceText bytes shape run → IsTraceText bytes other another → (shape ≡ other) × (run ≡ another) }
    ensures one_refusal { (bytes : List ℕ) (r s : Refusal) → IsRefused bytes r → IsRefused bytes s → r ≡ s }
    ensures not_both { (bytes : List ℕ) (r : Refusal) (shape : Shape) (run : Run) →
        IsRefused bytes r → IsTraceText bytes shape run → ⊥ }
    ensures either { (bytes : List ℕ) → ((trace : Shape × Run) × IsTraceText bytes trace.0 trace.1) ⊎ ((r : Refusal) × IsRefused bytes r) }
{}

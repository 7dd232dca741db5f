// What `clap` makes of a command line, as the contract of a function that does nothing.
ghost use Rattle.std.specs.Prelude.{◌≡◌, ◌↔◌, ℕ, List, [], ◌∷◌, IsTrue, is_some, true};
ghost use Rattle.clap.specs.Words.{fault_of};
ghost use Rattle.command_words.specs.Clap.{app_by};
ghost use Rattle.command_words.specs.Forms.{Entry, asked_by, is_entry};

/// The command of `clap` for an entry finds no fault with words exactly where they ask for something by the entry. It takes
/// the first word for its own name.
pub fn clap_takes_what_fits()
    ensures { (entry : Entry) (word : List ℕ) (words : List (List ℕ)) → IsTrue (is_entry entry)
        → (fault_of (app_by entry) (word ∷ words) ≡ []) ↔ (is_some (asked_by entry words) ≡ true) }
{}

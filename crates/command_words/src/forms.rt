ghost use Rattle.std.specs.Prelude.{◌≡◌, find};
ghost use Rattle.std.specs.Str.{bytes_eq};

/// A command of a table: its word, and how many values it takes, at least and at most.
#[derive(Clone, Copy, Debug)]
pub struct Form {
    pub word: &'static str,
    pub least: usize,
    pub most: usize,
}

/// The first form of a table with this word.
pub(crate) fn form_named(forms: &[Form], word: &str) -> Option<Form>
    ensures { result ≡ find (λ form. bytes_eq form.word.now word.now) forms.now }
{
    forms.iter().copied().find(|form| form.word == word)
}

/// What a file that a command reads is for.
#[derive(Clone, Copy, Debug, PartialEq, Eq)]
pub enum Source {
    Controller,
    Question,
    Trace,
    Cert,
}

impl Source {
    ghost use Rattle.std.specs.Prelude.{◌≡◌};
    ghost use Rattle.file_reports.specs.Sources.{limit_of, word_of};

    /// How reports name it.
    pub fn word(self) -> &'static str
        ensures { result.now ≡ word_of self }
    {
        match self {
            Source::Controller => "controller",
            Source::Question => "question",
            Source::Trace => "trace",
            Source::Cert => "cert",
        }
    }

    /// How many bytes the file may have.
    pub fn limit(self) -> u64
        ensures { result ≡ limit_of self }
    {
        match self {
            Source::Controller | Source::Question => 65_536,
            Source::Trace => 262_144,
            Source::Cert => 268_435_456,
        }
    }
}

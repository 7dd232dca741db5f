/// A sign that is a token of its own.
#[derive(Clone, Copy, Debug, PartialEq, Eq)]
pub enum Sign {
    /// `<=`
    AtMost,
    /// `<`
    Below,
    /// `>=`
    AtLeast,
    /// `>`
    Above,
    /// `==`
    Equal,
    /// `=`
    Assign,
    /// `+`
    Plus,
    /// `-`
    Minus,
    /// `*`
    Times,
    /// `(`
    Open,
    /// `)`
    Close,
    /// `.`
    Dot,
    /// `@`
    At,
}

impl Sign {
    ghost use Rattle.std.specs.Prelude.{◌≡◌};
    ghost use Rattle.source_text.specs.Signs.{sign_text};

    /// How the sign is spelled.
    pub fn text(self) -> &'static str
        ensures { result.now ≡ sign_text self }
    {
        match self {
            Sign::AtMost => "<=",
            Sign::Below => "<",
            Sign::AtLeast => ">=",
            Sign::Above => ">",
            Sign::Equal => "==",
            Sign::Assign => "=",
            Sign::Plus => "+",
            Sign::Minus => "-",
            Sign::Times => "*",
            Sign::Open => "(",
            Sign::Close => ")",
            Sign::Dot => ".",
            Sign::At => "@",
        }
    }
}

/// What stands next in a line.
#[derive(Clone, Copy, Debug)]
pub enum Lexeme<'a> {
    /// The line's end.
    End,
    /// A byte that begins no token.
    Wrong,
    /// A letter, and the letters, digits and underscores behind it.
    Word(&'a [u8]),
    /// Digits, perhaps with a slash and digits behind them. A part that exceeds `2^32 - 1` is that number.
    Number { num: u32, den: Option<u32> },
    Sign(Sign),
}

ghost use Rattle.std.specs.Prelude.{◌≡◌};
ghost use Rattle.question_syntax.specs.Reading.{refusal, lacks};

use source_text::{Cursor, Lexeme};
use whole::Refusal;

/// The refusal by the rule Q of this number.
pub(crate) fn refusal(number: u8, line: u32) -> Refusal
    ensures { result ≡ refusal number line }
{
    Refusal {
        letter: b'Q',
        number,
        line,
    }
}

/// The refusal where what the rule `own` asks for doesn't stand next; a byte that begins no token has its own.
#[tactic(auto, unfolding(crate::specs::Reading::lacks))]
pub(crate) fn lacks(own: u8, cursor: &Cursor<'_>) -> Refusal
    ensures { result ≡ lacks own cursor.now }
{
    match cursor.peek() {
        Lexeme::Wrong => refusal(2, cursor.number()),
        Lexeme::End | Lexeme::Word(_) | Lexeme::Number { .. } | Lexeme::Sign(_) => {
            refusal(own, cursor.number())
        }
    }
}

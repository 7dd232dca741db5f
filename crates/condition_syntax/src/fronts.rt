//! What stands first among the tokens that are left.
ghost use Rattle.std.specs.Prelude.{◌≡◌};
ghost use Rattle.condition_syntax.specs.Words.{is_keyword};
ghost use Rattle.condition_syntax.specs.Fronts.{stands, says, blame};

use crate::faults::Fault;
use source_text::{Cursor, Lexeme, Sign};

/// Whether the word may name nothing.
#[tactic(auto, unfolding(crate::specs::Words::is_keyword))]
pub(crate) fn is_keyword(word: &[u8]) -> bool
    ensures { result ≡ is_keyword word.now }
{
    word == b"and".as_slice()
        || word == b"or".as_slice()
        || word == b"not".as_slice()
        || word == b"true".as_slice()
        || word == b"false".as_slice()
        || word == b"delay".as_slice()
}

/// Whether this sign stands first.
#[tactic(auto, unfolding(crate::specs::Fronts::stands))]
pub fn stands(cursor: &Cursor<'_>, sign: Sign) -> bool
    ensures { result ≡ stands sign cursor.now.tokens }
{
    match cursor.peek() {
        Lexeme::Sign(found) => sign == found,
        Lexeme::End | Lexeme::Wrong | Lexeme::Word(_) | Lexeme::Number { .. } => false,
    }
}

/// Whether this word stands first.
#[tactic(auto, unfolding(crate::specs::Fronts::says))]
pub fn says(cursor: &Cursor<'_>, word: &[u8]) -> bool
    ensures { result ≡ says word.now cursor.now.tokens }
{
    match cursor.peek() {
        Lexeme::Word(found) => found == word,
        Lexeme::End | Lexeme::Wrong | Lexeme::Number { .. } | Lexeme::Sign(_) => false,
    }
}

/// What is wrong where something else is wanted.
#[tactic(auto, unfolding(crate::specs::Fronts::blame))]
pub(crate) fn blame(cursor: &Cursor<'_>, fault: Fault) -> Fault
    ensures { result ≡ blame fault cursor.now.tokens }
{
    match cursor.peek() {
        Lexeme::Wrong => Fault::WrongByte,
        Lexeme::End | Lexeme::Word(_) | Lexeme::Number { .. } | Lexeme::Sign(_) => fault,
    }
}

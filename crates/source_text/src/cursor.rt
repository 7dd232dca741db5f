ghost use Rattle.std.specs.Prelude.{◌≡◌, IfOk, OnErr, true};
ghost use Rattle.std.specs.String.{string_bytes};
ghost use Rattle.source_text.specs.Tokens.{after};
ghost use Rattle.source_text.specs.Cutting.{tokens};
ghost use Rattle.source_text.specs.Shown.{Shows};
ghost use Rattle.source_text.specs.Spelling.{is_word, IsCutInto};
ghost use Rattle.source_text.specs.Given.{Gives};

use crate::cutting::first_lexeme;
use crate::lexemes::Lexeme;
use std::alloc::Global;
use std::marker::Model;
use whole::NoMemory;

/// A token by itself.
#[derive(Debug, Drop)]
pub enum Token {
    /// The line's end.
    End,
    /// A byte that begins no token.
    Wrong,
    /// A letter, and the letters, digits and underscores behind it.
    Word(String),
    /// Digits, perhaps with a slash and digits behind them. A part that exceeds `2^32 - 1` is that number.
    Number { num: u32, den: Option<u32> },
    /// A sign's one or two characters.
    Sign(String),
}

/// A place in a line, which contracts see as the line's number and the tokens that are left.
#[derive(Drop)]
pub struct Cursor<'a> {
    number: u32,
    ahead: Lexeme<'a>,
    behind: &'a [u8],
}

impl<'a> Model for Cursor<'a> {
    ghost use Rattle.source_text.specs.Cutting.{tokens};
    ghost use Rattle.source_text.specs.Shown.{Ahead, IsSound, shown};

    ghost Value = { Ahead };

    ghost view = { λ cursor. record { line = cursor.number; tokens = shown cursor.ahead (tokens cursor.behind.now) } };

    ghost invariant = { λ cursor. IsSound cursor.ahead };
}

impl<'a> Cursor<'a> {
    /// The front of a line.
    #[tactic(auto, using(crate::proofs::CutLaws::tokens_cut))]
    pub fn new(line: &'a [u8], number: u32) -> Cursor<'a>
        ensures exact { result ≡ record { line = number; tokens = tokens line.now } }
        ensures cut { IsCutInto line.now result.tokens }
    {
        let (ahead, behind) = first_lexeme(line);
        Cursor {
            number,
            ahead,
            behind,
        }
    }

    /// The line's number.
    pub fn number(&self) -> u32
        ensures { result ≡ self.now.line }
    {
        self.number
    }

    /// The next token, which stays.
    pub fn peek(&self) -> Lexeme<'a>
        ensures { Shows result self.now.tokens }
    {
        self.ahead
    }

    /// Moves past the next token; nothing moves at the line's end and at a byte that begins no token.
    pub fn advance(&mut self)
        ensures { self.new ≡ record { line = self.old.line; tokens = after self.old.tokens } }
    {
        match self.ahead {
            Lexeme::End | Lexeme::Wrong => {}
            Lexeme::Word(_) | Lexeme::Number { .. } | Lexeme::Sign(_) => {
                let (ahead, behind) = first_lexeme(self.behind);
                self.ahead = ahead;
                self.behind = behind;
            }
        }
    }

    /// Gives the next token and moves past it; End and Wrong move nothing. Where memory runs out, nothing moves.
    pub fn token(&mut self, alloc: Global) -> Result<Token, NoMemory>
        ensures given { IfOk result (λ token. Gives token self.old.tokens self.new.tokens) }
        ensures line { self.new.line ≡ self.old.line }
        ensures stays { OnErr result (self.new ≡ self.old) }
    {
        let token = match self.ahead {
            Lexeme::End => Token::End,
            Lexeme::Wrong => Token::Wrong,
            Lexeme::Word(word) => Token::Word(text_of(alloc, word)?),
            Lexeme::Number { num, den } => Token::Number { num, den },
            Lexeme::Sign(sign) => Token::Sign(String::from_str(alloc, sign.text())?),
        };
        self.advance();
        Ok(token)
    }
}

#[tactic(auto, using(crate::proofs::ByteLaws::word_is_utf8))]
fn text_of(alloc: Global, word: &[u8]) -> Result<String, NoMemory>
    requires { is_word word.now ≡ true }
    ensures { IfOk result (λ text. string_bytes text ≡ word.now) }
{
    let text = str::from_utf8(word).unwrap();
    Ok(String::from_str(alloc, text)?)
}

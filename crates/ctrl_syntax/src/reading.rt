ghost use Rattle.std.specs.Prelude.{◌≡◌, ◌^◌, ◌<◌, ◌-◌, ℕ, List, length, IfOk, IsErrOf, Ok, Err};
ghost use Rattle.whole.specs.declared.answers.Refusal.{Refusal};
ghost use Rattle.source_text.specs.Header.{texts};
ghost use Rattle.ctrl_syntax.specs.Views.{GivesSeenUnless};
ghost use Rattle.ctrl_syntax.specs.Sections.{Sections, sections_of};
ghost use Rattle.ctrl_syntax.specs.Grammar.{IsText};
ghost use Rattle.ctrl_syntax.specs.Limits.{IsSyntax};
ghost use Rattle.ctrl_syntax.specs.Refused.{IsRefused};
ghost use Rattle.ctrl_syntax.specs.Reading.{names_controller, text_of};

use crate::refusals::refusal;
use crate::rest::Rest;
use crate::sections::sections;
use crate::syntax::Syntax;
use source_text::{SourceLines, is_header};
use std::alloc::Global;
use whole::ReadFault;

/// What a controller's text says; where the bytes are no such text, the first rule that they break, by the line:
/// G1 the header, G2 a byte that begins no token, G3 a line word, G4 the form of a `state` line, G5 of a `rule` line,
/// G6 of a `set` line, G7 a number that exceeds 1,000,000 over 1 to 1,000, G8 a term, G9 a part of a condition, G10 the
/// 17th nesting, G11 the 9th state, the 17th rule, term or comparison or a name of more than 16 letters, G12 a token
/// behind a finished line, G13 a line behind `end`, G14 a missing `end`.
pub fn read(alloc: Global, bytes: &[u8]) -> Result<Syntax, ReadFault>
    requires { length bytes.now < 2 ^ 32 - 1 }

    // The bytes spell what is given, which is within the limits, and what they spell is given, unless memory runs out.
    ensures found { IfOk result (λ syntax. IsText bytes.now (sections_of syntax)) }
    ensures limits { IfOk result IsSyntax }
    ensures only { (sections : Sections) → IsText bytes.now sections → GivesSeenUnless sections_of result (Ok sections) }

    // What is refused breaks this rule first, and what breaks a rule first is refused by it, unless memory runs out.
    ensures refused { (r : Refusal) → IsErrOf result (ReadFault.Refused r) → IsRefused bytes.now r }
    ensures first { (r : Refusal) → IsRefused bytes.now r → GivesSeenUnless sections_of result (Err r) }
{
    whole_text(alloc, bytes)
}

#[tactic(auto, unfolding(crate::specs::Reading::text_of))]
fn whole_text(alloc: Global, bytes: &[u8]) -> Result<Syntax, ReadFault>
    requires { length bytes.now < 2 ^ 32 - 1 }
    ensures { GivesSeenUnless sections_of result (text_of bytes.now) }
{
    let mut lines = SourceLines::of(bytes);
    match lines.next_line() {
        Some(line) if names_controller(line.bytes) => {
            let mut rest = Rest::of(lines);
            sections(alloc, &mut rest)
        }
        _ => Err(ReadFault::Refused(refusal(1, 1))),
    }
}

/// Whether line 1 is a controller's.
fn names_controller(line: &[u8]) -> bool
    ensures { result ≡ names_controller (texts line.now) }
{
    is_header(line, b"ccac-controller")
}

ghost use Rattle.std.specs.Prelude.{◌≡◌, ◌^◌, ◌<◌, ◌-◌, ℕ, List, length, IfOk, IsErrOf, Ok, Err};
ghost use Rattle.text_lines.specs.Steps.{Fails};
ghost use Rattle.whole.specs.declared.answers.Refusal.{Refusal};
ghost use Rattle.source_text.specs.Header.{texts};
ghost use Rattle.path_server.specs.Limits.{IsSetting};
ghost use Rattle.ctrl_syntax.specs.Views.{GivesSeenUnless};
ghost use Rattle.question_syntax.specs.Sections.{Sections, sections_of};
ghost use Rattle.question_syntax.specs.Grammar.{IsText};
ghost use Rattle.question_syntax.specs.Limits.{IsQuestion};
ghost use Rattle.question_syntax.specs.Refused.{IsRefused};
ghost use Rattle.question_syntax.specs.Reading.{names_question, text_of};

use crate::lines::sections;
use crate::refusals::refusal;
use crate::syntax::QuestionSyntax;
use ctrl_syntax::rest::Rest;
use path_server::Setting;
use source_text::{SourceLines, is_header};
use std::alloc::Global;
use whole::ReadFault;

/// What a question's text says; where the bytes are no such text, the first rule that they break, by the line:
/// Q1 the header, Q2 a byte that begins no token, Q3 a line word, Q4 the form of a line's value, Q5 a number that exceeds
/// 1,000,000 over 1 to 1,000, Q6 a value out of its range (flows 1 to 4, steps 1 to 32, rate above 0, jitter 0 to 8, rtt
/// 1 to 8, budget 1 to 16,777,216), Q7 a term or a part of a name, Q8 a part of a condition, Q9 the 17th nesting,
/// assumption, term or comparison or a name of more than 16 letters, Q10 a token behind a finished line or a line behind
/// `end`, Q11 a missing `end`.
pub fn read_syntax(alloc: Global, bytes: &[u8]) -> Result<QuestionSyntax, ReadFault>
    requires { length bytes.now < 2 ^ 32 - 1 }

    // The bytes spell what is given, and what they spell is given, unless memory runs out.
    ensures found { IfOk result (λ syntax. IsText bytes.now (sections_of syntax)) }
    ensures only { (s : Sections) → IsText bytes.now s → GivesSeenUnless sections_of result (Ok s) }

    // What is refused breaks this rule first, and what breaks a rule first is refused by it, unless memory runs out.
    ensures refused { (r : Refusal) → IsErrOf result (ReadFault.Refused r) → IsRefused bytes.now r }
    ensures first { (r : Refusal) → IsRefused bytes.now r → GivesSeenUnless sections_of result (Err r) }

    // What is given is within the limits of questions.
    ensures limits { IfOk result (λ syntax. IsQuestion (sections_of syntax)) }
{
    whole_text(alloc, bytes)
}

/// The setting of a question, whose whole text is read and refused as `read_syntax` does.
pub fn read_setting(alloc: Global, bytes: &[u8]) -> Result<Setting, ReadFault>
    requires { length bytes.now < 2 ^ 32 - 1 }
    ensures found { IfOk result (λ setting. (s : Sections) × (IsText bytes.now s × (s.setting ≡ setting))) }
    ensures only { (s : Sections) → IsText bytes.now s → GivesSeenUnless (λ setting. setting) result (Ok s.setting) }
    ensures refused { (r : Refusal) → IsErrOf result (ReadFault.Refused r) → IsRefused bytes.now r }
    ensures first { (r : Refusal) → IsRefused bytes.now r → GivesSeenUnless (λ setting. setting) result (Err r) }
    ensures limits { IfOk result IsSetting }
{
    Ok(read_syntax(alloc, bytes)?.setting)
}

#[tactic(auto, unfolding(crate::specs::Reading::text_of))]
fn whole_text(alloc: Global, bytes: &[u8]) -> Result<QuestionSyntax, ReadFault>
    requires { length bytes.now < 2 ^ 32 - 1 }
    ensures { GivesSeenUnless sections_of result (text_of bytes.now) }
{
    let mut lines = SourceLines::of(bytes);
    match lines.next_line() {
        Some(line) if names_question(line.bytes) => {
            let mut rest = Rest::of(lines);
            sections(alloc, &mut rest)
        }
        _ => Err(ReadFault::Refused(refusal(1, 1))),
    }
}

/// Whether line 1 is a question's.
fn names_question(line: &[u8]) -> bool
    ensures { result ≡ names_question (texts line.now) }
{
    is_header(line, b"ccac-question")
}

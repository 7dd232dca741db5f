// A whole certificate.
ghost use Rattle.std.specs.Prelude.{◌<◌, ◌-◌, ◌^◌, length, IfOk, IsErrOf, Err};
ghost use Rattle.whole.specs.declared.answers.Refusal.{Refusal};
ghost use Rattle.text_lines.specs.Steps.{GivesUnless};
ghost use Rattle.text_machine.specs.Texts.{read_text};
ghost use Rattle.cert_text.specs.Spelling.{Certificate, certificate, IsCertText};
ghost use Rattle.cert_text.specs.Rules.{opening, cert_format, IsRefused};
ghost use Rattle.cert_text.specs.Tables.{cert_table, GivesRead, GivesCert};

use crate::drafts::Draft;
use farkas_cert::Cert;
use std::alloc::Global;
use text_lines::Lines;
use whole::ReadFault;

/// The certificate whose text the bytes are; where they are no such text, the first rule that they break, by the line and
/// in a line by the item: F1 the header, F2 the sizes, F3 a `lemma` line, F4 a multiplier below 0, F5 a node's line, F6 a
/// number past its range or a node below more than 4,096 splits, F7 a line of another kind than is wanted, F8 a missing
/// `end` or LF, F9 an `end` with no lemma before it or bytes behind it.
pub fn read_cert(alloc: Global, bytes: &[u8]) -> Result<Cert, ReadFault>
    requires { length bytes.now < 2 ^ 32 - 1 }

    // What is read is the text of what is given, and what is such a text is read, unless memory runs out.
    ensures found { IfOk result (λ cert. IsCertText bytes.now (certificate cert)) }
    ensures only { (c : Certificate) → IsCertText bytes.now c → GivesCert result c }

    // What is refused breaks this rule first, and what breaks a rule first is refused by it, unless memory runs out.
    ensures refused { (r : Refusal) → IsErrOf result (ReadFault.Refused r) → IsRefused bytes.now r }
    ensures first { (r : Refusal) → IsRefused bytes.now r → GivesUnless result (Err r) }
{
    read_lines(alloc, bytes)
}

/// The certificate, line by line.
fn read_lines(alloc: Global, bytes: &[u8]) -> Result<Cert, ReadFault>
    requires { length bytes.now < 2 ^ 32 - 1 }
    ensures { GivesRead (λ cert. cert_table (certificate cert)) result (read_text cert_format opening bytes.now) }
{
    let mut lines = Lines::of(bytes);
    let mut draft = Draft::new(alloc);
    loop {
        let number = lines.number();
        match lines.next_line() {
            Some(line) => draft.feed(alloc, line, number)?,
            None => return draft.finish(number, lines.is_finished()),
        }
    }
}

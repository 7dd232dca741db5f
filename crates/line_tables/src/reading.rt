// A whole text.
ghost use Rattle.std.specs.Prelude.{◌≡◌, ◌<◌, ◌-◌, ◌^◌, ℕ, List, [], ◌∷◌, map, length, Ok, Err, IfOk, IsErrOf};
ghost use Rattle.whole.specs.declared.answers.Refusal.{Refusal};
ghost use Rattle.text_lines.specs.Lines.{is_over};
ghost use Rattle.text_lines.specs.Steps.{GivesUnless};
ghost use Rattle.text_machine.specs.Texts.{Table, GivesText, step};
ghost use Rattle.line_tables.specs.Tables.{Rule, AreWords, IsRefused, IsText, format, format_of, number_of, numbers, refusal, rules_of, text_read};
ghost use Rattle.line_tables.specs.Given.{GivesStep, finished};

use crate::rows::read_row;
use crate::spots::Spot;
use crate::tables::{Line, LineTable, Row};
use sqlite_items::Items;
use std::alloc::Global;
use text_lines::Lines;
use text_machine::{Fault, LineFault};
use whole::{ReadFault, Refusal};

/// The rows of the text that the bytes are, by the table; where they are no such text, the first rule that they break: 1 a line of another form, 2 a number past `2^127 - 1`, 3 a line that may not stand
/// there or bytes behind the last one, 4 a missing last line or LF.
pub fn read(alloc: Global, table: &LineTable, bytes: &[u8]) -> Result<Items<Row>, ReadFault>
    requires words { AreWords (rules_of table.now.lines.now) }
    requires short { length bytes.now < 2 ^ 32 - 1 }

    // What is read is the text of what is given, and what is such a text is read, unless memory runs out.
    ensures found { IfOk result (λ rows. IsText (format_of table.now) bytes.now (map numbers rows)) }
    ensures only { (t : Table) → IsText (format_of table.now) bytes.now t → GivesText (map numbers) result (Ok t) }

    // What is refused breaks this rule first, and what breaks a rule first is refused by it, unless memory runs out.
    ensures refused { (r : Refusal) → IsErrOf result (ReadFault.Refused r) → IsRefused (format_of table.now) bytes.now r }
    ensures first { (r : Refusal) → IsRefused (format_of table.now) bytes.now r → GivesUnless result (Err r) }
{
    read_rows(alloc, table.letter, table.lines, bytes)
}

fn read_rows(
    alloc: Global,
    letter: u8,
    lines: &[Line],
    bytes: &[u8],
) -> Result<Items<Row>, ReadFault>
    requires words { AreWords (rules_of lines.now) }
    requires short { length bytes.now < 2 ^ 32 - 1 }
    ensures { GivesText (map numbers) result (text_read (format letter (rules_of lines.now)) bytes.now) }
{
    let mut left = Lines::of(bytes);
    let mut found = Items::new(alloc);
    let mut spot = Spot::Start;
    loop {
        let number = left.number();
        match left.next_line() {
            Some(text) => {
                let (row, next) = take_row(alloc, letter, lines, spot, text, number)?;
                found.push(row)?;
                spot = next;
            }
            None => return finish(letter, spot, found, number, left.is_finished()),
        }
    }
}

/// What line `number` says, and where the next one stands.
fn take_row(
    alloc: Global,
    letter: u8,
    lines: &[Line],
    spot: Spot,
    text: &[u8],
    number: u32,
) -> Result<(Row, Spot), ReadFault>
    requires { AreWords (rules_of lines.now) }
    ensures { GivesStep result (step (format letter (rules_of lines.now)) spot number text.now) }
{
    match read_row(alloc, lines, spot, text) {
        Ok(found) => Ok(found),
        Err(LineFault::Item(fault)) => Err(ReadFault::Refused(refusal(
            letter,
            number_of(fault),
            number,
        ))),
        Err(LineFault::NoMemory) => Err(ReadFault::NoMemory),
    }
}

/// The rows that were found, where the text ends in line `number`.
#[tactic(auto, unfolding(text_machine::specs::Texts::finish))]
fn finish(
    letter: u8,
    spot: Spot,
    found: Items<Row>,
    number: u32,
    is_finished: bool,
) -> Result<Items<Row>, ReadFault>
    ensures { (rules : List Rule) (rest : List ℕ) → is_finished ≡ is_over (rest ∷ []) → GivesText (map numbers) result (finished (format letter rules) spot (map numbers found) number rest) }
{
    match spot {
        Spot::Start | Spot::Body { .. } => Err(ReadFault::Refused(refusal(letter, 4, number))),
        Spot::Done if is_finished => Ok(found),
        Spot::Done => Err(ReadFault::Refused(refusal(letter, 3, number))),
    }
}

fn refusal(letter: u8, number: u8, line: u32) -> Refusal
    ensures { result ≡ refusal letter number line }
{
    Refusal {
        letter,
        number,
        line,
    }
}

fn number_of(fault: Fault) -> u8
    ensures { result ≡ number_of fault }
{
    match fault {
        Fault::Large => 2,
        Fault::Misplaced => 3,
        _ => 1,
    }
}

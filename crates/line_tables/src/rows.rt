// One line of a text.
ghost use Rattle.std.specs.Prelude.{◌≡◌, ◌<◌, pos, true, length, IfOk, IfSome, position};
ghost use Rattle.std.specs.Str.{bytes_eq};
ghost use Rattle.text_lines.specs.Pieces.{pieces};
ghost use Rattle.text_machine.specs.Items.{one_of};
ghost use Rattle.text_machine.specs.Lines.{take, read_line};
ghost use Rattle.text_machine.specs.Scripts.{GivesAs};
ghost use Rattle.text_machine.specs.Given.{GivesLine};
ghost use Rattle.line_tables.specs.Tables.{rule_of, rules_of, words, rule_at, may_stand, AreWords, form_at, line_form, form_in, leads, numbers};
ghost use Rattle.line_tables.specs.Given.{form_read};

use crate::items::items_of;
use crate::spots::{Spot, leads_by, may_stand};
use crate::tables::{Line, Row};
use sqlite_items::Items;
use std::alloc::Global;
use text_machine::{Fault, Fields, LineFault};

/// What the line says that stands there, and where the next one stands.
pub(crate) fn read_row(
    alloc: Global,
    lines: &[Line],
    spot: Spot,
    text: &[u8],
) -> Result<(Row, Spot), LineFault>
    requires { AreWords (rules_of lines.now) }
    ensures exact { GivesLine (λ found. numbers found.0) result (form_read (form_in (rules_of lines.now) spot) (pieces 32 text.now)) }
    ensures leads { IfOk result (λ found. found.1 ≡ leads (rules_of lines.now) spot (numbers found.0)) }
{
    let mut fields = Fields::of(text);
    match spot {
        Spot::Start | Spot::Body { .. } => row_of(alloc, lines, spot, &mut fields),
        Spot::Done => Err(LineFault::Item(Fault::Misplaced)),
    }
}

fn row_of(
    alloc: Global,
    lines: &[Line],
    spot: Spot,
    fields: &mut Fields<'_>,
) -> Result<(Row, Spot), LineFault>
    requires { AreWords (rules_of lines.now) }
    ensures exact { GivesLine (λ found. numbers found.0) result (read_line (line_form (rules_of lines.now) spot) fields.old) }
    ensures leads { IfOk result (λ found. found.1 ≡ leads (rules_of lines.now) spot (numbers found.0)) }
{
    let (at, line) = take_word(fields, lines)?;
    let numbers = numbers_of(alloc, fields, line, spot)?;
    let next = leads_by(line.place, numbers.as_slice(), spot);
    Ok((Row { line: at, numbers }, next))
}

/// The numbers behind the word of this line, where it may stand.
fn numbers_of(
    alloc: Global,
    fields: &mut Fields<'_>,
    line: Line,
    spot: Spot,
) -> Result<Items<i128>, LineFault>
    ensures exact { GivesLine (λ zs. zs) result (read_line (form_at (rule_of line) spot) fields.old) }
    ensures stands { IfOk result (λ _. may_stand line.place spot ≡ true) }
{
    if may_stand(line.place, spot) {
        items_of(alloc, fields, line.items)
    } else {
        Err(LineFault::Item(Fault::Misplaced))
    }
}

/// Takes the word of a line of the table: the line's place and itself.
#[tactic(auto, unfolding(text_machine::specs::Lines::take, text_machine::specs::Items::read_item))]
fn take_word(fields: &mut Fields<'_>, lines: &[Line]) -> Result<(usize, Line), Fault>
    ensures exact { (ok : AreWords (rules_of lines.now)) → GivesAs (λ found. pos found.0) result fields.new (take (one_of (words (rules_of lines.now)) ok) fields.old) }
    ensures line { IfOk result (λ found. rule_of found.1 ≡ rule_at (rules_of lines.now) found.0) }
{
    let item = fields.next_item().ok_or(Fault::Form)?;
    match place_of(lines, item) {
        Some(at) => Ok((at, lines[at])),
        None => Err(Fault::Form),
    }
}

fn place_of(lines: &[Line], item: &[u8]) -> Option<usize>
    ensures exact { result ≡ position (λ line. bytes_eq item.now line.word.now) lines.now }
    ensures place { IfSome result (λ i. i < length lines.now) }
{
    lines.iter().position(|line| item == line.word.as_bytes())
}

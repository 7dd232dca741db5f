// The items of each kind of line, and the refusal of a line.
ghost use Rattle.std.specs.Prelude.{◌≡◌, ℕ, Ok, Err, IfOk, MatchResult, []};
ghost use Rattle.run_rows.specs.Limits.{IsWithin};
ghost use Rattle.text_lines.specs.Pieces.{pieces};
ghost use Rattle.text_machine.specs.Lines.{read_line};
ghost use Rattle.text_machine.specs.Given.{Reads, GivesLine};
ghost use Rattle.trace_text.specs.Script.{refusal, blame, header_line, shape_line, over_line, credit_line, row_line, flow_line, end_line, shape_numbers, one_number, waste_numbers, flow_numbers};

use run_rows::{FlowRow, Shape};
use std::alloc::Global;
use text_machine::{Fault, Fields, LineFault, last_wholes};
use whole::Refusal;

/// The refusal by the rule V of this number.
pub(crate) fn refusal(number: u8, line: u32) -> Refusal
    ensures { result ≡ refusal number line }
{
    Refusal {
        letter: b'V',
        number,
        line,
    }
}

/// The refusal of a line by its own rule, or by the rule on numbers that are too large.
pub(crate) fn blame(own: u8, line: u32, fault: Fault) -> Refusal
    ensures { result ≡ blame own line fault }
{
    match fault {
        Fault::Large => refusal(5, line),
        _ => refusal(own, line),
    }
}

#[tactic(auto, unfolding(text_machine::specs::Lines::read_line))]
pub(crate) fn header_of(line: &[u8]) -> Result<(), Fault>
    ensures { Reads (λ _. []) result (read_line header_line.form (pieces 32 line.now)) }
{
    let mut fields = Fields::of(line);
    fields.word(b"ccac-trace")?;
    fields.word(b"1")?;
    fields.end()
}

#[tactic(auto, unfolding(text_machine::specs::Lines::read_line))]
pub(crate) fn shape_of(line: &[u8]) -> Result<Shape, Fault>
    ensures exact { Reads shape_numbers result (read_line shape_line.form (pieces 32 line.now)) }
    ensures within { IfOk result IsWithin }
{
    let mut fields = Fields::of(line);
    fields.word(b"shape")?;
    let flows = fields.natural(1, 4)?;
    let states = fields.natural(0, 8)?;
    let h = fields.natural(2, 16)?;
    let t = fields.natural(1, 32)?;
    fields.end()?;
    Ok(Shape {
        flows,
        states,
        h,
        t,
    })
}

#[tactic(auto, unfolding(text_machine::specs::Lines::read_line))]
pub(crate) fn over_of(line: &[u8]) -> Result<i128, Fault>
    ensures { Reads one_number result (read_line over_line.form (pieces 32 line.now)) }
{
    let mut fields = Fields::of(line);
    fields.word(b"over")?;
    let over = fields.positive()?;
    fields.end()?;
    Ok(over)
}

#[tactic(auto, unfolding(text_machine::specs::Lines::read_line))]
pub(crate) fn credit_of(line: &[u8]) -> Result<i128, Fault>
    ensures { Reads one_number result (read_line credit_line.form (pieces 32 line.now)) }
{
    let mut fields = Fields::of(line);
    fields.word(b"credit")?;
    let credit = fields.whole()?;
    fields.end()?;
    Ok(credit)
}

#[tactic(auto, unfolding(text_machine::specs::Lines::read_line))]
pub(crate) fn waste_of(line: &[u8], row: u32) -> Result<i128, Fault>
    ensures { Reads (waste_numbers row) result (read_line (row_line row).form (pieces 32 line.now)) }
{
    let mut fields = Fields::of(line);
    fields.word(b"row")?;
    fields.natural(row, row)?;
    let waste = fields.whole()?;
    fields.end()?;
    Ok(waste)
}

#[tactic(auto, unfolding(text_machine::specs::Lines::read_line))]
pub(crate) fn last_of(line: &[u8]) -> Result<(), Fault>
    ensures { Reads (λ _. []) result (read_line end_line.form (pieces 32 line.now)) }
{
    let mut fields = Fields::of(line);
    fields.word(b"end")?;
    fields.end()
}

#[tactic(auto, unfolding(text_machine::specs::Lines::read_line))]
pub(crate) fn flow_of(
    alloc: Global,
    line: &[u8],
    flow: u32,
    states: u32,
) -> Result<FlowRow, LineFault>
    ensures { GivesLine (flow_numbers flow) result (read_line (flow_line states flow).form (pieces 32 line.now)) }
{
    let mut fields = Fields::of(line);
    fields.word(b"flow")?;
    fields.natural(flow, flow)?;
    let a = fields.whole()?;
    let s = fields.whole()?;
    let l = fields.whole()?;
    let x = last_wholes(alloc, &mut fields, states)?;
    Ok(FlowRow { a, s, l, x })
}

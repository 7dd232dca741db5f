ghost use Rattle.std.specs.Prelude.{◌≡◌, ℕ, ◌+◌, ◌-◌, ◌^◌, ◌<◌, ◌≤◌, [], ◌∷◌, ◌++◌, length, All, IfOk, IsErrOf, MatchResult, None, Some, Ok, Err};
ghost use Rattle.text_lines.specs.Lines.{next};
ghost use Rattle.text_lines.specs.Steps.{GivesUnless, Fails, numbered};
ghost use Rattle.text_machine.specs.Given.{GivesLines};
ghost use Rattle.text_machine.specs.Scripts.{GivesAs, line_by, lines_by, lines_from};
ghost use Rattle.text_machine.specs.Texts.{GivesText, named, read_text};
ghost use Rattle.run_rows.specs.Limits.{IsWithin};
ghost use Rattle.run_rows.specs.Runs.{state_count};
ghost use Rattle.run_rows.specs.declared.shapes.Shape.{Shape};
ghost use Rattle.run_rows.specs.declared.rows.Run.{Run};
ghost use Rattle.whole.specs.declared.answers.Refusal.{Refusal};
ghost use Rattle.trace_text.specs.Spelling.{IsTraceText};
ghost use Rattle.trace_text.specs.Script.{refusal, blame, IsRefused, header_line, shape_line, over_line, credit_line, row_line, flow_line, end_line, flow_lines, row_lines, run_lines, shape_numbers, one_number, waste_numbers, flow_numbers, flow_table, row_table, run_table, trace_table, trace_script, trace_format};
ghost use Rattle.trace_text.specs.Reading.{SizedFlows, SizedRow, SizedRows, trace_by};

use crate::lines::{
    blame, credit_of, flow_of, header_of, last_of, over_of, refusal, shape_of, waste_of,
};
use run_rows::{FlowRow, Row, Run, Shape};
use sqlite_items::Items;
use std::alloc::Global;
use text_lines::Lines;
use text_machine::{Fault, LineFault};
use whole::{ReadFault, Refusal};

/// Takes the next line. Where the text ends before its LF, `end` is missing.
fn take_line<'a>(lines: &mut Lines<'a>) -> Result<&'a [u8], Refusal>
    ensures { MatchResult result
        (λ line. next lines.old ≡ Some (line.now, lines.new))
        (λ fault. (next lines.old ≡ None) × (fault ≡ refusal 6 lines.old.line)) }
{
    let number = lines.number();
    lines.next_line().ok_or(refusal(6, number))
}

/// What is read of a line, or the refusal of that line.
fn blamed<T>(own: u8, line: u32, read: Result<T, Fault>) -> Result<T, Refusal>
    ensures { result ≡ named (blame own line) read }
{
    match read {
        Ok(found) => Ok(found),
        Err(fault) => Err(blame(own, line, fault)),
    }
}

#[tactic(auto, using(text_lines::proofs::PieceLaws::over_has_none), unfolding(text_machine::specs::Scripts::line_by))]
fn read_header(lines: &mut Lines<'_>) -> Result<(), Refusal>
    ensures { GivesAs (λ _. []) result lines.new (line_by header_line lines.old) }
{
    let number = lines.number();
    if lines.is_finished() {
        return Err(refusal(1, number));
    }
    blamed(1, number, header_of(take_line(lines)?))
}

#[tactic(auto, unfolding(text_machine::specs::Scripts::line_by))]
fn read_shape(lines: &mut Lines<'_>) -> Result<Shape, Refusal>
    ensures exact { GivesAs shape_numbers result lines.new (line_by shape_line lines.old) }
    ensures within { IfOk result IsWithin }
{
    let number = lines.number();
    blamed(2, number, shape_of(take_line(lines)?))
}

#[tactic(auto, unfolding(text_machine::specs::Scripts::line_by))]
fn read_over(lines: &mut Lines<'_>) -> Result<i128, Refusal>
    ensures { GivesAs one_number result lines.new (line_by over_line lines.old) }
{
    let number = lines.number();
    blamed(3, number, over_of(take_line(lines)?))
}

#[tactic(auto, unfolding(text_machine::specs::Scripts::line_by))]
fn read_credit(lines: &mut Lines<'_>) -> Result<i128, Refusal>
    ensures { GivesAs one_number result lines.new (line_by credit_line lines.old) }
{
    let number = lines.number();
    blamed(3, number, credit_of(take_line(lines)?))
}

#[tactic(auto, unfolding(text_machine::specs::Scripts::line_by))]
fn read_waste(lines: &mut Lines<'_>, row: u32) -> Result<i128, Refusal>
    ensures { GivesAs (waste_numbers row) result lines.new (line_by (row_line row) lines.old) }
{
    let number = lines.number();
    blamed(4, number, waste_of(take_line(lines)?, row))
}

#[tactic(auto, unfolding(text_machine::specs::Scripts::line_by))]
fn read_flow(
    alloc: Global,
    lines: &mut Lines<'_>,
    flow: u32,
    states: u32,
) -> Result<FlowRow, ReadFault>
    ensures { GivesLines (flow_numbers flow) result lines.new (line_by (flow_line states flow) lines.old) }
{
    let number = lines.number();
    let line = take_line(lines)?;
    match flow_of(alloc, line, flow, states) {
        Ok(flow) => Ok(flow),
        Err(LineFault::Item(fault)) => Err(ReadFault::Refused(blame(4, number, fault))),
        Err(LineFault::NoMemory) => Err(ReadFault::NoMemory),
    }
}

#[tactic(auto, unfolding(text_machine::specs::Scripts::line_by))]
fn read_end(lines: &mut Lines<'_>) -> Result<(), Refusal>
    ensures { GivesAs (λ _. []) result lines.new (line_by end_line lines.old) }
{
    let number = lines.number();
    blamed(6, number, last_of(take_line(lines)?))
}

/// The flows of a row, each on its line.
fn read_flows(
    alloc: Global,
    lines: &mut Lines<'_>,
    flows: u32,
    states: u32,
) -> Result<Items<FlowRow>, ReadFault>
    requires { flows < 2 ^ 31 }
    ensures exact { GivesLines (numbered flow_table 1) result lines.new (lines_by (lines_from (flow_lines states) flows 1) lines.old) }
    ensures sized { IfOk result (SizedFlows flows) }
{
    let mut found = Items::new(alloc);
    for i in 0..flows {
        let flow = read_flow(alloc, lines, 1 + i, states)?;
        found.push(flow)?;
    }
    Ok(found)
}

/// A row: its waste and its flows.
#[tactic(auto, unfolding(text_machine::specs::Scripts::lines_by))]
fn read_row(alloc: Global, lines: &mut Lines<'_>, shape: &Shape, row: u32) -> Result<Row, ReadFault>
    requires { IsWithin shape.now }
    ensures exact { GivesLines (row_table row) result lines.new (lines_by (row_lines shape.now row) lines.old) }
    ensures sized { IfOk result (SizedRow shape.now row) }
{
    let states = if row < shape.h { 0 } else { shape.states };
    let w = read_waste(lines, row)?;
    let flows = read_flows(alloc, lines, shape.flows, states)?;
    Ok(Row { w, flows })
}

/// The rows 0 to `h + t`.
fn read_rows(alloc: Global, lines: &mut Lines<'_>, shape: &Shape) -> Result<Items<Row>, ReadFault>
    requires { IsWithin shape.now }
    ensures exact { GivesLines (numbered row_table 0) result lines.new (lines_by (lines_from (row_lines shape.now) (shape.now.h + shape.now.t + 1) 0) lines.old) }
    ensures sized { IfOk result (SizedRows shape.now) }
{
    let mut rows = Items::new(alloc);
    for i in 0..shape.h + shape.t + 1 {
        let row = read_row(alloc, lines, shape, i)?;
        rows.push(row)?;
    }
    Ok(rows)
}

#[tactic(auto, unfolding(text_machine::specs::Scripts::lines_by))]
fn read_run(alloc: Global, lines: &mut Lines<'_>, shape: &Shape) -> Result<Run, ReadFault>
    requires { IsWithin shape.now }
    ensures exact { GivesLines run_table result lines.new (lines_by (run_lines shape.now) lines.old) }
    ensures sized { IfOk result (λ run. SizedRows shape.now run.rows) }
{
    let over = read_over(lines)?;
    let credit = read_credit(lines)?;
    let rows = read_rows(alloc, lines, shape)?;
    Ok(Run { over, credit, rows })
}

#[tactic(auto, unfolding(crate::specs::Reading::trace_by))]
fn read_lines(alloc: Global, lines: &mut Lines<'_>) -> Result<(Shape, Run), ReadFault>
    ensures exact { GivesText (λ trace. trace_table trace.0 trace.1) result (trace_by lines.old) }
    ensures sized { IfOk result (λ trace. SizedRows trace.0 trace.1.rows) }
{
    read_header(lines)?;
    let shape = read_shape(lines)?;
    let run = read_run(alloc, lines, &shape)?;
    read_end(lines)?;
    if !lines.is_finished() {
        return Err(ReadFault::Refused(refusal(6, lines.number())));
    }
    Ok((shape, run))
}

/// The shape and the run whose text the bytes are; where they are no such text, the first rule that
/// they break, by the line: V1 the header, V2 the shape, V3 `over` and `credit`, V4 a row or a flow,
/// V5 a number that exceeds `2^127 - 1` in size, V6 a missing `end` or bytes behind it.
pub fn read_trace(alloc: Global, bytes: &[u8]) -> Result<(Shape, Run), ReadFault>
    requires { length bytes.now < 2 ^ 32 - 1 }

    // What is read is the text of what is given, and what is such a text is read, unless memory runs out.
    ensures found { IfOk result (λ trace. IsTraceText bytes.now trace.0 trace.1) }
    ensures only { (shape : Shape) (run : Run) → IsTraceText bytes.now shape run → GivesUnless result (Ok (shape, run)) }

    // What is refused breaks this rule first, and what breaks a rule first is refused by it, unless memory runs out.
    ensures refused { (r : Refusal) → IsErrOf result (ReadFault.Refused r) → IsRefused bytes.now r }
    ensures first { (r : Refusal) → IsRefused bytes.now r → GivesUnless result (Err r) }
{
    let mut lines = Lines::of(bytes);
    read_lines(alloc, &mut lines)
}

ghost use Rattle.std.specs.Prelude.{◌≡◌, ℕ, ◌+◌, ◌^◌, ◌<◌, [], ◌∷◌, ◌++◌, length, map, IfOk, OnOk, string_bytes};
ghost use Rattle.std.specs.Fmt.{signed_decimal};
ghost use Rattle.text_lines.specs.Pieces.{line_of, ended, spaced, text};
ghost use Rattle.text_lines.specs.Steps.{numbered};
ghost use Rattle.run_rows.specs.Limits.{IsWithin};
ghost use Rattle.run_rows.specs.Runs.{Fits};
ghost use Rattle.trace_text.specs.Spelling.{header, shape_line, over_line, credit_line, row_line, counts_of, flow_line, row_lines, flow_lines, trace_lines};

use run_rows::{FlowRow, Row, Run, Shape};
use std::alloc::{AllocError, Global};
use std::fmt::Write;
use whole::NoMemory;

/// The one text of the run with its shape.
pub fn print_trace(alloc: Global, shape: &Shape, run: &Run) -> Result<Vec<u8>, NoMemory>
    requires within { IsWithin shape.now }
    requires fits { Fits shape.now run.now }
    ensures { IfOk result (λ bytes. bytes.items ≡ text (trace_lines shape.now run.now)) }
{
    let mut out = String::new(alloc);
    put_head(&mut out, shape, run)?;
    put_rows(&mut out, run.rows.as_slice())?;
    out.push_str("end\n")?;
    Ok(out.into_bytes())
}

/// The lines before the rows.
fn put_head(out: &mut String, shape: &Shape, run: &Run) -> Result<(), AllocError>
    ensures { OnOk result (string_bytes out.new ≡ string_bytes out.old
        ++ text (header ∷ shape_line shape.now ∷ over_line run.now ∷ credit_line run.now ∷ [])) }
{
    out.push_str("ccac-trace 1\n")?;
    put_shape(out, shape)?;
    put_over(out, run)?;
    put_credit(out, run)?;
    Ok(())
}

fn put_shape(out: &mut String, shape: &Shape) -> Result<(), AllocError>
    ensures { OnOk result (string_bytes out.new ≡ string_bytes out.old ++ ended (shape_line shape.now)) }
{
    write!(
        out,
        "shape {} {} {} {}\n",
        shape.flows, shape.states, shape.h, shape.t
    )
}

fn put_over(out: &mut String, run: &Run) -> Result<(), AllocError>
    ensures { OnOk result (string_bytes out.new ≡ string_bytes out.old ++ ended (over_line run.now)) }
{
    write!(out, "over {}\n", run.over)
}

fn put_credit(out: &mut String, run: &Run) -> Result<(), AllocError>
    ensures { OnOk result (string_bytes out.new ≡ string_bytes out.old ++ ended (credit_line run.now)) }
{
    write!(out, "credit {}\n", run.credit)
}

fn put_rows(out: &mut String, rows: &[Row]) -> Result<(), AllocError>
    ensures { OnOk result (string_bytes out.new ≡ string_bytes out.old ++ text (numbered row_lines 0 rows.now)) }
{
    for (i, row) in rows.iter().enumerate() {
        put_row(out, i, row)?;
    }
    Ok(())
}

fn put_row(out: &mut String, number: usize, row: &Row) -> Result<(), AllocError>
    ensures { OnOk result (string_bytes out.new ≡ string_bytes out.old ++ text (row_lines number row.now)) }
{
    put_waste(out, number, row)?;
    put_flows(out, row.flows.as_slice())?;
    Ok(())
}

fn put_waste(out: &mut String, number: usize, row: &Row) -> Result<(), AllocError>
    ensures { OnOk result (string_bytes out.new ≡ string_bytes out.old ++ ended (row_line number row.now)) }
{
    write!(out, "row {} {}\n", number, row.w)
}

fn put_flows(out: &mut String, flows: &[FlowRow]) -> Result<(), AllocError>
    ensures { OnOk result (string_bytes out.new ≡ string_bytes out.old ++ text (numbered flow_lines 1 flows.now)) }
{
    for (i, flow) in flows.iter().enumerate() {
        put_flow(out, 1 + i, flow)?;
    }
    Ok(())
}

fn put_flow(out: &mut String, number: usize, flow: &FlowRow) -> Result<(), AllocError>
    ensures { OnOk result (string_bytes out.new ≡ string_bytes out.old ++ text (flow_lines number flow.now)) }
{
    put_counts(out, number, flow)?;
    put_states(out, flow.x.as_slice())?;
    out.push_str("\n")?;
    Ok(())
}

/// The line of a flow, up to its states.
fn put_counts(out: &mut String, number: usize, flow: &FlowRow) -> Result<(), AllocError>
    ensures { OnOk result (string_bytes out.new ≡ string_bytes out.old ++ line_of (counts_of number flow.now)) }
{
    write!(out, "flow {} {} {} {}", number, flow.a, flow.s, flow.l)
}

/// The states, each behind a space.
fn put_states(out: &mut String, states: &[i128]) -> Result<(), AllocError>
    ensures { OnOk result (string_bytes out.new ≡ string_bytes out.old ++ spaced (map signed_decimal states.now)) }
{
    for state in states {
        put_state(out, *state)?;
    }
    Ok(())
}

fn put_state(out: &mut String, state: i128) -> Result<(), AllocError>
    ensures { OnOk result (string_bytes out.new ≡ string_bytes out.old ++ (32 ∷ signed_decimal state)) }
{
    write!(out, " {}", state)
}

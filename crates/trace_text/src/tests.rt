ghost use Rattle.std.specs.Prelude.{◌<◌, length};

use super::*;
use std::alloc::{AllocError, Global};
use std::test::Fail;
use whole::{ReadFault, Refusal};

/// A trace of one flow with one state, by lines.
const LINES: [&str; 13] = [
    "ccac-trace 1",
    "shape 1 1 2 1",
    "over 1",
    "credit 0",
    "row 0 0",
    "flow 1 2 0 0",
    "row 1 0",
    "flow 1 2 0 0",
    "row 2 0",
    "flow 1 3 1 0 2",
    "row 3 0",
    "flow 1 3 3 0 2",
    "end",
];

/// The trace, with another line in the place of the one with this number.
fn trace_with(alloc: Global, number: usize, line: &str) -> Result<String, AllocError> {
    let mut text = String::new(alloc);
    for (i, old) in LINES.iter().enumerate() {
        text.push_str(if i < number && i + 1 == number {
            line
        } else {
            *old
        })?;
        text.push_str("\n")?;
    }
    Ok(text)
}

/// The rule and the line of the refusal, or 0 and 0 where the bytes are a trace.
fn refusal_of(alloc: Global, bytes: &[u8]) -> Result<(u8, usize), Fail>
    requires { length bytes.now < 1000 }
{
    match read_trace(alloc, bytes) {
        Ok(_) => Ok((0, 0)),
        Err(
            ReadFault::Refused(
                Refusal {
                    letter: _,
                    number,
                    line,
                },
            ),
        ) => Ok((number, line as usize)),
        Err(ReadFault::NoMemory) => Err(Fail::from("memory ran out")),
    }
}

#[test]
fn a_trace_is_read_and_printed_again(rt: HostRuntime) -> Result<(), Fail> {
    let text = trace_with(rt.alloc(), 1, "ccac-trace 1")?;
    assert!(rt; text.len() < 1000);
    let (shape, run) = read_trace(rt.alloc(), text.as_bytes())?;
    assert_eq!(rt; (shape.flows, shape.states, shape.h, shape.t), (1, 1, 2, 1));
    assert_eq!(rt; (run.over, run.credit, run.rows.len()), (1, 0, 4));
    let printed = print_trace(rt.alloc(), &shape, &run)
        .ok()
        .ok_or("memory ran out")?;
    assert_eq!(rt; printed.as_slice(), text.as_bytes());
    Ok(())
}

#[test]
fn the_first_line_that_is_wrong_is_named(rt: HostRuntime) -> Result<(), Fail> {
    for (line, text, rule) in [
        (1, "ccac-trace 2", 1),
        (1, "ccac-trace  1", 1),
        (2, "shape 1 1 2", 2),
        (2, "shape 5 1 2 1", 2),
        (2, "shape 1 9 2 1", 2),
        (2, "shape 1 1 1 1", 2),
        (2, "shape 1 1 2 33", 2),
        (2, "shape 01 1 2 1", 2),
        (2, "shape 1 1 2 1 1", 2),
        (2, "shape 170141183460469231731687303715884105728 1 2 1", 2),
        (3, "over 0", 3),
        (3, "over -1", 3),
        (3, "ever 1", 3),
        (3, "over 170141183460469231731687303715884105728", 5),
        (4, "credit -0", 3),
        (4, "credit -170141183460469231731687303715884105728", 5),
        (4, "credit -170141183460469231731687303715884105727", 0),
        (5, "row 1 0", 4),
        (5, "row 0 00", 4),
        (5, "end", 4),
        (6, "flow 1 2 0", 4),
        (6, "flow 1 2 0 0 2", 4),
        (6, "flow 1 170141183460469231731687303715884105728 0 +0", 5),
        (6, "flow 1 +2 0 170141183460469231731687303715884105728", 4),
        (12, "flow 2 3 3 0 2", 4),
        (12, "flow 1 3 3 0", 4),
        (13, "row 4 0", 6),
        (13, "end ", 6),
    ] {
        let trace = trace_with(rt.alloc(), line, text)?;
        assert!(rt; trace.len() < 1000);
        let wanted = if rule == 0 { (0, 0) } else { (rule, line) };
        assert_eq!(rt; refusal_of(rt.alloc(), trace.as_bytes())?, wanted, "{text}");
    }
    Ok(())
}

#[test]
fn where_a_text_may_end(rt: HostRuntime) -> Result<(), Fail> {
    let trace = trace_with(rt.alloc(), 1, "ccac-trace 1")?;
    let bytes = trace.as_bytes();
    assert!(rt; bytes.len() < 900 && bytes.len() > 100);
    let last = bytes.len() - 4;
    assert_eq!(rt;
        refusal_of(rt.alloc(), &bytes[..last])?,
        (6, 13),
        "without its last line"
    );
    assert_eq!(rt;
        refusal_of(rt.alloc(), &bytes[..last + 3])?,
        (6, 13),
        "without its last LF"
    );
    assert_eq!(rt;
        refusal_of(rt.alloc(), &bytes[..20])?,
        (6, 2),
        "within its second line"
    );
    assert_eq!(rt; refusal_of(rt.alloc(), b"")?, (1, 1), "no bytes");
    assert_eq!(rt; refusal_of(rt.alloc(), b"violated")?, (6, 1), "no line");
    assert_eq!(rt;
        refusal_of(rt.alloc(), b"violated\n")?,
        (1, 1),
        "another first line"
    );
    let mut longer = trace_with(rt.alloc(), 1, "ccac-trace 1")?;
    longer.push_str("\n")?;
    assert!(rt; longer.len() < 1000);
    assert_eq!(rt;
        refusal_of(rt.alloc(), longer.as_bytes())?,
        (6, 14),
        "bytes behind the last line"
    );
    Ok(())
}

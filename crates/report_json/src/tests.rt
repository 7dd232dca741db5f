use crate::report_line;
use std::test::Fail;

#[test]
fn a_refusal_is_one_line(rt: HostRuntime) -> Result<(), Fail> {
    let line = report_line(rt.alloc(), 3, b"refused controller G1 line 1\n".as_slice())?;
    assert!(rt; line.as_str() == "{\"status\":3,\"text\":\"refused controller G1 line 1\\n\"}\n");
    Ok(())
}

#[test]
fn what_json_cannot_hold_is_escaped(rt: HostRuntime) -> Result<(), Fail> {
    let line = report_line(rt.alloc(), 0, b"a \"b\" \\ \t\x01\xff".as_slice())?;
    assert!(rt;
        line.as_str() == "{\"status\":0,\"text\":\"a \\\"b\\\" \\\\ \\t\\u0001\u{fffd}\"}\n"
    );
    Ok(())
}

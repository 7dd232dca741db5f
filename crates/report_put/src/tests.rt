use crate::{put, put_as_json};
use ccac_ports::MemSink;
use std::alloc::Global;
use std::test::Fail;

/// What a sink holds that got the report as JSON, and the status.
fn as_json(alloc: Global, status: u8, text: &[u8]) -> Result<(u8, String), Fail> {
    let mut sink = MemSink::new(alloc);
    let ended = put_as_json(alloc, status, text, &mut sink);
    Ok((ended, String::from_utf8_lossy(alloc, sink.text())?))
}

#[test]
fn a_report_is_put_as_it_is(rt: HostRuntime) -> Result<(), Fail> {
    let mut sink = MemSink::new(rt.alloc());
    assert_eq!(rt; put(1, b"keeps\n".as_slice(), &mut sink), 1);
    assert!(rt; sink.text() == b"keeps\n".as_slice());
    Ok(())
}

#[test]
fn a_report_as_json_is_one_line(rt: HostRuntime) -> Result<(), Fail> {
    let alloc = rt.alloc();
    let (status, text) = as_json(alloc, 3, b"refused controller G1 line 1\n".as_slice())?;
    assert_eq!(rt; status, 3);
    assert!(rt; text.as_str() == "{\"status\":3,\"text\":\"refused controller G1 line 1\\n\"}\n");
    Ok(())
}

#[test]
fn what_json_must_escape_is_escaped(rt: HostRuntime) -> Result<(), Fail> {
    let alloc = rt.alloc();
    let (status, text) = as_json(
        alloc,
        0,
        b"a \"b\" \\\n\t\x08\x0c\r\x00\x1f\x7f/".as_slice(),
    )?;
    assert_eq!(rt; status, 0);
    assert!(rt;
        text.as_str()
            == "{\"status\":0,\"text\":\"a \\\"b\\\" \\\\\\n\\t\\b\\f\\r\\u0000\\u001f\u{7f}/\"}\n"
    );
    Ok(())
}

#[test]
fn usage_is_never_json(rt: HostRuntime) -> Result<(), Fail> {
    let alloc = rt.alloc();
    let (status, text) = as_json(alloc, 4, b"usage\n".as_slice())?;
    assert_eq!(rt; status, 4);
    assert!(rt; text.as_str() == "usage\n");
    Ok(())
}

#[test]
fn a_line_that_is_cut_short_is_a_prefix(rt: HostRuntime) -> Result<(), Fail> {
    let alloc = rt.alloc();
    let mut sink = MemSink::new(alloc);
    assert_eq!(rt; sink.fail_at(1, 12), Ok(()));
    assert_eq!(rt;
        put_as_json(alloc, 3, b"refused\n".as_slice(), &mut sink),
        6
    );
    assert!(rt; sink.text() == b"{\"status\":3,".as_slice());
    Ok(())
}

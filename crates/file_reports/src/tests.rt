use crate::{EarlyEnd, Source, deliver, fetch_all};
use ccac_ports::{MemFolder, MemSink};
use std::alloc::Global;
use std::test::Fail;

const FILES: [Source; 3] = [Source::Controller, Source::Question, Source::Trace];

/// A folder with the files `c`, `q` and `t`.
fn folder_of_three(alloc: Global) -> Result<MemFolder, Fail> {
    let mut folder = MemFolder::new(alloc);
    folder.add("c", b"one".as_slice())?;
    folder.add("q", b"two".as_slice())?;
    folder.add("t", b"three".as_slice())?;
    Ok(folder)
}

/// What the names come to: the texts, each behind a bar, or the status and the report that ends the command.
fn fetched(alloc: Global, names: &[&str], folder: &mut MemFolder) -> Result<(u8, Vec<u8>), Fail> {
    let mut all = Vec::new(alloc);
    for name in names {
        all.push(String::from_str(alloc, name)?)?;
    }
    let all = all.as_slice();
    if all.len() > FILES.len() {
        return Ok((4, Vec::new(alloc)));
    }
    match fetch_all(alloc, folder, &FILES, all) {
        Ok(texts) => {
            let mut joined = Vec::new(alloc);
            for text in &texts {
                joined.push(b'|')?;
                joined.extend_from_slice(text.as_slice())?;
            }
            Ok((0, joined))
        }
        Err(EarlyEnd::Report(report)) => {
            let mut sink = MemSink::new(alloc);
            let status = deliver(&report, &mut sink);
            Ok((status, sink.text().to_vec(alloc)?))
        }
        Err(EarlyEnd::NoMemory) => Ok((7, Vec::new(alloc))),
    }
}

#[test]
fn files_are_fetched_in_order_as_far_as_they_are_named(rt: HostRuntime) -> Result<(), Fail> {
    let cases: [(&[&str], u8, &str); 5] = [
        (&["c", "q", "t"], 0, "|one|two|three"),
        (&["c", "q"], 0, "|one|two"),
        (&[], 0, ""),
        (&["c", "none", "t"], 5, "read fault question\n"),
        (&["none", "none", "none"], 5, "read fault controller\n"),
    ];
    for (names, status, want) in cases {
        let mut folder = folder_of_three(rt.alloc())?;
        let (got, text) = fetched(rt.alloc(), names, &mut folder)?;
        assert_eq!(rt; got, status);
        assert_eq!(rt; text.as_slice(), want.as_bytes());
    }
    Ok(())
}

#[test]
fn a_text_one_byte_too_long_is_refused(rt: HostRuntime) -> Result<(), Fail> {
    let longest = vec![in rt.alloc(); b'a'; 65_536]?;
    let too_long = vec![in rt.alloc(); b'a'; 65_537]?;
    let mut folder = folder_of_three(rt.alloc())?;
    folder.add("q", too_long.as_slice())?;
    let (status, text) = fetched(rt.alloc(), &["c", "q", "t"], &mut folder)?;
    assert_eq!(rt; status, 3);
    assert_eq!(rt; text.as_slice(), b"refused question too long\n".as_slice());
    folder.add("q", longest.as_slice())?;
    let (status, _text) = fetched(rt.alloc(), &["c", "q", "t"], &mut folder)?;
    assert_eq!(rt; status, 0);
    Ok(())
}

ghost use Rattle.std.specs.Prelude.{◌≡◌, ℕ, ◌≤◌, List, ◌++◌, length, take};
ghost use Rattle.ccac_ports.specs.Ports.{HasRisen, Tells, Appends};
ghost use Rattle.ccac_ports.specs.declared.tests.Joined.{Joined};

use super::streams::{read_whole, write_whole};
use super::*;
use std::fs;
use std::io::{self, Read};
use std::test::Fail;

/// What came of joining two files into a sink.
#[derive(Clone, Copy, Debug, PartialEq, Eq)]
enum Joined {
    Whole,
    FirstFailed,
    SecondFailed,
    TooLong,
    PutFailed,
    NoMemory,
}

/// Fetches two files and puts the one after the other: what the program does with its files, over
/// any folder and any sink, by the clauses of the traits alone.
fn join<F: Folder, S: Sink>(folder: &mut F, sink: &mut S, names: (&str, &str), limit: u64) -> Joined
    ensures whole { result ≡ Joined.Whole → ((one : List ℕ) × ((two : List ℕ) ×
        (Tells ((F.tells folder.old).content names.entry.0.now) one
        × Tells ((F.tells folder.old).content names.entry.1.now) two
        × Appends (S.got sink.old).text (S.got sink.new).text (one ++ two)))) }
    ensures first { result ≡ Joined.FirstFailed →
        HasRisen ((F.tells folder.old).faults names.entry.0.now) ((F.tells folder.new).faults names.entry.0.now) }
    ensures second { result ≡ Joined.SecondFailed →
        HasRisen ((F.tells folder.old).faults names.entry.1.now) ((F.tells folder.new).faults names.entry.1.now) }
    ensures put { result ≡ Joined.PutFailed → HasRisen (S.got sink.old).faults (S.got sink.new).faults }
    ensures part { (report : List ℕ) × ((n : ℕ) × Appends (S.got sink.old).text (S.got sink.new).text (take n report)) }
{
    let one = match folder.fetch(names.0, limit) {
        Ok(one) => one,
        Err(FetchFault::Failed) => return Joined::FirstFailed,
        Err(FetchFault::TooLong) => return Joined::TooLong,
        Err(FetchFault::NoMemory) => return Joined::NoMemory,
    };
    let two = match folder.fetch(names.1, limit) {
        Ok(two) => two,
        Err(FetchFault::Failed) => return Joined::SecondFailed,
        Err(FetchFault::TooLong) => return Joined::TooLong,
        Err(FetchFault::NoMemory) => return Joined::NoMemory,
    };
    let mut report = one;
    if report.extend_from_slice(two.as_slice()).is_err() {
        return Joined::NoMemory;
    }
    match sink.put(report.as_slice()) {
        Ok(()) => Joined::Whole,
        Err(PutFault::Failed) => Joined::PutFailed,
        Err(PutFault::NoMemory) => Joined::NoMemory,
    }
}

#[test]
fn a_folder_gives_what_was_added_and_fails_where_planned(rt: HostRuntime) -> Result<(), Fail> {
    let mut folder = MemFolder::new(rt.alloc());
    assert_eq!(rt; folder.add("a", b"one"), Ok(()));
    assert_eq!(rt; folder.add("a", b"three"), Ok(()));
    assert_eq!(rt; folder.fail_at(2), Ok(()));
    assert_eq!(rt; folder.fetch("a", 5)?.as_slice(), b"three".as_slice());
    assert_eq!(rt; folder.fetch("a", 5), Err(FetchFault::Failed));
    assert_eq!(rt; folder.fetch("a", 4), Err(FetchFault::TooLong));
    assert_eq!(rt; folder.fetch("b", 5), Err(FetchFault::Failed));
    assert_eq!(rt; folder.fetch("a", 5)?.as_slice(), b"three".as_slice());
    Ok(())
}

#[test]
fn a_sink_keeps_a_part_where_planned(rt: HostRuntime) -> Result<(), Fail> {
    let mut sink = MemSink::new(rt.alloc());
    assert_eq!(rt; sink.fail_at(2, 9), Ok(()));
    assert_eq!(rt; sink.fail_at(2, 4), Ok(()));
    assert_eq!(rt; sink.fail_at(3, 9), Ok(()));
    assert_eq!(rt; sink.put(b"ok "), Ok(()));
    assert_eq!(rt; sink.put(b"verified"), Err(PutFault::Failed));
    assert_eq!(rt; sink.put(b"!"), Err(PutFault::Failed));
    assert_eq!(rt; sink.put(b"?"), Ok(()));
    assert_eq!(rt; sink.text(), b"ok veri!?".as_slice());
    Ok(())
}

#[test]
fn two_files_are_joined(rt: HostRuntime) -> Result<(), Fail> {
    let mut folder = MemFolder::new(rt.alloc());
    let mut sink = MemSink::new(rt.alloc());
    assert_eq!(rt; folder.add("a", b"one "), Ok(()));
    assert_eq!(rt; folder.add("b", b"two"), Ok(()));
    assert_eq!(rt; folder.fail_at(4), Ok(()));
    assert_eq!(rt; sink.fail_at(2, 2), Ok(()));
    assert_eq!(rt; join(&mut folder, &mut sink, ("a", "b"), 4), Joined::Whole);
    assert_eq!(rt;
        join(&mut folder, &mut sink, ("a", "b"), 4),
        Joined::SecondFailed
    );
    assert_eq!(rt;
        join(&mut folder, &mut sink, ("a", "b"), 4),
        Joined::PutFailed
    );
    assert_eq!(rt;
        join(&mut folder, &mut sink, ("c", "b"), 4),
        Joined::FirstFailed
    );
    assert_eq!(rt;
        join(&mut folder, &mut sink, ("a", "b"), 3),
        Joined::TooLong
    );
    assert_eq!(rt; sink.text(), b"one twoon".as_slice());
    Ok(())
}

#[test]
fn a_source_is_read_whole_within_the_limit(rt: HostRuntime) -> Result<(), Fail> {
    let text = b"ccac-trace 1\n";
    let mut above = text.as_slice();
    let mut exact = text.as_slice();
    let mut below = text.as_slice();
    let mut none = text.as_slice();
    assert_eq!(rt;
        read_whole(rt.alloc(), &mut above, 14)?.as_slice(),
        text.as_slice()
    );
    assert_eq!(rt;
        read_whole(rt.alloc(), &mut exact, 13)?.as_slice(),
        text.as_slice()
    );
    assert_eq!(rt;
        read_whole(rt.alloc(), &mut below, 10),
        Err(FetchFault::TooLong)
    );
    assert_eq!(rt;
        read_whole(rt.alloc(), &mut none, 0),
        Err(FetchFault::TooLong)
    );
    assert_eq!(rt; exact, b"".as_slice());
    assert_eq!(rt; below, b"1\n".as_slice());
    assert_eq!(rt; none, b"cac-trace 1\n".as_slice());
    Ok(())
}

#[test]
fn a_source_that_gives_few_bytes_at_a_time_is_read_whole(rt: HostRuntime) -> Result<(), Fail> {
    let mut parts = b"one "
        .as_slice()
        .chain(b"two ".as_slice())
        .chain(b"three".as_slice());
    let mut long = io::repeat(7).take(9000);
    let mut longer = io::repeat(7).take(9001);
    assert_eq!(rt;
        read_whole(rt.alloc(), &mut parts, 13)?.as_slice(),
        b"one two three".as_slice()
    );
    let read = read_whole(rt.alloc(), &mut long, 9000)?;
    assert_eq!(rt; read.len(), 9000);
    assert_eq!(rt; read.iter().all(|byte| *byte == 7), true);
    assert_eq!(rt;
        read_whole(rt.alloc(), &mut longer, 9000),
        Err(FetchFault::TooLong)
    );
    Ok(())
}

#[test]
fn a_writer_gets_a_text_whole_or_a_part(rt: HostRuntime) -> Result<(), Fail> {
    let mut text = Vec::new(rt.alloc());
    let mut page = [0u8; 5];
    let mut room = page.as_mut_slice();
    assert_eq!(rt; write_whole(&mut text, b"veri"), Ok(()));
    assert_eq!(rt; write_whole(&mut text, b"fied"), Ok(()));
    assert_eq!(rt; write_whole(&mut room, b"ver"), Ok(()));
    assert_eq!(rt; write_whole(&mut room, b"ified"), Err(PutFault::Failed));
    assert_eq!(rt; text.as_slice(), b"verified".as_slice());
    assert_eq!(rt; page.as_slice(), b"verif".as_slice());
    Ok(())
}

#[test]
fn real_files_are_fetched_within_the_limit(rt: HostRuntime) -> Result<(), Fail> {
    let name = "ccac_ports_fetched.txt";
    fs::write(&rt, name, "ccac-trace 1\n")?;
    let mut folder = RealFolder::new(&rt, rt.alloc());
    let exact = folder.fetch(name, 13);
    let short = folder.fetch(name, 12);
    let absent = folder.fetch("ccac_ports_absent.txt", 12);
    fs::remove_file(&rt, name)?;
    assert_eq!(rt; exact?.as_slice(), b"ccac-trace 1\n".as_slice());
    assert_eq!(rt; short, Err(FetchFault::TooLong));
    assert_eq!(rt; absent, Err(FetchFault::Failed));
    Ok(())
}

#[test]
fn the_standard_output_takes_a_text(rt: HostRuntime) {
    let mut sink = RealSink::new(&rt);
    assert_eq!(rt; sink.put(b"put on the standard output\n"), Ok(()));
}

ghost use Rattle.std.specs.Prelude.{◌≤◌, IfOk};

use crate::{Seed, problem_of, report_of, seed_of};
use ccac_ports::Folder;
use std::alloc::Global;
use std::test::Fail;

/// The seed and the size of a line's words.
fn seeded(alloc: Global, line: &str) -> Result<Option<Seed>, Fail> {
    let mut words = Vec::new(alloc);
    for word in line.split_whitespace() {
        words.push(String::from_str(alloc, word)?)?;
    }
    Ok(seed_of(words.as_slice()))
}

#[test]
fn a_seed_and_a_size_are_decimal(rt: HostRuntime) -> Result<(), Fail> {
    let alloc = rt.alloc();
    for (line, want_seed, want_size) in [
        ("gen 0 1", 0, 1),
        ("gen 7 32", 7, 32),
        ("gen 18446744073709551615 8", 18_446_744_073_709_551_615, 8),
    ] {
        let Some(seed) = seeded(alloc, line)? else {
            return Err(Fail::from(line));
        };
        assert_eq!(rt; seed.seed, want_seed, "{line}");
        assert_eq!(rt; seed.size, want_size, "{line}");
    }
    Ok(())
}

#[test]
fn other_words_have_no_seed(rt: HostRuntime) -> Result<(), Fail> {
    let alloc = rt.alloc();
    for line in [
        "gen 7 0",
        "gen 7 33",
        "gen 18446744073709551616 1",
        "gen 07 1",
        "gen 7 01",
        "gen +7 1",
        "gen seven 1",
        "gen 7",
        "gen 7 1 1",
        "check 7 1",
        "",
    ] {
        assert!(rt; seeded(alloc, line)?.is_none(), "{line}");
    }
    Ok(())
}

#[test]
fn a_folder_has_both_texts(rt: HostRuntime) -> Result<(), Fail> {
    let alloc = rt.alloc();
    let mut problem = problem_of(alloc, Seed { seed: 7, size: 1 })?;
    let question = "ccac-question 1
flows 1
steps 1
rate 1
jitter 2
rtt 2
buffer 1
budget 2000
require S@1 - S@0 >= 2
end
";
    match problem.folder.fetch("question", 200) {
        Ok(bytes) => assert!(rt; bytes.as_slice() == question.as_bytes()),
        Err(_) => return Err(Fail::from("no question")),
    }
    assert_eq!(rt; problem.question, question.len());
    Ok(())
}

/// The report for an answer to the problem of seed 7 and size 1.
fn reported(alloc: Global, status: u8, text: &str) -> Result<(u8, String), Fail> {
    let seed = Seed { seed: 7, size: 1 };
    let report = report_of(alloc, seed, 205, 102, status, text.as_bytes())?;
    Ok((
        report.status,
        String::from_utf8_lossy(alloc, report.text.as_slice())?,
    ))
}

#[test]
fn a_verdict_has_its_first_word(rt: HostRuntime) -> Result<(), Fail> {
    let alloc = rt.alloc();
    for (status, text, want_status, want) in [
        (
            0,
            "verified\nmore\n",
            0,
            "gen 7 1\ncontroller 205\nquestion 102\nverdict verified\n",
        ),
        (
            1,
            "violated\nmore\n",
            0,
            "gen 7 1\ncontroller 205\nquestion 102\nverdict violated\n",
        ),
        (
            2,
            "unknown budget\nmore\n",
            0,
            "gen 7 1\ncontroller 205\nquestion 102\nverdict unknown\nunknown budget\nmore\n",
        ),
        (
            3,
            "refused large forms 2048\n",
            3,
            "refused large forms 2048\n",
        ),
    ] {
        let (status, report) = reported(alloc, status, text)?;
        assert_eq!(rt; status, want_status, "{want}");
        assert!(rt; report.as_str() == want, "{want}");
    }
    Ok(())
}

// What is put, and with which status, for files in memory.
use crate::running::run;
use ccac_ports::{MemFolder, MemSink};
use std::alloc::Global;
use std::test::Fail;

const HELD: &str =
    "ccac-controller 1\nstate cwnd data init 2 2\nrule otherwise\nwindow cwnd\nend\n";

const ASKED: &str =
    "ccac-question 1\nflows 1\nsteps 1\nrate 1\njitter 0\nrtt 1\nbuffer none\nbudget 100000\nrequire true\nend\n";

const TOO_LATE: &str =
    "ccac-question 1\nflows 1\nsteps 1\nrate 1\njitter 0\nrtt 1\nbuffer none\nbudget 100000\nrequire S@2 >= 0\nend\n";

const EIGHT_STATES: &str =
    "ccac-controller 1\nstate a data init 0 1\nstate b data init 0 1\nstate c data init 0 1\nstate d data init 0 1\nstate e data init 0 1\nstate f data init 0 1\nstate g data init 0 1\nstate h data init 0 1\nrule otherwise\nwindow 1\nend\n";

const FOUR_FLOWS: &str =
    "ccac-question 1\nflows 4\nsteps 32\nrate 1\njitter 0\nrtt 1\nbuffer none\nbudget 100000\nrequire true\nend\n";

/// A controller, a question, and the status and report to which they come.
const CASES: [(&str, &str, u8, &str); 6] = [
    (HELD, ASKED, 0, "columns 19 forms 28 atoms 54 clauses 52\n"),
    ("", "", 3, "refused controller G1 line 1\n"),
    (HELD, "", 3, "refused question Q1 line 1\n"),
    (HELD, "\u{1}\u{ff}", 3, "refused question Q1 line 1\n"),
    (HELD, TOO_LATE, 3, "refused question Q12 line 9\n"),
    (EIGHT_STATES, FOUR_FLOWS, 3, "refused large forms 2048\n"),
];

/// A folder with this controller and this question.
fn folder_of(alloc: Global, controller: &str, question: &str) -> Result<MemFolder, Fail> {
    let mut folder = MemFolder::new(alloc);
    folder.add("c", controller.as_bytes())?;
    folder.add("q", question.as_bytes())?;
    Ok(folder)
}

/// The status of the words over the folder, and what a sink that keeps all has got.
fn ended(alloc: Global, words: &[&str], folder: &mut MemFolder) -> Result<(u8, Vec<u8>), Fail> {
    let mut all = Vec::new(alloc);
    for word in words {
        all.push(String::from_str(alloc, word)?)?;
    }
    let mut sink = MemSink::new(alloc);
    let status = run(alloc, all.as_slice(), folder, &mut sink);
    Ok((status, sink.text().to_vec(alloc)?))
}

#[test]
fn sizes_and_refusals_are_reported(rt: HostRuntime) -> Result<(), Fail> {
    for (controller, question, status, report) in CASES {
        let mut folder = folder_of(rt.alloc(), controller, question)?;
        let (ends, text) = ended(rt.alloc(), &["--counts", "c", "q"], &mut folder)?;
        assert_eq!(rt; ends, status);
        assert_eq!(rt; text.as_slice(), report.as_bytes());
    }
    Ok(())
}

/// Words, and the status and report to which they come where the second fetch fails.
const WORDS: [(&[&str], u8, &str); 5] = [
    (&["c"], 4, "usage: problem_smt [--counts] CTRL QUEST\n"),
    (
        &["--counts", "c"],
        4,
        "usage: problem_smt [--counts] CTRL QUEST\n",
    ),
    (
        &["--count", "c", "q"],
        4,
        "usage: problem_smt [--counts] CTRL QUEST\n",
    ),
    (&["absent", "q"], 5, "read fault controller\n"),
    (&["c", "q"], 5, "read fault question\n"),
];

#[test]
fn words_and_files_that_cannot_be_had_are_named(rt: HostRuntime) -> Result<(), Fail> {
    for (words, status, report) in WORDS {
        let mut folder = folder_of(rt.alloc(), HELD, ASKED)?;
        folder.fail_at(2)?;
        let (ends, text) = ended(rt.alloc(), words, &mut folder)?;
        assert_eq!(rt; ends, status);
        assert_eq!(rt; text.as_slice(), report.as_bytes());
    }
    Ok(())
}

#[test]
fn a_file_of_one_byte_too_many_is_refused(rt: HostRuntime) -> Result<(), Fail> {
    let mut folder = folder_of(rt.alloc(), HELD, ASKED)?;
    folder.add("long", vec![in rt.alloc(); 10; 65_537]?.as_slice())?;
    let (ends, text) = ended(rt.alloc(), &["c", "long"], &mut folder)?;
    assert_eq!(rt; ends, 3);
    assert_eq!(rt; text.as_slice(), b"refused question too long\n".as_slice());
    Ok(())
}

#[test]
fn a_sink_that_fails_has_a_part(rt: HostRuntime) -> Result<(), Fail> {
    let mut folder = folder_of(rt.alloc(), HELD, ASKED)?;
    let mut words = Vec::new(rt.alloc());
    words.push(String::from_str(rt.alloc(), "c")?)?;
    words.push(String::from_str(rt.alloc(), "q")?)?;
    let mut sink = MemSink::new(rt.alloc());
    sink.fail_at(1, 10)?;
    assert_eq!(rt;
        run(rt.alloc(), words.as_slice(), &mut folder, &mut sink),
        6
    );
    assert_eq!(rt; sink.text(), b"(set-logic".as_slice());
    Ok(())
}

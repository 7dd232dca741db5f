use crate::run;
use ccac_ports::{MemFolder, MemSink};
use std::alloc::Global;
use std::test::Fail;

/// A question whose lines after `steps 1` are these.
macro_rules! question {
    ($($line:literal)*) => {
        concat!("ccac-question 1\nflows 1\nsteps 1\n", $($line, "\n",)* "end\n")
    };
}

/// A trace of one flow without states whose lines after its shape are these.
macro_rules! trace {
    ($($line:literal)*) => {
        concat!("ccac-trace 1\nshape 1 0 2 1\n", $($line, "\n",)* "end\n")
    };
}

const SLOW: &str =
    question!("rate 1/2" "jitter 0" "rtt 1" "buffer none" "budget 100000" "require true");

const EXACT: &str =
    question!("rate 1" "jitter 0" "rtt 1" "buffer none" "budget 100000" "require true");

const LATE: &str =
    question!("rate 1" "jitter 1" "rtt 1" "buffer none" "budget 100000" "require true");

const BUFFERED: &str =
    question!("rate 1" "jitter 0" "rtt 1" "buffer 2" "budget 100000" "require true");

const ROOMIER: &str =
    question!("rate 1" "jitter 0" "rtt 1" "buffer 2001/1000" "budget 100000" "require true");

const NEVER: &str =
    question!("rate 1/2" "jitter 0" "rtt 1" "buffer none" "budget 100000" "require false");

const ASSUMING: &str =
    question!("rate 1/2" "jitter 0" "rtt 1" "buffer none" "budget 100000" "assume true" "require true");

const HALVES: &str =
    trace!("over 2" "credit 0" "row 0 0" "flow 1 4 0 0" "row 1 0" "flow 1 4 1 0" "row 2 0" "flow 1 4 2 0" "row 3 0" "flow 1 4 3 0");

/// The same behind a line of a saved report.
macro_rules! saved_halves {
    ($first:literal) => {
        concat!($first, "ccac-trace 1\nshape 1 0 2 1\nover 2\ncredit 0\nrow 0 0\nflow 1 4 0 0\nrow 1 0\nflow 1 4 1 0\nrow 2 0\nflow 1 4 2 0\nrow 3 0\nflow 1 4 3 0\nend\n")
    };
}

const WHOLES: &str =
    trace!("over 1" "credit 0" "row 0 0" "flow 1 4 0 0" "row 1 0" "flow 1 4 1 0" "row 2 0" "flow 1 4 2 0" "row 3 0" "flow 1 4 3 0");

const WASTEFUL: &str =
    trace!("over 1" "credit 0" "row 0 0" "flow 1 5 0 0" "row 1 0" "flow 1 5 0 0" "row 2 1" "flow 1 5 1 0" "row 3 1" "flow 1 5 2 0");

const LOSING: &str =
    trace!("over 1" "credit 0" "row 0 0" "flow 1 4 0 0" "row 1 0" "flow 1 5 1 1" "row 2 0" "flow 1 5 2 1" "row 3 0" "flow 1 5 3 1");

const FILLED: &str =
    trace!("over 1" "credit 0" "row 0 0" "flow 1 2 0 0" "row 1 0" "flow 1 3 1 1" "row 2 0" "flow 1 3 2 1" "row 3 0" "flow 1 4 3 1");

const OVERFULL: &str =
    trace!("over 1000000000000000000000000000000" "credit 0" "row 0 0" "flow 1 2000000000000000000000000000001 0 0" "row 1 0" "flow 1 0 0 0" "row 2 0" "flow 1 0 0 0" "row 3 0" "flow 1 0 0 0");

const OTHER_FLOW: &str = trace!("over 1" "credit 0" "row 0 0" "flow 2 4 0 0");

const TOO_LARGE: &str = trace!("over 1" "credit 170141183460469231731687303715884105728");

const CUT: &str = "ccac-trace 1\nshape 1 0 2 1\nover 1\n";

const TWO_FLOWS: &str =
    "ccac-trace 1\nshape 2 0 2 1\nover 1\ncredit 0\nrow 0 0\nflow 1 170141183460469231731687303715884105727 0 0\nflow 2 170141183460469231731687303715884105727 0 0\nrow 1 0\nflow 1 170141183460469231731687303715884105727 1 0\nflow 2 170141183460469231731687303715884105727 0 0\nrow 2 0\nflow 1 170141183460469231731687303715884105727 2 0\nflow 2 170141183460469231731687303715884105727 0 0\nrow 3 0\nflow 1 170141183460469231731687303715884105727 3 0\nflow 2 170141183460469231731687303715884105727 0 0\nend\n";

/// A question, a trace, and the status and report to which `admit` comes.
const CASES: [(&str, &str, u8, &str); 17] = [
    (SLOW, HALVES, 0, "admitted\n"),
    (SLOW, WHOLES, 1, "broken P3 row 1 flow 0\n"),
    (LATE, WASTEFUL, 1, "broken P5 row 2 flow 0\n"),
    (EXACT, LOSING, 1, "broken P8 row 1 flow 0\n"),
    (BUFFERED, FILLED, 0, "admitted\n"),
    (ROOMIER, FILLED, 1, "broken P8 row 1 flow 0\n"),
    (BUFFERED, OVERFULL, 1, "broken P7 row 0 flow 0\n"),
    (TWO_FLOWS_ASKED, TWO_FLOWS, 2, "wide row 1\n"),
    (NEVER, HALVES, 0, "admitted\n"),
    (ASSUMING, HALVES, 0, "admitted\n"),
    ("", HALVES, 3, "refused question Q1 line 1\n"),
    ("\u{1}\u{ff}", HALVES, 3, "refused question Q1 line 1\n"),
    (SLOW, "", 3, "refused trace V1 line 1\n"),
    (SLOW, OTHER_FLOW, 3, "refused trace V4 line 6\n"),
    (SLOW, TOO_LARGE, 3, "refused trace V5 line 4\n"),
    (SLOW, CUT, 3, "refused trace V6 line 4\n"),
    ("", "", 3, "refused question Q1 line 1\n"),
];

#[test]
fn admit_reports_what_the_path_says(rt: HostRuntime) -> Result<(), Fail> {
    let words = words_of(rt.alloc(), &["admit", "q", "t"])?;
    for (question, trace, status, report) in CASES {
        let mut folder = MemFolder::new(rt.alloc());
        let mut sink = MemSink::new(rt.alloc());
        assert_eq!(rt; folder.add("q", question.as_bytes()), Ok(()));
        assert_eq!(rt; folder.add("t", trace.as_bytes()), Ok(()));
        assert_eq!(rt; run(rt.alloc(), &words, &mut folder, &mut sink), status);
        assert_eq!(rt; sink.text(), report.as_bytes());
    }
    Ok(())
}

/// A folder with the question `q` and the trace `t`, both plain and admitted.
fn folder_of_halves(alloc: Global) -> Result<MemFolder, Fail> {
    let mut folder = MemFolder::new(alloc);
    folder.add("q", SLOW.as_bytes())?;
    folder.add("t", HALVES.as_bytes())?;
    Ok(folder)
}

fn words_of(alloc: Global, words: &[&str]) -> Result<Vec<String>, Fail> {
    let mut all = Vec::new(alloc);
    for word in words {
        all.push(String::from_str(alloc, word)?)?;
    }
    Ok(all)
}

/// The status of the words over the folder, and what a sink that keeps all has got.
fn ended(alloc: Global, words: &[&str], folder: &mut MemFolder) -> Result<(u8, Vec<u8>), Fail> {
    let words = words_of(alloc, words)?;
    let mut sink = MemSink::new(alloc);
    let status = run(alloc, &words, folder, &mut sink);
    Ok((status, sink.text().to_vec(alloc)?))
}

/// Asserts that the words over the folder come to this status and report.
macro_rules! assert_ends {
    ($rt:ident; $words:expr, $folder:ident, $status:literal, $report:literal) => {
        let (status, report) = ended($rt.alloc(), &$words, &mut $folder)?;
        assert_eq!($rt; status, $status);
        assert_eq!($rt; report.as_slice(), $report.as_bytes());
    };
}

#[test]
fn each_file_that_cannot_be_fetched_is_named(rt: HostRuntime) -> Result<(), Fail> {
    let words = ["admit", "q", "t"];
    let mut first_fails = folder_of_halves(rt.alloc())?;
    assert_eq!(rt; first_fails.fail_at(1), Ok(()));
    assert_ends!(rt; words, first_fails, 5, "read fault question\n");
    let mut second_fails = folder_of_halves(rt.alloc())?;
    assert_eq!(rt; second_fails.fail_at(2), Ok(()));
    assert_ends!(rt; words, second_fails, 5, "read fault trace\n");
    let mut whole = folder_of_halves(rt.alloc())?;
    assert_ends!(rt; ["admit", "missing", "t"], whole, 5, "read fault question\n");
    assert_ends!(rt; ["admit", "q", "missing"], whole, 5, "read fault trace\n");
    assert_ends!(rt; words, whole, 0, "admitted\n");
    Ok(())
}

#[test]
fn each_file_that_is_too_long_is_named(rt: HostRuntime) -> Result<(), Fail> {
    let words = ["admit", "q", "t"];
    let longest_question = vec![in rt.alloc(); b'a'; 65_536]?;
    let long_question = vec![in rt.alloc(); b'a'; 65_537]?;
    let longest_trace = vec![in rt.alloc(); b'a'; 262_144]?;
    let long_trace = vec![in rt.alloc(); b'a'; 262_145]?;
    let mut folder = folder_of_halves(rt.alloc())?;
    assert_eq!(rt; folder.add("t", long_trace.as_slice()), Ok(()));
    assert_ends!(rt; words, folder, 3, "refused trace too long\n");
    assert_eq!(rt; folder.add("t", longest_trace.as_slice()), Ok(()));
    assert_ends!(rt; words, folder, 3, "refused trace V6 line 1\n");
    assert_eq!(rt; folder.add("q", long_question.as_slice()), Ok(()));
    assert_ends!(rt; words, folder, 3, "refused question too long\n");
    assert_eq!(rt; folder.add("q", longest_question.as_slice()), Ok(()));
    assert_ends!(rt; words, folder, 3, "refused question Q1 line 1\n");
    Ok(())
}

#[test]
fn words_of_no_command_are_usage(rt: HostRuntime) -> Result<(), Fail> {
    let mut folder = folder_of_halves(rt.alloc())?;
    assert_ends!(rt; [], folder, 4, "usage\n");
    assert_ends!(rt; ["admit", "q"], folder, 4, "usage\n");
    assert_ends!(rt; ["admit", "q", "t", "u"], folder, 4, "usage\n");
    assert_ends!(rt; ["replay", "q", "t"], folder, 4, "usage\n");
    assert_ends!(rt; ["admits", "q", "t"], folder, 4, "usage\n");
    Ok(())
}

#[test]
fn a_sink_that_fails_has_got_a_prefix(rt: HostRuntime) -> Result<(), Fail> {
    let words = words_of(rt.alloc(), &["admit", "q", "t"])?;
    for (keep, kept) in [(0, ""), (1, "a"), (4, "admi"), (9, "admitted\n")] {
        let mut folder = folder_of_halves(rt.alloc())?;
        let mut sink = MemSink::new(rt.alloc());
        assert_eq!(rt; sink.fail_at(1, keep), Ok(()));
        assert_eq!(rt; run(rt.alloc(), &words, &mut folder, &mut sink), 6);
        assert_eq!(rt; sink.text(), kept.as_bytes());
    }
    Ok(())
}

/// A trace of one flow with one state and two controlled rows of four, over 1, without credit, waste and losses: on each
/// row what the flow has sent and what was served of it, and on the last two the state.
macro_rules! window_trace {
    ($zero:literal $one:literal $two:literal $three:literal) => {
        concat!(
            "ccac-trace 1\nshape 1 1 2 1\nover 1\ncredit 0\nrow 0 0\nflow 1 ", $zero, "\nrow 1 0\nflow 1 ", $one,
            "\nrow 2 0\nflow 1 ", $two, "\nrow 3 0\nflow 1 ", $three, "\nend\n"
        )
    };
}

const FIXED_WINDOW: &str =
    "ccac-controller 1\nstate cwnd data init 2 2\nrule otherwise\nwindow cwnd\nend\n";

const HALF_WINDOW: &str =
    "ccac-controller 1\nstate cwnd data init 1/2 2\nrule otherwise\nwindow cwnd\nend\n";

/// Two rules whose guards always hold: the first alone fires.
const FIRST_RULE: &str =
    "ccac-controller 1\nstate cwnd data init 2 2\nrule when acked >= 0\nset cwnd = 3\nrule when acked >= 0\nset cwnd = 4\nrule otherwise\nwindow cwnd\nend\n";

const SMOOTH: &str =
    question!("rate 1" "jitter 1" "rtt 1" "buffer none" "budget 100000" "require S@1 - S@0 <= 1");

const SMOOTHER: &str =
    question!("rate 1" "jitter 1" "rtt 1" "buffer none" "budget 100000" "require S@1 - S@0 <= 2");

const FASTER: &str =
    question!("rate 1" "jitter 0" "rtt 1" "buffer none" "budget 100000" "require S@1 - S@0 >= 2");

const TWO_FLOWS_ASKED: &str =
    "ccac-question 1\nflows 2\nsteps 1\nrate 1\njitter 0\nrtt 1\nbuffer none\nbudget 100000\nrequire true\nend\n";

const CAUGHT_UP: &str = window_trace!("2 0 0" "2 0 0" "3 1 0 2" "3 3 0 2");

/// Half the window at a loss, and a tenth more at each step in which something was served.
const HALVING: &str =
    "ccac-controller 1\nstate cwnd data init 1 4\nrule when lost > 0\nset cwnd = 1/2 * cwnd\nrule when acked > 0\nset cwnd = cwnd + 1/10\nrule otherwise\nwindow cwnd\nend\n";

const PROGRESS: &str =
    "ccac-question 1\nflows 1\nsteps 10\nrate 1\njitter 1\nrtt 1\nbuffer 2\nbudget 2000\nrequire S@10 - S@0 >= 1/100\nend\n";

const ANY_RUN: &str =
    "ccac-question 1\nflows 1\nsteps 10\nrate 1\njitter 1\nrtt 1\nbuffer 2\nbudget 2000\nrequire false\nend\n";

const GROWING: &str =
    "ccac-trace 1\nshape 1 1 2 10\nover 10\ncredit 0\nrow 0 0\nflow 1 0 0 0\nrow 1 0\nflow 1 10 10 0\nrow 2 0\nflow 1 20 20 0 10\nrow 3 0\nflow 1 31 30 0 11\nrow 4 0\nflow 1 42 40 0 12\nrow 5 0\nflow 1 53 50 0 13\nrow 6 0\nflow 1 64 60 0 14\nrow 7 0\nflow 1 75 70 0 15\nrow 8 0\nflow 1 86 80 0 16\nrow 9 0\nflow 1 97 90 0 17\nrow 10 0\nflow 1 108 100 0 18\nrow 11 0\nflow 1 119 110 0 19\nrow 12 0\nflow 1 130 120 0 20\nend\n";

/// The fixed window with other line ends and spaces, and a comment.
const SPACED: &str =
    "ccac-controller\t1\r\n# a window of two\r\nstate  cwnd data init 02/1 2\r\nrule otherwise\r\nwindow  1 * cwnd\r\nend\r\n";

const DIVIDED_BY_NOTHING: &str =
    "ccac-controller 1\nstate cwnd data init 1/0 2\nrule otherwise\nwindow cwnd\nend\n";

const OF_TWO_KINDS: &str =
    "ccac-controller 1\nstate cwnd data init 2 2\nstate n count init 0 1\nrule otherwise\nset cwnd = cwnd + n\nwindow cwnd\nend\n";

const UNFINISHED: &str =
    "ccac-controller 1\nstate cwnd data init 2 2\nrule otherwise\nwindow cwnd\n";

/// A controller, a question, a trace, and the status and report to which `replay` comes.
const REPLAYS: [(&str, &str, &str, u8, &str); 20] = [
    (HALVING, PROGRESS, GROWING, 1, "keeps\n"),
    (HALVING, ANY_RUN, GROWING, 0, "violating\n"),
    (SPACED, SMOOTH, CAUGHT_UP, 0, "violating\n"),
    (
        DIVIDED_BY_NOTHING,
        SMOOTH,
        CAUGHT_UP,
        3,
        "refused controller G7 line 2\n",
    ),
    (
        OF_TWO_KINDS,
        SMOOTH,
        CAUGHT_UP,
        3,
        "refused controller Y3 line 5\n",
    ),
    (
        UNFINISHED,
        SMOOTH,
        CAUGHT_UP,
        3,
        "refused controller G14 line 5\n",
    ),
    (FIXED_WINDOW, SMOOTH, CAUGHT_UP, 0, "violating\n"),
    (FIXED_WINDOW, SMOOTHER, CAUGHT_UP, 1, "keeps\n"),
    (
        FIXED_WINDOW,
        SMOOTH,
        window_trace!("2 0 0" "2 0 0" "3 1 0 2" "3 4 0 2"),
        1,
        "broken P2 row 3 flow 1\n",
    ),
    (
        FIRST_RULE,
        FASTER,
        window_trace!("2 0 0" "2 1 0" "3 2 0 2" "5 3 0 3"),
        0,
        "violating\n",
    ),
    (
        FIRST_RULE,
        FASTER,
        window_trace!("2 0 0" "2 1 0" "3 2 0 2" "6 3 0 4"),
        1,
        "broken step row 3 flow 1\n",
    ),
    (
        FIXED_WINDOW,
        SMOOTH,
        window_trace!("2 0 0" "2 0 0" "3 1 0 3" "3 3 0 2"),
        1,
        "broken opening row 2 flow 1\n",
    ),
    (
        FIXED_WINDOW,
        SMOOTH,
        window_trace!("2 0 0" "2 0 0" "2 1 0 2" "2 2 0 2"),
        1,
        "broken send row 3 flow 1\n",
    ),
    (
        FIXED_WINDOW,
        SMOOTH,
        HALVES,
        1,
        "broken shape row 0 flow 0\n",
    ),
    (
        HALF_WINDOW,
        SMOOTH,
        window_trace!("2 0 0" "2 0 0" "3 1 0 170141183460469231731687303715884105727" "3 3 0 2"),
        2,
        "wide row 2\n",
    ),
    ("", SMOOTH, CAUGHT_UP, 3, "refused controller G1 line 1\n"),
    (
        FIXED_WINDOW,
        "",
        CAUGHT_UP,
        3,
        "refused question Q1 line 1\n",
    ),
    (
        FIXED_WINDOW,
        SMOOTH,
        "ccac-trace 1\nshape 1 1 2 1\nover 1\ncredit 0\nrow 0 0\nflow 1 2 0 0\nrow 1 0\nflow 1 2 0 0\nrow 2 0\nflow 1 3 1 0 2\nrow 3 0\nflow 1 3 3 0 2\n",
        3,
        "refused trace V6 line 13\n",
    ),
    (
        FIXED_WINDOW,
        SMOOTH,
        "ccac-trace 1\nshape 1 1 2 1\nover 1\ncredit 0\nrow 0 0\nflow 1 2 0 0\nrow 1 0\nflow 1 2 0 0\nrow 2 0\nflow 1 3 1 0 2\nrow 3 0\nflow 2 3 3 0 2\nend\n",
        3,
        "refused trace V4 line 12\n",
    ),
    ("", "", "", 3, "refused controller G1 line 1\n"),
];

#[test]
fn replay_reports_what_comes_of_the_run(rt: HostRuntime) -> Result<(), Fail> {
    let words = words_of(rt.alloc(), &["replay", "c", "q", "t"])?;
    for (controller, question, trace, status, report) in REPLAYS {
        let mut folder = MemFolder::new(rt.alloc());
        let mut sink = MemSink::new(rt.alloc());
        assert_eq!(rt; folder.add("c", controller.as_bytes()), Ok(()));
        assert_eq!(rt; folder.add("q", question.as_bytes()), Ok(()));
        assert_eq!(rt; folder.add("t", trace.as_bytes()), Ok(()));
        assert_eq!(rt; run(rt.alloc(), &words, &mut folder, &mut sink), status);
        assert_eq!(rt; sink.text(), report.as_bytes());
    }
    Ok(())
}

#[test]
fn files_of_a_replay_are_fetched_in_order(rt: HostRuntime) -> Result<(), Fail> {
    let words = ["replay", "c", "q", "t"];
    let mut folder = folder_of_halves(rt.alloc())?;
    assert_ends!(rt; words, folder, 5, "read fault controller\n");
    assert_eq!(rt; folder.add("c", FIXED_WINDOW.as_bytes()), Ok(()));
    assert_ends!(rt; ["replay", "c", "missing", "t"], folder, 5, "read fault question\n");
    assert_ends!(rt; ["replay", "c", "q", "missing"], folder, 5, "read fault trace\n");
    let long_controller = vec![in rt.alloc(); b'a'; 65_537]?;
    assert_eq!(rt; folder.add("c", long_controller.as_slice()), Ok(()));
    assert_ends!(rt; words, folder, 3, "refused controller too long\n");
    Ok(())
}

/// A question whose requirement is this, on a path that is never late.
macro_rules! exact_question {
    ($requirement:literal) => {
        question!("rate 1" "jitter 0" "rtt 1" "buffer none" "budget 100000" $requirement)
    };
}

const LATE_STEP: &str = exact_question!("require S@2 >= 0");

const NO_TERM: &str = exact_question!("require S@1 >=");

const UNFINISHED_QUESTION: &str =
    "ccac-question 1\nflows 1\nsteps 1\nrate 1\njitter 0\nrtt 1\nbuffer none\nbudget 100000\nrequire x@0 >= 0\n";

const LONG: &str =
    "ccac-question 1\nflows 1\nsteps 33\nrate 1\njitter 0\nrtt 1\nbuffer none\nbudget 100000\nrequire true\nend\n";

#[test]
fn a_question_is_refused_by_its_first_broken_rule(rt: HostRuntime) -> Result<(), Fail> {
    let words = ["replay", "c", "q", "t"];
    let mut folder = folder_of_halves(rt.alloc())?;
    assert_eq!(rt; folder.add("c", FIXED_WINDOW.as_bytes()), Ok(()));
    assert_eq!(rt; folder.add("t", CAUGHT_UP.as_bytes()), Ok(()));
    assert_eq!(rt; folder.add("q", LONG.as_bytes()), Ok(()));
    assert_ends!(rt; words, folder, 3, "refused question Q6 line 3\n");
    assert_eq!(rt; folder.add("q", LATE_STEP.as_bytes()), Ok(()));
    assert_ends!(rt; words, folder, 3, "refused question Q12 line 9\n");
    assert_eq!(rt; folder.add("q", UNFINISHED_QUESTION.as_bytes()), Ok(()));
    assert_ends!(rt; words, folder, 3, "refused question Q11 line 10\n");
    assert_eq!(rt; folder.add("q", NO_TERM.as_bytes()), Ok(()));
    assert_ends!(rt; words, folder, 3, "refused question Q7 line 9\n");
    Ok(())
}

/// A question that isn't canonical, and its canonical text.
const UNTIDY: &str = exact_question!("require not ( S@1>=1 or false )");

const TIDY: &str = exact_question!("require not (S@1 >= 1 or false)");

/// A controller, and the status and report to which `fmt` comes.
const CONTROLLERS: [(&str, u8, &str); 4] = [
    (SPACED, 0, FIXED_WINDOW),
    (FIRST_RULE, 0, FIRST_RULE),
    (HALVING, 0, HALVING),
    ("", 3, "refused controller G1 line 1\n"),
];

#[test]
fn fmt_puts_the_canonical_text(rt: HostRuntime) -> Result<(), Fail> {
    let words = words_of(rt.alloc(), &["fmt", "c"])?;
    for (controller, status, report) in CONTROLLERS {
        let mut folder = MemFolder::new(rt.alloc());
        let mut sink = MemSink::new(rt.alloc());
        assert_eq!(rt; folder.add("c", controller.as_bytes()), Ok(()));
        assert_eq!(rt; run(rt.alloc(), &words, &mut folder, &mut sink), status);
        assert_eq!(rt; sink.text(), report.as_bytes());
    }
    let mut folder = folder_of_halves(rt.alloc())?;
    assert_eq!(rt; folder.add("c", FIXED_WINDOW.as_bytes()), Ok(()));
    assert_eq!(rt; folder.add("q", UNTIDY.as_bytes()), Ok(()));
    let (status, report) = ended(rt.alloc(), &["fmt", "c", "q"], &mut folder)?;
    assert_eq!(rt; status, 0);
    assert_eq!(rt; report.as_slice(), TIDY.as_bytes());
    Ok(())
}

/// A certificate of one lemma, which cites this clause of a problem of these sizes.
macro_rules! citing {
    ($first:literal $clauses:literal $clause:literal) => {
        concat!($first, "ccac-cert 1\nsize 19 54 ", $clauses, "\nlemma 0\nc ", $clause, "\nend\n")
    };
}

const EIGHT_STATES: &str =
    "ccac-controller 1\nstate a data init 0 1\nstate b data init 0 1\nstate c data init 0 1\nstate d data init 0 1\nstate e data init 0 1\nstate f data init 0 1\nstate g data init 0 1\nstate h data init 0 1\nrule otherwise\nwindow 1\nend\n";

const FOUR_FLOWS: &str =
    "ccac-question 1\nflows 4\nsteps 32\nrate 1\njitter 0\nrtt 1\nbuffer none\nbudget 100000\nrequire true\nend\n";

/// A controller, a question, a certificate, and the status and report to which `audit` comes. The question `EXACT` requires
/// what is always true, so that clause 51 of its problem is empty, and clause 50 isn't.
const AUDITS: [(&str, &str, &str, u8, &str); 12] = [
    (FIXED_WINDOW, EXACT, citing!("" "52" "51"), 0, "proved\n"),
    (
        FIXED_WINDOW,
        EXACT,
        citing!("verified\n" "52" "51"),
        0,
        "proved\n",
    ),
    (
        FIXED_WINDOW,
        EXACT,
        citing!("violated\n" "52" "51"),
        0,
        "proved\n",
    ),
    (
        FIXED_WINDOW,
        EXACT,
        citing!("" "51" "51"),
        1,
        "fails lemma 0 node 0 cause K1\n",
    ),
    (
        FIXED_WINDOW,
        EXACT,
        citing!("" "52" "50"),
        1,
        "fails lemma 0 node 1 cause K5\n",
    ),
    (
        FIXED_WINDOW,
        EXACT,
        citing!("" "52" "052"),
        3,
        "refused cert F5 line 4\n",
    ),
    (
        FIXED_WINDOW,
        EXACT,
        citing!("verified\n" "52" "052"),
        3,
        "refused cert F5 line 4\n",
    ),
    (
        FIXED_WINDOW,
        EXACT,
        citing!("verified\nverified\n" "52" "51"),
        3,
        "refused cert F1 line 1\n",
    ),
    (
        FIXED_WINDOW,
        EXACT,
        "ccac-cert 1\nsize 19 54 52\nlemma 0\nc 51\n",
        3,
        "refused cert F8 line 5\n",
    ),
    (
        FIXED_WINDOW,
        EXACT,
        "verified",
        3,
        "refused cert F8 line 1\n",
    ),
    (
        EIGHT_STATES,
        FOUR_FLOWS,
        "",
        3,
        "refused large forms 2048\n",
    ),
    ("", "", "", 3, "refused controller G1 line 1\n"),
];

#[test]
fn audit_reports_what_the_certificate_proves(rt: HostRuntime) -> Result<(), Fail> {
    let words = words_of(rt.alloc(), &["audit", "c", "q", "k"])?;
    for (controller, question, cert, status, report) in AUDITS {
        let mut folder = MemFolder::new(rt.alloc());
        let mut sink = MemSink::new(rt.alloc());
        assert_eq!(rt; folder.add("c", controller.as_bytes()), Ok(()));
        assert_eq!(rt; folder.add("q", question.as_bytes()), Ok(()));
        assert_eq!(rt; folder.add("k", cert.as_bytes()), Ok(()));
        assert_eq!(rt; run(rt.alloc(), &words, &mut folder, &mut sink), status);
        assert_eq!(rt; sink.text(), report.as_bytes());
    }
    Ok(())
}

#[test]
fn a_certificate_that_is_missing_is_named(rt: HostRuntime) -> Result<(), Fail> {
    let mut folder = folder_of_halves(rt.alloc())?;
    assert_eq!(rt; folder.add("c", FIXED_WINDOW.as_bytes()), Ok(()));
    assert_ends!(rt; ["audit", "c", "q", "missing"], folder, 5, "read fault cert\n");
    Ok(())
}

const STEADY: &str =
    question!("rate 1" "jitter 0" "rtt 1" "buffer none" "budget 100000" "require S@1 - S@0 <= 1");

const HURRIED: &str =
    question!("rate 1" "jitter 0" "rtt 1" "buffer none" "budget 1" "require S@1 - S@0 <= 1");

/// A controller and a question as the generator of inputs makes them.
const THREE_STATES: &str =
    "ccac-controller 1\nstate s1 data init 2 4\nstate s2 data init 2 2\nstate s3 data init 2 3\nrule when lost > 0\nset s1 = 3 * s1 + 0/3\nset s2 = 1/4 * s2 + 0/4\nset s3 = 2/2 * s3 + 1/3\nrule otherwise\nwindow s1\nend\n";

const THREE_STATES_ASKED: &str =
    "ccac-question 1\nflows 1\nsteps 1\nrate 1\njitter 2\nrtt 2\nbuffer 1\nbudget 2000\nrequire S@1 - S@0 >= 2\nend\n";

/// A folder with this controller `c` and this question `q`.
fn folder_of(alloc: Global, controller: &str, question: &str) -> Result<MemFolder, Fail> {
    let mut folder = MemFolder::new(alloc);
    folder.add("c", controller.as_bytes())?;
    folder.add("q", question.as_bytes())?;
    Ok(folder)
}

/// A controller, a question, and the least and the greatest status to which `check` may come.
type Asked = (&'static str, &'static str, u8, u8);

const SMALL: [Asked; 5] = [
    // A server that is never late serves at most one unit in a step, and never two.
    (FIXED_WINDOW, FASTER, 1, 1),
    (FIXED_WINDOW, STEADY, 0, 0),
    // One that may be a step late can make up for it.
    (FIXED_WINDOW, SMOOTH, 1, 1),
    // Of two rules that hold the first fires.
    (FIRST_RULE, FASTER, 1, 1),
    (THREE_STATES, THREE_STATES_ASKED, 0, 2),
];

/// What is required of no run is violated by the runs that there are.
const LARGER: [Asked; 2] = [(HALVING, PROGRESS, 0, 2), (HALVING, ANY_RUN, 1, 2)];

fn is_between(status: Option<u8>, least: u8, greatest: u8) -> bool {
    match status {
        Some(status) => least <= status && status <= greatest,
        None => false,
    }
}

/// The word of the command that reads what `check` saves with this status, what it then reports, and the first line of what
/// is saved.
fn confirmation(status: u8) -> (&'static str, &'static str, &'static str) {
    match status {
        0 => ("audit", "proved\n", "verified\n"),
        1 => ("replay", "violating\n", "violated\n"),
        _ => ("replay", "refused trace V1 line 1\n", "unknown "),
    }
}

/// The status to which `check` comes, if the command that reads what it saves says the same.
fn confirmed(alloc: Global, controller: &str, question: &str) -> Result<Option<u8>, Fail> {
    let mut folder = folder_of(alloc, controller, question)?;
    let (status, report) = ended(alloc, &["check", "c", "q"], &mut folder)?;
    let (word, expected, head) = confirmation(status);
    folder.add("saved", report.as_slice())?;
    let (_status, answer) = ended(alloc, &[word, "c", "q", "saved"], &mut folder)?;
    let same = answer.as_slice() == expected.as_bytes();
    let headed = report.as_slice().starts_with(head.as_bytes());
    Ok(if same && headed { Some(status) } else { None })
}

#[test]
fn each_verdict_is_confirmed_from_its_saved_report(rt: HostRuntime) -> Result<(), Fail> {
    for (controller, question, least, greatest) in SMALL {
        let status = confirmed(rt.alloc(), controller, question)?;
        assert!(rt; is_between(status, least, greatest));
    }
    Ok(())
}

#[test]
fn larger_verdicts_are_confirmed_too(rt: HostRuntime) -> Result<(), Fail> {
    for (controller, question, least, greatest) in LARGER {
        let status = confirmed(rt.alloc(), controller, question)?;
        assert!(rt; is_between(status, least, greatest));
    }
    Ok(())
}

#[test]
fn a_proof_fails_for_another_question(rt: HostRuntime) -> Result<(), Fail> {
    let mut folder = folder_of(rt.alloc(), FIXED_WINDOW, STEADY)?;
    let (_status, report) = ended(rt.alloc(), &["check", "c", "q"], &mut folder)?;
    // One lemma and nine nodes are enough.
    assert!(rt; report.len() <= 115);
    folder.add("saved", report.as_slice())?;
    folder.add("q", FASTER.as_bytes())?;
    let (status, answer) = ended(rt.alloc(), &["audit", "c", "q", "saved"], &mut folder)?;
    assert_eq!(rt; status, 1);
    assert!(rt; answer.as_slice().starts_with(b"fails ".as_slice()));
    Ok(())
}

#[test]
fn a_spent_budget_is_told_with_its_journal(rt: HostRuntime) -> Result<(), Fail> {
    let mut folder = folder_of(rt.alloc(), FIXED_WINDOW, HURRIED)?;
    let (status, report) = ended(rt.alloc(), &["check", "c", "q"], &mut folder)?;
    assert_eq!(rt; status, 2);
    // Nothing may be decided while a clause of one literal is left, so the one move of this budget is a propagation.
    assert!(rt;
        report
            .as_slice()
            .starts_with(b"unknown budget\ncounts 0 1 0 0\np ".as_slice())
    );
    Ok(())
}

/// A controller, a question, and the refusal to which `check` comes.
const REFUSED: [(&str, &str, &str); 3] = [
    (EIGHT_STATES, FOUR_FLOWS, "refused large forms 2048\n"),
    ("", STEADY, "refused controller G1 line 1\n"),
    (FIXED_WINDOW, LATE_STEP, "refused question Q12 line 9\n"),
];

#[test]
fn check_refuses_in_order(rt: HostRuntime) -> Result<(), Fail> {
    for (controller, question, report) in REFUSED {
        let mut folder = folder_of(rt.alloc(), controller, question)?;
        let (status, answer) = ended(rt.alloc(), &["check", "c", "q"], &mut folder)?;
        assert_eq!(rt; status, 3);
        assert_eq!(rt; answer.as_slice(), report.as_bytes());
    }
    Ok(())
}

#[test]
fn check_names_the_file_that_it_cannot_have(rt: HostRuntime) -> Result<(), Fail> {
    let words = ["check", "c", "q"];
    let mut folder = folder_of(rt.alloc(), FIXED_WINDOW, STEADY)?;
    assert_eq!(rt; folder.fail_at(2), Ok(()));
    assert_ends!(rt; words, folder, 5, "read fault question\n");
    assert_ends!(rt; ["chec", "c", "q"], folder, 4, "usage\n");
    let long = vec![in rt.alloc(); b'a'; 65_537]?;
    assert_eq!(rt; folder.add("c", long.as_slice()), Ok(()));
    assert_ends!(rt; words, folder, 3, "refused controller too long\n");
    Ok(())
}

#[test]
fn a_verdict_can_be_cut_short_by_the_sink(rt: HostRuntime) -> Result<(), Fail> {
    let words = words_of(rt.alloc(), &["check", "c", "q"])?;
    let mut folder = folder_of(rt.alloc(), FIXED_WINDOW, STEADY)?;
    let mut sink = MemSink::new(rt.alloc());
    assert_eq!(rt; sink.fail_at(1, 4), Ok(()));
    assert_eq!(rt; run(rt.alloc(), &words, &mut folder, &mut sink), 6);
    assert_eq!(rt; sink.text(), b"veri".as_slice());
    Ok(())
}

/// A saved trace, and the report of `admit` on it.
const SAVED: [(&str, &str); 5] = [
    (saved_halves!("violated\n"), "admitted\n"),
    (saved_halves!("verified\n"), "admitted\n"),
    (saved_halves!("violated \n"), "refused trace V1 line 1\n"),
    (
        saved_halves!("violated\nviolated\n"),
        "refused trace V1 line 1\n",
    ),
    ("violated", "refused trace V6 line 1\n"),
];

#[test]
fn the_line_of_a_verdict_is_skipped_and_not_counted(rt: HostRuntime) -> Result<(), Fail> {
    for (trace, report) in SAVED {
        let mut folder = folder_of_halves(rt.alloc())?;
        folder.add("t", trace.as_bytes())?;
        let (_status, answer) = ended(rt.alloc(), &["admit", "q", "t"], &mut folder)?;
        assert_eq!(rt; answer.as_slice(), report.as_bytes());
    }
    Ok(())
}

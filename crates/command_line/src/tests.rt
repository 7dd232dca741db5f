use crate::run;
use ccac_ports::{MemFolder, MemSink};
use std::alloc::Global;
use std::test::Fail;

/// A window of 2.
const CONTROLLER: &str = "ccac-controller 1
state cwnd data init 2 2
rule otherwise
window cwnd
end
";

/// Without jitter at most 1 is served in a step.
const QUESTION: &str = "ccac-question 1
flows 1
steps 1
rate 1
jitter 0
rtt 1
buffer none
budget 100000
require S@1 - S@0 <= 1
end
";

/// `c` is a controller, `q` a question about it, `bad` an empty file, and `fixed` a controller without states.
fn files(alloc: Global) -> Result<MemFolder, Fail> {
    let mut folder = MemFolder::new(alloc);
    folder.add("c", CONTROLLER.as_bytes())?;
    folder.add("q", QUESTION.as_bytes())?;
    folder.add(
        "fixed",
        b"ccac-controller 1\nrule otherwise\nwindow 2\nend\n".as_slice(),
    )?;
    folder.add("bad", b"".as_slice())?;
    Ok(folder)
}

/// The status of the words of a line, and what they put.
fn ended(alloc: Global, line: &str) -> Result<(u8, String), Fail> {
    let mut words = Vec::new(alloc);
    for word in line.split_whitespace() {
        words.push(String::from_str(alloc, word)?)?;
    }
    let mut folder = files(alloc)?;
    let mut sink = MemSink::new(alloc);
    let status = run(alloc, &words, &mut folder, &mut sink);
    Ok((status, String::from_utf8_lossy(alloc, sink.text())?))
}

#[test]
fn reports_are_put_as_they_are_or_as_json(rt: HostRuntime) -> Result<(), Fail> {
    let alloc = rt.alloc();
    for (line, want_status, want) in [
        ("fmt bad", 3, "refused controller G1 line 1\n"),
        (
            "fmt bad --json",
            3,
            "{\"status\":3,\"text\":\"refused controller G1 line 1\\n\"}\n",
        ),
        (
            "fmt --json bad",
            3,
            "{\"status\":3,\"text\":\"refused controller G1 line 1\\n\"}\n",
        ),
        (
            "fmt --json -- bad",
            3,
            "{\"status\":3,\"text\":\"refused controller G1 line 1\\n\"}\n",
        ),
        (
            "fmt --json none",
            5,
            "{\"status\":5,\"text\":\"read fault controller\\n\"}\n",
        ),
        (
            "fmt --json fixed",
            0,
            "{\"status\":0,\"text\":\"ccac-controller 1\\nrule otherwise\\nwindow 2\\nend\\n\"}\n",
        ),
    ] {
        let (status, text) = ended(alloc, line)?;
        assert_eq!(rt; status, want_status, "{line}");
        assert!(rt; text.as_str() == want, "{line}");
    }
    Ok(())
}

#[test]
fn usage_is_never_json(rt: HostRuntime) -> Result<(), Fail> {
    let alloc = rt.alloc();
    for line in [
        "",
        "--json fmt fixed",
        "fmt --json",
        "fmt --json fixed --json",
        "fmt fixed --help",
        "admit c q t --json",
        "formats fixed",
    ] {
        let (status, text) = ended(alloc, line)?;
        assert_eq!(rt; status, 4, "{line}");
        assert!(rt; text.as_str() == "usage\n", "{line}");
    }
    Ok(())
}

#[test]
fn a_line_that_is_cut_short_is_a_prefix(rt: HostRuntime) -> Result<(), Fail> {
    let alloc = rt.alloc();
    let mut words = Vec::new(alloc);
    for word in ["fmt", "bad", "--json"] {
        words.push(String::from_str(alloc, word)?)?;
    }
    let mut folder = files(alloc)?;
    let mut sink = MemSink::new(alloc);
    assert_eq!(rt; sink.fail_at(1, 12), Ok(()));
    assert_eq!(rt; run(alloc, &words, &mut folder, &mut sink), 6);
    assert!(rt; sink.text() == b"{\"status\":3,".as_slice());
    Ok(())
}

#[test]
fn a_refusal_is_the_same_in_json(rt: HostRuntime) -> Result<(), Fail> {
    let alloc = rt.alloc();
    let (status, text) = ended(alloc, "check bad q")?;
    assert_eq!(rt; status, 3);
    assert!(rt; text.as_str() == "refused controller G1 line 1\n");
    let (status, text) = ended(alloc, "check bad q --json")?;
    assert_eq!(rt; status, 3);
    assert!(rt; text.as_str() == "{\"status\":3,\"text\":\"refused controller G1 line 1\\n\"}\n");
    Ok(())
}

#[test]
fn a_verdict_is_the_same_line_wherever_the_option_stands(rt: HostRuntime) -> Result<(), Fail> {
    let alloc = rt.alloc();
    let (_, first) = ended(alloc, "check --json c q")?;
    assert!(rt;
        first
            .as_str()
            .starts_with("{\"status\":0,\"text\":\"verified\\nccac-cert ")
    );
    for line in ["check c q --json", "check --json -- c q"] {
        let (status, text) = ended(alloc, line)?;
        assert_eq!(rt; status, 0, "{line}");
        assert!(rt; text.as_str() == first.as_str(), "{line}");
    }
    for line in ["check c", "check c q r", "check c --json"] {
        let (status, text) = ended(alloc, line)?;
        assert_eq!(rt; status, 4, "{line}");
        assert!(rt; text.as_str() == "usage\n", "{line}");
    }
    Ok(())
}

#[test]
fn a_generated_problem_is_judged(rt: HostRuntime) -> Result<(), Fail> {
    let alloc = rt.alloc();
    let want = "gen 7 1\ncontroller 205\nquestion 102\nverdict violated\n";
    for line in ["gen 7 1", "gen 7 1", "gen -- 7 1"] {
        let (status, text) = ended(alloc, line)?;
        assert_eq!(rt; status, 0, "{line}");
        assert!(rt; text.as_str() == want, "{line}");
    }
    let (status, text) = ended(alloc, "gen 7 1 --json")?;
    assert_eq!(rt; status, 0);
    assert!(rt;
        text.as_str()
            == "{\"status\":0,\"text\":\"gen 7 1\\ncontroller 205\\nquestion 102\\nverdict violated\\n\"}\n"
    );
    Ok(())
}

#[test]
fn numbers_out_of_range_are_usage(rt: HostRuntime) -> Result<(), Fail> {
    let alloc = rt.alloc();
    for line in [
        "gen 7 0",
        "gen 7 33",
        "gen 18446744073709551616 1",
        "gen 07 1",
        "gen 7",
        "gen seven 1 --json",
    ] {
        let (status, text) = ended(alloc, line)?;
        assert_eq!(rt; status, 4, "{line}");
        assert!(rt; text.as_str() == "usage\n", "{line}");
    }
    Ok(())
}

ghost use Rattle.std.specs.Prelude.{◌<◌, length};

use super::*;
use std::alloc::{AllocError, Global};
use std::test::Fail;
use whole::{ReadFault, Refusal};

/// One state, no rule but `otherwise`.
const SHORT: &str = "ccac-controller 1
state cwnd data init 2 2
rule otherwise
window cwnd
end
";

/// Two rules that set the state, and `otherwise`.
const SETTING: &str = "ccac-controller 1
state cwnd data init 2 2
rule when acked >= 0
set cwnd = 3
rule when acked >= 0
set cwnd = 4
rule otherwise
window cwnd
end
";

/// A text with each kind of line.
const LINES: [&str; 8] = [
    "ccac-controller 1",
    "state cwnd data init 2 2",
    "rule when lost > 0",
    "set cwnd = 1/2 * cwnd",
    "rule otherwise",
    "window cwnd",
    "rate 1/2",
    "end",
];

/// The lines, each with its LF, and another in the place of the one with this number.
fn text_with(alloc: Global, number: usize, line: &str) -> Result<String, AllocError> {
    let mut text = String::new(alloc);
    for (i, old) in LINES.iter().enumerate() {
        text.push_str(if i < number && i + 1 == number {
            line
        } else {
            *old
        })?;
        text.push_str("\n")?;
    }
    Ok(text)
}

/// The text, so many times over, between two others.
fn repeated(
    alloc: Global,
    front: &str,
    count: usize,
    text: &str,
    back: &str,
) -> Result<String, AllocError> {
    let mut whole = String::new(alloc);
    whole.push_str(front)?;
    for _i in 0..count {
        whole.push_str(text)?;
    }
    whole.push_str(back)?;
    Ok(whole)
}

/// What is printed of the text, or the rule and the line of its refusal.
fn reprinted(alloc: Global, bytes: &[u8]) -> Result<Result<Vec<u8>, (u8, u32)>, Fail>
    requires { length bytes.now < 10000 }
{
    match read(alloc, bytes) {
        Ok(syntax) => match print(alloc, &syntax) {
            Ok(text) => Ok(Ok(text)),
            Err(_) => Err(Fail::from("memory ran out")),
        },
        Err(
            ReadFault::Refused(
                Refusal {
                    letter: _,
                    number,
                    line,
                },
            ),
        ) => Ok(Err((number, line))),
        Err(ReadFault::NoMemory) => Err(Fail::from("memory ran out")),
    }
}

fn prints(alloc: Global, text: &str, wanted: &str) -> Result<bool, Fail> {
    if text.len() >= 10000 {
        return Ok(false);
    }
    match reprinted(alloc, text.as_bytes())? {
        Ok(printed) => Ok(printed.as_slice() == wanted.as_bytes()),
        Err(_) => Ok(false),
    }
}

/// The rule and the line of the text's refusal, or 0 and 0.
fn refusal_of(alloc: Global, text: &str) -> Result<(u8, u32), Fail> {
    if text.len() >= 10000 {
        return Ok((0, 0));
    }
    match reprinted(alloc, text.as_bytes())? {
        Ok(_) => Ok((0, 0)),
        Err(broken) => Ok(broken),
    }
}

/// The rule and the line of the refusal with another line in the place of the one with this number.
fn refusal_with(alloc: Global, number: usize, line: &str) -> Result<(u8, u32), Fail> {
    let text = text_with(alloc, number, line)?;
    refusal_of(alloc, text.as_str())
}

#[test]
fn canonical_texts_are_printed_as_they_are(rt: HostRuntime) -> Result<(), Fail> {
    let alloc = rt.alloc();
    assert!(rt; prints(alloc, SHORT, SHORT)?);
    assert!(rt; prints(alloc, SETTING, SETTING)?);
    let all = text_with(alloc, 1, "ccac-controller 1")?;
    assert!(rt; prints(alloc, all.as_str(), all.as_str())?);
    Ok(())
}

#[test]
fn texts_are_printed_canonically(rt: HostRuntime) -> Result<(), Fail> {
    let alloc = rt.alloc();
    let spaced =
        "ccac-controller  1\r\nstate  cwnd  data  init  2  2\r\nrule  otherwise\r\nwindow  cwnd\r\nend\r\n";
    assert!(rt; prints(alloc, spaced, SHORT)?);
    let commented =
        " ccac-controller\t1 \n# state\n\n\tstate cwnd data init 02/1 2\n  # \u{7}\nrule otherwise\nwindow  1 * cwnd\nend\n \n# end";
    assert!(rt; prints(alloc, commented, SHORT)?);
    let signed = "ccac-controller 1\nstate n count init - 3/6 -0\nwindow -1*n-2\nend";
    assert!(rt;
        prints(
            alloc,
            signed,
            "ccac-controller 1\nstate n count init -3/6 0\nwindow -n - 2\nend\n"
        )?
    );
    Ok(())
}

#[test]
fn lines_have_their_numbers(rt: HostRuntime) -> Result<(), Fail> {
    let text =
        "ccac-controller 1\n\nstate a data init 1 2\n#\nrule when true\nset a = 1\n\nset a = 2\nrule otherwise\n\nwindow a\nrate a\nend\n";
    match read(rt.alloc(), text.as_bytes()) {
        Ok(syntax) => {
            assert_eq!(rt; syntax.states.len(), 1);
            assert_eq!(rt; syntax.rules.len(), 2);
            assert_eq!(rt; syntax.states.as_slice()[0].line, 3);
            let first = &syntax.rules.as_slice()[0];
            assert_eq!(rt; first.line, 5);
            assert!(rt; first.guard.is_some());
            assert_eq!(rt; first.sets.len(), 2);
            assert_eq!(rt; first.sets.as_slice()[0].line, 6);
            assert_eq!(rt; first.sets.as_slice()[1].line, 8);
            let second = &syntax.rules.as_slice()[1];
            assert_eq!(rt; second.line, 9);
            assert!(rt; second.guard.is_none());
            assert_eq!(rt; second.sets.len(), 0);
            assert_eq!(rt; syntax.window_line, 11);
            match &syntax.rate {
                Some(rate) => assert_eq!(rt; rate.line, 12),
                None => return Err(Fail::from("no rate")),
            }
            Ok(())
        }
        Err(_) => Err(Fail::from("not read")),
    }
}

#[test]
fn headers_are_refused(rt: HostRuntime) -> Result<(), Fail> {
    let alloc = rt.alloc();
    assert_eq!(rt; refusal_of(alloc, "")?, (1, 1));
    assert_eq!(rt; refusal_of(alloc, "\n")?, (1, 1));
    assert_eq!(rt; refusal_with(alloc, 1, "ccac-controller 2")?, (1, 1));
    assert_eq!(rt; refusal_with(alloc, 1, "ccac-controller 1 1")?, (1, 1));
    assert_eq!(rt; refusal_with(alloc, 1, "ccac-controller")?, (1, 1));
    assert_eq!(rt; refusal_with(alloc, 1, "ccac-controller 01")?, (1, 1));
    assert_eq!(rt; refusal_with(alloc, 1, "\tccac-controller \t 1 ")?, (0, 0));
    Ok(())
}

#[test]
fn lines_are_refused_by_their_own_rules(rt: HostRuntime) -> Result<(), Fail> {
    let alloc = rt.alloc();
    for (number, line, rule) in [
        (2, "state cwnd data init 2 2 ;", 2),
        (2, "?", 2),
        (6, "window 1/", 2),
        (6, "window 1 /2", 2),
        (3, "set cwnd = 1", 3),
        (5, "state n count init 1 1", 3),
        (6, "rate 1", 3),
        (2, "7", 3),
        (8, "window cwnd", 3),
        (2, "state cwnd size init 2 2", 4),
        (2, "state cwnd data begin 2 2", 4),
        (2, "state cwnd data init 2", 4),
        (2, "state 5 data init 2 2", 4),
        (2, "state cwnd data init - - 2", 4),
        (3, "rule if lost > 0", 5),
        (3, "rule", 5),
        (4, "set = 1", 6),
        (4, "set cwnd 1", 6),
        (4, "set cwnd == 1", 6),
        (2, "state cwnd data init 1/0 2", 7),
        (2, "state cwnd data init 1 -1000001", 7),
        (6, "window 1/1001", 7),
    ] {
        assert_eq!(rt;
            refusal_with(alloc, number, line)?,
            (rule, number as u32),
            "{line}"
        );
    }
    assert_eq!(rt;
        refusal_with(alloc, 2, "state cwnd data init -1000000/1000 1/1000")?,
        (0, 0)
    );
    Ok(())
}

#[test]
fn expressions_and_conditions_are_refused_on_their_lines(rt: HostRuntime) -> Result<(), Fail> {
    let alloc = rt.alloc();
    for (number, line, rule) in [
        (6, "window", 8),
        (6, "window and", 8),
        (4, "set cwnd = 2 *", 8),
        (4, "set cwnd = 1 + + 1", 8),
        (4, "set cwnd =", 8),
        (3, "rule when lost > and", 8),
        (3, "rule when", 9),
        (3, "rule when )", 9),
        (3, "rule when not", 9),
        (3, "rule when lost > 0 and", 9),
        (3, "rule when lost", 9),
        (3, "rule when (lost > 0", 9),
        (3, "rule when delay", 9),
        (3, "rule when delay > 3", 9),
        (3, "rule when delay >= cwnd", 9),
        (
            3,
            "rule when not not not not not not not not not not not not not not not not not true",
            10,
        ),
        (6, "window 1+1+1+1+1+1+1+1+1+1+1+1+1+1+1+1+1", 11),
        (2, "state sixteen_letters_ data init 1 1", 0),
        (2, "state seventeen_letters data init 1 1", 11),
        (4, "set seventeen_letters = 1", 11),
        (6, "window seventeen_letters", 11),
        (8, "end 1", 12),
        (5, "rule otherwise now", 12),
        (6, "window cwnd cwnd", 12),
    ] {
        let wanted = if rule == 0 { 0 } else { number as u32 };
        assert_eq!(rt;
            refusal_with(alloc, number, line)?,
            (rule, wanted),
            "{line}"
        );
    }
    Ok(())
}

#[test]
fn too_many_states_and_rules_are_refused(rt: HostRuntime) -> Result<(), Fail> {
    let alloc = rt.alloc();
    let state = "state a data init 1 1\n";
    let eight = repeated(alloc, "ccac-controller 1\n", 8, state, "window 1\nend\n")?;
    assert_eq!(rt; refusal_of(alloc, eight.as_str())?, (0, 0));
    let nine = repeated(alloc, "ccac-controller 1\n", 9, state, "window 1\nend\n")?;
    assert_eq!(rt; refusal_of(alloc, nine.as_str())?, (11, 10));
    let rule = "rule otherwise\nset a = 1\nset b = 2\n";
    let sixteen = repeated(alloc, "ccac-controller 1\n", 16, rule, "window 1\nend\n")?;
    assert_eq!(rt; refusal_of(alloc, sixteen.as_str())?, (0, 0));
    let seventeen = repeated(alloc, "ccac-controller 1\n", 17, rule, "window 1\nend\n")?;
    assert_eq!(rt; refusal_of(alloc, seventeen.as_str())?, (11, 50));
    Ok(())
}

#[test]
fn the_end_is_wanted_and_nothing_behind_it(rt: HostRuntime) -> Result<(), Fail> {
    let alloc = rt.alloc();
    assert_eq!(rt; refusal_with(alloc, 8, "end\n\n# behind\n")?, (0, 0));
    assert_eq!(rt; refusal_with(alloc, 8, "end\n\n;")?, (13, 10));
    assert_eq!(rt; refusal_with(alloc, 8, "end\nend")?, (13, 9));
    assert_eq!(rt;
        refusal_of(
            alloc,
            "ccac-controller 1\nstate cwnd data init 2 2\nrule otherwise\nwindow cwnd\n"
        )?,
        (14, 5)
    );
    assert_eq!(rt;
        refusal_of(
            alloc,
            "ccac-controller 1\nstate cwnd data init 2 2\nrule otherwise\nwindow cwnd"
        )?,
        (14, 5)
    );
    assert_eq!(rt;
        refusal_of(alloc, "ccac-controller 1\nwindow 1\n\n# end")?,
        (14, 5)
    );
    assert_eq!(rt; refusal_of(alloc, "ccac-controller 1")?, (14, 2));
    Ok(())
}

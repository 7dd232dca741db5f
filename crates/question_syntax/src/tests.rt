ghost use Rattle.std.specs.Prelude.{◌<◌, length};

use super::*;
use std::alloc::{AllocError, Global};
use std::test::Fail;
use whole::{ReadFault, Refusal};

/// A question with no assumption.
const SHORT: &str = "ccac-question 1
flows 1
steps 1
rate 1
jitter 0
rtt 1
buffer none
budget 100000
require S@1 - S@0 <= 1
end
";

/// A text with each kind of line.
const LINES: [&str; 11] = [
    "ccac-question 1",
    "flows 2",
    "steps 10",
    "rate 1/2",
    "jitter 1",
    "rtt 8",
    "buffer 3/2",
    "budget 2000",
    "assume credit <= 3 and W@0 == 0",
    "require S@10 - S@0 >= 1/100",
    "end",
];

/// The lines, each with its LF, and another in the place of the one with this number.
fn text_with(alloc: Global, number: usize, line: &str) -> Result<String, AllocError> {
    let mut text = String::new(alloc);
    for (i, old) in LINES.iter().enumerate() {
        text.push_str(if i < number && i + 1 == number {
            line
        } else {
            *old
        })?;
        text.push_str("\n")?;
    }
    Ok(text)
}

/// A text with so many assumptions.
fn text_of_assumes(alloc: Global, count: usize) -> Result<String, AllocError> {
    let mut text = String::new(alloc);
    text.push_str(
        "ccac-question 1\nflows 1\nsteps 1\nrate 1\njitter 0\nrtt 1\nbuffer none\nbudget 1\n",
    )?;
    for _i in 0..count {
        text.push_str("assume true\n")?;
    }
    text.push_str("require false\nend\n")?;
    Ok(text)
}

/// What is printed of the text, or the rule and the line of its refusal.
fn reprinted(alloc: Global, bytes: &[u8]) -> Result<Result<Vec<u8>, (u8, u32)>, Fail>
    requires { length bytes.now < 10000 }
{
    match read_syntax(alloc, bytes) {
        Ok(syntax) => match print_syntax(alloc, &syntax) {
            Ok(text) => Ok(Ok(text)),
            Err(_) => Err(Fail::from("memory ran out")),
        },
        Err(
            ReadFault::Refused(
                Refusal {
                    letter: _,
                    number,
                    line,
                },
            ),
        ) => Ok(Err((number, line))),
        Err(ReadFault::NoMemory) => Err(Fail::from("memory ran out")),
    }
}

fn prints(alloc: Global, text: &str, wanted: &str) -> Result<bool, Fail> {
    if text.len() >= 10000 {
        return Ok(false);
    }
    match reprinted(alloc, text.as_bytes())? {
        Ok(printed) => Ok(printed.as_slice() == wanted.as_bytes()),
        Err(_) => Ok(false),
    }
}

/// The rule and the line of the text's refusal, or 0 and 0.
fn refusal_of(alloc: Global, text: &str) -> Result<(u8, u32), Fail> {
    if text.len() >= 10000 {
        return Ok((0, 0));
    }
    match reprinted(alloc, text.as_bytes())? {
        Ok(_) => Ok((0, 0)),
        Err(broken) => Ok(broken),
    }
}

/// The rule and the line of the refusal with another line in the place of the one with this number.
fn refusal_with(alloc: Global, number: usize, line: &str) -> Result<(u8, u32), Fail> {
    let text = text_with(alloc, number, line)?;
    refusal_of(alloc, text.as_str())
}

#[test]
fn canonical_texts_are_printed_as_they_are(rt: HostRuntime) -> Result<(), Fail> {
    let alloc = rt.alloc();
    assert!(rt; prints(alloc, SHORT, SHORT)?);
    let all = text_with(alloc, 1, "ccac-question 1")?;
    assert!(rt; prints(alloc, all.as_str(), all.as_str())?);
    Ok(())
}

#[test]
fn texts_are_printed_canonically(rt: HostRuntime) -> Result<(), Fail> {
    let alloc = rt.alloc();
    let spaced =
        "ccac-question  1\r\nflows  1\r\nsteps  1\r\nrate  1\r\njitter  0\r\nrtt  1\r\nbuffer  none\r\nbudget  100000\r\nrequire  S@1-S@0<=1\r\nend\r\n";
    assert!(rt; prints(alloc, spaced, SHORT)?);
    let commented =
        " ccac-question\t1 \n# \u{7}\nflows 001\nsteps 01\n\nrate 1/1\njitter 00\n\t rtt 1\nbuffer none\nbudget 0100000\nrequire 1 * S @ 1 - S@0 <= 1\nend\n \n# end";
    assert!(rt; prints(alloc, commented, SHORT)?);
    let kept = text_with(alloc, 4, "rate 2/2")?;
    assert!(rt; prints(alloc, kept.as_str(), kept.as_str())?);
    let no_size = text_with(alloc, 7, "buffer 00/2")?;
    let zero = text_with(alloc, 7, "buffer 0/2")?;
    assert!(rt; prints(alloc, no_size.as_str(), zero.as_str())?);
    Ok(())
}

#[test]
fn settings_are_read(rt: HostRuntime) -> Result<(), Fail> {
    let alloc = rt.alloc();
    let text = text_with(alloc, 1, "ccac-question 1")?;
    if text.len() >= 10000 {
        return Err(Fail::from("the text is long"));
    }
    match read_setting(alloc, text.as_bytes()) {
        Ok(setting) => {
            assert_eq!(rt; setting.flows, 2);
            assert_eq!(rt; setting.steps, 10);
            assert_eq!(rt; setting.path.rate.num, 1);
            assert_eq!(rt; setting.path.rate.den, 2);
            assert_eq!(rt; setting.path.jitter, 1);
            assert_eq!(rt; setting.rtt, 8);
            match setting.path.buffer {
                Some(buffer) => {
                    assert_eq!(rt; buffer.num, 3);
                    assert_eq!(rt; buffer.den, 2);
                }
                None => return Err(Fail::from("no buffer")),
            }
            assert_eq!(rt; setting.budget, 2000);
            Ok(())
        }
        Err(_) => Err(Fail::from("not read")),
    }
}

#[test]
fn lines_have_their_numbers(rt: HostRuntime) -> Result<(), Fail> {
    let text =
        "ccac-question 1\n\nflows 1\nsteps 1\n#\nrate 1\njitter 0\nrtt 1\n\nbuffer none\nbudget 1\n\nassume true\n#\nassume false\nrequire true\nend\n";
    match read_syntax(rt.alloc(), text.as_bytes()) {
        Ok(syntax) => {
            assert_eq!(rt; syntax.rate_line, 6);
            assert_eq!(rt; syntax.buffer_line, 10);
            assert_eq!(rt; syntax.assumes.len(), 2);
            assert_eq!(rt; syntax.assumes.as_slice()[0].line, 13);
            assert_eq!(rt; syntax.assumes.as_slice()[1].line, 15);
            assert_eq!(rt; syntax.require.line, 16);
            assert!(rt; syntax.setting.path.buffer.is_none());
            Ok(())
        }
        Err(_) => Err(Fail::from("not read")),
    }
}

#[test]
fn headers_are_refused(rt: HostRuntime) -> Result<(), Fail> {
    let alloc = rt.alloc();
    assert_eq!(rt; refusal_of(alloc, "")?, (1, 1));
    assert_eq!(rt; refusal_of(alloc, "\n")?, (1, 1));
    assert_eq!(rt; refusal_with(alloc, 1, "ccac-question 2")?, (1, 1));
    assert_eq!(rt; refusal_with(alloc, 1, "ccac-question 1 1")?, (1, 1));
    assert_eq!(rt; refusal_with(alloc, 1, "ccac-controller 1")?, (1, 1));
    assert_eq!(rt; refusal_with(alloc, 1, "\tccac-question \t 1 ")?, (0, 0));
    Ok(())
}

#[test]
fn lines_are_refused_by_their_own_rules(rt: HostRuntime) -> Result<(), Fail> {
    let alloc = rt.alloc();
    for (number, line, rule) in [
        (2, "?", 2),
        (2, "flows ;", 2),
        (4, "rate 1 /2", 2),
        (11, "end ?", 2),
        (2, "steps 2", 3),
        (6, "jitter 1", 3),
        (9, "budget 2", 3),
        (9, "7", 3),
        (10, "end", 3),
        (2, "flows", 4),
        (2, "flows 1/1", 4),
        (2, "flows 1/0", 4),
        (3, "steps -1", 4),
        (4, "rate none", 4),
        (7, "buffer some", 4),
        (7, "buffer", 4),
        (4, "rate 0/0", 5),
        (4, "rate 1000001", 5),
        (7, "buffer 1/1001", 5),
        (9, "assume W@1 <= 1/0", 5),
    ] {
        assert_eq!(rt;
            refusal_with(alloc, number, line)?,
            (rule, number as u32),
            "{line}"
        );
    }
    Ok(())
}

#[test]
fn values_are_within_their_ranges(rt: HostRuntime) -> Result<(), Fail> {
    let alloc = rt.alloc();
    for (number, line, rule) in [
        (2, "flows 0", 6),
        (2, "flows 4", 0),
        (2, "flows 5", 6),
        (3, "steps 0", 6),
        (3, "steps 32", 0),
        (3, "steps 33", 6),
        (4, "rate 0", 6),
        (4, "rate 0/7", 6),
        (4, "rate 1/1000", 0),
        (4, "rate 1000000", 0),
        (5, "jitter 0", 0),
        (5, "jitter 8", 0),
        (5, "jitter 9", 6),
        (6, "rtt 0", 6),
        (6, "rtt 9", 6),
        (7, "buffer 0", 0),
        (8, "budget 0", 6),
        (8, "budget 16777216", 0),
        (8, "budget 16777217", 6),
        (8, "budget 99999999999999999999", 6),
        (2, "flows 5 ?", 6),
    ] {
        let wanted = if rule == 0 { 0 } else { number as u32 };
        assert_eq!(rt;
            refusal_with(alloc, number, line)?,
            (rule, wanted),
            "{line}"
        );
    }
    Ok(())
}

#[test]
fn conditions_are_refused_on_their_lines(rt: HostRuntime) -> Result<(), Fail> {
    let alloc = rt.alloc();
    for (number, line, rule) in [
        (10, "require S@1 >=", 7),
        (10, "require S >= 1", 7),
        (10, "require S.1@ >= 1", 7),
        (10, "require credit.1 >= 1", 0),
        (9, "assume delay >= 1", 8),
        (9, "assume", 8),
        (9, "assume (true", 8),
        (
            9,
            "assume not not not not not not not not not not not not not not not not not true",
            9,
        ),
        (10, "require seventeen_letters@1 > 0", 9),
        (10, "require true true", 10),
        (8, "budget 1 1", 10),
        (7, "buffer none none", 10),
    ] {
        let wanted = if rule == 0 { 0 } else { number as u32 };
        assert_eq!(rt;
            refusal_with(alloc, number, line)?,
            (rule, wanted),
            "{line}"
        );
    }
    Ok(())
}

#[test]
fn sixteen_assumptions_may_stand(rt: HostRuntime) -> Result<(), Fail> {
    let alloc = rt.alloc();
    let sixteen = text_of_assumes(alloc, 16)?;
    assert_eq!(rt; refusal_of(alloc, sixteen.as_str())?, (0, 0));
    let seventeen = text_of_assumes(alloc, 17)?;
    assert_eq!(rt; refusal_of(alloc, seventeen.as_str())?, (9, 25));
    Ok(())
}

#[test]
fn the_end_is_wanted_and_nothing_behind_it(rt: HostRuntime) -> Result<(), Fail> {
    let alloc = rt.alloc();
    assert_eq!(rt; refusal_with(alloc, 11, "end\n\n# behind\n")?, (0, 0));
    assert_eq!(rt; refusal_with(alloc, 11, "end\n\n;")?, (10, 13));
    assert_eq!(rt; refusal_with(alloc, 11, "end\nend")?, (10, 12));
    assert_eq!(rt; refusal_with(alloc, 11, "# end")?, (11, 12));
    assert_eq!(rt;
        refusal_of(alloc, "ccac-question 1\nflows 1\nsteps 1\n\n")?,
        (11, 5)
    );
    assert_eq!(rt; refusal_of(alloc, "ccac-question 1")?, (11, 2));
    Ok(())
}

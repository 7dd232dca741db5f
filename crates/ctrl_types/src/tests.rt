//! Each way to break a rule, as a text with the line that is refused, and texts that are controllers'.
ghost use Rattle.std.specs.Prelude.{◌<◌, length};

use crate::{Controller, Gate, Source, resolve};
use ctrl_syntax::read;
use std::alloc::{AllocError, Global};
use std::test::Fail;
use whole::ReadFault;

/// A controller with an amount and a count.
const LINES: [&str; 10] = [
    "ccac-controller 1",
    "state cwnd data init 1/2 4",
    "state tries count init 0 1",
    "rule when cwnd + acked >= lost",
    "set cwnd = cwnd + acked",
    "set tries = 1/3",
    "rule otherwise",
    "window cwnd",
    "rate cwnd",
    "end",
];

/// The words that no state may have as its name.
const RESERVED: [&str; 24] = [
    "state",
    "rule",
    "when",
    "otherwise",
    "set",
    "window",
    "rate",
    "end",
    "init",
    "data",
    "count",
    "and",
    "or",
    "not",
    "true",
    "false",
    "delay",
    "acked",
    "lost",
    "credit",
    "A",
    "S",
    "L",
    "W",
];

/// The lines, each with its LF, and another in the place of the one with this number.
fn text_with(alloc: Global, number: usize, line: &str) -> Result<String, AllocError> {
    let mut text = String::new(alloc);
    for (i, old) in LINES.iter().enumerate() {
        text.push_str(if i < number && i + 1 == number {
            line
        } else {
            *old
        })?;
        text.push_str("\n")?;
    }
    Ok(text)
}

/// The controller of a text, or the letter, number and line of its refusal.
fn resolved(alloc: Global, bytes: &[u8]) -> Result<Result<Controller, (u8, u8, u32)>, Fail>
    requires { length bytes.now < 10000 }
{
    let found = match read(alloc, bytes) {
        Ok(syntax) => resolve(alloc, &syntax),
        Err(fault) => Err(fault),
    };
    match found {
        Ok(controller) => Ok(Ok(controller)),
        Err(ReadFault::Refused(refusal)) => {
            Ok(Err((refusal.letter, refusal.number, refusal.line)))
        }
        Err(ReadFault::NoMemory) => Err(Fail::from("memory ran out")),
    }
}

/// The number and the line of the text's refusal by a rule on names, or 0 and 0 where it is a controller's.
fn refusal_of(alloc: Global, text: &str) -> Result<(u8, u32), Fail> {
    if text.len() >= 10000 {
        return Err(Fail::from("the text is too long"));
    }
    match resolved(alloc, text.as_bytes())? {
        Ok(_) => Ok((0, 0)),
        Err((b'Y', number, line)) => Ok((number, line)),
        Err(_) => Err(Fail::from("the text is no syntax")),
    }
}

/// The same with another line, or several, in the place of the one with this number.
fn refusal_with(alloc: Global, number: usize, line: &str) -> Result<(u8, u32), Fail> {
    let text = text_with(alloc, number, line)?;
    refusal_of(alloc, text.as_str())
}

#[test]
fn reserved_words_name_no_state(rt: HostRuntime) -> Result<(), Fail> {
    let alloc = rt.alloc();
    for word in RESERVED {
        let mut line = String::new(alloc);
        line.push_str("state ")?;
        line.push_str(word)?;
        line.push_str(" data init 1 1")?;
        assert_eq!(rt; refusal_with(alloc, 2, line.as_str())?, (1, 2), "{word}");
    }
    Ok(())
}

#[test]
fn names_are_free_and_known(rt: HostRuntime) -> Result<(), Fail> {
    let alloc = rt.alloc();
    for (number, line, rule) in [
        (3, "state cwnd count init 0 1", 1),
        (4, "rule when ghost > 0", 2),
        (4, "rule when lost > 0 or not cwnd > 2 * ghost", 2),
        (5, "set ghost = 1", 2),
        (5, "set acked = 1", 2),
        (5, "set and = 1", 2),
        (5, "set cwnd = 1 + ghost", 2),
        (8, "window acked", 2),
        (8, "window cwnd - ghost", 2),
        (9, "rate lost", 2),
    ] {
        assert_eq!(rt;
            refusal_with(alloc, number, line)?,
            (rule, number as u32),
            "{line}"
        );
    }
    Ok(())
}

#[test]
fn kinds_do_not_mix(rt: HostRuntime) -> Result<(), Fail> {
    let alloc = rt.alloc();
    for (number, line, rule) in [
        (4, "rule when cwnd > tries", 3),
        (4, "rule when tries + cwnd > 1", 3),
        (4, "rule when true and (acked > 0 or lost > tries)", 3),
        (5, "set cwnd = cwnd + tries", 3),
        (5, "set cwnd = 0 * tries", 3),
        (6, "set tries = lost", 3),
        (8, "window cwnd + tries", 3),
        (9, "rate tries - cwnd", 3),
        (8, "window tries", 9),
        (9, "rate 2 * tries", 9),
    ] {
        assert_eq!(rt;
            refusal_with(alloc, number, line)?,
            (rule, number as u32),
            "{line}"
        );
    }
    let apart = "rule when tries > 1 and lost > 0 and 1 > 0";
    assert_eq!(rt; refusal_with(alloc, 4, apart)?, (0, 0));
    Ok(())
}

#[test]
fn values_rules_and_delays_are_in_order(rt: HostRuntime) -> Result<(), Fail> {
    let alloc = rt.alloc();
    for (number, line, rule, refused) in [
        (2, "state cwnd data init 5/2 2", 4, 2),
        (2, "state cwnd data init -1 -2", 4, 2),
        (2, "state cwnd data init 4/2 2", 0, 0),
        (2, "state cwnd data init -2 -1", 0, 0),
        (6, "set cwnd = 1", 5, 6),
        (7, "rule when true\nset cwnd = 1\nrule otherwise", 0, 0),
        (4, "rule otherwise", 6, 4),
        (7, "rule when true", 6, 8),
        (4, "rule when delay >= 3/2", 7, 4),
        (4, "rule when not (false or delay >= 9)", 7, 4),
        (4, "rule when delay >= 8", 0, 0),
        (4, "rule when delay >= 4/2", 0, 0),
    ] {
        assert_eq!(rt;
            refusal_with(alloc, number, line)?,
            (rule, refused),
            "{line}"
        );
    }
    let ruleless = "ccac-controller 1\nstate cwnd data init 1 1\nwindow cwnd\nend\n";
    assert_eq!(rt; refusal_of(alloc, ruleless)?, (6, 3));
    Ok(())
}

// The denominators 2 and 3 of the lines, 997 and 991 have the least common multiple 5,928,162.
#[test]
fn denominators_have_a_common_multiple(rt: HostRuntime) -> Result<(), Fail> {
    let alloc = rt.alloc();
    for (number, line, rule, refused) in [
        (2, "state cwnd data init 1/997 1/991", 8, 6),
        (4, "rule when 1/997 * cwnd > 1/991", 8, 4),
        (4, "rule when delay >= 997/997 and delay >= 991/991", 0, 0),
        (5, "set cwnd = 1/997 * cwnd + 1/991", 8, 5),
        (8, "window 1/997 * cwnd", 0, 0),
        (8, "window cwnd + 0/997 + 0/991 * cwnd", 8, 8),
        (9, "rate 997/997 - 1/991", 8, 9),
    ] {
        assert_eq!(rt;
            refusal_with(alloc, number, line)?,
            (rule, refused),
            "{line}"
        );
    }
    // 997 * 991 is 988,027.
    let states =
        "ccac-controller 1\nstate a data init 1/997 1\nstate b data init 1/991 1\nstate c data init 1/2 1\nrule otherwise\nwindow a\nend\n";
    assert_eq!(rt; refusal_of(alloc, states)?, (8, 4));
    Ok(())
}

#[test]
fn the_first_line_and_its_least_rule_decide(rt: HostRuntime) -> Result<(), Fail> {
    let alloc = rt.alloc();
    for (number, line, rule, refused) in [
        (2, "state rate data init 2 1", 1, 2),
        (5, "set cwnd = tries + ghost", 2, 5),
        (6, "set cwnd = tries", 3, 6),
        (4, "rule when cwnd > tries or delay >= 9", 3, 4),
        (4, "rule when delay >= 9\nset ghost = 1", 7, 4),
        (4, "rule when delay >= 1/2 or 1/997 > 1/991", 7, 4),
        (8, "window 1/997 * tries + 1/991", 8, 8),
    ] {
        assert_eq!(rt;
            refusal_with(alloc, number, line)?,
            (rule, refused),
            "{line}"
        );
    }
    Ok(())
}

/// Whether the first rule compares `cwnd + acked` with `lost`, gives `cwnd` that sum, and `tries` a number.
fn has_first_rule(found: &Controller) -> bool {
    match found.rules.as_slice() {
        [first, _] => {
            let sources = match &first.guard {
                Gate::Cmp(left, _, right) => match (left.terms.as_slice(), right.terms.as_slice()) {
                    ([a, b], [c]) => {
                        a.of == Source::State(0) && b.of == Source::Acked && c.of == Source::Lost
                    }
                    _ => false,
                },
                _ => false,
            };
            let places = match first.sets.as_slice() {
                [Some(cwnd), Some(tries)] => match (cwnd.terms.as_slice(), tries.terms.as_slice()) {
                    ([a, b], [c]) => {
                        a.of == Source::State(0) && b.of == Source::Acked && c.of == Source::One
                    }
                    _ => false,
                },
                _ => false,
            };
            sources && places
        }
        _ => false,
    }
}

/// Whether the controller of the lines, with another in the place of the fourth, has these numbers.
fn has_numbers(alloc: Global, line: &str, delay_max: u32, den: i128) -> Result<bool, Fail> {
    let text = text_with(alloc, 4, line)?;
    if text.len() >= 10000 {
        return Err(Fail::from("the text is too long"));
    }
    match resolved(alloc, text.as_bytes())? {
        Ok(found) => Ok(found.delay_max == delay_max && found.den == den),
        Err(_) => Err(Fail::from("the text is refused")),
    }
}

#[test]
fn a_controller_is_resolved(rt: HostRuntime) -> Result<(), Fail> {
    let alloc = rt.alloc();
    let text = text_with(alloc, 4, LINES[3])?;
    if text.len() >= 10000 {
        return Err(Fail::from("the text is too long"));
    }
    match resolved(alloc, text.as_bytes())? {
        Ok(found) => {
            assert_eq!(rt; found.states.len(), 2);
            assert!(rt; has_first_rule(&found));
        }
        Err(_) => return Err(Fail::from("the text is refused")),
    }
    assert!(rt; has_numbers(alloc, LINES[3], 0, 6)?);
    assert!(rt; has_numbers(alloc, "rule when delay >= 4/2 or delay >= 1", 2, 6)?);
    assert!(rt; has_numbers(alloc, "rule when 2/4 * cwnd > 1/5", 0, 60)?);
    Ok(())
}

//! Questions' texts for a controller, one for each way to break a rule, and the canonical text.
ghost use Rattle.std.specs.Prelude.{◌<◌, ◌^◌, ◌-◌, length, IfOk};
ghost use Rattle.ctrl_types.specs.Limits.{IsController};
ghost use Rattle.question_text.specs.StatementRules.{question_seen};
ghost use Rattle.question_text.specs.Texts.{IsTextOf};

use crate::{print, read};
use ctrl_types::{Controller, resolve};
use std::alloc::{AllocError, Global};
use std::test::Fail;
use whole::{ReadFault, Refusal};

/// A controller with an amount and a count, whose denominators have the least common multiple 997.
const CONTROLLER: &str = "ccac-controller 1
state cwnd data init 1/997 2
state n count init 0 1
rule otherwise
window cwnd
end
";

fn controller(alloc: Global) -> Result<Controller, ReadFault>
    ensures { IfOk result IsController }
{
    let syntax = ctrl_syntax::read(alloc, CONTROLLER.as_bytes())?;
    resolve(alloc, &syntax)
}

/// A question with so many flows, this buffer and this requirement, which stands on line 9.
fn text(alloc: Global, flows: &str, buffer: &str, require: &str) -> Result<String, AllocError> {
    let mut text = String::new(alloc);
    text.push_str("ccac-question 1\nflows ")?;
    text.push_str(flows)?;
    text.push_str("\nsteps 2\nrate 1\njitter 0\nrtt 1\nbuffer ")?;
    text.push_str(buffer)?;
    text.push_str("\nbudget 100\nrequire ")?;
    text.push_str(require)?;
    text.push_str("\nend\n")?;
    Ok(text)
}

/// The rule and the line by which the text is refused, or 0 where it is read.
fn refusal(alloc: Global, text: &str) -> Result<(u8, u32), Fail> {
    let controller = match controller(alloc) {
        Ok(controller) => controller,
        Err(_) => return Err(Fail::from("no controller")),
    };
    let bytes = text.as_bytes();
    if bytes.len() > 1_000 {
        return Err(Fail::from("the text is too long"));
    }
    match read(alloc, bytes, &controller) {
        Ok(_) => Ok((0, 0)),
        Err(ReadFault::Refused(refusal)) => Ok((refusal.number, refusal.line)),
        Err(ReadFault::NoMemory) => Err(Fail::from("no memory")),
    }
}

#[test]
fn a_name_that_stands_for_nothing_is_refused(rt: HostRuntime) -> Result<(), Fail> {
    let alloc = rt.alloc();
    for require in [
        "x@0 >= 0",
        "cwnd.0@1 >= 0",
        "cwnd.3@1 >= 0",
        "cwnd@1 >= 0",
        "credit.1 >= 0",
        "credit@1 >= 0",
        "W.1@1 >= 0",
        "A.0@1 >= 0",
        "S@3 >= 0",
        "true or L.1@3 >= 0",
    ] {
        let text = text(alloc, "2", "none", require)?;
        assert_eq!(rt; refusal(alloc, text.as_str())?, (12, 9));
    }
    Ok(())
}

#[test]
fn names_of_both_kinds_in_one_comparison_are_refused(rt: HostRuntime) -> Result<(), Fail> {
    let alloc = rt.alloc();
    for require in ["cwnd@1 >= n@1", "credit + n@1 >= 0", "0 <= W@0 + n@0"] {
        let text = text(alloc, "1", "none", require)?;
        assert_eq!(rt; refusal(alloc, text.as_str())?, (13, 9));
    }
    let first = text(alloc, "1", "none", "cwnd@1 >= n@1 or x@0 >= 0")?;
    assert_eq!(rt; refusal(alloc, first.as_str())?, (12, 9));
    let apart = text(alloc, "1", "none", "cwnd@1 >= 1 and n@1 >= 1")?;
    assert_eq!(rt; refusal(alloc, apart.as_str())?, (0, 0));
    Ok(())
}

#[test]
fn denominators_past_the_limit_are_refused_at_their_line(rt: HostRuntime) -> Result<(), Fail> {
    let alloc = rt.alloc();
    // 997 * 991 is 988,027.
    let within = text(alloc, "1", "1/991", "credit >= 0")?;
    assert_eq!(rt; refusal(alloc, within.as_str())?, (0, 0));
    let past = text(alloc, "1", "1/991", "0/2 * credit >= 0")?;
    assert_eq!(rt; refusal(alloc, past.as_str())?, (14, 9));
    Ok(())
}

/// The canonical text of the question that the text asks.
fn printed(alloc: Global, text: &str) -> Result<Vec<u8>, Fail> {
    let controller = match controller(alloc) {
        Ok(controller) => controller,
        Err(_) => return Err(Fail::from("no controller")),
    };
    let bytes = text.as_bytes();
    if bytes.len() > 1_000 {
        return Err(Fail::from("the text is too long"));
    }
    match read(alloc, bytes, &controller) {
        Ok(question) => match print(alloc, &question, &controller) {
            Ok(out) => Ok(out),
            Err(_) => Err(Fail::from("no memory")),
        },
        Err(_) => Err(Fail::from("the text is refused")),
    }
}

#[test]
fn the_canonical_text_has_canonical_names(rt: HostRuntime) -> Result<(), Fail> {
    let alloc = rt.alloc();
    let one = text(
        alloc,
        "1",
        "2/4",
        "cwnd.1@2 + S.1@1 - S@0>=2/2*A@1 and not(true)",
    )?;
    let canonical = text(
        alloc,
        "1",
        "2/4",
        "cwnd@2 + S.1@1 - S@0 >= 2/2 * A@1 and not true",
    )?;
    let out = printed(alloc, one.as_str())?;
    assert!(rt; out.as_slice() == canonical.as_bytes());
    let two = text(alloc, "2", "none", "cwnd.2@02 <= 1 * credit")?;
    let both = text(alloc, "2", "none", "cwnd.2@2 <= credit")?;
    let out = printed(alloc, two.as_str())?;
    assert!(rt; out.as_slice() == both.as_bytes());
    Ok(())
}

use super::*;
use source_text::Cursor;
use std::alloc::{AllocError, Global};
use std::test::Fail;
use whole::{ReadFault, Refusal};

/// The condition of the line, printed canonically, or the number of the rule that refuses it.
fn reprinted(alloc: Global, line: &[u8], style: Style) -> Result<Result<Vec<u8>, u8>, Fail> {
    let mut cursor = Cursor::new(line, 3);
    match read_condition(alloc, &mut cursor, style) {
        Ok(condition) => match print_condition(alloc, &condition) {
            Ok(text) => Ok(Ok(text)),
            Err(_) => Err(Fail::from("memory ran out")),
        },
        Err(
            ReadFault::Refused(
                Refusal {
                    letter: _,
                    number,
                    line: _,
                },
            ),
        ) => Ok(Err(number)),
        Err(ReadFault::NoMemory) => Err(Fail::from("memory ran out")),
    }
}

/// Whether the condition of the line is printed so.
fn prints(alloc: Global, line: &[u8], style: Style, text: &[u8]) -> Result<bool, Fail> {
    match reprinted(alloc, line, style)? {
        Ok(printed) => Ok(printed.as_slice() == text),
        Err(_) => Ok(false),
    }
}

/// The number of the rule that refuses the line, or 0.
fn rule_of(alloc: Global, line: &[u8], style: Style) -> Result<u8, Fail> {
    match reprinted(alloc, line, style)? {
        Ok(_) => Ok(0),
        Err(number) => Ok(number),
    }
}

/// The text, so many times over, and then another.
fn repeated(alloc: Global, count: usize, text: &[u8], last: &[u8]) -> Result<Vec<u8>, AllocError> {
    let mut line = Vec::new(alloc);
    for _i in 0..count {
        line.extend_from_slice(text)?;
    }
    line.extend_from_slice(last)?;
    Ok(line)
}

#[test]
fn conditions_of_controllers_are_printed(rt: HostRuntime) -> Result<(), Fail> {
    let alloc = rt.alloc();
    let style = Style::Controller;
    assert!(rt; prints(alloc, b"x+1/2*y<=007/1", style, b"x + 1/2 * y <= 7")?);
    assert!(rt; prints(alloc, b"-x - 0 * y>x-0", style, b"-x + 0 * y > x + 0")?);
    assert!(rt; prints(alloc, b"-1*x==2/2*y", style, b"-x == 2/2 * y")?);
    assert!(rt; prints(alloc, b"delay >= 4/2", style, b"delay >= 4/2")?);
    assert!(rt;
        prints(
            alloc,
            b"( ( a < 1 ) )and(b<2 or false)",
            style,
            b"a < 1 and (b < 2 or false)"
        )?
    );
    assert!(rt;
        prints(
            alloc,
            b"(a<1 and b<2)or c<3",
            style,
            b"a < 1 and b < 2 or c < 3"
        )?
    );
    assert!(rt;
        prints(
            alloc,
            b"a<1 or(b<2 or c<3)",
            style,
            b"a < 1 or (b < 2 or c < 3)"
        )?
    );
    assert!(rt;
        prints(
            alloc,
            b"not(a<1 and true)or not(not a<1)",
            style,
            b"not (a < 1 and true) or not not a < 1"
        )?
    );
    Ok(())
}

#[test]
fn conditions_of_questions_are_printed(rt: HostRuntime) -> Result<(), Fail> {
    let alloc = rt.alloc();
    let style = Style::Question;
    assert!(rt;
        prints(
            alloc,
            b"A . 1 @ 3+credit<=W@2",
            style,
            b"A.1@3 + credit <= W@2"
        )?
    );
    assert_eq!(rt; rule_of(alloc, b"x@99999999999 <= 1", style)?, 0);
    Ok(())
}

#[test]
fn controllers_are_refused(rt: HostRuntime) -> Result<(), Fail> {
    let alloc = rt.alloc();
    let style = Style::Controller;
    assert_eq!(rt; rule_of(alloc, b"x ! 1", style)?, 2);
    assert_eq!(rt; rule_of(alloc, b"x <= 1/0", style)?, 7);
    assert_eq!(rt; rule_of(alloc, b"1000001 <= x", style)?, 7);
    assert_eq!(rt; rule_of(alloc, b"x <= 1/1001", style)?, 7);
    assert_eq!(rt; rule_of(alloc, b"x <= and", style)?, 8);
    assert_eq!(rt; rule_of(alloc, b"x <= 3 *", style)?, 8);
    assert_eq!(rt; rule_of(alloc, b"x * 3 <= 1", style)?, 9);
    assert_eq!(rt; rule_of(alloc, b"(x <= 1", style)?, 9);
    assert_eq!(rt; rule_of(alloc, b"delay > 2", style)?, 9);
    assert_eq!(rt; rule_of(alloc, b"abcdefghijklmnopq <= 1", style)?, 11);
    Ok(())
}

#[test]
fn questions_are_refused(rt: HostRuntime) -> Result<(), Fail> {
    let alloc = rt.alloc();
    let style = Style::Question;
    assert_eq!(rt; rule_of(alloc, b"1/1001 <= W@1", style)?, 5);
    assert_eq!(rt; rule_of(alloc, b"x <= 1", style)?, 7);
    assert_eq!(rt; rule_of(alloc, b"W@1/2 <= 1", style)?, 7);
    assert_eq!(rt; rule_of(alloc, b"delay >= 2", style)?, 8);
    Ok(())
}

#[test]
fn sixteen_are_accepted_and_seventeen_refused(rt: HostRuntime) -> Result<(), Fail> {
    let alloc = rt.alloc();
    let style = Style::Controller;
    assert_eq!(rt;
        rule_of(
            alloc,
            repeated(alloc, 16, b"not ", b"true")?.as_slice(),
            style
        )?,
        0
    );
    assert_eq!(rt;
        rule_of(
            alloc,
            repeated(alloc, 17, b"not ", b"true")?.as_slice(),
            style
        )?,
        10
    );
    assert_eq!(rt;
        rule_of(
            alloc,
            repeated(alloc, 15, b"x + ", b"x < 1")?.as_slice(),
            style
        )?,
        0
    );
    assert_eq!(rt;
        rule_of(
            alloc,
            repeated(alloc, 16, b"x + ", b"x < 1")?.as_slice(),
            style
        )?,
        11
    );
    assert_eq!(rt;
        rule_of(
            alloc,
            repeated(alloc, 16, b"x + ", b"1/0 < 1")?.as_slice(),
            style
        )?,
        7
    );
    assert_eq!(rt;
        rule_of(
            alloc,
            repeated(alloc, 15, b"-x < 1 or ", b"delay >= 1")?.as_slice(),
            style
        )?,
        0
    );
    assert_eq!(rt;
        rule_of(
            alloc,
            repeated(alloc, 16, b"-x < 1 or ", b"- ! < 1")?.as_slice(),
            style
        )?,
        11
    );
    assert_eq!(rt;
        rule_of(
            alloc,
            repeated(alloc, 16, b"-x < 1 or ", b"1/0 < 1")?.as_slice(),
            style
        )?,
        7
    );
    Ok(())
}

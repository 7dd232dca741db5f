ghost use Rattle.std.specs.Prelude.{◌<◌, length};

use super::*;
use line_tables::word_of;
use std::alloc::Global;
use std::test::Fail;
use whole::{ReadFault, Refusal};

/// The rule and the line of the refusal, or 0 and 0 where the bytes are a toy.
fn refusal_of(alloc: Global, bytes: &[u8]) -> Result<(u8, u32), Fail>
    requires { length bytes.now < 1000 }
{
    match read_toy(alloc, bytes) {
        Ok(_) => Ok((0, 0)),
        Err(
            ReadFault::Refused(
                Refusal {
                    letter: _,
                    number,
                    line,
                },
            ),
        ) => Ok((number, line)),
        Err(ReadFault::NoMemory) => Err(Fail::from("memory ran out")),
    }
}

#[test]
fn a_toy_is_read_and_printed_again(rt: HostRuntime) -> Result<(), Fail> {
    let text = b"toy 2\nlist 2 5 -7\nopen\nlist 0\nclose\nend\n";
    let rows = read_toy(rt.alloc(), text)?;
    let slice = rows.as_slice();
    for (i, (word, numbers)) in [
        ("toy", "[2]"),
        ("list", "[2, 5, -7]"),
        ("open", "[]"),
        ("list", "[0]"),
        ("close", "[]"),
        ("end", "[]"),
    ]
    .into_iter()
    .enumerate()
    {
        let row = slice.get(i).ok_or("a row is missing")?;
        let found = row.numbers.as_slice();
        assert_eq!(rt; word_of(TOY.lines, row), word);
        assert_eq!(rt; format!(in rt.alloc(); "{found:?}")?.as_str(), numbers);
    }
    assert_eq!(rt; slice.len(), 6);
    let printed = print_toy(rt.alloc(), slice).ok().ok_or("memory ran out")?;
    assert_eq!(rt; printed.as_slice(), text.as_slice());
    toys_are_told_apart();
    Ok(())
}

#[test]
fn the_first_line_that_is_wrong_is_named(rt: HostRuntime) -> Result<(), Fail> {
    for (text, wanted) in [
        ("toy 2\nopen\nlist 1 3\nclose\nend\n", (0, 0)),
        ("toy 3\n", (1, 1)),
        ("list 0\n", (3, 1)),
        ("toy 1\nlist 0\nopen\nlist x\n", (3, 3)),
        ("toy 1\nlist 2 5\nend\n", (1, 2)),
        (
            "toy 1\nlist 1 170141183460469231731687303715884105728\n",
            (2, 2),
        ),
        ("toy 2\nclose\n", (3, 2)),
        ("toy 2\nopen x\n", (1, 2)),
        ("toy 2\nopen\nend\n", (3, 3)),
        ("toy 2\nlist 0\nend", (4, 3)),
        ("", (4, 1)),
        ("toy 1\nend\n\n", (3, 3)),
        ("toy 1\nend\nx", (3, 3)),
    ] {
        assert!(rt; text.len() < 1000);
        assert_eq!(rt; refusal_of(rt.alloc(), text.as_bytes())?, wanted, "{text}");
    }
    Ok(())
}

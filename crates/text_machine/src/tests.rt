use super::*;
use std::alloc::Global;
use std::test::Fail;

#[test]
fn each_item_of_a_line_is_taken_in_its_turn(rt: HostRuntime) {
    let mut fields = Fields::of(b"row 3 1 -4");
    assert_eq!(rt; fields.word(b"row"), Ok(()));
    assert_eq!(rt; fields.natural(0, 3), Ok(3));
    assert_eq!(rt; fields.positive(), Ok(1));
    assert_eq!(rt; fields.whole(), Ok(-4));
    assert_eq!(rt; fields.end(), Ok(()));
}

#[test]
fn a_wrong_item_is_a_fault_of_form_or_too_large(rt: HostRuntime) {
    let past = b"170141183460469231731687303715884105728";
    assert_eq!(rt; Fields::of(b"rows").word(b"row"), Err(Fault::Form));
    assert_eq!(rt; Fields::of(b"4").natural(0, 3), Err(Fault::Form));
    assert_eq!(rt; Fields::of(past).natural(0, 3), Err(Fault::Form));
    assert_eq!(rt; Fields::of(b"0").positive(), Err(Fault::Form));
    assert_eq!(rt; Fields::of(past).positive(), Err(Fault::Large));
    assert_eq!(rt; Fields::of(past).whole(), Err(Fault::Large));
    assert_eq!(rt; Fields::of(b"-0").whole(), Err(Fault::Form));
    assert_eq!(rt; Fields::of(b"").end(), Err(Fault::Form));
}

#[test]
fn so_many_numbers_end_a_line(rt: HostRuntime) -> Result<(), Fail> {
    let alloc: Global = rt.alloc();
    match last_wholes(alloc, &mut Fields::of(b"5 -7"), 2) {
        Ok(numbers) => assert_eq!(rt; numbers.as_slice(), [5i128, -7].as_slice()),
        Err(_) => return Err(Fail::from("two numbers were not read")),
    }
    assert!(rt;
        matches!(
            last_wholes(alloc, &mut Fields::of(b"5 -7"), 1),
            Err(LineFault::Item(Fault::Form))
        )
    );
    assert!(rt;
        matches!(
            last_wholes(alloc, &mut Fields::of(b"5"), 2),
            Err(LineFault::Item(Fault::Form))
        )
    );
    Ok(())
}

#[test]
fn limits_literals_and_words_are_told_apart(rt: HostRuntime) {
    let words = [b"s".as_slice(), b"f".as_slice()];
    let mut fields = Fields::of(b"f 3 +2 -0 7 x");
    assert_eq!(rt; fields.one_of(words.as_slice()), Ok(1));
    assert_eq!(rt; fields.index(4), Ok(3));
    assert_eq!(rt;
        fields.literal(3),
        Ok(Literal {
            atom: 2,
            positive: true
        })
    );
    assert_eq!(rt;
        fields.literal(3),
        Ok(Literal {
            atom: 0,
            positive: false
        })
    );
    assert_eq!(rt; fields.below(8), Ok(7));
    assert_eq!(rt; fields.next_item(), Some(b"x".as_slice()));
    assert_eq!(rt; Fields::of(b"x").one_of(words.as_slice()), Err(Fault::Form));
    assert_eq!(rt; Fields::of(b"3").index(3), Err(Fault::Large));
    assert_eq!(rt; Fields::of(b"-1").index(3), Err(Fault::Form));
    assert_eq!(rt; Fields::of(b"-1").below(3), Err(Fault::Negative));
    assert_eq!(rt; Fields::of(b"-0").below(3), Err(Fault::Form));
    assert_eq!(rt; Fields::of(b"3").below(3), Err(Fault::Large));
    assert_eq!(rt; Fields::of(b"2").literal(3), Err(Fault::Form));
    assert_eq!(rt; literal_of(b"-3", 3), Err(Fault::Large));
    let seen = [Literal {
        atom: 2,
        positive: true,
    }];
    assert_eq!(rt;
        Fields::of(b"+2").fresh_literal(3, seen.as_slice()),
        Err(Fault::Twice)
    );
    assert_eq!(rt;
        Fields::of(b"-2").fresh_literal(3, seen.as_slice()),
        Ok(Literal {
            atom: 2,
            positive: false
        })
    );
}

use super::*;

#[test]
fn numbers_have_one_spelling(rt: HostRuntime) {
    let most = 170_141_183_460_469_231_731_687_303_715_884_105_727i128;
    for (item, number) in [
        ("0", Ok(0)),
        ("7", Ok(7)),
        ("-7", Ok(-7)),
        ("170141183460469231731687303715884105727", Ok(most)),
        ("-170141183460469231731687303715884105727", Ok(-most)),
        (
            "170141183460469231731687303715884105728",
            Err(ItemFault::Large),
        ),
        (
            "-170141183460469231731687303715884105728",
            Err(ItemFault::Large),
        ),
        (
            "999999999999999999999999999999999999999999999999999999999999999999999999",
            Err(ItemFault::Large),
        ),
        (
            "99999999999999999999999999999999999999999999999x",
            Err(ItemFault::Form),
        ),
        ("", Err(ItemFault::Form)),
        ("-", Err(ItemFault::Form)),
        ("-0", Err(ItemFault::Form)),
        ("00", Err(ItemFault::Form)),
        ("07", Err(ItemFault::Form)),
        ("+7", Err(ItemFault::Form)),
        ("7 ", Err(ItemFault::Form)),
    ] {
        assert_eq!(rt; whole_of(item.as_bytes()), number, "{item}");
    }
    assert_eq!(rt;
        natural_of(b"170141183460469231731687303715884105727"),
        Ok(most as u128)
    );
    assert_eq!(rt; natural_of(b"-7"), Err(ItemFault::Form));
}

#[test]
fn lines_and_items_are_taken_in_order(rt: HostRuntime) {
    let mut lines = Lines::of(b"row 3 -4\nover 1\nend");
    assert_eq!(rt; lines.number(), 1);
    let mut items = LineItems::of(lines.next_line().unwrap_or(b""));
    assert_eq!(rt; items.next_item(), Some(b"row".as_slice()));
    assert_eq!(rt; items.next_item(), Some(b"3".as_slice()));
    assert_eq!(rt; items.next_item(), Some(b"-4".as_slice()));
    assert_eq!(rt; items.next_item(), None);
    assert_eq!(rt; lines.number(), 2);
    assert_eq!(rt; lines.next_line(), Some(b"over 1".as_slice()));
    assert!(rt; !lines.is_finished());
    assert!(rt; lines.next_line().is_none());
    assert!(rt; Lines::of(b"").is_finished());
}

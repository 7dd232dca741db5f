use super::*;

const MOST: u32 = 4_294_967_295;

fn is_word(lexeme: Lexeme<'_>, text: &[u8]) -> bool {
    match lexeme {
        Lexeme::Word(word) => word == text,
        _ => false,
    }
}

fn is_number(lexeme: Lexeme<'_>, number: u32, below: Option<u32>) -> bool {
    match lexeme {
        Lexeme::Number { num, den } => num == number && den == below,
        _ => false,
    }
}

fn is_sign(lexeme: Lexeme<'_>, wanted: Sign) -> bool {
    match lexeme {
        Lexeme::Sign(sign) => sign == wanted,
        _ => false,
    }
}

#[test]
fn a_line_is_words_numbers_and_signs(rt: HostRuntime) {
    let mut cursor = Cursor::new(b"\tset x_1 =4/2*a<= b2c", 7);
    assert!(rt; is_word(cursor.peek(), b"set"));
    assert!(rt; is_word(cursor.peek(), b"set"));
    cursor.advance();
    assert!(rt; is_word(cursor.peek(), b"x_1"));
    cursor.advance();
    assert!(rt; is_sign(cursor.peek(), Sign::Assign));
    cursor.advance();
    assert!(rt; is_number(cursor.peek(), 4, Some(2)));
    cursor.advance();
    assert!(rt; is_sign(cursor.peek(), Sign::Times));
    cursor.advance();
    assert!(rt; is_word(cursor.peek(), b"a"));
    cursor.advance();
    assert!(rt; is_sign(cursor.peek(), Sign::AtMost));
    cursor.advance();
    assert!(rt; is_word(cursor.peek(), b"b2c"));
    cursor.advance();
    assert!(rt; matches!(cursor.peek(), Lexeme::End));
    cursor.advance();
    assert!(rt; matches!(cursor.peek(), Lexeme::End));
    assert_eq!(rt; cursor.number(), 7);
}

#[test]
fn the_longest_token_is_taken(rt: HostRuntime) {
    let mut cursor = Cursor::new(b"1a<=>===<1/2/3", 1);
    assert!(rt; is_number(cursor.peek(), 1, None));
    cursor.advance();
    assert!(rt; is_word(cursor.peek(), b"a"));
    for sign in [Sign::AtMost, Sign::AtLeast, Sign::Equal, Sign::Below] {
        cursor.advance();
        assert!(rt; is_sign(cursor.peek(), sign));
    }
    cursor.advance();
    assert!(rt; is_number(cursor.peek(), 1, Some(2)));
    cursor.advance();
    assert!(rt; matches!(cursor.peek(), Lexeme::Wrong));
}

#[test]
fn a_slash_needs_digits_right_behind_it(rt: HostRuntime) {
    for line in ["1/", "1 /2", "1/ 2", "1/x", "1_", "1\r"] {
        let mut cursor = Cursor::new(line.as_bytes(), 1);
        assert!(rt; is_number(cursor.peek(), 1, None), "{line}");
        cursor.advance();
        assert!(rt; matches!(cursor.peek(), Lexeme::Wrong), "{line}");
        cursor.advance();
        assert!(rt; matches!(cursor.peek(), Lexeme::Wrong), "{line}");
    }
}

#[test]
fn a_part_counts_up_to_32_bits(rt: HostRuntime) {
    for (line, number, below) in [
        ("007", 7, None),
        ("4294967295", MOST, None),
        ("4294967296", MOST, None),
        ("42949672960/0", MOST, Some(0)),
        ("1/99999999999999999999999999999", 1, Some(MOST)),
    ] {
        assert!(rt;
            is_number(Cursor::new(line.as_bytes(), 1).peek(), number, below),
            "{line}"
        );
    }
}

#[test]
fn each_sign_is_read(rt: HostRuntime) {
    for sign in [
        Sign::AtMost,
        Sign::Below,
        Sign::AtLeast,
        Sign::Above,
        Sign::Equal,
        Sign::Assign,
        Sign::Plus,
        Sign::Minus,
        Sign::Times,
        Sign::Open,
        Sign::Close,
        Sign::Dot,
        Sign::At,
    ] {
        assert!(rt; is_sign(Cursor::new(sign.text().as_bytes(), 1).peek(), sign));
    }
}

fn is_text(token: &Token, text: &str) -> bool {
    match token {
        Token::Word(word) => word.as_str() == text,
        Token::Sign(sign) => sign.as_str() == text,
        _ => false,
    }
}

#[test]
fn tokens_are_given_by_themselves(rt: HostRuntime) {
    let alloc = rt.alloc();
    let mut cursor = Cursor::new(b"x >= 3/4 ?", 1);
    let name = cursor.token(alloc).expect(&rt, "memory");
    assert!(rt; is_text(&name, "x"));
    let relation = cursor.token(alloc).expect(&rt, "memory");
    assert!(rt; is_text(&relation, ">="));
    let number = cursor.token(alloc).expect(&rt, "memory");
    assert!(rt;
        matches!(
            &number,
            Token::Number {
                num: 3,
                den: Some(4)
            }
        )
    );
    for _ in 0..2 {
        let wrong = cursor.token(alloc).expect(&rt, "memory");
        assert!(rt; matches!(&wrong, Token::Wrong));
    }
    let end = Cursor::new(b" ", 1).token(alloc).expect(&rt, "memory");
    assert!(rt; matches!(&end, Token::End));
}

#[test]
fn blank_lines_and_comments_are_skipped_and_counted(rt: HostRuntime) {
    let mut lines = SourceLines::of(b"# head\r\n \t\r\na\r\r\n  # \xff\n\nb\r");
    for (number, bytes) in [(1, b"# head".as_slice()), (3, b"a\r"), (6, b"b\r")] {
        let line = lines.next_line();
        assert!(rt;
            matches!(line, Some(SourceLine { number: n, bytes: b }) if n == number && b == bytes)
        );
    }
    assert!(rt; lines.next_line().is_none());
    assert_eq!(rt; lines.end_number(), 7);
}

#[test]
fn the_end_is_behind_all_lines(rt: HostRuntime) {
    for (text, count, end) in [
        ("", 0, 1),
        ("\n", 1, 2),
        ("a", 1, 2),
        ("a\n", 1, 2),
        ("a\n#", 1, 3),
        ("a\n\n", 1, 3),
        ("a\n\r", 2, 3),
        ("a\nb\n \n", 2, 4),
    ] {
        let mut lines = SourceLines::of(text.as_bytes());
        for _ in 0..count {
            assert!(rt; lines.next_line().is_some(), "{text}");
        }
        assert!(rt; lines.next_line().is_none(), "{text}");
        assert_eq!(rt; lines.end_number(), end, "{text}");
    }
}

#[test]
fn a_header_is_two_texts(rt: HostRuntime) {
    for (line, is) in [
        ("ccac-controller 1", true),
        ("\t ccac-controller \t 1  ", true),
        ("ccac-controller 1\r", false),
        ("ccac-controller1", false),
        ("ccac-controller", false),
        ("ccac-controller 1 1", false),
        ("ccac-controller 2", false),
        ("ccac-question 1", false),
        ("", false),
    ] {
        assert_eq!(rt;
            is_header(line.as_bytes(), b"ccac-controller"),
            is,
            "{line}"
        );
    }
}

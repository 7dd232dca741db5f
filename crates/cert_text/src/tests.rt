ghost use Rattle.std.specs.Prelude.{◌<◌, ◌^◌, ◌-◌, length};

use super::*;
use farkas_cert::{Journal, Lit, Lits, Move};
use sqlite_items::Items;
use std::alloc::{AllocError, Global};
use std::fmt::Write;
use std::test::Fail;
use whole::{ReadFault, Refusal};

/// The certificate of a problem with one column, two atoms and two clauses, by lines: of the two atoms one is always true,
/// by the first clause and by a contradiction, and the second clause says that neither is.
const LINES: [&str; 9] = [
    "ccac-cert 1",
    "size 1 2 2",
    "lemma 0",
    "s 0",
    "s 1",
    "c 1",
    "f 2 +0 1 -1 1",
    "c 0",
    "end",
];

/// The certificate, with another line in the place of the one with this number.
fn cert_with(alloc: Global, number: usize, line: &str) -> Result<String, AllocError> {
    let mut text = String::new(alloc);
    for (i, old) in LINES.iter().enumerate() {
        text.push_str(if i < number && i + 1 == number {
            line
        } else {
            *old
        })?;
        text.push_str("\n")?;
    }
    Ok(text)
}

/// The rule and the line of the refusal, or 0 and 0 where the bytes are a certificate.
fn refusal_of(alloc: Global, bytes: &[u8]) -> Result<(u8, u32), Fail>
    requires { length bytes.now < 2 ^ 32 - 1 }
{
    match read_cert(alloc, bytes) {
        Ok(_) => Ok((0, 0)),
        Err(
            ReadFault::Refused(
                Refusal {
                    letter: _,
                    number,
                    line,
                },
            ),
        ) => Ok((number, line)),
        Err(ReadFault::NoMemory) => Err(Fail::from("memory ran out")),
    }
}

#[test]
fn a_certificate_is_read_and_printed_again(rt: HostRuntime) -> Result<(), Fail> {
    let text = cert_with(rt.alloc(), 1, "ccac-cert 1")?;
    assert!(rt; text.len() < 1000);
    let cert = read_cert(rt.alloc(), text.as_bytes())?;
    assert_eq!(rt;
        (cert.columns, cert.atoms, cert.clauses, cert.lemmas.len()),
        (1, 2, 2, 1)
    );
    assert_eq!(rt;
        format!(in rt.alloc(); "{:?}", cert.lemmas.as_slice())?.as_str(),
        "[Lemma { clause: Lits { items: [] }, proof: Split { atom: 0, yes: Split { atom: 1, yes: Clause { number: 1 }, no: Farkas { parts: Items { items: [Part { lit: Lit { atom: 0, positive: true }, mult: 1 }, Part { lit: Lit { atom: 1, positive: false }, mult: 1 }] } } }, no: Clause { number: 0 } } }]"
    );
    let printed = print_cert(rt.alloc(), &cert).ok().ok_or("memory ran out")?;
    assert_eq!(rt; printed.as_slice(), text.as_bytes());
    Ok(())
}

#[test]
fn the_first_item_that_is_wrong_names_the_rule(rt: HostRuntime) -> Result<(), Fail> {
    for (line, text, rule) in [
        (1, "ccac-cert 2", 1),
        (1, "ccac-cert 1\r", 1),
        (2, "size 1 2", 2),
        (2, "size 1 2 -2", 2),
        (2, "size 1 4294967295 2", 0),
        (2, "size 1 4294967296 2", 6),
        (3, "lemma 1", 3),
        (3, "lemma 4294967296", 3),
        (3, "lemma 0 +1 -0 +1", 0),
        (3, "lemma 0 1", 3),
        (3, "lemma 0 +4294967296", 6),
        (3, "leaf 0 0", 3),
        (3, "c 0", 7),
        (3, "end", 9),
        (3, "end x", 3),
        (4, "s -1", 5),
        (4, "s 4294967296", 6),
        (4, "lemma", 7),
        (4, "end x", 7),
        (4, "leaf 0 0", 5),
        (4, "", 5),
        (6, "c 1 1", 5),
        (6, "c 4294967295", 0),
        (7, "f 2 +0 -1 -1 1", 4),
        (7, "f 2 +0 -1 -1 x", 4),
        (7, "f 2 +0 x -1 -1", 5),
        (7, "f 2 0 -1 -1 1", 5),
        (7, "f 2 +0 -0 -1 1", 5),
        (7, "f 2 +0 1", 5),
        (7, "f 1 +0 1 -1 1", 5),
        (7, "f 0", 0),
        (7, "f 2 +0 170141183460469231731687303715884105727 -1 1", 0),
        (7, "f 2 +0 170141183460469231731687303715884105728 -1 1", 6),
        (7, "f 2 +0 -170141183460469231731687303715884105728 -1 1", 4),
        (7, "f 4294967296 +0 1", 6),
        (9, "s 0", 7),
        (9, "lemma 2", 3),
        (9, "end 0", 3),
    ] {
        let cert = cert_with(rt.alloc(), line as usize, text)?;
        assert!(rt; cert.len() < 1000);
        let wanted = if rule == 0 { (0, 0) } else { (rule, line) };
        assert_eq!(rt; refusal_of(rt.alloc(), cert.as_bytes())?, wanted, "{text}");
    }
    Ok(())
}

#[test]
fn a_text_that_stops_lacks_its_end(rt: HostRuntime) -> Result<(), Fail> {
    let cert = cert_with(rt.alloc(), 1, "ccac-cert 1")?;
    let bytes = cert.as_bytes();
    assert!(rt; bytes.len() < 1000);
    assert_eq!(rt; refusal_of(rt.alloc(), b"")?, (1, 1), "no bytes");
    let mut line = 1;
    for end in 1..bytes.len() {
        if bytes[end - 1] == b'\n' && line < 1000 {
            line += 1;
        }
        assert_eq!(rt; refusal_of(rt.alloc(), &bytes[..end])?, (8, line));
    }
    let mut longer = cert_with(rt.alloc(), 1, "ccac-cert 1")?;
    longer.push_str("x")?;
    assert!(rt; longer.len() < 1000);
    assert_eq!(rt;
        refusal_of(rt.alloc(), longer.as_bytes())?,
        (9, 10),
        "bytes behind the end"
    );
    Ok(())
}

/// A certificate whose one tree is a chain of so many splits, with this line as the first leaf.
fn chain(alloc: Global, splits: u32, leaf: &str) -> Result<String, AllocError> {
    let mut text = String::new(alloc);
    text.push_str("ccac-cert 1\nsize 1 2 2\nlemma 0\n")?;
    for i in 0..splits {
        write!(text, "s {i}\n")?;
    }
    text.push_str(leaf)?;
    for _ in 0..splits {
        text.push_str("\nc 0")?;
    }
    text.push_str("\nend\n")?;
    Ok(text)
}

#[test]
fn a_node_stands_below_at_most_4096_splits(rt: HostRuntime) -> Result<(), Fail> {
    for (splits, leaf, wanted) in [
        (4096, "c 0", (0, 0)),
        (4097, "c 0", (6, 4101)),
        (4097, "x", (6, 4101)),
        (4097, "f 1 +0 -1", (6, 4101)),
        (4097, "end", (7, 4101)),
    ] {
        let text = chain(rt.alloc(), splits, leaf)?;
        assert!(rt; text.len() < 1000000);
        assert_eq!(rt; refusal_of(rt.alloc(), text.as_bytes())?, wanted, "{leaf}");
    }
    let text = chain(rt.alloc(), 4096, "c 0")?;
    assert!(rt; text.len() < 1000000);
    let cert = read_cert(rt.alloc(), text.as_bytes())?;
    let printed = print_cert(rt.alloc(), &cert).ok().ok_or("memory ran out")?;
    assert_eq!(rt; printed.as_slice(), text.as_bytes());
    Ok(())
}

#[test]
fn a_line_is_read_by_what_is_wanted(rt: HostRuntime) -> Result<(), Fail> {
    let found = read_line(rt.alloc(), b"lemma 3 +1 -2", 9, Want::Next { lemma: 3 })?;
    assert_eq!(rt;
        format!(in rt.alloc(); "{found:?}")?.as_str(),
        "Lemma(Lits { items: [Lit { atom: 1, positive: true }, Lit { atom: 2, positive: false }] })"
    );
    assert_eq!(rt;
        read_line(rt.alloc(), b"end", 9, Want::Nothing).err(),
        Some(ReadFault::Refused(Refusal {
            letter: b'F',
            number: 9,
            line: 9,
        },),)
    );
    Ok(())
}

#[test]
fn the_moves_of_a_journal_are_counted_and_printed(rt: HostRuntime) -> Result<(), Fail> {
    let alloc = rt.alloc();
    let lit = Lit {
        atom: 7,
        positive: true,
    };
    let lemma = Lits::from_vec(Vec::from_slice(alloc, &[lit.negated(), lit])?);
    let mut moves = Items::new(alloc);
    moves.push(Move::Decide(lit))?;
    moves.push(Move::Propagate(lit.negated(), 12))?;
    moves.push(Move::Pivot(3, 4))?;
    moves.push(Move::Decide(lit.negated()))?;
    moves.push(Move::Conflict(lemma, 2))?;
    moves.push(Move::Conflict(Lits::from_vec(Vec::new(alloc)), 0))?;
    let printed = print_journal(alloc, &Journal { moves })
        .ok()
        .ok_or("memory ran out")?;
    assert_eq!(rt;
        printed.as_slice(),
        b"counts 2 1 1 2\nd +7\np -7 12\nv 3 4\nd -7\nk 2 -7 +7\nk 0\nend\n".as_slice()
    );
    certificates_are_told_apart();
    Ok(())
}

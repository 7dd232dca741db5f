use crate::{Form, request_of};
use std::alloc::Global;
use std::test::Fail;

const FORMS: [Form; 2] = [
    Form {
        word: "check",
        least: 2,
        most: 2,
    },
    Form {
        word: "fmt",
        least: 1,
        most: 2,
    },
];

/// What the words of a line ask for, as `check[c][q] json`, or `nothing`.
fn asked(alloc: Global, line: &str) -> Result<String, Fail> {
    let mut words = Vec::new(alloc);
    for word in line.split_whitespace() {
        words.push(String::from_str(alloc, word)?)?;
    }
    let Some(request) = request_of(alloc, &FORMS, words.as_slice())? else {
        return Ok(String::from_str(alloc, "nothing")?);
    };
    let mut text = String::from_str(alloc, request.word)?;
    for value in &request.values {
        text.push('[')?;
        text.push_str(value)?;
        text.push(']')?;
    }
    if request.json {
        text.push_str(" json")?;
    }
    Ok(text)
}

#[test]
fn the_flag_stands_anywhere(rt: HostRuntime) -> Result<(), Fail> {
    let alloc = rt.alloc();
    for line in [
        "check --json c q",
        "check c q --json",
        "check c --json q",
        "check --json -- c q",
    ] {
        assert!(rt;
            asked(alloc, line)?.as_str() == "check[c][q] json",
            "{line}"
        );
    }
    Ok(())
}

#[test]
fn behind_two_hyphens_all_words_are_values(rt: HostRuntime) -> Result<(), Fail> {
    let alloc = rt.alloc();
    assert!(rt; asked(alloc, "check -- --json --")?.as_str() == "check[--json][--]");
    assert!(rt; asked(alloc, "check c -- -q")?.as_str() == "check[c][-q]");
    assert!(rt; asked(alloc, "check - q")?.as_str() == "check[-][q]");
    Ok(())
}

#[test]
fn values_are_counted(rt: HostRuntime) -> Result<(), Fail> {
    let alloc = rt.alloc();
    for (line, want) in [
        ("check c", "nothing"),
        ("check c q r", "nothing"),
        ("fmt", "nothing"),
        ("fmt c", "fmt[c]"),
        ("fmt c q", "fmt[c][q]"),
        ("fmt c q r", "nothing"),
    ] {
        assert!(rt; asked(alloc, line)?.as_str() == want, "{line}");
    }
    Ok(())
}

#[test]
fn other_options_are_unknown(rt: HostRuntime) -> Result<(), Fail> {
    let alloc = rt.alloc();
    for line in [
        "check c q --help",
        "check c q -h",
        "check --json c q --json",
        "check --json=true c q",
        "check --js c q",
        "check c -1",
    ] {
        assert!(rt; asked(alloc, line)?.as_str() == "nothing", "{line}");
    }
    Ok(())
}

#[test]
fn the_first_word_names_the_command(rt: HostRuntime) -> Result<(), Fail> {
    let alloc = rt.alloc();
    for line in [
        "",
        "chec c q",
        "checks c q",
        "--json check c q",
        "c check q",
    ] {
        assert!(rt; asked(alloc, line)?.as_str() == "nothing", "{line}");
    }
    Ok(())
}

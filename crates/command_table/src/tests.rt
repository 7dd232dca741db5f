use crate::plain_words;
use command_words::Form;
use std::alloc::Global;
use std::test::Fail;

const FORMS: [Form; 2] = [
    Form {
        word: "check",
        least: 2,
        most: 2,
    },
    Form {
        word: "fmt",
        least: 1,
        most: 2,
    },
];

/// The words of a line without options, each in brackets, and `json` behind them where the report is to be JSON.
fn plain(alloc: Global, line: &str) -> Result<String, Fail> {
    let mut words = Vec::new(alloc);
    for word in line.split_whitespace() {
        words.push(String::from_str(alloc, word)?)?;
    }
    let plain = plain_words(alloc, &FORMS, words.as_slice())?;
    let mut text = String::new(alloc);
    for word in &plain.words {
        text.push('[')?;
        text.push_str(word.as_str())?;
        text.push(']')?;
    }
    if plain.json {
        text.push_str(" json")?;
    }
    Ok(text)
}

#[test]
fn each_command_takes_its_values(rt: HostRuntime) -> Result<(), Fail> {
    let alloc = rt.alloc();
    for (line, want) in [
        ("check c q", "[check][c][q]"),
        ("fmt c", "[fmt][c]"),
        ("fmt c q", "[fmt][c][q]"),
    ] {
        assert!(rt; plain(alloc, line)?.as_str() == want, "{line}");
    }
    Ok(())
}

#[test]
fn options_are_taken_off(rt: HostRuntime) -> Result<(), Fail> {
    let alloc = rt.alloc();
    for line in [
        "check --json c q",
        "check c q --json",
        "check --json -- c q",
    ] {
        assert!(rt;
            plain(alloc, line)?.as_str() == "[check][c][q] json",
            "{line}"
        );
    }
    assert!(rt; plain(alloc, "fmt -- --json")?.as_str() == "[fmt][--json]");
    Ok(())
}

#[test]
fn other_words_ask_for_nothing(rt: HostRuntime) -> Result<(), Fail> {
    let alloc = rt.alloc();
    for line in [
        "",
        "chec c q",
        "check c",
        "check c q r",
        "check c q --help",
        "check --json c q --json",
        "--json check c q",
        "fmt",
        "fmt c q r",
    ] {
        assert!(rt; plain(alloc, line)?.as_str() == "", "{line}");
    }
    Ok(())
}

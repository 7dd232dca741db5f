ghost use Rattle.std.specs.Prelude.{◌≡◌, IfOk, IsTrue, drop, map, option_map, string_bytes};
ghost use Rattle.std.specs.List.{filter_map};
ghost use Rattle.clap.specs.Words.{first_value, found_of};
ghost use Rattle.command_words.specs.Forms.{are_entries, asked_by, asked_of, entry_of, is_entry};
ghost use Rattle.command_words.specs.Views.{seen};

use crate::clap_command::{NAMES, command_by};
use crate::forms::{Form, form_named};
use clap::ArgMatches;
use clap::error::ErrorKind;
use std::alloc::{AllocError, Global};
use whole::NoMemory;

/// What a command line asks for: a command, its values, and whether the report is to be JSON.
#[derive(Debug, Drop)]
pub struct Request<'a> {
    pub word: &'static str,
    pub values: Vec<&'a str>,
    pub json: bool,
}

/// What the words ask for by this table, if they fit it. `NoMemory` comes where memory runs out.
pub fn request_of<'a>(
    alloc: Global,
    forms: &[Form],
    words: &'a [String],
) -> Result<Option<Request<'a>>, NoMemory>
    requires { IsTrue (are_entries (map entry_of forms.now)) }
    ensures { IfOk result (λ request. option_map seen request ≡ asked_of (map entry_of forms.now) (map string_bytes words.entry.now)) }
{
    let Some(word) = words.first() else {
        return Ok(None);
    };
    match form_named(forms, word.as_str()) {
        Some(form) => request_by(alloc, form, words),
        None => Ok(None),
    }
}

/// What the words ask for, where the first is that of the form.
fn request_by<'a>(
    alloc: Global,
    form: Form,
    words: &'a [String],
) -> Result<Option<Request<'a>>, NoMemory>
    requires { IsTrue (is_entry (entry_of form)) }
    ensures { IfOk result (λ request. option_map seen request ≡ asked_by (entry_of form) (drop 1 (map string_bytes words.entry.now))) }
{
    let command = command_by(alloc, form)?;
    match command.try_get_matches_from(words) {
        Ok(matches) => Ok(Some(Request {
            word: form.word,
            values: values_in(alloc, &matches, &NAMES)?,
            json: matches.get_flag("json"),
        })),
        Err(error) => refused(error.kind()),
    }
}

/// The values that were found under these names, in their order.
fn values_in<'a>(
    alloc: Global,
    matches: &ArgMatches<'a>,
    names: &[&str],
) -> Result<Vec<&'a str>, AllocError>
    ensures { IfOk result (λ values. map (λ value. value.now) values.items ≡ filter_map (λ name. first_value (found_of matches.now) name.now) names.now) }
{
    let mut values = Vec::new(alloc);
    for name in names {
        if let Some(value) = matches.get_str(name) {
            values.push(value)?;
        }
    }
    Ok(values)
}

/// No request, or that memory ran out while the words were read.
fn refused<'a>(kind: ErrorKind) -> Result<Option<Request<'a>>, NoMemory>
    ensures { IfOk result (λ request. (request ≡ None) × (kind ≡ ErrorKind.OutOfMemory → ⊥)) }
{
    if kind == ErrorKind::OutOfMemory {
        Err(NoMemory)
    } else {
        Ok(None)
    }
}

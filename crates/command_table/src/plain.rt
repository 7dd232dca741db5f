ghost use Rattle.std.specs.Prelude.{◌≡◌, ◌∷◌, IfOk, IsTrue, map, string_bytes};
ghost use Rattle.command_words.specs.Forms.{are_entries, asked_of, entry_of};
ghost use Rattle.command_words.specs.Views.{seen};
ghost use Rattle.command_table.specs.Plain.{bytes_of, plain_of, wants_json};

use command_words::{Form, Request, request_of};
use std::alloc::{AllocError, Global};
use whole::NoMemory;

/// Words without options, and whether the report is to be JSON.
#[derive(Debug, Drop)]
pub struct Plain {
    pub words: Vec<String>,
    pub json: bool,
}

/// The words of a command line without options: a command's word, and its values behind it. There are none where the words ask
/// for nothing by this table.
pub fn plain_words(alloc: Global, forms: &[Form], words: &[String]) -> Result<Plain, NoMemory>
    requires { IsTrue (are_entries (map entry_of forms.now)) }
    ensures words { IfOk result (λ plain. bytes_of plain ≡ plain_of (asked_of (map entry_of forms.now) (map string_bytes words.now))) }
    ensures json { IfOk result (λ plain. plain.json ≡ wants_json (asked_of (map entry_of forms.now) (map string_bytes words.now))) }
{
    match request_of(alloc, forms, words)? {
        Some(request) => Ok(Plain {
            words: words_of(alloc, &request)?,
            json: request.json,
        }),
        None => Ok(Plain {
            words: Vec::new(alloc),
            json: false,
        }),
    }
}

/// The command's word, and its values behind it.
fn words_of(alloc: Global, request: &Request<'_>) -> Result<Vec<String>, AllocError>
    ensures { IfOk result (λ words. map string_bytes words.items ≡ (seen request.now).word ∷ (seen request.now).values) }
{
    let mut words = Vec::new(alloc);
    words.push(String::from_str(alloc, request.word)?)?;
    for value in &request.values {
        words.push(String::from_str(alloc, value)?)?;
    }
    Ok(words)
}

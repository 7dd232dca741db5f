ghost use Rattle.std.specs.Prelude.{◌≡◌, IfOk, map, string_bytes};
ghost use Rattle.command_words.specs.Forms.{asked_of, entry_of};
ghost use Rattle.command_table.specs.Plain.{bytes_of, plain_of, wants_json};
ghost use Rattle.command_line.specs.Table.{commands, file_entry};

use ccac_cli::{COMMANDS, Command};
use command_table::{Plain, plain_words};
use command_words::Form;
use std::alloc::{AllocError, Global};
use whole::NoMemory;

/// The words of a command line without options, by the table of all commands.
pub(crate) fn plain(alloc: Global, words: &[String]) -> Result<Plain, NoMemory>
    ensures words { IfOk result (λ plain. bytes_of plain ≡ plain_of (asked_of commands (map string_bytes words.now))) }
    ensures json { IfOk result (λ plain. plain.json ≡ wants_json (asked_of commands (map string_bytes words.now))) }
{
    let forms = table(alloc)?;
    plain_words(alloc, forms.as_slice(), words)
}

/// The commands: those on files by their entries, and `gen`.
fn table(alloc: Global) -> Result<Vec<Form>, AllocError>
    ensures { IfOk result (λ forms. map entry_of forms.items ≡ commands) }
{
    let mut forms = Vec::new(alloc);
    for command in &COMMANDS {
        forms.push(form_of(*command))?;
    }
    forms.push(Form {
        word: "gen",
        least: 2,
        most: 2,
    })?;
    Ok(forms)
}

/// The form of a command on files: it takes the names of its files.
fn form_of(command: Command) -> Form
    ensures { entry_of result ≡ file_entry command }
{
    let entry = command.entry();
    Form {
        word: entry.word,
        least: entry.least,
        most: entry.files.len(),
    }
}

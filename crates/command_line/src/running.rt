ghost use Rattle.std.specs.Prelude.{map, string_bytes};
ghost use Rattle.command_words.specs.Forms.{asked_of};
ghost use Rattle.command_line.specs.Table.{commands};
ghost use Rattle.command_line.specs.Runs.{Runs};

use crate::carrying::carry_out;
use crate::json::in_json;
use crate::table::plain;
use ccac_ports::{Folder, Sink};
use report_put::NO_MEMORY;
use std::alloc::Global;
use whole::NoMemory;

/// Carries out the words of a command line, those after the program's name, and gives the status.
///
/// The first word names a command of the table. Of the others `--json` may stand once and anywhere before `--`; the rest are the
/// command's values. Words that fit no command are usage, 4. With `--json` every other report is one line: a JSON object with
/// the keys `status` and `text`. What the commands on files report, and with which status, `ccac_cli::run` says.
///
/// `gen SEED SIZE` makes the controller and the question of a seed (below 2^64) and of 1 to 32 steps, and judges them in
/// memory. It reports `gen SEED SIZE`, `controller BYTES`, `question BYTES` and `verdict WORD`, with 0; where the word is
/// `unknown`, the report of `check` follows.
pub fn run<F: Folder, S: Sink>(
    alloc: Global,
    words: &Vec<String>,
    folder: &mut F,
    out: &mut S,
) -> u8
    ensures { Runs (F.tells folder.old) (F.tells folder.new) (asked_of commands (map string_bytes words.now.items)) (S.got out.old) (S.got out.new) result }
{
    match plain(alloc, words.as_slice()) {
        Ok(plain) => {
            if plain.json {
                in_json(alloc, &plain.words, folder, out)
            } else {
                carry_out(alloc, &plain.words, folder, out)
            }
        }
        Err(NoMemory) => NO_MEMORY,
    }
}

ghost use Rattle.std.specs.Prelude.{map, string_bytes};
ghost use Rattle.command_line.specs.Runs.{InJson};

use crate::carrying::carry_out;
use crate::generating::LAST_WHOLE;
use ccac_ports::{Folder, MemSink, Sink};
use report_put::{NO_MEMORY, put_as_json};
use std::alloc::Global;

/// Carries out words without options, and puts the report as a line of JSON.
pub(crate) fn in_json<F: Folder, S: Sink>(
    alloc: Global,
    words: &Vec<String>,
    folder: &mut F,
    out: &mut S,
) -> u8
    ensures { InJson (F.tells folder.old) (F.tells folder.new) (map string_bytes words.now.items) (S.got out.old) (S.got out.new) result }
{
    let mut kept = MemSink::new(alloc);
    let status = carry_out(alloc, words, folder, &mut kept);
    if status > LAST_WHOLE {
        return NO_MEMORY;
    }
    put_as_json(alloc, status, kept.text(), out)
}

ghost use Rattle.std.specs.Prelude.{map, string_bytes};
ghost use Rattle.command_line.specs.Runs.{Carries};

use crate::generating::generate;
use ccac_ports::{Folder, Sink};
use gen_report::seed_of;
use std::alloc::Global;

/// Carries out words without options.
pub(crate) fn carry_out<F: Folder, S: Sink>(
    alloc: Global,
    words: &Vec<String>,
    folder: &mut F,
    out: &mut S,
) -> u8
    ensures { Carries (F.tells folder.old) (F.tells folder.new) (map string_bytes words.now.items) (S.got out.old) (S.got out.new) result }
{
    match seed_of(words.as_slice()) {
        Some(seed) => generate(alloc, seed, out),
        None => ccac_cli::run(alloc, words, folder, out),
    }
}

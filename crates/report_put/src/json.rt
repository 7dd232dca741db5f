ghost use Rattle.std.specs.Prelude.{◌≡◌, IfOk};
ghost use Rattle.report_put.specs.Put.{IsPut};
ghost use Rattle.report_put.specs.Json.{text_as_json};

use crate::putting::{NO_MEMORY, put};
use ccac_ports::Sink;
use report_json::report_line;
use std::alloc::{AllocError, Global};

/// The status of usage, whose report never is JSON.
const USAGE: u8 = 4;

/// Puts a report as one line of JSON, but that of usage (4) as it is, and gives the status with which the program ends.
pub fn put_as_json<S: Sink>(alloc: Global, status: u8, text: &[u8], out: &mut S) -> u8
    ensures { IsPut status (text_as_json status text.now) (S.got out.old) (S.got out.new) result }
{
    match line_of(alloc, status, text) {
        Ok(line) => put(status, line.as_slice(), out),
        Err(_) => NO_MEMORY,
    }
}

/// The text of the report as it is put.
fn line_of(alloc: Global, status: u8, text: &[u8]) -> Result<Vec<u8>, AllocError>
    ensures { IfOk result (λ line. line.items ≡ text_as_json status text.now) }
{
    if status == USAGE {
        Vec::from_slice(alloc, text)
    } else {
        Ok(report_line(alloc, status, text)?.into_bytes())
    }
}

ghost use Rattle.std.specs.Prelude.{◌≡◌, IfOk, codes, string_bytes};
ghost use Rattle.std.specs.Str.{IsUtf8};
ghost use Rattle.std.specs.Str.Lossy.{utf8_lossy};
ghost use Rattle.serde_json.specs.Data.{member, no_members, number, object, string, unsigned};
ghost use Rattle.serde_json.specs.View.{view};
ghost use Rattle.report_json.specs.Lines.{json_line};

use serde_json::{Value, json};
use std::alloc::{AllocError, Global};

/// The line `{"status":STATUS,"text":TEXT}` with LF, where TEXT is the report as a JSON string: a quote, a backslash and
/// each byte below 32 have the shortest escape. What is no UTF-8 is replaced by U+FFFD.
pub fn report_line(alloc: Global, status: u8, text: &[u8]) -> Result<String, AllocError>
    ensures line { IfOk result (λ line. string_bytes line ≡ json_line status (utf8_lossy text.now)) }
    ensures whole { IfOk result (λ line. IsUtf8 text.now → string_bytes line ≡ json_line status text.now) }
{
    let mut line = report_value(alloc, status, text)?.to_string(alloc)?;
    line.push('\n')?;
    Ok(line)
}

/// The object of a status and a text.
fn report_value(alloc: Global, status: u8, text: &[u8]) -> Result<Value, AllocError>
    ensures { IfOk result (λ value. view value ≡ object (member (codes "status") (number (unsigned status)) (member (codes "text") (string (utf8_lossy text.now)) no_members))) }
{
    let text = String::from_utf8_lossy(alloc, text)?;
    json!(in alloc; {"status": status, "text": text})
}

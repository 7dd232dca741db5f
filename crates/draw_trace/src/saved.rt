ghost use Rattle.std.specs.Prelude.{◌≡◌, ◌≤◌, length};
ghost use Rattle.draw_trace.specs.Saved.{behind_verdict};

/// The text in a file: what stands behind a first line that is exactly `verified` or `violated`, as in a saved report of a
/// search, or the whole file.
pub(crate) fn behind_verdict(bytes: &[u8]) -> &[u8]
    ensures exact { result.now ≡ behind_verdict bytes.now }
    ensures no_longer { length result.now ≤ length bytes.now }
{
    let verified = b"verified\n".as_slice();
    let violated = b"violated\n".as_slice();
    if bytes.starts_with(verified) || bytes.starts_with(violated) {
        &bytes[verified.len()..]
    } else {
        bytes
    }
}

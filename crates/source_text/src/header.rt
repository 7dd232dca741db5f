ghost use Rattle.std.specs.Prelude.{◌≡◌, ◌≤◌, ◌∷◌, ◌↔◌, [], length, not, IsTrue, MatchOption};
ghost use Rattle.std.specs.List.{prefix_len};
ghost use Rattle.source_text.specs.Bytes.{is_blank};
ghost use Rattle.source_text.specs.Header.{texts};

use crate::cutting::behind_blanks;
use crate::runs::is_blank;

/// Whether the line, split at its runs of spaces and tabs, is the two texts `name` and `1`. Blanks may also stand at its
/// ends.
pub fn is_header(line: &[u8], name: &[u8]) -> bool
    ensures { IsTrue result ↔ (texts line.now ≡ name.now ∷ (49 ∷ []) ∷ []) }
{
    let Some((first, rest)) = next_text(line) else {
        return false;
    };
    let Some((second, rest)) = next_text(rest) else {
        return false;
    };
    first == name && second == b"1".as_slice() && next_text(rest).is_none()
}

/// The first text, and what is behind it.
#[tactic(auto, using(crate::proofs::HeaderLaws::text_laws))]
fn next_text(line: &[u8]) -> Option<(&[u8], &[u8])>
    ensures { MatchOption result (texts line.now ≡ []) (λ parts. texts line.now ≡ parts.0.now ∷ texts parts.1.now) }
{
    let bytes = behind_blanks(line);
    if bytes.is_empty() {
        return None;
    }
    Some(bytes.split_at(text_len(bytes)))
}

/// How many bytes in front are no blanks.
fn text_len(bytes: &[u8]) -> usize
    ensures exact { result ≡ prefix_len (λ b. not (is_blank b)) bytes.now }
    ensures within { result ≤ length bytes.now }
{
    bytes.iter().take_while(|byte| !is_blank(**byte)).count()
}

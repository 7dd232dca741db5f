//! Any reader read whole within a limit, and any writer given a whole text.
ghost use Rattle.std.specs.Prelude.{◌≡◌, ℕ, ◌+◌, ◌<◌, ◌≤◌, List, length, take, IfOk, IfErr, IfSome, OnOk, OnErr, IsErrOf};
ghost use Rattle.std.specs.Io.KnownBytes.{Appends, Consumes, IsAtEnd};
ghost use Rattle.ccac_ports.specs.Ports.{Tells};

use crate::ports::{FetchFault, PutFault};
use std::alloc::Global;
use std::io::{Read, Write};

/// How many bytes are asked for in one turn.
const CHUNK: usize = 4096;

/// All the bytes of the source, of which there may be at most `limit`. Whatever comes of it, at
/// most `limit + 1` bytes are taken.
pub(crate) fn read_whole<S: Read>(
    alloc: Global,
    source: &mut S,
    limit: u64,
) -> Result<Vec<u8>, FetchFault>
    ensures within { IfOk result (λ bytes. length bytes.items ≤ limit) }
    ensures whole { IfOk result (λ bytes. Tells (S.remaining source.old) bytes.items) }
    ensures end { OnOk result (IsAtEnd (S.remaining source.new)) }
    ensures longer { IsErrOf result FetchFault.TooLong →
        IfSome (S.remaining source.old) (λ held. limit < length held) }
    ensures taken { (taken : List ℕ) × (length taken ≤ limit + 1)
        × Consumes (S.remaining source.old) (S.remaining source.new) taken }
{
    let mut bytes = Vec::new(alloc);
    let mut chunk = [0u8; CHUNK];
    loop {
        let left = limit - bytes.len() as u64;
        let room = left.saturating_add(1).min(CHUNK as u64);
        let taken = match source.read(&mut chunk[..room as usize]) {
            Ok(taken) => taken,
            Err(_) => return Err(FetchFault::Failed),
        };
        if taken == 0 {
            return Ok(bytes);
        }
        if taken as u64 > left {
            return Err(FetchFault::TooLong);
        }
        bytes.extend_from_slice(&chunk[..taken])?;
    }
}

/// Appends the bytes to what the writer holds. After a refusal a prefix of them was appended.
pub(crate) fn write_whole<W: Write>(writer: &mut W, bytes: &[u8]) -> Result<(), PutFault>
    ensures ok { OnOk result (Appends (W.contents writer.old) (W.contents writer.new) bytes.now) }
    ensures refused { OnErr result ((n : ℕ) ×
        Appends (W.contents writer.old) (W.contents writer.new) (take n bytes.now)) }
    ensures cause { IfErr result (λ fault. fault ≡ PutFault.Failed) }
{
    let mut put = 0;
    while put < bytes.len() {
        match writer.write(&bytes[put..]) {
            Ok(written) if written > 0 => put += written,
            _ => return Err(PutFault::Failed),
        }
    }
    Ok(())
}

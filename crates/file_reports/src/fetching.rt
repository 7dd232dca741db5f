ghost use Rattle.std.specs.Prelude.{◌≡◌, ◌<◌, ◌≤◌, length, map, slice_index_or, string_bytes, IfOk, IfErr};
ghost use Rattle.file_reports.specs.Fetched.{AreFetched, FetchEnds, Fetches, IsFetched, IsLater};
ghost use Rattle.file_reports.specs.Had.{had_all, never};
ghost use Rattle.file_reports.specs.Halted.{HaltsBy};
ghost use Rattle.file_reports.specs.Shown.{texts_of};

use crate::early_end::EarlyEnd;
use crate::reports::Report;
use crate::sources::Source;
use ccac_ports::{FetchFault, Folder};
use std::alloc::Global;

/// The bytes of the named files, which are fetched one after the other, or the report on the first that can't be had.
pub fn fetch_all<F: Folder>(
    alloc: Global,
    folder: &mut F,
    files: &[Source],
    names: &[String],
) -> Result<Vec<Vec<u8>>, EarlyEnd>
    requires { length names.now ≤ length files.now }
    ensures found { IfOk result (λ texts. AreFetched (F.tells folder.old) files.now (map string_bytes names.now) (texts_of texts.items)) }
    ensures halted { IfErr result (λ halt. HaltsBy (had_all (Fetches (F.tells folder.old) (F.tells folder.new)) files.now (map string_bytes names.now) never) halt) }
{
    let mut texts = Vec::new(alloc);
    for name in names {
        let source = source_at(files, texts.len());
        texts.push(fetch(alloc, folder, source, name.as_str())?)?;
    }
    Ok(texts)
}

/// What the file at this place is for.
fn source_at(files: &[Source], place: usize) -> Source
    requires { place < length files.now }
    ensures { result ≡ slice_index_or files.now place result }
{
    files[place]
}

/// The bytes of a file, or the report that says why there are none.
fn fetch<F: Folder>(
    alloc: Global,
    folder: &mut F,
    source: Source,
    name: &str,
) -> Result<Vec<u8>, EarlyEnd>
    ensures found { IfOk result (λ bytes. IsFetched (F.tells folder.old) source name.now bytes.items) }
    ensures halted { IfErr result (λ halt. HaltsBy (FetchEnds (F.tells folder.old) (F.tells folder.new) source name.now) halt) }
    ensures later { IsLater (F.tells folder.old) (F.tells folder.new) }
{
    match folder.fetch(name, source.limit()) {
        Ok(bytes) => Ok(bytes),
        Err(FetchFault::Failed) => Err(EarlyEnd::Report(Report::read_fault(alloc, source)?)),
        Err(FetchFault::TooLong) => Err(EarlyEnd::Report(Report::too_long(alloc, source)?)),
        Err(FetchFault::NoMemory) => Err(EarlyEnd::NoMemory),
    }
}

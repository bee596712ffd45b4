//! The bytes of a source, and of a file.

ghost use Rattle.std.specs.Prelude.{◌≡◌, ◌<◌, ◌≤◌, ◌++◌, ℕ, List, [], length, take, true, IfOk, IfSome, OnOk};
ghost use Rattle.std.specs.Io.KnownBytes.{Consumes, IsAtEnd};
ghost use Rattle.jk_files.specs.Names.{IsFileName};

use crate::opening::open_to_read;
use crate::place::place;
use crate::refusal::Refusal;
use jk_math::Refused;
use std::alloc::Global;
use std::fs::File;
use std::io::{self, ErrorKind, Read, Seek, SeekFrom};
use std::rt::Files;

/// How many bytes are asked for at once.
pub(crate) const PIECE: usize = 1 << 18;

/// How many reads are made at most.
pub(crate) const READS: u64 = 1 << 32;

/// The first bytes, or all if there are fewer.
fn front(bytes: &[u8], count: usize) -> &[u8]
    ensures { result.now ≡ take count bytes.now }
{
    &bytes[..count.min(bytes.len())]
}

/// Room for a piece.
pub(crate) fn room(alloc: Global, size: usize) -> Result<Vec<u8>, Refused>
    ensures { IfOk result (λ v. length v.items ≡ size) }
{
    Ok(vec![in alloc; 0u8; size]?)
}

/// Space for bytes.
fn space(alloc: Global, size: usize) -> Result<Vec<u8>, Refused>
    ensures { IfOk result (λ v. v.items ≡ []) }
{
    Ok(Vec::with_capacity(alloc, size)?)
}

/// Appends bytes.
fn append(bytes: &mut Vec<u8>, more: &[u8]) -> Result<(), Refused>
    ensures { OnOk result (bytes.new.items ≡ bytes.old.items ++ more.now) }
{
    Ok(bytes.extend_from_slice(more)?)
}

/// Reads once, and appends what is read. Whether the source is at its end.
pub(crate) fn read_more<S: Read>(
    source: &mut S,
    piece: &mut [u8],
    bytes: &mut Vec<u8>,
) -> Result<bool, Refusal>
    requires { 0 < length piece.old }
    ensures { IfOk result (λ ended. (more : List ℕ) × (bytes.new.items ≡ bytes.old.items ++ more)
        × (length more ≤ length piece.old) × Consumes (S.remaining source.old) (S.remaining source.new) more
        × (ended ≡ true → IsAtEnd (S.remaining source.new))) }
{
    match source.read(piece) {
        Ok(count) => {
            append(bytes, front(piece, count))?;
            Ok(count == 0)
        }
        Err(said) => {
            if said.kind() == ErrorKind::Interrupted {
                Ok(false)
            } else {
                Err(Refusal::System(said))
            }
        }
    }
}

/// What is said of a source that doesn't end.
pub(crate) fn endless() -> Refusal {
    Refusal::System(io::Error::other("it doesn't end after 2^32 reads"))
}

/// All bytes of a source. An interrupted read is made again.
///
/// System: it can't be read, or isn't at its end after 2^32 reads.
pub fn read_all<S: Read + Drop>(alloc: Global, source: S) -> Result<Vec<u8>, Refusal>
    ensures all { IfOk result (λ v. IfSome (S.remaining source) (λ all. v.items ≡ all)) }
{
    let mut source = source;
    let mut bytes = Vec::new(alloc);
    let mut piece = room(alloc, PIECE)?;
    for _read in 0..READS {
        if read_more(&mut source, &mut piece, &mut bytes)? {
            return Ok(bytes);
        }
    }
    Err(endless())
}

/// The first bytes of a source, or all if there are fewer. An interrupted read is made again.
///
/// System: it can't be read, or has neither given so many nor ended after 2^32 reads.
fn read_front<S: Read + Drop>(alloc: Global, source: S, most: usize) -> Result<Vec<u8>, Refusal>
    ensures front { IfOk result (λ v. IfSome (S.remaining source) (λ all. v.items ≡ take most all)) }
    ensures most { IfOk result (λ v. length v.items ≤ most) }
{
    let mut source = source;
    let mut bytes = space(alloc, most)?;
    let mut piece = room(alloc, most.min(PIECE))?;
    for _read in 0..READS {
        let left = most - bytes.len();
        let size = left.min(piece.len());
        if left == 0 || read_more(&mut source, &mut piece[..size], &mut bytes)? {
            return Ok(bytes);
        }
    }
    Err(endless())
}

/// The bytes of a regular file, links followed, up to the length that it had when it was opened:
/// what is added to it meanwhile is left out, and of one that is cut what is there is read.
///
/// System: it isn't a regular file, or can't be read. A name that becomes that of a pipe between
/// the question what it is and the opening is waited for.
pub fn read_file<R: Files>(rt: &R, alloc: Global, path: &str) -> Result<Vec<u8>, Refusal> {
    let opened = open_to_read(rt, path)?;
    read_front(alloc, opened.file, opened.length as usize)
}

/// Whether a path is that of a regular file whose length is told: some files of the system tell
/// none.
fn has_length<R: Files>(rt: &R, path: &str) -> bool {
    match rt.metadata(path) {
        Ok(metadata) => metadata.is_file() && 0 < metadata.len(),
        Err(_) => false,
    }
}

/// All bytes of what stands at a path: of a regular file whose length is told as `read_file` reads
/// them, of a pipe or a device to its end.
///
/// System: as `read_file` or `read_all`, and where it can't be opened.
pub fn read_path<R: Files>(rt: &R, alloc: Global, path: &str) -> Result<Vec<u8>, Refusal> {
    if has_length(rt, path) {
        return read_file(rt, alloc, path);
    }
    match File::open(rt, path) {
        Ok(file) => read_all(alloc, file),
        Err(said) => Err(Refusal::System(said)),
    }
}

/// The bytes of a regular file of a folder, as `read_file` reads them.
///
/// System: also where no file can have the name.
pub fn read_inside<R: Files>(
    rt: &R,
    alloc: Global,
    folder: &str,
    name: &str,
) -> Result<Vec<u8>, Refusal>
    ensures { OnOk result (IsFileName name.now) }
{
    let path = place(alloc, folder, name)?;
    read_file(rt, alloc, path.as_str())
}

/// At most so many bytes of a source from a place on. An interrupted read is made again.
///
/// System: it can't go to the place, or can't be read, as `read_front` says.
fn read_from<S: Read + Seek + Drop>(
    alloc: Global,
    source: S,
    start: u64,
    most: usize,
) -> Result<Vec<u8>, Refusal>
    ensures most { IfOk result (λ v. length v.items ≤ most) }
{
    let mut source = source;
    source.seek(SeekFrom::Start(start))?;
    read_front(alloc, source, most)
}

/// At most so many bytes of a regular file of a folder, from a place on, links followed: fewer
/// where the file ends before, and none where it ends before the place. What is added to it
/// meanwhile is read with it.
///
/// System: as `read_inside`, and where no file can have such a place.
pub fn read_inside_at<R: Files>(
    rt: &R,
    alloc: Global,
    folder: &str,
    name: &str,
    start: u64,
    most: usize,
) -> Result<Vec<u8>, Refusal>
    ensures name { OnOk result (IsFileName name.now) }
    ensures most { IfOk result (λ v. length v.items ≤ most) }
{
    let path = place(alloc, folder, name)?;
    let opened = open_to_read(rt, path.as_str())?;
    read_from(alloc, opened.file, start, most)
}

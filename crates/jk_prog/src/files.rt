//! The program's files and standard streams, read and written as a whole.

use jk_files::{Lockable, Ownable, Refusal, Rules, read_all, read_path, replace_file};
use jk_line::Destination;
use std::alloc::Global;
use std::io::{self, Write};
use std::rt::Files;

/// All bytes of a file, or of standard input for `-`.
pub(crate) fn read<R: Files + Input + AllocGlobal>(
    rt: &R,
    alloc: Global,
    name: &str,
) -> Result<Vec<u8>, Refusal> {
    if name == "-" {
        return read_all(alloc, rt.reader());
    }
    read_path(rt, alloc, name)
}

/// Writes all bytes to a file, which is replaced as a whole, or to standard output for `-`.
pub(crate) fn write<R: Files + Print>(
    rt: &R,
    alloc: Global,
    to: Destination<'_>,
    bytes: &[u8],
) -> Result<(), Refusal>
where
    R::File: Lockable + Ownable,
{
    if to.name == "-" {
        return io::writer(rt).write_all(bytes).map_err(Refusal::System);
    }
    let rules = Rules {
        input: to.input,
        is_new: to.is_new,
    };
    replace_file(rt, alloc, to.name, rules, bytes)
}

//! Images that are ready to be listed by an archive.

ghost use Rattle.std.specs.Result.{ForOk};
ghost use Rattle.std.specs.String.{string_bytes};
ghost use Rattle.std.specs.Arc.{arc_value};
ghost use Rattle.jk_store.specs.Catalogue.{IsEntryOf};

use crate::entry::Entry;
use jk_math::Fault;
use std::sync::Arc;

/// A JP2 file, and the entry that was made of it.
#[derive(Drop)]
pub(crate) struct Ready {
    pub(crate) entry: Arc<Entry>,
    pub(crate) bytes: Vec<u8>,
}

/// An image that is to be listed by an archive under a name: its JP2 file with its index, its digest
/// and those of its parts, or why there is none. It is made without the lock of the archive's
/// folder, under which `Archive::add_prepared` stores and lists it.
#[derive(Drop)]
pub struct Prepared {
    pub(crate) name: String,
    pub(crate) made: Result<Ready, Fault>,
    ghost entered: { ForOk made (λ r. IsEntryOf (arc_value r.entry) (string_bytes name) r.bytes.items) },
}

//! The place of a reader.

use crate::looks::Looks;
use crate::rule::{Prefixes, Sight};
use crate::shown::Shown;
use jk_store::HashedParts;
use jk_web::Cache;

/// From where a reader sees what is shown, the cuts and the parts of files that it keeps, and how
/// often it has looked.
#[derive(Drop)]
pub struct Place {
    pub(crate) inner: left_right::reader::Reader<Shown, Sight, Prefixes>,
    pub(crate) cache: Cache,
    pub(crate) hashed: HashedParts,
    pub(crate) looks: Looks,
}

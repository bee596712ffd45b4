//! What finds the files of an archive's folder.

ghost use Rattle.std.specs.Prelude.{◌≡◌, IfOk};
ghost use Rattle.std.specs.String.{string_bytes};

use jk_files::Stamp;
use jk_math::Fault;
use jk_store::Prepared;
use std::alloc::Global;

/// What finds the files of an archive's folder and reads them, and tells of those that aren't
/// listed.
pub trait Finder {
    /// The names of the images whose files stand in the folder now, in any order. Nothing is opened.
    fn names(&mut self, alloc: Global) -> Result<Vec<String>, Fault>;

    /// By what it is seen that the file of an image has changed; None where nothing is there.
    fn stamp(&mut self, alloc: Global, name: &str) -> Option<Stamp>;

    /// Reads the file of an image, and judges it, as `Prepared::read` does.
    fn read(&mut self, alloc: Global, name: &str) -> Result<Prepared, Fault>
        ensures named { IfOk result (λ p. string_bytes p.name ≡ name.now) };

    /// Tells why the file of an image isn't listed: what the system said where that was Shelf.
    fn tell(&mut self, name: &str, fault: Fault);

    /// Tells that the folder can't be listed.
    fn tell_unlisted(&mut self, fault: Fault);

    /// Tells that the file of an image, and so many more, aren't listed, since as many are as may be.
    fn tell_full(&mut self, name: &str, more: usize);

    /// Tells that all files that were found were opened, and how many images are listed.
    fn tell_opened(&mut self, images: usize);
}

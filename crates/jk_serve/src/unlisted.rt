//! Images that are prepared and aren't listed.

ghost use Rattle.std.specs.String.{string_bytes};
ghost use Rattle.jk_serve.specs.Tables.{IsUnlisted};

use jk_math::Fault;
use jk_store::Skipped;

/// The most images of an archive.
const MOST_IMAGES: usize = 4096;

/// An image that is prepared and isn't listed, and why. A full archive is no fault of a file, which
/// may have the same fault of its own.
#[derive(Drop)]
pub(crate) enum Unlisted {
    /// The archive lists as many images as it may. The name of the image.
    Beyond(String),
    /// The image has a fault of its own, of its name or its file, or memory was refused.
    Refused(Skipped),
}

impl Unlisted {
    /// An image of this name, for which an archive of so many images answered a fault.
    pub(crate) fn new(name: String, fault: Fault, images: usize) -> Unlisted
        ensures { IsUnlisted (string_bytes name) fault images result }
    {
        if matches!(fault, Fault::Limit) && MOST_IMAGES <= images {
            return Unlisted::Beyond(name);
        }
        Unlisted::Refused(Skipped { name, fault })
    }
}

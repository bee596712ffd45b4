//! Images that are encoded, and aren't on a shelf yet.

ghost use Rattle.std.specs.Prelude.{◌≡◌, true, is_ok, Err, IfOk, IfErr};
ghost use Rattle.std.specs.Result.{ForOk};
ghost use Rattle.std.specs.String.{string_bytes};
ghost use Rattle.jk_math.specs.Answer.{Answers};
ghost use Rattle.jk_math.specs.Memory.{IsMemory};
ghost use Rattle.jk_store.specs.Catalogue.{image_at};
ghost use Rattle.jk_store.specs.Adding.{file_due, file_due_with};

use crate::adding::{made_file, made_file_with};
use jk_extras::Extras;
use jk_math::{Fault, Image};
use jk_params::Parameters;
use std::alloc::Global;

/// An image that is to be added to an archive under a name, encoded: its JP2 file, or why there is
/// none. It is made without the lock of the archive's folder, under which [`Encoded::store`] puts it
/// there.
#[derive(Drop)]
pub struct Encoded {
    pub(crate) name: String,
    pub(crate) file: Result<Vec<u8>, Fault>,
    ghost indexed: { ForOk file (λ v. is_ok (image_at v.items) ≡ true) },
}

impl Encoded {
    /// Encodes an image. What it is refused for is told when it is stored, behind what its name is
    /// refused for: BadParameters, also for a bare codestream; Limit for a tile-part that is too
    /// long; Memory.
    ///
    /// Memory: the name can't be held.
    pub fn new(
        alloc: Global,
        name: &str,
        image: &Image,
        parameters: &Parameters,
    ) -> Result<Encoded, Fault>
        ensures named { IfOk result (λ e. string_bytes e.name ≡ name.now) }
        ensures exact { IfOk result (λ e. Answers (λ v. v.items) e.file (file_due image.now parameters.now)) }
        ensures err { IfErr result IsMemory }
    {
        let name = String::from_str(alloc, name)?;
        let file = made_file(alloc, image, parameters);
        Ok(Encoded { name, file })
    }

    /// The same of an image whose file is to keep something beside the samples. It is refused too
    /// for BadParameters, where `jk_extras::judge` refuses that by the number of components, and for
    /// Limit, where the JP2 header box would be too long.
    pub fn with_extras(
        alloc: Global,
        name: &str,
        image: &Image,
        parameters: &Parameters,
        extras: &Extras,
    ) -> Result<Encoded, Fault>
        ensures named { IfOk result (λ e. string_bytes e.name ≡ name.now) }
        ensures exact { IfOk result
            (λ e. Answers (λ v. v.items) e.file (file_due_with image.now parameters.now extras.now)) }
        ensures err { IfErr result IsMemory }
    {
        let name = String::from_str(alloc, name)?;
        let file = made_file_with(alloc, image, parameters, extras);
        Ok(Encoded { name, file })
    }

    /// What is refused with a fault before it can be encoded, as where there is no image.
    pub fn refused(alloc: Global, name: &str, fault: Fault) -> Result<Encoded, Fault>
        ensures named { IfOk result (λ e. string_bytes e.name ≡ name.now) }
        ensures exact { IfOk result (λ e. e.file ≡ Err fault) }
        ensures err { IfErr result IsMemory }
    {
        let name = String::from_str(alloc, name)?;
        Ok(Encoded {
            name,
            file: Err(fault),
        })
    }

    /// The name.
    pub fn name(&self) -> &str
        ensures { result.now ≡ string_bytes self.now.name }
    {
        self.name.as_str()
    }
}

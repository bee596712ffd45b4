//! Preparing images that are to be listed by an archive.

ghost use Rattle.std.specs.Prelude.{◌≡◌, true, List, is_ok, IfOk, IfErr};
ghost use Rattle.std.specs.Result.{ForOk};
ghost use Rattle.std.specs.String.{string_bytes};
ghost use Rattle.std.specs.Arc.{arc_value};
ghost use Rattle.jk_math.specs.Answer.{Answers};
ghost use Rattle.jk_math.specs.Memory.{IsMemory};
ghost use Rattle.jk_store.specs.Catalogue.{image_at, StandsFor, stored};
ghost use Rattle.jk_store.specs.Checking.{given_bytes};
ghost use Rattle.jk_store.specs.Adding.{added_at_once, added_at_once_with, added_due, file_due, file_due_with};
ghost use Rattle.jk_store.specs.declared.entry.Entry.{Entry};

use crate::encoded::Encoded;
use crate::prepared::{Prepared, Ready};
use crate::putting::entry_of;
use jk_extras::Extras;
use jk_math::{Fault, Image};
use jk_params::Parameters;
use std::alloc::Global;
use std::sync::Arc;

/// A JP2 file with its entry.
fn with_entry(alloc: Global, name: &str, file: Result<Vec<u8>, Fault>) -> Result<Ready, Fault>
    requires { ForOk file (λ v. is_ok (image_at v.items) ≡ true) }
    ensures exact { Answers (λ r. r.bytes.items) result (given_bytes file) }
    ensures stands { IfOk result (λ r. StandsFor (arc_value r.entry) (stored name.now r.bytes.items)) }
{
    let bytes = file?;
    let entry = Arc::new(alloc, entry_of(alloc, name, &bytes)?)?;
    Ok(Ready { entry, bytes })
}

impl Prepared {
    /// Makes the entry of an image that is encoded. What the encoding was refused for is told when
    /// the image is added, behind what its name is refused for; so is Memory for the entry.
    pub fn of(alloc: Global, encoded: Encoded) -> Prepared
        ensures named { result.name ≡ encoded.name }
        ensures exact { Answers (λ r. r.bytes.items) result.made (given_bytes encoded.file) }
    {
        let Encoded { name, file } = encoded;
        let made = with_entry(alloc, name.as_str(), file);
        Prepared { name, made }
    }

    /// Encodes an image, as [`Encoded::new`] does, and makes its entry.
    ///
    /// Memory: the name can't be held.
    #[tactic(auto, using(crate::proofs::StoringLaws::same_due))]
    pub fn new(
        alloc: Global,
        name: &str,
        image: &Image,
        parameters: &Parameters,
    ) -> Result<Prepared, Fault>
        ensures named { IfOk result (λ p. string_bytes p.name ≡ name.now) }
        ensures exact { IfOk result (λ p. Answers (λ r. r.bytes.items) p.made (file_due image.now parameters.now)) }
        // Judged by its name, and then by what is due of the image, it is judged as `Archive::add`
        // judges and encodes it.
        ensures same { (entries : List Entry)
            → added_due entries name.now (file_due image.now parameters.now)
            ≡ added_at_once entries name.now image.now parameters.now }
        ensures err { IfErr result IsMemory }
    {
        let encoded = Encoded::new(alloc, name, image, parameters)?;
        Ok(Prepared::of(alloc, encoded))
    }

    /// The same of an image whose file is to keep something beside the samples, as
    /// [`Encoded::with_extras`] encodes it.
    ///
    /// Memory: the name can't be held.
    #[tactic(auto, using(crate::proofs::StoringLaws::same_due_with))]
    pub fn with_extras(
        alloc: Global,
        name: &str,
        image: &Image,
        parameters: &Parameters,
        extras: &Extras,
    ) -> Result<Prepared, Fault>
        ensures named { IfOk result (λ p. string_bytes p.name ≡ name.now) }
        ensures exact { IfOk result
            (λ p. Answers (λ r. r.bytes.items) p.made (file_due_with image.now parameters.now extras.now)) }
        // Judged by its name, and then by what is due of the image, it is judged as
        // `Archive::add_with_extras` judges and encodes it.
        ensures same { (entries : List Entry)
            → added_due entries name.now (file_due_with image.now parameters.now extras.now)
            ≡ added_at_once_with entries name.now image.now parameters.now extras.now }
        ensures err { IfErr result IsMemory }
    {
        let encoded = Encoded::with_extras(alloc, name, image, parameters, extras)?;
        Ok(Prepared::of(alloc, encoded))
    }

    /// The name.
    pub fn name(&self) -> &str
        ensures { result.now ≡ string_bytes self.now.name }
    {
        self.name.as_str()
    }

    /// The name alone.
    pub fn into_name(self) -> String
        ensures { result ≡ self.name }
    {
        let Prepared { name, made: _made } = self;
        name
    }
}

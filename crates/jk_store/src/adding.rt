//! Adding an image to an archive.

ghost use Rattle.std.specs.Prelude.{◌≡◌, ◌≤◌, ◌<◌, ◌⊎◌, ◌++◌, ◌∷◌, [], ℕ, List, true, false, map, length, Ok, Err};
ghost use Rattle.std.specs.Prelude.{IfOk, IfErr, OnOk, OnErr, not};
ghost use Rattle.std.specs.String.{string_bytes};
ghost use Rattle.std.specs.Arc.{arc_value};
ghost use Rattle.jk_math.specs.Answer.{Answers, refuse};
ghost use Rattle.jk_extras.specs.Extras.{is_extras};
ghost use Rattle.jk_math.specs.Memory.{IsMemory};
ghost use Rattle.jk_math.specs.declared.fault.Fault.{Fault};
ghost use Rattle.jk_math.specs.Picture.{Picture};
ghost use Rattle.jk_params.specs.declared.parameters.Container.TheVariants.{Jp2};
ghost use Rattle.jk_window.specs.Indexing.{IndexFields};
ghost use Rattle.jk_code.specs.Written.{written};
ghost use Rattle.jk_store.specs.Files.{Files, with_file, without};
ghost use Rattle.jk_store.specs.Names.{is_good_name, file_name, temporary_name};
ghost use Rattle.jk_store.specs.Catalogue.{is_listed, image_at, most_entries, StandsFor, stored, Passes};
ghost use Rattle.jk_store.specs.Adding.{judged, judged_with, judged_name, judged_image, written_with, file_due};
ghost use Rattle.jk_store.specs.Adding.{file_due_with, IsLeftByAdd, IsUnstored};
ghost use Rattle.jk_store.specs.Showing.{ShowImages, StandForImages, MayBeMade};
ghost use Rattle.jk_catalogue.specs.Images.{Image as Shown};
ghost use Rattle.jk_catalogue.specs.Images.{Within};
ghost use Rattle.jk_math.specs.declared.fault.Fault.TheVariants.{BadParameters, Shelf as ShelfFault};

use crate::archive::Archive;
use crate::entry::Entry;
use crate::names;
use crate::shelf::Shelf;
use jk_code::encode;
use jk_extras::{Extras, with_extras};
use jk_math::{Fault, Image};
use jk_params::{Container, Parameters};
use std::alloc::Global;
use std::sync::Arc;

/// How many images an archive has at most.
pub(crate) const MOST_ENTRIES: usize = 4096;

/// Whether an entry has a name.
fn is_listed(entries: &[Arc<Entry>], name: &str) -> bool
    ensures { result ≡ is_listed (map arc_value entries.now) name.now }
{
    for entry in entries {
        if entry.name.as_str() == name {
            return true;
        }
    }
    false
}

/// Whether an image may be added under a name beside these.
///
/// The first of these: BadName; NameTaken; Limit where there are 4,096 images.
#[tactic(auto, unfolding(crate::specs::Adding::judged_name))]
pub(crate) fn judge_beside(entries: &[Arc<Entry>], name: &str) -> Result<(), Fault>
    ensures exact { result ≡ judged_name (map arc_value entries.now) name.now }
    ensures named { OnOk result (is_good_name name.now ≡ true) }
    ensures fresh { OnOk result (is_listed (map arc_value entries.now) name.now ≡ false) }
    ensures room { OnOk result (length entries.now < most_entries) }
{
    if !names::is_good_name(name) {
        return Err(Fault::BadName);
    }
    if is_listed(entries, name) {
        return Err(Fault::NameTaken);
    }
    if MOST_ENTRIES <= entries.len() {
        return Err(Fault::Limit);
    }
    Ok(())
}

/// Whether an image may be added with these parameters, whatever its name. BadParameters: also for
/// a bare codestream.
#[tactic(auto, unfolding(crate::specs::Adding::judged_image))]
fn judge_image(image: &Image, parameters: &Parameters) -> Result<(), Fault>
    ensures exact { result ≡ judged_image image.now parameters.now }
    ensures jp2 { OnOk result (parameters.now.container ≡ Jp2) }
{
    parameters.check(image)?;
    match parameters.container {
        Container::Raw => Err(Fault::BadParameters),
        Container::Jp2 => Ok(()),
    }
}

/// Whether an image may be added.
///
/// The first of these: what [`judge_beside`] and [`judge_image`] answer.
#[tactic(auto, using(crate::proofs::StoringLaws::judged_in_two))]
fn judge(
    entries: &[Arc<Entry>],
    name: &str,
    image: &Image,
    parameters: &Parameters,
) -> Result<(), Fault>
    ensures exact { result ≡ judged (map arc_value entries.now) name.now image.now parameters.now }
    ensures jp2 { OnOk result (parameters.now.container ≡ Jp2) }
    ensures named { OnOk result (is_good_name name.now ≡ true) }
    ensures fresh { OnOk result (is_listed (map arc_value entries.now) name.now ≡ false) }
    ensures room { OnOk result (length entries.now < most_entries) }
{
    judge_beside(entries, name)?;
    judge_image(image, parameters)
}

/// Whether a file may keep this beside an image. BadParameters: what `jk_extras::judge` refuses by
/// the number of components.
fn judge_extras(image: &Image, extras: &Extras) -> Result<(), Fault>
    ensures { result ≡ refuse (not (is_extras (length image.now.planes) extras.now)) BadParameters }
{
    // That there are few, the width's contract says too.
    let _width = image.width();
    jk_extras::judge(extras, image.planes().len() as u16)
}

/// Whether an image may be added whose file is to keep something beside the samples.
///
/// The first of these: what [`judge`] and [`judge_extras`] answer.
#[tactic(auto, unfolding(crate::specs::Adding::judged_with))]
fn judge_with(
    entries: &[Arc<Entry>],
    name: &str,
    image: &Image,
    parameters: &Parameters,
    extras: &Extras,
) -> Result<(), Fault>
    ensures exact { result ≡ judged_with (map arc_value entries.now) name.now image.now parameters.now extras.now }
    ensures jp2 { OnOk result (parameters.now.container ≡ Jp2) }
    ensures named { OnOk result (is_good_name name.now ≡ true) }
    ensures fresh { OnOk result (is_listed (map arc_value entries.now) name.now ≡ false) }
    ensures room { OnOk result (length entries.now < most_entries) }
{
    judge(entries, name, image, parameters)?;
    judge_extras(image, extras)
}

/// The JP2 file of an image.
///
/// Limit: a tile-part would be too long.
fn file_of(alloc: Global, image: &Image, parameters: &Parameters) -> Result<Vec<u8>, Fault>
    requires { parameters.now.container ≡ Jp2 }
    ensures exact { Answers (λ v. v.items) result (written image.now parameters.now) }
    ensures image { IfOk result (λ v. (i : IndexFields) × (image_at v.items ≡ Ok i)) }
{
    encode(alloc, image, parameters)
}

/// The JP2 file of an image with what it is to keep beside the samples.
///
/// Limit: a tile-part would be too long, or the JP2 header box.
#[tactic(auto, unfolding(crate::specs::Adding::written_with))]
fn file_with(
    alloc: Global,
    image: &Image,
    parameters: &Parameters,
    extras: &Extras,
) -> Result<Vec<u8>, Fault>
    requires { parameters.now.container ≡ Jp2 }
    ensures exact { Answers (λ v. v.items) result (written_with image.now parameters.now extras.now) }
    ensures image { IfOk result (λ v. (i : IndexFields) × (image_at v.items ≡ Ok i)) }
{
    let file = encode(alloc, image, parameters)?;
    with_extras(alloc, &file, extras)
}

/// The JP2 file of an image that is to be added, whatever its name.
///
/// The first of these: what [`judge_image`] answers; Limit: a tile-part would be too long.
#[tactic(auto, unfolding(crate::specs::Adding::file_due))]
pub(crate) fn made_file(
    alloc: Global,
    image: &Image,
    parameters: &Parameters,
) -> Result<Vec<u8>, Fault>
    ensures exact { Answers (λ v. v.items) result (file_due image.now parameters.now) }
    ensures image { IfOk result (λ v. (i : IndexFields) × (image_at v.items ≡ Ok i)) }
{
    judge_image(image, parameters)?;
    file_of(alloc, image, parameters)
}

/// The JP2 file of an image that is to be added, with what it is to keep beside the samples.
///
/// The first of these: what [`judge_image`] and [`judge_extras`] answer; Limit: a tile-part would be
/// too long, or the JP2 header box.
#[tactic(auto, unfolding(crate::specs::Adding::file_due_with))]
pub(crate) fn made_file_with(
    alloc: Global,
    image: &Image,
    parameters: &Parameters,
    extras: &Extras,
) -> Result<Vec<u8>, Fault>
    ensures exact { Answers (λ v. v.items) result (file_due_with image.now parameters.now extras.now) }
    ensures image { IfOk result (λ v. (i : IndexFields) × (image_at v.items ≡ Ok i)) }
{
    judge_image(image, parameters)?;
    judge_extras(image, extras)?;
    file_with(alloc, image, parameters, extras)
}

impl<S: Shelf> Archive<S> {
    /// Adds an image: its JP2 file is written to the shelf, and then it is listed.
    ///
    /// The first of these: BadName; NameTaken; Limit where 4,096 images are listed; BadParameters,
    /// also for a bare codestream; Limit for a tile-part that is too long; Shelf. After a refusal
    /// the list is as before, and the temporary file may stand.
    pub fn add(
        &mut self,
        alloc: Global,
        name: &str,
        image: &Image,
        parameters: &Parameters,
    ) -> Result<Arc<Entry>, Fault>
        ensures judged { (e : Fault)
            → judged (map arc_value self.old.entries.items) name.now image.now parameters.now ≡ Err e
            → (result ≡ Err e) × (self.new.shelf ≡ self.old.shelf) }
        ensures allowed { OnOk result
            (judged (map arc_value self.old.entries.items) name.now image.now parameters.now ≡ Ok tt) }
        // The list grows by one entry, which stands for the file of the image.
        ensures listed { IfOk result
            (λ e. map arc_value self.new.entries.items ≡ map arc_value self.old.entries.items ++ arc_value e ∷ []) }
        ensures stands { IfOk result (λ e. (file : List ℕ) × (written image.now parameters.now ≡ Ok file)
            × StandsFor (arc_value e) (stored name.now file)) }
        // The shelf keeps the file, and what it kept.
        ensures holds { (files : Files) (file : List ℕ) → S.keeps self.old.shelf files
            → written image.now parameters.now ≡ Ok file
            → OnOk result
            (S.keeps self.new.shelf
            (with_file (file_name name.now) file (without (temporary_name name.now) files))) }
        // What the archive stood for it stands for, with one image more.
        ensures shows { (images : List Shown) → ShowImages (map arc_value self.old.entries.items) images
            → IfOk result (λ e. (i : Shown) × ShowImages (map arc_value self.new.entries.items) (images ++ i ∷ [])
            × (i.name ≡ name.now) × (written image.now parameters.now ≡ Ok i.file)) }
        ensures keeps { (images : List Shown)
            → StandForImages S.keeps (map arc_value self.old.entries.items) self.old.shelf images
            → IfOk result
            (λ e. (i : Shown)
            × StandForImages S.keeps (map arc_value self.new.entries.items) self.new.shelf (images ++ i ∷ [])
            × (i.name ≡ name.now) × (written image.now parameters.now ≡ Ok i.file)) }
        // What may have been made of its images still may.
        ensures made { Within (MayBeMade (map arc_value self.old.entries.items))
            (MayBeMade (map arc_value self.new.entries.items)) }
        // After a refusal the list is as before, and of files all but the temporary one of this
        // name are.
        ensures err { OnErr result (self.new.entries.items ≡ self.old.entries.items) }
        // Shelf comes behind all that is judged and encoded, where the file couldn't be written
        // under its temporary name, or that couldn't become its own.
        ensures cause { IfErr result (λ e. IsMemory e
            ⊎ (judged (map arc_value self.old.entries.items) name.now image.now parameters.now ≡ Err e)
            ⊎ (written image.now parameters.now ≡ Err e)
            ⊎ ((e ≡ ShelfFault) × ((file : List ℕ) × (written image.now parameters.now ≡ Ok file))
            × IsUnstored S.unwritten S.unrenamed (temporary_name name.now) (file_name name.now)
            self.old.shelf self.new.shelf)) }
        ensures left { (files : Files) → S.keeps self.old.shelf files
            → IfErr result (λ e. (left : Files) × S.keeps self.new.shelf left
            × IsLeftByAdd (temporary_name name.now) (file_name name.now) (written image.now parameters.now) e files left) }
        ensures skipped { self.new.skipped ≡ self.old.skipped }
        ensures counts { Passes
            (λ e. IsMemory e ⊎ (judged (map arc_value self.old.entries.items) name.now image.now parameters.now ≡ Err e)
            ⊎ (written image.now parameters.now ≡ Err e))
            result (S.failed self.old.shelf) (S.failed self.new.shelf) }
    {
        judge(&self.entries, name, image, parameters)?;
        let file = file_of(alloc, image, parameters)?;
        self.put(alloc, name, file)
    }

    /// Adds an image whose file is to keep something beside the samples, as
    /// `jk_extras::with_extras` gives it to the file that `add` writes.
    ///
    /// The first of these: what `add` judges; BadParameters, what `jk_extras::judge` refuses by the
    /// number of components; Limit for a tile-part or a JP2 header box that is too long; Shelf. After
    /// a refusal the list is as before, and the temporary file may stand.
    pub fn add_with_extras(
        &mut self,
        alloc: Global,
        name: &str,
        image: &Image,
        parameters: &Parameters,
        extras: &Extras,
    ) -> Result<Arc<Entry>, Fault>
        ensures judged { (e : Fault)
            → judged_with (map arc_value self.old.entries.items) name.now image.now parameters.now extras.now ≡ Err e
            → (result ≡ Err e) × (self.new.shelf ≡ self.old.shelf) }
        ensures allowed { OnOk result
            (judged_with (map arc_value self.old.entries.items) name.now image.now parameters.now extras.now ≡ Ok tt) }
        // The list grows by one entry, which stands for the file of the image.
        ensures listed { IfOk result
            (λ e. map arc_value self.new.entries.items ≡ map arc_value self.old.entries.items ++ arc_value e ∷ []) }
        ensures stands { IfOk result (λ e. (file : List ℕ) × (written_with image.now parameters.now extras.now ≡ Ok file)
            × StandsFor (arc_value e) (stored name.now file)) }
        // The shelf keeps the file, and what it kept.
        ensures holds { (files : Files) (file : List ℕ) → S.keeps self.old.shelf files
            → written_with image.now parameters.now extras.now ≡ Ok file
            → OnOk result
            (S.keeps self.new.shelf
            (with_file (file_name name.now) file (without (temporary_name name.now) files))) }
        // What the archive stood for it stands for, with one image more.
        ensures shows { (images : List Shown) → ShowImages (map arc_value self.old.entries.items) images
            → IfOk result (λ e. (i : Shown) × ShowImages (map arc_value self.new.entries.items) (images ++ i ∷ [])
            × (i.name ≡ name.now) × (written_with image.now parameters.now extras.now ≡ Ok i.file)) }
        ensures keeps { (images : List Shown)
            → StandForImages S.keeps (map arc_value self.old.entries.items) self.old.shelf images
            → IfOk result
            (λ e. (i : Shown)
            × StandForImages S.keeps (map arc_value self.new.entries.items) self.new.shelf (images ++ i ∷ [])
            × (i.name ≡ name.now) × (written_with image.now parameters.now extras.now ≡ Ok i.file)) }
        // What may have been made of its images still may.
        ensures made { Within (MayBeMade (map arc_value self.old.entries.items))
            (MayBeMade (map arc_value self.new.entries.items)) }
        // After a refusal the list is as before, and of files all but the temporary one of this
        // name are.
        ensures err { OnErr result (self.new.entries.items ≡ self.old.entries.items) }
        // Shelf comes behind all that is judged and encoded, where the file couldn't be written
        // under its temporary name, or that couldn't become its own.
        ensures cause { IfErr result (λ e. IsMemory e
            ⊎ (judged_with (map arc_value self.old.entries.items) name.now image.now parameters.now extras.now ≡ Err e)
            ⊎ (written_with image.now parameters.now extras.now ≡ Err e)
            ⊎ ((e ≡ ShelfFault) × ((file : List ℕ) × (written_with image.now parameters.now extras.now ≡ Ok file))
            × IsUnstored S.unwritten S.unrenamed (temporary_name name.now) (file_name name.now)
            self.old.shelf self.new.shelf)) }
        ensures left { (files : Files) → S.keeps self.old.shelf files
            → IfErr result (λ e. (left : Files) × S.keeps self.new.shelf left
            × IsLeftByAdd (temporary_name name.now) (file_name name.now) (written_with image.now parameters.now extras.now) e files left) }
        ensures skipped { self.new.skipped ≡ self.old.skipped }
        ensures counts { Passes
            (λ e. IsMemory e ⊎ (judged_with (map arc_value self.old.entries.items) name.now image.now parameters.now extras.now ≡ Err e)
            ⊎ (written_with image.now parameters.now extras.now ≡ Err e))
            result (S.failed self.old.shelf) (S.failed self.new.shelf) }
    {
        judge_with(&self.entries, name, image, parameters, extras)?;
        let file = file_with(alloc, image, parameters, extras)?;
        self.put(alloc, name, file)
    }
}

//! Judging the name of an image that is to be added, by the names of files alone.

ghost use Rattle.std.specs.Prelude.{◌≡◌, ◌⊎◌, ℕ, List, true, false, Err, IfOk, IfErr, OnOk};
ghost use Rattle.jk_math.specs.Memory.{IsMemory};
ghost use Rattle.jk_math.specs.declared.fault.Fault.TheVariants.{BadName, Limit, NameTaken, Shelf as ShelfFault};
ghost use Rattle.jk_store.specs.Files.{Files};
ghost use Rattle.jk_store.specs.Names.{is_good_name, is_image};
ghost use Rattle.jk_store.specs.Catalogue.{Passes};
ghost use Rattle.jk_store.specs.Judging.{IsFew, IsFree, IsFull, JudgedAlone};

use crate::adding::MOST_ENTRIES;
use crate::archive::Archive;
use crate::names;
use crate::shelf::Shelf;
use jk_math::Fault;
use std::alloc::Global;

/// Judges the name of an image that is to be added to the archive of a shelf, by the names of its
/// files alone: no file is read. Answers true where these are the names of fewer than 4,096 images,
/// and none of them is this: then an image is judged beside all that are listed as it is where
/// nothing is. Answers false where there may be 4,096 images: then only opening the archive tells
/// whether one more may be added.
///
/// The first of these: Shelf where the names can't be listed; of fewer than 4,096 images BadName,
/// and NameTaken where an image's file has the name, whether it would be listed or skipped.
pub fn judge_name<S: Shelf>(alloc: Global, shelf: &mut S, name: &str) -> Result<bool, Fault>
    ensures free { IfOk result (λ few. few ≡ true → IsFree S.lists shelf.old name.now shelf.new) }
    // Adding to the archive of its images is judged as adding to one without images.
    ensures alone { IfOk result
        (λ few. few ≡ true
        → (is : IsFree S.lists shelf.old name.now shelf.new) × JudgedAlone S.gave is.names name.now) }
    ensures full { IfOk result (λ few. few ≡ false → IsFull S.lists shelf.old shelf.new) }
    // The name is judged behind the listing and the number of images.
    ensures listed { result ≡ Err Fault.BadName → IsFew S.lists shelf.old shelf.new }
    ensures err { IfErr result (λ e. IsMemory e
        ⊎ ((e ≡ ShelfFault) × S.unlisted shelf.old shelf.new)
        ⊎ ((e ≡ BadName) × (is_good_name name.now ≡ false))
        ⊎ ((e ≡ NameTaken)
        × ((files : List (List ℕ)) × S.lists shelf.old files shelf.new × (is_image name.now files ≡ true)))) }
    ensures kept { (files : Files) → S.keeps shelf.old files → S.keeps shelf.new files }
    ensures counts { Passes (λ e. IsMemory e ⊎ (e ≡ BadName) ⊎ (e ≡ NameTaken)) result (S.failed shelf.old)
        (S.failed shelf.new) }
{
    let files = shelf.list(alloc)?;
    let taken = names::names_in(alloc, &files)?;
    if MOST_ENTRIES <= taken.len() {
        return Ok(false);
    }
    if !names::is_good_name(name) {
        return Err(Fault::BadName);
    }
    if taken.contains(name) {
        return Err(Fault::NameTaken);
    }
    Ok(true)
}

/// Judges the name of an image that is to be added to the archive of a shelf, by the names of its
/// files alone, whether these would be listed or skipped.
///
/// The first of these: Shelf where the names can't be listed; BadName; NameTaken where an image's
/// file has the name; Limit where there are 4,096 files of images.
fn judge_among<S: Shelf>(alloc: Global, shelf: &mut S, name: &str) -> Result<(), Fault>
    ensures free { OnOk result (IsFree S.lists shelf.old name.now shelf.new) }
    ensures full { result ≡ Err Fault.Limit → IsFull S.lists shelf.old shelf.new }
    ensures listed { result ≡ Err Fault.BadName → (files : List (List ℕ)) × S.lists shelf.old files shelf.new }
    ensures err { IfErr result (λ e. IsMemory e
        ⊎ ((e ≡ ShelfFault) × S.unlisted shelf.old shelf.new)
        ⊎ ((e ≡ BadName) × (is_good_name name.now ≡ false))
        ⊎ ((e ≡ NameTaken)
        × ((files : List (List ℕ)) × S.lists shelf.old files shelf.new × (is_image name.now files ≡ true)))
        ⊎ (e ≡ Limit)) }
    ensures kept { (files : Files) → S.keeps shelf.old files → S.keeps shelf.new files }
    ensures counts { Passes (λ e. IsMemory e ⊎ (e ≡ BadName) ⊎ (e ≡ NameTaken) ⊎ (e ≡ Limit)) result
        (S.failed shelf.old) (S.failed shelf.new) }
{
    let files = shelf.list(alloc)?;
    let there = names::names_in(alloc, &files)?;
    if !names::is_good_name(name) {
        return Err(Fault::BadName);
    }
    if there.contains(name) {
        return Err(Fault::NameTaken);
    }
    if MOST_ENTRIES <= there.len() {
        return Err(Fault::Limit);
    }
    Ok(())
}

impl<S: Shelf> Archive<S> {
    /// Judges the name of an image that is to be added, by the names of the shelf's files: others
    /// may have added to it since it was opened. No file is read, and the list stays as it is.
    ///
    /// The first of these: Shelf where the names can't be listed; BadName; NameTaken where an
    /// image's file has the name, whether it would be listed or skipped; Limit where there are 4,096
    /// files of images, of which some may not be listed.
    pub fn judge_name(&mut self, alloc: Global, name: &str) -> Result<(), Fault>
        ensures free { OnOk result (IsFree S.lists self.old.shelf name.now self.new.shelf) }
        ensures full { result ≡ Err Fault.Limit → IsFull S.lists self.old.shelf self.new.shelf }
        // The name is judged behind the listing.
        ensures listed { result ≡ Err Fault.BadName
            → (files : List (List ℕ)) × S.lists self.old.shelf files self.new.shelf }
        ensures err { IfErr result (λ e. IsMemory e
            ⊎ ((e ≡ ShelfFault) × S.unlisted self.old.shelf self.new.shelf)
            ⊎ ((e ≡ BadName) × (is_good_name name.now ≡ false))
            ⊎ ((e ≡ NameTaken)
            × ((files : List (List ℕ)) × S.lists self.old.shelf files self.new.shelf
            × (is_image name.now files ≡ true)))
            ⊎ (e ≡ Limit)) }
        ensures list { self.new.entries ≡ self.old.entries }
        ensures skipped { self.new.skipped ≡ self.old.skipped }
        ensures kept { (files : Files) → S.keeps self.old.shelf files → S.keeps self.new.shelf files }
        ensures counts { Passes (λ e. IsMemory e ⊎ (e ≡ BadName) ⊎ (e ≡ NameTaken) ⊎ (e ≡ Limit)) result
            (S.failed self.old.shelf) (S.failed self.new.shelf) }
    {
        judge_among(alloc, &mut self.shelf, name)
    }
}

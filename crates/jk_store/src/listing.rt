//! Images whose files stand on a shelf already: they are read and judged, and then listed.

ghost use Rattle.std.specs.Prelude.{◌≡◌, ◌<◌, ◌⊎◌, ◌++◌, ◌∷◌, [], ℕ, List, true, false, map, length, Some, Ok, Err};
ghost use Rattle.std.specs.Prelude.{IfOk, IfErr, OnOk, OnErr, MatchResult};
ghost use Rattle.std.specs.String.{string_bytes};
ghost use Rattle.std.specs.Arc.{arc_value};
ghost use Rattle.jk_math.specs.Answer.{Answers};
ghost use Rattle.jk_math.specs.Memory.{IsMemory};
ghost use Rattle.jk_math.specs.declared.fault.Fault.{Fault};
ghost use Rattle.jk_math.specs.declared.fault.Fault.TheVariants.{Shelf as ShelfFault};
ghost use Rattle.jk_catalogue.specs.Images.{Image as Shown};
ghost use Rattle.jk_catalogue.specs.Images.{Within};
ghost use Rattle.jk_store.specs.Files.{Files};
ghost use Rattle.jk_store.specs.Names.{is_good_name, file_name};
ghost use Rattle.jk_store.specs.Catalogue.{is_listed, most_entries, StandsFor, IsEntryOf, stored, Passes};
ghost use Rattle.jk_store.specs.Opening.{GivesFile};
ghost use Rattle.jk_store.specs.Adding.{judged_name};
ghost use Rattle.jk_store.specs.Preparing.{due_beside, ready_bytes, image_due};
ghost use Rattle.jk_store.specs.Showing.{ShowImages, StandForImages, MayBeMade};

use crate::adding::judge_beside;
use crate::archive::Archive;
use crate::entry::Entry;
use crate::opening::{NamedFile, read_named};
use crate::prepared::{Prepared, Ready};
use crate::putting::judged_entry;
use crate::shelf::Shelf;
use jk_math::Fault;
use std::alloc::Global;
use std::sync::Arc;

/// A file with its entry, or the first fault of the file.
#[tactic(auto, unfolding(crate::specs::Preparing::image_due))]
fn judged_file(alloc: Global, name: &str, bytes: Vec<u8>) -> Result<Ready, Fault>
    ensures exact { Answers (λ r. r.bytes.items) result (image_due bytes.items) }
    ensures stands { IfOk result (λ r. StandsFor (arc_value r.entry) (stored name.now r.bytes.items)) }
{
    let entry = Arc::new(alloc, judged_entry(alloc, name, &bytes)?)?;
    Ok(Ready { entry, bytes })
}

impl Prepared {
    /// Reads the file of an image from a shelf, and makes its entry. What a file isn't an image of an
    /// archive for is told when it is listed, behind what its name is refused for: as of
    /// `jk_window::index`, and BadBox of a bare codestream; so is Memory for the entry. Whatever it
    /// answers, the shelf keeps what it kept.
    ///
    /// Shelf: the file can't be read.
    pub fn read<S: Shelf>(alloc: Global, shelf: &mut S, name: &str) -> Result<Prepared, Fault>
        ensures named { IfOk result (λ p. string_bytes p.name ≡ name.now) }
        // The shelf gave a file, which is judged.
        ensures given { IfOk result
            (λ p. (bytes : List ℕ) × GivesFile S.keeps S.gave shelf.old (file_name name.now) bytes shelf.new
            × Answers (λ r. r.bytes.items) p.made (image_due bytes)) }
        ensures cause { IfErr result (λ e. e ≡ ShelfFault → S.unread shelf.old (file_name name.now) shelf.new) }
        ensures kept { (files : Files) → S.keeps shelf.old files → S.keeps shelf.new files }
        ensures counts { Passes IsMemory result (S.failed shelf.old) (S.failed shelf.new) }
    {
        let NamedFile { name, bytes } = read_named(alloc, shelf, name)?;
        let made = judged_file(alloc, name.as_str(), bytes);
        Ok(Prepared { name, made })
    }
}

/// A file with its entry, or why there is none.
fn ready_of(made: &Result<Ready, Fault>) -> Result<&Ready, Fault>
    ensures { MatchResult result (λ r. made.now ≡ Ok r.now) (λ e. made.now ≡ Err e) }
{
    match made {
        Ok(ready) => Ok(ready),
        Err(fault) => Err(*fault),
    }
}

impl<S: Shelf> Archive<S> {
    /// Lists the entry of a JP2 file that stands under the name of an image. An `Err` changes
    /// nothing.
    fn list_ready(
        &mut self,
        _name: &str,
        _bytes: &[u8],
        entry: &Arc<Entry>,
    ) -> Result<Arc<Entry>, Fault>
        requires made { IsEntryOf (arc_value entry.now) _name.now _bytes.now }
        requires named { is_good_name _name.now ≡ true }
        requires fresh { is_listed (map arc_value self.old.entries.items) _name.now ≡ false }
        requires room { length self.old.entries.items < most_entries }
        ensures listed { IfOk result
            (λ e. map arc_value self.new.entries.items ≡ map arc_value self.old.entries.items ++ arc_value e ∷ []) }
        ensures stands { IfOk result (λ e. StandsFor (arc_value e) (stored _name.now _bytes.now)) }
        ensures shows { (images : List Shown) → ShowImages (map arc_value self.old.entries.items) images
            → IfOk result (λ e. (i : Shown) × ShowImages (map arc_value self.new.entries.items) (images ++ i ∷ [])
            × (i.name ≡ _name.now) × (i.file ≡ _bytes.now)) }
        ensures keeps { (images : List Shown)
            → (stand : StandForImages S.keeps (map arc_value self.old.entries.items) self.old.shelf images)
            → stand.kept.files (file_name _name.now) ≡ Some _bytes.now
            → IfOk result
            (λ e. (i : Shown)
            × StandForImages S.keeps (map arc_value self.new.entries.items) self.new.shelf (images ++ i ∷ [])
            × (i.name ≡ _name.now) × (i.file ≡ _bytes.now)) }
        ensures made { Within (MayBeMade (map arc_value self.old.entries.items))
            (MayBeMade (map arc_value self.new.entries.items)) }
        ensures err { OnErr result (self.new.entries.items ≡ self.old.entries.items) }
        ensures cause { IfErr result IsMemory }
        ensures shelf { self.new.shelf ≡ self.old.shelf }
        ensures skipped { self.new.skipped ≡ self.old.skipped }
    {
        let given = Arc::try_clone(entry)?;
        let listed = Arc::try_clone(entry)?;
        self.entries.reserve(1)?;
        self.entries.push_reserved(listed);
        Ok(given)
    }

    /// Lists an image that is prepared, and whose file stands on the shelf already, as one that
    /// `Prepared::read` has read. Nothing is read or written.
    ///
    /// The first of these: BadName; NameTaken; Limit where 4,096 images are listed; what kept the
    /// image from being prepared. After a refusal the list is as before.
    pub fn list_prepared(&mut self, prepared: &Prepared) -> Result<Arc<Entry>, Fault>
        ensures judged { (e : Fault) → due_beside (map arc_value self.old.entries.items) prepared.now ≡ Err e
            → result ≡ Err e }
        ensures allowed { OnOk result
            (judged_name (map arc_value self.old.entries.items) (string_bytes prepared.now.name) ≡ Ok tt) }
        // The list grows by one entry, which stands for the file of the image.
        ensures listed { IfOk result
            (λ e. map arc_value self.new.entries.items ≡ map arc_value self.old.entries.items ++ arc_value e ∷ []) }
        ensures stands { IfOk result (λ e. (file : List ℕ) × (ready_bytes prepared.now.made ≡ Ok file)
            × StandsFor (arc_value e) (stored (string_bytes prepared.now.name) file)) }
        // What the archive stood for it stands for, with one image more.
        ensures shows { (images : List Shown) → ShowImages (map arc_value self.old.entries.items) images
            → IfOk result (λ e. (i : Shown) × ShowImages (map arc_value self.new.entries.items) (images ++ i ∷ [])
            × (i.name ≡ string_bytes prepared.now.name) × (ready_bytes prepared.now.made ≡ Ok i.file)) }
        // Where the shelf keeps this file under the name, it keeps the files of all of them.
        ensures keeps { (images : List Shown) (file : List ℕ)
            → (stand : StandForImages S.keeps (map arc_value self.old.entries.items) self.old.shelf images)
            → ready_bytes prepared.now.made ≡ Ok file
            → stand.kept.files (file_name (string_bytes prepared.now.name)) ≡ Some file
            → IfOk result
            (λ e. (i : Shown)
            × StandForImages S.keeps (map arc_value self.new.entries.items) self.new.shelf (images ++ i ∷ [])
            × (i.name ≡ string_bytes prepared.now.name) × (i.file ≡ file)) }
        // What may have been made of its images still may.
        ensures made { Within (MayBeMade (map arc_value self.old.entries.items))
            (MayBeMade (map arc_value self.new.entries.items)) }
        ensures err { OnErr result (self.new.entries.items ≡ self.old.entries.items) }
        ensures cause { IfErr result
            (λ e. IsMemory e ⊎ (due_beside (map arc_value self.old.entries.items) prepared.now ≡ Err e)) }
        ensures shelf { self.new.shelf ≡ self.old.shelf }
        ensures skipped { self.new.skipped ≡ self.old.skipped }
    {
        let name = prepared.name();
        judge_beside(&self.entries, name)?;
        let ready = ready_of(&prepared.made)?;
        self.list_ready(name, &ready.bytes, &ready.entry)
    }
}

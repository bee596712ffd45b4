//! Putting a JP2 file on the shelf of an archive, and listing it.

ghost use Rattle.std.specs.Prelude.{◌≡◌, ◌≤◌, ◌<◌, ◌⊎◌, ◌++◌, ◌∷◌, [], ℕ, List, true, false, map, length, Ok, Err};
ghost use Rattle.std.specs.Prelude.{IfOk, IfErr, OnOk, OnErr};
ghost use Rattle.std.specs.String.{string_bytes};
ghost use Rattle.std.specs.Arc.{arc_value};
ghost use Rattle.jk_math.specs.Answer.{Answers, AnswersExactly};
ghost use Rattle.jk_math.specs.Memory.{IsMemory};
ghost use Rattle.jk_window.specs.Indexing.{IndexFields};
ghost use Rattle.jk_store.specs.Files.{Files, with_file, without};
ghost use Rattle.jk_store.specs.Names.{is_good_name, file_name, temporary_name};
ghost use Rattle.jk_store.specs.Counting.{Counts};
ghost use Rattle.jk_store.specs.Catalogue.{is_listed, image_at, most_entries, StandsFor, IsEntryOf, stored, Passes};
ghost use Rattle.jk_store.specs.Adding.{judged_name, IsLeftByAdd, IsUnstored, IsUnplaced, WhyUnstored, Stops, KeepsAllBut};
ghost use Rattle.jk_store.specs.declared.naming.Naming.TheVariants.{New};
ghost use Rattle.jk_store.specs.Showing.{ShowImages, StandForImages, MayBeMade};
ghost use Rattle.jk_catalogue.specs.Images.{Image as Shown};
ghost use Rattle.jk_catalogue.specs.Images.{Within};
ghost use Rattle.std.specs.Str.{bytes_eq};
ghost use Rattle.jk_math.specs.declared.fault.Fault.{Fault};
ghost use Rattle.jk_math.specs.declared.fault.Fault.TheVariants.{NameTaken, Shelf as ShelfFault};
ghost use Rattle.jk_store.specs.Preparing.{due_file, due_beside, ready_bytes};

use crate::adding::judge_beside;
use crate::archive::Archive;
use crate::encoded::Encoded;
use crate::entry::Entry;
use crate::names;
use crate::naming::Naming;
use crate::opening::image_index;
use crate::parts::part_digests;
use crate::prepared::{Prepared, Ready};
use crate::shelf::Shelf;
use jk_digest::sha256;
use jk_math::Fault;
use std::alloc::Global;
use std::sync::Arc;

/// The entry of a file that is an image of an archive, or the first fault of the file.
pub(crate) fn judged_entry(alloc: Global, name: &str, bytes: &[u8]) -> Result<Entry, Fault>
    ensures ok { IfOk result (λ e. StandsFor e (stored name.now bytes.now)) }
    ensures exact { Answers (λ e. e.index) result (image_at bytes.now) }
{
    let index = image_index(alloc, bytes)?;
    Ok(Entry {
        name: String::from_str(alloc, name)?,
        digest: sha256(bytes),
        parts: part_digests(alloc, bytes)?,
        index,
    })
}

/// The entry of a JP2 file.
#[tactic(auto, using(crate::proofs::Indexed::only_memory))]
pub(crate) fn entry_of(alloc: Global, name: &str, bytes: &[u8]) -> Result<Entry, Fault>
    requires { (i : IndexFields) × (image_at bytes.now ≡ Ok i) }
    ensures ok { IfOk result (λ e. StandsFor e (stored name.now bytes.now)) }
    ensures err { IfErr result IsMemory }
{
    judged_entry(alloc, name, bytes)
}

/// The names of an image's file: the one under which it is written, and its own.
#[derive(Drop)]
struct FileNames {
    temporary: String,
    own: String,
}

/// The names of the file of an image.
fn file_names(alloc: Global, name: &str) -> Result<FileNames, Fault>
    ensures temporary { IfOk result (λ n. string_bytes n.temporary ≡ temporary_name name.now) }
    ensures own { IfOk result (λ n. string_bytes n.own ≡ file_name name.now) }
    ensures err { IfErr result IsMemory }
{
    let temporary = names::temporary_name(alloc, name)?;
    let own = names::file_name(alloc, name)?;
    Ok(FileNames { temporary, own })
}

/// Writes a file under its temporary name, and then gives it its own, in place of any file that has
/// it.
fn store<S: Shelf>(
    alloc: Global,
    shelf: &mut S,
    names: &FileNames,
    bytes: &[u8],
) -> Result<(), Fault>
    ensures ok { (files : Files) → S.keeps shelf.old files
        → OnOk result
        (S.keeps shelf.new
        (with_file (string_bytes names.now.own) bytes.now (without (string_bytes names.now.temporary) files))) }
    // Of other files nothing is lost, whatever it answers.
    ensures left { bytes_eq (string_bytes names.now.temporary) (string_bytes names.now.own) ≡ false → (files : Files)
        → S.keeps shelf.old files
        → IfErr result (λ e. (left : Files) × S.keeps shelf.new left
        × IsLeftByAdd (string_bytes names.now.temporary) (string_bytes names.now.own) (Ok bytes.now) e files left) }
    ensures cause { IfErr result
        (λ e. e ≡ ShelfFault
        → IsUnstored S.unwritten S.unrenamed (string_bytes names.now.temporary) (string_bytes names.now.own)
        shelf.old shelf.new) }
    ensures counts { Counts result (S.failed shelf.old) (S.failed shelf.new) }
{
    shelf.write(alloc, names.temporary.as_str(), bytes)?;
    shelf.rename(alloc, names.temporary.as_str(), names.own.as_str())
}

/// Writes a file under its temporary name, and then gives it its own, if nothing has it.
///
/// NameTaken: something has it.
fn store_new<S: Shelf>(
    alloc: Global,
    shelf: &mut S,
    names: &FileNames,
    bytes: &[u8],
) -> Result<(), Fault>
    ensures ok { (files : Files) → S.keeps shelf.old files
        → OnOk result
        (S.keeps shelf.new
        (with_file (string_bytes names.now.own) bytes.now (without (string_bytes names.now.temporary) files))) }
    // Whatever it answers, no other file is lost or replaced.
    ensures stays { (files : Files) → S.keeps shelf.old files
        → S.keeps shelf.new (without (string_bytes names.now.temporary) files) }
    ensures free { bytes_eq (string_bytes names.now.temporary) (string_bytes names.now.own) ≡ false
        → (files : Files) (b : List ℕ) → S.keeps shelf.old files → files (string_bytes names.now.own) ≡ Some b
        → OnOk result ⊥ }
    ensures cause { IfErr result
        (λ e. WhyUnstored New S.unwritten S.unrenamed S.unplaced S.taken (string_bytes names.now.temporary)
        (string_bytes names.now.own) shelf.old shelf.new e) }
    ensures counts { Passes (Stops New) result (S.failed shelf.old) (S.failed shelf.new) }
{
    shelf.write(alloc, names.temporary.as_str(), bytes)?;
    if shelf.place(alloc, names.temporary.as_str(), names.own.as_str())? {
        Ok(())
    } else {
        Err(Fault::NameTaken)
    }
}

/// Stores the file of an image.
fn store_named<S: Shelf>(
    alloc: Global,
    shelf: &mut S,
    name: &str,
    bytes: &[u8],
    naming: Naming,
) -> Result<(), Fault>
    ensures holds { (files : Files) → S.keeps shelf.old files
        → OnOk result
        (S.keeps shelf.new (with_file (file_name name.now) bytes.now (without (temporary_name name.now) files))) }
    ensures cause { IfErr result
        (λ e. WhyUnstored naming S.unwritten S.unrenamed S.unplaced S.taken (temporary_name name.now)
        (file_name name.now) shelf.old shelf.new e) }
    ensures left { (files : Files) → S.keeps shelf.old files
        → IfErr result (λ e. (left : Files) × S.keeps shelf.new left
        × IsLeftByAdd (temporary_name name.now) (file_name name.now) (Ok bytes.now) e files left) }
    ensures stays { naming ≡ New → (files : Files) → S.keeps shelf.old files
        → KeepsAllBut S.keeps (temporary_name name.now) files shelf.new }
    ensures free { naming ≡ New → (files : Files) (b : List ℕ) → S.keeps shelf.old files
        → files (file_name name.now) ≡ Some b → OnOk result ⊥ }
    ensures counts { Passes (Stops naming) result (S.failed shelf.old) (S.failed shelf.new) }
{
    let names = file_names(alloc, name)?;
    match naming {
        Naming::Replacing => store(alloc, shelf, &names, bytes),
        Naming::New => store_new(alloc, shelf, &names, bytes),
    }
}

impl Encoded {
    /// The file that is to be stored.
    ///
    /// The first of these: BadName; why there is no file.
    #[tactic(auto, unfolding(crate::specs::Adding::stored_due))]
    fn due(&self) -> Result<&[u8], Fault>
        ensures { AnswersExactly (λ b. b.now) result (due_file self.now) }
    {
        if !names::is_good_name(self.name.as_str()) {
            return Err(Fault::BadName);
        }
        match &self.file {
            Ok(bytes) => Ok(bytes.as_slice()),
            Err(fault) => Err(*fault),
        }
    }

    /// Puts the file on a shelf, where it is written under its temporary name and then gets its own,
    /// if nothing has that. No archive lists it yet. Who holds the lock of the folder has judged the
    /// name by its files before; a file that came since is not replaced.
    ///
    /// The first of these: BadName; why there is no file; Shelf or NameTaken, where something has the
    /// name. After a refusal the temporary file may stand.
    pub fn store<S: Shelf>(&self, alloc: Global, shelf: &mut S) -> Result<(), Fault>
        ensures judged { (e : Fault) → due_file self.now ≡ Err e
            → (result ≡ Err e) × (shelf.new ≡ shelf.old) }
        ensures allowed { OnOk result
            ((file : List ℕ) × (due_file self.now ≡ Ok file)) }
        // The shelf keeps the file, and what it kept.
        ensures holds { (files : Files) (file : List ℕ) → S.keeps shelf.old files
            → due_file self.now ≡ Ok file
            → OnOk result
            (S.keeps shelf.new
            (with_file (file_name (string_bytes self.now.name)) file
            (without (temporary_name (string_bytes self.now.name)) files))) }
        // NameTaken and Shelf come behind what is judged and encoded: something had the name, or the
        // file couldn't be written under its temporary name, or that couldn't become its own.
        ensures cause { IfErr result (λ e. IsMemory e
            ⊎ (due_file self.now ≡ Err e)
            ⊎ (((file : List ℕ) × (due_file self.now ≡ Ok file))
            × IsUnplaced S.unwritten S.unplaced S.taken (temporary_name (string_bytes self.now.name))
            (file_name (string_bytes self.now.name)) shelf.old shelf.new e)) }
        // Whatever it answers, no file that the shelf kept is lost or replaced, but for the temporary
        // one of this name.
        ensures stays { (files : Files) → S.keeps shelf.old files
            → KeepsAllBut S.keeps (temporary_name (string_bytes self.now.name)) files shelf.new }
        ensures free { (files : Files) (b : List ℕ) → S.keeps shelf.old files
            → files (file_name (string_bytes self.now.name)) ≡ Some b → OnOk result ⊥ }
        // Of files all but the temporary one of this name are as before.
        ensures left { (files : Files) → S.keeps shelf.old files
            → IfErr result (λ e. (left : Files) × S.keeps shelf.new left
            × IsLeftByAdd (temporary_name (string_bytes self.now.name)) (file_name (string_bytes self.now.name))
            (due_file self.now) e files left) }
        ensures counts { Passes
            (λ e. (IsMemory e ⊎ (e ≡ NameTaken)) ⊎ (due_file self.now ≡ Err e))
            result (S.failed shelf.old) (S.failed shelf.new) }
    {
        let bytes = self.due()?;
        store_named(alloc, shelf, self.name.as_str(), bytes, Naming::New)
    }
}

impl<S: Shelf> Archive<S> {
    /// Puts the JP2 file of an entry on the shelf under the name of an image, and lists the entry.
    ///
    /// Shelf: it can't be stored. NameTaken: it was to be new, and something has its name. After a
    /// refusal the list is as before, and the temporary file may stand.
    fn enter(
        &mut self,
        alloc: Global,
        name: &str,
        bytes: &[u8],
        entry: Arc<Entry>,
        naming: Naming,
    ) -> Result<Arc<Entry>, Fault>
        requires made { IsEntryOf (arc_value entry) name.now bytes.now }
        requires named { is_good_name name.now ≡ true }
        requires fresh { is_listed (map arc_value self.old.entries.items) name.now ≡ false }
        requires room { length self.old.entries.items < most_entries }
        ensures listed { IfOk result
            (λ e. map arc_value self.new.entries.items ≡ map arc_value self.old.entries.items ++ arc_value e ∷ []) }
        ensures stands { IfOk result (λ e. StandsFor (arc_value e) (stored name.now bytes.now)) }
        ensures holds { (files : Files) → S.keeps self.old.shelf files
            → OnOk result
            (S.keeps self.new.shelf
            (with_file (file_name name.now) bytes.now (without (temporary_name name.now) files))) }
        ensures shows { (images : List Shown) → ShowImages (map arc_value self.old.entries.items) images
            → IfOk result (λ e. (i : Shown) × ShowImages (map arc_value self.new.entries.items) (images ++ i ∷ [])
            × (i.name ≡ name.now) × (i.file ≡ bytes.now)) }
        ensures keeps { (images : List Shown)
            → StandForImages S.keeps (map arc_value self.old.entries.items) self.old.shelf images
            → IfOk result
            (λ e. (i : Shown)
            × StandForImages S.keeps (map arc_value self.new.entries.items) self.new.shelf (images ++ i ∷ [])
            × (i.name ≡ name.now) × (i.file ≡ bytes.now)) }
        ensures made { Within (MayBeMade (map arc_value self.old.entries.items))
            (MayBeMade (map arc_value self.new.entries.items)) }
        ensures err { OnErr result (self.new.entries.items ≡ self.old.entries.items) }
        ensures cause { IfErr result
            (λ e. WhyUnstored naming S.unwritten S.unrenamed S.unplaced S.taken (temporary_name name.now)
            (file_name name.now) self.old.shelf self.new.shelf e) }
        ensures left { (files : Files) → S.keeps self.old.shelf files
            → IfErr result (λ e. (left : Files) × S.keeps self.new.shelf left
            × IsLeftByAdd (temporary_name name.now) (file_name name.now) (Ok bytes.now) e files left) }
        ensures stays { naming ≡ New → (files : Files) → S.keeps self.old.shelf files
            → KeepsAllBut S.keeps (temporary_name name.now) files self.new.shelf }
        ensures free { naming ≡ New → (files : Files) (b : List ℕ) → S.keeps self.old.shelf files
            → files (file_name name.now) ≡ Some b → OnOk result ⊥ }
        ensures skipped { self.new.skipped ≡ self.old.skipped }
        ensures counts { Passes (Stops naming) result (S.failed self.old.shelf) (S.failed self.new.shelf) }
    {
        let listed = Arc::try_clone(&entry)?;
        self.entries.reserve(1)?;
        store_named(alloc, &mut self.shelf, name, bytes, naming)?;
        self.entries.push_reserved(listed);
        Ok(entry)
    }

    /// Puts a JP2 file on the shelf under the name of an image, and lists it.
    ///
    /// Shelf: it can't be stored. After a refusal the list is as before, and the temporary file may
    /// stand.
    pub(crate) fn put(
        &mut self,
        alloc: Global,
        name: &str,
        bytes: Vec<u8>,
    ) -> Result<Arc<Entry>, Fault>
        requires image { (i : IndexFields) × (image_at bytes.items ≡ Ok i) }
        requires named { is_good_name name.now ≡ true }
        requires fresh { is_listed (map arc_value self.old.entries.items) name.now ≡ false }
        requires room { length self.old.entries.items < most_entries }
        ensures listed { IfOk result
            (λ e. map arc_value self.new.entries.items ≡ map arc_value self.old.entries.items ++ arc_value e ∷ []) }
        ensures stands { IfOk result (λ e. StandsFor (arc_value e) (stored name.now bytes.items)) }
        ensures holds { (files : Files) → S.keeps self.old.shelf files
            → OnOk result
            (S.keeps self.new.shelf
            (with_file (file_name name.now) bytes.items (without (temporary_name name.now) files))) }
        ensures shows { (images : List Shown) → ShowImages (map arc_value self.old.entries.items) images
            → IfOk result (λ e. (i : Shown) × ShowImages (map arc_value self.new.entries.items) (images ++ i ∷ [])
            × (i.name ≡ name.now) × (i.file ≡ bytes.items)) }
        ensures keeps { (images : List Shown)
            → StandForImages S.keeps (map arc_value self.old.entries.items) self.old.shelf images
            → IfOk result
            (λ e. (i : Shown)
            × StandForImages S.keeps (map arc_value self.new.entries.items) self.new.shelf (images ++ i ∷ [])
            × (i.name ≡ name.now) × (i.file ≡ bytes.items)) }
        ensures made { Within (MayBeMade (map arc_value self.old.entries.items))
            (MayBeMade (map arc_value self.new.entries.items)) }
        ensures err { OnErr result (self.new.entries.items ≡ self.old.entries.items) }
        ensures cause { IfErr result (λ e. IsMemory e
            ⊎ ((e ≡ ShelfFault) × IsUnstored S.unwritten S.unrenamed (temporary_name name.now) (file_name name.now)
            self.old.shelf self.new.shelf)) }
        ensures left { (files : Files) → S.keeps self.old.shelf files
            → IfErr result (λ e. (left : Files) × S.keeps self.new.shelf left
            × IsLeftByAdd (temporary_name name.now) (file_name name.now) (Ok bytes.items) e files left) }
        ensures skipped { self.new.skipped ≡ self.old.skipped }
        ensures counts { Passes IsMemory result (S.failed self.old.shelf) (S.failed self.new.shelf) }
    {
        let entry = Arc::new(alloc, entry_of(alloc, name, &bytes)?)?;
        self.enter(alloc, name, &bytes, entry, Naming::Replacing)
    }

    /// Adds an image that is prepared: its file is written to the shelf, and then it is listed.
    /// Whoever holds the lock of the shelf's folder meanwhile holds it for this alone, and not for
    /// the encoding.
    ///
    /// The first of these: BadName; NameTaken; Limit where 4,096 images are listed; what kept the
    /// image from being prepared; Shelf or NameTaken, where something on the shelf has the name of its
    /// file: nothing there is replaced. After a refusal the list is as before, and the temporary file
    /// may stand.
    pub fn add_prepared(&mut self, alloc: Global, prepared: Prepared) -> Result<Arc<Entry>, Fault>
        ensures judged { (e : Fault) → due_beside (map arc_value self.old.entries.items) prepared ≡ Err e
            → (result ≡ Err e) × (self.new.shelf ≡ self.old.shelf) }
        ensures allowed { OnOk result
            (judged_name (map arc_value self.old.entries.items) (string_bytes prepared.name) ≡ Ok tt) }
        // The list grows by one entry, which stands for the file of the image.
        ensures listed { IfOk result
            (λ e. map arc_value self.new.entries.items ≡ map arc_value self.old.entries.items ++ arc_value e ∷ []) }
        ensures stands { IfOk result (λ e. (file : List ℕ) × (ready_bytes prepared.made ≡ Ok file)
            × StandsFor (arc_value e) (stored (string_bytes prepared.name) file)) }
        // The shelf keeps the file, and what it kept.
        ensures holds { (files : Files) (file : List ℕ) → S.keeps self.old.shelf files
            → ready_bytes prepared.made ≡ Ok file
            → OnOk result
            (S.keeps self.new.shelf
            (with_file (file_name (string_bytes prepared.name)) file
            (without (temporary_name (string_bytes prepared.name)) files))) }
        // What the archive stood for it stands for, with one image more.
        ensures shows { (images : List Shown) → ShowImages (map arc_value self.old.entries.items) images
            → IfOk result (λ e. (i : Shown) × ShowImages (map arc_value self.new.entries.items) (images ++ i ∷ [])
            × (i.name ≡ string_bytes prepared.name) × (ready_bytes prepared.made ≡ Ok i.file)) }
        ensures keeps { (images : List Shown)
            → StandForImages S.keeps (map arc_value self.old.entries.items) self.old.shelf images
            → IfOk result
            (λ e. (i : Shown)
            × StandForImages S.keeps (map arc_value self.new.entries.items) self.new.shelf (images ++ i ∷ [])
            × (i.name ≡ string_bytes prepared.name) × (ready_bytes prepared.made ≡ Ok i.file)) }
        // What may have been made of its images still may.
        ensures made { Within (MayBeMade (map arc_value self.old.entries.items))
            (MayBeMade (map arc_value self.new.entries.items)) }
        // After a refusal the list is as before, and of files all but the temporary one of this
        // name are.
        ensures err { OnErr result (self.new.entries.items ≡ self.old.entries.items) }
        // Shelf and the NameTaken of the shelf come behind all that is judged and prepared: something
        // had the name, or the file couldn't be written under its temporary name, or that couldn't
        // become its own.
        ensures cause { IfErr result (λ e. IsMemory e
            ⊎ (judged_name (map arc_value self.old.entries.items) (string_bytes prepared.name) ≡ Err e)
            ⊎ (ready_bytes prepared.made ≡ Err e)
            ⊎ (((file : List ℕ) × (ready_bytes prepared.made ≡ Ok file))
            × IsUnplaced S.unwritten S.unplaced S.taken (temporary_name (string_bytes prepared.name))
            (file_name (string_bytes prepared.name)) self.old.shelf self.new.shelf e)) }
        // Whatever it answers, no file that the shelf kept is lost or replaced, but for the temporary
        // one of this name.
        ensures stays { (files : Files) → S.keeps self.old.shelf files
            → KeepsAllBut S.keeps (temporary_name (string_bytes prepared.name)) files self.new.shelf }
        ensures free { (files : Files) (b : List ℕ) → S.keeps self.old.shelf files
            → files (file_name (string_bytes prepared.name)) ≡ Some b → OnOk result ⊥ }
        ensures left { (files : Files) → S.keeps self.old.shelf files
            → IfErr result (λ e. (left : Files) × S.keeps self.new.shelf left
            × IsLeftByAdd (temporary_name (string_bytes prepared.name)) (file_name (string_bytes prepared.name))
            (ready_bytes prepared.made) e files left) }
        ensures skipped { self.new.skipped ≡ self.old.skipped }
        ensures counts { Passes
            (λ e. (IsMemory e ⊎ (e ≡ NameTaken))
            ⊎ (judged_name (map arc_value self.old.entries.items) (string_bytes prepared.name) ≡ Err e)
            ⊎ (ready_bytes prepared.made ≡ Err e))
            result (S.failed self.old.shelf) (S.failed self.new.shelf) }
    {
        let Prepared { name, made } = prepared;
        let name = name.as_str();
        judge_beside(&self.entries, name)?;
        let ready = made?;
        let Ready { entry, bytes } = ready;
        self.enter(alloc, name, &bytes, entry, Naming::New)
    }
}

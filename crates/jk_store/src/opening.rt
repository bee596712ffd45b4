//! Opening an archive.

ghost use Rattle.std.specs.Prelude.{◌≡◌, ◌≤◌, ◌⊎◌, ℕ, List, map, length, true, false, Some, Ok, Err, [], All, IfOk};
ghost use Rattle.std.specs.Prelude.{IfErr, OnOk, ◌<◌, slice_index_or};
ghost use Rattle.std.specs.Arc.{arc_value};
ghost use Rattle.std.specs.String.{string_bytes};
ghost use Rattle.std.specs.BTreeSet.{keys};
ghost use Rattle.std.specs.Ordering.{nat_cmp};
ghost use Rattle.std.specs.Cmp.Lexicographic.{slice_cmp};
ghost use Rattle.std.specs.List.Sorted.{IsStrictlySortedBy};
ghost use Rattle.jk_math.specs.Answer.{Answers};
ghost use Rattle.jk_math.specs.Memory.{IsMemory};
ghost use Rattle.jk_math.specs.declared.fault.Fault.TheVariants.{Limit, Shelf as ShelfFault};
ghost use Rattle.jk_window.specs.Indexing.{IndexFields, IsIndexOf};
ghost use Rattle.jk_catalogue.specs.Images.{Image, names_of};
ghost use Rattle.jk_catalogue.specs.Images.{IsPathSegment};
ghost use Rattle.jk_store.specs.Files.{Files, AreIn};
ghost use Rattle.jk_store.specs.Names.{file_name, is_good_name};
ghost use Rattle.jk_store.specs.Catalogue.{entry_of, image_at, are_named, most_entries, StandsFor, StandIn, stored};
ghost use Rattle.jk_store.specs.Catalogue.{Passes};
ghost use Rattle.jk_store.specs.Showing.{ShowImages, StandForImages};
ghost use Rattle.jk_store.specs.Opening.{IsLookedOf, GivesFile, Enters, Opened, ReadsPast, ReadsUpTo, OpensAs, OpensPast};
ghost use Rattle.jk_store.specs.Opening.{OpensUpTo, IsSeenOf, CanBeMade, stored_file};
ghost use Rattle.jk_store.specs.Digesting.{all_entries};
ghost use Rattle.jk_store.specs.declared.entry.Entry.{Entry as EntryFields};

use crate::archive::Archive;
use crate::digesting::{Digesting, Undigested};
use crate::entry::Entry;
use crate::hashed::HashedParts;
use crate::names;
use crate::parts::part_digests;
use crate::shelf::Shelf;
use crate::skipped::Skipped;
use jk_boxes::open;
use jk_math::Fault;
use jk_window::{Index, index};
use std::alloc::Global;
use std::collections::BTreeSet;
use std::sync::Arc;

/// What becomes of a file.
#[derive(Drop)]
enum Looked {
    Due(Undigested),
    Passed(Skipped),
}

/// Whether memory was refused.
fn is_memory(fault: &Fault) -> bool
    ensures yes { result ≡ true → IsMemory fault.now }
    ensures no { result ≡ false → IsMemory fault.now → ⊥ }
{
    matches!(fault, Fault::Memory(_))
}

/// The index of a JP2 file.
///
/// BadBox: it is a bare codestream. Otherwise as `jk_window::index`.
#[tactic(auto, unfolding(crate::specs::Catalogue::image_at))]
pub(crate) fn image_index(alloc: Global, bytes: &[u8]) -> Result<Index, Fault>
    ensures exact { Answers (λ i. i) result (image_at bytes.now) }
    ensures found { IfOk result (λ i. IsIndexOf bytes.now i) }
{
    let index = index(alloc, bytes)?;
    let place = open(bytes)?;
    if !place.jp2 {
        return Err(Fault::BadBox);
    }
    Ok(index)
}

/// The file of an image as the shelf gave it.
#[derive(Drop)]
pub(crate) struct NamedFile {
    pub(crate) name: String,
    pub(crate) bytes: Vec<u8>,
}

/// That bytes are below 256, for what is said of them as numbers.
fn fit(_bytes: &[u8])
    ensures { (k : ℕ) → slice_index_or _bytes.now k 0 < 256 }
{}

/// Reads the file of a name. Whatever it answers, the shelf keeps what it kept.
pub(crate) fn read_named<S: Shelf>(
    alloc: Global,
    shelf: &mut S,
    name: &str,
) -> Result<NamedFile, Fault>
    ensures name { IfOk result (λ f. string_bytes f.name ≡ name.now) }
    ensures given { IfOk result
        (λ f. GivesFile S.keeps S.gave shelf.old (file_name name.now) f.bytes.items shelf.new) }
    ensures seen { IfOk result (λ f. CanBeMade (stored_file f)) }
    ensures cause { IfErr result (λ e. e ≡ ShelfFault → S.unread shelf.old (file_name name.now) shelf.new) }
    ensures kept { (files : Files) → S.keeps shelf.old files → S.keeps shelf.new files }
    ensures counts { Passes IsMemory result (S.failed shelf.old) (S.failed shelf.new) }
{
    let file = names::file_name(alloc, name)?;
    let bytes = shelf.read(alloc, file.as_str())?;
    fit(&bytes);
    let name = String::from_str(alloc, name)?;
    Ok(NamedFile { name, bytes })
}

/// What bytes are: the file of an image, with its index and the digests of its parts; or another,
/// and why.
#[derive(Drop)]
pub(crate) enum Seen {
    ImageFile(Index, Vec<[u8; 32]>),
    OtherFile(Fault),
}

/// What the bytes of a file are.
#[tactic(auto, using(crate::proofs::Indexed::due_fault))]
pub(crate) fn judge_bytes(alloc: Global, bytes: &[u8]) -> Result<Seen, Fault>
    ensures ok { IfOk result (IsSeenOf bytes.now) }
    ensures err { IfErr result IsMemory }
{
    match image_index(alloc, bytes) {
        Ok(index) => Ok(Seen::ImageFile(index, part_digests(alloc, bytes)?)),
        Err(fault) => {
            if is_memory(&fault) {
                return Err(fault);
            }
            Ok(Seen::OtherFile(fault))
        }
    }
}

/// Reads the file of a name, and says what becomes of it. Whatever it answers, the shelf keeps what
/// it kept.
fn look<S: Shelf>(alloc: Global, shelf: &mut S, name: &str) -> Result<Looked, Fault>
    ensures given { IfOk result
        (λ r. (bytes : List ℕ) × GivesFile S.keeps S.gave shelf.old (file_name name.now) bytes shelf.new
        × IsLookedOf name.now bytes r) }
    ensures cause { IfErr result (λ e. e ≡ ShelfFault → S.unread shelf.old (file_name name.now) shelf.new) }
    ensures kept { (files : Files) → S.keeps shelf.old files → S.keeps shelf.new files }
    ensures counts { Passes IsMemory result (S.failed shelf.old) (S.failed shelf.new) }
{
    let NamedFile { name, bytes } = read_named(alloc, shelf, name)?;
    match judge_bytes(alloc, &bytes)? {
        Seen::ImageFile(index, parts) => Ok(Looked::Due(Undigested {
            name,
            bytes,
            parts,
            index,
        })),
        Seen::OtherFile(fault) => Ok(Looked::Passed(Skipped { name, fault })),
    }
}

/// Reads the file of a name, and lists or skips it. Whatever it answers, the shelf keeps what it
/// kept.
///
/// Limit: 4,096 images are listed, and this would be one more.
fn enter<S: Shelf>(
    alloc: Global,
    shelf: &mut S,
    name: &str,
    listed: &mut Digesting,
    skipped: &mut Vec<Skipped>,
) -> Result<(), Fault>
    ensures given { OnOk result ((bytes : List ℕ) × GivesFile S.keeps S.gave shelf.old (file_name name.now) bytes shelf.new
        × Enters name.now bytes (all_entries listed.old) (all_entries listed.new) skipped.old.items
        skipped.new.items) }
    ensures few { length (all_entries listed.old) ≤ most_entries
        → OnOk result (length (all_entries listed.new) ≤ most_entries) }
    ensures full { result ≡ Err Limit → (most_entries ≤ length (all_entries listed.old))
        × ((bytes : List ℕ) × (e : EntryFields) × GivesFile S.keeps S.gave shelf.old (file_name name.now) bytes shelf.new
        × StandsFor e (stored name.now bytes)) }
    ensures cause { IfErr result (λ e. e ≡ ShelfFault → S.unread shelf.old (file_name name.now) shelf.new) }
    ensures kept { (files : Files) → S.keeps shelf.old files → S.keeps shelf.new files }
    ensures counts { Passes (λ e. IsMemory e ⊎ (e ≡ Limit)) result (S.failed shelf.old) (S.failed shelf.new) }
{
    match look(alloc, shelf, name)? {
        Looked::Due(file) => {
            if listed.is_full() {
                // Memory that is refused for a file before this one is told first.
                listed.settle(alloc)?;
                return Err(Fault::Limit);
            }
            listed.take(alloc, file)?;
        }
        Looked::Passed(file) => skipped.push(file)?,
    }
    Ok(())
}

/// What is made of files.
#[derive(Drop)]
pub(crate) struct Made {
    pub(crate) entries: Vec<Arc<Entry>>,
    pub(crate) skipped: Vec<Skipped>,
}

/// Reads the files of some names, in their order. Whatever it answers, the shelf keeps what it
/// kept.
///
/// Limit: more than 4,096 of them would be listed.
pub(crate) fn read_images<S: Shelf>(
    alloc: Global,
    shelf: &mut S,
    names: &BTreeSet<String>,
) -> Result<Made, Fault>
    ensures opened { IfOk result (λ r. Opened (GivesFile S.keeps S.gave) (map string_bytes (keys names.now)) shelf.old
        (map arc_value r.entries.items) r.skipped.items shelf.new) }
    ensures ordered { IsStrictlySortedBy (slice_cmp nat_cmp) (map string_bytes (keys names.now)) }
    ensures few { IfOk result (λ r. length r.entries.items ≤ most_entries) }
    ensures full { result ≡ Err Limit → ReadsPast (GivesFile S.keeps S.gave) (map string_bytes (keys names.now)) shelf.old }
    ensures cause { IfErr result
        (λ e. e ≡ ShelfFault
        → ReadsUpTo (GivesFile S.keeps S.gave) S.unread (map string_bytes (keys names.now)) shelf.old) }
    ensures kept { (files : Files) → S.keeps shelf.old files → S.keeps shelf.new files }
    ensures counts { Passes (λ e. IsMemory e ⊎ (e ≡ Limit)) result (S.failed shelf.old) (S.failed shelf.new) }
{
    let mut listed = Digesting::new(alloc);
    let mut skipped = Vec::new(alloc);
    for name in names.iter() {
        enter(alloc, shelf, name.as_str(), &mut listed, &mut skipped)?;
    }
    Ok(Made {
        entries: listed.finish(alloc)?,
        skipped,
    })
}

/// The images of a shelf, and the files that aren't listed.
#[derive(Drop)]
pub struct Images {
    pub(crate) entries: Vec<Arc<Entry>>,
    pub(crate) skipped: Vec<Skipped>,
    // Names are good, and none stands twice.
    ghost named: { are_named (map arc_value entries.items) ≡ true },
    ghost few: { length entries.items ≤ most_entries },
}

impl Images {
    /// No images.
    pub fn none(alloc: Global) -> Images
        ensures entries { result.entries.items ≡ [] }
        ensures skipped { result.skipped.items ≡ [] }
    {
        Images {
            entries: Vec::new(alloc),
            skipped: Vec::new(alloc),
        }
    }

    /// Reads the images of a shelf. Whatever it answers, the shelf keeps what it kept.
    ///
    /// Files `NAME.jp2` with a good name are read in the order of their names. One that isn't a JP2
    /// file with an index is skipped. Limit: more than 4,096 images would be listed. Shelf: the
    /// shelf failed.
    pub fn read<S: Shelf>(alloc: Global, shelf: &mut S) -> Result<Images, Fault>
        ensures opened { IfOk result
            (λ a. OpensAs S.lists S.gave shelf.old (map arc_value a.entries.items) a.skipped.items shelf.new) }
        // An image whose file the shelf keeps is listed.
        ensures found { (files : Files) (n b : List ℕ) (i : IndexFields) → S.keeps shelf.old files
            → is_good_name n ≡ true
            → files (file_name n) ≡ Some b → image_at b ≡ Ok i
            → IfOk result
            (λ a. (e : EntryFields) × (entry_of (map arc_value a.entries.items) n ≡ Some e)
            × StandsFor e (stored n b)) }
        ensures kept { (files : Files) → S.keeps shelf.old files → S.keeps shelf.new files }
        // The shelf keeps a file for each entry, for which the entry stands.
        ensures stands { (files : Files) → S.keeps shelf.old files
            → IfOk result
            (λ a. (all : Files) × S.keeps shelf.new all × AreIn files all
            × StandIn all (map arc_value a.entries.items)) }
        // The entries show images, whose names are segments of a path.
        ensures shows { IfOk result
            (λ a. (images : List Image) × ShowImages (map arc_value a.entries.items) images
            × All IsPathSegment (names_of images)) }
        // Of files that the shelf keeps, images whose files it keeps.
        ensures shown { (files : Files) → S.keeps shelf.old files
            → IfOk result
            (λ a. (images : List Image) × StandForImages S.keeps (map arc_value a.entries.items) shelf.new images
            × All IsPathSegment (names_of images)) }
        ensures err { IfErr result
            (λ e. IsMemory e ⊎ ((e ≡ ShelfFault) × OpensUpTo S.lists S.unlisted S.gave S.unread shelf.old)
            ⊎ ((e ≡ Limit) × OpensPast S.lists S.gave shelf.old)) }
        ensures counts { Passes (λ e. IsMemory e ⊎ (e ≡ Limit)) result (S.failed shelf.old) (S.failed shelf.new) }
    {
        let files = shelf.list(alloc)?;
        let names = names::names_in(alloc, &files)?;
        let made = read_images(alloc, shelf, &names)?;
        Ok(Images {
            entries: made.entries,
            skipped: made.skipped,
        })
    }
}

impl<S> Archive<S> {
    /// The archive of the images of a shelf.
    pub fn with(shelf: S, images: Images) -> Archive<S>
        ensures shelf { result.shelf ≡ shelf }
        ensures entries { result.entries ≡ images.entries }
        ensures skipped { result.skipped ≡ images.skipped }
    {
        let Images { entries, skipped } = images;
        let hashed = HashedParts::new(*entries.allocator());
        Archive {
            shelf,
            entries,
            skipped,
            hashed,
        }
    }
}

impl<S: Shelf + Drop> Archive<S> {
    /// The archive of the images on a shelf, as `Images::read` reads them. Where it is refused the
    /// shelf is given up.
    pub fn open(alloc: Global, shelf: S) -> Result<Archive<S>, Fault>
        ensures opened { IfOk result
            (λ a. OpensAs S.lists S.gave shelf (map arc_value a.entries.items) a.skipped.items a.shelf) }
        // An image whose file the shelf keeps is listed.
        ensures found { (files : Files) (n b : List ℕ) (i : IndexFields) → S.keeps shelf files → is_good_name n ≡ true
            → files (file_name n) ≡ Some b → image_at b ≡ Ok i
            → IfOk result
            (λ a. (e : EntryFields) × (entry_of (map arc_value a.entries.items) n ≡ Some e)
            × StandsFor e (stored n b)) }
        // The shelf keeps what it kept, and a file for each entry, for which the entry stands.
        ensures kept { (files : Files) → S.keeps shelf files → IfOk result (λ a. S.keeps a.shelf files) }
        ensures stands { (files : Files) → S.keeps shelf files
            → IfOk result
            (λ a. (all : Files) × S.keeps a.shelf all × AreIn files all
            × StandIn all (map arc_value a.entries.items)) }
        // A server shows its entries: they show images, whose names are segments of a path.
        ensures shows { IfOk result
            (λ a. (images : List Image) × ShowImages (map arc_value a.entries.items) images
            × All IsPathSegment (names_of images)) }
        // Of files that the shelf keeps, images whose files it keeps.
        ensures shown { (files : Files) → S.keeps shelf files
            → IfOk result
            (λ a. (images : List Image) × StandForImages S.keeps (map arc_value a.entries.items) a.shelf images
            × All IsPathSegment (names_of images)) }
        ensures err { IfErr result
            (λ e. IsMemory e ⊎ ((e ≡ ShelfFault) × OpensUpTo S.lists S.unlisted S.gave S.unread shelf)
            ⊎ ((e ≡ Limit) × OpensPast S.lists S.gave shelf)) }
        ensures counts { IfOk result (λ a. S.failed a.shelf ≡ S.failed shelf) }
    {
        let mut shelf = shelf;
        let images = Images::read(alloc, &mut shelf)?;
        Ok(Archive::with(shelf, images))
    }
}

//! Opening an archive by several workers.

ghost use Rattle.std.specs.Prelude.{◌≡◌, ◌⊎◌, ◌≤◌, ◌++◌, ◌∷◌, [], ℕ, List, true, map, length, Some, Ok, Err};
ghost use Rattle.std.specs.Prelude.{IfOk, IfErr, OnOk, All};
ghost use Rattle.std.specs.Arc.{arc_value};
ghost use Rattle.std.specs.String.{string_bytes};
ghost use Rattle.std.specs.BTreeSet.{keys};
ghost use Rattle.std.specs.Ordering.{nat_cmp};
ghost use Rattle.std.specs.Cmp.Lexicographic.{slice_cmp};
ghost use Rattle.std.specs.List.{flat_map};
ghost use Rattle.std.specs.List.Sorted.{IsStrictlySortedBy};
ghost use Rattle.jk_math.specs.Memory.{IsMemory};
ghost use Rattle.jk_math.specs.declared.fault.Fault.TheVariants.{BadParameters, Limit, Shelf as ShelfFault};
ghost use Rattle.jk_window.specs.Indexing.{IndexFields};
ghost use Rattle.jk_catalogue.specs.Images.{Image, names_of};
ghost use Rattle.jk_catalogue.specs.Images.{IsPathSegment};
ghost use Rattle.jk_store.specs.Files.{Files, AreIn};
ghost use Rattle.jk_store.specs.Names.{file_name, is_good_name};
ghost use Rattle.jk_store.specs.Catalogue.{entry_of, image_at, most_entries, Stored, StandsFor, StandIn, stored};
ghost use Rattle.jk_store.specs.Catalogue.{Passes};
ghost use Rattle.jk_store.specs.Showing.{ShowImages, StandForImages};
ghost use Rattle.jk_store.specs.Opening.{GivesFile, Enters, Opened, ReadsPast, ReadsUpTo, OpensAs, OpensPast, OpensUpTo};
ghost use Rattle.jk_store.specs.Opening.{CanBeMade, stored_file};
ghost use Rattle.jk_store.specs.OpeningWith.{file_digest, made_entries, AreMade, IsMadeOf, MakePast, waiting_files};
ghost use Rattle.jk_store.specs.OpeningWith.{IsOpeningOf, AreAllMade};
ghost use Rattle.jk_store.specs.declared.entry.Entry.{Entry as EntryFields};

use crate::adding::MOST_ENTRIES;
use crate::archive::Archive;
use crate::batches::are_enough;
use crate::digesting::sha256_of_three;
use crate::entry::Entry;
use crate::names;
use crate::opening::{Images, Made, NamedFile, Seen, judge_bytes, read_images, read_named};
use crate::shelf::Shelf;
use crate::skipped::Skipped;
use jk_digest::{sha256, sha256_of_four};
use jk_jobs::{Gate, Work, map_jobs};
use jk_math::Fault;
use std::alloc::Global;
use std::collections::BTreeSet;
use std::mem;
use std::sync::Arc;
use std::thread::Threads;

/// How many files one job judges at most: as many as have their digests made at once.
const JOB_FILES: usize = 4;

/// How many bytes the files of a job have at most, where it has more than one.
const JOB_SIZE: usize = 1 << 23;

/// The digests of files, which are made at once where they are three or four.
fn digests(alloc: Global, files: &[NamedFile]) -> Result<Vec<[u8; 32]>, Fault>
    ensures ok { IfOk result (λ v. v.items ≡ map file_digest files.now) }
    ensures err { IfErr result IsMemory }
{
    let mut digests = Vec::with_capacity(alloc, files.len())?;
    match files {
        [a, b, c, d] => {
            let four = sha256_of_four(&a.bytes, &b.bytes, &c.bytes, &d.bytes);
            digests.extend_from_slice(&four)?;
        }
        [a, b, c] => {
            let three = sha256_of_three(&a.bytes, &b.bytes, &c.bytes);
            digests.extend_from_slice(&three)?;
        }
        _ => {
            for file in files {
                digests.push(sha256(&file.bytes))?;
            }
        }
    }
    Ok(digests)
}

/// Lists a file that has this digest, or skips it.
fn enter_read(
    alloc: Global,
    made: &mut Made,
    file: &NamedFile,
    digest: [u8; 32],
) -> Result<(), Fault>
    requires { digest ≡ file_digest file.now }
    ensures more { OnOk result (Enters (string_bytes file.now.name) file.now.bytes.items
        (made_entries made.old) (made_entries made.new) made.old.skipped.items made.new.skipped.items) }
    ensures err { IfErr result IsMemory }
{
    let seen = judge_bytes(alloc, &file.bytes)?;
    let name = file.name.clone()?;
    match seen {
        Seen::ImageFile(index, parts) => {
            let entry = Entry {
                name,
                digest,
                parts,
                index,
            };
            made.entries.push(Arc::new(alloc, entry)?)?;
        }
        Seen::OtherFile(fault) => made.skipped.push(Skipped { name, fault })?,
    }
    Ok(())
}

/// What is made of files.
fn make(alloc: Global, files: &[NamedFile]) -> Result<Made, Fault>
    ensures ok { IfOk result (IsMadeOf (map stored_file files.now)) }
    ensures err { IfErr result IsMemory }
{
    let digests = digests(alloc, files)?;
    let mut made = Made {
        entries: Vec::new(alloc),
        skipped: Vec::new(alloc),
    };
    for number in 0..digests.len() {
        enter_read(alloc, &mut made, &files[number], digests[number])?;
    }
    Ok(made)
}

/// Files that were read, which one worker judges.
#[derive(Drop)]
struct Few {
    files: Vec<NamedFile>,
}

/// A few files are judged, and their digests are made.
impl Work for Few {
    ghost use Rattle.jk_store.specs.OpeningWith.{IsMadeOfFew};

    type Job = Few;

    type Done = Made;

    ghost accepts = { λ _. Unit {0} };

    ghost gives = { IsMadeOfFew };

    fn done(alloc: Global, job: &Few) -> Result<Made, Fault> {
        make(alloc, &job.files)
    }
}

/// Puts what was made of files behind what was made of those before them.
fn gather(made: &mut Made, more: Vec<Made>) -> Result<(), Fault>
    ensures entries { OnOk result
        (made_entries made.new ≡ made_entries made.old ++ flat_map made_entries more.items) }
    ensures skipped { OnOk result
        (made.new.skipped.items ≡ made.old.skipped.items ++ flat_map (λ m. m.skipped.items) more.items) }
    ensures err { IfErr result IsMemory }
{
    for next in more {
        let Made {
            mut entries,
            mut skipped,
        } = next;
        made.entries.append(&mut entries)?;
        made.skipped.append(&mut skipped)?;
    }
    Ok(())
}

/// What was made of files so far, and the files that were read behind these: those of some jobs,
/// and behind them those of a job that may get more.
#[derive(Drop)]
struct Opening {
    made: Made,
    jobs: Vec<Few>,
    last: Vec<NamedFile>,
    /// How many bytes the files of the last job have.
    last_size: usize,
    /// How many files wait to be judged, and how many bytes they have.
    files: usize,
    size: usize,
}

impl Opening {
    /// Nothing so far.
    fn new(alloc: Global) -> Opening
        ensures { IsOpeningOf [] result }
    {
        Opening {
            made: Made {
                entries: Vec::new(alloc),
                skipped: Vec::new(alloc),
            },
            jobs: Vec::new(alloc),
            last: Vec::new(alloc),
            last_size: 0,
            files: 0,
            size: 0,
        }
    }

    /// The last job gets no more files.
    fn close(&mut self, alloc: Global) -> Result<(), Fault>
        ensures made { self.new.made ≡ self.old.made }
        ensures same { OnOk result (waiting_files self.new ≡ waiting_files self.old) }
        ensures none { OnOk result (self.new.last.items ≡ []) }
        ensures err { IfErr result IsMemory }
    {
        self.last_size = 0;
        if self.last.is_empty() {
            return Ok(());
        }
        let files = mem::replace(&mut self.last, Vec::new(alloc));
        self.jobs.push(Few { files })?;
        Ok(())
    }

    /// Judges the files that wait.
    ///
    /// Limit: there are more than 4,096 images.
    fn judge<R: Threads + Sync, G: Gate + Sync>(
        &mut self,
        rt: &R,
        alloc: Global,
        workers: usize,
        gate: &G,
    ) -> Result<(), Fault>
        requires some { 1 ≤ workers }
        requires most { workers ≤ 64 }
        ensures made { (given : List Stored) → IsOpeningOf given self.old → OnOk result (AreAllMade given self.new) }
        ensures full { (given : List Stored) → IsOpeningOf given self.old → result ≡ Err Limit → MakePast given }
        ensures few { OnOk result (length self.new.made.entries.items ≤ most_entries) }
        ensures err { IfErr result (λ e. IsMemory e ⊎ (e ≡ Limit)) }
    {
        self.close(alloc)?;
        let jobs = mem::replace(&mut self.jobs, Vec::new(alloc));
        self.files = 0;
        self.size = 0;
        let more = map_jobs::<Few, R, G>(rt, alloc, workers, gate, &jobs)?;
        gather(&mut self.made, more)?;
        if MOST_ENTRIES < self.made.entries.len() {
            return Err(Fault::Limit);
        }
        Ok(())
    }

    /// The last job gets no more files where it has no room for one of so many bytes.
    fn make_room(&mut self, alloc: Global, size: usize) -> Result<(), Fault>
        ensures made { self.new.made ≡ self.old.made }
        ensures same { OnOk result (waiting_files self.new ≡ waiting_files self.old) }
        ensures err { IfErr result IsMemory }
    {
        if JOB_FILES <= self.last.len() || JOB_SIZE < self.last_size.saturating_add(size) {
            return self.close(alloc);
        }
        Ok(())
    }

    /// Puts a file behind those that wait.
    fn wait(&mut self, alloc: Global, file: NamedFile) -> Result<(), Fault>
        ensures made { self.new.made ≡ self.old.made }
        ensures more { OnOk result (waiting_files self.new ≡ waiting_files self.old ++ stored_file file ∷ []) }
        ensures err { IfErr result IsMemory }
    {
        let size = file.bytes.len();
        self.make_room(alloc, size)?;
        self.last_size = self.last_size.saturating_add(size);
        self.files = self.files.saturating_add(1);
        self.size = self.size.saturating_add(size);
        self.last.push(file)?;
        Ok(())
    }

    /// Takes a file that was read, and judges those that wait where they are enough.
    ///
    /// Limit: there are more than 4,096 images.
    fn take<R: Threads + Sync, G: Gate + Sync>(
        &mut self,
        rt: &R,
        alloc: Global,
        workers: usize,
        gate: &G,
        file: NamedFile,
    ) -> Result<(), Fault>
        requires some { 1 ≤ workers }
        requires most { workers ≤ 64 }
        ensures taken { (given : List Stored) → IsOpeningOf given self.old
            → OnOk result (IsOpeningOf (given ++ stored_file file ∷ []) self.new) }
        ensures full { (given : List Stored) → IsOpeningOf given self.old
            → result ≡ Err Limit → MakePast (given ++ stored_file file ∷ []) }
        ensures err { IfErr result (λ e. IsMemory e ⊎ (e ≡ Limit)) }
    {
        self.wait(alloc, file)?;
        if are_enough(workers, self.files, self.size) {
            self.judge(rt, alloc, workers, gate)?;
        }
        Ok(())
    }
}

/// Reads the files of some names, in their order, and judges them by so many workers; one worker
/// judges each as it is read. Whatever it answers, the shelf keeps what it kept.
///
/// Limit: more than 4,096 of them would be listed.
fn read_images_with<S: Shelf, R: Threads + Sync, G: Gate + Sync>(
    rt: &R,
    alloc: Global,
    workers: usize,
    gate: &G,
    shelf: &mut S,
    names: &BTreeSet<String>,
) -> Result<Made, Fault>
    requires some { 1 ≤ workers }
    requires most { workers ≤ 64 }
    ensures opened { IfOk result (λ r. Opened (GivesFile S.keeps S.gave) (map string_bytes (keys names.now)) shelf.old
        (map arc_value r.entries.items) r.skipped.items shelf.new) }
    ensures ordered { IsStrictlySortedBy (slice_cmp nat_cmp) (map string_bytes (keys names.now)) }
    ensures few { IfOk result (λ r. length r.entries.items ≤ most_entries) }
    ensures full { result ≡ Err Limit → ReadsPast (GivesFile S.keeps S.gave) (map string_bytes (keys names.now)) shelf.old }
    ensures cause { IfErr result
        (λ e. e ≡ ShelfFault
        → ReadsUpTo (GivesFile S.keeps S.gave) S.unread (map string_bytes (keys names.now)) shelf.old) }
    ensures kept { (files : Files) → S.keeps shelf.old files → S.keeps shelf.new files }
    ensures counts { Passes (λ e. IsMemory e ⊎ (e ≡ Limit)) result (S.failed shelf.old) (S.failed shelf.new) }
{
    if workers == 1 {
        return read_images(alloc, shelf, names);
    }
    let mut opening = Opening::new(alloc);
    for name in names.iter() {
        let file = read_named(alloc, shelf, name.as_str())?;
        opening.take(rt, alloc, workers, gate, file)?;
    }
    opening.judge(rt, alloc, workers, gate)?;
    Ok(opening.made)
}

impl Images {
    /// Reads the images of a shelf as `Images::read` does, and has so many workers judge their files
    /// and make their digests side by side, as far as threads can be had. Whatever it answers, the
    /// shelf keeps what it kept.
    ///
    /// Files are read one after another, in the order of their names. With one worker they are
    /// judged as by `Images::read`. With more, one for each worker is held at least, and others
    /// while all have less than 2^25 bytes for each worker, up to 64 for each; then they are
    /// judged: a job is one of them, or up to four that have 2^23 bytes together at most, and of
    /// these the gate is told.
    ///
    /// BadParameters, before all else: less than one worker or more than 64. Otherwise as
    /// `Images::read`. Where a file can't be read, those that wait to be judged are given up.
    pub fn read_with<S: Shelf, R: Threads + Sync, G: Gate + Sync>(
        rt: &R,
        alloc: Global,
        workers: usize,
        gate: &G,
        shelf: &mut S,
    ) -> Result<Images, Fault>
        ensures range { (1 ≤ workers → workers ≤ 64 → ⊥) → result ≡ Err BadParameters }
        ensures opened { IfOk result
            (λ a. OpensAs S.lists S.gave shelf.old (map arc_value a.entries.items) a.skipped.items shelf.new) }
        // An image whose file the shelf keeps is listed.
        ensures found { (files : Files) (n b : List ℕ) (i : IndexFields) → S.keeps shelf.old files
            → is_good_name n ≡ true
            → files (file_name n) ≡ Some b → image_at b ≡ Ok i
            → IfOk result
            (λ a. (e : EntryFields) × (entry_of (map arc_value a.entries.items) n ≡ Some e)
            × StandsFor e (stored n b)) }
        ensures kept { (files : Files) → S.keeps shelf.old files → S.keeps shelf.new files }
        // The shelf keeps a file for each entry, for which the entry stands.
        ensures stands { (files : Files) → S.keeps shelf.old files
            → IfOk result
            (λ a. (all : Files) × S.keeps shelf.new all × AreIn files all
            × StandIn all (map arc_value a.entries.items)) }
        // The entries show images, whose names are segments of a path.
        ensures shows { IfOk result
            (λ a. (images : List Image) × ShowImages (map arc_value a.entries.items) images
            × All IsPathSegment (names_of images)) }
        // Of files that the shelf keeps, images whose files it keeps.
        ensures shown { (files : Files) → S.keeps shelf.old files
            → IfOk result
            (λ a. (images : List Image) × StandForImages S.keeps (map arc_value a.entries.items) shelf.new images
            × All IsPathSegment (names_of images)) }
        ensures err { 1 ≤ workers → workers ≤ 64
            → IfErr result
            (λ e. IsMemory e ⊎ ((e ≡ ShelfFault) × OpensUpTo S.lists S.unlisted S.gave S.unread shelf.old)
            ⊎ ((e ≡ Limit) × OpensPast S.lists S.gave shelf.old)) }
        ensures counts { 1 ≤ workers → workers ≤ 64
            → Passes (λ e. IsMemory e ⊎ (e ≡ Limit)) result (S.failed shelf.old) (S.failed shelf.new) }
    {
        if workers < 1 || 64 < workers {
            return Err(Fault::BadParameters);
        }
        let files = shelf.list(alloc)?;
        let names = names::names_in(alloc, &files)?;
        let made = read_images_with(rt, alloc, workers, gate, shelf, &names)?;
        Ok(Images {
            entries: made.entries,
            skipped: made.skipped,
        })
    }
}

impl<S: Shelf + Drop> Archive<S> {
    /// The archive of the images on a shelf, as `Images::read_with` reads them. Where it is refused
    /// the shelf is given up.
    pub fn open_with<R: Threads + Sync, G: Gate + Sync>(
        rt: &R,
        alloc: Global,
        workers: usize,
        gate: &G,
        shelf: S,
    ) -> Result<Archive<S>, Fault>
        ensures range { (1 ≤ workers → workers ≤ 64 → ⊥) → result ≡ Err BadParameters }
        ensures opened { IfOk result
            (λ a. OpensAs S.lists S.gave shelf (map arc_value a.entries.items) a.skipped.items a.shelf) }
        // An image whose file the shelf keeps is listed.
        ensures found { (files : Files) (n b : List ℕ) (i : IndexFields) → S.keeps shelf files → is_good_name n ≡ true
            → files (file_name n) ≡ Some b → image_at b ≡ Ok i
            → IfOk result
            (λ a. (e : EntryFields) × (entry_of (map arc_value a.entries.items) n ≡ Some e)
            × StandsFor e (stored n b)) }
        // The shelf keeps what it kept, and a file for each entry, for which the entry stands.
        ensures kept { (files : Files) → S.keeps shelf files → IfOk result (λ a. S.keeps a.shelf files) }
        ensures stands { (files : Files) → S.keeps shelf files
            → IfOk result
            (λ a. (all : Files) × S.keeps a.shelf all × AreIn files all
            × StandIn all (map arc_value a.entries.items)) }
        // A server shows its entries: they show images, whose names are segments of a path.
        ensures shows { IfOk result
            (λ a. (images : List Image) × ShowImages (map arc_value a.entries.items) images
            × All IsPathSegment (names_of images)) }
        // Of files that the shelf keeps, images whose files it keeps.
        ensures shown { (files : Files) → S.keeps shelf files
            → IfOk result
            (λ a. (images : List Image) × StandForImages S.keeps (map arc_value a.entries.items) a.shelf images
            × All IsPathSegment (names_of images)) }
        ensures err { 1 ≤ workers → workers ≤ 64
            → IfErr result
            (λ e. IsMemory e ⊎ ((e ≡ ShelfFault) × OpensUpTo S.lists S.unlisted S.gave S.unread shelf)
            ⊎ ((e ≡ Limit) × OpensPast S.lists S.gave shelf)) }
        ensures counts { IfOk result (λ a. S.failed a.shelf ≡ S.failed shelf) }
    {
        let mut shelf = shelf;
        let images = Images::read_with(rt, alloc, workers, gate, &mut shelf)?;
        Ok(Archive::with(shelf, images))
    }
}

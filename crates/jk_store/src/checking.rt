//! Checking the files of an archive.

ghost use Rattle.std.specs.Prelude.{◌≡◌, ◌⊎◌, ◌≤◌, ◌++◌, ◌∷◌, [], ℕ, List, true, map, length, Some, None, Ok, Err};
ghost use Rattle.std.specs.Prelude.{IfOk, IfErr, OnOk, All};
ghost use Rattle.std.specs.BTreeSet.{keys};
ghost use Rattle.std.specs.List.Sorted.{IsStrictlySortedBy};
ghost use Rattle.std.specs.Ordering.{nat_cmp};
ghost use Rattle.std.specs.Cmp.Lexicographic.{slice_cmp};
ghost use Rattle.std.specs.List.{AllZip};
ghost use Rattle.std.specs.String.{string_bytes};
ghost use Rattle.jk_math.specs.Answer.{Answers};
ghost use Rattle.jk_math.specs.Memory.{IsMemory};
ghost use Rattle.jk_math.specs.declared.fault.Fault.TheVariants.{BadParameters, Shelf as ShelfFault};
ghost use Rattle.jk_store.specs.Files.{Files};
ghost use Rattle.jk_store.specs.Names.{file_name, is_good_name};
ghost use Rattle.jk_store.specs.Checking.{check_at, IsImage, IsFindingOf, IsFoundOf, WasAsked, AskedInTurn, ChecksAs};
ghost use Rattle.jk_store.specs.Checking.{GivenFile, AreTaken, IsFindingFor, given_file, given_bytes, finding_of};
ghost use Rattle.jk_store.specs.declared.checked.Finding.{Finding as FindingShown};

use crate::batches::are_enough;
use crate::checked::{Checked, Finding};
use crate::names;
use crate::opening::image_index;
use crate::shelf::Shelf;
use jk_code::judge_file;
use jk_digest::sha256;
use jk_jobs::{Open, Work, map_jobs};
use jk_math::Fault;
use std::alloc::Global;
use std::collections::BTreeSet;
use std::mem;
use std::thread::Threads;

/// Judges the file of an image.
///
/// The first of these: as `image_index`; where code-blocks are judged, as `jk_code::judge_file`.
#[tactic(auto, unfolding(crate::specs::Checking::check_at))]
fn judge(alloc: Global, bytes: &[u8], blocks: bool) -> Result<(), Fault>
    ensures exact { Answers (λ u. u) result (check_at blocks bytes.now) }
    ensures found { OnOk result (IsImage blocks bytes.now) }
    ensures only { IsImage blocks bytes.now → IfErr result IsMemory }
{
    let _ = image_index(alloc, bytes)?;
    if blocks {
        judge_file(alloc, bytes, 0)?;
    }
    Ok(())
}

/// What is found of the bytes of a file.
fn finding(alloc: Global, bytes: &[u8], blocks: bool) -> Finding
    ensures { IsFindingOf blocks (Ok bytes.now) result }
{
    let digest = sha256(bytes);
    match judge(alloc, bytes, blocks) {
        Ok(()) => Finding::Whole(digest),
        Err(fault) => Finding::Broken(digest, fault),
    }
}

/// The file of an image as the shelf gave it, which is to be judged.
#[derive(Drop)]
struct FileRead {
    name: String,
    bytes: Result<Vec<u8>, Fault>,
    blocks: bool,
}

impl FileRead {
    /// How many bytes are to be judged.
    fn size(&self) -> usize {
        match &self.bytes {
            Ok(bytes) => bytes.len(),
            Err(_) => 0,
        }
    }

    /// What is found of it.
    fn judge(&self, alloc: Global) -> Finding
        ensures { IsFindingOf self.now.blocks (given_bytes self.now.bytes) result }
    {
        match &self.bytes {
            Ok(bytes) => finding(alloc, bytes, self.blocks),
            Err(fault) => Finding::Unread(*fault),
        }
    }
}

/// A file is judged.
impl Work for FileRead {
    ghost use Rattle.jk_store.specs.Checking.{IsJudged};

    type Job = FileRead;

    type Done = Checked;

    ghost accepts = { λ _. Unit {0} };

    ghost gives = { IsJudged };

    fn done(alloc: Global, job: &FileRead) -> Result<Checked, Fault> {
        let name = job.name.clone()?;
        Ok(Checked {
            name,
            finding: job.judge(alloc),
        })
    }
}

/// Reads the file of an image, or takes down why it can't be read.
fn read_file<S: Shelf>(
    alloc: Global,
    shelf: &mut S,
    name: &str,
    blocks: bool,
) -> Result<FileRead, Fault>
    ensures name { IfOk result (λ f. string_bytes f.name ≡ name.now) }
    ensures asked { IfOk result
        (λ f. WasAsked S.keeps S.gave S.unread shelf.old name.now (given_bytes f.bytes) shelf.new) }
    ensures judged { IfOk result (λ f. f.blocks ≡ blocks) }
    ensures err { IfErr result IsMemory }
    ensures kept { (files : Files) → S.keeps shelf.old files → S.keeps shelf.new files }
{
    let file = names::file_name(alloc, name)?;
    let name = String::from_str(alloc, name)?;
    let bytes = shelf.read(alloc, file.as_str());
    Ok(FileRead {
        name,
        bytes,
        blocks,
    })
}

/// What was found of files so far, and the files that were read behind these.
#[derive(Drop)]
struct Checking {
    found: Vec<Checked>,
    batch: Vec<FileRead>,
    size: usize,
}

impl Checking {
    /// Judges the files that were read.
    fn judge<R: Threads + Sync>(
        &mut self,
        rt: &R,
        alloc: Global,
        workers: usize,
    ) -> Result<(), Fault>
        requires some { 1 ≤ workers }
        requires most { workers ≤ 64 }
        ensures taken { (given : List GivenFile) (blocks : _) → AreTaken blocks given self.old
            → OnOk result (AllZip (IsFoundOf blocks) given self.new.found.items) }
        ensures none { OnOk result (self.new.batch.items ≡ []) }
        ensures err { IfErr result IsMemory }
    {
        let batch = mem::replace(&mut self.batch, Vec::new(alloc));
        self.size = 0;
        let mut more = map_jobs::<FileRead, R, Open>(rt, alloc, workers, &Open, &batch)?;
        self.found.append(&mut more)?;
        Ok(())
    }

    /// Whether so much was read that it is to be judged now.
    fn is_full(&self, workers: usize) -> bool {
        workers == 1 || are_enough(workers, self.batch.len(), self.size)
    }

    /// Takes a file that was read, and judges those that were where they are enough.
    fn take<R: Threads + Sync>(
        &mut self,
        rt: &R,
        alloc: Global,
        workers: usize,
        file: FileRead,
    ) -> Result<(), Fault>
        requires some { 1 ≤ workers }
        requires most { workers ≤ 64 }
        ensures taken { (given : List GivenFile) → AreTaken file.blocks given self.old
            → OnOk result (AreTaken file.blocks (given ++ given_file file ∷ []) self.new) }
        ensures err { IfErr result IsMemory }
    {
        self.size = self.size.saturating_add(file.size());
        self.batch.push(file)?;
        if self.is_full(workers) {
            self.judge(rt, alloc, workers)?;
        }
        Ok(())
    }
}

/// Checks the files of images, in the order of their names.
fn check_images<S: Shelf, R: Threads + Sync>(
    rt: &R,
    alloc: Global,
    workers: usize,
    shelf: &mut S,
    names: &BTreeSet<String>,
    blocks: bool,
) -> Result<Vec<Checked>, Fault>
    requires some { 1 ≤ workers }
    requires most { workers ≤ 64 }
    ensures checked { IfOk result (λ v. (given : List GivenFile)
        × AskedInTurn S.keeps S.gave S.unread (map string_bytes (keys names.now)) shelf.old given shelf.new
        × AllZip (IsFoundOf blocks) given v.items) }
    ensures ordered { IsStrictlySortedBy (slice_cmp nat_cmp) (map string_bytes (keys names.now)) }
    ensures err { IfErr result IsMemory }
    ensures kept { (files : Files) → S.keeps shelf.old files → S.keeps shelf.new files }
{
    let mut checking = Checking {
        found: Vec::new(alloc),
        batch: Vec::new(alloc),
        size: 0,
    };
    for name in names.iter() {
        let file = read_file(alloc, shelf, name.as_str(), blocks)?;
        checking.take(rt, alloc, workers, file)?;
    }
    checking.judge(rt, alloc, workers)?;
    Ok(checking.found)
}

/// Checks the files of the images on a shelf: each is read, its digest is made, and it is judged as
/// the file of an image, by its boxes, headers and packets, and where it is asked by its
/// code-blocks too. What is found of them stands in the order of their names. A file that can't be
/// read, or that isn't an image's, keeps no other from being checked.
///
/// So many workers judge files side by side, as far as threads can be had; files are read one after
/// another. With one worker one file is held at a time. With more, so many are, and others behind
/// them while all have less than 2^25 bytes for each worker, up to 64 for each.
///
/// BadParameters, before all else: less than one worker or more than 64. Shelf: the files can't be
/// listed.
pub fn check<S: Shelf, R: Threads + Sync>(
    rt: &R,
    alloc: Global,
    workers: usize,
    shelf: &mut S,
    blocks: bool,
) -> Result<Vec<Checked>, Fault>
    ensures range { (1 ≤ workers → workers ≤ 64 → ⊥) → result ≡ Err BadParameters }
    ensures checked { IfOk result
        (λ v. ChecksAs S.keeps S.gave S.unread S.lists blocks shelf.old v.items shelf.new) }
    // Of an image whose file the shelf keeps it is found what that file is.
    ensures found { (files : Files) (n b : List ℕ) → S.keeps shelf.old files → is_good_name n ≡ true
        → files (file_name n) ≡ Some b
        → IfOk result
        (λ v. (r : FindingShown) × (finding_of v.items n ≡ Some r) × IsFindingFor blocks b r) }
    ensures err { 1 ≤ workers → workers ≤ 64
        → IfErr result (λ e. IsMemory e ⊎ ((e ≡ ShelfFault) × S.unlisted shelf.old shelf.new)) }
    ensures kept { (files : Files) → S.keeps shelf.old files → S.keeps shelf.new files }
{
    if workers < 1 || 64 < workers {
        return Err(Fault::BadParameters);
    }
    let files = shelf.list(alloc)?;
    let names = names::names_in(alloc, &files)?;
    check_images(rt, alloc, workers, shelf, &names, blocks)
}

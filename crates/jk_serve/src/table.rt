//! An archive, and what is published of it, which change in one step.

ghost use Rattle.std.specs.Prelude.{◌≡◌, ◌++◌, ◌∷◌, [], length, map, OnOk, OnErr, IfOk, IfErr};
ghost use Rattle.std.specs.Arc.{arc_value};
ghost use Rattle.std.specs.String.{string_bytes};
ghost use Rattle.jk_math.specs.Memory.{IsMemory};
ghost use Rattle.jk_hall.specs.Writing.{list, waits};
ghost use Rattle.jk_store.specs.Catalogue.{is_listed};
ghost use Rattle.jk_serve.specs.Operating.{entries_of, IsAdded, IsRefused, Grows};
ghost use Rattle.jk_serve.specs.Tables.{AreWithin, AreListed, ListEach, IsListedBeside, IsPassedBeside};

use crate::desk::Keeper;
use crate::unlisted::Unlisted;
use jk_hall::Writer;
use jk_math::Fault;
use jk_store::{Archive, Entry, Prepared, Shelf};
use std::alloc::{AllocError, Global};
use std::sync::{Arc, Wait};

/// An archive and what is published of it, for the one thread that changes them: an image is listed
/// by both in one step. So what is published is listed by the archive, and nothing else gets its name.
pub(crate) struct Table<S> {
    archive: Archive<S>,
    writer: Writer,
    ghost within: { AreWithin (list writer ++ waits writer) (entries_of archive) },
}

/// The same entries again.
pub(crate) fn entries<S: Shelf>(
    alloc: Global,
    archive: &Archive<S>,
) -> Result<Vec<Arc<Entry>>, Fault>
    ensures { IfOk result (λ v. map arc_value v.items ≡ entries_of archive.now) }
{
    let mut entries = Vec::new(alloc);
    for entry in archive.list() {
        entries.push(Arc::try_clone(entry)?)?;
    }
    Ok(entries)
}

/// What became of images that were prepared: those that were listed, and those that weren't.
#[derive(Drop)]
struct Judged {
    entries: Vec<Arc<Entry>>,
    passed: Vec<Unlisted>,
}

/// Lists an image that is prepared, or says why it isn't listed: as `Archive::list_prepared` refuses
/// it. An `Err` changes nothing.
fn list_one<S: Shelf>(archive: &mut Archive<S>, image: Prepared) -> Result<Arc<Entry>, Unlisted>
    ensures ok { IfOk result (λ e. IsListedBeside (entries_of archive.old) image (arc_value e)) }
    ensures listed { IfOk result (λ e. entries_of archive.new ≡ entries_of archive.old ++ arc_value e ∷ []) }
    ensures passed { IfErr result (IsPassedBeside (entries_of archive.old) image) }
    ensures same { OnErr result (entries_of archive.new ≡ entries_of archive.old) }
{
    let images = archive.list().len();
    match archive.list_prepared(&image) {
        Ok(entry) => Ok(entry),
        Err(fault) => Err(Unlisted::new(image.into_name(), fault, images)),
    }
}

/// Lists images that are prepared in an archive, one after another, and passes over those that
/// `Archive::list_prepared` refuses. An `Err` changes nothing.
fn list_each<S: Shelf>(
    alloc: Global,
    archive: &mut Archive<S>,
    images: Vec<Prepared>,
) -> Result<Judged, AllocError>
    ensures each { IfOk result (λ j. ListEach (entries_of archive.old) images.items
        (map arc_value j.entries.items) j.passed.items) }
    ensures added { IfOk result
        (λ j. entries_of archive.new ≡ entries_of archive.old ++ map arc_value j.entries.items) }
    ensures err { OnErr result (entries_of archive.new ≡ entries_of archive.old) }
{
    let mut entries = Vec::with_capacity(alloc, images.len())?;
    let mut passed = Vec::with_capacity(alloc, images.len())?;
    for image in images {
        match list_one(archive, image) {
            Ok(entry) => entries.push_reserved(entry),
            Err(unlisted) => passed.push_reserved(unlisted),
        }
    }
    Ok(Judged { entries, passed })
}

impl<S: Shelf> Table<S> {
    /// An archive, and a writer that publishes its images.
    pub(crate) fn new(archive: Archive<S>, writer: Writer) -> Table<S>
        requires { AreWithin (list writer ++ waits writer) (entries_of archive) }
        ensures archive { result.archive ≡ archive }
        ensures writer { result.writer ≡ writer }
    {
        Table { archive, writer }
    }

    /// The writer, given back.
    pub(crate) fn into_writer(self) -> Writer
    where
        S: Drop,
        ensures { result ≡ self.writer }
    {
        let Table {
            archive: _archive,
            writer,
        } = self;
        writer
    }

    /// Lists images that are prepared, and whose files stand on the shelf already, and publishes
    /// them, all in one step. Those that are passed over, and why: as `Archive::list_prepared` refuses
    /// them.
    ///
    /// Memory: none is published, and those that were listed wait, or are listed at the next start.
    pub(crate) fn list_all<R: Wait>(
        &mut self,
        rt: &R,
        alloc: Global,
        images: Vec<Prepared>,
    ) -> Result<Vec<Unlisted>, Fault>
        ensures ok { IfOk result (λ passed. AreListed images.items passed.items self.old.archive self.new.archive
            self.old.writer self.new.writer) }
        ensures err { IfErr result IsMemory }
        ensures unpublished { OnErr result (list self.new.writer ≡ list self.old.writer) }
    {
        let judged = list_each(alloc, &mut self.archive, images)?;
        self.writer.publish_all(rt, judged.entries)?;
        Ok(judged.passed)
    }

    /// Adds an image that is prepared to the archive, and publishes it.
    ///
    /// The faults of `Archive::add_prepared`, and Memory where it can't be published: then it waits,
    /// or is listed at the next start.
    pub(crate) fn add<R: Wait>(
        &mut self,
        rt: &R,
        alloc: Global,
        prepared: Prepared,
    ) -> Result<(), Fault>
        ensures ok { OnOk result (IsAdded (string_bytes prepared.name) self.old.archive self.new.archive
            self.old.writer self.new.writer) }
        ensures err { OnErr result (IsRefused self.old.archive self.new.archive self.old.writer self.new.writer) }
        ensures grows { Grows self.old.archive self.new.archive self.old.writer self.new.writer }
    {
        let entry = self.archive.add_prepared(alloc, prepared)?;
        self.writer.publish(rt, entry)
    }

    /// Judges the name of an image that is to be added, by the files of the folder, as
    /// `Archive::judge_name` does; NameTaken also where its keeper found something else there.
    pub(crate) fn look<K: Keeper<S>>(
        &mut self,
        alloc: Global,
        keeper: &K,
        name: &str,
    ) -> Result<(), Fault>
        ensures same { entries_of self.new.archive ≡ entries_of self.old.archive }
        ensures writer { self.new.writer ≡ self.old.writer }
    {
        self.archive.judge_name(alloc, name)?;
        if keeper.has_other(self.archive.shelf(), name) {
            return Err(Fault::NameTaken);
        }
        Ok(())
    }

    /// Publishes what waits.
    pub(crate) fn settle<R: Wait>(&mut self, rt: &R) -> Result<(), Fault>
        ensures ok { OnOk result (waits self.new.writer ≡ []) }
        ensures err { IfErr result IsMemory }
        ensures archive { self.new.archive ≡ self.old.archive }
    {
        self.writer.settle(rt)
    }

    /// Whether an image of this name is listed.
    pub(crate) fn has(&self, name: &str) -> bool
        ensures { result ≡ is_listed (entries_of self.now.archive) name.now }
    {
        for entry in self.archive.list() {
            if entry.name.as_str() == name {
                return true;
            }
        }
        false
    }

    /// How many images are listed.
    pub(crate) fn len(&self) -> usize
        ensures { result ≡ length (entries_of self.now.archive) }
    {
        self.archive.list().len()
    }
}

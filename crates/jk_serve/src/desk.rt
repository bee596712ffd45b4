//! Adding images to an archive that is served.

ghost use Rattle.std.specs.Prelude.{◌≡◌, ◌++◌, ◌∷◌, [], OnOk, OnErr, IfOk};
ghost use Rattle.std.specs.Arc.{arc_value};
ghost use Rattle.std.specs.String.{string_bytes};
ghost use Rattle.jk_hall.specs.Writing.{hall_of};
ghost use Rattle.jk_serve.specs.Operating.{entries_of, IsAdded, IsRefused, Grows};

use jk_commands::{EncodeOptions, Plan, judge, read_image};
use jk_hall::Writer;
use jk_math::{Fault, Image};
use jk_store::{Archive, Encoded, Entry, Prepared, Shelf};
use std::alloc::Global;
use std::sync::{Arc, Wait};

/// Who keeps others from the folder of an archive while an image is added to it.
pub trait Keeper<S> {
    /// Takes the folder's lock alone, and waits for it. Shelf: another holds it, or it can't be had.
    fn lock(&mut self, alloc: Global) -> Result<(), Fault>;

    /// Takes the folder's lock alone, if no other holds it, and whether it is taken. Shelf: it can't be
    /// had.
    fn try_lock(&mut self, alloc: Global) -> Result<bool, Fault>;

    /// Tells that another holds the lock, and that it is waited for.
    fn tell_waiting(&self);

    /// Lets the lock go.
    fn release(&mut self);

    /// Whether the shelf's last listing found something under the name of an image that can't be
    /// opened as a file.
    fn has_other(&self, shelf: &S, name: &str) -> bool;
}

/// Where images are added: the archive, who keeps its folder, and what reads the files that are
/// added.
#[derive(Drop)]
pub struct Desk<S, K, P> {
    pub archive: Archive<S>,
    pub keeper: K,
    pub paths: P,
}

/// An image, encoded with the parameters that stand where none are given, and its entry.
pub(crate) fn prepare(
    alloc: Global,
    name: &str,
    image: Image,
    plan: Plan,
) -> Result<Prepared, Fault>
    ensures named { IfOk result (λ p. string_bytes p.name ≡ name.now) }
{
    let encoded = match plan.place(image) {
        Ok(placed) => Encoded::new(alloc, name, &placed.image, &placed.parameters)?,
        Err(fault) => Encoded::refused(alloc, name, fault)?,
    };
    Ok(Prepared::of(alloc, encoded))
}

impl<S: Shelf, K: Keeper<S>, P: Shelf> Desk<S, K, P> {
    /// Judges a name by the files of the folder, to which others may have added.
    fn look(&mut self, alloc: Global, name: &str) -> Result<(), Fault>
        ensures { entries_of self.new.archive ≡ entries_of self.old.archive }
    {
        self.archive.judge_name(alloc, name)?;
        if self.keeper.has_other(self.archive.shelf(), name) {
            return Err(Fault::NameTaken);
        }
        Ok(())
    }

    /// Adds an image to the archive while the lock is held.
    fn enter(&mut self, alloc: Global, prepared: Prepared) -> Result<Arc<Entry>, Fault>
        ensures ok { IfOk result (λ e. entries_of self.new.archive ≡ entries_of self.old.archive ++ arc_value e ∷ []) }
        ensures named { IfOk result (λ e. string_bytes (arc_value e).name ≡ string_bytes prepared.name) }
        ensures err { OnErr result (entries_of self.new.archive ≡ entries_of self.old.archive) }
    {
        self.look(alloc, prepared.name())?;
        self.archive.add_prepared(alloc, prepared)
    }

    /// Adds the image of a file to the archive under a name, with the parameters that stand where
    /// none are given, and publishes it. The image is encoded before the folder is locked, behind a
    /// first look at the name; what that passes is judged again while the lock is held.
    ///
    /// The first of these: Shelf where the file can't be read; BadPnm; what the first look refuses,
    /// as below; Shelf where the folder can't be locked or its names can't be listed; BadName;
    /// NameTaken, also by a file that isn't listed; Limit where there are 4,096 files of images; the
    /// faults of `Archive::add_prepared` and `Writer::publish`. An image that was added and couldn't
    /// be published for want of memory waits, or is listed at the next start.
    pub fn add<R: Wait>(
        &mut self,
        rt: &R,
        alloc: Global,
        writer: &mut Writer,
        name: &str,
        path: &str,
    ) -> Result<(), Fault>
        ensures ok { OnOk result (IsAdded name.now self.old.archive self.new.archive writer.old writer.new) }
        ensures err { OnErr result (IsRefused self.old.archive self.new.archive writer.old writer.new) }
        ensures grows { Grows self.old.archive self.new.archive writer.old writer.new }
    {
        let image = read_image(alloc, self.paths.read(alloc, path)?)?;
        let plan = judge(alloc, &EncodeOptions::new(alloc))?;
        self.look(alloc, name)?;
        let prepared = prepare(alloc, name, image, plan)?;
        self.keeper.lock(alloc)?;
        let entered = self.enter(alloc, prepared);
        self.keeper.release();
        writer.publish(rt, entered?)
    }
}

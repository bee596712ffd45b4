//! Who has an archive that is served while its files are opened.

ghost use Rattle.std.specs.Prelude.{OnOk, OnErr};
ghost use Rattle.std.specs.String.{string_bytes};
ghost use Rattle.jk_serve.specs.Operating.{IsAdded, IsRefused, Grows};

use crate::desk::Keeper;
use crate::post::{Outcome, Post, Request};
use crate::table::Table;
use jk_math::Fault;
use jk_store::{Prepared, Shelf};
use std::alloc::Global;
use std::sync::Wait;

/// Who has an archive with what is published of it, and keeps others from its folder: the one
/// thread that lists and publishes images.
pub(crate) struct Owner<S, K> {
    pub(crate) table: Table<S>,
    pub(crate) keeper: K,
}

impl<S: Shelf, K: Keeper<S>> Owner<S, K> {
    /// Adds an image while the folder is locked: its name is judged again, and it is stored, listed
    /// and published.
    fn enter<R: Wait>(&mut self, rt: &R, alloc: Global, prepared: Prepared) -> Result<(), Fault>
        ensures ok { OnOk result (IsAdded (string_bytes prepared.name) self.old.table.archive self.new.table.archive
            self.old.table.writer self.new.table.writer) }
        ensures err { OnErr result (IsRefused self.old.table.archive self.new.table.archive
            self.old.table.writer self.new.table.writer) }
        ensures grows { Grows self.old.table.archive self.new.table.archive
            self.old.table.writer self.new.table.writer }
    {
        self.table.look(alloc, &self.keeper, prepared.name())?;
        self.table.add(rt, alloc, prepared)
    }

    /// Adds an image that is prepared, and publishes it. The folder is locked, and isn't any longer
    /// then.
    fn add<R: Wait>(&mut self, rt: &R, alloc: Global, prepared: Prepared) -> Result<(), Fault>
        ensures ok { OnOk result (IsAdded (string_bytes prepared.name) self.old.table.archive self.new.table.archive
            self.old.table.writer self.new.table.writer) }
        ensures err { OnErr result (IsRefused self.old.table.archive self.new.table.archive
            self.old.table.writer self.new.table.writer) }
        ensures grows { Grows self.old.table.archive self.new.table.archive
            self.old.table.writer self.new.table.writer }
    {
        let entered = self.enter(rt, alloc, prepared);
        self.keeper.release();
        entered
    }

    /// Takes the folder's lock, unless another holds it.
    fn lock(&mut self, alloc: Global, is_first: bool) -> Result<Outcome, Fault> {
        if self.keeper.try_lock(alloc)? {
            return Ok(Outcome::Done);
        }
        if is_first {
            self.keeper.tell_waiting();
        }
        Ok(Outcome::Busy)
    }

    /// Does what the operator asks.
    pub(crate) fn follow<R: Wait>(
        &mut self,
        rt: &R,
        alloc: Global,
        request: Request,
    ) -> Result<Outcome, Fault> {
        match request {
            Request::Lock { is_first } => return self.lock(alloc, is_first),
            Request::Look(name) => self.table.look(alloc, &self.keeper, name.as_str())?,
            Request::Add(prepared) => self.add(rt, alloc, prepared)?,
            Request::Settle => self.table.settle(rt)?,
        }
        Ok(Outcome::Done)
    }

    /// Does what the operator asks, until the lines have ended.
    pub(crate) fn follow_all<R: Wait>(&mut self, rt: &R, alloc: Global, post: &Post) {
        for _ in rt.forever() {
            let Some(request) = post.next_request(rt) else {
                break;
            };
            let answer = self.follow(rt, alloc, request);
            post.answer(rt, answer);
        }
    }
}

//! Opening the files of an archive's folder while it is served.

use crate::desk::Keeper;
use crate::finder::Finder;
use crate::owner::Owner;
use crate::post::{Post, Turn};
use crate::table::Table;
use crate::unlisted::Unlisted;
use crate::waiting::{Next, Waiting};
use jk_files::Stamp;
use jk_math::Fault;
use jk_store::{Prepared, Shelf, Skipped};
use std::alloc::Global;
use std::collections::{BTreeMap, BTreeSet};
use std::mem;
use std::sync::Wait;
use std::time::{Clock, Duration, Instant};

/// How long a file that is opened may wait for others, with which it is published.
const GATHERING: u64 = 10;

/// What is to be opened while it is served.
#[derive(Drop)]
pub struct Opening<N> {
    /// What finds the files.
    pub finder: N,
    /// The names of the images whose files are to be opened first.
    pub names: Vec<String>,
    /// The names of images whose files were told not to be listed: they are opened where they have
    /// changed.
    pub passed: Vec<String>,
    /// After how many seconds each the folder is listed again, if it is.
    pub watch: Option<u32>,
}

/// A time since a moment; none where the clock can't be read.
fn since<R: Clock>(rt: &R, start: Option<Instant>) -> Duration {
    match start {
        Some(start) => start.elapsed(rt).unwrap_or(Duration::ZERO),
        None => Duration::ZERO,
    }
}

/// What is known of a file that isn't listed, which was told.
#[derive(Clone, Copy)]
struct Known {
    // How the file was when it was read.
    stamp: Option<Stamp>,
    // The fault for which it isn't listed.
    fault: Option<Fault>,
}

impl Known {
    /// Whether it may be listed without a change of the file: it couldn't be read, or memory was
    /// refused.
    fn may_pass(&self) -> bool {
        matches!(self.fault, Some(Fault::Shelf) | Some(Fault::Memory(_)))
    }

    /// Whether the same is known.
    fn is_as(&self, stamp: Option<Stamp>, fault: Fault) -> bool {
        self.stamp == stamp && self.fault == Some(fault)
    }
}

/// Who opens files: what is known of their names, and what was opened and isn't published yet.
#[derive(Drop)]
pub(crate) struct Opener<N> {
    alloc: Global,
    finder: N,
    watch: Option<Duration>,
    waiting: Waiting,
    // Those that are listed.
    done: BTreeSet<String>,
    // Those that aren't listed, which was told, and those that were opened.
    told: BTreeMap<String, Known>,
    // What was opened, and since when it waits to be published.
    ready: Vec<Prepared>,
    gathered: Option<Instant>,
    // When the folder was listed last.
    listed: Option<Instant>,
    // Whether it was told that the folder can't be listed.
    is_unlisted: bool,
    // Whether there are as many images as may be.
    is_full: bool,
    // Whether it was told that all files are opened.
    is_opened: bool,
    // The first fault for which the status at the end isn't 0.
    fault: Option<Fault>,
}

impl<N: Finder + Drop> Opener<N> {
    /// Who opens these files.
    pub(crate) fn new<R: Clock>(
        rt: &R,
        alloc: Global,
        opening: Opening<N>,
    ) -> Result<Opener<N>, Fault> {
        let Opening {
            mut finder,
            names,
            passed,
            watch,
        } = opening;
        let mut waiting = Waiting::none(alloc);
        for name in names {
            waiting.add(name)?;
        }
        let fault = if passed.is_empty() {
            None
        } else {
            Some(Fault::Shelf)
        };
        let mut told = BTreeMap::new(alloc);
        for name in passed {
            let stamp = finder.stamp(alloc, name.as_str());
            let fault = Some(Fault::Shelf);
            told.insert(name, Known { stamp, fault })?;
        }
        Ok(Opener {
            alloc,
            finder,
            watch: watch.map(|seconds| Duration::from_secs(seconds as u64)),
            waiting,
            done: BTreeSet::new(alloc),
            told,
            ready: Vec::new(alloc),
            gathered: None,
            listed: Instant::now(rt).ok(),
            is_unlisted: false,
            is_full: false,
            is_opened: false,
            fault,
        })
    }

    /// Opens the files that wait, and lists and publishes them; those that were asked for are next.
    /// Between two files what the operator asks is done. Where the folder is watched, it is listed
    /// again and again, and it goes on until serving has ended; else until none waits.
    ///
    /// Memory: the names can't be held. Else the first of these that was told: Shelf for what can't be
    /// opened as a file, or for a file that can't be read, Limit for one that is listed by no more than
    /// 4,096, Memory for one.
    pub(crate) fn run<R: Wait + Clock, S: Shelf, K: Keeper<S>>(
        &mut self,
        rt: &R,
        owner: &mut Owner<S, K>,
        post: &Post,
    ) -> Result<(), Fault> {
        for _ in rt.forever() {
            let Turn {
                names,
                request,
                is_served,
            } = post.turn(rt);
            if let Some(request) = request {
                let answer = owner.follow(rt, self.alloc, request);
                post.answer(rt, answer);
            }
            if is_served {
                break;
            }
            self.list_again(rt)?;
            self.waiting.ask(names)?;
            match self.waiting.next() {
                Some(next) => self.open(rt, &mut owner.table, next)?,
                None => {
                    self.publish(rt, &mut owner.table)?;
                    self.tell_opened(&owner.table);
                    let Some(watch) = self.watch else {
                        break;
                    };
                    post.pause(rt, watch.saturating_sub(since(rt, self.listed)));
                }
            }
        }
        self.publish(rt, &mut owner.table)?;
        match self.fault {
            Some(fault) => Err(fault),
            None => Ok(()),
        }
    }

    /// Tells once that none waits any longer.
    fn tell_opened<S: Shelf>(&mut self, table: &Table<S>) {
        if self.is_opened {
            return;
        }
        self.finder.tell_opened(table.len());
        self.is_opened = true;
    }

    /// Keeps the first fault.
    fn fail(&mut self, fault: Fault) {
        if self.fault.is_none() {
            self.fault = Some(fault);
        }
    }

    /// What is known of a file.
    fn known(&self, name: &str) -> Option<Known> {
        match self.told.get(name) {
            Some(known) => Some(*known),
            None => None,
        }
    }

    /// Keeps why a file isn't listed, and how it was. It is told, unless the same was told before.
    fn refuse(&mut self, name: String, stamp: Option<Stamp>, fault: Fault) -> Result<(), Fault> {
        let is_told = match self.known(name.as_str()) {
            Some(known) => known.is_as(stamp, fault),
            None => false,
        };
        if !is_told {
            self.finder.tell(name.as_str(), fault);
            if matches!(fault, Fault::Shelf | Fault::Memory(_)) {
                self.fail(fault);
            }
        }
        let fault = Some(fault);
        self.told.insert(name, Known { stamp, fault })?;
        Ok(())
    }

    /// Keeps how a file was that was opened.
    fn note(&mut self, name: String, stamp: Option<Stamp>) -> Result<(), Fault> {
        let fault = match self.known(name.as_str()) {
            Some(known) if known.stamp == stamp => known.fault,
            _ => None,
        };
        self.told.insert(name, Known { stamp, fault })?;
        Ok(())
    }

    /// Reads a file and judges it. It is published with others, or now if it was asked for.
    fn open<R: Wait + Clock, S: Shelf>(
        &mut self,
        rt: &R,
        table: &mut Table<S>,
        next: Next,
    ) -> Result<(), Fault> {
        let Next { name, is_asked } = next;
        if table.has(name.as_str()) {
            self.done.insert(name)?;
            return Ok(());
        }
        let stamp = self.finder.stamp(self.alloc, name.as_str());
        match self.finder.read(self.alloc, name.as_str()) {
            Ok(prepared) => {
                if self.ready.is_empty() {
                    self.gathered = Instant::now(rt).ok();
                }
                self.ready.push(prepared)?;
                self.note(name, stamp)?;
            }
            Err(fault) => self.refuse(name, stamp, fault)?,
        }
        if is_asked || Duration::from_millis(GATHERING) <= since(rt, self.gathered) {
            return self.publish(rt, table);
        }
        Ok(())
    }

    /// Lists and publishes what was opened.
    fn publish<R: Wait, S: Shelf>(&mut self, rt: &R, table: &mut Table<S>) -> Result<(), Fault> {
        if self.ready.is_empty() {
            return Ok(());
        }
        let ready = mem::replace(&mut self.ready, Vec::new(self.alloc));
        for image in &ready {
            self.done
                .insert(String::from_str(self.alloc, image.name())?)?;
        }
        let passed = table.list_all(rt, self.alloc, ready)?;
        self.pass_over(passed)
    }

    /// Tells why a file that was opened isn't listed, unless an image of its name was added meanwhile.
    fn pass(&mut self, file: Skipped) -> Result<(), Fault> {
        let Skipped { name, fault } = file;
        if matches!(fault, Fault::NameTaken) {
            return Ok(());
        }
        self.done.remove(name.as_str());
        let stamp = match self.known(name.as_str()) {
            Some(known) => known.stamp,
            None => None,
        };
        self.refuse(name, stamp, fault)
    }

    /// Tells which files weren't listed.
    fn pass_over(&mut self, passed: Vec<Unlisted>) -> Result<(), Fault> {
        let mut beyond = Vec::new(self.alloc);
        for unlisted in passed {
            match unlisted {
                Unlisted::Beyond(name) => beyond.push(name)?,
                Unlisted::Refused(file) => self.pass(file)?,
            }
        }
        if let Some(name) = beyond.first() {
            self.tell_full(name.as_str(), beyond.len());
        }
        Ok(())
    }

    /// Tells that so many files that were opened, of which one has this name, and those that wait
    /// aren't listed.
    fn tell_full(&mut self, name: &str, count: usize) {
        let more = count.saturating_sub(1).saturating_add(self.waiting.len());
        self.finder.tell_full(name, more);
        self.fail(Fault::Limit);
        self.waiting.clear();
        self.is_full = true;
    }

    /// Lists the folder again, if it is watched and it is time for that.
    fn list_again<R: Clock>(&mut self, rt: &R) -> Result<(), Fault> {
        let Some(watch) = self.watch else {
            return Ok(());
        };
        if self.is_full || since(rt, self.listed) < watch {
            return Ok(());
        }
        self.listed = Instant::now(rt).ok();
        match self.finder.names(self.alloc) {
            Ok(names) => {
                self.is_unlisted = false;
                self.look_at(names)
            }
            Err(fault) => {
                if !self.is_unlisted {
                    self.finder.tell_unlisted(fault);
                }
                self.is_unlisted = true;
                Ok(())
            }
        }
    }

    /// Lets a name wait, if it isn't known why its file isn't listed, if the file has changed, or if
    /// the fault may have passed. What is still known of it.
    fn look_again(&mut self, name: &str) -> Result<Option<Known>, Fault> {
        let known = self.known(name);
        let left = match known {
            Some(known) if self.finder.stamp(self.alloc, name) == known.stamp => Some(known),
            _ => None,
        };
        let is_settled = match left {
            Some(known) => !known.may_pass(),
            None => false,
        };
        if !is_settled {
            self.waiting.add(String::from_str(self.alloc, name)?)?;
        }
        Ok(left)
    }

    /// Looks at the files of these names but those that are listed. Of those that are gone nothing is
    /// known any more.
    fn look_at(&mut self, names: Vec<String>) -> Result<(), Fault> {
        let mut told = BTreeMap::new(self.alloc);
        for name in names {
            if self.done.contains(name.as_str()) {
                continue;
            }
            if let Some(known) = self.look_again(name.as_str())? {
                told.insert(name, known)?;
            }
        }
        self.told = told;
        Ok(())
    }
}

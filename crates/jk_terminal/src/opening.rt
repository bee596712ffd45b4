//! How far the opening of an archive is, told while its files are read.

ghost use Rattle.std.specs.Prelude.{◌≡◌};

use crate::line::{BLANK, FIRST, PAUSE};
use jk_math::Fault;
use jk_store::Shelf;
use std::alloc::Global;
use std::time::{Clock, Instant};

/// A shelf of which it can be told how many of its files were read.
#[derive(Drop)]
pub struct Watched<S, R> {
    shelf: S,
    rt: R,
    /// How many files the last listing has.
    files: usize,
    /// How many of them were read.
    read: usize,
    /// When the telling began; none where nothing is told.
    begun: Option<Instant>,
    /// After how many milliseconds from then on the next line is due.
    due: u64,
    /// Whether a line stands there.
    is_told: bool,
}

impl<S, R> Watched<S, R> {
    /// A shelf of which nothing is told yet.
    pub fn new(shelf: S, rt: R) -> Watched<S, R> {
        Watched {
            shelf,
            rt,
            files: 0,
            read: 0,
            begun: None,
            due: FIRST,
            is_told: false,
        }
    }

    /// The shelf.
    pub fn shelf(&self) -> &S {
        &self.shelf
    }
}

impl<S, R: Eprint + Clock> Watched<S, R> {
    /// Tells from now on how many files were read.
    pub fn begin(&mut self) {
        self.begun = Instant::now(&self.rt).ok();
        self.due = FIRST;
    }

    /// Tells no more, and takes away the line.
    pub fn end(&mut self) {
        self.begun = None;
        if self.is_told {
            let _ = eprint!(&self.rt; "\r{BLANK}\r");
            self.is_told = false;
        }
    }

    /// How many milliseconds have passed since the telling began, if it is told.
    fn passed(&self) -> Option<u64> {
        let passed = self.begun?.elapsed(&self.rt).ok()?;
        u64::try_from(passed.as_millis()).ok()
    }

    /// How many seconds the files that are left may take, if they take as long as those that were
    /// read.
    fn left(&self, passed: u64) -> u64 {
        let (read, files) = (self.read as u64, self.files as u64);
        let left = files.saturating_sub(read);
        passed.saturating_mul(left) / read.max(1) / 1000
    }

    /// Tells in the place of the last line how many files were read, if it is time for that. The
    /// shelf stays as it is.
    fn tell(&mut self)
        ensures { self.new.shelf ≡ self.old.shelf }
    {
        let Some(passed) = self.passed() else {
            return;
        };
        if self.due <= passed {
            let left = self.left(passed);
            let _ = eprint!(&self.rt;
                "\rjk: read {} of {} files, some {left} s left ",
                self.read, self.files
            );
            self.due = passed.saturating_add(PAUSE);
            self.is_told = true;
        }
    }
}

// What the shelf keeps, gives and counts is what the shelf within does.
impl<S: Shelf, R: Eprint + Clock> Shelf for Watched<S, R> {
    ghost keeps = { λ w files. S.keeps w.shelf files };

    ghost gave = { λ w name bytes v. S.gave w.shelf name bytes v.shelf };

    ghost gave_at = { λ w name start most bytes v. S.gave_at w.shelf name start most bytes v.shelf };

    ghost lists = { λ w names v. S.lists w.shelf names v.shelf };

    ghost unlisted = { λ w v. S.unlisted w.shelf v.shelf };

    ghost unread = { λ w name v. S.unread w.shelf name v.shelf };

    ghost unwritten = { λ w name v. S.unwritten w.shelf name v.shelf };

    ghost unrenamed = { λ w from to v. S.unrenamed w.shelf from to v.shelf };

    ghost unplaced = { λ w from to v. S.unplaced w.shelf from to v.shelf };

    ghost taken = { λ w name v. S.taken w.shelf name v.shelf };

    ghost failed = { λ w. S.failed w.shelf };

    fn list(&mut self, alloc: Global) -> Result<Vec<String>, Fault> {
        let listed = self.shelf.list(alloc);
        if let Ok(names) = &listed {
            self.files = names.len();
            self.read = 0;
        }
        listed
    }

    fn read(&mut self, alloc: Global, name: &str) -> Result<Vec<u8>, Fault> {
        let read = self.shelf.read(alloc, name);
        self.read = self.read.saturating_add(1);
        self.tell();
        read
    }

    fn read_at(
        &mut self,
        alloc: Global,
        name: &str,
        start: u64,
        most: usize,
    ) -> Result<Vec<u8>, Fault> {
        self.shelf.read_at(alloc, name, start, most)
    }

    fn write(&mut self, alloc: Global, name: &str, bytes: &[u8]) -> Result<(), Fault> {
        self.shelf.write(alloc, name, bytes)
    }

    fn rename(&mut self, alloc: Global, from: &str, to: &str) -> Result<(), Fault> {
        self.shelf.rename(alloc, from, to)
    }

    fn place(&mut self, alloc: Global, from: &str, to: &str) -> Result<bool, Fault> {
        self.shelf.place(alloc, from, to)
    }

    fn failures(&self) -> u64 {
        self.shelf.failures()
    }
}

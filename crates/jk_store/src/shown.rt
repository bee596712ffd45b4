//! Entries and a shelf, which are borrowed, as a server shows them.

use crate::archive::find;
use crate::entry::Entry;
use crate::hashed::HashedParts;
use crate::shelf::Shelf;
use crate::showing::{lines_of, whole_of, window_of};
use jk_catalogue::Catalogue;
use jk_math::Fault;
use jk_window::View;
use std::alloc::Global;
use std::sync::Arc;

/// Entries, and the shelf that has their files. The older form of `ShownWithParts`, which keeps no
/// part that was hashed; no crate shows entries by it.
#[derive(Drop)]
pub struct ShownEntries<'a, S> {
    pub entries: &'a [Arc<Entry>],
    pub shelf: &'a mut S,
}

// Each entry is shown as the file of which it was made.
impl<'a, S: Shelf> Catalogue for ShownEntries<'a, S> {
    ghost use Rattle.std.specs.Prelude.{map};
    ghost use Rattle.std.specs.Arc.{arc_value};
    ghost use Rattle.jk_store.specs.Showing.{ShowImages, AreKept, Broke, ReadsFile, Cuts, MayBeMade};
    ghost use Rattle.jk_store.specs.ShownSteps.{Steps, stays_here};

    ghost stands = { λ a images. ShowImages (map arc_value a.entries.now) images };

    ghost keeps = { λ a images. AreKept S.keeps a.shelf.now images };

    ghost broke = { λ a n b. Broke S.failed S.gave S.gave_at (map arc_value a.entries.now) a.shelf.now n b.shelf.now };

    ghost reads = { λ a n file b. ReadsFile S.gave (map arc_value a.entries.now) a.shelf.now n file b.shelf.now };

    ghost cuts = { λ a n asked b cut. Cuts S.gave_at (map arc_value a.entries.now) a.shelf.now n asked b.shelf.now cut };

    ghost made = { λ a. MayBeMade (map arc_value a.entries.now) };

    ghost steps = { Steps S.keeps };

    fn lines(&self, alloc: Global) -> Result<Vec<u8>, Fault> {
        lines_of(alloc, self.entries)
    }

    fn has(&self, name: &[u8]) -> bool {
        find(self.entries, name).is_some()
    }

    fn whole(&mut self, alloc: Global, name: &[u8]) -> Result<Vec<u8>, Fault> {
        whole_of(alloc, self.entries, self.shelf, name)
    }

    fn window(&mut self, alloc: Global, name: &[u8], asked: View) -> Result<Vec<u8>, Fault> {
        let mut hashed = HashedParts::none(alloc);
        window_of(alloc, self.entries, self.shelf, &mut hashed, name, asked)
    }

    ghost stays = { stays_here S.keeps };
}

/// Entries, the shelf that has their files, and parts of them that were read before: of those the
/// digests aren't made again.
#[derive(Drop)]
pub struct ShownWithParts<'a, S> {
    pub entries: &'a [Arc<Entry>],
    pub shelf: &'a mut S,
    pub hashed: &'a mut HashedParts,
}

// Each entry is shown as the file of which it was made.
impl<'a, S: Shelf> Catalogue for ShownWithParts<'a, S> {
    ghost use Rattle.std.specs.Prelude.{map};
    ghost use Rattle.std.specs.Arc.{arc_value};
    ghost use Rattle.jk_store.specs.Showing.{ShowImages, AreKept, Broke, ReadsFile, Cuts, MayBeMade};
    ghost use Rattle.jk_store.specs.PartsSteps.{Steps, stays_here};

    ghost stands = { λ a images. ShowImages (map arc_value a.entries.now) images };

    ghost keeps = { λ a images. AreKept S.keeps a.shelf.now images };

    ghost broke = { λ a n b. Broke S.failed S.gave S.gave_at (map arc_value a.entries.now) a.shelf.now n b.shelf.now };

    ghost reads = { λ a n file b. ReadsFile S.gave (map arc_value a.entries.now) a.shelf.now n file b.shelf.now };

    ghost cuts = { λ a n asked b cut. Cuts S.gave_at (map arc_value a.entries.now) a.shelf.now n asked b.shelf.now cut };

    ghost made = { λ a. MayBeMade (map arc_value a.entries.now) };

    ghost steps = { Steps S.keeps };

    fn lines(&self, alloc: Global) -> Result<Vec<u8>, Fault> {
        lines_of(alloc, self.entries)
    }

    fn has(&self, name: &[u8]) -> bool {
        find(self.entries, name).is_some()
    }

    fn whole(&mut self, alloc: Global, name: &[u8]) -> Result<Vec<u8>, Fault> {
        whole_of(alloc, self.entries, self.shelf, name)
    }

    fn window(&mut self, alloc: Global, name: &[u8], asked: View) -> Result<Vec<u8>, Fault> {
        window_of(alloc, self.entries, self.shelf, self.hashed, name, asked)
    }

    ghost stays = { stays_here S.keeps };
}

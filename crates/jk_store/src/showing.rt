//! The images of an archive as a server shows them.

ghost use Rattle.std.specs.Prelude.{◌≡◌, ◌++◌, List, map, is_some, OnOk, IfOk, IfErr, MatchResult};
ghost use Rattle.std.specs.List.{flat_map};
ghost use Rattle.std.specs.Arc.{arc_value};
ghost use Rattle.jk_math.specs.Memory.{IsMemory};
ghost use Rattle.jk_catalogue.specs.Images.{Image, image_of, IsImageFile, IsCutOf, IsFileGiven, IsCutGiven, HasNoCut, MayRefuse};
ghost use Rattle.jk_store.specs.Showing.{line_of, number_text, ShowImages, AreKept, Broke, ReadsFile, Cuts};
ghost use Rattle.jk_store.specs.Showing.{MayBeMade};
ghost use Rattle.jk_store.specs.Files.{Files};

use crate::archive::{Archive, find};
use crate::entry::Entry;
use crate::hashed::HashedParts;
use crate::shelf::Shelf;
use jk_catalogue::Catalogue;
use jk_math::Fault;
use jk_window::View;
use std::alloc::{AllocError, Global};
use std::sync::Arc;

/// Appends a space and a number.
fn put_number(alloc: Global, out: &mut Vec<u8>, number: u32) -> Result<(), AllocError>
    ensures { OnOk result (out.new.items ≡ out.old.items ++ number_text number) }
{
    out.push(b' ')?;
    out.extend_from_slice(number.to_string(alloc)?.as_bytes())?;
    Ok(())
}

/// Appends the line of an image: its name, its width, height, components, depth and levels.
fn put_line(alloc: Global, out: &mut Vec<u8>, entry: &Entry) -> Result<(), AllocError>
    ensures { OnOk result (out.new.items ≡ out.old.items ++ line_of entry.now) }
{
    let index = &entry.index;
    out.extend_from_slice(entry.name.as_bytes())?;
    put_number(alloc, out, index.width())?;
    put_number(alloc, out, index.height())?;
    put_number(alloc, out, index.components() as u32)?;
    put_number(alloc, out, index.depth() as u32)?;
    put_number(alloc, out, index.levels() as u32)?;
    out.push(b'\n')?;
    Ok(())
}

/// The lines of images.
pub(crate) fn lines_of(alloc: Global, entries: &[Arc<Entry>]) -> Result<Vec<u8>, Fault>
    ensures lines { IfOk result (λ v. v.items ≡ flat_map line_of (map arc_value entries.now)) }
    ensures memory { IfErr result (λ e. IsMemory e) }
{
    let mut out = Vec::new(alloc);
    for entry in entries {
        put_line(alloc, &mut out, entry)?;
    }
    Ok(out)
}

/// The file of the image of a name.
pub(crate) fn whole_of<S: Shelf>(
    alloc: Global,
    entries: &[Arc<Entry>],
    shelf: &mut S,
    name: &[u8],
) -> Result<Vec<u8>, Fault>
    ensures gives { (images : List Image) → ShowImages (map arc_value entries.now) images → MatchResult result
        (λ v. IsFileGiven (image_of name.now images)
        (ReadsFile S.gave (map arc_value entries.now)) shelf.old name.now shelf.new v.items)
        (λ e. MayRefuse (image_of name.now images)
        (Broke S.failed S.gave S.gave_at (map arc_value entries.now) shelf.old name.now shelf.new) ⊥ e) }
    ensures same { (images : List Image) → ShowImages (map arc_value entries.now) images
        → AreKept S.keeps shelf.old images
        → IfOk result (λ v. IsImageFile (image_of name.now images) v.items) }
    ensures keeps { (images : List Image) → AreKept S.keeps shelf.old images → AreKept S.keeps shelf.new images }
    ensures kept { (files : Files) → S.keeps shelf.old files → S.keeps shelf.new files }
{
    match find(entries, name) {
        Some(entry) => entry.whole(alloc, shelf),
        None => Err(Fault::NoSuchImage),
    }
}

/// The file of a window of the image of a name.
pub(crate) fn window_of<S: Shelf>(
    alloc: Global,
    entries: &[Arc<Entry>],
    shelf: &mut S,
    hashed: &mut HashedParts,
    name: &[u8],
    asked: View,
) -> Result<Vec<u8>, Fault>
    ensures gives { (images : List Image) → ShowImages (map arc_value entries.now) images → MatchResult result
        (λ v. IsCutGiven (image_of name.now images) asked
        (Cuts S.gave_at (map arc_value entries.now)) shelf.old name.now shelf.new v.items)
        (λ e. MayRefuse (image_of name.now images)
        (Broke S.failed S.gave S.gave_at (map arc_value entries.now) shelf.old name.now shelf.new)
        (HasNoCut (image_of name.now images) asked) e) }
    ensures same { (images : List Image) → ShowImages (map arc_value entries.now) images
        → AreKept S.keeps shelf.old images
        → IfOk result (λ v. IsCutOf (image_of name.now images) asked v.items) }
    ensures made { IfOk result (λ v. MayBeMade (map arc_value entries.now) name.now asked v.items) }
    ensures keeps { (images : List Image) → AreKept S.keeps shelf.old images → AreKept S.keeps shelf.new images }
    ensures kept { (files : Files) → S.keeps shelf.old files → S.keeps shelf.new files }
{
    match find(entries, name) {
        Some(entry) => entry.window_by_parts_with(alloc, shelf, hashed, asked),
        None => Err(Fault::NoSuchImage),
    }
}

// Each entry is shown as the file of which it was made.
impl<S: Shelf> Catalogue for Archive<S> {
    ghost use Rattle.std.specs.Prelude.{map};
    ghost use Rattle.std.specs.Arc.{arc_value};
    ghost use Rattle.jk_store.specs.Showing.{ShowImages, AreKept, Broke, ReadsFile, Cuts, MayBeMade};

    ghost stands = { λ a images. ShowImages (map arc_value a.entries.items) images };

    ghost keeps = { λ a images. AreKept S.keeps a.shelf images };

    ghost broke = { λ a n b. Broke S.failed S.gave S.gave_at (map arc_value a.entries.items) a.shelf n b.shelf };

    ghost reads = { λ a n file b. ReadsFile S.gave (map arc_value a.entries.items) a.shelf n file b.shelf };

    ghost cuts = { λ a n asked b cut. Cuts S.gave_at (map arc_value a.entries.items) a.shelf n asked b.shelf cut };

    ghost made = { λ a. MayBeMade (map arc_value a.entries.items) };

    ghost steps = { λ a b. Unit {0} };

    fn lines(&self, alloc: Global) -> Result<Vec<u8>, Fault> {
        lines_of(alloc, &self.entries)
    }

    fn has(&self, name: &[u8]) -> bool {
        find(&self.entries, name).is_some()
    }

    fn whole(&mut self, alloc: Global, name: &[u8]) -> Result<Vec<u8>, Fault> {
        whole_of(alloc, &self.entries, &mut self.shelf, name)
    }

    fn window(&mut self, alloc: Global, name: &[u8], asked: View) -> Result<Vec<u8>, Fault> {
        let hashed = &mut self.hashed;
        window_of(alloc, &self.entries, &mut self.shelf, hashed, name, asked)
    }

    ghost stays = { λ a. tt };
}

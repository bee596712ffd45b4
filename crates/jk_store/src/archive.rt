//! An archive of images on a shelf.

ghost use Rattle.std.specs.Prelude.{◌≡◌, ◌≤◌, ◌⊎◌, ℕ, List, true, map, length, Option, Some, None, Ok, Err, IfOk, OnOk};
ghost use Rattle.std.specs.Prelude.{IsSome};
ghost use Rattle.std.specs.Option.{option_map};
ghost use Rattle.std.specs.String.{string_bytes};
ghost use Rattle.std.specs.Arc.{arc_value};
ghost use Rattle.jk_math.specs.Memory.{IsMemory};
ghost use Rattle.jk_math.specs.declared.fault.Fault.TheVariants.{BadWindow, Changed, NoSuchImage};
ghost use Rattle.jk_window.specs.Views.{HasWindow};
ghost use Rattle.jk_window.specs.Indexing.{IsIndexOf};
ghost use Rattle.jk_window.specs.Cutting.{cut_file};
ghost use Rattle.jk_store.specs.Files.{Files};
ghost use Rattle.jk_store.specs.Names.{file_name};
ghost use Rattle.jk_store.specs.Catalogue.{entry_of, are_named, most_entries, IsFileOf, IsOtherFile, IsCutFrom};
ghost use Rattle.jk_store.specs.Catalogue.{IsWindowGiven, WasForeign, Passes};
ghost use Rattle.jk_store.specs.declared.entry.Entry.{Entry as EntryFields};

use crate::entry::Entry;
use crate::hashed::HashedParts;
use crate::shelf::Shelf;
use crate::skipped::Skipped;
use jk_math::Fault;
use jk_window::View;
use std::alloc::Global;
use std::sync::Arc;

/// The images of a shelf.
#[derive(Drop)]
pub struct Archive<S> {
    pub(crate) shelf: S,
    pub(crate) entries: Vec<Arc<Entry>>,
    pub(crate) skipped: Vec<Skipped>,
    // Parts that were read, so that they needn't be hashed again.
    pub(crate) hashed: HashedParts,
    // Names are good, and none stands twice.
    ghost named: { are_named (map arc_value entries.items) ≡ true },
    ghost few: { length entries.items ≤ most_entries },
}

/// The entry of a name.
pub(crate) fn find<'a>(entries: &'a [Arc<Entry>], name: &[u8]) -> Option<&'a Arc<Entry>>
    ensures { option_map (λ e. arc_value e.now) result ≡ entry_of (map arc_value entries.now) name.now }
{
    for entry in entries {
        if entry.name.as_bytes() == name {
            return Some(entry);
        }
    }
    None
}

/// The same by the text of a name.
fn find_named<'a>(entries: &'a [Arc<Entry>], name: &str) -> Option<&'a Arc<Entry>>
    ensures { option_map (λ e. arc_value e.now) result ≡ entry_of (map arc_value entries.now) name.now }
{
    find(entries, name.as_bytes())
}

impl<S: Shelf> Archive<S> {
    /// The images, in the order in which they were added.
    pub fn list(&self) -> &[Arc<Entry>]
        ensures { result.now ≡ self.now.entries.items }
    {
        &self.entries
    }

    /// The files that aren't listed, and why.
    pub fn skipped(&self) -> &[Skipped]
        ensures { result.now ≡ self.now.skipped.items }
    {
        &self.skipped
    }

    /// The shelf.
    pub fn shelf(&self) -> &S
        ensures { result.now ≡ self.now.shelf }
    {
        &self.shelf
    }

    /// The shelf, given back.
    pub fn into_shelf(self) -> S
        ensures { result ≡ self.shelf }
    {
        let Archive {
            shelf,
            entries: _,
            skipped: _,
            hashed: _,
        } = self;
        shelf
    }

    /// The file of an image.
    ///
    /// NoSuchImage: the name isn't listed. Otherwise as `Entry::whole`.
    pub fn whole(&mut self, alloc: Global, name: &str) -> Result<Vec<u8>, Fault>
        ensures absent { entry_of (map arc_value self.old.entries.items) name.now ≡ None
            → (result ≡ Err Fault.NoSuchImage) × (self.new.shelf ≡ self.old.shelf) }
        ensures present { OnOk result (IsSome (entry_of (map arc_value self.old.entries.items) name.now)) }
        ensures given { (e : EntryFields) → entry_of (map arc_value self.old.entries.items) name.now ≡ Some e
            → IfOk result (λ f. IsFileOf S.gave e self.old.shelf f.items self.new.shelf) }
        ensures same { (e : EntryFields) → entry_of (map arc_value self.old.entries.items) name.now ≡ Some e
            → (files : Files) (b : List ℕ) → S.keeps self.old.shelf files
            → files (file_name (string_bytes e.name)) ≡ Some b
            → IfOk result (λ f. f.items ≡ b) }
        ensures changed { (e : EntryFields) → entry_of (map arc_value self.old.entries.items) name.now ≡ Some e
            → result ≡ Err Fault.Changed → IsOtherFile S.gave e self.old.shelf self.new.shelf }
        ensures list { self.new.entries ≡ self.old.entries }
        ensures skipped { self.new.skipped ≡ self.old.skipped }
        ensures kept { (files : Files) → S.keeps self.old.shelf files → S.keeps self.new.shelf files }
        ensures counts { Passes (λ e. IsMemory e ⊎ (e ≡ NoSuchImage) ⊎ (e ≡ Changed)) result (S.failed self.old.shelf)
            (S.failed self.new.shelf) }
    {
        match find_named(&self.entries, name) {
            Some(entry) => entry.whole(alloc, &mut self.shelf),
            None => Err(Fault::NoSuchImage),
        }
    }

    /// The file of a window of an image.
    ///
    /// NoSuchImage: the name isn't listed. Otherwise as `Entry::window`.
    pub fn window(&mut self, alloc: Global, name: &str, view: View) -> Result<Vec<u8>, Fault>
        ensures absent { entry_of (map arc_value self.old.entries.items) name.now ≡ None
            → (result ≡ Err Fault.NoSuchImage) × (self.new.shelf ≡ self.old.shelf) }
        ensures present { OnOk result (IsSome (entry_of (map arc_value self.old.entries.items) name.now)) }
        ensures given { (e : EntryFields) → entry_of (map arc_value self.old.entries.items) name.now ≡ Some e
            → IfOk result
            (λ w. (f : List ℕ) × IsFileOf S.gave e self.old.shelf f self.new.shelf
            × IsCutFrom e.index view f w.items) }
        ensures same { (e : EntryFields) → entry_of (map arc_value self.old.entries.items) name.now ≡ Some e
            → (files : Files) (b : List ℕ) → S.keeps self.old.shelf files
            → files (file_name (string_bytes e.name)) ≡ Some b
            → (is : IsIndexOf b e.index) → IsWindowGiven (cut_file is view) result }
        ensures seen { (e : EntryFields) → entry_of (map arc_value self.old.entries.items) name.now ≡ Some e
            → OnOk result (HasWindow e.index.headers view) }
        ensures unseen { (e : EntryFields) → entry_of (map arc_value self.old.entries.items) name.now ≡ Some e
            → (HasWindow e.index.headers view → ⊥)
            → (result ≡ Err Fault.BadWindow) × (self.new.shelf ≡ self.old.shelf) }
        ensures bad { (e : EntryFields) → entry_of (map arc_value self.old.entries.items) name.now ≡ Some e
            → result ≡ Err Fault.BadWindow → HasWindow e.index.headers view → ⊥ }
        ensures changed { (e : EntryFields) → entry_of (map arc_value self.old.entries.items) name.now ≡ Some e
            → result ≡ Err Fault.Changed → IsOtherFile S.gave e self.old.shelf self.new.shelf
            ⊎ WasForeign S.gave e self.old.shelf self.new.shelf }
        ensures list { self.new.entries ≡ self.old.entries }
        ensures skipped { self.new.skipped ≡ self.old.skipped }
        ensures kept { (files : Files) → S.keeps self.old.shelf files → S.keeps self.new.shelf files }
        ensures counts { Passes (λ e. IsMemory e ⊎ (e ≡ NoSuchImage) ⊎ (e ≡ BadWindow) ⊎ (e ≡ Changed)) result
            (S.failed self.old.shelf) (S.failed self.new.shelf) }
    {
        match find_named(&self.entries, name) {
            Some(entry) => entry.window(alloc, &mut self.shelf, view),
            None => Err(Fault::NoSuchImage),
        }
    }
}

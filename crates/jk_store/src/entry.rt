//! Entries of an archive.

ghost use Rattle.std.specs.Prelude.{◌≡◌, ◌⊎◌, ℕ, List, length, Some, Ok, Err, IfOk, IfErr, OnOk, true, false};
ghost use Rattle.std.specs.String.{string_bytes};
ghost use Rattle.sha2.specs.Sha256.{sha256};
ghost use Rattle.jk_math.specs.Memory.{IsMemory};
ghost use Rattle.jk_math.specs.declared.fault.Fault.TheVariants.{BadWindow, Changed};
ghost use Rattle.jk_window.specs.Views.{HasWindow};
ghost use Rattle.jk_window.specs.Indexing.{IsIndexOf};
ghost use Rattle.jk_window.specs.Cutting.{cut_file};
ghost use Rattle.jk_store.specs.Files.{Files};
ghost use Rattle.jk_store.specs.Names.{file_name};
ghost use Rattle.jk_store.specs.Catalogue.{IsFileOf, IsOtherFile, IsCutFrom, IsWindowGiven, WasForeign, Passes};
ghost use Rattle.jk_store.specs.Catalogue.{StandsFor, stored};
ghost use Rattle.jk_store.specs.Parts.{part_count};
ghost use Rattle.jk_store.specs.PartsGiven.{GivenPart, ReadsParts, IsOtherPart, IsCutOfParts, AreKnownByDigest};

use crate::assembling::assemble;
use crate::hashed::HashedParts;
use crate::names;
use crate::parts::PART_SIZE;
use crate::shelf::Shelf;
use jk_digest::sha256;
use jk_math::Fault;
use jk_window::{Index, View, plan};
use std::alloc::Global;

/// An image of an archive: its name, and of its file the SHA-256, the SHA-256 of each 2^14 bytes
/// (the last may be fewer), and the index.
#[derive(Drop)]
pub struct Entry {
    pub name: String,
    pub digest: [u8; 32],
    pub parts: Vec<[u8; 32]>,
    pub index: Index,
}

/// Whether bytes have a digest.
pub(crate) fn has_digest(bytes: &[u8], digest: &[u8; 32]) -> bool
    ensures yes { result ≡ true → sha256 bytes.now ≡ digest.now }
    ensures no { result ≡ false → sha256 bytes.now ≡ digest.now → ⊥ }
{
    sha256(bytes).as_slice() == digest.as_slice()
}

impl Entry {
    /// Whether a shelf tells a length of the file with which it has another number of parts.
    fn has_other_length<S: Shelf>(&self, alloc: Global, shelf: &S, name: &str) -> bool
        requires { name.now ≡ file_name (string_bytes self.now.name) }
        ensures other { result ≡ true → IsOtherFile S.gave self.now shelf.now shelf.now }
        ensures steady { (files : Files) (b : List ℕ) → S.keeps shelf.now files
            → files (file_name (string_bytes self.now.name)) ≡ Some b
            → length self.now.parts.items ≡ part_count (length b) → result ≡ false }
    {
        match shelf.length(alloc, name) {
            Some(length) => length.div_ceil(PART_SIZE as u64) != self.parts.len() as u64,
            None => false,
        }
    }

    /// The file of the image. Where the shelf tells its length, a file that has another number of
    /// parts isn't read.
    ///
    /// Changed: the shelf gave a file with another digest, or told such a length.
    pub fn whole<S: Shelf>(&self, alloc: Global, shelf: &mut S) -> Result<Vec<u8>, Fault>
        ensures given { IfOk result (λ f. IsFileOf S.gave self.now shelf.old f.items shelf.new) }
        // A file that the shelf keeps under the name is what is given.
        ensures same { (files : Files) (b : List ℕ) → S.keeps shelf.old files
            → files (file_name (string_bytes self.now.name)) ≡ Some b
            → IfOk result (λ f. f.items ≡ b) }
        ensures changed { result ≡ Err Fault.Changed → IsOtherFile S.gave self.now shelf.old shelf.new }
        // Where the shelf keeps the file of which the entry was made, it isn't told to have changed.
        ensures steady { (files : Files) (b : List ℕ) → S.keeps shelf.old files
            → files (file_name (string_bytes self.now.name)) ≡ Some b
            → StandsFor self.now (stored (string_bytes self.now.name) b) → result ≡ Err Fault.Changed → ⊥ }
        ensures kept { (files : Files) → S.keeps shelf.old files → S.keeps shelf.new files }
        ensures counts { Passes (λ e. IsMemory e ⊎ (e ≡ Changed)) result (S.failed shelf.old) (S.failed shelf.new) }
    {
        let name = names::file_name(alloc, self.name.as_str())?;
        if self.has_other_length(alloc, &*shelf, name.as_str()) {
            return Err(Fault::Changed);
        }
        let file = shelf.read(alloc, name.as_str())?;
        if !has_digest(&file, &self.digest) {
            return Err(Fault::Changed);
        }
        Ok(file)
    }

    /// The file of a window of the image, as `jk_code::window` makes it.
    ///
    /// BadWindow: the view has no window, which is judged before the shelf is read. Changed: as
    /// `whole`, and where the index isn't that of the file.
    pub fn window<S: Shelf>(
        &self,
        alloc: Global,
        shelf: &mut S,
        view: View,
    ) -> Result<Vec<u8>, Fault>
        ensures given { IfOk result
            (λ w. (f : List ℕ) × IsFileOf S.gave self.now shelf.old f shelf.new
            × IsCutFrom self.now.index view f w.items) }
        ensures seen { OnOk result (HasWindow self.now.index.headers view) }
        // Of a file that the shelf keeps under the name it is the window.
        ensures same { (files : Files) (b : List ℕ) → S.keeps shelf.old files
            → files (file_name (string_bytes self.now.name)) ≡ Some b
            → (is : IsIndexOf b self.now.index) → IsWindowGiven (cut_file is view) result }
        // Where the view has no window, that is the answer, and the shelf isn't read.
        ensures unseen { (HasWindow self.now.index.headers view → ⊥)
            → (result ≡ Err Fault.BadWindow) × (shelf.new ≡ shelf.old) }
        // No other BadWindow is answered.
        ensures bad { result ≡ Err Fault.BadWindow → HasWindow self.now.index.headers view → ⊥ }
        ensures changed { result ≡ Err Fault.Changed → IsOtherFile S.gave self.now shelf.old shelf.new
            ⊎ WasForeign S.gave self.now shelf.old shelf.new }
        ensures kept { (files : Files) → S.keeps shelf.old files → S.keeps shelf.new files }
        ensures counts { Passes (λ e. IsMemory e ⊎ (e ≡ BadWindow) ⊎ (e ≡ Changed)) result (S.failed shelf.old)
            (S.failed shelf.new) }
    {
        self.index.sees(view)?;
        let file = self.whole(alloc, shelf)?;
        jk_code::window(alloc, &file, &self.index, view)
    }

    /// The file of a window of the image, for which only the parts of the stored file are read that
    /// it copies from. Each is judged by the digest that was taken of it when the entry was made.
    /// What isn't read may have changed; `whole` tells.
    ///
    /// BadWindow: the view has no window, which is judged before the shelf is read. Changed: the
    /// shelf gave a part of another length, or with another digest.
    pub fn window_by_parts<S: Shelf>(
        &self,
        alloc: Global,
        shelf: &mut S,
        view: View,
    ) -> Result<Vec<u8>, Fault>
        // The shelf gave parts, each with its digest; and of each file that has these parts, and of
        // which the index is, it is the window.
        ensures given { IfOk result
            (λ w. (given : List GivenPart) × ReadsParts S.gave_at self.now shelf.old given shelf.new
            × IsCutOfParts self.now.index view given w.items) }
        // It is the window of the file of which the entry was made, if each part that was given and
        // has the digest of that file's part is that part.
        ensures judged { (f : List ℕ) → StandsFor self.now (stored (string_bytes self.now.name) f)
            → (is : IsIndexOf f self.now.index)
            → IfOk result (λ w. (given : List GivenPart) × ReadsParts S.gave_at self.now shelf.old given shelf.new
            × (AreKnownByDigest f given → cut_file is view ≡ Ok w.items)) }
        ensures seen { OnOk result (HasWindow self.now.index.headers view) }
        // Of a file that the shelf keeps under the name it is the window.
        ensures same { (files : Files) (b : List ℕ) → S.keeps shelf.old files
            → files (file_name (string_bytes self.now.name)) ≡ Some b
            → (is : IsIndexOf b self.now.index) → IsWindowGiven (cut_file is view) result }
        // Where that is the file of which the entry was made, it isn't told to have changed.
        ensures steady { (files : Files) (b : List ℕ) → S.keeps shelf.old files
            → files (file_name (string_bytes self.now.name)) ≡ Some b
            → StandsFor self.now (stored (string_bytes self.now.name) b) → result ≡ Err Fault.Changed → ⊥ }
        // Where the view has no window, that is the answer, and the shelf isn't read.
        ensures unseen { (HasWindow self.now.index.headers view → ⊥)
            → (result ≡ Err Fault.BadWindow) × (shelf.new ≡ shelf.old) }
        // No other BadWindow is answered.
        ensures bad { result ≡ Err Fault.BadWindow → HasWindow self.now.index.headers view → ⊥ }
        ensures changed { result ≡ Err Fault.Changed → IsOtherPart S.gave_at self.now shelf.old shelf.new }
        ensures kept { (files : Files) → S.keeps shelf.old files → S.keeps shelf.new files }
        ensures counts { Passes (λ e. IsMemory e ⊎ (e ≡ BadWindow) ⊎ (e ≡ Changed)) result (S.failed shelf.old)
            (S.failed shelf.new) }
    {
        self.window_by_parts_with(alloc, shelf, &mut HashedParts::none(alloc), view)
    }

    /// The same, where parts that were read before are known, and those that are read are known then.
    /// Each part is read, and isn't hashed where it is the same as one that is known.
    pub fn window_by_parts_with<S: Shelf>(
        &self,
        alloc: Global,
        shelf: &mut S,
        hashed: &mut HashedParts,
        view: View,
    ) -> Result<Vec<u8>, Fault>
        // The shelf gave parts, each with its digest; and of each file that has these parts, and of
        // which the index is, it is the window.
        ensures given { IfOk result
            (λ w. (given : List GivenPart) × ReadsParts S.gave_at self.now shelf.old given shelf.new
            × IsCutOfParts self.now.index view given w.items) }
        // It is the window of the file of which the entry was made, if each part that was given and
        // has the digest of that file's part is that part.
        ensures judged { (f : List ℕ) → StandsFor self.now (stored (string_bytes self.now.name) f)
            → (is : IsIndexOf f self.now.index)
            → IfOk result (λ w. (given : List GivenPart) × ReadsParts S.gave_at self.now shelf.old given shelf.new
            × (AreKnownByDigest f given → cut_file is view ≡ Ok w.items)) }
        ensures seen { OnOk result (HasWindow self.now.index.headers view) }
        // Of a file that the shelf keeps under the name it is the window.
        ensures same { (files : Files) (b : List ℕ) → S.keeps shelf.old files
            → files (file_name (string_bytes self.now.name)) ≡ Some b
            → (is : IsIndexOf b self.now.index) → IsWindowGiven (cut_file is view) result }
        // Where that is the file of which the entry was made, it isn't told to have changed.
        ensures steady { (files : Files) (b : List ℕ) → S.keeps shelf.old files
            → files (file_name (string_bytes self.now.name)) ≡ Some b
            → StandsFor self.now (stored (string_bytes self.now.name) b) → result ≡ Err Fault.Changed → ⊥ }
        // Where the view has no window, that is the answer, and the shelf isn't read.
        ensures unseen { (HasWindow self.now.index.headers view → ⊥)
            → (result ≡ Err Fault.BadWindow) × (shelf.new ≡ shelf.old) }
        // No other BadWindow is answered.
        ensures bad { result ≡ Err Fault.BadWindow → HasWindow self.now.index.headers view → ⊥ }
        ensures changed { result ≡ Err Fault.Changed → IsOtherPart S.gave_at self.now shelf.old shelf.new }
        ensures kept { (files : Files) → S.keeps shelf.old files → S.keeps shelf.new files }
        ensures counts { Passes (λ e. IsMemory e ⊎ (e ≡ BadWindow) ⊎ (e ≡ Changed)) result (S.failed shelf.old)
            (S.failed shelf.new) }
    {
        let plan = plan(alloc, &self.index, view)?;
        assemble(alloc, self, shelf, hashed, &plan)
    }
}

//! What an archive stands on.

ghost use Rattle.std.specs.Prelude.{◌≡◌, ◌⊎◌, ℕ, List, length, map, take, drop, true, false, Some, IfOk, IfErr, OnOk, IfSome};
ghost use Rattle.std.specs.String.{string_bytes};
ghost use Rattle.jk_math.specs.Memory.{IsMemory};
ghost use Rattle.jk_math.specs.declared.fault.Fault.TheVariants.{Shelf as ShelfFault};
ghost use Rattle.jk_store.specs.Files.{Files, with_file, without, is_among};
ghost use Rattle.jk_store.specs.Counting.{Counts};

use jk_math::Fault;
use std::alloc::Global;

/// Files under names. Each call may answer Memory, or Shelf where it failed.
///
/// Each answer Shelf counts one failure. At 2^64 - 1 the count stays, and every later call is
/// Shelf.
pub trait Shelf {
    /// It holds these files under these names, and will give them.
    ghost keeps: { Self → Files → Type 0 };

    /// From the first state a read of that name may give these bytes and leave the second.
    ghost gave: { Self → List ℕ → List ℕ → Self → Type 0 };

    /// From the first state a read of so many bytes at most of that name, from a place on, may give
    /// these and leave the second.
    ghost gave_at: { Self → List ℕ → ℕ → ℕ → List ℕ → Self → Type 0 };

    /// From the first state a listing may give these names and leave the second.
    ghost lists: { Self → List (List ℕ) → Self → Type 0 };

    /// From the first state a listing may fail and leave the second.
    ghost unlisted: { Self → Self → Type 0 } = { λ _ _. Unit {0} };

    /// From the first state a read of that name may fail and leave the second.
    ghost unread: { Self → List ℕ → Self → Type 0 } = { λ _ _ _. Unit {0} };

    /// From the first state a write under that name may fail and leave the second.
    ghost unwritten: { Self → List ℕ → Self → Type 0 } = { λ _ _ _. Unit {0} };

    /// From the first state the first name may fail to become the second, which leaves the second
    /// state.
    ghost unrenamed: { Self → List ℕ → List ℕ → Self → Type 0 } = { λ _ _ _ _. Unit {0} };

    /// From the first state the first name may fail to become the second, which nothing has, and leave
    /// the second state.
    ghost unplaced: { Self → List ℕ → List ℕ → Self → Type 0 } = { λ _ _ _ _. Unit {0} };

    /// In the first state something may have that name, and the second is left.
    ghost taken: { Self → List ℕ → Self → Type 0 } = { λ _ _ _. Unit {0} };

    /// How many failures were counted.
    ghost failed: { Self → ℕ };

    /// The names of all files.
    fn list(&mut self, alloc: Global) -> Result<Vec<String>, Fault>
        ensures given { IfOk result (λ v. lists self.old (map string_bytes v.items) self.new) }
        ensures kept { (files : Files) → keeps self.old files → keeps self.new files }
        // Each file that it keeps is listed, and of each name that is listed it keeps a file.
        ensures found { (files : Files) (n b : List ℕ) → keeps self.old files → files n ≡ Some b
            → IfOk result (λ v. is_among n (map string_bytes v.items) ≡ true) }
        ensures only { (files : Files) (n : List ℕ) → keeps self.old files
            → IfOk result
            (λ v. is_among n (map string_bytes v.items) ≡ true
            → (b : List ℕ) × keeps self.new (with_file n b files)) }
        ensures cause { IfErr result (λ e. e ≡ ShelfFault → unlisted self.old self.new) }
        ensures counts { Counts result (failed self.old) (failed self.new) };

    /// The bytes of a file.
    fn read(&mut self, alloc: Global, name: &str) -> Result<Vec<u8>, Fault>
        ensures given { IfOk result (λ v. gave self.old name.now v.items self.new) }
        ensures kept { (files : Files) → keeps self.old files → keeps self.new files }
        // A file that it keeps is what it gives.
        ensures same { (files : Files) (b : List ℕ) → keeps self.old files → files name.now ≡ Some b
            → IfOk result (λ v. v.items ≡ b) }
        // And what it gives it keeps.
        ensures held { (files : Files) → keeps self.old files
            → IfOk result (λ v. keeps self.new (with_file name.now v.items files)) }
        ensures cause { IfErr result (λ e. e ≡ ShelfFault → unread self.old name.now self.new) }
        ensures counts { Counts result (failed self.old) (failed self.new) };

    /// How many bytes a file has, where that can be told without reading it.
    fn length(&self, _alloc: Global, _name: &str) -> Option<u64>
        // A read may give a file of that length.
        ensures told { IfSome result
            (λ n. (file : List ℕ) × gave self.now _name.now file self.now × (length file ≡ n)) }
        // Of a file that it keeps it is the length.
        ensures same { (files : Files) (b : List ℕ) → keeps self.now files → files _name.now ≡ Some b
            → IfSome result (λ n. n ≡ length b) }
    {
        None
    }

    /// At most so many bytes of a file from a place on: fewer where the file ends before.
    fn read_at(
        &mut self,
        alloc: Global,
        name: &str,
        start: u64,
        most: usize,
    ) -> Result<Vec<u8>, Fault>
        ensures given { IfOk result (λ v. gave_at self.old name.now start most v.items self.new) }
        ensures kept { (files : Files) → keeps self.old files → keeps self.new files }
        // Of a file that it keeps it is those bytes.
        ensures same { (files : Files) (b : List ℕ) → keeps self.old files → files name.now ≡ Some b
            → IfOk result (λ v. v.items ≡ take most (drop start b)) }
        ensures cause { IfErr result (λ e. e ≡ ShelfFault → unread self.old name.now self.new) }
        ensures counts { Counts result (failed self.old) (failed self.new) };

    /// Creates a file, or replaces it. After a refusal the file may be there in part.
    fn write(&mut self, alloc: Global, name: &str, bytes: &[u8]) -> Result<(), Fault>
        ensures ok { (files : Files) → keeps self.old files
            → OnOk result (keeps self.new (with_file name.now bytes.now files)) }
        ensures others { (files : Files) → keeps self.old files → keeps self.new (without name.now files) }
        ensures cause { IfErr result (λ e. e ≡ ShelfFault → unwritten self.old name.now self.new) }
        ensures counts { Counts result (failed self.old) (failed self.new) };

    /// Gives a file another name, and replaces what had it, in one step: after a refusal all is as
    /// before, or, after Shelf, the file has its new name.
    fn rename(&mut self, alloc: Global, from: &str, to: &str) -> Result<(), Fault>
        ensures ok { (files : Files) (b : List ℕ) → keeps self.old files → files from.now ≡ Some b
            → OnOk result (keeps self.new (with_file to.now b (without from.now files))) }
        ensures others { (files : Files) → keeps self.old files
            → keeps self.new (without from.now (without to.now files)) }
        ensures whole { (files : Files) (b : List ℕ) → keeps self.old files → files from.now ≡ Some b
            → IfErr result
            (λ e. keeps self.new files
            ⊎ ((e ≡ ShelfFault) × keeps self.new (with_file to.now b (without from.now files)))) }
        ensures memory { (files : Files) → keeps self.old files
            → IfErr result (λ e. IsMemory e → keeps self.new files) }
        ensures cause { IfErr result (λ e. e ≡ ShelfFault → unrenamed self.old from.now to.now self.new) }
        ensures counts { Counts result (failed self.old) (failed self.new) };

    /// Gives a file another name that nothing has, in one step. Whether it has the name: it never
    /// replaces anything, also not what comes under the name meanwhile. A file that doesn't get the
    /// name may be gone.
    fn place(&mut self, alloc: Global, from: &str, to: &str) -> Result<bool, Fault>
        ensures ok { (files : Files) (b : List ℕ) → keeps self.old files → files from.now ≡ Some b
            → IfOk result
            (λ placed. placed ≡ true → keeps self.new (with_file to.now b (without from.now files))) }
        // Whatever it answers, each other file stays, also one that has the name.
        ensures stays { (files : Files) → keeps self.old files → keeps self.new (without from.now files) }
        ensures free { (files : Files) (b : List ℕ) → keeps self.old files → files to.now ≡ Some b
            → IfOk result (λ placed. placed ≡ false) }
        ensures taken { IfOk result (λ placed. placed ≡ false → taken self.old to.now self.new) }
        ensures memory { (files : Files) → keeps self.old files
            → IfErr result (λ e. IsMemory e → keeps self.new files) }
        ensures cause { IfErr result (λ e. e ≡ ShelfFault → unplaced self.old from.now to.now self.new) }
        ensures counts { Counts result (failed self.old) (failed self.new) };

    /// How many failures were counted.
    fn failures(&self) -> u64
        ensures { result ≡ failed self.now };
}

//! Files that were read, whose digests are made three or four at once.

ghost use Rattle.std.specs.Prelude.{◌≡◌, ◌++◌, ◌+◌, ◌∷◌, [], ◌≤◌, map, length, IfOk, IfErr, IfSome, OnOk};
ghost use Rattle.std.specs.Prelude.{true, false, None};
ghost use Rattle.std.specs.Arc.{arc_value};
ghost use Rattle.sha2.specs.Sha256.{sha256};
ghost use Rattle.jk_math.specs.Memory.{IsMemory};
ghost use Rattle.jk_store.specs.Catalogue.{most_entries};
ghost use Rattle.jk_store.specs.Digesting.{all_entries, entry_due, four_entries, waiting_entries};
ghost use Rattle.jk_store.specs.declared.digesting.Waiting.TheVariants.{NoFile};

use crate::adding::MOST_ENTRIES;
use crate::entry::Entry;
use jk_digest::{sha256, sha256_of_four};
use jk_math::Fault;
use jk_window::Index;
use std::alloc::Global;
use std::mem;
use std::sync::Arc;

/// How many bytes are held at most of files that wait for others.
const MOST_WAITING: usize = 1 << 25;

/// An entry without the digest of its file, and the file.
#[derive(Drop)]
pub(crate) struct Undigested {
    pub(crate) name: String,
    pub(crate) bytes: Vec<u8>,
    pub(crate) parts: Vec<[u8; 32]>,
    pub(crate) index: Index,
}

impl Undigested {
    /// The entry, with the digest of its file.
    fn into_entry(self, digest: [u8; 32]) -> Entry
        requires { digest ≡ sha256 self.bytes.items }
        ensures { result ≡ entry_due self }
    {
        Entry {
            name: self.name,
            digest,
            parts: self.parts,
            index: self.index,
        }
    }
}

/// Files that wait for others, in the order in which they were read. A list would ask for memory.
#[derive(Drop)]
enum Waiting {
    NoFile,
    OneFile(Undigested),
    TwoFiles(Undigested, Undigested),
    ThreeFiles(Undigested, Undigested, Undigested),
}

/// Four files.
#[derive(Drop)]
struct Four {
    a: Undigested,
    b: Undigested,
    c: Undigested,
    d: Undigested,
}

/// At most two files that wait, and one more.
fn joined(waiting: Waiting, file: Undigested) -> Waiting
    requires few { length (waiting_entries waiting) ≤ 2 }
    ensures more { waiting_entries result ≡ waiting_entries waiting ++ entry_due file ∷ [] }
{
    match waiting {
        Waiting::NoFile => Waiting::OneFile(file),
        Waiting::OneFile(a) => Waiting::TwoFiles(a, file),
        Waiting::TwoFiles(a, b) => Waiting::ThreeFiles(a, b, file),
        full => full,
    }
}

/// The digests of three messages, made at once.
pub(crate) fn sha256_of_three(a: &[u8], b: &[u8], c: &[u8]) -> [[u8; 32]; 3]
    ensures { result ≡ sha256 a.now ∷ sha256 b.now ∷ sha256 c.now ∷ [] }
{
    // A fourth one, as long as all three go, for which nothing more is done.
    let shortest = a.len().min(b.len()).min(c.len());
    let [first, second, third, _] = sha256_of_four(a, b, c, &c[..shortest]);
    [first, second, third]
}

/// Lists the entry of a file.
fn list(
    alloc: Global,
    entries: &mut Vec<Arc<Entry>>,
    file: Undigested,
    digest: [u8; 32],
) -> Result<(), Fault>
    requires { digest ≡ sha256 file.bytes.items }
    ensures more { OnOk result (map arc_value entries.new.items ≡ map arc_value entries.old.items ++ entry_due file ∷ []) }
    ensures err { IfErr result IsMemory }
{
    entries.push(Arc::new(alloc, file.into_entry(digest))?)?;
    Ok(())
}

/// Lists the entries of two files.
fn list_two(
    alloc: Global,
    entries: &mut Vec<Arc<Entry>>,
    a: Undigested,
    first: [u8; 32],
    b: Undigested,
    second: [u8; 32],
) -> Result<(), Fault>
    requires first { first ≡ sha256 a.bytes.items }
    requires second { second ≡ sha256 b.bytes.items }
    ensures more { OnOk result (map arc_value entries.new.items
        ≡ map arc_value entries.old.items ++ entry_due a ∷ entry_due b ∷ []) }
    ensures err { IfErr result IsMemory }
{
    list(alloc, entries, a, first)?;
    list(alloc, entries, b, second)
}

/// Makes the digest of a file, and lists its entry.
fn list_one(alloc: Global, entries: &mut Vec<Arc<Entry>>, file: Undigested) -> Result<(), Fault>
    ensures more { OnOk result (map arc_value entries.new.items ≡ map arc_value entries.old.items ++ entry_due file ∷ []) }
    ensures err { IfErr result IsMemory }
{
    let digest = sha256(&file.bytes);
    list(alloc, entries, file, digest)
}

/// Makes the digests of three files at once, and lists their entries.
fn list_three(
    alloc: Global,
    entries: &mut Vec<Arc<Entry>>,
    a: Undigested,
    b: Undigested,
    c: Undigested,
) -> Result<(), Fault>
    ensures more { OnOk result (map arc_value entries.new.items
        ≡ map arc_value entries.old.items ++ entry_due a ∷ entry_due b ∷ entry_due c ∷ []) }
    ensures err { IfErr result IsMemory }
{
    let [first, second, third] = sha256_of_three(&a.bytes, &b.bytes, &c.bytes);
    list_two(alloc, entries, a, first, b, second)?;
    list(alloc, entries, c, third)
}

/// Makes the digests of four files at once, and lists their entries.
fn list_four(alloc: Global, entries: &mut Vec<Arc<Entry>>, four: Four) -> Result<(), Fault>
    ensures more { OnOk result
        (map arc_value entries.new.items ≡ map arc_value entries.old.items ++ four_entries four) }
    ensures err { IfErr result IsMemory }
{
    let Four { a, b, c, d } = four;
    let [first, second, third, fourth] = sha256_of_four(&a.bytes, &b.bytes, &c.bytes, &d.bytes);
    list_two(alloc, entries, a, first, b, second)?;
    list_two(alloc, entries, c, third, d, fourth)
}

/// Makes the digests of files that wait, and lists their entries.
fn list_waiting(alloc: Global, entries: &mut Vec<Arc<Entry>>, waiting: Waiting) -> Result<(), Fault>
    ensures more { OnOk result
        (map arc_value entries.new.items ≡ map arc_value entries.old.items ++ waiting_entries waiting) }
    ensures err { IfErr result IsMemory }
{
    match waiting {
        Waiting::NoFile => Ok(()),
        Waiting::OneFile(a) => list_one(alloc, entries, a),
        Waiting::TwoFiles(a, b) => {
            list_one(alloc, entries, a)?;
            list_one(alloc, entries, b)
        }
        Waiting::ThreeFiles(a, b, c) => list_three(alloc, entries, a, b, c),
    }
}

/// Entries, and behind them files whose digests are to be made.
#[derive(Drop)]
pub(crate) struct Digesting {
    entries: Vec<Arc<Entry>>,
    waiting: Waiting,
    /// How many bytes are held of the files that wait.
    size: usize,
}

impl Digesting {
    /// No entries.
    pub(crate) fn new(alloc: Global) -> Digesting
        ensures { all_entries result ≡ [] }
    {
        Digesting {
            entries: Vec::new(alloc),
            waiting: Waiting::NoFile,
            size: 0,
        }
    }

    /// Whether there are as many entries as an archive may have.
    pub(crate) fn is_full(&self) -> bool
        ensures yes { result ≡ true → most_entries ≤ length (all_entries self.now) }
        ensures no { result ≡ false → length (all_entries self.now) + 1 ≤ most_entries }
    {
        let waiting = match &self.waiting {
            Waiting::NoFile => 0,
            Waiting::OneFile(_) => 1,
            Waiting::TwoFiles(_, _) => 2,
            Waiting::ThreeFiles(_, _, _) => 3,
        };
        MOST_ENTRIES - waiting <= self.entries.len()
    }

    /// Lists the files that wait.
    pub(crate) fn settle(&mut self, alloc: Global) -> Result<(), Fault>
        ensures same { OnOk result (map arc_value self.new.entries.items ≡ all_entries self.old) }
        ensures none { self.new.waiting ≡ NoFile }
        ensures err { IfErr result IsMemory }
    {
        self.size = 0;
        let waiting = mem::replace(&mut self.waiting, Waiting::NoFile);
        list_waiting(alloc, &mut self.entries, waiting)
    }

    /// One file more, which waits, or is listed with those that do: where they are four, or have
    /// more bytes than may wait.
    pub(crate) fn take(&mut self, alloc: Global, file: Undigested) -> Result<(), Fault>
        ensures more { OnOk result (all_entries self.new ≡ all_entries self.old ++ entry_due file ∷ []) }
        ensures err { IfErr result IsMemory }
    {
        self.size = self.size.saturating_add(file.bytes.capacity());
        match mem::replace(&mut self.waiting, Waiting::NoFile) {
            Waiting::ThreeFiles(a, b, c) => {
                self.size = 0;
                let four = Four { a, b, c, d: file };
                return list_four(alloc, &mut self.entries, four);
            }
            few => self.waiting = joined(few, file),
        }
        if MOST_WAITING < self.size {
            return self.settle(alloc);
        }
        Ok(())
    }

    /// The entries of all files.
    pub(crate) fn finish(self, alloc: Global) -> Result<Vec<Arc<Entry>>, Fault>
        ensures all { IfOk result (λ v. map arc_value v.items ≡ all_entries self) }
        ensures err { IfErr result IsMemory }
    {
        let Digesting {
            mut entries,
            waiting,
            size: _,
        } = self;
        list_waiting(alloc, &mut entries, waiting)?;
        Ok(entries)
    }
}

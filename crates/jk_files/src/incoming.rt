//! Bytes that come from a source, and are taken part by part.

ghost use Rattle.std.specs.Prelude.{◌≡◌, ◌<◌, ◌≤◌, ℕ, List, [], true, false, length, drop, IfOk, OnOk};
ghost use Rattle.std.specs.Io.KnownBytes.{IsAtEnd};

use crate::reading::{PIECE, READS, endless, read_more, room};
use crate::refusal::Refusal;
use std::alloc::Global;
use std::io::Read;

/// Room for what a source gives at once.
#[derive(Drop)]
pub struct Intake {
    piece: Vec<u8>,
    ghost some: { 0 < length piece.items },
}

impl Intake {
    /// Memory is the only refusal.
    pub fn new(alloc: Global) -> Result<Intake, Refusal> {
        Ok(Intake {
            piece: room(alloc, PIECE)?,
        })
    }
}

/// A source of bytes, and those that it gave and that wait to be taken.
#[derive(Drop)]
pub struct Incoming<'a, S> {
    source: &'a mut S,
    /// The bytes that were given, of which so many were taken.
    given: Vec<u8>,
    taken: usize,
    /// Room for what is given next.
    piece: Vec<u8>,
    ghost some: { 0 < length piece.items },
}

impl<'a, S: Read> Incoming<'a, S> {
    ghost use Rattle.jk_files.specs.Incoming.{waiting_of, Took};

    /// A source of which no byte was asked for.
    pub fn new(alloc: Global, intake: Intake, source: &'a mut S) -> Incoming<'a, S>
        ensures same_reference { result.source.ghost_name ≡ source.entry.ghost_name }
        ensures source { result.source.now ≡ source.old }
        ensures none { waiting_of result ≡ [] }
    {
        let Intake { piece } = intake;
        Incoming {
            source,
            given: Vec::new(alloc),
            taken: 0,
            piece,
        }
    }

    /// Ends it, and gives the source back.
    pub fn end(self) -> &'a mut S
        ensures same_reference { result.ghost_name ≡ self.entry.source.ghost_name }
        ensures source { result.now ≡ self.entry.source.now }
    {
        let Incoming { source, .. } = self;
        source
    }

    /// The bytes that wait.
    pub fn waiting(&self) -> &[u8]
        ensures { result.now ≡ waiting_of self.now }
    {
        &self.given[self.taken.min(self.given.len())..]
    }

    /// Takes so many of the bytes that wait.
    pub fn take(&mut self, count: usize)
        requires { count ≤ length (waiting_of self.old) }
        ensures source { self.new.source ≡ self.old.source }
        ensures left { waiting_of self.new ≡ drop count (waiting_of self.old) }
    {
        self.taken = self.taken.min(self.given.len()) + count;
    }

    /// Lets go of the bytes that were taken.
    fn forget(&mut self)
        ensures source { self.new.source ≡ self.old.source }
        ensures same { waiting_of self.new ≡ waiting_of self.old }
        ensures none { self.new.taken ≡ 0 }
    {
        let taken = self.taken.min(self.given.len());
        let left = self.given.len() - taken;
        self.given.as_mut_slice().copy_within(taken.., 0);
        self.given.truncate(left);
        self.taken = 0;
    }

    /// Reads once: what is given waits behind what waits already. Whether the source is at its end.
    fn read_once(&mut self) -> Result<bool, Refusal>
        requires { self.old.taken ≡ 0 }
        ensures none { self.new.taken ≡ 0 }
        ensures took { OnOk result (Took S.remaining self.old self.new []) }
        ensures end { IfOk result (λ ended. ended ≡ true → IsAtEnd (S.remaining self.new.source.now)) }
    {
        read_more(self.source, &mut self.piece, &mut self.given)
    }

    /// Reads until so many bytes wait or the source is at its end. Whether they wait. An interrupted
    /// read is made again.
    ///
    /// System: it can't be read, or gives fewer and isn't at its end after 2^32 reads.
    pub fn fill(&mut self, count: usize) -> Result<bool, Refusal>
        ensures took { OnOk result (Took S.remaining self.old self.new []) }
        ensures there { IfOk result (λ there. there ≡ true → count ≤ length (waiting_of self.new)) }
        ensures ended { IfOk result (λ there. there ≡ false → IsAtEnd (S.remaining self.new.source.now)
            × (length (waiting_of self.new) < count)) }
    {
        if count <= self.waiting().len() {
            return Ok(true);
        }
        self.forget();
        for _read in 0..READS {
            if self.read_once()? {
                return Ok(count <= self.waiting().len());
            }
            if count <= self.waiting().len() {
                return Ok(true);
            }
        }
        Err(endless())
    }

    /// Reads to the end, and takes all bytes. An interrupted read is made again.
    ///
    /// System: it can't be read, or isn't at its end after 2^32 reads.
    pub fn drain(&mut self) -> Result<(), Refusal>
        ensures took { OnOk result ((bytes : List ℕ) × Took S.remaining self.old self.new bytes
            × (waiting_of self.new ≡ [])) }
        ensures ended { OnOk result (IsAtEnd (S.remaining self.new.source.now)) }
    {
        self.given.clear();
        self.taken = 0;
        for _read in 0..READS {
            let ended = self.read_once()?;
            self.given.clear();
            if ended {
                return Ok(());
            }
        }
        Err(endless())
    }
}

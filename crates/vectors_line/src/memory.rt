//! A world in memory.

use jk_jobs::Gate;
use jk_line::{
    Destination, Folders, Front, Meanwhile, Serving, Streams, Unjudged, Work, Working, listening,
    opening,
};
use jk_math::Fault;
use jk_store::{Archive, MemoryShelf};
use jk_stored::MemoryStored;
use std::alloc::Global;
use std::collections::BTreeMap;
use std::fmt::Display;
use std::io::{self, ErrorKind, Read, Write};
use std::sync::atomic::{AtomicU64, Ordering};
use std::thread::Threads;
use vectors::Pieces;

/// How many code-blocks workers have coded.
#[derive(Drop)]
pub(crate) struct Counter {
    pub(crate) coded: AtomicU64,
}

impl Gate for Counter {
    fn began(&self, _job: usize) {}

    fn ended(&self, _job: usize) {
        self.coded.fetch_add(1, Ordering::SeqCst);
    }
}

/// Files, folders and streams in memory.
#[derive(Drop)]
pub(crate) struct Memory<'a, R> {
    rt: &'a R,
    pub(crate) alloc: Global,
    pub(crate) files: BTreeMap<String, Vec<u8>>,
    pub(crate) folders: BTreeMap<String, MemoryShelf>,
    /// What else each folder has, and whether it is a folder.
    pub(crate) others: Vec<(&'static str, bool)>,
    pub(crate) input: Vec<u8>,
    pub(crate) output: Vec<u8>,
    pub(crate) error: String,
    pub(crate) is_full: bool,
    pub(crate) is_quiet: bool,
    pub(crate) counter: Counter,
    pub(crate) begun: Vec<(Work, Option<u64>)>,
    pub(crate) ended: usize,
    /// Of how many files the last work is, and how many of them are done.
    pub(crate) files_begun: u64,
    pub(crate) files_ended: u64,
    /// Whether the folder is locked, and how often it was.
    pub(crate) is_locked: bool,
    pub(crate) locks: usize,
    /// How many outputs were asked for that are held.
    pub(crate) held: usize,
    /// How many files were read by places.
    pub(crate) stored: usize,
    /// How many inputs were opened to be read in parts, how many of these were read to their end, and
    /// how they are read.
    pub(crate) opened: usize,
    pub(crate) read_whole: usize,
    pub(crate) reading: Reading,
    /// The hosts that are answered for, if not all are.
    pub(crate) hosts: Vec<String>,
    said: Option<io::Error>,
}

impl<'a, R> Memory<'a, R> {
    /// A world of this runtime and this standard input.
    pub(crate) fn new(rt: &'a R, alloc: Global, input: Vec<u8>) -> Memory<'a, R> {
        Memory {
            rt,
            alloc,
            files: BTreeMap::new(alloc),
            folders: BTreeMap::new(alloc),
            others: Vec::new(alloc),
            input,
            output: Vec::new(alloc),
            error: String::new(alloc),
            is_full: false,
            is_quiet: false,
            counter: Counter {
                coded: AtomicU64::new(0),
            },
            begun: Vec::new(alloc),
            ended: 0,
            files_begun: 0,
            files_ended: 0,
            is_locked: false,
            locks: 0,
            held: 0,
            stored: 0,
            opened: 0,
            read_whole: 0,
            reading: Reading {
                most: usize::MAX,
                end: None,
            },
            hosts: Vec::new(alloc),
            said: None,
        }
    }

    /// The fault of a refused call, of which this is said.
    fn refused(&mut self, kind: ErrorKind) -> Fault {
        self.said = Some(io::Error::from(kind));
        Fault::Shelf
    }

    /// The bytes of a file, or of standard input.
    fn bytes_of(&mut self, alloc: Global, name: &str) -> Result<Vec<u8>, Fault> {
        if name == "-" {
            return Ok(Vec::from_slice(alloc, &self.input)?);
        }
        if let Some(bytes) = self.files.get(name) {
            return Ok(Vec::from_slice(alloc, bytes)?);
        }
        Err(self.refused(ErrorKind::NotFound))
    }

    /// Appends a text to standard error.
    fn append<D: Display>(&mut self, text: &D) -> Result<(), Fault> {
        let text = format!(in self.alloc; "{text}")?;
        self.error.push_str(text.as_str())?;
        Ok(())
    }

    /// Appends bytes to standard output, unless it is full.
    fn put(&mut self, bytes: &[u8]) -> Result<(), Fault> {
        if self.is_full {
            return Err(self.refused(ErrorKind::StorageFull));
        }
        self.output.extend_from_slice(bytes)?;
        Ok(())
    }
}

/// How inputs are read.
#[derive(Clone, Copy)]
pub(crate) struct Reading {
    /// How many bytes a read gives at most.
    pub(crate) most: usize,
    /// Behind how many bytes reads fail, if they do.
    pub(crate) end: Option<usize>,
}

/// What reads that fail say.
const FAILED: ErrorKind = ErrorKind::TimedOut;

/// What is read in parts. Every other read is interrupted.
#[derive(Drop)]
pub(crate) struct Opened {
    pieces: Pieces,
    front: Front,
    was_interrupted: bool,
    has_ended: bool,
    has_failed: bool,
}

impl Read for Opened {
    fn read(&mut self, room: &mut [u8]) -> io::Result<usize> {
        self.was_interrupted = !self.was_interrupted;
        if self.was_interrupted {
            return Err(io::Error::from(ErrorKind::Interrupted));
        }
        match self.pieces.read(room) {
            Ok(count) => {
                self.has_ended |= count == 0;
                let given = count.min(room.len());
                self.front.add(&room[..given]);
                Ok(count)
            }
            Err(_) => {
                self.has_failed = true;
                Err(io::Error::from(FAILED))
            }
        }
    }
}

/// What is written in parts under a name, of which input and whether it must be new, and whether it
/// can be taken back.
#[derive(Drop)]
pub(crate) struct Written {
    name: String,
    input: Option<String>,
    is_new: bool,
    bytes: Vec<u8>,
    goes_back: bool,
}

impl Write for Written {
    fn write(&mut self, bytes: &[u8]) -> io::Result<usize> {
        self.bytes.write(bytes)
    }

    fn flush(&mut self) -> io::Result<()> {
        Ok(())
    }
}

impl<'a, R: Threads + Sync> Streams for Memory<'a, R> {
    type Output = Written;

    type Stored = MemoryStored;

    type Input = Opened;

    fn read(&mut self, alloc: Global, name: &str) -> Result<Vec<u8>, Fault> {
        let bytes = self.bytes_of(alloc, name)?;
        match self.reading.end {
            Some(_) => Err(self.refused(FAILED)),
            None => Ok(bytes),
        }
    }

    fn size(&self, name: &str) -> Option<u64> {
        Some(self.files.get(name)?.len() as u64)
    }

    fn open(&mut self, alloc: Global, name: &str) -> Result<Opened, Fault> {
        let mut bytes = self.bytes_of(alloc, name)?;
        self.opened = self.opened.saturating_add(1);
        let Reading { most, end } = self.reading;
        if let Some(end) = end {
            bytes.truncate(end);
        }
        Ok(Opened {
            pieces: Pieces::new(bytes, most, end.is_some()),
            front: Front::new(alloc),
            was_interrupted: false,
            has_ended: false,
            has_failed: false,
        })
    }

    fn close(&mut self, input: Opened) -> Result<Front, Fault> {
        if input.has_failed {
            return Err(self.refused(FAILED));
        }
        if input.has_ended {
            self.read_whole = self.read_whole.saturating_add(1);
        }
        let Opened { front, .. } = input;
        Ok(front)
    }

    fn stored(&mut self, alloc: Global, name: &str) -> Option<(MemoryStored, usize)> {
        let bytes = self.files.get(name)?;
        self.stored = self.stored.saturating_add(1);
        let copy = Vec::from_slice(alloc, bytes).ok()?;
        let size = copy.len();
        Some((MemoryStored::new(copy), size))
    }

    fn write(&mut self, alloc: Global, to: Destination<'_>, bytes: &[u8]) -> Result<(), Fault> {
        let name = to.name;
        if name == "-" {
            return self.put(bytes);
        }
        if name.contains('/') {
            return Err(self.refused(ErrorKind::NotFound));
        }
        if to.input == Some(name) && self.files.get(name).is_some() {
            return Err(self.refused(ErrorKind::InvalidInput));
        }
        if to.is_new && self.files.get(name).is_some() {
            return Err(self.refused(ErrorKind::AlreadyExists));
        }
        let copy = Vec::from_slice(alloc, bytes)?;
        self.files.insert(String::from_str(alloc, name)?, copy)?;
        Ok(())
    }

    fn create(&mut self, alloc: Global, to: Destination<'_>) -> Result<Written, Fault> {
        let input = match to.input {
            Some(input) => Some(String::from_str(alloc, input)?),
            None => None,
        };
        Ok(Written {
            name: String::from_str(alloc, to.name)?,
            input,
            is_new: to.is_new,
            bytes: Vec::new(alloc),
            goes_back: to.name != "-",
        })
    }

    fn create_held(&mut self, alloc: Global, to: Destination<'_>) -> Result<Written, Fault> {
        self.held = self.held.saturating_add(1);
        let mut output = self.create(alloc, to)?;
        output.goes_back = true;
        Ok(output)
    }

    fn finish(&mut self, output: Written, is_whole: bool) -> Result<(), Fault> {
        if !is_whole && output.goes_back {
            return Ok(());
        }
        let input = match &output.input {
            Some(input) => Some(input.as_str()),
            None => None,
        };
        let to = Destination {
            name: output.name.as_str(),
            input,
            is_new: output.is_new,
        };
        self.write(self.alloc, to, &output.bytes)
    }

    fn are_same(&self, one: &str, other: &str) -> bool {
        one == other && self.files.get(one).is_some()
    }

    fn print<D: Display>(&mut self, text: &D) -> Result<(), Fault> {
        let text = format!(in self.alloc; "{text}")?;
        self.put(text.as_bytes())
    }

    fn tell<D: Display>(&mut self, text: &D) {
        let _ = self.append(text);
    }

    fn said(&self) -> Option<io::Error> {
        self.said
    }
}

impl<'a, R: Threads + Sync> Working for Memory<'a, R> {
    type Runtime = R;

    type Counter = Counter;

    fn runtime(&self) -> &R {
        self.rt
    }

    fn counter(&self) -> &Counter {
        &self.counter
    }

    fn processors(&self) -> usize {
        3
    }

    fn be_quiet(&mut self) {
        self.is_quiet = true;
    }

    fn begin_work(&mut self, work: Work, size: Option<u64>) {
        let _ = self.begun.push((work, size));
    }

    fn begin_files(&mut self, files: u64) {
        self.files_begun = files;
    }

    fn end_file<D: Display>(&mut self, text: &D) -> Result<(), Fault> {
        self.print(text)?;
        self.files_ended = self.files_ended.saturating_add(1);
        Ok(())
    }

    fn end_work(&mut self) {
        self.ended = self.ended.saturating_add(1);
    }
}

impl<'a, R: Threads + Sync> Folders for Memory<'a, R> {
    type Folder = MemoryShelf;

    fn lock(&mut self, _alloc: Global, _folder: &str) -> Result<(), Fault> {
        self.is_locked = true;
        self.locks = self.locks.saturating_add(1);
        Ok(())
    }

    fn share(&mut self, _alloc: Global, _folder: &str) -> Result<(), Fault> {
        Ok(())
    }

    fn release(&mut self) {
        self.is_locked = false;
    }

    fn folder(&mut self, _alloc: Global, folder: &str) -> Result<MemoryShelf, Fault> {
        match self.folders.remove(folder) {
            Some(shelf) => Ok(shelf),
            None => Err(self.refused(ErrorKind::NotFound)),
        }
    }

    fn give_back(&mut self, alloc: Global, name: &str, folder: MemoryShelf) -> Result<(), Fault> {
        self.folders.insert(String::from_str(alloc, name)?, folder)?;
        Ok(())
    }

    fn begin_opening(&mut self, _folder: &mut MemoryShelf) {}

    fn end_opening(&mut self, _folder: &mut MemoryShelf) {}

    fn trouble(&mut self, _alloc: Global, _folder: &MemoryShelf) -> Option<String> {
        None
    }

    fn has_other(&self, _folder: &MemoryShelf, _name: &str) -> bool {
        false
    }

    fn tell_others(&mut self, _folder: &MemoryShelf) -> bool {
        false
    }

    fn tell_left(&mut self, _folder: &MemoryShelf) {}

    fn unjudged(&mut self, alloc: Global, _folder: &str) -> Result<Vec<Unjudged>, Fault> {
        let mut found = Vec::new(alloc);
        for (name, is_folder) in &self.others {
            found.push(Unjudged {
                name: String::from_str(alloc, name)?,
                is_folder: *is_folder,
            })?;
        }
        Ok(found)
    }

    fn answer_for(&mut self, names: Vec<String>) {
        self.hosts = names;
    }

    fn serve(
        &mut self,
        alloc: Global,
        _folder: &str,
        archive: Archive<MemoryShelf>,
        serving: Serving,
    ) -> Result<(), Fault> {
        if serving.port == 1 {
            return Err(self.refused(ErrorKind::AddrInUse));
        }
        let line = listening(alloc, archive.list().len(), serving.port, serving.unserved)?;
        self.append(&line)?;
        let how = format!(in alloc;
            "{:?} {} {} {}",
            serving.connections, serving.workers, serving.timeout, serving.log
        )?;
        self.append(&how)
    }

    fn serve_opening(
        &mut self,
        alloc: Global,
        _folder: &str,
        archive: Archive<MemoryShelf>,
        serving: Serving,
        meanwhile: Meanwhile,
    ) -> Result<(), Fault> {
        if serving.port == 1 {
            return Err(self.refused(ErrorKind::AddrInUse));
        }
        let Meanwhile { names, watch } = meanwhile;
        let line = opening(alloc, names.len(), serving.port, serving.unserved)?;
        self.append(&line)?;
        for name in &names {
            let name = format!(in alloc; "{name} ")?;
            self.append(&name)?;
        }
        let how = format!(in alloc; "{} {watch:?}", archive.list().len())?;
        self.append(&how)
    }
}

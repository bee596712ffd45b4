//! The world of the program: the system's files, streams and sockets.

use crate::files;
use crate::finder::FolderFinder;
use crate::keeper::{FolderKeeper, tell_waiting};
use crate::regular::length_of;
use crate::serving::{Asked, shelves};
use crate::source::{Source, open_source};
use crate::stored::{OnDisk, open_stored};
use crate::unjudged::unjudged;
use jk_files::{
    Lock, Lockable, Ownable, Refusal, SharedLock, are_same, wait_exclusive, wait_shared,
};
use jk_line::{Destination, Folders, Front, Meanwhile, Serving, Streams, Unjudged, Work, Working};
use jk_math::Fault;
use jk_serve::{Desk, HostNames, Opening, Paths, bind};
use jk_store::{Archive, Folder, image_name};
use jk_terminal::{Counted, Late, OutputPath, Watched};
use std::alloc::Global;
use std::fmt::Display;
use std::io::{self, BufWriter};
use std::net::{Net, TcpListener, TcpStream};
use std::os::unix::fs::FileExt;
use std::rt::Files;
use std::sync::Wait;
use std::thread::{self, Threads};
use std::time::Clock;

/// The world of the program: a runtime, who is told of work, the lock that is held, what the system
/// said where it refused the last call, and what is to be served.
#[derive(Drop)]
pub(crate) struct Host<R: Files> {
    rt: R,
    is_terminal: bool,
    is_quiet: bool,
    counted: Counted,
    lock: Option<Lock<R::File>>,
    said: Option<io::Error>,
    hosts: Option<HostNames>,
    asked: Option<Asked<R>>,
}

impl<R: Files + Drop> Host<R> {
    /// The world of a runtime, whether its standard error is a terminal, and who is told of work.
    pub(crate) fn new(rt: R, is_terminal: bool, counted: Counted) -> Host<R> {
        Host {
            rt,
            is_terminal,
            is_quiet: false,
            counted,
            lock: None,
            said: None,
            hosts: None,
            asked: None,
        }
    }

    /// What is to be served, if the line that was run asks for it.
    pub(crate) fn into_asked(self) -> Option<Asked<R>> {
        let Host { asked, .. } = self;
        asked
    }

    /// An answer of the system, of which a refusal is kept.
    fn kept<T: Drop>(&mut self, answer: Result<T, Refusal>) -> Result<T, Fault> {
        match answer {
            Ok(value) => Ok(value),
            Err(refusal) => {
                self.said = refusal.said();
                Err(refusal.fault())
            }
        }
    }

    /// The same of an answer that takes no memory.
    fn kept_of_system<T: Drop>(&mut self, answer: io::Result<T>) -> Result<T, Fault> {
        match answer {
            Ok(value) => Ok(value),
            Err(said) => self.kept(Err(Refusal::System(said))),
        }
    }
}

/// Where an output goes, in texts of its own.
fn output_path(alloc: Global, to: Destination<'_>) -> Result<OutputPath, Fault> {
    let input = match to.input {
        Some(input) => Some(String::from_str(alloc, input)?),
        None => None,
    };
    Ok(OutputPath {
        name: String::from_str(alloc, to.name)?,
        input,
        is_new: to.is_new,
    })
}

impl<R: Files + Print + Clone + Drop> Host<R>
where
    R::File: Lockable + Ownable,
{
    /// The output of a name, whose bytes go out as they come, or are held where they can't be taken
    /// back.
    fn late(
        &mut self,
        alloc: Global,
        to: Destination<'_>,
        is_held: bool,
    ) -> Result<BufWriter<Late<R>, Global>, Fault> {
        let path = output_path(alloc, to)?;
        let (rt, counted) = (self.rt.clone()?, self.counted.again());
        let late = if is_held {
            Late::held(rt, alloc, path, counted)
        } else {
            Late::new(rt, alloc, path, counted)
        };
        let answer = BufWriter::new(alloc, late);
        self.kept_of_system(answer)
    }
}

impl<R: Files + Input + Print + Eprint + AllocGlobal + Clone + Drop> Streams for Host<R>
where
    R::File: FileExt + Lockable + Ownable,
{
    type Output = BufWriter<Late<R>, Global>;

    type Stored = OnDisk<R::File>;

    type Input = Source<R::File, R::Reader>;

    fn read(&mut self, alloc: Global, name: &str) -> Result<Vec<u8>, Fault> {
        let answer = files::read(&self.rt, alloc, name);
        self.kept(answer)
    }

    fn size(&self, name: &str) -> Option<u64> {
        length_of(&self.rt, name)
    }

    fn open(&mut self, alloc: Global, name: &str) -> Result<Source<R::File, R::Reader>, Fault> {
        let answer = open_source(&self.rt, alloc, name);
        self.kept_of_system(answer)
    }

    fn close(&mut self, input: Source<R::File, R::Reader>) -> Result<Front, Fault> {
        self.kept_of_system(input.end())
    }

    fn stored(&mut self, _alloc: Global, name: &str) -> Option<(OnDisk<R::File>, usize)> {
        open_stored(&self.rt, name)
    }

    fn write(&mut self, alloc: Global, to: Destination<'_>, bytes: &[u8]) -> Result<(), Fault> {
        let answer = files::write(&self.rt, alloc, to, bytes);
        self.kept(answer)
    }

    fn create(
        &mut self,
        alloc: Global,
        to: Destination<'_>,
    ) -> Result<BufWriter<Late<R>, Global>, Fault> {
        self.late(alloc, to, false)
    }

    fn create_held(
        &mut self,
        alloc: Global,
        to: Destination<'_>,
    ) -> Result<BufWriter<Late<R>, Global>, Fault> {
        self.late(alloc, to, true)
    }

    fn finish(&mut self, output: BufWriter<Late<R>, Global>, is_whole: bool) -> Result<(), Fault> {
        let (late, last) = output.into_parts();
        let answer = late.finish(&last, is_whole);
        self.kept(answer)
    }

    fn are_same(&self, one: &str, other: &str) -> bool {
        one != "-" && other != "-" && are_same(&self.rt, one, other)
    }

    fn print<D: Display>(&mut self, text: &D) -> Result<(), Fault> {
        let answer = self.rt.print(text);
        self.kept_of_system(answer)
    }

    fn tell<D: Display>(&mut self, text: &D) {
        let _ = self.rt.eprint(text);
    }

    fn said(&self) -> Option<io::Error> {
        self.said
    }
}

impl<R: Files + Print + Eprint + Clock + Drop + Threads + Wait + Sync> Working for Host<R> {
    type Runtime = R;

    type Counter = Counted;

    fn runtime(&self) -> &R {
        &self.rt
    }

    fn counter(&self) -> &Counted {
        &self.counted
    }

    fn processors(&self) -> usize {
        match thread::available_parallelism(&self.rt) {
            Ok(count) => count.get(),
            Err(_) => 1,
        }
    }

    fn be_quiet(&mut self) {
        self.is_quiet = true;
    }

    fn begin_work(&mut self, work: Work, size: Option<u64>) {
        if self.is_quiet {
            return;
        }
        if let Some(telling) = self.counted.telling() {
            telling.begin(&self.rt, work, size);
        }
    }

    fn begin_files(&mut self, files: u64) {
        if self.is_quiet {
            return;
        }
        if let Some(telling) = self.counted.telling() {
            telling.begin_files(&self.rt, files);
        }
    }

    fn end_file<D: Display>(&mut self, text: &D) -> Result<(), Fault> {
        let answer = match self.counted.telling() {
            Some(telling) => telling.end_file(&self.rt, text),
            None => self.rt.print(text),
        };
        self.kept_of_system(answer)
    }

    fn end_work(&mut self) {
        if let Some(telling) = self.counted.telling() {
            telling.end(&self.rt);
        }
    }
}

/// The names of images under which the last listing of a folder found what can't be opened as a
/// file.
fn passed<R: Files + Drop>(alloc: Global, folder: &Folder<R>) -> Result<Vec<String>, Fault> {
    let mut names = Vec::new(alloc);
    for other in folder.others() {
        if let Some(name) = image_name(other.name.as_str()) {
            names.push(String::from_str(alloc, name)?)?;
        }
    }
    Ok(names)
}

impl<R: Files + Clone + Drop + Net<Listener = TcpListener, Stream = TcpStream>> Host<R> {
    /// What is to be served: the port, which is listened on from now on, and the archive of a folder
    /// with who adds to it and what reads it.
    fn asked(
        &mut self,
        alloc: Global,
        folder: &str,
        archive: Archive<Watched<Folder<R>, R>>,
        serving: Serving,
    ) -> Result<Asked<R>, Fault> {
        let answer = bind(&self.rt, serving.port);
        let port = self.kept_of_system(answer)?;
        let port = match self.hosts.take() {
            Some(hosts) => port.for_hosts(alloc, hosts)?,
            None => port,
        };
        let desk = Desk {
            archive,
            keeper: FolderKeeper::new(self.rt.clone()?, alloc, folder, self.is_terminal)?,
            paths: Paths::new(self.rt.clone()?),
        };
        let shelves = shelves(&self.rt, alloc, folder, serving.workers)?;
        Ok(Asked {
            port,
            desk,
            shelves,
            serving,
            opening: None,
        })
    }
}

impl<
    R: Files
        + Input
        + Print
        + Eprint
        + AllocGlobal
        + Clock
        + Clone
        + Drop
        + Threads
        + Wait
        + Send
        + Sync
        + Net<Listener = TcpListener, Stream = TcpStream>
        + 'static,
> Folders for Host<R>
where
    R::File: Lockable,
{
    type Folder = Watched<Folder<R>, R>;

    fn lock(&mut self, alloc: Global, folder: &str) -> Result<(), Fault> {
        let (rt, is_terminal) = (&self.rt, self.is_terminal);
        let answer = wait_exclusive(rt, alloc, folder, || tell_waiting(rt, is_terminal, folder));
        let lock = self.kept(answer)?;
        self.lock = Some(lock);
        Ok(())
    }

    fn share(&mut self, alloc: Global, folder: &str) -> Result<(), Fault> {
        let (rt, is_terminal) = (&self.rt, self.is_terminal);
        let answer = wait_shared(rt, alloc, folder, || tell_waiting(rt, is_terminal, folder));
        if let SharedLock::Held(lock) = self.kept(answer)? {
            self.lock = Some(lock);
        }
        Ok(())
    }

    fn release(&mut self) {
        self.lock = None;
    }

    fn folder(&mut self, alloc: Global, folder: &str) -> Result<Watched<Folder<R>, R>, Fault> {
        let folder = Folder::new(self.rt.clone()?, alloc, folder)?;
        Ok(Watched::new(folder, self.rt.clone()?))
    }

    fn give_back(
        &mut self,
        _alloc: Global,
        _name: &str,
        _folder: Watched<Folder<R>, R>,
    ) -> Result<(), Fault> {
        Ok(())
    }

    fn begin_opening(&mut self, folder: &mut Watched<Folder<R>, R>) {
        if self.is_terminal && !self.is_quiet {
            folder.begin();
        }
    }

    fn end_opening(&mut self, folder: &mut Watched<Folder<R>, R>) {
        folder.end();
    }

    fn trouble(&mut self, alloc: Global, folder: &Watched<Folder<R>, R>) -> Option<String> {
        let trouble = folder.shelf().trouble()?;
        self.said = Some(trouble.said);
        if trouble.name.is_empty() {
            return None;
        }
        String::from_str(alloc, trouble.name.as_str()).ok()
    }

    fn has_other(&self, folder: &Watched<Folder<R>, R>, name: &str) -> bool {
        folder.shelf().has_other(name)
    }

    fn tell_others(&mut self, folder: &Watched<Folder<R>, R>) -> bool {
        let rt = &self.rt;
        for other in folder.shelf().others() {
            let _ = eprintln!(rt; "jk: {} isn't listed: {}", other.name, other.said);
        }
        !folder.shelf().others().is_empty()
    }

    fn tell_left(&mut self, folder: &Watched<Folder<R>, R>) {
        let rt = &self.rt;
        for name in folder.shelf().left() {
            let _ = eprintln!(rt; "jk: {} was left when adding was broken off", name);
        }
    }

    fn unjudged(&mut self, alloc: Global, folder: &str) -> Result<Vec<Unjudged>, Fault> {
        let answer = unjudged(&self.rt, alloc, folder);
        self.kept(answer)
    }

    fn answer_for(&mut self, names: Vec<String>) {
        self.hosts = Some(HostNames::new(names));
    }

    fn serve(
        &mut self,
        alloc: Global,
        folder: &str,
        archive: Archive<Watched<Folder<R>, R>>,
        serving: Serving,
    ) -> Result<(), Fault> {
        let asked = self.asked(alloc, folder, archive, serving)?;
        self.asked = Some(asked);
        Ok(())
    }

    fn serve_opening(
        &mut self,
        alloc: Global,
        folder: &str,
        archive: Archive<Watched<Folder<R>, R>>,
        serving: Serving,
        meanwhile: Meanwhile,
    ) -> Result<(), Fault> {
        let Meanwhile { names, watch } = meanwhile;
        let opening = Opening {
            finder: FolderFinder::new(&self.rt, alloc, folder)?,
            names,
            passed: passed(alloc, archive.shelf().shelf())?,
            watch,
        };
        let mut asked = self.asked(alloc, folder, archive, serving)?;
        asked.opening = Some(opening);
        self.asked = Some(asked);
        Ok(())
    }
}

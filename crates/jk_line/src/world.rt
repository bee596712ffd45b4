//! What a command line works on.

use crate::destination::Destination;
use crate::serving::{Meanwhile, Serving};
use crate::unjudged::Unjudged;
use jk_jobs::Gate;
use jk_math::Fault;
use jk_store::{Archive, Shelf};
use jk_stored::Stored;
use jk_words::{Front, Work};
use std::alloc::Global;
use std::fmt::Display;
use std::io::{self, Read, Write};
use std::thread::Threads;

/// Files by their names, and the standard streams.
///
/// A call that is refused by the system answers Shelf, and `said` tells what the system said of it.
pub trait Streams {
    /// A file that is written in parts, or standard output.
    type Output: Write + Drop;

    /// A file that is read by places.
    type Stored: Stored + Drop;

    /// A file that is read from its beginning on, or standard input.
    type Input: Read + Drop;

    /// All bytes of a file, or of standard input for `-`.
    fn read(&mut self, alloc: Global, name: &str) -> Result<Vec<u8>, Fault>;

    /// How many bytes a regular file has; none for `-`, and where that isn't known before all of them
    /// are read.
    fn size(&self, name: &str) -> Option<u64>;

    /// Opens a file to be read from its beginning on, or standard input for `-`. What it gives are the
    /// bytes that `read` gives.
    fn open(&mut self, alloc: Global, name: &str) -> Result<Self::Input, Fault>;

    /// Ends what was read from its beginning on, and gives its front and how many bytes were read. It
    /// fails where a read of it did, but for one that was interrupted: such a read is made again.
    fn close(&mut self, input: Self::Input) -> Result<Front, Fault>;

    /// A file that is read by places, and how many bytes it has; none for `-`, or where it can't be
    /// read so, as a pipe can't. What the system says of it then isn't kept: `read` meets it again.
    fn stored(&mut self, alloc: Global, name: &str) -> Option<(Self::Stored, usize)>;

    /// Writes all bytes to a file, or to standard output for `-`. It is refused where the
    /// destination forbids the file that is there.
    fn write(&mut self, alloc: Global, to: Destination<'_>, bytes: &[u8]) -> Result<(), Fault>;

    /// A file that is to be written in parts, or standard output for `-`. Nothing is opened before
    /// the first byte is written: then it is refused as `write` is.
    fn create(&mut self, alloc: Global, to: Destination<'_>) -> Result<Self::Output, Fault>;

    /// A file that is to be written in parts before it is known whether the whole will be there, or
    /// standard output for `-`. Where they can't be written beside its place they are held, and go
    /// out in `finish` if the whole is there: what they go to isn't opened before.
    fn create_held(&mut self, alloc: Global, to: Destination<'_>) -> Result<Self::Output, Fault>;

    /// Ends what was written in parts. Where that is whole, a file takes its place now; else what
    /// has its place stays, if it is a file or if its parts are held. It is refused where a part
    /// couldn't be written or held, or the file can't take its place.
    fn finish(&mut self, output: Self::Output, is_whole: bool) -> Result<(), Fault>;

    /// Whether two names are of one file, links followed; never where one is `-`.
    fn are_same(&self, one: &str, other: &str) -> bool;

    /// Writes a text to standard output.
    fn print<D: Display>(&mut self, text: &D) -> Result<(), Fault>;

    /// Writes a text to standard error. Where that fails, nothing can be said of it.
    fn tell<D: Display>(&mut self, text: &D);

    /// What the system said where it refused the last call.
    fn said(&self) -> Option<io::Error>;
}

/// The threads of workers, and what is told of how far work is.
pub trait Working {
    /// What starts threads.
    type Runtime: Threads + Sync;

    /// Who is told of the code-blocks that workers code.
    type Counter: Gate + Sync;

    /// What starts the threads of workers.
    fn runtime(&self) -> &Self::Runtime;

    /// Who is told of the code-blocks that workers code.
    fn counter(&self) -> &Self::Counter;

    /// How many threads the machine runs at a time; 1 where it doesn't tell.
    fn processors(&self) -> usize;

    /// From now on nothing is told of how far work is.
    fn be_quiet(&mut self);

    /// From now on it is told how far this work is, on the image of a file of so many bytes, if it is
    /// known how many, where standard error is a terminal.
    fn begin_work(&mut self, work: Work, size: Option<u64>);

    /// From now on it is told how many of so many files are done, where standard error is a
    /// terminal.
    fn begin_files(&mut self, files: u64);

    /// One file more is done, of which this is written to standard output.
    fn end_file<D: Display>(&mut self, text: &D) -> Result<(), Fault>;

    /// Ends what `begin_work` or `begin_files` began, and takes away what is told of it.
    fn end_work(&mut self);
}

/// The folders of archives. A call that is refused by the system answers Shelf, as one of
/// [`Streams`] does.
pub trait Folders {
    /// The folder of an archive.
    type Folder: Shelf + Drop;

    /// Takes the lock of an archive's folder alone, to add to it. Shelf: another holds it.
    fn lock(&mut self, alloc: Global, folder: &str) -> Result<(), Fault>;

    /// Takes the lock of an archive's folder together with others, to read it. Shelf: another holds
    /// it alone.
    fn share(&mut self, alloc: Global, folder: &str) -> Result<(), Fault>;

    /// Lets the lock go.
    fn release(&mut self);

    /// The folder of an archive.
    fn folder(&mut self, alloc: Global, folder: &str) -> Result<Self::Folder, Fault>;

    /// Takes the folder of an archive back.
    fn give_back(&mut self, alloc: Global, name: &str, folder: Self::Folder) -> Result<(), Fault>;

    /// From now on it is told how many files of an archive's folder were read and how long the
    /// others may take, where standard error is a terminal: they are read one after another, which
    /// takes a while where there are many.
    fn begin_opening(&mut self, folder: &mut Self::Folder);

    /// Ends that, and takes away what is told of it.
    fn end_opening(&mut self, folder: &mut Self::Folder);

    /// The file of an archive's folder at which the folder's last call was refused, if it was one.
    /// What the system said of it is what `said` tells then.
    fn trouble(&mut self, alloc: Global, folder: &Self::Folder) -> Option<String>;

    /// Whether the last listing of an archive's folder found something under the name of an image
    /// that can't be opened as a file.
    fn has_other(&self, folder: &Self::Folder, name: &str) -> bool;

    /// Writes to standard error what stands in an archive's folder under the name of an image and
    /// can't be opened as a file, and answers whether there is any.
    fn tell_others(&mut self, folder: &Self::Folder) -> bool;

    /// Writes to standard error which files of an archive's folder are left from an adding that was
    /// broken off.
    fn tell_left(&mut self, folder: &Self::Folder);

    /// What stands in an archive's folder and isn't checked or served because of its name, in the
    /// order of the names: all but the files of images, what stands under the name of one, and what
    /// begins with a point.
    fn unjudged(&mut self, alloc: Global, folder: &str) -> Result<Vec<Unjudged>, Fault>;

    /// From now on requests for hosts of these names alone are answered; others are forbidden.
    fn answer_for(&mut self, names: Vec<String>);

    /// Listens on the port, and keeps the archive of this folder and how it is to be served for the
    /// time when the line is done: then the requests of connections are answered, and the lines of
    /// standard input followed, which add images.
    fn serve(
        &mut self,
        alloc: Global,
        folder: &str,
        archive: Archive<Self::Folder>,
        serving: Serving,
    ) -> Result<(), Fault>;

    /// The same, where files of the folder are opened, and their images listed, while the requests of
    /// connections are answered.
    fn serve_opening(
        &mut self,
        alloc: Global,
        folder: &str,
        archive: Archive<Self::Folder>,
        serving: Serving,
        meanwhile: Meanwhile,
    ) -> Result<(), Fault>;
}

/// All that a command line works on.
pub trait World: Streams + Working + Folders {}

impl<W: Streams + Working + Folders> World for W {}

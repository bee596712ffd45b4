//! How far work on an image is, or on several files, in words.

use std::fmt;

/// Work on an image, which may take long.
#[derive(Clone, Copy, Debug, PartialEq, Eq)]
pub enum Work {
    /// An image is encoded.
    Encoding,
    /// An image, or a window of it, is decoded.
    Decoding,
}

/// How far work on an image is: what can be known of it beside the work. How much of it is done, of
/// what is to be done, the work alone could tell.
#[derive(Clone, Copy, Debug, PartialEq, Eq)]
pub struct Progress {
    /// What is done.
    pub work: Work,
    /// How many bytes the file has that it is done to, if it is known.
    pub size: Option<u64>,
    /// For how many seconds it has gone on.
    pub seconds: u64,
    /// How many code-blocks workers have coded at least: of small ones they tell together.
    pub coded: u64,
    /// How many bytes of the new file were written.
    pub written: u64,
}

/// How far work on several files is.
#[derive(Clone, Copy, Debug, PartialEq, Eq)]
pub struct FilesProgress {
    /// How many files are done.
    pub done: u64,
    /// How many there are.
    pub files: u64,
    /// For how many seconds it has gone on.
    pub seconds: u64,
}

/// A number of bytes, told in megabytes.
#[derive(Clone, Copy)]
struct Megabytes {
    bytes: u64,
}

impl fmt::Display for Megabytes {
    fn fmt<W: fmt::Write>(&self, f: &mut fmt::Formatter<W>) -> fmt::Result {
        let tenths = self.bytes / 100_000;
        write!(f, "{}.{} MB", tenths / 10, tenths % 10)
    }
}

/// The name of what is done.
fn name_of(work: Work) -> &'static str {
    match work {
        Work::Encoding => "encoding",
        Work::Decoding => "decoding",
    }
}

impl fmt::Display for Progress {
    fn fmt<W: fmt::Write>(&self, f: &mut fmt::Formatter<W>) -> fmt::Result {
        write!(f, "jk: {}", name_of(self.work))?;
        if let Some(bytes) = self.size {
            let size = Megabytes { bytes };
            write!(f, " {size}")?;
        }
        write!(f, ", {} s", self.seconds)?;
        if self.coded > 0 {
            write!(f, ", at least {} code-blocks coded", self.coded)?;
        }
        if self.written > 0 {
            let written = Megabytes {
                bytes: self.written,
            };
            write!(f, ", {written} written")?;
        }
        Ok(())
    }
}

impl fmt::Display for FilesProgress {
    fn fmt<W: fmt::Write>(&self, f: &mut fmt::Formatter<W>) -> fmt::Result {
        let (done, files) = (self.done, self.files);
        write!(f, "jk: {done} of {files} files, {} s", self.seconds)
    }
}

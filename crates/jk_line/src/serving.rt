//! How an archive is served.

use jk_math::Fault;

/// How an archive is served.
#[derive(Clone, Copy, Debug, PartialEq, Eq)]
pub struct Serving {
    /// The port on 127.0.0.1, or 0 for one that is free.
    pub port: u16,
    /// How many connections are taken before the end; without a number there is none.
    pub connections: Option<u32>,
    /// How many connections are served at a time, 1 to 64.
    pub workers: usize,
    /// How long a read or a write on a connection may wait, in seconds, 1 to 3,600.
    pub timeout: u32,
    /// Whether each request is told on standard error.
    pub log: bool,
    /// How many files and folders of the archive's folder aren't served because of their names.
    pub unserved: usize,
    /// The first fault for which a file was left out that might have been listed: serving ends with it.
    pub left_out: Option<Fault>,
}

/// What is opened while it is served.
#[derive(Drop)]
pub struct Meanwhile {
    /// The names of the images whose files wait to be opened.
    pub names: Vec<String>,
    /// After how many seconds each the folder is listed again, 1 to 3,600, if it is.
    pub watch: Option<u32>,
}

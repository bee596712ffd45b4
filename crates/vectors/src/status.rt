//! What the system tells of the process.

use std::alloc::Global;
use std::fs::File;
use std::io::{self, ErrorKind};
use std::rt::Files;

/// The number behind a word of a text of lines.
fn number_behind(text: &str, word: &str) -> Option<u64> {
    for line in text.split('\n') {
        let mut words = line.split_whitespace();
        if words.next() == Some(word) {
            return words.next()?.parse::<u64>().ok();
        }
    }
    None
}

/// How many kilobytes the process has or has had, by the word that the system tells it by.
pub fn kilobytes<R: Files>(rt: &R, alloc: Global, word: &str) -> io::Result<u64> {
    let state = io::read_to_string(alloc, File::open(rt, "/proc/self/status")?)?;
    match number_behind(state.as_str(), word) {
        Some(number) => Ok(number),
        None => Err(io::Error::from(ErrorKind::NotFound)),
    }
}

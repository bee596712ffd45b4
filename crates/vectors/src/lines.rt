//! The lines of a table, read field by field.

ghost use Rattle.std.specs.Prelude.{◌≤◌};

use crate::bytes_of;
use std::alloc::Global;
use std::fmt::{self, Debug, Formatter, Write};

/// What a line lacks.
#[derive(Clone, Copy, PartialEq)]
enum Lack {
    Nothing,
    /// The field of this number, from 1 on, isn't there or isn't what was asked for.
    Field(u32),
    /// Memory for what a field says.
    Memory,
}

/// A line that isn't as it is read.
pub struct Unread<'a> {
    line: &'a str,
    count: u32,
    lack: Lack,
}

impl Debug for Unread<'_> {
    fn fmt<W: Write>(&self, f: &mut Formatter<W>) -> fmt::Result {
        match self.lack {
            Lack::Memory => write!(f, "AllocError in {}", self.line),
            Lack::Field(number) => write!(f, "field {number} of {}", self.line),
            Lack::Nothing => write!(f, "more than {} fields in {}", self.count, self.line),
        }
    }
}

/// A line of a table. A field that isn't there, or isn't what is asked for, is read as the least that
/// it may be, and told by `end`, without which no line can be let go.
pub struct Line<'a> {
    line: &'a str,
    rest: Option<&'a str>,
    parted: char,
    count: u32,
    lack: Lack,
}

impl<'a> Line<'a> {
    /// A line whose fields are parted by this character.
    pub fn new(line: &'a str, parted: char) -> Line<'a> {
        Line {
            line,
            rest: Some(line),
            parted,
            count: 0,
            lack: Lack::Nothing,
        }
    }

    /// Notes what the line lacks, if that is the first.
    fn lacks(&mut self, lack: Lack) {
        if self.lack == Lack::Nothing {
            self.lack = lack;
        }
    }

    /// The next field.
    pub fn word(&mut self) -> &'a str {
        self.count = self.count.saturating_add(1);
        let Some(rest) = self.rest else {
            self.lacks(Lack::Field(self.count));
            return "";
        };
        match rest.split_once(self.parted) {
            Some((word, more)) => {
                self.rest = Some(more);
                word
            }
            None => {
                self.rest = None;
                rest
            }
        }
    }

    /// All fields that are left, of which there is one at least.
    pub fn rest(&mut self) -> &'a str {
        self.count = self.count.saturating_add(1);
        let rest = self.rest;
        self.rest = None;
        match rest {
            Some(rest) => rest,
            None => {
                self.lacks(Lack::Field(self.count));
                ""
            }
        }
    }

    /// The next field, a number from `least` to `most`.
    pub fn number(&mut self, least: u64, most: u64) -> u64
        requires { least ≤ most }
        ensures least { least ≤ result }
        ensures most { result ≤ most }
    {
        match self.word().parse::<u64>() {
            Ok(number) if least <= number && number <= most => number,
            _ => {
                self.lacks(Lack::Field(self.count));
                least
            }
        }
    }

    /// The next field, bytes in hexadecimal digits. What is no digit is passed over.
    pub fn bytes(&mut self, alloc: Global) -> Vec<u8> {
        match bytes_of(alloc, &[self.word()]) {
            Ok(bytes) => bytes,
            Err(_) => {
                self.lacks(Lack::Memory);
                Vec::new(alloc)
            }
        }
    }

    /// The next field, numbers that are parted by another character; `-` has none.
    pub fn numbers(&mut self, alloc: Global, parted: char) -> Vec<i32> {
        let mut numbers = Vec::new(alloc);
        let word = self.word();
        if word == "-" {
            return numbers;
        }
        for part in word.split(parted) {
            let Ok(number) = part.parse::<i32>() else {
                self.lacks(Lack::Field(self.count));
                return numbers;
            };
            if numbers.push(number).is_err() {
                self.lacks(Lack::Memory);
                return numbers;
            }
        }
        numbers
    }

    /// Whether each field was what was asked for, and none is left.
    pub fn end(self) -> Result<(), Unread<'a>> {
        let Line {
            line,
            rest,
            parted: _parted,
            count,
            lack,
        } = self;
        if lack == Lack::Nothing && rest.is_none() {
            Ok(())
        } else {
            Err(Unread { line, count, lack })
        }
    }
}

#[cfg(test)]
mod tests {
    use super::{Line, Unread};
    use std::alloc::Global;

    /// Whether a line is told as one that isn't as it was read.
    fn is_unread(line: Line<'_>) -> bool {
        match line.end() {
            Ok(()) => false,
            Err(
                Unread {
                    line: _line,
                    count: _count,
                    lack: _lack,
                },
            ) => true,
        }
    }

    /// A number from 3 to 9 and a word, and whether the line is told.
    fn read(text: &str) -> (u64, &str, bool) {
        let mut line = Line::new(text, ' ');
        let number = line.number(3, 9);
        let word = line.word();
        (number, word, is_unread(line))
    }

    /// How many numbers a field has, and whether the line is told.
    fn count(alloc: Global, text: &str) -> (usize, bool) {
        let mut line = Line::new(text, ' ');
        let numbers = line.numbers(alloc, ',');
        (numbers.len(), is_unread(line))
    }

    #[test]
    fn fields_are_read(rt: HostRuntime) {
        assert!(rt; read("3 ab") == (3, "ab", false));
        assert!(rt; read("9 ") == (9, "", false));
        assert!(rt; count(rt.alloc(), "-") == (0, false));
        assert!(rt; count(rt.alloc(), "5,-6,7") == (3, false));
        let mut line = Line::new("0Aff x y", ' ');
        assert!(rt; line.bytes(rt.alloc()).as_slice() == [0x0A, 0xFF].as_slice());
        assert!(rt; line.rest() == "x y");
        assert!(rt; !is_unread(line));
    }

    #[test]
    fn what_a_line_lacks_is_told(rt: HostRuntime) {
        for text in ["2 ab", "10 ab", "-4 ab", "x ab", " ab", "", "3", "3 ab c"] {
            let (_number, _word, told) = read(text);
            assert!(rt; told, "{text}");
        }
        for text in ["5,x", "", "5,,6", "5 6"] {
            let (_count, told) = count(rt.alloc(), text);
            assert!(rt; told, "{text}");
        }
        assert!(rt; is_unread(Line::new("a", ' ')));
    }
}

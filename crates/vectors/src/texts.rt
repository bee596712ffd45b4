//! Texts that are put together of words and numbers, to be compared with a line of a table.

use std::alloc::{AllocError, Global};
use std::fmt::{Debug, Display};

/// A text that is put together piece by piece. A piece that there is no memory for is left out, and
/// told by `end`, without which no text can be let go.
pub struct Told {
    alloc: Global,
    text: String,
    refused: Result<(), AllocError>,
}

impl Told {
    /// No text.
    pub fn new(alloc: Global) -> Told {
        Told {
            alloc,
            text: String::new(alloc),
            refused: Ok(()),
        }
    }

    /// A word more.
    pub fn word(&mut self, word: &str) {
        if let Err(refused) = self.text.push_str(word) {
            self.refused = Err(refused);
        }
    }

    /// A value more, as for a programmer.
    pub fn shown<T: Debug>(&mut self, value: &T) {
        match format!(in self.alloc; "{value:?}") {
            Ok(text) => self.word(text.as_str()),
            Err(refused) => self.refused = Err(refused),
        }
    }

    /// A value more, as for a reader.
    pub fn said<T: Display>(&mut self, value: &T) {
        match format!(in self.alloc; "{value}") {
            Ok(text) => self.word(text.as_str()),
            Err(refused) => self.refused = Err(refused),
        }
    }

    /// Numbers more, with a word between each two.
    pub fn numbers(&mut self, numbers: &[u64], between: &str) {
        let mut is_first = true;
        for number in numbers {
            if !is_first {
                self.word(between);
            }
            is_first = false;
            self.shown(number);
        }
    }

    /// Bytes more, in hexadecimal digits.
    pub fn bytes(&mut self, bytes: &[u8]) {
        for byte in bytes {
            match format!(in self.alloc; "{byte:02x}") {
                Ok(text) => self.word(text.as_str()),
                Err(refused) => self.refused = Err(refused),
            }
        }
    }

    /// The text, if there was memory for all of it.
    pub fn end(self) -> Result<String, AllocError> {
        let Told {
            alloc: _alloc,
            text,
            refused,
        } = self;
        match refused {
            Ok(()) => Ok(text),
            Err(refused) => Err(refused),
        }
    }
}

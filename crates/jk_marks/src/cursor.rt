//! Reading numbers from the bytes of a codestream.

ghost use Rattle.std.specs.Prelude.{◌≡◌, ◌≤◌, ◌==◌, length, Ok, Err, MatchResult, OnErr};
ghost use Rattle.jk_math.specs.Answer.{Reads};
ghost use Rattle.jk_marks.specs.Place.{ReadingPlace, closed, outside};
ghost use Rattle.jk_marks.specs.Reading.{number, segment_length, passing, passed_at};
ghost use Rattle.jk_marks.specs.HeaderReading.{next_byte};

use byteorder::{BigEndian, ByteOrder};
use jk_math::Fault;
use std::marker::Model;

/// A place in the bytes of a codestream or tile-part, and how much room is left in the marker
/// segment that was entered.
///
/// Truncated: the bytes end before the field does. BadLength: the segment does. A read that fails
/// leaves the cursor where it was.
#[derive(Debug, Drop)]
pub struct Cursor<'a> {
    bytes: &'a [u8],
    at: usize,
    room: usize,
}

impl<'a> Model for Cursor<'a> {
    ghost use Rattle.std.specs.Prelude.{drop, length, ◌≤◌};
    ghost use Rattle.jk_marks.specs.Place.{ReadingPlace};

    ghost Value = { ReadingPlace };

    ghost view = { λ c. record { rest = drop c.at c.bytes.now; at = c.at; room = c.room } };

    ghost invariant = { λ c. c.at ≤ length c.bytes.now };
}

impl<'a> Cursor<'a> {
    /// The place after the first `at` bytes, outside of any segment.
    pub fn new(bytes: &'a [u8], at: usize) -> Cursor<'a>
        requires { at ≤ length bytes.now }
        ensures { result ≡ closed bytes.now at }
    {
        Cursor {
            bytes,
            at,
            room: bytes.len() - at,
        }
    }

    /// How many bytes stand before this place.
    pub fn at(&self) -> usize
        ensures { result ≡ self.now.at }
    {
        self.at
    }

    /// How many bytes are left.
    pub fn left(&self) -> usize
        ensures { result ≡ length self.now.rest }
    {
        self.bytes.len() - self.at
    }

    /// Whether no byte is left.
    pub fn is_at_end(&self) -> bool
        ensures { result ≡ (length self.now.rest == 0) }
    {
        self.bytes[self.at..].is_empty()
    }

    /// A number of one byte.
    #[tactic(auto, unfolding(crate::specs::Reading::number))]
    pub fn byte(&mut self) -> Result<u8, Fault>
        ensures exact { Reads (number 1) self.old self.new result }
        ensures stays { OnErr result (self.new ≡ self.old) }
    {
        if self.bytes.len() - self.at < 1 {
            return Err(Fault::Truncated);
        }
        if self.room < 1 {
            return Err(Fault::BadLength);
        }
        let value = self.bytes[self.at];
        self.at += 1;
        self.room -= 1;
        Ok(value)
    }

    /// A number of two bytes.
    #[tactic(auto, unfolding(crate::specs::Reading::number))]
    pub fn two_bytes(&mut self) -> Result<u16, Fault>
        ensures exact { Reads (number 2) self.old self.new result }
        ensures stays { OnErr result (self.new ≡ self.old) }
    {
        if self.bytes.len() - self.at < 2 {
            return Err(Fault::Truncated);
        }
        if self.room < 2 {
            return Err(Fault::BadLength);
        }
        let value = BigEndian::read_u16(&self.bytes[self.at..]);
        self.at += 2;
        self.room -= 2;
        Ok(value)
    }

    /// A number of four bytes.
    #[tactic(auto, unfolding(crate::specs::Reading::number))]
    pub fn four_bytes(&mut self) -> Result<u32, Fault>
        ensures exact { Reads (number 4) self.old self.new result }
        ensures stays { OnErr result (self.new ≡ self.old) }
    {
        if self.bytes.len() - self.at < 4 {
            return Err(Fault::Truncated);
        }
        if self.room < 4 {
            return Err(Fault::BadLength);
        }
        let value = BigEndian::read_u32(&self.bytes[self.at..]);
        self.at += 4;
        self.room -= 4;
        Ok(value)
    }

    /// The length of a marker segment, which is entered with it.
    #[tactic(auto, unfolding(crate::specs::Reading::segment_length))]
    pub fn enter(&mut self) -> Result<u16, Fault>
        ensures exact { Reads segment_length self.old self.new result }
        ensures stays { OnErr result (self.new ≡ self.old) }
    {
        let length = self.two_bytes()?;
        self.room = (length as usize).saturating_sub(2);
        Ok(length)
    }

    /// Leaves the marker segment.
    pub fn leave(&mut self)
        ensures { self.new ≡ outside self.old }
    {
        self.room = self.bytes.len() - self.at;
    }

    /// Passes over a marker segment, from its length on.
    #[tactic(auto, unfolding(crate::specs::Reading::passed_at))]
    pub(crate) fn pass_segment(&mut self) -> Result<&'a [u8], Fault>
        ensures exact { MatchResult result
            (λ s. passed_at self.old ≡ Ok (s.now, self.new))
            (λ e. passed_at self.old ≡ Err e) }
        ensures stays { OnErr result (self.new ≡ self.old) }
    {
        let mut inside = Cursor {
            bytes: self.bytes,
            at: self.at,
            room: self.room,
        };
        let length = inside.enter()?;
        if length < 2 {
            return Err(Fault::BadLength);
        }
        let passed = inside.pass(length as usize - 2)?;
        *self = inside;
        Ok(passed)
    }

    /// The next `count` bytes of the segment, which has them.
    #[tactic(auto, unfolding(crate::specs::Reading::passing))]
    pub(crate) fn pass(&mut self, count: usize) -> Result<&'a [u8], Fault>
        ensures exact { MatchResult result
            (λ s. passing count self.old ≡ Ok (s.now, self.new))
            (λ e. passing count self.old ≡ Err e) }
        ensures stays { OnErr result (self.new ≡ self.old) }
    {
        if self.bytes.len() - self.at < count {
            return Err(Fault::Truncated);
        }
        let passed = &self.bytes[self.at..self.at + count];
        self.at += count;
        self.room = self.room.saturating_sub(count);
        Ok(passed)
    }

    /// The next byte, which stays; 0 where there is none.
    pub(crate) fn next_byte(&self) -> u8
        ensures { result ≡ next_byte self.now }
    {
        if self.at < self.bytes.len() {
            self.bytes[self.at]
        } else {
            0
        }
    }
}

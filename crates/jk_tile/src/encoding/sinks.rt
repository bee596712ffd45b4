//! What takes the text of packets, piece by piece: a list, a count of its bytes, or a writer.

ghost use Rattle.std.specs.Prelude.{◌≡◌, ℕ, List, ◌+◌, ◌<◌};

use jk_math::{Fault, write_out};
use std::io::Write;

/// What takes a text, piece by piece: a list, a count of its bytes, or a writer.
pub trait TextSink {
    ghost use Rattle.std.specs.Prelude.{ℕ, List, [], ◌++◌};
    ghost use Rattle.jk_math.specs.declared.fault.Fault.{Fault};
    ghost use Rattle.jk_tile.specs.encoding.Sinks.{IsPassed};

    // It was in the first state, took this text, and is in the second.
    ghost took: { Self → List ℕ → Self → Type 0 };

    // It may tell this fault.
    ghost tells: { Fault → Type 0 };

    /// Takes the next piece of the text, or a beginning of it where it tells a fault.
    fn take(&mut self, piece: &[u8]) -> Result<(), Fault>
        ensures { (part : List ℕ) × took self.old part self.new × IsPassed tells piece.now part result };

    /// Whether what was taken is held in memory, so that the packets of a tile may be too while they are
    /// passed on.
    fn holds(&self) -> bool;

    // It may take nothing, and one text behind another.
    ghost none: { (s : Self) → took s [] s };

    ghost joined: { (s t u : Self) (x y : List ℕ) → took s x t → took t y u → took s (x ++ y) u };
}

impl TextSink for Vec<u8> {
    ghost use Rattle.jk_math.specs.Memory.{IsMemory};
    ghost use Rattle.jk_tile.specs.encoding.Sinks.{IsBehind, behind_none, behind_joined};

    ghost took = { λ s x t. IsBehind s.items x t.items };

    ghost tells = { IsMemory };

    ghost none = { λ s. behind_none s.items };

    ghost joined = { λ s t u. behind_joined s.items t.items u.items };

    fn take(&mut self, piece: &[u8]) -> Result<(), Fault> {
        self.extend_from_slice(piece)?;
        Ok(())
    }

    fn holds(&self) -> bool {
        true
    }
}

/// How many bytes a text has, as far as a number of 64 bits tells.
#[derive(Drop)]
pub(crate) struct TextSize {
    pub(crate) bytes: u64,
}

impl TextSink for TextSize {
    ghost use Rattle.jk_tile.specs.encoding.Sinks.{IsCounted, counted_none, counted_joined};

    ghost took = { λ s x t. IsCounted s.bytes x t.bytes };

    ghost tells = { λ _. ⊥ };

    ghost none = { λ s. counted_none s.bytes };

    ghost joined = { λ s t u. counted_joined s.bytes t.bytes u.bytes };

    fn take(&mut self, piece: &[u8]) -> Result<(), Fault> {
        self.bytes = self.bytes.saturating_add(piece.len() as u64);
        Ok(())
    }

    fn holds(&self) -> bool {
        false
    }
}

/// A writer that gets a text.
#[derive(Drop)]
pub struct TextWriter<'a, W> {
    /// Which one.
    pub writer: &'a mut W,
}

impl<'a, W: Write> TextSink for TextWriter<'a, W> {
    ghost use Rattle.jk_math.specs.declared.fault.Fault.TheVariants.{Shelf};
    ghost use Rattle.jk_tile.specs.encoding.Sinks.{IsWrittenBehind, written_none, written_joined};

    ghost took = { IsWrittenBehind W.contents };

    ghost tells = { λ e. e ≡ Shelf };

    ghost none = { written_none W.contents };

    ghost joined = { written_joined W.contents };

    fn take(&mut self, piece: &[u8]) -> Result<(), Fault> {
        if write_out(self.writer, piece) {
            Ok(())
        } else {
            Err(Fault::Shelf)
        }
    }

    fn holds(&self) -> bool {
        false
    }
}

//! What the tests against outside values share: bytes as hexadecimal texts, the lines of tables,
//! texts, comparisons, checksums and numbers by chance, how much memory the process has, what a
//! gate is told of jobs, and a reader that counts its reads. Nothing here ends a test: what fails
//! is told by a result that a test can't let go but by `expect`.
#![tactic(auto)]

mod claims;
mod lines;
mod meeting;
mod pieces;
mod status;
mod sums;
mod texts;

pub use claims::{Different, DifferentAt, equal, equal_at};
pub use lines::{Line, Unread};
pub use meeting::Meeting;
pub use pieces::Pieces;
pub use status::kilobytes;
use std::alloc::{AllocError, Global};
pub use sums::{drawn, folded, sum_of};
pub use texts::Told;

/// The bytes of hexadecimal texts, one text behind the other. What is no digit is passed over.
pub fn bytes_of(alloc: Global, texts: &[&str]) -> Result<Vec<u8>, AllocError> {
    let mut bytes = Vec::new(alloc);
    let mut high = None;
    for text in texts {
        for digit in text.chars() {
            let Some(value) = digit.to_digit(16) else {
                continue;
            };
            let value = (value & 0xF) as u8;
            match high {
                None => high = Some(value),
                Some(first) => {
                    bytes.push((first & 0xF) << 4 | value)?;
                    high = None;
                }
            }
        }
    }
    Ok(bytes)
}

//! Lists of the digests of files, in the form of `sha256sum`.

ghost use Rattle.std.specs.Prelude.{◌≡◌, ◌≢◌, ◌⊎◌, ◌++◌, ◌∷◌, ◌<◌, [], ℕ, List, All, length, map, IfOk, IfErr, IfSome};
ghost use Rattle.std.specs.Prelude.{IfNone, OnOk, MatchResult};
ghost use Rattle.std.specs.List.{flat_map};
ghost use Rattle.std.specs.String.{string_bytes};
ghost use Rattle.jk_commands.specs.Sums.{ended, sum_text, IsOneLine, IsSumLine, SumFields, sum_fields, IsSumList};
ghost use Rattle.jk_commands.specs.Sums.{IsOutOfMemory};

use hex::FromHex;
use jk_math::Refused;
use std::alloc::{AllocError, AllocFailed, Global};
use std::collections::BTreeSet;

/// The name of a file, and its SHA-256.
#[derive(Drop)]
pub struct Sum {
    pub name: String,
    pub digest: [u8; 32],
}

/// Appends the line of a file.
fn put_sum(alloc: Global, text: &mut String, sum: &Sum) -> Result<(), AllocError>
    ensures { OnOk result (string_bytes text.new ≡ string_bytes text.old ++ sum_text sum.now) }
{
    let digits = hex::encode(alloc, &sum.digest)?;
    text.push_str(digits.as_str())?;
    text.push_str("  ")?;
    text.push_str(sum.name.as_str())?;
    text.push_str("\n")
}

/// The list of files, a line each, as `sha256sum` writes it.
pub fn sums_text(alloc: Global, sums: &[Sum]) -> Result<String, AllocError>
    ensures { IfOk result (λ t. string_bytes t ≡ flat_map sum_text sums.now) }
{
    let mut text = String::new(alloc);
    for sum in sums {
        put_sum(alloc, &mut text, sum)?;
    }
    Ok(text)
}

/// Why a text isn't a list of files.
#[derive(Clone, Copy, Debug, PartialEq, Eq)]
pub enum BadList {
    /// A growth of memory was refused.
    Memory(Refused),
    /// This line, counted from 1, isn't a digest and a name.
    Line(u64),
    /// This line has the name of one before it.
    Again(u64),
}

impl From<AllocError> for BadList {
    ghost from_gives = { λ _ e. IsOutOfMemory e };

    fn from(error: AllocError) -> BadList {
        BadList::Memory(Refused::from(error))
    }
}

impl<T: Drop> From<AllocFailed<T>> for BadList {
    ghost from_gives = { λ _ e. IsOutOfMemory e };

    fn from(error: AllocFailed<T>) -> BadList {
        BadList::Memory(Refused::from(error))
    }
}

/// What a line says of a file.
#[derive(Clone, Copy)]
struct SumLine<'a> {
    digest: [u8; 32],
    name: &'a str,
}

/// What stands behind the mark of how a file was read, a space or an asterisk.
fn behind_mark(text: &str) -> Option<&str>
    ensures found { IfSome result (λ name. (mark : ℕ) × (text.now ≡ mark ∷ name.now) × ((mark ≡ 32) ⊎ (mark ≡ 42))) }
    ensures only { IfNone result ((mark : ℕ) (name : List ℕ) → text.now ≡ mark ∷ name → (mark ≡ 32) ⊎ (mark ≡ 42) → ⊥) }
{
    match text.strip_prefix(' ') {
        Some(name) => Some(name),
        None => text.strip_prefix('*'),
    }
}

/// What a line says: a digest of 64 hexadecimal digits, two spaces or a space and an asterisk, and
/// the name of a file.
fn line_of(line: &str) -> Option<SumLine<'_>>
    ensures found { IfSome result (λ l. IsSumLine line.now l.digest l.name.now) }
    ensures only { IfNone result ((digest name : List ℕ) → IsSumLine line.now digest name → ⊥) }
{
    let (digits, rest) = line.split_once(' ')?;
    let name = behind_mark(rest)?;
    let digest = <[u8; 32] as FromHex>::from_hex(digits).ok()?;
    Some(SumLine { digest, name })
}

/// The first line of a text without its end, and what stands behind it.
fn first_line(text: &str) -> (&str, &str)
    ensures line { IsOneLine result.0.now }
    ensures text { (text.now ≡ ended result.0.now ++ result.1.now)
        ⊎ ((text.now ≡ result.0.now) × (result.1.now ≡ [])) }
    ensures shorter { 0 < length text.now → length result.1.now < length text.now }
{
    match text.split_once('\n') {
        Some((line, rest)) => (line, rest),
        None => (text, ""),
    }
}

/// Reads a list of files, as `sha256sum` writes it.
///
/// The first line that isn't one of a list is refused, or that has a name again.
pub fn read_sums(alloc: Global, text: &str) -> Result<Vec<Sum>, BadList>
    ensures found { IfOk result (λ v. IsSumList text.now (map sum_fields v.items)) }
    ensures only { (sums : List SumFields) → IsSumList text.now sums
        → MatchResult result (λ v. map sum_fields v.items ≡ sums) IsOutOfMemory }
{
    let mut sums = Vec::new(alloc);
    let mut names = BTreeSet::new(alloc);
    let mut rest = text;
    'lines: while !rest.is_empty() {
        let (line, behind) = first_line(rest);
        let number = (sums.len() as u64).saturating_add(1);
        let Some(said) = line_of(line) else {
            return Err(BadList::Line(number));
        };
        if !names.insert(String::from_str(alloc, said.name)?)? {
            return Err(BadList::Again(number));
        }
        sums.push(Sum {
            name: String::from_str(alloc, said.name)?,
            digest: said.digest,
        })?;
        rest = behind;
    }
    Ok(sums)
}

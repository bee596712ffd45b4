//! Names of images, and of their files.

ghost use Rattle.std.specs.Prelude.{◌≡◌, IfOk, IfErr, MatchOption, OnOk, ◌++◌, ◌||◌, ℕ, List, map, true, false};
ghost use Rattle.std.specs.Str.{bytes_eq};
ghost use Rattle.std.specs.BTreeSet.{contains_text};
ghost use Rattle.std.specs.List.{list_all};
ghost use Rattle.std.specs.String.{string_bytes};
ghost use Rattle.jk_math.specs.Memory.{IsMemory};
ghost use Rattle.jk_store.specs.Names.{is_name_byte, is_good_name, is_file_of, is_image, file_name, temporary_name};

use jk_math::Fault;
use std::alloc::Global;
use std::collections::BTreeSet;

/// Whether a byte may stand in a name.
fn is_name_byte(byte: u8) -> bool
    ensures { result ≡ is_name_byte byte }
{
    matches!(byte, b'a'..=b'z' | b'0'..=b'9' | b'-' | b'_')
}

/// Whether all bytes may stand in a name.
fn are_name_bytes(bytes: &[u8]) -> bool
    ensures { result ≡ list_all is_name_byte bytes.now }
{
    bytes.iter().all(|byte| is_name_byte(*byte))
}

/// Whether an image may have this name: 1 to 64 of `a` to `z`, `0` to `9`, `-` and `_`.
pub fn is_good_name(name: &str) -> bool
    ensures { result ≡ is_good_name name.now }
{
    let bytes = name.as_bytes();
    1 <= bytes.len() && bytes.len() <= 64 && are_name_bytes(bytes)
}

/// A name with an ending.
fn with_ending(alloc: Global, name: &str, ending: &str) -> Result<String, Fault>
    ensures ok { IfOk result (λ s. string_bytes s ≡ name.now ++ ending.now) }
    ensures err { IfErr result IsMemory }
{
    let mut text = String::from_str(alloc, name)?;
    text.push_str(ending)?;
    Ok(text)
}

/// The name of an image's file.
pub(crate) fn file_name(alloc: Global, name: &str) -> Result<String, Fault>
    ensures ok { IfOk result (λ s. string_bytes s ≡ file_name name.now) }
    ensures err { IfErr result IsMemory }
{
    with_ending(alloc, name, ".jp2")
}

/// The name of an image's file while it is written.
pub(crate) fn temporary_name(alloc: Global, name: &str) -> Result<String, Fault>
    ensures ok { IfOk result (λ s. string_bytes s ≡ temporary_name name.now) }
    ensures err { IfErr result IsMemory }
{
    with_ending(alloc, name, ".tmp")
}

/// The name of the image of which a file is, if it has a good one.
pub fn image_name(file: &str) -> Option<&str>
    ensures { MatchOption result
        ((n : List ℕ) → is_file_of n file.now ≡ false) (λ m. (n : List ℕ) → is_file_of n file.now ≡ bytes_eq m.now n) }
{
    let name = file.strip_suffix(".jp2")?;
    if is_good_name(name) { Some(name) } else { None }
}

/// Whether a file is that of an image with a good name.
pub fn is_image_file(file: &str) -> bool {
    image_name(file).is_some()
}

/// Whether a file is one that was left while an image was written.
pub(crate) fn is_left_file(file: &str) -> bool {
    match file.strip_suffix(".tmp") {
        Some(name) => is_good_name(name),
        None => false,
    }
}

/// Puts the name of the image of which a file is among others.
fn add_name(alloc: Global, names: &mut BTreeSet<String>, file: &str) -> Result<(), Fault>
    ensures ok { OnOk result
        ((n : List ℕ) → contains_text names.new n ≡ (is_file_of n file.now || contains_text names.old n)) }
    ensures err { IfErr result IsMemory }
{
    if let Some(name) = image_name(file) {
        names.insert(String::from_str(alloc, name)?)?;
        return Ok(());
    }
    Ok(())
}

/// The names of all images among files, each once, in the order of their bytes.
pub(crate) fn names_in(alloc: Global, files: &[String]) -> Result<BTreeSet<String>, Fault>
    ensures ok { IfOk result (λ names. (n : List ℕ) → contains_text names n ≡ is_image n (map string_bytes files.now)) }
    ensures err { IfErr result IsMemory }
{
    let mut names = BTreeSet::new(alloc);
    for file in files {
        add_name(alloc, &mut names, file.as_str())?;
    }
    Ok(names)
}

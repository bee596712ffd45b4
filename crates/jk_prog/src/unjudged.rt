//! What stands in the folder of an archive and isn't the file of an image by its name.

use jk_files::{Refusal, read_all};
use jk_line::Unjudged;
use jk_math::Refused;
use jk_store::is_image_file;
use std::alloc::Global;
use std::rt::Files;

/// The path of a folder, or of something in it, with a slash between.
fn path_in(alloc: Global, folder: &str, name: &str) -> Result<String, Refused> {
    let folder = if folder.is_empty() { "." } else { folder };
    Ok(format!(in alloc; "{folder}/{name}")?)
}

/// Whether a name isn't that of an image's file and doesn't begin with a point.
fn is_unjudged(name: &str) -> bool {
    !name.is_empty() && !name.starts_with('.') && !is_image_file(name)
}

/// Adds a name.
fn push(names: &mut Vec<String>, name: String) -> Result<(), Refused> {
    Ok(names.push(name)?)
}

/// A name as a text, with a mark in place of each part of it that isn't UTF-8.
fn text_of(alloc: Global, name: &[u8]) -> Result<String, Refused> {
    let mut text = String::new(alloc);
    for chunk in name.utf8_chunks() {
        text.push_str(chunk.valid())?;
        if !chunk.invalid().is_empty() {
            text.push('\u{FFFD}')?;
        }
    }
    Ok(text)
}

/// The names in a folder that aren't those of images' files, in their order.
fn names_in<R: Files>(rt: &R, alloc: Global, folder: &str) -> Result<Vec<String>, Refusal> {
    let path = path_in(alloc, folder, "")?;
    let all = read_all(alloc, rt.open_dir(path.as_str())?)?;
    let mut names = Vec::new(alloc);
    for name in all.split(|byte| *byte == 0) {
        let text = text_of(alloc, name)?;
        if is_unjudged(text.as_str()) {
            push(&mut names, text)?;
        }
    }
    sort(&mut names)?;
    Ok(names)
}

/// Sorts names.
fn sort(names: &mut Vec<String>) -> Result<(), Refused> {
    Ok(names.sort()?)
}

/// Whether a path is that of a folder, links followed.
fn is_folder<R: Files>(rt: &R, path: &str) -> bool {
    match rt.metadata(path) {
        Ok(metadata) => metadata.is_dir(),
        Err(_) => false,
    }
}

/// Adds what has a name.
fn push_it(found: &mut Vec<Unjudged>, it: Unjudged) -> Result<(), Refused> {
    Ok(found.push(it)?)
}

/// What stands in a folder under other names than those of images' files.
///
/// System: the folder can't be read.
pub(crate) fn unjudged<R: Files>(
    rt: &R,
    alloc: Global,
    folder: &str,
) -> Result<Vec<Unjudged>, Refusal> {
    let mut found = Vec::new(alloc);
    for name in names_in(rt, alloc, folder)? {
        let path = path_in(alloc, folder, name.as_str())?;
        let is_folder = is_folder(rt, path.as_str());
        push_it(&mut found, Unjudged { name, is_folder })?;
    }
    Ok(found)
}

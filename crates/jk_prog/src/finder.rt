//! What finds the files of an archive's folder while it is served.

use jk_files::stamp_of;
use jk_math::Fault;
use jk_serve::{Finder, Stamp};
use jk_store::{Folder, Prepared, image_name, is_image_file};
use std::alloc::Global;
use std::io;
use std::rt::Files;

/// What finds the files of a folder, reads them, and tells on standard error which aren't listed.
#[derive(Drop)]
pub(crate) struct FolderFinder<R> {
    rt: R,
    path: String,
    folder: Folder<R>,
    // What the system said where the folder couldn't be listed.
    said: Option<io::Error>,
}

impl<R: Files + Clone + Drop> FolderFinder<R> {
    /// What finds the files of the folder at a path.
    pub(crate) fn new(rt: &R, alloc: Global, path: &str) -> Result<FolderFinder<R>, Fault> {
        Ok(FolderFinder {
            rt: rt.clone()?,
            path: String::from_str(alloc, path)?,
            folder: Folder::new(rt.clone()?, alloc, path)?,
            said: None,
        })
    }
}

impl<R: Files + Eprint + Drop> Finder for FolderFinder<R> {
    fn names(&mut self, alloc: Global) -> Result<Vec<String>, Fault> {
        let files = match jk_files::names(&self.rt, alloc, self.path.as_str(), is_image_file) {
            Ok(files) => files,
            Err(refusal) => {
                self.said = refusal.said();
                return Err(refusal.fault());
            }
        };
        let mut names = Vec::new(alloc);
        for file in &files {
            if let Some(name) = image_name(file.as_str()) {
                names.push(String::from_str(alloc, name)?)?;
            }
        }
        Ok(names)
    }

    fn stamp(&mut self, alloc: Global, name: &str) -> Option<Stamp> {
        let file = format!(in alloc; "{name}.jp2").ok()?;
        stamp_of(&self.rt, alloc, self.path.as_str(), file.as_str()).ok()
    }

    fn read(&mut self, alloc: Global, name: &str) -> Result<Prepared, Fault> {
        Prepared::read(alloc, &mut self.folder, name)
    }

    fn tell(&mut self, name: &str, fault: Fault) {
        let rt = &self.rt;
        match self.folder.trouble() {
            Some(trouble) if fault == Fault::Shelf => {
                let _ = eprintln!(rt; "jk: {name}.jp2 isn't listed: {}", trouble.said);
            }
            _ => {
                let _ = eprintln!(rt; "jk: {name}.jp2 isn't listed: {fault}");
            }
        }
    }

    fn tell_unlisted(&mut self, fault: Fault) {
        let rt = &self.rt;
        match self.said {
            Some(said) => {
                let _ = eprintln!(rt; "jk: {} can't be listed: {said}", self.path);
            }
            None => {
                let _ = eprintln!(rt; "jk: {} can't be listed: {fault}", self.path);
            }
        }
    }

    fn tell_full(&mut self, name: &str, more: usize) {
        let rt = &self.rt;
        let _ = eprintln!(rt;
            "jk: {name}.jp2 and {more} files more aren't listed: {}",
            Fault::Limit
        );
    }

    fn tell_opened(&mut self, images: usize) {
        let rt = &self.rt;
        let _ = eprintln!(rt; "jk: all files are opened, {images} images are listed");
    }
}

//! The files of a refused plant, for what is wrong in them.

use explain_plant::{Shelf, Shelved};
use serve_runs::{Disk, FileFault, Folder};
use std::alloc::{AllocError, Global};
use std::fs;
use std::io::ErrorKind;
use std::rt::Files;

/// The ordinary files of the system. Another one, as a pipe, isn't read, since it may give its bytes once, or never.
#[derive(Drop)]
pub struct Ordinary<'a, R: Files> {
    pub files: &'a R,
}

impl<'a, R: Files> Shelf for Ordinary<'a, R> {
    fn text(&self, alloc: Global, path: &str) -> Result<Shelved, AllocError> {
        let found = match fs::metadata(self.files, path) {
            Ok(found) => found,
            Err(error) if error.kind() == ErrorKind::OutOfMemory => return Err(AllocError),
            Err(_) => return Ok(Shelved::Missing),
        };
        if !found.is_file() {
            let is_folder = found.is_dir();
            return Ok(if is_folder {
                Shelved::Missing
            } else {
                Shelved::Unread
            });
        }
        match (Disk { files: self.files }).contents(alloc, path) {
            Ok(text) => Ok(Shelved::Text(text)),
            Err(FileFault::Memory) => Err(AllocError),
            Err(FileFault::Missing) => Ok(Shelved::Missing),
        }
    }
}

//! Where files are found by their paths.

ghost use Rattle.std.specs.Prelude.{◌≡◌, ◌≤◌, ◌⊎◌, ◌↔◌, length, true, false, IfOk, IsErrOf, Option, List, ℕ, Some, None};
ghost use Rattle.std.specs.Io.KnownBytes.{Consumes, IsAtEnd};
ghost use Rattle.std.specs.IoError.{error_kind};
ghost use Rattle.plant_folder.specs.Fetches.{HasMore};

use base_streams::{Feed, Reading, empty_piece, fill};
use std::alloc::{AllocError, Global};
use std::fs;
use std::io::{self, ErrorKind};
use std::rt::Files;

/// The most bytes that a file may have.
const MOST_BYTES: usize = 16_777_217;

/// Why the bytes of a file aren't there.
#[derive(Clone, Copy, Drop)]
pub enum FileFault {
    /// Allocation failed.
    Memory,
    /// No file of this path can be read, or it has more than 16,777,217 bytes.
    Missing,
}

impl From<AllocError> for FileFault {
    ghost use Rattle.plant_folder.specs.declared.folder.FileFault.TheVariants.{Memory};

    ghost from_gives = { λ _ e. e ≡ Memory };

    fn from(_refused: AllocError) -> FileFault {
        FileFault::Memory
    }
}

/// Where files are found by their paths.
pub trait Folder {
    /// What may be found under a path: the bytes of a file; none where no file can be read, or it has more than 16,777,217 bytes.
    ghost finds: { Self → List ℕ → Option (List ℕ) → Type 0 };

    /// Returns the bytes of the file of a path. Fails as `FileFault` says.
    fn contents(&self, alloc: Global, path: &str) -> Result<Vec<u8>, FileFault>
        ensures found { IfOk result (λ v. finds self.now path.now (Some v.items)) }
        ensures size { IfOk result (λ v. length v.items ≤ 16777217) }
        ensures missing { IsErrOf result FileFault.Missing → finds self.now path.now None };
}

/// Where the files of a plant are found: in a folder, its plant file under a path, and the files that this names beside it.
#[derive(Drop)]
pub struct PlantFiles<'a, F: Folder> {
    pub folder: &'a F,
    pub path: &'a str,
}

/// Reads a feed to its end. Fails with `Missing` if a read fails, and if the feed has more than 16,777,217 bytes.
fn read_whole<F: Feed>(alloc: Global, feed: &mut F) -> Result<Vec<u8>, FileFault>
    ensures bytes { IfOk result (λ v. Consumes (F.remaining feed.old) (F.remaining feed.new) v.items) }
    ensures whole { IfOk result (λ v. IsAtEnd (F.remaining feed.new)) }
    ensures size { IfOk result (λ v. length v.items ≤ 16777217) }
    ensures missing { IsErrOf result FileFault.Missing
        → (F.broken feed.new ≡ true) ⊎ HasMore 16777217 (F.remaining feed.old) }
    ensures failed { F.broken feed.old ≡ false → F.broken feed.new ≡ true
        → IsErrOf result FileFault.Missing }
{
    let mut piece = empty_piece(alloc)?;
    let mut bytes = Vec::new(alloc);
    'reads: while bytes.len() <= MOST_BYTES {
        let Ok(n) = fill(feed, &mut piece) else {
            return Err(FileFault::Missing);
        };
        if n == 0 {
            return Ok(bytes);
        }
        let (now, _) = piece.as_slice().split_at(n);
        bytes.extend_from_slice(now)?;
    }
    Err(FileFault::Missing)
}

/// Why a file that can't be opened isn't there: memory, or it is missing.
fn unopened(error: &io::Error) -> FileFault
    ensures { (result ≡ FileFault.Memory) ↔ (error_kind error.now ≡ ErrorKind.OutOfMemory) }
{
    if error.kind() == ErrorKind::OutOfMemory {
        FileFault::Memory
    } else {
        FileFault::Missing
    }
}

/// The files of the system. No contract can say what is found there.
#[derive(Drop)]
pub struct Disk<'a, R: Files> {
    pub files: &'a R,
}

impl<'a, R: Files> Folder for Disk<'a, R> {
    ghost use Rattle.std.specs.Prelude.{⊤};

    ghost finds = { λ _ _ _. ⊤ };

    fn contents(&self, alloc: Global, path: &str) -> Result<Vec<u8>, FileFault> {
        match fs::open(self.files, path) {
            Ok(file) => read_whole(alloc, &mut Reading::new(file)),
            Err(error) => Err(unopened(&error)),
        }
    }
}

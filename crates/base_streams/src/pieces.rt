//! Bytes are read a piece at a time.

ghost use Rattle.std.specs.Prelude.{◌≡◌, ◌≤◌, ◌||◌, is_err, vec_len, IfOk};
ghost use Rattle.std.specs.Io.KnownBytes.{ReadConsumes};

use crate::streams::{Failed, Feed};
use std::alloc::{AllocError, Global};

/// How many bytes are asked of a feed at once.
const PIECE: usize = 65_536;

/// Allocates the buffer for a piece of what a feed gives.
pub fn empty_piece(alloc: Global) -> Result<Vec<u8>, AllocError>
    ensures { IfOk result (λ v. vec_len v ≡ 65536) }
{
    vec![in alloc; 0u8; PIECE]
}

/// Reads the next bytes into a buffer, and returns how many: 0 only at the end, or where the buffer is empty. Fails only if a read fails.
pub fn fill<F: Feed>(feed: &mut F, piece: &mut Vec<u8>) -> Result<usize, Failed>
    ensures len { vec_len piece.new ≡ vec_len piece.old }
    ensures bound { IfOk result (λ n. n ≤ vec_len piece.new) }
    ensures bytes { ReadConsumes (F.remaining feed.old) (F.remaining feed.new) result piece.new.items }
    ensures broken { F.broken feed.new ≡ (F.broken feed.old || is_err result) }
{
    feed.read(piece.as_mut_slice())
}

//! Whether memory is left.

use std::alloc::{AllocError, Global};

/// In how many pieces memory is asked for that isn't to be had in one.
const PIECES: usize = 128;

/// An allocation that nothing is written to.
fn allocate(alloc: Global, octets: usize) -> Result<Vec<u8>, AllocError> {
    Vec::with_capacity(alloc, octets)
}

/// Whether this many octets can be had often enough.
fn has_pieces(alloc: Global, octets: usize) -> bool {
    let mut pieces = Vec::new(alloc);
    for _ in 0..PIECES {
        let Ok(piece) = allocate(alloc, octets) else {
            return false;
        };
        if pieces.push(piece).is_err() {
            return false;
        }
    }
    true
}

/// Whether this many octets can be had, in one piece or in a hundred. They are given back at once.
pub fn can_allocate(alloc: Global, octets: usize) -> bool {
    allocate(alloc, octets).is_ok() || has_pieces(alloc, octets / PIECES)
}

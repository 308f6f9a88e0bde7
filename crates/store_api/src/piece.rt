//! Bytes of blobs that were read.
ghost use Rattle.std.specs.Prelude.{◌≡◌, ◌^◌, ◌<◌, ◌≤◌, IfSome};
ghost use Rattle.std.specs.Arc.{arc_value};
ghost use Rattle.store_api.specs.LeaseViews.{bytes_between};

use blob_digest::Blob;
use std::alloc::Global;
use std::marker::Model;
use std::sync::Arc;

/// Where the bytes of a piece are.
#[derive(Drop)]
enum PieceBytes {
    /// In the blob, in memory: from a start to before an end.
    Shared(Arc<Blob, Global>, usize, usize),
    /// In a list of their own.
    Owned(Vec<u8>),
}

/// Bytes of a blob that were read: shared with the blob, or read from its file. Contracts see the bytes.
#[derive(Drop)]
pub struct Piece {
    bytes: PieceBytes,
}

impl Model for Piece {
    ghost use Rattle.std.specs.Prelude.{List, ℕ};
    ghost use Rattle.store_api.specs.Pieces.{HasBytes, piece_shown};

    ghost Value = { List ℕ };

    ghost view = { λ p. piece_shown p.bytes };

    ghost invariant = { λ p. HasBytes p.bytes };
}

impl Piece {
    /// Makes the piece of a blob from `start` to `end`, both included, or to the end of the blob. It copies no bytes.
    pub(crate) fn shared(blob: Arc<Blob, Global>, start: u64, end: u64) -> Piece
        requires ordered { start ≤ end }
        requires small { end < 2 ^ 63 }
        ensures { result ≡ bytes_between (arc_value blob).1 start end }
    {
        let len = blob.len();
        let first = start.min(len);
        let last = (end + 1).min(len);
        Piece {
            bytes: PieceBytes::Shared(blob, first as usize, last as usize),
        }
    }

    /// Makes a piece of bytes.
    pub(crate) fn owned(bytes: Vec<u8>) -> Piece
        ensures { result ≡ bytes.items }
    {
        Piece {
            bytes: PieceBytes::Owned(bytes),
        }
    }

    /// Returns the bytes. `None` if they are those of a blob that is not in memory, of which no piece is made.
    ///
    /// # Memory
    /// Allocates nothing.
    pub fn bytes(&self) -> Option<&[u8]>
        ensures { IfSome result (λ b. b.now ≡ self.now) }
    {
        match &self.bytes {
            PieceBytes::Shared(blob, start, end) => {
                let bytes = blob.bytes()?;
                Some(&bytes[*start..*end])
            }
            PieceBytes::Owned(bytes) => Some(bytes.as_slice()),
        }
    }
}

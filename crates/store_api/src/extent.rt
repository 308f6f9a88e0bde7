//! Bytes of a blob that a reader asks for.
ghost use Rattle.std.specs.Prelude.{◌≡◌, ◌^◌, ◌<◌, ◌≤◌, IfErr, IfOk, IfSome, true};
ghost use Rattle.std.specs.Arc.{arc_value};
ghost use Rattle.store_api.specs.LeaseViews.{IsLocatedAt, IsPieceRead, extent};
ghost use Rattle.store_api.specs.declared.extent.Unread.TheVariants.{Unreadable};

use crate::piece::Piece;
use blob_digest::Blob;
use content_files::{ContentError, ContentStore, Located};
use std::alloc::Global;
use std::marker::Model;
use std::sync::Arc;

/// Bytes of a blob that a reader asks for, from a start to an end, both included, or to the end of the blob. It shares the blob
/// with the store, and has read nothing yet.
#[derive(Drop)]
pub struct Extent {
    blob: Arc<Blob, Global>,
    start: u64,
    end: u64,
}

impl Model for Extent {
    ghost use Rattle.std.specs.Prelude.{◌<◌, ◌≤◌, ◌^◌};
    ghost use Rattle.std.specs.Arc.{arc_value};
    ghost use Rattle.store_api.specs.LeaseViews as specs;

    ghost Value = { specs.Extent };

    ghost view = { λ x. specs.extent (arc_value x.blob).1 x.start x.end };

    ghost invariant = { λ x. (x.start ≤ x.end) × (x.end < 2 ^ 63) };
}

/// Why the bytes of an extent were not read.
#[derive(Clone, Copy, Debug, PartialEq, Eq, Drop)]
pub enum Unread {
    /// Memory ran out.
    Memory,
    /// The file has other bytes than those that were stored, or too few, or the operating system failed to read it.
    Unreadable,
}

impl Extent {
    /// Makes the extent of a blob from `start` to `end`, both included, or to the end of the blob.
    ///
    /// # Memory
    /// Allocates nothing.
    pub fn new(blob: Arc<Blob, Global>, start: u64, end: u64) -> Extent
        requires ordered { start ≤ end }
        requires small { end < 2 ^ 63 }
        ensures { result ≡ extent (arc_value blob).1 start end }
    {
        Extent { blob, start, end }
    }

    /// Reads the bytes. Those of a blob in memory are shared and not copied. Those of a blob in a file are read piece by piece,
    /// and the sum of each piece is compared with the one that was stored.
    ///
    /// # Errors
    /// - `Memory` if memory runs out.
    /// - `Unreadable` if contents may lie in files, and the file has other bytes or cannot be read.
    ///
    /// # Cost
    /// Nothing for a blob in memory; otherwise as `Content::read_between`.
    pub fn read<F: ContentStore>(self, files: &F, alloc: Global) -> Result<Piece, Unread>
        ensures read { IfOk result (IsPieceRead F.on_disk self) }
        ensures unread { IfErr result (λ e. e ≡ Unreadable → F.on_disk ≡ true) }
    {
        let Extent { blob, start, end } = self;
        if blob.bytes().is_some() {
            return Ok(Piece::shared(blob, start, end));
        }
        let len = blob.len();
        if start >= len {
            return Ok(Piece::owned(Vec::new(alloc)));
        }
        let last = (end + 1).min(len);
        match blob.content().read_between(files, alloc, start, last) {
            Ok(bytes) => Ok(Piece::owned(bytes)),
            Err(ContentError::Memory) => Err(Unread::Memory),
            Err(_) if files.is_on_disk() => Err(Unread::Unreadable),
            Err(_) => Err(Unread::Memory),
        }
    }

    /// Returns where the bytes lie in the blob's file, for a reader that opens the file itself. Returns `None` if the blob is in memory,
    /// or has none of the bytes.
    ///
    /// # Errors
    /// - `Memory` if memory runs out.
    /// - `Unreadable` if contents may lie in files, and the blob's pieces do not end where it does.
    ///
    /// # Cost
    /// As `Content::located`. It reads no file.
    pub fn locate<F: ContentStore>(
        self,
        files: &F,
        alloc: Global,
    ) -> Result<Option<Located>, Unread>
        ensures located { IfOk result (λ o. IfSome o (λ l. IsLocatedAt F.on_disk self l.offset
            l.notes.items)) }
        ensures unread { IfErr result (λ e. e ≡ Unreadable → F.on_disk ≡ true) }
    {
        if !files.is_on_disk() {
            return Ok(None);
        }
        let Extent { blob, start, end } = self;
        let len = blob.len();
        if start >= len {
            return Ok(None);
        }
        let behind = (end + 1).min(len);
        match blob.content().located(alloc, start, behind) {
            Ok(located) => Ok(located),
            Err(ContentError::Memory) => Err(Unread::Memory),
            Err(_) => Err(Unread::Unreadable),
        }
    }
}

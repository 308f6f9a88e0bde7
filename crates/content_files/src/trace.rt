//! The pieces of a content, in the proof alone.

ghost use Rattle.std.specs.Prelude.{◌≡◌, ◌++◌, ◌∷◌, ◌-◌, [], IfOk, length, take};
ghost use Rattle.content_files.specs.Notes.{unread};
ghost use Rattle.content_files.specs.Pieces.{IsAtEndOf, pieces_of, with_piece, without_last_piece};

use crate::deed::{PiecesName, Shown, Shows};
use crate::name::ContentName;
use crate::written::Written;
use ghost_log::SharedLog;
use std::alloc::{AllocError, Global};
use std::marker::{Brand, Model};
use std::snapshot::Snapshot;

/// The name of a content, the offset in its file at which its pieces begin, and its pieces. At run time it is the name and
/// the offset alone, and threads may share it.
///
/// Pieces of bytes come from a `Written` at the end of the pieces, and any other piece is one that was not read.
#[derive(Drop)]
pub(crate) struct PieceTrace {
    name: ContentName,
    base: u64,
    shown: Snapshot<SharedLog<Shown>>,
}

impl Model for PieceTrace {
    ghost use Rattle.content_files.specs.Deeds.{pieces_shown};
    ghost use Rattle.content_files.specs.Pieces.{Pieces, pieces_of};

    ghost Value = { Pieces };

    ghost view = { λ d. pieces_of d.name d.base (pieces_shown d.shown.value.entries) };
}

impl PieceTrace {
    /// Returns a trace of the pieces that `P` names. A log of one event exists during the call.
    fn named<P: PiecesName>(
        alloc: Global,
        name: ContentName,
        base: u64,
    ) -> Result<PieceTrace, AllocError>
        ensures { IfOk result (λ d. d ≡ pieces_of name base P.pieces) }
    {
        let mut log = SharedLog::new(alloc)?;
        let mut writer = log.writer();
        log.append::<Shows<P>>(&mut writer);
        Ok(PieceTrace {
            name,
            base,
            shown: Snapshot::of(&log),
        })
    }

    /// Returns a trace of no piece.
    pub(crate) fn new(alloc: Global, name: ContentName, base: u64) -> Result<PieceTrace, AllocError>
        ensures { IfOk result (λ d. d ≡ pieces_of name base []) }
    {
        PieceTrace::named::<Brand>(alloc, name, base)
    }

    /// Returns the content's name.
    pub(crate) fn name(&self) -> ContentName
        ensures { result ≡ self.now.name }
    {
        self.name
    }

    /// Returns the offset in the file at which the pieces begin.
    pub(crate) fn base(&self) -> u64
        ensures { result ≡ self.now.base }
    {
        self.base
    }

    /// Returns a trace of the pieces and one more, whose bytes were written at their end.
    pub(crate) fn with_written(
        &self,
        alloc: Global,
        piece: &Written<'_>,
    ) -> Result<PieceTrace, AllocError>
        requires { IsAtEndOf piece.now self.now }
        ensures { IfOk result (λ d. d ≡ with_piece self.now piece.now.bytes) }
    {
        self.with_written_as::<Brand>(alloc, piece)
    }

    // The pieces are picked in the proof alone.
    fn with_written_as<P: PiecesName>(
        &self,
        alloc: Global,
        piece: &Written<'_>,
    ) -> Result<PieceTrace, AllocError>
        requires { P.pieces ≡ self.now.each ++ piece.now.bytes ∷ [] }
        ensures { IfOk result (λ d. d ≡ pieces_of self.now.name self.now.base P.pieces) }
    {
        let _ = piece;
        PieceTrace::named::<P>(alloc, self.name, self.base)
    }

    /// Returns a trace of the pieces and one of this length and sum, which was not read.
    pub(crate) fn with_unread(
        &self,
        alloc: Global,
        len: u64,
        sum: u64,
    ) -> Result<PieceTrace, AllocError>
        ensures { IfOk result (λ d. d ≡ with_piece self.now (unread len sum)) }
    {
        self.with_unread_as::<Brand>(alloc, len, sum)
    }

    // The pieces are picked in the proof alone.
    fn with_unread_as<P: PiecesName>(
        &self,
        alloc: Global,
        len: u64,
        sum: u64,
    ) -> Result<PieceTrace, AllocError>
        requires { P.pieces ≡ self.now.each ++ unread len sum ∷ [] }
        ensures { IfOk result (λ d. d ≡ pieces_of self.now.name self.now.base P.pieces) }
    {
        let _ = (len, sum);
        PieceTrace::named::<P>(alloc, self.name, self.base)
    }

    /// Returns a trace of the pieces without the last one.
    pub(crate) fn without_last(&self, alloc: Global) -> Result<PieceTrace, AllocError>
        ensures { IfOk result (λ d. d ≡ without_last_piece self.now) }
    {
        self.without_last_as::<Brand>(alloc)
    }

    // The pieces are picked in the proof alone.
    fn without_last_as<P: PiecesName>(&self, alloc: Global) -> Result<PieceTrace, AllocError>
        requires { P.pieces ≡ take (length self.now.each - 1) self.now.each }
        ensures { IfOk result (λ d. d ≡ pieces_of self.now.name self.now.base P.pieces) }
    {
        PieceTrace::named::<P>(alloc, self.name, self.base)
    }
}

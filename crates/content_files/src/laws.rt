//! Laws of contents, stated as the contract of a function with an empty body.

ghost use Rattle.content_files.specs.LocatedNotes.{NotedPiecesArePart};

/// States what a reader has that opens the file of a content itself.
///
/// `Content::located` gives it the notes of some pieces. If the pieces that it reads have these notes, of each the length and the
/// sum, then their bytes from `start` to before `end` are a part of the content, as those are that `Content::read_between` returns.
pub fn located_pieces()
    ensures { NotedPiecesArePart }
{}

//! Lists of rows.
ghost use Rattle.std.specs.Prelude.{◌<◌, ◌≡◌, List, length, map};
ghost use Rattle.script_player.specs.RowViews.{IsLaneAt, IsRowAt, borrowed_view, row_view};
ghost use Rattle.script_player.specs.Rows.{RowView};

use crate::row::{BorrowedRow, Row};

/// A borrowed list of rows, however their fields are stored.
pub trait RowList: Copy {
    // The rows, as contracts see them.
    ghost lines: { Self → List RowView };

    /// Returns the number of rows.
    ///
    /// # Memory
    /// Allocates nothing.
    fn len(&self) -> usize
        ensures { result ≡ length (lines self.now) };

    /// Returns the row at a place, counted from 0.
    ///
    /// # Memory
    /// Allocates nothing.
    fn row(&self, place: usize) -> BorrowedRow<'_>
        requires { place < length (lines self.now) }
        ensures { IsRowAt (lines self.now) place (borrowed_view result) };

    /// Returns the lane of the row at a place, without looking up the row's fields.
    ///
    /// # Memory
    /// Allocates nothing.
    fn lane(&self, place: usize) -> u8
        requires { place < length (lines self.now) }
        ensures { IsLaneAt (lines self.now) place result };
}

impl<'a> RowList for &'a [Row] {
    ghost lines = { λ rows. map row_view rows.now };

    fn len(&self) -> usize {
        let rows = *self;
        rows.len()
    }

    fn row(&self, place: usize) -> BorrowedRow<'_> {
        let rows = *self;
        let row = &rows[place];
        BorrowedRow {
            lane: row.lane,
            verb: row.verb,
            repo: row.repo.as_slice(),
            key: row.key.as_slice(),
            digest: row.digest.as_slice(),
            range: row.range.as_slice(),
            body: row.body.as_slice(),
        }
    }

    fn lane(&self, place: usize) -> u8 {
        let rows = *self;
        rows[place].lane
    }
}

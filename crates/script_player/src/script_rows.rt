//! The rows of a script, in lists that can be dropped one by one.
ghost use Rattle.std.specs.Prelude.{[], ◌∷◌, ◌++◌, ◌<◌, ◌≡◌, IfOk, OnErr, OnOk, length};
ghost use Rattle.script_player.specs.RowViews.{borrowed_view};
ghost use Rattle.script_player.specs.JoinedRows.{AddsLast, IsInList, joined_rows};

use crate::packed_rows::PackedRows;
use crate::row::BorrowedRow;
use crate::row_list::RowList;
use std::alloc::{AllocError, Global};
use std::collections::VecDeque;
use std::marker::Model;

/// The room for text of a new list in bytes, unless its first row is longer.
const LIST_TEXT: usize = 4 << 20;

/// The rows of a script in several lists, each of which can be dropped after its last row was executed.
///
/// Contracts see the list of all rows.
#[derive(Drop)]
pub struct ScriptRows {
    lists: Vec<PackedRows>,
    count: usize,
}

impl Model for ScriptRows {
    ghost use Rattle.std.specs.Prelude.{◌≡◌, List, length};
    ghost use Rattle.script_player.specs.Rows.{RowView};
    ghost use Rattle.script_player.specs.JoinedRows.{joined_rows};

    ghost Value = { List RowView };

    ghost view = { λ rows. joined_rows rows.lists.items };

    ghost invariant = { λ rows. rows.count ≡ length (joined_rows rows.lists.items) };
}

/// Creates a list with one row.
fn list_of(alloc: Global, row: &BorrowedRow<'_>) -> Result<PackedRows, AllocError>
    ensures { IfOk result (λ list. list ≡ borrowed_view row.now ∷ []) }
{
    let mut list = PackedRows::with_room(alloc, LIST_TEXT.max(row.text_len()))?;
    list.push(row)?;
    Ok(list)
}

/// Appends a row to the last list, if that has room for it.
/// Otherwise the last list frees its spare capacity, and the row begins a new list.
fn add_row(
    alloc: Global,
    lists: &mut Vec<PackedRows>,
    row: &BorrowedRow<'_>,
) -> Result<(), AllocError>
    ensures added { OnOk result (AddsLast lists.old.items row.now lists.new.items) }
    ensures same { OnErr result (joined_rows lists.new.items ≡ joined_rows lists.old.items) }
{
    let count = lists.len();
    if count > 0 {
        if lists[count - 1].has_room(row) {
            return lists[count - 1].push(row);
        }
        lists[count - 1].shrink();
    }
    lists.push(list_of(alloc, row)?)?;
    Ok(())
}

/// Returns the list of the row at a place among all rows, and its place in that list.
fn find(lists: &Vec<PackedRows>, place: usize) -> (&PackedRows, usize)
    requires { place < length (joined_rows lists.now.items) }
    ensures { IsInList (joined_rows lists.now.items) place (result.0).now result.1 }
{
    let mut rest = place;
    for number in 0..lists.len() {
        let list = &lists[number];
        if rest < list.len() {
            return (list, rest);
        }
        rest -= list.len();
    }
    unreachable!()
}

impl ScriptRows {
    /// Creates an empty list of rows. It allocates nothing.
    pub fn new(alloc: Global) -> ScriptRows
        ensures { result ≡ [] }
    {
        ScriptRows {
            lists: Vec::new(alloc),
            count: 0,
        }
    }

    /// Appends a row.
    ///
    /// # Errors
    /// - `AllocError` if allocation fails, or if the fields of the row exceed 4,294,967,295 bytes together. The rows are
    ///   unchanged then.
    ///
    /// # Cost
    /// Copies the row's fields. A new list allocates room for 4 MiB of text, or for the row's text if that is longer.
    pub fn push(&mut self, alloc: Global, row: &BorrowedRow<'_>) -> Result<(), AllocError>
        ensures added { OnOk result (self.new ≡ self.old ++ borrowed_view row.now ∷ []) }
        ensures same { OnErr result (self.new ≡ self.old) }
    {
        let Some(count) = self.count.checked_add(1) else {
            return Err(AllocError);
        };
        add_row(alloc, &mut self.lists, row)?;
        self.count = count;
        Ok(())
    }

    /// Returns the lists, whose rows follow one another.
    pub fn into_lists(self) -> VecDeque<PackedRows>
        ensures { joined_rows result.items ≡ self }
    {
        let ScriptRows { lists, count: _ } = self;
        VecDeque::from(lists)
    }
}

impl<'a> RowList for &'a ScriptRows {
    ghost lines = { λ rows. rows.now };

    fn len(&self) -> usize {
        let rows = *self;
        rows.count
    }

    fn row(&self, place: usize) -> BorrowedRow<'_> {
        let rows = *self;
        let (list, rest) = find(&rows.lists, place);
        list.row(rest)
    }

    fn lane(&self, place: usize) -> u8 {
        let rows = *self;
        let (list, rest) = find(&rows.lists, place);
        list.lane(rest)
    }
}

//! Rows whose fields are stored in one text.
ghost use Rattle.std.specs.Prelude.{[], ◌∷◌, ◌++◌, ◌<◌, ◌≡◌, IfOk, OnErr, OnOk, length};
ghost use Rattle.script_player.specs.RowPlaces.{AddsField, IsExtendedTo, HoldsRow};
ghost use Rattle.script_player.specs.RowViews.{IsLaneAt, IsRowAt, borrowed_view};

use crate::places::Places;
use crate::row::BorrowedRow;
use crate::row_list::RowList;
use std::alloc::{AllocError, Global};
use std::marker::Model;

/// A list of rows whose fields are stored in one text, one after another. Contracts see the list of the rows.
#[derive(Drop)]
pub struct PackedRows {
    text: Vec<u8>,
    places: Vec<Places>,
}

impl Model for PackedRows {
    ghost use Rattle.std.specs.Prelude.{List, map};
    ghost use Rattle.std.specs.List.{All};
    ghost use Rattle.script_player.specs.Rows.{RowView};
    ghost use Rattle.script_player.specs.RowPlaces.{ArePlacesWithin, row_at_places};

    ghost Value = { List RowView };

    ghost view = { λ rows. map (row_at_places rows.text.items) rows.places.items };

    ghost invariant = { λ rows. All (ArePlacesWithin rows.text.items) rows.places.items };
}

/// Returns the length of a text. It fails if the text is longer than 4,294,967,295 bytes.
fn end_of(text: &Vec<u8>) -> Result<u32, AllocError>
    ensures { IfOk result (λ end. end ≡ length text.now.items) }
{
    if text.len() > u32::MAX as usize {
        return Err(AllocError);
    }
    Ok(text.len() as u32)
}

/// Appends the bytes of a field to a text, and returns where they end.
/// Most fields of a row are empty, and are not appended.
fn add_field(text: &mut Vec<u8>, field: &[u8]) -> Result<u32, AllocError>
    ensures kept { IsExtendedTo text.old.items text.new.items }
    ensures added { IfOk result (λ end. AddsField text.old.items field.now text.new.items end) }
{
    if !field.is_empty() {
        text.extend_from_slice(field)?;
    }
    end_of(text)
}

/// Appends the bytes of a row's fields to a text, and returns their places.
fn add_fields(text: &mut Vec<u8>, row: &BorrowedRow<'_>) -> Result<Places, AllocError>
    ensures kept { IsExtendedTo text.old.items text.new.items }
    ensures added { IfOk result (λ at. HoldsRow text.new.items at row.now) }
{
    Ok(Places {
        lane: row.lane,
        verb: row.verb,
        start: end_of(text)?,
        repo: add_field(text, row.repo)?,
        key: add_field(text, row.key)?,
        digest: add_field(text, row.digest)?,
        range: add_field(text, row.range)?,
        body: add_field(text, row.body)?,
    })
}

impl PackedRows {
    /// Creates an empty list, with room for a text of `bytes` bytes.
    ///
    /// # Errors
    /// - `AllocError` if allocation fails.
    pub fn with_room(alloc: Global, bytes: usize) -> Result<PackedRows, AllocError>
        ensures { IfOk result (λ rows. rows ≡ []) }
    {
        Ok(PackedRows {
            text: Vec::with_capacity(alloc, bytes)?,
            places: Vec::new(alloc),
        })
    }

    /// Appends a row.
    ///
    /// # Errors
    /// - `AllocError` if allocation fails, or if the fields of all rows would exceed 4,294,967,295 bytes together. The
    ///   rows are unchanged then.
    ///
    /// # Cost
    /// Copies the row's fields. The text grows if it has no room for them, which moves the other rows' fields.
    pub fn push(&mut self, row: &BorrowedRow<'_>) -> Result<(), AllocError>
        ensures added { OnOk result (self.new ≡ self.old ++ borrowed_view row.now ∷ []) }
        ensures same { OnErr result (self.new ≡ self.old) }
    {
        let places = add_fields(&mut self.text, row)?;
        self.places.push(places)?;
        Ok(())
    }

    /// Returns whether the text has room for a row's fields, so that they are appended without moving the others.
    pub fn has_room(&self, row: &BorrowedRow<'_>) -> bool {
        row.text_len() <= self.text.capacity() - self.text.len()
    }

    /// Frees the spare capacity.
    pub(crate) fn shrink(&mut self)
        ensures { self.new ≡ self.old }
    {
        self.text.shrink_to_fit();
        self.places.shrink_to_fit();
    }

    /// Returns the row at a place, counted from 0.
    pub fn row(&self, place: usize) -> BorrowedRow<'_>
        requires { place < length self.now }
        ensures { IsRowAt self.now place (borrowed_view result) }
    {
        let places = &self.places[place];
        let text = self.text.as_slice();
        BorrowedRow {
            lane: places.lane,
            verb: places.verb,
            repo: &text[places.start as usize..places.repo as usize],
            key: &text[places.repo as usize..places.key as usize],
            digest: &text[places.key as usize..places.digest as usize],
            range: &text[places.digest as usize..places.range as usize],
            body: &text[places.range as usize..places.body as usize],
        }
    }

    /// Returns the lane of the row at a place, counted from 0.
    pub fn lane(&self, place: usize) -> u8
        requires { place < length self.now }
        ensures { IsLaneAt self.now place result }
    {
        self.places[place].lane
    }
}

impl<'a> RowList for &'a PackedRows {
    ghost lines = { λ rows. rows.now };

    fn len(&self) -> usize {
        let rows = *self;
        rows.places.len()
    }

    fn row(&self, place: usize) -> BorrowedRow<'_> {
        let rows = *self;
        rows.row(place)
    }

    fn lane(&self, place: usize) -> u8 {
        let rows = *self;
        rows.lane(place)
    }
}

//! Rows played on a book by one thread.
ghost use Rattle.std.specs.Prelude.{◌≡◌, ◌≤◌, IfOk, IfErr, length};
ghost use Rattle.blobctl.specs.Options.{IsWithinOptionLimits};
ghost use Rattle.blobctl.specs.Played.{PlaysFromOpening, PlaysOnBook};
ghost use Rattle.blobctl.specs.Script.{max_rows};

use crate::options::Options;
use crate::pinned_book::PinnedBook;
use blob_digest::Refusal;
use pin_table::Pins;
use script_player::{ScriptRows, run_script};
use std::alloc::Global;
use std::marker::{Brand, PhantomData};
use store_api::Reply;
use store_book::{Book, PinsName};

/// Plays all rows on a book and its pins. Each list of rows is dropped after it is played.
fn play_on_book<N: PinsName>(
    alloc: Global,
    book: Book,
    pins: &Pins,
    rows: ScriptRows,
) -> Result<(Book, Vec<Reply>), Refusal>
    requires here { book.table ≡ N.table }
    requires there { pins.now ≡ N.table }
    ensures played { IfOk result (λ p. PlaysOnBook book rows p) }
    ensures refused { IfErr result (λ e. e ≡ Refusal.Memory) }
{
    let mut pinned: PinnedBook<'_, N> = PinnedBook {
        book,
        pins,
        table: PhantomData,
    };
    let replies = run_script(alloc, &mut pinned, rows)?;
    let PinnedBook {
        book,
        pins: _,
        table: _,
    } = pinned;
    Ok((book, replies))
}

/// Plays all rows on a new book, and returns the book and one reply for each row. Each list of rows is dropped after it
/// is played.
///
/// # Errors
///
/// - `Memory` if an allocation fails.
pub fn play_by_one(
    alloc: Global,
    options: &Options,
    rows: ScriptRows,
) -> Result<(Book, Vec<Reply>), Refusal>
    requires within { IsWithinOptionLimits options.now }
    requires few { length rows ≤ max_rows }
    ensures played { IfOk result (λ p. PlaysFromOpening options.now.store rows p) }
    ensures refused { IfErr result (λ e. e ≡ Refusal.Memory) }
{
    let (book, pins) = Book::new(alloc, &options.store)?;
    play_on_book::<Brand>(alloc, book, &pins, rows)
}

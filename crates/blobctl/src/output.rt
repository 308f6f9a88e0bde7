//! Writes the replies and the book.
ghost use Rattle.std.specs.Prelude.{◌≡◌, IfErr, OnOk, length};
ghost use Rattle.store_api.specs.Answers.{answers_of};
ghost use Rattle.blobctl.specs.Writing.{AddsPlay, AddsReplies, AddsReply};

use crate::fault::Fault;
use script_player::{RepliesByRow, RowList};
use std::io;
use std::io::Write;
use store_api::Reply;
use store_book::Book;

/// Writes a row's number and its reply.
///
/// # Memory
///
/// Allocates nothing.
fn write_reply<W: Write>(writer: &mut W, number: usize, reply: &Reply) -> io::Result<()>
    ensures { OnOk result (AddsReply W.contents writer.old writer.new number reply.now) }
{
    writeln!(writer, "{number} {reply}")
}

/// Writes the lines of all replies, numbered from 1.
///
/// # Memory
///
/// Allocates nothing.
pub fn write_replies<W: Write>(writer: &mut W, replies: &[Reply]) -> io::Result<()>
    ensures { OnOk result (AddsReplies W.contents writer.old writer.new (answers_of replies.now)) }
{
    for (place, reply) in replies.iter().enumerate() {
        write_reply(writer, place + 1, reply)?;
    }
    Ok(())
}

/// Writes the lines of all workers' replies to these rows, numbered from 1.
///
/// # Memory
///
/// Allocates nothing.
pub fn write_by_row<W: Write, L: RowList>(
    writer: &mut W,
    rows: &L,
    replies: &mut RepliesByRow<L>,
) -> io::Result<()>
    requires { length replies.old ≡ length (L.lines rows.now) }
    ensures { OnOk result (AddsReplies W.contents writer.old writer.new replies.old) }
{
    for place in 0..rows.len() {
        let Some(reply) = replies.next_reply() else {
            unreachable!()
        };
        write_reply(writer, place + 1, &reply)?;
    }
    Ok(())
}

/// Writes the replies and then the book.
///
/// # Errors
///
/// - `Write` if the writer fails.
///
/// # Memory
///
/// Allocates nothing.
pub fn write_played<W: Write>(writer: &mut W, replies: &[Reply], book: &Book) -> Result<(), Fault>
    ensures written { OnOk result (AddsPlay W.contents writer.old writer.new replies.now book.now) }
    ensures refused { IfErr result (λ e. e ≡ Fault.Write) }
{
    let Ok(()) = write_replies(writer, replies) else {
        return Err(Fault::Write);
    };
    let Ok(()) = book.print(writer) else {
        return Err(Fault::Write);
    };
    Ok(())
}

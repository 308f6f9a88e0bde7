//! A run: reads a script, plays it, and writes the replies and the book.
ghost use Rattle.std.specs.Prelude.{◌≡◌, ◌≢◌, ◌+◌, false, IfOk, IfErr, OnOk};
ghost use Rattle.blobctl.specs.Ending.{AllSucceed, Explains, ExplainsReading, OneSucceeds, ReadsRows};
ghost use Rattle.blobctl.specs.Inputs.{GaveAtMost, max_script};
ghost use Rattle.blobctl.specs.Options.{IsWithinOptionLimits};
ghost use Rattle.watched_reader.specs.Watching.{has_failed};

use crate::fault::Fault;
use crate::input::read_script;
use crate::one_worker::play_by_one;
use crate::options::Options;
use crate::output::write_played;
use crate::script::read_rows;
use crate::workers::play_by_workers;
use script_player::ScriptRows;
use std::alloc::Global;
use std::io::{Read, Write};
use std::mem;
use std::sync::Wait;
use std::thread::Threads;
use watched_reader::Watched;

/// Reads a script and its rows. The text is held whole until it is read, and then dropped piece by piece as its rows
/// are made.
fn read_all<R: Read>(alloc: Global, reader: &mut Watched<R>) -> Result<ScriptRows, Fault>
    requires { has_failed reader.old ≡ false }
    ensures rows { IfOk result (λ rows. ReadsRows R.remaining reader.old reader.new rows) }
    ensures most { GaveAtMost R.remaining reader.old reader.new (max_script + 1) }
    ensures fault { IfErr result (λ e. ExplainsReading R.remaining reader.old reader.new e) }
{
    let script = read_script(alloc, reader)?;
    read_rows(alloc, script)
}

/// Reads a script to its end, checks all of it, plays it row by row on a new book, and writes the replies in the order
/// of the rows, and then the book. It uses one worker for any value of `workers`, starts no thread, and waits for none.
/// No read of the reader may have failed before. At most one byte past 268,435,456 is read.
///
/// # Errors
///
/// - `Read` if a read fails or the script is longer than 268,435,456 bytes.
/// - `BadRow` with the script's first bad row.
/// - `Memory` if an allocation fails. This may happen at any time before the first write, but not after a failed read.
/// - `Write` if the writer fails. The written bytes are then unspecified.
///
/// After any other error nothing is written.
///
/// # Cost
///
/// The script's text is dropped piece by piece as its rows are made. While the rows are played, the run holds those
/// that are left, the replies and the book. Writing allocates nothing. A run that succeeds does not free the replies
/// and the book, because the program then exits.
pub fn run_one<R: Read, W: Write>(
    alloc: Global,
    reader: &mut Watched<R>,
    writer: &mut W,
    options: &Options,
) -> Result<(), Fault>
    requires within { IsWithinOptionLimits options.now }
    requires unfailed { has_failed reader.old ≡ false }
    ensures played { OnOk result (OneSucceeds R.remaining reader.old reader.new
        W.contents writer.old writer.new options.now) }
    ensures most { GaveAtMost R.remaining reader.old reader.new (max_script + 1) }
    ensures silent { IfErr result (λ e. e ≢ Fault.Write → writer.new ≡ writer.old) }
    ensures fault { IfErr result (λ e. Explains R.remaining reader.old reader.new e) }
{
    let rows = read_all(alloc, reader)?;
    let Ok((book, replies)) = play_by_one(alloc, options, rows) else {
        return Err(Fault::Memory);
    };
    write_played(writer, replies.as_slice(), &book)?;
    mem::forget(book);
    mem::forget(replies);
    Ok(())
}

/// Runs as `run_one` does if there is one worker. Otherwise workers play the rows on a new store, each in a thread of
/// its own. The worker of a row is the one whose number is the row's lane modulo the number of workers. The replies are
/// written in the order of the rows, and then the book. The order of the rows of two workers is not specified, so the
/// same script may write another text at the next run; a row may then fail with `Busy`.
///
/// # Errors
///
/// Those of `run_one`, and `Memory` if a thread cannot be started.
pub fn run<T: Threads + Wait + Sync, R: Read, W: Write>(
    rt: &T,
    alloc: Global,
    reader: &mut Watched<R>,
    writer: &mut W,
    options: &Options,
) -> Result<(), Fault>
    requires within { IsWithinOptionLimits options.now }
    requires unfailed { has_failed reader.old ≡ false }
    ensures played { options.now.workers ≡ 1 → OnOk result (OneSucceeds R.remaining
        reader.old reader.new W.contents writer.old writer.new options.now) }
    ensures together { options.now.workers ≢ 1 → OnOk result (AllSucceed R.remaining
        reader.old reader.new W.contents writer.old writer.new options.now) }
    ensures most { GaveAtMost R.remaining reader.old reader.new (max_script + 1) }
    ensures silent { IfErr result (λ e. e ≢ Fault.Write → writer.new ≡ writer.old) }
    ensures fault { IfErr result (λ e. Explains R.remaining reader.old reader.new e) }
{
    if options.workers == 1 {
        return run_one(alloc, reader, writer, options);
    }
    let rows = read_all(alloc, reader)?;
    play_by_workers(rt, alloc, writer, options, &rows)?;
    mem::forget(rows);
    Ok(())
}

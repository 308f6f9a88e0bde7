//! Rows played by several workers on a store that they share.
ghost use Rattle.std.specs.Prelude.{◌≡◌, ◌≢◌, ◌⊎◌, IfErr, OnOk, false};
ghost use Rattle.blobctl.specs.Options.{IsWorkerCount, IsWithinOptionLimits};
ghost use Rattle.blobctl.specs.Writing.{AddsRunOf};
ghost use Rattle.blob_store.specs.Parts.{OpensParts, names_of};

use crate::fault::Fault;
use crate::options::Options;
use crate::output::write_by_row;
use blob_store::{Naming, Parts, PlayedToEnd, play_to_end};
use script_player::{OpenGate, ScriptRows};
use std::alloc::Global;
use std::io::Write;
use std::marker::Brand;
use std::mem;
use std::sync::Wait;
use std::thread::Threads;

/// Plays all rows by workers on a store of these parts, and writes the replies and then the book. The parts are those
/// of the options, and their names those of the type parameter. If the call succeeds, it does not free the replies and
/// the book.
fn play_on_store<T: Threads + Wait + Sync, W: Write, S: Naming + Send + Sync>(
    rt: &T,
    alloc: Global,
    writer: &mut W,
    parts: Parts,
    options: &Options,
    rows: &ScriptRows,
) -> Result<(), Fault>
    requires workers { IsWorkerCount options.now.workers }
    requires kept { options.now.store.on_disk ≡ false }
    requires opened { OpensParts options.now.store parts }
    requires named { names_of parts ≡ S.names }
    ensures played { OnOk result (AddsRunOf W.contents writer.old writer.new options.now rows.now) }
    ensures silent { IfErr result (λ e. e ≢ Fault.Write → writer.new ≡ writer.old) }
    ensures refused { IfErr result (λ e. (e ≡ Fault.Memory) ⊎ (e ≡ Fault.Write)) }
{
    let Ok(played) = play_to_end::<_, _, S, _>(rt, alloc, parts, rows, options.workers, &OpenGate)
    else {
        return Err(Fault::Memory);
    };
    let PlayedToEnd { mut replies, book } = played;
    let Ok(()) = write_by_row(writer, &rows, &mut replies) else {
        return Err(Fault::Write);
    };
    let Ok(()) = book.print(writer) else {
        return Err(Fault::Write);
    };
    mem::forget(book);
    mem::forget(replies);
    Ok(())
}

/// Plays all rows by workers on a new store, and writes the replies in the order of the rows, and then the book. The
/// book has the tenants, the quotas, the slots and the limit on blobs of the options.
///
/// # Errors
///
/// - `Memory` if an allocation fails or a thread cannot be started; nothing is written then.
/// - `Write` if the writer fails.
pub fn play_by_workers<T: Threads + Wait + Sync, W: Write>(
    rt: &T,
    alloc: Global,
    writer: &mut W,
    options: &Options,
    rows: &ScriptRows,
) -> Result<(), Fault>
    requires { IsWithinOptionLimits options.now }
    ensures played { OnOk result (AddsRunOf W.contents writer.old writer.new options.now rows.now) }
    ensures silent { IfErr result (λ e. e ≢ Fault.Write → writer.new ≡ writer.old) }
    ensures refused { IfErr result (λ e. (e ≡ Fault.Memory) ⊎ (e ≡ Fault.Write)) }
{
    let Ok(parts) = Parts::new(alloc, &options.store) else {
        return Err(Fault::Memory);
    };
    play_on_store::<T, W, Brand>(rt, alloc, writer, parts, options, rows)
}

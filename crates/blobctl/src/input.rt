//! Reads a script to its end.
ghost use Rattle.std.specs.Prelude.{◌≡◌, ◌+◌, ◌<◌, ◌≤◌, ◌++◌, false, IfOk, IfErr, OnErr, OnOk, length, take};
ghost use Rattle.std.specs.Io.KnownBytes.{IsAtEnd};
ghost use Rattle.blobctl.specs.Ending.{IsReadWhole};
ghost use Rattle.blobctl.specs.Inputs.{ExplainsOneRead, ExplainsUnread, GaveAtMost, GaveFront};
ghost use Rattle.blobctl.specs.Inputs.{max_script};
ghost use Rattle.watched_reader.specs.Watching.{HasNotFailed, has_failed, inner_of};

use crate::fault::Fault;
use crate::script_text::ScriptText;
use std::alloc::{AllocError, Global};
use std::io::Read;
use watched_reader::Watched;

/// The longest script, in bytes.
const MAX_SCRIPT: usize = 268_435_456;

/// The most bytes of one read.
const MAX_READ: usize = 65_536;

/// The longest block of memory, in bytes, that the C library reuses after it was dropped. Each piece of a script's text
/// is shorter, and each list of its rows except one whose only row is longer.
const REUSED: usize = 4_259_840;

/// Makes the C library reuse dropped blocks. By default it maps each block of 128 KiB or more by itself and unmaps it
/// when it is dropped, so each page of the next block is cleared again. If a longer block was dropped before, its
/// length becomes the new bound (glibc, mallopt(3), `M_MMAP_THRESHOLD`). A script's rows then reuse the memory of its
/// text, and the blobs that of the rows. The block is dropped untouched, so none of its pages is used.
fn reuse_blocks(alloc: Global) -> Result<(), AllocError> {
    let block: Vec<u8> = Vec::with_capacity(alloc, REUSED)?;
    drop(block);
    Ok(())
}

/// Adds the bytes of one read to the script, and returns how many there were.
fn add_one_read<R: Read>(
    alloc: Global,
    reader: &mut Watched<R>,
    buffer: &mut [u8],
    script: &mut ScriptText,
) -> Result<usize, Fault>
    requires { 0 < length buffer.old }
    ensures added { IfOk result (λ n. script.new ≡ script.old ++ take n buffer.new) }
    ensures taken { IfOk result (λ n. GaveFront R.remaining reader.old reader.new buffer.new n) }
    ensures few { IfOk result (λ n. n ≤ length buffer.new) }
    ensures end { IfOk result (λ n. n ≡ 0 → IsAtEnd (R.remaining (inner_of reader.new))) }
    ensures unfailed { OnOk result (HasNotFailed reader.old reader.new) }
    ensures refused { IfErr result (λ e. ExplainsOneRead reader.old reader.new e) }
    ensures most { OnErr result (GaveAtMost R.remaining reader.old reader.new (length buffer.old)) }
{
    let Ok(count) = reader.read(buffer) else {
        return Err(Fault::Read);
    };
    script.add(alloc, &buffer[..count])?;
    Ok(count)
}

/// Reads a script to its end. No read of the reader may have failed before. Any failed read ends the reading, also an
/// interrupted one, so no read failed if a text is returned. At most one byte past the longest script is read.
///
/// # Errors
///
/// - `Read` if a read fails, or the script is longer than 268,435,456 bytes.
/// - `Memory` if an allocation fails; no read has failed then.
pub fn read_script<R: Read>(alloc: Global, reader: &mut Watched<R>) -> Result<ScriptText, Fault>
    requires { has_failed reader.old ≡ false }
    ensures whole { IfOk result (IsReadWhole R.remaining reader.old reader.new) }
    ensures most { GaveAtMost R.remaining reader.old reader.new (max_script + 1) }
    ensures refused { IfErr result (λ e. ExplainsUnread R.remaining reader.old reader.new e) }
{
    reuse_blocks(alloc)?;
    let mut script = ScriptText::new(alloc);
    let mut len = 0;
    let mut buffer = [0u8; MAX_READ];
    for _turn in 0..MAX_SCRIPT + 1 {
        let room = MAX_SCRIPT + 1 - len;
        let wanted = room.min(MAX_READ);
        let count = add_one_read(alloc, reader, &mut buffer[..wanted], &mut script)?;
        if count == 0 {
            return Ok(script);
        }
        len += count;
        if len > MAX_SCRIPT {
            return Err(Fault::Read);
        }
    }
    Err(Fault::Read)
}

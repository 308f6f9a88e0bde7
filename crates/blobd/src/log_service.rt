//! Serves connections on a store with the log of a folder.
ghost use Rattle.server_cli.specs.Arguments.{IsWithin};

use crate::contents::{Contents, LONGEST, ServedContents};
use crate::durable_serving::{ExaminedLog, serve_log};
use crate::folder_stop::{folder_stop, log_stop};
use crate::serve_fault::ServeFault;
use crate::totals::conclude;
use blob_store::Parts;
use log_folder::{
    ConvertError, DataFolder, FolderError, OpenLog, Outcome, Segment, When, accept_loss, compact,
    convert, open_log, read_longest, salvage, write_longest,
};
use server_cli::{LogOptions, Need, Options, Stop};
use std::alloc::Global;
use std::io::{self, ErrorKind, Read, Write};
use std::sync::{Arc, Wait};
use std::thread::Threads;
use store_replay::{Cause, Damage, FolderFile, LogPlace};
use store_server::{Connection, EndCell};

/// Returns whether a log with this damage may be read further. One of two logs may not, and one with a record of a later version.
fn is_loss(damage: &Damage) -> bool {
    !matches!(
        damage,
        Damage::Second | Damage::Record(Cause::UnknownKind(_))
    )
}

/// How a start goes on with a damaged log.
#[derive(Clone, Copy)]
enum Mending {
    /// The log is cut at this place.
    Cut(LogPlace),
    /// What is left of the log is written anew.
    Salvage,
}

/// Returns how a start goes on with a log that is damaged at a place, if the loss was accepted.
fn mending_of(
    folder: &DataFolder<'_>,
    how: LogOptions<'_>,
    place: LogPlace,
    damage: &Damage,
) -> Option<Mending> {
    if how.accepted_loss == Some(place.offset) {
        return Some(Mending::Cut(place));
    }
    if folder.accepts_loss && is_loss(damage) {
        return Some(Mending::Salvage);
    }
    None
}

/// Mends a damaged log.
fn mend(rt: &HostRuntime, folder: &DataFolder<'_>, mending: Mending) -> Result<(), FolderError> {
    match mending {
        Mending::Cut(place) => accept_loss(rt, folder, place),
        Mending::Salvage => salvage(rt, folder),
    }
}

/// Mends a damaged log, and opens it.
fn open_after(
    rt: &HostRuntime,
    folder: &DataFolder<'_>,
    mending: Mending,
) -> Result<OpenLog, FolderError> {
    mend(rt, folder, mending)?;
    open_log(rt, folder)
}

/// Opens the log of a folder. If it is damaged and the loss of what is after that place was accepted, cuts it there. If any loss was
/// accepted, goes on with what is left of it.
fn open_mended<'w>(
    rt: &HostRuntime,
    folder: &DataFolder<'w>,
    how: LogOptions<'w>,
) -> Result<OpenLog, Stop<'w>> {
    let error = match open_log(rt, folder) {
        Ok(log) => return Ok(log),
        Err(error) => error,
    };
    let mending = match &error {
        FolderError::Damaged(place, damage) => mending_of(folder, how, *place, damage),
        _ => None,
    };
    let Some(mending) = mending else {
        return Err(folder_stop(how.folder, error));
    };
    match open_after(rt, folder, mending) {
        Ok(log) => Ok(log),
        Err(error) => Err(folder_stop(how.folder, error)),
    }
}

/// Returns the files of a log in order, with the number of the last one.
fn segments_of(log: OpenLog) -> Result<(Vec<Segment>, u64), Stop<'static>> {
    let OpenLog {
        closed,
        last,
        number,
    } = log;
    let mut segments = closed;
    if segments.push(last).is_err() {
        return Err(Stop::Memory);
    }
    Ok((segments, number))
}

/// Rewrites a log of a store with these tenants if it is the time to, and opens it again then.
fn examined<'w>(
    rt: &HostRuntime,
    folder: &DataFolder<'w>,
    how: LogOptions<'w>,
    tenants: &[String],
    log: OpenLog,
    when: When,
) -> Result<ExaminedLog<'w>, Stop<'w>> {
    let (mut segments, number) = segments_of(log)?;
    let owner = folder.ownership.owner;
    let outcome = match compact(
        rt,
        folder.path,
        owner,
        tenants,
        segments.as_mut_slice(),
        number,
        when,
    ) {
        Ok(outcome) => outcome,
        Err(error) => return Err(folder_stop(how.folder, error)),
    };
    if matches!(outcome, Outcome::Rewritten(_)) {
        drop(segments);
        let log = open_mended(rt, folder, how)?;
        return Ok(ExaminedLog {
            host: *rt,
            folder: how.folder,
            owner,
            log,
            outcome,
        });
    }
    let Some(last) = segments.pop() else {
        let error = io::Error::from(ErrorKind::NotFound);
        let error = FolderError::of_file("open", FolderFile::Log(number), error);
        return Err(folder_stop(how.folder, error));
    };
    let log = OpenLog {
        closed: segments,
        last,
        number,
    };
    Ok(ExaminedLog {
        host: *rt,
        folder: how.folder,
        owner,
        log,
        outcome,
    })
}

/// Opens the log of a folder, and makes it before if there is none. A torn end is cut off, and if less than half of the log is needed,
/// it is rewritten. The store's tenants have these names, in their order.
///
/// # Errors
///
/// - `Stop::Folder`, if the log cannot be made, opened, read or cut.
/// - `Stop::Damaged`, if it is no log of this version, or is damaged at another place than the accepted one.
/// - `Stop::Memory`
pub fn open_folder<'w>(
    rt: &HostRuntime,
    folder: &DataFolder<'w>,
    how: LogOptions<'w>,
    tenants: &[String],
) -> Result<ExaminedLog<'w>, Stop<'w>> {
    let log = open_mended(rt, folder, how)?;
    examined(rt, folder, how, tenants, log, When::Wasteful)
}

/// Returns the stop for a log that was not converted. Prints the file of a content that cannot be written.
fn convert_stop<'w>(rt: &HostRuntime, folder: &'w str, error: ConvertError) -> Stop<'w> {
    match error {
        ConvertError::Folder(error) => folder_stop(folder, error),
        ConvertError::Content { path, error } => {
            let _ = eprint!(*rt; "blobd: cannot write {path}: {error}\n");
            folder_stop(
                folder,
                FolderError::of_file("write", FolderFile::Contents, error),
            )
        }
    }
}

/// Converts a log that has the bytes of all contents. Before, it is rewritten, if there is room, so that what was dropped is not
/// converted. Returns whether no content is left to convert: if not, the log has a record that cannot be replayed.
fn convert_log<'w>(
    rt: &HostRuntime,
    folder: &DataFolder<'w>,
    how: LogOptions<'w>,
    log: OpenLog,
    files: &ServedContents<'_>,
) -> Result<bool, Stop<'w>> {
    let examined = examined(rt, folder, how, files.tenants(), log, When::Always)?;
    let (mut segments, number) = segments_of(examined.log)?;
    match convert(
        rt,
        folder.path,
        folder.ownership.owner,
        segments.as_mut_slice(),
        number,
        files.folder(),
        files.tenants(),
        LONGEST,
    ) {
        Ok(conversion) => Ok(conversion.is_whole),
        Err(error) => Err(convert_stop(rt, how.folder, error)),
    }
}

/// Opens the log of a folder, as `open_folder` does. A log that has the bytes of all contents is converted before. Returns also the
/// length of the longest content whose bytes the log has then.
///
/// # Errors
///
/// Those of `open_folder`, and those of the conversion.
pub fn open_converted<'w>(
    rt: &HostRuntime,
    folder: &DataFolder<'w>,
    how: LogOptions<'w>,
    files: &ServedContents<'_>,
) -> Result<(ExaminedLog<'w>, u64), Stop<'w>> {
    let longest = match read_longest(rt, folder.path) {
        Ok(longest) => longest,
        Err(error) => return Err(folder_stop(how.folder, error)),
    };
    if let Some(longest) = longest {
        let log = open_folder(rt, folder, how, files.tenants())?;
        return Ok((log, longest));
    }
    let log = open_mended(rt, folder, how)?;
    if log.is_empty() || convert_log(rt, folder, how, log, files)? {
        if let Err(error) = write_longest(rt, folder.path, folder.ownership.owner, LONGEST) {
            return Err(folder_stop(how.folder, error));
        }
    }
    let log = open_folder(rt, folder, how, files.tenants())?;
    Ok((log, LONGEST))
}

/// Returns the stop for a log that has a record at this place which cannot be replayed.
fn record_stop<'w>(folder: &'w str, place: LogPlace, cause: Cause) -> Stop<'w> {
    let need = match &cause {
        Cause::Refused { name: _, refusal } => Need::of_refusal(*refusal),
        _ => None,
    };
    match (cause, need) {
        (Cause::Refused { name, refusal: _ }, Some(need)) => Stop::Settings {
            folder,
            place,
            name,
            need,
        },
        (cause, _) => Stop::Damaged {
            folder,
            place,
            damage: Damage::Record(cause),
        },
    }
}

/// Returns the stop for a log that was not served.
fn fault_stop<'w>(folder: &'w str, fault: ServeFault) -> Stop<'w> {
    match fault {
        ServeFault::Memory => Stop::Memory,
        ServeFault::Read(file, error) => {
            folder_stop(folder, FolderError::of_file("read", file, error))
        }
        ServeFault::Folder(error) => folder_stop(folder, error),
        ServeFault::Missing(count) => Stop::Missing { folder, count },
        ServeFault::Log(error) => log_stop(folder, error),
        ServeFault::Record { place, cause } => record_stop(folder, place, cause),
    }
}

/// Serves connections on a store of the options with the log of a folder, and prints its totals.
fn serve_once<
    'w,
    W: Threads + Wait + Sync + Copy + Send + 'static,
    I: Read + Send + Drop,
    O: Write + Send + Drop,
>(
    rt: &HostRuntime,
    threads: &W,
    options: &Options<'w>,
    how: LogOptions<'w>,
    log: ExaminedLog<'w>,
    contents: &Contents<'_>,
    end: &Arc<EndCell, Global>,
    lines: &mut [Connection<I, O>],
) -> Result<(), Stop<'w>>
    requires { IsWithin (options.now).store }
{
    let Ok(parts) = Parts::with_policy(rt.alloc(), &options.store, how.policy) else {
        return Err(Stop::Memory);
    };
    let parts = parts.with_files(contents.longest);
    match serve_log(threads, rt.alloc(), parts, log, contents, end, lines) {
        Ok(totals) => conclude(rt, totals, lines),
        Err(fault) => Err(fault_stop(how.folder, fault)),
    }
}

/// Opens the log of a folder after a replay was stopped by the settings, which are too small. The store may have needed more only for a
/// time. So the log is rewritten, and has only what is there at its end. Returns the stop if it was rewritten before.
fn reopened_smaller<'w>(
    rt: &HostRuntime,
    folder: &DataFolder<'w>,
    how: LogOptions<'w>,
    tenants: &[String],
    stop: Stop<'w>,
) -> Result<ExaminedLog<'w>, Stop<'w>> {
    let log = open_mended(rt, folder, how)?;
    let log = examined(rt, folder, how, tenants, log, When::Always)?;
    match log.outcome {
        Outcome::Rewritten(_) => Ok(log),
        Outcome::Kept(_) => Err(stop),
    }
}

/// Opens the log of a folder after a replay was stopped, if another replay may succeed, and returns the stop otherwise.
///
/// If a record cannot be replayed and the loss of it was accepted, the log is cut, or what is left of it is written anew. If the settings
/// are too small, the log is rewritten.
fn reopened<'w>(
    rt: &HostRuntime,
    folder: &DataFolder<'w>,
    how: LogOptions<'w>,
    tenants: &[String],
    stop: Stop<'w>,
) -> Result<ExaminedLog<'w>, Stop<'w>> {
    let mending = match &stop {
        Stop::Damaged { place, damage, .. } => mending_of(folder, how, *place, damage),
        _ => None,
    };
    if let Some(mending) = mending {
        return match mend(rt, folder, mending) {
            Ok(()) => open_folder(rt, folder, how, tenants),
            Err(error) => Err(folder_stop(how.folder, error)),
        };
    }
    if stop.is_of_settings() {
        return reopened_smaller(rt, folder, how, tenants, stop);
    }
    Err(stop)
}

/// Serves connections on a store of the options with the log of a folder, and prints its totals. If the log cannot be replayed as it
/// is, it is cut, rewritten, or written anew once ([`reopened`]).
pub fn serve_folder<
    'w,
    W: Threads + Wait + Sync + Copy + Send + 'static,
    I: Read + Send + Drop,
    O: Write + Send + Drop,
>(
    rt: &HostRuntime,
    threads: &W,
    options: &Options<'w>,
    folder: &DataFolder<'w>,
    how: LogOptions<'w>,
    log: ExaminedLog<'w>,
    contents: &Contents<'_>,
    end: &Arc<EndCell, Global>,
    lines: &mut [Connection<I, O>],
) -> Result<(), Stop<'w>>
    requires { IsWithin (options.now).store }
{
    match serve_once(rt, threads, options, how, log, contents, end, lines) {
        Ok(()) => Ok(()),
        Err(stop) => {
            let log = reopened(rt, folder, how, contents.files.tenants(), stop)?;
            serve_once(rt, threads, options, how, log, contents, end, lines)
        }
    }
}

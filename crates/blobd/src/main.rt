//! Keeps a store, in memory or with a log in a folder, and serves it on connections.
//!
//!     blobd --version
//!     blobd [--data DIR [--sync closes|each|never] [--accept-loss-after BYTE] [--sha512]]
//!           SLOTS MAX_BLOB TENANT=QUOTA[,BLOBS[,REPOS,MANIFESTS,UPLOADS]].. [-- IN OUT [IN OUT]..]
//!
//! A connection is a pair of files, such as the ends of two pipes. Requests are read from `IN` and replies written to
//! `OUT`, in the frames of `docs/PROTOCOL.md`. Without files there is one connection: standard input and output. Each
//! connection has a thread and a desk of its own. It ends when its input ends, and the program when all connections have
//! ended. The program depends on `store_server` for the connections, and on `server_cli` for its arguments and messages.
//!
//! With `--data` the changes of the store are kept in the files `DIR/log.N`. A start replays them: it depends on `store_replay`
//! for that, on `segmented_disk` for the bytes of the files, and on `log_folder` for the files. If the log cannot be written any
//! more, the program ends at once. So it serves in a second thread, and the first one waits for the end of the service or for that
//! failure. A third thread rewrites the log.
//!
//! Contents lie in files of the folder `DIR/contents` (`content_folder`). A start compares the files with the store.
//!
//! It guarantees of the function `serve_log` what `store_server` guarantees of `serve_new`, for each connection.
#![tactic(auto)]

ghost use Rattle.std.specs.Prelude.{◌≡◌, IfErr, IfOk};
ghost use Rattle.server_cli.specs.Stops.{stop_status};
ghost use Rattle.server_cli.specs.Arguments.{IsWithin};

mod comparison;
mod contents;
mod durable_serving;
mod early_syncs;
mod folder_stop;
mod leftovers;
mod log_service;
mod replaying;
mod serve_fault;
mod totals;

use crate::contents::{Contents, ServedContents, tenant_names};
use crate::durable_serving::lost_folder;
use crate::folder_stop::{folder_stop, log_stop, owner_stop};
use crate::log_service::{open_converted, serve_folder};
use crate::totals::conclude;
use blob_store::Parts;
use log_folder::{DataFolder, FolderError};
use server_cli::{LogOptions, Options, Stop, read_arguments};
use std::alloc::{AllocError, Global};
use std::env;
use std::fs::File;
use std::io::{self, BufReader, BufWriter, ErrorKind, Read, Write};
use std::process::ExitCode;
use std::sync::{Arc, Wait};
use std::thread::{self, Threads};
use store_replay::FolderFile;
use store_server::{Connection, EndCell, ServiceEnd, serve_new};

/// A connection whose files are read and written through buffers.
type Buffered<I, O> = Connection<BufReader<I>, BufWriter<O>>;

/// Returns the stop for a file that cannot be opened.
fn file_stop(path: &str, error: io::Error) -> Stop<'_> {
    match error.kind() {
        ErrorKind::OutOfMemory => Stop::Memory,
        _ => Stop::File { path, error },
    }
}

/// Makes a connection of an input and an output. It fails only with `Stop::Memory`.
fn buffered<'w, I: Read + Drop, O: Write + Drop>(
    rt: &HostRuntime,
    input: I,
    output: O,
) -> Result<Buffered<I, O>, Stop<'w>> {
    let Ok(input) = BufReader::new(rt.alloc(), input) else {
        return Err(Stop::Memory);
    };
    let Ok(output) = BufWriter::new(rt.alloc(), output) else {
        return Err(Stop::Memory);
    };
    Ok(Connection::new(input, output))
}

/// Opens the file of a connection's requests.
fn open_input<'w>(rt: &HostRuntime, path: &'w str) -> Result<File, Stop<'w>> {
    match File::open(rt, path) {
        Ok(file) => Ok(file),
        Err(error) => Err(file_stop(path, error)),
    }
}

/// Opens the file of a connection's replies.
fn open_output<'w>(rt: &HostRuntime, path: &'w str) -> Result<File, Stop<'w>> {
    match File::options().write(true).open(rt, path) {
        Ok(file) => Ok(file),
        Err(error) => Err(file_stop(path, error)),
    }
}

/// Opens the files of all connections, two for each.
fn open_connections<'w>(
    rt: &HostRuntime,
    paths: &'w [String],
) -> Result<Vec<Buffered<File, File>>, Stop<'w>> {
    let mut lines = Vec::new(rt.alloc());
    for pair in paths.chunks_exact(2) {
        let input = open_input(rt, pair[0].as_str())?;
        let output = open_output(rt, pair[1].as_str())?;
        if lines.push(buffered(rt, input, output)?).is_err() {
            return Err(Stop::Memory);
        }
    }
    Ok(lines)
}

/// Serves connections on a store of these parts, and prints its totals.
fn serve_all<I: Read + Send + Drop, O: Write + Send + Drop>(
    rt: &HostRuntime,
    threads: &(impl Threads + Wait + Sync),
    parts: Parts,
    lines: &mut [Connection<I, O>],
) -> Result<(), Stop<'static>> {
    let totals = serve_new(threads, rt.alloc(), parts, lines)?;
    conclude(rt, totals, lines)
}

/// Serves the connections of the options on a new store in memory.
fn run_in_memory<'w>(
    rt: &HostRuntime,
    threads: &(impl Threads + Wait + Sync),
    options: &Options<'w>,
) -> Result<(), Stop<'w>>
    requires { IsWithin (options.now).store }
{
    let Ok(parts) = Parts::new(rt.alloc(), &options.store) else {
        return Err(Stop::Memory);
    };
    if options.paths.is_empty() {
        let line = buffered(rt, rt.reader(), io::writer(rt))?;
        return serve_all(rt, threads, parts, &mut [line]);
    }
    let mut lines = open_connections(rt, options.paths)?;
    serve_all(rt, threads, parts, lines.as_mut_slice())
}

/// Returns the path of the folder of contents in a folder that this process owns. It leads through the owner's folder: a process that
/// is the owner no more finds no content.
fn contents_path(alloc: Global, folder: &DataFolder<'_>) -> Result<String, AllocError> {
    let owner = FolderFile::Owner(folder.ownership.owner);
    format!(in alloc; "{}{owner}/..{}", folder.path, FolderFile::Contents)
}

/// Serves the connections of the options on a store with the log of a folder that this process has.
fn run_in_folder<'w, W: Threads + Wait + Sync + Copy + Send + 'static>(
    rt: &HostRuntime,
    threads: &W,
    options: &Options<'w>,
    folder: &DataFolder<'w>,
    how: LogOptions<'w>,
    end: &Arc<EndCell, Global>,
) -> Result<(), Stop<'w>>
    requires { IsWithin (options.now).store }
{
    let names = tenant_names(rt.alloc(), &options.store)?;
    let path = contents_path(rt.alloc(), folder)?;
    let opened = ServedContents::open(rt, how.folder, path.as_str(), names.as_slice(), how.sha512);
    let files = match opened {
        Ok(files) => files,
        Err(error) => {
            let error = FolderError::of_file("make", FolderFile::Contents, error);
            return Err(folder_stop(how.folder, error));
        }
    };
    let (log, longest) = open_converted(rt, folder, how, &files)?;
    let contents = Contents {
        files,
        path: path.as_str(),
        longest,
        slots: options.store.slots,
        accepts_loss: folder.accepts_loss,
    };
    if options.paths.is_empty() {
        let line = buffered(rt, rt.reader(), io::writer(rt))?;
        return serve_folder(
            rt,
            threads,
            options,
            folder,
            how,
            log,
            &contents,
            end,
            &mut [line],
        );
    }
    let mut lines = open_connections(rt, options.paths)?;
    serve_folder(
        rt,
        threads,
        options,
        folder,
        how,
        log,
        &contents,
        end,
        lines.as_mut_slice(),
    )
}

/// Serves the connections of the options on a store with the log of a folder.
fn run_with_log<'w, W: Threads + Wait + Sync + Copy + Send + 'static>(
    rt: &HostRuntime,
    threads: &W,
    options: &Options<'w>,
    how: LogOptions<'w>,
    end: &Arc<EndCell, Global>,
) -> Result<(), Stop<'w>>
    requires { IsWithin (options.now).store }
{
    let folder = match DataFolder::lock(rt, how.folder) {
        Ok(folder) => folder,
        Err(error) => return Err(folder_stop(how.folder, error)),
    };
    match run_in_folder(rt, threads, options, &folder, how, end) {
        Ok(()) => Ok(()),
        Err(stop) => Err(owner_stop(rt, &folder, stop)),
    }
}

/// Returns the stop for arguments that cannot be read: memory ran out, or one of them is not UTF-8.
fn arguments_stop(error: io::Error) -> Stop<'static> {
    match error.kind() {
        ErrorKind::OutOfMemory => Stop::Memory,
        _ => Stop::Usage,
    }
}

/// Returns the arguments of the command line, the program's name first.
fn words_of(rt: &HostRuntime) -> io::Result<Vec<String>> {
    let words = env::args(rt)?.collect(rt.alloc())?;
    Ok(words)
}

/// Prints why the program stops, and returns its exit status.
fn report(rt: &HostRuntime, stop: Stop<'_>) -> u8
    ensures { result ≡ stop_status stop.entry }
{
    let _ = eprint!(rt; "{}", stop.text());
    stop.status()
}

/// Prints why the program stops, if it does, and returns its exit status.
fn status_of(rt: &HostRuntime, done: Result<(), Stop<'_>>) -> u8 {
    match done {
        Ok(()) => 0,
        Err(stop) => report(rt, stop),
    }
}

/// Serves a store with a log as the arguments say, and returns how the service ended.
fn serve_words<W: Threads + Wait + Sync + Copy + Send + 'static>(
    rt: &HostRuntime,
    threads: &W,
    words: &[String],
    end: &Arc<EndCell, Global>,
) -> ServiceEnd {
    let options = match read_arguments(rt.alloc(), words) {
        Ok(options) => options,
        Err(stop) => return ServiceEnd::Ended(report(rt, stop)),
    };
    let done = match options.log {
        Some(how) => run_with_log(rt, threads, &options, how, end),
        None => run_in_memory(rt, threads, &options),
    };
    match done {
        Err(Stop::LogFailed { folder: _, error }) => ServiceEnd::Failed(error),
        // The main thread prints it, perhaps after a commit has failed for the same reason.
        Err(Stop::Lost { folder: _ }) => ServiceEnd::Failed(lost_folder()),
        done => ServiceEnd::Ended(status_of(rt, done)),
    }
}

/// Serves a store with a log in a thread, and waits until the service ends or the log fails. Returns the exit status. If no
/// thread can be started, it serves in this one.
fn run_beside<W: Threads + Wait + Sync + Copy + Send + 'static>(
    rt: &HostRuntime,
    threads: &W,
    words: &Vec<String>,
    folder: &str,
) -> u8 {
    let Ok(end) = Arc::new(rt.alloc(), EndCell::new()) else {
        return report(rt, Stop::Memory);
    };
    let Ok(theirs) = Arc::try_clone(&end) else {
        return report(rt, Stop::Memory);
    };
    let Ok(words) = words.clone() else {
        return report(rt, Stop::Memory);
    };
    let here = *rt;
    let handle = *threads;
    let job = move || {
        let ended = serve_words(&here, &handle, words.as_slice(), &theirs);
        theirs.end(&handle, ended);
    };
    match thread::spawn(threads, job) {
        Ok(_thread) => {}
        Err(refused) => (refused.value)(),
    }
    match end.wait(threads) {
        ServiceEnd::Failed(error) => report(rt, log_stop(folder, error)),
        ServiceEnd::Ended(status) => status,
    }
}

/// Returns whether the only argument is `--version`.
fn asks_for_version(words: &[String]) -> bool {
    match words {
        [_, word] => word.as_str() == "--version",
        _ => false,
    }
}

/// Prints the versions of the formats. The program does not know what proved it: its record says that.
fn print_version(rt: &HostRuntime) {
    let mut output = io::writer(rt);
    let _ = output.write_all(
        b"blobd: protocol 1, log 1; the record blobd.proved states the commit and the proof\n",
    );
}

/// Runs with the arguments of the command line, and returns the exit status.
fn run_here<W: Threads + Wait + Sync + Copy + Send + 'static>(rt: &HostRuntime, threads: &W) -> u8 {
    let words = match words_of(rt) {
        Ok(words) => words,
        Err(error) => return report(rt, arguments_stop(error)),
    };
    if asks_for_version(words.as_slice()) {
        print_version(rt);
        return 0;
    }
    let options = match read_arguments(rt.alloc(), words.as_slice()) {
        Ok(options) => options,
        Err(stop) => return report(rt, stop),
    };
    match options.log {
        Some(how) => run_beside(rt, threads, &words, how.folder),
        None => status_of(rt, run_in_memory(rt, threads, &options)),
    }
}

fn main(rt: HostRuntime) -> ExitCode {
    ExitCode::from(run_here(&rt, &rt))
}

//! `blobctl` plays a script of commands on a store in memory, and prints the replies and the book.
//!
//! The script is read from standard input: CSV records (RFC 4180) of seven fields, `lane`, `command`, `repo`, `key`,
//! `digest`, `range` and `body`. The program reads its arguments, reads the script to its end, checks all of it, plays
//! it, and writes the replies and then the book. `docs/SCRIPT.md` has the formats.
//!
//! The contract of `run` states:
//!
//! - One worker writes the replies and the book that the definitions of the store give for the script's rows.
//! - Several workers write one reply for each row, in the order of the rows, and the book to which one legal history of
//!   their rows leads.
//! - A bad row is the script's first one. A bad row, a read fault and running out of memory write nothing.
//! - A read fault occurs only if a read failed or the script is too long. After any other end, no read has failed.
//!
//! Only tests check that a write fault occurs only if a write failed. The laws on the definitions are in `laws`.
#![tactic(auto)]

ghost use Rattle.std.specs.Prelude.{◌≡◌, ◌⊎◌, IfOk};
ghost use Rattle.blobctl.specs.Options.{IsWithinOptionLimits};
ghost use Rattle.blobctl.specs.Stops.{stop_status};
ghost use Rattle.blobctl.specs.Texts.{fault_status};
ghost use Rattle.blobctl.specs.declared.fault.Fault.TheVariants.{Write};

mod arguments;
mod fault;
mod fields;
mod input;
mod laws;
mod one_worker;
mod options;
mod output;
mod pinned_book;
mod run;
mod script;
mod script_text;
mod workers;

use crate::arguments::read_options;
use crate::fault::Fault;
use crate::options::{Options, Stop};
use std::io::{BufWriter, ErrorKind, Write};
use std::process::ExitCode;
use std::sync::Wait;
use std::thread::Threads;
use std::{env, io};
use watched_reader::Watched;

/// How many bytes of the output are collected for one write.
const WRITE_BUFFER: usize = 65_536;

/// Runs on standard input and output, with threads if there are several workers. The output is flushed at the end, so a
/// fault of the last write is a write fault too.
fn run_on_stdio(
    rt: &HostRuntime,
    threads: &(impl Threads + Wait + Sync),
    options: &Options,
) -> Result<(), Fault>
    requires { IsWithinOptionLimits options.now }
{
    let mut reader = Watched::new(rt.reader());
    let Ok(mut writer) = BufWriter::with_capacity(rt.alloc(), WRITE_BUFFER, io::writer(rt)) else {
        return Err(Fault::Memory);
    };
    run::run(threads, rt.alloc(), &mut reader, &mut writer, options)?;
    match writer.flush() {
        Ok(()) => Ok(()),
        Err(_) => Err(Fault::Write),
    }
}

/// Prints why a run stopped early, and returns the exit status.
fn report_fault(rt: &HostRuntime, fault: Fault) -> u8
    ensures { result ≡ fault_status fault }
{
    let _ = eprint!(rt; "{}", fault.text());
    fault.status()
}

/// Prints why the program stops before it runs, and returns the exit status. It is a write fault if the help text
/// cannot be written.
fn stopped(rt: &HostRuntime, stop: &Stop) -> u8
    ensures { (result ≡ stop_status stop.now) ⊎ (result ≡ fault_status Write) }
{
    let text = stop.text();
    if let Stop::Help(_) = stop {
        let Ok(()) = print!(rt; "{text}") else {
            return report_fault(rt, Fault::Write);
        };
    } else {
        let _ = eprint!(rt; "{text}");
    }
    stop.status()
}

/// Returns why the command line cannot be read: out of memory, or a word that is not UTF-8.
fn arguments_stop(error: io::Error) -> Stop {
    match error.kind() {
        ErrorKind::OutOfMemory => Stop::Memory,
        _ => Stop::NotUtf8,
    }
}

/// Returns the words of the command line, the program's name first.
fn words_of(rt: &HostRuntime) -> io::Result<Vec<String>> {
    let words = env::args(rt)?.collect(rt.alloc())?;
    Ok(words)
}

/// Reads the options of the command line.
fn options_here(rt: &HostRuntime) -> Result<Options, Stop>
    ensures { IfOk result IsWithinOptionLimits }
{
    match words_of(rt) {
        Ok(words) => read_options(rt.alloc(), words.as_slice()),
        Err(error) => Err(arguments_stop(error)),
    }
}

fn main(rt: HostRuntime) -> ExitCode {
    let status = match options_here(&rt) {
        Err(stop) => stopped(&rt, &stop),
        Ok(options) => match run_on_stdio(&rt, &rt, &options) {
            Ok(()) => 0,
            Err(fault) => report_fault(&rt, fault),
        },
    };
    ExitCode::from(status)
}

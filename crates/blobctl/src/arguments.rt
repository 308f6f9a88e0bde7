//! Reads the command line.
ghost use Rattle.std.specs.Prelude.{◌≡◌, IfOk, IfErr, map, string_bytes};
ghost use Rattle.clap.specs.Words.{app_of, found_of, kind_of, rows_of};
ghost use Rattle.blobctl.specs.Arguments.{AreOptionsOf, ReadsNumbers, ReadsWorkers, RefusesFound};
ghost use Rattle.blobctl.specs.Arguments.{RefusesWords, SpellOptions, program};
ghost use Rattle.blobctl.specs.Options.{IsWithinOptionLimits};
ghost use Rattle.blobctl.specs.Stops.{IsStopFor};

use crate::options::{Options, Stop};
use blob_store::MAX_WORKERS;
use clap::error::ErrorKind;
use clap::{Arg, ArgAction, ArgMatches, Command};
use std::alloc::{AllocError, Global};
use store_book::{Config, GREATEST_SLOTS, MAX_BLOB};
use tenant_args::read_tenants;

/// The end of the text of `--help`.
const AFTER_HELP: &str = "\
The script is CSV on standard input. Each record is one command, of seven fields:
lane,command,repo,key,digest,range,body

Example: open an upload session, and add a chunk to it.

  $ printf '%s\\n' 0,start,acme/one,,,, 0,append,acme/one,1,,,abc | blobctl acme=1000
  1 session 1
  2 received 3
  book
  tenant acme used 3 quota 1000 next 2
  repository acme/one
  session 1 received 3
  end";

/// Makes `clap`'s description of the program's arguments.
fn command<'a>(alloc: Global) -> Result<Command<'a>, AllocError>
    ensures { IfOk result (λ c. app_of c ≡ program) }
{
    // Each argument is made where it is added, so that no other one has to be dropped if memory runs out.
    Command::new(alloc, "blobctl")
        .about(
            "Runs a script of commands on a blob store in memory, and prints replies and final state",
        )
        .after_help(AFTER_HELP)
        .arg(
            Arg::new(alloc, "slots")
                .help("Set the number of blobs that fit, 1 to 65536")
                .long("slots")
                .value_name("N")
                .value_parser(clap::value_parser!(u32).range(1..=65536))
                .default_value("64"),
        )?
        .arg(
            Arg::new(alloc, "max-blob")
                .help("Limit the length of a blob, 0 to 1099511627776")
                .long("max-blob")
                .value_name("BYTES")
                .value_parser(clap::value_parser!(u64).range(0..=1_099_511_627_776))
                .default_value("1048576"),
        )?
        .arg(
            Arg::new(alloc, "workers")
                .help("Run the script by N threads, 1 to 64")
                .long("workers")
                .value_name("N")
                .value_parser(clap::value_parser!(u32).range(1..=64))
                .default_value("1"),
        )?
        .arg(
            Arg::new(alloc, "tenants")
                .help("Serve a tenant with a quota in bytes; 1 to 256 of them")
                .value_name("TENANT=QUOTA")
                .required(true)
                .num_args(1..)
                .action(ArgAction::Append),
        )
}

/// Returns the stop for an error of `clap`.
fn stop_of(alloc: Global, error: clap::Error) -> Stop
    ensures { IsStopFor (kind_of error) result }
{
    let kind = error.kind();
    match error.to_string(alloc) {
        Err(_) => Stop::Memory,
        Ok(text) => match kind {
            ErrorKind::OutOfMemory => Stop::Memory,
            ErrorKind::DisplayHelp => Stop::Help(text),
            _ => Stop::Usage(text),
        },
    }
}

/// Returns the slots and the limit on blobs, or `None` if one is out of its limits.
fn numbers(matches: &ArgMatches<'_>) -> Option<(u32, u64)>
    ensures { ReadsNumbers (rows_of (found_of matches.now)) result }
{
    let slots = matches.get_one::<u32>("slots")?;
    let max_blob = matches.get_one::<u64>("max-blob")?;
    if 1 <= slots && slots <= GREATEST_SLOTS && max_blob <= MAX_BLOB {
        Some((slots, max_blob))
    } else {
        None
    }
}

/// Returns the number of workers, or `None` if it is out of its limits.
fn worker_count(matches: &ArgMatches<'_>) -> Option<usize>
    ensures { ReadsWorkers (rows_of (found_of matches.now)) result }
{
    let workers = matches.get_one::<u32>("workers")? as usize;
    if 1 <= workers && workers <= MAX_WORKERS {
        Some(workers)
    } else {
        None
    }
}

/// Makes the options of the matches.
fn options_of(alloc: Global, matches: &ArgMatches<'_>) -> Result<Options, Stop>
    ensures found { IfOk result (AreOptionsOf (rows_of (found_of matches.now))) }
    ensures within { IfOk result IsWithinOptionLimits }
    ensures refused { IfErr result (RefusesFound (rows_of (found_of matches.now))) }
{
    let Some((slots, max_blob)) = numbers(matches) else {
        return Err(Stop::Usage(String::new(alloc)));
    };
    let Some(workers) = worker_count(matches) else {
        return Err(Stop::Usage(String::new(alloc)));
    };
    let none: &[&str] = &[];
    let words = matches.get_strs("tenants").unwrap_or(none);
    let tenants = read_tenants(alloc, words, false)?;
    let store = Config {
        slots,
        max_blob,
        tenants,
        on_disk: false,
        first_generation: 0,
    };
    Ok(Options { store, workers })
}

/// Reads the options from the words of the command line, the program's name first.
///
/// # Errors
///
/// - `Help` if `clap`'s first fault is a request for help.
/// - `Usage` if `clap` finds another fault, or a number is out of its limits.
/// - `BadTenant` if a tenant's word is bad, after all other checks.
/// - `Memory` if an allocation fails, in place of any of these.
pub fn read_options(alloc: Global, words: &[String]) -> Result<Options, Stop>
    ensures spelled { IfOk result (SpellOptions (map string_bytes words.now)) }
    ensures within { IfOk result IsWithinOptionLimits }
    ensures refused { IfErr result (RefusesWords (map string_bytes words.now)) }
{
    let command = command(alloc)?;
    match command.try_get_matches_from(words) {
        Ok(matches) => options_of(alloc, &matches),
        Err(error) => Err(stop_of(alloc, error)),
    }
}

//! Reads the arguments of the command line.
ghost use Rattle.std.specs.Prelude.{◌≡◌, ◌⊎◌, IfErr, IfOk, length, map, string_bytes};
ghost use Rattle.std.specs.List.{after_first, before_first, position};
ghost use Rattle.store_book.specs.Openings.{IsSized};
ghost use Rattle.server_cli.specs.Stops.{tenant_stop};
ghost use Rattle.server_cli.specs.Arguments.{IsNumberWithin, IsWithin, RefusesArguments, RefusesSettings, SpellsOptions, SpellsSettings, is_end_of_tenants, texts_of};
ghost use Rattle.server_cli.specs.declared.stop.Stop.TheVariants.{Memory, Usage};

use crate::flags::{LogOptions, read_flags};
use crate::stop::Stop;
use blob_digest::decimal;
use std::alloc::Global;
use store_book::{Config, GREATEST_SLOTS, MAX_BLOB};
use tenant_args::read_tenants;

/// The options of the program.
#[derive(Drop)]
pub struct Options<'w> {
    /// The store's limits and tenants. With a log, contents lie in files.
    pub store: Config,
    /// How the store is made durable. `None` for a store in memory.
    pub log: Option<LogOptions<'w>>,
    /// Two paths for each connection: the file of its requests and the file of its replies.
    pub paths: &'w [String],
}

/// Returns the number that an argument spells, if it is at most `most`.
fn number(word: &str, most: u64) -> Option<u64>
    ensures { IsNumberWithin word.now most result }
{
    let number = decimal(word.as_bytes())?;
    if number <= most { Some(number) } else { None }
}

/// Borrows each of the arguments. Fails only with `Stop::Memory`.
fn texts(alloc: Global, words: &[String]) -> Result<Vec<&str>, Stop<'_>>
    ensures same { IfOk result (λ v. map (λ w. w.now) v.items ≡ map string_bytes words.now) }
    ensures refused { IfErr result (λ e. e ≡ Memory) }
{
    Ok(words.iter().map(|w| w.as_str()).collect(alloc)?)
}

/// Returns the index of the first argument `--`.
fn end_of(words: &[String]) -> Option<usize>
    ensures { result ≡ position (λ w. is_end_of_tenants (string_bytes w)) words.now }
{
    words.iter().position(|w| w.as_str() == "--")
}

/// Splits the arguments at the first `--`, which is in neither part.
fn split_at_end(words: &[String]) -> (&[String], &[String])
    ensures before { texts_of result.0.now ≡ before_first is_end_of_tenants (texts_of words.now) }
    ensures after { texts_of result.1.now ≡ after_first is_end_of_tenants (texts_of words.now) }
{
    match end_of(words) {
        Some(end) => (&words[..end], &words[end + 1..]),
        None => (words, &[]),
    }
}

/// Returns the store's limits and tenants, and the paths, that the arguments after the options spell. `on_disk` is whether contents
/// may lie in files.
fn read_settings(
    alloc: Global,
    words: &[String],
    on_disk: bool,
) -> Result<(Config, &[String]), Stop<'_>>
    ensures spelled { IfOk result (λ r. SpellsSettings (texts_of words.now) r.0
        (texts_of r.1.now)) }
    ensures place { IfOk result (λ r. (r.0).on_disk ≡ on_disk) }
    ensures within { IfOk result (λ r. IsWithin r.0) }
    ensures refused { IfErr result (RefusesSettings (texts_of words.now)) }
{
    let [slots, max_blob, rest @ ..] = words else {
        return Err(Stop::Usage);
    };
    let Some(slots) = number(slots.as_str(), u64::from(GREATEST_SLOTS)) else {
        return Err(Stop::Usage);
    };
    let Some(max_blob) = number(max_blob.as_str(), MAX_BLOB) else {
        return Err(Stop::Usage);
    };
    if slots == 0 {
        return Err(Stop::Usage);
    }
    let (names, paths) = split_at_end(rest);
    if paths.len() % 2 != 0 {
        return Err(Stop::Usage);
    }
    let names = texts(alloc, names)?;
    let tenants = read_tenants(alloc, names.as_slice(), true)?;
    let store = Config {
        slots: slots as u32,
        max_blob,
        tenants,
        on_disk,
        first_generation: 0,
    };
    Ok((store, paths))
}

/// Returns the options that the arguments spell. The first argument is the program's name.
///
/// # Errors
///
/// - `Stop::Usage`, if there are too few arguments, an option is wrong, is there twice or needs `--data`, a number is missing
///   or past its limit, a tenant is wrong, or the number of paths is odd.
/// - `Stop::Memory`.
///
/// # Cost
///
/// It allocates the tenants' names. The paths are borrowed.
pub fn read_arguments(alloc: Global, words: &[String]) -> Result<Options<'_>, Stop<'_>>
    ensures spelled { IfOk result (SpellsOptions (texts_of words.now)) }
    ensures within { IfOk result (λ o. IsWithin o.store) }
    ensures refused { IfErr result (RefusesArguments (texts_of words.now)) }
{
    let [_, words @ ..] = words else {
        return Err(Stop::Usage);
    };
    let Some((flags, words)) = read_flags(words) else {
        return Err(Stop::Usage);
    };
    let Some(log) = flags.log() else {
        return Err(Stop::Usage);
    };
    match read_settings(alloc, words, log.is_some()) {
        Ok((store, paths)) => Ok(Options { store, log, paths }),
        Err(stop) => Err(stop),
    }
}

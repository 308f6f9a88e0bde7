//! Reads the options in front of the settings: those of a store whose changes are durable.
ghost use Rattle.std.specs.Prelude.{◌≡◌, None, Some, MatchOption};
ghost use Rattle.blob_digest.specs.Ranges.{number_of};
ghost use Rattle.server_cli.specs.Arguments.{texts_of};
ghost use Rattle.server_cli.specs.Flags.{AskForLog, IsWithoutFolder, flags_of, flags_shown, next_flag, no_flags, sync_of, with_folder, with_loss, with_sha512, with_sync};

use blob_digest::decimal;
use blob_store::LogPolicy;

/// How the store is made durable.
#[derive(Clone, Copy, Drop)]
pub struct LogOptions<'w> {
    /// The folder of the log.
    pub folder: &'w str,
    /// When changes become durable.
    pub policy: LogPolicy,
    /// The offset at which a damaged log may be cut.
    pub accepted_loss: Option<u64>,
    /// Whether contents are hashed by SHA-512 too as they come.
    pub sha512: bool,
}

/// The values of the options that were read so far.
#[derive(Clone, Copy, Drop)]
pub struct Flags<'w> {
    folder: Option<&'w str>,
    sync: Option<LogPolicy>,
    loss: Option<u64>,
    sha512: bool,
}

/// Returns the policy that a word names.
fn sync_of(word: &str) -> Option<LogPolicy>
    ensures { result ≡ sync_of word.now }
{
    if word == "closes" {
        Some(LogPolicy::Closes)
    } else if word == "each" {
        Some(LogPolicy::Each)
    } else if word == "never" {
        Some(LogPolicy::Never)
    } else {
        None
    }
}

impl<'w> Flags<'w> {
    /// Returns that no option was read.
    fn none() -> Flags<'w>
        ensures { flags_shown result ≡ no_flags }
    {
        Flags {
            folder: None,
            sync: None,
            loss: None,
            sha512: false,
        }
    }

    /// Adds the folder. Returns `None` if there is one.
    fn with_folder(self, folder: &'w str) -> Option<Flags<'w>>
        ensures { MatchOption result (with_folder (flags_shown self.entry) folder.now ≡ None)
            (λ f. with_folder (flags_shown self.entry) folder.now ≡ Some (flags_shown f)) }
    {
        match self.folder {
            Some(_) => None,
            None => Some(Flags {
                folder: Some(folder),
                ..self
            }),
        }
    }

    /// Adds the policy that a word names. Returns `None` if there is one, or if the word names none.
    fn with_sync(self, word: &str) -> Option<Flags<'w>>
        ensures { MatchOption result (with_sync (flags_shown self.entry) (sync_of word.now) ≡ None)
            (λ f. with_sync (flags_shown self.entry) (sync_of word.now) ≡ Some (flags_shown f)) }
    {
        let sync = sync_of(word)?;
        match self.sync {
            Some(_) => None,
            None => Some(Flags {
                sync: Some(sync),
                ..self
            }),
        }
    }

    /// Adds the offset that a word spells. Returns `None` if there is one, or if the word spells none.
    fn with_loss(self, word: &str) -> Option<Flags<'w>>
        ensures { MatchOption result (with_loss (flags_shown self.entry) (number_of word.now)
            ≡ None)
            (λ f. with_loss (flags_shown self.entry) (number_of word.now) ≡ Some (flags_shown f)) }
    {
        let loss = decimal(word.as_bytes())?;
        match self.loss {
            Some(_) => None,
            None => Some(Flags {
                loss: Some(loss),
                ..self
            }),
        }
    }

    /// Adds that contents are hashed by SHA-512 too. Returns `None` if that is there.
    fn with_sha512(self) -> Option<Flags<'w>>
        ensures { MatchOption result (with_sha512 (flags_shown self.entry) ≡ None)
            (λ f. with_sha512 (flags_shown self.entry) ≡ Some (flags_shown f)) }
    {
        if self.sha512 {
            None
        } else {
            Some(Flags {
                sha512: true,
                ..self
            })
        }
    }

    /// Returns the options of the log. Returns `None` if there is an option and no folder.
    pub fn log(self) -> Option<Option<LogOptions<'w>>>
        ensures { MatchOption result (IsWithoutFolder (flags_shown self.entry))
            (λ log. AskForLog (flags_shown self.entry) log) }
    {
        match self.folder {
            Some(folder) => Some(Some(LogOptions {
                folder,
                policy: self.sync.unwrap_or(LogPolicy::Closes),
                accepted_loss: self.loss,
                sha512: self.sha512,
            })),
            None => {
                if self.sync.is_none() && self.loss.is_none() && !self.sha512 {
                    Some(None)
                } else {
                    None
                }
            }
        }
    }
}

/// Reads an option, if the next argument names one and is not the last, and returns the other arguments. Returns `None` if its value
/// is wrong or it was there before.
fn next_flag<'w>(flags: Flags<'w>, words: &'w [String]) -> Option<(Flags<'w>, &'w [String])>
    ensures { MatchOption result (next_flag (flags_shown flags.entry) (texts_of words.now) ≡ None)
        (λ r. next_flag (flags_shown flags.entry) (texts_of words.now)
        ≡ Some (flags_shown r.0, texts_of r.1.now)) }
{
    let [name, value, rest @ ..] = words else {
        return Some((flags, words));
    };
    let name = name.as_str();
    if name == "--sha512" {
        return Some((flags.with_sha512()?, &words[1..]));
    }
    let value = value.as_str();
    if name == "--data" {
        return Some((flags.with_folder(value)?, rest));
    }
    if name == "--sync" {
        return Some((flags.with_sync(value)?, rest));
    }
    if name == "--accept-loss-after" {
        return Some((flags.with_loss(value)?, rest));
    }
    Some((flags, words))
}

/// Reads the options at the front of the arguments, and returns the other arguments. Returns `None` if a value is wrong or an
/// option is there twice.
pub fn read_flags(words: &[String]) -> Option<(Flags<'_>, &[String])>
    ensures { MatchOption result (flags_of (texts_of words.now) ≡ None)
        (λ r. flags_of (texts_of words.now) ≡ Some (flags_shown r.0, texts_of r.1.now)) }
{
    let (flags, words) = next_flag(Flags::none(), words)?;
    let (flags, words) = next_flag(flags, words)?;
    let (flags, words) = next_flag(flags, words)?;
    next_flag(flags, words)
}

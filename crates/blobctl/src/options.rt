//! The options of a run, and reasons why the program stops before it.
ghost use Rattle.std.specs.Prelude.{◌≡◌, IfErr, OnErr, OnOk, string_bytes};
ghost use Rattle.blobctl.specs.Stops.{stop_status, stop_text};
ghost use Rattle.blobctl.specs.Texts.{GrewBy};
ghost use Rattle.blobctl.specs.declared.options.Stop.TheVariants.{Memory};

use blob_digest::Refusal;
use std::alloc::{AllocError, AllocFailed};
use store_book::Config;
use tenant_args::TenantFault;
use thiserror::Error;

/// The options of a run.
#[derive(Debug, Drop)]
pub struct Options {
    /// The slots of the store, its limit on blobs, and its tenants with their quotas.
    pub store: Config,
    /// The number of workers that play the script, from 1 to 64.
    pub workers: usize,
}

/// A reason why the program stops before it runs.
#[derive(Debug, Drop, Error)]
#[error("{}", self.text())]
pub enum Stop {
    /// Help was requested: the text for standard output.
    Help(String),
    /// The arguments are wrong: the text for standard error.
    Usage(String),
    /// A tenant's word is malformed, repeats a name, or is the 257th.
    BadTenant,
    /// An argument is not UTF-8.
    NotUtf8,
    /// Out of memory.
    Memory,
}

impl From<AllocError> for Stop {
    ghost from_gives = { λ _ e. e ≡ Memory };

    fn from(_error: AllocError) -> Stop {
        Stop::Memory
    }
}

impl<T: Drop> From<AllocFailed<T>> for Stop {
    ghost from_gives = { λ _ e. e ≡ Memory };

    fn from(_error: AllocFailed<T>) -> Stop {
        Stop::Memory
    }
}

impl From<TenantFault> for Stop {
    ghost use Rattle.blobctl.specs.Stops.{tenant_stop};

    ghost from_gives = { λ fault e. e ≡ tenant_stop fault };

    fn from(fault: TenantFault) -> Stop {
        match fault {
            TenantFault::BadTenant => Stop::BadTenant,
            TenantFault::Memory => Stop::Memory,
        }
    }
}

impl Stop {
    /// Returns the exit status: 0 for help, 2 for wrong arguments, 5 for out of memory.
    pub fn status(&self) -> u8
        ensures { result ≡ stop_status self.now }
    {
        match self {
            Stop::Help(_) => 0,
            Stop::Usage(_) => 2,
            Stop::BadTenant => 2,
            Stop::NotUtf8 => 2,
            Stop::Memory => 5,
        }
    }

    /// Returns the text that the program prints, including its last line feed.
    pub fn text(&self) -> &str
        ensures { result.now ≡ stop_text self.now }
    {
        match self {
            Stop::Help(text) => text.as_str(),
            Stop::Usage(text) => text.as_str(),
            Stop::BadTenant => "blobctl: bad tenant\n",
            Stop::NotUtf8 => "blobctl: argument is not UTF-8\n",
            Stop::Memory => "blobctl: out of memory\n",
        }
    }

    /// Appends the text that the program prints. If the call fails, the text is unchanged.
    ///
    /// # Errors
    ///
    /// - `Memory` if an allocation fails.
    pub fn write(&self, out: &mut String) -> Result<(), Refusal>
        ensures ok { OnOk result (GrewBy out.old out.new (stop_text self.now)) }
        ensures err { OnErr result (string_bytes out.new ≡ string_bytes out.old) }
        ensures refused { IfErr result (λ e. e ≡ Refusal.Memory) }
    {
        out.push_str(self.text())?;
        Ok(())
    }
}

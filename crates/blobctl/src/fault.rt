//! Reasons why a run stops early.
ghost use Rattle.std.specs.Prelude.{◌≡◌, Some, IfErr, OnErr, OnOk, string_bytes};
ghost use Rattle.blobctl.specs.Texts.{GrewBy, fault_status, fault_text};
ghost use Rattle.blobctl.specs.declared.fault.Fault.TheVariants.{Memory};

use blob_digest::Refusal;
use std::alloc::{AllocError, AllocFailed};
use std::fmt;
use thiserror::Error;

/// A reason why a run stops. Only a run that stops with `Write` may have written something.
#[derive(Clone, Copy, Debug, PartialEq, Eq, Drop, Error)]
#[error("{}", self.text())]
pub enum Fault {
    /// The script's first bad row, by its number from 1.
    BadRow(u32),
    /// A read failed, or the script is longer than 268,435,456 bytes.
    Read,
    /// A write failed, or accepted no bytes.
    Write,
    /// Out of memory, in the program or in a command.
    Memory,
}

impl From<AllocError> for Fault {
    ghost from_gives = { λ _ e. e ≡ Memory };

    fn from(_error: AllocError) -> Fault {
        Fault::Memory
    }
}

impl<T: Drop> From<AllocFailed<T>> for Fault {
    ghost from_gives = { λ _ e. e ≡ Memory };

    fn from(_error: AllocFailed<T>) -> Fault {
        Fault::Memory
    }
}

/// The line that the program prints for a fault, with its line feed.
#[derive(Clone, Copy, Drop)]
pub struct FaultText {
    /// The fault.
    pub fault: Fault,
}

impl fmt::Display for FaultText {
    ghost output = { λ text. Some (fault_text text.fault) };

    fn fmt<W: fmt::Write>(&self, f: &mut fmt::Formatter<W>) -> fmt::Result {
        match self.fault {
            Fault::BadRow(number) => write!(f, "blobctl: bad row {number}\n"),
            Fault::Read => f.write_str("blobctl: read fault\n"),
            Fault::Write => f.write_str("blobctl: write fault\n"),
            Fault::Memory => f.write_str("blobctl: out of memory\n"),
        }
    }
}

impl Fault {
    /// Returns the line that the program prints.
    pub fn text(&self) -> FaultText
        ensures { result.fault ≡ self.now }
    {
        FaultText { fault: *self }
    }

    /// Returns the exit status: 1 for a bad row, 3 for a read fault, 4 for a write fault, 5 for out of memory.
    pub fn status(&self) -> u8
        ensures { result ≡ fault_status self.now }
    {
        match self {
            Fault::BadRow(_) => 1,
            Fault::Read => 3,
            Fault::Write => 4,
            Fault::Memory => 5,
        }
    }

    /// Appends the line that the program prints, including its line feed. If the call fails, the text is unchanged.
    ///
    /// # Errors
    ///
    /// - `Memory` if an allocation fails.
    pub fn write(&self, out: &mut String) -> Result<(), Refusal>
        ensures ok { OnOk result (GrewBy out.old out.new (fault_text self.now)) }
        ensures err { OnErr result (string_bytes out.new ≡ string_bytes out.old) }
        ensures refused { IfErr result (λ e. e ≡ Refusal.Memory) }
    {
        let line = self.text();
        let alloc = *out.allocator();
        let text = format!(in alloc; "{line}")?;
        out.push_str(text.as_str())?;
        Ok(())
    }
}

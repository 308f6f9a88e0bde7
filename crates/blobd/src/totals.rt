//! The line of totals that the program prints at its end.
ghost use Rattle.std.specs.Prelude.{Some};
ghost use Rattle.blobd.specs.Totals.{totals_text};

use blob_store::Totals;
use server_cli::Stop;
use std::fmt;
use std::io::{Read, Write};
use store_server::Connection;

/// The line of text that reports a store's totals.
#[derive(Clone, Copy, Drop)]
pub struct TotalsLine {
    /// The totals.
    pub totals: Totals,
}

impl fmt::Display for TotalsLine {
    ghost output = { λ line. Some (totals_text line.totals) };

    fn fmt<W: fmt::Write>(&self, f: &mut fmt::Formatter<W>) -> fmt::Result {
        let Totals {
            commands,
            received,
            closed,
            abandoned,
            in_sessions: _,
            desks: _,
        } = self.totals;
        write!(
            f,
            "blobd: {commands} commands, {received} bytes received, {closed} closed, {abandoned} abandoned\n"
        )
    }
}

/// Prints the totals of a store whose connections have ended.
///
/// # Errors
///
/// - `Stop::Memory`, if a connection was not served.
pub fn conclude<I: Read + Drop, O: Write + Drop>(
    rt: &HostRuntime,
    totals: Totals,
    lines: &[Connection<I, O>],
) -> Result<(), Stop<'static>> {
    let _ = eprint!(rt; "{}", TotalsLine { totals });
    if lines.iter().all(|l| matches!(l.served(), Some(Ok(_)))) {
        Ok(())
    } else {
        Err(Stop::Memory)
    }
}

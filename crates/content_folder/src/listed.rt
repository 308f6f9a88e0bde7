//! What lies in the folder of a tenant.

use blob_digest::decimal;
use std::io;

/// The names in the folder of a tenant.
#[derive(Drop)]
pub struct Listed {
    /// The numbers of the sessions whose contents have a file, in the order of the folder.
    pub numbers: Vec<u32>,
    /// How many names are none of a content. Such files are left alone.
    pub others: u64,
}

/// Returns the number that the name of a content's file spells: no zero is in front.
fn number_of(name: &str) -> Option<u32> {
    if name.starts_with('0') {
        return None;
    }
    let number = decimal(name.as_bytes())?;
    u32::try_from(number).ok()
}

impl Listed {
    /// Adds a name.
    pub(crate) fn add(&mut self, name: &str) -> io::Result<()> {
        match number_of(name) {
            Some(number) => self.numbers.push(number)?,
            None => self.others = self.others.saturating_add(1),
        }
        Ok(())
    }
}

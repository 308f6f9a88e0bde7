//! The places of a row's fields in a text.

use store_api::Verb;

/// A row whose fields are stored in a text, one after another: where the first begins, and where each ends.
#[derive(Clone, Copy, Debug)]
pub struct Places {
    pub lane: u8,
    pub verb: Verb,
    pub start: u32,
    pub repo: u32,
    pub key: u32,
    pub digest: u32,
    pub range: u32,
    pub body: u32,
}

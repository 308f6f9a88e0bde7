//! Contents of sessions and blobs, in memory or in files. Of a content in a file, memory keeps the length and the sum of
//! each piece.
//!
//! - Contracts see a content as its bytes. A piece of which only the length and the sum are known is a list of numbers
//!   above 255 (`unread`).
//! - Bytes become part of a content in a file only by a `Written`, which `Unsynced::sync` alone makes, of what `write_unsynced`
//!   or `read_back` returned. The first bytes may be in memory too: those that the content had before it moved into its file.
//! - A read returns bytes with the length and the sum of the piece that was added.
#![tactic(auto)]

mod content;
mod deed;
mod disk_content;
mod error;
mod home;
pub mod laws;
mod located;
mod name;
mod note;
mod noted_chunk;
mod pieces;
mod store;
mod trace;
mod written;

pub use content::{Content, reveal_shared};
pub use disk_content::DiskContent;
pub use error::ContentError;
pub use home::Home;
pub use located::Located;
pub use name::ContentName;
pub use note::{reveal_read, sum_of};
pub use noted_chunk::{noted_len, notes_of, read_chunk};
pub use pieces::MAX_PIECE;
pub use store::{ContentStore, NoFiles};
pub use written::{Unsynced, Written, read_back, write_unsynced};

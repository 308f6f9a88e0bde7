//! The files of contents, in a folder: one for each content, named by the session that received it.
//!
//! `FOLDER/TENANT/NUMBER` is the content of a tenant's session, and of the blob that it became. No number of a session is
//! used twice, so no name is.
#![tactic(auto)]

mod content_folder;
mod listed;

pub use content_folder::{ContentFolder, WrittenFiles};
pub use listed::Listed;

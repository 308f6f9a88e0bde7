//! Replies, and their texts.
ghost use Rattle.std.specs.Prelude.{◌≡◌, Some, IfErr, OnErr, OnOk, string_bytes};
ghost use Rattle.store_api.specs.Answers.{answer_of, mount_answer};
ghost use Rattle.store_api.specs.Replies.{AppendsReply, reply_text};

use crate::hex_digits::HexDigits;
use crate::piece::Piece;
use blob_digest::{Digest, Refusal};
use oci_manifest::Manifest;
use std::alloc::Global;
use std::fmt;
use std::sync::Arc;
use store_model::{Mount, Swept};

/// A reply to a request. It shares manifests and blobs with the store, and copies none.
///
/// Contracts see its answer (`answer_of`).
#[derive(Drop)]
pub enum Reply {
    /// A session was opened: its number.
    Session(u32),
    /// The length of a session in bytes.
    Received(u64),
    /// A session was closed: the blob's size in bytes.
    Stored(u64),
    /// A session was abandoned.
    Abandoned,
    /// A blob was linked from another repository.
    Mounted,
    /// A link or a manifest was removed.
    Deleted,
    /// A manifest was stored: its digest.
    Manifest(Digest),
    /// The manifest that was requested.
    Body(Arc<Manifest, Global>),
    /// A blob was leased: its size in bytes.
    Leased(u64),
    /// A piece of a leased blob.
    Bytes(Piece),
    /// A lease was shared.
    Shared,
    /// A lease's slot is still its own: the blob's size in bytes.
    Verified(u64),
    /// A lease was given back.
    GivenBack,
    /// The counts of a sweep.
    Swept(Swept),
    /// The lane or the connection has no lease of this name.
    NoLease,
    /// The lane or the connection already has a lease of this name.
    NameTaken,
    /// The request was refused.
    Refused(Refusal),
}

/// Returns the reply to a mount. It allocates nothing.
pub fn mount_reply(mount: Mount) -> Reply
    ensures { answer_of result ≡ mount_answer mount }
{
    match mount {
        Mount::Mounted => Reply::Mounted,
        Mount::Session(number) => Reply::Session(number),
    }
}

impl fmt::Display for Reply {
    ghost output = { λ r. Some (reply_text (answer_of r)) };

    fn fmt<W: fmt::Write>(&self, f: &mut fmt::Formatter<W>) -> fmt::Result {
        match self {
            Reply::Session(number) => write!(f, "session {number}"),
            Reply::Received(length) => write!(f, "received {length}"),
            Reply::Stored(size) => write!(f, "stored {size}"),
            Reply::Abandoned => f.write_str("abandoned"),
            Reply::Mounted => f.write_str("mounted"),
            Reply::Deleted => f.write_str("deleted"),
            Reply::Manifest(digest) => write!(f, "manifest {digest}"),
            Reply::Body(manifest) => {
                let digits = HexDigits {
                    bytes: manifest.bytes(),
                };
                write!(f, "body {digits}")
            }
            Reply::Leased(size) => write!(f, "leased {size}"),
            Reply::Bytes(piece) => {
                let Some(bytes) = piece.bytes() else {
                    return Err(fmt::Error);
                };
                let digits = HexDigits { bytes };
                write!(f, "bytes {digits}")
            }
            Reply::Shared => f.write_str("shared"),
            Reply::Verified(size) => write!(f, "verified {size}"),
            Reply::GivenBack => f.write_str("given back"),
            Reply::Swept(swept) => {
                let Swept {
                    condemned,
                    freed,
                    held,
                    retired,
                } = *swept;
                write!(
                    f,
                    "swept condemned {condemned} freed {freed} held {held} retired {retired}"
                )
            }
            Reply::NoLease => f.write_str("no lease"),
            Reply::NameTaken => f.write_str("name taken"),
            Reply::Refused(refusal) => {
                let text = refusal.text();
                write!(f, "refused {text}")
            }
        }
    }
}

impl Reply {
    /// Appends the text of the reply to `out`, without a line feed.
    ///
    /// # Errors
    /// - `Memory` if allocation fails, or if the bytes of a piece are not in memory. The text is unchanged then.
    ///
    /// # Cost
    /// Linear in the length of the reply's text, which has two digits for each byte of a manifest or of a piece. It
    /// allocates that text once more before it appends it.
    pub fn write(&self, out: &mut String) -> Result<(), Refusal>
        ensures ok { OnOk result (AppendsReply out.old self.now out.new) }
        ensures err { OnErr result (string_bytes out.new ≡ string_bytes out.old) }
        ensures refused { IfErr result (λ e. e ≡ Refusal.Memory) }
    {
        let alloc = *out.allocator();
        let text = format!(in alloc; "{self}")?;
        out.push_str(text.as_str())?;
        Ok(())
    }
}

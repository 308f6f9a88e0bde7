//! Sealed blobs: contents whose digest was checked.
ghost use Rattle.std.specs.Prelude.{◌≡◌, ◌↔◌, IsOk, IfOk, IfErr, IfSome, ℕ, List, false, length, true};
ghost use Rattle.blob_digest.specs.Digests.{algorithm_of, hash_text, is_digest_of};
ghost use Rattle.blob_digest.specs.Vouched.{has_digest};
ghost use Rattle.blob_digest.specs.Hashing.{Hashes};
ghost use Rattle.content_files.specs.Notes.{is_read};

use crate::digest::Digest;
use crate::running::Running;
use content_files::{Content, reveal_read};
use std::marker::Model;

/// The content of a blob with its digest (OCI Image Specification 1.1, "Content Descriptors", "Verification").
///
/// The invariant of the type states that the content has this digest if all of it was accepted or read since the start.
/// Contracts see a blob as the pair of the digest's text and the content.
#[derive(Drop)]
pub struct Blob {
    content: Content,
    digest: Digest,
}

impl Model for Blob {
    ghost use Rattle.std.specs.Prelude.{List, ℕ, ◌≡◌, true};
    ghost use Rattle.blob_digest.specs.Vouched.{has_digest};

    ghost Value = { List ℕ × List ℕ };

    ghost view = { λ a. (a.digest, a.content) };

    ghost invariant = { λ a. has_digest a.digest a.content ≡ true };
}

impl Blob {
    /// Seals bytes in memory under a digest.
    ///
    /// `running` has hashed the bytes already, so the call does not read them again.
    ///
    /// # Errors
    ///
    /// - The bytes, unchanged: `digest` is not their digest by the algorithm that it names.
    ///
    /// # Memory
    ///
    /// The call does not allocate.
    pub fn seal(bytes: Vec<u8>, running: Running, digest: &Digest) -> Result<Blob, Vec<u8>>
        requires { Hashes running bytes.items }
        ensures agrees { IsOk result ↔ (is_digest_of digest.now bytes.items ≡ true) }
        ensures blob { IfOk result (λ b. b ≡ (digest.now, bytes.items)) }
        ensures back { IfErr result (λ v. v.items ≡ bytes.items) }
    {
        let found = running.finish(digest.algorithm());
        if found != *digest {
            return Err(bytes);
        }
        reveal_read(bytes.as_slice());
        Ok(Blob {
            content: Content::resident(bytes),
            digest: *digest,
        })
    }

    /// Seals a content under a digest, given the digest that was computed of it.
    ///
    /// `found` is the digest of the content by the algorithm that `digest` names. The call does not read the content.
    ///
    /// # Errors
    ///
    /// - The content, unchanged: `digest` is not `found`.
    ///
    /// # Memory
    ///
    /// The call does not allocate.
    #[tactic(auto, using(crate::proofs::Vouched::vouched))]
    pub fn seal_found(content: Content, found: Digest, digest: &Digest) -> Result<Blob, Content>
        requires { found ≡ hash_text (algorithm_of digest.now) content }
        ensures agrees { IsOk result ↔ (is_digest_of digest.now content ≡ true) }
        ensures blob { IfOk result (λ b. b ≡ (digest.now, content)) }
        ensures back { IfErr result (λ c. c ≡ content) }
    {
        if *digest != found {
            return Err(content);
        }
        digest.reveal_grammar();
        Ok(Blob {
            content,
            digest: *digest,
        })
    }

    /// Seals a content of which a byte was not read since the start, under the digest that an earlier process has found.
    ///
    /// The digest is not compared. Only a start calls this, for a close that the log has.
    ///
    /// # Errors
    ///
    /// - The content, unchanged: all of it was read, so its digest can be found.
    ///
    /// # Memory
    ///
    /// The call does not allocate.
    pub fn seal_noted(content: Content, digest: &Digest) -> Result<Blob, Content>
        ensures unread { IfOk result (λ b. is_read b.1 ≡ false) }
        ensures agrees { IfOk result (λ b. has_digest b.0 b.1 ≡ true) }
        ensures blob { IfOk result (λ b. b ≡ (digest.now, content)) }
        ensures back { IfErr result (λ c. c ≡ content) }
    {
        if !content.is_unread() {
            return Err(content);
        }
        digest.reveal_grammar();
        Ok(Blob {
            content,
            digest: *digest,
        })
    }

    /// Returns the digest of the content.
    pub fn digest(&self) -> Digest
        ensures value { result ≡ self.now.0 }
        ensures agrees { has_digest self.now.0 self.now.1 ≡ true }
    {
        self.digest
    }

    /// Returns the length of the content in bytes.
    pub fn len(&self) -> u64
        ensures { result ≡ length self.now.1 }
    {
        self.content.len()
    }

    /// Returns the content.
    pub fn content(&self) -> &Content
        ensures { result.now ≡ self.now.1 }
    {
        &self.content
    }

    /// Returns the content's bytes, if they are in memory.
    pub fn bytes(&self) -> Option<&[u8]>
        ensures value { IfSome result (λ b. b.now ≡ self.now.1) }
        ensures agrees { IfSome result (λ b. is_digest_of self.now.0 b.now ≡ true) }
    {
        let bytes = self.content.bytes()?;
        reveal_read(bytes);
        Some(bytes)
    }

    /// Returns the content's bytes without copying them, if they are in memory.
    pub fn into_bytes(self) -> Option<Vec<u8>>
        ensures { IfSome result (λ b. b.items ≡ self.1) }
    {
        self.into_content().into_bytes()
    }

    /// Returns the content without copying it.
    pub fn into_content(self) -> Content
        ensures { result ≡ self.1 }
    {
        let Blob { content, digest: _ } = self;
        content
    }
}

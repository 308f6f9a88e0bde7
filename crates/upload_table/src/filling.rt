//! The last chunk of a hand: how it is filled, hashed and removed.

ghost use Rattle.std.specs.Prelude.{◌≡◌, ◌+◌, ◌++◌, Some, None, IfOk, IfErr, OnOk, true, length, sum_by};
ghost use Rattle.content_files.specs.Chunks.{chunk_notes, is_in_file, read_notes};

use crate::hand::Hand;
use crate::hashing::Hashing;
use crate::upload::{extend, extend_noted};
use blob_digest::Algorithm;
use content_files::{ContentError, ContentStore, Home};

impl Hand {
    /// Fills the chunk: copies and hashes its bytes, and reserves the room that checking in needs.
    ///
    /// # Errors
    ///
    /// The cause, and the unchanged hand.
    ///
    /// # Cost
    ///
    /// Linear in `bytes`. If the session's buffer grows, also linear in the bytes received so far.
    pub fn fill<F: ContentStore>(
        self,
        files: &F,
        bytes: &[u8],
    ) -> Result<Hand, (ContentError, Hand)>
        requires len { length bytes.now ≡ self.reserved }
        requires empty { self.last ≡ None }
        ensures ok { IfOk result (λ h. h ≡ record self { last = Some bytes.now }) }
        ensures err { IfErr result (λ e. e.1 ≡ self) }
    {
        let mut notes = Vec::new(*self.pieces.lens.allocator());
        self.fill_by(files, None, bytes, Hashing::Open, &mut notes)
    }

    /// Fills the chunk as `fill` does, but hashes it by one algorithm only, for a close with that algorithm.
    ///
    /// The hand can still be put back, or finished under a digest by the other algorithm. Either hashes the chunk
    /// once more.
    ///
    /// # Errors
    ///
    /// The cause, and the unchanged hand.
    ///
    /// # Cost
    ///
    /// As `fill`. With SHA-512, also linear in the received bytes that have not passed through SHA-512.
    pub fn fill_last<F: ContentStore>(
        self,
        files: &F,
        bytes: &[u8],
        algorithm: Algorithm,
    ) -> Result<Hand, (ContentError, Hand)>
        requires len { length bytes.now ≡ self.reserved }
        requires empty { self.last ≡ None }
        ensures ok { IfOk result (λ h. h ≡ record self { last = Some bytes.now }) }
        ensures err { IfErr result (λ e. e.1 ≡ self) }
    {
        let mut notes = Vec::new(*self.pieces.lens.allocator());
        self.fill_by(files, None, bytes, Hashing::Last(algorithm), &mut notes)
    }

    /// Fills the chunk as `fill` does, but hashes the bytes as `hashing` says.
    ///
    /// The hand can be put back or finished in any case. If its bytes were not hashed, `finish` hashes all of them. It can do
    /// so only if they are in memory.
    ///
    /// If the session's content lies in its home's file then, the chunk was written to the file and synced, and the notes of its
    /// pieces are appended to `notes`.
    ///
    /// # Errors
    ///
    /// The cause, and the unchanged hand. `notes` may have grown.
    ///
    /// # Cost
    ///
    /// As `fill` or `fill_last`. With `Later`, nothing is hashed. If the earlier chunks were not hashed, they are hashed
    /// too, unless a blob has the bytes.
    pub fn fill_by<F: ContentStore>(
        self,
        files: &F,
        home: Option<Home>,
        bytes: &[u8],
        hashing: Hashing<'_>,
        notes: &mut Vec<u8>,
    ) -> Result<Hand, (ContentError, Hand)>
        requires len { length bytes.now ≡ self.reserved }
        requires empty { self.last ≡ None }
        ensures ok { IfOk result (λ h. h ≡ record self { last = Some bytes.now }) }
        ensures noted { OnOk result (is_in_file home (sum_by length self.chunks + self.reserved)
            ≡ true →
            notes.new.items ≡ notes.old.items ++ chunk_notes bytes.now) }
        ensures err { IfErr result (λ e. e.1 ≡ self) }
    {
        let Hand {
            repo,
            tenant,
            number,
            place,
            received,
            reserved,
            mut pieces,
        } = self;
        let filled = extend(&mut pieces, files, home, bytes, hashing, notes);
        let hand = Hand {
            repo,
            tenant,
            number,
            place,
            received,
            reserved,
            pieces,
        };
        match filled {
            Ok(()) => Ok(hand),
            Err(error) => Err((error, hand)),
        }
    }

    /// Fills the chunk with one that an earlier process added, by the notes of its pieces. Nothing is written, read or hashed.
    ///
    /// The session's content lies in the file of its name then.
    ///
    /// # Errors
    ///
    /// The cause, and the unchanged hand. It is `Notes` if these are not the notes of a chunk.
    pub fn fill_noted(self, notes: &[u8]) -> Result<Hand, (ContentError, Hand)>
        requires len { length (read_notes notes.now) ≡ self.reserved }
        requires empty { self.last ≡ None }
        ensures ok { IfOk result (λ h. h ≡ record self { last = Some (read_notes notes.now) }) }
        ensures noted { OnOk result (chunk_notes (read_notes notes.now) ≡ notes.now) }
        ensures err { IfErr result (λ e. e.1 ≡ self) }
    {
        let name = self.content_name();
        let Hand {
            repo,
            tenant,
            number,
            place,
            received,
            reserved,
            mut pieces,
        } = self;
        let filled = extend_noted(&mut pieces, name, notes);
        let hand = Hand {
            repo,
            tenant,
            number,
            place,
            received,
            reserved,
            pieces,
        };
        match filled {
            Ok(()) => Ok(hand),
            Err(error) => Err((error, hand)),
        }
    }

    /// Removes the filled chunk, if there is one. The bytes stay reserved.
    ///
    /// # Memory
    ///
    /// Allocates nothing.
    pub fn unfill(self) -> Hand
        ensures { result ≡ record self { last = None } }
    {
        let Hand {
            repo,
            tenant,
            number,
            place,
            received,
            reserved,
            mut pieces,
        } = self;
        pieces.bytes.truncate(received as usize);
        pieces.whole = None;
        Hand {
            repo,
            tenant,
            number,
            place,
            received,
            reserved,
            pieces,
        }
    }
}

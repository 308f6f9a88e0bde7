ghost use Rattle.std.specs.Prelude.{◌≡◌, ◌≢◌, ◌<◌, ◌≤◌, length, IfOk, IfErr, IfSome, OnErr, OnOk};
ghost use Rattle.std.specs.Arc.{arc_value};
ghost use Rattle.blob_digest.specs.declared.refusal.Refusal.TheVariants.{TooManyReaders, UploadUnknown};
ghost use Rattle.store_model.specs.Commands.{status};
ghost use Rattle.store_model.specs.Invariant.{Sound};
ghost use Rattle.store_book.specs.SweepParts.{IsBoundedPart, IsPartOfSweep, end_of};
ghost use Rattle.store_model.specs.Sweep.{IsSweep};
ghost use Rattle.store_book.specs.BookCalls.{Abandons, AppendsChunk, ChangesSlots, Closes, Deletes, FailsOnlyIfFull, IsNewPin, IsStoredBlob, KeepsSlots, LeasesBlob, Mounts, PlacesOnly, Starts};
ghost use Rattle.store_book.specs.Openings.{OpensFrom, RefusesConfig};
ghost use Rattle.store_book.specs.Pinned.{blob_digest};
ghost use Rattle.store_book.specs.Printing.{PrintsCatalog};
ghost use Rattle.store_book.specs.SlotSteps.{EachSlot, HasLastGeneration, HasPin, IsLending, KeepsGeneration, IsUnchanged, SweepsSlot, ReadsWord};

use crate::config::{Config, copy_tenants};
use crate::freed::Freed;
use crate::keep::{find_linked, keep, link_slot};
use crate::mount::find_source;
use crate::pinned_slots::PinnedSlots;
use crate::print::print_book;
use crate::sweep::{SweptPart, sweep_slots};
use blob_digest::{Blob, ByteRange, Digest, Refusal, RepoName};
use content_files::{ContentName, NoFiles};
use link_table::Links;
use pin_table::{Pin, Pins};
use std::alloc::Global;
use std::io::{self, Write};
use std::marker::Model;
use std::mem;
use std::sync::Arc;
use store_model::{Mount, Swept};
use upload_table::{Sealing, Uploads};

/// The state of a store: what each tenant's repositories contain, and the uploads in progress.
///
/// Its calls find the tenant, the repository and the session in logarithmic time. The costs below are in addition.
/// `Memory` has no fixed position in the order of errors: a failed allocation is returned at once.
#[derive(Drop)]
pub struct Book {
    pub(crate) alloc: Global,
    pub(crate) links: Links,
    pub(crate) uploads: Uploads,
    pub(crate) slots: PinnedSlots,
    pub(crate) max_blob: u64,
    pub(crate) on_disk: bool,
    /// The names of dropped sessions, whose contents may lie in files.
    dropped: Vec<ContentName>,
}

impl Model for Book {
    ghost use Rattle.store_book.specs.BookState.{BookState, coded_state};

    ghost Value = { BookState };

    ghost coded = { coded_state };

    ghost use Rattle.store_book.specs.Layers.{IsBook};
    ghost use Rattle.store_book.specs.BookFields.{layers, state};

    ghost view = { state };

    ghost invariant = { λ b. IsBook (layers b) };
}

/// The largest limit on the size of a blob, in bytes.
pub const MAX_BLOB: u64 = 1 << 40;

/// Notes the name of a session that was dropped, if its content may lie in a file. If memory runs out, the file stays until the
/// next start.
fn note_dropped(dropped: &mut Vec<ContentName>, on_disk: bool, tenant: u16, number: u32) {
    if on_disk {
        let _ = dropped.push(ContentName { tenant, number });
    }
}

impl Book {
    /// Makes the book of a new store, with the words of its slots: no repository, and every slot free.
    ///
    /// # Errors
    /// - `NameInvalid` if a tenant's name is not a component of a repository's name, or occurs twice.
    /// - `LimitReached` if a count, a quota or a size is beyond its limit.
    /// - `Memory` if out of memory.
    pub fn new(alloc: Global, config: &Config) -> Result<(Book, Pins), Refusal>
        ensures opened { IfOk result (λ r. OpensFrom config.now r.0) }
        ensures table { IfOk result (λ r. r.0.table ≡ r.1) }
        ensures refused { IfErr result (λ e. RefusesConfig e config.now) }
    {
        let tenants = copy_tenants(alloc, &config.tenants)?;
        let links = Links::new(alloc, tenants)?;
        if config.max_blob > MAX_BLOB {
            return Err(Refusal::LimitReached);
        }
        let (slots, pins) = PinnedSlots::new(alloc, config.slots, config.first_generation)?;
        let uploads = Uploads::new(alloc, links.tenants(), 1)?;
        let book = Book {
            alloc,
            links,
            uploads,
            slots,
            max_blob: config.max_blob,
            on_disk: config.on_disk,
            dropped: Vec::new(alloc),
        };
        Ok((book, pins))
    }

    /// Opens a session in a repository and returns its number (OCI Distribution Specification 1.1, "Pushing a blob in
    /// chunks", the opening POST).
    ///
    /// If the repository is new, the call creates it.
    ///
    /// # Errors
    /// - `NameUnknown` if the tenant does not exist.
    /// - `LimitReached` if the repository is new and the tenant has as many as its limit.
    /// - `LimitReached` if the tenant has as many sessions as its limit, or no session number is left.
    /// - `Memory` if out of memory.
    ///
    /// # Cost
    /// A new repository moves the tenant's repositories after it. The call allocates the session and a new
    /// repository.
    pub fn start(&mut self, repo: &RepoName) -> Result<u32, Refusal>
        ensures does { Starts result self.old self.new repo.now }
        ensures slots { KeepsSlots self.old self.new }
    {
        let tenant = self.links.tenant(repo)?;
        let limit = self.links.limits(tenant).sessions;
        let is_new = self.links.appear(tenant, repo)?;
        match self.uploads.start(tenant, repo, limit) {
            Ok(number) => Ok(number),
            Err(refusal) => {
                if is_new {
                    self.links.vanish(tenant, repo);
                }
                Err(refusal)
            }
        }
    }

    /// Returns how many bytes a session has received (OCI Distribution Specification 1.1, "Pushing a blob in chunks",
    /// the GET of a session's location).
    ///
    /// # Errors
    /// - `NameUnknown` if the tenant does not exist.
    /// - `UploadUnknown` if the session does not exist or belongs to another repository.
    ///
    /// # Memory
    /// None is allocated.
    pub fn status(&self, repo: &RepoName, number: u32) -> Result<u64, Refusal>
        ensures { result ≡ status self.now.catalog repo.now number }
    {
        let tenant = self.links.tenant(repo)?;
        self.uploads.received(tenant, repo, number)
    }

    /// Appends a chunk to a session and returns the received length (OCI Distribution Specification 1.1, "Pushing a
    /// blob in chunks").
    ///
    /// A chunk without a range is appended at the end. An empty chunk without a range is accepted and changes
    /// nothing.
    ///
    /// # Errors
    /// - `NameUnknown` if the tenant does not exist.
    /// - `UploadUnknown` if the session does not exist or belongs to another repository.
    /// - `Busy` if the session is checked out.
    /// - `SizeInvalid` if the range and the bytes differ in length, or the session would pass the size limit.
    /// - `RangeInvalid` if the range does not start at the received length.
    /// - `Quota` if the tenant's use would pass its quota.
    /// - `Memory` if out of memory.
    ///
    /// # Cost
    /// The bytes are copied and hashed once.
    pub fn append(
        &mut self,
        repo: &RepoName,
        number: u32,
        range: Option<ByteRange>,
        bytes: &[u8],
    ) -> Result<u64, Refusal>
        ensures does { AppendsChunk result self.old self.new repo.now number range bytes.now }
        ensures slots { KeepsSlots self.old self.new }
    {
        let hand = self.take(repo, number, range, bytes.len() as u64)?;
        match hand.fill(&NoFiles, bytes) {
            Ok(hand) => self.put_back(hand),
            Err((_, hand)) => {
                let _ = self.put_back(hand);
                Err(Refusal::Memory)
            }
        }
    }

    /// Closes a session with its last chunk, which may be empty, and returns the blob's size (OCI Distribution
    /// Specification 1.1, "Pushing a blob in chunks", the closing PUT).
    ///
    /// The session's bytes become the blob of this digest, linked in the repository.
    ///
    /// # Errors
    /// - The errors of `append`, for the last chunk.
    /// - `DigestInvalid` if the digest is not that of the content, or the store has other bytes with it.
    /// - `LimitReached` if the digest is new to the tenant, whose repositories contain as many distinct blobs as its share.
    /// - `StoreFull` if the digest is new to the store and no slot is free.
    /// - `Memory` if out of memory.
    ///
    /// A failed call leaves the session as it was, without the last chunk.
    ///
    /// # Cost
    /// The session's bytes move into the blob. Only the last chunk is copied and hashed, by the digest's algorithm.
    pub fn close(
        &mut self,
        pins: &Pins,
        repo: &RepoName,
        number: u32,
        digest: &Digest,
        range: Option<ByteRange>,
        bytes: &[u8],
    ) -> Result<u64, Refusal>
        requires table { self.old.table ≡ pins.now }
        ensures does { Closes result self.old self.new repo.now number digest.now range bytes.now }
        ensures slots { ChangesSlots KeepsGeneration self.old self.new }
        ensures housed { OnOk result (PlacesOnly digest.now self.old self.new) }
        ensures kept { OnErr result (self.new.slots ≡ self.old.slots) }
    {
        let hand = self.take(repo, number, range, bytes.len() as u64)?;
        match hand.fill_last(&NoFiles, bytes, digest.algorithm()) {
            Ok(hand) => self.finish(pins, hand, digest, Sealing::ByHash),
            Err((_, hand)) => {
                let _ = self.put_back(hand);
                Err(Refusal::Memory)
            }
        }
    }

    /// Removes a session with its bytes and returns how many it had received.
    ///
    /// Its number is not used again.
    ///
    /// # Errors
    /// - `NameUnknown` if the tenant does not exist.
    /// - `UploadUnknown` if the session does not exist or belongs to another repository.
    /// - `Busy` if the session is checked out.
    ///
    /// # Memory
    /// None is allocated, but for the name of a content that may lie in a file.
    pub fn abandon(&mut self, repo: &RepoName, number: u32) -> Result<u64, Refusal>
        ensures does { Abandons result self.old self.new repo.now number }
        ensures slots { KeepsSlots self.old self.new }
    {
        let tenant = self.links.tenant(repo)?;
        let (received, place) = self.uploads.received_home(tenant, repo, number)?;
        self.uploads.remove(tenant, number, place);
        self.links.discharge(tenant, received);
        note_dropped(&mut self.dropped, self.on_disk, tenant, number);
        Ok(received)
    }

    /// Returns what was freed since the last call and may lie in files. Once the changes that freed it are durable, and no lease
    /// has a share of a blob, its file can go.
    pub fn take_freed(&mut self) -> Freed
        ensures { self.new ≡ self.old }
    {
        let blobs = self.slots.take_freed(self.alloc);
        let dropped = mem::replace(&mut self.dropped, Vec::new(self.alloc));
        Freed { blobs, dropped }
    }

    /// Returns a share of the blob of a slot, if the slot has one. Fails only if out of memory.
    pub fn blob_in(&self, slot: u32) -> Option<Arc<Blob, Global>>
        ensures { IfSome result (λ b. IsStoredBlob self.now.catalog (arc_value b)) }
    {
        if slot >= self.slots.table().len() {
            return None;
        }
        self.slots.blob(slot)
    }

    /// Links a blob that the tenant already has, without an upload (OCI Distribution Specification 1.1, "Mounting a
    /// blob from another repository").
    ///
    /// The blob must be in the source repository or, without a source, in any repository of the tenant. If it is not
    /// there, or the source belongs to another tenant, the call opens a session instead, as `start` does. If the
    /// repository is new, the call creates it.
    ///
    /// # Errors
    /// - `NameUnknown` if the tenant does not exist.
    /// - `LimitReached` if the repository is new and the tenant has as many as its limit.
    /// - `LimitReached` if a session is to be opened and the tenant has 64, or no session number is left.
    /// - `Memory` if out of memory.
    ///
    /// # Cost
    /// Logarithmic in the number of digests that the tenant has and of stored blobs. A new repository moves the
    /// tenant's repositories after it. No bytes are copied.
    pub fn mount(
        &mut self,
        repo: &RepoName,
        digest: &Digest,
        from: Option<&RepoName>,
    ) -> Result<Mount, Refusal>
        ensures does { Mounts result self.old self.new repo.now digest.now from.entry }
        ensures slots { KeepsSlots self.old self.new }
    {
        let tenant = self.links.tenant(repo)?;
        let Some(slot) = find_source(&self.links, self.slots.table(), tenant, from, digest) else {
            let number = self.start(repo)?;
            return Ok(Mount::Session(number));
        };
        let appeared = self.links.appear(tenant, repo)?;
        match link_slot(&mut self.links, &mut self.slots, tenant, repo, slot, digest) {
            Ok(()) => Ok(Mount::Mounted),
            Err(refusal) => {
                if appeared {
                    self.links.vanish(tenant, repo);
                }
                Err(refusal)
            }
        }
    }

    /// Removes the link between a repository and a blob (OCI Distribution Specification 1.1, "Deleting Blobs").
    ///
    /// The blob stays in its slot, and other repositories keep their links.
    ///
    /// # Errors
    /// - `NameUnknown` if the tenant does not exist.
    /// - `BlobUnknown` if the digest is not linked in the repository.
    /// - `Referenced` if a manifest of the repository refers to the digest. It names the least digest of such a
    ///   manifest.
    ///
    /// # Cost
    /// Logarithmic in the number of digests that the tenant has, of stored blobs and of references of the
    /// repository's manifests.
    ///
    /// # Memory
    /// None is allocated.
    pub fn delete(&mut self, repo: &RepoName, digest: &Digest) -> Result<(), Refusal>
        ensures does { Deletes result self.old self.new repo.now digest.now }
        ensures slots { KeepsSlots self.old self.new }
    {
        let tenant = self.links.tenant(repo)?;
        // Manifests refer only to linked blobs. So this check can come first, and the link is found only once.
        if let Some(manifest) = self.links.referrer(repo, digest) {
            return Err(Refusal::Referenced { manifest });
        }
        if !self.links.unlink(tenant, repo, digest) {
            return Err(Refusal::BlobUnknown);
        }
        match self.slots.table().find(digest) {
            Some(slot) => self.slots.link_down(slot),
            None => unreachable!(),
        }
        Ok(())
    }

    /// Leases a blob of a repository: returns a pin on its slot and a share of its bytes.
    ///
    /// The blob is marked as leased. While the pin exists, no sweep frees the slot.
    ///
    /// # Errors
    /// - `NameUnknown` if the tenant does not exist.
    /// - `BlobUnknown` if the digest is not linked in the repository.
    /// - `Memory` if out of memory.
    /// - `TooManyReaders` if this call's look at the slot's word finds no room for one more reader.
    pub fn lease(
        &mut self,
        pins: &Pins,
        repo: &RepoName,
        digest: &Digest,
    ) -> Result<(Pin, Arc<Blob, Global>), Refusal>
        requires table { self.old.table ≡ pins.now }
        ensures does { LeasesBlob result self.old self.new repo.now digest.now }
        ensures readers { FailsOnlyIfFull result self.old self.new digest.now }
        ensures others { IfErr result (λ e. e ≢ TooManyReaders → self.new.slots ≡ self.old.slots) }
        ensures blob { IfOk result (λ r. blob_digest (arc_value r.1) ≡ digest.now) }
        ensures pin { IfOk result (λ r. IsNewPin r.0 pins.now digest.now) }
        ensures slots { ChangesSlots (IsLending digest.now) self.old self.new }
        ensures refused { OnErr result (EachSlot IsUnchanged self.old.slots self.new.slots) }
    {
        let tenant = self.links.tenant(repo)?;
        let slots = self.slots.table();
        let Some(slot) = find_linked(&self.links, slots, tenant, repo, digest) else {
            return Err(Refusal::BlobUnknown);
        };
        let blob = self.slots.share(slot)?;
        let pin = self.slots.lend(pins, slot)?;
        Ok((pin, blob))
    }

    /// Condemns each live blob without links, and reclaims the slot of each condemned one that no pin holds.
    ///
    /// A reclaimed slot is free in its next generation, or retired after the last one. A blob that was never leased
    /// is removed at once.
    ///
    /// # Cost
    /// One step for each blob without links, and one test for every 64 slots.
    ///
    /// # Memory
    /// None is allocated, but for an entry for each freed blob that lies in a file.
    pub fn sweep(&mut self, pins: &Pins) -> Swept
        requires { self.old.table ≡ pins.now }
        ensures sweeps { IsSweep self.old.catalog result self.new.catalog }
        ensures slots { ChangesSlots SweepsSlot self.old self.new }
        ensures retired { 0 < result.retired → HasLastGeneration self.old.slots }
    {
        sweep_slots(&mut self.slots, pins, 0, u32::MAX).swept
    }

    /// Does a part of what `sweep` does: it goes over the slots from `from` on, and visits at most `most` blobs without links.
    ///
    /// Parts that follow each other up to the last slot have gone over each slot once. Between two parts, other calls may
    /// change the book.
    ///
    /// # Cost
    /// One step for each blob that it visits, and one test for every 64 slots.
    ///
    /// # Memory
    /// None is allocated, but for an entry for each freed blob that lies in a file.
    pub fn sweep_part(&mut self, pins: &Pins, from: u32, most: u32) -> SweptPart
        requires table { self.old.table ≡ pins.now }
        requires within { from ≤ length self.old.slots }
        ensures sweeps { IsPartOfSweep from (end_of (length self.old.slots) result)
            self.old result.swept self.new }
        ensures bounded { IsBoundedPart from most (length self.old.slots) result }
        ensures slots { ChangesSlots SweepsSlot self.old self.new }
        ensures retired { 0 < result.swept.retired → HasLastGeneration self.old.slots }
    {
        sweep_slots(&mut self.slots, pins, from, most)
    }

    /// Confirms that a pin's slot is in use, in the pin's generation and with its digest, and returns the pin.
    ///
    /// # Memory
    /// None is allocated.
    pub fn verify(&mut self, pins: &Pins, pin: Pin) -> Pin
        requires table { self.old.table ≡ pins.now }
        requires pin { pin.table ≡ pins.now }
        ensures same { result ≡ pin }
        ensures kept { HasPin pin.hold self.old }
        ensures catalog { self.new.catalog ≡ self.old.catalog }
        ensures slots { ChangesSlots IsUnchanged self.old self.new }
    {
        self.slots.verify(pins, pin)
    }

    /// Returns the word of a slot: its generation, its phase, and the sum of the weights of its pins.
    ///
    /// # Memory
    /// None is allocated.
    pub fn word(&mut self, pins: &Pins, slot: u32) -> u64
        requires table { self.old.table ≡ pins.now }
        requires within { slot < length self.old.slots }
        ensures word { ReadsWord slot result self.old.slots self.new.slots }
        ensures catalog { self.new.catalog ≡ self.old.catalog }
        ensures slots { ChangesSlots IsUnchanged self.old self.new }
    {
        self.slots.word(pins, slot)
    }

    /// Reveals that the catalog of the book is sound, and changes nothing.
    pub fn reveal_invariant(&self)
        ensures { Sound self.now.catalog }
    {
        let _ = &self.links;
    }

    /// Writes the text of the book: `book`, the tenants with their repositories, and `end`.
    ///
    /// Tenants are in the order of their numbers, and repositories in the order of their names. A tenant's line has its
    /// use, its quota and its next session number. A repository is followed by its blobs, its manifests and its
    /// sessions, each in their order.
    ///
    /// # Errors
    /// The errors of the writer.
    ///
    /// # Memory
    /// None is allocated.
    pub fn print<W: Write>(&self, writer: &mut W) -> io::Result<()>
        ensures sound { Sound self.now.catalog }
        ensures text { PrintsCatalog W.contents writer.old writer.new result self.now.catalog }
    {
        print_book(writer, &self.links, &self.uploads, self.slots.table())
    }
}

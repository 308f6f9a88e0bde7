//! Links blobs: changes the links and the slots together.

ghost use Rattle.std.specs.Prelude.{◌≡◌, ◌≢◌, ◌<◌, length, true, false, Some, None, IfErr, IfSome, OnOk, OnErr};
ghost use Rattle.blob_digest.specs.declared.refusal.Refusal.TheVariants.{Memory};
ghost use Rattle.link_table.specs.Linked.{is_repo_of_tenant, passes_share};
ghost use Rattle.slot_table.specs.Slots.{phase_at, slot_of};
ghost use Rattle.slot_table.specs.declared.phase.Phase.TheVariants as phase;
ghost use Rattle.store_model.specs.Commands.{fits_content};
ghost use Rattle.store_book.specs.Pinned.{KeepsView, KeepsGenerations};
ghost use Rattle.store_book.specs.Internal.Storing.{bytes_at, linked_slot, CanStore, CanLinkSlot, IsExplained, LinksSlot, StoresBlob};

use crate::pinned_slots::PinnedSlots;
use blob_digest::{Blob, Digest, Refusal, RepoName};
use link_table::Links;
use pin_table::Pins;
use slot_table::SlotTable;

/// Returns whether a blob fits the content of a slot: they are the same or, if contents lie on disk, as long. Returns `None` if
/// they have to be compared and either is not in memory.
fn fits(slots: &SlotTable, slot: u32, other: &Blob, on_disk: bool) -> Option<bool>
    requires { slot < length slots.now }
    ensures { IfSome result (λ f. f ≡ fits_content on_disk (bytes_at slots.now slot) other.now.1) }
{
    let blob = slots.blob(slot)?;
    if on_disk {
        return Some(blob.len() == other.len());
    }
    let stored = blob.bytes()?;
    let bytes = other.bytes()?;
    Some(stored == bytes)
}

/// Returns how many bytes a slot holds.
pub(crate) fn held_len(slots: &SlotTable, slot: u32) -> u64
    requires { slot < length slots.now }
    ensures { result ≡ length (bytes_at slots.now slot) }
{
    match slots.blob(slot) {
        Some(blob) => blob.len(),
        None => 0,
    }
}

/// Finds the slot of a blob that is linked in a tenant's repository.
pub(crate) fn find_linked(
    links: &Links,
    slots: &SlotTable,
    tenant: u16,
    repo: &RepoName,
    digest: &Digest,
) -> Option<u32>
    requires there { tenant < length links.now.tenants }
    requires own { is_repo_of_tenant links.now.tenants tenant repo.now ≡ true }
    ensures { result ≡ linked_slot links.now slots.now repo.now digest.now }
{
    if links.holds(tenant, repo, digest) {
        slots.find(digest)
    } else {
        None
    }
}

/// Links the live blob of a slot in a repository, and counts the link if it is new.
///
/// Fails only if out of memory, and then changes nothing.
pub(crate) fn link_slot(
    links: &mut Links,
    slots: &mut PinnedSlots,
    tenant: u16,
    repo: &RepoName,
    slot: u32,
    digest: &Digest,
) -> Result<(), Refusal>
    requires there { slot_of slots.old.slots digest.now ≡ Some slot }
    requires live { phase_at slots.old.slots slot ≡ phase.Live }
    requires can { CanLinkSlot links.old slots.old tenant repo.now digest.now slot }
    ensures ok { LinksSlot result links.old slots.old repo.now digest.now slot links.new slots.new }
    ensures memory { IfErr result (λ e. e ≡ Memory) }
    ensures err { OnErr result ((links.new ≡ links.old) × (slots.new ≡ slots.old)) }
    ensures seen { KeepsView slots.old slots.new }
{
    let size = held_len(slots.table(), slot);
    let is_new = links.link(tenant, repo, digest, size)?;
    if is_new {
        slots.link_up(slot);
    }
    Ok(())
}

/// Links a blob whose digest has a slot, makes the slot live, and replaces its content by that of the blob.
///
/// Any error returns the blob and changes nothing.
///
/// # Errors
/// - `DigestInvalid` if the slot has another content.
/// - `LimitReached` if the digest is new to the tenant, and its share does not admit it.
/// - `Memory` if out of memory, or if the contents have to be compared and either is not in memory.
fn store_existing(
    links: &mut Links,
    slots: &mut PinnedSlots,
    pins: &Pins,
    tenant: u16,
    repo: &RepoName,
    slot: u32,
    blob: Blob,
    on_disk: bool,
) -> Result<(), (Refusal, Blob)>
    requires table { slots.old.table ≡ pins.now }
    requires can { CanStore links.old slots.old.slots tenant repo.now blob }
    requires there { slot_of slots.old.slots blob.0 ≡ Some slot }
    ensures ok { OnOk result (StoresBlob on_disk links.old slots.old repo.now blob links.new
        slots.new) }
    ensures share { OnOk result (passes_share links.old tenant blob.0 ≡ false) }
    ensures back { IfErr result (λ e. e.1 ≡ blob) }
    ensures refused { IfErr result (λ e. IsExplained on_disk links.old slots.old tenant blob e.0) }
    ensures err { OnErr result ((links.new ≡ links.old) × (slots.new ≡ slots.old)) }
    ensures quiet { KeepsGenerations slots.old slots.new }
{
    let Some(is_fitting) = fits(slots.table(), slot, &blob, on_disk) else {
        return Err((Refusal::Memory, blob));
    };
    if !is_fitting {
        return Err((Refusal::DigestInvalid, blob));
    }
    let size = blob.len();
    let key = blob.digest();
    if links.passes_share(tenant, &key) {
        return Err((Refusal::LimitReached, blob));
    }
    let is_new = match links.link(tenant, repo, &key, size) {
        Ok(is_new) => is_new,
        Err(refusal) => return Err((refusal, blob)),
    };
    if let Err(blob) = slots.replace(slot, blob) {
        if is_new {
            links.unlink(tenant, repo, &key);
        }
        return Err((Refusal::Memory, blob));
    }
    slots.revive(pins, slot);
    if is_new {
        slots.link_up(slot);
    }
    Ok(())
}

/// Links a blob whose digest has no slot, and puts it into a free one.
///
/// Any error returns the blob and changes nothing.
///
/// # Errors
/// - `LimitReached` if the digest is new to the tenant, and its share does not admit it.
/// - `StoreFull` if no slot is free.
/// - `Memory` if out of memory.
fn store_new(
    links: &mut Links,
    slots: &mut PinnedSlots,
    pins: &Pins,
    tenant: u16,
    repo: &RepoName,
    blob: Blob,
    on_disk: bool,
) -> Result<(), (Refusal, Blob)>
    requires table { slots.old.table ≡ pins.now }
    requires can { CanStore links.old slots.old.slots tenant repo.now blob }
    requires absent { slot_of slots.old.slots blob.0 ≡ None }
    ensures ok { OnOk result (StoresBlob on_disk links.old slots.old repo.now blob links.new
        slots.new) }
    ensures share { OnOk result (passes_share links.old tenant blob.0 ≡ false) }
    ensures back { IfErr result (λ e. e.1 ≡ blob) }
    ensures refused { IfErr result (λ e. IsExplained on_disk links.old slots.old tenant blob e.0) }
    ensures err { OnErr result ((links.new ≡ links.old) × (slots.new ≡ slots.old)) }
    ensures quiet { KeepsGenerations slots.old slots.new }
{
    let digest = blob.digest();
    if links.passes_share(tenant, &digest) {
        return Err((Refusal::LimitReached, blob));
    }
    if slots.table().free_count() == 0 {
        return Err((Refusal::StoreFull, blob));
    }
    let size = blob.len();
    if let Err(refusal) = links.link(tenant, repo, &digest, size) {
        return Err((refusal, blob));
    }
    match slots.place(pins, blob) {
        Ok(slot) => {
            slots.link_up(slot);
            Ok(())
        }
        Err(refused) => {
            links.unlink(tenant, repo, &digest);
            Err(refused)
        }
    }
}

/// Links a sealed blob in a repository, and stores it: in the slot of its digest, in place of the content there, or in a
/// free one.
///
/// Any error returns the blob and changes nothing.
///
/// # Errors
/// - `DigestInvalid` if the store has another content with this digest.
/// - `LimitReached` if the digest is new to the tenant, and its share does not admit it.
/// - `StoreFull` if the digest has no slot and none is free.
/// - `Memory` if out of memory.
pub(crate) fn keep(
    links: &mut Links,
    slots: &mut PinnedSlots,
    pins: &Pins,
    tenant: u16,
    repo: &RepoName,
    blob: Blob,
    on_disk: bool,
) -> Result<(), (Refusal, Blob)>
    requires table { slots.old.table ≡ pins.now }
    requires can { CanStore links.old slots.old.slots tenant repo.now blob }
    ensures ok { OnOk result (StoresBlob on_disk links.old slots.old repo.now blob links.new
        slots.new) }
    ensures share { OnOk result (passes_share links.old tenant blob.0 ≡ false) }
    ensures back { IfErr result (λ e. e.1 ≡ blob) }
    ensures refused { IfErr result (λ e. IsExplained on_disk links.old slots.old tenant blob e.0) }
    ensures err { OnErr result ((links.new ≡ links.old) × (slots.new ≡ slots.old)) }
    ensures quiet { KeepsGenerations slots.old slots.new }
{
    match slots.table().find(&blob.digest()) {
        Some(slot) => store_existing(links, slots, pins, tenant, repo, slot, blob, on_disk),
        None => store_new(links, slots, pins, tenant, repo, blob, on_disk),
    }
}

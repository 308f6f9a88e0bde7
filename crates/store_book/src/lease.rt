//! Leases: a reader's hold on a blob.

ghost use Rattle.std.specs.Prelude.{◌≡◌, ◌≢◌, IfNone, IfOk, IfErr, IfSome, OnOk, true, length};
ghost use Rattle.std.specs.Arc.{arc_value};
ghost use Rattle.atomic_table.specs.Seated.{TableId};
ghost use Rattle.blob_digest.specs.Vouched.{has_digest};
ghost use Rattle.store_book.specs.Leased.{no_table, AreHalves, IsBlobOf, ReadsAt, RefusesShare};
ghost use Rattle.store_book.specs.Pinned.{blob_bytes, blob_digest};

use blob_digest::{Blob, Digest, Refusal};
use pin_table::{Pin, Pins};
use std::alloc::Global;
use std::marker::{Brand, Model, PhantomData};
use std::sync::Arc;

/// The name of a table of pins.
///
/// It has no values and no code. A lease with such a parameter has its pin in the table of that name.
pub trait PinsName {
    ghost table: { TableId };
}

impl PinsName for Brand {
    ghost table = { no_table };
}

/// A reader's hold on a blob: its bytes, and a pin on its slot.
///
/// While the lease exists, no sweep frees the slot. A lease cannot be dropped: `share`, `give_back` or `into_parts`
/// consumes it. None of its functions takes a lock or waits.
pub struct Lease<'p, N: PinsName> {
    pins: &'p Pins,
    blob: Arc<Blob, Global>,
    pin: Pin,
    table: PhantomData<N>,
}

impl<'p, N: PinsName> Model for Lease<'p, N> {
    ghost use Rattle.std.specs.Prelude.{◌≡◌};
    ghost use Rattle.std.specs.Arc.{arc_value};
    ghost use Rattle.store_book.specs.Leased.{LeaseValue};
    ghost use Rattle.store_book.specs.Pinned.{blob_bytes, blob_digest};

    ghost Value = { LeaseValue };

    ghost view = { λ l. record { bytes = blob_bytes (arc_value l.blob); hold = l.pin.hold } };

    ghost invariant = { λ l. (l.pin.table ≡ N.table) × (l.pins.now ≡ N.table)
        × (blob_digest (arc_value l.blob) ≡ l.pin.hold.digest) };
}

impl<'p, N: PinsName> Lease<'p, N> {
    /// Makes a lease of a blob from a pin on its slot.
    pub fn new(pins: &'p Pins, pin: Pin, blob: Arc<Blob, Global>) -> Lease<'p, N>
        requires table { (pin.table ≡ N.table) × (pins.now ≡ N.table) }
        requires content { blob_digest (arc_value blob) ≡ pin.hold.digest }
        ensures { result ≡ record { bytes = blob_bytes (arc_value blob); hold = pin.hold } }
    {
        Lease {
            pins,
            blob,
            pin,
            table: PhantomData,
        }
    }

    /// Takes the lease apart into its pin and its blob.
    pub fn into_parts(self) -> (Pin, Arc<Blob, Global>)
        ensures pin { (result.0.table ≡ N.table) × (result.0.hold ≡ self.entry.hold) }
        ensures blob { IsBlobOf self.entry (arc_value result.1) }
    {
        let Lease {
            pins: _,
            blob,
            pin,
            table: _,
        } = self;
        (pin, blob)
    }

    /// Returns the blob.
    pub fn blob(&self) -> &Arc<Blob, Global>
        ensures { blob_bytes (arc_value result.now) ≡ self.now.bytes }
    {
        &self.blob
    }

    /// Returns the blob's bytes in place, if they are in memory.
    pub fn bytes(&self) -> Option<&[u8]>
        ensures { IfSome result (λ b. b.now ≡ self.now.bytes) }
    {
        self.blob.bytes()
    }

    /// Returns the blob's size in bytes.
    pub fn len(&self) -> u64
        ensures { result ≡ length self.now.bytes }
    {
        self.blob.len()
    }

    /// Returns the blob's digest.
    pub fn digest(&self) -> Digest
        ensures value { result ≡ self.now.hold.digest }
        ensures agrees { has_digest self.now.hold.digest self.now.bytes ≡ true }
    {
        self.blob.digest()
    }

    /// Returns the slot that the lease pins.
    pub fn slot(&self) -> u32
        ensures { result ≡ self.now.hold.slot }
    {
        self.pin.slot()
    }

    /// Returns the generation of that slot.
    pub fn generation(&self) -> u32
        ensures { result ≡ self.now.hold.generation }
    {
        self.pin.generation()
    }

    /// Returns the weight of the lease in its slot's word: a power of two, 1,024 at first.
    pub fn weight(&self) -> u32
        ensures { result ≡ self.now.hold.weight }
    {
        self.pin.weight()
    }

    /// Copies the blob's bytes from `offset` on into `out`, and returns how many: at most the bytes that are there and that
    /// fit. Returns `None` if the bytes are not in memory.
    ///
    /// The result is 0 at the blob's end and after it. The rest of `out` is unchanged.
    ///
    /// # Cost
    /// The copy.
    ///
    /// # Memory
    /// None is allocated.
    pub fn read_at(&self, offset: u64, out: &mut [u8]) -> Option<usize>
        ensures bytes { IfSome result (λ n. ReadsAt self.now.bytes offset out.old out.new n) }
        ensures none { IfNone result (out.new ≡ out.old) }
    {
        let bytes = self.blob.bytes()?;
        if offset >= bytes.len() as u64 {
            return Some(0);
        }
        let rest = &bytes[offset as usize..];
        let count = rest.len().min(out.len());
        out[..count].copy_from_slice(&rest[..count]);
        Some(count)
    }

    /// Splits the lease into two of half the weight. No byte is copied.
    ///
    /// Any error returns the lease unchanged.
    ///
    /// # Errors
    /// - `Memory` if the blob's bytes have no room for one more share.
    /// - `WeightSpent` if the lease weighs 1.
    pub fn share(self) -> Result<(Lease<'p, N>, Lease<'p, N>), (Refusal, Lease<'p, N>)>
        ensures shared { IfOk result (λ r. AreHalves r.0 r.1 self.entry) }
        ensures more { OnOk result (self.entry.hold.weight ≢ 1) }
        ensures back { IfErr result (λ r. r.1 ≡ self.entry) }
        ensures refused { IfErr result (λ r. RefusesShare r.0 self.entry) }
    {
        let Lease {
            pins,
            blob,
            pin,
            table: _,
        } = self;
        let Ok(second) = blob.clone() else {
            return Err((Refusal::Memory, Lease::new(pins, pin, blob)));
        };
        match pins.share(pin) {
            Ok((left, right)) => Ok((
                Lease::new(pins, left, blob),
                Lease::new(pins, right, second),
            )),
            Err(pin) => Err((Refusal::WeightSpent, Lease::new(pins, pin, blob))),
        }
    }

    /// Ends the lease and subtracts its weight from its slot's word.
    ///
    /// # Memory
    /// None is allocated.
    pub fn give_back(self) {
        let Lease {
            pins,
            blob: _,
            pin,
            table: _,
        } = self;
        let _ = pins.leave(pin);
    }
}

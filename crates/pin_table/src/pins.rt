//! Implements the calls on the slots' words.

ghost use Rattle.std.specs.Prelude.{◌≡◌, ℕ, ◌+◌, ◌<◌, ◌≤◌, length, slice_index, Some, IfOk, IfErr};
ghost use Rattle.pin_core.specs.World.{row, row_word, max_weight};
ghost use Rattle.pin_core.specs.declared.world.Phase.TheVariants.{Free, Live, Condemned};
ghost use Rattle.blob_digest.specs.Slots.{greatest_slots};
ghost use Rattle.pin_core.specs.Events.{IsNew, IsOpeningError, RefusesNumber, new_weight};
ghost use Rattle.pin_table.specs.declared.view.View.TheVariants.{Left as LeftView};
ghost use Rattle.pin_table.specs.Plays.{Gives, IsGiver, give_move};
ghost use Rattle.pin_table.specs.Rule.{released_pin};
ghost use Rattle.pin_table.specs.Calls.{IsNewTable, with_digest, with_phase, with_new_pin, seat_value, lent_pin, FindsWord, IsLendResult, IsShareResult, IsReclaimResult, IsUnheld, VerifiesPin};

use crate::keeper::Keeper;
use crate::padded::Padded;
use crate::pin::{Left, Pin};
use crate::plays::{Condemn, Give, Given, Leave, Lend, Look, Reclaiming, Revive, Share, Transit};
use crate::reclaim::Reclaim;
use crate::rule::{Opening, PinSeat, PinShared, PinTable};
use blob_digest::{Digest, GREATEST_SLOTS, MAX_SLOTS, Refusal};
use pin_core::{
    CONDEMNED, LAST_GENERATION, MAX_WEIGHT, NEW_WEIGHT, Phase, PinRecord, PinRow, USED, WordRow,
    given, halved, in_phase, pack, reclaimed, unpack,
};
use std::alloc::Global;
use std::marker::{Brand, Model};

/// Every bit but that of a condemned slot.
const NOT_CONDEMNED: u64 = u64::MAX - CONDEMNED;

/// The words of a table's slots.
///
/// Contracts read it as the table's identity, which its keeper and its pins share. Each call requires a keeper and pins
/// of its own table.
#[derive(Drop)]
pub struct Pins {
    table: PinTable,
}

impl Model for Pins {
    ghost use Rattle.atomic_table.specs.Seated.{TableId};

    ghost Value = { TableId };

    ghost view = { λ p. p.table.shared.table_id };
}

/// Returns the word of a slot without pins.
fn clear_word(row: &PinRow) -> u64
    ensures { result ≡ row_word row.now 0 }
{
    pack(WordRow {
        generation: row.generation,
        phase: row.phase,
        weight: 0,
    })
}

/// Sets the bit of a used slot. The digest `D::digest` exists only in the proof.
fn give_as<D: Given>(shared: &PinShared, seat: &mut PinSeat, word: usize, digest: Digest)
    requires digest { digest ≡ D.digest }
    requires table { seat.old.table_id ≡ shared.now.table_id }
    requires within { word < shared.now.table_id.words }
    requires keeper { IsGiver word digest seat.old.id seat.old.me }
    ensures seat { (seat.new.table_id ≡ seat.old.table_id) × (seat.new.id ≡ seat.old.id) }
    ensures step { Gives digest (give_move shared.now.table_id.slots word) seat.old.me seat.new.me }
{
    let _ = digest;
    shared.fetch_or::<Give<D>>(seat, word, USED);
}

impl Pins {
    /// Makes a table of free slots of the given generation, and its keeper.
    ///
    /// # Errors
    ///
    /// - `LimitReached` exactly if `slots` is not 1 to 65,536.
    /// - `Memory` if allocation fails.
    ///
    /// # Cost
    ///
    /// Linear in the number of slots. Allocates the words, and reserves room for the rows and bounds.
    pub fn new(alloc: Global, slots: u32, first_generation: u32) -> Result<(Pins, Keeper), Refusal>
        ensures made { IfOk result (λ r. IsNewTable 65536 slots first_generation r.0 r.1) }
        ensures refused { IfErr result (λ e. IsOpeningError slots e) }
    {
        if slots > MAX_SLOTS {
            return Err(Refusal::LimitReached);
        }
        Pins::of_slots(alloc, slots, first_generation)
    }

    /// Makes a table as `new` does, which may have as many slots as a store.
    ///
    /// # Errors
    ///
    /// - `LimitReached` exactly if `slots` is not 1 to `GREATEST_SLOTS`.
    /// - `Memory` if allocation fails.
    ///
    /// # Cost
    ///
    /// Linear in the number of slots. Allocates the words, and reserves room for the rows and bounds.
    pub fn of_slots(
        alloc: Global,
        slots: u32,
        first_generation: u32,
    ) -> Result<(Pins, Keeper), Refusal>
        ensures made { IfOk result (λ r. IsNewTable greatest_slots slots first_generation r.0 r.1) }
        ensures refused { IfErr result (λ e. RefusesNumber greatest_slots slots e) }
    {
        if slots < 1 || slots > GREATEST_SLOTS {
            return Err(Refusal::LimitReached);
        }
        let count = slots as usize;
        let row = PinRow {
            generation: first_generation,
            phase: Phase::Free,
            digest: None,
        };
        let words = Vec::from_elem(alloc, clear_word(&row), count)?;
        let rows = Padded::new(alloc, count, row)?;
        let bounds = Padded::new(alloc, count, 0_u32)?;
        let about = Opening {
            slots: count,
            first_generation,
        };
        let (table, seat) = PinTable::of_words(alloc, words.as_slice(), &about)?;
        Ok((Pins { table }, Keeper { rows, bounds, seat }))
    }

    /// Loads the word of a slot, and sets the keeper's bound to the sum in it.
    ///
    /// # Memory
    ///
    /// Never allocates.
    pub fn look(&self, keeper: &mut Keeper, slot: u32) -> u64
        requires table { keeper.old.table ≡ self.now }
        requires within { slot < length keeper.old.rows }
        ensures { FindsWord slot result keeper.old keeper.new }
    {
        let word = slot as usize;
        let found = self.table.shared.load::<Look>(&mut keeper.seat, word);
        let sum = unpack(found).weight;
        keeper.bounds.set(word, sum);
        found
    }

    /// Gives a free slot a digest that no used slot has. The slot is then live, and its bound is 0.
    ///
    /// # Memory
    ///
    /// Never allocates.
    pub fn give(&self, keeper: &mut Keeper, slot: u32, digest: Digest)
        requires table { keeper.old.table ≡ self.now }
        requires within { slot < length keeper.old.rows }
        requires free { (row keeper.old.rows slot).phase ≡ Free }
        requires new { IsNew digest keeper.old.rows }
        ensures { keeper.new ≡ with_digest slot digest keeper.old }
    {
        let word = slot as usize;
        give_as::<Brand>(&self.table.shared, &mut keeper.seat, word, digest);
        let row = keeper.rows.get(word);
        keeper.rows.set(word, given(row, digest));
        keeper.bounds.set(word, 0);
    }

    /// Makes a new pin of weight 1,024 on a live slot.
    ///
    /// The call looks at the slot first. The bound is then the sum that it found, plus the weight of the new pin.
    ///
    /// # Errors
    ///
    /// - `TooManyReaders` exactly if the sum that was found plus 1,024 exceeds 2^30 - 1. The bound is then that sum.
    ///
    /// # Memory
    ///
    /// Never allocates.
    pub fn lend(&self, keeper: &mut Keeper, slot: u32) -> Result<Pin, Refusal>
        requires table { keeper.old.table ≡ self.now }
        requires within { slot < length keeper.old.rows }
        requires live { (row keeper.old.rows slot).phase ≡ Live }
        ensures { IsLendResult slot keeper.old keeper.new result }
    {
        let sum = unpack(self.look(keeper, slot)).weight;
        if sum > MAX_WEIGHT - NEW_WEIGHT {
            return Err(Refusal::TooManyReaders);
        }
        Ok(self.add_pin(keeper, slot))
    }

    /// Makes a new pin on a live slot whose bound has room for it.
    fn add_pin(&self, keeper: &mut Keeper, slot: u32) -> Pin
        requires table { keeper.old.table ≡ self.now }
        requires within { slot < length keeper.old.rows }
        requires live { (row keeper.old.rows slot).phase ≡ Live }
        requires room { slice_index keeper.old.bounds slot + new_weight ≤ max_weight }
        ensures bound { keeper.new ≡ with_new_pin slot keeper.old }
        ensures pin { result ≡ lent_pin slot keeper.old }
        ensures digest { (row keeper.old.rows slot).digest ≡ Some result.hold.digest }
    {
        let word = slot as usize;
        let shared = &self.table.shared;
        let row = keeper.rows.get(word);
        let Some(digest) = row.digest else {
            unreachable!()
        };
        shared.fetch_add::<Lend>(&mut keeper.seat, word, NEW_WEIGHT as u64);
        let bound = keeper.bounds.get(word);
        keeper.bounds.set(word, bound + NEW_WEIGHT);
        let seat = shared.split_seat::<Transit>(&mut keeper.seat);
        let hold = PinRecord {
            slot,
            generation: row.generation,
            digest,
            weight: NEW_WEIGHT,
        };
        Pin { hold, seat }
    }

    /// Condemns a live slot. It gets no new pin, and may be reclaimed once no pin is on it.
    ///
    /// # Memory
    ///
    /// Never allocates.
    pub fn condemn(&self, keeper: &mut Keeper, slot: u32)
        requires table { keeper.old.table ≡ self.now }
        requires within { slot < length keeper.old.rows }
        requires live { (row keeper.old.rows slot).phase ≡ Live }
        ensures { keeper.new ≡ with_phase slot Condemned keeper.old }
    {
        let word = slot as usize;
        self.table
            .shared
            .fetch_or::<Condemn>(&mut keeper.seat, word, CONDEMNED);
        let row = keeper.rows.get(word);
        keeper.rows.set(word, in_phase(row, Phase::Condemned));
    }

    /// Makes a condemned slot live again.
    ///
    /// # Memory
    ///
    /// Never allocates.
    pub fn revive(&self, keeper: &mut Keeper, slot: u32)
        requires table { keeper.old.table ≡ self.now }
        requires within { slot < length keeper.old.rows }
        requires condemned { (row keeper.old.rows slot).phase ≡ Condemned }
        ensures { keeper.new ≡ with_phase slot Live keeper.old }
    {
        let word = slot as usize;
        self.table
            .shared
            .fetch_and::<Revive>(&mut keeper.seat, word, NOT_CONDEMNED);
        let row = keeper.rows.get(word);
        keeper.rows.set(word, in_phase(row, Phase::Live));
    }

    /// Frees a condemned slot without pins, or retires it in the last generation.
    ///
    /// If pins hold the slot, returns the sum of weights that the exchange found, and sets the bound to it. A slot whose
    /// bound is 0 is never held.
    ///
    /// # Memory
    ///
    /// Never allocates.
    pub fn reclaim(&self, keeper: &mut Keeper, slot: u32) -> Reclaim
        requires table { keeper.old.table ≡ self.now }
        requires within { slot < length keeper.old.rows }
        requires condemned { (row keeper.old.rows slot).phase ≡ Condemned }
        ensures answer { IsReclaimResult slot keeper.old keeper.new result }
        ensures unlent { slice_index keeper.old.bounds slot ≡ 0 → IsUnheld result }
    {
        let word = slot as usize;
        let row = keeper.rows.get(word);
        let generation = row.generation;
        let old = clear_word(&row);
        let next = reclaimed(row);
        let new = clear_word(&next);
        let shared = &self.table.shared;
        let found = shared.compare_exchange::<Reclaiming>(&mut keeper.seat, word, old, new);
        if found != old {
            let weight = unpack(found).weight;
            keeper.bounds.set(word, weight);
            return Reclaim::Held { weight };
        }
        keeper.rows.set(word, next);
        keeper.bounds.set(word, 0);
        if generation == LAST_GENERATION {
            return Reclaim::Retired;
        }
        Reclaim::Freed
    }

    /// Confirms that a pin's slot is used and has the pin's generation and digest, and returns the pin unchanged.
    ///
    /// Sets the keeper's bound for the slot to the sum that a load of its word finds.
    ///
    /// # Memory
    ///
    /// Never allocates.
    pub fn verify(&self, keeper: &mut Keeper, pin: Pin) -> Pin
        requires table { keeper.old.table ≡ self.now }
        requires pin { pin.table ≡ self.now }
        ensures same { result ≡ pin }
        ensures kept { VerifiesPin pin.hold keeper.old keeper.new }
    {
        let Pin { hold, seat } = pin;
        let shared = &self.table.shared;
        let word = hold.slot as usize;
        shared.join_seat::<Transit>(&mut keeper.seat, seat);
        let found = shared.load::<Look>(&mut keeper.seat, word);
        keeper.bounds.set(word, unpack(found).weight);
        let seat = shared.split_seat::<Transit>(&mut keeper.seat);
        Pin { hold, seat }
    }

    /// Splits a pin into two pins of half its weight.
    ///
    /// # Errors
    ///
    /// - The same pin, unchanged, if its weight is 1.
    ///
    /// # Memory
    ///
    /// Never allocates.
    pub fn share(&self, pin: Pin) -> Result<(Pin, Pin), Pin>
        requires table { pin.table ≡ self.now }
        ensures { IsShareResult pin result }
    {
        if pin.hold.weight == 1 {
            return Err(pin);
        }
        let Pin { hold, mut seat } = pin;
        let second = self.table.shared.split_seat::<Share>(&mut seat);
        let half = halved(&hold);
        Ok((
            Pin { hold: half, seat },
            Pin {
                hold: halved(&hold),
                seat: second,
            },
        ))
    }

    /// Releases a pin: subtracts its weight from its slot's word.
    ///
    /// Returns the pin's seat, which weighs nothing and records the pin.
    ///
    /// # Memory
    ///
    /// Never allocates.
    pub fn leave(&self, pin: Pin) -> Left
        requires table { pin.table ≡ self.now }
        ensures { (look : ℕ) × (result ≡ seat_value self.now
            (LeftView (released_pin pin.hold look))) }
    {
        let Pin { hold, mut seat } = pin;
        let shared = &self.table.shared;
        shared.fetch_sub::<Leave>(&mut seat, hold.slot as usize, u64::from(hold.weight));
        Left { seat }
    }
}

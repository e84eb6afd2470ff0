// A completion for a memory read's piece, by verdict.
ghost use Rattle.std.specs.Prelude.{◌≡◌, List, ℕ, ◌+◌, ◌*◌, ◌≤◌, ◌<◌, length, get_or};
ghost use Rattle.std.proofs.Math.Seq.{paste};
ghost use Rattle.verdict.specs.declared.Cause.TheVariants.{Poison};
ghost use Rattle.parts.specs.Sizes.{tag_count, slot_size, store_size};
ghost use Rattle.parts.specs.Code.Struct.{places_of};
ghost use Rattle.machine.specs.Stores.{useful_bytes};
ghost use Rattle.machine.specs.Completions.{held, failed, closed, advanced};
ghost use Rattle.machine.specs.Code.Tables.{bridge_of, held_of};

use crate::slots::{close_piece, fail};
use crate::stores::store_at;
use crate::tagged::{count, free, shut};
use parts::read_slot::ReadSlot;
use parts::{SLOT_SIZE, State};
use verdict::Cause;

// A memory read's piece that waits for bytes: its tag, and the slot that the bytes go to.
#[derive(Clone, Copy, Debug, PartialEq, Eq)]
pub struct OpenPiece {
    pub tag: u32,
    pub slot: ReadSlot,
}

impl OpenPiece {
    // A piece closes, and its tag is free.
    fn close(self, b: &mut State, store: &mut [u8])
        requires { (store_size ≤ length store.old) × (self.tag < tag_count) }
        ensures { (cells : List ℕ) → held_of cells b.new store.new ≡ closed self.tag self.slot.number (held_of cells b.old store.old) }
    {
        shut(b, self.tag as usize);
        free(b, self.tag);
        close_piece(b, store, self.slot);
    }

    // n bytes have come for a tag, the last perhaps.
    #[tactic(auto, unfolding(machine::specs::Completions::advanced))]
    fn advance(self, b: &mut State, store: &mut [u8], n: u32)
        requires { (store_size ≤ length store.old) × ((self.tag < tag_count) × ((n ≤ get_or b.old.missing self.tag 0) × (get_or (places_of b.old.tags) self.tag 0 + n ≤ slot_size))) }
        ensures { (cells : List ℕ) → held_of cells b.new store.new ≡ advanced self.tag self.slot.number n (held_of cells b.old store.old) }
    {
        let t = self.tag as usize;
        let before = b.missing[t];
        count(b, t, n);
        if before <= n {
            self.close(b, store);
        }
    }

    // Good data: n bytes of the payload, from skip on, go to their place.
    pub fn good(self, b: &mut State, store: &mut [u8], payload: &[u8], skip: usize, n: u32)
        requires { (store_size ≤ length store.old) × ((self.tag < tag_count) × ((n ≤ get_or b.old.missing self.tag 0) × ((get_or (places_of b.old.tags) self.tag 0 + n ≤ slot_size) × (skip + n ≤ length payload.now)))) }
        ensures { (cells : List ℕ) → held_of cells b.new store.new ≡ advanced self.tag self.slot.number n (held_of cells b.old (paste store.old (slot_size * self.slot.number + get_or (places_of b.old.tags) self.tag 0) (useful_bytes skip n payload.now) n)) }
    {
        let place = b.tags[self.tag as usize].place as usize;
        store_at(
            store,
            SLOT_SIZE * self.slot.number + place,
            payload,
            skip,
            n as usize,
        );
        self.advance(b, store, n);
    }

    // Poisoned data only counts down, and marks the piece failed.
    pub fn poisoned(self, b: &mut State, store: &mut [u8], n: u32)
        requires { (store_size ≤ length store.old) × ((self.tag < tag_count) × ((n ≤ get_or b.old.missing self.tag 0) × (get_or (places_of b.old.tags) self.tag 0 + n ≤ slot_size))) }
        ensures { (cells : List ℕ) → held_of cells b.new store.new ≡ advanced self.tag self.slot.number n (held (failed self.slot.number (get_or (places_of b.old.tags) self.tag 0) Poison (bridge_of cells b.old)) store.old) }
    {
        fail(b, self.slot, b.tags[self.tag as usize].place, Cause::Poison);
        self.advance(b, store, n);
    }

    // A failing status closes the piece.
    pub fn failed(self, b: &mut State, store: &mut [u8], why: Cause)
        requires { (store_size ≤ length store.old) × (self.tag < tag_count) }
        ensures { (cells : List ℕ) → held_of cells b.new store.new ≡ closed self.tag self.slot.number (held (failed self.slot.number (get_or (places_of b.old.tags) self.tag 0) why (bridge_of cells b.old)) store.old) }
    {
        fail(b, self.slot, b.tags[self.tag as usize].place, why);
        self.close(b, store);
    }
}

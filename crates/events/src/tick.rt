// Ticks.
ghost use Rattle.std.specs.Prelude.{◌≡◌, true, List, ℕ, ◌≤◌, ◌<◌, length, get_or};
ghost use Rattle.parts.specs.Sizes.{tag_count};
ghost use Rattle.parts.specs.Code.Struct.{answer_of};
ghost use Rattle.machine.specs.Completions.{store_size, plain};
ghost use Rattle.machine.specs.Ticks.{store_refusal, timed_out, expire_to, ticked, ticked_to};
ghost use Rattle.machine.specs.Code.Tables.{held_of};

use moves::slots::{close_piece, fail};
use moves::tagged::shut;
use parts::numbers::{is_old, next_tick, tick_after};
use parts::{Accepted, Answer, STORE_SIZE, State, TAGS};
use refusals::Refusal;
use verdict::Cause;

// A request is closed, and its tag rests.
#[tactic(auto, unfolding(machine::specs::Ticks::timed_out))]
fn time_out(b: &mut State, store: &mut [u8], t: usize)
    requires { (store_size ≤ length store.old) × (t < tag_count) }
    ensures { (cells : List ℕ) → held_of cells b.new store.new ≡ timed_out t (held_of cells b.old store.old) }
{
    let row = b.tags[t];
    match row.read_slot() {
        Some(k) => {
            fail(b, k, row.place, Cause::Timeout);
            shut(b, t);
            close_piece(b, store, k);
        }
        None => {
            b.core.time_out_config();
            shut(b, t);
        }
    }
}

// Each request whose age is the time limit is closed. The age is tested here: most ticks close nothing.
fn expire_all(b: &mut State, store: &mut [u8])
    requires { store_size ≤ length store.old }
    ensures { (cells : List ℕ) → held_of cells b.new store.new ≡ expire_to (held_of cells b.old store.old) tag_count }
{
    for t in 0..TAGS {
        let row = b.tags[t];
        if is_old(
            b.missing[t],
            row.place,
            b.core.ticks,
            row.sent,
            b.settings.limit,
        ) {
            time_out(b, store, t);
        }
    }
}

// Whether no tag is open.
fn is_quiet(missing: &[u32; TAGS]) -> bool
    ensures { result ≡ true → (t : ℕ) → t < tag_count → get_or missing.now t 0 ≡ 0 }
{
    missing.iter().all(|m| *m == 0)
}

// A tick, where the store is long enough.
#[tactic(auto, using(crate::proofs::Quiet::nothing_open))]
fn step(b: &mut State, store: &mut [u8])
    requires { store_size ≤ length store.old }
    ensures { (cells : List ℕ) → held_of cells b.new store.new ≡ ticked (held_of cells b.old store.old) }
{
    b.core.ticks = next_tick(b.core.ticks);
    if !is_quiet(&b.missing) {
        expire_all(b, store);
    }
}

// A tick.
#[tactic(auto, unfolding(machine::specs::Ticks::ticked))]
pub fn tick_in(b: &mut State, store: &mut [u8]) -> Answer
    ensures answer { answer_of result ≡ plain (store_refusal (length store.old)) }
    ensures tables { (cells : List ℕ) → held_of cells b.new store.new ≡ ticked (held_of cells b.old store.old) }
{
    if store.len() < STORE_SIZE {
        return Err(Refusal::TooShort);
    }
    step(b, store);
    Ok(Accepted::plain())
}

// So many ticks in a row; the answer is that of the last. With nothing open they only move the counter.
pub fn ticks_in(b: &mut State, store: &mut [u8], times: u32) -> Answer
    ensures answer { answer_of result ≡ plain (store_refusal (length store.old)) }
    ensures tables { (cells : List ℕ) → held_of cells b.new store.new ≡ ticked_to (held_of cells b.old store.old) times }
{
    if store.len() < STORE_SIZE {
        return Err(Refusal::TooShort);
    }
    for done in 0..times {
        if is_quiet(&b.missing) {
            b.core.ticks = tick_after(b.core.ticks, times - done);
            return Ok(Accepted::plain());
        }
        step(b, store);
    }
    Ok(Accepted::plain())
}

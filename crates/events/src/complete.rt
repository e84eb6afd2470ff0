// Completions.
ghost use Rattle.std.specs.Prelude.{◌≡◌, List, true, false, cond, ℕ, ◌+◌, ◌*◌, ◌≤◌, ◌<◌, length};
ghost use Rattle.refusals.specs.Table.{not_expected};
ghost use Rattle.tlp.specs.Completion.{valid_completion};
ghost use Rattle.parts.specs.Sizes.{tag_count, store_size};
ghost use Rattle.parts.specs.Code.Struct.{core_from, answer_of};
ghost use Rattle.machine.specs.State.{core_in, refusal_change};
ghost use Rattle.machine.specs.Completions.{held, config_completed, verdict_of, is_unexpected, expected, complete_refusal, completed, plain};
ghost use Rattle.machine.specs.Code.Expected.{Expects};
ghost use Rattle.machine.specs.Code.Tables.{bridge_of, held_of};

use crate::pieces::memory_in;
use moves::tagged::{free, shut};
use parts::{Accepted, Answer, CONFIG_WRITE, SLOTS, STORE_SIZE, State, TAGS};
use refusals::Refusal;
use tlp::completion::Completion;
use tlp::packet::completion_of;
use verdict::{Verdict, config_verdict, is_open, memory_verdict};

// The configuration access is finished, and its tag is free.
#[tactic(auto, unfolding(machine::specs::Completions::config_completed))]
fn finish_config(b: &mut State, tag: u32, payload: &[u8], v: Verdict)
    requires { tag < tag_count }
    ensures { (cells : List ℕ) → bridge_of cells b.new ≡ config_completed (bridge_of cells b.old) tag payload.now v }
{
    b.core.config = b.core.config.answer(payload, v);
    shut(b, tag as usize);
    free(b, tag);
}

// The verdict on a completion, by the request of its tag; the requester ID must be ours, and the tag open.
#[tactic(auto, using(machine::proofs::Judging::verdict_fits, machine::proofs::Tables::place_cell, machine::proofs::Tables::owner_cell, machine::proofs::Tables::kind_cell), unfolding(machine::specs::Completions::verdict_of))]
fn verdict_in(b: &State, h: Completion) -> Verdict
    ensures verdict { (cells : List ℕ) → result ≡ verdict_of (bridge_of cells b.now) h }
    ensures expects { (cells : List ℕ) → is_unexpected result ≡ false → Expects (bridge_of cells b.now) h result }
{
    let t = h.tag as usize;
    if h.requester != b.settings.requester || TAGS <= t {
        return Verdict::Unexpected;
    }
    let row = b.tags[t];
    if !is_open(b.missing[t], row.place) {
        return Verdict::Unexpected;
    }
    if (row.owner as usize) < SLOTS {
        return memory_verdict(h, b.missing[t], u64::from(row.next));
    }
    config_verdict(h, row.kind == CONFIG_WRITE)
}

// A valid completion with its payload.
#[tactic(auto, unfolding(machine::specs::Completions::expected))]
fn header_in(b: &mut State, store: &mut [u8], h: Completion, payload: &[u8]) -> Answer
    requires { (store_size ≤ length store.old) × ((valid_completion h ≡ true) × (length payload.now ≡ 4 * h.length)) }
    ensures tables { (cells : List ℕ) → held_of cells b.new store.new ≡ cond (is_unexpected (verdict_of (bridge_of cells b.old) h)) (held (core_in (refusal_change not_expected (core_from b.old.core cells)) (bridge_of cells b.old)) store.old) (expected (held_of cells b.old store.old) h payload.now) }
    ensures answer { (cells : List ℕ) → answer_of result ≡ plain (cond (is_unexpected (verdict_of (bridge_of cells b.old) h)) not_expected 0) }
{
    let v = verdict_in(b, h);
    if v.is_unexpected() {
        return b.core.refuse(Refusal::NotExpected);
    }
    match b.tags[h.tag as usize].read_slot() {
        Some(k) => memory_in(b, store, payload, h, k, v),
        None => finish_config(b, h.tag, payload, v),
    }
    Ok(Accepted::plain())
}

// A completion of any bytes.
#[tactic(auto, using(crate::proofs::Completing::header_valid, crate::proofs::Completing::header_length, crate::proofs::Completing::behind_header, crate::proofs::Completing::one_test), unfolding(machine::specs::Completions::completed, machine::specs::Completions::complete_refusal))]
pub fn complete_in(b: &mut State, store: &mut [u8], packet: &[u8]) -> Answer
    ensures tables { (cells : List ℕ) → held_of cells b.new store.new ≡ completed (held_of cells b.old store.old) packet.now }
    ensures answer { (cells : List ℕ) → answer_of result ≡ plain (complete_refusal (bridge_of cells b.old) (length store.old) packet.now) }
{
    if store.len() < STORE_SIZE {
        return b.core.refuse(Refusal::TooShort);
    }
    match completion_of(packet) {
        Ok(h) => header_in(b, store, h, &packet[12..]),
        Err(_) => b.core.refuse(Refusal::Malformed),
    }
}

// A completion for a memory read's piece: what the verdict says is done.
ghost use Rattle.std.specs.Prelude.{◌≡◌, true, List, ℕ, ◌*◌, ◌%◌, ◌≤◌, ◌<◌, length, get_or};
ghost use Rattle.parts.specs.Sizes.{tag_count, store_size};
ghost use Rattle.parts.specs.Code.Struct.{places_of};
ghost use Rattle.machine.specs.State.{is_open};
ghost use Rattle.machine.specs.Completions.{memory_completed};
ghost use Rattle.machine.specs.Code.Expected.{Fits};
ghost use Rattle.machine.specs.Code.Tables.{held_of};

use moves::pieces::OpenPiece;
use parts::State;
use parts::read_slot::ReadSlot;
use tlp::completion::Completion;
use verdict::Verdict;

#[tactic(auto, unfolding(machine::specs::Completions::memory_completed))]
pub fn memory_in(
    b: &mut State,
    store: &mut [u8],
    payload: &[u8],
    h: Completion,
    k: ReadSlot,
    v: Verdict,
)
    requires { (store_size ≤ length store.old) × ((h.tag < tag_count) × ((is_open (get_or b.old.missing h.tag 0) (get_or (places_of b.old.tags) h.tag 0) ≡ true) × ((length payload.now ≡ 4 * h.length) × Fits h (get_or b.old.missing h.tag 0) v))) }
    ensures { (cells : List ℕ) → held_of cells b.new store.new ≡ memory_completed (held_of cells b.old store.old) h.tag k.number (h.lower % 4) payload.now v }
{
    let piece = OpenPiece {
        tag: h.tag,
        slot: k,
    };
    match v {
        Verdict::Unexpected => {}
        Verdict::Good(n) => piece.good(b, store, payload, (h.lower % 4) as usize, n),
        Verdict::Poisoned(n) => piece.poisoned(b, store, n),
        Verdict::Failed(why) => piece.failed(b, store, why),
    }
}

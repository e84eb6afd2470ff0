// A memory read is opened: its slot, and a piece and its header at a time.
ghost use Rattle.std.specs.Prelude.{◌≡◌, List, [], false, ℕ, ◌+◌, ◌^◌, ◌≤◌, ◌<◌, length};
ghost use Rattle.std.proofs.Math.Seq.{paste};
ghost use Rattle.tags.specs.Tags.{lowest};
ghost use Rattle.address.specs.Windows.{axi, translated};
ghost use Rattle.burst.specs.Bursts.{length_of};
ghost use Rattle.burst.specs.Pieces.{piece_count};
ghost use Rattle.packets.specs.Packets.{piece_of, place_in, memory_request, packet};
ghost use Rattle.parts.specs.Sizes.{tag_count};
ghost use Rattle.parts.specs.Pendings.{memory_pending};
ghost use Rattle.machine.specs.State.{opened};
ghost use Rattle.machine.specs.Memory.{claimed};
ghost use Rattle.machine.specs.Code.Tables.{bridge_of};

use crate::tagged::open;
use address::AxiAddress;
use burst::Burst;
use packets::{Shift, head_of, memory_request};
use parts::read_slot::ReadSlot;
use parts::{OPEN, Pending, SLOT_SIZE, SlotRow, State};

// A memory read that is being opened: its slot, the shift of its window, its burst, and how many bytes that covers.
#[derive(Clone, Copy, Debug, PartialEq, Eq)]
pub struct Opening {
    pub slot: u32,
    pub shift: Shift,
    pub burst: Burst,
    pub bytes: u32,
}

impl Opening {
    // The k-th piece is opened, and its header sent; where the next packet goes.
    // Kept: a place in the area, as in `put_packet`; the clause `area` says what stays.
    pub fn turn(self, b: &mut State, k: u32, area: &mut [u8], at: usize) -> usize
        requires { (lowest tag_count b.old.core.free < tag_count) × ((self.bytes ≡ length_of self.burst) × ((self.burst.start.0 + self.bytes ≤ 2 ^ 64) × ((k < piece_count b.old.settings.reads self.burst.start.0 self.bytes) × (at + 16 ≤ length area.old)))) }
        ensures tables { (cells : List ℕ) → bridge_of cells b.new ≡ opened (memory_pending self.slot (place_in self.burst (piece_of b.old.settings.reads self.burst k)) (piece_of b.old.settings.reads self.burst k).length (translated self.shift.base self.shift.target (axi (piece_of b.old.settings.reads self.burst k).first)).0) (bridge_of cells b.old) }
        ensures at { result ≡ at + length (packet (memory_request false b.old.settings.requester (lowest tag_count b.old.core.free) (translated self.shift.base self.shift.target (axi (piece_of b.old.settings.reads self.burst k).first)).0 (piece_of b.old.settings.reads self.burst k).length) []) }
        ensures area { area.new ≡ paste area.old at (packet (memory_request false b.old.settings.requester (lowest tag_count b.old.core.free) (translated self.shift.base self.shift.target (axi (piece_of b.old.settings.reads self.burst k).first)).0 (piece_of b.old.settings.reads self.burst k).length) []) (length (packet (memory_request false b.old.settings.requester (lowest tag_count b.old.core.free) (translated self.shift.base self.shift.target (axi (piece_of b.old.settings.reads self.burst k).first)).0 (piece_of b.old.settings.reads self.burst k).length) [])) }
    {
        let start = self.burst.start.0;
        let p = burst::piece_at(b.settings.reads, start, self.bytes, k);
        let a = self.shift.translate(AxiAddress(p.first));
        let tag = tags::lowest(b.core.free);
        let h = head_of(memory_request(false, b.settings.requester, tag, a, p.length));
        let end = at + h.length;
        area[at..end].copy_from_slice(&h.bytes[..h.length]);
        let place = (p.first - start) as u32;
        open(b, Pending::memory(self.slot, place, p.length, a.0));
        end
    }
}

// A slot waits for a burst, which is accepted in this session.
#[tactic(auto, unfolding(machine::specs::Memory::claimed))]
pub fn claim(b: &mut State, slot: ReadSlot, q: Burst)
    ensures tables { (cells : List ℕ) → bridge_of cells b.new ≡ claimed slot.number q (bridge_of cells b.old) }
    ensures core { b.new.core ≡ b.old.core }
{
    let n = q.length();
    b.slots[slot.number] = SlotRow {
        state: OPEN,
        size: n,
        pieces: burst::piece_count(b.settings.reads, q.start.0, n),
        fault: SLOT_SIZE as u32,
        cause: 0,
        session: b.core.session,
    };
}

// The verbs on tags.
ghost use Rattle.std.specs.Prelude.{◌≡◌, List, ℕ, ◌<◌, ◌+◌, ◌≤◌, get_or};
ghost use Rattle.tags.specs.Tags.{lowest};
ghost use Rattle.burst.specs.Words.{lower_address};
ghost use Rattle.parts.specs.Sizes.{tag_count, slot_size};
ghost use Rattle.parts.specs.Code.Struct.{places_of};
ghost use Rattle.machine.specs.State.{opened, counted, shut, freed};
ghost use Rattle.machine.specs.Code.Tables.{bridge_of};

use parts::{Pending, State, TagRow};

// The lowest free tag is open for what a request asks for, sent now.
#[tactic(auto, unfolding(machine::specs::State::opened))]
pub fn open(b: &mut State, p: Pending)
    requires { lowest tag_count b.old.core.free < tag_count }
    ensures { (cells : List ℕ) → bridge_of cells b.new ≡ opened p (bridge_of cells b.old) }
{
    let tag = tags::lowest(b.core.free);
    let t = tag as usize;
    b.missing[t] = p.missing;
    b.tags[t] = TagRow {
        sent: b.core.ticks,
        owner: p.slot,
        place: p.place,
        next: p.next,
        kind: p.kind,
    };
    b.core.free = tags::taken(b.core.free, tag);
}

// A tag is no longer open.
#[tactic(auto, unfolding(machine::specs::State::shut))]
pub fn shut(b: &mut State, t: usize)
    requires { t < tag_count }
    ensures tables { (cells : List ℕ) → bridge_of cells b.new ≡ shut t (bridge_of cells b.old) }
    ensures core { b.new.core ≡ b.old.core }
{
    b.missing[t] = 0;
}

// A tag is free.
#[tactic(auto, unfolding(machine::specs::State::freed))]
pub fn free(b: &mut State, tag: u32)
    ensures { (cells : List ℕ) → bridge_of cells b.new ≡ freed tag (bridge_of cells b.old) }
{
    b.core.free = tags::freed(b.core.free, tag);
}

// The lower address n bytes on.
pub fn lower_after(next: u32, n: u32) -> u32
    requires { n ≤ slot_size }
    ensures { result ≡ lower_address (next + n) }
{
    (next % 128 + n) % 128
}

// n bytes more have come for a tag.
#[tactic(auto, unfolding(machine::specs::State::counted))]
pub fn count(b: &mut State, t: usize, n: u32)
    requires { (t < tag_count) × ((n ≤ get_or b.old.missing t 0) × (get_or (places_of b.old.tags) t 0 + n ≤ slot_size)) }
    ensures tables { (cells : List ℕ) → bridge_of cells b.new ≡ counted t n (bridge_of cells b.old) }
    ensures core { b.new.core ≡ b.old.core }
{
    let row = b.tags[t];
    b.missing[t] -= n;
    b.tags[t] = TagRow {
        place: row.place + n,
        next: lower_after(row.next, n),
        ..row
    };
}

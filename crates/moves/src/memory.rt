// What refuses a memory burst.
ghost use Rattle.std.specs.Prelude.{◌≡◌, List, ℕ, Ok, Some};
ghost use Rattle.refusals.specs.Refusals.{number_in};
ghost use Rattle.parts.specs.declared.read_slot.ReadSlot.{ReadSlot};
ghost use Rattle.parts.specs.Code.Struct.{core_from, slot_or_none};
ghost use Rattle.machine.specs.Refusals.{read_number};
ghost use Rattle.machine.specs.State.{free_slot};
ghost use Rattle.machine.specs.Memory.{read_refusal, write_refusal};
ghost use Rattle.machine.specs.Code.Tables.{bridge_of};

use burst::Burst;
use packets::no_window;
use parts::read_slot::ReadSlot;
use parts::{AREA_SIZE, OPEN, SLOTS, State};
use refusals::Refusal;

// The slot of a read, whose lowest free slot is given, if there is one.
#[tactic(auto)]
pub fn check_read(b: &State, slot: Option<usize>, q: Burst, room: usize) -> Result<usize, Refusal>
    ensures number { (cells : List ℕ) → number_in result ≡ read_number b.now.settings (core_from b.now.core cells) (slot_or_none slot) q room }
    ensures slot { (k : ℕ) → result ≡ Ok k → slot ≡ Some k }
{
    if room < AREA_SIZE {
        return Err(Refusal::TooShort);
    }
    q.check()?;
    if no_window(b.settings.windows, q.start) {
        return Err(Refusal::NoWindow);
    }
    if !b.core.registers.link {
        return Err(Refusal::LinkDown);
    }
    if b.core.config.state == OPEN && !b.core.config.write {
        return Err(Refusal::ConfigBusy);
    }
    let k = match slot {
        Some(k) if k < SLOTS => k,
        _ => return Err(Refusal::SlotsUsed),
    };
    let pieces = burst::piece_count(b.settings.reads, q.start.0, q.length());
    if tags::available(b.core.free) < pieces {
        return Err(Refusal::FewTags);
    }
    Ok(k)
}

// The slot of a read: the lowest that is free.
#[tactic(auto, unfolding(machine::specs::Memory::read_refusal))]
pub fn read_slot(b: &State, q: Burst, room: usize) -> Result<ReadSlot, Refusal>
    ensures number { (cells : List ℕ) → number_in result ≡ read_refusal (bridge_of cells b.now) q room }
    ensures slot { (cells : List ℕ) (k : ReadSlot) → result ≡ Ok k → k.number ≡ free_slot (bridge_of cells b.now) }
{
    let k = check_read(b, b.free_slot(), q, room)?;
    Ok(ReadSlot { number: k })
}

// Whether a write of len bytes may be sent.
#[tactic(auto, unfolding(machine::specs::Memory::write_refusal))]
pub fn check_write(b: &State, q: Burst, len: usize, room: usize) -> Result<(), Refusal>
    ensures { (cells : List ℕ) → number_in result ≡ write_refusal (bridge_of cells b.now) q len room }
{
    if room < AREA_SIZE {
        return Err(Refusal::TooShort);
    }
    q.check()?;
    if no_window(b.settings.windows, q.start) {
        return Err(Refusal::NoWindow);
    }
    q.check_data(len)?;
    if !b.core.registers.link {
        return Err(Refusal::LinkDown);
    }
    Ok(())
}

// Taking a finished answer: a look, and a release.
ghost use Rattle.std.specs.Prelude.{◌≡◌, List, ℕ, length};
ghost use Rattle.refusals.specs.Refusals.{number_in};
ghost use Rattle.parts.specs.Code.Struct.{answer_of};
ghost use Rattle.machine.specs.State.{answered};
ghost use Rattle.machine.specs.Take.{take_refusal, looked, release_step};
ghost use Rattle.machine.specs.Code.Tables.{bridge_of};

use parts::answers::response_of;
use parts::numbers::{take_refusal, within_slot};
use parts::{Accepted, Answer, CONFIG_SLOT, ConfigSlot, FREE, Figures, SLOT_SIZE, SlotRow, State};
use refusals::Refusal;

// Whether a look or a release at a slot is accepted.
pub fn check_take(b: &State, store: &[u8], slot: u32) -> Result<(), Refusal>
    ensures { (cells : List ℕ) → number_in result ≡ take_refusal (bridge_of cells b.now) (length store.now) slot }
{
    take_refusal(store.len(), b.state_in(slot))
}

// The part of the store that holds a finished read.
pub fn look_in<'a>(b: &State, store: &'a [u8], slot: u32) -> &'a [u8]
    ensures { (cells : List ℕ) → result.now ≡ looked (bridge_of cells b.now) store.now slot }
{
    match check_take(b, store, slot) {
        Ok(()) if slot < CONFIG_SLOT => {
            let k = slot as usize;
            let at = SLOT_SIZE * k;
            let n = within_slot(b.slots[k].size);
            &store[at..at + n]
        }
        _ => &store[..0],
    }
}

// A finished slot is free, and its response, data word and figures are handed out.
pub fn release_in(b: &mut State, store: &[u8], slot: u32) -> Answer
    ensures { (cells : List ℕ) → answered (bridge_of cells b.new) (answer_of result) ≡ release_step (bridge_of cells b.old) (length store.now) slot }
{
    if let Err(why) = check_take(b, store, slot) {
        return b.core.refuse(why);
    }
    if slot < CONFIG_SLOT {
        let k = slot as usize;
        let row = b.slots[k];
        b.slots[k] = SlotRow { state: FREE, ..row };
        let figures = Figures {
            session: row.session,
        };
        return Ok(Accepted::taken(response_of(row.cause), 0, figures));
    }
    let c = b.core.config;
    b.core.config = ConfigSlot::free();
    Ok(Accepted::taken(response_of(c.response), c.word, c.figures))
}

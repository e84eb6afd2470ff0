// The number of a read slot, as a type.
ghost use Rattle.std.specs.Prelude.{◌≡◌, ◌<◌, ◌≤◌, IfNone, IfSome};
ghost use Rattle.parts.specs.Sizes.{slot_count};

use crate::{SLOTS, TagRow};

// A read slot's number: the configuration slot is none.
#[derive(Clone, Copy, Debug, PartialEq, Eq)]
pub struct ReadSlot {
    pub number: usize,
    pub ghost in_range: { number < slot_count },
}

impl TagRow {
    // The read slot that the request is for, unless it is for the configuration slot.
    pub fn read_slot(self) -> Option<ReadSlot>
        ensures slot { IfSome result (λ k. k.number ≡ self.owner) }
        ensures config { IfNone result (slot_count ≤ self.owner) }
    {
        let k = self.owner as usize;
        if k < SLOTS {
            Some(ReadSlot { number: k })
        } else {
            None
        }
    }
}

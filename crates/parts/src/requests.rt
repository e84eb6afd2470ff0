// What is kept of a request by its tag.
ghost use Rattle.std.specs.Prelude.{◌≡◌};
ghost use Rattle.parts.specs.Pendings.{memory_pending, word_pending};

use crate::{CONFIG_READ, CONFIG_SLOT, CONFIG_WRITE, MEMORY_READ, Pending};

impl Pending {
    // Of a memory read's piece, whose first byte has this PCIe address.
    pub fn memory(slot: u32, place: u32, missing: u32, address: u64) -> Pending
        ensures { result ≡ memory_pending slot place missing address }
    {
        Pending {
            slot,
            place,
            missing,
            next: (address % 128) as u32,
            kind: MEMORY_READ,
        }
    }

    // Of a configuration access.
    pub fn word(write: bool) -> Pending
        ensures { result ≡ word_pending write }
    {
        Pending {
            slot: CONFIG_SLOT,
            place: 0,
            missing: 4,
            next: 0,
            kind: if write { CONFIG_WRITE } else { CONFIG_READ },
        }
    }
}

// The bridge's state and its small parts, and the decisions on them.
#![tactic(auto)]

pub mod access;
pub mod answers;
pub mod cores;
pub mod numbers;
pub mod read_slot;
pub mod requests;

use address::Settings;
use ecam::registers::Registers;
use refusals::{Refusal, Response};

// How many tags and read slots, and how long a slot, the store and the sending area.
pub const TAGS: usize = 32;

pub const SLOTS: usize = 8;

pub const SLOT_SIZE: usize = 4096;

pub const STORE_SIZE: usize = 32768;

pub const AREA_SIZE: usize = 4608;

// The configuration slot's number.
pub const CONFIG_SLOT: u32 = 8;

// The state of a slot.
// Kept as numbers, and below a slot's response, fault and cause and a tag's owner: they stand in public fields of a bridge, whose
// methods answer for every value there (`release_step`).
pub const FREE: u32 = 0;

pub const OPEN: u32 = 1;

pub const FINISHED: u32 = 2;

// The kind of a request that waits for completions.
// Kept as numbers, as the state of a slot is (`verdict_of`).
pub const MEMORY_READ: u32 = 0;

pub const CONFIG_READ: u32 = 1;

pub const CONFIG_WRITE: u32 = 2;

// The figures of a kept answer. Only an accepted release reports them; every other answer has 0 for each.
#[derive(Clone, Copy, Debug, PartialEq, Eq)]
pub struct Figures {
    // The session in which the access was accepted.
    pub session: u32,
}

// The configuration slot.
#[derive(Clone, Copy, Debug, PartialEq, Eq)]
pub struct ConfigSlot {
    // FREE, OPEN or FINISHED.
    pub state: u32,
    pub write: bool,
    // The finished access's response, in AXI's coding.
    pub response: u32,
    pub word: u32,
    pub figures: Figures,
}

// What is kept of a request by its tag: the slot of its bytes (8 for configuration), their place there, how many, the PCIe
// address of the first mod 128, and the kind.
#[derive(Clone, Copy, Debug, PartialEq, Eq)]
pub struct Pending {
    pub slot: u32,
    pub place: u32,
    pub missing: u32,
    pub next: u32,
    pub kind: u32,
}

// The registers and what else is kept once. The queued error messages stand in cells that are lent beside it.
#[derive(Clone, Copy, Debug, PartialEq, Eq)]
pub struct Core {
    pub registers: Registers,
    pub ticks: u32,
    // How often a down link went up; it starts again at zero after its last value.
    pub session: u32,
    // The free tags, as the ones of a word.
    pub free: u32,
    pub config: ConfigSlot,
}

// What is kept by a tag beside its missing count.
#[derive(Clone, Copy, Debug, PartialEq, Eq)]
pub struct TagRow {
    // The tick of sending.
    pub sent: u32,
    // The slot, 8 for configuration.
    pub owner: u32,
    // The place in the slot of the next byte.
    pub place: u32,
    // The PCIe address of the next byte mod 128.
    pub next: u32,
    pub kind: u32,
}

// What is kept by a read slot.
#[derive(Clone, Copy, Debug, PartialEq, Eq)]
pub struct SlotRow {
    // FREE, OPEN or FINISHED.
    pub state: u32,
    // The burst's length.
    pub size: u32,
    // The open pieces.
    pub pieces: u32,
    // The place of the first failure, 4,096 for none, and its response in AXI's coding, 0 for none.
    pub fault: u32,
    pub cause: u32,
    // The session in which the read was accepted.
    pub session: u32,
}

// A bridge but for the cells of its queued error messages, which few events look at.
#[derive(Clone, Copy, Debug, PartialEq, Eq)]
pub struct State {
    pub settings: Settings,
    pub core: Core,
    // By tag: the bytes still missing, 0 where the tag is not open. Kept: beside the rows, since a tick looks through them alone.
    pub missing: [u32; TAGS],
    pub tags: [TagRow; TAGS],
    pub slots: [SlotRow; SLOTS],
}

// What an accepted event answers.
#[derive(Clone, Copy, Debug, PartialEq, Eq)]
pub struct Accepted {
    pub response: Response,
    pub slot: u32,
    // How many bytes were sent.
    pub length: usize,
    pub word: u32,
    pub figures: Figures,
}

pub type Answer = Result<Accepted, Refusal>;

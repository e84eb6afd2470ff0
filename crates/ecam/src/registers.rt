// The registers behind the local words, and the words.
ghost use Rattle.std.specs.Prelude.{◌≡◌, cond, not, ◌&&◌, List, ℕ, ◌+◌, ◌^◌, ◌<◌};
ghost use Rattle.bits.specs.Bits.{is_set, from_bits};
ghost use Rattle.messages.specs.Layout.{entry_of};
ghost use Rattle.messages.specs.Code.Cells.{cells_after};
ghost use Rattle.messages.specs.Code.Message.{IsMessage};
ghost use Rattle.ecam.specs.Registers.{fresh, strobe, strobed, reached, clears, numbered, shown, cleared, masked, error_fifo_overflow, status, local_read, local_write, raised, with_decode, messaged, line};
ghost use Rattle.ecam.specs.Code.Struct.{registers_from};

use messages::layout::ErrorMessage;
use messages::queue::{DEPTH, Ring};

#[derive(Clone, Copy, Debug, PartialEq, Eq)]
pub struct Registers {
    pub primary: u32,
    pub secondary: u32,
    pub subordinate: u32,
    pub disable: bool,
    pub decode: u32,
    pub mask: u32,
    pub link: bool,
    // The queued error messages, whose entries stand in cells of their own.
    pub errors: Ring,
    // A message was dropped.
    pub overflow: bool,
}

// The local words.
const BUS_NUMBERS: u32 = 0x018;

const BRIDGE_INFO: u32 = 0x130;

const STATUS_AND_CONTROL: u32 = 0x134;

const INTERRUPT_DECODE: u32 = 0x138;

const INTERRUPT_MASK: u32 = 0x13C;

const PHY_STATUS: u32 = 0x144;

const STATUS_CONTROL: u32 = 0x148;

const ERROR_FIFO_READ: u32 = 0x154;

// Bits 0, 8 to 11 and 20 to 25.
const DECODE: u32 = 0x03F0_0F01;

// All but bits 9 to 11.
const NO_ERRORS: u32 = 0xFFFF_F1FF;

// Bits 16 and 17 of 148.
const FIFO_NOT_EMPTY: u32 = 0x0001_0000;

const FIFO_OVERFLOW: u32 = 0x0002_0000;

const OVERFLOW_BIT: u32 = 17;

// What 138 and 13C show of a word.
#[tactic(auto, using(crate::proofs::Words::shown_is))]
fn show(w: u32) -> u32
    ensures { result ≡ shown w }
{
    w & DECODE
}

// A write to a local word, whose strobes choose bytes of its data.
#[derive(Clone, Copy, Debug, PartialEq, Eq)]
struct Write {
    strobes: u32,
    data: u32,
}

impl Write {
    #[tactic(auto, unfolding(crate::specs::Registers::strobe))]
    fn strobe(self, j: u32) -> bool
        ensures { result ≡ strobe self.strobes j }
    {
        bits::is_set(self.strobes % 16, j)
    }

    // The bits of the strobed bytes.
    #[tactic(auto, using(crate::proofs::Words::lanes_are))]
    fn lanes(self) -> u32
        ensures { result ≡ from_bits 32 (strobed self.strobes) }
    {
        let s = self.strobes % 16;
        (s % 2) * 0x0000_00FF
            + (s / 2 % 2) * 0x0000_FF00
            + (s / 4 % 2) * 0x00FF_0000
            + (s / 8 % 2) * 0xFF00_0000
    }

    // The bits of 138 and 13C that it reaches.
    #[tactic(auto, using(crate::proofs::Words::reach_is))]
    fn reach(self) -> u32
        ensures { result ≡ from_bits 32 (reached self.strobes) }
    {
        self.lanes() & DECODE
    }

    // The bits of 138 that a written one clears: 9 to 11 only while the queue is empty.
    #[tactic(auto, using(crate::proofs::Words::clearing_all, crate::proofs::Words::clearing_others))]
    fn clearing(self, empty: bool) -> u32
        ensures { result ≡ from_bits 32 (clears empty self.strobes) }
    {
        if empty {
            self.reach()
        } else {
            self.reach() & NO_ERRORS
        }
    }

    // 138 after it.
    #[tactic(auto, using(crate::proofs::Words::cleared_is))]
    fn decode(self, empty: bool, w: u32) -> u32
        ensures { result ≡ cleared empty w self.strobes self.«data» }
    {
        w & !(self.clearing(empty) & self.data)
    }

    // 13C after it.
    #[tactic(auto, using(crate::proofs::Words::masked_is))]
    fn mask(self, w: u32) -> u32
        ensures { result ≡ masked w self.strobes self.«data» }
    {
        let m = self.reach();
        (m & self.data) | (w & !m)
    }

    // A bus number after it: byte j of the data where its strobe is on, else the number as it is.
    #[tactic(auto, unfolding(crate::specs::Registers::numbered, crate::specs::Registers::byte))]
    fn number(self, x: u32, j: u32) -> u32
        requires { j < 4 }
        ensures { result ≡ numbered x self.strobes self.«data» j }
    {
        if self.strobe(j) {
            (self.data >> (8 * j)) % 256
        } else {
            x
        }
    }

    // Bit 8 of 134 after it.
    #[tactic(auto, unfolding(crate::specs::Registers::strobed))]
    fn disable(self, x: bool) -> bool
        ensures { result ≡ cond (strobed self.strobes 8) (is_set self.«data» 8) x }
    {
        if self.strobe(1) {
            bits::is_set(self.data, 8)
        } else {
            x
        }
    }

    // The overflow flag after it.
    #[tactic(auto, unfolding(crate::specs::Registers::strobed))]
    fn overflow(self, x: bool) -> bool
        ensures { result ≡ (x && not (strobed self.strobes error_fifo_overflow && is_set self.«data» error_fifo_overflow)) }
    {
        x && !(self.strobe(OVERFLOW_BIT / 8) && bits::is_set(self.data, OVERFLOW_BIT))
    }
}

impl Registers {
    // A fresh bridge's: link down, all zero.
    #[tactic(auto, unfolding(crate::specs::Registers::fresh))]
    pub fn fresh() -> Registers
        ensures { (cells : List ℕ) → registers_from result cells ≡ fresh }
    {
        Registers {
            primary: 0,
            secondary: 0,
            subordinate: 0,
            disable: false,
            decode: 0,
            mask: 0,
            link: false,
            errors: Ring::empty(),
            overflow: false,
        }
    }

    // What 148 shows.
    #[tactic(auto, unfolding(crate::specs::Registers::status))]
    fn status(self) -> u32
        ensures { (cells : List ℕ) → result ≡ status (registers_from self cells) }
    {
        let queued = u32::from(!self.errors.is_empty());
        queued * FIFO_NOT_EMPTY + u32::from(self.overflow) * FIFO_OVERFLOW
    }

    // What a local word shows.
    #[tactic(auto, unfolding(crate::specs::Registers::local_read))]
    pub fn local_read(self, cells: &[u32; DEPTH], word: u32) -> u32
        ensures { result ≡ local_read (registers_from self cells.now) word }
    {
        match word {
            // Kept: no bytes, since the public fields may hold more than 8 bits.
            BUS_NUMBERS => {
                self.primary % 256 + self.secondary % 256 * 256 + self.subordinate % 256 * 65536
            }
            BRIDGE_INFO => 0x0000_000B,
            STATUS_AND_CONTROL => u32::from(self.disable) << 8,
            INTERRUPT_DECODE => show(self.decode),
            INTERRUPT_MASK => show(self.mask),
            PHY_STATUS => u32::from(self.link) << 11,
            STATUS_CONTROL => self.status(),
            ERROR_FIFO_READ => self.errors.oldest(cells).unwrap_or(0),
            _ => 0,
        }
    }

    // The registers after a write to a local word. No cell changes: the oldest entry goes by moving the queue's beginning.
    #[tactic(auto, unfolding(crate::specs::Registers::local_write, crate::specs::Registers::write_buses, crate::specs::Registers::write_disable, crate::specs::Registers::write_status))]
    pub fn local_write(self, word: u32, strobes: u32, data: u32) -> Registers
        ensures { (cells : List ℕ) → registers_from result cells ≡ local_write (registers_from self cells) word strobes «data» }
    {
        let write = Write { strobes, data };
        match word {
            BUS_NUMBERS => Registers {
                primary: write.number(self.primary, 0),
                secondary: write.number(self.secondary, 1),
                subordinate: write.number(self.subordinate, 2),
                ..self
            },
            STATUS_AND_CONTROL => Registers {
                disable: write.disable(self.disable),
                ..self
            },
            INTERRUPT_DECODE => Registers {
                decode: write.decode(self.errors.is_empty(), self.decode),
                ..self
            },
            INTERRUPT_MASK => Registers {
                mask: write.mask(self.mask),
                ..self
            },
            STATUS_CONTROL => Registers {
                overflow: write.overflow(self.overflow),
                ..self
            },
            ERROR_FIFO_READ => Registers {
                errors: self.errors.pop(),
                ..self
            },
            _ => self,
        }
    }

    // A cause's decode bit is set; a number that is no decode bit sets none.
    #[tactic(auto, unfolding(crate::specs::Registers::raised), using(crate::proofs::Words::decode_bits_lem))]
    pub fn raise(self, bit: u32) -> Registers
        ensures { (cells : List ℕ) → registers_from result cells ≡ with_decode (registers_from self cells) (raised self.decode bit) }
    {
        if !bits::is_set(DECODE, bit) {
            return self;
        }
        Registers {
            decode: bits::set(self.decode, bit),
            ..self
        }
    }

    // An error message came.
    #[tactic(auto, unfolding(crate::specs::Registers::messaged))]
    pub fn message(self, cells: &mut [u32; DEPTH], m: ErrorMessage) -> Registers
        ensures cells { (packet : List ℕ) → IsMessage packet m → cells.new ≡ cells_after self.errors cells.old (entry_of packet) }
        ensures registers { (packet : List ℕ) → IsMessage packet m → registers_from result cells.new ≡ messaged (registers_from self cells.old) packet }
    {
        Registers {
            overflow: self.overflow | self.errors.is_full(),
            errors: self.errors.push(cells, m.entry()),
            ..self.raise(m.decode_bit())
        }
    }

    // The interrupt line.
    #[tactic(auto, unfolding(crate::specs::Registers::line), using(crate::proofs::Words::shared_is))]
    pub fn line(self) -> bool
        ensures { (cells : List ℕ) → result ≡ line (registers_from self cells) }
    {
        !self.disable && self.decode & self.mask & DECODE != 0
    }
}

// The records of a capture: a writer, a reader of the record that bytes begin with, and a reader that is fed a file in any
// parts. docs/CAPTURE.md has the format.
#![tactic(auto)]

ghost use Rattle.std.specs.Prelude.{◌≡◌};
ghost use Rattle.records.specs.Stream.{is_reading};

pub mod file;
mod kind;
pub mod reading;
pub mod stream;
pub mod writing;

use burst::Burst;
use kind::MOST_BODY;

// An event of a capture, as far as it is numbers. A write's data and a completion's bytes are lent beside it.
#[derive(Clone, Copy, Debug, PartialEq, Eq)]
pub enum Event {
    Read(Burst),
    Write(Burst),
    // Its offset.
    ConfigRead(u64),
    // Its offset, strobes and data.
    ConfigWrite(u64, u32, u32),
    Completion,
    // Whether it goes up.
    Link(bool),
    Tick,
    Take(u32),
}

// What is wrong with a record.
#[derive(Clone, Copy, Debug, PartialEq, Eq)]
pub enum Fault {
    Kind,
    Length,
    Padding,
    Count,
}

// What bytes begin with.
#[derive(Clone, Copy, Debug, PartialEq, Eq)]
pub enum Found {
    // Nothing, or a part of a record in which no fault is known yet.
    More,
    Bad(Fault),
    // A right end record.
    End,
    // A record of an event, and its size in bytes.
    Whole(Event, usize),
}

// What a writer writes. A message has no record.
#[derive(Clone, Copy, Debug, PartialEq, Eq)]
pub enum Item {
    Event(Event),
    End(u64),
    Message,
}

// How far a reader has come.
#[derive(Clone, Copy, Debug, PartialEq, Eq)]
pub enum Phase {
    Reading,
    Ended,
    Bad(Fault),
}

impl Phase {
    pub fn is_reading(self) -> bool
        ensures { result ≡ is_reading self }
    {
        matches!(self, Phase::Reading)
    }
}

// A reader that is fed a file in parts. The bytes of a record that is not yet whole stand in a buffer that its caller lends.
#[derive(Clone, Copy, Debug, PartialEq, Eq)]
pub struct Reader {
    // Where the present record begins in the file.
    pub at: u64,
    // The events before it.
    pub events: u64,
    // How many bytes of it have come. Kept: there is no heap, so the buffer is lent and its count goes with the reader, by value.
    pub have: usize,
    pub phase: Phase,
}

// A record's kind and zero bits, and its length.
pub const HEAD: usize = 3;

// The longest record: a buffer for a reader has so many bytes.
pub const LONGEST: usize = HEAD + MOST_BODY;

// Where a write's data and a completion's bytes begin in their records.
pub const DATA_AT: usize = 13;

pub const PACKET_AT: usize = HEAD;

// Reading the records of a file in order.
ghost use Rattle.std.specs.Prelude.{◌≡◌};

use crate::record::{Kind, Record, TICKS};
use std::fmt;
use std::io::Read;
use streams::{Unfilled, WriteFailed};
use traffic_text::input::{Input, word_at};

// A part of a file.
#[derive(Clone, Copy, Debug, PartialEq, Eq)]
pub enum Part {
    Header,
    // The record of an event after so many others.
    Event(u64),
    // The end record.
    End,
}

impl fmt::Display for Part {
    fn fmt<W: fmt::Write>(&self, f: &mut fmt::Formatter<W>) -> fmt::Result {
        match self {
            Part::Header => write!(f, "header"),
            Part::Event(events) => write!(f, "event {events}"),
            Part::End => write!(f, "end"),
        }
    }
}

// The last line of a log.
#[derive(Clone, Copy, Debug, PartialEq, Eq)]
pub enum Last {
    // The file ends with a right end record after so many events.
    End(u64),
    // It ends in the part that begins at an offset.
    Cut(Part, u64),
    // That part is damaged.
    Damaged(Part, u64),
}

impl fmt::Display for Last {
    fn fmt<W: fmt::Write>(&self, f: &mut fmt::Formatter<W>) -> fmt::Result {
        match self {
            Last::End(events) => write!(f, "end {events}"),
            Last::Cut(part, at) => write!(f, "cut {part} at {at}"),
            Last::Damaged(part, at) => write!(f, "damaged {part} at {at}"),
        }
    }
}

// Why nothing more is played: a read or a write failed, as is said on standard error, or the log's last line is due.
#[derive(Clone, Copy, Debug, PartialEq, Eq)]
pub enum Stop {
    Failed,
    Done(Last),
}

impl From<WriteFailed> for Stop {
    fn from(_e: WriteFailed) -> Stop {
        Stop::Failed
    }
}

impl Stop {
    // The rest of a part that begins at an offset did not come: the file is cut there, unless the read failed.
    pub fn missed(e: Unfilled, part: Part, at: u64) -> Stop {
        match e {
            Unfilled::Ended => Stop::Done(Last::Cut(part, at)),
            Unfilled::Failed => Stop::Failed,
        }
    }
}

// Where the next record begins.
#[derive(Clone, Copy, Debug, PartialEq, Eq)]
pub struct Place {
    // The events before it.
    pub events: u64,
    // Its offset in the file.
    pub at: u64,
    // The ticks that the records before it ask for.
    pub ticks: u64,
}

impl Place {
    // Where the first record begins.
    pub fn first(at: u64) -> Place
        ensures { (result.events ≡ 0) × (result.at ≡ at) × (result.ticks ≡ 0) }
    {
        Place {
            events: 0,
            at,
            ticks: 0,
        }
    }

    // After a record.
    pub fn past(self, record: Record) -> Place {
        let fields = self
            .at
            .wrapping_add(1)
            .wrapping_add(record.kind.fixed_size() as u64);
        Place {
            events: self.events.wrapping_add(1),
            at: fields.wrapping_add(record.bytes.len() as u64),
            ticks: self.ticks_with(record),
        }
    }

    // The ticks asked for, with those of one more record.
    fn ticks_with(self, record: Record) -> u64 {
        self.ticks.wrapping_add(u64::from(record.ticks()))
    }

    fn damaged(self, part: Part) -> Stop {
        Stop::Done(Last::Damaged(part, self.at))
    }

    // The end record: its number is that of the events, and nothing follows.
    fn finish<R: Read, E: Eprint>(self, input: &mut Input<R, E>, f: &[u8]) -> Stop {
        let mut more = [0u8; 1];
        if u64::from(word_at(f, 0)) != self.events {
            return self.damaged(Part::End);
        }
        match input.fetch(&mut more, 1) {
            Ok(()) => self.damaged(Part::End),
            Err(Unfilled::Ended) => Stop::Done(Last::End(self.events)),
            Err(Unfilled::Failed) => Stop::Failed,
        }
    }

    // The record that begins here: its fixed fields to f, its variable bytes to bytes. The file's store has so many bytes.
    pub fn read<'a, R: Read, E: Eprint>(
        self,
        input: &mut Input<R, E>,
        f: &'a mut [u8],
        bytes: &'a mut [u8],
        most: usize,
    ) -> Result<Record<'a>, Stop> {
        let event = Part::Event(self.events);
        let mut first = [0u8; 1];
        input
            .fetch(&mut first, 1)
            .map_err(|e| Stop::missed(e, event, self.at))?;
        let kind = Kind::try_from(first[0]).map_err(|_| self.damaged(event))?;
        let part = if kind == Kind::End { Part::End } else { event };
        input
            .fetch(f, kind.fixed_size())
            .map_err(|e| Stop::missed(e, part, self.at))?;
        if kind == Kind::End {
            return Err(self.finish(input, f));
        }
        let begun = Record {
            kind,
            fields: f,
            bytes: &[],
        };
        if begun.is_wrong(most) || TICKS < self.ticks_with(begun) {
            return Err(self.damaged(event));
        }
        let length = begun.variable_size();
        input
            .fetch(bytes, length)
            .map_err(|e| Stop::missed(e, event, self.at))?;
        Ok(Record {
            bytes: &bytes[..length],
            ..begun
        })
    }
}

// A reader that is fed a file in any parts.
ghost use Rattle.std.specs.Prelude.{◌≡◌, true, List, ℕ, ◌+◌, ◌≤◌, ◌<◌, length, take, drop};
ghost use Rattle.records.specs.Stream.{is_reading, pushed, push, fresh, next_event};
ghost use Rattle.records.specs.Code.Meaning.{most_held, reader_of};
ghost use Rattle.records.specs.Code.Steps.{Steps, event_of, moved_on, settled, came_of, later, ReadOn};

use crate::reading::next;
use crate::{Event, Found, LONGEST, Phase, Reader};
use refusals::Refusal;

// An event that was completed, and where its record stands.
#[derive(Clone, Copy, Debug, PartialEq, Eq)]
pub enum Got {
    // In the bytes that were read, all of them.
    Here(Event),
    // In the buffer, at its start, so many bytes.
    Kept(Event, usize),
}

// How far the reader came.
#[derive(Clone, Copy, Debug, PartialEq, Eq)]
pub struct Came {
    pub reader: Reader,
    // How many bytes were read.
    pub used: usize,
    pub got: Option<Got>,
}

impl Reader {
    // A reader at the start of a file.
    pub fn fresh() -> Reader
        ensures { (buffer : List ℕ) → reader_of result buffer ≡ fresh }
    {
        Reader {
            at: 0,
            events: 0,
            have: 0,
            phase: Phase::Reading,
        }
    }

    // The reader behind an event's record.
    fn moved_on(self, size: usize) -> Reader
        ensures { result ≡ moved_on self size }
    {
        Reader {
            at: self.at.saturating_add(size as u64),
            events: self.events.saturating_add(1),
            have: 0,
            phase: Phase::Reading,
        }
    }

    // What the record so far, of so many bytes, comes to with its last byte.
    fn settled(self, have: usize, found: Found) -> Came
        ensures { result ≡ settled self have found }
    {
        let (reader, got) = match found {
            Found::More => (
                Reader {
                    have,
                    phase: Phase::Reading,
                    ..self
                },
                None,
            ),
            Found::Bad(fault) => (
                Reader {
                    have: 0,
                    phase: Phase::Bad(fault),
                    ..self
                },
                None,
            ),
            Found::End => (
                Reader {
                    have: 0,
                    phase: Phase::Ended,
                    ..self
                },
                None,
            ),
            Found::Whole(event, size) => (self.moved_on(size), Some(Got::Kept(event, size))),
        };
        Came {
            reader,
            used: 1,
            got,
        }
    }

    // One byte.
    #[tactic(auto, using(crate::proofs::Pushing::pushes, crate::proofs::Pushing::settled_one))]
    fn push(self, held: &mut [u8], b: u8) -> Came
        requires { (most_held + 1 ≤ length held.old) × (is_reading self.phase ≡ true) }
        ensures { ((bytes : List ℕ) → pushed (reader_of result.reader held.new) (event_of bytes held.new result.got) ≡ push (reader_of self held.old) b) × (result.used ≡ 1) }
    {
        let have = self.have.min(LONGEST - 1);
        held[have] = b;
        let end = have + 1;
        let found = next(self.events, &held[..end]);
        self.settled(end, found)
    }

    // A step on: an event's record that is all in the input, or else one byte.
    #[tactic(auto, using(crate::proofs::Stepping::in_place_steps, crate::proofs::Stepping::in_place_size, crate::proofs::Stepping::byte_step))]
    pub fn advance(self, held: &mut [u8], input: &[u8]) -> Came
        requires { (most_held + 1 ≤ length held.old) × ((is_reading self.phase ≡ true) × (0 < length input.now)) }
        ensures { Steps (reader_of self held.old) (take result.used input.now) (reader_of result.reader held.new) (event_of (take result.used input.now) held.new result.got) × (result.used ≤ length input.now) }
    {
        if self.have == 0 {
            if let Found::Whole(event, size) = next(self.events, input) {
                return Came {
                    reader: self.moved_on(size),
                    used: size,
                    got: Some(Got::Here(event)),
                };
            }
        }
        self.push(held, input[0])
    }

    // On from a place in the input, byte by byte, up to an event.
    fn push_on(self, held: &mut [u8], input: &[u8], from: usize) -> Came
        requires { (most_held + 1 ≤ length held.old) × (from ≤ length input.now) }
        ensures { came_of input.now held.new result ≡ later from (next_event (reader_of self held.old) (drop from input.now)) }
    {
        let mut reader = self;
        for at in from..input.len() {
            if !reader.phase.is_reading() {
                return Came {
                    reader,
                    used: at,
                    got: None,
                };
            }
            let came = reader.push(held, input[at]);
            reader = came.reader;
            if came.got.is_some() {
                return Came {
                    used: at + 1,
                    ..came
                };
            }
        }
        Came {
            reader,
            used: input.len(),
            got: None,
        }
    }

    // Reads on, up to the next event, the end, a fault or the end of the input. The buffer has LONGEST bytes or more, else the call
    // is refused; what it holds goes with the reader from call to call.
    pub fn read_on(self, held: &mut [u8], input: &[u8]) -> Result<Came, Refusal>
        ensures { ReadOn self held.old input.now held.new result }
    {
        if held.len() < LONGEST {
            return Err(Refusal::TooShort);
        }
        if input.is_empty() || !self.phase.is_reading() {
            return Ok(Came {
                reader: self,
                used: 0,
                got: None,
            });
        }
        let first = self.advance(held, input);
        if first.got.is_some() {
            return Ok(first);
        }
        Ok(first.reader.push_on(held, input, first.used))
    }
}

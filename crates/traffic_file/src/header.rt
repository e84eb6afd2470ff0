// The header of a file. In version 2 one more window follows it, in version 3 a window and a first session value.
ghost use Rattle.std.specs.Prelude.{◌≡◌, ◌≤◌};
ghost use Rattle.traffic_file.specs.Header.{is_list, more_size, store_size, is_right, start_of};

use crate::reading::{Last, Part, Place, Stop};
use crate::record::STORE;
use std::io::Read;
use traffic_text::input::{Input, word_at};

// The bytes of the header, of the window after it, and of all that may follow it.
pub const HEADER: usize = 184;

pub const WINDOW: usize = 24;

pub const MORE: usize = 28;

// A header, and what follows it; zeros where its version has less.
#[derive(Clone, Copy)]
pub struct Header<'a> {
    pub bytes: &'a [u8],
    pub more: &'a [u8],
}

impl Header<'_> {
    // Versions 2 and 3 ask for a list, version 1 for plain arrays.
    pub fn is_list(self) -> bool
        ensures { result ≡ is_list self.entry.bytes.now }
    {
        matches!(word_at(self.bytes, 4), 2 | 3)
    }

    // The bytes that follow the header.
    fn more_size(self) -> usize
        ensures { (result ≡ more_size self.entry.bytes.now) × (result ≤ 28) }
    {
        match word_at(self.bytes, 4) {
            2 => WINDOW,
            3 => MORE,
            _ => 0,
        }
    }

    // The length of the store.
    pub fn store_size(self) -> usize
        ensures { result ≡ store_size self.entry.bytes.now }
    {
        word_at(self.bytes, 180) as usize
    }

    // Where the first record begins.
    pub fn start(self) -> Place
        ensures { (result.events ≡ 0) × (result.at ≡ start_of self.entry.bytes.now) × (result.ticks ≡ 0) }
    {
        Place::first((HEADER + self.more_size()) as u64)
    }

    // The magic, the version and the length of the store.
    fn is_right(self) -> bool
        ensures { result ≡ is_right self.entry.bytes.now }
    {
        word_at(self.bytes, 0) == 0x41504254
            && (word_at(self.bytes, 4) == 1 || self.is_list())
            && self.store_size() <= STORE
    }

    // Reads the header and what follows it into buffers of zeros.
    pub fn read<'a, R: Read, E: Eprint>(
        input: &mut Input<R, E>,
        bytes: &'a mut [u8],
        more: &'a mut [u8],
    ) -> Result<Header<'a>, Stop> {
        input
            .fetch(bytes, HEADER)
            .map_err(|e| Stop::missed(e, Part::Header, 0))?;
        let alone = Header { bytes, more: &[] };
        if !alone.is_right() {
            return Err(Stop::Done(Last::Damaged(Part::Header, 0)));
        }
        input
            .fetch(more, alone.more_size())
            .map_err(|e| Stop::missed(e, Part::Header, 0))?;
        Ok(Header { more, ..alone })
    }
}

// Numbers in a file's bytes, most significant byte first, and reading the bytes. Past the end of a slice its bytes count as 0.
ghost use Rattle.std.specs.Prelude.{◌≡◌, ◌^◌, ◌<◌, ◌≤◌, ◌==◌, length, take, OnOk};
ghost use Rattle.std.specs.Io.KnownBytes.{Consumes};
ghost use Rattle.traffic_text.specs.Numbers.{byte_at, word_at, long_at};

use std::io::Read;
use streams::Unfilled;

// What a file is read from, and where a read that fails is said.
#[derive(Drop)]
pub struct Input<'a, R, E> {
    pub reader: R,
    pub rt: &'a E,
}

impl<R: Read, E: Eprint> Input<'_, R, E> {
    // The next n bytes of the file, to the front of a buffer that has room for them.
    pub fn fetch(&mut self, buffer: &mut [u8], n: usize) -> Result<(), Unfilled>
        ensures room { OnOk result (n ≤ length buffer.new) }
        ensures all { OnOk result (Consumes (R.remaining self.old.reader) (R.remaining self.new.reader) (take n buffer.new)) }
    {
        if buffer.len() < n {
            return Err(Unfilled::Ended);
        }
        streams::read_all(&mut self.reader, self.rt, &mut buffer[..n])
    }
}

fn at(s: &[u8], i: usize) -> u8
    ensures { result ≡ byte_at s.now i }
{
    s.get(i).copied().unwrap_or(0)
}

pub fn byte_at(s: &[u8], i: usize) -> u32
    ensures { (result ≡ byte_at s.now i) × (result < 2 ^ 8) }
{
    u32::from(at(s, i))
}

pub fn flag_at(s: &[u8], i: usize) -> bool
    ensures { result ≡ (byte_at s.now i == 1) }
{
    at(s, i) == 1
}

pub fn word_at(s: &[u8], i: usize) -> u32
    ensures { result ≡ word_at s.now i }
{
    if s.len() <= i {
        return 0;
    }
    u32::from_be_bytes([at(s, i), at(s, i + 1), at(s, i + 2), at(s, i + 3)])
}

pub fn long_at(s: &[u8], i: usize) -> u64
    ensures { result ≡ long_at s.now i }
{
    if s.len() <= i {
        return 0;
    }
    (u64::from(word_at(s, i)) << 32) + u64::from(word_at(s, i + 4))
}

// What a burst covers, its cut at a limit, and the words and byte enables of its pieces.
#![tactic(auto)]

ghost use Rattle.std.specs.Prelude.{◌≡◌, ◌+◌, ◌*◌, ◌^◌, ◌≤◌, ◌<◌, min, length};
ghost use Rattle.std.proofs.Math.Seq.{paste};
ghost use Rattle.refusals.specs.Refusals.{number_in};
ghost use Rattle.burst.specs.Bursts.{end_from, burst_right, burst_number, length_of, data_number};
ghost use Rattle.burst.specs.Pieces.{piece_count, piece_at, Within};
ghost use Rattle.burst.specs.Words.{word_address, word_count, enables, first_enables, last_enables, words_of};

use address::AxiAddress;
use common::copy_at;
use refusals::Refusal;

// A burst: its start, size code, number of beats and type.
// Kept: numbers for size code, beats and type, since any may be given, and burst_number refuses the wrong ones with 3.
#[derive(Clone, Copy, Debug, PartialEq, Eq)]
pub struct Burst {
    pub start: AxiAddress,
    pub size: u32,
    pub beats: u32,
    pub kind: u32,
}

// A part of a burst that goes into one packet: the address of its first byte, and its bytes.
#[derive(Clone, Copy, Debug, PartialEq, Eq)]
pub struct Piece {
    pub first: u64,
    pub length: u32,
}

// Where beats from a start in the first page end.
fn end_from(start: u64, size: u32, beats: u32) -> u64
    requires { (start < 4096) × ((size ≤ 5) × (beats ≤ 256)) }
    ensures { result ≡ end_from start size beats }
{
    let beat: u64 = 1 << size;
    start / beat * beat + u64::from(beats) * beat
}

impl Burst {
    // Whether the type, the size, the beats and the page are right.
    #[tactic(auto, using(crate::proofs::Covers::end_in_page), unfolding(crate::specs::Bursts::burst_right))]
    fn right(self) -> bool
        ensures { result ≡ burst_right self }
    {
        if self.kind != 1 || 5 < self.size || self.beats < 1 || 256 < self.beats {
            return false;
        }
        end_from(self.start.0 % 4096, self.size, self.beats) <= 4096
    }

    // Refused where the type, the size, the beats or the page is wrong.
    #[tactic(auto, unfolding(crate::specs::Bursts::burst_number))]
    pub fn check(self) -> Result<(), Refusal>
        ensures { number_in result ≡ burst_number self }
    {
        if self.right() {
            Ok(())
        } else {
            Err(Refusal::WrongBurst)
        }
    }

    // How many bytes it covers: none if it is refused.
    pub fn length(self) -> u32
        ensures { (result ≡ length_of self) × ((result ≤ 4096) × (self.start.0 + result ≤ 2 ^ 64)) }
    {
        if !self.right() {
            return 0;
        }
        let low = self.start.0 % 4096;
        (end_from(low, self.size, self.beats) - low) as u32
    }

    // Refused where write data has another length.
    #[tactic(auto, unfolding(crate::specs::Bursts::data_number))]
    pub fn check_data(self, len: usize) -> Result<(), Refusal>
        ensures { number_in result ≡ data_number self len }
    {
        if len == self.length() as usize {
            Ok(())
        } else {
            Err(Refusal::WrongData)
        }
    }
}

// How many pieces n bytes from a start have.
// Kept: limit, start and length are three numbers and no struct: each caller would build it for one call from settings and burst.
pub fn piece_count(limit: u32, start: u64, n: u32) -> u32
    ensures { result ≡ piece_count limit start n }
{
    if limit == 0 {
        return 1;
    }
    if n == 0 {
        return 1;
    }
    let l = u64::from(limit);
    ((start % l + (u64::from(n) - 1)) / l + 1) as u32
}

// The k-th of these pieces.
pub fn piece_at(limit: u32, start: u64, n: u32, k: u32) -> Piece
    requires { (start + n ≤ 2 ^ 64) × (k < piece_count limit start n) }
    ensures { (result ≡ piece_at limit start n k) × Within start n result }
{
    if limit == 0 {
        return Piece {
            first: start,
            length: 0,
        };
    }
    let l = u64::from(limit);
    let low = start % l;
    if k == 0 {
        return Piece {
            first: start,
            length: n.min(limit - (low as u32)),
        };
    }
    let from = u64::from(k) * l - low;
    Piece {
        first: start + from,
        length: (n - (from as u32)).min(limit),
    }
}

// The address of the word that holds a byte.
#[tactic(auto, unfolding(crate::specs::Words::word_address))]
pub fn word_address(a: u64) -> u64
    ensures { result ≡ word_address a }
{
    a / 4 * 4
}

// How many words n bytes touch.
#[tactic(auto, unfolding(crate::specs::Words::word_count))]
pub fn word_count(a: u64, n: u32) -> u32
    ensures { result ≡ word_count a n }
{
    ((a % 4 + u64::from(n) + 3) / 4) as u32
}

fn enables_of(from: u32, to: u32) -> u32
    requires { (from ≤ to) × (to ≤ 4) }
    ensures { result ≡ enables from to }
{
    (1 << to) - (1 << from)
}

// The byte enables of the first word.
#[tactic(auto, unfolding(crate::specs::Words::first_enables))]
pub fn first_enables(a: u64, n: u32) -> u32
    ensures { result ≡ first_enables a n }
{
    let from = (a % 4) as u32;
    if n < 4 - from {
        return enables_of(from, from + n);
    }
    enables_of(from, 4)
}

// The byte enables of the last word, 0 where it is the first.
#[tactic(auto, unfolding(crate::specs::Words::word_count, crate::specs::Words::last_enables))]
pub fn last_enables(a: u64, n: u32) -> u32
    ensures { result ≡ last_enables a n }
{
    if word_count(a, n) <= 1 {
        return 0;
    }
    enables_of(0, ((a % 4 + u64::from(n) + 3) % 4 + 1) as u32)
}

// The words of the bytes of src, which go to address a, put into dst from at on.
#[tactic(auto, unfolding(crate::specs::Words::word_count))]
pub fn put_words(dst: &mut [u8], at: usize, a: u64, src: &[u8])
    requires { at + 4 * word_count a (length src.now) ≤ length dst.old }
    ensures { dst.new ≡ paste dst.old at (words_of a src.now) (4 * word_count a (length src.now)) }
{
    let low = (a % 4) as usize;
    let end = at + (low + src.len() + 3) / 4 * 4;
    dst[at..end].fill(0);
    copy_at(dst, at + low, src, src.len());
}

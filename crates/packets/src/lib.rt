// What is sent for a memory burst: a request for each piece, through the window of the first byte, and a write's words.
#![tactic(auto)]

ghost use Rattle.std.specs.Prelude.{◌≡◌, [], true, not, ◌+◌, ◌^◌, ◌≤◌, ◌<◌, length, get_or, take, drop, replicate, eqb};
ghost use Rattle.address.specs.Windows.{axi, window_of, found_number, translated};
ghost use Rattle.burst.specs.Bursts.{length_of};
ghost use Rattle.burst.specs.Pieces.{piece_count};
ghost use Rattle.burst.specs.Words.{words_of};
ghost use Rattle.packets.specs.Packets.{filled, index_of, piece_of, place_in, memory_request, packet};
ghost use Rattle.packets.specs.Writes.{write_bytes};
ghost use Rattle.packets.specs.Steps.{Put};

use address::{AxiAddress, PcieAddress, Settings, Windows};
use burst::{Burst, put_words};
use tlp::request::{Request, Target, write_request};

// Whether no window holds an address.
pub fn no_window(w: Windows, a: AxiAddress) -> bool
    ensures { result ≡ not (eqb (found_number (window_of w.count w.base w.size a)) 0) }
{
    w.find_window(a).is_none()
}

// What a window adds to an address and takes from it.
#[derive(Clone, Copy, Debug, PartialEq, Eq)]
pub struct Shift {
    pub base: u64,
    pub target: u64,
}

impl Shift {
    // The PCI Express address of an AXI address in the window.
    pub fn translate(self, a: AxiAddress) -> PcieAddress
        ensures { result ≡ translated self.base self.target a }
    {
        address::translate(self.base, self.target, a)
    }
}

// One of six numbers, by cases, so that the compiler needs no copy of the table in memory.
// Kept: by an index, an access in a loop takes 4.0 ns with addresses of window 0 alone and 5.5 with those of all; by cases 1.1 and 2.8 (bench/run.sh).
fn one_of(xs: [u64; 6], i: u32) -> u64
    requires { i < 6 }
    ensures { result ≡ get_or xs i 0 }
{
    match i {
        0 => xs[0],
        1 => xs[1],
        2 => xs[2],
        3 => xs[3],
        4 => xs[4],
        _ => xs[5],
    }
}

// That of the window that holds an address.
pub fn shift_of(w: Windows, a: AxiAddress) -> Shift
    ensures { (result.base ≡ get_or w.base (index_of (window_of w.count w.base w.size a)) 0) × (result.target ≡ get_or w.target (index_of (window_of w.count w.base w.size a)) 0) }
{
    match w.find_window(a) {
        Some(i) => Shift {
            base: one_of(w.base, i),
            target: one_of(w.target, i),
        },
        None => Shift {
            base: w.base[0],
            target: w.target[0],
        },
    }
}

#[tactic(auto, unfolding(crate::specs::Packets::memory_request))]
pub fn memory_request(write: bool, requester: u32, tag: u32, a: PcieAddress, n: u32) -> Request
    ensures { result ≡ memory_request write requester tag a.0 n }
{
    Request {
        write,
        target: Target::Memory(burst::word_address(a.0)),
        length: burst::word_count(a.0, n),
        requester,
        tag,
        last: burst::last_enables(a.0, n),
        first: burst::first_enables(a.0, n),
    }
}

// A header in the first bytes of an array, the others zero; none for a request outside its ranges.
// Kept: `head_of` says of both what they are, and puts zeros after the header, which a row that grows would not keep.
#[derive(Clone, Copy, Debug, PartialEq, Eq)]
pub struct Head {
    pub bytes: [u8; 16],
    pub length: usize,
}

pub fn head_of(q: Request) -> Head
    ensures { (take result.length result.bytes ≡ packet q []) × ((result.length ≡ length (packet q [])) × ((result.length ≤ 16) × (result.bytes ≡ filled (packet q []) (replicate 16 0)))) }
{
    let mut bytes = [0u8; 16];
    let length = write_request(q, &mut bytes).unwrap_or(0);
    Head { bytes, length }
}

// The packet of some bytes, which go to address a, and where the next one goes. One that the area cannot hold is left out.
// Kept, here and where a piece is sent: a place in the area, since `Put` says of the whole area what stays.
pub fn put_packet(requester: u32, a: PcieAddress, bytes: &[u8], area: &mut [u8], at: usize) -> usize
    requires { (length bytes.now ≤ 4096) × (at ≤ length area.old) }
    ensures { Put area.old at (packet (memory_request true requester 0 a.0 (length bytes.now)) (words_of a.0 bytes.now)) result area.new }
{
    let n = bytes.len() as u32;
    let h = head_of(memory_request(true, requester, 0, a, n));
    if h.length == 0 {
        return at;
    }
    let need = h.length + 4 * burst::word_count(a.0, n) as usize;
    if area.len() - at < need {
        return at;
    }
    let words = at + h.length;
    area[at..words].copy_from_slice(&h.bytes[..h.length]);
    put_words(area, words, a.0, bytes);
    at + need
}

// A memory write that is sent: the most bytes of a piece, who sends it, the shift of its window, its burst, and how many bytes
// that covers.
#[derive(Clone, Copy, Debug, PartialEq, Eq)]
pub struct Sending {
    pub limit: u32,
    pub requester: u32,
    pub shift: Shift,
    pub burst: Burst,
    pub bytes: u32,
}

impl Sending {
    // The packet of the k-th piece, and where the next one goes.
    pub fn turn(self, k: u32, bytes: &[u8], area: &mut [u8], at: usize) -> usize
        requires { (self.bytes ≡ length_of self.burst) × ((self.bytes ≤ 4096) × ((self.burst.start.0 + self.bytes ≤ 2 ^ 64) × ((k < piece_count self.limit self.burst.start.0 self.bytes) × ((self.bytes ≤ length bytes.now) × (at ≤ length area.old))))) }
        ensures { Put area.old at (packet (memory_request true self.requester 0 (translated self.shift.base self.shift.target (axi (piece_of self.limit self.burst k).first)).0 (piece_of self.limit self.burst k).length) (words_of (translated self.shift.base self.shift.target (axi (piece_of self.limit self.burst k).first)).0 (take (piece_of self.limit self.burst k).length (drop (place_in self.burst (piece_of self.limit self.burst k)) bytes.now)))) result area.new }
    {
        let start = self.burst.start.0;
        let piece = burst::piece_at(self.limit, start, self.bytes, k);
        let a = self.shift.translate(AxiAddress(piece.first));
        let from = (piece.first - start) as usize;
        let end = from + piece.length as usize;
        put_packet(self.requester, a, &bytes[from..end], area, at)
    }
}

// The packets of every piece, in address order; how many bytes they are.
pub fn write_pieces(s: Settings, q: Burst, bytes: &[u8], area: &mut [u8]) -> usize
    requires { length_of q ≤ length bytes.now }
    ensures { (result ≡ length (write_bytes s q bytes.now (length area.old))) × (area.new ≡ filled (write_bytes s q bytes.now (length area.old)) area.old) }
{
    let n = q.length();
    let sending = Sending {
        limit: s.writes,
        requester: s.requester,
        shift: shift_of(s.windows, q.start),
        burst: q,
        bytes: n,
    };
    let mut at = 0;
    for k in 0..burst::piece_count(s.writes, q.start.0, n) {
        at = sending.turn(k, bytes, area, at);
    }
    at
}

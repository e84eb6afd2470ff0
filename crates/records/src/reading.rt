// The record that bytes begin with.
ghost use Rattle.std.specs.Prelude.{◌≡◌, true, ℕ, ◌+◌, ◌/◌, ◌%◌, ◌^◌, ◌≤◌, ◌<◌, length, take};
ghost use Rattle.tlp.specs.Bytes.{number};
ghost use Rattle.records.specs.Layout.{burst_fields, layout_of, unpacked, length_fits, head_size};
ghost use Rattle.records.specs.Events.{burst_of, event_of};
ghost use Rattle.records.specs.Reading.{kind_in, body_in, size_in, values_in, plain_in, is_padded, end_of, whole, next};
ghost use Rattle.records.specs.Code.Kinds.{kind_number};
ghost use Rattle.records.specs.Code.Meaning.{captured, meant};

use crate::kind::Kind;
use crate::{Event, Fault, Found, HEAD};
use address::AxiAddress;
use burst::Burst;

// The first eight bytes of a body, as a number.
fn first_long(s: &[u8]) -> u64
    requires { 11 ≤ length s.now }
    ensures { (result ≡ number s.now 3 8) × (result < 2 ^ 64) }
{
    u64::from_be_bytes([s[3], s[4], s[5], s[6], s[7], s[8], s[9], s[10]])
}

// The burst of a read's or a write's fields.
fn burst_in(s: &[u8]) -> Burst
    requires { 13 ≤ length s.now }
    ensures { result ≡ burst_of (unpacked burst_fields (number s.now 3 10 / 8)) }
{
    let low = u16::from_be_bytes([s[11], s[12]]);
    Burst {
        start: AxiAddress(first_long(s)),
        size: u32::from(low >> 13),
        beats: u32::from(low >> 5) % 256 + 1,
        kind: u32::from(low >> 3) % 4,
    }
}

// A configuration access. Of a read, strobes and data are ignored.
fn config_in(s: &[u8]) -> Event
    requires { (12 ≤ length s.now) × (kind_in s.now ≡ 3) }
    ensures { captured result (take (size_in s.now) s.now) ≡ event_of (kind_in s.now) (values_in s.now) (plain_in s.now) }
{
    let high = first_long(s);
    let offset = high >> 36;
    if (high >> 35) % 2 == 0 {
        return Event::ConfigRead(offset);
    }
    let strobes = ((high >> 31) % 16) as u32;
    let word = (high % (1 << 31) * 2 + u64::from(s[11] >> 7)) as u32;
    Event::ConfigWrite(offset, strobes, word)
}

// The event of a whole record.
fn event_in(kind: Kind, s: &[u8]) -> Event
    requires { (head_size + (layout_of (kind_number kind)).least ≤ length s.now) × ((kind_in s.now ≡ kind_number kind) × (0 < kind_number kind)) }
    ensures { captured result (take (size_in s.now) s.now) ≡ event_of (kind_in s.now) (values_in s.now) (plain_in s.now) }
{
    match kind {
        Kind::End => unreachable!(),
        Kind::Read => Event::Read(burst_in(s)),
        Kind::Write => Event::Write(burst_in(s)),
        Kind::Config => config_in(s),
        Kind::Completion => Event::Completion,
        Kind::Link => Event::Link(s[3] >> 7 == 1),
        Kind::Tick => Event::Tick,
        Kind::Take => Event::Take(u32::from(s[3] >> 4)),
    }
}

// Whether the zero bits of a head and those behind its fields are zero.
fn is_padded(kind: Kind, s: &[u8]) -> bool
    requires { (head_size + (layout_of (kind_number kind)).least ≤ length s.now) × (kind_in s.now ≡ kind_number kind) }
    ensures { result ≡ is_padded s.now }
{
    let spare = match kind {
        Kind::Read | Kind::Write => s[12] % 8,
        Kind::Config => s[11] % 128,
        Kind::Link => s[3] % 128,
        Kind::Take => s[3] % 16,
        Kind::End | Kind::Completion | Kind::Tick => 0,
    };
    (s[0] % 16 == 0) & (spare == 0)
}

// An end record, after n events.
fn end_in(n: u64, s: &[u8]) -> Found
    requires { (7 ≤ length s.now) × (kind_in s.now ≡ 0) }
    ensures { meant s.now result ≡ end_of n s.now }
{
    let count = u32::from_be_bytes([s[3], s[4], s[5], s[6]]);
    if u64::from(count) == n {
        return Found::End;
    }
    Found::Bad(Fault::Count)
}

// A record that is all there, of a kind and a length that may be.
#[tactic(auto, unfolding(crate::specs::Reading::whole))]
fn whole_in(n: u64, kind: Kind, s: &[u8], size: usize) -> Found
    requires { (head_size ≤ length s.now) × ((kind_in s.now ≡ kind_number kind) × ((length_fits (layout_of (kind_number kind)) (body_in s.now) ≡ true) × ((size ≡ size_in s.now) × (size ≤ length s.now)))) }
    ensures { meant s.now result ≡ whole n s.now }
{
    if !is_padded(kind, s) {
        return Found::Bad(Fault::Padding);
    }
    if kind == Kind::End {
        return end_in(n, s);
    }
    Found::Whole(event_in(kind, s), size)
}

// What the bytes begin with, after n events.
#[tactic(auto, using(crate::proofs::Ways::next_none, crate::proofs::Ways::next_kind, crate::proofs::Ways::next_head, crate::proofs::Ways::next_part, crate::proofs::Judging::length_unfit, crate::proofs::Judging::whole_found))]
pub fn next(n: u64, s: &[u8]) -> Found
    ensures { meant s.now result ≡ next n s.now }
{
    if s.is_empty() {
        return Found::More;
    }
    let Some(kind) = Kind::of(s[0] >> 4) else {
        return Found::Bad(Fault::Kind);
    };
    if s.len() < HEAD {
        return Found::More;
    }
    let body = usize::from(u16::from_be_bytes([s[1], s[2]]));
    if !kind.fits(body) {
        return Found::Bad(Fault::Length);
    }
    let size = HEAD + body;
    if s.len() < size {
        return Found::More;
    }
    whole_in(n, kind, s, size)
}

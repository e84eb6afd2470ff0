// The writer: one record a call.
ghost use Rattle.std.specs.Prelude.{◌≡◌, true, ◌&&◌, ◌+◌, ◌≤◌, ◌<◌, length, take, leb, ◌^◌};
ghost use Rattle.tlp.specs.Bytes.{flag};
ghost use Rattle.records.specs.Layout.{burst_fields, fit};
ghost use Rattle.records.specs.Events.{burst_values};
ghost use Rattle.records.specs.Writing.{event, written, area_after};
ghost use Rattle.records.specs.Code.Meaning.{captured_with, item_with, answered};
ghost use Rattle.records.specs.Code.Parts.{burst_parts, config_parts, byte_parts, plain_parts, front_bytes, Lays};

use crate::kind::{Kind, MOST_BODY};
use crate::{Event, HEAD, Item};
use burst::Burst;
use refusals::Refusal;

// The bytes of a read's or a write's fields, and of a configuration access's.
const BURST_BYTES: usize = 10;

const CONFIG_BYTES: usize = 9;

// Offsets have 28 bits, counts 32.
const OFFSETS: u64 = 1 << 28;

const COUNTS: u64 = 1 << 32;

// A record in numbers: its kind; its fields with their padding, as far as they go, in the bytes of `high` and those of `low`
// behind them; and how many of the bytes lent beside it follow.
// Kept: numbers with a length, in which fields are joined by shifts, as the layout's bits are (`Lays`).
#[derive(Clone, Copy, Debug, PartialEq, Eq)]
struct Parts {
    kind: Kind,
    high: u64,
    low: u16,
    // The bytes of the fields.
    length: usize,
    plain: usize,
}

fn burst_fits(q: Burst) -> bool
    ensures { result ≡ leb 1 q.beats && fit burst_fields (burst_values q) }
{
    if q.beats < 1 {
        return false;
    }
    (q.size < 8) & ((q.beats - 1 < 256) & (q.kind < 4))
}

// A read's or a write's numbers. Of its last two bytes the last three bits are zero.
fn burst_parts(kind: Kind, q: Burst, plain: usize) -> Parts
    requires { leb 1 q.beats && fit burst_fields (burst_values q) ≡ true }
    ensures { result ≡ burst_parts kind q plain }
{
    Parts {
        kind,
        high: q.start.0,
        low: ((q.size << 13) + ((q.beats - 1) << 5) + (q.kind << 3)) as u16,
        length: BURST_BYTES,
        plain,
    }
}

// A configuration access's numbers: in the first eight bytes all but the last bit of the data.
fn config_parts(offset: u64, write: bool, strobes: u32, word: u32) -> Parts
    requires { (offset < 2 ^ 28) × (strobes < 16) }
    ensures { result ≡ config_parts offset (flag write) strobes word }
{
    Parts {
        kind: Kind::Config,
        high: (offset << 36)
            + (u64::from(write) << 35)
            + (u64::from(strobes) << 31)
            + u64::from(word >> 1),
        low: ((word % 2) << 15) as u16,
        length: CONFIG_BYTES,
        plain: 0,
    }
}

// A record with one byte of fields.
fn byte_parts(kind: Kind, byte: u8) -> Parts
    ensures { result ≡ byte_parts kind byte }
{
    Parts {
        kind,
        high: u64::from(byte) << 56,
        low: 0,
        length: 1,
        plain: 0,
    }
}

// A record without fields.
fn plain_parts(kind: Kind, plain: usize) -> Parts
    ensures { result ≡ plain_parts kind plain }
{
    Parts {
        kind,
        high: 0,
        low: 0,
        length: 0,
        plain,
    }
}

// The numbers of an event, if the layout can hold it.
fn event_parts(e: Event, lent: &[u8]) -> Option<Parts>
    ensures { Lays result (event (captured_with e lent.now)) lent.now }
{
    match e {
        Event::Read(q) => burst_fits(q).then(|| burst_parts(Kind::Read, q, 0)),
        Event::Write(q) => {
            let fits = burst_fits(q) & (lent.len() <= MOST_BODY - BURST_BYTES);
            fits.then(|| burst_parts(Kind::Write, q, lent.len()))
        }
        Event::ConfigRead(offset) => (offset < OFFSETS).then(|| config_parts(offset, false, 0, 0)),
        Event::ConfigWrite(offset, strobes, word) => {
            let fits = (offset < OFFSETS) & (strobes < 16);
            fits.then(|| config_parts(offset, true, strobes, word))
        }
        Event::Completion => {
            let fits = Kind::Completion.fits(lent.len());
            fits.then(|| plain_parts(Kind::Completion, lent.len()))
        }
        Event::Link(up) => Some(byte_parts(Kind::Link, u8::from(up) << 7)),
        Event::Tick => Some(plain_parts(Kind::Tick, 0)),
        Event::Take(slot) => (slot < 16).then(|| byte_parts(Kind::Take, (slot << 4) as u8)),
    }
}

// The numbers of an item, if the layout can hold it.
fn item_parts(item: Item, lent: &[u8]) -> Option<Parts>
    ensures { Lays result (item_with item lent.now) lent.now }
{
    match item {
        Item::Event(e) => event_parts(e, lent),
        Item::End(n) => (n < COUNTS).then_some(Parts {
            kind: Kind::End,
            high: n << 32,
            low: 0,
            length: 4,
            plain: 0,
        }),
        Item::Message => None,
    }
}

// A record's head, and its fields as far as they go.
fn front(p: Parts) -> [u8; 13]
    requires { (p.length ≤ 10) × (p.plain ≤ 4112) }
    ensures { take (3 + p.length) result ≡ front_bytes p }
{
    let body = (p.length + p.plain) as u16;
    let mut bytes = [0; 13];
    bytes[0] = p.kind.number() << 4;
    bytes[1..HEAD].copy_from_slice(&body.to_be_bytes());
    bytes[HEAD..11].copy_from_slice(&p.high.to_be_bytes());
    bytes[11..].copy_from_slice(&p.low.to_be_bytes());
    bytes
}

// Puts the record of an item, with the bytes lent beside it, into the area: how many bytes it filled.
pub fn write_record(item: Item, lent: &[u8], area: &mut [u8]) -> Result<usize, Refusal>
    ensures { (answered result ≡ written (item_with item lent.now) (length area.old)) × (area.new ≡ area_after (item_with item lent.now) area.old) }
{
    let Some(p) = item_parts(item, lent) else {
        return Err(Refusal::Malformed);
    };
    let n = HEAD + p.length;
    let size = n + p.plain;
    if area.len() < size {
        return Err(Refusal::TooShort);
    }
    area[..n].copy_from_slice(&front(p)[..n]);
    area[n..size].copy_from_slice(&lent[..p.plain]);
    Ok(size)
}

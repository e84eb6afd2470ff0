// So many events of an input, played.
ghost use Rattle.std.specs.Prelude.{◌≡◌, List, [], ◌∷◌, ◌++◌, true, ℕ, suc, ◌+◌, ◌-◌, ◌*◌, ◌^◌, ◌≤◌, ◌<◌, length, take, drop};
ghost use Rattle.std.proofs.Math.Option.{some};
ghost use Rattle.records.specs.Stream.{is_reading};
ghost use Rattle.records.specs.Code.Meaning.{captured, most_held, reader_of};
ghost use Rattle.records.specs.Code.Steps.{event_of};
ghost use Rattle.replay.specs.Events.{Told, row_size};
ghost use Rattle.replay.specs.Play.{playing, halts, play};
ghost use Rattle.replay.specs.Code.Tables.{stage_with, Does, Turned, Plays};

use crate::event::{behind, event_in};
use crate::rows::{ROW, put_row};
use bridge::Bridge;
use records::stream::{Came, Got};
use records::{Event, Phase, Reader};

// The first n bytes, or all.
pub fn first_of(s: &[u8], n: usize) -> &[u8]
    ensures { result.now ≡ take n s.now }
{
    s.get(..n).unwrap_or(s)
}

// An event is played, and its row put into rows.
// Kept, here and below: store, area, rows and buffer are lent one by one, as `replay` is lent them, whose callers have no struct for
// them: a turn would build one from what it was lent, for one call.
fn told_in(
    b: &mut Bridge,
    store: &mut [u8],
    area: &mut [u8],
    rows: &mut [u64],
    at: usize,
    e: Event,
    bytes: &[u8],
)
    requires { at + row_size ≤ length rows.old }
    ensures told { Does (λ told. stage_with b.old store.old area.old told) (λ told. stage_with b.new store.new area.new told) (some (captured e bytes.now)) 1 rows.old rows.new at }
    ensures cells { b.new.cells ≡ b.old.cells }
{
    let answer = event_in(b, store, area, e, bytes);
    put_row(rows, at, e, answer);
}

// What a turn, or a call, hands back.
#[derive(Clone, Copy, Debug, PartialEq, Eq)]
pub struct Turn {
    pub reader: Reader,
    // The bytes read, and the events played.
    pub used: usize,
    pub played: usize,
}

// The event that a step of the reader completed, if any; how many were played.
#[tactic(auto, using(crate::proofs::Turns::does_none))]
fn completed_in(
    b: &mut Bridge,
    store: &mut [u8],
    area: &mut [u8],
    rows: &mut [u64],
    at: usize,
    came: Came,
    held: &[u8],
    input: &[u8],
) -> usize
    requires { at + row_size ≤ length rows.old }
    ensures event { Does (λ told. stage_with b.old store.old area.old told) (λ told. stage_with b.new store.new area.new told) (event_of (take came.used input.now) held.now came.got) result rows.old rows.new at }
    ensures cells { b.new.cells ≡ b.old.cells }
{
    match came.got {
        None => 0,
        Some(Got::Here(e)) => {
            told_in(b, store, area, rows, at, e, first_of(input, came.used));
            1
        }
        Some(Got::Kept(e, size)) => {
            told_in(b, store, area, rows, at, e, first_of(held, size));
            1
        }
    }
}

// A step of the reader, and the event that it completes.
fn turn_in(
    b: &mut Bridge,
    store: &mut [u8],
    area: &mut [u8],
    rows: &mut [u64],
    at: usize,
    r: Reader,
    held: &mut [u8],
    input: &[u8],
) -> Turn
    requires { (at + row_size ≤ length rows.old) × ((most_held + 1 ≤ length held.old) × ((is_reading r.phase ≡ true) × (0 < length input.now))) }
    ensures turned { Turned (λ told. playing (reader_of r held.old) (stage_with b.old store.old area.old told)) (λ told. playing (reader_of result.reader held.new) (stage_with b.new store.new area.new told)) input.now result.used result.played rows.old rows.new at }
    ensures cells { b.new.cells ≡ b.old.cells }
{
    let came = r.advance(held, input);
    let played = completed_in(b, store, area, rows, at, came, held, input);
    Turn {
        reader: came.reader,
        used: came.used,
        played,
    }
}

// Whether nothing more is played: so many are, or the reader has met the end or a fault.
fn halted(p: Phase, played: usize, allowed: usize) -> bool
    ensures { result ≡ halts (allowed - played) p }
{
    allowed <= played || !p.is_reading()
}

// At most so many events of the input are played.
pub fn play_in(
    b: &mut Bridge,
    store: &mut [u8],
    area: &mut [u8],
    rows: &mut [u64],
    r: Reader,
    held: &mut [u8],
    input: &[u8],
    allowed: usize,
) -> Turn
    requires { (row_size * allowed ≤ length rows.old) × ((most_held + 1 ≤ length held.old) × (row_size * allowed < 2 ^ 64)) }
    ensures plays { Plays (play allowed (playing (reader_of r held.old) (stage_with b.old store.old area.old [])) input.now) (λ told. playing (reader_of result.reader held.new) (stage_with b.new store.new area.new told)) result.used result.played rows.old rows.new }
    ensures cells { b.new.cells ≡ b.old.cells }
{
    let mut reader = r;
    let mut used = 0;
    let mut played = 0;
    // Kept: a loop, since a turn goes on by the bytes that it read.
    while used < input.len() {
        if halted(reader.phase, played, allowed) {
            break;
        }
        let t = turn_in(
            b,
            store,
            area,
            rows,
            ROW * played,
            reader,
            held,
            behind(input, used),
        );
        used += t.used;
        played += t.played;
        reader = t.reader;
    }
    Turn {
        reader,
        used,
        played,
    }
}

// The replay call.
ghost use Rattle.std.specs.Prelude.{◌≡◌, [], length, OnErr};
ghost use Rattle.refusals.specs.Refusals.{number_in};
ghost use Rattle.records.specs.Code.Meaning.{reader_of};
ghost use Rattle.replay.specs.Play.{playing, play, replay_number, granted};
ghost use Rattle.replay.specs.Code.Tables.{stage_with, Plays};
ghost use Rattle.replay.specs.Code.Calls.{left};

use crate::play::play_in;
use crate::rows::ROW;
use bridge::Bridge;
use records::{LONGEST, Reader};
use refusals::Refusal;

// What a call leaves.
#[derive(Clone, Copy, Debug, PartialEq, Eq)]
pub struct Replayed {
    pub bridge: Bridge,
    pub reader: Reader,
    // How many bytes of the input were read, and how many events were played.
    pub used: usize,
    pub played: usize,
}

// Plays at most so many events that are complete in the input, those of a record that an earlier input began among them, and
// puts a row of numbers for each into rows. `held` keeps the bytes of a record that is not yet whole from call to call. A call with
// too short a buffer or too few rows is refused: nothing is read, played or changed.
pub fn replay(
    b: Bridge,
    store: &mut [u8],
    area: &mut [u8],
    rows: &mut [u64],
    r: Reader,
    held: &mut [u8],
    input: &[u8],
    allowed: usize,
) -> Result<Replayed, Refusal>
    ensures number { number_in result ≡ replay_number (length held.old) (length rows.old) allowed }
    ensures plays { Plays (play (granted (replay_number (length held.old) (length rows.old) allowed) allowed) (playing (reader_of r held.old) (stage_with b store.old area.old [])) input.now) (λ told. playing (reader_of (left b r result).reader held.new) (stage_with (left b r result).bridge store.new area.new told)) (left b r result).used (left b r result).played rows.old rows.new }
    ensures refused { OnErr result ((store.new ≡ store.old) × ((area.new ≡ area.old) × ((rows.new ≡ rows.old) × (held.new ≡ held.old)))) }
{
    if held.len() < LONGEST || rows.len() / ROW < allowed {
        return Err(Refusal::TooShort);
    }
    let mut bridge = b;
    let t = play_in(&mut bridge, store, area, rows, r, held, input, allowed);
    Ok(Replayed {
        bridge,
        reader: t.reader,
        used: t.used,
        played: t.played,
    })
}

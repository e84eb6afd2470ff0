// What bench/replay times: a capture played from its start on the bridge of the worked examples; replay_bench_c exports it for C.
#![tactic(auto)]

use bridge::Bridge;
use records::Reader;
use replay::replay::replay;

// Plays the whole input by calls with one allowance, each on what the last has not read and with its rows from the start of the
// slice, up to the end, a fault, or a call that reads nothing. How many events were played.
pub fn replay_bench_play(
    input: &[u8],
    store: &mut [u8],
    area: &mut [u8],
    held: &mut [u8],
    rows: &mut [u64],
    allowed: usize,
) -> u64 {
    let settings = address::example_settings();
    let mut bridge = Bridge::new(settings).bridge;
    let mut reader = Reader::fresh();
    let mut rest = input;
    let mut events: u64 = 0;
    // Kept: a loop, since a call goes on by the bytes that it read.
    while !rest.is_empty() {
        let Ok(next) = replay(bridge, store, area, rows, reader, held, rest, allowed) else {
            return events;
        };
        if next.used < 1 || rest.len() < next.used {
            return events;
        }
        rest = &rest[next.used..];
        events = events.wrapping_add(next.played as u64);
        bridge = next.bridge;
        reader = next.reader;
    }
    events
}

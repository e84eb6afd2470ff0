// Plays a capture, read from standard input, on a bridge with the settings of the worked examples, and prints a line for each event.
// Input is taken in the blocks that the system hands over, at most 2^64 - 1 of them. A read that fails is said on
// standard error and counts as the end of the input; a write that fails is said there and ends the program.
#![tactic(auto)]

mod lines;
mod text;

use bridge::Bridge;
use lines::{CELLS, EVENTS, say_events, say_last};
use parts::{AREA_SIZE, STORE_SIZE};
use records::{LONGEST, Reader};
use replay::replay::replay;
use std::io::Read;
use streams::WriteFailed;
use text::Lines;

// The bytes asked of standard input at once.
const BLOCK: usize = 65536;

// What a bridge, a reader and a call of `replay` are lent.
#[derive(Drop)]
struct Lent<'a> {
    store: &'a mut [u8],
    area: &'a mut [u8],
    held: &'a mut [u8],
    rows: &'a mut [u64],
}

// What a player holds between two calls.
#[derive(Clone, Copy)]
struct Player {
    bridge: Bridge,
    reader: Reader,
}

impl Player {
    fn new() -> Player {
        Player {
            bridge: Bridge::new(address::example_settings()).bridge,
            reader: Reader::fresh(),
        }
    }

    // Whether the end or a fault was met.
    fn is_done(&self) -> bool {
        !self.reader.phase.is_reading()
    }

    // A block, and its lines. Each turn reads a byte or more, so as many turns as it has bytes are enough.
    fn play<P: Print + Eprint>(
        &mut self,
        block: &[u8],
        lent: &mut Lent,
        lines: &mut Lines<P>,
    ) -> Result<(), WriteFailed> {
        let mut rest = block;
        for _ in 0..block.len() {
            if rest.is_empty() || self.is_done() {
                break;
            }
            let before = self.reader.events;
            let Ok(x) = replay(
                self.bridge,
                lent.store,
                lent.area,
                lent.rows,
                self.reader,
                lent.held,
                rest,
                EVENTS,
            ) else {
                break;
            };
            self.bridge = x.bridge;
            self.reader = x.reader;
            say_events(lines, lent.rows, before, x.played)?;
            rest = rest.get(x.used..).unwrap_or(&[]);
        }
        Ok(())
    }
}

// All blocks of standard input, at most 2^64 - 1, between the first line and the last.
fn run<R: Read, P: Print + Eprint>(
    input: &mut R,
    rt: &P,
    block: &mut [u8],
    lent: &mut Lent,
    lines: &mut Lines<P>,
) -> Result<(), WriteFailed> {
    let mut player = Player::new();
    lines.say("capture")?;
    for _ in 0..u64::MAX {
        let n = streams::read_some(input, rt, block);
        player.play(&block[..n], lent, lines)?;
        lines.flush()?;
        if n == 0 || player.is_done() {
            break;
        }
    }
    say_last(lines, player.reader)?;
    lines.flush()
}

fn main(rt: HostRuntime) {
    let mut lent = Lent {
        store: &mut [0; STORE_SIZE],
        area: &mut [0; AREA_SIZE],
        held: &mut [0; LONGEST],
        rows: &mut [0; CELLS],
    };
    let mut lines = Lines::new(&rt);
    let _ = run(&mut rt.stdin(), &rt, &mut [0; BLOCK], &mut lent, &mut lines);
}

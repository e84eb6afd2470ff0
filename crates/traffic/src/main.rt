// Plays a traffic file, read from standard input, on the bridge and prints the log. Where the file is cut or damaged it
// says so and stops. Where a read or a write fails it stops too, after a line on standard error.
#![tactic(auto)]

mod made;

use made::first_bridge;
use std::io::Read;
use traffic_events::{Lent, Player};
use traffic_file::header::{HEADER, Header, MORE};
use traffic_file::reading::Stop;
use traffic_file::record::{AREA, FIELDS, STORE};
use traffic_headers::play_header;
use traffic_text::input::Input;
use traffic_text::line::print;
use traffic_text::sum::{fill, sum_of};

// All records, at most 2^64 - 1, with a buffer for the variable bytes of one.
fn play<R: Read, E: Print + Eprint>(
    input: &mut Input<R, E>,
    h: Header,
    lent: &mut Lent,
    bytes: &mut [u8],
) -> Result<(), Stop> {
    let rt = input.rt;
    fill(lent.store, 251);
    fill(lent.area, 241);
    let mut player = Player::begin(rt, first_bridge(h), sum_of(lent.store))?;
    let mut place = h.start();
    for _ in 0..u64::MAX {
        let mut f = [0u8; FIELDS];
        let record = place.read(input, &mut f, bytes, lent.store.len())?;
        if record.kind.is_header() {
            play_header(rt, place.events, record, lent.area)?;
        } else {
            player.play(rt, place.events, record, lent)?;
        }
        place = place.past(record);
    }
    Ok(())
}

// With the part of the store that the header asks for.
fn run<R: Read, E: Print + Eprint>(input: &mut Input<R, E>) -> Result<(), Stop> {
    let mut header = [0u8; HEADER];
    let mut more = [0u8; MORE];
    let h = Header::read(input, &mut header, &mut more)?;
    let mut bytes = [0u8; AREA];
    let mut area = [0u8; AREA];
    let mut store = [0u8; STORE];
    let Some(store) = store.get_mut(..h.store_size()) else {
        return Ok(());
    };
    let mut lent = Lent {
        store,
        area: &mut area,
    };
    play(input, h, &mut lent, &mut bytes)
}

fn main(rt: HostRuntime) {
    let mut input = Input {
        reader: rt.stdin(),
        rt: &rt,
    };
    if let Err(Stop::Done(last)) = run(&mut input) {
        let _ = print(&rt, last);
    }
}

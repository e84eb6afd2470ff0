// The lines of a capture that is played.
use crate::text::Lines;
use records::{Fault, Phase, Reader};
use replay::rows::ROW;
use streams::WriteFailed;

// The events of one call.
pub const EVENTS: usize = 1024;

pub const CELLS: usize = ROW * EVENTS;

// An event's name. Kept: a number for it, since it stands so in the rows of `replay` (`row_of`).
fn name_of(which: u64) -> &'static str {
    match which {
        0 => "read",
        1 => "write",
        2 => "config",
        3 => "completion",
        4 => "link up",
        5 => "link down",
        6 => "tick",
        _ => "take",
    }
}

// A line for each of so many rows, after so many events: the event's number, its name and, unless 0, its refusal number.
pub fn say_events<P: Print + Eprint>(
    lines: &mut Lines<P>,
    rows: &[u64],
    before: u64,
    played: usize,
) -> Result<(), WriteFailed> {
    let mut event = before;
    for row in rows.chunks_exact(ROW).take(played) {
        event = event.wrapping_add(1);
        let name = name_of(row[0]);
        match row[1] {
            0 => lines.say(format_args!("{event} {name}"))?,
            refusal => lines.say(format_args!("{event} {name} {refusal}"))?,
        }
    }
    Ok(())
}

fn fault_name(fault: Fault) -> &'static str {
    match fault {
        Fault::Kind => "kind",
        Fault::Length => "length",
        Fault::Padding => "padding",
        Fault::Count => "count",
    }
}

// The last line, once the input is over.
pub fn say_last<P: Print + Eprint>(lines: &mut Lines<P>, r: Reader) -> Result<(), WriteFailed> {
    let events = r.events;
    match r.phase {
        Phase::Ended => lines.say(format_args!("end {events} of {events}")),
        Phase::Reading => lines.say(format_args!("cut after {events}")),
        Phase::Bad(fault) => lines.say(format_args!("bad {} at {}", fault_name(fault), r.at)),
    }
}

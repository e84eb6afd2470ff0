// What an event answered, as a row of numbers.
ghost use Rattle.std.specs.Prelude.{◌≡◌, List, ℕ, ◌+◌, ◌≤◌, length};
ghost use Rattle.std.proofs.lemmas.List.Edits.{sets};
ghost use Rattle.parts.specs.Code.Struct.{answer_of, shown};
ghost use Rattle.records.specs.Code.Meaning.{captured};
ghost use Rattle.replay.specs.Events.{name_of, tells, row_of, row_size};

use parts::{Accepted, Answer};
use records::Event;

// The numbers of a row: name, refusal number, response, slot, how many bytes were sent, data word, session.
pub const ROW: usize = 7;

fn name_of(e: Event) -> u64
    ensures { (bytes : List ℕ) → result ≡ name_of (captured e bytes) }
{
    match e {
        Event::Read(_) => 0,
        Event::Write(_) => 1,
        Event::ConfigRead(_) | Event::ConfigWrite(_, _, _) => 2,
        Event::Completion => 3,
        Event::Link(true) => 4,
        Event::Link(false) => 5,
        Event::Tick => 6,
        Event::Take(_) => 7,
    }
}

// The row of an event whose refusal number is n, 0 where it is accepted, and which shows x beside it, put into rows from a place
// on.
pub fn put_shown(rows: &mut [u64], at: usize, e: Event, n: u32, x: Accepted)
    requires { at + row_size ≤ length rows.old }
    ensures { (bytes : List ℕ) → rows.new ≡ sets rows.old at (row_of (tells (captured e bytes) (shown n x))) }
{
    // Kept: copied from an array of seven, an event took 3 ns more (bench/replay.sh, ticks).
    rows[at] = name_of(e);
    rows[at + 1] = u64::from(n);
    rows[at + 2] = u64::from(x.response.code());
    rows[at + 3] = u64::from(x.slot);
    rows[at + 4] = x.length as u64;
    rows[at + 5] = u64::from(x.word);
    rows[at + 6] = u64::from(x.figures.session);
}

// The row of an event, put into rows from a place on.
pub fn put_row(rows: &mut [u64], at: usize, e: Event, a: Answer)
    requires { at + row_size ≤ length rows.old }
    ensures { (bytes : List ℕ) → rows.new ≡ sets rows.old at (row_of (tells (captured e bytes) (answer_of a))) }
{
    match a {
        Ok(x) => put_shown(rows, at, e, 0, x),
        Err(why) => put_shown(rows, at, e, why.number(), Accepted::refused(why.number())),
    }
}

// A whole file in memory.
ghost use Rattle.std.specs.Prelude.{◌≡◌, length};
ghost use Rattle.records.specs.File.{file};
ghost use Rattle.records.specs.Code.Summary.{verdict_of};

use crate::reading::next;
use crate::{Fault, Found};

// How a file ends.
#[derive(Clone, Copy, Debug, PartialEq, Eq)]
pub enum Verdict {
    // With a right end record.
    Ended,
    // Without one.
    Cut,
    // With a fault, in the record at this byte.
    Bad(Fault, u64),
}

#[derive(Clone, Copy, Debug, PartialEq, Eq)]
pub struct Summary {
    pub verdict: Verdict,
    pub events: u64,
}

// Reads a file record by record.
pub fn verdict_of(s: &[u8]) -> Summary
    ensures { (verdict_of result ≡ (file s.now).verdict) × (result.events ≡ length (file s.now).events) }
{
    let mut events = 0;
    let mut at = 0;
    // Kept: a loop, since a turn goes on by the size of the record that it found.
    loop {
        let verdict = match next(events, &s[at..]) {
            Found::Whole(_, size) => {
                events += 1;
                at += size;
                continue;
            }
            Found::More => Verdict::Cut,
            Found::Bad(fault) => Verdict::Bad(fault, at as u64),
            Found::End => Verdict::Ended,
        };
        return Summary { verdict, events };
    }
}

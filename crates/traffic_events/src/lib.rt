// The events of the bridge: each plays one record on the bridge and prints its line.
#![tactic(auto)]

mod shown;

use address::AxiAddress;
use bridge::{Answer, Answered, Bridge};
use burst::Burst;
use ecam::Access;
use events::tick::ticks_in;
use shown::{After, Shown};
use streams::WriteFailed;
use traffic_file::record::{Kind, Record};
use traffic_text::input::{flag_at, long_at, word_at};
use traffic_text::line::{Area, Part, number_in, print};
use traffic_text::sum::sum_of;

// The store of a file, and the area.
#[derive(Drop)]
pub struct Lent<'a> {
    pub store: &'a mut [u8],
    pub area: &'a mut [u8],
}

#[derive(Clone, Copy)]
pub struct Player {
    pub bridge: Bridge,
    // The checksum of the store.
    pub sum: u32,
}

fn burst_in(f: &[u8]) -> Burst {
    Burst {
        start: AxiAddress(long_at(f, 4)),
        size: word_at(f, 12),
        beats: word_at(f, 16),
        kind: word_at(f, 20),
    }
}

fn access_in(f: &[u8]) -> Access {
    Access {
        offset: long_at(f, 4),
        write: flag_at(f, 12),
        strobes: word_at(f, 17),
        word: word_at(f, 13),
    }
}

// So many ticks in a row, in one call; the answer is that of the last.
fn ticks(b: Bridge, store: &mut [u8], times: u32) -> Answered {
    let mut bridge = b;
    let answer = ticks_in(&mut bridge.state, store, times);
    Answered { bridge, answer }
}

impl Player {
    // Of a bridge that was just made: prints the log's first line.
    pub fn begin(
        rt: &(impl Print + Eprint),
        made: Answered,
        sum: u32,
    ) -> Result<Player, WriteFailed> {
        let player = Player {
            bridge: made.bridge,
            sum,
        };
        print(
            rt,
            format_args!("new {} {}", number_in(made.answer), player.after()),
        )?;
        Ok(player)
    }

    // What the line of an event shows after it.
    fn after(&self) -> After {
        let b = self.bridge;
        After {
            registers: [
                b.word(0x018),
                b.word(0x134),
                b.word(0x138),
                b.word(0x13C),
                b.word(0x144),
            ],
            errors: [b.word(0x148), b.word(0x154)],
            line: b.line(),
            sum: self.sum,
        }
    }

    // The bridge after a call, whose answer is handed on.
    fn take(&mut self, r: Answered) -> Answer {
        self.bridge = r.bridge;
        r.answer
    }

    // The call of an event that is lent the area.
    fn call_with_area(&mut self, record: Record, area: &mut [u8]) -> Answer {
        let b = self.bridge;
        let f = record.fields;
        self.take(match record.kind {
            Kind::Read => b.read(burst_in(f), area),
            Kind::Write => b.write(burst_in(f), record.bytes, area),
            _ => b.config(access_in(f), area),
        })
    }

    // The call of an event that is lent the store.
    fn call_with_store(&mut self, record: Record, store: &mut [u8]) -> Answer {
        let b = self.bridge;
        let f = record.fields;
        self.take(match record.kind {
            Kind::Completion => b.complete(store, record.bytes),
            Kind::Tick => ticks(b, store, word_at(f, 4)),
            Kind::Link => b.link(store, flag_at(f, 4)),
            _ => b.release(store, word_at(f, 4)),
        })
    }

    // A record of the bridge's events. It is lent as much of the store or of the area as its first field says.
    pub fn play(
        &mut self,
        rt: &(impl Print + Eprint),
        event: u64,
        record: Record,
        lent: &mut Lent,
    ) -> Result<(), WriteFailed> {
        let kind = record.kind;
        let n = word_at(record.fields, 0) as usize;
        match kind {
            Kind::Read | Kind::Write | Kind::Config => {
                let Some(area) = lent.area.get_mut(..n) else {
                    return Ok(());
                };
                let answer = Shown(self.call_with_area(record, area));
                let area = Area(area);
                let after = self.after();
                print(rt, format_args!("{event} {kind} {answer} {area} {after}"))
            }
            Kind::Completion | Kind::Tick | Kind::Link | Kind::Release => {
                let Some(store) = lent.store.get_mut(..n) else {
                    return Ok(());
                };
                let answer = Shown(self.call_with_store(record, store));
                self.sum = sum_of(lent.store);
                let after = self.after();
                print(rt, format_args!("{event} {kind} {answer} {after}"))
            }
            Kind::Look => {
                let Some(store) = lent.store.get(..n) else {
                    return Ok(());
                };
                let slot = word_at(record.fields, 4);
                let number = number_in(self.bridge.check_take(store, slot));
                let bytes = self.bridge.look(store, slot);
                let length = bytes.len();
                let sum = sum_of(bytes);
                let part = Part(bytes);
                let after = self.after();
                print(
                    rt,
                    format_args!("{event} {kind} {number} part {length} {sum:08x} {part} {after}"),
                )
            }
            Kind::Message => {
                let r = self.bridge.message(record.bytes);
                let answer = Shown(self.take(r));
                let after = self.after();
                print(rt, format_args!("{event} {kind} {answer} {after}"))
            }
            _ => Ok(()),
        }
    }
}

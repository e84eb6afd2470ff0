// The worked examples W1 to W12, played on the bridge. All are lent the same store and the same area.
#![tactic(auto)]

use address::{AxiAddress, Settings};
use bridge::{Answer, Bridge, Refusal, Response};
use burst::Burst;
use ecam::Access;
use events::tick::tick_in;
use parts::{AREA_SIZE, STORE_SIZE};
use streams::WriteFailed;
use traffic_text::line::print;

// What the bridge is lent.
#[derive(Drop)]
struct Lent<'a> {
    store: &'a mut [u8; STORE_SIZE],
    area: &'a mut [u8; AREA_SIZE],
}

fn incr(start: u64, size: u32, beats: u32) -> Burst {
    Burst {
        start: AxiAddress(start),
        size,
        beats,
        kind: 1,
    }
}

// The example settings with other bus bits and time limit.
fn settings(bits: u32, limit: u32) -> Settings {
    Settings {
        bits,
        limit,
        ..address::example_settings()
    }
}

// An accepted call sent exactly these bytes.
fn sent(a: Answer, area: &[u8], expected: &[u8]) -> bool {
    matches!(a, Ok(x) if x.length == expected.len()) && area.starts_with(expected)
}

// A configuration read.
fn config_read(offset: u64) -> Access {
    Access {
        offset,
        write: false,
        strobes: 0,
        word: 0,
    }
}

// The bridge, its counter at the last value.
fn at_last_tick(b: Bridge) -> Bridge {
    let mut last = b;
    last.state.core.ticks = u32::MAX;
    last
}

impl Lent<'_> {
    // A new bridge whose link is up.
    fn up(&mut self, s: Settings) -> Bridge {
        Bridge::new(s).bridge.link(self.store, true).bridge
    }

    // The bridge of an example that changes no setting.
    fn example(&mut self) -> Bridge {
        self.up(settings(8, 65535))
    }

    // The bridge after a read.
    fn read(&mut self, b: Bridge, q: Burst) -> Bridge {
        b.read(q, self.area).bridge
    }

    fn read_sends(&mut self, b: Bridge, q: Burst, expected: &[u8]) -> bool {
        let a = b.read(q, self.area).answer;
        sent(a, self.area, expected)
    }

    // Why a read is refused.
    fn read_refusal(&mut self, b: Bridge, q: Burst) -> Option<Refusal> {
        b.read(q, self.area).answer.err()
    }

    fn config_sends(&mut self, b: Bridge, offset: u64, expected: &[u8]) -> bool {
        let a = b.config(config_read(offset), self.area).answer;
        sent(a, self.area, expected)
    }

    // Why a configuration read is refused.
    fn config_refusal(&mut self, b: Bridge, offset: u64) -> Option<Refusal> {
        b.config(config_read(offset), self.area).answer.err()
    }

    // The bridge once local word 018 holds these bus numbers.
    fn with_buses(&mut self, b: Bridge, word: u32) -> Bridge {
        let a = Access {
            offset: 0x018,
            write: true,
            strobes: 0xF,
            word,
        };
        let c = b.config(a, self.area).bridge;
        c.release(self.store, 8).bridge
    }

    // A bridge many ticks later. Its state is lent to each: by value each would copy it three times.
    fn ticked(&mut self, b: Bridge, times: u32) -> Bridge {
        let mut c = b;
        for _ in 0..times {
            let _ = tick_in(&mut c.state, self.store);
        }
        c
    }

    // Why a release of slot 0 is refused.
    fn release_refusal(&self, b: Bridge) -> Option<Refusal> {
        b.release(self.store, 0).answer.err()
    }

    // The read in slot 0 is finished, with SLVERR.
    fn is_failed(&self, b: Bridge) -> bool {
        matches!(b.release(self.store, 0).answer, Ok(x) if x.response == Response::Slverr)
    }

    // A completion of count 6 and lower address 3E fills the slot's six bytes.
    fn w3_fills(&mut self, b: Bridge) -> bool {
        let packet =
            b"\x4A\x00\x00\x02\x00\x00\x00\x06\x00\x00\x00\x3E\x00\x00\x11\x22\x33\x44\x55\x66";
        let d = b.complete(self.store, packet);
        let part = d.bridge.look(self.store, 0);
        d.answer.is_ok() && part == b"\x11\x22\x33\x44\x55\x66".as_slice()
    }
}

fn w1(m: &mut Lent) -> bool {
    let b = m.example();
    m.read_sends(
        b,
        incr(0x12340ABC, 2, 1),
        b"\x00\x00\x00\x01\x00\x00\x00\x0F\x56\x71\x0A\xBC",
    )
}

fn w2(m: &mut Lent) -> bool {
    let b = m.example();
    m.read_sends(
        b,
        incr(0x12340ABC, 2, 64),
        b"\x00\x00\x00\x11\x00\x00\x00\xFF\x56\x71\x0A\xBC\x00\x00\x00\x20\x00\x00\x01\xFF\x56\x71\x0B\x00\x00\x00\x00\x0F\x00\x00\x02\xFF\x56\x71\x0B\x80",
    )
}

// The header, and its completion.
fn w3(m: &mut Lent) -> bool {
    let b = m.example();
    let q = incr(0x12340ABE, 2, 2);
    let sends = m.read_sends(b, q, b"\x00\x00\x00\x02\x00\x00\x00\xFC\x56\x71\x0A\xBC");
    let reading = m.read(b, q);
    sends && m.w3_fills(reading)
}

fn w4(m: &mut Lent) -> bool {
    let b = m.example();
    m.read_sends(
        b,
        incr(0x12340ABD, 0, 2),
        b"\x00\x00\x00\x01\x00\x00\x00\x06\x56\x71\x0A\xBC",
    )
}

fn w5(m: &mut Lent) -> bool {
    let b = m.example();
    m.read_sends(
        b,
        incr(0x12340FFE, 2, 1),
        b"\x00\x00\x00\x01\x00\x00\x00\x0C\x56\x71\x0F\xFC",
    ) && m.read_refusal(b, incr(0x12340FFC, 2, 2)) == Some(Refusal::WrongBurst)
}

fn w6(m: &mut Lent) -> bool {
    let b = m.example();
    m.read_refusal(b, incr(0x1234FFFC, 2, 1)).is_none()
        && m.read_refusal(b, incr(0x12350000, 2, 1)) == Some(Refusal::NoWindow)
}

fn w7(m: &mut Lent) -> bool {
    let b = m.example();
    let c = m.with_buses(b, 0x00010100);
    m.config_sends(
        c,
        0x00100000,
        b"\x04\x00\x00\x01\x00\x00\x00\x0F\x01\x00\x00\x00",
    )
}

fn w8(m: &mut Lent) -> bool {
    let b = m.up(settings(1, 65535));
    let c = m.with_buses(b, 0x00010100);
    m.config_refusal(c, 0x001FFFFC) == Some(Refusal::WrongDevice)
        && m.config_refusal(c, 0x00200000) == Some(Refusal::OffsetOver)
}

fn w9(m: &mut Lent) -> bool {
    let b = Bridge::new(settings(8, 65535)).bridge;
    let crossed = m.with_buses(b, 0x00020300);
    m.config_refusal(b, 0).is_none()
        && m.config_refusal(b, 0x00100000) == Some(Refusal::NotRouted)
        && m.config_refusal(crossed, 0x00300000) == Some(Refusal::NotRouted)
}

// With the time limit 2, a read is sent at the counter's last value.
fn w10(m: &mut Lent) -> bool {
    let b = at_last_tick(m.up(settings(8, 2)));
    let sent = m.read(b, incr(0x12340ABC, 2, 1));
    let zero = sent.tick(m.store).bridge;
    let one = zero.tick(m.store).bridge;
    m.release_refusal(zero) == Some(Refusal::NotFinished) && m.is_failed(one)
}

// 32 tags are enough for 4,096 bytes at limit 128; with one at rest after a timeout, they are too few.
fn w11(m: &mut Lent) -> bool {
    let b = m.example();
    let q = incr(0x12340000, 4, 256);
    let sent = m.read(b, incr(0x12340ABC, 2, 1));
    let late = m.ticked(sent, 65535);
    let rests = late.release(m.store, 0).bridge;
    m.read_refusal(b, q).is_none()
        && m.is_failed(late)
        && m.read_refusal(rests, q) == Some(Refusal::FewTags)
}

// Device 5 on bus 2, behind a switch on bus 1.
fn w12(m: &mut Lent) -> bool {
    let b = m.example();
    let c = m.with_buses(b, 0x00020100);
    m.config_sends(
        c,
        0x00228000,
        b"\x05\x00\x00\x01\x00\x00\x00\x0F\x02\x28\x00\x00",
    )
}

fn report(rt: &(impl Print + Eprint), k: u32, same: bool) -> Result<(), WriteFailed> {
    let found = if same { "same" } else { "differs" };
    print(rt, format_args!("W{k} {found}"))
}

// The lines of the examples, each written before the next is played; the first that cannot be written is the last.
fn examples(rt: &(impl Print + Eprint), m: &mut Lent) -> Result<(), WriteFailed> {
    print(rt, "bridge")?;
    report(rt, 1, w1(m))?;
    report(rt, 2, w2(m))?;
    report(rt, 3, w3(m))?;
    report(rt, 4, w4(m))?;
    report(rt, 5, w5(m))?;
    report(rt, 6, w6(m))?;
    report(rt, 7, w7(m))?;
    report(rt, 8, w8(m))?;
    report(rt, 9, w9(m))?;
    report(rt, 10, w10(m))?;
    report(rt, 11, w11(m))?;
    report(rt, 12, w12(m))?;
    print(rt, "done 12")
}

fn main(rt: HostRuntime) {
    let mut m = Lent {
        store: &mut [0; STORE_SIZE],
        area: &mut [0; AREA_SIZE],
    };
    let _ = examples(&rt, &mut m);
}

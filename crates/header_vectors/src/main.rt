// Headers worked out by hand from the PCI Express layout, as the writers write them, and what the readers say of
// damaged ones: the number of the request reader, then that of the completion reader. The first line that cannot be written is
// the last.
#![tactic(auto)]

use refusals::Refusal;
use std::fmt;
use streams::WriteFailed;
use tlp::completion::{Completion, read_completion, write_completion};
use tlp::request::{ConfigAddress, Request, Target, read_request, write_request};
use traffic_text::line::{number_in, print};

// A space and two hex digits for each byte.
#[derive(Clone, Copy)]
struct Bytes<'a>(&'a [u8]);

impl fmt::Display for Bytes<'_> {
    fn fmt<W: fmt::Write>(&self, f: &mut fmt::Formatter<W>) -> fmt::Result {
        for b in self.0 {
            write!(f, " {b:02x}")?;
        }
        Ok(())
    }
}

// What was written into the area, or the number of the refusal.
fn written(
    rt: &(impl Print + Eprint),
    name: &str,
    w: Result<usize, Refusal>,
    area: &[u8],
) -> Result<(), WriteFailed> {
    match w {
        Ok(n) => {
            let bytes = Bytes(area.get(..n).unwrap_or(&[]));
            print(rt, format_args!("{name}:{bytes}"))
        }
        Err(why) => print(rt, format_args!("{name}: {}", why.number())),
    }
}

fn requests(rt: &(impl Print + Eprint), rows: &[(&str, Request)]) -> Result<(), WriteFailed> {
    for (name, q) in rows {
        let mut area = [0u8; 16];
        let w = write_request(*q, &mut area);
        written(rt, name, w, &area)?;
    }
    Ok(())
}

fn memory(write: bool, address: u64, length: u32, last: u32, first: u32) -> Request {
    Request {
        write,
        target: Target::Memory(address),
        length,
        requester: 0,
        tag: 0,
        last,
        first,
    }
}

fn config(write: bool, target: Target, first: u32) -> Request {
    Request {
        write,
        target,
        length: 1,
        requester: 0,
        tag: 0,
        last: 0,
        first,
    }
}

fn success(length: u32, count: u32, lower: u32, poisoned: bool) -> Completion {
    Completion {
        payload: true,
        poisoned,
        length,
        completer: 0x0100,
        status: 0,
        count,
        requester: 0,
        tag: 0,
        lower,
    }
}

fn failure(status: u32, tag: u32) -> Completion {
    Completion {
        payload: false,
        poisoned: false,
        length: 0,
        completer: 0x0100,
        status,
        count: 4,
        requester: 0,
        tag,
        lower: 0,
    }
}

// What both readers say of a header that is cut to so many bytes, with one byte put anew.
fn damaged<const N: usize>(
    rt: &(impl Print + Eprint),
    name: &str,
    header: [u8; N],
    length: usize,
    at: usize,
    byte: u8,
) -> Result<(), WriteFailed> {
    let mut s = header;
    if let Some(b) = s.get_mut(at) {
        *b = byte;
    }
    let part = s.get(..length).unwrap_or(&s);
    print(
        rt,
        format_args!(
            "{name}: {} {}",
            number_in(read_request(part)),
            number_in(read_completion(part))
        ),
    )
}

fn memory_requests(rt: &(impl Print + Eprint)) -> Result<(), WriteFailed> {
    requests(
        rt,
        &[
            ("W1, one word", memory(false, 0x56710ABC, 1, 0, 0xF)),
            (
                "W2, its first piece",
                memory(false, 0x56710ABC, 17, 0xF, 0xF),
            ),
            ("W3, six bytes", memory(false, 0x56710ABC, 2, 0xF, 0xC)),
            ("W4, two bytes", memory(false, 0x56710ABC, 1, 0, 0x6)),
            ("read at 2^32", memory(false, 0x100000000, 1, 0, 0xF)),
            (
                "write of 1,024 words at the top",
                memory(true, 0xFFFFFFFFFFFFF000, 1024, 0xF, 0xF),
            ),
            ("write of 32 words", memory(true, 0x80, 32, 0xF, 0xF)),
        ],
    )
}

fn config_requests(rt: &(impl Print + Eprint)) -> Result<(), WriteFailed> {
    let w7 = ConfigAddress {
        bus: 1,
        device: 0,
        function: 0,
        extended: 0,
        register: 0,
    };
    let far = ConfigAddress {
        bus: 2,
        device: 5,
        function: 3,
        extended: 1,
        register: 4,
    };
    requests(
        rt,
        &[
            (
                "W7, configuration read",
                config(false, Target::Config0(w7), 0xF),
            ),
            (
                "configuration write, type 1",
                config(true, Target::Config1(far), 0x3),
            ),
        ],
    )
}

fn refused_requests(rt: &(impl Print + Eprint)) -> Result<(), WriteFailed> {
    requests(
        rt,
        &[
            ("length 0", memory(false, 0, 0, 0, 0xF)),
            ("length 1,025", memory(false, 0, 1025, 0xF, 0xF)),
            ("last enables with one word", memory(false, 0, 1, 1, 0xF)),
            (
                "no last enables with two words",
                memory(false, 0, 2, 0, 0xF),
            ),
            (
                "no first enables with two words",
                memory(false, 0, 2, 0xF, 0),
            ),
            ("address not a multiple of 4", memory(false, 2, 1, 0, 0xF)),
        ],
    )
}

fn completions(rt: &(impl Print + Eprint)) -> Result<(), WriteFailed> {
    for (name, c) in [
        ("W3, its completion", success(2, 6, 0x3E, false)),
        ("4,096 bytes, poisoned", success(1024, 4096, 0, true)),
        ("UR", failure(1, 5)),
        ("CRS", failure(2, 5)),
        ("CA", failure(4, 31)),
        ("reserved status 7", failure(7, 255)),
        ("status 8", failure(8, 0)),
        ("lower address 128", success(1, 4, 128, false)),
        ("count 0", success(1, 0, 0, false)),
    ] {
        let mut area = [0u8; 16];
        let w = write_completion(c, &mut area);
        written(rt, name, w, &area)?;
    }
    Ok(())
}

// Of the 3-word read of one word.
fn damaged_requests(rt: &(impl Print + Eprint)) -> Result<(), WriteFailed> {
    let header = [
        0x00u8, 0, 0, 1, 0, 0, 0, 0x0F, 0x56, 0x71, 0x0A, 0xBC, 0, 0, 0, 0, 0,
    ];
    for (name, length, at, byte) in [
        ("no bytes", 0, 0, 0),
        ("11 bytes", 11, 0, 0),
        ("12 bytes", 12, 0, 0),
        ("13 bytes", 13, 0, 0),
        ("16 bytes, 4 words, address 2^32 or more", 16, 0, 0x20),
        ("17 bytes", 17, 0, 0x20),
        ("byte 0 FF", 12, 0, 0xFF),
        ("byte 1 not zero", 12, 1, 1),
        ("EP set", 12, 2, 0x40),
        ("length 4", 12, 3, 4),
        ("address bit 0", 12, 11, 0xBD),
        ("byte 0 05, a configuration header", 12, 0, 0x05),
    ] {
        damaged(rt, name, header, length, at, byte)?;
    }
    Ok(())
}

// Of a configuration read of bus 1, register 1. The enables of two words are right, so that only their number is wrong.
fn damaged_configs(rt: &(impl Print + Eprint)) -> Result<(), WriteFailed> {
    for (name, enables, at, byte) in [
        ("configuration read", 0x0F, 0, 0x04),
        ("configuration read, register bit 0", 0x0F, 11, 5),
        ("configuration read, register bit 1", 0x0F, 11, 6),
        (
            "configuration read, extended register bit 4",
            0x0F,
            10,
            0x10,
        ),
        ("configuration read of two words", 0xFF, 3, 2),
    ] {
        let header = [0x04u8, 0, 0, 1, 0, 0, 0, enables, 1, 0, 0, 4];
        damaged(rt, name, header, 12, at, byte)?;
    }
    Ok(())
}

// Of a completion with one word of data.
fn damaged_completions(rt: &(impl Print + Eprint)) -> Result<(), WriteFailed> {
    let header = [0x4Au8, 0, 0, 1, 0x01, 0, 0, 4, 0, 0, 0, 0x3C, 0, 0, 0, 0, 0];
    for (name, length, at, byte) in [
        ("completion", 12, 0, 0x4A),
        ("completion and payload", 16, 0, 0x4A),
        ("without data, length 1", 12, 0, 0x0A),
        ("poisoned", 12, 2, 0x40),
        ("byte 2, bit 5", 12, 2, 0x20),
        ("data with status 1", 12, 6, 0x20),
        ("byte 6, bit 4", 12, 6, 0x10),
        ("lower address, bit 7", 12, 11, 0xBC),
    ] {
        damaged(rt, name, header, length, at, byte)?;
    }
    Ok(())
}

fn vectors(rt: &(impl Print + Eprint)) -> Result<(), WriteFailed> {
    memory_requests(rt)?;
    config_requests(rt)?;
    refused_requests(rt)?;
    completions(rt)?;
    damaged_requests(rt)?;
    damaged_configs(rt)?;
    damaged_completions(rt)
}

fn main(rt: HostRuntime) {
    let _ = vectors(&rt);
}

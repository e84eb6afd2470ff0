// Header writers and readers: each plays one record, without the bridge, and prints its line.
#![tactic(auto)]

use refusals::Refusal;
use std::fmt;
use streams::WriteFailed;
use tlp::completion::{Completion, read_completion, write_completion};
use tlp::request::{ConfigAddress, Request, Target, read_request, write_request};
use traffic_file::record::{Kind, Record};
use traffic_text::input::{byte_at, flag_at, long_at, word_at};
use traffic_text::line::{Area, number_in, print};

fn config_in(f: &[u8]) -> ConfigAddress {
    ConfigAddress {
        bus: word_at(f, 14),
        device: word_at(f, 18),
        function: word_at(f, 22),
        extended: word_at(f, 26),
        register: word_at(f, 30),
    }
}

fn target_in(f: &[u8]) -> Target {
    match byte_at(f, 5) {
        0 => Target::Memory(long_at(f, 6)),
        1 => Target::Config0(config_in(f)),
        _ => Target::Config1(config_in(f)),
    }
}

fn request_in(f: &[u8]) -> Request {
    Request {
        write: flag_at(f, 4),
        target: target_in(f),
        length: word_at(f, 34),
        requester: word_at(f, 38),
        tag: word_at(f, 42),
        last: word_at(f, 46),
        first: word_at(f, 50),
    }
}

fn completion_in(f: &[u8]) -> Completion {
    Completion {
        payload: flag_at(f, 4),
        poisoned: flag_at(f, 5),
        length: word_at(f, 6),
        completer: word_at(f, 10),
        status: word_at(f, 14),
        count: word_at(f, 18),
        requester: word_at(f, 22),
        tag: word_at(f, 26),
        lower: word_at(f, 30),
    }
}

// A value of a header, as the log shows it.
#[derive(Clone, Copy)]
struct Shown<T: Copy>(T);

impl fmt::Display for Shown<ConfigAddress> {
    fn fmt<W: fmt::Write>(&self, f: &mut fmt::Formatter<W>) -> fmt::Result {
        let c = self.0;
        write!(
            f,
            "{} {} {} {} {}",
            c.bus, c.device, c.function, c.extended, c.register
        )
    }
}

// A target's number, its address and its place. Fields that it does not have are 0.
impl fmt::Display for Shown<Target> {
    fn fmt<W: fmt::Write>(&self, f: &mut fmt::Formatter<W>) -> fmt::Result {
        match self.0 {
            Target::Memory(a) => write!(f, "0 {a:016x} 0 0 0 0 0"),
            Target::Config0(c) => write!(f, "1 {:016x} {}", 0, Shown(c)),
            Target::Config1(c) => write!(f, "2 {:016x} {}", 0, Shown(c)),
        }
    }
}

impl fmt::Display for Shown<Request> {
    fn fmt<W: fmt::Write>(&self, f: &mut fmt::Formatter<W>) -> fmt::Result {
        let q = self.0;
        let write = u32::from(q.write);
        let target = Shown(q.target);
        write!(
            f,
            "{write} {target} {} {} {} {} {}",
            q.length, q.requester, q.tag, q.last, q.first
        )
    }
}

impl fmt::Display for Shown<Completion> {
    fn fmt<W: fmt::Write>(&self, f: &mut fmt::Formatter<W>) -> fmt::Result {
        let c = self.0;
        let payload = u32::from(c.payload);
        let poisoned = u32::from(c.poisoned);
        write!(
            f,
            "{payload} {poisoned} {} {} {} {} {} {} {}",
            c.length, c.completer, c.status, c.count, c.requester, c.tag, c.lower
        )
    }
}

// What a writer answered, with the area that it was lent.
fn say_written(
    rt: &(impl Print + Eprint),
    event: u64,
    kind: Kind,
    w: Result<usize, Refusal>,
    area: &[u8],
) -> Result<(), WriteFailed> {
    let number = number_in(w);
    let length = w.unwrap_or(0);
    let area = Area(area);
    print(
        rt,
        format_args!("{event} {kind} {number} sent {length} {area}"),
    )
}

// What a reader found: the header's fields, or the number of its refusal.
fn say_read<T>(
    rt: &(impl Print + Eprint),
    event: u64,
    kind: Kind,
    found: Result<T, Refusal>,
) -> Result<(), WriteFailed>
where
    T: Copy,
    Shown<T>: fmt::Display,
{
    match found {
        Ok(header) => print(
            rt,
            format_args!("{event} {kind} 0 fields {}", Shown(header)),
        ),
        Err(why) => print(rt, format_args!("{event} {kind} {}", why.number())),
    }
}

// A record of a header writer or reader. A writer is lent as much of the area as its first field says.
pub fn play_header(
    rt: &(impl Print + Eprint),
    event: u64,
    record: Record,
    area: &mut [u8],
) -> Result<(), WriteFailed> {
    let kind = record.kind;
    let f = record.fields;
    let lent = area.get_mut(..word_at(f, 0) as usize);
    match (kind, lent) {
        (Kind::RequestWriter, Some(part)) => {
            let w = write_request(request_in(f), part);
            say_written(rt, event, kind, w, part)
        }
        (Kind::CompletionWriter, Some(part)) => {
            let w = write_completion(completion_in(f), part);
            say_written(rt, event, kind, w, part)
        }
        (Kind::RequestReader, _) => say_read(rt, event, kind, read_request(record.bytes)),
        (Kind::CompletionReader, _) => say_read(rt, event, kind, read_completion(record.bytes)),
        _ => Ok(()),
    }
}

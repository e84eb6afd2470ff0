// Standard input and standard output, moved whole, through the reader and the writer that a program hands down. A call that
// fails is said on standard error, in one line, where it fails: the end of the input is no failure, and neither function takes
// the one for the other.
#![tactic(auto)]

ghost use Rattle.std.specs.Prelude.{◌≡◌, ◌≤◌, length, take, IsOk, OnOk, IsErrOf};
ghost use Rattle.std.specs.Io.KnownBytes.{Appends, Consumes, IsAtEnd};

use arrayvec::ArrayString;
use std::fmt::Write as _;
use std::io;
use std::io::{Error, ErrorKind, Read, Write};

// Why a buffer was not filled: the input ended before its last byte, or a read failed.
#[derive(Clone, Copy, Debug, PartialEq, Eq)]
pub enum Unfilled {
    Ended,
    Failed,
}

// Not all of a buffer was written, as is said on standard error.
#[derive(Clone, Copy, Debug, PartialEq, Eq)]
pub struct WriteFailed;

// One line: what failed, and the reason in the system's words, without the number that it has for the error.
fn say(rt: &impl Eprint, what: &str, error: io::Error) {
    let mut text = ArrayString::<320>::new();
    let _ = write!(text, "{error}");
    let reason = reason_in(text.as_str());
    let _ = eprintln!(rt; "{what}: {reason}");
}

fn reason_in(text: &str) -> &str {
    match text.split_once(" (os error ") {
        Some((reason, _)) => reason,
        None => text,
    }
}

// Kept: a twin of write_failed; they share `say`, and answer two types.
fn read_failed(rt: &impl Eprint, error: io::Error) -> Unfilled
    ensures { result ≡ Unfilled.Failed }
{
    say(rt, "standard input", error);
    Unfilled::Failed
}

fn write_failed(rt: &impl Eprint, error: io::Error) -> WriteFailed {
    say(rt, "standard output", error);
    WriteFailed
}

// Fills the buffer from standard input. An empty one is full.
// Kept: std's `read_exact` goes on after a signal and gives an end as an error; here a signal fails, and an end is told apart.
pub fn read_all<R: Read>(input: &mut R, rt: &impl Eprint, buffer: &mut [u8]) -> Result<(), Unfilled>
    ensures empty { length buffer.old ≡ 0 → IsOk result }
    ensures all { OnOk result (Consumes (R.remaining input.old) (R.remaining input.new) buffer.new) }
    ensures ended { IsErrOf result Unfilled.Ended → IsAtEnd (R.remaining input.new) }
{
    let mut done = 0;
    while done < buffer.len() {
        match input.read(&mut buffer[done..]) {
            Ok(0) => return Err(Unfilled::Ended),
            Ok(n) => done += n,
            Err(e) => return Err(read_failed(rt, e)),
        }
    }
    Ok(())
}

// What standard input hands over at once, at the front of the buffer: how many bytes. None at its end, after a failed read, and
// for an empty buffer.
pub fn read_some<R: Read>(input: &mut R, rt: &impl Eprint, buffer: &mut [u8]) -> usize
    ensures bound { result ≤ length buffer.new }
    ensures bytes { Consumes (R.remaining input.old) (R.remaining input.new) (take result buffer.new) }
{
    match input.read(buffer) {
        Ok(n) => n,
        Err(e) => {
            read_failed(rt, e);
            0
        }
    }
}

// Writes the buffer to standard output, all of it.
// Kept: std's `write_all` goes on after a signal, and its contract says nothing of an empty buffer.
pub fn write_all<W: Write>(
    output: &mut W,
    rt: &impl Eprint,
    buffer: &[u8],
) -> Result<(), WriteFailed>
    ensures empty { length buffer.now ≡ 0 → IsOk result }
    ensures all { OnOk result (Appends (W.contents output.old) (W.contents output.new) buffer.now) }
{
    let mut done = 0;
    while done < buffer.len() {
        match output.write(&buffer[done..]) {
            Ok(0) => return Err(write_failed(rt, Error::from(ErrorKind::WriteZero))),
            Ok(n) => done += n,
            Err(e) => return Err(write_failed(rt, e)),
        }
    }
    Ok(())
}

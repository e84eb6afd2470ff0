// A line of the log, made in a buffer and printed whole.
ghost use Rattle.std.specs.Prelude.{◌≡◌};
ghost use Rattle.refusals.specs.Refusals.{number_in};

use crate::sum::sum_of;
use arrayvec::ArrayString;
use refusals::Refusal;
use std::fmt;
use std::fmt::{Display, Write};
use std::io::writer;
use streams::WriteFailed;

// Longer than any line.
pub const ROOM: usize = 512;

// Prints a line, with its end.
pub fn print(rt: &(impl Print + Eprint), line: impl Display + Drop) -> Result<(), WriteFailed> {
    let mut text = ArrayString::<ROOM>::new();
    let _ = writeln!(text, "{line}");
    streams::write_all(&mut writer(rt), rt, text.as_str().as_bytes())
}

// The number of a call's refusal, 0 where it is accepted.
pub fn number_in<T: Copy>(answer: Result<T, Refusal>) -> u32
    ensures { result ≡ number_in answer }
{
    match answer {
        Ok(_) => 0,
        Err(why) => why.number(),
    }
}

// An area's checksum.
#[derive(Clone, Copy)]
pub struct Area<'a>(pub &'a [u8]);

impl Display for Area<'_> {
    fn fmt<W: fmt::Write>(&self, f: &mut fmt::Formatter<W>) -> fmt::Result {
        write!(f, "area {:08x}", sum_of(self.0))
    }
}

// The bytes of a part, where there are 1 to 16 of them, otherwise a dash.
#[derive(Clone, Copy)]
pub struct Part<'a>(pub &'a [u8]);

impl Display for Part<'_> {
    fn fmt<W: fmt::Write>(&self, f: &mut fmt::Formatter<W>) -> fmt::Result {
        if !matches!(self.0.len(), 1..=16) {
            return write!(f, "-");
        }
        for b in self.0 {
            write!(f, "{b:02x}")?;
        }
        Ok(())
    }
}

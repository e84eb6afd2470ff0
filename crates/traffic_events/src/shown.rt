// What the lines of the bridge's events show.
use bridge::{Accepted, Answer, Response};
use std::fmt;
use traffic_text::line::number_in;

// An answer, or its response, as the log shows it.
#[derive(Clone, Copy)]
pub struct Shown<T: Copy>(pub T);

impl fmt::Display for Shown<Response> {
    fn fmt<W: fmt::Write>(&self, f: &mut fmt::Formatter<W>) -> fmt::Result {
        f.write_str(match self.0 {
            Response::Okay => "OKAY",
            Response::Slverr => "SLVERR",
            Response::Decerr => "DECERR",
            Response::Nothing => "none",
            Response::Wait => "wait",
        })
    }
}

// The session number stands there where it is not 0. What a refused event shows, its row's response and zeros, `Accepted::of` says.
impl fmt::Display for Shown<Answer> {
    fn fmt<W: fmt::Write>(&self, f: &mut fmt::Formatter<W>) -> fmt::Result {
        let number = number_in(self.0);
        let a = Accepted::of(self.0);
        let response = Shown(a.response);
        let session = a.figures.session;
        write!(
            f,
            "{number} {response} slot {} sent {} data {:08x}",
            a.slot, a.length, a.word
        )?;
        if session != 0 {
            write!(f, " session {session}")?;
        }
        Ok(())
    }
}

// The bridge after an event.
#[derive(Clone, Copy)]
pub struct After {
    // What local words 018, 134, 138, 13C and 144 show.
    pub registers: [u32; 5],
    // What 148 and 154 show: the words of the error messages.
    pub errors: [u32; 2],
    // The interrupt line.
    pub line: bool,
    // The store's checksum.
    pub sum: u32,
}

// The words of the error messages stand there where one of them is not 0.
impl fmt::Display for After {
    fn fmt<W: fmt::Write>(&self, f: &mut fmt::Formatter<W>) -> fmt::Result {
        let [buses, control, decode, mask, message] = self.registers;
        let [status, oldest] = self.errors;
        let line = u32::from(self.line);
        let sum = self.sum;
        write!(
            f,
            "regs {buses:08x} {control:08x} {decode:08x} {mask:08x} {message:08x}"
        )?;
        write!(f, " line {line} store {sum:08x}")?;
        if self.errors != [0, 0] {
            write!(f, " errors {status:08x} {oldest:08x}")?;
        }
        Ok(())
    }
}

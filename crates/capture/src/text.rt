// Lines for standard output, gathered in a buffer.
use arrayvec::ArrayString;
use std::fmt::{Display, Write};
use std::io::writer;
use streams::WriteFailed;

// The buffer, and more than the longest line.
const OUT: usize = 32768;

const LINE: usize = 80;

#[derive(Drop)]
pub struct Lines<'a, P> {
    waiting: ArrayString<OUT>,
    rt: &'a P,
}

impl<'a, P: Print + Eprint> Lines<'a, P> {
    pub fn new(rt: &'a P) -> Lines<'a, P> {
        Lines {
            waiting: ArrayString::new(),
            rt,
        }
    }

    // What waits is written.
    pub fn flush(&mut self) -> Result<(), WriteFailed> {
        let bytes = self.waiting.as_str().as_bytes();
        streams::write_all(&mut writer(self.rt), self.rt, bytes)?;
        self.waiting.clear();
        Ok(())
    }

    // One more line, once there is room for it.
    pub fn say(&mut self, line: impl Display + Drop) -> Result<(), WriteFailed> {
        if OUT - LINE <= self.waiting.len() {
            self.flush()?;
        }
        let _ = writeln!(self.waiting, "{line}");
        Ok(())
    }
}

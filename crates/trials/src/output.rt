// A line of output, made of its pieces and written at once.
use refusal::Refusal;
use std::fmt::Write;
use std::{fmt, io};

// The first `len` bytes are the line so far. The longest line has 110 bytes; what does not fit is dropped.
#[derive(Clone, Copy)]
pub struct Line {
    pub bytes: [u8; 128],
    pub len: usize,
}

// No write fails, since what does not fit is dropped.
impl fmt::Write for Line {
    fn write_str(&mut self, s: &str) -> fmt::Result {
        *self = self.text(s.as_bytes());
        Ok(())
    }
}

impl Line {
    // A line that starts with the text.
    pub fn new(start: &[u8]) -> Line {
        let empty = Line {
            bytes: [0u8; 128],
            len: 0,
        };
        empty.text(start)
    }

    // The line with one byte more.
    fn byte(mut self, b: u8) -> Line {
        let at = self.len;
        if at < 128 {
            self.bytes[at] = b;
            self.len = at + 1;
        }
        self
    }

    // The line with a text more.
    pub fn text(self, s: &[u8]) -> Line {
        let mut line = self;
        for b in s {
            line = line.byte(*b);
        }
        line
    }

    // The line with a space and a decimal number more.
    pub fn number(mut self, n: u64) -> Line {
        let _ = write!(self, " {n}");
        self
    }

    // The line with a space and 16 hexadecimal digits more.
    pub fn hex(mut self, n: u64) -> Line {
        let _ = write!(self, " {n:016x}");
        self
    }

    // The line with a refusal's number more.
    pub fn refused(self, refusal: Refusal) -> Line {
        self.text(b" refused").number(u64::from(u8::from(refusal)))
    }

    // The line with a number answered, or a refusal, more.
    pub fn answer(self, answer: Result<u64, Refusal>) -> Line {
        match answer {
            Ok(n) => self.number(n),
            Err(refusal) => self.refused(refusal),
        }
    }

    // Writes the line and a line feed.
    pub fn write<W: io::Write>(self, out: &mut W) -> io::Result<()> {
        let whole = self.byte(b'\n');
        let len = whole.len.min(128);
        out.write_all(&whole.bytes[..len])
    }
}

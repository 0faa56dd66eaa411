//! A writer for tests, of which one call fails, and the text that it takes.

use crate::readers::fails;
use std::fmt;
use std::io::{self, Error, ErrorKind, Write};

/// Takes one byte a write. The write after `good` good ones takes nothing, or returns the error after which Rust's own loops try
/// again.
#[derive(Drop)]
pub struct FailingWriter {
    written: Line,
    good: usize,
    takes_nothing: bool,
}

impl FailingWriter {
    /// Took nothing yet.
    pub fn new(good: usize, takes_nothing: bool) -> FailingWriter {
        FailingWriter {
            written: Line::new(),
            good,
            takes_nothing,
        }
    }

    /// What was written.
    pub fn written(&self) -> Line {
        self.written
    }
}

impl Write for FailingWriter {
    fn write(&mut self, buf: &[u8]) -> io::Result<usize> {
        if fails(&mut self.good) {
            if self.takes_nothing {
                return Ok(0);
            }
            return Err(Error::from(ErrorKind::Interrupted));
        }
        let Some(byte) = buf.first() else {
            return Ok(0);
        };
        self.written.push(*byte);
        Ok(1)
    }

    fn flush(&mut self) -> io::Result<()> {
        Ok(())
    }
}

/// A text of at most 400 bytes, which takes no memory.
#[derive(Clone, Copy)]
pub struct Line {
    bytes: [u8; 400],
    count: usize,
}

impl Line {
    /// No text yet.
    pub fn new() -> Line {
        Line {
            bytes: [0; 400],
            count: 0,
        }
    }

    /// What was written so far.
    pub fn text(&self) -> &[u8] {
        self.bytes.get(..self.count).unwrap_or(&self.bytes)
    }

    fn push(&mut self, byte: u8) {
        if let Some(place) = self.bytes.get_mut(self.count) {
            *place = byte;
            self.count += 1;
        }
    }
}

impl fmt::Write for Line {
    fn write_str(&mut self, text: &str) -> fmt::Result {
        for byte in text.bytes() {
            self.push(byte);
        }
        Ok(())
    }
}

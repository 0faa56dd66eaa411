//! A reader for tests, of which one call fails.

use std::io::{self, Error, ErrorKind, Read};

/// More reads or writes than any call makes.
pub const ALL: usize = usize::MAX;

/// Whether this call fails, if the one after `good` good ones does. The calls after it are good.
pub(crate) fn fails(good: &mut usize) -> bool {
    let fails = *good == 0;
    *good = good.wrapping_sub(1);
    fails
}

/// Returns a text one byte a read. The read after `good` good ones returns the error.
#[derive(Drop)]
pub struct FailingReader<'a> {
    rest: &'a [u8],
    good: usize,
    error: ErrorKind,
}

impl<'a> FailingReader<'a> {
    /// Has a text to return.
    pub fn new(rest: &'a [u8], good: usize, error: ErrorKind) -> FailingReader<'a> {
        FailingReader { rest, good, error }
    }
}

impl Read for FailingReader<'_> {
    fn read(&mut self, buf: &mut [u8]) -> io::Result<usize> {
        if fails(&mut self.good) {
            return Err(Error::from(self.error));
        }
        let count = self.rest.len().min(buf.len()).min(1);
        buf[..count].copy_from_slice(&self.rest[..count]);
        self.rest = &self.rest[count..];
        Ok(count)
    }
}

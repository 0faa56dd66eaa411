//! A system for tests, in which the program was called with given arguments.

use crate::writers::Line;
use std::cell::Cell;
use std::env::FillError;
use std::fmt::{self, Display};
use std::io::{self, Eprint};
use std::rt::Env;

/// A system in which the program was called with these arguments, its name first. It keeps what the program showed on standard
/// error.
#[derive(Drop)]
pub struct CalledWith<'a> {
    words: &'a [&'a [u8]],
    shown: Cell<Line>,
}

impl<'a> CalledWith<'a> {
    /// The program was called with these arguments, and has shown nothing.
    pub fn new(words: &'a [&'a [u8]]) -> CalledWith<'a> {
        CalledWith {
            words,
            shown: Cell::new(Line::new()),
        }
    }

    /// What the program has shown.
    pub fn shown(&self) -> Line {
        self.shown.get()
    }
}

impl Eprint for CalledWith<'_> {
    fn eprint<D: Display + Drop>(&self, value: D) -> io::Result<()> {
        let mut line = self.shown.get();
        let _ = fmt::Write::write_fmt(&mut line, format_args!("{value}"));
        self.shown.set(line);
        Ok(())
    }

    fn eprintln<D: Display + Drop>(&self, value: D) -> io::Result<()> {
        self.eprint(value)?;
        self.eprint("\n")
    }
}

impl Env for CalledWith<'_> {
    fn arg(&self, i: usize, buf: &mut [u8]) -> Result<usize, FillError> {
        let Some(word) = self.words.get(i) else {
            return Err(FillError::NotPresent);
        };
        if word.len() > buf.len() {
            return Err(FillError::TooLong);
        }
        buf[..word.len()].copy_from_slice(word);
        Ok(word.len())
    }

    fn var(&self, _name: &str, _buf: &mut [u8]) -> Result<usize, FillError> {
        Err(FillError::NotPresent)
    }

    fn var_at(&self, _i: usize, _buf: &mut [u8]) -> Result<usize, FillError> {
        Err(FillError::NotPresent)
    }
}

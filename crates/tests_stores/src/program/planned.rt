//! A run whose words a test plans, writers that fail, and an assertion on a text.
use std::alloc::{Allocator, Global};
use std::env::{Env, FillError};
use std::io;
use std::io::{Error, ErrorKind, Read, Write};
use std::process::Abort;

/// A run with these words, the program's name first, of which one, if any, is given as a byte that is no text. It has no variables.
#[derive(Drop)]
pub(crate) struct Planned<'a> {
    pub(crate) alloc: Global,
    pub(crate) words: &'a [&'a str],
    pub(crate) odd: Option<usize>,
}

impl Alloc for Planned<'_> {
    type A = Global;

    fn alloc(&self) -> Global {
        self.alloc
    }
}

impl Env for Planned<'_> {
    fn arg(&self, i: usize, buf: &mut [u8]) -> Result<usize, FillError> {
        let Some(word) = self.words.get(i) else {
            return Err(FillError::NotPresent);
        };
        let mut bytes = match self.odd {
            Some(odd) if odd == i => b"\xff".as_slice(),
            _ => word.as_bytes(),
        };
        if bytes.len() > buf.len() {
            return Err(FillError::TooLong);
        }
        match bytes.read(buf) {
            Ok(n) => Ok(n),
            Err(_) => Err(FillError::NotPresent),
        }
    }

    fn var(&self, _name: &str, _buf: &mut [u8]) -> Result<usize, FillError> {
        Err(FillError::NotPresent)
    }

    fn var_at(&self, _i: usize, _buf: &mut [u8]) -> Result<usize, FillError> {
        Err(FillError::NotPresent)
    }
}

/// A writer that takes nothing.
#[derive(Drop)]
pub(crate) struct Full;

impl Write for Full {
    fn write(&mut self, _buf: &[u8]) -> io::Result<usize> {
        Err(Error::from(ErrorKind::Other))
    }

    fn flush(&mut self) -> io::Result<()> {
        Ok(())
    }
}

/// A writer that takes all bytes, and cannot hand them on.
#[derive(Drop)]
pub(crate) struct Unflushed;

impl Write for Unflushed {
    fn write(&mut self, buf: &[u8]) -> io::Result<usize> {
        Ok(buf.len())
    }

    fn flush(&mut self) -> io::Result<()> {
        Err(Error::from(ErrorKind::Other))
    }
}

/// Asserts that a text is the wanted one. The case is named where the assertion fails. One that stands in a test is proved there
/// with the text that it would print, so the tests call this.
pub(crate) fn assert_text<R: Abort>(rt: &R, case: &str, found: &str, wanted: &str) {
    assert_eq!(rt; found, wanted, "{case}");
}

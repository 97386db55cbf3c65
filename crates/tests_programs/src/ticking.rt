//! A runtime whose clock is a test's.
use std::alloc::{Allocator, Global};
use std::cell::{Cell, RefCell};
use std::fmt::Display;
use std::fs::{Metadata, OpenOptions};
use std::io;
use std::io::{Eprint, Error, ErrorKind, Write};
use std::rt::Files;
use std::time::{Clock, Duration};

/// The runtime of the system, but for the clock, which goes on one second each time it is read, and for the standard error, which is kept. Files
/// are only read.
#[derive(Drop)]
pub(crate) struct Ticking<'a> {
    rt: &'a HostRuntime,
    seconds: Cell<u32>,
    said: RefCell<Vec<u8>>,
}

impl<'a> Ticking<'a> {
    /// A runtime whose clock has not been read.
    pub(crate) fn new(rt: &'a HostRuntime) -> Ticking<'a> {
        Ticking {
            rt,
            seconds: Cell::new(0),
            said: RefCell::new(Vec::new(rt.alloc())),
        }
    }

    /// What was written to the standard error.
    pub(crate) fn into_said(self) -> Vec<u8> {
        let Ticking {
            rt: _,
            seconds: _,
            said,
        } = self;
        said.into_inner()
    }
}

fn refusal() -> Error {
    Error::from(ErrorKind::PermissionDenied)
}

impl Alloc for Ticking<'_> {
    type A = Global;

    fn alloc(&self) -> Global {
        self.rt.alloc()
    }
}

impl Clock for Ticking<'_> {
    fn monotonic(&self) -> io::Result<Duration> {
        let seconds = self.seconds.get().saturating_add(1);
        self.seconds.set(seconds);
        Ok(Duration::from_secs(u64::from(seconds)))
    }

    fn since_1970(&self) -> io::Result<Duration> {
        Err(refusal())
    }
}

impl Eprint for Ticking<'_> {
    fn eprint<D: Display + Drop>(&self, value: D) -> io::Result<()> {
        match self.said.try_borrow_mut() {
            Ok(mut said) => write!(said, "{value}"),
            Err(_) => Err(refusal()),
        }
    }

    fn eprintln<D: Display + Drop>(&self, value: D) -> io::Result<()> {
        match self.said.try_borrow_mut() {
            Ok(mut said) => said.writeln(value),
            Err(_) => Err(refusal()),
        }
    }
}

impl Files for Ticking<'_> {
    type File = <HostRuntime as Files>::File;

    type Dir = <HostRuntime as Files>::Dir;

    fn open_file(&self, how: &OpenOptions, path: &str) -> io::Result<<HostRuntime as Files>::File> {
        self.rt.open_file(how, path)
    }

    fn open_dir(&self, path: &str) -> io::Result<<HostRuntime as Files>::Dir> {
        self.rt.open_dir(path)
    }

    fn metadata(&self, path: &str) -> io::Result<Metadata> {
        Files::metadata(self.rt, path)
    }

    fn symlink_metadata(&self, path: &str) -> io::Result<Metadata> {
        self.rt.symlink_metadata(path)
    }

    fn copy(&self, _from: &str, _to: &str) -> io::Result<u64> {
        Err(refusal())
    }

    fn rename(&self, _from: &str, _to: &str) -> io::Result<()> {
        Err(refusal())
    }

    fn remove_file(&self, _path: &str) -> io::Result<()> {
        Err(refusal())
    }

    fn create_dir(&self, _path: &str) -> io::Result<()> {
        Err(refusal())
    }

    fn remove_dir(&self, _path: &str) -> io::Result<()> {
        Err(refusal())
    }

    fn remove_dir_all<B: Allocator>(&self, _alloc: B, _path: &str) -> io::Result<()> {
        Err(refusal())
    }
}

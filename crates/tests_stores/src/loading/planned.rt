//! A file system that a test plans.
use std::alloc::{Allocator, Global};
use std::fs::{Metadata, OpenFile, OpenOptions};
use std::io;
use std::io::{Error, ErrorKind, Read, Seek, SeekFrom, Write};
use std::rt::Files;

/// A file system whose folders list the same names, some of them `times` over. `l` is that of a
/// link, all others those of files that are all the same, and attributes are not opened.
#[derive(Drop)]
pub(crate) struct Planned<'a> {
    pub(crate) alloc: Global,
    pub(crate) many: &'a [u8],
    pub(crate) times: u32,
    pub(crate) last: &'a [u8],
    pub(crate) file: Planted,
}

/// A file of a length, given byte by byte, or one that cannot be read.
#[derive(Clone, Copy, Drop)]
pub(crate) enum Planted {
    Long(u32),
    Broken,
}

/// The names of a folder that are still to come.
#[derive(Drop)]
pub(crate) struct Names<'a> {
    many: &'a [u8],
    times: u32,
    last: &'a [u8],
}

impl Read for Names<'_> {
    fn read(&mut self, buf: &mut [u8]) -> io::Result<usize> {
        let Some(left) = self.times.checked_sub(1) else {
            return self.last.read(buf);
        };
        self.times = left;
        let mut names = self.many;
        names.read(buf)
    }
}

impl Read for Planted {
    fn read(&mut self, buf: &mut [u8]) -> io::Result<usize> {
        let Planted::Long(left) = self else {
            return Err(refusal());
        };
        let Some(less) = left.checked_sub(1) else {
            return Ok(0);
        };
        *left = less;
        let mut byte = b" ".as_slice();
        byte.read(buf)
    }
}

fn refusal() -> Error {
    Error::from(ErrorKind::PermissionDenied)
}

impl Write for Planted {
    fn write(&mut self, _buf: &[u8]) -> io::Result<usize> {
        Err(refusal())
    }

    fn flush(&mut self) -> io::Result<()> {
        Ok(())
    }
}

impl Seek for Planted {
    fn seek(&mut self, _to: SeekFrom) -> io::Result<u64> {
        Err(refusal())
    }
}

impl OpenFile for Planted {
    fn metadata(&self) -> io::Result<Metadata> {
        Err(refusal())
    }

    fn set_len(&self, _size: u64) -> io::Result<()> {
        Err(refusal())
    }

    fn sync_all(&self) -> io::Result<()> {
        Err(refusal())
    }

    fn sync_data(&self) -> io::Result<()> {
        Err(refusal())
    }
}

impl Alloc for Planned<'_> {
    type A = Global;

    fn alloc(&self) -> Global {
        self.alloc
    }
}

impl<'a> Files for Planned<'a> {
    type File = Planted;

    type Dir = Names<'a>;

    fn open_file(&self, _how: &OpenOptions, path: &str) -> io::Result<Planted> {
        if path.ends_with(".zattrs") {
            Err(refusal())
        } else {
            Ok(self.file)
        }
    }

    fn open_dir(&self, _path: &str) -> io::Result<Names<'a>> {
        Ok(Names {
            many: self.many,
            times: self.times,
            last: self.last,
        })
    }

    fn metadata(&self, _path: &str) -> io::Result<Metadata> {
        Err(refusal())
    }

    fn symlink_metadata(&self, path: &str) -> io::Result<Metadata> {
        if path.ends_with("hidden") {
            return Err(refusal());
        }
        if path.ends_with("/l") {
            return Ok(Metadata::of_symlink(1));
        }
        Ok(Metadata::of_file(1))
    }

    fn copy(&self, _from: &str, _to: &str) -> io::Result<u64> {
        Err(refusal())
    }

    fn rename(&self, _from: &str, _to: &str) -> io::Result<()> {
        Err(refusal())
    }

    fn remove_file(&self, _path: &str) -> io::Result<()> {
        Err(refusal())
    }

    fn create_dir(&self, _path: &str) -> io::Result<()> {
        Err(refusal())
    }

    fn remove_dir(&self, _path: &str) -> io::Result<()> {
        Err(refusal())
    }

    fn remove_dir_all<B: Allocator>(&self, _alloc: B, _path: &str) -> io::Result<()> {
        Err(refusal())
    }
}

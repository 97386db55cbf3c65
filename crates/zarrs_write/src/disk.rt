//! A folder of the system.
ghost use Rattle.std.specs.Prelude.{None};

use crate::fault::PlaceFault;
use crate::place::Place;
use std::alloc::{AllocError, Global};
use std::fs::{self, File, OpenFile, OpenOptions};
use std::io::{self, Error, ErrorKind, Read, Write};
use std::os::unix::fs::{MetadataExt, chown};
use std::rt::Files;

/// A folder of the system, by its path. Which calls it makes is not known to contracts: that each of its calls makes the one of the system that it
/// is named for is read, not proved.
///
/// A document that is a link is refused, since a renaming would put a file in its place.
///
/// Source: POSIX.1-2017, `open`, `write`, `fsync`, `rename`, `unlink`, `chmod` and `chown`.
/// <https://pubs.opengroup.org/onlinepubs/9699919799/functions/open.html>
#[derive(Drop)]
pub struct Disk<'a, R: Files> {
    rt: &'a R,
    folder: &'a str,
    made: Option<Made<R::File>>,
}

// The file that was made last, and its path.
#[derive(Drop)]
struct Made<F> {
    file: F,
    path: String,
}

impl<'a, R: Files + AllocGlobal> Disk<'a, R> {
    /// The folder with this path. Nothing is asked of it yet.
    ///
    /// Source: own.
    pub fn new(rt: &'a R, folder: &'a str) -> Disk<'a, R> {
        Disk {
            rt,
            folder,
            made: None,
        }
    }

    // The path of the file with a name.
    fn path(&self, name: &str) -> Result<String, AllocError> {
        let mut path = String::from_str(self.rt.alloc(), self.folder)?;
        if !self.folder.ends_with('/') {
            path.push('/')?;
        }
        path.push_str(name)?;
        Ok(path)
    }

    // The answer of a call of the system, with its words where it is an error.
    fn told<T: Drop>(&self, answer: io::Result<T>) -> Result<T, PlaceFault> {
        match answer {
            Ok(value) => Ok(value),
            Err(e) => Err(fault_of(self.rt.alloc(), &e)?),
        }
    }
}

impl<R: Files + AllocGlobal> Place for Disk<'_, R> {
    ghost calls = { λ _. None };

    /// The bytes of the file, which is read to its end.
    ///
    /// # Errors
    /// `Refused` where it is not read, or what stands there is no file, as a link or a folder. `OutOfMemory`.
    fn document(&mut self, alloc: Global, name: &str) -> Result<Option<Vec<u8>>, PlaceFault> {
        let path = self.path(name)?;
        match fs::symlink_metadata(self.rt, path.as_str()) {
            Ok(metadata) if metadata.is_file() => {
                let bytes = self.told(bytes_of(alloc, self.rt, path.as_str()))?;
                Ok(Some(bytes))
            }
            Ok(_) => { Err(refused(alloc, "what stands there is no file")?) }
            Err(e) if e.kind() == ErrorKind::NotFound => Ok(None),
            Err(e) => Err(fault_of(alloc, &e)?),
        }
    }

    /// Makes the file and opens it, unless something stands at the name: the system tells that in the same call.
    ///
    /// # Errors
    /// `Refused` where it is not made. `OutOfMemory`.
    fn create(&mut self, name: &str) -> Result<bool, PlaceFault> {
        let path = self.path(name)?;
        let mut how = OpenOptions::new();
        how.write(true).create_new(true);
        match how.open(self.rt, path.as_str()) {
            Ok(file) => {
                self.made = Some(Made { file, path });
                Ok(true)
            }
            Err(e) if e.kind() == ErrorKind::AlreadyExists => Ok(false),
            Err(e) => Err(fault_of(self.rt.alloc(), &e)?),
        }
    }

    /// Gives the file that was made last the owner, where that may be done, and the mode. Access lists and extended attributes are not kept.
    ///
    /// # Errors
    /// `Refused` where what stands at the name is not looked at, or the mode is not given. `OutOfMemory`.
    fn keep(&mut self, name: &str) -> Result<(), PlaceFault> {
        let path = self.path(name)?;
        let answer = match &self.made {
            Some(made) => keep_as(self.rt, path.as_str(), made),
            None => unmade(),
        };
        self.told(answer)
    }

    /// Writes to the file that was made last.
    ///
    /// # Errors
    /// `Refused` where that fails: some of the bytes may be written. `OutOfMemory`.
    fn write(&mut self, bytes: &[u8]) -> Result<(), PlaceFault> {
        let answer = match &mut self.made {
            Some(made) => made.file.write_all(bytes),
            None => unmade(),
        };
        self.told(answer)
    }

    /// Syncs the file that was made last, its bytes and all that is known of it.
    ///
    /// # Errors
    /// `Refused` where that fails. `OutOfMemory`.
    fn sync(&mut self) -> Result<(), PlaceFault> {
        let answer = match &self.made {
            Some(made) => made.file.sync_all(),
            None => unmade(),
        };
        self.told(answer)
    }

    /// Renames the file in the folder.
    ///
    /// # Errors
    /// `Refused` where that fails. `OutOfMemory`.
    fn rename(&mut self, from: &str, to: &str) -> Result<(), PlaceFault> {
        let from = self.path(from)?;
        let to = self.path(to)?;
        self.told(fs::rename(self.rt, from.as_str(), to.as_str()))
    }

    /// Opens the folder and syncs it.
    ///
    /// # Errors
    /// `Refused` where that fails. `OutOfMemory`.
    fn settle(&mut self) -> Result<(), PlaceFault> {
        self.told(sync_folder(self.rt, self.folder))
    }

    /// Removes the file in the folder.
    ///
    /// # Errors
    /// `Refused` where that fails. `OutOfMemory`.
    fn remove(&mut self, name: &str) -> Result<(), PlaceFault> {
        let path = self.path(name)?;
        self.told(fs::remove_file(self.rt, path.as_str()))
    }
}

// All bytes of a file.
fn bytes_of<R: Files>(alloc: Global, rt: &R, path: &str) -> io::Result<Vec<u8>> {
    let mut file = File::open(rt, path)?;
    let mut bytes = Vec::new(alloc);
    file.read_to_end(&mut bytes)?;
    Ok(bytes)
}

// Gives a file the owner and the mode of the one at a path, where there is one.
fn keep_as<R: Files>(rt: &R, path: &str, made: &Made<R::File>) -> io::Result<()> {
    let old = match fs::metadata(rt, path) {
        Ok(old) => old,
        Err(e) if e.kind() == ErrorKind::NotFound => return Ok(()),
        Err(e) => return Err(e),
    };
    let new = made.file.metadata()?;
    if new.uid() != old.uid() || new.gid() != old.gid() {
        match chown(rt, made.path.as_str(), Some(old.uid()), Some(old.gid())) {
            Err(e) if !is_refusal(&e) => return Err(e),
            _ => {}
        }
    }
    made.file.set_permissions(old.permissions())
}

// Whether the system refuses to give a file to another owner.
fn is_refusal(error: &Error) -> bool {
    error.kind() == ErrorKind::PermissionDenied || error.kind() == ErrorKind::Unsupported
}

// Syncs the names in a folder.
fn sync_folder<R: Files>(rt: &R, folder: &str) -> io::Result<()> {
    File::open(rt, folder)?.sync_all()
}

// That no file was made.
fn unmade() -> io::Result<()> {
    Err(Error::from(ErrorKind::NotFound))
}

// The system's words.
fn fault_of(alloc: Global, error: &Error) -> Result<PlaceFault, AllocError> {
    if error.kind() == ErrorKind::OutOfMemory {
        return Ok(PlaceFault::OutOfMemory);
    }
    let text = format!(in alloc; "{error}")?;
    match text.as_str().split_once(" (os error ") {
        Some((words, _)) => refused(alloc, words),
        None => refused(alloc, text.as_str()),
    }
}

// A refusal in these words.
fn refused(alloc: Global, words: &str) -> Result<PlaceFault, AllocError> {
    Ok(PlaceFault::Refused(String::from_str(alloc, words)?))
}

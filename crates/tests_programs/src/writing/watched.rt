//! A folder in memory that tells its calls, and in which another program may write.
ghost use Rattle.std.specs.Prelude.{None};

use std::alloc::{AllocError, Global};
use zarrs_write::{MemoryPlace, Place, PlaceFault};

/// A folder in memory. Its calls are told as words, and before one of the readings another program writes to the document.
#[derive(Drop)]
pub(crate) struct Watched {
    pub(crate) inner: MemoryPlace,
    alloc: Global,
    said: String,
    readings_left: u32,
}

impl Watched {
    /// A folder in which another program writes before the reading with this number; none does where it is 0.
    pub(crate) fn new(alloc: Global, reading: u32) -> Watched {
        Watched {
            inner: MemoryPlace::new(alloc),
            alloc,
            said: String::new(alloc),
            readings_left: reading,
        }
    }

    /// The calls that were made.
    pub(crate) fn said(&self) -> &str {
        self.said.as_str()
    }

    // Tells a call.
    fn say(&mut self, word: &str, name: &str) -> Result<(), AllocError> {
        self.said.push_str(word)?;
        self.said.push(' ')?;
        self.said.push_str(name)?;
        self.said.push(',')
    }

    // What another program does before a reading.
    fn meddle(&mut self, name: &str) -> Result<(), AllocError> {
        if self.readings_left == 1 {
            self.inner.put(name, b"theirs")?;
        }
        self.readings_left = self.readings_left.saturating_sub(1);
        Ok(())
    }
}

impl Place for Watched {
    ghost calls = { λ _. None };

    fn document(&mut self, alloc: Global, name: &str) -> Result<Option<Vec<u8>>, PlaceFault> {
        self.say("read", name)?;
        self.meddle(name)?;
        self.inner.document(alloc, name)
    }

    fn create(&mut self, name: &str) -> Result<bool, PlaceFault> {
        self.say("make", name)?;
        self.inner.create(name)
    }

    fn keep(&mut self, name: &str) -> Result<(), PlaceFault> {
        self.say("keep", name)?;
        self.inner.keep(name)
    }

    fn write(&mut self, bytes: &[u8]) -> Result<(), PlaceFault> {
        self.say("write", "")?;
        self.inner.write(bytes)
    }

    fn sync(&mut self) -> Result<(), PlaceFault> {
        self.say("sync", "")?;
        self.inner.sync()
    }

    fn rename(&mut self, from: &str, to: &str) -> Result<(), PlaceFault> {
        self.say("rename", from)?;
        self.inner.rename(from, to)
    }

    fn settle(&mut self) -> Result<(), PlaceFault> {
        self.say("settle", "")?;
        self.inner.settle()
    }

    fn remove(&mut self, name: &str) -> Result<(), PlaceFault> {
        self.say("remove", name)?;
        self.inner.remove(name)
    }
}

//! A folder in memory: which calls were asked is known.
ghost use Rattle.std.specs.Prelude.{◌≡◌, ◌∷◌, ◌++◌, Some, []};
ghost use Rattle.zarrs_write.specs.StepsOfRecords.{asked_as, call_of};

use crate::fault::PlaceFault;
use crate::place::Place;
use crate::record::Record;
use std::alloc::{AllocError, Global};

// The numbers of calls, as they are noted.
const FOUND_NONE: u64 = 0;

const FOUND: u64 = 1;

const CREATED: u64 = 2;

const KEPT: u64 = 3;

const WROTE: u64 = 4;

const SYNCED: u64 = 5;

const RENAMED: u64 = 6;

const SETTLED: u64 = 7;

const REMOVED: u64 = 8;

const STOOD: u64 = 9;

/// A folder in memory, which can be made to fail: for tests, and to show that the promises of a [`Place`] can be kept. Its calls are known. It
/// does no harm where it fails: a call that fails does nothing.
///
/// Source: own; POSIX.1-2017, `rename`.
/// <https://pubs.opengroup.org/onlinepubs/9699919799/functions/rename.html>
#[derive(Drop)]
pub struct MemoryPlace {
    alloc: Global,
    // the file that was made last is the last one
    files: Vec<(String, Vec<u8>)>,
    has_made: bool,
    left: u64,
    calls: Record,
}

impl MemoryPlace {
    /// A folder without files, of which nothing was asked.
    ///
    /// Source: own.
    pub fn new(alloc: Global) -> MemoryPlace
        ensures { ⟦<MemoryPlace as Place>⟧.calls result ≡ Some [] }
    {
        MemoryPlace {
            alloc,
            files: Vec::new(alloc),
            has_made: false,
            left: u64::MAX,
            calls: Record::new(),
        }
    }

    /// From now on so many calls are done, and the next one fails, with the words `it was to fail`. Those behind it are done again. A `create` that finds a
    /// file there is not counted.
    ///
    /// Source: own.
    pub fn fail_after(&mut self, calls: u64)
        ensures { ⟦<MemoryPlace as Place>⟧.calls self.new
            ≡ ⟦<MemoryPlace as Place>⟧.calls self.old }
    {
        self.left = calls;
    }

    /// Puts a file into the folder, which is no call.
    ///
    /// # Errors
    /// Out of memory.
    ///
    /// Source: own.
    pub fn put(&mut self, name: &str, bytes: &[u8]) -> Result<(), AllocError>
        ensures { ⟦<MemoryPlace as Place>⟧.calls self.new
            ≡ ⟦<MemoryPlace as Place>⟧.calls self.old }
    {
        let name = String::from_str(self.alloc, name)?;
        let mut held = Vec::new(self.alloc);
        held.extend_from_slice(bytes)?;
        self.take_out(name.as_str());
        let place = self.files.len().saturating_sub(usize::from(self.has_made));
        self.files.insert(place, (name, held))?;
        Ok(())
    }

    /// The files: the name of each, and what it holds.
    ///
    /// Source: own.
    pub fn files(&self) -> &[(String, Vec<u8>)] {
        self.files.as_slice()
    }

    // Where the file with a name stands in the list.
    fn place_of(&self, name: &str) -> Option<usize> {
        self.files
            .iter()
            .position(|(held, _)| held.as_str() == name)
    }

    // Takes the file with a name out of the folder, and whether there was one.
    fn take_out(&mut self, name: &str) -> bool
        ensures { self.new.calls.asked ≡ self.old.calls.asked }
    {
        let Some(place) = self.place_of(name) else {
            return false;
        };
        if place >= self.files.len() {
            return false;
        }
        self.files.remove(place);
        if place == self.files.len() {
            self.has_made = false;
        }
        true
    }

    // Whether a call may be done: it fails where its turn has come.
    fn begin(&mut self) -> Result<(), PlaceFault>
        ensures { self.new.calls.asked ≡ self.old.calls.asked }
    {
        match self.left.checked_sub(1) {
            Some(left) => {
                self.left = left;
                Ok(())
            }
            None => {
                self.left = u64::MAX;
                let words = String::from_str(self.alloc, "it was to fail")?;
                Err(PlaceFault::Refused(words))
            }
        }
    }

    // Makes an empty file.
    fn make(&mut self, name: &str) -> Result<(), PlaceFault>
        ensures { self.new.calls.asked ≡ self.old.calls.asked }
    {
        self.begin()?;
        let name = String::from_str(self.alloc, name)?;
        self.files.push((name, Vec::new(self.alloc)))?;
        self.has_made = true;
        Ok(())
    }

    // Writes to the file that was made last.
    fn append(&mut self, bytes: &[u8]) -> Result<(), PlaceFault>
        ensures { self.new.calls.asked ≡ self.old.calls.asked }
    {
        self.begin()?;
        if !self.has_made {
            return Err(self.absent()?);
        }
        if let Some((_, held)) = self.files.last_mut() {
            held.extend_from_slice(bytes)?;
        }
        Ok(())
    }

    // Gives a file another name.
    fn give_name(&mut self, from: &str, to: &str) -> Result<(), PlaceFault>
        ensures { self.new.calls.asked ≡ self.old.calls.asked }
    {
        self.begin()?;
        let name = String::from_str(self.alloc, to)?;
        if self.place_of(from).is_none() {
            return Err(self.absent()?);
        }
        if from != to {
            self.take_out(to);
        }
        if let Some(place) = self.place_of(from)
            && let Some(file) = self.files.get_mut(place)
        {
            file.0 = name;
        }
        Ok(())
    }

    // Removes a file.
    fn discard(&mut self, name: &str) -> Result<(), PlaceFault>
        ensures { self.new.calls.asked ≡ self.old.calls.asked }
    {
        self.begin()?;
        if !self.take_out(name) {
            return Err(self.absent()?);
        }
        Ok(())
    }

    // That nothing stands at a name.
    fn absent(&self) -> Result<PlaceFault, AllocError> {
        let words = String::from_str(self.alloc, "No such file or directory")?;
        Ok(PlaceFault::Refused(words))
    }

    // A copy of what the file with a name holds.
    fn copy_of(&mut self, alloc: Global, name: &str) -> Result<Option<Vec<u8>>, PlaceFault>
        ensures { self.new.calls.asked ≡ self.old.calls.asked }
    {
        self.begin()?;
        let Some((_, held)) = self.files.iter().find(|(held, _)| held.as_str() == name) else {
            return Ok(None);
        };
        let mut bytes = Vec::new(alloc);
        bytes.extend_from_slice(held.as_slice())?;
        Ok(Some(bytes))
    }

    // Notes a call, and whether it was done.
    fn note(&mut self, number: u64, one: &[u8], other: &[u8], answer: &Result<(), PlaceFault>)
        ensures { self.new.calls.asked ≡ self.old.calls.asked
            ++ asked_as answer.now (call_of number one.now other.now) ∷ [] }
    {
        match answer {
            Ok(()) => self.calls.note(&[number, 1], one, other),
            Err(_) => self.calls.note(&[number, 0], one, other),
        }
    }
}

impl Place for MemoryPlace {
    ghost calls = { λ place. Some place.calls.asked };

    /// A copy of what the file holds.
    ///
    /// # Errors
    /// `Refused` where the call was to fail. `OutOfMemory`.
    fn document(&mut self, alloc: Global, name: &str) -> Result<Option<Vec<u8>>, PlaceFault> {
        let found = self.copy_of(alloc, name);
        match &found {
            Ok(Some(bytes)) => self
                .calls
                .note(&[FOUND, 1], name.as_bytes(), bytes.as_slice()),
            Ok(None) => self.calls.note(&[FOUND_NONE, 1], name.as_bytes(), &[]),
            Err(_) => self.calls.note(&[FOUND_NONE, 0], name.as_bytes(), &[]),
        }
        found
    }

    /// Makes an empty file where nothing stands at the name.
    ///
    /// # Errors
    /// `Refused` where the call was to fail. `OutOfMemory`.
    fn create(&mut self, name: &str) -> Result<bool, PlaceFault> {
        if self.place_of(name).is_some() {
            self.calls.note(&[STOOD, 1], name.as_bytes(), &[]);
            return Ok(false);
        }
        let answer = self.make(name);
        self.note(CREATED, name.as_bytes(), &[], &answer);
        answer?;
        Ok(true)
    }

    /// Nothing: files in memory have no mode and no owner.
    ///
    /// # Errors
    /// `Refused` where the call was to fail. `OutOfMemory`.
    fn keep(&mut self, name: &str) -> Result<(), PlaceFault> {
        let answer = self.begin();
        self.note(KEPT, name.as_bytes(), &[], &answer);
        answer
    }

    /// Writes behind what the file that was made last holds.
    ///
    /// # Errors
    /// `Refused` where the call was to fail. `OutOfMemory`.
    fn write(&mut self, bytes: &[u8]) -> Result<(), PlaceFault> {
        let answer = self.append(bytes);
        self.note(WROTE, bytes, &[], &answer);
        answer
    }

    /// Nothing: there is nothing to sync.
    ///
    /// # Errors
    /// `Refused` where the call was to fail. `OutOfMemory`.
    fn sync(&mut self) -> Result<(), PlaceFault> {
        let answer = self.begin();
        self.note(SYNCED, &[], &[], &answer);
        answer
    }

    /// Gives a file another name, in the place of the file that had it.
    ///
    /// # Errors
    /// `Refused` where the call was to fail, or no file has the first name. `OutOfMemory`.
    fn rename(&mut self, from: &str, to: &str) -> Result<(), PlaceFault> {
        let answer = self.give_name(from, to);
        self.note(RENAMED, from.as_bytes(), to.as_bytes(), &answer);
        answer
    }

    /// Nothing: there is nothing to sync.
    ///
    /// # Errors
    /// `Refused` where the call was to fail. `OutOfMemory`.
    fn settle(&mut self) -> Result<(), PlaceFault> {
        let answer = self.begin();
        self.note(SETTLED, &[], &[], &answer);
        answer
    }

    /// Removes a file.
    ///
    /// # Errors
    /// `Refused` where the call was to fail, or no file has the name. `OutOfMemory`.
    fn remove(&mut self, name: &str) -> Result<(), PlaceFault> {
        let answer = self.discard(name);
        self.note(REMOVED, name.as_bytes(), &[], &answer);
        answer
    }
}

//! What is asked of a folder in which a document is replaced.
ghost use Rattle.std.specs.Prelude.{List, [], ◌∷◌, Option, OnOk, OnErr, IfOk, if◌then◌else◌};
ghost use Rattle.zarrs_write.specs.Calls.{Asked, did, failed, unread, Adds, found, created, stood, kept, wrote, synced, renamed, settled, removed};
ghost use Rattle.zarrs_write.specs.ReplacingDocuments.{bytes_in};

use crate::fault::PlaceFault;
use std::alloc::Global;

/// A folder in which files are read, made, renamed and removed by their names. The calls that were asked are noted, for contracts only, where they
/// are known.
///
/// Source: POSIX.1-2017, `open`, `write`, `fsync`, `rename` and `unlink`.
/// <https://pubs.opengroup.org/onlinepubs/9699919799/functions/rename.html>
pub trait Place {
    // the calls that were asked, in their order, where they are known
    ghost calls: { Self → Option (List Asked) };

    /// The bytes of the file with the name, or nothing where nothing stands there.
    ///
    /// # Errors
    /// `Refused` where the file is not read, or what stands there is no file. `OutOfMemory`.
    fn document(&mut self, alloc: Global, name: &str) -> Result<Option<Vec<u8>>, PlaceFault>
        ensures ok { IfOk result (λ document. Adds (Self.calls self.old) (Self.calls self.new)
            (did (found name.now (bytes_in document)) ∷ [])) }
        ensures err { OnErr result (Adds (Self.calls self.old) (Self.calls self.new)
            (unread name.now ∷ [])) };

    /// Makes an empty file with the name, and answers whether it was made: where something stands at the name, nothing is made.
    ///
    /// # Errors
    /// `Refused` where that fails. `OutOfMemory`.
    fn create(&mut self, name: &str) -> Result<bool, PlaceFault>
        ensures ok { IfOk result (λ is_made. Adds (Self.calls self.old) (Self.calls self.new)
            (if is_made then did (created name.now) ∷ [] else did (stood name.now) ∷ [])) }
        ensures err { OnErr result (Adds (Self.calls self.old) (Self.calls self.new)
            (failed (created name.now) ∷ [])) };

    /// Gives the file that was made last the mode and the owner of the file with the name, where there is one.
    ///
    /// # Errors
    /// `Refused` where that fails. `OutOfMemory`.
    fn keep(&mut self, name: &str) -> Result<(), PlaceFault>
        ensures ok { OnOk result (Adds (Self.calls self.old) (Self.calls self.new)
            (did (kept name.now) ∷ [])) }
        ensures err { OnErr result (Adds (Self.calls self.old) (Self.calls self.new)
            (failed (kept name.now) ∷ [])) };

    /// Writes all the bytes to the file that was made last, behind those that it has.
    ///
    /// # Errors
    /// `Refused` where that fails: some of them may be written. `OutOfMemory`.
    fn write(&mut self, bytes: &[u8]) -> Result<(), PlaceFault>
        ensures ok { OnOk result (Adds (Self.calls self.old) (Self.calls self.new)
            (did (wrote bytes.now) ∷ [])) }
        ensures err { OnErr result (Adds (Self.calls self.old) (Self.calls self.new)
            (failed (wrote bytes.now) ∷ [])) };

    /// Syncs the file that was made last.
    ///
    /// # Errors
    /// `Refused` where that fails. `OutOfMemory`.
    fn sync(&mut self) -> Result<(), PlaceFault>
        ensures ok { OnOk result (Adds (Self.calls self.old) (Self.calls self.new)
            (did synced ∷ [])) }
        ensures err { OnErr result (Adds (Self.calls self.old) (Self.calls self.new)
            (failed synced ∷ [])) };

    /// Gives the file with the first name the second, in the place of the file that had it.
    ///
    /// # Errors
    /// `Refused` where that fails. `OutOfMemory`.
    fn rename(&mut self, from: &str, to: &str) -> Result<(), PlaceFault>
        ensures ok { OnOk result (Adds (Self.calls self.old) (Self.calls self.new)
            (did (renamed from.now to.now) ∷ [])) }
        ensures err { OnErr result (Adds (Self.calls self.old) (Self.calls self.new)
            (failed (renamed from.now to.now) ∷ [])) };

    /// Syncs the folder, so that the files keep their names.
    ///
    /// # Errors
    /// `Refused` where that fails. `OutOfMemory`.
    fn settle(&mut self) -> Result<(), PlaceFault>
        ensures ok { OnOk result (Adds (Self.calls self.old) (Self.calls self.new)
            (did settled ∷ [])) }
        ensures err { OnErr result (Adds (Self.calls self.old) (Self.calls self.new)
            (failed settled ∷ [])) };

    /// Removes the file with the name.
    ///
    /// # Errors
    /// `Refused` where that fails. `OutOfMemory`.
    fn remove(&mut self, name: &str) -> Result<(), PlaceFault>
        ensures ok { OnOk result (Adds (Self.calls self.old) (Self.calls self.new)
            (did (removed name.now) ∷ [])) }
        ensures err { OnErr result (Adds (Self.calls self.old) (Self.calls self.new)
            (failed (removed name.now) ∷ [])) };
}

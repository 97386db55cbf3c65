//! What no crash can harm. Each function does nothing, and its contract is the law.
ghost use Rattle.zarrs_write.specs.Laws.{ReplacedIsWhole, RemovedIsWhole, UnsyncedMayBeAnything};

/// At each point of a replacement, in the midst of a call too, a reader finds at the name the old document or the new one, whole, and so does who
/// comes after a crash at that point. At each other name, except for that of the temporary file, what stood there is found.
///
/// Source: own; POSIX.1-2017, `rename`.
/// <https://pubs.opengroup.org/onlinepubs/9699919799/functions/rename.html>
pub fn replaced_is_whole()
    ensures { ReplacedIsWhole }
{}

/// At each point of a removal, in the midst of a call too, a reader finds at the name the old document, whole, or none, and so does who comes after a
/// crash at that point. At each other name what stood there is found.
///
/// Source: own; POSIX.1-2017, `unlink`.
/// <https://pubs.opengroup.org/onlinepubs/9699919799/functions/unlink.html>
pub fn removed_is_whole()
    ensures { RemovedIsWhole }
{}

/// Where the temporary file is renamed before it is synced, anything may stand at the name after a crash.
///
/// Source: own; POSIX.1-2017, `fsync`.
/// <https://pubs.opengroup.org/onlinepubs/9699919799/functions/fsync.html>
pub fn unsynced_may_be_anything()
    ensures { UnsyncedMayBeAnything }
{}

//! What no crash can harm. A function here does nothing but cite other laws, and its contract is the law.
ghost use Rattle.zarrs_consolidate.specs.Laws.{CarriedOutIsWhole};

use zarrs_write::laws::{removed_is_whole, replaced_is_whole};

/// At each point of a plan that is carried out, in the midst of a call too, what stood at the document or what is to stand there is found, whole, by a
/// reader then and after a crash then; and nothing else is touched but the temporary file.
///
/// Source: own; POSIX.1-2017, `rename`, `fsync` and `unlink`.
pub fn carried_out_is_whole()
    ensures { CarriedOutIsWhole }
{
    replaced_is_whole();
    removed_is_whole();
}

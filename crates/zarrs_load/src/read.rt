//! Reading to the end, within a bound.
ghost use Rattle.std.specs.Prelude.{◌≡◌, IfOk, IfErr, vec_len};
ghost use Rattle.zarrs_load.specs.Reading.{IsReadWhole, IsWithinBound, RefusedReading};

use crate::fault::LoadFault;
use std::alloc::{AllocError, Global};
use std::io::Read;
use std::marker::Model;

/// The most reads of one input.
pub const MOST_READS: u32 = 1_000_000;

/// The most bytes of one read.
pub const READ_SIZE: usize = 65_536;

/// All bytes that a reader has left, in at most [`MOST_READS`] reads; the read that meets the end
/// counts too.
///
/// # Errors
/// `Read` where a read fails, `ReadTooLong` where the end did not come within the bound, and
/// `OutOfMemory`.
pub fn read_whole<R: Read>(alloc: Global, reader: &mut R) -> Result<Vec<u8>, LoadFault>
    ensures ok { IfOk result (λ bytes.
        IsReadWhole (R.remaining reader.old) (R.remaining reader.new) bytes.items) }
    ensures bound { IfOk result (λ bytes. IsWithinBound bytes.items) }
    ensures err { IfErr result (RefusedReading (R.remaining reader.old) (R.remaining reader.new)) }
{
    let mut buffer = ReadBuffer::new(alloc)?;
    buffer.read_whole(alloc, reader)
}

// The bytes of one read, at most. Inputs that are read one after the other share it, since it takes
// longer to make than a document to read.
#[derive(Drop)]
pub(crate) struct ReadBuffer {
    bytes: Vec<u8>,
}

impl Model for ReadBuffer {
    ghost use Rattle.std.specs.Prelude.{◌≡◌, List, ℕ, length};

    ghost Value = { List ℕ };

    ghost view = { λ a. a.bytes.items };

    ghost invariant = { λ a. length a.bytes.items ≡ 65536 };
}

impl ReadBuffer {
    // A buffer with room for [`READ_SIZE`] bytes.
    pub(crate) fn new(alloc: Global) -> Result<ReadBuffer, AllocError> {
        let bytes = zeros(alloc, READ_SIZE)?;
        Ok(ReadBuffer { bytes })
    }

    // What [`read_whole`] answers.
    pub(crate) fn read_whole<R: Read>(
        &mut self,
        alloc: Global,
        reader: &mut R,
    ) -> Result<Vec<u8>, LoadFault>
        ensures ok { IfOk result (λ bytes.
            IsReadWhole (R.remaining reader.old) (R.remaining reader.new) bytes.items) }
        ensures bound { IfOk result (λ bytes. IsWithinBound bytes.items) }
        ensures err { IfErr result
            (RefusedReading (R.remaining reader.old) (R.remaining reader.new)) }
    {
        let mut bytes = Vec::new(alloc);
        for _turn in 0..MOST_READS {
            let Ok(count) = reader.read(&mut self.bytes) else {
                return Err(LoadFault::Read);
            };
            if count == 0 {
                return Ok(bytes);
            }
            bytes.extend_from_slice(&self.bytes[..count])?;
        }
        Err(LoadFault::ReadTooLong)
    }
}

// A buffer of a size that is a parameter, so that no proof sees its bytes.
fn zeros(alloc: Global, size: usize) -> Result<Vec<u8>, AllocError>
    ensures { IfOk result (λ buffer. vec_len buffer ≡ size) }
{
    vec![in alloc; 0u8; size]
}

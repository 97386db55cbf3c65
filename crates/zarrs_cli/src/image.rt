//! A store from an image, as [`zarrs_load`] loads it, whose documents may hold any number.
ghost use Rattle.std.specs.Prelude.{IfOk, IfErr, OnOk};
ghost use Rattle.std.specs.FinMap as map;
ghost use Rattle.std.specs.Io.KnownBytes.{IsAtEnd};
ghost use Rattle.zarrs_store.specs.Segments.{key_cmp};
ghost use Rattle.zarrs_load.specs.Image.{IsLoaded, RefusedImage};

use std::alloc::Global;
use std::io::Read;
use zarrs_load::LoadFault;
use zarrs_store::{AnyNumbers, MemoryStore};

/// The store of an image, which is read to its end: what [`zarrs_load::load_image`] answers, whose documents may hold any number.
///
/// # Errors
/// Its refusals.
pub fn load_image<R: Read>(
    alloc: Global,
    reader: &mut R,
) -> Result<AnyNumbers<MemoryStore>, LoadFault>
    ensures ok { IfOk result (λ store.
        IsLoaded (R.remaining reader.old) (map.from_entries {R = key_cmp} store.inner)) }
    ensures end { OnOk result (IsAtEnd (R.remaining reader.new)) }
    ensures err { IfErr result (RefusedImage (R.remaining reader.old) (R.remaining reader.new)) }
{
    let inner = zarrs_load::load_image(alloc, reader)?;
    Ok(AnyNumbers { inner })
}

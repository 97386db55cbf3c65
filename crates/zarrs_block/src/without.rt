//! A block without what it has at a path and below it.
ghost use Rattle.std.specs.Prelude.{IfOk, OnOk, map, string_bytes};
ghost use Rattle.zarrs_block.specs.Block.{IsAscending};
ghost use Rattle.zarrs_block.specs.KeysAboutAPath.{IsWithout};
ghost use Rattle.zarrs_block.specs.StepsOfKeys.{IsCutBy, AreKeysBelow};

use crate::consolidated::ConsolidatedMetadataMetadata;
use std::alloc::{AllocError, Global};

impl ConsolidatedMetadataMetadata {
    /// A copy without the metadata of a path and of all paths below it: without the key, those that begin with it and a slash, and
    /// each of these behind one slash.
    ///
    /// # Errors
    ///
    /// `AllocError` where there is no memory for the copy.
    ///
    /// Source: own.
    pub fn try_clone_without(
        &self,
        alloc: Global,
        key: &str,
    ) -> Result<ConsolidatedMetadataMetadata, AllocError>
        ensures without { IfOk result (IsWithout key.now self.now) }
        ensures ascending { IfOk result IsAscending }
    {
        let mut copy = self.try_clone(alloc)?;
        copy.remove_below(alloc, key)?;
        Ok(copy)
    }

    /// Takes out the metadata of a path and of all paths below it: at the key, at those that begin with it and a slash, and at each of
    /// these behind one slash. What stays is neither copied nor looked at.
    ///
    /// # Errors
    ///
    /// `AllocError` where there is no memory for the keys that go; some of these may be gone.
    ///
    /// Source: own.
    pub fn remove_below(&mut self, alloc: Global, key: &str) -> Result<(), AllocError>
        ensures without { OnOk result (IsWithout key.now self.old self.new) }
        ensures ascending { OnOk result (IsAscending self.new) }
    {
        let rooted = format!(in alloc; "/{key}")?;
        cut(alloc, self, key)?;
        cut(alloc, self, &rooted)?;
        Ok(())
    }
}

// Takes a key and those that begin with it and a slash out of a block.
fn cut(alloc: Global, block: &mut ConsolidatedMetadataMetadata, key: &str) -> Result<(), AllocError>
    ensures cut { OnOk result (IsCutBy key.now block.old block.new) }
    ensures ascending { OnOk result (IsAscending block.new) }
{
    drop(block.remove(key));
    for below in keys_below(alloc, block, key)? {
        drop(block.remove(below.as_str()));
    }
    Ok(())
}

// The keys of a block that begin with a key and a slash. They stand together in the order of the keys, before the key and a `0`, which is
// the character behind the slash.
pub(crate) fn keys_below(
    alloc: Global,
    block: &ConsolidatedMetadataMetadata,
    key: &str,
) -> Result<Vec<String>, AllocError>
    ensures { IfOk result (λ keys. AreKeysBelow key.now block.now (map string_bytes keys.items)) }
{
    let first = format!(in alloc; "{key}/")?;
    let end = format!(in alloc; "{key}0")?;
    let mut keys = Vec::new(alloc);
    for (below, _metadata) in block.as_map().range(first..end) {
        keys.push(below.clone()?)?;
    }
    Ok(keys)
}

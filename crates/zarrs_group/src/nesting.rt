//! How deep the document of a group nests.
ghost use Rattle.std.specs.Prelude.{◌≤◌, ◌↔◌, IfOk, IsTrue};
ghost use Rattle.serde_json.specs.Data.{depth};
ghost use Rattle.serde_json.specs.Read.{max_depth};
ghost use Rattle.zarrs_group.specs.Groups.{group_tree};

use crate::group::Group;
use std::alloc::{AllocError, Global};
use zarrs_form::is_shallow;
use zarrs_meta::{GroupMetadata, WrittenDocument};

impl Group {
    /// Whether what is written of the metadata in one document, a consolidated block of version 3 included, nests at most 127 levels, so that it
    /// reads back where it is stored.
    ///
    /// # Errors
    ///
    /// `AllocError` for out of memory alone.
    ///
    /// Source: own; `serde_json` reads 127 levels.
    pub fn is_shallow(&self, alloc: Global) -> Result<bool, AllocError>
        ensures { IfOk result
            (λ shallow. IsTrue shallow ↔ (depth (group_tree self.now.metadata) ≤ max_depth)) }
    {
        let value = match &self.metadata {
            GroupMetadata::V3(group) => group.to_value(alloc)?,
            GroupMetadata::V2(group) => group.to_value(alloc)?,
        };
        Ok(is_shallow(&value))
    }
}

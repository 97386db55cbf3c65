//! Groups of version 2 as groups of version 3.
ghost use Rattle.std.specs.Prelude.{◌≡◌, IfOk};
ghost use Rattle.zarrs_convert.specs.Groups.{group_v2_to_v3};

use std::alloc::{AllocError, Global};
use zarrs_meta::{GroupMetadataV2, GroupMetadataV3};

/// The version 3 group with the attributes of a version 2 group. Its other fields are dropped.
///
/// # Errors
///
/// `AllocError` for out of memory alone.
///
/// Source: `zarrs::convert::group_metadata_v2_to_v3`.
pub fn group_metadata_v2_to_v3(
    alloc: Global,
    group: &GroupMetadataV2,
) -> Result<GroupMetadataV3, AllocError>
    ensures ok { IfOk result (λ converted. converted ≡ group_v2_to_v3 group.now) }
{
    let mut converted = GroupMetadataV3::new(alloc);
    converted.attributes = group.attributes.try_clone(alloc)?;
    Ok(converted)
}

//! The keys of a block.
ghost use Rattle.std.specs.Prelude.{◌≡◌, IfOk};
ghost use Rattle.std.specs.List.{list_all};
ghost use Rattle.zarrs_path.specs.Names.{is_name};
ghost use Rattle.zarrs_path.specs.Paths.{relative_names, without_leading_slash};
ghost use Rattle.zarrs_block.specs.Block.{IsAscending};
ghost use Rattle.zarrs_block.specs.BlockExpansion.{is_covered};
ghost use Rattle.zarrs_check.specs.StepsOfComparing.{key_kind, key_findings, IsRidOf};

use crate::comparison::tell;
use crate::finding::{Finding, FindingKind};
use std::alloc::{AllocError, Global};
use zarrs_block::ConsolidatedMetadataMetadata;
use zarrs_form::Text;
use zarrs_path::{NodeName, NodePath, without_leading_slash};

// What there is to tell of the keys of the block of a group, in the order of the keys.
pub(crate) fn key_findings(
    alloc: Global,
    group: &NodePath,
    block: &ConsolidatedMetadataMetadata,
) -> Result<Vec<Finding>, AllocError>
    ensures findings { IfOk result
        (λ found. found.items ≡ key_findings group.now block.now block.now) }
    ensures ascending { IfOk result (λ _. IsAscending block.now) }
{
    let mut found = Vec::new(alloc);
    for (key, _metadata) in block.as_map().iter() {
        let kind = key_kind(alloc, block, key.as_str())?;
        tell(&mut found, alloc, group, group, kind)?;
    }
    Ok(found)
}

// What is wrong with a key.
fn key_kind(
    alloc: Global,
    block: &ConsolidatedMetadataMetadata,
    key: &str,
) -> Result<Option<FindingKind>, AllocError>
    ensures { IfOk result (λ kind. kind ≡ key_kind block.now key.now) }
{
    if without_leading_slash(key).is_empty() {
        return Ok(Some(FindingKind::OwnKey(Text::from_str(alloc, key)?)));
    }
    if !are_names(key) {
        return Ok(Some(FindingKind::BadKey(Text::from_str(alloc, key)?)));
    }
    if block.is_covered(key) {
        return Ok(Some(FindingKind::Shadowed(Text::from_str(alloc, key)?)));
    }
    Ok(None)
}

// Whether a key is names joined by slashes, also behind one slash.
fn are_names(key: &str) -> bool
    ensures { result ≡ list_all is_name (relative_names key.now) }
{
    let names = without_leading_slash(key);
    names.is_empty()
        || names
            .split('/')
            .all(|name| !name.is_empty() && NodeName::validate(name))
}

// The block without the bad keys among the findings.
pub(crate) fn without_bad_keys(
    mut block: ConsolidatedMetadataMetadata,
    found: &[Finding],
) -> ConsolidatedMetadataMetadata
    ensures { IsRidOf found.now block result }
{
    for finding in found {
        if let FindingKind::BadKey(key) = &finding.kind {
            drop(block.remove(key.as_str()));
        }
    }
    block
}

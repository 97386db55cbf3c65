//! The nodes of a consolidated block, at their paths.
ghost use Rattle.std.specs.Prelude.{◌≡◌, ◌||◌, ◌++◌, ℕ, List, IfOk, IfErr, IsSome, IsTrue, Some, None, is_some, if◌then◌else◌};
ghost use Rattle.std.specs.BTreeMap.{get_by_text};
ghost use Rattle.std.specs.List.{list_any};
ghost use Rattle.zarrs_store.specs.Contents.{Lists};
ghost use Rattle.zarrs_path.specs.PathErrors.{RefusesJoin};
ghost use Rattle.zarrs_path.specs.Paths.{relative_names};
ghost use Rattle.zarrs_form.specs.Forms.{is_nil};
ghost use Rattle.zarrs_block.specs.Block.{Entries, HasValidKeys, IsAscending, IsValidKey, node_at_key};
ghost use Rattle.zarrs_block.specs.BlockExpansion.{RefusesKeys, HaveOwnPaths, is_covered, paths_at, pairs_at};
ghost use Rattle.zarrs_block.specs.StepsOfExpansion.{IsPlainKey, is_low};
ghost use Rattle.zarrs_block.specs.Order.{Ascend};

use crate::consolidated::{ConsolidatedMetadata, ConsolidatedMetadataMetadata};
use crate::without::keys_below;
use serde_json::Map;
use std::alloc::{AllocError, Global};
use zarrs_meaning::NodeCreateError;
use zarrs_meta::NodeMetadata;
use zarrs_path::{NodePath, NodePathError};

/// The nodes of a block below a path: each key joined to it, each path once, in the order of paths. The empty key and `/` are the path
/// itself and are passed over; of `foo` and `/foo` the one without the slash counts.
///
/// # Errors
///
/// - `NodePathError` where a key is not names joined by slashes, also behind one slash.
/// - `OutOfMemory` where there is no memory for the nodes.
///
/// Source: `zarrs::node::expand_consolidated_metadata`.
pub fn expand_consolidated_metadata(
    alloc: Global,
    path: &NodePath,
    block: ConsolidatedMetadata,
) -> Result<Vec<(NodePath, NodeMetadata)>, NodeCreateError>
    ensures entries { IfOk result (λ all. Lists (Entries block.metadata path.now) all.items) }
    ensures once { IfOk result (λ all. HaveOwnPaths all.items) }
    ensures ascending { IfOk result (λ all. Ascend all.items) }
    ensures keys { IfOk result (λ _. HasValidKeys block.metadata) }
    ensures err { IfErr result (RefusesKeys block.metadata) }
{
    let (mut pairs, ascend) = pairs_of(alloc, path, block)?;
    if ascend {
        return Ok(pairs);
    }
    pairs.sort_by(|a, b| a.0.cmp(&b.0))?;
    Ok(pairs)
}

/// The nodes of a block below a path, in the order of their keys, and whether it is known that their paths ascend.
pub(crate) fn pairs_of(
    alloc: Global,
    path: &NodePath,
    block: ConsolidatedMetadata,
) -> Result<(Vec<(NodePath, NodeMetadata)>, bool), NodeCreateError>
    ensures pairs { IfOk result
        (λ made. made.0.items
        ≡ pairs_at (paths_at path.now block.metadata block.metadata) block.metadata) }
    ensures ascend { IfOk result (λ made. IsTrue made.1 → Ascend made.0.items) }
    ensures keys { IfOk result (λ _. HasValidKeys block.metadata) }
    ensures ordered { IfOk result (λ _. IsAscending block.metadata) }
    ensures err { IfErr result (RefusesKeys block.metadata) }
{
    let ConsolidatedMetadata { metadata } = block;
    let covered = covered_keys(alloc, &metadata)?;
    let mut all = Vec::new(alloc);
    let mut plain = true;
    for (key, metadata) in metadata.into_map() {
        let text = key.as_str();
        plain = stay_plain(plain, text);
        match path_of(alloc, path, &covered, text)? {
            Some(path) => all.push((path, metadata))?,
            None => drop(metadata),
        }
    }
    Ok((all, plain))
}

// The keys behind a slash where the block has the key without it. Those behind a slash stand together.
fn covered_keys(
    alloc: Global,
    block: &ConsolidatedMetadataMetadata,
) -> Result<Map<String, ()>, AllocError>
    ensures { IfOk result
        (λ covered. (t : List ℕ) → IsSome (node_at_key block.now t)
        → is_some (get_by_text covered t) ≡ is_covered block.now t) }
{
    let mut covered = Map::new(alloc);
    for key in keys_below(alloc, block, "")? {
        if block.is_covered(key.as_str()) {
            drop(covered.insert(key, ())?);
        }
    }
    Ok(covered)
}

// The path of a key, or `None` for a key of the base itself, and for a covered key.
fn path_of(
    alloc: Global,
    base: &NodePath,
    covered: &Map<String, ()>,
    key: &str,
) -> Result<Option<NodePath>, NodePathError>
    ensures path { IfOk result
        (λ path. path
        ≡ (if is_nil (relative_names key.now) || is_some
        (get_by_text covered.now key.now) then None else Some
        (base.now ++ relative_names key.now))) }
    ensures valid { IfOk result (λ _. IsValidKey key.now) }
    ensures err { IfErr result (RefusesJoin key.now) }
{
    if key.is_empty() || key == "/" {
        return Ok(None);
    }
    let path = base.join(alloc, key)?;
    match covered.get(key) {
        Some(_) => Ok(None),
        None => Ok(Some(path)),
    }
}

// Whether the keys before were plain, and this one is.
fn stay_plain(plain: bool, key: &str) -> bool
    ensures { IsTrue result → IsTrue plain × IsPlainKey key.now }
{
    plain && is_plain(key)
}

// Whether the key begins with no slash, and has no byte below the slash: where all do, they ascend as their paths do.
fn is_plain(key: &str) -> bool
    ensures { IsTrue result → IsPlainKey key.now }
{
    match key.strip_prefix('/') {
        Some(_) => false,
        None => !has_low(key),
    }
}

// Whether a byte of the text is below the slash.
fn has_low(text: &str) -> bool
    ensures { result ≡ list_any is_low text.now }
{
    for byte in text.as_bytes() {
        if *byte < b'/' {
            return true;
        }
    }
    false
}

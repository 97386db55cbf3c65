//! Keys below a path: of its documents, and of the chunks of an array.
//! Zarr core specification 3.1, "Storage keys"; Zarr version 2 specification, "Hierarchies".
ghost use Rattle.std.specs.Prelude.{◌≡◌, [], ◌∷◌, ◌++◌, IsTrue, IfOk};
ghost use Rattle.zarrs_store.specs.Segments.{is_segment, IsKeyText, segments_of};
ghost use Rattle.zarrs_path.specs.Keys.{zarr_json, zarray, zgroup, zattrs, zmetadata};

use crate::NodePath;
use crate::text::joined;
use std::alloc::{AllocError, Global};
use zarrs_store::StoreKey;

/// The key of the metadata document of version 3: the names of the path, then `zarr.json`.
///
/// # Errors
/// `AllocError` when out of memory for the key.
///
/// Source: `zarrs::node::meta_key`.
pub fn meta_key(alloc: Global, path: &NodePath) -> Result<StoreKey, AllocError>
    ensures { IfOk result (λ key. key ≡ path.now ++ zarr_json ∷ []) }
{
    meta_key_v3(alloc, path)
}

/// The key of the metadata document of version 3: the names of the path, then `zarr.json`.
///
/// # Errors
/// `AllocError` when out of memory for the key.
///
/// Source: Zarr core specification 3.1, "Storage keys"; `zarrs::node::meta_key_v3`.
pub fn meta_key_v3(alloc: Global, path: &NodePath) -> Result<StoreKey, AllocError>
    ensures { IfOk result (λ key. key ≡ path.now ++ zarr_json ∷ []) }
{
    meta_key_any(alloc, path, "zarr.json")
}

/// The key of the metadata document of a version 2 array: the names of the path, then `.zarray`.
///
/// # Errors
/// `AllocError` when out of memory for the key.
///
/// Source: Zarr version 2 specification, "Metadata" of arrays; `zarrs::node::meta_key_v2_array`.
pub fn meta_key_v2_array(alloc: Global, path: &NodePath) -> Result<StoreKey, AllocError>
    ensures { IfOk result (λ key. key ≡ path.now ++ zarray ∷ []) }
{
    meta_key_any(alloc, path, ".zarray")
}

/// The key of the metadata document of a version 2 group: the names of the path, then `.zgroup`.
///
/// # Errors
/// `AllocError` when out of memory for the key.
///
/// Source: Zarr version 2 specification, "Groups"; `zarrs::node::meta_key_v2_group`.
pub fn meta_key_v2_group(alloc: Global, path: &NodePath) -> Result<StoreKey, AllocError>
    ensures { IfOk result (λ key. key ≡ path.now ++ zgroup ∷ []) }
{
    meta_key_any(alloc, path, ".zgroup")
}

/// The key of the attributes of a version 2 node: the names of the path, then `.zattrs`.
///
/// # Errors
/// `AllocError` when out of memory for the key.
///
/// Source: Zarr version 2 specification, "Attributes"; `zarrs::node::meta_key_v2_attributes`.
pub fn meta_key_v2_attributes(alloc: Global, path: &NodePath) -> Result<StoreKey, AllocError>
    ensures { IfOk result (λ key. key ≡ path.now ++ zattrs ∷ []) }
{
    meta_key_any(alloc, path, ".zattrs")
}

/// The key of the consolidated metadata of a version 2 group: the names of the path, then `.zmetadata`.
///
/// # Errors
/// `AllocError` when out of memory for the key.
///
/// Source: zarr-python, consolidated metadata of version 2.
pub fn meta_key_v2_consolidated(alloc: Global, path: &NodePath) -> Result<StoreKey, AllocError>
    ensures { IfOk result (λ key. key ≡ path.now ++ zmetadata ∷ []) }
{
    meta_key_any(alloc, path, ".zmetadata")
}

/// The key of a chunk of the array at the path: the names of the path, then the chunk key's segments.
///
/// # Errors
/// `AllocError` when out of memory for the key.
///
/// Source: Zarr core specification 3.1, "Storage keys"; `zarrs::node::data_key`.
#[tactic(auto, using(crate::proofs::KeyTexts::key_parts))]
pub fn data_key(
    alloc: Global,
    path: &NodePath,
    chunk_key: &StoreKey,
) -> Result<StoreKey, AllocError>
    ensures { IfOk result (λ key. key ≡ path.now ++ chunk_key.now) }
{
    key_below(alloc, path, chunk_key.as_str())
}

// The key of the document with this name.
#[tactic(auto, using(crate::proofs::KeyTexts::segment_text, zarrs_store::proofs::Cuts::segments_of_one))]
fn meta_key_any(alloc: Global, path: &NodePath, file: &str) -> Result<StoreKey, AllocError>
    requires { IsTrue (is_segment file.now) }
    ensures { IfOk result (λ key. key ≡ path.now ++ file.now ∷ []) }
{
    key_below(alloc, path, file)
}

// The key whose text is this one's behind the path's.
fn key_below(alloc: Global, path: &NodePath, rest: &str) -> Result<StoreKey, AllocError>
    requires { IsKeyText rest.now }
    ensures { IfOk result (λ key. key ≡ path.now ++ segments_of rest.now) }
{
    let base = path.slashed();
    match base.strip_prefix('/') {
        Some(names) => {
            let text = joined(alloc, names, "/", rest)?;
            Ok(StoreKey::new_unchecked(text))
        }
        None => {
            let text = String::from_str(alloc, rest)?;
            Ok(StoreKey::new_unchecked(text))
        }
    }
}

//! Which paths may be groups, told without a document's reading. A walk asks it of each path that it comes to, and most are arrays.
ghost use Rattle.std.specs.Prelude.{◌≡◌, false, IfOk, Ok, option_map};
ghost use Rattle.std.specs.FinMap as map;
ghost use Rattle.zarrs_fault.specs.declared.numbers.Numbers.TheVariants.{Any};
ghost use Rattle.zarrs_form.specs.Documents.{of_bytes};
ghost use Rattle.zarrs_meta.specs.Node.{is_group, zarr_json_in};
ghost use Rattle.zarrs_meta.specs.declared.node.ZarrJson.TheVariants.{Node as node_document};
ghost use Rattle.zarrs_meta.specs.declared.node.NodeMetadata.{NodeMetadata};
ghost use Rattle.zarrs_folder.specs.Folders.{values_of};
ghost use Rattle.zarrs_folder.specs.StepsOfLoadingNodes.{MayBeGroup};

use std::alloc::{AllocError, Global};
use std::str;
use zarrs_path::{NodePath, meta_key_v2_array, meta_key_v3};
use zarrs_store::{AnyNumbers, MemoryStore, ReadableStorageTraits, StoreKey};

// Whether a path may be a group in a store: by its `zarr.json`, and where there is none, by having no `.zarray`.
pub(crate) fn may_be_group(
    alloc: Global,
    store: &AnyNumbers<MemoryStore>,
    path: &NodePath,
) -> Result<bool, AllocError>
    ensures { IfOk result (MayBeGroup (values_of store.now.inner) path.now) }
{
    match bytes_at(alloc, store, &meta_key_v3(alloc, path)?)? {
        Some(bytes) => Ok(may_be_group_document(&bytes)),
        None => Ok(bytes_at(alloc, store, &meta_key_v2_array(alloc, path)?)?.is_none()),
    }
}

// The bytes at a key.
fn bytes_at(
    alloc: Global,
    store: &AnyNumbers<MemoryStore>,
    key: &StoreKey,
) -> Result<Option<Vec<u8>>, AllocError>
    ensures { IfOk result (λ found.
        option_map (λ v. v.items) found ≡ map.get (values_of store.now.inner) key.now) }
{
    match store.inner.get(alloc, key) {
        Ok(found) => Ok(found),
        Err(_) => Err(AllocError),
    }
}

// Whether the bytes may be the `zarr.json` of a group. In that of a group `node_type` is `"group"`, so these seven bytes stand in it, unless some
// character is escaped by a backslash. What is not UTF-8 is no document.
fn may_be_group_document(bytes: &[u8]) -> bool
    ensures { result ≡ false → (m : NodeMetadata)
        → of_bytes (zarr_json_in Any) bytes.now ≡ Ok (node_document m) → is_group m ≡ false }
{
    match str::from_utf8(bytes) {
        Ok(text) => text.find("\"group\"").is_some() || text.find("\\").is_some(),
        Err(_) => false,
    }
}

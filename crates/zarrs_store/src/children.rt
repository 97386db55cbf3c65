ghost use Rattle.std.specs.Prelude.{◌≡◌, IfOk, IfErr};
ghost use Rattle.zarrs_store.specs.Segments.{bytes_cmp, last_segment};
ghost use Rattle.zarrs_store.specs.Faults.{IsStoreError};
ghost use Rattle.zarrs_store.specs.Children.{AreVisibleChildren};
ghost use Rattle.zarrs_store.specs.StepsOfStores.{is_visible};

use crate::prefix::StorePrefix;
use crate::storage_error::StorageError;
use crate::store::ListableStorageTraits;
use std::alloc::Global;
use std::cmp::Ordering;

/// The child prefixes of a prefix whose own name does not begin with `__`, each once, in ascending order of those names by bytes.
///
/// A child is the prefix and one segment more, where some key of the store has that segment behind the prefix and at least one more behind it.
///
/// # Errors
/// `StorageError::Fault`, where the store can fail and did. `StorageError::OutOfMemory`.
///
/// Source: `zarrs::storage::discover_children`; the filter by the child's own name and the order are this crate's.
pub fn discover_children<S: ListableStorageTraits>(
    alloc: Global,
    storage: &S,
    prefix: &StorePrefix,
) -> Result<Vec<StorePrefix>, StorageError>
    ensures ok { IfOk result
        (λ children. AreVisibleChildren
        (S.contents storage.now).values prefix.now children.items) }
    ensures err { IfErr result (IsStoreError (S.can_fail storage.now)) }
{
    let mut children = storage.list_child_prefixes(alloc, prefix)?;
    children.retain(|child| is_visible(child));
    children.sort_unstable_by(|a, b| compare_names(a, b));
    Ok(children)
}

// Whether the last segment does not begin with `__`.
fn is_visible(child: &StorePrefix) -> bool
    ensures { result ≡ is_visible child.now }
{
    !child.name().starts_with("__")
}

// The order of two children of one prefix.
fn compare_names(a: &StorePrefix, b: &StorePrefix) -> Ordering
    ensures { result ≡ bytes_cmp (last_segment a.now) (last_segment b.now) }
{
    a.name().cmp(b.name())
}

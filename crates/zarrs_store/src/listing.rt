// What stands directly below a prefix, among entries that ascend by the keys' texts. The keys of one child stand together: the first
// of them names it, and a search finds where they end.
ghost use Rattle.std.specs.Prelude.{◌≡◌, ◌+◌, ◌-◌, ◌*◌, ◌≤◌, length, filter, IfOk};
ghost use Rattle.std.specs.Map.{keys_of};
ghost use Rattle.zarrs_store.specs.Segments.{IsPrefix};
ghost use Rattle.zarrs_store.specs.StepsOfStores.{is_child_key, child_prefixes};
ghost use Rattle.zarrs_store.specs.Places.{AreAscending, IsRange, digits};

use crate::key::StoreKey;
use crate::places::end_near;
use crate::prefix::StorePrefix;
use crate::store::StoreKeysPrefixes;
use std::alloc::{AllocError, Global};

// The keys and the child prefixes directly below the prefix, ascending by their texts, and how many times a key was compared with a
// prefix: the keys below the prefix are those from `first` to before `end`.
pub(crate) fn directly_below(
    alloc: Global,
    entries: &[(StoreKey, Vec<u8>)],
    prefix: &StorePrefix,
    first: usize,
    end: usize,
) -> Result<(StoreKeysPrefixes, u64), AllocError>
    requires ascending { AreAscending entries.now }
    requires valid { IsPrefix prefix.now }
    requires range { IsRange (keys_of entries.now) prefix.now first end }
    ensures keys { IfOk result
        (λ dir. dir.0.keys.items ≡ filter (is_child_key prefix.now) (keys_of entries.now)) }
    ensures prefixes { IfOk result
        (λ dir. dir.0.prefixes.items ≡ child_prefixes prefix.now (keys_of entries.now)) }
    ensures comparisons { IfOk result
        (λ dir. dir.1
        ≤ length dir.0.keys.items + length dir.0.prefixes.items + length dir.0.prefixes.items *
        (2 * digits (end - first))) }
    ensures few { IfOk result (λ dir. dir.1 ≤ 2 * length entries.now) }
{
    let mut keys = Vec::new(alloc);
    let mut prefixes = Vec::new(alloc);
    let mut comparisons = 0;
    let mut at = first;
    while at < end {
        let (key, _) = &entries[at];
        at += 1;
        comparisons += 1;
        let Some(name) = prefix.child_name(key) else {
            keys.push(key.try_clone(alloc)?)?;
            continue;
        };
        let child = prefix.child(alloc, name)?;
        let (behind, compared) = end_near(entries, &child, at);
        prefixes.push(child)?;
        at = behind;
        comparisons += u64::from(compared);
    }
    Ok((StoreKeysPrefixes { keys, prefixes }, comparisons))
}

// The child prefixes directly below the prefix, ascending by their texts: the keys below the prefix are those from `first` to before
// `end`.
pub(crate) fn children_below(
    alloc: Global,
    entries: &[(StoreKey, Vec<u8>)],
    prefix: &StorePrefix,
    first: usize,
    end: usize,
) -> Result<Vec<StorePrefix>, AllocError>
    requires ascending { AreAscending entries.now }
    requires valid { IsPrefix prefix.now }
    requires range { IsRange (keys_of entries.now) prefix.now first end }
    ensures { IfOk result
        (λ prefixes. prefixes.items ≡ child_prefixes prefix.now (keys_of entries.now)) }
{
    let mut prefixes = Vec::new(alloc);
    let mut at = first;
    while at < end {
        let (key, _) = &entries[at];
        at += 1;
        let Some(name) = prefix.child_name(key) else {
            continue;
        };
        let child = prefix.child(alloc, name)?;
        at = end_near(entries, &child, at).0;
        prefixes.push(child)?;
    }
    Ok(prefixes)
}

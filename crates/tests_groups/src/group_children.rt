//! The block that a group holds, of version 2 beside its metadata, and what stands below a group: by that block, or by a listing.
//!
//! The tests compare texts.

use crate::fixture_rows::store_in;
use crate::fixtures::{
    block_of, consolidated, group_of, group_text, groups_text, held_text, is_same, set, set_list,
};
use log::sink::{Discard, Writer};
use std::alloc::{AllocError, Global};
use std::test::Fail;
use tests_fixtures::{
    A3_SQUARE, config_of, document_of, forest_text, no_word, node_text, pairs_text, paths_text,
    policy_of,
};
use tests_support::{G3, check_rows, fields, printed, refusal, said, with_lines};
use zarrs_config::{Config, UseConsolidatedMetadata};
use zarrs_group::{Group, GroupCreateError};
use zarrs_meaning::NodeCreateError;
use zarrs_node::Node;
use zarrs_store::{
    ListableStorageTraits, MemoryStore, ReadableStorageTraits, StorageError, StoreKey,
    WritableStorageTraits,
};

// ---- groups with blocks

// The group at a path without a block: of a document, `OPENED` in the store, or `LISTED` with the block of all that is listed below it.
fn plain_group(
    alloc: Global,
    store: &MemoryStore,
    path: &str,
    document: &str,
) -> Result<Group, GroupCreateError> {
    match document {
        "OPENED" => Group::open(alloc, store, path, &Config::new()),
        "LISTED" => consolidated(alloc, store, path),
        document => group_of(alloc, path, document_of(alloc, document)?),
    }
}

/// The group that three fields are: a path, a document as in `plain_group`, and the list of the block that is set; `none` where none is.
pub(crate) fn group_in(
    alloc: Global,
    store: &MemoryStore,
    given: &str,
) -> Result<Group, GroupCreateError> {
    let (path, rest) = fields(given);
    let (document, list) = fields(rest);
    let mut group = plain_group(alloc, store, path, document)?;
    if list != "none" {
        set_list(&mut group, alloc, list)?;
    }
    Ok(group)
}

// The group of three fields over an empty store.
fn group_alone(alloc: Global, given: &str) -> Result<Group, GroupCreateError> {
    group_in(alloc, &MemoryStore::new(alloc), given)
}

// ---- what a group holds

// A group with its block after a call that answered so; where that was refused, the refusal before it.
fn answered_text(
    group: &Group,
    alloc: Global,
    answer: Result<(), NodeCreateError>,
) -> Result<String, AllocError> {
    let text = group_text(group, alloc)?;
    match answer {
        Ok(()) => Ok(text),
        Err(error) => {
            let error = refusal(alloc, &error)?;
            format!(in alloc; "{error}: {text}")
        }
    }
}

// A group after the call that sets the block of a list.
fn set_text(group: &mut Group, alloc: Global, list: &str) -> Result<String, GroupCreateError> {
    let block = block_of(alloc, list)?;
    let answer = set(group, alloc, Some(block));
    Ok(answered_text(group, alloc, answer)?)
}

// A group after the call that replaces its block by that of a list.
fn replaced_text(group: &mut Group, alloc: Global, list: &str) -> Result<String, GroupCreateError> {
    let block = block_of(alloc, list)?;
    let answer = group.replace_consolidated_metadata(alloc, Some(block));
    Ok(answered_text(group, alloc, answer)?)
}

// The text of the group that the call lends which sets the block of a list.
fn lent_text(group: &mut Group, alloc: Global, list: &str) -> Result<String, GroupCreateError> {
    let block = block_of(alloc, list)?;
    match group.set_consolidated_metadata(alloc, Some(block)) {
        Ok(group) => Ok(group_text(group, alloc)?),
        Err(error) => Ok(refusal(alloc, &error)?),
    }
}

// A group after its block was removed.
fn removed_text(group: &mut Group, alloc: Global) -> Result<String, AllocError> {
    let answer = set(group, alloc, None);
    answered_text(group, alloc, answer)
}

// A group after a change of its block; one that is set or put in place of it is that of one group.
fn changed_text(
    group: &mut Group,
    alloc: Global,
    change: &str,
) -> Result<String, GroupCreateError> {
    match change {
        "-" => Ok(group_text(group, alloc)?),
        "set" => set_text(group, alloc, "a=G3"),
        "lent" => lent_text(group, alloc, "a=G3"),
        "removed" => Ok(removed_text(group, alloc)?),
        "set and removed" => {
            set_list(group, alloc, "a=G3")?;
            Ok(removed_text(group, alloc)?)
        }
        "replaced" => replaced_text(group, alloc, "a=G3"),
        "replaced by none" => {
            let answer = group.replace_consolidated_metadata(alloc, None);
            Ok(answered_text(group, alloc, answer)?)
        }
        word => Err(GroupCreateError::from(no_word(alloc, word))),
    }
}

// The group of three fields after a change.
fn changed(alloc: Global, change: &str, given: &str) -> Result<String, GroupCreateError> {
    let mut group = group_alone(alloc, given)?;
    changed_text(&mut group, alloc, change)
}

// The group of three fields after the call that sets the block of the third.
fn set_in(alloc: Global, given: &str) -> Result<String, GroupCreateError> {
    let (path, rest) = fields(given);
    let (document, list) = fields(rest);
    let mut group = plain_group(alloc, &MemoryStore::new(alloc), path, document)?;
    set_text(&mut group, alloc, list)
}

// A copy of the group of three fields.
fn copied(alloc: Global, given: &str) -> Result<String, GroupCreateError> {
    let copy = group_alone(alloc, given)?.try_clone(alloc)?;
    Ok(group_text(&copy, alloc)?)
}

// The group of three fields as one of version 3.
fn as_version_3(alloc: Global, given: &str) -> Result<String, GroupCreateError> {
    let group = group_alone(alloc, given)?.to_v3(alloc);
    Ok(group_text(&group, alloc)?)
}

// What a group says of itself after a change, with its block. `CHANGE | PATH | DOCUMENT | LIST`.
fn asked(alloc: Global, given: &str) -> Result<String, GroupCreateError> {
    let (change, group) = fields(given);
    match change {
        "set list" => set_in(alloc, group),
        "copied" => copied(alloc, group),
        "as version 3" => as_version_3(alloc, group),
        change => changed(alloc, change, group),
    }
}

// A change, and a group with the block that is set; and the group then, with the block that it holds.
const ASKED: &str = r#"
# The field is held where it reads as a block.
- | /g | {"consolidated_metadata":{"kind":"inline","metadata":{"a":{"node_type":"group","zarr_format":3}}},"node_type":"group","zarr_format":3} | none => group at /g with metadata {"consolidated_metadata":{"kind":"inline","metadata":{"a":{"node_type":"group","zarr_format":3}}},"node_type":"group","zarr_format":3} and the block {"kind":"inline","metadata":{"a":{"node_type":"group","zarr_format":3}},"must_understand":false}
- | /g | {"consolidated_metadata":{"kind":"outline","metadata":{}},"node_type":"group","zarr_format":3} | none => group at /g with metadata {"consolidated_metadata":{"kind":"outline","metadata":{}},"node_type":"group","zarr_format":3}
- | /g | {"consolidated_metadata":{"kind":"inline"},"node_type":"group","zarr_format":3} | none => group at /g with metadata {"consolidated_metadata":{"kind":"inline"},"node_type":"group","zarr_format":3}
- | /g | {"consolidated_metadata":{"kind":"inline","metadata":{},"must_understand":true},"node_type":"group","zarr_format":3} | none => group at /g with metadata {"consolidated_metadata":{"kind":"inline","metadata":{},"must_understand":true},"node_type":"group","zarr_format":3}
- | /g | {"consolidated_metadata":{"kind":"inline","metadata":{"a":{}}},"node_type":"group","zarr_format":3} | none => group at /g with metadata {"consolidated_metadata":{"kind":"inline","metadata":{"a":{}}},"node_type":"group","zarr_format":3}
- | /g | {"consolidated_metadata":{"kind":"inline","metadata":{"a":{"attributes":1,"node_type":"group","zarr_format":3}},"must_understand":false},"node_type":"group","zarr_format":3} | none => group at /g with metadata {"consolidated_metadata":{"kind":"inline","metadata":{"a":{"attributes":1,"node_type":"group","zarr_format":3}},"must_understand":false},"node_type":"group","zarr_format":3}
- | /g | {"consolidated_metadata":null,"node_type":"group","zarr_format":3} | none => group at /g with metadata {"node_type":"group","zarr_format":3}
- | /g | G3 | none => group at /g with metadata {"node_type":"group","zarr_format":3}
- | /g | G2 | none => group at /g with metadata {"zarr_format":2}

# A block is set and removed, and all else stays.
- | /g | {"attributes":{"k":1},"b":{"must_understand":false},"node_type":"group","z":1,"zarr_format":3} | none => group at /g with metadata {"attributes":{"k":1},"b":{"must_understand":false},"node_type":"group","z":1,"zarr_format":3}
- | /g | {"attributes":{"k":1},"b":{"must_understand":false},"node_type":"group","z":1,"zarr_format":3} | a=G3 => group at /g with metadata {"attributes":{"k":1},"b":{"must_understand":false},"consolidated_metadata":{"kind":"inline","metadata":{"a":{"node_type":"group","zarr_format":3}},"must_understand":false},"node_type":"group","z":1,"zarr_format":3} and the block {"kind":"inline","metadata":{"a":{"node_type":"group","zarr_format":3}},"must_understand":false}
set | /g | {"attributes":{"k":1},"b":{"must_understand":false},"node_type":"group","z":1,"zarr_format":3} | none => group at /g with metadata {"attributes":{"k":1},"b":{"must_understand":false},"consolidated_metadata":{"kind":"inline","metadata":{"a":{"node_type":"group","zarr_format":3}},"must_understand":false},"node_type":"group","z":1,"zarr_format":3} and the block {"kind":"inline","metadata":{"a":{"node_type":"group","zarr_format":3}},"must_understand":false}
set | /g | {"attributes":{"k":1},"b":{"must_understand":false},"node_type":"group","z":1,"zarr_format":3} | a=G3 => group at /g with metadata {"attributes":{"k":1},"b":{"must_understand":false},"consolidated_metadata":{"kind":"inline","metadata":{"a":{"node_type":"group","zarr_format":3}},"must_understand":false},"node_type":"group","z":1,"zarr_format":3} and the block {"kind":"inline","metadata":{"a":{"node_type":"group","zarr_format":3}},"must_understand":false}
set and removed | /g | {"attributes":{"k":1},"b":{"must_understand":false},"node_type":"group","z":1,"zarr_format":3} | a=G3 => group at /g with metadata {"attributes":{"k":1},"b":{"must_understand":false},"node_type":"group","z":1,"zarr_format":3}
removed | /g | {"attributes":{"k":1},"b":{"must_understand":false},"node_type":"group","z":1,"zarr_format":3} | a=G3 => group at /g with metadata {"attributes":{"k":1},"b":{"must_understand":false},"node_type":"group","z":1,"zarr_format":3}
- | /g | G3 | - => group at /g with metadata {"consolidated_metadata":{"kind":"inline","metadata":{},"must_understand":false},"node_type":"group","zarr_format":3} and the block {"kind":"inline","metadata":{},"must_understand":false}

# A block is replaced as it is set.
replaced | /g | {"attributes":{"k":1},"b":{"must_understand":false},"node_type":"group","z":1,"zarr_format":3} | none => group at /g with metadata {"attributes":{"k":1},"b":{"must_understand":false},"consolidated_metadata":{"kind":"inline","metadata":{"a":{"node_type":"group","zarr_format":3}},"must_understand":false},"node_type":"group","z":1,"zarr_format":3} and the block {"kind":"inline","metadata":{"a":{"node_type":"group","zarr_format":3}},"must_understand":false}
replaced by none | /g | {"attributes":{"k":1},"b":{"must_understand":false},"node_type":"group","z":1,"zarr_format":3} | a=G3 => group at /g with metadata {"attributes":{"k":1},"b":{"must_understand":false},"node_type":"group","z":1,"zarr_format":3}

# The group is lent once a block was set.
lent | /g | {"attributes":{"k":1},"b":{"must_understand":false},"node_type":"group","z":1,"zarr_format":3} | none => group at /g with metadata {"attributes":{"k":1},"b":{"must_understand":false},"consolidated_metadata":{"kind":"inline","metadata":{"a":{"node_type":"group","zarr_format":3}},"must_understand":false},"node_type":"group","z":1,"zarr_format":3} and the block {"kind":"inline","metadata":{"a":{"node_type":"group","zarr_format":3}},"must_understand":false}

# A version 2 group has its block beside its metadata.
- | /g | G2 | a=G2 => group at /g with metadata {"zarr_format":2} and the block {"kind":"inline","metadata":{"a":{"zarr_format":2}},"must_understand":false}
copied | /g | G2 | a=G2 => group at /g with metadata {"zarr_format":2} and the block {"kind":"inline","metadata":{"a":{"zarr_format":2}},"must_understand":false}
as version 3 | /g | G2 | a=G2 => group at /g with metadata {"node_type":"group","zarr_format":3}
removed | /g | G2 | a=G2 => group at /g with metadata {"zarr_format":2}

# A version 2 group takes no block that cannot be written, and stays as it was.
set list | /g | G2 | a=G3 => MetadataVersionMismatch: Found V2 metadata in V3 key or vice-versa: group at /g with metadata {"zarr_format":2}
set list | /g | G2 | a/=G2 => NodePathError(Invalid): invalid node path invalid node name `` in 'a/': group at /g with metadata {"zarr_format":2}
set | /g | G2 | a=G2 => MetadataVersionMismatch: Found V2 metadata in V3 key or vice-versa: group at /g with metadata {"zarr_format":2} and the block {"kind":"inline","metadata":{"a":{"zarr_format":2}},"must_understand":false}
"#;

#[test]
fn groups_hold_blocks(rt: HostRuntime) -> Result<(), Fail> {
    check_rows(rt.alloc(), ASKED, asked)
}

// ---- what stands below a group

// The trees below a group.
fn trees_text<S: ReadableStorageTraits + ListableStorageTraits>(
    group: &Group,
    alloc: Global,
    store: &S,
    config: &Config,
) -> Result<String, AllocError> {
    let nodes = group.children(&Discard, alloc, store, config, true);
    said(alloc, nodes, forest_text)
}

/// What stands below a group by a policy, over a store: its trees, its children alone, and all of it.
pub(crate) fn below_text<S: ReadableStorageTraits + ListableStorageTraits>(
    group: &Group,
    alloc: Global,
    store: &S,
    config: &Config,
) -> Result<String, AllocError> {
    let trees = trees_text(group, alloc, store, config)?;
    let children = group.children(&Discard, alloc, store, config, false);
    let children = said(alloc, children, forest_text)?;
    let all = group.traverse(&Discard, alloc, store, config);
    let all = said(alloc, all, pairs_text)?;
    format!(in alloc; "trees:\n{trees}children:\n{children}all:\n{all}")
}

// The trees below a group, and what is warned of.
fn children_warned(
    group: &Group,
    alloc: Global,
    store: &MemoryStore,
) -> Result<String, AllocError> {
    let sink = Writer::new(Vec::new(alloc));
    let nodes = group.children(&sink, alloc, store, &Config::new(), true);
    with_lines(
        alloc,
        said(alloc, nodes, forest_text),
        "warned: ",
        sink.into_inner(),
    )
}

// All that stands below a group, and what is warned of.
fn traversal_warned(
    group: &Group,
    alloc: Global,
    store: &MemoryStore,
) -> Result<String, AllocError> {
    let sink = Writer::new(Vec::new(alloc));
    let pairs = group.traverse(&sink, alloc, store, &Config::new());
    with_lines(
        alloc,
        said(alloc, pairs, pairs_text),
        "warned: ",
        sink.into_inner(),
    )
}

// The paths of the children of a group, of the groups and of the arrays among them.
fn kinds_text(group: &Group, alloc: Global, store: &MemoryStore) -> Result<String, AllocError> {
    let config = Config::new();
    let all = group.child_paths(&Discard, alloc, store, &config);
    let all = said(alloc, all, paths_text)?;
    let groups = group.child_group_paths(&Discard, alloc, store, &config);
    let groups = said(alloc, groups, paths_text)?;
    let arrays = group.child_array_paths(&Discard, alloc, store, &config);
    let arrays = said(alloc, arrays, paths_text)?;
    format!(in alloc; "all:\n{all}groups:\n{groups}arrays:\n{arrays}")
}

// What stands below a group over a store, by what is asked; all of it by a policy.
fn looked_at(
    alloc: Global,
    look: &str,
    group: &Group,
    store: &MemoryStore,
) -> Result<String, StorageError> {
    let text = match look {
        "children warned" => children_warned(group, alloc, store)?,
        "traversal warned" => traversal_warned(group, alloc, store)?,
        "kinds" => kinds_text(group, alloc, store)?,
        "groups" => {
            let groups = group.child_groups(&Discard, alloc, store, &Config::new());
            said(alloc, groups, groups_text)?
        }
        policy => below_text(group, alloc, store, &config_of(policy_of(alloc, policy)?))?,
    };
    Ok(text)
}

// What stands below the group of a row over a store. `LOOK | LIST | PATH | DOCUMENT | LIST`.
fn looked(alloc: Global, given: &str) -> Result<String, StorageError> {
    let (look, rest) = fields(given);
    let (list, group) = fields(rest);
    let store = store_in(alloc, list)?;
    match group_in(alloc, &store, group) {
        Ok(group) => looked_at(alloc, look, &group, &store),
        Err(error) => Ok(refusal(alloc, &error)?),
    }
}

// What is asked, the documents of a store, and a group with the block that is set; and the answer.
const LOOKED: &str = r#"
# The block of a version 2 group stands for the store.
never | - | /g | LISTED | none => MissingMetadata: group metadata is missing
never | g/.zgroup=G2 | /g | G2 | a=A2 => trees:\nchildren:\nall:\n
must | g/.zgroup=G2 | /g | G2 | a=A2 => trees:\n/g/a A2\nchildren:\n/g/a A2\nall:\n/g/a A2\n
must | g/.zgroup=G2 g/a/.zarray=A2 | /g | LISTED | none => trees:\n/g/a A2\nchildren:\n/g/a A2\nall:\n/g/a A2\n

# A block stands for the store.
auto | - | /group | G3 | LEVELS => trees:\n/group/array A3_SQUARE\n/group/subgroup G3\n  /group/subgroup/mysubarray A3_SQUARE\nchildren:\n/group/array A3_SQUARE\n/group/subgroup G3\nall:\n/group/array A3_SQUARE\n/group/subgroup G3\n/group/subgroup/mysubarray A3_SQUARE\n
auto | group/x/zarr.json=NUL | /group | G3 | LEVELS => trees:\n/group/array A3_SQUARE\n/group/subgroup G3\n  /group/subgroup/mysubarray A3_SQUARE\nchildren:\n/group/array A3_SQUARE\n/group/subgroup G3\nall:\n/group/array A3_SQUARE\n/group/subgroup G3\n/group/subgroup/mysubarray A3_SQUARE\n
must | - | /group | G3 | LEVELS => trees:\n/group/array A3_SQUARE\n/group/subgroup G3\n  /group/subgroup/mysubarray A3_SQUARE\nchildren:\n/group/array A3_SQUARE\n/group/subgroup G3\nall:\n/group/array A3_SQUARE\n/group/subgroup G3\n/group/subgroup/mysubarray A3_SQUARE\n
must | group/x/zarr.json=NUL | /group | G3 | LEVELS => trees:\n/group/array A3_SQUARE\n/group/subgroup G3\n  /group/subgroup/mysubarray A3_SQUARE\nchildren:\n/group/array A3_SQUARE\n/group/subgroup G3\nall:\n/group/array A3_SQUARE\n/group/subgroup G3\n/group/subgroup/mysubarray A3_SQUARE\n
never | - | /group | G3 | LEVELS => trees:\nchildren:\nall:\n
never | group/other/zarr.json=G3 | /group | G3 | LEVELS => trees:\n/group/other G3\nchildren:\n/group/other G3\nall:\n/group/other G3\n

# Keys are paths below the group; the base's own keys, and one that stands below no group.
auto | - | /group | G3 | =G3 /=G3 foo=A3 sub/leaf=G3 => trees:\n/group/foo A3\nchildren:\n/group/foo A3\nall:\n/group/foo A3\n/group/sub/leaf G3\n

# A key that is no path refuses.
auto | - | /group | G3 | foo=A3 foo/=G3 => trees:\nNodePathError(Invalid): invalid node path invalid node name `` in 'foo/'children:\nNodePathError(Invalid): invalid node path invalid node name `` in 'foo/'all:\nNodePathError(Invalid): invalid node path invalid node name `` in 'foo/'
must | - | /group | G3 | foo=A3 foo/=G3 => trees:\nNodePathError(Invalid): invalid node path invalid node name `` in 'foo/'children:\nNodePathError(Invalid): invalid node path invalid node name `` in 'foo/'all:\nNodePathError(Invalid): invalid node path invalid node name `` in 'foo/'
never | - | /group | G3 | foo=A3 foo/=G3 => trees:\nchildren:\nall:\n
auto | - | /group | G3 | foo=A3 //foo=G3 => trees:\nNodePathError(Invalid): invalid node path invalid node name `` in '/foo'children:\nNodePathError(Invalid): invalid node path invalid node name `` in '/foo'all:\nNodePathError(Invalid): invalid node path invalid node name `` in '/foo'
must | - | /group | G3 | foo=A3 //foo=G3 => trees:\nNodePathError(Invalid): invalid node path invalid node name `` in '/foo'children:\nNodePathError(Invalid): invalid node path invalid node name `` in '/foo'all:\nNodePathError(Invalid): invalid node path invalid node name `` in '/foo'
never | - | /group | G3 | foo=A3 //foo=G3 => trees:\nchildren:\nall:\n
auto | - | /group | G3 | foo=A3 __x=G3 => trees:\nNodePathError(Invalid): invalid node path invalid node name `__x` in '__x'children:\nNodePathError(Invalid): invalid node path invalid node name `__x` in '__x'all:\nNodePathError(Invalid): invalid node path invalid node name `__x` in '__x'
must | - | /group | G3 | foo=A3 __x=G3 => trees:\nNodePathError(Invalid): invalid node path invalid node name `__x` in '__x'children:\nNodePathError(Invalid): invalid node path invalid node name `__x` in '__x'all:\nNodePathError(Invalid): invalid node path invalid node name `__x` in '__x'
never | - | /group | G3 | foo=A3 __x=G3 => trees:\nchildren:\nall:\n
auto | - | /group | G3 | foo=A3 a/..=G3 => trees:\nNodePathError(Invalid): invalid node path invalid node name `..` in 'a/..'children:\nNodePathError(Invalid): invalid node path invalid node name `..` in 'a/..'all:\nNodePathError(Invalid): invalid node path invalid node name `..` in 'a/..'
must | - | /group | G3 | foo=A3 a/..=G3 => trees:\nNodePathError(Invalid): invalid node path invalid node name `..` in 'a/..'children:\nNodePathError(Invalid): invalid node path invalid node name `..` in 'a/..'all:\nNodePathError(Invalid): invalid node path invalid node name `..` in 'a/..'
never | - | /group | G3 | foo=A3 a/..=G3 => trees:\nchildren:\nall:\n

# A key that is no path refuses also beside one that is, and the store is listed where no block is used.
auto | group/other/zarr.json=G3 | /group | G3 | foo=A3 /foo=A3 //foo=G3 => trees:\nNodePathError(Invalid): invalid node path invalid node name `` in '/foo'children:\nNodePathError(Invalid): invalid node path invalid node name `` in '/foo'all:\nNodePathError(Invalid): invalid node path invalid node name `` in '/foo'
must | group/other/zarr.json=G3 | /group | G3 | foo=A3 /foo=A3 //foo=G3 => trees:\nNodePathError(Invalid): invalid node path invalid node name `` in '/foo'children:\nNodePathError(Invalid): invalid node path invalid node name `` in '/foo'all:\nNodePathError(Invalid): invalid node path invalid node name `` in '/foo'
never | group/other/zarr.json=G3 | /group | G3 | foo=A3 /foo=A3 //foo=G3 => trees:\n/group/other G3\nchildren:\n/group/other G3\nall:\n/group/other G3\n
auto | group/other/zarr.json=G3 | /group | G3 | __x=G3 => trees:\nNodePathError(Invalid): invalid node path invalid node name `__x` in '__x'children:\nNodePathError(Invalid): invalid node path invalid node name `__x` in '__x'all:\nNodePathError(Invalid): invalid node path invalid node name `__x` in '__x'
must | group/other/zarr.json=G3 | /group | G3 | __x=G3 => trees:\nNodePathError(Invalid): invalid node path invalid node name `__x` in '__x'children:\nNodePathError(Invalid): invalid node path invalid node name `__x` in '__x'all:\nNodePathError(Invalid): invalid node path invalid node name `__x` in '__x'
never | group/other/zarr.json=G3 | /group | G3 | __x=G3 => trees:\n/group/other G3\nchildren:\n/group/other G3\nall:\n/group/other G3\n
auto | group/other/zarr.json=G3 | /group | G3 | a/..=G3 => trees:\nNodePathError(Invalid): invalid node path invalid node name `..` in 'a/..'children:\nNodePathError(Invalid): invalid node path invalid node name `..` in 'a/..'all:\nNodePathError(Invalid): invalid node path invalid node name `..` in 'a/..'
must | group/other/zarr.json=G3 | /group | G3 | a/..=G3 => trees:\nNodePathError(Invalid): invalid node path invalid node name `..` in 'a/..'children:\nNodePathError(Invalid): invalid node path invalid node name `..` in 'a/..'all:\nNodePathError(Invalid): invalid node path invalid node name `..` in 'a/..'
never | group/other/zarr.json=G3 | /group | G3 | a/..=G3 => trees:\n/group/other G3\nchildren:\n/group/other G3\nall:\n/group/other G3\n

# So does a key that is a period, where it is the only one.
auto | - | /group | G3 | .=G3 => trees:\nNodePathError(Invalid): invalid node path invalid node name `.` in '.'children:\nNodePathError(Invalid): invalid node path invalid node name `.` in '.'all:\nNodePathError(Invalid): invalid node path invalid node name `.` in '.'

# Of two spellings the one without the slash counts.
auto | - | / | G3 | -x=A3 /-x=A3_SQUARE => trees:\n/-x A3\nchildren:\n/-x A3\nall:\n/-x A3\n
auto | - | / | G3 | -x=A3 /-x={"chunk_grid":{"configuration":{"chunk_shape":[2]},"name":"regular"},"chunk_key_encoding":{"configuration":{"separator":"/"},"name":"default"},"codecs":[{"configuration":{"endian":"little"},"name":"bytes"}],"data_type":"float32","fill_value":0,"node_type":"array","shape":[2],"zarr_format":3} => trees:\n/-x A3\nchildren:\n/-x A3\nall:\n/-x A3\n

# Entries below no group are traversed and are no children.
auto | - | / | G3 | a=A3 a/y=G3 q/r=G3 => trees:\n/a A3\nchildren:\n/a A3\nall:\n/a A3\n/a/y G3\n/q/r G3\n
must | - | /g | G2 | x/y=G2 => trees:\nchildren:\nall:\n/g/x/y G2\n

# So it is in the block beside a version 2 group that is opened, where attributes and chunks alone are no nodes.
auto | g/.zgroup=G2 g/.zmetadata={"metadata":{"x/y/.zgroup":{"zarr_format":2}},"zarr_consolidated_format":1} | /g | OPENED | none => trees:\nchildren:\nall:\n/g/x/y G2\n
must | g/.zgroup=G2 g/.zmetadata={"metadata":{"x/y/.zgroup":{"zarr_format":2}},"zarr_consolidated_format":1} | /g | OPENED | none => trees:\nchildren:\nall:\n/g/x/y G2\n
must | g/.zgroup=G2 g/.zmetadata={"metadata":{"a/.zattrs":{}},"zarr_consolidated_format":1} | /g | OPENED | none => trees:\nchildren:\nall:\n
must | g/.zgroup=G2 g/.zmetadata={"metadata":{"a/0.0":{}},"zarr_consolidated_format":1} | /g | OPENED | none => trees:\nchildren:\nall:\n
must | g/.zgroup=G2 g/.zmetadata={"metadata":{"a/.zgroup":{"zarr_format":2},"a/.zattrs":{"k":1}},"zarr_consolidated_format":1} | /g | OPENED | none => trees:\n/g/a {"attributes":{"k":1},"zarr_format":2}\nchildren:\n/g/a {"attributes":{"k":1},"zarr_format":2}\nall:\n/g/a {"attributes":{"k":1},"zarr_format":2}\n
never | g/.zgroup=G2 g/.zmetadata={"metadata":{"x/y/.zgroup":{"zarr_format":2}},"zarr_consolidated_format":1} | /g | OPENED | none => trees:\nchildren:\nall:\n

# Without a block the store is listed.
auto | THREE_LEVELS | /group | G3 | none => trees:\n/group/array A3_SQUARE\n/group/subgroup G3\n  /group/subgroup/mysubarray A3_SQUARE\nchildren:\n/group/array A3_SQUARE\n/group/subgroup G3\nall:\n/group/array A3_SQUARE\n/group/subgroup G3\n/group/subgroup/mysubarray A3_SQUARE\n
never | THREE_LEVELS | /group | G3 | none => trees:\n/group/array A3_SQUARE\n/group/subgroup G3\n  /group/subgroup/mysubarray A3_SQUARE\nchildren:\n/group/array A3_SQUARE\n/group/subgroup G3\nall:\n/group/array A3_SQUARE\n/group/subgroup G3\n/group/subgroup/mysubarray A3_SQUARE\n
auto | group/zarr.json=G3 group/a/zarr.json=NUL | /group | G3 | none => trees:\nStorageError(InvalidMetadata): error parsing metadata for group/a/zarr.json: not JSONchildren:\nStorageError(InvalidMetadata): error parsing metadata for group/a/zarr.json: not JSONall:\nStorageError(InvalidMetadata): error parsing metadata for group/a/zarr.json: not JSON

# A block that has to be used and is not there refuses.
must | THREE_LEVELS | / | G2 | none => trees:\nMissingMetadata: Metadata is missing for Consolidated metadata required but missing on group /children:\nMissingMetadata: Metadata is missing for Consolidated metadata required but missing on group /all:\nMissingMetadata: Metadata is missing for Consolidated metadata required but missing on group /
must | THREE_LEVELS | / | G3 | none => trees:\nMissingMetadata: Metadata is missing for Consolidated metadata required but missing on group /children:\nMissingMetadata: Metadata is missing for Consolidated metadata required but missing on group /all:\nMissingMetadata: Metadata is missing for Consolidated metadata required but missing on group /

# A listing warns and a block does not.
children warned | root/fakenode/content/zarr.json=NUL | /root | G3 | none => warned: [WARN  zarrs_node::children] Object at /root/fakenode is not recognized as a component of a Zarr hierarchy. Ignoring.\n
traversal warned | root/fakenode/content/zarr.json=NUL | /root | G3 | none => warned: [WARN  zarrs_node::children] Object at /root/fakenode is not recognized as a component of a Zarr hierarchy. Ignoring.\n
children warned | root/fakenode/content/zarr.json=NUL | /root | G3 | a=G3 => /root/a G3\n
traversal warned | root/fakenode/content/zarr.json=NUL | /root | G3 | a=G3 => /root/a G3\n

# Children by their kinds.
kinds | - | /group | G3 | =G3 /=G3 foo=A3 sub/leaf=G3 => all:\n/group/foo\ngroups:\narrays:\n/group/foo\n
kinds | THREE_LEVELS | / | G3 | none => all:\n/array\n/group\ngroups:\n/group\narrays:\n/array\n
kinds | - | /group | G3 | LEVELS => all:\n/group/array\n/group/subgroup\ngroups:\n/group/subgroup\narrays:\n/group/array\n

# A refusal of the children is handed on; as that of a group with the text of it.
kinds | - | /group | G3 | foo/=G3 => all:\nNodePathError(Invalid): invalid node path invalid node name `` in 'foo/'groups:\nNodePathError(Invalid): invalid node path invalid node name `` in 'foo/'arrays:\nNodePathError(Invalid): invalid node path invalid node name `` in 'foo/'
groups | - | /group | G3 | foo/=G3 => StorageError(Other): invalid node path invalid node name `` in 'foo/'

# The groups among the children hold no block.
groups | zarr.json=G3 b/zarr.json={"attributes":{"k":1},"b":{"must_understand":false},"node_type":"group","z":1,"zarr_format":3} a/.zgroup=G2 a/.zmetadata={"metadata":{"c/.zgroup":{"zarr_format":2}},"zarr_consolidated_format":1} c/zarr.json=A3 b/x/zarr.json=G3 | / | G3 | none => group at /a with metadata {"zarr_format":2}\ngroup at /b with metadata {"attributes":{"k":1},"b":{"must_understand":false},"node_type":"group","z":1,"zarr_format":3}\n
"#;

#[test]
fn groups_say_what_stands_below(rt: HostRuntime) -> Result<(), Fail> {
    check_rows(rt.alloc(), LOOKED, looked)
}

// ---- stored blocks

// Whether a key is in a list of them.
fn has_key(keys: &str, key: &StoreKey) -> bool {
    for kept in keys.split(' ') {
        if kept == key.as_str() {
            return true;
        }
    }
    false
}

// The store with only these of its keys; with all of them for `all`.
fn keep(alloc: Global, store: &mut MemoryStore, keys: &str) -> Result<(), StorageError> {
    let listed = store.list(alloc)?;
    for key in &listed {
        if keys != "all" && !has_key(keys, key) {
            store.erase(key)?;
        }
    }
    Ok(())
}

// The group of a row over a store, which is then stored there; of the store's keys only these are kept.
fn kept_in(
    alloc: Global,
    store: &mut MemoryStore,
    keys: &str,
    given: &str,
) -> Result<Group, GroupCreateError> {
    let group = group_in(alloc, store, given)?;
    group.store_metadata(alloc, store)?;
    keep(alloc, store, keys)?;
    Ok(group)
}

// What is seen by a policy of a group, of what is opened at its path, or of the store.
fn kept_text(
    group: &Group,
    alloc: Global,
    store: &MemoryStore,
    look: &str,
    policy: UseConsolidatedMetadata,
) -> Result<String, AllocError> {
    let config = config_of(policy);
    let path = group.path().as_str();
    match look {
        "held" => said(alloc, held_text(alloc, store), printed),
        "children" => trees_text(group, alloc, store, &config),
        "node" => {
            let node = Node::open(&Discard, alloc, store, path, &config);
            said(alloc, node, node_text)
        }
        "tree" => {
            let node = Node::open(&Discard, alloc, store, path, &config);
            said(alloc, node, Node::hierarchy_tree)
        }
        "opened" => said(alloc, Group::open(alloc, store, path, &config), group_text),
        "opened children" => match Group::open(alloc, store, path, &config) {
            Ok(group) => trees_text(&group, alloc, store, &config),
            Err(error) => refusal(alloc, &error),
        },
        word => format!(in alloc; "no such word: {word}"),
    }
}

// What is seen of a group that is stored, and of its store of which some keys are kept.
// `LIST | KEYS | LOOK | POLICY | PATH | DOCUMENT | LIST`.
fn kept(alloc: Global, given: &str) -> Result<String, StorageError> {
    let (list, rest) = fields(given);
    let (keys, rest) = fields(rest);
    let (look, rest) = fields(rest);
    let (policy, group) = fields(rest);
    let policy = policy_of(alloc, policy)?;
    let mut store = store_in(alloc, list)?;
    match kept_in(alloc, &mut store, keys, group) {
        Ok(group) => Ok(kept_text(&group, alloc, &store, look, policy)?),
        Err(error) => Ok(refusal(alloc, &error)?),
    }
}

// The documents of a store, the keys that are kept once the group of a row is stored there, what is seen then, and by which policy.
const KEPT: &str = r#"
# The block of a listed group stands for a store that was emptied.
THREE_LEVELS | nothing | children | auto | /group | LISTED | none => /group/array A3_SQUARE\n/group/subgroup G3\n  /group/subgroup/mysubarray A3_SQUARE\n
THREE_LEVELS | nothing | children | must | /group | LISTED | none => /group/array A3_SQUARE\n/group/subgroup G3\n  /group/subgroup/mysubarray A3_SQUARE\n
THREE_LEVELS | nothing | children | never | /group | LISTED | none =>

# It stands for a store of which only the group's own document is left.
THREE_LEVELS | group/zarr.json | node | auto | /group | LISTED | none => /group {"consolidated_metadata":{"kind":"inline","metadata":{"array":A3_SQUARE,"subgroup":G3,"subgroup/mysubarray":A3_SQUARE},"must_understand":false},"node_type":"group","zarr_format":3}\n  /group/array A3_SQUARE\n  /group/subgroup G3\n    /group/subgroup/mysubarray A3_SQUARE\n
THREE_LEVELS | group/zarr.json | node | must | /group | LISTED | none => /group {"consolidated_metadata":{"kind":"inline","metadata":{"array":A3_SQUARE,"subgroup":G3,"subgroup/mysubarray":A3_SQUARE},"must_understand":false},"node_type":"group","zarr_format":3}\n  /group/array A3_SQUARE\n  /group/subgroup G3\n    /group/subgroup/mysubarray A3_SQUARE\n
THREE_LEVELS | group/zarr.json | node | never | /group | LISTED | none => /group {"consolidated_metadata":{"kind":"inline","metadata":{"array":A3_SQUARE,"subgroup":G3,"subgroup/mysubarray":A3_SQUARE},"must_understand":false},"node_type":"group","zarr_format":3}\n

# The block of a listed version 2 group is stored as `.zmetadata`.
g/.zgroup=G2 g/a/.zarray=A2 | all | held | auto | /g | LISTED | none => g/.zgroup {\n  "zarr_format": 2\n}\ng/.zmetadata {\n  "metadata": {\n    ".zgroup": {\n      "zarr_format": 2\n    },\n    "a/.zarray": {\n      "chunks": [\n        1\n      ],\n      "compressor": null,\n      "dimension_separator": ".",\n      "dtype": "<f8",\n      "fill_value": "NaN",\n      "filters": null,\n      "order": "C",\n      "shape": [\n        1\n      ],\n      "zarr_format": 2\n    }\n  },\n  "zarr_consolidated_format": 1\n}\ng/a/.zarray {"chunks":[1],"compressor":null,"dtype":"<f8","fill_value":"NaN","filters":null,"order":"C","shape":[1],"zarr_format":2}\n
g/.zgroup=G2 g/a/.zarray=A2 | all | held | auto | /g | G2 | none => g/.zgroup {\n  "zarr_format": 2\n}\ng/a/.zarray {"chunks":[1],"compressor":null,"dtype":"<f8","fill_value":"NaN","filters":null,"order":"C","shape":[1],"zarr_format":2}\n
- | all | held | auto | /g | G2 | none => g/.zgroup {\n  "zarr_format": 2\n}\n

# It stands for the array that was erased.
g/.zgroup=G2 g/a/.zarray=A2 | g/.zgroup g/.zmetadata | tree | auto | /g | LISTED | none => /\n  a [1] Simple("<f8")\n
g/.zgroup=G2 g/a/.zarray=A2 | g/.zgroup g/.zmetadata | tree | must | /g | LISTED | none => /\n  a [1] Simple("<f8")\n
g/.zgroup=G2 g/a/.zarray=A2 | g/.zgroup g/.zmetadata | tree | never | /g | LISTED | none => /\n
g/.zgroup=G2 g/a/.zarray=A2 | g/.zgroup g/.zmetadata | node | must | /g | LISTED | none => /g G2\n  /g/a A2\n
g/.zgroup=G2 g/a/.zarray=A2 | g/.zgroup g/.zmetadata | opened | auto | /g | LISTED | none => group at /g with metadata {"zarr_format":2} and the block {"kind":"inline","metadata":{"a":{"chunks":[1],"compressor":null,"dimension_separator":".","dtype":"<f8","fill_value":"NaN","filters":null,"order":"C","shape":[1],"zarr_format":2}},"must_understand":false}

# The tree by a block keeps no entry below an array, and none below no entry.
- | all | tree | auto | / | G3 | a=A3 a/y=G3 q/r=G3 => /\n  a [1] float32\n

# A block that was set need not be understood.
- | all | opened | auto | / | G3 | - => group at / with metadata {"consolidated_metadata":{"kind":"inline","metadata":{},"must_understand":false},"node_type":"group","zarr_format":3} and the block {"kind":"inline","metadata":{},"must_understand":false}

# A stored group is opened with its block.
- | all | opened children | auto | /group | G3 | LEVELS => /group/array A3_SQUARE\n/group/subgroup G3\n  /group/subgroup/mysubarray A3_SQUARE\n
- | all | opened children | must | /group | G3 | LEVELS => /group/array A3_SQUARE\n/group/subgroup G3\n  /group/subgroup/mysubarray A3_SQUARE\n
- | all | opened children | never | /group | G3 | LEVELS =>

# So is the node at its path, where nothing else is stored.
- | all | node | auto | /group | G3 | LEVELS => /group {"consolidated_metadata":{"kind":"inline","metadata":{"array":A3_SQUARE,"subgroup":G3,"subgroup/mysubarray":A3_SQUARE},"must_understand":false},"node_type":"group","zarr_format":3}\n  /group/array A3_SQUARE\n  /group/subgroup G3\n    /group/subgroup/mysubarray A3_SQUARE\n
- | all | node | must | /group | G3 | LEVELS => /group {"consolidated_metadata":{"kind":"inline","metadata":{"array":A3_SQUARE,"subgroup":G3,"subgroup/mysubarray":A3_SQUARE},"must_understand":false},"node_type":"group","zarr_format":3}\n  /group/array A3_SQUARE\n  /group/subgroup G3\n    /group/subgroup/mysubarray A3_SQUARE\n
- | all | node | never | /group | G3 | LEVELS => /group {"consolidated_metadata":{"kind":"inline","metadata":{"array":A3_SQUARE,"subgroup":G3,"subgroup/mysubarray":A3_SQUARE},"must_understand":false},"node_type":"group","zarr_format":3}\n
"#;

#[test]
fn stored_blocks_stand_for_what_was_erased(rt: HostRuntime) -> Result<(), Fail> {
    check_rows(rt.alloc(), KEPT, kept)
}

// ---- with each allocation refused in turn a block is set, or the call is out of memory and the group stays

// The text of the group of three levels with its block.
fn levels_text(alloc: Global) -> Result<String, AllocError> {
    let block = format!(in alloc;
        r#"{{"kind":"inline","metadata":{{"array":{A3_SQUARE},"subgroup":{G3},"subgroup/mysubarray":{A3_SQUARE}}},"must_understand":false}}"#
    )?;
    format!(in alloc;
        r#"group at /group with metadata {{"consolidated_metadata":{block},"node_type":"group","zarr_format":3}} and the block {block}"#
    )
}

// The text of that group where its block was refused, which leaves it as it was.
const NOT_SET: &str =
    r#"OutOfMemory: out of memory: group at /group with metadata {"node_type":"group","zarr_format":3}"#;

// The group of three levels after the call that sets its block.
fn levels_set(alloc: Global) -> Result<String, GroupCreateError> {
    let mut group = group_of(alloc, "/group", G3)?;
    set_text(&mut group, alloc, "LEVELS")
}

#[test]
fn memory_fails_in_setting_a_block(rt: HostRuntime) -> Result<(), Fail> {
    let alloc = rt.alloc();
    let found = levels_set(alloc)?;
    if found.as_str() == NOT_SET {
        return Err(Fail::from(AllocError));
    }
    let wanted = levels_text(alloc)?;
    is_same(found.as_str(), wanted.as_str())
}

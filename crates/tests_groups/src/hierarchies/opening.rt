//! Hierarchies: made of an array, of a group and of what a store has, and their text.
//!
//! A row says what of a hierarchy it looks at: `tree` is its text, `len` its length, `nodes` its nodes with their metadata, `copy` and `map`
//! those of a copy and of the map, `at` a path what it has there, `below` a path its nodes there, and a path its text from there on.

use crate::fixtures::group_of;
use crate::hierarchies::stores::store_in;
use log::sink::{Discard, Writer};
use std::alloc::{AllocError, Global};
use std::fmt::{Debug, Display};
use std::test::Fail;
use tests_fixtures::{config_of, document_of, document_text, policy_of, version_of};
use tests_support::{G2, check_rows, fields, printed, refusal, said, with_lines};
use zarrs_config::Config;
use zarrs_group::{Group, GroupBuilder, GroupCreateError};
use zarrs_hierarchy::{Hierarchy, depth, laws, tree_at, walk_hierarchy};
use zarrs_meaning::NodeCreateError;
use zarrs_meta::{ArrayMetadata, ArrayMetadataV2, ArrayMetadataV3, Document, NodeMetadata};
use zarrs_node::get_all_nodes_of;
use zarrs_path::NodePath;
use zarrs_store::{MemoryStore, MetadataFault};

// What is seen of a hierarchy by the word of a row.
fn looked(hierarchy: &Hierarchy, alloc: Global, word: &str) -> Result<String, AllocError> {
    match word {
        "tree" => hierarchy.tree(alloc),
        "copy" => said(alloc, hierarchy.try_clone(alloc), nodes_text),
        "len" => printed(&hierarchy.len(), alloc),
        "nodes" => nodes_text(hierarchy, alloc),
        "map" => map_text(hierarchy, alloc),
        word => at_path(hierarchy, alloc, word),
    }
}

// What a hierarchy has at the path behind `at`, how many nodes it has and whether it is empty; its nodes below the path behind `below`; or its
// text from a path on. A text that is no path is refused.
fn at_path(hierarchy: &Hierarchy, alloc: Global, word: &str) -> Result<String, AllocError> {
    let (look, path) = word.split_once(' ').unwrap_or(("from", word));
    let path = match NodePath::new(alloc, path) {
        Ok(path) => path,
        Err(error) => return refusal(alloc, &error),
    };
    match look {
        "at" => {
            let found = got(hierarchy, alloc, &path)?;
            let (len, empty) = (hierarchy.len(), hierarchy.is_empty());
            format!(in alloc; "{found} of {len}, empty: {empty}")
        }
        "below" => lines_text(hierarchy.nodes_below(&path), alloc),
        "from" => hierarchy.tree_of(alloc, &path),
        look => format!(in alloc; "no such look: {look}"),
    }
}

// The metadata that a hierarchy has at a path.
fn got(hierarchy: &Hierarchy, alloc: Global, path: &NodePath) -> Result<String, AllocError> {
    match hierarchy.get(path) {
        Some(metadata) => document_text(metadata, alloc),
        None => String::from_str(alloc, "none"),
    }
}

// Appends the line of a node: its path and its document.
fn push_node(
    text: &mut String,
    alloc: Global,
    path: &NodePath,
    metadata: &NodeMetadata,
) -> Result<(), AllocError> {
    let document = document_text(metadata, alloc)?;
    write!(text, "{path} {document}\n")
}

// The path of each node and its document, one a line.
fn lines_text(nodes: &[(NodePath, NodeMetadata)], alloc: Global) -> Result<String, AllocError> {
    let mut text = String::new(alloc);
    for (path, metadata) in nodes {
        push_node(&mut text, alloc, path, metadata)?;
    }
    Ok(text)
}

/// The path of each node of a hierarchy and its document, one a line.
pub(crate) fn nodes_text(hierarchy: &Hierarchy, alloc: Global) -> Result<String, AllocError> {
    lines_text(hierarchy.nodes(), alloc)
}

// The same of the map of a hierarchy.
fn map_text(hierarchy: &Hierarchy, alloc: Global) -> Result<String, AllocError> {
    let mut text = String::new(alloc);
    for (path, metadata) in hierarchy.as_map(alloc)?.iter() {
        push_node(&mut text, alloc, path, metadata)?;
    }
    Ok(text)
}

/// What is seen by a word of a hierarchy, or the refusal of it.
pub(crate) fn seen<E: Debug + Display + Drop>(
    alloc: Global,
    hierarchy: Result<Hierarchy, E>,
    word: &str,
) -> Result<String, AllocError> {
    match hierarchy {
        Ok(hierarchy) => looked(&hierarchy, alloc, word),
        Err(error) => refusal(alloc, &error),
    }
}

// ---- of no node

// What is seen of the hierarchy without nodes, by a word.
fn of_none(alloc: Global, word: &str) -> Result<String, AllocError> {
    looked(&Hierarchy::new(alloc), alloc, word)
}

const NONE: &str = r#"
tree => /\n
/ => /\n
copy =>
len => 0
nodes =>
map =>
at /nothing => none of 0, empty: true
"#;

#[test]
fn a_hierarchy_without_nodes_is_its_first_line(rt: HostRuntime) -> Result<(), Fail> {
    check_rows(rt.alloc(), NONE, of_none)
}

// ---- of one array

// The array that a document of a version says; a word that is no version is a wrong format.
fn array_of(alloc: Global, version: &str, document: &str) -> Result<ArrayMetadata, MetadataFault> {
    match version {
        "v2" => Ok(ArrayMetadata::V2(ArrayMetadataV2::from_bytes(alloc, document.as_bytes())?)),
        "v3" => Ok(ArrayMetadata::V3(ArrayMetadataV3::from_bytes(alloc, document.as_bytes())?)),
        _ => Err(MetadataFault::WrongFormat),
    }
}

// What is seen of the hierarchy of the array that a document of a version says, at a path. `LOOK | VERSION | PATH | DOCUMENT`.
fn from_array(alloc: Global, given: &str) -> Result<String, NodeCreateError> {
    let (word, rest) = fields(given);
    let (version, rest) = fields(rest);
    let (path, document) = fields(rest);
    let path = NodePath::new(alloc, path)?;
    let document = document_of(alloc, document)?;
    match array_of(alloc, version, document) {
        Ok(array) => Ok(seen(alloc, Hierarchy::from_array(alloc, path, array), word)?),
        Err(fault) => Ok(refusal(alloc, &fault)?),
    }
}

const ARRAYS: &str = r#"
# an array is indented by its names beyond the path
tree | v3 | /a/b | A3 => /\n    b [1] float32\n
/a | v3 | /a/b | A3 => /a\n  b [1] float32\n
/a/b | v3 | /a/b | A3 => /a/b\n
# a configuration and a list of types are marked
tree | v3 | /z | {"chunk_grid":"regular","chunk_key_encoding":"default","codecs":[],"data_type":{"configuration":{"n":1},"name":"t"},"fill_value":0,"node_type":"array","shape":[],"zarr_format":3} => /\n  z [] t(..)\n
tree | v2 | /z | {"chunks":[],"compressor":null,"dtype":[["f","<f8"]],"fill_value":0,"filters":null,"order":"C","shape":[],"zarr_format":2} => /\n  z [] Structured(..)\n
# an array is a hierarchy of one
len | v3 | /store/of/data.zarr/path/to/an/array | A3 => 1
nodes | v3 | /a/b | A3 => /a/b A3\n
map | v2 | /a/b | A2 => /a/b A2\n
"#;

#[test]
fn an_array_is_a_hierarchy_of_one(rt: HostRuntime) -> Result<(), Fail> {
    check_rows(rt.alloc(), ARRAYS, from_array)
}

// ---- opened

// The hierarchy at a path of a store, by a version, or by default for `-`.
fn opened_by(
    alloc: Global,
    store: &MemoryStore,
    path: &str,
    version: &str,
    config: &Config,
) -> Result<Hierarchy, NodeCreateError> {
    if version == "-" {
        return Hierarchy::open(&Discard, alloc, store, path, config);
    }
    let version = version_of(alloc, version)?;
    Hierarchy::open_opt(&Discard, alloc, store, path, &version, config)
}

// The tree of what is opened at a path of a store.
fn opened_tree(
    alloc: Global,
    store: &MemoryStore,
    path: &str,
    version: &str,
    config: &Config,
) -> Result<String, NodeCreateError> {
    let path = NodePath::new(alloc, path)?;
    let version = version_of(alloc, version)?;
    tree_at(&Discard, alloc, store, &path, &version, config)
}

// What a sink takes at a path of a store, as it comes, and the paths that are passed over.
#[derive(Drop)]
struct HandedOver {
    nodes: Vec<(NodePath, NodeMetadata)>,
    ignored: Vec<NodePath>,
}

// What a walk hands over at a path of a store.
fn walked(
    alloc: Global,
    store: &MemoryStore,
    path: &str,
    version: &str,
    config: &Config,
) -> Result<HandedOver, NodeCreateError> {
    let path = NodePath::new(alloc, path)?;
    let version = version_of(alloc, version)?;
    let mut nodes = Vec::new(alloc);
    let ignored = walk_hierarchy(alloc, store, &path, &version, config, &mut nodes)?;
    Ok(HandedOver { nodes, ignored })
}

// The path of each node and its document, one a line, and each path that was passed over.
fn walked_text(handed: &HandedOver, alloc: Global) -> Result<String, AllocError> {
    let mut text = lines_text(&handed.nodes, alloc)?;
    for path in &handed.ignored {
        write!(text, "passed over {path}\n")?;
    }
    Ok(text)
}

// The hierarchy of the nodes that are listed below a path of a store.
fn gathered(
    alloc: Global,
    store: &MemoryStore,
    path: &str,
    version: &str,
) -> Result<Hierarchy, NodeCreateError> {
    let path = NodePath::new(alloc, path)?;
    let version = version_of(alloc, version)?;
    let nodes = get_all_nodes_of(&Discard, alloc, store, &path, &version)?;
    Ok(Hierarchy::from_ascending(nodes))
}

// What is seen of what is opened at a path of a store, by a version and a configuration: for `walked` the nodes that are handed over, for `gathered` all
// nodes that are listed below it.
fn opened_seen(
    alloc: Global,
    store: &MemoryStore,
    word: &str,
    path: &str,
    version: &str,
    config: &Config,
) -> Result<String, AllocError> {
    match word {
        "tree at" => said(
            alloc,
            opened_tree(alloc, store, path, version, config),
            printed,
        ),
        "walked" => said(
            alloc,
            walked(alloc, store, path, version, config),
            walked_text,
        ),
        "gathered" => said(alloc, gathered(alloc, store, path, version), nodes_text),
        word => seen(alloc, opened_by(alloc, store, path, version, config), word),
    }
}

// What is seen of a store by a policy. `LOOK | PATH | VERSION | POLICY | STORE`.
fn opened(alloc: Global, given: &str) -> Result<String, GroupCreateError> {
    let (word, rest) = fields(given);
    let (path, rest) = fields(rest);
    let (version, rest) = fields(rest);
    let (policy, list) = fields(rest);
    let config = config_of(policy_of(alloc, policy)?);
    let store = store_in(alloc, list)?;
    Ok(opened_seen(alloc, &store, word, path, version, &config)?)
}

const OPENED: &str = r#"
# nothing is opened in an empty store
tree | / | - | auto | - => MissingMetadata: Metadata is missing for /
# a text that is no path is refused
tree | x | - | auto | zarr.json=G3 => NodePathError(Invalid): invalid node path x
# siblings stand in the order of names
tree | / | - | auto | zarr.json=G3 a/zarr.json=G3 a/x/zarr.json=G3 a-b/zarr.json=G3 => /\n  a\n    x\n  a-b\n
/ | / | - | auto | zarr.json=G3 a/zarr.json=G3 a/x/zarr.json=G3 a-b/zarr.json=G3 => /\n  a\n    x\n  a-b\n
# three levels are printed from each path
tree | / | - | auto | THREE_LEVELS => /\n  array [10, 10] float32\n  group\n    array [10, 10] float32\n    subgroup\n      mysubarray [10, 10] float32\n
/group/subgroup | / | - | auto | THREE_LEVELS => /group/subgroup\n  mysubarray [10, 10] float32\n
tree | /array | - | auto | THREE_LEVELS => /\n  array [10, 10] float32\n
# a sibling with a longer name is not below
/group | / | - | auto | zarr.json=G3 group/zarr.json=G3 group/subgroup/zarr.json=G3 group2/zarr.json=G3 group2/a/zarr.json=G3 => /group\n  subgroup\n
/group | / | - | auto | zarr.json=G3 group/zarr.json=G3 group/subgroup/zarr.json=G3 array/zarr.json=A3_SQUARE group/array/zarr.json=A3_SQUARE group/subgroup/mysubarray/zarr.json=A3_SQUARE group2/zarr.json=G3 => /group\n  array [10, 10] float32\n  subgroup\n    mysubarray [10, 10] float32\n
# a hierarchy is copied and looked up
copy | / | - | auto | THREE_LEVELS => / G3\n/array A3_SQUARE\n/group G3\n/group/array A3_SQUARE\n/group/subgroup G3\n/group/subgroup/mysubarray A3_SQUARE\n
map | / | - | auto | THREE_LEVELS => / G3\n/array A3_SQUARE\n/group G3\n/group/array A3_SQUARE\n/group/subgroup G3\n/group/subgroup/mysubarray A3_SQUARE\n
nodes | / | - | auto | THREE_LEVELS => / G3\n/array A3_SQUARE\n/group G3\n/group/array A3_SQUARE\n/group/subgroup G3\n/group/subgroup/mysubarray A3_SQUARE\n
at /group | / | - | auto | THREE_LEVELS => G3 of 6, empty: false
at /nothing | / | - | auto | THREE_LEVELS => none of 6, empty: false
nodes | / | - | auto | zarr.json=G3 a/.zarray=A2 a/.zattrs={"k":1} => / G3\n/a {"attributes":{"k":1},"chunks":[1],"compressor":null,"dimension_separator":".","dtype":"<f8","fill_value":"NaN","filters":null,"order":"C","shape":[1],"zarr_format":2}\n
# of two spellings the one without the slash counts
tree | / | - | auto | zarr.json={"consolidated_metadata":{"kind":"inline","metadata":{"-x":{"chunk_grid":{"configuration":{"chunk_shape":[1]},"name":"regular"},"chunk_key_encoding":{"configuration":{"separator":"/"},"name":"default"},"codecs":[{"configuration":{"endian":"little"},"name":"bytes"}],"data_type":"float32","fill_value":0,"node_type":"array","shape":[1],"zarr_format":3},"/-x":{"chunk_grid":{"configuration":{"chunk_shape":[2]},"name":"regular"},"chunk_key_encoding":{"configuration":{"separator":"/"},"name":"default"},"codecs":[{"configuration":{"endian":"little"},"name":"bytes"}],"data_type":"float32","fill_value":0,"node_type":"array","shape":[2],"zarr_format":3}},"must_understand":false},"node_type":"group","zarr_format":3} => /\n  -x [1] float32\n
nodes | / | - | auto | zarr.json={"consolidated_metadata":{"kind":"inline","metadata":{"-x":{"chunk_grid":{"configuration":{"chunk_shape":[1]},"name":"regular"},"chunk_key_encoding":{"configuration":{"separator":"/"},"name":"default"},"codecs":[{"configuration":{"endian":"little"},"name":"bytes"}],"data_type":"float32","fill_value":0,"node_type":"array","shape":[1],"zarr_format":3},"/-x":{"chunk_grid":{"configuration":{"chunk_shape":[2]},"name":"regular"},"chunk_key_encoding":{"configuration":{"separator":"/"},"name":"default"},"codecs":[{"configuration":{"endian":"little"},"name":"bytes"}],"data_type":"float32","fill_value":0,"node_type":"array","shape":[2],"zarr_format":3}},"must_understand":false},"node_type":"group","zarr_format":3} => / {"consolidated_metadata":{"kind":"inline","metadata":{"-x":A3,"/-x":{"chunk_grid":{"configuration":{"chunk_shape":[2]},"name":"regular"},"chunk_key_encoding":{"configuration":{"separator":"/"},"name":"default"},"codecs":[{"configuration":{"endian":"little"},"name":"bytes"}],"data_type":"float32","fill_value":0,"node_type":"array","shape":[2],"zarr_format":3}},"must_understand":false},"node_type":"group","zarr_format":3}\n/-x A3\n
# a hierarchy has all entries of a block
tree | / | - | auto | zarr.json={"consolidated_metadata":{"kind":"inline","metadata":{"a":{"chunk_grid":{"configuration":{"chunk_shape":[1]},"name":"regular"},"chunk_key_encoding":{"configuration":{"separator":"/"},"name":"default"},"codecs":[{"configuration":{"endian":"little"},"name":"bytes"}],"data_type":"float32","fill_value":0,"node_type":"array","shape":[1],"zarr_format":3},"a/y":{"node_type":"group","zarr_format":3},"q/r":{"node_type":"group","zarr_format":3}},"must_understand":false},"node_type":"group","zarr_format":3} => /\n  a [1] float32\n    y\n    r\n
tree | / | - | never | zarr.json={"consolidated_metadata":{"kind":"inline","metadata":{"a":{"chunk_grid":{"configuration":{"chunk_shape":[1]},"name":"regular"},"chunk_key_encoding":{"configuration":{"separator":"/"},"name":"default"},"codecs":[{"configuration":{"endian":"little"},"name":"bytes"}],"data_type":"float32","fill_value":0,"node_type":"array","shape":[1],"zarr_format":3},"a/y":{"node_type":"group","zarr_format":3},"q/r":{"node_type":"group","zarr_format":3}},"must_understand":false},"node_type":"group","zarr_format":3} => /\n
# a block that must be understood is used
tree | / | - | auto | zarr.json={"consolidated_metadata":{"kind":"inline","metadata":{}},"node_type":"group","zarr_format":3} a/zarr.json=G3 => /\n
# a bad key of a block is refused
tree | / | - | must | zarr.json={"consolidated_metadata":{"kind":"inline","metadata":{"foo/":{"node_type":"group","zarr_format":3}},"must_understand":false},"node_type":"group","zarr_format":3} => NodePathError(Invalid): invalid node path invalid node name `` in 'foo/'
# the want of a block is refused, unless it is an array that is opened
tree | / | - | must | zarr.json=G3 => MissingMetadata: Metadata is missing for Consolidated metadata required but missing on group /
tree | /a | - | must | a/zarr.json=A3 => /\n  a [1] float32\n
# in the block beside a version 2 group, a node below no group is mapped
tree | /g | - | must | g/.zgroup=G2 g/.zmetadata={"metadata":{"x/y/.zgroup":{"zarr_format":2}},"zarr_consolidated_format":1} => /\n  g\n      y\n
# in the block beside a version 2 group, attributes alone are no node
tree | /g | - | must | g/.zgroup=G2 g/.zmetadata={"metadata":{"a/.zattrs":{}},"zarr_consolidated_format":1} => /\n  g\n
# a version admits its documents
tree | / | v3 | auto | zarr.json=G3 g/zarr.json=G3 old/.zgroup=G2 => /\n  g\n
tree | / | any | auto | zarr.json=G3 g/zarr.json=G3 old/.zgroup=G2 => /\n  g\n  old\n
tree | / | v2 | auto | zarr.json=G3 g/zarr.json=G3 old/.zgroup=G2 => MissingMetadata: Metadata is missing for /
# all nodes that are listed are a hierarchy, and its nodes below a path stand in one run, in the order of names
gathered | / | any | auto | zarr.json=G3 a/zarr.json=G3 a/x/zarr.json=A3 a-b/zarr.json=G3 => /a G3\n/a/x A3\n/a-b G3\n
gathered | /a | any | auto | zarr.json=G3 a/zarr.json=G3 a/x/zarr.json=A3 a-b/zarr.json=G3 => /a/x A3\n
below /a | / | any | auto | zarr.json=G3 a/zarr.json=G3 a/x/zarr.json=A3 a-b/zarr.json=G3 => /a/x A3\n
below /a/x | / | any | auto | zarr.json=G3 a/zarr.json=G3 a/x/zarr.json=A3 a-b/zarr.json=G3 =>
below / | / | any | auto | zarr.json=G3 a/zarr.json=G3 a/x/zarr.json=G3 a-b/zarr.json=G3 => /a G3\n/a/x G3\n/a-b G3\n
below /a | / | any | auto | zarr.json=G3 a/zarr.json=G3 a/x/zarr.json=G3 a/y/zarr.json=G3 a-b/zarr.json=G3 b/zarr.json=G3 => /a/x G3\n/a/y G3\n
below /0 | / | any | auto | zarr.json=G3 a/zarr.json=G3 =>
below /b | / | any | auto | zarr.json=G3 a/zarr.json=G3 b/zarr.json=G3 b/x/zarr.json=G3 => /b/x G3\n
# the tree alone is that of what is opened: a line for each node below the path, by a listing
tree at | / | any | auto | THREE_LEVELS => /\n  array [10, 10] float32\n  group\n    array [10, 10] float32\n    subgroup\n      mysubarray [10, 10] float32\n
tree at | /group/subgroup | any | auto | THREE_LEVELS => /group/subgroup\n  mysubarray [10, 10] float32\n
tree at | /array | any | must | THREE_LEVELS => /array\n
# by a version
tree at | / | v3 | auto | zarr.json=G3 g/zarr.json=G3 old/.zgroup=G2 => /\n  g\n
tree at | / | v2 | auto | zarr.json=G3 g/zarr.json=G3 old/.zgroup=G2 => MissingMetadata: Metadata is missing for /
# by a block, and where none may be used by a listing
tree at | / | any | auto | zarr.json={"consolidated_metadata":{"kind":"inline","metadata":{"q/r":{"node_type":"group","zarr_format":3}},"must_understand":false},"node_type":"group","zarr_format":3} s/zarr.json=G3 => /\n    r\n
tree at | / | any | never | zarr.json={"consolidated_metadata":{"kind":"inline","metadata":{"q/r":{"node_type":"group","zarr_format":3}},"must_understand":false},"node_type":"group","zarr_format":3} s/zarr.json=G3 => /\n  s\n
tree at | / | any | must | zarr.json=G3 => MissingMetadata: Metadata is missing for Consolidated metadata required but missing on group /
# the nodes that are handed over are those of what is opened, the one at the path first
walked | / | any | auto | zarr.json=G3 a/zarr.json=G3 a/x/zarr.json=A3 a-b/zarr.json=G3 => / G3\n/a G3\n/a/x A3\n/a-b G3\n
walked | /a/x | any | must | zarr.json=G3 a/zarr.json=G3 a/x/zarr.json=A3 => /a/x A3\n
walked | / | v2 | never | zarr.json=G3 .zgroup=G2 a/.zarray=A2 => / G2\n/a A2\n
walked | /g | any | auto | g/.zgroup=G2 g/s/.zgroup=G2 g/.zmetadata={"metadata":{"x/y/.zgroup":{"zarr_format":2}},"zarr_consolidated_format":1} => /g G2\n/g/x/y G2\n
walked | / | any | auto | zarr.json=G3 a/zarr.json=G3 fake/c= other/d/e= => / G3\n/a G3\npassed over /fake\npassed over /other\n
walked | /a | any | auto | a/zarr.json=A3 a/c/0= => /a A3\n
walked | /g | any | auto | g/.zgroup=G2 g/fake/c= g/.zmetadata={"metadata":{"x/y/.zgroup":{"zarr_format":2}},"zarr_consolidated_format":1} => /g G2\n/g/x/y G2\n
walked | /g | any | never | g/.zgroup=G2 g/fake/c= g/.zmetadata={"metadata":{"x/y/.zgroup":{"zarr_format":2}},"zarr_consolidated_format":1} => /g G2\npassed over /g/fake\n
walked | / | any | must | zarr.json=G3 => MissingMetadata: Metadata is missing for Consolidated metadata required but missing on group /
# what is bad below a group is refused
tree at | / | any | auto | zarr.json=G3 a/zarr.json=NUL => StorageError(InvalidMetadata): error parsing metadata for a/zarr.json: not JSON
# a data set by a builder is opened
tree | / | - | auto | DATASET => /\n  array [10, 10] float32\n  group\n    array [10, 10] float32\n    subgroup\n      mysubarray [10, 10] float32\n
tree | /array | - | auto | DATASET => /\n  array [10, 10] float32\n
"#;

#[test]
fn a_hierarchy_has_what_a_store_lists_or_a_block_has(rt: HostRuntime) -> Result<(), Fail> {
    check_rows(rt.alloc(), OPENED, opened)
}

// The text of the hierarchy at the root of a store, and what is warned of. `STORE`.
fn warnings(alloc: Global, given: &str) -> Result<String, GroupCreateError> {
    let store = store_in(alloc, given)?;
    let sink = Writer::new(Vec::new(alloc));
    let hierarchy = Hierarchy::open(&sink, alloc, &store, "/", &Config::new());
    let text = seen(alloc, hierarchy, "tree");
    Ok(with_lines(alloc, text, "", sink.into_inner())?)
}

const WARNINGS: &str = r#"
zarr.json=G3 fakenode/content/c= => /\n[WARN  zarrs_node::children] Object at /fakenode is not recognized as a component of a Zarr hierarchy. Ignoring.\n
"#;

#[test]
fn what_is_passed_over_is_warned_of(rt: HostRuntime) -> Result<(), Fail> {
    check_rows(rt.alloc(), WARNINGS, warnings)
}

// ---- of a group

// The version 2 group at a path, once it was stored.
fn stored_group(
    alloc: Global,
    store: &mut MemoryStore,
    path: &str,
) -> Result<Group, GroupCreateError> {
    let group = group_of(alloc, path, G2)?;
    group.store_metadata(alloc, store)?;
    Ok(group)
}

// The group at a path: `OPENED` in the store, `BUILT` by a builder of nothing, `STORED` there as version 2, or made of a document.
fn group_at(
    alloc: Global,
    store: &mut MemoryStore,
    path: &str,
    word: &str,
) -> Result<Group, GroupCreateError> {
    match word {
        "OPENED" => Group::open(alloc, store, path, &Config::new()),
        "BUILT" => GroupBuilder::new(alloc).build(alloc, path, &Config::new()),
        "STORED" => stored_group(alloc, store, path),
        document => group_of(alloc, path, document_of(alloc, document)?),
    }
}

// What is seen of the hierarchy of a group over a store. `LOOK | PATH | GROUP | STORE`.
fn of_group(alloc: Global, given: &str) -> Result<String, GroupCreateError> {
    let (word, rest) = fields(given);
    let (path, rest) = fields(rest);
    let (group, list) = fields(rest);
    let mut store = store_in(alloc, list)?;
    let group = group_at(alloc, &mut store, path, group)?;
    let hierarchy = Hierarchy::try_from_group(&Discard, alloc, &group, &store);
    Ok(seen(alloc, hierarchy, word)?)
}

const GROUPS: &str = r#"
# a group has what is listed below it
len | / | OPENED | THREE_LEVELS => 6
tree | / | OPENED | THREE_LEVELS => /\n  array [10, 10] float32\n  group\n    array [10, 10] float32\n    subgroup\n      mysubarray [10, 10] float32\n
/group/subgroup | / | OPENED | THREE_LEVELS => /group/subgroup\n  mysubarray [10, 10] float32\n
# a group of version 2 has what is listed below it
tree | /groupv2 | OPENED | groupv2/.zgroup=G2 groupv2/arrayv2/.zarray=A2 => /\n  groupv2\n    arrayv2 [1] Simple("<f8")\n
# so has a group that a builder makes, over its data set
len | / | BUILT | DATASET => 6
nodes | / | BUILT | DATASET => / G3\n/array {"chunk_grid":{"configuration":{"chunk_shape":[5,5]},"name":"regular"},"chunk_key_encoding":{"configuration":{"separator":"/"},"name":"default"},"codecs":[{"configuration":{"endian":"little"},"name":"bytes"}],"data_type":"float32","fill_value":0,"node_type":"array","shape":[10,10],"zarr_format":3}\n/group G3\n/group/array {"chunk_grid":{"configuration":{"chunk_shape":[5,5]},"name":"regular"},"chunk_key_encoding":{"configuration":{"separator":"/"},"name":"default"},"codecs":[{"configuration":{"endian":"little"},"name":"bytes"}],"data_type":"float32","fill_value":0,"node_type":"array","shape":[10,10],"zarr_format":3}\n/group/subgroup G3\n/group/subgroup/mysubarray {"chunk_grid":{"configuration":{"chunk_shape":[5,5]},"name":"regular"},"chunk_key_encoding":{"configuration":{"separator":"/"},"name":"default"},"codecs":[{"configuration":{"endian":"little"},"name":"bytes"}],"data_type":"float32","fill_value":0,"node_type":"array","shape":[10,10],"zarr_format":3}\n
/group/subgroup | / | BUILT | DATASET => /group/subgroup\n  mysubarray [10, 10] float32\n
tree | / | BUILT | DATASET => /\n  array [10, 10] float32\n  group\n    array [10, 10] float32\n    subgroup\n      mysubarray [10, 10] float32\n
# and a group of version 2 that is made and stored
tree | /groupv2 | STORED | groupv2/arrayv2/.zarray=A2 => /\n  groupv2\n    arrayv2 [1] Simple("<f8")\n
# a bad subgroup of a group that is made is refused
tree | / | G3 | - => /\n
tree | / | G3 | subgroup/zarr.json=NUL => StorageError(InvalidMetadata): error parsing metadata for subgroup/zarr.json: not JSON
"#;

#[test]
fn a_group_has_what_is_listed_below_it(rt: HostRuntime) -> Result<(), Fail> {
    check_rows(rt.alloc(), GROUPS, of_group)
}

#[test]
fn the_laws_of_hierarchies_are_called() {
    laws::printing_agrees();
    laws::shown_is_tree();
}

// How deep a path lies.
fn depth_said(alloc: Global, path: &str) -> Result<String, NodeCreateError> {
    let path = NodePath::new(alloc, path)?;
    Ok(printed(&depth(&path), alloc)?)
}

const DEPTHS: &str = r#"
/ => 0
/a => 1
/a/b.c/d => 3
"#;

#[test]
fn a_path_lies_as_deep_as_it_has_names(rt: HostRuntime) -> Result<(), Fail> {
    check_rows(rt.alloc(), DEPTHS, depth_said)
}

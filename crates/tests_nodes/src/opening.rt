//! Trees built of pairs, and nodes opened by a block or by a listing.

use crate::given::{is_all, pair_of, pairs_in, store_in};
use log::sink::{Discard, Writer};
use std::alloc::{AllocError, Global};
use std::test::Fail;
use tests_fixtures::{
    config_of, entries_of, forest_text, no_word, node_text, policy_of, version_of, with_block,
};
use tests_support::{check_rows, fields, said};
use zarrs_block::ConsolidatedMetadata;
use zarrs_config::Config;
use zarrs_meaning::NodeCreateError;
use zarrs_meta::NodeMetadata;
use zarrs_node::{
    Node, build_node_tree, build_node_tree_counted, direct_children_from_flat, nodes_of_block,
};
use zarrs_path::NodePath;
use zarrs_store::MemoryStore;

// ---- trees of pairs

// The pairs of a list.
fn pairs_of(alloc: Global, list: &str) -> Result<Vec<(NodePath, NodeMetadata)>, NodeCreateError> {
    let list = pairs_in(alloc, list)?;
    list.as_slice()
        .iter()
        .map(|(path, document)| pair_of(alloc, path, document))
        .try_collect(alloc)
}

// The trees, and a line with the steps.
fn counted_text(made: &(Vec<Node>, u64), alloc: Global) -> Result<String, AllocError> {
    let mut text = forest_text(&made.0, alloc)?;
    write!(text, "{} steps\n", made.1)?;
    Ok(text)
}

// What is built as a row says: the call, the base, and the pairs.
fn built(alloc: Global, given: &str) -> Result<String, NodeCreateError> {
    let (call, rest) = fields(given);
    let (base, list) = fields(rest);
    let base = NodePath::new(alloc, base)?;
    let pairs = pairs_of(alloc, list)?;
    let text = match call {
        "tree" => said(alloc, build_node_tree(alloc, &base, pairs), forest_text)?,
        "counted" => said(
            alloc,
            build_node_tree_counted(alloc, &base, pairs),
            counted_text,
        )?,
        "direct" => said(
            alloc,
            direct_children_from_flat(alloc, &base, pairs),
            forest_text,
        )?,
        call => return Err(NodeCreateError::from(no_word(alloc, call))),
    };
    Ok(text)
}

// Call, base and pairs; the trees, and the steps where they are counted.
const BUILT: &str = r#"
# a tree has the pairs below their parents
tree | / | /a G3;/a/x A3;/a/y G3 => /a G3\n  /a/x A3\n  /a/y G3\n
tree | /a | /a G3;/a/x A3;/a/y G3 => /a/x A3\n/a/y G3\n

# nothing stands below an array
tree | / | /a A3;/a/x G3 => /a A3\n

# direct children have no children
direct | / | /a G3;/a/x A3;/a/y G3 => /a G3\n

# direct children stand as often as their pairs
direct | / | /b G3;/a A3;/a/x G3;/a A3_SQUARE;/ G3 => /a A3\n/a A3_SQUARE\n/b G3\n

# a tree takes a step for each path and each group
counted | / | /a/y G3;/a A3;/a/x A3;/b/c G3;/a/x/z G3;/a G3 => /a G3\n  /a/x A3\n  /a/y G3\n7 steps\n
counted | / | => 0 steps\n
"#;

#[test]
fn trees_are_built_of_pairs(rt: HostRuntime) -> Result<(), Fail> {
    check_rows(rt.alloc(), BUILT, built)
}

// ---- nodes of a block

// The block of a list of keys and documents.
fn block_of(alloc: Global, list: &str) -> Result<ConsolidatedMetadata, NodeCreateError> {
    let pairs = pairs_in(alloc, list)?;
    let metadata = entries_of(alloc, pairs.as_slice())?;
    Ok(ConsolidatedMetadata { metadata })
}

// The nodes below a base that the block of a row holds, all or one level.
fn held(alloc: Global, given: &str) -> Result<Vec<Node>, NodeCreateError> {
    let (depth, rest) = fields(given);
    let (base, list) = fields(rest);
    let base = NodePath::new(alloc, base)?;
    let recursive = is_all(alloc, depth)?;
    nodes_of_block(alloc, &base, block_of(alloc, list)?, recursive)
}

fn held_said(alloc: Global, given: &str) -> Result<String, AllocError> {
    said(alloc, held(alloc, given), forest_text)
}

// Depth, base and block; the trees of its nodes, or the refusal.
const HELD: &str = r#"
# the entries stand below their groups
all | / | a G3;a/x A3;a/y G3;b G3 => /a G3\n  /a/x A3\n  /a/y G3\n/b G3\n
children | / | a G3;a/x A3;a/y G3;b G3 => /a G3\n/b G3\n

# what stands below an array or below no entry is dropped
all | /b | a A3;a/x G3;c/d G3 => /b/a A3\n

# a key that is no relative path is refused
all | / | a G3;a//b G3 => NodePathError(Invalid): invalid node path invalid node name `` in 'a//b'
children | / | a G3;a//b G3 => NodePathError(Invalid): invalid node path invalid node name `` in 'a//b'
"#;

#[test]
fn nodes_are_made_of_a_block(rt: HostRuntime) -> Result<(), Fail> {
    check_rows(rt.alloc(), HELD, held_said)
}

// ---- opening

// The node at the path of a row by its policy, in its store.
fn opened(alloc: Global, given: &str) -> Result<Node, NodeCreateError> {
    let (path, rest) = fields(given);
    let (policy, documents) = fields(rest);
    let config = config_of(policy_of(alloc, policy)?);
    let store = store_in(alloc, documents)?;
    Node::open(&Discard, alloc, &store, path, &config)
}

fn opened_said(alloc: Global, given: &str) -> Result<String, AllocError> {
    said(alloc, opened(alloc, given), node_text)
}

// Path, policy and store; the node and what is below it, or the refusal.
const OPENED: &str = r#"
# an empty store has no root
/ | auto | => MissingMetadata: Metadata is missing for /

/node | auto | => MissingMetadata: Metadata is missing for /node

# a document that is no JSON refuses its own node, and no node above it that has none
/node | auto | node/zarr.json NUL => StorageError(InvalidMetadata): error parsing metadata for node/zarr.json: not JSON
/node/array | auto | node/array/zarr.json NUL => StorageError(InvalidMetadata): error parsing metadata for node/array/zarr.json: not JSON
/node | auto | node/array/zarr.json NUL => MissingMetadata: Metadata is missing for /node

# a text that is no path is refused before the store is asked
node | auto | => NodePathError(Invalid): invalid node path node
x/ | must | => NodePathError(Invalid): invalid node path x/

# an array stands before a group of version 2
/p | auto | p/.zarray A2;p/.zgroup [] => /p A2\n
/p | auto | p/.zarray A2;p/.zgroup [];p/q/zarr.json G3 => /p A2\n
/p | must | p/.zarray A2;p/.zgroup [];p/q/zarr.json G3 => /p A2\n

# a stored array is the node's metadata
/node | auto | node/zarr.json {"chunk_grid":{"configuration":{"chunk_shape":[1,1,1]},"name":"regular"},"chunk_key_encoding":{"configuration":{"separator":"/"},"name":"default"},"codecs":[{"configuration":{"endian":"little"},"name":"bytes"}],"data_type":"float32","fill_value":0,"node_type":"array","shape":[1,2,3],"zarr_format":3} => /node {"chunk_grid":{"configuration":{"chunk_shape":[1,1,1]},"name":"regular"},"chunk_key_encoding":{"configuration":{"separator":"/"},"name":"default"},"codecs":[{"configuration":{"endian":"little"},"name":"bytes"}],"data_type":"float32","fill_value":0,"node_type":"array","shape":[1,2,3],"zarr_format":3}\n

# a group has its attributes, those beside it of version 2
/g | auto | g/zarr.json {"attributes":{"k":1},"node_type":"group","zarr_format":3};g/a/zarr.json A3 => /g {"attributes":{"k":1},"node_type":"group","zarr_format":3}\n  /g/a A3\n
/g | auto | g/.zgroup G2;g/.zattrs {"k":1} => /g {"attributes":{"k":1},"zarr_format":2}\n

# a document of version 2 where version 3 belongs is refused
/ | auto | zarr.json G2 => MetadataVersionMismatch: Found V2 metadata in V3 key or vice-versa

# a group without a block is listed
/ | auto | three levels => / G3\n  /array A3_SQUARE\n  /group G3\n    /group/array A3_SQUARE\n    /group/subgroup G3\n      /group/subgroup/mysubarray A3_SQUARE\n
/ | never | three levels => / G3\n  /array A3_SQUARE\n  /group G3\n    /group/array A3_SQUARE\n    /group/subgroup G3\n      /group/subgroup/mysubarray A3_SQUARE\n

# a group without a block is refused where one is demanded
/ | must | .zgroup G2 => MissingMetadata: Metadata is missing for Consolidated metadata required but missing on group /
/ | must | zarr.json G3 => MissingMetadata: Metadata is missing for Consolidated metadata required but missing on group /
/ | must | zarr.json {"consolidated_metadata":{"kind":"outline"},"node_type":"group","zarr_format":3};a/zarr.json G3 => MissingMetadata: Metadata is missing for Consolidated metadata required but missing on group /
/ | auto | zarr.json {"consolidated_metadata":{"kind":"outline"},"node_type":"group","zarr_format":3};a/zarr.json G3 => / {"consolidated_metadata":{"kind":"outline"},"node_type":"group","zarr_format":3}\n  /a G3\n

# a block that does not read counts as absent
/ | auto | zarr.json {"consolidated_metadata":{"kind":"outline","metadata":{},"must_understand":false},"node_type":"group","zarr_format":3};a/zarr.json G3 => / {"consolidated_metadata":{"kind":"outline","metadata":{},"must_understand":false},"node_type":"group","zarr_format":3}\n  /a G3\n
/ | must | zarr.json {"consolidated_metadata":{"kind":"outline","metadata":{},"must_understand":false},"node_type":"group","zarr_format":3};a/zarr.json G3 => MissingMetadata: Metadata is missing for Consolidated metadata required but missing on group /
/ | auto | zarr.json {"consolidated_metadata":{"kind":"inline","must_understand":false},"node_type":"group","zarr_format":3};a/zarr.json G3 => / {"consolidated_metadata":{"kind":"inline","must_understand":false},"node_type":"group","zarr_format":3}\n  /a G3\n
/ | must | zarr.json {"consolidated_metadata":{"kind":"inline","must_understand":false},"node_type":"group","zarr_format":3};a/zarr.json G3 => MissingMetadata: Metadata is missing for Consolidated metadata required but missing on group /
/ | auto | zarr.json {"consolidated_metadata":{"kind":"inline","metadata":{},"must_understand":true},"node_type":"group","zarr_format":3};a/zarr.json G3 => / {"consolidated_metadata":{"kind":"inline","metadata":{},"must_understand":true},"node_type":"group","zarr_format":3}\n  /a G3\n
/ | must | zarr.json {"consolidated_metadata":{"kind":"inline","metadata":{},"must_understand":true},"node_type":"group","zarr_format":3};a/zarr.json G3 => MissingMetadata: Metadata is missing for Consolidated metadata required but missing on group /
/ | auto | zarr.json {"consolidated_metadata":{"kind":"inline","metadata":{"a":{"attributes":1,"node_type":"group","zarr_format":3}},"must_understand":false},"node_type":"group","zarr_format":3};a/zarr.json G3 => / {"consolidated_metadata":{"kind":"inline","metadata":{"a":{"attributes":1,"node_type":"group","zarr_format":3}},"must_understand":false},"node_type":"group","zarr_format":3}\n  /a G3\n
/ | must | zarr.json {"consolidated_metadata":{"kind":"inline","metadata":{"a":{"attributes":1,"node_type":"group","zarr_format":3}},"must_understand":false},"node_type":"group","zarr_format":3};a/zarr.json G3 => MissingMetadata: Metadata is missing for Consolidated metadata required but missing on group /

# a block stands for a store that has nothing below the group
/group | auto | group/zarr.json {"consolidated_metadata":{"kind":"inline","metadata":{"array":{"chunk_grid":{"configuration":{"chunk_shape":[10,10]},"name":"regular"},"chunk_key_encoding":{"configuration":{"separator":"/"},"name":"default"},"codecs":[{"configuration":{"endian":"little"},"name":"bytes"}],"data_type":"float32","fill_value":0,"node_type":"array","shape":[10,10],"zarr_format":3},"subgroup":{"node_type":"group","zarr_format":3},"subgroup/mysubarray":{"chunk_grid":{"configuration":{"chunk_shape":[10,10]},"name":"regular"},"chunk_key_encoding":{"configuration":{"separator":"/"},"name":"default"},"codecs":[{"configuration":{"endian":"little"},"name":"bytes"}],"data_type":"float32","fill_value":0,"node_type":"array","shape":[10,10],"zarr_format":3}},"must_understand":false},"node_type":"group","zarr_format":3} => /group {"consolidated_metadata":{"kind":"inline","metadata":{"array":A3_SQUARE,"subgroup":G3,"subgroup/mysubarray":A3_SQUARE},"must_understand":false},"node_type":"group","zarr_format":3}\n  /group/array A3_SQUARE\n  /group/subgroup G3\n    /group/subgroup/mysubarray A3_SQUARE\n
/group | must | group/zarr.json {"consolidated_metadata":{"kind":"inline","metadata":{"array":{"chunk_grid":{"configuration":{"chunk_shape":[10,10]},"name":"regular"},"chunk_key_encoding":{"configuration":{"separator":"/"},"name":"default"},"codecs":[{"configuration":{"endian":"little"},"name":"bytes"}],"data_type":"float32","fill_value":0,"node_type":"array","shape":[10,10],"zarr_format":3},"subgroup":{"node_type":"group","zarr_format":3},"subgroup/mysubarray":{"chunk_grid":{"configuration":{"chunk_shape":[10,10]},"name":"regular"},"chunk_key_encoding":{"configuration":{"separator":"/"},"name":"default"},"codecs":[{"configuration":{"endian":"little"},"name":"bytes"}],"data_type":"float32","fill_value":0,"node_type":"array","shape":[10,10],"zarr_format":3}},"must_understand":false},"node_type":"group","zarr_format":3} => /group {"consolidated_metadata":{"kind":"inline","metadata":{"array":A3_SQUARE,"subgroup":G3,"subgroup/mysubarray":A3_SQUARE},"must_understand":false},"node_type":"group","zarr_format":3}\n  /group/array A3_SQUARE\n  /group/subgroup G3\n    /group/subgroup/mysubarray A3_SQUARE\n
/group | never | group/zarr.json {"consolidated_metadata":{"kind":"inline","metadata":{"array":{"chunk_grid":{"configuration":{"chunk_shape":[10,10]},"name":"regular"},"chunk_key_encoding":{"configuration":{"separator":"/"},"name":"default"},"codecs":[{"configuration":{"endian":"little"},"name":"bytes"}],"data_type":"float32","fill_value":0,"node_type":"array","shape":[10,10],"zarr_format":3},"subgroup":{"node_type":"group","zarr_format":3},"subgroup/mysubarray":{"chunk_grid":{"configuration":{"chunk_shape":[10,10]},"name":"regular"},"chunk_key_encoding":{"configuration":{"separator":"/"},"name":"default"},"codecs":[{"configuration":{"endian":"little"},"name":"bytes"}],"data_type":"float32","fill_value":0,"node_type":"array","shape":[10,10],"zarr_format":3}},"must_understand":false},"node_type":"group","zarr_format":3} => /group {"consolidated_metadata":{"kind":"inline","metadata":{"array":A3_SQUARE,"subgroup":G3,"subgroup/mysubarray":A3_SQUARE},"must_understand":false},"node_type":"group","zarr_format":3}\n

# an entry of a block below an array, or below no entry, is not kept
/ | auto | zarr.json {"consolidated_metadata":{"kind":"inline","metadata":{"a":{"chunk_grid":{"configuration":{"chunk_shape":[1]},"name":"regular"},"chunk_key_encoding":{"configuration":{"separator":"/"},"name":"default"},"codecs":[{"configuration":{"endian":"little"},"name":"bytes"}],"data_type":"float32","fill_value":0,"node_type":"array","shape":[1],"zarr_format":3},"a/y":{"node_type":"group","zarr_format":3},"q/r":{"node_type":"group","zarr_format":3}},"must_understand":false},"node_type":"group","zarr_format":3} => / {"consolidated_metadata":{"kind":"inline","metadata":{"a":A3,"a/y":G3,"q/r":G3},"must_understand":false},"node_type":"group","zarr_format":3}\n  /a A3\n

# a number in a block that is no whole one refuses the document
/ | auto | zarr.json {"consolidated_metadata":{"kind":"inline","metadata":{"a":{"attributes":{"n":1.5},"node_type":"group","zarr_format":3}}},"node_type":"group","zarr_format":3} => StorageError(InvalidMetadata): error parsing metadata for zarr.json: unsupported number
/ | must | zarr.json {"consolidated_metadata":{"kind":"inline","metadata":{"a":{"attributes":{"n":1.5},"node_type":"group","zarr_format":3}}},"node_type":"group","zarr_format":3} => StorageError(InvalidMetadata): error parsing metadata for zarr.json: unsupported number
/ | never | zarr.json {"consolidated_metadata":{"kind":"inline","metadata":{"a":{"attributes":{"n":1.5},"node_type":"group","zarr_format":3}}},"node_type":"group","zarr_format":3} => StorageError(InvalidMetadata): error parsing metadata for zarr.json: unsupported number

# a group opens whatever additional fields it has
/ | auto | zarr.json {"node_type":"group","unknown":"unsupported","zarr_format":3} => / {"node_type":"group","unknown":"unsupported","zarr_format":3}\n
/ | auto | zarr.json {"consolidated_metadata":{"kind":"inline","metadata":{}},"node_type":"group","zarr_format":3};a/zarr.json G3 => / {"consolidated_metadata":{"kind":"inline","metadata":{}},"node_type":"group","zarr_format":3}\n
/ | auto | zarr.json {"consolidated_metadata":{"kind":"inline","metadata":{}},"node_type":"group","zarr_format":3} => / {"consolidated_metadata":{"kind":"inline","metadata":{}},"node_type":"group","zarr_format":3}\n
/ | must | zarr.json {"consolidated_metadata":{"kind":"inline","metadata":{}},"node_type":"group","zarr_format":3} => / {"consolidated_metadata":{"kind":"inline","metadata":{}},"node_type":"group","zarr_format":3}\n
"#;

#[test]
fn a_node_is_opened_or_refused(rt: HostRuntime) -> Result<(), Fail> {
    check_rows(rt.alloc(), OPENED, opened_said)
}

// The store with a group at `/group` that has a block of the nodes of a list, and with a group below it.
fn store_with_block(alloc: Global, nodes: &str) -> Result<MemoryStore, NodeCreateError> {
    let nodes = pairs_in(alloc, nodes)?;
    let group = with_block(alloc, nodes.as_slice())?;
    let list = format!(in alloc; "group/zarr.json {group};group/listed/zarr.json G3")?;
    Ok(store_in(alloc, list.as_str())?)
}

// The node at `/group` of such a store, by the policy of a row and with the block of its nodes.
fn opened_by_block(alloc: Global, given: &str) -> Result<Node, NodeCreateError> {
    let (policy, nodes) = fields(given);
    let config = config_of(policy_of(alloc, policy)?);
    let store = store_with_block(alloc, nodes)?;
    Node::open(&Discard, alloc, &store, "/group", &config)
}

fn opened_by_block_said(alloc: Global, given: &str) -> Result<String, AllocError> {
    said(alloc, opened_by_block(alloc, given), node_text)
}

// Policy and the nodes of a block; the node and what is below it, or the refusal.
const BY_BLOCK: &str = r#"
# a block stands in place of the store
auto | array A3_SQUARE;subgroup G3;subgroup/mysubarray A3_SQUARE => /group {"consolidated_metadata":{"kind":"inline","metadata":{"array":A3_SQUARE,"subgroup":G3,"subgroup/mysubarray":A3_SQUARE},"must_understand":false},"node_type":"group","zarr_format":3}\n  /group/array A3_SQUARE\n  /group/subgroup G3\n    /group/subgroup/mysubarray A3_SQUARE\n
auto | => /group {"consolidated_metadata":{"kind":"inline","metadata":{},"must_understand":false},"node_type":"group","zarr_format":3}\n
must | array A3_SQUARE;subgroup G3;subgroup/mysubarray A3_SQUARE => /group {"consolidated_metadata":{"kind":"inline","metadata":{"array":A3_SQUARE,"subgroup":G3,"subgroup/mysubarray":A3_SQUARE},"must_understand":false},"node_type":"group","zarr_format":3}\n  /group/array A3_SQUARE\n  /group/subgroup G3\n    /group/subgroup/mysubarray A3_SQUARE\n
must | => /group {"consolidated_metadata":{"kind":"inline","metadata":{},"must_understand":false},"node_type":"group","zarr_format":3}\n
never | array A3_SQUARE;subgroup G3;subgroup/mysubarray A3_SQUARE => /group {"consolidated_metadata":{"kind":"inline","metadata":{"array":A3_SQUARE,"subgroup":G3,"subgroup/mysubarray":A3_SQUARE},"must_understand":false},"node_type":"group","zarr_format":3}\n  /group/listed G3\n

# entries of a block without a parent are not kept
auto | a A3;a/y G3;q/r G3 => /group {"consolidated_metadata":{"kind":"inline","metadata":{"a":A3,"a/y":G3,"q/r":G3},"must_understand":false},"node_type":"group","zarr_format":3}\n  /group/a A3\n
auto | foo A3;sub/leaf G3; G3;/ G3 => /group {"consolidated_metadata":{"kind":"inline","metadata":{"":G3,"/":G3,"foo":A3,"sub/leaf":G3},"must_understand":false},"node_type":"group","zarr_format":3}\n  /group/foo A3\n
auto | -x A3;/-x A3_SQUARE => /group {"consolidated_metadata":{"kind":"inline","metadata":{"-x":A3,"/-x":A3_SQUARE},"must_understand":false},"node_type":"group","zarr_format":3}\n  /group/-x A3\n

# a key of a block that is no path is refused where the block is used
auto | foo/ G3 => NodePathError(Invalid): invalid node path invalid node name `` in 'foo/'
must | foo/ G3 => NodePathError(Invalid): invalid node path invalid node name `` in 'foo/'
auto | . G3 => NodePathError(Invalid): invalid node path invalid node name `.` in '.'
never | foo/ G3 => /group {"consolidated_metadata":{"kind":"inline","metadata":{"foo/":G3},"must_understand":false},"node_type":"group","zarr_format":3}\n  /group/listed G3\n
"#;

#[test]
fn a_block_is_used_by_policy(rt: HostRuntime) -> Result<(), Fail> {
    check_rows(rt.alloc(), BY_BLOCK, opened_by_block_said)
}

// The node at the root by the version of a row, in its store, and what is warned of.
fn warnings(alloc: Global, given: &str) -> Result<String, NodeCreateError> {
    let (version, documents) = fields(given);
    let version = version_of(alloc, version)?;
    let store = store_in(alloc, documents)?;
    let sink = Writer::new(Vec::new(alloc));
    let node = Node::open_opt(&sink, alloc, &store, "/", &version, &Config::new());
    let text = said(alloc, node, node_text)?;
    let written = sink.into_inner();
    let lines = String::from_utf8_lossy(alloc, &written)?;
    Ok(format!(in alloc; "{text}warned: {lines}")?)
}

// Version and store; the node and what is below it, and the log.
const WARNED: &str = r#"
v2 | .zgroup G2;a/zarr.json G3;b/.zarray A2 => / G2\n  /b A2\nwarned: [WARN  zarrs_node::children] Object at /a is not recognized as a component of a Zarr hierarchy. Ignoring.\n
"#;

#[test]
fn opening_by_a_version_warns_of_what_is_passed_over(rt: HostRuntime) -> Result<(), Fail> {
    check_rows(rt.alloc(), WARNED, warnings)
}

// Here no allocation is refused, and opening is whole. Under `bench/break/alloc`, which refuses each in turn, it is that or out of memory,
// and never without a block.
#[test]
fn an_opening_without_memory_says_so(rt: HostRuntime) -> Result<(), Fail> {
    check_rows(rt.alloc(), WHOLE, opened_by_block_said)
}

const WHOLE: &str = r#"
must | array A3_SQUARE;subgroup G3;subgroup/mysubarray A3_SQUARE => /group {"consolidated_metadata":{"kind":"inline","metadata":{"array":A3_SQUARE,"subgroup":G3,"subgroup/mysubarray":A3_SQUARE},"must_understand":false},"node_type":"group","zarr_format":3}\n  /group/array A3_SQUARE\n  /group/subgroup G3\n    /group/subgroup/mysubarray A3_SQUARE\n
"#;

//! The block of a node, made of all nodes below it.

use crate::given::{list_of, node_in, pairs_in, store_in};
use log::sink::Discard;
use std::alloc::{AllocError, Global};
use std::test::Fail;
use tests_fixtures::{ANY, entries_text, no_word, node_at};
use tests_support::{check_rows, fields, said};
use zarrs_block::ConsolidatedMetadataMetadata;
use zarrs_meaning::NodeCreateError;
use zarrs_node::{Node, consolidate_nodes_of, laws};
use zarrs_path::NodePath;

// The lines of a block, or `no block`.
fn lines_text(
    block: &Option<ConsolidatedMetadataMetadata>,
    alloc: Global,
) -> Result<String, AllocError> {
    match block {
        Some(block) => entries_text(block, alloc),
        None => String::from_str(alloc, "no block"),
    }
}

// The lines of the block of a node; or that a child does not stand below its parent.
fn block_text(node: &Node, alloc: Global) -> Result<String, AllocError> {
    if node.has_placed_children() {
        said(alloc, node.consolidate_metadata(alloc), lines_text)
    } else {
        String::from_str(alloc, "not placed")
    }
}

// The node at a path of a store.
fn stored(alloc: Global, path: &str, documents: &str) -> Result<Node, NodeCreateError> {
    let documents = pairs_in(alloc, list_of(documents))?;
    node_at(alloc, documents.as_slice(), path)
}

// The node of a row: one of a store, or one that is made of nodes.
fn node_given(alloc: Global, given: &str) -> Result<Node, NodeCreateError> {
    let (origin, rest) = fields(given);
    let (path, list) = fields(rest);
    match origin {
        "stored" => stored(alloc, path, list),
        "made" => node_in(alloc, rest),
        origin => Err(NodeCreateError::from(no_word(alloc, origin))),
    }
}

// The block of all that is listed below a path of a store.
fn listed(
    alloc: Global,
    given: &str,
) -> Result<Option<ConsolidatedMetadataMetadata>, NodeCreateError> {
    let (path, documents) = fields(given);
    let path = NodePath::new(alloc, path)?;
    let store = store_in(alloc, documents)?;
    let block = consolidate_nodes_of(&Discard, alloc, &store, &path, &ANY)?;
    Ok(Some(block))
}

fn block_said(alloc: Global, given: &str) -> Result<String, AllocError> {
    match fields(given) {
        ("listed", rest) => said(alloc, listed(alloc, rest), lines_text),
        _ => said(alloc, node_given(alloc, given), block_text),
    }
}

// Where a node is from, its path, and the store or the nodes below it; the keys of its block with their documents.
const BLOCKS: &str = r#"
# all below a group stand at their names beyond it
stored | /group | three levels => array A3_SQUARE\nsubgroup G3\nsubgroup/mysubarray A3_SQUARE\n
stored | / | three levels => array A3_SQUARE\ngroup G3\ngroup/array A3_SQUARE\ngroup/subgroup G3\ngroup/subgroup/mysubarray A3_SQUARE\n

listed | /group | three levels => array A3_SQUARE\nsubgroup G3\nsubgroup/mysubarray A3_SQUARE\n
listed | / | three levels => array A3_SQUARE\ngroup G3\ngroup/array A3_SQUARE\ngroup/subgroup G3\ngroup/subgroup/mysubarray A3_SQUARE\n

# a group without children has an empty block
stored | /g | g/.zgroup G2 =>

# an array has no block
stored | /a | a/.zarray A2 => no block

# of two nodes with one path the later counts
made | / G3;/a G3;/b G3;/a A3 => a A3\nb G3\n

# a stranger among the children is told
made | / G3;/a/b G3 => not placed
"#;

#[test]
fn a_block_has_all_below_its_node(rt: HostRuntime) -> Result<(), Fail> {
    check_rows(rt.alloc(), BLOCKS, block_said)
}

#[test]
fn the_laws_of_blocks_are_called() {
    laws::block_gives_back();
    laws::listing_gives_back();
}

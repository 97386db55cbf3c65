//! What tests write of nodes, pairs, listings and blocks: each path, and behind it the document of the metadata.

use crate::{A3_SQUARE, ListedPaths};
use std::alloc::{AllocError, Global};
use tests_support::{A3, G2, G3};
use zarrs_block::ConsolidatedMetadataMetadata;
use zarrs_meta::{NodeMetadata, WrittenDocument};
use zarrs_node::{ListedNodes, Node};
use zarrs_path::NodePath;

/// The array `A2` as it is written: with the separator that it has where it names none.
pub const A2_WRITTEN: &str =
    r#"{"chunks":[1],"compressor":null,"dimension_separator":".","dtype":"<f8","fill_value":"NaN","filters":null,"order":"C","shape":[1],"zarr_format":2}"#;

// Documents as they are written, each with its name.
const NAMED: [(&str, &str); 5] = [
    (G2, "G2"),
    (G3, "G3"),
    (A2_WRITTEN, "A2"),
    (A3, "A3"),
    (A3_SQUARE, "A3_SQUARE"),
];

/// The document of metadata, with the name of each document that has one in place of it, within a block too. A name stands where JSON
/// has no word, so that no two documents are written alike.
pub fn document_text(metadata: &NodeMetadata, alloc: Global) -> Result<String, AllocError> {
    let mut text = metadata.to_text(alloc)?;
    for (document, name) in NAMED {
        text = text.replace(alloc, document, name)?;
    }
    Ok(text)
}

// Appends the line of a node: two blanks for each level above it, its path and its document.
fn push_node(
    text: &mut String,
    alloc: Global,
    level: usize,
    node: &Node,
) -> Result<(), AllocError> {
    for _level in 0..level {
        text.push_str("  ")?;
    }
    let document = document_text(node.metadata(), alloc)?;
    write!(text, "{} {document}\n", node.path())
}

// Appends the lines of trees whose nodes stand at a level. What is left of each open list of siblings stands on a stack.
fn push_forest(
    text: &mut String,
    alloc: Global,
    level: usize,
    nodes: &[Node],
) -> Result<(), AllocError> {
    let mut pending = Vec::new(alloc);
    pending.push(nodes)?;
    for _turn in 0..u64::MAX {
        let Some(nodes) = pending.pop() else {
            return Ok(());
        };
        if let Some((node, after)) = nodes.split_first() {
            push_node(text, alloc, level.saturating_add(pending.len()), node)?;
            pending.push(after)?;
            pending.push(node.children())?;
        }
    }
    Ok(())
}

/// The trees of nodes as data: a line a node with its path and its document, behind two blanks for each level above it, parents before
/// children and siblings in their order.
pub fn forest_text(nodes: &Vec<Node>, alloc: Global) -> Result<String, AllocError> {
    let mut text = String::new(alloc);
    push_forest(&mut text, alloc, 0, nodes.as_slice())?;
    Ok(text)
}

/// A node and the trees below it, as `forest_text` writes them.
pub fn node_text(node: &Node, alloc: Global) -> Result<String, AllocError> {
    let mut text = String::new(alloc);
    push_node(&mut text, alloc, 0, node)?;
    push_forest(&mut text, alloc, 1, node.children())?;
    Ok(text)
}

/// The paths, one a line.
pub fn paths_text(paths: &Vec<NodePath>, alloc: Global) -> Result<String, AllocError> {
    let mut text = String::new(alloc);
    for path in paths {
        write!(text, "{path}\n")?;
    }
    Ok(text)
}

/// The paths of a listing, one a line, and a line for each path that was passed over.
pub fn paths_listing_text(listed: &ListedPaths, alloc: Global) -> Result<String, AllocError> {
    let mut text = String::new(alloc);
    for path in &listed.paths {
        write!(text, "{path}\n")?;
    }
    for path in &listed.ignored {
        write!(text, "ignored {path}\n")?;
    }
    Ok(text)
}

/// The trees of the nodes of a listing, and a line for each path that was passed over.
pub fn listing_text(listed: &ListedNodes, alloc: Global) -> Result<String, AllocError> {
    let mut text = forest_text(&listed.nodes, alloc)?;
    for path in &listed.ignored {
        write!(text, "ignored {path}\n")?;
    }
    Ok(text)
}

/// The paths of pairs and their documents, one a line.
pub fn pairs_text(
    pairs: &Vec<(NodePath, NodeMetadata)>,
    alloc: Global,
) -> Result<String, AllocError> {
    let mut text = String::new(alloc);
    for (path, metadata) in pairs {
        let document = document_text(metadata, alloc)?;
        write!(text, "{path} {document}\n")?;
    }
    Ok(text)
}

/// The keys of a block and their documents, one a line.
pub fn entries_text(
    block: &ConsolidatedMetadataMetadata,
    alloc: Global,
) -> Result<String, AllocError> {
    let mut text = String::new(alloc);
    for (key, metadata) in block.as_map().iter() {
        let document = document_text(metadata, alloc)?;
        write!(text, "{key} {document}\n")?;
    }
    Ok(text)
}

/// The keys of a block, one a line.
pub fn keys_text(
    block: &ConsolidatedMetadataMetadata,
    alloc: Global,
) -> Result<String, AllocError> {
    let mut text = String::new(alloc);
    for (key, _metadata) in block.as_map().iter() {
        write!(text, "{key}\n")?;
    }
    Ok(text)
}

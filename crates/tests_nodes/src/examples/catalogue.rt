//! A catalogue over a store as zarr-python 3 writes it.

use log::sink::Discard;
use std::alloc::{AllocError, Global};
use std::test::Fail;
use tests_fixtures::{config_of, document_of, key_of, keys_text, lists_text, store_of};
use tests_support::{A3, G3, check_rows, refusal, said};
use zarrs_config::{Config, MetadataRetrieveVersion, UseConsolidatedMetadata};
use zarrs_examples::{Catalogue, Change, UpdateError};
use zarrs_meaning::NodeCreateError;
use zarrs_meta::WrittenDocument;
use zarrs_node::Node;
use zarrs_path::NodePath;
use zarrs_store::{AnyNumbers, MemoryStore, ReadableStorageTraits, StorageError};

// The group, with the block of the nodes below it.
const WEATHER: &str =
    r#"{"zarr_format":3,"node_type":"group","attributes":{"title":"weather"},"consolidated_metadata":{"kind":"inline","must_understand":false,"metadata":{"temperature":{"zarr_format":3,"node_type":"array","shape":[4,6],"data_type":"float32","chunk_grid":{"name":"regular","configuration":{"chunk_shape":[4,6]}},"chunk_key_encoding":{"name":"default","configuration":{"separator":"/"}},"fill_value":0,"codecs":[{"name":"bytes","configuration":{"endian":"little"}},{"name":"zstd","configuration":{"level":0}}],"attributes":{"units":"K"},"storage_transformers":[],"dimension_names":["y",null]},"old":{"zarr_format":3,"node_type":"group","attributes":{},"consolidated_metadata":{"kind":"inline","must_understand":false,"metadata":{}}},"old/waves":{"zarr_format":3,"node_type":"array","shape":[1],"data_type":{"name":"numpy.datetime64","configuration":{"unit":"s","scale_factor":1}},"chunk_grid":{"name":"regular","configuration":{"chunk_shape":[1]}},"chunk_key_encoding":{"name":"default","configuration":{"separator":"/"}},"fill_value":0,"codecs":[{"name":"bytes","configuration":{"endian":"little"}},{"name":"zstd","configuration":{"level":0}}],"attributes":{},"storage_transformers":[]}}}}"#;

// An array of the group.
const TEMPERATURE: &str =
    r#"{"zarr_format":3,"node_type":"array","shape":[4,6],"data_type":"float32","chunk_grid":{"name":"regular","configuration":{"chunk_shape":[4,6]}},"chunk_key_encoding":{"name":"default","configuration":{"separator":"/"}},"fill_value":0,"codecs":[{"name":"bytes","configuration":{"endian":"little"}},{"name":"zstd","configuration":{"level":0}}],"attributes":{"units":"K"},"storage_transformers":[],"dimension_names":["y",null]}"#;

// A group below the group.
const OLD: &str = r#"{"zarr_format":3,"node_type":"group","attributes":{}}"#;

// An array below that.
const WAVES: &str =
    r#"{"zarr_format":3,"node_type":"array","shape":[1],"data_type":{"name":"numpy.datetime64","configuration":{"unit":"s","scale_factor":1}},"chunk_grid":{"name":"regular","configuration":{"chunk_shape":[1]}},"chunk_key_encoding":{"name":"default","configuration":{"separator":"/"}},"fill_value":0,"codecs":[{"name":"bytes","configuration":{"endian":"little"}},{"name":"zstd","configuration":{"level":0}}],"attributes":{},"storage_transformers":[]}"#;

const STORE: [(&str, &str); 4] = [
    ("zarr.json", WEATHER),
    ("temperature/zarr.json", TEMPERATURE),
    ("old/zarr.json", OLD),
    ("old/waves/zarr.json", WAVES),
];

// The store, and the catalogue of its root.
fn opened(alloc: Global) -> Result<(MemoryStore, Catalogue), NodeCreateError> {
    let store = store_of(alloc, &STORE)?;
    let catalogue = Catalogue::open(&Discard, alloc, &store, NodePath::root(alloc)?)?;
    Ok((store, catalogue))
}

// The document that a word names, or the text that begins as JSON does.
fn document<'a>(alloc: Global, word: &'a str) -> Result<&'a str, StorageError> {
    match word {
        "g3" => Ok(G3),
        "a3" => Ok(A3),
        "waves" => Ok(WAVES),
        word => document_of(alloc, word),
    }
}

// The changes of a list: a path, a blank and the document to which it is set each, with semicolons between them. That of a path alone is erased.
fn changes_in(alloc: Global, list: &str) -> Result<Vec<Change>, NodeCreateError> {
    let mut changes = Vec::new(alloc);
    for item in list.split(';') {
        if !item.is_empty() {
            changes.push(change_in(alloc, item)?)?;
        }
    }
    Ok(changes)
}

fn change_in(alloc: Global, item: &str) -> Result<Change, NodeCreateError> {
    let (path, document) = match item.split_once(' ') {
        Some((path, word)) => (path, Some(document(alloc, word)?.as_bytes().to_vec(alloc)?)),
        None => (item, None),
    };
    let path = NodePath::new(alloc, path)?;
    Ok(Change { path, document })
}

// What a node at the root of the store has below it by a policy: a line for each node, with its document.
fn shown(
    alloc: Global,
    store: &MemoryStore,
    policy: UseConsolidatedMetadata,
) -> Result<String, NodeCreateError> {
    let config = config_of(policy);
    let version = MetadataRetrieveVersion::V3;
    let node = Node::open_opt(&Discard, alloc, store, "/", &version, &config)?;
    let mut text = String::new(alloc);
    push_lines(&mut text, alloc, &node)?;
    Ok(text)
}

fn push_lines(text: &mut String, alloc: Global, node: &Node) -> Result<(), AllocError> {
    if !node.has_placed_children() {
        return write!(text, "not placed\n");
    }
    let Some(block) = node.consolidate_metadata(alloc)? else {
        return write!(text, "an array\n");
    };
    for (key, metadata) in block.as_map().iter() {
        let metadata = metadata.to_text(alloc)?;
        write!(text, "{key} {metadata}\n")?;
    }
    Ok(())
}

// The keys of the nodes that the stored group shows by its block, where a listing shows the same nodes.
fn shown_by_both(alloc: Global, store: &MemoryStore) -> Result<String, NodeCreateError> {
    let by_block = shown(alloc, store, UseConsolidatedMetadata::Must)?;
    let listed = shown(alloc, store, UseConsolidatedMetadata::Never)?;
    if by_block.as_str() != listed.as_str() {
        return Ok(format!(in alloc; "by the block {by_block}, and listed {listed}")?);
    }
    let mut keys = String::new(alloc);
    for line in by_block.lines() {
        let (key, _document) = line.split_once(' ').unwrap_or((line, ""));
        write!(keys, "{key}\n")?;
    }
    Ok(keys)
}

fn own_text(text: &String, alloc: Global) -> Result<String, AllocError> {
    String::from_str(alloc, text.as_str())
}

// Brings a catalogue up to date: what the group shows then, or the refusal and the keys of the block.
fn changed_text(
    alloc: Global,
    store: &mut MemoryStore,
    catalogue: &mut Catalogue,
    changes: &[Change],
) -> Result<String, AllocError> {
    match catalogue.update(alloc, store, changes, &Config::new()) {
        Ok(()) => said(alloc, shown_by_both(alloc, store), own_text),
        Err(UpdateError::Step(refused)) => {
            let cause = refusal(alloc, &refused.cause)?;
            let keys = keys_text(&catalogue.block, alloc)?;
            format!(in alloc; "{refused}\n{} {cause}\n{keys}", refused.step)
        }
        Err(refused) => refusal(alloc, &refused),
    }
}

fn changed(alloc: Global, given: &str) -> Result<String, NodeCreateError> {
    let (mut store, mut catalogue) = opened(alloc)?;
    let changes = changes_in(alloc, given)?;
    Ok(changed_text(alloc, &mut store, &mut catalogue, changes.as_slice())?)
}

fn changed_said(alloc: Global, given: &str) -> Result<String, AllocError> {
    said(alloc, changed(alloc, given), own_text)
}

// Changes of the store; the keys of what the group shows by its block, which is what a listing shows.
const STORED: &str = r#"
# a document is set, and erased
 => old\nold/waves\ntemperature\n
/old/waves;/temperature a3 => old\ntemperature\n
/temperature;/old/tides waves => old\nold/tides\nold/waves\n

# an array below a new group, and before the group is there
/new g3;/new/array a3 => new\nnew/array\nold\nold/waves\ntemperature\n
/new/array a3;/new g3 => new\nnew/array\nold\nold/waves\ntemperature\n

# a group is erased, which hides what is below it, and set again
/old => temperature\n
/old;/old g3 => old\nold/waves\ntemperature\n
"#;

#[test]
fn the_stored_group_shows_by_its_block_what_a_listing_shows(rt: HostRuntime) -> Result<(), Fail> {
    check_rows(rt.alloc(), STORED, changed_said)
}

// Changes of which one is refused; the refusal, which change it is of and why, and the keys of the block, which is that of the changes before.
const REFUSED: &str = r#"
/old/waves;/new g3;/new/array {};/more g3 => change 2: error parsing metadata for new/array/zarr.json: wrong zarr_format\n2 Refresh(StorageError(InvalidMetadata)): error parsing metadata for new/array/zarr.json: wrong zarr_format\nnew\nold\ntemperature\n
/new g3;/ g3;/more g3 => change 1: the path is not below that of the group\n1 NotBelow: the path is not below that of the group\nnew\nold\nold/waves\ntemperature\n
/old [ => change 0: error parsing metadata for old/zarr.json: not JSON\n0 Refresh(StorageError(InvalidMetadata)): error parsing metadata for old/zarr.json: not JSON\nold\nold/waves\ntemperature\n
"#;

#[test]
fn a_refused_change_is_named_and_leaves_the_block(rt: HostRuntime) -> Result<(), Fail> {
    check_rows(rt.alloc(), REFUSED, changed_said)
}

// Makes each change alone, goes on after a refused one, and stores the group: the refusals, and what the group shows.
fn went_on_text(
    alloc: Global,
    store: &mut MemoryStore,
    catalogue: &mut Catalogue,
    changes: &[Change],
) -> Result<String, AllocError> {
    let mut text = String::new(alloc);
    for change in changes {
        if let Err(refused) = catalogue.apply(alloc, store, change) {
            let refused = refusal(alloc, &refused)?;
            write!(text, "{refused}\n")?;
        }
    }
    let shown = match catalogue.store(alloc, store, &Config::new()) {
        Ok(()) => said(alloc, shown_by_both(alloc, store), own_text)?,
        Err(refused) => refusal(alloc, &refused)?,
    };
    write!(text, "{shown}")?;
    Ok(text)
}

fn went_on(alloc: Global, given: &str) -> Result<String, NodeCreateError> {
    let (mut store, mut catalogue) = opened(alloc)?;
    let changes = changes_in(alloc, given)?;
    Ok(went_on_text(alloc, &mut store, &mut catalogue, changes.as_slice())?)
}

fn went_on_said(alloc: Global, given: &str) -> Result<String, AllocError> {
    said(alloc, went_on(alloc, given), own_text)
}

// Changes of which one is refused, and another that mends it; the refusal, and the keys of what the group shows.
const MENDED: &str = r#"
/old [;/old g3 => Refresh(StorageError(InvalidMetadata)): error parsing metadata for old/zarr.json: not JSON\nold\nold/waves\ntemperature\n
/new/array [;/new g3;/new/array a3;/new g3 => Refresh(StorageError(InvalidMetadata)): error parsing metadata for new/array/zarr.json: not JSON\nnew\nnew/array\nold\nold/waves\ntemperature\n
"#;

#[test]
fn a_catalogue_goes_on_after_a_refused_change(rt: HostRuntime) -> Result<(), Fail> {
    check_rows(rt.alloc(), MENDED, went_on_said)
}

// The same changes as one list, and the group stored by a call of its own.
fn apart_text(
    alloc: Global,
    store: &mut MemoryStore,
    catalogue: &mut Catalogue,
    changes: &[Change],
) -> Result<String, AllocError> {
    if let Err(refused) = catalogue.apply_all(alloc, store, changes) {
        return refusal(alloc, &refused);
    }
    went_on_text(alloc, store, catalogue, &[])
}

fn apart(alloc: Global, given: &str) -> Result<String, NodeCreateError> {
    let (mut store, mut catalogue) = opened(alloc)?;
    let changes = changes_in(alloc, given)?;
    Ok(apart_text(alloc, &mut store, &mut catalogue, changes.as_slice())?)
}

fn apart_said(alloc: Global, given: &str) -> Result<String, AllocError> {
    said(alloc, apart(alloc, given), own_text)
}

#[test]
fn the_group_may_be_stored_by_a_call_of_its_own(rt: HostRuntime) -> Result<(), Fail> {
    check_rows(rt.alloc(), STORED, apart_said)
}

// A group with an attribute of so many lists in each other is set and stored.
fn deep_said(alloc: Global, levels: &str) -> Result<String, AllocError> {
    let Ok(levels) = levels.parse::<usize>() else {
        return String::from_str(alloc, "no number");
    };
    let lists = lists_text(alloc, levels)?;
    let item = format!(in alloc;
        "/deep {{\"zarr_format\":3,\"node_type\":\"group\",\"attributes\":{{\"k\":{lists}}}}}"
    )?;
    changed_said(alloc, item.as_str())
}

// The levels of an attribute; what is stored, or the refusal: in the block each document nests three levels deeper.
const DEEP: &str = r#"
122 => deep\nold\nold/waves\ntemperature\n
123 => Storing(TooDeep): the document of the group would nest too deep
"#;

#[test]
fn a_group_that_would_nest_too_deep_is_not_stored(rt: HostRuntime) -> Result<(), Fail> {
    check_rows(rt.alloc(), DEEP, deep_said)
}

// A group with a fraction.
const SCALED: &str = r#"{"attributes":{"scale":0.5},"node_type":"group","zarr_format":3}"#;

// The document of the root of a store.
fn root_text(alloc: Global, store: &MemoryStore) -> Result<String, StorageError> {
    let bytes = store.get(alloc, &key_of(alloc, "zarr.json")?)?;
    let bytes = bytes.unwrap_or(Vec::new(alloc));
    Ok(String::from_utf8_lossy(alloc, bytes.as_slice())?)
}

// What is stored of a catalogue, in any numbers or in the whole ones of the store within; or the refusal.
fn stored_text(
    alloc: Global,
    store: &mut AnyNumbers<MemoryStore>,
    catalogue: &Catalogue,
    numbers: &str,
) -> Result<String, StorageError> {
    let answer = match numbers {
        "any" => catalogue.store(alloc, store, &Config::new()),
        _ => catalogue.store(alloc, &mut store.inner, &Config::new()),
    };
    match &answer {
        Ok(()) => root_text(alloc, &store.inner),
        Err(refused) => Ok(refusal(alloc, refused)?),
    }
}

// The document of a group with fractions once it was stored with its block in the numbers of a row; or the refusal.
fn scaled(alloc: Global, numbers: &str) -> Result<String, NodeCreateError> {
    let mut store = AnyNumbers {
        inner: store_of(alloc, &[("zarr.json", SCALED), ("a/zarr.json", SCALED)])?,
    };
    let catalogue = Catalogue::open(&Discard, alloc, &store, NodePath::root(alloc)?)?;
    Ok(stored_text(alloc, &mut store, &catalogue, numbers)?)
}

fn scaled_said(alloc: Global, numbers: &str) -> Result<String, AllocError> {
    said(alloc, scaled(alloc, numbers), own_text)
}

// The numbers of a store, and the document of the group.
const SCALES: &str = r#"
any => {\n  "attributes": {\n    "scale": 0.5\n  },\n  "consolidated_metadata": {\n    "kind": "inline",\n    "metadata": {\n      "a": {\n        "attributes": {\n          "scale": 0.5\n        },\n        "node_type": "group",\n        "zarr_format": 3\n      }\n    },\n    "must_understand": false\n  },\n  "node_type": "group",\n  "zarr_format": 3\n}
whole => Group(StorageError(InvalidMetadata)): error parsing metadata for zarr.json: unsupported number
"#;

#[test]
fn a_catalogue_is_stored_in_the_numbers_of_its_store(rt: HostRuntime) -> Result<(), Fail> {
    check_rows(rt.alloc(), SCALES, scaled_said)
}

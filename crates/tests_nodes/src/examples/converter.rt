//! The converter over a store as zarr-python 2 writes it.

use log::sink::Discard;
use std::alloc::{AllocError, Global};
use std::test::Fail;
use tests_fixtures::{config_of, key_of, lists_text, no_word, node_text, store_of, version_of};
use tests_support::{A3, G3, check_rows, fields, refusal, said};
use zarrs_config::UseConsolidatedMetadata;
use zarrs_examples::{ConvertError, convert_hierarchy, erase_version_2, laws};
use zarrs_meaning::NodeCreateError;
use zarrs_meta::{Document, NodeMetadata};
use zarrs_node::Node;
use zarrs_path::NodePath;
use zarrs_store::{
    AnyNumbers, ListableStorageTraits, MemoryStore, MetadataFault, ReadableStorageTraits,
    WritableStorageTraits,
};

// A group as zarr-python 2 writes it.
const GROUP: &str = r#"{
    "zarr_format": 2
}"#;

// Attributes as zarr-python 2 writes them.
const ATTRIBUTES: &str = r#"{
    "source": "buoy"
}"#;

// An array of whole numbers as zarr-python 2 writes it without a compressor.
const COUNTS: &str = r#"{
    "chunks": [
        10,
        20
    ],
    "compressor": null,
    "dtype": "<i4",
    "fill_value": 0,
    "filters": null,
    "order": "C",
    "shape": [
        100,
        200
    ],
    "zarr_format": 2
}"#;

// An array of floats as zarr-python 2 writes it without a compressor, in the order of Fortran.
const HEIGHTS: &str = r#"{
    "chunks": [
        24
    ],
    "compressor": null,
    "dtype": ">f8",
    "fill_value": "NaN",
    "filters": null,
    "order": "F",
    "shape": [
        8760
    ],
    "zarr_format": 2
}"#;

// An array as zarr-python 2 writes it with its own compressor, of which the tables have no form of version 3.
const PACKED: &str = r#"{
    "chunks": [
        24
    ],
    "compressor": {
        "blocksize": 0,
        "clevel": 5,
        "cname": "lz4",
        "id": "blosc",
        "shuffle": 1
    },
    "dtype": "<i4",
    "fill_value": 0,
    "filters": null,
    "order": "C",
    "shape": [
        8760
    ],
    "zarr_format": 2
}"#;

// An array with a fraction as its fill value, as zarr-python 2 writes it.
const HALVES: &str = r#"{
    "chunks": [
        24
    ],
    "compressor": null,
    "dtype": "<f8",
    "fill_value": 0.5,
    "filters": null,
    "order": "C",
    "shape": [
        8760
    ],
    "zarr_format": 2
}"#;

// Attributes with a fraction, and a group of version 3 with such.
const SCALE: &str = r#"{"scale_factor":0.01}"#;

const SCALED: &str = r#"{"attributes":{"scale_factor":0.01},"node_type":"group","zarr_format":3}"#;

// A hierarchy as zarr-python 2 writes it: a root with attributes, an array, and a group with an array.
const HIERARCHY: [(&str, &str); 7] = [
    (".zgroup", GROUP),
    (".zattrs", ATTRIBUTES),
    ("counts/.zarray", COUNTS),
    ("counts/.zattrs", ATTRIBUTES),
    ("counts/0.0", "chunk"),
    ("waves/.zgroup", GROUP),
    ("waves/heights/.zarray", HEIGHTS),
];

// Does a step to a store: converts or erases from the root or from `/waves` on, or puts documents there.
fn step(alloc: Global, store: &mut MemoryStore, word: &str) -> Result<(), ConvertError> {
    match word {
        "written" => Ok(()),
        "convert" => converted_from(alloc, store, "/"),
        "convert-waves" => converted_from(alloc, store, "/waves"),
        "erase" => erased_from(alloc, store, "/"),
        "erase-waves" => erased_from(alloc, store, "/waves"),
        "new" => put(alloc, store, "new/zarr.json", G3),
        "new-counts" => put(alloc, store, "new/counts/zarr.json", A3),
        "packed" => put(alloc, store, "waves/packed/.zarray", PACKED),
        "deep" => put(alloc, store, "waves/.zattrs", deep(alloc)?.as_str()),
        "halves" => put(alloc, store, "waves/halves/.zarray", HALVES),
        "scale" => put(alloc, store, "waves/.zattrs", SCALE),
        "scale-root" => put(alloc, store, ".zattrs", SCALE),
        "new-scaled" => put(alloc, store, "new/zarr.json", SCALED),
        "bad" => put(alloc, store, "waves/.zattrs", "[]"),
        "bad-root" => put(alloc, store, ".zattrs", "[]"),
        word => Err(ConvertError::Storage(no_word(alloc, word))),
    }
}

// Converts a store from a path on.
fn converted_from<S>(alloc: Global, store: &mut S, path: &str) -> Result<(), ConvertError>
where
    S: ReadableStorageTraits + ListableStorageTraits + WritableStorageTraits,
{
    let base = path_of(alloc, path)?;
    convert_hierarchy(&Discard, alloc, store, &base)
}

// Erases the documents of version 2 from a path on.
fn erased_from(alloc: Global, store: &mut MemoryStore, path: &str) -> Result<(), ConvertError> {
    let base = path_of(alloc, path)?;
    erase_version_2(&Discard, alloc, store, &base)
}

fn path_of(alloc: Global, path: &str) -> Result<NodePath, NodeCreateError> {
    Ok(NodePath::new(alloc, path)?)
}

// Sets a document.
fn put(
    alloc: Global,
    store: &mut MemoryStore,
    key: &str,
    document: &str,
) -> Result<(), ConvertError> {
    let key = key_of(alloc, key)?;
    Ok(store.set(&key, document.as_bytes())?)
}

// Attributes that nest as deep as a document that is read.
fn deep(alloc: Global) -> Result<String, AllocError> {
    let lists = lists_text(alloc, 126)?;
    format!(in alloc; "{{\"k\":{lists}}}")
}

// The hierarchy after the steps that some words name.
fn after(alloc: Global, words: &str) -> Result<MemoryStore, ConvertError> {
    let mut store = store_of(alloc, &HIERARCHY)?;
    for word in words.split_whitespace() {
        step(alloc, &mut store, word)?;
    }
    Ok(store)
}

// What a listing by a version finds after some steps, from a path on: the root where none is given.
fn listed(alloc: Global, given: &str) -> Result<Node, ConvertError> {
    let (words, rest) = fields(given);
    let (version, path) = fields(rest);
    let store = after(alloc, words)?;
    let version = version_of(alloc, version)?;
    let path = if path.is_empty() { "/" } else { path };
    let config = config_of(UseConsolidatedMetadata::Never);
    let node = Node::open_opt(&Discard, alloc, &store, path, &version, &config)?;
    Ok(node)
}

fn listed_said(alloc: Global, given: &str) -> Result<String, AllocError> {
    said(alloc, listed(alloc, given), Node::hierarchy_tree)
}

// Steps, a version and a path; what a listing finds then.
const LISTED: &str = r#"
written | v2 => /\n  counts [100, 200] Simple("<i4")\n  waves\n    heights [8760] Simple(">f8")\n
written | v3 => Node(MissingMetadata): Metadata is missing for /
# The same paths and shapes stand under version 3, and under the default version.
convert | v3 => /\n  counts [100, 200] int32\n  waves\n    heights [8760] float64\n
convert | any => /\n  counts [100, 200] int32\n  waves\n    heights [8760] float64\n
# The old documents are as they were, until they are erased.
convert | v2 => /\n  counts [100, 200] Simple("<i4")\n  waves\n    heights [8760] Simple(">f8")\n
convert erase | v2 => Node(MissingMetadata): Metadata is missing for /
convert erase | any => /\n  counts [100, 200] int32\n  waves\n    heights [8760] float64\n
convert erase | v3 => /\n  counts [100, 200] int32\n  waves\n    heights [8760] float64\n
# What is converted stays as it is.
convert convert | v3 => /\n  counts [100, 200] int32\n  waves\n    heights [8760] float64\n
convert erase convert erase | any => /\n  counts [100, 200] int32\n  waves\n    heights [8760] float64\n
# A hierarchy of version 2 converts from its own path on, beside one of version 3 in the same store; the rest stays.
new new-counts | v2 | /waves => /\n  heights [8760] Simple(">f8")\n
new new-counts convert-waves | v2 | /waves => /\n  heights [8760] Simple(">f8")\n
new new-counts convert-waves | v3 | /waves => /\n  heights [8760] float64\n
new new-counts convert-waves | v3 | /new => /\n  counts [1] float32\n
new new-counts convert-waves | v3 => Node(MissingMetadata): Metadata is missing for /
new new-counts convert-waves | v2 => /\n  counts [100, 200] Simple("<i4")\n  waves\n    heights [8760] Simple(">f8")\n
new new-counts convert-waves | any => /\n  counts [100, 200] Simple("<i4")\n  new\n    counts [1] float32\n  waves\n    heights [8760] float64\n
new new-counts convert-waves erase-waves | v2 | /waves => Node(MissingMetadata): Metadata is missing for /waves
new new-counts convert-waves erase-waves | any | /waves => /\n  heights [8760] float64\n
# What does not convert is not erased either.
packed convert | any => Array: /waves/packed has no form of version 3: unsupported codec blosc
erase | any => Node(MissingMetadata): Metadata is missing for /
"#;

#[test]
fn a_listing_shows_the_same_once_it_is_converted(rt: HostRuntime) -> Result<(), Fail> {
    check_rows(rt.alloc(), LISTED, listed_said)
}

fn listed_whole(alloc: Global, given: &str) -> Result<String, AllocError> {
    said(alloc, listed(alloc, given), node_text)
}

// Steps, a version and a path; what a listing finds then, by paths and documents.
const CONVERTED: &str = r#"
convert | v3 => / {"attributes":{"source":"buoy"},"node_type":"group","zarr_format":3}\n  /counts {"attributes":{"source":"buoy"},"chunk_grid":{"configuration":{"chunk_shape":[10,20]},"name":"regular"},"chunk_key_encoding":{"configuration":{"separator":"."},"name":"v2"},"codecs":[{"configuration":{"endian":"little"},"name":"bytes"}],"data_type":"int32","fill_value":0,"node_type":"array","shape":[100,200],"zarr_format":3}\n  /waves G3\n    /waves/heights {"chunk_grid":{"configuration":{"chunk_shape":[24]},"name":"regular"},"chunk_key_encoding":{"configuration":{"separator":"."},"name":"v2"},"codecs":[{"configuration":{"order":[0]},"name":"transpose"},{"configuration":{"endian":"big"},"name":"bytes"}],"data_type":"float64","fill_value":"NaN","node_type":"array","shape":[8760],"zarr_format":3}\n
new new-counts convert-waves | v3 | /new => /new G3\n  /new/counts A3\n
"#;

#[test]
fn each_node_is_converted_with_all_that_it_has(rt: HostRuntime) -> Result<(), Fail> {
    check_rows(rt.alloc(), CONVERTED, listed_whole)
}

// The keys of a store, each with its document.
fn contents(store: &MemoryStore, alloc: Global) -> Result<String, ConvertError> {
    let mut text = String::new(alloc);
    for key in store.list(alloc)? {
        let document = store.get(alloc, &key)?.unwrap_or(Vec::new(alloc));
        let document = String::from_utf8_lossy(alloc, &document)?;
        write!(text, "{} {document}\n", key.as_str())?;
    }
    Ok(text)
}

// The error of a converting after some steps, and whether anything was written.
fn refused(alloc: Global, words: &str) -> Result<String, ConvertError> {
    let mut store = after(alloc, words)?;
    let before = contents(&store, alloc)?;
    let answer = answer_text(&step(alloc, &mut store, "convert"), alloc)?;
    let written = written_text(alloc, &store, before.as_str())?;
    Ok(format!(in alloc; "{answer}, {written}")?)
}

// The same over a store of any numbers.
fn refused_any(alloc: Global, words: &str) -> Result<String, ConvertError> {
    let mut store = AnyNumbers {
        inner: after(alloc, words)?,
    };
    let before = contents(&store.inner, alloc)?;
    let answer = answer_text(&converted_from(alloc, &mut store, "/"), alloc)?;
    let written = written_text(alloc, &store.inner, before.as_str())?;
    Ok(format!(in alloc; "{answer}, {written}")?)
}

// The answer of a converting.
fn answer_text(answer: &Result<(), ConvertError>, alloc: Global) -> Result<String, AllocError> {
    match answer {
        Ok(()) => String::from_str(alloc, "converted"),
        Err(ConvertError::Array(path, error)) => {
            let error = refusal(alloc, error)?;
            format!(in alloc; "Array {path} {error}")
        }
        Err(error) => refusal(alloc, error),
    }
}

// Whether a store has something else than it had before.
fn written_text(
    alloc: Global,
    store: &MemoryStore,
    before: &str,
) -> Result<&'static str, ConvertError> {
    if contents(store, alloc)?.as_str() == before {
        Ok("nothing is written")
    } else {
        Ok("something is written")
    }
}

fn text(text: &String, alloc: Global) -> Result<String, AllocError> {
    String::from_str(alloc, text.as_str())
}

fn refused_said(alloc: Global, words: &str) -> Result<String, AllocError> {
    said(alloc, refused(alloc, words), text)
}

fn refused_any_said(alloc: Global, words: &str) -> Result<String, AllocError> {
    said(alloc, refused_any(alloc, words), text)
}

// Steps; what a converting says then, and whether it wrote anything.
const REFUSED: &str = r#"
written => converted, something is written
convert => converted, nothing is written
packed => Array /waves/packed UnsupportedCodec: unsupported codec blosc, nothing is written
deep => Depth: /waves nests too deep for a document of version 3, nothing is written
bad => Node(StorageError(InvalidMetadata)): error parsing metadata for waves/.zattrs: not an object, nothing is written
bad-root => Node(StorageError(InvalidMetadata)): error parsing metadata for .zattrs: not an object, nothing is written
# a fraction is refused as the document that has it
scale => Node(StorageError(InvalidMetadata)): error parsing metadata for waves/.zattrs: unsupported number, nothing is written
halves => Node(StorageError(InvalidMetadata)): error parsing metadata for waves/halves/.zarray: unsupported number, nothing is written
"#;

// Steps; what a converting over a store of any numbers says then, and whether it wrote anything.
const REFUSED_ANY: &str = r#"
# whole numbers are written, and a node of version 3 stays with its fraction
written => converted, something is written
new-scaled => converted, something is written
convert new-scaled => converted, nothing is written
# a fraction is not written: in attributes, in a fill value, in the attributes of the root
scale => Fraction: /waves has an unsupported number, one with a fraction, nothing is written
halves => Fraction: /waves/halves has an unsupported number, one with a fraction, nothing is written
scale-root => Fraction: / has an unsupported number, one with a fraction, nothing is written
# the first in the order of paths is named
halves scale => Fraction: /waves has an unsupported number, one with a fraction, nothing is written
# depth and form are refused as they are over whole numbers
deep => Depth: /waves nests too deep for a document of version 3, nothing is written
packed => Array /waves/packed UnsupportedCodec: unsupported codec blosc, nothing is written
"#;

#[test]
fn what_does_not_convert_is_named_and_nothing_is_written(rt: HostRuntime) -> Result<(), Fail> {
    check_rows(rt.alloc(), REFUSED, refused_said)
}

#[test]
fn what_has_a_fraction_is_not_converted_and_is_named(rt: HostRuntime) -> Result<(), Fail> {
    check_rows(rt.alloc(), REFUSED_ANY, refused_any_said)
}

// ---- the documents that are written

// The document that is written of the node that a text is.
fn document(alloc: Global, text: &str) -> Result<Vec<u8>, MetadataFault> {
    let node = NodeMetadata::from_bytes(alloc, text.as_bytes())?;
    Ok(node.to_document(alloc)?.unwrap_or(Vec::new(alloc)))
}

fn lossy(bytes: &Vec<u8>, alloc: Global) -> Result<String, AllocError> {
    String::from_utf8_lossy(alloc, bytes)
}

fn document_said(alloc: Global, text: &str) -> Result<String, AllocError> {
    said(alloc, document(alloc, text), lossy)
}

// The text of a node, and the document that is written of it.
const DOCUMENTS: &str = r#"
{"zarr_format":3,"node_type":"group"} => {\n  "node_type": "group",\n  "zarr_format": 3\n}
{"zarr_format":2,"attributes":{"k":[1]}} => {\n  "attributes": {\n    "k": [\n      1\n    ]\n  },\n  "zarr_format": 2\n}
"#;

#[test]
fn a_document_is_written_in_the_pretty_layout(rt: HostRuntime) -> Result<(), Fail> {
    check_rows(rt.alloc(), DOCUMENTS, document_said)
}

// ---- laws

#[test]
fn the_laws_that_the_converter_stands_on_are_called(_rt: HostRuntime) {
    laws::base_in_front();
    laws::earlier_stands_before();
    laws::mapped_is_shown();
    laws::documents_are_shown();
    laws::default_is_version_2();
    laws::keys_stand_beside();
    laws::others_are_kept();
    laws::erased_are_absent();
    laws::beside_means_same();
    laws::erased_show_same();
    laws::whole_shows_the_same();
}

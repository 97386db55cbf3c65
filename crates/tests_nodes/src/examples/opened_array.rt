//! Arrays opened in stores as zarr-python writes them, of both versions, and their chunks.

use std::alloc::{AllocError, Global};
use std::test::Fail;
use tests_fixtures::{ANY, key_of, no_word, store_of, version_of};
use tests_support::{check_rows, fields, printed, refusal, said};
use zarrs_examples::{ChunkKeyEncoding, OpenedArray};
use zarrs_store::{MemoryStore, StorageError, WritableStorageTraits, laws};

// The documents of zarr-python 2.13: a group, in it an array of three rows and five columns, and times.
const OF_VERSION_2: [(&str, &str); 4] = [
    (
        ".zgroup",
        r#"{
    "zarr_format": 2
}"#,
    ),
    (
        "t/.zarray",
        r#"{
    "chunks": [
        2,
        3
    ],
    "compressor": null,
    "dtype": "<i2",
    "fill_value": -1,
    "filters": null,
    "order": "C",
    "shape": [
        3,
        5
    ],
    "zarr_format": 2
}"#,
    ),
    (
        "t/.zattrs",
        r#"{
    "units": "K"
}"#,
    ),
    (
        "time/.zarray",
        r#"{
    "chunks": [
        3
    ],
    "compressor": null,
    "dimension_separator": "/",
    "dtype": "<M8[ns]",
    "fill_value": 0,
    "filters": null,
    "order": "C",
    "shape": [
        3
    ],
    "zarr_format": 2
}"#,
    ),
];

// The documents of zarr-python 3: the same group and the same array.
const OF_VERSION_3: [(&str, &str); 2] = [
    (
        "zarr.json",
        r#"{
  "attributes": {},
  "zarr_format": 3,
  "node_type": "group"
}"#,
    ),
    (
        "t/zarr.json",
        r#"{
  "shape": [
    3,
    5
  ],
  "data_type": "int16",
  "chunk_grid": {
    "name": "regular",
    "configuration": {
      "chunk_shape": [
        2,
        3
      ]
    }
  },
  "chunk_key_encoding": {
    "name": "default",
    "configuration": {
      "separator": "/"
    }
  },
  "fill_value": -1,
  "codecs": [
    {
      "name": "bytes",
      "configuration": {
        "endian": "little"
      }
    }
  ],
  "attributes": {
    "units": "K"
  },
  "zarr_format": 3,
  "node_type": "array",
  "storage_transformers": []
}"#,
    ),
];

// The first chunk of the array, whose items are the numbers from 0, in two bytes each: 0, 1, 2 and 5, 6, 7.
const CHUNK: [u8; 12] = [0, 0, 1, 0, 2, 0, 5, 0, 6, 0, 7, 0];

// The store that a word names, in which the array has its first chunk alone.
fn store_named(alloc: Global, word: &str) -> Result<MemoryStore, StorageError> {
    let (documents, chunk): (&[(&str, &str)], &str) = match word {
        "2.13" => (&OF_VERSION_2, "t/0.0"),
        "3" => (&OF_VERSION_3, "t/c/0/0"),
        word => return Err(no_word(alloc, word)),
    };
    let mut store = store_of(alloc, documents)?;
    store.set(&key_of(alloc, chunk)?, &CHUNK)?;
    Ok(store)
}

// The path, the shape and the data type of an array.
fn array_text(array: &OpenedArray, alloc: Global) -> Result<String, AllocError> {
    let path = &array.path;
    let shape = array.shape();
    match array.data_type(alloc) {
        Ok(data_type) => {
            let name = data_type.name.as_str();
            format!(in alloc; "{path} {shape:?} {name}")
        }
        Err(error) => {
            let error = refusal(alloc, &error)?;
            format!(in alloc; "{path} {shape:?} {error}")
        }
    }
}

// What the array of a row shows.
fn opened_said(alloc: Global, given: &str) -> Result<String, StorageError> {
    let (store, rest) = fields(given);
    let (version, path) = fields(rest);
    let store = store_named(alloc, store)?;
    let version = version_of(alloc, version)?;
    let array = OpenedArray::open(alloc, &store, path, &version);
    Ok(said(alloc, array, array_text)?)
}

// Store, version and path; the path, the shape and the data type.
const OPENED: &str = r#"
2.13 | any | /t => /t [3, 5] int16
2.13 | v2 | /t => /t [3, 5] int16
2.13 | v3 | /t => Node(MissingMetadata): Metadata is missing for /t
2.13 | any | /time => /time [3] UnsupportedDataType(Simple): unsupported data type
2.13 | any | / => NotAnArray: no array but a group at /
2.13 | any | /none => Node(MissingMetadata): Metadata is missing for /none
2.13 | any | t => Node(NodePathError(Invalid)): invalid node path t
3 | any | /t => /t [3, 5] int16
3 | v2 | /t => Node(MissingMetadata): Metadata is missing for /t
3 | any | / => NotAnArray: no array but a group at /
3 | any | /t/c => Node(MissingMetadata): Metadata is missing for /t/c
"#;

#[test]
fn an_array_is_opened_by_its_path(rt: HostRuntime) -> Result<(), Fail> {
    check_rows(rt.alloc(), OPENED, opened_said)
}

// The indices of a row, with blanks between them.
fn indices_in(alloc: Global, text: &str) -> Result<Vec<u64>, StorageError> {
    let mut indices = Vec::new(alloc);
    for word in text.split(' ') {
        if !word.is_empty() {
            match word.parse::<u64>() {
                Ok(index) => indices.push(index)?,
                Err(_) => return Err(no_word(alloc, word)),
            }
        }
    }
    Ok(indices)
}

// The bytes of a chunk, with blanks between them.
fn chunk_text(chunk: &Option<Vec<u8>>, alloc: Global) -> Result<String, AllocError> {
    match chunk {
        Some(bytes) => format!(in alloc; "{bytes:?}"),
        None => String::from_str(alloc, "none"),
    }
}

// The key of a chunk of an array, and its bytes in a store.
fn chunk_of(
    array: &OpenedArray,
    alloc: Global,
    store: &MemoryStore,
    indices: &[u64],
) -> Result<String, AllocError> {
    let key = said(alloc, array.chunk_key(alloc, indices), printed)?;
    let chunk = said(alloc, array.chunk(alloc, store, indices), chunk_text)?;
    format!(in alloc; "{key}: {chunk}")
}

// The key of the chunk of a row, and its bytes.
fn chunk_said(alloc: Global, given: &str) -> Result<String, StorageError> {
    let (word, rest) = fields(given);
    let (path, indices) = fields(rest);
    let store = store_named(alloc, word)?;
    let indices = indices_in(alloc, indices)?;
    Ok(said(
        alloc,
        OpenedArray::open(alloc, &store, path, &ANY),
        |array, alloc| chunk_of(array, alloc, &store, &indices),
    )?)
}

// Store, path and indices; the key of the chunk, and its bytes.
const CHUNKS: &str = r#"
2.13 | /t | 0 0 => t/0.0: [0, 0, 1, 0, 2, 0, 5, 0, 6, 0, 7, 0]
2.13 | /t | 1 1 => t/1.1: none
2.13 | /time | 0 => time/0: none
2.13 | /t | 0 => WrongIndices: 1 indices of a chunk in 2 dimensions: WrongIndices: 1 indices of a chunk in 2 dimensions
2.13 | /t | 0 0 0 => WrongIndices: 3 indices of a chunk in 2 dimensions: WrongIndices: 3 indices of a chunk in 2 dimensions
3 | /t | 0 0 => t/c/0/0: [0, 0, 1, 0, 2, 0, 5, 0, 6, 0, 7, 0]
3 | /t | 1 1 => t/c/1/1: none
3 | / | 0 0 => NotAnArray: no array but a group at /
"#;

#[test]
fn a_chunk_is_the_bytes_of_the_store_at_its_key(rt: HostRuntime) -> Result<(), Fail> {
    check_rows(rt.alloc(), CHUNKS, chunk_said)
}

// The document of an array without dimensions whose `chunk_key_encoding` this is.
fn encoded(alloc: Global, encoding: &str) -> Result<String, AllocError> {
    let mut text = String::from_str(
        alloc,
        r#"{"shape":[],"data_type":"int16","chunk_grid":"regular","chunk_key_encoding":"#,
    )?;
    text.push_str(encoding)?;
    text.push_str(r#","fill_value":0,"codecs":["bytes"],"zarr_format":3,"node_type":"array"}"#)?;
    Ok(text)
}

// The key of a chunk at the root by the encoding of an array, or why the array has no chunk.
fn key_of_chunk(array: &OpenedArray, alloc: Global, indices: &[u64]) -> Result<String, AllocError> {
    match ChunkKeyEncoding::of(&array.metadata) {
        Some(encoding) => said(alloc, encoding.chunk_key(alloc, indices), printed),
        None => said(alloc, array.chunk_key(alloc, &[]), printed),
    }
}

// The key of the chunk of a row.
fn key_said(alloc: Global, given: &str) -> Result<String, StorageError> {
    let (encoding, indices) = fields(given);
    let document = encoded(alloc, encoding)?;
    let store = store_of(alloc, &[("zarr.json", document.as_str())])?;
    let indices = indices_in(alloc, indices)?;
    Ok(said(
        alloc,
        OpenedArray::open(alloc, &store, "/", &ANY),
        |array, alloc| key_of_chunk(array, alloc, &indices),
    )?)
}

// Encoding and indices; the key. The keys of three indices are the examples of the Zarr core specification 3.1, "Chunk key encoding".
const KEYS: &str = r#"
{"name":"default","configuration":{"separator":"/"}} | 1 23 45 => c/1/23/45
{"name":"default","configuration":{"separator":"."}} | 1 23 45 => c.1.23.45
{"name":"v2","configuration":{"separator":"/"}} | 1 23 45 => 1/23/45
{"name":"v2","configuration":{"separator":"."}} | 1 23 45 => 1.23.45
"default" | 1 23 45 => c/1/23/45
{"name":"default","configuration":{}} | 0 => c/0
"default" | => c
{"name":"default","configuration":{"separator":"."}} | => c
"v2" | 1 23 45 => 1.23.45
"v2" | 7 => 7
"v2" | => 0
{"name":"v2","configuration":{"separator":"/"}} | => 0
"v2" | 18446744073709551615 0 => 18446744073709551615.0
{"name":"default","configuration":{"separator":"-"}} | 0 => UnsupportedEncoding: unsupported chunk key encoding default
{"name":"default","configuration":{"separator":null}} | 0 => UnsupportedEncoding: unsupported chunk key encoding default
{"name":"v2","configuration":{"separator":"-"}} | 0 => UnsupportedEncoding: unsupported chunk key encoding v2
"suffix" | 0 => UnsupportedEncoding: unsupported chunk key encoding suffix
"#;

#[test]
fn the_key_of_a_chunk_follows_the_encoding(rt: HostRuntime) -> Result<(), Fail> {
    check_rows(rt.alloc(), KEYS, key_said)
}

#[test]
fn the_laws_of_keys_are_called() {
    laws::keys_read_back();
}

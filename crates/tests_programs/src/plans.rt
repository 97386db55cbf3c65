//! What becomes of the document that holds the block of a group, and what stands there once that is done.

use crate::same::is_same;
use log::sink::Discard;
use std::alloc::{AllocError, Global};
use std::test::Fail;
use tests_support::{check_rows, fields, refusal, said};
use zarrs_config::Config;
use zarrs_consolidate::{Plan, Task, laws, plan_block, plan_in_folder};
use zarrs_group::Group;
use zarrs_meta::{GroupMetadata, GroupMetadataV3, WrittenDocument};
use zarrs_path::NodePath;
use zarrs_store::{AnyNumbers, MemoryStore, StorageError, StoreKey, WritableStorageTraits};
use zarrs_write::MemoryPlace;

// The store of the files of a list: a key, a blank and the text each, with semicolons between them.
fn store_of(alloc: Global, list: &str) -> Result<MemoryStore, StorageError> {
    let mut store = MemoryStore::new(alloc);
    for item in list.split(';') {
        if let Some((key, text)) = item.split_once(' ') {
            let Ok(key) = StoreKey::new(alloc, key) else {
                return Err(StorageError::Other(String::from_str(alloc, "no key")?));
            };
            store.set(&key, text.as_bytes())?;
        }
    }
    Ok(store)
}

// The task that a word names.
fn task_of(word: &str) -> Task {
    match word {
        "write" => Task::Write,
        _ => Task::Remove,
    }
}

// The bytes of a document as a text, a hyphen where there is none.
fn shown(alloc: Global, document: &Option<Vec<u8>>) -> Result<String, AllocError> {
    match document {
        Some(bytes) => {
            let text = String::from_utf8_lossy(alloc, bytes)?;
            text.replace(alloc, '\n', "")
        }
        None => String::from_str(alloc, "-"),
    }
}

// What carrying out a plan answers over a folder in memory.
fn done_of(plan: &Plan, alloc: Global, place: &mut MemoryPlace) -> Result<String, AllocError> {
    match plan.carry_out(alloc, place) {
        Ok(done) => format!(in alloc; "{done:?}"),
        Err(error) => refusal(alloc, &error),
    }
}

// What a plan says, beside what carrying it out answered.
fn line_of(plan: &Plan, alloc: Global, done: &str) -> Result<String, AllocError> {
    let (key, nodes, name) = (plan.key.as_str(), plan.nodes, plan.name);
    let is_change = plan.is_change();
    let new = shown(alloc, &plan.new)?;
    format!(in alloc; "{key} {name} {nodes} {is_change} {done} {new}")
}

// Appends the names of the files of a folder, with those marked that have the bytes of a plan.
fn push_files(plan: &Plan, text: &mut String, place: &MemoryPlace) -> Result<(), AllocError> {
    for (name, bytes) in place.files() {
        let mark = if plan.new.as_deref() == Some(bytes.as_slice()) {
            " as planned"
        } else {
            ""
        };
        write!(text, " | {name}{mark}")?;
    }
    Ok(())
}

// What a plan says, and what stands in a folder in memory once it is carried out.
fn said_of(plan: &Plan, alloc: Global) -> Result<String, AllocError> {
    let mut place = MemoryPlace::new(alloc);
    if let Some(old) = &plan.old {
        place.put(plan.name, old.as_slice())?;
    }
    let done = done_of(plan, alloc, &mut place)?;
    let mut text = line_of(plan, alloc, done.as_str())?;
    push_files(plan, &mut text, &place)?;
    Ok(text)
}

// How a plan is made: of a folder, of a store of any numbers, or of a store of whole numbers.
#[derive(Clone, Copy, Drop)]
enum Of {
    Folder,
    Store,
    Whole,
}

// The plan of a task over a store.
fn plan_of(
    alloc: Global,
    of: Of,
    task: Task,
    mut inner: MemoryStore,
    base: &NodePath,
) -> Result<String, AllocError> {
    match of {
        Of::Folder => {
            let plan = plan_in_folder(&Discard, alloc, task, &mut inner, base);
            said(alloc, plan, said_of)
        }
        Of::Store => {
            let plan = plan_block(&Discard, alloc, task, &AnyNumbers { inner }, base);
            said(alloc, plan, said_of)
        }
        Of::Whole => said(
            alloc,
            plan_block(&Discard, alloc, task, &inner, base),
            said_of,
        ),
    }
}

// The plan of a task over the files of a list.
fn plan_given(alloc: Global, of: Of, given: &str) -> Result<String, AllocError> {
    let (task, rest) = fields(given);
    let (path, files) = fields(rest);
    let Ok(base) = NodePath::new(alloc, path) else {
        return String::from_str(alloc, "no path");
    };
    match store_of(alloc, files) {
        Ok(store) => plan_of(alloc, of, task_of(task), store, &base),
        Err(_) => String::from_str(alloc, "no store"),
    }
}

// The plan by a folder.
fn planned(alloc: Global, given: &str) -> Result<String, AllocError> {
    plan_given(alloc, Of::Folder, given)
}

// The same plan over the store itself.
fn planned_over_store(alloc: Global, given: &str) -> Result<String, AllocError> {
    plan_given(alloc, Of::Store, given)
}

// The task, the path and the files; the key and the name of the document, the number of nodes, whether something changes, how the plan ends, what is to stand
// there, and the files that then do.
const PLANNED: &str = r#"
# the block of no nodes, of two, one of which is an array with a fraction, and from a group on
write | / | zarr.json {"zarr_format":3,"node_type":"group"} => zarr.json zarr.json 0 true Changed {  "consolidated_metadata": {    "kind": "inline",    "metadata": {},    "must_understand": false  },  "node_type": "group",  "zarr_format": 3} | zarr.json as planned
write | / | a/b/zarr.json {"chunk_grid":{"configuration":{"chunk_shape":[2]},"name":"regular"},"chunk_key_encoding":"default","codecs":["bytes"],"data_type":"float64","fill_value":0.5,"node_type":"array","shape":[2],"zarr_format":3};a/zarr.json {"zarr_format":3,"node_type":"group"};zarr.json {"attributes":{"k":2.5},"node_type":"group","zarr_format":3} => zarr.json zarr.json 2 true Changed {  "attributes": {    "k": 2.5  },  "consolidated_metadata": {    "kind": "inline",    "metadata": {      "a": {        "node_type": "group",        "zarr_format": 3      },      "a/b": {        "chunk_grid": {          "configuration": {            "chunk_shape": [              2            ]          },          "name": "regular"        },        "chunk_key_encoding": {          "name": "default"        },        "codecs": [          {            "name": "bytes"          }        ],        "data_type": "float64",        "fill_value": 0.5,        "node_type": "array",        "shape": [          2        ],        "zarr_format": 3      }    },    "must_understand": false  },  "node_type": "group",  "zarr_format": 3} | zarr.json as planned
write | /a | a/b/zarr.json {"chunk_grid":{"configuration":{"chunk_shape":[2]},"name":"regular"},"chunk_key_encoding":"default","codecs":["bytes"],"data_type":"float64","fill_value":0.5,"node_type":"array","shape":[2],"zarr_format":3};a/zarr.json {"zarr_format":3,"node_type":"group"};zarr.json {"attributes":{"k":2.5},"node_type":"group","zarr_format":3} => a/zarr.json zarr.json 1 true Changed {  "consolidated_metadata": {    "kind": "inline",    "metadata": {      "b": {        "chunk_grid": {          "configuration": {            "chunk_shape": [              2            ]          },          "name": "regular"        },        "chunk_key_encoding": {          "name": "default"        },        "codecs": [          {            "name": "bytes"          }        ],        "data_type": "float64",        "fill_value": 0.5,        "node_type": "array",        "shape": [          2        ],        "zarr_format": 3      }    },    "must_understand": false  },  "node_type": "group",  "zarr_format": 3} | zarr.json as planned
# a block that is there is made anew, or removed; what is there already is not written
write | / | a/zarr.json {"zarr_format":3,"node_type":"group"};zarr.json {"consolidated_metadata":{"kind":"inline","metadata":{"x":{"node_type":"group","zarr_format":3}},"must_understand":false},"node_type":"group","zarr_format":3} => zarr.json zarr.json 1 true Changed {  "consolidated_metadata": {    "kind": "inline",    "metadata": {      "a": {        "node_type": "group",        "zarr_format": 3      }    },    "must_understand": false  },  "node_type": "group",  "zarr_format": 3} | zarr.json as planned
remove | / | a/zarr.json {"zarr_format":3,"node_type":"group"};zarr.json {"consolidated_metadata":{"kind":"inline","metadata":{"x":{"node_type":"group","zarr_format":3}},"must_understand":false},"node_type":"group","zarr_format":3} => zarr.json zarr.json 1 true Changed {  "node_type": "group",  "zarr_format": 3} | zarr.json as planned
write | / | zarr.json {   "consolidated_metadata": {     "kind": "inline",     "metadata": {},     "must_understand": false   },   "node_type": "group",   "zarr_format": 3 } => zarr.json zarr.json 0 true Changed {  "consolidated_metadata": {    "kind": "inline",    "metadata": {},    "must_understand": false  },  "node_type": "group",  "zarr_format": 3} | zarr.json as planned
remove | / | a/zarr.json {"zarr_format":3,"node_type":"group"};zarr.json {"zarr_format":3,"node_type":"group"} => zarr.json zarr.json 1 false Unchanged {"zarr_format":3,"node_type":"group"} | zarr.json as planned
# version 2: the block stands beside
write | / | .zattrs {"k":1};.zgroup {"zarr_format":2};v/.zarray {"chunks":[1],"compressor":null,"dimension_separator":".","dtype":"<f8","fill_value":0.5,"filters":null,"order":"C","shape":[3],"zarr_format":2} => .zmetadata .zmetadata 1 true Changed {  "metadata": {    ".zattrs": {      "k": 1    },    ".zgroup": {      "zarr_format": 2    },    "v/.zarray": {      "chunks": [        1      ],      "compressor": null,      "dimension_separator": ".",      "dtype": "<f8",      "fill_value": 0.5,      "filters": null,      "order": "C",      "shape": [        3      ],      "zarr_format": 2    }  },  "zarr_consolidated_format": 1} | .zmetadata as planned
write | / | .zattrs {"k":1};.zgroup {"zarr_format":2};v/.zarray {"chunks":[1],"compressor":null,"dimension_separator":".","dtype":"<f8","fill_value":0.5,"filters":null,"order":"C","shape":[3],"zarr_format":2};.zmetadata x => .zmetadata .zmetadata 1 true Changed {  "metadata": {    ".zattrs": {      "k": 1    },    ".zgroup": {      "zarr_format": 2    },    "v/.zarray": {      "chunks": [        1      ],      "compressor": null,      "dimension_separator": ".",      "dtype": "<f8",      "fill_value": 0.5,      "filters": null,      "order": "C",      "shape": [        3      ],      "zarr_format": 2    }  },  "zarr_consolidated_format": 1} | .zmetadata as planned
remove | / | .zattrs {"k":1};.zgroup {"zarr_format":2};v/.zarray {"chunks":[1],"compressor":null,"dimension_separator":".","dtype":"<f8","fill_value":0.5,"filters":null,"order":"C","shape":[3],"zarr_format":2};.zmetadata x => .zmetadata .zmetadata 1 true Changed -
remove | / | .zattrs {"k":1};.zgroup {"zarr_format":2};v/.zarray {"chunks":[1],"compressor":null,"dimension_separator":".","dtype":"<f8","fill_value":0.5,"filters":null,"order":"C","shape":[3],"zarr_format":2} => .zmetadata .zmetadata 1 false Unchanged -
# what is beyond ASCII is escaped in version 2, and stands as it is in version 3
write | / | .zattrs {"u":"°C"};.zgroup {"zarr_format":2} => .zmetadata .zmetadata 0 true Changed {  "metadata": {    ".zattrs": {      "u": "\\u00b0C"    },    ".zgroup": {      "zarr_format": 2    }  },  "zarr_consolidated_format": 1} | .zmetadata as planned
write | / | zarr.json {"zarr_format":3,"node_type":"group","attributes":{"u":"°C"}} => zarr.json zarr.json 0 true Changed {  "attributes": {    "u": "°C"  },  "consolidated_metadata": {    "kind": "inline",    "metadata": {},    "must_understand": false  },  "node_type": "group",  "zarr_format": 3} | zarr.json as planned
# what refuses both
write | / | zarr.json {"zarr_format":3,"node_type":"group"};a/zarr.json [] => Node(StorageError(InvalidMetadata)): error parsing metadata for a/zarr.json: not an object
write | /a | zarr.json {"zarr_format":3,"node_type":"group"} => Node(MissingMetadata): Metadata is missing for /a
write | /a | zarr.json {"zarr_format":3,"node_type":"group"};a/zarr.json {"chunk_grid":{"configuration":{"chunk_shape":[2]},"name":"regular"},"chunk_key_encoding":"default","codecs":["bytes"],"data_type":"float64","fill_value":0.5,"node_type":"array","shape":[2],"zarr_format":3} => NotAGroup: /a is an array, and only a group has a block
write | / | zarr.json {"zarr_format":2} => Node(MetadataVersionMismatch): Found V2 metadata in V3 key or vice-versa
remove | / | zarr.json {"zarr_format":3,"node_type":"group"};a/zarr.json [] => Node(StorageError(InvalidMetadata)): error parsing metadata for a/zarr.json: not an object
remove | /a | zarr.json {"zarr_format":3,"node_type":"group"} => Node(MissingMetadata): Metadata is missing for /a
remove | /a | zarr.json {"zarr_format":3,"node_type":"group"};a/zarr.json {"chunk_grid":{"configuration":{"chunk_shape":[2]},"name":"regular"},"chunk_key_encoding":"default","codecs":["bytes"],"data_type":"float64","fill_value":0.5,"node_type":"array","shape":[2],"zarr_format":3} => NotAGroup: /a is an array, and only a group has a block
remove | / | zarr.json {"zarr_format":2} => Node(MetadataVersionMismatch): Found V2 metadata in V3 key or vice-versa
write | / | .zgroup {"zarr_format":2};a/zarr.json {"zarr_format":3,"node_type":"group"} => Block(MetadataVersionMismatch): the block of a group of version 2 holds no node of version 3
remove | / | .zgroup {"zarr_format":2};a/zarr.json {"zarr_format":3,"node_type":"group"} => .zmetadata .zmetadata 1 false Unchanged -
"#;

#[test]
fn a_block_is_written_or_removed(rt: HostRuntime) -> Result<(), Fail> {
    laws::carried_out_is_whole();
    check_rows(rt.alloc(), PLANNED, planned)
}

#[test]
fn a_store_has_the_plan_of_its_folder(rt: HostRuntime) -> Result<(), Fail> {
    check_rows(rt.alloc(), PLANNED, planned_over_store)
}

// Over a store of whole numbers a fraction is bad, and refuses as it does every listing.
const WHOLE: &str = r#"
write | / | zarr.json {"zarr_format":3,"node_type":"group"};a/zarr.json {"zarr_format":3,"node_type":"group","attributes":{"k":0.5}} => Node(StorageError(InvalidMetadata)): error parsing metadata for a/zarr.json: unsupported number
write | / | zarr.json {"zarr_format":3,"node_type":"group"};a/zarr.json {"zarr_format":3,"node_type":"group","attributes":{"k":5}} => zarr.json zarr.json 1 true Changed {  "consolidated_metadata": {    "kind": "inline",    "metadata": {      "a": {        "attributes": {          "k": 5        },        "node_type": "group",        "zarr_format": 3      }    },    "must_understand": false  },  "node_type": "group",  "zarr_format": 3} | zarr.json as planned
"#;

// The plan over a store whose documents hold whole numbers only.
fn planned_whole(alloc: Global, given: &str) -> Result<String, AllocError> {
    plan_given(alloc, Of::Whole, given)
}

#[test]
fn a_store_of_whole_numbers_refuses_a_fraction(rt: HostRuntime) -> Result<(), Fail> {
    check_rows(rt.alloc(), WHOLE, planned_whole)
}

#[test]
fn a_group_is_made_at_a_path(rt: HostRuntime) -> Result<(), Fail> {
    let alloc = rt.alloc();
    let Ok(path) = NodePath::new(alloc, "/a/b") else {
        return Err(Fail::new(String::from_str(alloc, "no path")?));
    };
    let metadata = GroupMetadata::V3(GroupMetadataV3::new(alloc));
    let group = Group::at(path, metadata, &Config::new());
    is_same(
        group.to_text(alloc),
        r#"group at /a/b with metadata {"node_type":"group","zarr_format":3}"#,
    )
}

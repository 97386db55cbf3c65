//! What `consolidate` writes, to the standard output and to the folder, and its statuses.
use crate::asserts::{assert_ran, assert_text};
use crate::folders::{make_folder, run};
use crate::runs::{ARRAY, GROUP};
use log::sink::Discard;
use std::alloc::Global;
use std::os::unix::fs::symlink;
use std::process::Abort;
use std::{fs, io};
use zarrs_cli::{BlockRequest, ConsolidateOptions, consolidate_folder};
use zarrs_store::{MemoryStore, StoreKey, WritableStorageTraits};
use zarrs_write::MemoryPlace;

// The folder of a test.
const FOLDER: &str = "consolidated";

// A group of version 2, an array of it, and a group with a field and an attribute.
const GROUP_V2: &str = r#"{"zarr_format":2}"#;

const ARRAY_V2: &str =
    r#"{"chunks":[1],"compressor":null,"dtype":"<f8","fill_value":0.5,"filters":null,"order":"C","shape":[3],"zarr_format":2}"#;

// Asserts what calls write, one after another, and their statuses.
fn assert_calls<R: Abort>(tests: &R, rt: &HostRuntime, rows: &[(&[&str], &str, &str, u8)]) {
    for (texts, output, errors, status) in rows {
        let ran = run(rt, texts).expect(tests, "memory");
        assert_ran(tests, output, &ran, output, errors, *status);
    }
}

// Asserts the text of a file.
fn assert_file<R: Abort>(tests: &R, rt: &HostRuntime, path: &str, wanted: &str) {
    let text = fs::read_to_string(rt, path).expect(tests, "a file");
    assert_text(tests, path, text.as_str(), wanted);
}

const WRITTEN: &str = r#"{
  "attributes": {
    "k": 0.00001
  },
  "consolidated_metadata": {
    "kind": "inline",
    "metadata": {
      "a": {
        "attributes": {
          "k": 0.5
        },
        "node_type": "group",
        "zarr_format": 3
      }
    },
    "must_understand": false
  },
  "node_type": "group",
  "zarr_format": 3
}"#;

const REMOVED: &str = r#"{
  "attributes": {
    "k": 0.00001
  },
  "node_type": "group",
  "zarr_format": 3
}"#;

// Calls, what each writes and says, and its status.
const OF_VERSION_3: &[(&[&str], &str, &str, u8)] = &[
    (
        &["consolidate", "--dry-run", FOLDER],
        "would write zarr.json: the block of 1 node\n",
        "",
        1,
    ),
    (
        &["consolidate", "--remove", FOLDER],
        "zarr.json has no block\n",
        "",
        0,
    ),
    (
        &["consolidate", FOLDER],
        "wrote zarr.json: the block of 1 node\n",
        "",
        0,
    ),
    (
        &["consolidate", FOLDER],
        "zarr.json is current: the block of 1 node\n",
        "",
        0,
    ),
    (
        &["consolidate", "--dry-run", FOLDER, "/"],
        "zarr.json is current: the block of 1 node\n",
        "",
        0,
    ),
    (&["check", FOLDER], "", "zarrs: 2 nodes, 0 findings\n", 0),
    (&["tree", FOLDER], "/\n  a\n", "", 0),
    (
        &["consolidate", FOLDER, "/a"],
        "wrote a/zarr.json: the block of 0 nodes\n",
        "",
        0,
    ),
    (
        &["consolidate", "--remove", FOLDER, "a"],
        "removed the block of a/zarr.json\n",
        "",
        0,
    ),
];

const TAKEN_AWAY: &[(&[&str], &str, &str, u8)] = &[
    (
        &["consolidate", "--dry-run", "--remove", FOLDER],
        "would remove the block of zarr.json\n",
        "",
        1,
    ),
    (
        &["consolidate", "--remove", FOLDER],
        "removed the block of zarr.json\n",
        "",
        0,
    ),
    (
        &["consolidate", "--dry-run", "--remove", FOLDER],
        "zarr.json has no block\n",
        "",
        0,
    ),
];

#[test]
fn a_block_of_version_3_is_written_and_removed(rt: HostRuntime) -> io::Result<()> {
    let files = [
        (
            "zarr.json",
            r#"{"zarr_format":3,"node_type":"group","attributes":{"k":1e-05}}"#,
        ),
        (
            "a/zarr.json",
            r#"{"zarr_format":3,"node_type":"group","attributes":{"k":0.5}}"#,
        ),
    ];
    make_folder(&rt, FOLDER, &files)?;
    assert_calls(&rt, &rt, OF_VERSION_3);
    assert_file(&rt, &rt, "consolidated/zarr.json", WRITTEN);
    assert_calls(&rt, &rt, TAKEN_AWAY);
    assert_file(&rt, &rt, "consolidated/zarr.json", REMOVED);
    assert!(rt; !fs::exists(&rt, "consolidated/zarr.json.zarrs_new")?);
    fs::remove_dir_all(&rt, FOLDER)
}

// The folder of a test, and calls on it, one after another.
const OBJECTS: &str = "objects";

const OF_OBJECTS: &[(&[&str], &str, &str, u8)] = &[
    (
        &["consolidate", OBJECTS],
        "wrote zarr.json: the block of 1 node\n",
        "",
        0,
    ),
    (
        &["consolidate", OBJECTS],
        "zarr.json is current: the block of 1 node\n",
        "",
        0,
    ),
    (&["check", OBJECTS], "", "zarrs: 2 nodes, 0 findings\n", 0),
    (&["tree", OBJECTS], "/\n  a [4] uint8\n", "", 0),
];

const IN_OBJECTS: &str = r#"{
  "consolidated_metadata": {
    "kind": "inline",
    "metadata": {
      "a": {
        "chunk_grid": {
          "configuration": {
            "chunk_shape": [
              2
            ]
          },
          "name": "regular"
        },
        "chunk_key_encoding": {
          "name": "default"
        },
        "codecs": [
          {
            "name": "bytes"
          }
        ],
        "data_type": "uint8",
        "fill_value": 0,
        "node_type": "array",
        "shape": [
          4
        ],
        "zarr_format": 3
      }
    },
    "must_understand": false
  },
  "node_type": "group",
  "zarr_format": 3
}"#;

#[test]
fn an_extension_is_an_object_in_a_block(rt: HostRuntime) -> io::Result<()> {
    let array =
        r#"{"chunk_grid":{"configuration":{"chunk_shape":[2]},"name":"regular"},"chunk_key_encoding":"default","codecs":["bytes"],"data_type":"uint8","fill_value":0,"node_type":"array","shape":[4],"zarr_format":3}"#;
    make_folder(
        &rt,
        OBJECTS,
        &[("zarr.json", GROUP), ("a/zarr.json", array)],
    )?;
    assert_calls(&rt, &rt, OF_OBJECTS);
    assert_file(&rt, &rt, "objects/zarr.json", IN_OBJECTS);
    fs::remove_dir_all(&rt, OBJECTS)
}

// The folder of a test, and what is said of the array of it that xarray writes for data without a name.
const UNNAMED: &str = "unnamed";

const HIDDEN: &str =
    "[WARN  zarrs_folder::disk] unnamed/__xarray_dataarray_variable__ was passed over: its name begins with __, so no listing shows it, and no block gets it\n";

const HIDDEN_IN_CHECK: &str =
    "[WARN  zarrs_folder::disk] unnamed/__xarray_dataarray_variable__ was passed over: its name begins with __, so no listing shows it, and no block gets it\nzarrs: 2 nodes, 0 findings\n";

const OF_UNNAMED: &[(&[&str], &str, &str, u8)] = &[
    (
        &["consolidate", "--dry-run", UNNAMED],
        "would write .zmetadata: the block of 1 node\n",
        HIDDEN,
        1,
    ),
    (
        &["consolidate", UNNAMED],
        "wrote .zmetadata: the block of 1 node\n",
        HIDDEN,
        0,
    ),
    (&["list", UNNAMED], "/\n/x\n", HIDDEN, 0),
    (&["tree", UNNAMED], "/\n  x [3] Simple(\"<f8\")\n", "", 0),
    (&["check", UNNAMED], "", HIDDEN_IN_CHECK, 0),
];

#[test]
fn a_node_that_no_block_gets_is_named(rt: HostRuntime) -> io::Result<()> {
    let files = [
        (".zgroup", GROUP_V2),
        ("x/.zarray", ARRAY_V2),
        ("__xarray_dataarray_variable__/.zarray", ARRAY_V2),
    ];
    make_folder(&rt, UNNAMED, &files)?;
    assert_calls(&rt, &rt, OF_UNNAMED);
    fs::remove_dir_all(&rt, UNNAMED)
}

const ZMETADATA: &str = r#"{
  "metadata": {
    ".zattrs": {
      "k": 2.5
    },
    ".zgroup": {
      "zarr_format": 2
    },
    "v/.zarray": {
      "chunks": [
        1
      ],
      "compressor": null,
      "dimension_separator": ".",
      "dtype": "<f8",
      "fill_value": 0.5,
      "filters": null,
      "order": "C",
      "shape": [
        3
      ],
      "zarr_format": 2
    }
  },
  "zarr_consolidated_format": 1
}"#;

const OLDER: &str = "consolidated_v2";

const OF_VERSION_2: &[(&[&str], &str, &str, u8)] = &[
    (
        &["consolidate", "--remove", OLDER],
        ".zmetadata has no block\n",
        "",
        0,
    ),
    (
        &["consolidate", "--dry-run", OLDER],
        "would write .zmetadata: the block of 1 node\n",
        "",
        1,
    ),
    (
        &["consolidate", OLDER],
        "wrote .zmetadata: the block of 1 node\n",
        "",
        0,
    ),
    (
        &["consolidate", OLDER],
        ".zmetadata is current: the block of 1 node\n",
        "",
        0,
    ),
    (&["check", OLDER], "", "zarrs: 2 nodes, 0 findings\n", 0),
];

const GONE: &[(&[&str], &str, &str, u8)] = &[
    (
        &["consolidate", "--dry-run", "--remove", OLDER],
        "would remove the block of .zmetadata\n",
        "",
        1,
    ),
    (
        &["consolidate", "--remove", OLDER],
        "removed the block of .zmetadata\n",
        "",
        0,
    ),
    (
        &["consolidate", "--remove", OLDER],
        ".zmetadata has no block\n",
        "",
        0,
    ),
];

#[test]
fn a_block_of_version_2_is_written_and_removed(rt: HostRuntime) -> io::Result<()> {
    let files = [
        (".zgroup", GROUP_V2),
        (".zattrs", r#"{"k":2.5}"#),
        ("v/.zarray", ARRAY_V2),
    ];
    make_folder(&rt, OLDER, &files)?;
    assert_calls(&rt, &rt, OF_VERSION_2);
    assert_file(&rt, &rt, "consolidated_v2/.zmetadata", ZMETADATA);
    assert_calls(&rt, &rt, GONE);
    assert!(rt; !fs::exists(&rt, "consolidated_v2/.zmetadata")?);
    fs::remove_dir_all(&rt, OLDER)
}

const REFUSED: &str = "consolidated_not";

// Refusals: the words, and what is said.
const REFUSALS: &[(&[&str], &str)] = &[
    (
        &["consolidate", REFUSED],
        "zarrs: error parsing metadata for g/bad/zarr.json: not an object\n",
    ),
    (
        &["consolidate", "--remove", REFUSED],
        "zarrs: error parsing metadata for g/bad/zarr.json: not an object\n",
    ),
    (
        &["consolidate", "--dry-run", REFUSED],
        "zarrs: error parsing metadata for g/bad/zarr.json: not an object\n",
    ),
    (
        &["consolidate", REFUSED, "/t"],
        "zarrs: /t is an array, and only a group has a block\n",
    ),
    (
        &["consolidate", REFUSED, "/x"],
        "zarrs: there is no node at /x in consolidated_not\n",
    ),
    (
        &["consolidate", REFUSED, "x"],
        "zarrs: there is no node at /x in consolidated_not\n",
    ),
    (
        &["consolidate", REFUSED, "t//"],
        "zarrs: invalid node path /t// (a path is / or names with a slash before each; none is empty, of periods only, or begins with __)\n",
    ),
    (
        &["consolidate", REFUSED, "/mixed"],
        "zarrs: the block of a group of version 2 holds no node of version 3\n",
    ),
    (
        &["consolidate", REFUSED, "/left"],
        "zarrs: zarr.json.zarrs_new is left over from a run that was broken off: remove it\n",
    ),
    (
        &["consolidate", "nowhere"],
        "zarrs: nowhere: No such file or directory\n",
    ),
];

#[test]
fn what_is_refused_leaves_the_folder(rt: HostRuntime) -> io::Result<()> {
    let files = [
        ("zarr.json", GROUP),
        ("g/zarr.json", GROUP),
        ("g/bad/zarr.json", "[]"),
        ("t/zarr.json", ARRAY),
        ("mixed/.zgroup", GROUP_V2),
        ("mixed/a/zarr.json", GROUP),
        ("left/zarr.json", GROUP),
        ("left/zarr.json.zarrs_new", "half"),
    ];
    make_folder(&rt, REFUSED, &files)?;
    for (texts, errors) in REFUSALS {
        let ran = run(&rt, texts).expect(&rt, "memory");
        assert_ran(&rt, errors, &ran, "", errors, 2);
    }
    assert_file(&rt, &rt, "consolidated_not/zarr.json", GROUP);
    assert_file(&rt, &rt, "consolidated_not/left/zarr.json", GROUP);
    assert_file(
        &rt,
        &rt,
        "consolidated_not/left/zarr.json.zarrs_new",
        "half",
    );
    fs::remove_dir_all(&rt, REFUSED)
}

// A folder whose document is a link to itself.
const LOOP: &str = "consolidated_loop";

const LOOPED: &[(&[&str], &str, &str, u8)] = &[(
    &["consolidate", LOOP],
    "",
    "zarrs: consolidated_loop/zarr.json: Too many levels of symbolic links\n",
    2,
)];

#[test]
fn a_document_that_no_disk_reads_is_refused(rt: HostRuntime) -> io::Result<()> {
    make_folder(&rt, LOOP, &[])?;
    symlink(&rt, "zarr.json", "consolidated_loop/zarr.json")?;
    assert_calls(&rt, &rt, LOOPED);
    fs::remove_dir_all(&rt, LOOP)
}

// The store with a group at its root.
fn store_of<R: Abort>(rt: &R, alloc: Global) -> MemoryStore {
    let mut store = MemoryStore::new(alloc);
    let key = StoreKey::new(alloc, "zarr.json").expect(rt, "a key");
    store.set(&key, GROUP.as_bytes()).expect(rt, "memory");
    store
}

// What a run over a folder in memory answers, what it writes, and the files that then stand in the folder of the document, of which a call fails.
fn answered<R: Abort>(rt: &R, alloc: Global, options: ConsolidateOptions, calls: u64) -> String {
    let request = BlockRequest { options, path: "/" };
    let mut place = MemoryPlace::new(alloc);
    place
        .put("zarr.json", GROUP.as_bytes())
        .expect(rt, "memory");
    place.fail_after(calls);
    let mut store = store_of(rt, alloc);
    let mut output = Vec::new(alloc);
    let outcome = consolidate_folder(
        &Discard,
        alloc,
        request,
        &mut store,
        &mut place,
        &mut output,
    );
    let text = String::from_utf8_lossy(alloc, &output).expect(rt, "memory");
    let files = place.files().len();
    let is_old = place
        .files()
        .iter()
        .any(|file| file.1.as_slice() == GROUP.as_bytes());
    format!(in alloc; "{outcome:?} {files} {is_old} {text}").expect(rt, "memory")
}

const WRITES: ConsolidateOptions = ConsolidateOptions {
    dry_run: false,
    remove: false,
};

const SHOWS: ConsolidateOptions = ConsolidateOptions {
    dry_run: true,
    remove: false,
};

const REMOVES: ConsolidateOptions = ConsolidateOptions {
    dry_run: false,
    remove: true,
};

// The options, after how many calls one fails, and what is answered.
const IN_MEMORY: &[(ConsolidateOptions, u64, &str)] = &[
    (
        WRITES,
        u64::MAX,
        "Ok(Complete) 1 false wrote zarr.json: the block of 0 nodes\n",
    ),
    (
        SHOWS,
        0,
        "Ok(Due) 1 true would write zarr.json: the block of 0 nodes\n",
    ),
    (
        WRITES,
        3,
        r#"Err(Replace(Failed { step: Writing, name: "zarr.json.zarrs_new", why: "it was to fail" })) 1 true "#,
    ),
    // Where nothing changes no call is made.
    (REMOVES, 0, "Ok(Complete) 1 true zarr.json has no block\n"),
];

#[test]
fn a_folder_in_memory_is_written_to(rt: HostRuntime) {
    let alloc = rt.alloc();
    for (options, calls, wanted) in IN_MEMORY {
        let said = answered(&rt, alloc, *options, *calls);
        assert_text(&rt, wanted, said.as_str(), wanted);
    }
}

//! What `show` writes: the document of the node at a path, of version 2 with its attributes.
use crate::asserts::assert_ran;
use crate::runs::{GROUP, image_of, run};
use std::process::Abort;
use zarrs_cli::Word;

// An array with a fraction, and one of version 2.
const HALF: &str =
    r#"{"shape":[2],"zarr_format":3,"node_type":"array","data_type":"float64","chunk_grid":{"name":"regular","configuration":{"chunk_shape":[2]}},"chunk_key_encoding":{"name":"default"},"fill_value":5e-1,"codecs":["bytes"],"attributes":{"k":[1e-05,{}]}}"#;

const ARRAY_V2: &str =
    r#"{"chunks":[1],"compressor":null,"dtype":"<f8","fill_value":0.0,"filters":null,"order":"C","shape":[3],"zarr_format":2}"#;

const SHOWN: &str = r#"{
  "node_type": "group",
  "zarr_format": 3
}
"#;

const HALF_SHOWN: &str = r#"{
  "attributes": {
    "k": [
      0.00001,
      {}
    ]
  },
  "chunk_grid": {
    "configuration": {
      "chunk_shape": [
        2
      ]
    },
    "name": "regular"
  },
  "chunk_key_encoding": "default",
  "codecs": [
    "bytes"
  ],
  "data_type": "float64",
  "fill_value": 0.5,
  "node_type": "array",
  "shape": [
    2
  ],
  "zarr_format": 3
}
"#;

const ARRAY_V2_SHOWN: &str = r#"{
  "attributes": {
    "a": 1
  },
  "chunks": [
    1
  ],
  "compressor": null,
  "dimension_separator": ".",
  "dtype": "<f8",
  "fill_value": 0.0,
  "filters": null,
  "order": "C",
  "shape": [
    3
  ],
  "zarr_format": 2
}
"#;

// Paths, what is written, what is said, and the status.
const DOCUMENTS: &[(&str, &str, &str, u8)] = &[
    ("/", SHOWN, "", 0),
    ("/half", HALF_SHOWN, "", 0),
    ("/v", ARRAY_V2_SHOWN, "", 0),
    ("/x", "", "zarrs: Metadata is missing for /x\n", 2),
    ("x", "", "zarrs: invalid node path x\n", 2),
    (
        "/bad",
        "",
        "zarrs: error parsing metadata for bad/zarr.json: not an object\n",
        2,
    ),
];

#[test]
fn the_document_of_a_node_is_shown(rt: HostRuntime) {
    let alloc = rt.alloc();
    let documents = [
        ("zarr.json", GROUP),
        ("half/zarr.json", HALF),
        ("v/.zarray", ARRAY_V2),
        ("v/.zattrs", r#"{"a":1}"#),
        ("bad/zarr.json", "[]"),
    ];
    let image = image_of(alloc, &documents, &[]).expect(&rt, "memory");
    for (path, output, errors, status) in DOCUMENTS {
        let ran = run(alloc, Word::Show, image.as_str(), path).expect(&rt, "memory");
        assert_ran(&rt, path, &ran, output, errors, *status);
    }
}

use serde_json::Value;
use std::alloc::{AllocError, Global};
use std::test::Fail;
use tests_support::{check_rows, said};
use zarrs_block::ConsolidatedMetadata;
use zarrs_meta::WrittenDocument;

// A document as zarr-python 2 writes it.
const WRITTEN: &str = "{
    \"metadata\": {
        \".zattrs\": {\"title\": \"all\"},
        \".zgroup\": {\"zarr_format\": 2},
        \"outer/.zgroup\": {\"zarr_format\": 2},
        \"outer/inner/.zarray\": {
            \"chunks\": [10, 20],
            \"compressor\": {\"blocksize\": 0, \"clevel\": 5, \"cname\": \"lz4\", \"id\": \"blosc\", \"shuffle\": 1},
            \"dtype\": \"<i4\",
            \"fill_value\": 0,
            \"filters\": [{\"dtype\": \"<i4\", \"id\": \"delta\"}],
            \"order\": \"C\",
            \"shape\": [100, 200],
            \"zarr_format\": 2
        },
        \"outer/inner/.zattrs\": {\"unit\": \"m\"}
    },
    \"zarr_consolidated_format\": 1
}";

// A document as GDAL writes it: a group with attributes and a group within, arrays without and with compressors and filters, the
// dimensions of each named in its attributes, and a spatial reference by its address; each slash in a text behind a backslash.
const WRITTEN_BY_GDAL: &str = r#"{
  "zarr_consolidated_format":1,
  "metadata":{
    ".zgroup":{
      "zarr_format":2
    },
    ".zattrs":{
      "Conventions":"CF-1.6"
    },
    "y\/.zarray":{
      "chunks":[2],
      "compressor":null,
      "dtype":"<f8",
      "fill_value":null,
      "filters":null,
      "order":"C",
      "shape":[2],
      "zarr_format":2
    },
    "y\/.zattrs":{
      "_ARRAY_DIMENSIONS":["y"]
    },
    "sub\/.zgroup":{
      "zarr_format":2
    },
    "sub\/.zattrs":{},
    "sub\/band\/.zarray":{
      "chunks":[1,256],
      "compressor":{"id":"zlib","level":6},
      "dtype":"<u2",
      "fill_value":"NaN",
      "filters":[{"id":"delta","dtype":"<u2","astype":"<u2"}],
      "order":"C",
      "shape":[2,512],
      "zarr_format":2
    },
    "sub\/band\/.zattrs":{
      "_ARRAY_DIMENSIONS":["y","x"],
      "_CRS":{"url":"http:\/\/www.opengis.net\/def\/crs\/EPSG\/0\/26711"}
    }
  }
}"#;

// A document as netCDF-C writes it: what it keeps of its own stands in the attributes.
const WRITTEN_BY_NETCDF: &str = r#"{
  "metadata": {
    ".zgroup": {"zarr_format": 2},
    ".zattrs": {"_nczarr_superblock": {"version": "2.0.0"}, "_nczarr_group": {"dimensions": {"t": 4}, "arrays": ["t"], "groups": []}},
    "t/.zarray": {
      "zarr_format": 2, "shape": [4], "dtype": "<i4", "chunks": [4], "fill_value": -2147483647, "order": "C",
      "compressor": {"id": "zlib", "level": 1}, "filters": [{"id": "shuffle", "elementsize": 4}]
    },
    "t/.zattrs": {"_nczarr_array": {"dimension_references": ["/t"], "storage": "chunked"}, "_nczarr_attr": {"types": {"units": "<S1"}}, "units": "s"}
  },
  "zarr_consolidated_format": 1
}"#;

// The document of a program's name, or else the text itself.
fn document(given: &str) -> &str {
    match given {
        "zarr-python" => WRITTEN,
        "GDAL" => WRITTEN_BY_GDAL,
        "netCDF-C" => WRITTEN_BY_NETCDF,
        _ => given,
    }
}

// Documents or the names of theirs, and what each is read as.
const DOCUMENTS: &str = r#"
# A document is refused by its first fault.
[1.5] => UnsupportedNumber: unsupported number
{"other":1.5} => UnsupportedNumber: unsupported number
[] => NotAnObject: not an object
{} => MissingMember: missing member zarr_consolidated_format
{"zarr_consolidated_format":2,"metadata":{}} => BadMember: bad member zarr_consolidated_format
{"zarr_consolidated_format":"1"} => BadMember: bad member zarr_consolidated_format
{"zarr_consolidated_format":1} => MissingMember: missing member metadata
{"zarr_consolidated_format":1,"metadata":[]} => BadMember: bad member metadata
{"zarr_consolidated_format":1,"metadata":{}} =>
# Documents without a node are passed over.
{"zarr_consolidated_format":1,"metadata":{"a/.zattrs":{}}} =>
{"zarr_consolidated_format":1,"metadata":{"a/0.0":{}}} =>
{"zarr_consolidated_format":1,"metadata":{"a/.zattrs":[]}} =>
{"zarr_consolidated_format":1,"metadata":{".zgroup":{},".zattrs":[],".zarray":1}} =>
{"zarr_consolidated_format":1,"metadata":{"..":1,"a/b":{},"a/.zgroup/c":1,"__a":{"zarr_format":2}}} =>
# A bad name or document refuses the whole.
{"zarr_consolidated_format":1,"metadata":{"../.zgroup":{"zarr_format":2}}} => BadMember: bad member metadata
{"zarr_consolidated_format":1,"metadata":{"/a/.zgroup":{"zarr_format":2}}} => BadMember: bad member metadata
{"zarr_consolidated_format":1,"metadata":{"a//.zgroup":{"zarr_format":2}}} => BadMember: bad member metadata
{"zarr_consolidated_format":1,"metadata":{"/.zgroup":{"zarr_format":2}}} => BadMember: bad member metadata
{"zarr_consolidated_format":1,"metadata":{"__a/.zgroup":{"zarr_format":2}}} => BadMember: bad member metadata
{"zarr_consolidated_format":1,"metadata":{"a/../.zattrs":{}}} => BadMember: bad member metadata
{"zarr_consolidated_format":1,"metadata":{"a/.zarray":{}}} => BadMember: bad member metadata
{"zarr_consolidated_format":1,"metadata":{"a/.zgroup":{"zarr_format":3}}} => BadMember: bad member metadata
{"zarr_consolidated_format":1,"metadata":{"a/.zgroup":null}} => BadMember: bad member metadata
{"zarr_consolidated_format":1,"metadata":{"a/.zgroup":{"zarr_format":2},"a/.zattrs":[]}} => BadMember: bad member metadata
{"zarr_consolidated_format":1,"metadata":{"a/.zarray":{},"a/.zgroup":{"zarr_format":2}}} => BadMember: bad member metadata
{"zarr_consolidated_format":1,"metadata":{"a/.zgroup":{"zarr_format":2},"b/.zgroup":{}}} => BadMember: bad member metadata
# Groups have the attributes beside them.
{"zarr_consolidated_format":1,"metadata":{"x/y/.zgroup":{"zarr_format":2}}} => x/y {"zarr_format":2};
{"zarr_consolidated_format":1,"metadata":{"a/.zattrs":{"k":1},"a/.zgroup":{"zarr_format":2}}} => a {"attributes":{"k":1},"zarr_format":2};
{"zarr_consolidated_format":1,"metadata":{"a-b/.zgroup":{"zarr_format":2},"a/.zgroup":{"zarr_format":2},"a/c/.zgroup":{"zarr_format":2},".zgroup":{}}} => a {"zarr_format":2};a-b {"zarr_format":2};a/c {"zarr_format":2};
# Documents of a path may stand apart: those of `a/.zb` stand between the attributes of `a` and its `.zgroup`.
{"zarr_consolidated_format":1,"metadata":{"a/.zattrs":{"k":1},"a/.zb/.zgroup":{"zarr_format":2},"a/.zgroup":{"zarr_format":2}}} => a {"attributes":{"k":1},"zarr_format":2};a/.zb {"zarr_format":2};
# An array counts before a group.
{"zarr_consolidated_format":1,"metadata":{"a/.zgroup":{"zarr_format":2},"a/.zattrs":{"k":1},"a/.zarray":{"chunks":[1],"compressor":null,"dtype":"<f8","fill_value":"NaN","filters":null,"order":"C","shape":[1],"zarr_format":2}}} => a {"attributes":{"k":1},"chunks":[1],"compressor":null,"dimension_separator":".","dtype":"<f8","fill_value":"NaN","filters":null,"order":"C","shape":[1],"zarr_format":2};
{"zarr_consolidated_format":1,"metadata":{"a/.zarray":{"chunks":[2],"compressor":null,"dimension_separator":".","dtype":"<f8","fill_value":0,"filters":null,"order":"C","shape":[4],"zarr_format":2},"a/.zattrs":{"k":1},"a/.zgroup":{"zarr_format":2}}} => a {"attributes":{"k":1},"chunks":[2],"compressor":null,"dimension_separator":".","dtype":"<f8","fill_value":0,"filters":null,"order":"C","shape":[4],"zarr_format":2};
{"zarr_consolidated_format":1,"metadata":{"a/.zarray":{"chunks":[2],"compressor":null,"dimension_separator":".","dtype":"<f8","fill_value":0,"filters":null,"order":"C","shape":[4],"zarr_format":2},"a/.zattrs":{"k":1},"a/.zgroup":[]}} => a {"attributes":{"k":1},"chunks":[2],"compressor":null,"dimension_separator":".","dtype":"<f8","fill_value":0,"filters":null,"order":"C","shape":[4],"zarr_format":2};
# Documents as other programs write them are read.
zarr-python => outer {"zarr_format":2};outer/inner {"attributes":{"unit":"m"},"chunks":[10,20],"compressor":{"blocksize":0,"clevel":5,"cname":"lz4","id":"blosc","shuffle":1},"dimension_separator":".","dtype":"<i4","fill_value":0,"filters":[{"dtype":"<i4","id":"delta"}],"order":"C","shape":[100,200],"zarr_format":2};
GDAL => sub {"zarr_format":2};sub/band {"attributes":{"_ARRAY_DIMENSIONS":["y","x"],"_CRS":{"url":"http://www.opengis.net/def/crs/EPSG/0/26711"}},"chunks":[1,256],"compressor":{"id":"zlib","level":6},"dimension_separator":".","dtype":"<u2","fill_value":"NaN","filters":[{"astype":"<u2","dtype":"<u2","id":"delta"}],"order":"C","shape":[2,512],"zarr_format":2};y {"attributes":{"_ARRAY_DIMENSIONS":["y"]},"chunks":[2],"compressor":null,"dimension_separator":".","dtype":"<f8","fill_value":null,"filters":null,"order":"C","shape":[2],"zarr_format":2};
netCDF-C => t {"attributes":{"_nczarr_array":{"dimension_references":["/t"],"storage":"chunked"},"_nczarr_attr":{"types":{"units":"<S1"}},"units":"s"},"chunks":[4],"compressor":{"id":"zlib","level":1},"dimension_separator":".","dtype":"<i4","fill_value":-2147483647,"filters":[{"elementsize":4,"id":"shuffle"}],"order":"C","shape":[4],"zarr_format":2};
"#;

// The keys of a block, each with the text of its metadata and a semicolon.
pub(crate) fn nodes_text(
    block: &ConsolidatedMetadata,
    alloc: Global,
) -> Result<String, AllocError> {
    let mut text = String::new(alloc);
    for (key, node) in block.metadata.as_map().iter() {
        let node = node.to_text(alloc)?;
        write!(text, "{key} {node};")?;
    }
    Ok(text)
}

// What a document is read as by reference.
fn read(alloc: Global, given: &str) -> Result<String, AllocError> {
    match Value::from_slice(alloc, document(given).as_bytes()) {
        Ok(value) => said(
            alloc,
            ConsolidatedMetadata::from_zmetadata(alloc, &value),
            nodes_text,
        ),
        Err(_) => String::from_str(alloc, "not JSON"),
    }
}

// What a document is read as by value.
fn read_owned(alloc: Global, given: &str) -> Result<String, AllocError> {
    match Value::from_slice(alloc, document(given).as_bytes()) {
        Ok(value) => {
            said(
                alloc,
                ConsolidatedMetadata::from_owned_zmetadata(alloc, value),
                nodes_text,
            )
        }
        Err(_) => String::from_str(alloc, "not JSON"),
    }
}

#[test]
fn documents_are_read_by_reference(rt: HostRuntime) -> Result<(), Fail> {
    check_rows(rt.alloc(), DOCUMENTS, read)
}

#[test]
fn documents_are_read_by_value(rt: HostRuntime) -> Result<(), Fail> {
    check_rows(rt.alloc(), DOCUMENTS, read_owned)
}

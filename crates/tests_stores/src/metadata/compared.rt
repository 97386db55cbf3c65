//! Metadata that were read from documents, in whole numbers and in any, and groups that were made by hand, compared.

use serde_json::Value;
use std::alloc::{AllocError, Global};
use std::test::Fail;
use tests_support::{check_rows, fields, made, said};
use zarrs_compare::is_same_metadata;
use zarrs_fault::Numbers;
use zarrs_meta::{Document, GroupMetadata, GroupMetadataV3, NodeMetadata, Object};

// ---- documents

// Two documents, and whether their metadata are the same.
const GROUPS: &str = r#"
# version 3
{"node_type":"group","zarr_format":3} | {"zarr_format":3,"node_type":"group"} => true
{"node_type":"group","zarr_format":3} | {"zarr_format":3,"node_type":"group","attributes":{}} => true
{"node_type":"group","zarr_format":3,"attributes":{"a":[1,"x"],"b":null}} | {"node_type":"group","zarr_format":3,"attributes":{"b":null,"a":[1,"x"]}} => true
{"node_type":"group","zarr_format":3,"attributes":{"a":1}} | {"node_type":"group","zarr_format":3,"attributes":{"a":2}} => false
{"node_type":"group","zarr_format":3,"attributes":{"a":1}} | {"node_type":"group","zarr_format":3,"attributes":{"b":1}} => false
{"node_type":"group","zarr_format":3,"attributes":{"a":1}} | {"node_type":"group","zarr_format":3,"attributes":{"a":1,"b":1}} => false
{"node_type":"group","zarr_format":3,"attributes":{"a":1,"b":1}} | {"node_type":"group","zarr_format":3,"attributes":{"a":1}} => false
{"node_type":"group","zarr_format":3,"attributes":{"a":1}} | {"node_type":"group","zarr_format":3} => false
{"node_type":"group","zarr_format":3,"x":{"must_understand":false}} | {"node_type":"group","zarr_format":3,"x":{"must_understand":false}} => true
{"node_type":"group","zarr_format":3,"x":{"must_understand":false}} | {"node_type":"group","zarr_format":3,"x":{"must_understand":true}} => false
{"node_type":"group","zarr_format":3,"x":1} | {"node_type":"group","zarr_format":3} => false
# values
{"node_type":"group","zarr_format":3,"attributes":{"a":18446744073709551615}} | {"node_type":"group","zarr_format":3,"attributes":{"a":18446744073709551615}} => true
{"node_type":"group","zarr_format":3,"attributes":{"a":-9223372036854775808}} | {"node_type":"group","zarr_format":3,"attributes":{"a":-9223372036854775808}} => true
{"node_type":"group","zarr_format":3,"attributes":{"a":-1}} | {"node_type":"group","zarr_format":3,"attributes":{"a":1}} => false
{"node_type":"group","zarr_format":3,"attributes":{"a":1}} | {"node_type":"group","zarr_format":3,"attributes":{"a":-1}} => false
{"node_type":"group","zarr_format":3,"attributes":{"a":1}} | {"node_type":"group","zarr_format":3,"attributes":{"a":"1"}} => false
{"node_type":"group","zarr_format":3,"attributes":{"a":true}} | {"node_type":"group","zarr_format":3,"attributes":{"a":true}} => true
{"node_type":"group","zarr_format":3,"attributes":{"a":true}} | {"node_type":"group","zarr_format":3,"attributes":{"a":false}} => false
{"node_type":"group","zarr_format":3,"attributes":{"a":null}} | {"node_type":"group","zarr_format":3,"attributes":{"a":[]}} => false
{"node_type":"group","zarr_format":3,"attributes":{"a":[]}} | {"node_type":"group","zarr_format":3,"attributes":{"a":{}}} => false
{"node_type":"group","zarr_format":3,"attributes":{"a":[1,2]}} | {"node_type":"group","zarr_format":3,"attributes":{"a":[2,1]}} => false
{"node_type":"group","zarr_format":3,"attributes":{"a":[1]}} | {"node_type":"group","zarr_format":3,"attributes":{"a":[1,1]}} => false
{"node_type":"group","zarr_format":3,"attributes":{"a":[1,1]}} | {"node_type":"group","zarr_format":3,"attributes":{"a":[1]}} => false
{"node_type":"group","zarr_format":3,"attributes":{"a":{"b":{"c":"é"}}}} | {"node_type":"group","zarr_format":3,"attributes":{"a":{"b":{"c":"\u00e9"}}}} => true
{"node_type":"group","zarr_format":3,"attributes":{"a":{"b":{"c":"é"}}}} | {"node_type":"group","zarr_format":3,"attributes":{"a":{"b":{"c":"e"}}}} => false
# the field `consolidated_metadata`
{"node_type":"group","zarr_format":3,"consolidated_metadata":{"kind":"inline","must_understand":false,"metadata":{}}} | {"node_type":"group","zarr_format":3} => true
{"node_type":"group","zarr_format":3} | {"node_type":"group","zarr_format":3,"consolidated_metadata":{"kind":"inline","must_understand":false,"metadata":{}}} => true
{"node_type":"group","zarr_format":3,"consolidated_metadata":{"metadata":{"a":1}}} | {"node_type":"group","zarr_format":3,"consolidated_metadata":{"metadata":{}}} => true
{"node_type":"group","zarr_format":3,"consolidated_metadata":1,"a":1,"z":1} | {"node_type":"group","zarr_format":3,"a":1,"z":1} => true
{"node_type":"group","zarr_format":3,"consolidated_metadata":1,"a":1} | {"node_type":"group","zarr_format":3,"a":1,"z":1} => false
{"node_type":"group","zarr_format":3,"a":1} | {"node_type":"group","zarr_format":3,"consolidated_metadata":1,"a":1,"z":1} => false
{"node_type":"group","zarr_format":3,"consolidated_metadata":1,"z":1} | {"node_type":"group","zarr_format":3,"consolidated_metadata":1,"z":2} => false
{"node_type":"group","zarr_format":3,"attributes":{"consolidated_metadata":1}} | {"node_type":"group","zarr_format":3} => false
# version 2
{"zarr_format":2} | {"zarr_format":2} => true
{"zarr_format":2,"attributes":{"a":1}} | {"zarr_format":2,"attributes":{"a":1}} => true
{"zarr_format":2,"attributes":{"a":1}} | {"zarr_format":2,"attributes":{"a":2}} => false
{"zarr_format":2,"x":1} | {"zarr_format":2,"x":1} => true
{"zarr_format":2,"x":1} | {"zarr_format":2} => false
# zarr-python 3 writes an empty block into the entries of groups of version 2 too
{"zarr_format":2,"consolidated_metadata":{"metadata":{},"must_understand":false,"kind":"inline"}} | {"zarr_format":2} => true
{"zarr_format":2} | {"zarr_format":2,"consolidated_metadata":{"metadata":{},"must_understand":false,"kind":"inline"}} => true
{"zarr_format":2,"consolidated_metadata":1} | {"zarr_format":2} => true
{"zarr_format":2,"a":1,"consolidated_metadata":1,"z":1} | {"zarr_format":2,"a":1,"z":1} => true
{"zarr_format":2,"a":1,"consolidated_metadata":1} | {"zarr_format":2,"a":1,"z":1} => false
{"zarr_format":2,"consolidated_metadata":1,"z":1} | {"zarr_format":2,"consolidated_metadata":1,"z":2} => false
{"zarr_format":2,"attributes":{"consolidated_metadata":1}} | {"zarr_format":2} => false
# versions
{"node_type":"group","zarr_format":3} | {"zarr_format":2} => false
{"zarr_format":2} | {"node_type":"group","zarr_format":3} => false
"#;

const ARRAYS: &str = r#"
# version 3
{"node_type":"array","zarr_format":3,"shape":[1],"data_type":"float32","chunk_grid":{"name":"regular","configuration":{"chunk_shape":[1]}},"chunk_key_encoding":{"name":"default"},"fill_value":0,"codecs":[{"name":"bytes","configuration":{"endian":"little"}}]} | {"codecs":[{"name":"bytes","configuration":{"endian":"little"}}],"fill_value":0,"chunk_key_encoding":{"name":"default"},"chunk_grid":{"name":"regular","configuration":{"chunk_shape":[1]}},"data_type":"float32","shape":[1],"zarr_format":3,"node_type":"array"} => true
{"node_type":"array","zarr_format":3,"shape":[1],"data_type":"float32","chunk_grid":{"name":"regular","configuration":{"chunk_shape":[1]}},"chunk_key_encoding":{"name":"default"},"fill_value":0,"codecs":[{"name":"bytes","configuration":{"endian":"little"}}]} | {"node_type":"array","zarr_format":3,"shape":[2],"data_type":"float32","chunk_grid":{"name":"regular","configuration":{"chunk_shape":[1]}},"chunk_key_encoding":{"name":"default"},"fill_value":0,"codecs":[{"name":"bytes","configuration":{"endian":"little"}}]} => false
{"node_type":"array","zarr_format":3,"shape":[1],"data_type":"float32","chunk_grid":{"name":"regular","configuration":{"chunk_shape":[1]}},"chunk_key_encoding":{"name":"default"},"fill_value":0,"codecs":[{"name":"bytes","configuration":{"endian":"little"}}]} | {"node_type":"array","zarr_format":3,"shape":[1,1],"data_type":"float32","chunk_grid":{"name":"regular","configuration":{"chunk_shape":[1]}},"chunk_key_encoding":{"name":"default"},"fill_value":0,"codecs":[{"name":"bytes","configuration":{"endian":"little"}}]} => false
{"node_type":"array","zarr_format":3,"shape":[1],"data_type":"float32","chunk_grid":{"name":"regular","configuration":{"chunk_shape":[1]}},"chunk_key_encoding":{"name":"default"},"fill_value":0,"codecs":[{"name":"bytes","configuration":{"endian":"little"}}]} | {"node_type":"array","zarr_format":3,"shape":[1],"data_type":"float64","chunk_grid":{"name":"regular","configuration":{"chunk_shape":[1]}},"chunk_key_encoding":{"name":"default"},"fill_value":0,"codecs":[{"name":"bytes","configuration":{"endian":"little"}}]} => false
{"node_type":"array","zarr_format":3,"shape":[1],"data_type":"float32","chunk_grid":{"name":"regular","configuration":{"chunk_shape":[1]}},"chunk_key_encoding":{"name":"default"},"fill_value":0,"codecs":[{"name":"bytes","configuration":{"endian":"little"}}]} | {"node_type":"array","zarr_format":3,"shape":[1],"data_type":{"name":"float32"},"chunk_grid":{"name":"regular","configuration":{"chunk_shape":[1]}},"chunk_key_encoding":{"name":"default"},"fill_value":0,"codecs":[{"name":"bytes","configuration":{"endian":"little"}}]} => true
{"node_type":"array","zarr_format":3,"shape":[1],"data_type":"float32","chunk_grid":{"name":"regular","configuration":{"chunk_shape":[1]}},"chunk_key_encoding":{"name":"default"},"fill_value":0,"codecs":[{"name":"bytes","configuration":{"endian":"little"}}]} | {"node_type":"array","zarr_format":3,"shape":[1],"data_type":"float32","chunk_grid":{"name":"regular","configuration":{"chunk_shape":[2]}},"chunk_key_encoding":{"name":"default"},"fill_value":0,"codecs":[{"name":"bytes","configuration":{"endian":"little"}}]} => false
{"node_type":"array","zarr_format":3,"shape":[1],"data_type":"float32","chunk_grid":{"name":"regular","configuration":{"chunk_shape":[1]}},"chunk_key_encoding":{"name":"default"},"fill_value":0,"codecs":[{"name":"bytes","configuration":{"endian":"little"}}]} | {"node_type":"array","zarr_format":3,"shape":[1],"data_type":"float32","chunk_grid":{"name":"regular","configuration":{"chunk_shape":[1]}},"chunk_key_encoding":{"name":"v2"},"fill_value":0,"codecs":[{"name":"bytes","configuration":{"endian":"little"}}]} => false
{"node_type":"array","zarr_format":3,"shape":[1],"data_type":"float32","chunk_grid":{"name":"regular","configuration":{"chunk_shape":[1]}},"chunk_key_encoding":{"name":"default"},"fill_value":0,"codecs":[{"name":"bytes","configuration":{"endian":"little"}}]} | {"node_type":"array","zarr_format":3,"shape":[1],"data_type":"float32","chunk_grid":{"name":"regular","configuration":{"chunk_shape":[1]}},"chunk_key_encoding":{"name":"default","must_understand":false},"fill_value":0,"codecs":[{"name":"bytes","configuration":{"endian":"little"}}]} => false
{"node_type":"array","zarr_format":3,"shape":[1],"data_type":"float32","chunk_grid":{"name":"regular","configuration":{"chunk_shape":[1]}},"chunk_key_encoding":{"name":"default"},"fill_value":0,"codecs":[{"name":"bytes","configuration":{"endian":"little"}}]} | {"node_type":"array","zarr_format":3,"shape":[1],"data_type":"float32","chunk_grid":{"name":"regular","configuration":{"chunk_shape":[1]}},"chunk_key_encoding":{"name":"default"},"fill_value":1,"codecs":[{"name":"bytes","configuration":{"endian":"little"}}]} => false
{"node_type":"array","zarr_format":3,"shape":[1],"data_type":"float32","chunk_grid":{"name":"regular","configuration":{"chunk_shape":[1]}},"chunk_key_encoding":{"name":"default"},"fill_value":0,"codecs":[{"name":"bytes","configuration":{"endian":"little"}}]} | {"node_type":"array","zarr_format":3,"shape":[1],"data_type":"float32","chunk_grid":{"name":"regular","configuration":{"chunk_shape":[1]}},"chunk_key_encoding":{"name":"default"},"fill_value":0,"codecs":[{"name":"bytes","configuration":{"endian":"big"}}]} => false
{"node_type":"array","zarr_format":3,"shape":[1],"data_type":"float32","chunk_grid":{"name":"regular","configuration":{"chunk_shape":[1]}},"chunk_key_encoding":{"name":"default"},"fill_value":0,"codecs":[{"name":"bytes","configuration":{"endian":"little"}}]} | {"node_type":"array","zarr_format":3,"shape":[1],"data_type":"float32","chunk_grid":{"name":"regular","configuration":{"chunk_shape":[1]}},"chunk_key_encoding":{"name":"default"},"fill_value":0,"codecs":["bytes"]} => false
{"node_type":"array","zarr_format":3,"shape":[1],"data_type":"float32","chunk_grid":{"name":"regular","configuration":{"chunk_shape":[1]}},"chunk_key_encoding":{"name":"default"},"fill_value":0,"codecs":[{"name":"bytes","configuration":{"endian":"little"}}]} | {"node_type":"array","zarr_format":3,"shape":[1],"data_type":"float32","chunk_grid":{"name":"regular","configuration":{"chunk_shape":[1]}},"chunk_key_encoding":{"name":"default"},"fill_value":0,"codecs":[{"name":"bytes","configuration":{"endian":"little"}},"crc32c"]} => false
{"node_type":"array","zarr_format":3,"shape":[1],"data_type":"float32","chunk_grid":{"name":"regular","configuration":{"chunk_shape":[1]}},"chunk_key_encoding":{"name":"default"},"fill_value":0,"codecs":["bytes"]} | {"node_type":"array","zarr_format":3,"shape":[1],"data_type":"float32","chunk_grid":{"name":"regular","configuration":{"chunk_shape":[1]}},"chunk_key_encoding":{"name":"default"},"fill_value":0,"codecs":[{"name":"bytes","configuration":null}]} => true
{"node_type":"array","zarr_format":3,"shape":[1],"data_type":"float32","chunk_grid":{"name":"regular","configuration":{"chunk_shape":[1]}},"chunk_key_encoding":{"name":"default"},"fill_value":0,"codecs":[{"name":"bytes","configuration":{"endian":"little"}}]} | {"node_type":"array","zarr_format":3,"shape":[1],"data_type":"float32","chunk_grid":{"name":"regular","configuration":{"chunk_shape":[1]}},"chunk_key_encoding":{"name":"default"},"fill_value":0,"codecs":[{"name":"bytes","configuration":{"endian":"little"}}],"attributes":{"a":1}} => false
{"node_type":"array","zarr_format":3,"shape":[1],"data_type":"float32","chunk_grid":{"name":"regular","configuration":{"chunk_shape":[1]}},"chunk_key_encoding":{"name":"default"},"fill_value":0,"codecs":[{"name":"bytes","configuration":{"endian":"little"}}],"attributes":{"a":1}} | {"node_type":"array","zarr_format":3,"shape":[1],"data_type":"float32","chunk_grid":{"name":"regular","configuration":{"chunk_shape":[1]}},"chunk_key_encoding":{"name":"default"},"fill_value":0,"codecs":[{"name":"bytes","configuration":{"endian":"little"}}],"attributes":{"a":1}} => true
{"node_type":"array","zarr_format":3,"shape":[1],"data_type":"float32","chunk_grid":{"name":"regular","configuration":{"chunk_shape":[1]}},"chunk_key_encoding":{"name":"default"},"fill_value":0,"codecs":[{"name":"bytes","configuration":{"endian":"little"}}]} | {"node_type":"array","zarr_format":3,"shape":[1],"data_type":"float32","chunk_grid":{"name":"regular","configuration":{"chunk_shape":[1]}},"chunk_key_encoding":{"name":"default"},"fill_value":0,"codecs":[{"name":"bytes","configuration":{"endian":"little"}}],"storage_transformers":[]} => true
{"node_type":"array","zarr_format":3,"shape":[1],"data_type":"float32","chunk_grid":{"name":"regular","configuration":{"chunk_shape":[1]}},"chunk_key_encoding":{"name":"default"},"fill_value":0,"codecs":[{"name":"bytes","configuration":{"endian":"little"}}]} | {"node_type":"array","zarr_format":3,"shape":[1],"data_type":"float32","chunk_grid":{"name":"regular","configuration":{"chunk_shape":[1]}},"chunk_key_encoding":{"name":"default"},"fill_value":0,"codecs":[{"name":"bytes","configuration":{"endian":"little"}}],"storage_transformers":["x"]} => false
{"node_type":"array","zarr_format":3,"shape":[1],"data_type":"float32","chunk_grid":{"name":"regular","configuration":{"chunk_shape":[1]}},"chunk_key_encoding":{"name":"default"},"fill_value":0,"codecs":[{"name":"bytes","configuration":{"endian":"little"}}]} | {"node_type":"array","zarr_format":3,"shape":[1],"data_type":"float32","chunk_grid":{"name":"regular","configuration":{"chunk_shape":[1]}},"chunk_key_encoding":{"name":"default"},"fill_value":0,"codecs":[{"name":"bytes","configuration":{"endian":"little"}}],"dimension_names":null} => true
{"node_type":"array","zarr_format":3,"shape":[1],"data_type":"float32","chunk_grid":{"name":"regular","configuration":{"chunk_shape":[1]}},"chunk_key_encoding":{"name":"default"},"fill_value":0,"codecs":[{"name":"bytes","configuration":{"endian":"little"}}]} | {"node_type":"array","zarr_format":3,"shape":[1],"data_type":"float32","chunk_grid":{"name":"regular","configuration":{"chunk_shape":[1]}},"chunk_key_encoding":{"name":"default"},"fill_value":0,"codecs":[{"name":"bytes","configuration":{"endian":"little"}}],"dimension_names":["x"]} => false
{"node_type":"array","zarr_format":3,"shape":[1],"data_type":"float32","chunk_grid":{"name":"regular","configuration":{"chunk_shape":[1]}},"chunk_key_encoding":{"name":"default"},"fill_value":0,"codecs":[{"name":"bytes","configuration":{"endian":"little"}}],"dimension_names":["x"]} | {"node_type":"array","zarr_format":3,"shape":[1],"data_type":"float32","chunk_grid":{"name":"regular","configuration":{"chunk_shape":[1]}},"chunk_key_encoding":{"name":"default"},"fill_value":0,"codecs":[{"name":"bytes","configuration":{"endian":"little"}}],"dimension_names":["x"]} => true
{"node_type":"array","zarr_format":3,"shape":[1],"data_type":"float32","chunk_grid":{"name":"regular","configuration":{"chunk_shape":[1]}},"chunk_key_encoding":{"name":"default"},"fill_value":0,"codecs":[{"name":"bytes","configuration":{"endian":"little"}}],"dimension_names":["x"]} | {"node_type":"array","zarr_format":3,"shape":[1],"data_type":"float32","chunk_grid":{"name":"regular","configuration":{"chunk_shape":[1]}},"chunk_key_encoding":{"name":"default"},"fill_value":0,"codecs":[{"name":"bytes","configuration":{"endian":"little"}}],"dimension_names":[null]} => false
{"node_type":"array","zarr_format":3,"shape":[1],"data_type":"float32","chunk_grid":{"name":"regular","configuration":{"chunk_shape":[1]}},"chunk_key_encoding":{"name":"default"},"fill_value":0,"codecs":[{"name":"bytes","configuration":{"endian":"little"}}],"dimension_names":[null]} | {"node_type":"array","zarr_format":3,"shape":[1],"data_type":"float32","chunk_grid":{"name":"regular","configuration":{"chunk_shape":[1]}},"chunk_key_encoding":{"name":"default"},"fill_value":0,"codecs":[{"name":"bytes","configuration":{"endian":"little"}}],"dimension_names":[null]} => true
{"node_type":"array","zarr_format":3,"shape":[1],"data_type":"float32","chunk_grid":{"name":"regular","configuration":{"chunk_shape":[1]}},"chunk_key_encoding":{"name":"default"},"fill_value":0,"codecs":[{"name":"bytes","configuration":{"endian":"little"}}],"x":1} | {"node_type":"array","zarr_format":3,"shape":[1],"data_type":"float32","chunk_grid":{"name":"regular","configuration":{"chunk_shape":[1]}},"chunk_key_encoding":{"name":"default"},"fill_value":0,"codecs":[{"name":"bytes","configuration":{"endian":"little"}}],"x":1} => true
{"node_type":"array","zarr_format":3,"shape":[1],"data_type":"float32","chunk_grid":{"name":"regular","configuration":{"chunk_shape":[1]}},"chunk_key_encoding":{"name":"default"},"fill_value":0,"codecs":[{"name":"bytes","configuration":{"endian":"little"}}]} | {"node_type":"array","zarr_format":3,"shape":[1],"data_type":"float32","chunk_grid":{"name":"regular","configuration":{"chunk_shape":[1]}},"chunk_key_encoding":{"name":"default"},"fill_value":0,"codecs":[{"name":"bytes","configuration":{"endian":"little"}}],"x":1} => false
{"node_type":"array","zarr_format":3,"shape":[1],"data_type":"float32","chunk_grid":{"name":"regular","configuration":{"chunk_shape":[1]}},"chunk_key_encoding":{"name":"default"},"fill_value":0,"codecs":[{"name":"bytes","configuration":{"endian":"little"}}]} | {"node_type":"array","zarr_format":3,"shape":[1],"data_type":"float32","chunk_grid":{"name":"regular","configuration":{"chunk_shape":[1]}},"chunk_key_encoding":{"name":"default"},"fill_value":0,"codecs":[{"name":"bytes","configuration":{"endian":"little"}}],"consolidated_metadata":1} => false
# version 2
{"zarr_format":2,"shape":[1],"chunks":[1],"dtype":"<f8","fill_value":"NaN","order":"C","compressor":null,"filters":null} | {"zarr_format":2,"shape":[1],"chunks":[1],"dtype":"<f8","fill_value":"NaN","order":"C","compressor":null,"filters":null} => true
{"zarr_format":2,"shape":[1],"chunks":[1],"dtype":"<f8","fill_value":"NaN","order":"C","compressor":null,"filters":null} | {"zarr_format":2,"shape":[1],"chunks":[1],"dtype":"<f8","fill_value":"NaN","order":"C"} => true
{"zarr_format":2,"shape":[1],"chunks":[1],"dtype":"<f8","fill_value":"NaN","order":"C","compressor":null,"filters":null} | {"zarr_format":2,"shape":[1],"chunks":[1],"dtype":"<f8","fill_value":"NaN","order":"C","compressor":null,"filters":null,"dimension_separator":"."} => true
{"zarr_format":2,"shape":[1],"chunks":[1],"dtype":"<f8","fill_value":"NaN","order":"C","compressor":null,"filters":null} | {"zarr_format":2,"shape":[1],"chunks":[1],"dtype":"<f8","fill_value":"NaN","order":"C","compressor":null,"filters":null,"dimension_separator":"/"} => false
{"zarr_format":2,"shape":[1],"chunks":[1],"dtype":"<f8","fill_value":"NaN","order":"C","compressor":null,"filters":null} | {"zarr_format":2,"shape":[2],"chunks":[1],"dtype":"<f8","fill_value":"NaN","order":"C","compressor":null,"filters":null} => false
{"zarr_format":2,"shape":[1],"chunks":[1],"dtype":"<f8","fill_value":"NaN","order":"C","compressor":null,"filters":null} | {"zarr_format":2,"shape":[1],"chunks":[2],"dtype":"<f8","fill_value":"NaN","order":"C","compressor":null,"filters":null} => false
{"zarr_format":2,"shape":[1],"chunks":[1],"dtype":"<f8","fill_value":"NaN","order":"C","compressor":null,"filters":null} | {"zarr_format":2,"shape":[1],"chunks":[1],"dtype":"<f4","fill_value":"NaN","order":"C","compressor":null,"filters":null} => false
{"zarr_format":2,"shape":[1],"chunks":[1],"dtype":"<f8","fill_value":"NaN","order":"C","compressor":null,"filters":null} | {"zarr_format":2,"shape":[1],"chunks":[1],"dtype":[["a","<f4"]],"fill_value":"NaN","order":"C","compressor":null,"filters":null} => false
{"zarr_format":2,"shape":[1],"chunks":[1],"dtype":[["a","<f4"]],"fill_value":"NaN","order":"C","compressor":null,"filters":null} | {"zarr_format":2,"shape":[1],"chunks":[1],"dtype":[["a","<f4"]],"fill_value":"NaN","order":"C","compressor":null,"filters":null} => true
{"zarr_format":2,"shape":[1],"chunks":[1],"dtype":[["a","<f4"]],"fill_value":"NaN","order":"C","compressor":null,"filters":null} | {"zarr_format":2,"shape":[1],"chunks":[1],"dtype":[["b","<f4"]],"fill_value":"NaN","order":"C","compressor":null,"filters":null} => false
{"zarr_format":2,"shape":[1],"chunks":[1],"dtype":"<f8","fill_value":"NaN","order":"C","compressor":null,"filters":null} | {"zarr_format":2,"shape":[1],"chunks":[1],"dtype":"<f8","fill_value":null,"order":"C","compressor":null,"filters":null} => false
{"zarr_format":2,"shape":[1],"chunks":[1],"dtype":"<f8","fill_value":"NaN","order":"C","compressor":null,"filters":null} | {"zarr_format":2,"shape":[1],"chunks":[1],"dtype":"<f8","fill_value":"NaN","order":"F","compressor":null,"filters":null} => false
{"zarr_format":2,"shape":[1],"chunks":[1],"dtype":"<f8","fill_value":"NaN","order":"F","compressor":null,"filters":null} | {"zarr_format":2,"shape":[1],"chunks":[1],"dtype":"<f8","fill_value":"NaN","order":"F","compressor":null,"filters":null} => true
{"zarr_format":2,"shape":[1],"chunks":[1],"dtype":"<f8","fill_value":"NaN","order":"C","compressor":null,"filters":null} | {"zarr_format":2,"shape":[1],"chunks":[1],"dtype":"<f8","fill_value":"NaN","order":"C","compressor":{"id":"zlib","level":1},"filters":null} => false
{"zarr_format":2,"shape":[1],"chunks":[1],"dtype":"<f8","fill_value":"NaN","order":"C","compressor":{"id":"zlib","level":1},"filters":null} | {"zarr_format":2,"shape":[1],"chunks":[1],"dtype":"<f8","fill_value":"NaN","order":"C","compressor":{"level":1,"id":"zlib"},"filters":null} => true
{"zarr_format":2,"shape":[1],"chunks":[1],"dtype":"<f8","fill_value":"NaN","order":"C","compressor":{"id":"zlib","level":1},"filters":null} | {"zarr_format":2,"shape":[1],"chunks":[1],"dtype":"<f8","fill_value":"NaN","order":"C","compressor":{"id":"zlib","level":2},"filters":null} => false
{"zarr_format":2,"shape":[1],"chunks":[1],"dtype":"<f8","fill_value":"NaN","order":"C","compressor":{"id":"zlib","level":1},"filters":null} | {"zarr_format":2,"shape":[1],"chunks":[1],"dtype":"<f8","fill_value":"NaN","order":"C","compressor":{"id":"gzip","level":1},"filters":null} => false
{"zarr_format":2,"shape":[1],"chunks":[1],"dtype":"<f8","fill_value":"NaN","order":"C","compressor":null,"filters":null} | {"zarr_format":2,"shape":[1],"chunks":[1],"dtype":"<f8","fill_value":"NaN","order":"C","compressor":null,"filters":[]} => false
{"zarr_format":2,"shape":[1],"chunks":[1],"dtype":"<f8","fill_value":"NaN","order":"C","compressor":null,"filters":[{"id":"delta"}]} | {"zarr_format":2,"shape":[1],"chunks":[1],"dtype":"<f8","fill_value":"NaN","order":"C","compressor":null,"filters":[{"id":"delta"}]} => true
{"zarr_format":2,"shape":[1],"chunks":[1],"dtype":"<f8","fill_value":"NaN","order":"C","compressor":null,"filters":[{"id":"delta"}]} | {"zarr_format":2,"shape":[1],"chunks":[1],"dtype":"<f8","fill_value":"NaN","order":"C","compressor":null,"filters":[{"id":"shuffle"}]} => false
{"zarr_format":2,"shape":[1],"chunks":[1],"dtype":"<f8","fill_value":"NaN","order":"C","compressor":null,"filters":null} | {"zarr_format":2,"shape":[1],"chunks":[1],"dtype":"<f8","fill_value":"NaN","order":"C","compressor":null,"filters":null,"attributes":{"a":1}} => false
{"zarr_format":2,"shape":[1],"chunks":[1],"dtype":"<f8","fill_value":"NaN","order":"C","compressor":null,"filters":null} | {"zarr_format":2,"shape":[1],"chunks":[1],"dtype":"<f8","fill_value":"NaN","order":"C","compressor":null,"filters":null,"x":1} => false
{"zarr_format":2,"shape":[1],"chunks":[1],"dtype":"<f8","fill_value":"NaN","order":"C","compressor":null,"filters":null,"x":1} | {"zarr_format":2,"shape":[1],"chunks":[1],"dtype":"<f8","fill_value":"NaN","order":"C","compressor":null,"filters":null,"x":1} => true
# versions and kinds
{"node_type":"array","zarr_format":3,"shape":[1],"data_type":"float32","chunk_grid":{"name":"regular","configuration":{"chunk_shape":[1]}},"chunk_key_encoding":{"name":"default"},"fill_value":0,"codecs":[{"name":"bytes","configuration":{"endian":"little"}}]} | {"zarr_format":2,"shape":[1],"chunks":[1],"dtype":"<f8","fill_value":"NaN","order":"C","compressor":null,"filters":null} => false
{"zarr_format":2,"shape":[1],"chunks":[1],"dtype":"<f8","fill_value":"NaN","order":"C","compressor":null,"filters":null} | {"node_type":"array","zarr_format":3,"shape":[1],"data_type":"float32","chunk_grid":{"name":"regular","configuration":{"chunk_shape":[1]}},"chunk_key_encoding":{"name":"default"},"fill_value":0,"codecs":[{"name":"bytes","configuration":{"endian":"little"}}]} => false
{"node_type":"array","zarr_format":3,"shape":[1],"data_type":"float32","chunk_grid":{"name":"regular","configuration":{"chunk_shape":[1]}},"chunk_key_encoding":{"name":"default"},"fill_value":0,"codecs":[{"name":"bytes","configuration":{"endian":"little"}}]} | {"node_type":"group","zarr_format":3} => false
{"node_type":"group","zarr_format":3} | {"node_type":"array","zarr_format":3,"shape":[1],"data_type":"float32","chunk_grid":{"name":"regular","configuration":{"chunk_shape":[1]}},"chunk_key_encoding":{"name":"default"},"fill_value":0,"codecs":[{"name":"bytes","configuration":{"endian":"little"}}]} => false
{"zarr_format":2,"shape":[1],"chunks":[1],"dtype":"<f8","fill_value":"NaN","order":"C","compressor":null,"filters":null} | {"zarr_format":2} => false
{"zarr_format":2} | {"zarr_format":2,"shape":[1],"chunks":[1],"dtype":"<f8","fill_value":"NaN","order":"C","compressor":null,"filters":null} => false
"#;

// Whether the metadata of two documents are the same.
fn compared(alloc: Global, given: &str) -> Result<String, AllocError> {
    let (first, second) = fields(given);
    let second = second.as_bytes();
    said(
        alloc,
        NodeMetadata::from_bytes(alloc, first.as_bytes()),
        |first, alloc| {
            said(
                alloc,
                NodeMetadata::from_bytes(alloc, second),
                |second, alloc| { format!(in alloc; "{}", is_same_metadata(first, second)) },
            )
        },
    )
}

#[test]
fn groups_are_compared(rt: HostRuntime) -> Result<(), Fail> {
    check_rows(rt.alloc(), GROUPS, compared)
}

#[test]
fn arrays_are_compared(rt: HostRuntime) -> Result<(), Fail> {
    check_rows(rt.alloc(), ARRAYS, compared)
}

// ---- documents in any numbers

// Two documents whose numbers may be any, and whether their metadata are the same.
const FRACTIONS: &str = r#"
# fractions are the same by their bits
{"node_type":"group","zarr_format":3,"attributes":{"a":0.5}} | {"node_type":"group","zarr_format":3,"attributes":{"a":0.5}} => true
{"node_type":"group","zarr_format":3,"attributes":{"a":0.5}} | {"node_type":"group","zarr_format":3,"attributes":{"a":0.25}} => false
{"node_type":"group","zarr_format":3,"attributes":{"a":0.5}} | {"node_type":"group","zarr_format":3,"attributes":{"a":-0.5}} => false
{"node_type":"group","zarr_format":3,"attributes":{"a":1.50}} | {"node_type":"group","zarr_format":3,"attributes":{"a":1.5}} => true
{"node_type":"group","zarr_format":3,"attributes":{"a":6.37814e+06}} | {"node_type":"group","zarr_format":3,"attributes":{"a":6378140.0}} => true
{"node_type":"group","zarr_format":3,"attributes":{"a":1e2}} | {"node_type":"group","zarr_format":3,"attributes":{"a":100.0}} => true
{"node_type":"group","zarr_format":3,"attributes":{"a":0.1}} | {"node_type":"group","zarr_format":3,"attributes":{"a":0.1000000000000000055511151231257827}} => true
{"node_type":"group","zarr_format":3,"attributes":{"a":0.1}} | {"node_type":"group","zarr_format":3,"attributes":{"a":0.10000000000000002}} => false
{"node_type":"group","zarr_format":3,"attributes":{"a":1e300}} | {"node_type":"group","zarr_format":3,"attributes":{"a":1e300}} => true
{"node_type":"group","zarr_format":3,"attributes":{"a":5e-324}} | {"node_type":"group","zarr_format":3,"attributes":{"a":5e-324}} => true
{"node_type":"group","zarr_format":3,"attributes":{"a":5e-324}} | {"node_type":"group","zarr_format":3,"attributes":{"a":0.0}} => false
{"node_type":"group","zarr_format":3,"attributes":{"a":1e-400}} | {"node_type":"group","zarr_format":3,"attributes":{"a":0.0}} => true
# 0 and -0 have other bits
{"node_type":"group","zarr_format":3,"attributes":{"a":0.0}} | {"node_type":"group","zarr_format":3,"attributes":{"a":0.0}} => true
{"node_type":"group","zarr_format":3,"attributes":{"a":-0.0}} | {"node_type":"group","zarr_format":3,"attributes":{"a":-0.0}} => true
{"node_type":"group","zarr_format":3,"attributes":{"a":0.0}} | {"node_type":"group","zarr_format":3,"attributes":{"a":-0.0}} => false
{"node_type":"group","zarr_format":3,"attributes":{"a":-0.0}} | {"node_type":"group","zarr_format":3,"attributes":{"a":0.0}} => false
{"node_type":"group","zarr_format":3,"attributes":{"a":-0}} | {"node_type":"group","zarr_format":3,"attributes":{"a":-0.0}} => true
# a whole number is none with a fraction or an exponent
{"node_type":"group","zarr_format":3,"attributes":{"a":1}} | {"node_type":"group","zarr_format":3,"attributes":{"a":1.0}} => false
{"node_type":"group","zarr_format":3,"attributes":{"a":1.0}} | {"node_type":"group","zarr_format":3,"attributes":{"a":1}} => false
{"node_type":"group","zarr_format":3,"attributes":{"a":-1}} | {"node_type":"group","zarr_format":3,"attributes":{"a":-1.0}} => false
{"node_type":"group","zarr_format":3,"attributes":{"a":-1.0}} | {"node_type":"group","zarr_format":3,"attributes":{"a":-1}} => false
{"node_type":"group","zarr_format":3,"attributes":{"a":0}} | {"node_type":"group","zarr_format":3,"attributes":{"a":0.0}} => false
{"node_type":"group","zarr_format":3,"attributes":{"a":0}} | {"node_type":"group","zarr_format":3,"attributes":{"a":-0}} => false
{"node_type":"group","zarr_format":3,"attributes":{"a":100}} | {"node_type":"group","zarr_format":3,"attributes":{"a":1e2}} => false
# beyond 64 bits it is the nearest `f64`
{"node_type":"group","zarr_format":3,"attributes":{"a":18446744073709551616}} | {"node_type":"group","zarr_format":3,"attributes":{"a":18446744073709551616.0}} => true
{"node_type":"group","zarr_format":3,"attributes":{"a":18446744073709551616}} | {"node_type":"group","zarr_format":3,"attributes":{"a":18446744073709551617}} => true
{"node_type":"group","zarr_format":3,"attributes":{"a":18446744073709551615}} | {"node_type":"group","zarr_format":3,"attributes":{"a":18446744073709551616}} => false
{"node_type":"group","zarr_format":3,"attributes":{"a":-9223372036854775808}} | {"node_type":"group","zarr_format":3,"attributes":{"a":-9223372036854775809}} => false
# a fraction is no other value
{"node_type":"group","zarr_format":3,"attributes":{"a":0.5}} | {"node_type":"group","zarr_format":3,"attributes":{"a":"0.5"}} => false
{"node_type":"group","zarr_format":3,"attributes":{"a":0.5}} | {"node_type":"group","zarr_format":3,"attributes":{"a":null}} => false
{"node_type":"group","zarr_format":3,"attributes":{"a":[0.5]}} | {"node_type":"group","zarr_format":3,"attributes":{"a":0.5}} => false
{"node_type":"group","zarr_format":3,"attributes":{"a":[{"b":0.5}]}} | {"node_type":"group","zarr_format":3,"attributes":{"a":[{"b":0.5}]}} => true
{"node_type":"group","zarr_format":3,"attributes":{"a":[{"b":0.5}]}} | {"node_type":"group","zarr_format":3,"attributes":{"a":[{"b":0.25}]}} => false
# wherever a document may have one
{"node_type":"array","zarr_format":3,"shape":[1],"data_type":"float32","chunk_grid":{"name":"regular","configuration":{"chunk_shape":[1]}},"chunk_key_encoding":{"name":"default"},"fill_value":0.0,"codecs":[{"name":"bytes"}]} | {"node_type":"array","zarr_format":3,"shape":[1],"data_type":"float32","chunk_grid":{"name":"regular","configuration":{"chunk_shape":[1]}},"chunk_key_encoding":{"name":"default"},"fill_value":0.0,"codecs":[{"name":"bytes"}]} => true
{"node_type":"array","zarr_format":3,"shape":[1],"data_type":"float32","chunk_grid":{"name":"regular","configuration":{"chunk_shape":[1]}},"chunk_key_encoding":{"name":"default"},"fill_value":0.0,"codecs":[{"name":"bytes"}]} | {"node_type":"array","zarr_format":3,"shape":[1],"data_type":"float32","chunk_grid":{"name":"regular","configuration":{"chunk_shape":[1]}},"chunk_key_encoding":{"name":"default"},"fill_value":-0.0,"codecs":[{"name":"bytes"}]} => false
{"node_type":"array","zarr_format":3,"shape":[1],"data_type":"float32","chunk_grid":{"name":"regular","configuration":{"chunk_shape":[1]}},"chunk_key_encoding":{"name":"default"},"fill_value":0.0,"codecs":[{"name":"bytes"}]} | {"node_type":"array","zarr_format":3,"shape":[1],"data_type":"float32","chunk_grid":{"name":"regular","configuration":{"chunk_shape":[1]}},"chunk_key_encoding":{"name":"default"},"fill_value":0,"codecs":[{"name":"bytes"}]} => false
{"node_type":"array","zarr_format":3,"shape":[1],"data_type":"float32","chunk_grid":{"name":"regular","configuration":{"chunk_shape":[1]}},"chunk_key_encoding":{"name":"default"},"fill_value":0,"codecs":[{"name":"bytes","configuration":{"a":0.5}}]} | {"node_type":"array","zarr_format":3,"shape":[1],"data_type":"float32","chunk_grid":{"name":"regular","configuration":{"chunk_shape":[1]}},"chunk_key_encoding":{"name":"default"},"fill_value":0,"codecs":[{"name":"bytes","configuration":{"a":0.5}}]} => true
{"node_type":"array","zarr_format":3,"shape":[1],"data_type":"float32","chunk_grid":{"name":"regular","configuration":{"chunk_shape":[1]}},"chunk_key_encoding":{"name":"default"},"fill_value":0,"codecs":[{"name":"bytes","configuration":{"a":0.5}}]} | {"node_type":"array","zarr_format":3,"shape":[1],"data_type":"float32","chunk_grid":{"name":"regular","configuration":{"chunk_shape":[1]}},"chunk_key_encoding":{"name":"default"},"fill_value":0,"codecs":[{"name":"bytes","configuration":{"a":0.25}}]} => false
{"node_type":"array","zarr_format":3,"shape":[1],"data_type":"float32","chunk_grid":{"name":"regular","configuration":{"chunk_shape":[1]}},"chunk_key_encoding":{"name":"default"},"fill_value":0,"codecs":[{"name":"bytes"}],"x":0.5} | {"node_type":"array","zarr_format":3,"shape":[1],"data_type":"float32","chunk_grid":{"name":"regular","configuration":{"chunk_shape":[1]}},"chunk_key_encoding":{"name":"default"},"fill_value":0,"codecs":[{"name":"bytes"}],"x":0.5} => true
{"node_type":"array","zarr_format":3,"shape":[1],"data_type":"float32","chunk_grid":{"name":"regular","configuration":{"chunk_shape":[1]}},"chunk_key_encoding":{"name":"default"},"fill_value":0,"codecs":[{"name":"bytes"}],"x":0.5} | {"node_type":"array","zarr_format":3,"shape":[1],"data_type":"float32","chunk_grid":{"name":"regular","configuration":{"chunk_shape":[1]}},"chunk_key_encoding":{"name":"default"},"fill_value":0,"codecs":[{"name":"bytes"}],"x":0.25} => false
{"zarr_format":2,"shape":[1],"chunks":[1],"dtype":"<f8","fill_value":0.0,"order":"C","compressor":null,"filters":null} | {"zarr_format":2,"shape":[1],"chunks":[1],"dtype":"<f8","fill_value":0.0,"order":"C","compressor":null,"filters":null} => true
{"zarr_format":2,"shape":[1],"chunks":[1],"dtype":"<f8","fill_value":0.0,"order":"C","compressor":null,"filters":null} | {"zarr_format":2,"shape":[1],"chunks":[1],"dtype":"<f8","fill_value":-0.0,"order":"C","compressor":null,"filters":null} => false
{"zarr_format":2,"shape":[1],"chunks":[1],"dtype":"<f8","fill_value":0,"order":"C","compressor":{"id":"a","b":0.5},"filters":null} | {"zarr_format":2,"shape":[1],"chunks":[1],"dtype":"<f8","fill_value":0,"order":"C","compressor":{"id":"a","b":0.5},"filters":null} => true
{"zarr_format":2,"shape":[1],"chunks":[1],"dtype":"<f8","fill_value":0,"order":"C","compressor":{"id":"a","b":0.5},"filters":null} | {"zarr_format":2,"shape":[1],"chunks":[1],"dtype":"<f8","fill_value":0,"order":"C","compressor":{"id":"a","b":0.25},"filters":null} => false
{"zarr_format":2,"shape":[1],"chunks":[1],"dtype":"<f8","fill_value":0,"order":"C","compressor":null,"filters":[{"id":"a","b":0.5}]} | {"zarr_format":2,"shape":[1],"chunks":[1],"dtype":"<f8","fill_value":0,"order":"C","compressor":null,"filters":[{"id":"a","b":0.25}]} => false
{"zarr_format":2,"attributes":{"a":0.5}} | {"zarr_format":2,"attributes":{"a":0.5}} => true
{"zarr_format":2,"attributes":{"a":0.5}} | {"zarr_format":2,"attributes":{"a":0.25}} => false
{"node_type":"group","zarr_format":3,"x":0.5} | {"node_type":"group","zarr_format":3,"x":0.5} => true
{"node_type":"group","zarr_format":3,"x":0.5} | {"node_type":"group","zarr_format":3,"x":0.25} => false
# but in the field `consolidated_metadata`
{"node_type":"group","zarr_format":3,"consolidated_metadata":{"metadata":{"a":0.5}}} | {"node_type":"group","zarr_format":3} => true
"#;

// Whether the metadata of two documents, whose numbers may be any, are the same.
fn compared_in_any(alloc: Global, given: &str) -> Result<String, AllocError> {
    let (first, second) = fields(given);
    let second = second.as_bytes();
    said(
        alloc,
        NodeMetadata::from_bytes_in(alloc, Numbers::Any, first.as_bytes()),
        |first, alloc| {
            said(
                alloc,
                NodeMetadata::from_bytes_in(alloc, Numbers::Any, second),
                |second, alloc| { format!(in alloc; "{}", is_same_metadata(first, second)) },
            )
        },
    )
}

#[test]
fn fractions_are_compared_by_their_bits(rt: HostRuntime) -> Result<(), Fail> {
    check_rows(rt.alloc(), FRACTIONS, compared_in_any)
}

// ---- groups made by hand

// The attributes of a version 3 group, and whether the group is the same as itself.
const ITSELF: &str = r#"
{"a":1} => true
{"a":0.5} => true
{"a":-0.0} => true
{"a":[{"b":1e300}]} => true
{"a":18446744073709551616} => true
"#;

// Whether a version 3 group with these attributes is the same as itself.
fn is_same_as_itself(alloc: Global, attributes: Object) -> Result<String, AllocError> {
    let mut group = GroupMetadataV3::new(alloc);
    group.attributes = attributes;
    let node = NodeMetadata::Group(GroupMetadata::V3(group));
    said(alloc, made(node), |node, alloc| {
        format!(in alloc; "{}", is_same_metadata(node, node))
    })
}

// That of the object that a text is.
fn compared_with_itself(alloc: Global, text: &str) -> Result<String, AllocError> {
    match Value::from_str(alloc, text) {
        Ok(Value::Object(members)) => is_same_as_itself(alloc, Object::from_map(alloc, members)?),
        _ => format!(in alloc; "no object: {text}"),
    }
}

#[test]
fn a_group_made_by_hand_is_the_same_as_itself(rt: HostRuntime) -> Result<(), Fail> {
    check_rows(rt.alloc(), ITSELF, compared_with_itself)
}

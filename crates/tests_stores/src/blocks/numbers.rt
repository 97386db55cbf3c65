//! Blocks and documents `.zmetadata` in numbers: a fraction is refused by name where numbers are whole, and is read where they may be any.
use crate::blocks::read::{chosen, no_word, policy_of, written};
use crate::blocks::zmetadata::nodes_text;
use serde_json::Value;
use std::alloc::{AllocError, Global};
use std::test::Fail;
use tests_support::{check_rows, fields, said};
use zarrs_block::{
    ConsolidatedMetadata, consolidated_metadata_for_open_in, consolidated_metadata_of_in, laws,
};
use zarrs_meaning::NodeCreateError;
use zarrs_meta::{Document, NodeMetadata};
use zarrs_path::NodePath;
use zarrs_store::{MetadataFault, Numbers};

// The numbers that a word names.
fn numbers_of(word: &str) -> Option<Numbers> {
    match word {
        "whole" => Some(Numbers::Whole),
        "any" => Some(Numbers::Any),
        _ => None,
    }
}

// What is said by reference, where the same is said by value.
fn same(alloc: Global, lent: String, owned: String) -> Result<String, AllocError> {
    if lent == owned {
        Ok(lent)
    } else {
        format!(in alloc; "{lent} but by value {owned}")
    }
}

// ---- blocks of version 3

// Which numbers there may be and a text; the written form of the block that it is, or its first fault.
const BLOCKS: &str = r#"
# A block of whole numbers reads the same in both.
whole | {"kind":"inline","metadata":{"b":{"zarr_format":2},"a":{"attributes":{"n":[1,-1]},"node_type":"group","zarr_format":3}},"more":1} => {"kind":"inline","metadata":{"a":{"attributes":{"n":[1,-1]},"node_type":"group","zarr_format":3},"b":{"zarr_format":2}},"must_understand":false}
any | {"kind":"inline","metadata":{"b":{"zarr_format":2},"a":{"attributes":{"n":[1,-1]},"node_type":"group","zarr_format":3}},"more":1} => {"kind":"inline","metadata":{"a":{"attributes":{"n":[1,-1]},"node_type":"group","zarr_format":3},"b":{"zarr_format":2}},"must_understand":false}
# A fraction is refused by name and before all else, or is kept where any value may stand.
whole | {"kind":"inline","metadata":{"a":{"attributes":{"n":1.5},"node_type":"group","zarr_format":3}}} => UnsupportedNumber: unsupported number
any | {"kind":"inline","metadata":{"a":{"attributes":{"n":1.5},"node_type":"group","zarr_format":3}}} => {"kind":"inline","metadata":{"a":{"attributes":{"n":1.5},"node_type":"group","zarr_format":3}},"must_understand":false}
whole | {"kind":"inline","metadata":{"a/x":{"chunk_grid":"g","chunk_key_encoding":"k","codecs":[],"data_type":"float32","fill_value":0.0,"node_type":"array","shape":[1],"zarr_format":3}}} => UnsupportedNumber: unsupported number
any | {"kind":"inline","metadata":{"a/x":{"chunk_grid":"g","chunk_key_encoding":"k","codecs":[],"data_type":"float32","fill_value":0.0,"node_type":"array","shape":[1],"zarr_format":3}}} => {"kind":"inline","metadata":{"a/x":{"chunk_grid":"g","chunk_key_encoding":"k","codecs":[],"data_type":"float32","fill_value":0.0,"node_type":"array","shape":[1],"zarr_format":3}},"must_understand":false}
whole | {"kind":"inline","metadata":{},"more":-0.0} => UnsupportedNumber: unsupported number
any | {"kind":"inline","metadata":{},"more":-0.0} => {"kind":"inline","metadata":{},"must_understand":false}
any | {"kind":"inline","metadata":{"a":{"attributes":{"big":18446744073709551616,"least":5e-324,"most":1.7976931348623157e308,"zero":-0.0},"zarr_format":2}}} => {"kind":"inline","metadata":{"a":{"attributes":{"big":1.8446744073709552e+19,"least":5e-324,"most":1.7976931348623157e+308,"zero":-0.0},"zarr_format":2}},"must_understand":false}
# Where something else has to stand, a fraction is the fault of that member.
whole | [1.5] => UnsupportedNumber: unsupported number
any | [1.5] => NotAnObject: not an object
any | 1.5 => NotAnObject: not an object
whole | {"kind":1.5} => UnsupportedNumber: unsupported number
any | {"kind":1.5} => BadMember: bad member kind
any | {"kind":"inline","must_understand":0.0} => BadMember: bad member must_understand
any | {"kind":"inline","metadata":1.5} => BadMember: bad member metadata
any | {"kind":"inline","metadata":{"a":1.5}} => BadMember: bad member metadata
any | {"kind":"inline","metadata":{"a":{"node_type":"group","zarr_format":3.0}}} => BadMember: bad member metadata
any | {"kind":"inline","metadata":{"a":{"attributes":1.5,"node_type":"group","zarr_format":3}}} => BadMember: bad member metadata
any | {"kind":"inline","metadata":{"a":{"chunk_grid":"g","chunk_key_encoding":"k","codecs":[],"data_type":"float32","fill_value":0,"node_type":"array","shape":[1.0],"zarr_format":3}}} => BadMember: bad member metadata
# The faults that have nothing to do with numbers are the same, in the same order.
any | {} => MissingMember: missing member kind
any | {"kind":"inline","must_understand":true} => BadMember: bad member must_understand
any | {"kind":"inline"} => MissingMember: missing member metadata
any | {"kind":"inline","metadata":{"a":{"attributes":{"n":1.5},"zarr_format":2},"b":{"zarr_format":4}}} => BadMember: bad member metadata
any | {"kind":"inline","metadata":{},"more":1e400} => not JSON
"#;

// The block that a text is in numbers, by reference and by value.
fn block_said(alloc: Global, given: &str) -> Result<String, AllocError> {
    let (word, text) = fields(given);
    let Some(numbers) = numbers_of(word) else {
        return format!(in alloc; "no such numbers: {word}");
    };
    let Ok(value) = Value::from_slice(alloc, text.as_bytes()) else {
        return String::from_str(alloc, "not JSON");
    };
    let lent = ConsolidatedMetadata::from_value_in(alloc, numbers, &value);
    let lent = said(alloc, lent, written)?;
    let owned = ConsolidatedMetadata::from_owned_value_in(alloc, numbers, value);
    same(alloc, lent, said(alloc, owned, written)?)
}

#[test]
fn blocks_are_read_in_numbers(rt: HostRuntime) -> Result<(), Fail> {
    check_rows(rt.alloc(), BLOCKS, block_said)
}

// ---- documents `.zmetadata`

// Which numbers there may be and a document; the keys and nodes that it is read as, or its first fault.
const DOCUMENTS: &str = r#"
# A document of whole numbers reads the same in both.
whole | {"zarr_consolidated_format":1,"metadata":{"a/.zattrs":{"k":1},"a/.zgroup":{"zarr_format":2},"b/.zattrs":[]}} => a {"attributes":{"k":1},"zarr_format":2};
any | {"zarr_consolidated_format":1,"metadata":{"a/.zattrs":{"k":1},"a/.zgroup":{"zarr_format":2},"b/.zattrs":[]}} => a {"attributes":{"k":1},"zarr_format":2};
# A fraction is refused by name and before all else, or is kept where any value may stand.
whole | {"zarr_consolidated_format":1,"metadata":{"a/.zattrs":{"k":1.5},"a/.zgroup":{"zarr_format":2}}} => UnsupportedNumber: unsupported number
any | {"zarr_consolidated_format":1,"metadata":{"a/.zattrs":{"k":1.5},"a/.zgroup":{"zarr_format":2}}} => a {"attributes":{"k":1.5},"zarr_format":2};
whole | {"zarr_consolidated_format":1,"metadata":{"a/.zarray":{"chunks":[2],"compressor":{"id":"x","level":0.5},"dimension_separator":".","dtype":"<f8","fill_value":0.0,"filters":null,"order":"C","shape":[4],"zarr_format":2},"a/.zattrs":{"scale_factor":0.01}}} => UnsupportedNumber: unsupported number
any | {"zarr_consolidated_format":1,"metadata":{"a/.zarray":{"chunks":[2],"compressor":{"id":"x","level":0.5},"dimension_separator":".","dtype":"<f8","fill_value":0.0,"filters":null,"order":"C","shape":[4],"zarr_format":2},"a/.zattrs":{"scale_factor":0.01}}} => a {"attributes":{"scale_factor":0.01},"chunks":[2],"compressor":{"id":"x","level":0.5},"dimension_separator":".","dtype":"<f8","fill_value":0.0,"filters":null,"order":"C","shape":[4],"zarr_format":2};
# So it is in the documents of the group itself and in what is passed over.
whole | {"zarr_consolidated_format":1,"metadata":{".zattrs":{"k":1.5},"a/0.0":2.5,"b/.zattrs":{"k":1e-05}},"other":-0.0} => UnsupportedNumber: unsupported number
any | {"zarr_consolidated_format":1,"metadata":{".zattrs":{"k":1.5},"a/0.0":2.5,"b/.zattrs":{"k":1e-05}},"other":-0.0} =>
# Where something else has to stand, a fraction is the fault of that member.
any | [1.5] => NotAnObject: not an object
any | {"zarr_consolidated_format":1.0,"metadata":{}} => BadMember: bad member zarr_consolidated_format
any | {"zarr_consolidated_format":1,"metadata":1.5} => BadMember: bad member metadata
any | {"zarr_consolidated_format":1,"metadata":{"a/.zgroup":1.5}} => BadMember: bad member metadata
any | {"zarr_consolidated_format":1,"metadata":{"a/.zgroup":{"zarr_format":2.0}}} => BadMember: bad member metadata
any | {"zarr_consolidated_format":1,"metadata":{"a/.zgroup":{"zarr_format":2},"a/.zattrs":1.5}} => BadMember: bad member metadata
any | {"zarr_consolidated_format":1,"metadata":{"a/.zarray":{"chunks":[2.5],"compressor":null,"dtype":"<f8","fill_value":0.0,"filters":null,"order":"C","shape":[4],"zarr_format":2}}} => BadMember: bad member metadata
any | {"zarr_consolidated_format":1,"metadata":{"a/.zarray":{"chunks":[2],"compressor":1.5,"dtype":"<f8","fill_value":0.0,"filters":null,"order":"C","shape":[4],"zarr_format":2}}} => BadMember: bad member metadata
# The faults that have nothing to do with numbers are the same, in the same order.
any | {"other":1.5} => MissingMember: missing member zarr_consolidated_format
any | {"zarr_consolidated_format":1,"other":1.5} => MissingMember: missing member metadata
any | {"zarr_consolidated_format":1,"metadata":{"../.zgroup":{"zarr_format":2},"a/.zattrs":{"k":1.5}}} => BadMember: bad member metadata
"#;

// The block that a document is in numbers, by reference, by its bytes and by value.
fn document_said(alloc: Global, given: &str) -> Result<String, AllocError> {
    let (word, text) = fields(given);
    let Some(numbers) = numbers_of(word) else {
        return format!(in alloc; "no such numbers: {word}");
    };
    let Ok(value) = Value::from_slice(alloc, text.as_bytes()) else {
        return String::from_str(alloc, "not JSON");
    };
    let lent = ConsolidatedMetadata::from_zmetadata_in(alloc, numbers, &value);
    let lent = said(alloc, lent, nodes_text)?;
    let bytes = text.as_bytes();
    let bytes = ConsolidatedMetadata::from_zmetadata_bytes_in(alloc, numbers, bytes);
    let lent = same(alloc, lent, said(alloc, bytes, nodes_text)?)?;
    let owned = ConsolidatedMetadata::from_owned_zmetadata_in(alloc, numbers, value);
    same(alloc, lent, said(alloc, owned, nodes_text)?)
}

#[test]
fn documents_are_read_in_numbers(rt: HostRuntime) -> Result<(), Fail> {
    check_rows(rt.alloc(), DOCUMENTS, document_said)
}

// ---- policies

// Which numbers a block may have, a policy, a path and the document of a node, which may hold any number; what the policy makes of the
// node's block.
const OPENED: &str = r#"
whole | Auto | /g | {"consolidated_metadata":{"kind":"inline","metadata":{"a":{"attributes":{"n":1.5},"zarr_format":2}}},"node_type":"group","zarr_format":3} => none
any | Auto | /g | {"consolidated_metadata":{"kind":"inline","metadata":{"a":{"attributes":{"n":1.5},"zarr_format":2}}},"node_type":"group","zarr_format":3} => {"kind":"inline","metadata":{"a":{"attributes":{"n":1.5},"zarr_format":2}},"must_understand":false}
whole | Must | /g | {"consolidated_metadata":{"kind":"inline","metadata":{"a":{"attributes":{"n":1.5},"zarr_format":2}}},"node_type":"group","zarr_format":3} => MissingMetadata: Metadata is missing for Consolidated metadata required but missing on group /g
any | Must | /g | {"consolidated_metadata":{"kind":"inline","metadata":{"a":{"attributes":{"n":1.5},"zarr_format":2}}},"node_type":"group","zarr_format":3} => {"kind":"inline","metadata":{"a":{"attributes":{"n":1.5},"zarr_format":2}},"must_understand":false}
any | Never | /g | {"consolidated_metadata":{"kind":"inline","metadata":{"a":{"attributes":{"n":1.5},"zarr_format":2}}},"node_type":"group","zarr_format":3} => none
whole | Auto | /g | {"attributes":{"n":1.5},"consolidated_metadata":{"kind":"inline","metadata":{}},"node_type":"group","zarr_format":3} => {"kind":"inline","metadata":{},"must_understand":false}
any | Must | /g | {"consolidated_metadata":{"kind":1.5},"node_type":"group","zarr_format":3} => MissingMetadata: Metadata is missing for Consolidated metadata required but missing on group /g
any | Must | /a | {"chunk_grid":"g","chunk_key_encoding":"k","codecs":[],"data_type":"float32","fill_value":0.0,"node_type":"array","shape":[1],"zarr_format":3} => MissingMetadata: Metadata is missing for Consolidated metadata required but missing on group /a
"#;

// What a policy makes, in numbers, of the node that a JSON text is.
fn opened_said(alloc: Global, given: &str) -> Result<String, NodeCreateError> {
    let (word, rest) = fields(given);
    let (policy, rest) = fields(rest);
    let (path, document) = fields(rest);
    let Some(numbers) = numbers_of(word) else {
        return Err(no_word(alloc, word));
    };
    let policy = policy_of(alloc, policy)?;
    let path = NodePath::new(alloc, path)?;
    let Ok(node) = NodeMetadata::from_bytes_in(alloc, Numbers::Any, document.as_bytes()) else {
        return Err(no_word(alloc, document));
    };
    let block = consolidated_metadata_for_open_in(alloc, numbers, &path, &node, policy);
    Ok(said(alloc, block, chosen)?)
}

#[test]
fn a_group_is_opened_by_its_block_in_numbers(rt: HostRuntime) -> Result<(), Fail> {
    check_rows(rt.alloc(), OPENED, opened_said)
}

// Which numbers a block may have, and the document of a group, which may hold any number; the block that the group holds.
const HELD: &str = r#"
whole | {"consolidated_metadata":{"kind":"inline","metadata":{"a":{"attributes":{"n":1.5},"zarr_format":2}}},"node_type":"group","zarr_format":3} => none
any | {"consolidated_metadata":{"kind":"inline","metadata":{"a":{"attributes":{"n":1.5},"zarr_format":2}}},"node_type":"group","zarr_format":3} => {"kind":"inline","metadata":{"a":{"attributes":{"n":1.5},"zarr_format":2}},"must_understand":false}
any | {"consolidated_metadata":{"kind":"inline","metadata":{"a":{"attributes":{"n":1.5},"zarr_format":2}}},"zarr_format":2} => none
any | {"consolidated_metadata":1.5,"node_type":"group","zarr_format":3} => none
"#;

// The block that the group holds, in numbers, that a JSON text is.
fn held_said(alloc: Global, given: &str) -> Result<String, MetadataFault> {
    let (word, document) = fields(given);
    let Some(numbers) = numbers_of(word) else {
        return Ok(format!(in alloc; "no such numbers: {word}")?);
    };
    match NodeMetadata::from_bytes_in(alloc, Numbers::Any, document.as_bytes())? {
        NodeMetadata::Group(group) => {
            let block = consolidated_metadata_of_in(alloc, numbers, &group)?;
            Ok(chosen(&block, alloc)?)
        }
        NodeMetadata::Array(_) => Ok(String::from_str(alloc, "array")?),
    }
}

#[test]
fn a_group_holds_a_block_in_numbers(rt: HostRuntime) -> Result<(), Fail> {
    check_rows(rt.alloc(), HELD, held_said)
}

#[test]
fn the_laws_in_numbers_are_called(_rt: HostRuntime) {
    laws::zmetadata_holds_store_in(Numbers::Any);
    laws::whole_blocks_read_the_same();
    zarrs_meaning::laws::whole_paths_mean_the_same();
}

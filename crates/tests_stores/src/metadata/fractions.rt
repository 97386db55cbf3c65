//! Rows: what a document with fractions is read as, where its numbers have to be whole and where any may stand.

use crate::metadata::fraction_kinds::Kind;
use serde_json::Value;
use std::alloc::{AllocError, Global};
use std::test::Fail;
use tests_support::{A3, G2, G3, check_rows, fields, said};
use zarrs_fault::{MetadataFault, Numbers};
use zarrs_form::{document_copy_in, document_in, parse, take_member};
use zarrs_meta::{
    ArrayMetadataV2, ArrayMetadataV3, AttributesDocument, Document, GroupMetadataV2,
    GroupMetadataV3, NodeMetadata, ZarrJson, laws,
};

/// An array of version 2 with each member of the table that is written always.
const A2: &str =
    r#"{"chunks":[1],"compressor":null,"dimension_separator":".","dtype":"<f8","fill_value":"NaN","filters":null,"order":"C","shape":[1],"zarr_format":2}"#;

// ---- documents

// The number of 400 digits that is a one and 399 zeros.
fn long_number(alloc: Global) -> Result<String, AllocError> {
    let mut number = String::from_str(alloc, "1")?;
    for _zero in 0..399u32 {
        number.push('0')?;
    }
    Ok(number)
}

// A text with that number in the place of each `<400>`.
fn long(alloc: Global, text: &str) -> Result<String, AllocError> {
    text.replace(alloc, "<400>", long_number(alloc)?.as_str())
}

// The document of a kind whose member of that name is the text, as it stands, in the place of its own.
fn with_member(alloc: Global, base: &str, name: &str, text: &str) -> Result<String, MetadataFault> {
    let Value::Object(mut members) = parse(alloc, base.as_bytes())? else {
        return Err(MetadataFault::NotAnObject);
    };
    drop(take_member(&mut members, name));
    let rest = Value::Object(members).to_string(alloc)?;
    let rest = rest.as_str();
    let rest = rest.strip_suffix('}').unwrap_or(rest);
    let comma = if rest == "{" { "" } else { "," };
    Ok(format!(in alloc; "{rest}{comma}\"{name}\":{text}}}")?)
}

// The document that fields name: it stands there, or it is that of the kind with one member of this name.
fn document(alloc: Global, kind: &str, given: &str) -> Result<String, MetadataFault> {
    let base = match kind {
        "array3" => A3,
        "group3" | "zarr.json" => G3,
        "array2" => A2,
        _ => G2,
    };
    match fields(given) {
        (text, "") => Ok(long(alloc, text)?),
        (name, text) => with_member(alloc, base, name, long(alloc, text)?.as_str()),
    }
}

// ---- answers

// The text of what is written of a document.
fn written<K: Kind>(document: &K, alloc: Global) -> Result<String, AllocError> {
    document.value(alloc)?.to_string(alloc)
}

fn of_value<K: Kind>(alloc: Global, numbers: Numbers, text: &str) -> Result<K, MetadataFault> {
    let value = parse(alloc, text.as_bytes())?;
    K::of_value(alloc, numbers, &value)
}

fn of_owned<K: Document>(alloc: Global, numbers: Numbers, text: &str) -> Result<K, MetadataFault> {
    K::from_owned_value_in(alloc, numbers, parse(alloc, text.as_bytes())?)
}

fn of_members<K: Document>(
    alloc: Global,
    numbers: Numbers,
    text: &str,
) -> Result<K, MetadataFault> {
    let value = parse(alloc, text.as_bytes())?;
    K::from_members_in(alloc, numbers, document_copy_in(numbers, &value)?)
}

// What is read again of what is written of a document.
fn again<K: Kind>(alloc: Global, numbers: Numbers, text: &str) -> Result<K, MetadataFault> {
    let document = K::from_bytes_in(alloc, numbers, text.as_bytes())?;
    K::from_members_in(
        alloc,
        numbers,
        document_in(numbers, document.value(alloc)?)?,
    )
}

// An answer, or it and another one that should have been the same.
fn agreed(
    alloc: Global,
    answer: String,
    other: Result<String, AllocError>,
) -> Result<String, AllocError> {
    let other = other?;
    if answer.as_str() == other.as_str() {
        Ok(answer)
    } else {
        format!(in alloc; "{answer} but also {other}")
    }
}

// What a document is read as by each way that leads in.
fn read<K: Kind>(alloc: Global, numbers: Numbers, text: &str) -> Result<String, AllocError> {
    let answer = said(
        alloc,
        K::from_bytes_in(alloc, numbers, text.as_bytes()),
        written::<K>,
    )?;
    let other = said(alloc, of_value::<K>(alloc, numbers, text), written::<K>);
    let answer = agreed(alloc, answer, other)?;
    let other = said(alloc, of_owned::<K>(alloc, numbers, text), written::<K>);
    let answer = agreed(alloc, answer, other)?;
    let other = said(alloc, of_members::<K>(alloc, numbers, text), written::<K>);
    let answer = agreed(alloc, answer, other)?;
    let other = said(alloc, again::<K>(alloc, numbers, text), written::<K>);
    agreed(alloc, answer, other)
}

// What a document of a kind is read as, by its own type and as a node.
fn read_kind(
    alloc: Global,
    numbers: Numbers,
    kind: &str,
    text: &str,
) -> Result<String, AllocError> {
    let answer = match kind {
        "array3" => read::<ArrayMetadataV3>(alloc, numbers, text)?,
        "group3" => read::<GroupMetadataV3>(alloc, numbers, text)?,
        "array2" => read::<ArrayMetadataV2>(alloc, numbers, text)?,
        "group2" => read::<GroupMetadataV2>(alloc, numbers, text)?,
        "attributes" => return read::<AttributesDocument>(alloc, numbers, text),
        "zarr.json" => return read::<ZarrJson>(alloc, numbers, text),
        _ => return String::from_str(alloc, "no such kind"),
    };
    agreed(alloc, answer, read::<NodeMetadata>(alloc, numbers, text))
}

// `kept` where what is written of a document is the document itself.
fn named(alloc: Global, answer: String, document: &str) -> Result<String, AllocError> {
    if answer.as_str() == document {
        String::from_str(alloc, "kept")
    } else {
        Ok(answer)
    }
}

// What a document is read as where its numbers have to be whole and, where that is something else, where any may stand.
fn says(alloc: Global, given: &str) -> Result<String, MetadataFault> {
    let (kind, rest) = fields(given);
    let text = document(alloc, kind, rest)?;
    let whole = read_kind(alloc, Numbers::Whole, kind, text.as_str())?;
    let any = read_kind(alloc, Numbers::Any, kind, text.as_str())?;
    if whole.as_str() == any.as_str() {
        return Ok(whole);
    }
    if rest.starts_with('{') || rest.starts_with('[') {
        return Ok(format!(in alloc; "{whole}; any: {any}")?);
    }
    let document = parse(alloc, text.as_bytes())?.to_string(alloc)?;
    let any = named(alloc, any, document.as_str())?;
    Ok(format!(in alloc; "{whole}; any: {any}")?)
}

const ROWS: &str = r##"
# version 3 arrays: kept where any value may stand
array3 | fill_value | 0.0 => UnsupportedNumber: unsupported number; any: kept
array3 | fill_value | -0.0 => UnsupportedNumber: unsupported number; any: kept
array3 | fill_value | [1.5,0.25] => UnsupportedNumber: unsupported number; any: kept
array3 | fill_value | {"a":{"b":[0.5]}} => UnsupportedNumber: unsupported number; any: kept
array3 | fill_value | 18446744073709551616 => UnsupportedNumber: unsupported number; any: kept
array3 | attributes | {"scale_factor":0.01} => UnsupportedNumber: unsupported number; any: kept
array3 | attributes | {"a":{"b":[{"c":0.5}]}} => UnsupportedNumber: unsupported number; any: kept
array3 | data_type | {"configuration":{"a":1.5},"name":"x"} => UnsupportedNumber: unsupported number; any: kept
array3 | chunk_grid | {"configuration":{"a":1.5},"name":"x"} => UnsupportedNumber: unsupported number; any: kept
array3 | chunk_key_encoding | {"configuration":{"a":1.5},"name":"x"} => UnsupportedNumber: unsupported number; any: kept
array3 | chunk_grid | {"configuration":{"chunk_shape":[1.5]},"name":"regular"} => UnsupportedNumber: unsupported number; any: kept
array3 | codecs | [{"configuration":{"level":0.5},"name":"x"}] => UnsupportedNumber: unsupported number; any: kept
array3 | storage_transformers | [{"configuration":{"a":[1.5]},"name":"x"}] => UnsupportedNumber: unsupported number; any: kept
array3 | more | 1.5 => UnsupportedNumber: unsupported number; any: kept
array3 | more | {"a":1.5,"must_understand":false} => UnsupportedNumber: unsupported number; any: kept
# version 3 arrays: the fault of the member where none may
array3 | shape | 1.5 => UnsupportedNumber: unsupported number; any: BadMember: bad member shape
array3 | shape | [1.5] => UnsupportedNumber: unsupported number; any: BadMember: bad member shape
array3 | shape | [1,2.5] => UnsupportedNumber: unsupported number; any: BadMember: bad member shape
array3 | shape | [1.0] => UnsupportedNumber: unsupported number; any: BadMember: bad member shape
array3 | shape | [1e0] => UnsupportedNumber: unsupported number; any: BadMember: bad member shape
array3 | shape | [18446744073709551616] => UnsupportedNumber: unsupported number; any: BadMember: bad member shape
array3 | data_type | 1.5 => UnsupportedNumber: unsupported number; any: BadMember: bad member data_type
array3 | data_type | {"name":1.5} => UnsupportedNumber: unsupported number; any: BadMember: bad member data_type
array3 | data_type | {"configuration":1.5,"name":"x"} => UnsupportedNumber: unsupported number; any: BadMember: bad member data_type
array3 | data_type | {"must_understand":1.0,"name":"x"} => UnsupportedNumber: unsupported number; any: BadMember: bad member data_type
array3 | chunk_grid | 1.5 => UnsupportedNumber: unsupported number; any: BadMember: bad member chunk_grid
array3 | chunk_grid | {"name":1.5} => UnsupportedNumber: unsupported number; any: BadMember: bad member chunk_grid
array3 | chunk_grid | {"configuration":1.5,"name":"x"} => UnsupportedNumber: unsupported number; any: BadMember: bad member chunk_grid
array3 | chunk_grid | {"must_understand":1.0,"name":"x"} => UnsupportedNumber: unsupported number; any: BadMember: bad member chunk_grid
array3 | chunk_key_encoding | 1.5 => UnsupportedNumber: unsupported number; any: BadMember: bad member chunk_key_encoding
array3 | chunk_key_encoding | {"name":1.5} => UnsupportedNumber: unsupported number; any: BadMember: bad member chunk_key_encoding
array3 | chunk_key_encoding | {"configuration":1.5,"name":"x"} => UnsupportedNumber: unsupported number; any: BadMember: bad member chunk_key_encoding
array3 | chunk_key_encoding | {"must_understand":1.0,"name":"x"} => UnsupportedNumber: unsupported number; any: BadMember: bad member chunk_key_encoding
array3 | codecs | 1.5 => UnsupportedNumber: unsupported number; any: BadMember: bad member codecs
array3 | codecs | [1.5] => UnsupportedNumber: unsupported number; any: BadMember: bad member codecs
array3 | codecs | [{"name":1.5}] => UnsupportedNumber: unsupported number; any: BadMember: bad member codecs
array3 | codecs | [{"configuration":[1.5],"name":"x"}] => UnsupportedNumber: unsupported number; any: BadMember: bad member codecs
array3 | codecs | [{"must_understand":0.0,"name":"x"}] => UnsupportedNumber: unsupported number; any: BadMember: bad member codecs
array3 | storage_transformers | 1.5 => UnsupportedNumber: unsupported number; any: BadMember: bad member storage_transformers
array3 | storage_transformers | [1.5] => UnsupportedNumber: unsupported number; any: BadMember: bad member storage_transformers
array3 | storage_transformers | [{"name":1.5}] => UnsupportedNumber: unsupported number; any: BadMember: bad member storage_transformers
array3 | dimension_names | 1.5 => UnsupportedNumber: unsupported number; any: BadMember: bad member dimension_names
array3 | dimension_names | [1.5] => UnsupportedNumber: unsupported number; any: BadMember: bad member dimension_names
array3 | dimension_names | ["x",1.5] => UnsupportedNumber: unsupported number; any: BadMember: bad member dimension_names
array3 | attributes | 1.5 => UnsupportedNumber: unsupported number; any: BadMember: bad member attributes
array3 | attributes | [1.5] => UnsupportedNumber: unsupported number; any: BadMember: bad member attributes
array3 | zarr_format | 3.0 => UnsupportedNumber: unsupported number; any: WrongFormat: wrong zarr_format
array3 | zarr_format | 3.5 => UnsupportedNumber: unsupported number; any: WrongFormat: wrong zarr_format
array3 | node_type | 1.5 => UnsupportedNumber: unsupported number; any: WrongNodeType: wrong node_type
# version 3 groups
group3 | attributes | {"a":1.5} => UnsupportedNumber: unsupported number; any: kept
group3 | more | 1.5 => UnsupportedNumber: unsupported number; any: kept
group3 | more | [0.5] => UnsupportedNumber: unsupported number; any: kept
group3 | more | {"a":1.5,"must_understand":false} => UnsupportedNumber: unsupported number; any: kept
group3 | consolidated_metadata | 1.5 => UnsupportedNumber: unsupported number; any: kept
group3 | consolidated_metadata | {"metadata":{"a":{"attributes":{"b":0.5},"node_type":"group","zarr_format":3}}} => UnsupportedNumber: unsupported number; any: kept
group3 | attributes | 1.5 => UnsupportedNumber: unsupported number; any: BadMember: bad member attributes
group3 | attributes | [1.5] => UnsupportedNumber: unsupported number; any: BadMember: bad member attributes
group3 | zarr_format | 3.0 => UnsupportedNumber: unsupported number; any: WrongFormat: wrong zarr_format
group3 | node_type | 1.5 => UnsupportedNumber: unsupported number; any: WrongNodeType: wrong node_type
# version 2 arrays
array2 | fill_value | 0.0 => UnsupportedNumber: unsupported number; any: kept
array2 | fill_value | -1e-05 => UnsupportedNumber: unsupported number; any: kept
array2 | fill_value | [1.5] => UnsupportedNumber: unsupported number; any: kept
array2 | fill_value | 1.7976931348623157e308 => UnsupportedNumber: unsupported number; any: kept
array2 | attributes | {"scale_factor":0.01} => UnsupportedNumber: unsupported number; any: kept
array2 | dtype | [["a","<f8",1.5]] => UnsupportedNumber: unsupported number; any: kept
array2 | dtype | [1.5] => UnsupportedNumber: unsupported number; any: kept
array2 | compressor | {"id":"zlib","level":0.5} => UnsupportedNumber: unsupported number; any: kept
array2 | filters | [{"id":"x","scale":0.1},{"id":"y"}] => UnsupportedNumber: unsupported number; any: kept
array2 | more | 1.5 => UnsupportedNumber: unsupported number; any: kept
array2 | more | {"a":[1.5]} => UnsupportedNumber: unsupported number; any: kept
array2 | shape | 1.5 => UnsupportedNumber: unsupported number; any: BadMember: bad member shape
array2 | shape | [1.5] => UnsupportedNumber: unsupported number; any: BadMember: bad member shape
array2 | shape | [1.0] => UnsupportedNumber: unsupported number; any: BadMember: bad member shape
array2 | chunks | 1.5 => UnsupportedNumber: unsupported number; any: BadMember: bad member chunks
array2 | chunks | [1.5] => UnsupportedNumber: unsupported number; any: BadMember: bad member chunks
array2 | chunks | [1.0] => UnsupportedNumber: unsupported number; any: BadMember: bad member chunks
array2 | chunks | [0.0] => UnsupportedNumber: unsupported number; any: BadMember: bad member chunks
array2 | dtype | 1.5 => UnsupportedNumber: unsupported number; any: BadMember: bad member dtype
array2 | dtype | {"a":1.5} => UnsupportedNumber: unsupported number; any: BadMember: bad member dtype
array2 | order | 1.5 => UnsupportedNumber: unsupported number; any: BadMember: bad member order
array2 | compressor | 1.5 => UnsupportedNumber: unsupported number; any: BadMember: bad member compressor
array2 | compressor | {"id":1.5} => UnsupportedNumber: unsupported number; any: BadMember: bad member compressor
array2 | compressor | {"level":0.5} => UnsupportedNumber: unsupported number; any: BadMember: bad member compressor
array2 | filters | 1.5 => UnsupportedNumber: unsupported number; any: BadMember: bad member filters
array2 | filters | [1.5] => UnsupportedNumber: unsupported number; any: BadMember: bad member filters
array2 | filters | [{"id":1.5}] => UnsupportedNumber: unsupported number; any: BadMember: bad member filters
array2 | dimension_separator | 1.5 => UnsupportedNumber: unsupported number; any: BadMember: bad member dimension_separator
array2 | attributes | 1.5 => UnsupportedNumber: unsupported number; any: BadMember: bad member attributes
array2 | zarr_format | 2.0 => UnsupportedNumber: unsupported number; any: WrongFormat: wrong zarr_format
# version 2 groups
group2 | attributes | {"a":1.5} => UnsupportedNumber: unsupported number; any: kept
group2 | more | 1.5 => UnsupportedNumber: unsupported number; any: kept
group2 | attributes | 1.5 => UnsupportedNumber: unsupported number; any: BadMember: bad member attributes
group2 | shape | 1.5 => UnsupportedNumber: unsupported number; any: BadMember: bad member shape
group2 | shape | [1.5] => UnsupportedNumber: unsupported number; any: BadMember: bad member shape
group2 | zarr_format | 2.5 => UnsupportedNumber: unsupported number; any: WrongFormat: wrong zarr_format
# what stands at `zarr.json`
zarr.json | attributes | {"a":1.5} => UnsupportedNumber: unsupported number; any: kept
zarr.json | {"a":1.5,"zarr_format":2} => UnsupportedNumber: unsupported number; any: {"zarr_format":2}
zarr.json | {"node_type":"group","zarr_format":2.0} => UnsupportedNumber: unsupported number; any: WrongFormat: wrong zarr_format
zarr.json | {"node_type":1.5,"zarr_format":3} => UnsupportedNumber: unsupported number; any: WrongNodeType: wrong node_type
# a fault that comes before the numbers, or none
array3 | [1.5] => UnsupportedNumber: unsupported number; any: NotAnObject: not an object
group3 | [1.5] => UnsupportedNumber: unsupported number; any: NotAnObject: not an object
array2 | [1.5] => UnsupportedNumber: unsupported number; any: NotAnObject: not an object
group2 | [1.5] => UnsupportedNumber: unsupported number; any: NotAnObject: not an object
attributes | [1.5] => UnsupportedNumber: unsupported number; any: NotAnObject: not an object
zarr.json | [1.5] => UnsupportedNumber: unsupported number; any: NotAnObject: not an object
attributes | {"a":1.5 => NotJson: not JSON
attributes | {"a":1} => {"a":1}
group3 | more | 1 => {"more":1,"node_type":"group","zarr_format":3}
# a name with a blank behind it is another
group2 | zarr_format  | 1 => {"zarr_format":2,"zarr_format ":1}
# numbers as they are written again
attributes | {"a":1.50} => UnsupportedNumber: unsupported number; any: {"a":1.5}
attributes | {"a":1e5} => UnsupportedNumber: unsupported number; any: {"a":100000.0}
attributes | {"a":1E+2} => UnsupportedNumber: unsupported number; any: {"a":100.0}
attributes | {"a":1e-05} => UnsupportedNumber: unsupported number; any: {"a":0.00001}
attributes | {"a":6.37814e+06} => UnsupportedNumber: unsupported number; any: {"a":6378140.0}
attributes | {"a":0.1} => UnsupportedNumber: unsupported number; any: {"a":0.1}
attributes | {"a":0.10000000000000002} => UnsupportedNumber: unsupported number; any: {"a":0.10000000000000002}
attributes | {"a":0.0} => UnsupportedNumber: unsupported number; any: {"a":0.0}
attributes | {"a":-0.0} => UnsupportedNumber: unsupported number; any: {"a":-0.0}
attributes | {"a":-0} => UnsupportedNumber: unsupported number; any: {"a":-0.0}
attributes | {"a":5e-324} => UnsupportedNumber: unsupported number; any: {"a":5e-324}
attributes | {"a":2e-324} => UnsupportedNumber: unsupported number; any: {"a":0.0}
attributes | {"a":1.7976931348623157e308} => UnsupportedNumber: unsupported number; any: {"a":1.7976931348623157e+308}
attributes | {"a":2.2250738585072014e-308} => UnsupportedNumber: unsupported number; any: {"a":2.2250738585072014e-308}
attributes | {"a":18446744073709551616} => UnsupportedNumber: unsupported number; any: {"a":1.8446744073709552e+19}
attributes | {"a":-9223372036854775809} => UnsupportedNumber: unsupported number; any: {"a":-9.223372036854776e+18}
attributes | {"a":18446744073709551615,"b":-9223372036854775808} => {"a":18446744073709551615,"b":-9223372036854775808}
# numbers past every `f64`, and numbers and exponents of 400 digits
attributes | {"a":1e400} => NotJson: not JSON
attributes | {"a":-1e400} => NotJson: not JSON
attributes | {"a":1e309} => NotJson: not JSON
attributes | {"a":1.8e308} => NotJson: not JSON
attributes | {"a":<400>} => NotJson: not JSON
attributes | {"a":-<400>} => NotJson: not JSON
attributes | {"a":1e<400>} => NotJson: not JSON
attributes | {"a":0.<400>} => UnsupportedNumber: unsupported number; any: {"a":0.1}
attributes | {"a":<400>e-390} => UnsupportedNumber: unsupported number; any: {"a":1000000000.0}
attributes | {"a":1e-<400>} => UnsupportedNumber: unsupported number; any: {"a":0.0}
attributes | {"a":0e<400>} => UnsupportedNumber: unsupported number; any: {"a":0.0}
attributes | {"a":-1e-400} => UnsupportedNumber: unsupported number; any: {"a":-0.0}
# no number is `NaN` or `Infinity`
attributes | {"a":NaN} => NotJson: not JSON
attributes | {"a":Infinity} => NotJson: not JSON
attributes | {"a":-Infinity} => NotJson: not JSON
"##;

#[test]
fn fractions_are_refused_by_name_or_read(rt: HostRuntime) -> Result<(), Fail> {
    check_rows(rt.alloc(), ROWS, says)
}

// Whether bytes are made of the document of a node: of one with a fraction there are none.
fn document_text(node: &NodeMetadata, alloc: Global) -> Result<String, AllocError> {
    let bytes = node.to_document(alloc)?;
    String::from_str(
        alloc,
        if bytes.is_some() {
            "a document"
        } else {
            "none"
        },
    )
}

fn document_says(alloc: Global, text: &str) -> Result<String, AllocError> {
    let node = NodeMetadata::from_bytes_in(alloc, Numbers::Any, text.as_bytes());
    said(alloc, node, document_text)
}

const DOCUMENTS: &str = r#"
{"attributes":{"a":1},"zarr_format":2} => a document
{"attributes":{"a":1.5},"zarr_format":2} => none
{"a":1.5,"node_type":"group","zarr_format":3} => none
{"chunk_grid":"g","chunk_key_encoding":"k","codecs":[{"configuration":{"level":0.5},"name":"x"}],"data_type":"float32","fill_value":0,"node_type":"array","shape":[1],"zarr_format":3} => none
"#;

#[test]
fn a_node_with_a_fraction_has_no_document_of_its_own(rt: HostRuntime) -> Result<(), Fail> {
    laws::whole_reads_the_same();
    check_rows(rt.alloc(), DOCUMENTS, document_says)
}

//! The calls that take documents apart and put them together, and the forms of members, one by one.

use crate::metadata::conversion_tables::written;
use crate::metadata::documents::agreed;
use crate::metadata::given::{members_of, number_of, object_of, value_of};
use serde_json::{Map, Value};
use std::alloc::{AllocError, Global};
use std::test::Fail;
use tests_support::{check_rows, fields, said};
use zarrs_fault::MetadataFault;
use zarrs_form::{
    AdditionalFieldsV3, ArrayMetadataV2Order, ChunkKeySeparator, DataTypeMetadataV2, Duplicate,
    FillValueMetadata, Form, Json, Layout, List, MetadataV2, MetadataV3, Object, Text, ask_format,
    ask_node_type, attributes, chunk_lengths, document, document_copy, fields_of, has_zero, member,
    members_have_float, optional, parse, put_member, put_text, put_unless, refuse, required,
    take_member, take_null, write_key, write_last, write_row, write_unless, write_value,
};

// ---- what the tests share

// What a step answered, and the members that it left.
fn and_left(
    alloc: Global,
    answer: Result<String, AllocError>,
    members: Map<String, Value>,
) -> Result<String, AllocError> {
    let left = Value::Object(members).to_string(alloc)?;
    let answer = answer?;
    format!(in alloc; "{answer} {left}")
}

fn number_text(number: &u64, alloc: Global) -> Result<String, AllocError> {
    format!(in alloc; "{number}")
}

fn numbers_text(numbers: &List<u64>, alloc: Global) -> Result<String, AllocError> {
    format!(in alloc; "{:?}", numbers.as_slice())
}

fn value_text(value: &Value, alloc: Global) -> Result<String, AllocError> {
    value.to_string(alloc)
}

fn unit_text(_unit: &(), alloc: Global) -> Result<String, AllocError> {
    String::from_str(alloc, "ok")
}

// ---- members are taken out by their names

fn required_says(alloc: Global, text: &str, name: &'static str) -> Result<String, MetadataFault> {
    let mut members = members_of(alloc, text)?;
    let found: Result<u64, MetadataFault> = required(alloc, &mut members, name);
    Ok(and_left(alloc, said(alloc, found, number_text), members)?)
}

fn optional_says(alloc: Global, text: &str, name: &'static str) -> Result<String, MetadataFault> {
    let mut members = members_of(alloc, text)?;
    let found: Result<u64, MetadataFault> = optional(alloc, &mut members, name, 7);
    Ok(and_left(alloc, said(alloc, found, number_text), members)?)
}

fn attributes_say(alloc: Global, text: &str) -> Result<String, MetadataFault> {
    let mut members = members_of(alloc, text)?;
    let found = attributes(alloc, &mut members);
    Ok(and_left(alloc, said(alloc, found, written), members)?)
}

fn chunk_lengths_say(alloc: Global, text: &str) -> Result<String, MetadataFault> {
    let mut members = members_of(alloc, text)?;
    let found = chunk_lengths(alloc, &mut members, "chunks");
    Ok(and_left(alloc, said(alloc, found, numbers_text), members)?)
}

// What is taken of a document's members, by the word before it, and what is left of them.
fn taken_says(alloc: Global, given: &str) -> Result<String, MetadataFault> {
    let (kind, text) = fields(given);
    match kind {
        "required a" => required_says(alloc, text, "a"),
        "required b" => required_says(alloc, text, "b"),
        "optional a" => optional_says(alloc, text, "a"),
        "optional b" => optional_says(alloc, text, "b"),
        "attributes" => attributes_say(alloc, text),
        "chunk lengths" => chunk_lengths_say(alloc, text),
        _ => Ok(String::from_str(alloc, "nothing of the kind")?),
    }
}

// What is taken of members by its name.
const TAKEN: &str = r#"
# a required member is there in its form
required a | {"a":1} => 1 {}
required b | {"a":1} => MissingMember: missing member b {"a":1}
required a | {"a":"x","b":2} => BadMember: bad member a {"b":2}
# an optional member may be absent
optional a | {"a":1} => 1 {}
optional b | {"a":1} => 7 {"a":1}
optional a | {"a":null} => BadMember: bad member a {}
# absent attributes are empty
attributes | {"attributes":{"k":1},"b":2} => {"k":1} {"b":2}
attributes | {"b":2} => {} {"b":2}
attributes | {"attributes":[]} => BadMember: bad member attributes {}
# no chunk length is 0
chunk lengths | {"chunks":[2,3]} => [2, 3] {}
chunk lengths | {"chunks":[2,0]} => BadMember: bad member chunks {}
chunk lengths | {"chunks":2} => BadMember: bad member chunks {}
chunk lengths | {} => MissingMember: missing member chunks {}
"#;

#[test]
fn members_are_taken_out_by_their_names(rt: HostRuntime) -> Result<(), Fail> {
    check_rows(rt.alloc(), TAKEN, taken_says)
}

fn has_zero_says(alloc: Global, length: u64) -> Result<String, AllocError> {
    let lengths = List::new(vec![in alloc; 1, length]?);
    format!(in alloc; "{}", has_zero(&lengths))
}

// The text of what was found, and what there was none of.
fn found_text(found: Option<&Value>, alloc: Global) -> Result<String, AllocError> {
    match found {
        Some(value) => value.to_string(alloc),
        None => String::from_str(alloc, "none"),
    }
}

fn member_says(alloc: Global, text: &str, name: &str) -> Result<String, MetadataFault> {
    let members = members_of(alloc, text)?;
    Ok(found_text(member(&members, name), alloc)?)
}

fn take_member_says(alloc: Global, text: &str, name: &str) -> Result<String, MetadataFault> {
    let mut members = members_of(alloc, text)?;
    let found = take_member(&mut members, name);
    Ok(and_left(alloc, found_text(found.as_ref(), alloc), members)?)
}

fn take_null_leaves(alloc: Global, text: &str, name: &str) -> Result<String, MetadataFault> {
    let mut members = members_of(alloc, text)?;
    take_null(&mut members, name);
    Ok(Value::Object(members).to_string(alloc)?)
}

// What is found of members, or of lengths, by the word before them.
fn found_says(alloc: Global, given: &str) -> Result<String, MetadataFault> {
    let (kind, text) = fields(given);
    match kind {
        "length" => Ok(has_zero_says(alloc, number_of(alloc, text)?)?),
        "member b" => member_says(alloc, text, "b"),
        "member of a blank and b" => member_says(alloc, text, " b"),
        "taken b" => take_member_says(alloc, text, "b"),
        "null a" => take_null_leaves(alloc, text, "a"),
        _ => Ok(String::from_str(alloc, "nothing of the kind")?),
    }
}

// What is found of members and of lengths.
const FOUND: &str = r#"
# a length of 0 is found
length | 0 => true
length | 2 => false
# a member is found by its name
member b | {"a":1,"b":2} => 2
member b | {"a":1} => none
member of a blank and b | {"a":1,"b":2} => none
# what is taken leaves the others
taken b | {"a":1,"b":2} => 2 {"a":1}
taken b | {"a":1} => none {"a":1}
# null is taken, and no other value
null a | {"a":null} => {}
null a | {"a":1,"b":null} => {"a":1,"b":null}
"#;

#[test]
fn a_member_is_found_by_its_name(rt: HostRuntime) -> Result<(), Fail> {
    check_rows(rt.alloc(), FOUND, found_says)
}

// ---- documents, and what is asked of them

fn parse_says(alloc: Global, text: &str) -> Result<String, AllocError> {
    said(alloc, parse(alloc, text.as_bytes()), value_text)
}

fn members_text(members: &Map<String, Value>, alloc: Global) -> Result<String, AllocError> {
    let mut text = String::new(alloc);
    for (name, value) in members.iter() {
        let value = value.to_string(alloc)?;
        write!(text, "{name}={value};")?;
    }
    Ok(text)
}

fn document_says(alloc: Global, text: &str) -> Result<String, MetadataFault> {
    Ok(said(alloc, document(value_of(alloc, text)?), members_text)?)
}

fn document_copy_says(alloc: Global, text: &str) -> Result<String, MetadataFault> {
    let value = value_of(alloc, text)?;
    Ok(said(alloc, document_copy(&value), members_text)?)
}

fn format_says(alloc: Global, text: &str) -> Result<String, MetadataFault> {
    let members = members_of(alloc, text)?;
    Ok(said(alloc, ask_format(&members, 3), unit_text)?)
}

fn node_type_says(alloc: Global, text: &str) -> Result<String, MetadataFault> {
    let members = members_of(alloc, text)?;
    Ok(said(alloc, ask_node_type(&members, "group"), unit_text)?)
}

fn refuse_says(alloc: Global, text: &str) -> Result<String, MetadataFault> {
    let members = members_of(alloc, text)?;
    Ok(said(alloc, refuse(&members, "shape"), unit_text)?)
}

// What a document reads as, or what it is refused with, by the word before it.
fn asked_says(alloc: Global, given: &str) -> Result<String, MetadataFault> {
    let (kind, text) = fields(given);
    match kind {
        "bytes" => Ok(parse_says(alloc, text)?),
        "document" => {
            let moved = document_says(alloc, text)?;
            Ok(agreed(alloc, moved, document_copy_says(alloc, text)?)?)
        }
        "format" => format_says(alloc, text),
        "node type" => node_type_says(alloc, text),
        "no shape" => refuse_says(alloc, text),
        _ => Ok(String::from_str(alloc, "nothing of the kind")?),
    }
}

// What is asked of documents.
const ASKED: &str = r#"
# bytes are JSON or not
bytes |  [1, true]  => [1,true]
bytes | [1, => NotJson: not JSON
bytes | => NotJson: not JSON
# a document, and its copy, is an object of whole numbers
document | {"a":-1,"b":[]} => a=-1;b=[];
document | {"a":[0.5]} => UnsupportedNumber: unsupported number
document | 0.5 => UnsupportedNumber: unsupported number
document | [1] => NotAnObject: not an object
# the format is 3
format | {"zarr_format":3} => ok
format | {"zarr_format":2} => WrongFormat: wrong zarr_format
format | {"zarr_format":"3"} => WrongFormat: wrong zarr_format
format | {} => WrongFormat: wrong zarr_format
# the node type is that of a group
node type | {"node_type":"group"} => ok
node type | {"node_type":"array"} => WrongNodeType: wrong node_type
node type | {"node_type":3} => WrongNodeType: wrong node_type
node type | {} => WrongNodeType: wrong node_type
# there is no shape
no shape | {"a":1} => ok
no shape | {"shape":1} => BadMember: bad member shape
"#;

#[test]
fn documents_answer_what_is_asked(rt: HostRuntime) -> Result<(), Fail> {
    check_rows(rt.alloc(), ASKED, asked_says)
}

// ---- what is put stands at its name

fn put_member_leaves(alloc: Global, value: Option<&u64>) -> Result<String, MetadataFault> {
    let mut members = members_of(alloc, r#"{"a":1}"#)?;
    put_member(&mut members, alloc, "b", value)?;
    Ok(Value::Object(members).to_string(alloc)?)
}

fn put_unless_leaves(alloc: Global, is_empty: bool) -> Result<String, MetadataFault> {
    let mut members = members_of(alloc, r#"{"a":1}"#)?;
    put_unless(&mut members, alloc, "a", is_empty, &2u64)?;
    Ok(Value::Object(members).to_string(alloc)?)
}

fn put_text_leaves(alloc: Global, name: &str) -> Result<String, MetadataFault> {
    let mut members = members_of(alloc, r#"{"a":1}"#)?;
    put_text(&mut members, alloc, name, " x")?;
    Ok(Value::Object(members).to_string(alloc)?)
}

// What the members `{"a":1}` are once this was put.
fn put_says(alloc: Global, given: &str) -> Result<String, MetadataFault> {
    match given {
        "2 at b" => put_member_leaves(alloc, Some(&2)),
        "nothing at b" => put_member_leaves(alloc, None),
        "2 at a, not empty" => put_unless_leaves(alloc, false),
        "2 at a, empty" => put_unless_leaves(alloc, true),
        "a text at a" => put_text_leaves(alloc, "a"),
        "a text at b" => put_text_leaves(alloc, "b"),
        _ => Ok(String::from_str(alloc, "nothing of the kind")?),
    }
}

// What is put to the members `{"a":1}`.
const PUT: &str = r#"
2 at b => {"a":1,"b":2}
nothing at b => {"a":1}
2 at a, not empty => {"a":2}
2 at a, empty => {"a":1}
a text at a => {"a":" x"}
a text at b => {"a":1,"b":" x"}
"#;

#[test]
fn what_is_put_stands_at_its_name(rt: HostRuntime) -> Result<(), Fail> {
    check_rows(rt.alloc(), PUT, put_says)
}

// A text with a member put behind it in the pretty layout, with a comma where the text is more than a brace.
fn entry_says(alloc: Global, given: &str) -> Result<String, MetadataFault> {
    let (before, rest) = fields(given);
    let (name, text) = fields(rest);
    let mut out = String::from_str(alloc, before)?;
    let layout = Layout::Pretty(2);
    write_key(alloc, &mut out, before != "{", layout, name)?;
    write_value(alloc, &mut out, layout, &value_of(alloc, text)?)?;
    Ok(out)
}

// A text, a name and a value.
const ENTRIES: &str = r#"
{ | a | [] => {\n    "a": []
{ "x" | a"b | {"k":[1,2]} => { "x",\n    "a\\"b": {\n      "k": [\n        1,\n        2\n      ]\n    }
"#;

#[test]
fn a_member_is_written_in_the_pretty_layout(rt: HostRuntime) -> Result<(), Fail> {
    check_rows(rt.alloc(), ENTRIES, entry_says)
}

// ---- additional fields, and tests of members

// The fields as members.
fn fields_text(fields: &AdditionalFieldsV3, alloc: Global) -> Result<String, AllocError> {
    Value::Object(fields.to_members(alloc)?).to_string(alloc)
}

fn fields_say(alloc: Global, text: &str) -> Result<String, MetadataFault> {
    let members = members_of(alloc, text)?;
    Ok(said(alloc, fields_of(alloc, members, &["a", "b"]), fields_text)?)
}

// Whether a field has one of two names, whether one has a fraction, and whether the one named z is null.
fn fields_tests(fields: &AdditionalFieldsV3, alloc: Global) -> Result<String, AllocError> {
    format!(in alloc;
        "{} {} {}",
        fields.has_own_name(&["x", "y"]),
        fields.has_float(),
        fields.is_null_at("z")
    )
}

fn fields_tests_say(alloc: Global, text: &str) -> Result<String, MetadataFault> {
    let members = members_of(alloc, text)?;
    Ok(said(alloc, fields_of(alloc, members, &[]), fields_tests)?)
}

fn members_tests_say(alloc: Global, text: &str) -> Result<String, MetadataFault> {
    let members = members_of(alloc, text)?;
    let found = members_have_float(&members);
    let object = Object::from_map(alloc, members)?;
    let own = object.has_own_member(&["x", "y"]);
    Ok(format!(in alloc; "{own} {found} {}", object.has_float())?)
}

// What fields and members say of themselves, by the word before them.
fn tested_says(alloc: Global, given: &str) -> Result<String, MetadataFault> {
    let (kind, text) = fields(given);
    match kind {
        "fields" => fields_say(alloc, text),
        "fields tested" => fields_tests_say(alloc, text),
        "members tested" => members_tests_say(alloc, text),
        _ => Ok(String::from_str(alloc, "nothing of the kind")?),
    }
}

// Additional fields, and tests of them and of members.
const TESTED: &str = r#"
# fields are the members of no own name
fields | {"a":1,"b":2,"c":{"a":3}} => {"c":{"a":3}}
fields | {} => {}
fields | {"c":null} => {"c":null}
# names x and y, fractions, and null at z
fields tested | {} => false false false
fields tested | {"y":1,"z":null} => true false true
fields tested | {" x":[0.5],"z":0} => false true false
# names x and y, and fractions
members tested | {} => false false false
members tested | {"y":1} => true false false
members tested | {"xy":[{"a":0.5}]} => false true true
"#;

#[test]
fn fields_and_members_are_tested(rt: HostRuntime) -> Result<(), Fail> {
    check_rows(rt.alloc(), TESTED, tested_says)
}

// ---- the text of a table

// A table of rows that are there and rows that are not.
fn table_in(alloc: Global, layout: Layout) -> Result<String, AllocError> {
    let mut out = String::from_str(alloc, "{")?;
    let none: Option<&u64> = None;
    write_row(alloc, &mut out, layout, "a", none)?;
    write_row(alloc, &mut out, layout, "b\"", Some(&1u64))?;
    write_unless(alloc, &mut out, layout, "c", true, &2u64)?;
    write_unless(alloc, &mut out, layout, "d\n", false, &true)?;
    let last = Text::from_str(alloc, r#"x"y"#)?;
    write_last(alloc, &mut out, layout, "e", &last)?;
    Ok(out)
}

// A member behind another.
fn member_in(alloc: Global, layout: Layout) -> Result<String, MetadataFault> {
    let mut out = String::new(alloc);
    write_key(alloc, &mut out, true, layout, "k\n")?;
    let value = value_of(alloc, r#"{"a":[-1],"b":{}}"#)?;
    write_value(alloc, &mut out, layout, &value)?;
    Ok(out)
}

// A list of what a text reads as.
fn list_in<T: Form + Drop>(
    alloc: Global,
    layout: Layout,
    text: &str,
) -> Result<String, MetadataFault> {
    let mut out = String::new(alloc);
    let found: Option<List<T>> = List::read(alloc, value_of(alloc, text)?)?;
    if let Some(list) = found {
        list.write(alloc, &mut out, layout)?;
    }
    Ok(out)
}

// A codec made by hand: its configuration has a member of the name that the codec's own member has.
fn codec_in(alloc: Global, layout: Layout) -> Result<String, MetadataFault> {
    let codec = MetadataV2 {
        id: Text::from_str(alloc, "a")?,
        configuration: object_of(alloc, r#"{"ic":1,"id":{"k":2},"ie":3}"#)?,
    };
    let mut out = String::new(alloc);
    codec.write(alloc, &mut out, layout)?;
    Ok(out)
}

const EXTENSIONS: &str =
    r#"["a",{"name":"b"},{"name":"c","configuration":{"k":[]},"must_understand":false}]"#;

const CODECS: &str =
    r#"[{"id":"a","k":[],"b":{"c":1},"i":2,"ide":null},{"id":"b\n"},{"a":0,"id":"c"},{"z":0,"id":"d"}]"#;

// The layout of that name.
fn layout_of(name: &str) -> Layout {
    match name {
        "one level deep" => Layout::Pretty(1),
        "seven levels deep" => Layout::Pretty(7),
        _ => Layout::Compact,
    }
}

// A text in a layout.
fn written_in(alloc: Global, given: &str) -> Result<String, MetadataFault> {
    let (what, layout) = fields(given);
    let layout = layout_of(layout);
    match what {
        "rows" => Ok(table_in(alloc, layout)?),
        "a member" => member_in(alloc, layout),
        "extensions" => list_in::<MetadataV3>(alloc, layout, EXTENSIONS),
        "codecs" => list_in::<MetadataV2>(alloc, layout, CODECS),
        "a codec with another id" => codec_in(alloc, layout),
        _ => Ok(String::from_str(alloc, "no such table")?),
    }
}

// Tables, and other texts, as they are written.
const TABLES: &str = r#"
rows | compact => {"b\\"":1,"d\\n":true,"e":"x\\"y"}
a member | compact => ,"k\\n":{"a":[-1],"b":{}}
extensions | compact => ["a","b",{"configuration":{"k":[]},"must_understand":false,"name":"c"}]
codecs | compact => [{"b":{"c":1},"i":2,"id":"a","ide":null,"k":[]},{"id":"b\\n"},{"a":0,"id":"c"},{"id":"d","z":0}]
a codec with another id | compact => {"ic":1,"id":"a","ie":3}
# in the pretty layout
rows | one level deep => {\n    "b\\"": 1,\n    "d\\n": true,\n    "e": "x\\"y"\n  }
a member | seven levels deep => ,\n              "k\\n": {\n                "a": [\n                  -1\n                ],\n                "b": {}\n              }
extensions | one level deep => [\n    "a",\n    "b",\n    {\n      "configuration": {\n        "k": []\n      },\n      "must_understand": false,\n      "name": "c"\n    }\n  ]
codecs | one level deep => [\n    {\n      "b": {\n        "c": 1\n      },\n      "i": 2,\n      "id": "a",\n      "ide": null,\n      "k": []\n    },\n    {\n      "id": "b\\n"\n    },\n    {\n      "a": 0,\n      "id": "c"\n    },\n    {\n      "id": "d",\n      "z": 0\n    }\n  ]
a codec with another id | one level deep => {\n    "ic": 1,\n    "id": "a",\n    "ie": 3\n  }
"#;

#[test]
fn a_table_is_written_row_by_row(rt: HostRuntime) -> Result<(), Fail> {
    check_rows(rt.alloc(), TABLES, written_in)
}

// ---- forms

// The text of the value that is written of a part.
fn tree_text<T: Form>(part: &T, alloc: Global) -> Result<String, AllocError> {
    part.to_value(alloc)?.to_string(alloc)
}

// What is written of a value, by both ways, and whether it is plain.
fn written_text<T: Form>(value: &T, alloc: Global) -> Result<String, AllocError> {
    let tree = tree_text(value, alloc)?;
    let text = written(value, alloc)?;
    format!(in alloc; "{tree} {text} {}", value.is_plain())
}

// What is written of the copy of what a text reads as in the form of a type.
fn form_says<T: Form + Duplicate + Drop>(
    alloc: Global,
    text: &str,
) -> Result<String, MetadataFault> {
    match T::read(alloc, value_of(alloc, text)?)? {
        Some(found) => Ok(written_text(&found.duplicate(alloc)?, alloc)?),
        None => Ok(String::from_str(alloc, "another form")?),
    }
}

// The same without a copy.
fn plain_form_says<T: Form + Drop>(alloc: Global, text: &str) -> Result<String, MetadataFault> {
    match T::read(alloc, value_of(alloc, text)?)? {
        Some(found) => Ok(written_text(&found, alloc)?),
        None => Ok(String::from_str(alloc, "another form")?),
    }
}

// What a row's text reads as in the form of the type before it.
fn type_says(alloc: Global, given: &str) -> Result<String, MetadataFault> {
    let (kind, text) = fields(given);
    match kind {
        "number" => form_says::<u64>(alloc, text),
        "text" => form_says::<Text>(alloc, text),
        "object" => form_says::<Object>(alloc, text),
        "item" => form_says::<Json>(alloc, text),
        "number or null" => form_says::<Option<u64>>(alloc, text),
        "numbers" => form_says::<List<u64>>(alloc, text),
        "codec" => form_says::<MetadataV2>(alloc, text),
        "extension" => form_says::<MetadataV3>(alloc, text),
        _ => plain_type_says(alloc, kind, text),
    }
}

// The same of the types whose values are not copied.
fn plain_type_says(alloc: Global, kind: &str, text: &str) -> Result<String, MetadataFault> {
    match kind {
        "truth" => plain_form_says::<bool>(alloc, text),
        "fill value" => plain_form_says::<FillValueMetadata>(alloc, text),
        "order" => plain_form_says::<ArrayMetadataV2Order>(alloc, text),
        "separator" => plain_form_says::<ChunkKeySeparator>(alloc, text),
        "data type" => plain_form_says::<DataTypeMetadataV2>(alloc, text),
        _ => Ok(String::from_str(alloc, "no such type")?),
    }
}

// Values in the forms of their types: the value written, the text written, and whether it is plain.
const FORMS: &str = r#"
# numbers, texts and objects
number | 5 => 5 5 true
number | -5 => another form
text | "a\\b" => "a\\\\b" "a\\\\b" true
text | 5 => another form
object | {"k":[1]} => {"k":[1]} {"k":[1]} true
object | [] => another form
item | [null,0.5] => [null,0.5] [null,0.5] false
# options and lists have the form of their items
number or null | null => null null true
number or null | 5 => 5 5 true
number or null | "5" => another form
numbers | [1,2] => [1,2] [1,2] true
numbers | [] => [] [] true
numbers | [1,null] => another form
# codecs and extensions
codec | {"id":"zlib","level":1} => {"id":"zlib","level":1} {"id":"zlib","level":1} true
codec | {"level":1} => another form
extension | {"name":"t"} => "t" "t" true
extension | {"configuration":{}} => another form
# truth values and fill values
truth | true => true true true
truth | 0 => another form
fill value | null => null null true
fill value | 0.5 => 0.5 0.5 false
# arrays of version 2 have forms of their own
order | "F" => "F" "F" true
order | "f" => another form
separator | null => "." "." true
separator | "-" => another form
data type | "<f8" => "<f8" "<f8" true
data type | {} => another form
"#;

#[test]
fn types_have_their_forms(rt: HostRuntime) -> Result<(), Fail> {
    check_rows(rt.alloc(), FORMS, type_says)
}

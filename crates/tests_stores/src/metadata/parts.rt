//! The parts of metadata: texts, lists, objects, fields, and what is not plain of them.

use crate::metadata::conversion_tables::written;
use crate::metadata::documents::agreed;
use crate::metadata::given::{number_of, object_of, value_of};
use serde_json::{Map, Value};
use std::alloc::{AllocError, Global};
use std::test::Fail;
use tests_support::{A2, check_rows, fields, made, printed, said};
use zarrs_fault::MetadataFault;
use zarrs_meta::{
    AdditionalFieldV3, AdditionalFieldsV3, ArrayMetadataV2, ArrayMetadataV3, DataTypeMetadataV2,
    Document, Endianness, FillValueMetadata, GroupMetadataV2, GroupMetadataV3, Json, List,
    MetadataV2, MetadataV3, Object, Text, WrittenDocument,
};

// ---- small parts: what each says of itself, of its copy, and once it was taken apart and put together

fn text_text(text: &Text, alloc: Global) -> Result<String, AllocError> {
    String::from_str(alloc, text.as_str())
}

fn text_copy(text: &Text, alloc: Global) -> Result<String, AllocError> {
    said(alloc, text.try_clone(alloc), text_text)
}

fn text_says(alloc: Global, given: &str) -> Result<String, AllocError> {
    let text = Text::new(Text::from_str(alloc, given)?.into_string());
    said(alloc, made(text), text_copy)
}

fn list_text(list: &List<u64>, alloc: Global) -> Result<String, AllocError> {
    format!(in alloc; "{:?} {}", list.as_slice(), list.is_empty())
}

fn list_says(alloc: Global, number: u64) -> Result<String, AllocError> {
    let list: List<u64> = List::new(vec![in alloc; number, 8]?);
    let list = List::new(list.into_vec());
    said(alloc, made(list), list_text)
}

fn object_text(object: &Object, alloc: Global) -> Result<String, AllocError> {
    let members = members_text(object, alloc)?;
    format!(in alloc; "[{members}] {} {}", object.len(), object.is_empty())
}

fn object_copy(object: &Object, alloc: Global) -> Result<String, AllocError> {
    said(alloc, object.try_clone(alloc), object_text)
}

// The object that the map of an object's members is.
fn object_of_map(object: &Object, alloc: Global) -> Result<String, AllocError> {
    let members = object.to_map(alloc)?;
    said(alloc, Object::from_map(alloc, members), object_text)
}

// The object that the members of an object are, which are taken out of it.
fn object_again(alloc: Global, object: Object) -> Result<String, AllocError> {
    let members = object.into_map(alloc)?;
    said(alloc, Object::from_map(alloc, members), object_copy)
}

// The members of an object in turn, each with its name.
fn members_text(object: &Object, alloc: Global) -> Result<String, AllocError> {
    let mut text = String::new(alloc);
    for member in object.as_slice() {
        let value = member.1.to_string(alloc)?;
        text.push_str(format!(in alloc; "{}={value};", member.0)?.as_str())?;
    }
    Ok(text)
}

// What an object shows of the member k, whether it has none of the name z and of a blank before k, and how many it has.
fn members_found(object: &Object, alloc: Global) -> Result<String, AllocError> {
    let found = object.get("k").and_then(Value::as_u64).unwrap_or(0);
    let missing = object.get("z").is_none() && object.get(" k").is_none();
    format!(in alloc; "{found} {missing} {}", object.len())
}

fn json_text(json: &Json, alloc: Global) -> Result<String, AllocError> {
    json.as_value().to_string(alloc)
}

fn json_copy(json: &Json, alloc: Global) -> Result<String, AllocError> {
    said(alloc, json.try_clone(alloc), json_text)
}

fn fill_value_text(fill_value: &FillValueMetadata, alloc: Global) -> Result<String, AllocError> {
    fill_value.as_value().to_string(alloc)
}

fn fill_value_copy(fill_value: &FillValueMetadata, alloc: Global) -> Result<String, AllocError> {
    said(alloc, fill_value.try_clone(alloc), fill_value_text)
}

// What a small part says, by the word before what it is made of.
fn part_says(alloc: Global, given: &str) -> Result<String, MetadataFault> {
    let (kind, text) = fields(given);
    let answer = match kind {
        "text" => text_says(alloc, text),
        "list" => list_says(alloc, number_of(alloc, text)?),
        "object" => object_again(alloc, object_of(alloc, text)?),
        "object of a map" => said(alloc, made(object_of(alloc, text)?), object_of_map),
        "new object" => said(alloc, made(Object::new(alloc)), object_copy),
        "found" => said(alloc, made(object_of(alloc, text)?), members_found),
        "byte orders differ" => printed(&(Endianness::Little != Endianness::Big), alloc),
        kind => value_says(alloc, kind, value_of(alloc, text)?),
    };
    Ok(answer?)
}

// The same of what holds a value.
fn value_says(alloc: Global, kind: &str, value: Value) -> Result<String, AllocError> {
    match kind {
        "item" => said(alloc, made(Json::new(value)), json_copy),
        "fill value" => said(alloc, made(FillValueMetadata::new(value)), fill_value_copy),
        _ => String::from_str(alloc, "no such part"),
    }
}

// Small parts.
const PARTS: &str = r#"
# texts, lists and objects go in and out
text | a => a
list | 7 => [7, 8] false
# and so does every member, in the order of names
object | {"k":7,"b":[1,{"x":"y"}],"q":null} => [b=[1,{"x":"y"}];k=7;q=null;] 3 false
object of a map | {"b":1,"a":{"c":[]}} => [a={"c":[]};b=1;] 2 false
new object | => [] 0 true
found | {"q":0,"b":1,"k":7} => 7 true 3
found | {"a":1,"b":1,"c":1,"d":1,"e":1,"f":1,"g":1,"h":1,"i":1,"j":1,"k":7,"l":1,"m":1,"n":1,"o":1,"p":1} => 7 true 16
# values go in and out
item | {"a":[3,null]} => {"a":[3,null]}
fill value | [4,"NaN"] => [4,"NaN"]
byte orders differ => true
"#;

#[test]
fn parts_go_in_and_out(rt: HostRuntime) -> Result<(), Fail> {
    check_rows(rt.alloc(), PARTS, part_says)
}

// The text of a value, or `none`.
fn value_text(value: Option<&Value>, alloc: Global) -> Result<String, AllocError> {
    match value {
        Some(value) => value.to_string(alloc),
        None => String::from_str(alloc, "none"),
    }
}

// Puts a number at a name, and says what stood there before and what the object is then.
fn with_member(
    alloc: Global,
    object: &mut Object,
    name: &str,
    value: u64,
) -> Result<String, AllocError> {
    let name = String::from_str(alloc, name)?;
    let before = object.insert(name, Value::from(value))?;
    let before = value_text(before.as_ref(), alloc)?;
    format!(in alloc; "{before} [{}]", members_text(object, alloc)?)
}

// Takes the member of a name out, and says what it was and what the object is then.
fn without_member(alloc: Global, object: &mut Object, name: &str) -> Result<String, AllocError> {
    let taken = object.remove(name);
    let taken = value_text(taken.as_ref(), alloc)?;
    format!(in alloc; "{taken} [{}]", members_text(object, alloc)?)
}

// One step: a number is put at a name, or the name alone is taken out.
fn object_step(alloc: Global, object: &mut Object, step: &str) -> Result<String, MetadataFault> {
    match step.split_once('=') {
        Some((name, value)) => Ok(with_member(alloc, object, name, number_of(alloc, value)?)?),
        None => Ok(without_member(alloc, object, step)?),
    }
}

// What the last of some steps says, the first of which meets an empty object.
fn object_steps(alloc: Global, given: &str) -> Result<String, MetadataFault> {
    let mut object = Object::new(alloc);
    let mut last = String::new(alloc);
    for step in given.split(' ') {
        last = object_step(alloc, &mut object, step)?;
    }
    Ok(last)
}

// Members that are put and taken out: what stood there before the last step, and all that there are behind it.
const OBJECT_STEPS: &str = r#"
k=1 => none [k=1;]
k=1 b=2 => none [b=2;k=1;]
k=1 b=2 q=3 => none [b=2;k=1;q=3;]
k=1 b=2 q=3 k=4 => 1 [b=2;k=4;q=3;]
k=1 b=2 q=3 k=4 c => none [b=2;k=4;q=3;]
k=1 b=2 q=3 k=4 c b => 2 [k=4;q=3;]
k=1 b=2 q=3 k=4 c b q => 3 [k=4;]
k=1 b=2 q=3 k=4 c b q k => 4 []
k=1 b=2 q=3 k=4 c b q k k => none []
# a name with a wide blank before it is another
k=1 　k => none [k=1;]
"#;

#[test]
fn members_are_put_and_taken_out(rt: HostRuntime) -> Result<(), Fail> {
    check_rows(rt.alloc(), OBJECT_STEPS, object_steps)
}

// ---- additional fields

// What a field holds, and whether it must be understood.
fn field_text(field: &AdditionalFieldV3, alloc: Global) -> Result<String, AllocError> {
    let text = field.as_value().to_string(alloc)?;
    format!(in alloc; "{text} {}", field.must_understand())
}

// The same, of a copy whose value is taken out.
fn field_taken(field: &AdditionalFieldV3, alloc: Global) -> Result<String, AllocError> {
    let text = field.clone()?.into_value().to_string(alloc)?;
    format!(in alloc; "{text} {}", field.must_understand())
}

fn field_copy(field: &AdditionalFieldV3, alloc: Global) -> Result<String, AllocError> {
    said(alloc, field.try_clone(alloc), field_text)
}

fn field_clone(field: &AdditionalFieldV3, alloc: Global) -> Result<String, AllocError> {
    said(alloc, field.clone(), field_text)
}

// What a new field holds, by its copy, by its clone and by its value that is taken out.
fn new_field_says(alloc: Global, given: &str, understood: bool) -> Result<String, MetadataFault> {
    let field = AdditionalFieldV3::new(alloc, value_of(alloc, given)?, understood)?;
    let copy = field_copy(&field, alloc)?;
    let both = agreed(alloc, copy, field_clone(&field, alloc)?)?;
    Ok(agreed(alloc, both, field_taken(&field, alloc)?)?)
}

// One field, of this name and value.
fn fields_of(alloc: Global, name: &str, value: Value) -> Result<AdditionalFieldsV3, AllocError> {
    match AdditionalFieldV3::new(alloc, value, true) {
        Ok(field) => AdditionalFieldsV3::from_map(alloc, one_member(alloc, name, field)?),
        Err(error) => Err(error),
    }
}

// The map of one member.
fn one_member<T: Drop>(alloc: Global, name: &str, value: T) -> Result<Map<String, T>, AllocError> {
    let name = String::from_str(alloc, name)?;
    let mut members = Map::new(alloc);
    drop(members.insert(name, value)?);
    Ok(members)
}

// The fields, how many there are, whether there is one of the name x and none of a blank before x, and whether there is none.
fn fields_text(fields: &AdditionalFieldsV3, alloc: Global) -> Result<String, AllocError> {
    let all = fields_shown(fields, alloc)?;
    format!(in alloc;
        "[{all}] {} {} {}",
        fields.len(),
        fields.get("x").is_some() && fields.get(" x").is_none(),
        fields.is_empty()
    )
}

fn fields_copy(fields: &AdditionalFieldsV3, alloc: Global) -> Result<String, AllocError> {
    said(alloc, fields.try_clone(alloc), fields_text)
}

// What the copy of a group's fields is.
fn group_fields(group: &GroupMetadataV3, alloc: Global) -> Result<String, AllocError> {
    fields_copy(&group.additional_fields, alloc)
}

// What a field or fields say, by the word before what they are made of.
fn fields_say(alloc: Global, given: &str) -> Result<String, MetadataFault> {
    let (kind, text) = fields(given);
    let answer = match kind {
        "must be understood" => return new_field_says(alloc, text, true),
        "may be passed over" => return new_field_says(alloc, text, false),
        "field of the name" => said(alloc, fields_of(alloc, text, Value::Null), fields_copy),
        "fields of a group" => said(
            alloc,
            GroupMetadataV3::from_bytes(alloc, text.as_bytes()),
            group_fields,
        ),
        "no fields" => said(alloc, made(AdditionalFieldsV3::new(alloc)), fields_text),
        _ => String::from_str(alloc, "no such field"),
    };
    Ok(answer?)
}

// Additional fields.
const FIELDS: &str = r#"
# fields say whether they must be understood
must be understood | {"a":1,"must_understand":false} => {"a":1} true
must be understood | {"value":1} => {"value":1} true
may be passed over | {"a":1} => {"a":1,"must_understand":false} false
may be passed over | 5 => 5 true
must be understood | 5 => 5 true
must be understood | "a" => "a" true
may be passed over | "a" => "a" true
# a copy has every field; how many there are, whether one has the name x, and whether there is none
field of the name | x => [x=null true;] 1 true false
field of the name | y => [y=null true;] 1 false false
fields of a group | {"node_type":"group","q":{"must_understand":false,"n":1},"r":[5],"zarr_format":3} => [q={"must_understand":false,"n":1} false;r=[5] true;] 2 false false
no fields => [] 0 false true
"#;

#[test]
fn fields_go_in_and_out(rt: HostRuntime) -> Result<(), Fail> {
    check_rows(rt.alloc(), FIELDS, fields_say)
}

// The fields in turn, each with its name and whether it must be understood.
fn fields_shown(fields: &AdditionalFieldsV3, alloc: Global) -> Result<String, AllocError> {
    let mut text = String::new(alloc);
    for field in fields.as_slice() {
        let value = field_text(&field.1, alloc)?;
        text.push_str(format!(in alloc; "{}={value};", field.0)?.as_str())?;
    }
    Ok(text)
}

// What a field holds, or `none`.
fn held_text(field: Option<&AdditionalFieldV3>, alloc: Global) -> Result<String, AllocError> {
    match field {
        Some(field) => field_text(field, alloc),
        None => String::from_str(alloc, "none"),
    }
}

// Puts a field of this value, and says what stood there before and what the fields are then.
fn with_field(
    alloc: Global,
    fields: &mut AdditionalFieldsV3,
    name: &str,
    value: u64,
) -> Result<String, AllocError> {
    let field = AdditionalFieldV3::new(alloc, Value::from(value), true)?;
    let name = String::from_str(alloc, name)?;
    let before = fields.insert(name, field)?;
    let before = held_text(before.as_ref(), alloc)?;
    format!(in alloc; "{before} [{}]", fields_shown(fields, alloc)?)
}

// Takes the field of a name out, and says what it was and what the fields are then.
fn without_field(
    alloc: Global,
    fields: &mut AdditionalFieldsV3,
    name: &str,
) -> Result<String, AllocError> {
    let taken = fields.remove(name);
    let taken = held_text(taken.as_ref(), alloc)?;
    format!(in alloc; "{taken} [{}]", fields_shown(fields, alloc)?)
}

// One step: a number is put at a name, or the name alone is taken out.
fn field_step(
    alloc: Global,
    fields: &mut AdditionalFieldsV3,
    step: &str,
) -> Result<String, MetadataFault> {
    match step.split_once('=') {
        Some((name, value)) => Ok(with_field(alloc, fields, name, number_of(alloc, value)?)?),
        None => Ok(without_field(alloc, fields, step)?),
    }
}

// What the last of some steps says, the first of which meets no fields.
fn field_steps(alloc: Global, given: &str) -> Result<String, MetadataFault> {
    let mut fields = AdditionalFieldsV3::new(alloc);
    let mut last = String::new(alloc);
    for step in given.split(' ') {
        last = field_step(alloc, &mut fields, step)?;
    }
    Ok(last)
}

// Fields that are put and taken out: what stood there before the last step, and all that there are behind it.
const FIELD_STEPS: &str = r#"
y=1 => none [y=1 true;]
y=1 x=2 => none [x=2 true;y=1 true;]
y=1 x=2 y=3 => 1 true [x=2 true;y=3 true;]
y=1 x=2 y=3 z => none [x=2 true;y=3 true;]
y=1 x=2 y=3 z x => 2 true [y=3 true;]
y=1 x=2 y=3 z x y => 3 true []
"#;

#[test]
fn fields_are_put_and_taken_out(rt: HostRuntime) -> Result<(), Fail> {
    check_rows(rt.alloc(), FIELD_STEPS, field_steps)
}

// ---- what is not plain

fn group_v2_of(
    alloc: Global,
    attributes: &str,
    fields: &str,
) -> Result<GroupMetadataV2, MetadataFault> {
    Ok(GroupMetadataV2 {
        attributes: object_of(alloc, attributes)?,
        additional_fields: object_of(alloc, fields)?,
    })
}

fn group_v2_plain(group: &GroupMetadataV2, alloc: Global) -> Result<String, AllocError> {
    printed(&group.is_plain(), alloc)
}

// The version 3 group with a null field of this name.
fn group_v3_of(alloc: Global, name: &str) -> Result<GroupMetadataV3, AllocError> {
    match fields_of(alloc, name, Value::Null) {
        Ok(additional_fields) => Ok(GroupMetadataV3 {
            attributes: Object::new(alloc),
            additional_fields,
        }),
        Err(error) => Err(error),
    }
}

fn group_v3_plain(group: &GroupMetadataV3, alloc: Global) -> Result<String, AllocError> {
    printed(&group.is_plain(), alloc)
}

// An array with these chunks in place of its own.
fn with_chunks(
    array: Result<ArrayMetadataV2, MetadataFault>,
    chunks: Vec<u64>,
) -> Result<ArrayMetadataV2, MetadataFault> {
    match array {
        Ok(mut array) => {
            array.chunks = List::new(chunks);
            Ok(array)
        }
        Err(fault) => Err(fault),
    }
}

fn array_v2_plain(array: &ArrayMetadataV2, alloc: Global) -> Result<String, AllocError> {
    printed(&array.is_plain(), alloc)
}

// Whether an array with chunks of this length is plain.
fn chunks_plain(alloc: Global, length: u64) -> Result<String, AllocError> {
    let chunks: Vec<u64> = vec![in alloc; length]?;
    let array = ArrayMetadataV2::from_bytes(alloc, A2.as_bytes());
    said(alloc, with_chunks(array, chunks), array_v2_plain)
}

// Whether metadata is plain, by the word before what it is made of.
fn plain_says(alloc: Global, given: &str) -> Result<String, MetadataFault> {
    let (kind, text) = fields(given);
    let answer = match kind {
        "attributes and fields" => {
            let (attributes, others) = fields(text);
            said(
                alloc,
                group_v2_of(alloc, attributes, others),
                group_v2_plain,
            )
        }
        "null field" => said(alloc, group_v3_of(alloc, text), group_v3_plain),
        "chunk length" => chunks_plain(alloc, number_of(alloc, text)?),
        _ => String::from_str(alloc, "nothing of the kind"),
    };
    Ok(answer?)
}

// What is plain, and what is not.
const PLAIN: &str = r#"
# groups of version 2
attributes and fields | {} | {} => true
attributes and fields | {"n":0.5} | {} => false
attributes and fields | {} | {"n":0.5} => false
attributes and fields | {} | {"shape":1} => false
# groups of version 3
null field | x => true
null field | consolidated_metadata => false
null field | attributes => false
null field | node_type => false
# arrays of version 2
chunk length | 1 => true
chunk length | 0 => false
"#;

#[test]
fn some_metadata_is_not_plain(rt: HostRuntime) -> Result<(), Fail> {
    check_rows(rt.alloc(), PLAIN, plain_says)
}

// ---- the fields of arrays

fn array_v2_fields(array: &ArrayMetadataV2, alloc: Global) -> Result<String, AllocError> {
    format!(in alloc;
        "{:?} {:?} {:?} {:?}",
        array.shape.as_slice(),
        array.chunks.as_slice(),
        array.dimension_separator,
        array.order
    )
}

// The identifier of a codec and its configuration.
fn codec_text(codec: &MetadataV2, alloc: Global) -> Result<String, AllocError> {
    let configuration = members_text(&codec.configuration, alloc)?;
    format!(in alloc; "{} {configuration}", codec.id.as_str())
}

fn compressor_copy(array: &ArrayMetadataV2, alloc: Global) -> Result<String, AllocError> {
    match &array.compressor {
        Some(codec) => said(alloc, codec.try_clone(alloc), codec_text),
        None => String::from_str(alloc, "none"),
    }
}

// The variant of a data type and what is written of it.
fn data_type_v2_text(data_type: &DataTypeMetadataV2, alloc: Global) -> Result<String, AllocError> {
    let variant = match data_type {
        DataTypeMetadataV2::Simple(_) => "Simple",
        DataTypeMetadataV2::Structured(_) => "Structured",
    };
    format!(in alloc; "{variant} {}", written(data_type, alloc)?)
}

fn data_type_v2_copy(array: &ArrayMetadataV2, alloc: Global) -> Result<String, AllocError> {
    said(alloc, array.dtype.try_clone(alloc), data_type_v2_text)
}

fn data_type_v3_copy(array: &ArrayMetadataV3, alloc: Global) -> Result<String, AllocError> {
    said(alloc, array.data_type.try_clone(alloc), written)
}

fn chunk_grid_copy(array: &ArrayMetadataV3, alloc: Global) -> Result<String, AllocError> {
    said(alloc, array.chunk_grid.try_clone(alloc), written)
}

// What an array says of itself, or of the copy of a part, by the word before its text.
fn array_says(alloc: Global, given: &str) -> Result<String, AllocError> {
    let (kind, text) = fields(given);
    match kind {
        "data type of version 3" => said(
            alloc,
            ArrayMetadataV3::from_bytes(alloc, text.as_bytes()),
            data_type_v3_copy,
        ),
        "chunk grid" => said(
            alloc,
            ArrayMetadataV3::from_bytes(alloc, text.as_bytes()),
            chunk_grid_copy,
        ),
        _ => array_v2_says(alloc, kind, text.as_bytes()),
    }
}

// The same of an array of version 2.
fn array_v2_says(alloc: Global, kind: &str, bytes: &[u8]) -> Result<String, AllocError> {
    let array = ArrayMetadataV2::from_bytes(alloc, bytes);
    match kind {
        "fields" => said(alloc, array, array_v2_fields),
        "compressor" => said(alloc, array, compressor_copy),
        "data type of version 2" => said(alloc, array, data_type_v2_copy),
        _ => String::from_str(alloc, "nothing of the kind"),
    }
}

// The fields of arrays.
const ARRAYS: &str = r#"
# an array of version 2 has its fields
fields | {"chunks":[1000,1000],"compressor":{"id":"blosc","cname":"lz4","clevel":5,"shuffle":1},"dtype":"<f8","fill_value":"NaN","filters":null,"order":"F","shape":[10000,10000],"zarr_format":2} => [10000, 10000] [1000, 1000] Dot F
compressor | {"chunks":[1000,1000],"compressor":{"id":"blosc","cname":"lz4","clevel":5,"shuffle":1},"dtype":"<f8","fill_value":"NaN","filters":null,"order":"F","shape":[10000,10000],"zarr_format":2} => blosc clevel=5;cname="lz4";shuffle=1;
data type of version 2 | {"chunks":[1000,1000],"compressor":{"id":"blosc","cname":"lz4","clevel":5,"shuffle":1},"dtype":"<f8","fill_value":"NaN","filters":null,"order":"F","shape":[10000,10000],"zarr_format":2} => Simple "<f8"
# a structured data type is kept
data type of version 2 | {"chunks":[1],"compressor":null,"dtype":[["r","|u1"],["g","|u1"]],"fill_value":null,"filters":null,"order":"C","shape":[1],"zarr_format":2} => Structured [["r","|u1"],["g","|u1"]]
# an array of version 3 has its extensions
data type of version 3 | {"chunk_grid":{"configuration":{"chunk_shape":[1]},"name":"regular"},"chunk_key_encoding":{"configuration":{"separator":"/"},"name":"default"},"codecs":[{"configuration":{"endian":"little"},"name":"bytes"}],"data_type":"float32","fill_value":0,"node_type":"array","shape":[1],"zarr_format":3} => "float32"
chunk grid | {"chunk_grid":{"configuration":{"chunk_shape":[1]},"name":"regular"},"chunk_key_encoding":{"configuration":{"separator":"/"},"name":"default"},"codecs":[{"configuration":{"endian":"little"},"name":"bytes"}],"data_type":"float32","fill_value":0,"node_type":"array","shape":[1],"zarr_format":3} => {"configuration":{"chunk_shape":[1]},"name":"regular"}
"#;

#[test]
fn arrays_have_their_fields(rt: HostRuntime) -> Result<(), Fail> {
    check_rows(rt.alloc(), ARRAYS, array_says)
}

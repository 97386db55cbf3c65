//! Groups that are made, opened, stored and erased. Each helper holds a group and answers a text; the tests are tables of texts.

use crate::fixture_rows::store_in;
use crate::fixtures::{Step, done, group_text, left_text, refused, store_built_at};
use log::sink::Discard;
use serde_json::{Map, Value};
use std::alloc::{AllocError, Global};
use std::test::Fail;
use tests_fixtures::{
    config_of as config_by, document_of, lists_text, no_word, node_text, pairs_text, policy_of,
    version_of,
};
use tests_support::{check_rows, fields, printed, refusal, said};
use zarrs_block::resolve_consolidated_policy;
use zarrs_config::{
    Config, GroupMetadataOptions, MetadataConvertVersion, MetadataEraseVersion,
    UseConsolidatedMetadata,
};
use zarrs_group::{AdditionalFieldUnsupportedError, Group, GroupBuilder, GroupCreateError, laws};
use zarrs_meaning::NodeCreateError;
use zarrs_meta::{
    AdditionalFieldV3, AdditionalFieldsV3, Document, GroupMetadata, GroupMetadataV2,
    GroupMetadataV3, Object,
};
use zarrs_node::Node;
use zarrs_path::{NodePath, NodePathError};
use zarrs_store::{MemoryStore, Numbers, StorageError, StorePrefix};

// ---- groups

fn members(alloc: Global, text: &str) -> Result<Map<String, Value>, GroupCreateError> {
    match Value::from_str(alloc, text) {
        Ok(Value::Object(members)) => Ok(members),
        _ => Err(GroupCreateError::from(no_word(alloc, text))),
    }
}

fn object_of(alloc: Global, text: &str) -> Result<Object, GroupCreateError> {
    Ok(Object::from_map(alloc, members(alloc, text)?)?)
}

fn field_of(alloc: Global, value: &Value) -> Result<AdditionalFieldV3, GroupCreateError> {
    let understood = value.get("must_understand").is_none();
    Ok(AdditionalFieldV3::new(alloc, value.clone()?, understood)?)
}

// Puts the fields that members are.
fn put_fields(
    fields: &mut Map<String, AdditionalFieldV3>,
    alloc: Global,
    members: &Map<String, Value>,
) -> Result<(), GroupCreateError> {
    for (name, value) in members.iter() {
        let field = field_of(alloc, value)?;
        drop(fields.insert(name.clone()?, field)?);
    }
    Ok(())
}

fn other_fields(alloc: Global, text: &str) -> Result<AdditionalFieldsV3, GroupCreateError> {
    let members = members(alloc, text)?;
    let mut fields = Map::new(alloc);
    put_fields(&mut fields, alloc, &members)?;
    Ok(AdditionalFieldsV3::from_map(alloc, fields)?)
}

// Metadata of version 2 with these attributes and these other fields.
fn two(alloc: Global, attributes: &str, others: &str) -> Result<GroupMetadata, GroupCreateError> {
    let attributes = object_of(alloc, attributes)?;
    let additional_fields = object_of(alloc, others)?;
    Ok(GroupMetadata::V2(GroupMetadataV2 {
        attributes,
        additional_fields,
    }))
}

// Metadata of version 3 with these attributes and these other fields.
fn three(alloc: Global, attributes: &str, others: &str) -> Result<GroupMetadata, GroupCreateError> {
    let attributes = object_of(alloc, attributes)?;
    let additional_fields = other_fields(alloc, others)?;
    Ok(GroupMetadata::V3(GroupMetadataV3 {
        attributes,
        additional_fields,
    }))
}

// The metadata that three fields are: a version, attributes and other fields.
fn metadata_of(alloc: Global, given: &str) -> Result<GroupMetadata, GroupCreateError> {
    let (version, rest) = fields(given);
    let (attributes, others) = fields(rest);
    match version {
        "2" => two(alloc, attributes, others),
        "3" => three(alloc, attributes, others),
        word => Err(GroupCreateError::from(no_word(alloc, word))),
    }
}

/// The group at `/g` with the metadata that three fields are, which `Group::at` makes where `at` stands before them, and whose attributes
/// were lent where `lent` does.
pub(crate) fn group_of(
    alloc: Global,
    given: &str,
    config: &Config,
) -> Result<Group, GroupCreateError> {
    if let Some(parts) = given.strip_prefix("at | ") {
        let metadata = metadata_of(alloc, parts)?;
        return Ok(Group::at(NodePath::new(alloc, "/g")?, metadata, config));
    }
    if let Some(parts) = given.strip_prefix("lent | ") {
        let metadata = metadata_of(alloc, parts)?;
        let mut group = Group::new_with_metadata(alloc, "/g", metadata, config)?;
        let _attributes = group.attributes_mut();
        return Ok(group);
    }
    let metadata = metadata_of(alloc, given)?;
    Group::new_with_metadata(alloc, "/g", metadata, config)
}

// The refusal of a group; of a field that must be understood with its name and its value.
fn refusal_text(alloc: Global, error: &GroupCreateError) -> Result<String, AllocError> {
    let text = refusal(alloc, error)?;
    match error {
        GroupCreateError::AdditionalFieldUnsupportedError(field) => {
            let value = field.value().to_string(alloc)?;
            let name = field.name();
            format!(in alloc; "{text}, {name} {value}")
        }
        _ => Ok(text),
    }
}

// The group in words with its block, or the refusal.
fn group_said(
    alloc: Global,
    answer: Result<Group, GroupCreateError>,
) -> Result<String, AllocError> {
    match answer {
        Ok(group) => group_text(&group, alloc),
        Err(error) => refusal_text(alloc, &error),
    }
}

// ---- opening

// The group at a path of a store, by a version, by a policy of blocks, or by default for `-`.
fn opened_by(
    alloc: Global,
    store: &MemoryStore,
    path: &str,
    word: &str,
) -> Result<Group, GroupCreateError> {
    let config = Config::new();
    match word {
        "-" => Group::open(alloc, store, path, &config),
        "any" | "v2" | "v3" => {
            let version = version_of(alloc, word)?;
            Group::open_opt(alloc, store, path, &version, &config)
        }
        word => Group::open(alloc, store, path, &config_by(policy_of(alloc, word)?)),
    }
}

// What opening a path says over the store with the documents of a list. `PATH | WORD | LIST`.
fn opened(alloc: Global, given: &str) -> Result<String, StorageError> {
    let (path, rest) = fields(given);
    let (word, list) = fields(rest);
    let store = store_in(alloc, list)?;
    Ok(group_said(alloc, opened_by(alloc, &store, path, word))?)
}

// Paths, versions and documents, and what opening says.
const OPENED: &str = r#"
# A path is opened by its first document.
/g | - | g/zarr.json=G3 g/.zgroup=[] g/.zattrs=[] => group at /g with metadata {"node_type":"group","zarr_format":3}
/g | - | g/.zgroup=G2 g/.zarray={} => group at /g with metadata {"zarr_format":2}
/g | - | g/.zgroup=G2 g/.zattrs={"k":1} => group at /g with metadata {"attributes":{"k":1},"zarr_format":2}
/g | - | g/.zattrs={"k":1} g/.zarray={} => MissingMetadata: group metadata is missing
/g | - | g/.zgroup=[] g/.zarray={} => StorageError(InvalidMetadata): error parsing metadata for g/.zgroup: not an object
/g | - | g/.zgroup=G2 g/.zattrs=[] => StorageError(InvalidMetadata): error parsing metadata for g/.zattrs: not an object

# The root is opened.
/ | - | zarr.json=NUL => StorageError(InvalidMetadata): error parsing metadata for zarr.json: not JSON
/ | - | zarr.json=G2 => StorageError(InvalidMetadata): error parsing metadata for zarr.json: wrong zarr_format
/ | - | zarr.json={"node_type":"array","zarr_format":3} => StorageError(InvalidMetadata): error parsing metadata for zarr.json: wrong node_type
abc | - | zarr.json=G3 => NodePathError(Invalid): invalid node path abc
/group | - | zarr.json=G3 => MissingMetadata: group metadata is missing
/ | - | zarr.json=G3 => group at / with metadata {"node_type":"group","zarr_format":3}

# Nothing is opened in an empty store.
abc | - | - => NodePathError(Invalid): invalid node path abc
/group | - | - => MissingMetadata: group metadata is missing

# An array beside a group is not looked at.
/p | - | p/.zarray=A2 p/.zgroup=[] => StorageError(InvalidMetadata): error parsing metadata for p/.zgroup: not an object
/p | - | p/.zarray=A2 p/.zgroup=G2 => group at /p with metadata {"zarr_format":2}

# The version limits what is looked at.
/g | any | g/zarr.json=G3 g/.zgroup=G2 => group at /g with metadata {"node_type":"group","zarr_format":3}
/g | v3 | g/zarr.json=G3 g/.zgroup=G2 => group at /g with metadata {"node_type":"group","zarr_format":3}
/g | v2 | g/zarr.json=G3 g/.zgroup=G2 => group at /g with metadata {"zarr_format":2}
/g | v3 | g/.zgroup=G2 => MissingMetadata: group metadata is missing

# Fields and attributes are opened.
/g | - | g/zarr.json={"attributes":{"eggs":42,"spam":"ham"},"node_type":"group","zarr_format":3} => group at /g with metadata {"attributes":{"eggs":42,"spam":"ham"},"node_type":"group","zarr_format":3}
/g | - | g/zarr.json={"a":{"must_understand":false},"node_type":"group","zarr_format":3} => group at /g with metadata {"a":{"must_understand":false},"node_type":"group","zarr_format":3}
/g | - | g/zarr.json={"attributes":{"n":1.5},"node_type":"group","zarr_format":3} => StorageError(InvalidMetadata): error parsing metadata for g/zarr.json: unsupported number
/g | - | g/zarr.json={"consolidated_metadata":{"kind":"inline","metadata":{"a":{"attributes":{"n":1.5},"node_type":"group","zarr_format":3}}},"node_type":"group","zarr_format":3} => StorageError(InvalidMetadata): error parsing metadata for g/zarr.json: unsupported number
/ | auto | zarr.json={"consolidated_metadata":{"kind":"inline","metadata":{"a":{"attributes":{"n":1.5},"node_type":"group","zarr_format":3}}},"node_type":"group","zarr_format":3} => StorageError(InvalidMetadata): error parsing metadata for zarr.json: unsupported number
/ | must | zarr.json={"consolidated_metadata":{"kind":"inline","metadata":{"a":{"attributes":{"n":1.5},"node_type":"group","zarr_format":3}}},"node_type":"group","zarr_format":3} => StorageError(InvalidMetadata): error parsing metadata for zarr.json: unsupported number
/ | never | zarr.json={"consolidated_metadata":{"kind":"inline","metadata":{"a":{"attributes":{"n":1.5},"node_type":"group","zarr_format":3}}},"node_type":"group","zarr_format":3} => StorageError(InvalidMetadata): error parsing metadata for zarr.json: unsupported number
/g | - | g/zarr.json={"consolidated_metadata":null,"node_type":"group","zarr_format":3} => group at /g with metadata {"node_type":"group","zarr_format":3}
/g | - | g/zarr.json={"consolidated_metadata":{"kind":"inline","metadata":{}},"node_type":"group","zarr_format":3} => AdditionalFieldUnsupportedError: unsupported additional field consolidated_metadata, consolidated_metadata {"kind":"inline","metadata":{}}
/g | - | g/zarr.json={"unknown":"unsupported","node_type":"group","zarr_format":3} => AdditionalFieldUnsupportedError: unsupported additional field unknown, unknown "unsupported"

# A block need not be understood only where it is null.
/ | - | zarr.json={"consolidated_metadata":{"kind":"inline","metadata":{}},"node_type":"group","zarr_format":3} => AdditionalFieldUnsupportedError: unsupported additional field consolidated_metadata, consolidated_metadata {"kind":"inline","metadata":{}}
/ | - | zarr.json={"consolidated_metadata":null,"node_type":"group","zarr_format":3} => group at / with metadata {"node_type":"group","zarr_format":3}
/ | - | zarr.json={"node_type":"group","unknown":"unsupported","zarr_format":3} => AdditionalFieldUnsupportedError: unsupported additional field unknown, unknown "unsupported"

# The least field that must be understood is named, with its value.
/g | - | g/zarr.json={"b":1,"a":1,"node_type":"group","zarr_format":3} => AdditionalFieldUnsupportedError: unsupported additional field a, a 1
/g | - | g/zarr.json={"b":[2],"a":{"must_understand":false},"node_type":"group","zarr_format":3} => AdditionalFieldUnsupportedError: unsupported additional field b, b [2]
/g | - | g/zarr.json={"a":{"must_understand":true},"node_type":"group","zarr_format":3} => AdditionalFieldUnsupportedError: unsupported additional field a, a {"must_understand":true}

# The block beside a version 2 group is held, where it reads as one; under every policy and by both versions that read it.
/g | - | g/.zgroup=G2 g/.zmetadata={"metadata":{"a/.zgroup":{"zarr_format":2},"a/.zattrs":{"k":1}},"zarr_consolidated_format":1} => group at /g with metadata {"zarr_format":2} and the block {"kind":"inline","metadata":{"a":{"attributes":{"k":1},"zarr_format":2}},"must_understand":false}
/g | never | g/.zgroup=G2 g/.zmetadata={"metadata":{"x/y/.zgroup":{"zarr_format":2}},"zarr_consolidated_format":1} => group at /g with metadata {"zarr_format":2} and the block {"kind":"inline","metadata":{"x/y":{"zarr_format":2}},"must_understand":false}
/g | any | g/.zgroup=G2 g/.zattrs={"k":1} g/.zmetadata={"metadata":{"a/.zattrs":{}},"zarr_consolidated_format":1} => group at /g with metadata {"attributes":{"k":1},"zarr_format":2} and the block {"kind":"inline","metadata":{},"must_understand":false}
/g | v2 | g/zarr.json=G3 g/.zgroup=G2 g/.zmetadata={"metadata":{"a/0.0":{}},"zarr_consolidated_format":1} => group at /g with metadata {"zarr_format":2} and the block {"kind":"inline","metadata":{},"must_understand":false}
/g | - | g/.zgroup=G2 g/.zmetadata={"metadata":{},"zarr_consolidated_format":2} => group at /g with metadata {"zarr_format":2}
/g | - | g/.zgroup=G2 g/.zmetadata=NUL => group at /g with metadata {"zarr_format":2}
/g | - | g/zarr.json=G3 g/.zmetadata={"metadata":{"a/.zgroup":{"zarr_format":2}},"zarr_consolidated_format":1} => group at /g with metadata {"node_type":"group","zarr_format":3}
"#;

#[test]
fn groups_are_opened(rt: HostRuntime) -> Result<(), Fail> {
    check_rows(rt.alloc(), OPENED, opened)
}

// ---- storing and erasing

/// The call that a word is of.
pub(crate) fn step_of(alloc: Global, word: &str) -> Result<Step, StorageError> {
    match word {
        "store" => Ok(Step::Store),
        "store v3" => Ok(Step::StoreAs(MetadataConvertVersion::V3)),
        "store default" => Ok(Step::StoreAs(MetadataConvertVersion::Default)),
        "erase" => Ok(Step::Erase),
        "erase v3" => Ok(Step::EraseAs(MetadataEraseVersion::V3)),
        "erase v2" => Ok(Step::EraseAs(MetadataEraseVersion::V2)),
        "erase all" => Ok(Step::EraseAs(MetadataEraseVersion::All)),
        "erase default" => Ok(Step::EraseAs(MetadataEraseVersion::Default)),
        word => Err(no_word(alloc, word)),
    }
}

// The configuration that stores as version 3 and erases all documents.
fn v3_and_all() -> Config {
    let mut config = Config::new();
    config.set_metadata_convert_version(MetadataConvertVersion::V3);
    config.set_metadata_erase_version(MetadataEraseVersion::All);
    config
}

// The configuration that a word is of; the new one for `-`.
fn config_of(alloc: Global, word: &str) -> Result<Config, StorageError> {
    match word {
        "-" => Ok(Config::new()),
        "v3 and all" => Ok(v3_and_all()),
        word => Err(no_word(alloc, word)),
    }
}

// What a step on a group says over a store, where it is refused, and what the store then holds; the step, then the group.
fn stepped(
    alloc: Global,
    store: &mut MemoryStore,
    config: &Config,
    given: &str,
) -> Result<String, GroupCreateError> {
    let (step, given) = fields(given);
    let step = step_of(alloc, step)?;
    let group = group_of(alloc, given, config)?;
    let answer = done(alloc, &group, store, step);
    Ok(left_text(alloc, answer, "\n", store)?)
}

// Appends what each of the steps on groups under a configuration says, one after another over one store.
fn push_steps(
    text: &mut String,
    alloc: Global,
    store: &mut MemoryStore,
    config: &Config,
    steps: &str,
) -> Result<(), GroupCreateError> {
    for step in steps.split("; ") {
        let said = stepped(alloc, store, config, step)?;
        write!(text, "{said}then\n")?;
    }
    Ok(())
}

// What steps on groups under a configuration say over the store with the documents of a list. `LIST | CONFIGURATION | STEP; STEP ..`.
fn after(alloc: Global, given: &str) -> Result<String, GroupCreateError> {
    let (list, rest) = fields(given);
    let (config, steps) = fields(rest);
    let config = config_of(alloc, config)?;
    let mut store = store_in(alloc, list)?;
    let mut text = String::new(alloc);
    push_steps(&mut text, alloc, &mut store, &config, steps)?;
    Ok(text)
}

// What a store holds, a configuration, and steps on groups; after each step the refusal, and all that the store holds.
const STORED: &str = r#"
# Version 2 is stored and erased key by key, in one store: with attributes, without, as version 3; erased; with attributes, and all erased.
g/.zarray=A2 | - | store | 2 | {"k":1} | {}; store | 2 | {} | {}; store v3 | 2 | {} | {}; erase default | 2 | {} | {}; store default | 2 | {"k":1} | {}; erase all | 2 | {"k":1} | {} => g/.zarray {"chunks":[1],"compressor":null,"dtype":"<f8","fill_value":"NaN","filters":null,"order":"C","shape":[1],"zarr_format":2}\ng/.zattrs {\n  "k": 1\n}\ng/.zgroup {\n  "zarr_format": 2\n}\nthen\ng/.zarray {"chunks":[1],"compressor":null,"dtype":"<f8","fill_value":"NaN","filters":null,"order":"C","shape":[1],"zarr_format":2}\ng/.zgroup {\n  "zarr_format": 2\n}\nthen\ng/.zarray {"chunks":[1],"compressor":null,"dtype":"<f8","fill_value":"NaN","filters":null,"order":"C","shape":[1],"zarr_format":2}\ng/.zgroup {\n  "zarr_format": 2\n}\ng/zarr.json {\n  "node_type": "group",\n  "zarr_format": 3\n}\nthen\ng/.zarray {"chunks":[1],"compressor":null,"dtype":"<f8","fill_value":"NaN","filters":null,"order":"C","shape":[1],"zarr_format":2}\ng/zarr.json {\n  "node_type": "group",\n  "zarr_format": 3\n}\nthen\ng/.zarray {"chunks":[1],"compressor":null,"dtype":"<f8","fill_value":"NaN","filters":null,"order":"C","shape":[1],"zarr_format":2}\ng/.zattrs {\n  "k": 1\n}\ng/.zgroup {\n  "zarr_format": 2\n}\ng/zarr.json {\n  "node_type": "group",\n  "zarr_format": 3\n}\nthen\ng/.zarray {"chunks":[1],"compressor":null,"dtype":"<f8","fill_value":"NaN","filters":null,"order":"C","shape":[1],"zarr_format":2}\nthen\n

# Storing version 2 without a block erases an older one.
g/.zarray=[x] g/.zmetadata=[m] | - | store | 2 | {"k":1} | {} => g/.zarray [x]\ng/.zattrs {\n  "k": 1\n}\ng/.zgroup {\n  "zarr_format": 2\n}\nthen\n

# Each version erases its own keys.
g/zarr.json=[j] g/.zgroup=[g] g/.zattrs=[a] g/.zarray=[x] g/.zmetadata=[m] | - | erase default | 2 | {} | {} => g/.zarray [x]\ng/zarr.json [j]\nthen\n
g/zarr.json=[j] g/.zgroup=[g] g/.zattrs=[a] g/.zarray=[x] g/.zmetadata=[m] | - | erase v3 | 2 | {} | {} => g/.zarray [x]\ng/.zattrs [a]\ng/.zgroup [g]\ng/.zmetadata [m]\nthen\n
g/zarr.json=[j] g/.zgroup=[g] g/.zattrs=[a] g/.zarray=[x] g/.zmetadata=[m] | - | erase v2 | 2 | {} | {} => g/.zarray [x]\ng/zarr.json [j]\nthen\n
g/zarr.json=[j] g/.zgroup=[g] g/.zattrs=[a] g/.zarray=[x] g/.zmetadata=[m] | - | erase all | 2 | {} | {} => g/.zarray [x]\nthen\n
g/zarr.json=[j] g/.zgroup=[g] g/.zattrs=[a] g/.zarray=[x] g/.zmetadata=[m] | - | erase default | 3 | {} | {} => g/.zarray [x]\ng/.zattrs [a]\ng/.zgroup [g]\ng/.zmetadata [m]\nthen\n
g/zarr.json=[j] g/.zgroup=[g] g/.zattrs=[a] g/.zarray=[x] g/.zmetadata=[m] | - | erase v3 | 3 | {} | {} => g/.zarray [x]\ng/.zattrs [a]\ng/.zgroup [g]\ng/.zmetadata [m]\nthen\n
g/zarr.json=[j] g/.zgroup=[g] g/.zattrs=[a] g/.zarray=[x] g/.zmetadata=[m] | - | erase v2 | 3 | {} | {} => g/.zarray [x]\ng/zarr.json [j]\nthen\n
g/zarr.json=[j] g/.zgroup=[g] g/.zattrs=[a] g/.zarray=[x] g/.zmetadata=[m] | - | erase all | 3 | {} | {} => g/.zarray [x]\nthen\n

# A configuration gives the options.
g/.zgroup=[g] g/.zattrs=[a] g/.zarray=[x] g/.zmetadata=[m] | v3 and all | store | 2 | {"k":1} | {}; erase | 2 | {"k":1} | {} => g/.zarray [x]\ng/.zattrs [a]\ng/.zgroup [g]\ng/.zmetadata [m]\ng/zarr.json {\n  "attributes": {\n    "k": 1\n  },\n  "node_type": "group",\n  "zarr_format": 3\n}\nthen\ng/.zarray [x]\nthen\n
g/.zgroup=[g] g/.zattrs=[a] g/.zarray=[x] g/.zmetadata=[m] | v3 and all | store | at | 2 | {"k":1} | {}; erase | at | 2 | {"k":1} | {} => g/.zarray [x]\ng/.zattrs [a]\ng/.zgroup [g]\ng/.zmetadata [m]\ng/zarr.json {\n  "attributes": {\n    "k": 1\n  },\n  "node_type": "group",\n  "zarr_format": 3\n}\nthen\ng/.zarray [x]\nthen\n
g/zarr.json=[j] g/.zgroup=[g] g/.zarray=[x] | v3 and all | erase | lent | 2 | {} | {} => g/.zarray [x]\nthen\n

# What is not plain is refused before any write.
g/zarr.json=[j] g/.zgroup=[g] g/.zattrs=[a] | - | store | 3 | {} | {"node_type":1,"attributes":1} => InvalidMetadata: error parsing metadata for g/zarr.json: bad member attributes\ng/.zattrs [a]\ng/.zgroup [g]\ng/zarr.json [j]\nthen\n
g/zarr.json=[j] g/.zgroup=[g] g/.zattrs=[a] | - | store | 3 | {} | {"node_type":1,"consolidated_metadata":null} => InvalidMetadata: error parsing metadata for g/zarr.json: bad member consolidated_metadata\ng/.zattrs [a]\ng/.zgroup [g]\ng/zarr.json [j]\nthen\n
g/zarr.json=[j] g/.zgroup=[g] g/.zattrs=[a] | - | store | 3 | {"n":1.5} | {"attributes":1} => InvalidMetadata: error parsing metadata for g/zarr.json: unsupported number\ng/.zattrs [a]\ng/.zgroup [g]\ng/zarr.json [j]\nthen\n
g/zarr.json=[j] g/.zgroup=[g] g/.zattrs=[a] | - | store | 2 | {} | {"shape":[1.5]} => InvalidMetadata: error parsing metadata for g/.zgroup: unsupported number\ng/.zattrs [a]\ng/.zgroup [g]\ng/zarr.json [j]\nthen\n

# A version 2 group with the field `shape` is refused, and is stored as version 3.
g/zarr.json=[j] g/.zgroup=[g] g/.zattrs=[a] | - | store | 2 | {} | {"shape":[1]}; store v3 | 2 | {} | {"shape":[1]} => InvalidMetadata: error parsing metadata for g/.zgroup: bad member shape\ng/.zattrs [a]\ng/.zgroup [g]\ng/zarr.json [j]\nthen\ng/.zattrs [a]\ng/.zgroup [g]\ng/zarr.json {\n  "node_type": "group",\n  "zarr_format": 3\n}\nthen\n
"#;

#[test]
fn groups_are_stored_and_erased(rt: HostRuntime) -> Result<(), Fail> {
    check_rows(rt.alloc(), STORED, after)
}

// Stores a group, and those that a builder of nothing makes at the paths of a row, if any.
fn store_with(
    group: &Group,
    alloc: Global,
    store: &mut MemoryStore,
    paths: &str,
) -> Result<(), GroupCreateError> {
    group.store_metadata(alloc, store)?;
    if paths.is_empty() {
        Ok(())
    } else {
        store_built_at(alloc, store, paths)
    }
}

// What the group at the root traverses, which a builder of nothing makes and stores first, and those at the paths of a row behind it.
fn traversed(alloc: Global, paths: &str) -> Result<String, GroupCreateError> {
    let config = Config::new();
    let mut store = MemoryStore::new(alloc);
    let root = GroupBuilder::new(alloc).build(alloc, "/", &config)?;
    store_with(&root, alloc, &mut store, paths)?;
    let pairs = root.traverse(&Discard, alloc, &store, &config);
    Ok(said(alloc, pairs, pairs_text)?)
}

const TRAVERSED: &str = r#"
/group /group/subgroup /group/subgroup/leafgroup => /group G3\n/group/subgroup G3\n/group/subgroup/leafgroup G3\n
 =>
"#;

#[test]
fn groups_of_a_builder_are_traversed(rt: HostRuntime) -> Result<(), Fail> {
    check_rows(rt.alloc(), TRAVERSED, traversed)
}

// ---- making, and parts of a group

// The group that a builder of these attributes and additional fields makes at a path.
fn built(alloc: Global, path: &str, parts: &str) -> Result<Group, GroupCreateError> {
    let (attributes, others) = fields(parts);
    let attributes = object_of(alloc, attributes)?;
    let others = other_fields(alloc, others)?;
    let mut builder = GroupBuilder::new(alloc);
    builder.attributes(attributes);
    builder.additional_fields(others);
    builder.build(alloc, path, &Config::new())
}

// The version 3 group that a document is, at a path.
fn read(alloc: Global, path: &str, document: &str) -> Result<Group, GroupCreateError> {
    let document = document_of(alloc, document)?;
    match GroupMetadataV3::from_bytes(alloc, document.as_bytes()) {
        Ok(metadata) => {
            let metadata = GroupMetadata::V3(metadata);
            Group::new_with_metadata(alloc, path, metadata, &Config::new())
        }
        Err(fault) => Err(refused(alloc, fault)),
    }
}

// The group that a builder of nothing or of parts, or `new_with_metadata` of a document or of parts, makes at a path.
fn made(alloc: Global, given: &str) -> Result<Group, GroupCreateError> {
    let (by, rest) = fields(given);
    let (path, parts) = fields(rest);
    let config = Config::new();
    match by {
        "nothing" => GroupBuilder::new(alloc).build(alloc, path, &config),
        "builder" => built(alloc, path, parts),
        "document" => read(alloc, path, parts),
        "metadata" => { Group::new_with_metadata(alloc, path, metadata_of(alloc, parts)?, &config) }
        word => Err(GroupCreateError::from(no_word(alloc, word))),
    }
}

// Appends the members of an object, each behind a blank.
fn push_members(text: &mut String, alloc: Global, members: &Object) -> Result<(), AllocError> {
    for (name, value) in members.as_slice() {
        let value = value.to_string(alloc)?;
        write!(text, " {name}={value}")?;
    }
    Ok(())
}

// Appends the additional fields of metadata, each behind a blank, with those marked that must be understood.
fn push_fields(
    text: &mut String,
    alloc: Global,
    metadata: &GroupMetadata,
) -> Result<(), AllocError> {
    match metadata {
        GroupMetadata::V2(group) => push_members(text, alloc, &group.additional_fields),
        GroupMetadata::V3(group) => {
            for (name, field) in group.additional_fields.as_slice() {
                let mark = if field.must_understand() { "!" } else { "" };
                let value = field.as_value().to_string(alloc)?;
                write!(text, " {name}{mark}={value}")?;
            }
            Ok(())
        }
    }
}

// The path, the attributes, the version with the attributes in it and the additional fields that the accessors show.
fn parts_text(group: &Group, alloc: Global) -> Result<String, AllocError> {
    let mut text = String::new(alloc);
    write!(text, "{}; attributes", group.path())?;
    push_members(&mut text, alloc, group.attributes())?;
    let (version, attributes) = match group.metadata() {
        GroupMetadata::V2(group) => (2, &group.attributes),
        GroupMetadata::V3(group) => (3, &group.attributes),
    };
    write!(text, "; version {version}")?;
    push_members(&mut text, alloc, attributes)?;
    text.push_str("; fields")?;
    push_fields(&mut text, alloc, group.metadata())?;
    Ok(text)
}

// The attributes that a group lends, and the group after others were written in their place.
fn written(alloc: Global, group: &mut Group) -> Result<String, GroupCreateError> {
    let mut text = String::from_str(alloc, "lent")?;
    push_members(&mut text, alloc, group.attributes_mut())?;
    *group.attributes_mut() = object_of(alloc, r#"{"n":1}"#)?;
    let after = group_text(group, alloc)?;
    write!(text, "; {after}")?;
    Ok(text)
}

// The group of the metadata as the options have them written.
fn under(
    alloc: Global,
    group: &Group,
    version: MetadataConvertVersion,
) -> Result<Group, GroupCreateError> {
    let options = GroupMetadataOptions::default().with_metadata_convert_version(version);
    let metadata = group.metadata_opt(alloc, &options)?;
    Group::new_with_metadata(alloc, group.path().as_str(), metadata, &Config::new())
}

// What opening a path of a store says, as a group and as a node.
fn opened_both(alloc: Global, store: &MemoryStore, path: &str) -> Result<String, AllocError> {
    let config = Config::new();
    let opened = group_said(alloc, Group::open(alloc, store, path, &config))?;
    let node = Node::open(&Discard, alloc, store, path, &config);
    let node = said(alloc, node, node_text)?;
    format!(in alloc; "{opened}\n{node}")
}

// What opening the path of a group says, as a group and as a node, once the group was stored over nothing.
fn again(alloc: Global, group: &Group) -> Result<String, GroupCreateError> {
    let mut store = MemoryStore::new(alloc);
    group.store_metadata(alloc, &mut store)?;
    Ok(opened_both(alloc, &store, group.path().as_str())?)
}

// What is seen of a group by a word.
fn seen(alloc: Global, look: &str, group: &Group) -> Result<String, GroupCreateError> {
    let group = match look {
        "parts" => return Ok(parts_text(group, alloc)?),
        "text" => return Ok(group_text(group, alloc)?),
        "again" => return again(alloc, group),
        "copied" => Ok(group.try_clone(alloc)?),
        "under v3" => under(alloc, group, MetadataConvertVersion::V3),
        "under default" => under(alloc, group, MetadataConvertVersion::Default),
        word => Err(GroupCreateError::from(no_word(alloc, word))),
    };
    Ok(group_said(alloc, group)?)
}

// The same of a group that a look may take or change.
fn looked_at(alloc: Global, look: &str, mut group: Group) -> Result<String, GroupCreateError> {
    match look {
        "as version 3" => Ok(group_text(&group.to_v3(alloc), alloc)?),
        "written" => written(alloc, &mut group),
        look => seen(alloc, look, &group),
    }
}

// What is seen of the group that is made, or the refusal. `LOOK | BY | PATH | PARTS`.
fn looked(alloc: Global, row: &str) -> Result<String, GroupCreateError> {
    let (look, given) = fields(row);
    match made(alloc, given) {
        Ok(group) => looked_at(alloc, look, group),
        Err(error) => Ok(refusal_text(alloc, &error)?),
    }
}

// What is seen of a group, what it is made of, its path and its parts; and the answer.
const MADE: &str = r#"
# A group is made at a path.
text | nothing | /group => group at /group with metadata {"node_type":"group","zarr_format":3}
text | nothing | abc => NodePathError(Invalid): invalid node path abc
text | builder | /g | {"k":1} | {"key":{}} => group at /g with metadata {"attributes":{"k":1},"key":{},"node_type":"group","zarr_format":3}
text | metadata | /g | 3 | {"k":1} | {"key":{}} => group at /g with metadata {"attributes":{"k":1},"key":{},"node_type":"group","zarr_format":3}
text | builder | abc | {"k":1} | {"key":{}} => NodePathError(Invalid): invalid node path abc
text | metadata | abc | 3 | {"k":1} | {"key":{}} => NodePathError(Invalid): invalid node path abc

# A builder has its parts shown, and lends its attributes.
parts | builder | / | {"key":"value"} | {"key":{}} => /; attributes key="value"; version 3 key="value"; fields key!={}
written | builder | / | {"key":"value"} | {"key":{}} => lent key="value"; group at / with metadata {"attributes":{"n":1},"key":{},"node_type":"group","zarr_format":3}

# A document makes a group.
parts | document | / | {"zarr_format":3,"node_type":"group","attributes":{"spam":"ham","eggs":42}} => /; attributes eggs=42 spam="ham"; version 3 eggs=42 spam="ham"; fields
parts | document | / | {"zarr_format":3,"node_type":"group","attributes":{"spam":"ham","eggs":42},"unknown":{"must_understand":false}} => /; attributes eggs=42 spam="ham"; version 3 eggs=42 spam="ham"; fields unknown={"must_understand":false}
parts | document | / | {"zarr_format":3,"node_type":"group","attributes":{"spam":"ham","eggs":42},"unknown":"unsupported"} => /; attributes eggs=42 spam="ham"; version 3 eggs=42 spam="ham"; fields unknown!="unsupported"
text | document | abc | {"zarr_format":3,"node_type":"group","attributes":{"spam":"ham","eggs":42}} => NodePathError(Invalid): invalid node path abc

# A stored group is opened again, as a group and as a node.
again | nothing | /group => group at /group with metadata {"node_type":"group","zarr_format":3}\n/group G3\n
again | document | / | {"zarr_format":3,"node_type":"group","attributes":{"spam":"ham","eggs":42},"unknown":"unsupported"} => AdditionalFieldUnsupportedError: unsupported additional field unknown, unknown "unsupported"\n/ {"attributes":{"eggs":42,"spam":"ham"},"node_type":"group","unknown":"unsupported","zarr_format":3}\n
again | document | / | {"node_type":"group","unknown":"unsupported","zarr_format":3} => AdditionalFieldUnsupportedError: unsupported additional field unknown, unknown "unsupported"\n/ {"node_type":"group","unknown":"unsupported","zarr_format":3}\n
again | metadata | /g | 3 | {} | {} => group at /g with metadata {"node_type":"group","zarr_format":3}\n/g G3\n
again | metadata | /g | 2 | {} | {"f":2} => group at /g with metadata {"f":2,"zarr_format":2}\n/g {"f":2,"zarr_format":2}\n
again | metadata | /g | 2 | {"k":1} | {} => group at /g with metadata {"attributes":{"k":1},"zarr_format":2}\n/g {"attributes":{"k":1},"zarr_format":2}\n

# A group shows and keeps its parts.
parts | metadata | /g | 2 | {"k":1} | {"f":2} => /g; attributes k=1; version 2 k=1; fields f=2
parts | metadata | /g | 3 | {"k":1} | {} => /g; attributes k=1; version 3 k=1; fields
written | metadata | /g | 2 | {"k":1} | {"f":2} => lent k=1; group at /g with metadata {"attributes":{"n":1},"f":2,"zarr_format":2}
copied | metadata | /g | 2 | {"k":1} | {"f":2} => group at /g with metadata {"attributes":{"k":1},"f":2,"zarr_format":2}
as version 3 | metadata | /g | 2 | {"k":1} | {"f":2} => group at /g with metadata {"attributes":{"k":1},"node_type":"group","zarr_format":3}
as version 3 | metadata | /g | 3 | {"k":1} | {} => group at /g with metadata {"attributes":{"k":1},"node_type":"group","zarr_format":3}
under default | metadata | /g | 2 | {"k":1} | {"f":2} => group at /g with metadata {"attributes":{"k":1},"f":2,"zarr_format":2}
under v3 | metadata | /g | 2 | {"k":1} | {"f":2} => group at /g with metadata {"attributes":{"k":1},"node_type":"group","zarr_format":3}
"#;

#[test]
fn a_group_shows_and_keeps_what_it_is_made_of(rt: HostRuntime) -> Result<(), Fail> {
    check_rows(rt.alloc(), MADE, looked)
}

// ---- refusals

// The refusal of a node by its name.
fn node_error(alloc: Global, name: &str) -> Result<NodeCreateError, GroupCreateError> {
    match name {
        "fault" => Ok(NodeCreateError::StorageError(StorageError::Fault)),
        "mismatch" => Ok(NodeCreateError::MetadataVersionMismatch),
        "missing" => Ok(NodeCreateError::MissingMetadata(String::from_str(alloc, "/a")?)),
        "path memory" => Ok(NodeCreateError::NodePathError(NodePathError::OutOfMemory)),
        "memory" => Ok(NodeCreateError::OutOfMemory),
        "path" => path_error(alloc),
        "prefix" => prefix_error(alloc),
        "block" => block_error(alloc),
        word => Err(GroupCreateError::from(no_word(alloc, word))),
    }
}

fn path_error(alloc: Global) -> Result<NodeCreateError, GroupCreateError> {
    match NodePath::new(alloc, "x") {
        Err(error) => Ok(NodeCreateError::NodePathError(error)),
        Ok(_) => Err(GroupCreateError::OutOfMemory),
    }
}

fn prefix_error(alloc: Global) -> Result<NodeCreateError, GroupCreateError> {
    match StorePrefix::new(alloc, "/") {
        Err(error) => Ok(NodeCreateError::StorePrefixError(error)),
        Ok(_) => Err(GroupCreateError::OutOfMemory),
    }
}

// The refusal of the root, which has no block, where one is demanded.
fn block_error(alloc: Global) -> Result<NodeCreateError, GroupCreateError> {
    let root = NodePath::root(alloc)?;
    match resolve_consolidated_policy(alloc, &root, None, UseConsolidatedMetadata::Must) {
        Err(error) => Ok(error),
        Ok(_) => Err(GroupCreateError::MissingMetadata),
    }
}

// The refusal of a group by its name.
fn group_error(alloc: Global, name: &str) -> Result<GroupCreateError, GroupCreateError> {
    match name {
        "field" => {
            let name = String::from_str(alloc, "a")?;
            let field = AdditionalFieldUnsupportedError::new(name, Value::from(1u64));
            Ok(GroupCreateError::AdditionalFieldUnsupportedError(field))
        }
        "missing" => Ok(GroupCreateError::MissingMetadata),
        "memory" => Ok(GroupCreateError::from(AllocError)),
        "storage" => Ok(GroupCreateError::from(StorageError::Fault)),
        "path memory" => Ok(GroupCreateError::from(NodePathError::OutOfMemory)),
        word => Err(GroupCreateError::from(no_word(alloc, word))),
    }
}

// The refusal of a group, that of a node, or what that of a node becomes as that of a group.
fn error_text(alloc: Global, given: &str) -> Result<String, GroupCreateError> {
    let (of, name) = fields(given);
    let error = match of {
        "node" => return Ok(refusal(alloc, &node_error(alloc, name)?)?),
        "of a node" => GroupCreateError::from_node_error(alloc, node_error(alloc, name)?),
        "group" => group_error(alloc, name)?,
        word => GroupCreateError::from(no_word(alloc, word)),
    };
    Ok(refusal_text(alloc, &error)?)
}

// Refusals, with their variants and texts.
const REFUSED: &str = r#"
# The refusal of a node becomes that of a group.
of a node | fault => StorageError(Fault): store fault
of a node | mismatch => StorageError(Other): Found V2 metadata in V3 key or vice-versa
of a node | missing => StorageError(Other): Metadata is missing for /a
of a node | path memory => OutOfMemory: out of memory
of a node | path => StorageError(Other): invalid node path x
of a node | prefix => StorageError(Other): invalid store prefix /
of a node | memory => OutOfMemory: out of memory

# So does the want of a block that is demanded.
node | block => MissingMetadata: Metadata is missing for Consolidated metadata required but missing on group /
of a node | block => StorageError(Other): Metadata is missing for Consolidated metadata required but missing on group /

# Refusals have their texts.
group | field => AdditionalFieldUnsupportedError: unsupported additional field a, a 1
group | missing => MissingMetadata: group metadata is missing
group | memory => OutOfMemory: out of memory
group | storage => StorageError(Fault): store fault
group | path memory => NodePathError(OutOfMemory): out of memory
"#;

#[test]
fn refusals_have_their_variants_and_texts(rt: HostRuntime) -> Result<(), Fail> {
    check_rows(rt.alloc(), REFUSED, error_text)
}

// The fields of a group of version 3 with an attribute of so many lists in each other.
fn nested(alloc: Global, count: usize) -> Result<String, AllocError> {
    let lists = lists_text(alloc, count)?;
    format!(in alloc; "3 | {{\"k\":{lists}}} | {{}}")
}

/// The group of version 3 with an attribute of so many lists in each other.
pub(crate) fn nested_group(alloc: Global, levels: &str) -> Result<Group, GroupCreateError> {
    let Ok(count) = levels.parse::<usize>() else {
        return Err(GroupCreateError::from(no_word(alloc, levels)));
    };
    let given = nested(alloc, count)?;
    group_of(alloc, given.as_str(), &Config::new())
}

// Whether the group with so many lists in each other is shallow.
fn shallow_said(alloc: Global, levels: &str) -> Result<String, GroupCreateError> {
    let group = nested_group(alloc, levels)?;
    Ok(printed(&group.is_shallow(alloc)?, alloc)?)
}

// The lists in each other, which stand two levels deep in the document; whether it nests at most 127 levels.
const SHALLOW: &str = r#"
1 => true
125 => true
126 => false
"#;

#[test]
fn a_group_is_shallow_that_nests_at_most_127_levels(rt: HostRuntime) -> Result<(), Fail> {
    check_rows(rt.alloc(), SHALLOW, shallow_said)
}

#[test]
fn the_laws_are_called(rt: HostRuntime) -> Result<(), Fail> {
    let alloc = rt.alloc();
    laws::version_3_keeps();
    laws::version_3_stays();
    laws::version_3_twice();
    laws::plain_is_stored();
    laws::plain_is_stored_in(Numbers::Any);
    laws::stored_text_is_exact();
    laws::stored_text_is_text();
    laws::whole_edits_are_exact();
    laws::whole_refusal_is_exact();
    laws::erasing_all_erases();
    laws::other_keys_stay();
    laws::arrays_stay();
    laws::group_gives_back();
    laws::group_v2_gives_back();
    laws::stored_means_in();
    laws::stored_gives_back();
    laws::stored_gives_back_in();
    laws::stored_v2_gives_back();
    laws::edit_keeps_others();
    laws::storing_keeps_others();
    laws::means_version_3();
    laws::listed_block_opens();
    laws::written_block_opens();
    laws::full_block_opens();
    let path = NodePath::new(alloc, "/g")?;
    let metadata = metadata_of(alloc, r#"3 | {"k":1} | {}"#)?;
    laws::stored_means(alloc, &path, &metadata)?;
    Ok(())
}

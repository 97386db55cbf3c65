//! Names, paths and their keys. Each call that is tested is read from the text of a row, and answers a text; the tests are tables of such rows.
use std::alloc::{AllocError, AllocFailed, Global};
use std::cmp::Ordering;
use std::hash::{BuildHasher, BuildHasherDefault, FoldHasher};
use std::test::Fail;
use tests_support::{check_rows, fields, refusal};
use zarrs_path::{
    NodeName, NodeNameError, NodePath, NodePathError, data_key, laws, meta_key, meta_key_v2_array,
    meta_key_v2_attributes, meta_key_v2_consolidated, meta_key_v2_group, meta_key_v3,
    without_leading_slash,
};
use zarrs_store::{StoreKey, StoreKeyError, StorePrefix, StorePrefixError};

// That a row has no answer.
#[derive(Debug, Drop)]
enum NoAnswer {
    OutOfMemory,
    // What is given is refused, or is no word that is known.
    Unknown,
}

impl From<AllocError> for NoAnswer {
    fn from(_error: AllocError) -> NoAnswer {
        NoAnswer::OutOfMemory
    }
}

impl<T: Drop> From<AllocFailed<T>> for NoAnswer {
    fn from(_failed: AllocFailed<T>) -> NoAnswer {
        NoAnswer::OutOfMemory
    }
}

impl From<NodeNameError> for NoAnswer {
    fn from(error: NodeNameError) -> NoAnswer {
        match error {
            NodeNameError::OutOfMemory => NoAnswer::OutOfMemory,
            _ => NoAnswer::Unknown,
        }
    }
}

impl From<NodePathError> for NoAnswer {
    fn from(error: NodePathError) -> NoAnswer {
        match error {
            NodePathError::OutOfMemory => NoAnswer::OutOfMemory,
            _ => NoAnswer::Unknown,
        }
    }
}

impl From<StorePrefixError> for NoAnswer {
    fn from(error: StorePrefixError) -> NoAnswer {
        match error {
            StorePrefixError::OutOfMemory => NoAnswer::OutOfMemory,
            _ => NoAnswer::Unknown,
        }
    }
}

impl From<StoreKeyError> for NoAnswer {
    fn from(error: StoreKeyError) -> NoAnswer {
        match error {
            StoreKeyError::OutOfMemory => NoAnswer::OutOfMemory,
            _ => NoAnswer::Unknown,
        }
    }
}

// ---- names

// Whether a text is valid as a name, and the name that is made of it, as it is shown and by its text, or the refusal.
fn name_said(alloc: Global, text: &str) -> Result<String, NoAnswer> {
    let valid = NodeName::validate(text);
    match NodeName::new(alloc, text) {
        Ok(name) => Ok(format!(in alloc; "{valid}: '{name}' '{}'", name.as_str())?),
        Err(error) => Ok(format!(in alloc; "{valid}: {}", refusal(alloc, &error)?)?),
    }
}

const NAMES: &str = r#"
# names are valid by their bytes, and show their texts
 => true: '' ''
a => true: 'a' 'a'
a.b => true: 'a.b' 'a.b'
..a => true: '..a' '..a'
_ => true: '_' '_'
_a => true: '_a' '_a'
a__ => true: 'a__' 'a__'
.a => true: '.a' '.a'
a. => true: 'a.' 'a.'
é => true: 'é' 'é'
# what is no name is refused, and named
. => false: Invalid: invalid node name .
.. => false: Invalid: invalid node name ..
... => false: Invalid: invalid node name ...
__ => false: Invalid: invalid node name __
__a => false: Invalid: invalid node name __a
/ => false: Invalid: invalid node name /
a/b => false: Invalid: invalid node name a/b
a/ => false: Invalid: invalid node name a/
/a => false: Invalid: invalid node name /a
.... => false: Invalid: invalid node name ....
___ => false: Invalid: invalid node name ___
"#;

#[test]
fn names_are_valid_by_their_bytes(rt: HostRuntime) -> Result<(), Fail> {
    check_rows(rt.alloc(), NAMES, name_said)
}

// The name `ab` made without a look at its text, the name of the root, or the name with a text.
fn name_of(alloc: Global, word: &str) -> Result<NodeName, NodeNameError> {
    match word {
        "new_unchecked" => Ok(NodeName::new_unchecked(String::from_str(alloc, "ab")?)),
        "root" => Ok(NodeName::root(alloc)),
        text => NodeName::new(alloc, text),
    }
}

// The text of a name, whether it is the root's, and whether it equals another.
fn names_compared(alloc: Global, given: &str) -> Result<String, NoAnswer> {
    let (first, second) = fields(given);
    let name = name_of(alloc, first)?;
    let is_same = name == name_of(alloc, second)?;
    let is_root = name.is_root();
    Ok(format!(in alloc; "'{}', root {is_root}, equal {is_same}", name.as_str())?)
}

const NAMES_COMPARED: &str = r#"
# names are equal by their texts
new_unchecked | ab => 'ab', root false, equal true
new_unchecked | a => 'ab', root false, equal false
a | b => 'a', root false, equal false
# the root's name is the empty name
root |  => '', root true, equal true
 | root => '', root true, equal true
a | root => 'a', root false, equal false
"#;

#[test]
fn names_are_equal_by_their_texts(rt: HostRuntime) -> Result<(), Fail> {
    check_rows(rt.alloc(), NAMES_COMPARED, names_compared)
}

// ---- paths

// A path and a relative text behind ` + ` that is joined to it, or the path with a text, or the root.
fn path(alloc: Global, text: &str) -> Result<NodePath, NoAnswer> {
    match text.split_once(" + ") {
        Some((base, relative)) => Ok(NodePath::new(alloc, base)?.join(alloc, relative)?),
        None => path_of(alloc, text),
    }
}

// The root for its word, or the path with a text.
fn path_of(alloc: Global, text: &str) -> Result<NodePath, NoAnswer> {
    match text {
        "root" => Ok(NodePath::root(alloc)?),
        _ => Ok(NodePath::new(alloc, text)?),
    }
}

// The path as it is shown, or the refusal.
fn said(alloc: Global, answer: Result<NodePath, NodePathError>) -> Result<String, NoAnswer> {
    match answer {
        Ok(path) => Ok(path.to_string(alloc)?),
        Err(error) => Ok(refusal(alloc, &error)?),
    }
}

// Whether a text is valid, and the path of it as it is shown, by its text and by that of a copy, and whether it is the root.
fn path_texts(alloc: Global, valid: bool, path: &NodePath) -> Result<String, AllocError> {
    let copy = path.try_clone(alloc)?;
    let is_root = path.is_root();
    format!(in alloc;
        "{valid}: '{path}' '{}' '{}', root {is_root}",
        path.as_str(),
        copy.as_str()
    )
}

// Whether a text is valid as a path, and the path that is made of it, or the refusal.
fn path_said(alloc: Global, text: &str) -> Result<String, NoAnswer> {
    let valid = NodePath::validate(text);
    match NodePath::new(alloc, text) {
        Ok(path) => Ok(path_texts(alloc, valid, &path)?),
        Err(error) => Ok(format!(in alloc; "{valid}: {}.", refusal(alloc, &error)?)?),
    }
}

const PATHS: &str = r#"
# paths are valid by their names, and show their texts
/ => true: '/' '/' '/', root true
/a => true: '/a' '/a' '/a', root false
/foo => true: '/foo' '/foo' '/foo', root false
/a/b/c => true: '/a/b/c' '/a/b/c' '/a/b/c', root false
/foo__bar => true: '/foo__bar' '/foo__bar' '/foo__bar', root false
/foo./bar => true: '/foo./bar' '/foo./bar' '/foo./bar', root false
/foo/bar.. => true: '/foo/bar..' '/foo/bar..' '/foo/bar..', root false
/a/b => true: '/a/b' '/a/b' '/a/b', root false
/é => true: '/é' '/é' '/é', root false
# what is no path is refused, and named
 => false: Invalid: invalid node path .
/a/b/ => false: Invalid: invalid node path /a/b/.
//// => false: Invalid: invalid node path ////.
/... => false: Invalid: invalid node path /....
/foo/__bar => false: Invalid: invalid node path /foo/__bar.
/foo/__bar/baz => false: Invalid: invalid node path /foo/__bar/baz.
/foo/../bar => false: Invalid: invalid node path /foo/../bar.
/__foo => false: Invalid: invalid node path /__foo.
x => false: Invalid: invalid node path x.
/.. => false: Invalid: invalid node path /...
/a//b => false: Invalid: invalid node path /a//b.
a => false: Invalid: invalid node path a.
a/b => false: Invalid: invalid node path a/b.
// => false: Invalid: invalid node path //.
/a/ => false: Invalid: invalid node path /a/.
/. => false: Invalid: invalid node path /..
/__a => false: Invalid: invalid node path /__a.
"#;

#[test]
fn paths_are_valid_by_their_names(rt: HostRuntime) -> Result<(), Fail> {
    check_rows(rt.alloc(), PATHS, path_said)
}

// What an error says where memory ran out, whether a law says that a text is accepted as a path, or whether a path is the root.
fn word_said(alloc: Global, given: &str) -> Result<String, NoAnswer> {
    let (word, text) = fields(given);
    match word {
        "NodeNameError" => Ok(NodeNameError::OutOfMemory.to_string(alloc)?),
        "NodePathError" => Ok(NodePathError::OutOfMemory.to_string(alloc)?),
        "accepted_texts" => Ok(laws::accepted_texts(alloc, text)?.to_string(alloc)?),
        "is_root" => Ok(path_of(alloc, text)?.is_root().to_string(alloc)?),
        _ => Err(NoAnswer::Unknown),
    }
}

const WORDS: &str = r#"
# every error says that memory ran out
NodeNameError => out of memory
NodePathError => out of memory
# a law accepts the texts of paths
accepted_texts | / => true
accepted_texts | /a => true
accepted_texts | a => false
# the root has no names
is_root | root => true
is_root | / => true
is_root | /foo => false
is_root | /a/b/c => false
"#;

#[test]
fn memory_ran_out_texts_are_accepted_and_the_root_has_no_names(
    rt: HostRuntime,
) -> Result<(), Fail> {
    check_rows(rt.alloc(), WORDS, word_said)
}

// A path joined with a relative text, or the refusal.
fn joined(alloc: Global, given: &str) -> Result<String, NoAnswer> {
    let (base, relative) = fields(given);
    said(alloc, path_of(alloc, base)?.join(alloc, relative))
}

const JOINED: &str = r#"
# names are joined
/group | /sub => /group/sub
/group | sub/leaf => /group/sub/leaf
/group | / => /group
/ |  => /
/ | a/b => /a/b
root | foo => /foo
root | /foo => /foo
root | sub/leaf => /sub/leaf
/group | sub => /group/sub
root |  => /
# names that look forbidden and are not
root | foo__bar => /foo__bar
root | foo__bar/baz => /foo__bar/baz
root | foo. => /foo.
root | ..foo => /..foo
root | foo.. => /foo..
# the first bad part is refused
/foo | ./bar => Invalid: invalid node path invalid node name `.` in './bar'
root | ./bar => Invalid: invalid node path invalid node name `.` in './bar'
root | ../bar => Invalid: invalid node path invalid node name `..` in '../bar'
root | ../other => Invalid: invalid node path invalid node name `..` in '../other'
root | sub/../other => Invalid: invalid node path invalid node name `..` in 'sub/../other'
/group | ../other => Invalid: invalid node path invalid node name `..` in '../other'
/group | sub/../other => Invalid: invalid node path invalid node name `..` in 'sub/../other'
root | .../bar => Invalid: invalid node path invalid node name `...` in '.../bar'
root | foo//bar => Invalid: invalid node path invalid node name `` in 'foo//bar'
root | foo/__bar => Invalid: invalid node path invalid node name `__bar` in 'foo/__bar'
root | __bar => Invalid: invalid node path invalid node name `__bar` in '__bar'
root | foo/ => Invalid: invalid node path invalid node name `` in 'foo/'
root | a/../b/__c => Invalid: invalid node path invalid node name `..` in 'a/../b/__c'
root | //foo => Invalid: invalid node path invalid node name `` in '/foo'
root | __c => Invalid: invalid node path invalid node name `__c` in '__c'
"#;

#[test]
fn joins_names(rt: HostRuntime) -> Result<(), Fail> {
    check_rows(rt.alloc(), JOINED, joined)
}

// A text without one leading slash, between marks.
fn bare(alloc: Global, text: &str) -> Result<String, AllocError> {
    format!(in alloc; "'{}'", without_leading_slash(text))
}

const BARE: &str = r#"
# one leading slash goes, and nothing else
/a => 'a'
/a/b => 'a/b'
//a => '/a'
/ => ''
a/b => 'a/b'
a/ => 'a/'
 => ''
"#;

#[test]
fn one_leading_slash_is_taken_off(rt: HostRuntime) -> Result<(), Fail> {
    check_rows(rt.alloc(), BARE, bare)
}

// The path that a call answers: the root, the parent of a path, or what two laws say of parents.
fn parent(alloc: Global, given: &str) -> Result<Option<NodePath>, NoAnswer> {
    let (call, text) = fields(given);
    match call {
        "root" => Ok(Some(NodePath::root(alloc)?)),
        "parent" => Ok(NodePath::new(alloc, text)?.parent(alloc)?),
        "parent_of_root" => Ok(laws::parent_of_root(alloc)?),
        "parent_of_join bar" => {
            let path = NodePath::new(alloc, text)?;
            Ok(laws::parent_of_join(alloc, &path, "bar")?)
        }
        _ => Err(NoAnswer::Unknown),
    }
}

// The text of the path that such a call answers, or `none`.
fn parent_said(alloc: Global, given: &str) -> Result<String, NoAnswer> {
    match parent(alloc, given)? {
        Some(path) => Ok(String::from_str(alloc, path.as_str())?),
        None => Ok(String::from_str(alloc, "none")?),
    }
}

const PARENTS: &str = r#"
root => /
# a parent lacks the last name
parent | / => none
parent | /foo => /
parent | /foo/bar => /foo
parent | /foo/bar/baz => /foo/bar
parent | /b/a => /b
# the laws of parents
parent_of_root => none
parent_of_join bar | /foo => /foo
"#;

#[test]
fn parents_lack_the_last_name(rt: HostRuntime) -> Result<(), Fail> {
    check_rows(rt.alloc(), PARENTS, parent_said)
}

// ---- two paths

// The word for an order.
fn order_word(order: Ordering) -> &'static str {
    match order {
        Ordering::Less => "Less",
        Ordering::Equal => "Equal",
        Ordering::Greater => "Greater",
    }
}

// How a path stands to another: by `cmp`, by `partial_cmp`, by `>` of the other, by `==`, and whether order and equality agree.
fn order_said(alloc: Global, path: &NodePath, other: &NodePath) -> Result<String, AllocError> {
    let order = order_word(path.cmp(other));
    let partial = match path.partial_cmp(other) {
        Some(order) => order_word(order),
        None => "none",
    };
    let is_greater = *other > *path;
    let is_equal = *path == *other;
    let agree = laws::order_and_equality(path, other);
    format!(in alloc; "{order} {partial}, before {is_greater}, equal {is_equal}, agree {agree}")
}

fn hash_of(path: &NodePath) -> u64 {
    let hashers: BuildHasherDefault<FoldHasher> = BuildHasherDefault::new();
    hashers.hash_one(path)
}

// What a call says of a path and another.
fn relation(
    alloc: Global,
    call: &str,
    path: &NodePath,
    other: &NodePath,
) -> Result<String, NoAnswer> {
    match call {
        "is_below" => Ok(path.is_below(other).to_string(alloc)?),
        "order" => Ok(order_said(alloc, path, other)?),
        "same hash" => Ok((hash_of(path) == hash_of(other)).to_string(alloc)?),
        _ => Err(NoAnswer::Unknown),
    }
}

// What a call says of the paths with two texts.
fn related(alloc: Global, given: &str) -> Result<String, NoAnswer> {
    let (call, texts) = fields(given);
    let (first, second) = fields(texts);
    let first = path(alloc, first)?;
    let second = path(alloc, second)?;
    relation(alloc, call, &first, &second)
}

const RELATED: &str = r#"
# a path is below another by its names
is_below | /a/b | /a => true
is_below | /a/b/c | /a => true
is_below | /a | / => true
is_below | /group2 | /group => false
is_below | /ab | /a => false
is_below | /a | /a => false
is_below | /a | /a/b => false
is_below | / | / => false
is_below | /b/a | /a => false
# paths are ordered by names
order | /a/x | /a-b => Less Less, before true, equal false, agree true
order | /a/b | /a/c => Less Less, before true, equal false, agree true
order | / | /a => Less Less, before true, equal false, agree true
order | /a | /a/b => Less Less, before true, equal false, agree true
order | /ab | /a => Greater Greater, before false, equal false, agree true
order | /group2 | /group => Greater Greater, before false, equal false, agree true
order | /b/a | /a => Greater Greater, before false, equal false, agree true
order | / | / => Equal Equal, before false, equal true, agree true
# equal paths are level and hash alike
order | /a/b | /a + b => Equal Equal, before false, equal true, agree true
order | /a/b | /a => Greater Greater, before false, equal false, agree true
same hash | /a/b | /a + b => true
same hash | /a/b | /a => false
same hash | / | / => true
same hash | / | root => true
"#;

#[test]
fn paths_are_related_by_their_names(rt: HostRuntime) -> Result<(), Fail> {
    check_rows(rt.alloc(), RELATED, related)
}

// The paths with these texts.
fn paths_of(alloc: Global, texts: &str) -> Result<Vec<NodePath>, NoAnswer> {
    let mut paths = Vec::new(alloc);
    for text in texts.split(' ') {
        paths.push(NodePath::new(alloc, text)?)?;
    }
    Ok(paths)
}

// The texts of the paths, each with a space in front of it.
fn texts_of(alloc: Global, paths: &[NodePath]) -> Result<String, NoAnswer> {
    let mut texts = String::from_str(alloc, "sorted")?;
    for path in paths {
        texts.push_str(" ")?;
        texts.push_str(path.as_str())?;
    }
    Ok(texts)
}

// The texts of paths in their order.
fn sorted(alloc: Global, given: &str) -> Result<String, NoAnswer> {
    let mut paths = paths_of(alloc, given)?;
    paths.sort()?;
    texts_of(alloc, paths.as_slice())
}

const SORTED: &str = r#"
/a-b /a/x / /a => sorted / /a /a/x /a-b
"#;

#[test]
fn paths_are_sorted_by_names(rt: HostRuntime) -> Result<(), Fail> {
    check_rows(rt.alloc(), SORTED, sorted)
}

// ---- prefixes and keys

fn prefix(alloc: Global, text: &str) -> Result<StorePrefix, NoAnswer> {
    Ok(StorePrefix::new(alloc, text)?)
}

// The path of the prefix with a text.
fn path_of_prefix(alloc: Global, text: &str) -> Result<NodePath, NoAnswer> {
    Ok(NodePath::from_prefix(alloc, &prefix(alloc, text)?)?)
}

// What a call between prefixes and paths says of the prefix with a text.
fn prefix_said(alloc: Global, given: &str) -> Result<String, NoAnswer> {
    let (call, text) = fields(given);
    match call {
        "from_prefix" => said(alloc, NodePath::from_prefix(alloc, &prefix(alloc, text)?)),
        "from_owned_prefix" => said(alloc, NodePath::from_owned_prefix(prefix(alloc, text)?)),
        "from_valid_prefix" => {
            let prefix = path_of_prefix(alloc, text)?.to_prefix(alloc)?;
            let path = NodePath::from_valid_prefix(prefix)?;
            Ok(path.to_string(alloc)?)
        }
        "text_of" => Ok(NodePath::text_of(prefix(alloc, text)?)?),
        "ends_in_name" => {
            let ends = NodePath::ends_in_name(&prefix(alloc, text)?);
            Ok(format!(in alloc; "{ends}")?)
        }
        "to_prefix" => prefix_text(alloc, &path_of_prefix(alloc, text)?.to_prefix(alloc)?),
        "prefix_and_back" => {
            let path = path_of_prefix(alloc, text)?;
            said(alloc, laws::prefix_and_back(alloc, &path))
        }
        "path_and_back" => {
            let prefix = prefix(alloc, text)?;
            prefix_text(alloc, &laws::path_and_back(alloc, &prefix)?)
        }
        _ => Err(NoAnswer::Unknown),
    }
}

// The text of a prefix between marks.
fn prefix_text(alloc: Global, prefix: &StorePrefix) -> Result<String, NoAnswer> {
    Ok(format!(in alloc; "'{}'", prefix.as_str())?)
}

const PREFIXES: &str = r#"
# prefixes are paths
from_prefix |  => /
from_prefix | a/ => /a
from_prefix | a/b/ => /a/b
from_owned_prefix |  => /
from_owned_prefix | a/ => /a
from_owned_prefix | a/b/ => /a/b
from_valid_prefix |  => /
from_valid_prefix | a/b/ => /a/b
text_of |  => /
text_of | a/b/ => /a/b
text_of | a/__x/ => /a/__x
ends_in_name |  => false
ends_in_name | a/b/ => true
ends_in_name | a/../ => false
ends_in_name | __a/b/ => true
to_prefix |  => ''
to_prefix | a/ => 'a/'
to_prefix | a/b/ => 'a/b/'
prefix_and_back |  => /
prefix_and_back | a/ => /a
prefix_and_back | a/b/ => /a/b
path_and_back |  => ''
path_and_back | a/ => 'a/'
path_and_back | a/b/ => 'a/b/'
# a prefix with what is no name is refused
from_prefix | a/__x/ => Invalid: invalid node path /a/__x
from_prefix | a/__y/ => Invalid: invalid node path /a/__y
"#;

#[test]
fn prefixes_are_paths(rt: HostRuntime) -> Result<(), Fail> {
    check_rows(rt.alloc(), PREFIXES, prefix_said)
}

// The key of a document of a path, or of the chunk `c/0` of it.
fn document_key(alloc: Global, call: &str, path: &NodePath) -> Result<StoreKey, NoAnswer> {
    match call {
        "meta_key" => Ok(meta_key(alloc, path)?),
        "meta_key_v3" => Ok(meta_key_v3(alloc, path)?),
        "meta_key_v2_array" => Ok(meta_key_v2_array(alloc, path)?),
        "meta_key_v2_group" => Ok(meta_key_v2_group(alloc, path)?),
        "meta_key_v2_attributes" => Ok(meta_key_v2_attributes(alloc, path)?),
        "meta_key_v2_consolidated" => Ok(meta_key_v2_consolidated(alloc, path)?),
        "data_key" => Ok(data_key(alloc, path, &StoreKey::new(alloc, "c/0")?)?),
        _ => Err(NoAnswer::Unknown),
    }
}

// The text of such a key of the path with a text.
fn key_said(alloc: Global, given: &str) -> Result<String, NoAnswer> {
    let (call, text) = fields(given);
    let path = NodePath::new(alloc, text)?;
    let key = document_key(alloc, call, &path)?;
    Ok(String::from_str(alloc, key.as_str())?)
}

const KEYS: &str = r#"
# keys of metadata end in the file name
meta_key | / => zarr.json
meta_key_v3 | / => zarr.json
meta_key_v2_array | / => .zarray
meta_key_v2_group | / => .zgroup
meta_key_v2_attributes | / => .zattrs
meta_key_v2_consolidated | / => .zmetadata
meta_key | /a/b => a/b/zarr.json
meta_key_v3 | /a/b => a/b/zarr.json
meta_key_v2_array | /a/b => a/b/.zarray
meta_key_v2_group | /a/b => a/b/.zgroup
meta_key_v2_attributes | /a/b => a/b/.zattrs
meta_key_v2_consolidated | /a/b => a/b/.zmetadata
# keys of data end in the chunk's key
data_key | /a => a/c/0
data_key | /a/b => a/b/c/0
data_key | / => c/0
"#;

#[test]
fn keys_end_in_the_file_name_or_the_chunk_key(rt: HostRuntime) -> Result<(), Fail> {
    check_rows(rt.alloc(), KEYS, key_said)
}

// ---- laws

#[test]
fn laws_can_be_called() {
    laws::names_are();
    laws::texts_differ();
    laws::equal_names();
    laws::equal_order();
    laws::total_order();
    laws::hash_alike();
    laws::below_is_after();
    laws::below_is_transitive();
    laws::one_parent();
    laws::root_alone();
    laws::parent_of_joined();
    laws::document_keys_differ();
    laws::relative_names_read();
    laws::relative_names_joined();
}

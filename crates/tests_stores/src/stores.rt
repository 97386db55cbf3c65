//! Keys, prefixes and stores. Each call that is tested is read from the text of a row, and answers a text; the tests are tables of such rows. A row
//! over a store gives the store's keys, each with the byte `x`, and the steps that are taken in it.
use std::alloc::{AllocError, Global};
use std::test::Fail;
use tests_support::{check_rows, fields, refusal};
use zarrs_store::{
    AnyNumbers, FaultAt, FaultStore, ListableStorageTraits, MemberName, MemoryStore, MetadataFault,
    Numbers, ReadableStorageTraits, StorageError, Store, StoreKey, StoreKeyError,
    StoreKeysPrefixes, StorePrefix, StorePrefixError, WritableStorageTraits, discover_children,
};

// ---- keys, prefixes and stores of texts

// That a text is none of those that are known.
fn unknown<T: Drop>(alloc: Global, text: &str) -> Result<T, StorageError> {
    Err(StorageError::Other(format!(in alloc; "unknown: {text}")?))
}

fn key(alloc: Global, text: &str) -> Result<StoreKey, StorageError> {
    match StoreKey::new(alloc, text) {
        Ok(key) => Ok(key),
        Err(StoreKeyError::Invalid(_)) => unknown(alloc, text),
        Err(StoreKeyError::OutOfMemory) => Err(StorageError::OutOfMemory),
    }
}

fn prefix(alloc: Global, text: &str) -> Result<StorePrefix, StorageError> {
    match StorePrefix::new(alloc, text) {
        Ok(prefix) => Ok(prefix),
        Err(StorePrefixError::Invalid(_)) => unknown(alloc, text),
        Err(StorePrefixError::OutOfMemory) => Err(StorageError::OutOfMemory),
    }
}

fn set<S: WritableStorageTraits>(
    alloc: Global,
    store: &mut S,
    at: &str,
    bytes: &[u8],
) -> Result<(), StorageError> {
    let key = key(alloc, at)?;
    store.set(&key, bytes)
}

// Sets two hundred keys of chunks below `a/c/`, of ten in a row.
fn set_chunks(alloc: Global, store: &mut MemoryStore) -> Result<(), StorageError> {
    for i in 0..200u32 {
        let at = format!(in alloc; "a/c/{}/{}", i / 10, i % 10)?;
        set(alloc, store, at.as_str(), b"x")?;
    }
    Ok(())
}

// Sets the key of a word, those of chunks for the word `chunks`, and none for the empty word.
fn set_word(alloc: Global, store: &mut MemoryStore, word: &str) -> Result<(), StorageError> {
    match word {
        "" => Ok(()),
        "chunks" => set_chunks(alloc, store),
        at => set(alloc, store, at, b"x"),
    }
}

// The store with the keys of these words.
fn store_of(alloc: Global, words: &str) -> Result<MemoryStore, StorageError> {
    let mut store = MemoryStore::new(alloc);
    for word in words.split(' ') {
        set_word(alloc, &mut store, word)?;
    }
    Ok(store)
}

// ---- keys and prefixes

// Whether a text is valid, and the key of it as it is shown, by its text and by that of a copy.
fn key_texts(alloc: Global, valid: bool, key: &StoreKey) -> Result<String, AllocError> {
    let copy = key.try_clone(alloc)?;
    format!(in alloc; "{valid}: '{key}' '{}' '{}'", key.as_str(), copy.as_str())
}

// Whether a text is told to be a key, and the key that is made of it, or the refusal.
fn key_said(alloc: Global, text: &str) -> Result<String, AllocError> {
    let valid = StoreKey::validate(text);
    match StoreKey::new(alloc, text) {
        Ok(key) => key_texts(alloc, valid, &key),
        Err(error) => format!(in alloc; "{valid}: {}.", refusal(alloc, &error)?),
    }
}

const KEYS: &str = r#"
# texts of keys
a => true: 'a' 'a' 'a'
a/b => true: 'a/b' 'a/b' 'a/b'
../a => true: '../a' '../a' '../a'
a/zarr.json => true: 'a/zarr.json' 'a/zarr.json' 'a/zarr.json'
# other texts are refused, and named
 => false: Invalid: invalid store key .
/ => false: Invalid: invalid store key /.
a/ => false: Invalid: invalid store key a/.
a//b => false: Invalid: invalid store key a//b.
/a => false: Invalid: invalid store key /a.
a/b/ => false: Invalid: invalid store key a/b/.
a// => false: Invalid: invalid store key a//.
"#;

#[test]
fn keys_show_their_texts(rt: HostRuntime) -> Result<(), Fail> {
    check_rows(rt.alloc(), KEYS, key_said)
}

// Whether a text is valid, and the prefix of it as it is shown, by its text and by that of a copy.
fn prefix_texts(alloc: Global, valid: bool, prefix: &StorePrefix) -> Result<String, AllocError> {
    let copy = prefix.try_clone(alloc)?;
    format!(in alloc;
        "{valid}: '{prefix}' '{}' '{}'",
        prefix.as_str(),
        copy.as_str()
    )
}

// Whether a text is told to be a prefix, and the prefix that is made of it, or the refusal.
fn prefix_said(alloc: Global, text: &str) -> Result<String, AllocError> {
    let valid = StorePrefix::validate(text);
    match StorePrefix::new(alloc, text) {
        Ok(prefix) => prefix_texts(alloc, valid, &prefix),
        Err(error) => format!(in alloc; "{valid}: {}.", refusal(alloc, &error)?),
    }
}

const PREFIXES: &str = r#"
# texts of prefixes
 => true: '' '' ''
a/ => true: 'a/' 'a/' 'a/'
a/b/ => true: 'a/b/' 'a/b/' 'a/b/'
# other texts are refused, and named
/ => false: Invalid: invalid store prefix /.
a => false: Invalid: invalid store prefix a.
a/b => false: Invalid: invalid store prefix a/b.
a//b => false: Invalid: invalid store prefix a//b.
/a => false: Invalid: invalid store prefix /a.
a// => false: Invalid: invalid store prefix a//.
../a => false: Invalid: invalid store prefix ../a.
"#;

#[test]
fn prefixes_show_their_texts(rt: HostRuntime) -> Result<(), Fail> {
    check_rows(rt.alloc(), PREFIXES, prefix_said)
}

// Whether a value stands before another, whether they are equal and whether they are not.
fn order_said<T: Ord>(alloc: Global, a: &T, b: &T) -> Result<String, StorageError> {
    let is_less = *a < *b;
    let is_equal = *a == *b;
    let is_other = *a != *b;
    Ok(format!(in alloc; "less {is_less}, equal {is_equal}, other {is_other}")?)
}

// The key or the prefix of a text that is known to be one, as it is shown, and how it stands to the one that is made with a look.
fn unchecked(alloc: Global, kind: &str, text: &str) -> Result<String, StorageError> {
    match kind {
        "unchecked key" if StoreKey::validate(text) => {
            let made = StoreKey::new_unchecked(String::from_str(alloc, text)?);
            let order = order_said(alloc, &made, &key(alloc, text)?)?;
            Ok(format!(in alloc; "'{made}' '{}', {order}", made.as_str())?)
        }
        "unchecked prefix" if StorePrefix::validate(text) => {
            let made = StorePrefix::new_unchecked(String::from_str(alloc, text)?);
            let order = order_said(alloc, &made, &prefix(alloc, text)?)?;
            Ok(format!(in alloc; "'{made}' '{}', {order}", made.as_str())?)
        }
        _ => unknown(alloc, kind),
    }
}

// How two keys or two prefixes stand to each other, or the text that is taken out of a prefix.
fn compared(alloc: Global, given: &str) -> Result<String, StorageError> {
    let (kind, texts) = fields(given);
    let (a, b) = fields(texts);
    match kind {
        "keys" => order_said(alloc, &key(alloc, a)?, &key(alloc, b)?),
        "prefixes" => order_said(alloc, &prefix(alloc, a)?, &prefix(alloc, b)?),
        "into_string" => Ok(prefix(alloc, a)?.into_string()),
        "key_into_string" => Ok(key(alloc, a)?.into_string()),
        "name" => Ok(format!(in alloc; "'{}'", prefix(alloc, a)?.name())?),
        "key_in" => {
            let room = String::from_str(alloc, "what is gone")?;
            Ok(prefix(alloc, a)?.key_in(room, "zarr.json")?.into_string())
        }
        _ => unchecked(alloc, kind, a),
    }
}

const COMPARED: &str = r#"
# keys and prefixes are ordered by the bytes of their texts
keys | a-b/c | a/b => less true, equal false, other true
keys | a/b | a0 => less true, equal false, other true
keys | a/b | a/b => less false, equal true, other false
keys | a/b | a/c => less true, equal false, other true
prefixes |  | a-b/ => less true, equal false, other true
prefixes | a-b/ | a/ => less true, equal false, other true
prefixes | a/ | a/ => less false, equal true, other false
prefixes | a/ | b/ => less true, equal false, other true
# a text that is known to be that of a key or of a prefix is not looked at
unchecked key | a/b => 'a/b' 'a/b', less false, equal true, other false
unchecked key | a => 'a' 'a', less false, equal true, other false
unchecked prefix | a/b/ => 'a/b/' 'a/b/', less false, equal true, other false
unchecked prefix |  => '' '', less false, equal true, other false
# a prefix, and a key, is made its text
into_string | a/b/ => a/b/
key_into_string | a/zarr.json => a/zarr.json
# the last segment of a prefix
name |  => ''
name | a/ => 'a'
name | a/b/ => 'b'
name | a/b/c/ => 'c'
# the key of a prefix and one segment more
key_in |  => zarr.json
key_in | a/b/ => a/b/zarr.json
"#;

#[test]
fn keys_and_prefixes_are_ordered_by_the_bytes_of_their_texts(rt: HostRuntime) -> Result<(), Fail> {
    check_rows(rt.alloc(), COMPARED, compared)
}

// ---- errors

// The fault with a name.
fn fault_of(alloc: Global, name: &str) -> Result<MetadataFault, StorageError> {
    match name {
        "NotJson" => Ok(MetadataFault::NotJson),
        "UnsupportedNumber" => Ok(MetadataFault::UnsupportedNumber),
        "NotAnObject" => Ok(MetadataFault::NotAnObject),
        "WrongFormat" => Ok(MetadataFault::WrongFormat),
        "WrongNodeType" => Ok(MetadataFault::WrongNodeType),
        "MissingMember" => Ok(MetadataFault::MissingMember(MemberName::new("shape"))),
        "BadMember" => Ok(MetadataFault::BadMember(MemberName::new("shape"))),
        "OutOfMemory" => Ok(MetadataFault::OutOfMemory),
        _ => unknown(alloc, name),
    }
}

// The error of a store with a name.
fn error_of(alloc: Global, name: &str) -> Result<StorageError, StorageError> {
    match name {
        "Fault" => Ok(StorageError::Fault),
        "InvalidMetadata" => {
            let document = key(alloc, "a/zarr.json")?;
            Ok(StorageError::InvalidMetadata(document, MetadataFault::NotJson))
        }
        "Other" => {
            let other = String::from_str(alloc, "invalid node path /..")?;
            Ok(StorageError::Other(other))
        }
        "OutOfMemory" => Ok(StorageError::OutOfMemory),
        _ => unknown(alloc, name),
    }
}

// What an error or a fault with a name says, or the name of a member.
fn error_said(alloc: Global, given: &str) -> Result<String, StorageError> {
    let (kind, name) = fields(given);
    match kind {
        "fault" => Ok(fault_of(alloc, name)?.to_string(alloc)?),
        "store" => Ok(error_of(alloc, name)?.to_string(alloc)?),
        "key, no memory" => Ok(StoreKeyError::OutOfMemory.to_string(alloc)?),
        "prefix, no memory" => Ok(StorePrefixError::OutOfMemory.to_string(alloc)?),
        "member shape" => Ok(String::from_str(alloc, MemberName::new("shape").as_str())?),
        _ => unknown(alloc, kind),
    }
}

const ERRORS: &str = r#"
# faults of metadata have their texts
fault | NotJson => not JSON
fault | UnsupportedNumber => unsupported number
fault | NotAnObject => not an object
fault | WrongFormat => wrong zarr_format
fault | WrongNodeType => wrong node_type
fault | MissingMember => missing member shape
fault | BadMember => bad member shape
# errors of stores have their texts
store | Fault => store fault
store | InvalidMetadata => error parsing metadata for a/zarr.json: not JSON
store | Other => invalid node path /..
# every error says that memory ran out
key, no memory => out of memory
prefix, no memory => out of memory
fault | OutOfMemory => out of memory
store | OutOfMemory => out of memory
# the name of a member shows its text
member shape => shape
"#;

#[test]
fn errors_have_their_texts(rt: HostRuntime) -> Result<(), Fail> {
    check_rows(rt.alloc(), ERRORS, error_said)
}

// ---- steps in a store

// The word for a fault of a store, or another refusal.
fn refused(alloc: Global, error: &StorageError) -> Result<String, AllocError> {
    match error {
        StorageError::Fault => String::from_str(alloc, "Fault"),
        other => refusal(alloc, other),
    }
}

// That a change is done, or the refusal.
fn done(alloc: Global, answer: Result<(), StorageError>) -> Result<String, AllocError> {
    match answer {
        Ok(()) => String::from_str(alloc, "done"),
        Err(error) => refused(alloc, &error),
    }
}

// The bytes as a text, or `nothing`, or the refusal.
fn bytes_said(
    alloc: Global,
    answer: Result<Option<Vec<u8>>, StorageError>,
) -> Result<String, AllocError> {
    match answer {
        Ok(Some(bytes)) => {
            let text = String::from_utf8_lossy(alloc, bytes.as_slice())?;
            format!(in alloc; "bytes '{text}'")
        }
        Ok(None) => String::from_str(alloc, "nothing"),
        Err(error) => refused(alloc, &error),
    }
}

// The texts of keys, each with a space in front of it.
fn texts_of_keys(alloc: Global, keys: &[StoreKey]) -> Result<String, StorageError> {
    let mut texts = String::from_str(alloc, "keys")?;
    for key in keys {
        texts.push_str(" ")?;
        texts.push_str(key.as_str())?;
    }
    Ok(texts)
}

// The texts of prefixes, each with a space in front of it.
fn texts_of_prefixes(alloc: Global, prefixes: &[StorePrefix]) -> Result<String, StorageError> {
    let mut texts = String::from_str(alloc, "prefixes")?;
    for prefix in prefixes {
        texts.push_str(" ")?;
        texts.push_str(prefix.as_str())?;
    }
    Ok(texts)
}

// The texts of the keys that are listed, or the refusal.
fn keys_said(
    alloc: Global,
    answer: Result<Vec<StoreKey>, StorageError>,
) -> Result<String, StorageError> {
    match answer {
        Ok(keys) => texts_of_keys(alloc, keys.as_slice()),
        Err(error) => Ok(refused(alloc, &error)?),
    }
}

// The texts of the keys and of the prefixes that are listed, or the refusal.
fn children_said(
    alloc: Global,
    answer: Result<StoreKeysPrefixes, StorageError>,
) -> Result<String, StorageError> {
    match answer {
        Ok(dir) => children_texts(alloc, &dir),
        Err(error) => Ok(refused(alloc, &error)?),
    }
}

// The texts of the child prefixes that are listed, or the refusal.
fn prefixes_said(
    alloc: Global,
    answer: Result<Vec<StorePrefix>, StorageError>,
) -> Result<String, StorageError> {
    match answer {
        Ok(prefixes) => texts_of_prefixes(alloc, prefixes.as_slice()),
        Err(error) => Ok(refused(alloc, &error)?),
    }
}

fn children_texts(alloc: Global, dir: &StoreKeysPrefixes) -> Result<String, StorageError> {
    let keys = texts_of_keys(alloc, dir.keys.as_slice())?;
    let prefixes = texts_of_prefixes(alloc, dir.prefixes.as_slice())?;
    Ok(format!(in alloc; "{keys}, {prefixes}")?)
}

// What a store answers to a call that lists, for a prefix.
fn listing<S: ListableStorageTraits>(
    alloc: Global,
    store: &S,
    call: &str,
    below: &str,
) -> Result<String, StorageError> {
    let prefix = prefix(alloc, below)?;
    match call {
        "list" => keys_said(alloc, store.list(alloc)),
        "list_prefix" => keys_said(alloc, store.list_prefix(alloc, &prefix)),
        "list_dir" => children_said(alloc, store.list_dir(alloc, &prefix)),
        "list_child_prefixes" => { prefixes_said(alloc, store.list_child_prefixes(alloc, &prefix)) }
        "discover" => {
            let children = discover_children(alloc, store, &prefix)?;
            texts_of_prefixes(alloc, children.as_slice())
        }
        _ => unknown(alloc, call),
    }
}

// The word for the numbers that the documents of a store may hold.
fn numbers_said<S: Store>(store: &S) -> &'static str {
    match store.numbers() {
        Numbers::Whole => "Whole",
        Numbers::Any => "Any",
    }
}

// What a store answers to a call that reads.
fn reading<S: ReadableStorageTraits + ListableStorageTraits>(
    alloc: Global,
    store: &S,
    call: &str,
    at: &str,
) -> Result<String, StorageError> {
    match call {
        "get" => {
            let key = key(alloc, at)?;
            Ok(bytes_said(alloc, store.get(alloc, &key))?)
        }
        "numbers" => Ok(String::from_str(alloc, numbers_said(store))?),
        _ => listing(alloc, store, call, at),
    }
}

// A step's call and what stands behind it.
fn parts(step: &str) -> (&str, &str) {
    step.split_once(' ').unwrap_or((step, ""))
}

// What a store answers to a step: a call that sets a key to bytes, that erases a key, or that reads.
fn stepped<S: ReadableStorageTraits + ListableStorageTraits + WritableStorageTraits>(
    alloc: Global,
    store: &mut S,
    step: &str,
) -> Result<String, StorageError> {
    let (call, at) = parts(step);
    match call {
        "set" => {
            let (at, bytes) = parts(at);
            let key = key(alloc, at)?;
            Ok(done(alloc, store.set(&key, bytes.as_bytes()))?)
        }
        "erase" => {
            let key = key(alloc, at)?;
            Ok(done(alloc, store.erase(&key))?)
        }
        _ => reading(alloc, &*store, call, at),
    }
}

// Adds the answer to a step to those to the steps before it.
fn push_answer(answers: &mut String, answer: &str) -> Result<(), StorageError> {
    if !answers.is_empty() {
        answers.push_str("; ")?;
    }
    Ok(answers.push_str(answer)?)
}

// ---- the store in memory

// Sets a key to bytes that the store takes over.
fn insert(alloc: Global, store: &mut MemoryStore, given: &str) -> Result<(), StorageError> {
    let (at, bytes) = parts(given);
    let bytes = Vec::from_slice(alloc, bytes.as_bytes())?;
    let key = key(alloc, at)?;
    Ok(store.insert(key, bytes)?)
}

// How many comparisons of keys a store makes to list what stands directly below a prefix.
fn comparisons_below(alloc: Global, store: &MemoryStore, below: &str) -> Result<u64, StorageError> {
    let prefix = prefix(alloc, below)?;
    let (_, comparisons) = store.list_dir_counted(alloc, &prefix)?;
    Ok(comparisons)
}

// From where to where the keys below a prefix stand, and whether they are found by one to six comparisons.
fn range_said(alloc: Global, store: &MemoryStore, below: &str) -> Result<String, StorageError> {
    let prefix = prefix(alloc, below)?;
    let (first, end, comparisons) = store.range_counted(&prefix);
    let are_few = comparisons >= 1 && comparisons <= 6;
    Ok(format!(in alloc; "from {first} to {end}, one to six {are_few}")?)
}

// What a store in memory answers to a step, be it one that no other store has.
fn memory_step(alloc: Global, store: &mut MemoryStore, step: &str) -> Result<String, StorageError> {
    let (call, rest) = parts(step);
    match call {
        "insert" => Ok(done(alloc, insert(alloc, store, rest))?),
        "count" => Ok(comparisons_below(alloc, &*store, rest)?.to_string(alloc)?),
        "range" => range_said(alloc, &*store, rest),
        _ => stepped(alloc, store, step),
    }
}

// What a store in memory answers to steps.
fn memory_steps(
    alloc: Global,
    store: &mut MemoryStore,
    steps: &str,
) -> Result<String, StorageError> {
    let mut answers = String::new(alloc);
    for step in steps.split(';') {
        let step = step.strip_prefix(' ').unwrap_or(step);
        let answer = memory_step(alloc, store, step)?;
        push_answer(&mut answers, answer.as_str())?;
    }
    Ok(answers)
}

// What the store in memory with some keys answers to steps.
fn memory_said(alloc: Global, given: &str) -> Result<String, StorageError> {
    let (keys, steps) = fields(given);
    let mut store = store_of(alloc, keys)?;
    memory_steps(alloc, &mut store, steps)
}

const LISTINGS: &str = r#"
# keys are listed below prefixes
a a-b/c a/b a/c/d a0 | list_prefix => keys a a-b/c a/b a/c/d a0
a a-b/c a/b a/c/d a0 | list_dir => keys a a0, prefixes a-b/ a/
a a-b/c a/b a/c/d a0 | list_prefix a/ => keys a/b a/c/d
a a-b/c a/b a/c/d a0 | list_dir a/ => keys a/b, prefixes a/c/
a a-b/c a/b a/c/d a0 | list_child_prefixes => prefixes a-b/ a/
a a-b/c a/b a/c/d a0 | list_child_prefixes a/ => prefixes a/c/
a a-b/c a/b a/c/d a0 | list_child_prefixes a/c/d/ => prefixes
a a-b/c a/b a/c/d a0 | list_prefix a-b/ => keys a-b/c
a a-b/c a/b a/c/d a0 | list_dir a-b/ => keys a-b/c, prefixes
a a-b/c a/b a/c/d a0 | list_prefix a/c/d/ => keys
a a-b/c a/b a/c/d a0 | list_dir a/c/d/ => keys, prefixes
a a-b/c a/b a/c/d a0 | list_prefix b/ => keys
a a-b/c a/b a/c/d a0 | list_dir b/ => keys, prefixes
a a-b/c a/b a/c/d a0 | list => keys a a-b/c a/b a/c/d a0
a a-b/c a/b a/c/d a0 | list_prefix a/; list_dir a/; list => keys a/b a/c/d; keys a/b, prefixes a/c/; keys a a-b/c a/b a/c/d a0
# a child with many keys is listed once
a/c/0 a/c/1/2 a/zarr.json b/zarr.json | list_dir => keys, prefixes a/ b/
# what stands beside runs of keys is listed
a-b/0 a/0 a/1 a/2 a/c/0/0 a/c/0/1 a/c/1/0 a0/0 b/x/y | list_dir => keys, prefixes a-b/ a/ a0/ b/
a-b/0 a/0 a/1 a/2 a/c/0/0 a/c/0/1 a/c/1/0 a0/0 b/x/y | list_dir a/ => keys a/0 a/1 a/2, prefixes a/c/
a-b/0 a/0 a/1 a/2 a/c/0/0 a/c/0/1 a/c/1/0 a0/0 b/x/y | list_dir a/c/ => keys, prefixes a/c/0/ a/c/1/
a-b/0 a/0 a/1 a/2 a/c/0/0 a/c/0/1 a/c/1/0 a0/0 b/x/y | list_child_prefixes => prefixes a-b/ a/ a0/ b/
a-b/0 a/0 a/1 a/2 a/c/0/0 a/c/0/1 a/c/1/0 a0/0 b/x/y | list_child_prefixes a/c/ => prefixes a/c/0/ a/c/1/
a-b/0 a/0 a/1 a/2 a/c/0/0 a/c/0/1 a/c/1/0 a0/0 b/x/y | list_dir a/c/0/ => keys a/c/0/0 a/c/0/1, prefixes
a-b/0 a/0 a/1 a/2 a/c/0/0 a/c/0/1 a/c/1/0 a0/0 b/x/y | list_dir a-/ => keys, prefixes
a-b/0 a/0 a/1 a/2 a/c/0/0 a/c/0/1 a/c/1/0 a0/0 b/x/y | list_dir b/x/ => keys b/x/y, prefixes
a-b/0 a/0 a/1 a/2 a/c/0/0 a/c/0/1 a/c/1/0 a0/0 b/x/y | list_dir c/ => keys, prefixes
# an empty store has no children, and finds that without a comparison
 | list_dir => keys, prefixes
 | count => 0
 | list => keys
# Of three keys the search for the first makes two comparisons, that for the end two; `a/0` is looked at, `a/1` and `b/0` are found to
# be and not to be in `a/`, and `b/0` is looked at.
a/0 a/1 b/0 | count => 8
# a listing leaps over the chunks of an array
a/zarr.json b/zarr.json zarr.json chunks | list_dir => keys zarr.json, prefixes a/ b/
a/zarr.json b/zarr.json zarr.json chunks | list_dir a/ => keys a/zarr.json, prefixes a/c/
# the keys below a prefix stand together
a/c/d a a0 a-b/c a/b | range => from 0 to 5, one to six true
a/c/d a a0 a-b/c a/b | range a/ => from 2 to 4, one to six true
a/c/d a a0 a-b/c a/b | range a-b/ => from 1 to 2, one to six true
a/c/d a a0 a-b/c a/b | range a/c/ => from 3 to 4, one to six true
a/c/d a a0 a-b/c a/b | range a/b/ => from 3 to 3, one to six true
a/c/d a a0 a-b/c a/b | range b/ => from 5 to 5, one to six true
a/c/d a a0 a-b/c a/b | list_dir a/ => keys a/b, prefixes a/c/
# children are discovered by name
a-b/z a/z b/c/z __x/z | discover => prefixes a/ a-b/ b/
../z zarr.json __x/z a/y/z | discover => prefixes ../ a/
a a/zarr.json | discover => prefixes a/
a a/zarr.json | discover a/ => prefixes
zarr.json/z .zarray/z ..a/z | discover => prefixes ..a/ .zarray/ zarr.json/
z/zarr.json é/zarr.json | discover => prefixes z/ é/
a/zarr.json a/.../x a/__c/x | discover a/ => prefixes a/.../
a/zarr.json __reserved/x | discover => prefixes a/
"#;

#[test]
fn a_store_in_memory_lists_its_keys(rt: HostRuntime) -> Result<(), Fail> {
    check_rows(rt.alloc(), LISTINGS, memory_said)
}

const CHANGES: &str = r#"
# one key is changed
a b | set a yz; erase b; erase c; get a; get b; list => done; done; done; bytes 'yz'; nothing; keys a
# a key and its bytes are taken over
a | insert a yz; get a => done; bytes 'yz'
# its documents hold whole numbers
a | numbers; set a 1.5; numbers; erase a; numbers => Whole; done; Whole; done; Whole
# keys ascend in whatever order they are set
b d a c b | list; erase a; erase d; insert e; list => keys a b c d; done; done; done; keys b c e
"#;

#[test]
fn a_store_in_memory_changes_one_key(rt: HostRuntime) -> Result<(), Fail> {
    check_rows(rt.alloc(), CHANGES, memory_said)
}

// Asks that a store makes so many comparisons of keys, from the least to the most.
fn counts(
    alloc: Global,
    store: &MemoryStore,
    below: &str,
    least: u64,
    most: u64,
) -> Result<(), Fail> {
    let found = comparisons_below(alloc, store, below)?;
    if least <= found && found <= most {
        Ok(())
    } else {
        Err(Fail::new(format_args!(
            "below {below}: {found} comparisons in place of {least} to {most}"
        )))
    }
}

// The number of all keys, 203, has eight binary digits: each search takes sixteen comparisons at most.
fn leaps_over_chunks(alloc: Global, store: &MemoryStore) -> Result<(), Fail> {
    counts(alloc, store, "", 4, 51)?;
    counts(alloc, store, "a/", 3, 34)?;
    counts(alloc, store, "a/c/19/", 10, 26)
}

#[test]
fn a_listing_leaps_over_the_chunks_of_an_array(rt: HostRuntime) -> Result<(), Fail> {
    let alloc = rt.alloc();
    let store = store_of(alloc, "a/zarr.json b/zarr.json zarr.json chunks")?;
    leaps_over_chunks(alloc, &store)
}

// A store with a key for each number below `count`, in the order of their texts.
fn numbered(alloc: Global, count: u32) -> Result<MemoryStore, Fail> {
    let mut store = MemoryStore::new(alloc);
    for i in 0..count {
        store.insert(numbered_key(alloc, i, "")?, Vec::new(alloc))?;
    }
    Ok(store)
}

// The key of a number: four digits and what stands behind them.
fn numbered_key(alloc: Global, number: u32, behind: &str) -> Result<StoreKey, Fail> {
    let text = format!(in alloc; "{number:04}{behind}")?;
    Ok(key(alloc, text.as_str())?)
}

// Asks that a key is found at this place; the number of comparisons that this took.
fn found_at(store: &MemoryStore, key: &StoreKey, wanted: u32) -> Result<u32, Fail> {
    let (place, comparisons) = store.find_counted(key);
    if place.ok() == usize::try_from(wanted).ok() {
        Ok(comparisons)
    } else {
        Err(Fail::new(format_args!("a key is not found at {wanted}")))
    }
}

// Asks that a key is not found and would stand at this place, by so many comparisons at most.
fn absent_at(store: &MemoryStore, key: &StoreKey, wanted: u32, digits: u32) -> Result<(), Fail> {
    let (place, comparisons) = store.find_counted(key);
    if place.err() == usize::try_from(wanted).ok() && comparisons <= digits {
        Ok(())
    } else {
        Err(Fail::new(format_args!(
            "a key would not stand at {wanted} by {comparisons} comparisons of {digits}"
        )))
    }
}

// Asks that the key of a number is found and the key behind it is not; the number of comparisons that the first took.
fn found_number(alloc: Global, store: &MemoryStore, number: u32, digits: u32) -> Result<u32, Fail> {
    let behind = numbered_key(alloc, number, "-")?;
    absent_at(store, &behind, number.saturating_add(1), digits)?;
    let key = numbered_key(alloc, number, "")?;
    found_at(store, &key, number)
}

// Asks that each key of a store of numbers is found; the most comparisons that one took.
fn most_comparisons(
    alloc: Global,
    store: &MemoryStore,
    count: u32,
    digits: u32,
) -> Result<u32, Fail> {
    let mut most = 0;
    for i in 0..count {
        most = most.max(found_number(alloc, store, i, digits)?);
    }
    Ok(most)
}

// Asks that the keys of a store of so many numbers are found by as many comparisons, and so is the place before them.
fn are_found(alloc: Global, store: &MemoryStore, count: u32, digits: u32) -> Result<(), Fail> {
    let most = most_comparisons(alloc, store, count, digits)?;
    if most != digits {
        return Err(Fail::new(format_args!("{most} comparisons of {count} keys")));
    }
    let before = key(alloc, "+")?;
    absent_at(store, &before, 0, digits)
}

// Asks the same of a store of so many numbers.
fn numbers_are_found(alloc: Global, count: u32, digits: u32) -> Result<(), Fail> {
    let store = numbered(alloc, count)?;
    are_found(alloc, &store, count, digits)
}

#[test]
fn a_key_is_found_by_as_many_comparisons_as_the_number_of_keys_has_digits(
    rt: HostRuntime,
) -> Result<(), Fail> {
    let alloc = rt.alloc();
    numbers_are_found(alloc, 0, 0)?;
    numbers_are_found(alloc, 1, 1)?;
    numbers_are_found(alloc, 1000, 10)?;
    numbers_are_found(alloc, 1024, 11)
}

// ---- the store that fails

// The place at which a store fails: a call, and the key or the prefix that it fails for.
fn place_of(alloc: Global, text: &str) -> Result<FaultAt, StorageError> {
    let (call, at) = parts(text);
    match call {
        "get" => Ok(FaultAt::OnGet(key(alloc, at)?)),
        "list" => Ok(FaultAt::OnList(prefix(alloc, at)?)),
        "set" => Ok(FaultAt::OnSet(key(alloc, at)?)),
        "erase" => Ok(FaultAt::OnErase(key(alloc, at)?)),
        _ => unknown(alloc, call),
    }
}

// What a failing store, or for the word `inner` the store in it, answers to a step.
fn failing_step(alloc: Global, store: &mut FaultStore, step: &str) -> Result<String, StorageError> {
    let (word, rest) = parts(step);
    match word {
        "inner" => {
            let (call, at) = parts(rest);
            reading(alloc, store.inner(), call, at)
        }
        _ => stepped(alloc, store, step),
    }
}

// What a failing store answers to steps.
fn failing_steps(
    alloc: Global,
    store: &mut FaultStore,
    steps: &str,
) -> Result<String, StorageError> {
    let mut answers = String::new(alloc);
    for step in steps.split(';') {
        let step = step.strip_prefix(' ').unwrap_or(step);
        let answer = failing_step(alloc, store, step)?;
        push_answer(&mut answers, answer.as_str())?;
    }
    Ok(answers)
}

// The store with some keys that fails at a place.
fn failing(alloc: Global, place: &str, keys: &str) -> Result<FaultStore, StorageError> {
    let place = place_of(alloc, place)?;
    Ok(FaultStore::new(store_of(alloc, keys)?, place))
}

// What the store with some keys that fails at a place answers to steps.
fn failing_said(alloc: Global, given: &str) -> Result<String, StorageError> {
    let (place, rest) = fields(given);
    let (keys, steps) = fields(rest);
    let mut store = failing(alloc, place, keys)?;
    failing_steps(alloc, &mut store, steps)
}

const FAILING: &str = r#"
# a store fails as often as its key is read
get a | a a/b | get a; get a; get a/b; get b; inner get a; list => Fault; Fault; bytes 'x'; nothing; bytes 'x'; keys a a/b
get a | a a/b/c a/d | list_prefix a/ => keys a/b/c a/d
# its documents hold whole numbers
get a | a | numbers; inner numbers; set b 1.5; numbers => Whole; Whole; done; Whole
# a store fails where its prefix is listed
list | a a/b/c a/d | list => Fault
list | a a/b/c a/d | list_prefix => Fault
list | a a/b/c a/d | list_dir => Fault
list | a a/b/c a/d | list_prefix a/ => keys a/b/c a/d
list | a a/b/c a/d | list_dir a/ => keys a/d, prefixes a/b/
list a/ | a a/b/c a/d | list => keys a a/b/c a/d
list a/ | a a/b/c a/d | list_prefix => keys a a/b/c a/d
list a/ | a a/b/c a/d | list_dir => keys a, prefixes a/
list a/ | a a/b/c a/d | list_prefix a/ => Fault
list a/ | a a/b/c a/d | list_dir a/ => Fault
list a/ | a a/b/c a/d | list_child_prefixes a/ => Fault
list a/ | a a/b/c a/d | list_child_prefixes => prefixes a/
list a/b/ | a a/b/c a/d | list => keys a a/b/c a/d
list a/b/ | a a/b/c a/d | list_prefix => keys a a/b/c a/d
list a/b/ | a a/b/c a/d | list_dir => keys a, prefixes a/
list a/b/ | a a/b/c a/d | list_prefix a/ => keys a/b/c a/d
list a/b/ | a a/b/c a/d | list_dir a/ => keys a/d, prefixes a/b/
# and as often as it is listed
list | a a/b/c a/d | list; list_prefix; list_dir; list_prefix a/; list_dir a/ => Fault; Fault; Fault; keys a/b/c a/d; keys a/d, prefixes a/b/
list a/ | a a/b/c a/d | list; list_prefix; list_dir => keys a a/b/c a/d; keys a a/b/c a/d; keys a, prefixes a/
list a/ | a a/b/c a/d | list_dir; list_prefix a/; list_dir a/ => keys a, prefixes a/; Fault; Fault
# a failing store lists what the inner store lists
list a/b/ | a a/b/c a/d | list; list_prefix a/; list_dir a/ => keys a a/b/c a/d; keys a/b/c a/d; keys a/d, prefixes a/b/
# a failing set leaves the first half of the bytes
set a | a b | set a 12345; get a; set a 1234; get a; set a 1; get a; set a; get a => Fault; bytes '12'; Fault; bytes '12'; Fault; bytes ''; Fault; bytes ''
set a | a b | set a; set b 12345; inner get b; erase a; set a 12345; inner get a => Fault; done; bytes '12345'; done; Fault; bytes '12'
# a failing erase leaves the key
erase a | a b | erase a; get a; erase b; erase c; list => Fault; bytes 'x'; done; done; keys a
"#;

#[test]
fn a_failing_store_fails_at_one_place(rt: HostRuntime) -> Result<(), Fail> {
    check_rows(rt.alloc(), FAILING, failing_said)
}

// ---- the store whose documents may hold any number

// What a store that takes any number, or for the word `inner` the store in it, answers to a step.
fn any_step<S: ReadableStorageTraits + ListableStorageTraits + WritableStorageTraits + Drop>(
    alloc: Global,
    store: &mut AnyNumbers<S>,
    step: &str,
) -> Result<String, StorageError> {
    let (word, rest) = parts(step);
    match word {
        "inner" => stepped(alloc, &mut store.inner, rest),
        _ => stepped(alloc, store, step),
    }
}

// What such a store answers to steps.
fn any_steps<S: ReadableStorageTraits + ListableStorageTraits + WritableStorageTraits + Drop>(
    alloc: Global,
    store: &mut AnyNumbers<S>,
    steps: &str,
) -> Result<String, StorageError> {
    let mut answers = String::new(alloc);
    for step in steps.split(';') {
        let step = step.strip_prefix(' ').unwrap_or(step);
        let answer = any_step(alloc, store, step)?;
        push_answer(&mut answers, answer.as_str())?;
    }
    Ok(answers)
}

// What such a store over one in memory with some keys answers to steps.
fn any_said(alloc: Global, given: &str) -> Result<String, StorageError> {
    let (keys, steps) = fields(given);
    let mut store = AnyNumbers {
        inner: store_of(alloc, keys)?,
    };
    any_steps(alloc, &mut store, steps)
}

const ANY_NUMBERS: &str = r#"
# its documents may hold any number, and those of the store in it whole numbers
a | numbers; inner numbers => Any; Whole
 | numbers; inner numbers => Any; Whole
# it has what the store in it has
a a/b/c a/d | get a; get a/b/c; get b => bytes 'x'; bytes 'x'; nothing
# it lists what the store in it lists
a a-b/c a/b a/c/d a0 | list; inner list => keys a a-b/c a/b a/c/d a0; keys a a-b/c a/b a/c/d a0
a a-b/c a/b a/c/d a0 | list_prefix; list_prefix a/; list_prefix b/ => keys a a-b/c a/b a/c/d a0; keys a/b a/c/d; keys
a a-b/c a/b a/c/d a0 | list_dir; list_dir a/ => keys a a0, prefixes a-b/ a/; keys a/b, prefixes a/c/
a a-b/c a/b a/c/d a0 | list_child_prefixes; list_child_prefixes a/ => prefixes a-b/ a/; prefixes a/c/
a-b/z a/z b/c/z __x/z | discover => prefixes a/ a-b/ b/
 | list; list_prefix; list_dir; list_child_prefixes => keys; keys; keys, prefixes; prefixes
# a change is one of the store in it, one key's, and numbers stay
a b | set a 1.5; get a; inner get a; numbers; inner numbers => done; bytes '1.5'; bytes '1.5'; Any; Whole
a b | set c 1.5; inner list; get a => done; keys a b c; bytes 'x'
a b | erase a; get a; inner get a; inner list; numbers; inner numbers => done; nothing; nothing; keys b; Any; Whole
a b | erase c; list => done; keys a b
a b | inner set a yz; get a; inner erase b; list => done; bytes 'yz'; done; keys a
"#;

#[test]
fn a_store_of_any_numbers_is_the_store_in_it(rt: HostRuntime) -> Result<(), Fail> {
    check_rows(rt.alloc(), ANY_NUMBERS, any_said)
}

// What such a store over one with some keys that fails at a place answers to steps.
fn any_failing_said(alloc: Global, given: &str) -> Result<String, StorageError> {
    let (place, rest) = fields(given);
    let (keys, steps) = fields(rest);
    let mut store = AnyNumbers {
        inner: failing(alloc, place, keys)?,
    };
    any_steps(alloc, &mut store, steps)
}

const ANY_NUMBERS_FAILING: &str = r#"
# its documents may hold any number
get a | a | numbers; inner numbers; get a; numbers => Any; Whole; Fault; Any
# a fault of the store in it comes through, as often as it comes
get a | a a/b | get a; get a; get a/b; list => Fault; Fault; bytes 'x'; keys a a/b
list | a a/b/c a/d | list; list_prefix; list_dir; list_child_prefixes => Fault; Fault; Fault; Fault
list | a a/b/c a/d | list_prefix a/; list_dir a/; list_child_prefixes a/ => keys a/b/c a/d; keys a/d, prefixes a/b/; prefixes a/b/
list a/ | a a/b/c a/d | list_prefix a/; list_dir a/; list_child_prefixes a/ => Fault; Fault; Fault
list a/ | a a/b/c a/d | list; list_dir; list_child_prefixes => keys a a/b/c a/d; keys a, prefixes a/; prefixes a/
set a | a b | set a 12345; get a; numbers; set b yz; inner get b => Fault; bytes '12'; Any; done; bytes 'yz'
erase a | a b | erase a; get a; numbers; erase b; list => Fault; bytes 'x'; Any; done; keys a
"#;

#[test]
fn a_fault_comes_through_a_store_of_any_numbers(rt: HostRuntime) -> Result<(), Fail> {
    check_rows(rt.alloc(), ANY_NUMBERS_FAILING, any_failing_said)
}

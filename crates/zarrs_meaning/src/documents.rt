//! The documents of a store, as they are read.
ghost use Rattle.std.specs.Prelude.{◌≡◌, [], ◌∷◌, ◌++◌, Ok, IfOk, IfErr, IsTrue};
ghost use Rattle.zarrs_store.specs.Segments.{is_segment};
ghost use Rattle.zarrs_meaning.specs.DocumentsAtKeys.{attributes_at};
ghost use Rattle.zarrs_meaning.specs.DocumentsAtKeys.{RefusesReading, stored_document};
ghost use Rattle.zarrs_meaning.specs.StepsOfDocuments.{refusal_at};

use crate::last_read::LastRead;
use std::alloc::Global;
use std::mem::replace;
use zarrs_meta::{AttributesDocument, Document};
use zarrs_path::{NodePath, meta_key_v2_attributes};
use zarrs_store::{MetadataFault, ReadableStorageTraits, StorageError, StoreKey, StorePrefix};

/// The document at a key, read in the numbers of the store, or none where the key is absent.
///
/// # Errors
///
/// - `InvalidMetadata` where the document does not read, with its key and the fault.
/// - `Fault` of a store that can fail, and `OutOfMemory`.
///
/// Source: Zarr core specification 3.1, "Metadata documents".
pub fn document_at<S: ReadableStorageTraits, D: Document + Drop>(
    alloc: Global,
    storage: &S,
    key: StoreKey,
) -> Result<Option<D>, StorageError>
    ensures ok { IfOk result
        (λ found. stored_document D.meaning (S.contents storage.now) key ≡ Ok found) }
    ensures err { IfErr result
        (RefusesReading (S.can_fail storage.now)
        (stored_document D.meaning (S.contents storage.now) key)) }
{
    let mut last = LastRead::new(alloc);
    let (key, found) = find_document(alloc, storage, key, &mut last)?;
    drop(key);
    Ok(found)
}

/// The attributes that `.zattrs` of a path has, read in the numbers of the store, or none where it is absent.
///
/// # Errors
///
/// - `InvalidMetadata` where `.zattrs` does not read, with its key and the fault.
/// - `Fault` of a store that can fail, and `OutOfMemory`.
///
/// Source: Zarr specification version 2, "Attributes".
pub fn attributes_at<S: ReadableStorageTraits>(
    alloc: Global,
    storage: &S,
    path: &NodePath,
) -> Result<Option<AttributesDocument>, StorageError>
    ensures ok { IfOk result (λ found. attributes_at (S.contents storage.now) path.now ≡ Ok found) }
    ensures err { IfErr result
        (RefusesReading (S.can_fail storage.now)
        (attributes_at (S.contents storage.now) path.now)) }
{
    document_at(alloc, storage, meta_key_v2_attributes(alloc, path)?)
}

// What `document_at` answers, where such a document was read before, and the key.
#[tactic(auto, unfolding(crate::specs::DocumentsAtKeys::document_at))]
fn find_document<S: ReadableStorageTraits, D: Document + Drop>(
    alloc: Global,
    storage: &S,
    key: StoreKey,
    last: &mut LastRead<D>,
) -> Result<(StoreKey, Option<D>), StorageError>
    ensures ok { IfOk result
        (λ x. stored_document D.meaning (S.contents storage.now) key ≡ Ok x.1) }
    ensures err { IfErr result
        (RefusesReading (S.can_fail storage.now)
        (stored_document D.meaning (S.contents storage.now) key)) }
{
    let Some(bytes) = storage.get(alloc, &key)? else {
        return Ok((key, None));
    };
    match last.read(alloc, storage.numbers(), bytes) {
        Ok(document) => Ok((key, Some(document))),
        Err(fault) => Err(invalid(key, fault)),
    }
}

// The document with a name below a prefix, where such a document was read before. Its key is made in the room of a text.
pub(crate) fn find_below<S: ReadableStorageTraits, D: Document + Drop>(
    alloc: Global,
    storage: &S,
    prefix: &StorePrefix,
    name: &str,
    text: &mut String,
    last: &mut LastRead<D>,
) -> Result<Option<D>, StorageError>
    requires segment { IsTrue (is_segment name.now) }
    ensures ok { IfOk result
        (λ found. stored_document D.meaning (S.contents storage.now) (prefix.now ++ name.now ∷ [])
        ≡ Ok found) }
    ensures err { IfErr result
        (RefusesReading (S.can_fail storage.now)
        (stored_document D.meaning (S.contents storage.now) (prefix.now ++ name.now ∷ []))) }
{
    let room = replace(text, String::new(alloc));
    let key = prefix.key_in(room, name)?;
    let (key, found) = find_document(alloc, storage, key, last)?;
    *text = key.into_string();
    Ok(found)
}

// The refusal for a fault of the document at a key.
fn invalid(key: StoreKey, fault: MetadataFault) -> StorageError
    ensures { result ≡ refusal_at key fault }
{
    match fault {
        MetadataFault::OutOfMemory => StorageError::OutOfMemory,
        fault => StorageError::InvalidMetadata(key, fault),
    }
}

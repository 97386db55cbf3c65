//! The words that name documents and enum values in the rows of tables. A word that names none is refused, so that a row can't ask for
//! something else.

use crate::A3_SQUARE;
use std::alloc::{AllocError, Global};
use tests_support::{A2, A3, G2, G3};
use zarrs_config::{MetadataRetrieveVersion, UseConsolidatedMetadata};
use zarrs_store::StorageError;

/// The version that a word names.
pub fn version_of(alloc: Global, word: &str) -> Result<MetadataRetrieveVersion, StorageError> {
    match word {
        "any" => Ok(MetadataRetrieveVersion::Default),
        "v2" => Ok(MetadataRetrieveVersion::V2),
        "v3" => Ok(MetadataRetrieveVersion::V3),
        word => Err(no_word(alloc, word)),
    }
}

/// The policy of blocks that a word names.
pub fn policy_of(alloc: Global, word: &str) -> Result<UseConsolidatedMetadata, StorageError> {
    match word {
        "auto" => Ok(UseConsolidatedMetadata::Auto),
        "must" => Ok(UseConsolidatedMetadata::Must),
        "never" => Ok(UseConsolidatedMetadata::Never),
        word => Err(no_word(alloc, word)),
    }
}

/// The refusal of a word that names nothing.
pub fn no_word(alloc: Global, word: &str) -> StorageError {
    match format!(in alloc; "no such word: {word}") {
        Ok(text) => StorageError::Other(text),
        Err(_) => StorageError::OutOfMemory,
    }
}

/// The document that a word names, or the text that begins as JSON does, or is empty; `NUL` is a byte that no JSON has.
pub fn document_of<'a>(alloc: Global, word: &'a str) -> Result<&'a str, StorageError> {
    match word {
        "G2" => Ok(G2),
        "G3" => Ok(G3),
        "A2" => Ok(A2),
        "A3" => Ok(A3),
        "A3_SQUARE" => Ok(A3_SQUARE),
        "NUL" => Ok("\0"),
        text if text.is_empty() || text.starts_with('{') || text.starts_with('[') => Ok(text),
        word => Err(no_word(alloc, word)),
    }
}

/// So many lists in each other, as JSON text.
pub fn lists_text(alloc: Global, levels: usize) -> Result<String, AllocError> {
    let open = "[".repeat(alloc, levels)?;
    let close = "]".repeat(alloc, levels)?;
    format!(in alloc; "{open}{close}")
}

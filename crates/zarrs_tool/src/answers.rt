//! What loading and running answer, as texts.

use crate::fault::ToolFault;
use std::alloc::{AllocError, Global};
use zarrs_store::{ListableStorageTraits, MemoryStore, ReadableStorageTraits};

/// Each key of a loaded store, the bytes there and a newline; or the variant and the text of the refusal.
pub(crate) fn loaded(alloc: Global, answer: &Result<MemoryStore, ToolFault>) -> Option<String> {
    match answer {
        Ok(store) => shown(alloc, store),
        Err(fault) => refused(alloc, fault).ok(),
    }
}

/// The variant and the text of a refusal.
pub(crate) fn refused(alloc: Global, fault: &ToolFault) -> Result<String, AllocError> {
    format!(in alloc; "{fault:?}: {fault}")
}

/// The variant of what refuses a run, or no text.
pub(crate) fn variant(
    alloc: Global,
    outcome: &Result<(), ToolFault>,
) -> Result<String, AllocError> {
    match outcome {
        Ok(()) => Ok(String::new(alloc)),
        Err(fault) => format!(in alloc; "{fault:?}"),
    }
}

// Each key of a store, the bytes there and a newline.
fn shown(alloc: Global, store: &MemoryStore) -> Option<String> {
    let mut text = String::new(alloc);
    for key in store.list(alloc).ok()? {
        let bytes = store.get(alloc, &key).ok()??;
        let bytes = String::from_utf8(bytes).ok()?;
        let line = format!(in alloc; "{key} {bytes}\n").ok()?;
        text.push_str(line.as_str()).ok()?;
    }
    Some(text)
}

//! What a load answers, as a text.

use std::alloc::Global;
use zarrs_load::LoadFault;
use zarrs_store::{ListableStorageTraits, MemoryStore, ReadableStorageTraits};

/// Each key of a loaded store, the bytes there and a newline; or the variant and the text of the refusal.
pub(crate) fn loaded(alloc: Global, answer: &Result<MemoryStore, LoadFault>) -> Option<String> {
    match answer {
        Ok(store) => shown(alloc, store),
        Err(fault) => refused(alloc, fault),
    }
}

/// The variant and the text of a refusal.
pub(crate) fn refused(alloc: Global, fault: &LoadFault) -> Option<String> {
    format!(in alloc; "{fault:?}: {fault}").ok()
}

// Each key of a store, the bytes there and a newline.
fn shown(alloc: Global, store: &MemoryStore) -> Option<String> {
    let mut text = String::new(alloc);
    for key in store.list(alloc).ok()? {
        let bytes = store.get(alloc, &key).ok()??;
        let bytes = String::from_utf8(bytes).ok()?;
        let line = format!(in alloc; "{key} {bytes}\n").ok()?;
        text.push_str(line.as_str()).ok()?;
    }
    Some(text)
}

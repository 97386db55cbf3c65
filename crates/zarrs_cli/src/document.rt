//! The document of a node.
ghost use Rattle.std.specs.Prelude.{IfOk, IfErr, string_bytes};
ghost use Rattle.zarrs_cli.specs.NodeDocuments.{IsShownDocument};
ghost use Rattle.zarrs_cli.specs.StepsOfRuns.{IsAnswerFault};

use crate::fault::ZarrsFault;
use crate::words::Word;
use std::alloc::Global;
use zarrs_config::MetadataRetrieveVersion;
use zarrs_form::document_text;
use zarrs_meta::WrittenDocument;
use zarrs_node::Node;
use zarrs_path::NodePath;
use zarrs_store::ReadableStorageTraits;

/// The document of the node at a path in the pretty layout, of version 2 with the attributes in it, and a line end. It may have any number, and is read as
/// the document again.
///
/// # Errors
/// `Node`, the refusals of [`Node::get_metadata`]. `TooDeep` where the document with its attributes nests deeper than any that is read. `OutOfMemory`.
///
/// Source: own; Zarr core specification 3.1, "Metadata documents".
pub(crate) fn document_shown<S: ReadableStorageTraits>(
    alloc: Global,
    store: &S,
    base: &NodePath,
) -> Result<String, ZarrsFault>
    ensures ok { IfOk result
        (λ text. IsShownDocument (S.contents store.now) base.now (string_bytes text)) }
    ensures err { IfErr result
        (IsAnswerFault (S.can_fail store.now) Word.Show (S.contents store.now) base.now) }
{
    let metadata = Node::get_metadata(alloc, store, base, &MetadataRetrieveVersion::Default)?;
    let value = metadata.to_value(alloc)?;
    let Some(bytes) = document_text(alloc, &value)? else {
        return Err(ZarrsFault::TooDeep);
    };
    let Ok(mut text) = String::from_utf8(bytes) else {
        return Err(ZarrsFault::TooDeep);
    };
    text.push('\n')?;
    Ok(text)
}

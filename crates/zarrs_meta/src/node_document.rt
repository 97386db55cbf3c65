//! The document of a node, as it is written.
ghost use Rattle.std.specs.Prelude.{◌≡◌, None, IfOk, IfSome};
ghost use Rattle.zarrs_meta.specs.NodeDocuments.{ReadsAs, IsNotWritten};

use crate::node::NodeMetadata;
use crate::written_document::WrittenDocument;
use std::alloc::{AllocError, Global};
use zarrs_form::document_text;

impl NodeMetadata {
    /// The bytes of the document of the metadata, in the pretty layout: they are read as these metadata again. None where the metadata
    /// could not have come from a document, or nest deeper than any document that is read.
    ///
    /// # Errors
    ///
    /// `AllocError` where there is no memory for it.
    ///
    /// Source: own; Zarr core specification 3.1, "Metadata documents".
    pub fn to_document(&self, alloc: Global) -> Result<Option<Vec<u8>>, AllocError>
        ensures reads { IfOk result
            (λ found. IfSome found (λ bytes. ReadsAs bytes.items self.now)) }
        ensures none { IfOk result (λ found. found ≡ None → IsNotWritten self.now) }
    {
        if !self.is_plain() {
            return Ok(None);
        }
        let value = self.to_value(alloc)?;
        let found = document_text(alloc, &value)?;
        Ok(found)
    }
}

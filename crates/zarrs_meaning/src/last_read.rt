//! The documents that were read last.
ghost use Rattle.std.specs.Prelude.{◌≡◌};
ghost use Rattle.zarrs_form.specs.Documents.{Gives, of_bytes};

use std::alloc::Global;
use std::marker::Model;
use zarrs_meta::{ArrayMetadataV2, AttributesDocument, Document, GroupMetadataV2, ZarrJson};
use zarrs_store::{MetadataFault, Numbers};

/// The last document that was read. Nodes side by side often have equal documents: once the same bytes have come twice in a row, what they are read as is kept, and
/// from the third time on it is copied and not read again.
#[derive(Drop)]
pub(crate) struct LastRead<D: Document> {
    numbers: Numbers,
    bytes: Vec<u8>,
    document: Option<D>,
}

impl<D: Document> Model for LastRead<D> {
    ghost use Rattle.std.specs.Prelude.{◌≡◌, Ok, IfSome};
    ghost use Rattle.zarrs_form.specs.Documents.{of_bytes};

    ghost Value = { Unit {0} };

    ghost view = { λ _. tt };

    ghost invariant = { λ a. IfSome a.document (λ d. of_bytes (D.meaning a.numbers) a.bytes.items ≡ Ok d) };
}

impl<D: Document + Drop> LastRead<D> {
    /// Nothing was read yet.
    pub(crate) fn new(alloc: Global) -> LastRead<D> {
        LastRead {
            numbers: Numbers::Whole,
            bytes: Vec::new(alloc),
            document: None,
        }
    }

    /// The document that the bytes are.
    pub(crate) fn read(
        &mut self,
        alloc: Global,
        numbers: Numbers,
        bytes: Vec<u8>,
    ) -> Result<D, MetadataFault>
        ensures { Gives (λ d. d) result (of_bytes (D.meaning numbers) bytes.items) }
    {
        if numbers != self.numbers || bytes.as_slice() != self.bytes.as_slice() {
            let document = D::from_bytes_in(alloc, numbers, &bytes)?;
            self.numbers = numbers;
            self.bytes = bytes;
            self.document = None;
            return Ok(document);
        }
        if let Some(document) = &self.document {
            return Ok(document.try_clone(alloc)?);
        }
        let document = D::from_bytes_in(alloc, numbers, &bytes)?;
        self.document = Some(document.try_clone(alloc)?);
        Ok(document)
    }
}

/// The last documents of each kind that were read, and a text in whose room the key of the next is made. A walk hands them from node to node.
///
/// Source: Zarr core specification 3.1, "Metadata documents".
/// <https://zarr-specs.readthedocs.io/en/latest/v3/core/index.html#metadata>
#[derive(Drop)]
pub struct LastDocuments {
    pub(crate) text: String,
    pub(crate) zarr_json: LastRead<ZarrJson>,
    pub(crate) zarray: LastRead<ArrayMetadataV2>,
    pub(crate) zgroup: LastRead<GroupMetadataV2>,
    pub(crate) zattrs: LastRead<AttributesDocument>,
}

impl LastDocuments {
    /// Nothing was read yet.
    pub fn new(alloc: Global) -> LastDocuments {
        LastDocuments {
            text: String::new(alloc),
            zarr_json: LastRead::new(alloc),
            zarray: LastRead::new(alloc),
            zgroup: LastRead::new(alloc),
            zattrs: LastRead::new(alloc),
        }
    }
}

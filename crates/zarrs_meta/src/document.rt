//! What the documents of a store have in common: how they are read.
ghost use Rattle.std.specs.Prelude.{◌≡◌, Result, Ok, IfOk};
ghost use Rattle.serde_json.specs.Data.{Data, object};
ghost use Rattle.serde_json.specs.View.{view, members_view};
ghost use Rattle.zarrs_form.specs.Documents.{AsksFirst, Gives, document_in, of_bytes};
ghost use Rattle.zarrs_fault.specs.declared.fault.MetadataFault.{MetadataFault};
ghost use Rattle.zarrs_fault.specs.declared.numbers.Numbers.{Numbers};
ghost use Rattle.zarrs_fault.specs.declared.numbers.Numbers.TheVariants.{Whole};

use serde_json::{Map, Value};
use std::alloc::{AllocError, Global};
use zarrs_fault::{MetadataFault, Numbers};
use zarrs_form::{document_copy_in, document_in, parse};

/// A kind of document that a store holds at a key. Each is read in one way: its bytes are JSON text, its value is an object whose
/// numbers are those that may stand there, and the rest its own table says.
///
/// <https://zarr-specs.readthedocs.io/en/latest/v3/core/index.html#metadata>
/// <https://zarr-specs.readthedocs.io/en/latest/v2/v2.0.html#metadata>
pub trait Document: Sized {
    /// What a JSON value means where the document may hold these numbers: the document, or the first fault.
    ghost meaning: { Numbers → Data → Result Self MetadataFault };

    /// The document that these members are, which have been asked whether their numbers are among these: none of them is asked again.
    ///
    /// # Errors
    ///
    /// As [`Document::from_value`], but neither `UnsupportedNumber` nor `NotAnObject`.
    ///
    /// Source: own; Zarr core specification 3.1, "Metadata documents"; specification version 2, "Metadata".
    fn from_members_in(
        alloc: Global,
        numbers: Numbers,
        members: Map<String, Value>,
    ) -> Result<Self, MetadataFault>
        requires { document_in numbers (object (members_view members.entries))
            ≡ Ok (members_view members.entries) }
        ensures { Gives (λ d. d) result
            (meaning numbers (object (members_view members.entries))) };

    /// A copy that equals its source.
    ///
    /// # Errors
    ///
    /// `AllocError` where there is no memory for the copy.
    fn try_clone(&self, alloc: Global) -> Result<Self, AllocError>
        ensures { IfOk result (λ copy. copy ≡ self.now) };

    /// What is no object of such numbers has that fault.
    ghost asks_first: { AsksFirst meaning };

    /// The document that these members are, which have been asked for their numbers: none of them is asked again.
    ///
    /// # Errors
    ///
    /// As [`Document::from_members_in`].
    ///
    /// Source: Zarr core specification 3.1, "Metadata documents"; specification version 2, "Metadata".
    final fn from_members(alloc: Global, members: Map<String, Value>) -> Result<Self, MetadataFault>
        requires { document_in Whole (object (members_view members.entries))
            ≡ Ok (members_view members.entries) }
        ensures { Gives (λ d. d) result (meaning Whole (object (members_view members.entries))) }
    {
        Self::from_members_in(alloc, Numbers::Whole, members)
    }

    /// The document that a JSON value is.
    ///
    /// # Errors
    ///
    /// The first that applies: `UnsupportedNumber` where some number is neither `u64` nor `i64`, `NotAnObject`, `WrongFormat` where
    /// `zarr_format` is not the document's, `WrongNodeType` where `node_type` is not, `MissingMember` or `BadMember` of the first member
    /// of the document's table that is absent or of another form. `OutOfMemory` where there is no memory.
    ///
    /// Source: Zarr core specification 3.1, "Metadata documents"; specification version 2, "Metadata".
    final fn from_value(alloc: Global, value: &Value) -> Result<Self, MetadataFault>
        ensures { Gives (λ d. d) result (meaning Whole (view value.now)) }
    {
        Self::from_value_in(alloc, Numbers::Whole, value)
    }

    /// The document that a JSON value is, where it may hold these numbers.
    ///
    /// # Errors
    ///
    /// As [`Document::from_value`], except that `UnsupportedNumber` comes only where the numbers are `Whole`. Where they are `Any`, a
    /// fraction in the place of a length, a text or a flag is the fault of that member.
    ///
    /// Source: own; Zarr core specification 3.1, "Metadata documents"; specification version 2, "Metadata".
    final fn from_value_in(
        alloc: Global,
        numbers: Numbers,
        value: &Value,
    ) -> Result<Self, MetadataFault>
        ensures { Gives (λ d. d) result (meaning numbers (view value.now)) }
    {
        Self::from_members_in(alloc, numbers, document_copy_in(numbers, value)?)
    }

    /// The document that a JSON value is, whose parts it takes over.
    ///
    /// # Errors
    ///
    /// As [`Document::from_value`].
    ///
    /// Source: Zarr core specification 3.1, "Metadata documents"; specification version 2, "Metadata".
    final fn from_owned_value(alloc: Global, value: Value) -> Result<Self, MetadataFault>
        ensures { Gives (λ d. d) result (meaning Whole (view value)) }
    {
        Self::from_owned_value_in(alloc, Numbers::Whole, value)
    }

    /// The document that a JSON value is, whose parts it takes over, where the value may hold these numbers.
    ///
    /// # Errors
    ///
    /// As [`Document::from_value_in`].
    ///
    /// Source: own; Zarr core specification 3.1, "Metadata documents"; specification version 2, "Metadata".
    final fn from_owned_value_in(
        alloc: Global,
        numbers: Numbers,
        value: Value,
    ) -> Result<Self, MetadataFault>
        ensures { Gives (λ d. d) result (meaning numbers (view value)) }
    {
        Self::from_members_in(alloc, numbers, document_in(numbers, value)?)
    }

    /// The document that the bytes are.
    ///
    /// # Errors
    ///
    /// `NotJson` where the bytes are no JSON text, else as [`Document::from_value`].
    ///
    /// Source: Zarr core specification 3.1, "Metadata documents"; specification version 2, "Metadata".
    final fn from_bytes(alloc: Global, bytes: &[u8]) -> Result<Self, MetadataFault>
        ensures { Gives (λ d. d) result (of_bytes (meaning Whole) bytes.now) }
    {
        Self::from_bytes_in(alloc, Numbers::Whole, bytes)
    }

    /// The document that the bytes are, where it may hold these numbers.
    ///
    /// # Errors
    ///
    /// `NotJson` where the bytes are no JSON text, else as [`Document::from_value_in`].
    ///
    /// Source: own; Zarr core specification 3.1, "Metadata documents"; specification version 2, "Metadata".
    final fn from_bytes_in(
        alloc: Global,
        numbers: Numbers,
        bytes: &[u8],
    ) -> Result<Self, MetadataFault>
        ensures { Gives (λ d. d) result (of_bytes (meaning numbers) bytes.now) }
    {
        Self::from_owned_value_in(alloc, numbers, parse(alloc, bytes)?)
    }
}

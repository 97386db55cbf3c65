//! How the chunks of a version 2 array are shaped, laid out and named.
ghost use Rattle.std.specs.Prelude.{◌≡◌, [], ◌∷◌, IfOk, true};
ghost use Rattle.serde_json.specs.Data.{object};
ghost use Rattle.serde_json.specs.View.{view, members_view};
ghost use Rattle.zarrs_form.specs.Documents as documents;
ghost use Rattle.zarrs_form.specs.Documents.{Gives, besides};
ghost use Rattle.zarrs_form.specs.FormsV2.{chunk_lengths, has_zero, order, order_data, separator, separator_data};

use crate::form::{Form, required};
use crate::layout::Layout;
use crate::shapes::List;
use crate::text::write_text;
use serde_json::{Map, Value};
use std::alloc::{AllocError, Global};
use zarrs_fault::{MemberName, MetadataFault};

/// The layout of the items within a chunk.
///
/// Zarr specification version 2, "Arrays", "Metadata", "order".
/// <https://zarr-specs.readthedocs.io/en/latest/v2/v2.0.html#metadata>
#[derive(Clone, Copy, Debug, PartialEq, Eq)]
pub enum ArrayMetadataV2Order {
    /// The last dimension varies fastest.
    C,
    /// The first dimension varies fastest.
    F,
}

/// What stands between the numbers of a chunk's key.
///
/// Zarr specification version 2, "Arrays", "Metadata", "dimension_separator".
/// <https://zarr-specs.readthedocs.io/en/latest/v2/v2.0.html#metadata>
/// <https://zarr-specs.readthedocs.io/en/latest/v3/core/index.html#chunk-key-encoding>
#[derive(Clone, Copy, Debug, PartialEq, Eq)]
pub enum ChunkKeySeparator {
    /// A period.
    Dot,
    /// A slash.
    Slash,
}

impl Form for ArrayMetadataV2Order {
    ghost form = { order };

    fn read(_alloc: Global, value: Value) -> Result<Option<ArrayMetadataV2Order>, AllocError> {
        match value.as_str() {
            Some(text) if text == "C" => Ok(Some(ArrayMetadataV2Order::C)),
            Some(text) if text == "F" => Ok(Some(ArrayMetadataV2Order::F)),
            _ => Ok(None),
        }
    }

    ghost written = { order_data };

    fn to_value(&self, alloc: Global) -> Result<Value, AllocError> {
        let text = match self {
            ArrayMetadataV2Order::C => "C",
            ArrayMetadataV2Order::F => "F",
        };
        Ok(Value::String(String::from_str(alloc, text)?))
    }

    ghost fits = { λ _. true };

    fn is_plain(&self) -> bool {
        true
    }

    fn write(&self, alloc: Global, out: &mut String, _layout: Layout) -> Result<(), AllocError> {
        match self {
            ArrayMetadataV2Order::C => write_text(alloc, out, "C"),
            ArrayMetadataV2Order::F => write_text(alloc, out, "F"),
        }
    }
}

/// Null stands for a period.
impl Form for ChunkKeySeparator {
    ghost form = { separator };

    fn read(_alloc: Global, value: Value) -> Result<Option<ChunkKeySeparator>, AllocError> {
        if let Value::Null = value {
            return Ok(Some(ChunkKeySeparator::Dot));
        }
        match value.as_str() {
            Some(text) if text == "." => Ok(Some(ChunkKeySeparator::Dot)),
            Some(text) if text == "/" => Ok(Some(ChunkKeySeparator::Slash)),
            _ => Ok(None),
        }
    }

    ghost written = { separator_data };

    fn to_value(&self, alloc: Global) -> Result<Value, AllocError> {
        let text = match self {
            ChunkKeySeparator::Dot => ".",
            ChunkKeySeparator::Slash => "/",
        };
        Ok(Value::String(String::from_str(alloc, text)?))
    }

    ghost fits = { λ _. true };

    fn is_plain(&self) -> bool {
        true
    }

    fn write(&self, alloc: Global, out: &mut String, _layout: Layout) -> Result<(), AllocError> {
        match self {
            ChunkKeySeparator::Dot => write_text(alloc, out, "."),
            ChunkKeySeparator::Slash => write_text(alloc, out, "/"),
        }
    }
}

/// Whether some length is 0.
///
/// Source: Zarr specification version 2, "Arrays", "Metadata", "chunks".
pub fn has_zero(lengths: &List<u64>) -> bool
    ensures { result ≡ has_zero lengths.now }
{
    lengths.as_slice().contains(&0)
}

/// Takes the member of that name: a list of numbers, none of them 0.
///
/// # Errors
///
/// `MissingMember` where there is no such member, `BadMember` where it is no list of `u64` or some number
/// is 0; the member is gone from the members in either case. `OutOfMemory` where there is no memory.
///
/// Source: Zarr specification version 2, "Arrays", "Metadata", "chunks".
pub fn chunk_lengths(
    alloc: Global,
    members: &mut Map<String, Value>,
    name: &'static str,
) -> Result<List<u64>, MetadataFault>
    ensures gives { Gives (λ x. x) result
        (documents.required_member name.now chunk_lengths
        (object (members_view members.old.entries))) }
    ensures left { members_view members.new.entries
        ≡ besides (name.now ∷ []) (members_view members.old.entries) }
{
    let lengths: List<u64> = required(alloc, members, name)?;
    if has_zero(&lengths) {
        return Err(MetadataFault::BadMember(MemberName::new(name)));
    }
    Ok(lengths)
}

//! The keys of chunks. Zarr core specification 3.1, "Chunk key encoding".
ghost use Rattle.std.specs.Prelude.{◌≡◌, ◌++◌, IfOk, option_copied, string_bytes};
ghost use Rattle.std.specs.Fmt.{decimal};
ghost use Rattle.std.specs.List.{flat_map};
ghost use Rattle.serde_json.specs.Data.{string};
ghost use Rattle.zarrs_store.specs.Segments.{key_text};
ghost use Rattle.zarrs_form.specs.FormsV2.{separator_data};
ghost use Rattle.zarrs_examples.specs.ChunkKeys.{chunk_segments, encoding_of, encoding_v3, separator_in};

use std::alloc::{AllocError, Global};
use zarrs_meta::{ArrayMetadata, ChunkKeySeparator, MetadataV3, Object};
use zarrs_store::{StoreKey, laws};

/// How the keys of an array's chunks are made, with what stands between the parts of a key.
///
/// Source: `zarrs::array::chunk_key_encoding`.
/// <https://zarr-specs.readthedocs.io/en/latest/v3/core/index.html#chunk-key-encoding>
#[derive(Clone, Copy, Debug, PartialEq, Eq)]
pub enum ChunkKeyEncoding {
    /// `c` and the indices.
    Default(ChunkKeySeparator),
    /// The indices, as version 2 has them.
    V2(ChunkKeySeparator),
}

impl ChunkKeyEncoding {
    /// The encoding that the metadata of an array say: those of version 3 by their `chunk_key_encoding`, where that is `default` or
    /// `v2` and its separator, if it says one, `.` or `/`; those of version 2 by their `dimension_separator`.
    ///
    /// Source: Zarr core specification 3.1, "Chunk key encoding"; Zarr version 2 specification, "Arrays".
    pub fn of(metadata: &ArrayMetadata) -> Option<ChunkKeyEncoding>
        ensures { result ≡ encoding_of metadata.now }
    {
        match metadata {
            ArrayMetadata::V3(array) => encoding_v3(&array.chunk_key_encoding),
            ArrayMetadata::V2(array) => Some(ChunkKeyEncoding::V2(array.dimension_separator)),
        }
    }

    /// The key of the chunk with these indices, of an array at the root: `c/1/23` or `c.1.23` by `default`, `1/23` or `1.23` by `v2`.
    /// A chunk with no index is `c` or `0`.
    ///
    /// # Errors
    ///
    /// `AllocError` when out of memory for the key.
    ///
    /// Source: Zarr core specification 3.1, "Chunk key encoding".
    pub fn chunk_key(&self, alloc: Global, indices: &[u64]) -> Result<StoreKey, AllocError>
        ensures { IfOk result (λ key. key ≡ chunk_segments self.now indices.now) }
    {
        laws::keys_read_back();
        Ok(StoreKey::new_unchecked(self.chunk_text(alloc, indices)?))
    }

    // The text of that key.
    fn chunk_text(&self, alloc: Global, indices: &[u64]) -> Result<String, AllocError>
        ensures { IfOk result
            (λ text. string_bytes text ≡ key_text (chunk_segments self.now indices.now)) }
    {
        match self {
            ChunkKeyEncoding::Default(separator) => {
                with_indices(String::from_str(alloc, "c")?, between(*separator), indices)
            }
            ChunkKeyEncoding::V2(separator) => match indices.split_first() {
                Some((first, rest)) => {
                    with_indices(format!(in alloc; "{first}")?, between(*separator), rest)
                }
                None => String::from_str(alloc, "0"),
            },
        }
    }
}

// What stands between two parts of a key.
fn between(separator: ChunkKeySeparator) -> &'static str
    ensures { string result.now ≡ separator_data separator }
{
    match separator {
        ChunkKeySeparator::Dot => ".",
        ChunkKeySeparator::Slash => "/",
    }
}

// The text with the indices behind it, and before each of them what stands between.
fn with_indices(mut text: String, between: &str, indices: &[u64]) -> Result<String, AllocError>
    ensures { IfOk result
        (λ made. string_bytes made ≡ string_bytes text
        ++ flat_map (λ index. between.now ++ decimal index) indices.now) }
{
    for index in indices {
        write!(text, "{between}{index}")?;
    }
    Ok(text)
}

// The encoding of version 3 by its name and its configuration.
fn encoding_v3(encoding: &MetadataV3) -> Option<ChunkKeyEncoding>
    ensures { result ≡ encoding_v3 encoding.now }
{
    let configuration = encoding.configuration.as_ref();
    match encoding.name.as_str() {
        "default" => {
            let separator = separator_in(configuration, ChunkKeySeparator::Slash)?;
            Some(ChunkKeyEncoding::Default(separator))
        }
        "v2" => {
            let separator = separator_in(configuration, ChunkKeySeparator::Dot)?;
            Some(ChunkKeyEncoding::V2(separator))
        }
        _ => None,
    }
}

// The separator that a configuration says, and this one where it says none.
fn separator_in(
    configuration: Option<&Object>,
    otherwise: ChunkKeySeparator,
) -> Option<ChunkKeySeparator>
    ensures { result ≡ separator_in otherwise (option_copied configuration.entry) }
{
    let Some(members) = configuration else {
        return Some(otherwise);
    };
    let Some(said) = members.get("separator") else {
        return Some(otherwise);
    };
    match said.as_str() {
        Some(text) if text == "." => Some(ChunkKeySeparator::Dot),
        Some(text) if text == "/" => Some(ChunkKeySeparator::Slash),
        _ => None,
    }
}

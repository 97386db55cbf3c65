//! An array of a store, opened by its path, and its chunks as bytes.
ghost use Rattle.std.specs.Prelude.{◌≡◌, Some, IfOk, IfErr, length, option_map};
ghost use Rattle.zarrs_path.specs.Paths.{IsPath, IsBelow, path_text};
ghost use Rattle.zarrs_meta.specs.declared.node.NodeMetadata.TheVariants.{Array};
ghost use Rattle.zarrs_convert.specs.Refusals.{AnswersAs};
ghost use Rattle.zarrs_meaning.specs.Meaning.{meaning, node};
ghost use Rattle.zarrs_examples.specs.ChunkKeys.{IsNoDocument, encoding_name};
ghost use Rattle.zarrs_examples.specs.OpenedArrays.{RefusesOpeningArray, RefusesChunk, RefusesChunkKey, chunk_in, chunk_key_of, data_type_of, shape_of};

use crate::chunk_key::ChunkKeyEncoding;
use std::alloc::{AllocError, Global};
use thiserror::Error;
use zarrs_config::MetadataRetrieveVersion;
use zarrs_convert::{ArrayMetadataV2ToV3Error, data_type_metadata_v2_to_v3};
use zarrs_meaning::NodeCreateError;
use zarrs_meta::{ArrayMetadata, MetadataV3, NodeMetadata};
use zarrs_node::Node;
use zarrs_path::{NodePath, NodePathError, data_key};
use zarrs_store::{ReadableStorageTraits, StorageError, StoreKey};

/// An array that was opened: where it stands, and its metadata of either version.
///
/// <https://zarr-specs.readthedocs.io/en/latest/v3/core/index.html#array-metadata>
#[derive(Debug, Drop)]
pub struct OpenedArray {
    /// The path of the array.
    pub path: NodePath,
    /// Its metadata.
    pub metadata: ArrayMetadata,
}

/// Why a path was not opened as an array.
///
/// <https://zarr-specs.readthedocs.io/en/latest/v3/core/index.html#hierarchy>
#[derive(Debug, Drop, Error)]
pub enum OpenArrayError {
    /// No node was opened.
    #[error("{0}")]
    Node(NodeCreateError),
    /// The node at the path is a group.
    #[error("no array but a group at {0}")]
    NotAnArray(NodePath),
}

/// Why there is no key of a chunk, or why no chunk was read.
///
/// <https://zarr-specs.readthedocs.io/en/latest/v3/core/index.html#chunk-key-encoding>
#[derive(Debug, Drop, Error)]
pub enum ChunkError {
    /// The encoding of chunk keys with this name is neither `default` nor `v2`, or its separator is neither `.` nor `/`.
    #[error("unsupported chunk key encoding {0}")]
    UnsupportedEncoding(String),
    /// The number of indices, and that of the dimensions, which is another.
    #[error("{0} indices of a chunk in {1} dimensions")]
    WrongIndices(usize, usize),
    /// The store refused.
    #[error("{0}")]
    Store(StorageError),
    /// Out of memory.
    #[error("out of memory")]
    OutOfMemory,
}

impl From<NodePathError> for OpenArrayError {
    ghost use Rattle.zarrs_meaning.specs.declared.node_create_error.NodeCreateError.TheVariants.{NodePathError};
    ghost use Rattle.zarrs_examples.specs.declared.opened_array.OpenArrayError.TheVariants.{Node};

    ghost from_gives = { λ error made. made ≡ Node (NodePathError error) };

    fn from(error: NodePathError) -> OpenArrayError {
        OpenArrayError::Node(NodeCreateError::NodePathError(error))
    }
}

impl From<NodeCreateError> for OpenArrayError {
    ghost use Rattle.zarrs_examples.specs.declared.opened_array.OpenArrayError.TheVariants.{Node};

    ghost from_gives = { λ error made. made ≡ Node error };

    fn from(error: NodeCreateError) -> OpenArrayError {
        OpenArrayError::Node(error)
    }
}

impl From<StorageError> for ChunkError {
    ghost use Rattle.zarrs_examples.specs.declared.opened_array.ChunkError.TheVariants.{Store};

    ghost from_gives = { λ error made. made ≡ Store error };

    fn from(error: StorageError) -> ChunkError {
        ChunkError::Store(error)
    }
}

impl From<AllocError> for ChunkError {
    ghost use Rattle.zarrs_examples.specs.declared.opened_array.ChunkError.TheVariants.{OutOfMemory};

    ghost from_gives = { λ _ made. made ≡ OutOfMemory };

    fn from(_error: AllocError) -> ChunkError {
        ChunkError::OutOfMemory
    }
}

impl OpenedArray {
    /// The array at a path, by the documents of a version.
    ///
    /// # Errors
    ///
    /// - `Node` with what `NodePath::new` and `Node::get_metadata` refuse: the text is no path, the path has no document, or a document
    ///   does not read; the store's fault, or out of memory.
    /// - `NotAnArray` with the path where it is a group's.
    ///
    /// Source: `zarrs::array::Array::open_opt`.
    pub fn open<S: ReadableStorageTraits>(
        alloc: Global,
        storage: &S,
        path: &str,
        version: &MetadataRetrieveVersion,
    ) -> Result<OpenedArray, OpenArrayError>
        ensures path { IfOk result (λ array. path_text array.path ≡ path.now) }
        ensures valid { IfOk result (λ array. IsPath array.path) }
        ensures means { IfOk result
            (λ array. meaning (S.contents storage.now) version.now array.path
            ≡ node (Array array.metadata)) }
        ensures refused { IfErr result
            (RefusesOpeningArray (S.can_fail storage.now) (S.contents storage.now) version.now
            path.now) }
    {
        let path = NodePath::new(alloc, path)?;
        match Node::get_metadata(alloc, storage, &path, version)? {
            NodeMetadata::Array(array) => Ok(OpenedArray {
                path,
                metadata: array.into_inner(),
            }),
            NodeMetadata::Group(_) => Err(OpenArrayError::NotAnArray(path)),
        }
    }

    /// The length of each dimension.
    ///
    /// Source: `zarrs::array::Array::shape`.
    pub fn shape(&self) -> &[u64]
        ensures { result.now ≡ shape_of self.now.metadata }
    {
        match &self.metadata {
            ArrayMetadata::V3(array) => array.shape.as_slice(),
            ArrayMetadata::V2(array) => array.shape.as_slice(),
        }
    }

    /// The data type of version 3; that of version 2 is converted.
    ///
    /// # Errors
    ///
    /// `UnsupportedDataType` where the data type of version 2 has no name in version 3. `OutOfMemory` when out of memory for the copy.
    ///
    /// Source: `zarrs::array::Array::data_type`.
    pub fn data_type(&self, alloc: Global) -> Result<MetadataV3, ArrayMetadataV2ToV3Error>
        ensures { AnswersAs (λ data_type. data_type) result (data_type_of self.now.metadata) }
    {
        match &self.metadata {
            ArrayMetadata::V3(array) => Ok(array.data_type.try_clone(alloc)?),
            ArrayMetadata::V2(array) => data_type_metadata_v2_to_v3(alloc, &array.dtype),
        }
    }

    /// The key of the chunk with these indices, one for each dimension. No chunk stands at the key of a document.
    ///
    /// # Errors
    ///
    /// - `WrongIndices` where there are more indices than dimensions, or fewer.
    /// - `UnsupportedEncoding` with the name of the encoding where it is neither `default` nor `v2`, or its separator neither `.` nor `/`.
    /// - `OutOfMemory` when out of memory for the key.
    ///
    /// Source: `zarrs::array::Array::chunk_key`.
    pub fn chunk_key(&self, alloc: Global, indices: &[u64]) -> Result<StoreKey, ChunkError>
        ensures key { IfOk result (λ key. chunk_key_of self.now indices.now ≡ Some key) }
        ensures indices { IfOk result
            (λ _. length indices.now ≡ length (shape_of self.now.metadata)) }
        ensures below { IfOk result (IsBelow self.now.path) }
        ensures no_document { IfOk result IsNoDocument }
        ensures refused { IfErr result (RefusesChunkKey self.now.metadata indices.now) }
    {
        let dimensions = self.shape().len();
        if indices.len() != dimensions {
            return Err(ChunkError::WrongIndices(indices.len(), dimensions));
        }
        let Some(encoding) = ChunkKeyEncoding::of(&self.metadata) else {
            let name = String::from_str(alloc, self.encoding_name())?;
            return Err(ChunkError::UnsupportedEncoding(name));
        };
        let chunk = encoding.chunk_key(alloc, indices)?;
        Ok(data_key(alloc, &self.path, &chunk)?)
    }

    // The name of the encoding of chunk keys.
    fn encoding_name(&self) -> &str
        ensures { result.now ≡ encoding_name self.now.metadata }
    {
        match &self.metadata {
            ArrayMetadata::V3(array) => array.chunk_key_encoding.name.as_str(),
            ArrayMetadata::V2(_) => "v2",
        }
    }

    /// The bytes of the chunk with these indices, as the store has them, or none where the chunk is not there.
    ///
    /// # Errors
    ///
    /// - The refusals of [`OpenedArray::chunk_key`].
    /// - `Store` with the fault of the store, or out of memory there.
    ///
    /// Source: `zarrs::array::Array::retrieve_encoded_chunk`.
    pub fn chunk<S: ReadableStorageTraits>(
        &self,
        alloc: Global,
        storage: &S,
        indices: &[u64],
    ) -> Result<Option<Vec<u8>>, ChunkError>
        ensures bytes { IfOk result
            (λ found. chunk_in (S.contents storage.now) self.now indices.now
            ≡ Some (option_map (λ bytes. bytes.items) found)) }
        ensures refused { IfErr result
            (RefusesChunk (S.can_fail storage.now) self.now.metadata indices.now) }
    {
        let key = self.chunk_key(alloc, indices)?;
        Ok(storage.get(alloc, &key)?)
    }
}

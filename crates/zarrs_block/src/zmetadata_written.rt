//! The version 2 document of a group's consolidated metadata, as it is written.
ghost use Rattle.std.specs.Prelude.{◌≡◌, IfOk, IfErr, OnOk, OnErr, All, IsTrue};
ghost use Rattle.serde_json.specs.View.{view, members_view};
ghost use Rattle.zarrs_meta.specs.declared.node.ArrayMetadata.TheVariants.{V2 as array_v2};
ghost use Rattle.zarrs_meta.specs.declared.node.GroupMetadata.TheVariants.{V2 as group_v2};
ghost use Rattle.zarrs_meta.specs.declared.node.NodeMetadata.TheVariants.{Group, Array};
ghost use Rattle.zarrs_block.specs.Block.{HasValidKeys};
ghost use Rattle.zarrs_block.specs.Zmetadata.{IsWrittenOf, zmetadata_tree, zmetadata_with, is_version_2, HasVersion2, RefusesZmetadata, attributes_written, node_written, nodes_written, put_documents};
ghost use Rattle.zarrs_block.specs.StepsOfZmetadata.{RefusesWritingNode, RefusesWritingNodes};

use crate::consolidated::ConsolidatedMetadata;
use crate::expand::pairs_of;
use serde_json::{Map, Value, put};
use std::alloc::{AllocError, Global};
use std::mem::replace;
use zarrs_meaning::NodeCreateError;
use zarrs_meta::{
    ArrayMetadata, ArrayMetadataV2, Document, GroupMetadata, GroupMetadataV2, NodeMetadata, Object,
    WrittenDocument,
};
use zarrs_path::{NodePath, meta_key_v2_array, meta_key_v2_attributes, meta_key_v2_group};

impl ConsolidatedMetadata {
    /// The document `.zmetadata` of a version 2 group and the nodes below it, which this block holds: for each node `.zarray` or
    /// `.zgroup` without attributes, and `.zattrs` where it has some, behind its names; of `foo` and `/foo` the one without the slash
    /// counts.
    ///
    /// # Errors
    ///
    /// - `NodePathError` where a key is not names joined by slashes, also behind one slash.
    /// - `MetadataVersionMismatch` where all keys are, and a node is of version 3.
    /// - `OutOfMemory` where there is no memory for the document.
    ///
    /// Source: zarr-python, consolidated metadata of version 2 groups.
    pub fn to_zmetadata(
        &self,
        alloc: Global,
        group: &GroupMetadataV2,
    ) -> Result<Value, NodeCreateError>
        ensures documents { IfOk result
            (λ value. IsWrittenOf group.now self.now.metadata (view value)) }
        ensures tree { IfOk result
            (λ value. view value ≡ zmetadata_tree group.now self.now.metadata) }
        ensures keys { IfOk result (λ _. HasValidKeys self.now.metadata) }
        ensures version { IfOk result (λ _. HasVersion2 self.now.metadata) }
        ensures err { IfErr result (RefusesZmetadata self.now.metadata) }
    {
        let block = self.try_clone(alloc)?;
        block.into_zmetadata(alloc, group.try_clone(alloc)?)
    }

    /// What [`ConsolidatedMetadata::to_zmetadata`] answers. The block and the group are given away for it, so that neither is copied.
    ///
    /// # Errors
    ///
    /// Those of [`ConsolidatedMetadata::to_zmetadata`].
    ///
    /// Source: zarr-python, consolidated metadata of version 2 groups.
    pub fn into_zmetadata(
        self,
        alloc: Global,
        group: GroupMetadataV2,
    ) -> Result<Value, NodeCreateError>
        ensures documents { IfOk result (λ value. IsWrittenOf group self.metadata (view value)) }
        ensures tree { IfOk result
            (λ value. view value ≡ zmetadata_tree group self.metadata) }
        ensures keys { IfOk result (λ _. HasValidKeys self.metadata) }
        ensures version { IfOk result (λ _. HasVersion2 self.metadata) }
        ensures err { IfErr result (RefusesZmetadata self.metadata) }
    {
        let root = NodePath::root(alloc)?;
        let (pairs, _ascend) = pairs_of(alloc, &root, self)?;
        let mut documents = documents_of(alloc, pairs)?;
        put_group(&mut documents, alloc, &root, group)?;
        Ok(with_format(alloc, documents)?)
    }
}

// The document of format 1 with these members.
fn with_format(alloc: Global, documents: Map<String, Value>) -> Result<Value, AllocError>
    ensures { IfOk result
        (λ value. view value ≡ zmetadata_with (members_view documents.entries)) }
{
    let mut all = Map::new(alloc);
    put(&mut all, alloc, "metadata", Value::Object(documents))?;
    put(
        &mut all,
        alloc,
        "zarr_consolidated_format",
        Value::from(1u64),
    )?;
    Ok(Value::Object(all))
}

// The documents of nodes, each behind the names of its path.
fn documents_of(
    alloc: Global,
    mut nodes: Vec<(NodePath, NodeMetadata)>,
) -> Result<Map<String, Value>, NodeCreateError>
    ensures ok { IfOk result
        (λ documents. members_view documents.entries ≡ nodes_written nodes.items) }
    ensures version { IfOk result (λ _. All (λ e. IsTrue (is_version_2 e.1)) nodes.items) }
    ensures err { IfErr result (RefusesWritingNodes nodes.items) }
{
    let mut documents = Map::new(alloc);
    while let Some((path, node)) = nodes.pop() {
        put_node(&mut documents, alloc, &path, node)?;
    }
    Ok(documents)
}

// Puts the documents of a node behind the names of its path.
fn put_node(
    documents: &mut Map<String, Value>,
    alloc: Global,
    path: &NodePath,
    node: NodeMetadata,
) -> Result<(), NodeCreateError>
    ensures ok { OnOk result
        (members_view documents.new.entries
        ≡ put_documents path.now (node_written node) (members_view documents.old.entries)) }
    ensures version { OnOk result (IsTrue (is_version_2 node)) }
    ensures err { IfErr result (RefusesWritingNode node) }
{
    match node {
        NodeMetadata::Group(GroupMetadata::V2(group)) => {
            put_group(documents, alloc, path, group)?;
        }
        NodeMetadata::Group(GroupMetadata::V3(_)) => {
            return Err(NodeCreateError::MetadataVersionMismatch);
        }
        NodeMetadata::Array(array) => match array.into_inner() {
            ArrayMetadata::V2(array) => put_array(documents, alloc, path, array)?,
            ArrayMetadata::V3(_) => return Err(NodeCreateError::MetadataVersionMismatch),
        },
    }
    Ok(())
}

// Puts the documents of a group behind the names of its path.
fn put_group(
    documents: &mut Map<String, Value>,
    alloc: Global,
    path: &NodePath,
    mut group: GroupMetadataV2,
) -> Result<(), AllocError>
    ensures { OnOk result
        (members_view documents.new.entries
        ≡ put_documents path.now (node_written (Group (group_v2 group)))
        (members_view documents.old.entries)) }
{
    let attributes = replace(&mut group.attributes, Object::new(alloc));
    put_attributes(documents, alloc, path, attributes)?;
    let key = meta_key_v2_group(alloc, path)?;
    put(documents, alloc, key.as_str(), group.to_value(alloc)?)
}

// Puts the documents of an array behind the names of its path.
fn put_array(
    documents: &mut Map<String, Value>,
    alloc: Global,
    path: &NodePath,
    mut array: ArrayMetadataV2,
) -> Result<(), AllocError>
    ensures { OnOk result
        (members_view documents.new.entries
        ≡ put_documents path.now (node_written (Array (array_v2 array)))
        (members_view documents.old.entries)) }
{
    let attributes = replace(&mut array.attributes, Object::new(alloc));
    put_attributes(documents, alloc, path, attributes)?;
    let key = meta_key_v2_array(alloc, path)?;
    put(documents, alloc, key.as_str(), array.to_value(alloc)?)
}

// Puts attributes behind the names of a path, where there are some.
fn put_attributes(
    documents: &mut Map<String, Value>,
    alloc: Global,
    path: &NodePath,
    attributes: Object,
) -> Result<(), AllocError>
    ensures { OnOk result
        (members_view documents.new.entries
        ≡ put_documents path.now (attributes_written attributes)
        (members_view documents.old.entries)) }
{
    if attributes.is_empty() {
        return Ok(());
    }
    let key = meta_key_v2_attributes(alloc, path)?;
    let value = Value::Object(attributes.into_map(alloc)?);
    put(documents, alloc, key.as_str(), value)
}

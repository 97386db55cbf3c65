//! What is wrong with the block of a group.
use zarrs_fault::MetadataFault;
use zarrs_form::Text;
use zarrs_path::NodePath;

/// What is wrong with the consolidated block of a group, and where.
///
/// Source: own.
/// <https://zarr.readthedocs.io/en/stable/user-guide/consolidated_metadata/>
#[derive(Debug, Drop)]
pub struct Finding {
    /// The path of the group.
    pub group: NodePath,
    /// The path of the entry or of the node that it is of; of a key, of the whole block or of its own attributes, that of the group.
    pub path: NodePath,
    /// What is wrong.
    pub kind: FindingKind,
}

/// What is wrong with a consolidated block.
///
/// Source: own.
/// <https://zarr.readthedocs.io/en/stable/user-guide/consolidated_metadata/>
#[derive(Debug, Drop)]
pub enum FindingKind {
    /// The field or the document of the block is there and does not read as one: its first fault.
    BlockFault(MetadataFault),
    /// A key that is no relative path.
    BadKey(Text),
    /// A key that begins with a slash, where the block has the key without it too, which is that of an entry: it does not count.
    Shadowed(Text),
    /// A key that is empty or one slash, and stands for the group itself.
    OwnKey(Text),
    /// The document of the block has other attributes of its group than the store.
    OwnAttributes,
    /// An entry, and some path between it and the group is no group of the block.
    Unreachable,
    /// An entry, and the store has no document of a node at its path.
    Stale,
    /// An entry, and the store has a document of a node at its path, to which no listing comes.
    Unreached,
    /// An entry, and the store has a node with other metadata at its path.
    Differs,
    /// A node of the store, and the block has no entry at its path.
    Missing,
}

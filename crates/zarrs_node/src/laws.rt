//! What holds of every forest and of its text. Each function does nothing, and its contract is the law.
ghost use Rattle.zarrs_node.specs.Laws.{OneForest, OneListing, PairsAscend, PlacedChildren, PreorderIsLines, ListingIsLines, OneText, ClosedPairs, ClosedNodes};
ghost use Rattle.zarrs_node.specs.Inverse.{BlockGivesBack, ListingGivesBack};
ghost use Rattle.zarrs_node.specs.Small.{ZmetadataShows};
ghost use Rattle.zarrs_node.specs.Changes.{FreshIsBlock, RefreshedIsBlock, RefreshedIsOpened};
ghost use Rattle.zarrs_node.specs.ListedBlocks.{OneListedBlock, FreshIsListed, ListedBlockStays};

/// Two placed forests with the same pairs are one.
///
/// Source: Zarr core specification 3.1, "Hierarchy".
#[tactic(auto, using(crate::proofs::Unique::one_forest))]
pub fn one_forest()
    ensures { OneForest }
{}

/// Two forests that show the nodes of one meaning below one base are one: of a store, of a small store or of a block's entries.
///
/// Source: Zarr core specification 3.1, "Hierarchy".
pub fn one_listing()
    ensures { OneListing }
{}

/// The pairs of a placed forest stand in the order of paths.
///
/// Source: Zarr core specification 3.1, "Hierarchy".
#[tactic(auto, using(crate::proofs::Order::pairs_ascend))]
pub fn pairs_ascend()
    ensures { PairsAscend }
{}

/// In a placed forest the path of each child is its parent's and one name.
///
/// Source: Zarr core specification 3.1, "Hierarchy".
#[tactic(auto, using(crate::proofs::LawProofs::placed_children))]
pub fn placed_children()
    ensures { PlacedChildren }
{}

/// The preorder of a placed forest is the lines of its pairs in the order of paths.
///
/// Source: `zarrs::node::Node::hierarchy_tree`.
#[tactic(auto, using(crate::proofs::LawProofs::preorder_is_lines))]
pub fn preorder_is_lines()
    ensures { PreorderIsLines }
{}

/// The preorder of a forest that shows the nodes of a meaning is their lines in the order of paths.
///
/// Source: `zarrs::node::Node::hierarchy_tree`.
#[tactic(auto, using(crate::proofs::LawProofs::listing_is_lines))]
pub fn listing_is_lines()
    ensures { ListingIsLines }
{}

/// Two lists with the same pairs below a base have one text of lines there.
///
/// Source: `zarrs::node::Node::hierarchy_tree`.
pub fn one_text()
    ensures { OneText }
{}

/// The pairs of a placed forest of paths are closed.
///
/// Source: Zarr core specification 3.1, "Hierarchy".
pub fn closed_pairs()
    ensures { ClosedPairs }
{}

/// The nodes of a meaning are closed.
///
/// Source: Zarr core specification 3.1, "Hierarchy".
pub fn closed_nodes()
    ensures { ClosedNodes }
{}

/// A block that holds exactly the pairs of a placed forest, each at its names beyond the base, gives that forest back.
///
/// Source: Zarr core specification 3.1, "Group metadata"; the block is that of zarr-python.
pub fn block_gives_back()
    ensures { BlockGivesBack }
{}

/// A block that holds exactly the nodes of a meaning, as a listing finds them in a store, gives back the forest that shows them.
///
/// Source: Zarr core specification 3.1, "Group metadata"; the block is that of zarr-python.
pub fn listing_gives_back()
    ensures { ListingGivesBack }
{}

/// The block that a document `.zmetadata` is shows what a listing would find in the small store that its member `metadata` is.
///
/// Source: zarr-python, consolidated metadata of version 2.
pub fn zmetadata_shows()
    ensures { ZmetadataShows }
{}

/// Where the documents of one path changed, the block of the store before, made current at that path, is the block of the store.
///
/// Source: own.
pub fn fresh_is_block()
    ensures { FreshIsBlock }
{}

/// The block of a first store, made current after each of any number of changes, is the block of the last store.
///
/// Source: own.
pub fn refreshed_is_block()
    ensures { RefreshedIsBlock }
{}

/// What `Node::open_opt` and `Node::consolidate_metadata` give of a first store, and `refresh_block` after each of any number of
/// changes, is what the first two give of the last store.
///
/// Source: own.
pub fn refreshed_is_opened()
    ensures { RefreshedIsOpened }
{}

/// A store has one listed block below a base: two calls of `consolidate_nodes_of` answer the same.
///
/// Source: own.
pub fn one_listed_block()
    ensures { OneListedBlock }
{}

/// Where the documents of one path changed, the listed block of the store before, made current at that path, is the listed block of the
/// store: `refresh_block` answers what `consolidate_nodes_of` would, and a listing comes upon nothing bad where nothing refused it.
///
/// Source: own.
pub fn fresh_is_listed()
    ensures { FreshIsListed }
{}

/// Where the documents of the base itself changed, the listed block below it stays.
///
/// Source: own.
pub fn listed_block_stays()
    ensures { ListedBlockStays }
{}

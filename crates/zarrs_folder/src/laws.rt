//! What holds of every loaded store. Each function does nothing, and its contract is the law.
ghost use Rattle.zarrs_folder.specs.Laws.{PrunedShowsNodes, PrunedShowsSame, BaseShowsSame};
ghost use Rattle.zarrs_folder.specs.Openings.{ShownListSame, ListedBlockIsSame, ShownOpenSame, LoadedOpensSame, BaseOpensSame, BlockOpensSame, OpenedAnswerSame};
ghost use Rattle.zarrs_folder.specs.PassedPaths.{PassedHoldSame};

/// A store shows the nodes that the store shows that it is pruned from, whichever documents were loaded: from the path on the same meanings, nodes,
/// paths that are passed over, bad documents and names, and refusals.
///
/// Source: own; Zarr core specification 3.1, "Hierarchy".
pub fn pruned_shows_nodes()
    ensures { PrunedShowsNodes }
{}

/// Where all documents were loaded, it shows the same: the documents of blocks beside the nodes too.
///
/// Source: own; Zarr core specification 3.1, "Hierarchy".
pub fn pruned_shows_same()
    ensures { PrunedShowsSame }
{}

/// A store with the base of another shows the same at the base: by each version the same meaning, and the same block below it. So where the
/// base has a block, nothing else is needed for what stands below it.
///
/// Source: own; Zarr core specification 3.1, "Group metadata".
pub fn base_shows_same()
    ensures { BaseShowsSame }
{}

/// Stores that show the same from a path on list the same below it, and have the same nodes from it on.
///
/// Source: own; Zarr core specification 3.1, "Hierarchy".
pub fn shown_list_same()
    ensures { ShownListSame }
{}

/// Stores that list the same below a path have the same block of what they list there.
///
/// Source: own; Zarr core specification 3.1, "Group metadata".
pub fn listed_block_is_same()
    ensures { ListedBlockIsSame }
{}

/// Stores that show the same from a path on open the same there, by any policy.
///
/// Source: own; Zarr core specification 3.1, "Hierarchy".
pub fn shown_open_same()
    ensures { ShownOpenSame }
{}

/// A store opens at the base as the store that it was loaded from, by any policy. So does an array there, below which nothing was loaded.
///
/// Source: own; Zarr core specification 3.1, "Hierarchy".
pub fn loaded_opens_same()
    ensures { LoadedOpensSame }
{}

/// A store with the base of another opens there as the other, where no group is opened by a listing.
///
/// Source: own; Zarr core specification 3.1, "Hierarchy".
pub fn base_opens_same()
    ensures { BaseOpensSame }
{}

/// A store with the base of another opens there as the other, where a block is used: nothing else is needed for what stands below.
///
/// Source: own; Zarr core specification 3.1, "Group metadata".
pub fn block_opens_same()
    ensures { BlockOpensSame }
{}

/// Stores that open the same at a path show the same there, and refuse for the same.
///
/// Source: own; Zarr core specification 3.1, "Hierarchy".
pub fn opened_answer_same()
    ensures { OpenedAnswerSame }
{}

/// A store that is pruned from another, and has the documents below each path at which a listing goes no further, has the same documents as the other
/// at each path that is below no array. What stands below an array is not needed for them.
///
/// Source: own; Zarr core specification 3.1, "Hierarchy".
pub fn passed_hold_same()
    ensures { PassedHoldSame }
{}

//! What holds of every survey and of every check. A function here is empty; its contract is the law.
ghost use Rattle.zarrs_check.specs.Laws.{NothingBadIsTold, RefusalsAreTold, ListingIsSurveyed, GroupsAreSurveyed, GoodBlocksAgree, GoodEntriesAreNodes, RefreshedBlocksAgree};
ghost use Rattle.zarrs_check.specs.Laws.{NothingIsAboveRoot, NothingIsLost};

/// A survey has no bad document and no bad name exactly where nothing below its base is bad.
pub fn nothing_bad_is_told()
    ensures { NothingBadIsTold }
{}

/// What refuses a listing below the base stands in the survey.
pub fn refusals_are_told()
    ensures { RefusalsAreTold }
{}

/// A listing below the base shows the nodes of the survey.
pub fn listing_is_surveyed()
    ensures { ListingIsSurveyed }
{}

/// The nodes below a group of the survey are those of the survey that are below it.
pub fn groups_are_surveyed()
    ensures { GroupsAreSurveyed }
{}

/// Where a survey has nothing bad, and its base has a block of which nothing is to be told, other attributes of the base itself apart, opening the
/// base by the block and by a listing is refused for nothing, and both show the same paths with the same metadata, nested blocks apart.
pub fn good_blocks_agree()
    ensures { GoodBlocksAgree }
{}

/// Under the same conditions the entries of the block, which a hierarchy opened by it has, have the paths of the nodes below the base with the same
/// metadata, nested blocks apart.
pub fn good_entries_are_nodes()
    ensures { GoodEntriesAreNodes }
{}

/// Under the same conditions, making the block current at any path below the base, as `refresh_block` of `zarrs_node` does, is refused for nothing, and
/// the block then has the same paths as before with the same metadata, nested blocks apart.
pub fn refreshed_blocks_agree()
    ensures { RefreshedBlocksAgree }
{}

/// Where a check has no orphans, and nothing is hidden below its bad documents, each path below its base that has a document of a node is found, unless
/// it is below an array: it is a node, or among the bad documents, or ignored since the version does not ask for its documents.
pub fn nothing_is_lost()
    ensures { NothingIsLost }
{}

/// No group is above the root, so no block above it says anything otherwise than the store.
pub fn nothing_is_above_root()
    ensures { NothingIsAboveRoot }
{}

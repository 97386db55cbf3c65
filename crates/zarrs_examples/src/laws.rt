//! What holds of stores of which one shows the nodes of the other under a map of metadata, as a converter makes them. A function with an empty
//! body does nothing, and its contract is the law.
ghost use Rattle.zarrs_examples.specs.MapsOfNodes.{BaseInFront, EarlierStandsBefore, MappedIsShown, WholeShowsTheSame, DocumentsAreShown, DefaultIsVersion2, KeysStandBeside, OthersAreKept, ErasedAreAbsent, BesideMeansSame, ErasedShowSame};

/// A node in front of the nodes below it, as they are listed, is a list of the nodes from it on, in the order of paths.
///
/// Source: own; Zarr core specification 3.1, "Hierarchy".
pub fn base_in_front()
    ensures { BaseInFront }
{}

/// In an ascending list a pair whose path is before that of another stands before it.
///
/// Source: own; Zarr core specification 3.1, "Path".
pub fn earlier_stands_before()
    ensures { EarlierStandsBefore }
{}

/// Where what the paths of a listing mean goes over by a map of metadata that keeps groups groups, and no key comes to stand behind a
/// name of periods below the base or a group, a store shows what the other shows, under that map.
///
/// Source: own; Zarr core specification 3.1, "Hierarchy".
pub fn mapped_is_shown()
    ensures { MappedIsShown }
{}

/// Where the numbers of a store are whole, and neither a path nor anything below it is bad, a store that holds the same shows the same,
/// whichever numbers its documents may hold: `AnyNumbers` changes no listing that is not refused.
///
/// Source: own; Zarr core specification 3.1, "Hierarchy".
pub fn whole_shows_the_same()
    ensures { WholeShowsTheSame }
{}

/// Where documents of version 3 are set beside those of version 2, of a node and of all below it, a listing by version 3, and one by
/// default, shows the same paths as one by default before, with the metadata as version 3.
///
/// Source: own; Zarr core specification 3.1, "Metadata".
pub fn documents_are_shown()
    ensures { DocumentsAreShown }
{}

/// Where a store has no document `zarr.json` at a path or at one that is reached from it, another that shows what it shows by default
/// shows what it shows by version 2.
///
/// Source: own; Zarr core specification 3.1, "Metadata".
pub fn default_is_version_2()
    ensures { DefaultIsVersion2 }
{}

/// The keys of the documents of version 2 at the paths of nodes of version 3 stand beside a document `zarr.json`.
///
/// Source: own; Zarr core specification 3.1, "Metadata".
pub fn keys_stand_beside()
    ensures { KeysStandBeside }
{}

/// A key that is not among those set has what it had, and so has one that is not among those erased.
///
/// Source: Zarr core specification 3.1, "Abstract store interface".
pub fn others_are_kept()
    ensures { OthersAreKept }
{}

/// Once the documents of version 2 at the paths of some pairs are erased, no such key is there.
///
/// Source: Zarr core specification 3.1, "Abstract store interface".
pub fn erased_are_absent()
    ensures { ErasedAreAbsent }
{}

/// Where a store differs from another only by documents of version 2 beside a `zarr.json`, each path means by default what it meant.
///
/// Source: own; Zarr core specification 3.1, "Metadata".
pub fn beside_means_same()
    ensures { BesideMeansSame }
{}

/// Where only documents of version 2 beside a `zarr.json` are erased, a listing by default shows what it showed.
///
/// Source: own; Zarr core specification 3.1, "Metadata".
pub fn erased_show_same()
    ensures { ErasedShowSame }
{}

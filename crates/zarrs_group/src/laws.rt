//! What holds of making, storing and erasing groups. A function here is empty, but for the one that makes the bytes of
//! which its law speaks; its contract is the law.
ghost use Rattle.std.specs.Prelude.{◌≡◌, None, IfErr, OnOk};
ghost use Rattle.zarrs_fault.specs.declared.numbers.Numbers.TheVariants.{Whole};
ghost use Rattle.zarrs_group.specs.StoredTexts.{StoredTextIsExact, StoredTextIsText};
ghost use Rattle.zarrs_group.specs.Laws.{Version3Keeps, Version3Stays, Version3Twice, PlainIsStored, PlainIsStoredIn, WholeEditsAreExact, WholeRefusalIsExact, ErasingAllErases, OtherKeysStay, ArraysStay, StoredMeans, StoredMeansIn};
ghost use Rattle.zarrs_group.specs.GivesBack.{GroupGivesBack, GroupV2GivesBack, StoredGivesBack, StoredGivesBackIn, StoredV2GivesBack};
ghost use Rattle.zarrs_group.specs.StoredBlocks.{FullBlockOpens, EditKeepsOthers, StoringKeepsOthers, MeansVersion3, ListedBlockOpens, WrittenBlockOpens};
ghost use Rattle.zarrs_group.specs.StoringGroups.{RefusesMetadata};

use crate::stored::edits_to_store;
use std::alloc::Global;
use zarrs_meta::GroupMetadata;
use zarrs_path::NodePath;
use zarrs_store::{Numbers, StorageError};

/// As version 3 a group keeps its path, its attributes, and the versions that it is stored and erased by.
#[tactic(auto, using(crate::proofs::Version3::keeps))]
pub fn version_3_keeps()
    ensures { Version3Keeps }
{}

/// A group of version 3 stays as it is.
#[tactic(auto, using(crate::proofs::Version3::stays))]
pub fn version_3_stays()
    ensures { Version3Stays }
{}

/// Twice as version 3 is once.
#[tactic(auto, using(crate::proofs::Version3::twice))]
pub fn version_3_twice()
    ensures { Version3Twice }
{}

/// Metadata are stored exactly where they could have come from documents, where numbers have to be whole.
#[tactic(auto, using(crate::proofs::PlainLaws::plain_is_stored))]
pub fn plain_is_stored()
    ensures { PlainIsStored }
{}

/// The same where documents may hold these numbers.
#[tactic(auto, using(crate::proofs::PlainLaws::plain_is_stored_in))]
pub fn plain_is_stored_in(numbers: Numbers)
    ensures { PlainIsStoredIn numbers }
{}

/// Of a tree without a fraction one text is stored: its pretty layout.
///
/// Source: RFC 8259, "Numbers".
pub fn stored_text_is_exact()
    ensures { StoredTextIsExact }
{}

/// What is stored of a tree that does not nest too deep is what [`zarrs_form::document_text`] writes of it.
///
/// Source: RFC 8259; `serde_json` reads 127 levels.
pub fn stored_text_is_text()
    ensures { StoredTextIsText }
{}

/// Where no number of a group is a fraction, the edits that store it are known byte by byte, whatever the numbers of the store.
///
/// Source: `zarrs::group::Group::store_metadata`.
pub fn whole_edits_are_exact()
    ensures { WholeEditsAreExact }
{}

/// Over a store of whole numbers, or of a group without a fraction, a refused storing did a first part of exactly these edits, and not all of them.
///
/// Source: `zarrs::group::Group::store_metadata`.
pub fn whole_refusal_is_exact()
    ensures { WholeRefusalIsExact }
{}

/// Erasing with All leaves none of the four keys of the group, and every other key as it was.
pub fn erasing_all_erases()
    ensures { ErasingAllErases }
{}

/// Storing and erasing leave every key but the four of the group as it was, and the numbers, also where they are refused.
pub fn other_keys_stay()
    ensures { OtherKeysStay }
{}

/// The key of `.zarray` is none of the four.
#[tactic(auto, using(crate::proofs::OtherKeys::arrays_stay))]
pub fn arrays_stay()
    ensures { ArraysStay }
{}

/// Where metadata that are plain in whole numbers are stored, at whatever path, with whatever block beside those of version 2 and over whatever
/// store, the path means the group.
///
/// # Errors
///
/// That of a refused storing, where the bytes of the documents were not made.
pub fn stored_means(
    alloc: Global,
    path: &NodePath,
    metadata: &GroupMetadata,
) -> Result<(), StorageError>
    ensures ok { OnOk result (StoredMeans metadata.now) }
    ensures err { IfErr result (RefusesMetadata Whole path.now metadata.now None) }
{
    let copy = metadata.try_clone(alloc)?;
    let edits = edits_to_store(alloc, Numbers::Whole, path, copy, &None)?;
    drop(edits);
    Ok(())
}

/// Where metadata that are plain in the numbers of the store are stored, the path means the group.
///
/// Source: `zarrs::group::Group::store_metadata`.
pub fn stored_means_in()
    ensures { StoredMeansIn }
{}

/// A version 3 group whose block was set to that of a listed forest gives the forest back: by `children`, recursive, and by `traverse`, whatever
/// store is handed in, under every policy but Never.
///
/// Source: `zarrs::group::Group::children`, `traverse`, `set_consolidated_metadata`; `zarrs::node::Node::consolidate_metadata`.
pub fn group_gives_back()
    ensures { GroupGivesBack }
{}

/// A version 2 group takes the block of a listed forest of version 2 nodes, and once it was set gives the forest back: by `children`,
/// recursive, and by `traverse`, whatever store is handed in, under every policy but Never.
///
/// Source: `zarrs::group::Group::children`, `traverse`, `set_consolidated_metadata`; zarr-python, consolidated metadata of version 2.
pub fn group_v2_gives_back()
    ensures { GroupV2GivesBack }
{}

/// As the group of version 3 does, so does a node opened at its path over any store that has the bytes of the stored group at its key, and the numbers of the store that it was
/// stored in, by default and as version 3, where the group's document does not nest too deep.
///
/// Source: `zarrs::node::Node::open_opt`, `zarrs::group::Group::store_metadata`.
pub fn stored_gives_back()
    ensures { StoredGivesBack }
{}

/// The same of a group whose block is plain in the numbers of the store that it was stored in.
///
/// Source: `zarrs::node::Node::open_opt`, `zarrs::group::Group::store_metadata`.
pub fn stored_gives_back_in()
    ensures { StoredGivesBackIn }
{}

/// As the group of version 2 does, so does a node opened at its path over any store that has the document `.zmetadata` of the stored group and
/// in whose numbers it is plain, by each version by which the path means the group there, where that document does not nest too deep; and a group
/// opened there holds a block with the same entries, and gives the forest back by `children`, recursive, and by `traverse`, whatever store is
/// handed in.
///
/// Source: `zarrs::node::Node::open_opt`, `zarrs::group::Group::store_metadata`; zarr-python, consolidated metadata of version 2.
pub fn stored_v2_gives_back()
    ensures { StoredV2GivesBack }
{}

/// An edit of a store leaves every other key as it was, and the numbers.
///
/// Source: Zarr core specification 3.1, "Abstract store interface".
pub fn edit_keeps_others()
    ensures { EditKeepsOthers }
{}

/// Storing a version 3 group leaves every key but that of its document as it was, and the numbers, also where it is refused.
///
/// Source: `zarrs::group::Group::store_metadata`.
pub fn storing_keeps_others()
    ensures { StoringKeepsOthers }
{}

/// What a path means as a group of version 3 is a group of version 3.
///
/// Source: Zarr core specification 3.1, "Group metadata".
pub fn means_version_3()
    ensures { MeansVersion3 }
{}

/// A version 3 group that is stored with the listed block of the store, and does not nest too deep, holds that block in the numbers of the store;
/// a node opened at its path by the block has below it what one opened by a listing has, by default and as version 3, and neither opening is
/// refused.
///
/// Source: `zarrs::node::Node::open_opt`, `zarrs::group::Group::store_metadata`.
pub fn listed_block_opens()
    ensures { ListedBlockOpens }
{}

/// Where a path means a group of either version, and the document of [`crate::Group::block_document`] with the listed block of the store was set
/// at its key, a node opened at its path by the block has below it what one opened by a listing has, by the same version, whatever numbers stand
/// in the documents, and neither opening is refused.
///
/// Source: `zarrs::node::Node::open_opt`; Zarr core specification 3.1, "Group metadata"; zarr-python, consolidated metadata of version 2.
pub fn written_block_opens()
    ensures { WrittenBlockOpens }
{}

/// The same where the document is that of [`crate::Group::into_block_document`], which holds the listed block in full.
///
/// Source: `zarrs::node::Node::open_opt`; Zarr core specification 3.0 and 3.1, "Extension definition"; zarr-python, consolidated metadata.
pub fn full_block_opens()
    ensures { FullBlockOpens }
{}

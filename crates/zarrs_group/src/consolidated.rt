//! The consolidated block of a group.
ghost use Rattle.std.specs.Prelude.{◌≡◌, [], ◌∷◌, codes, IfOk, IfErr, OnOk, OnErr};
ghost use Rattle.std.specs.Borrow.{sem};
ghost use Rattle.serde_json.specs.Data.{put};
ghost use Rattle.zarrs_form.specs.Documents.{besides};
ghost use Rattle.zarrs_fault.specs.declared.numbers.Numbers.{Numbers};
ghost use Rattle.zarrs_form.specs.Fields.{field_data};
ghost use Rattle.zarrs_meta.specs.declared.node.GroupMetadata.TheVariants.{V2};
ghost use Rattle.zarrs_block.specs.Block.{block_tree};
ghost use Rattle.zarrs_block.specs.Policy.{as_block};
ghost use Rattle.zarrs_group.specs.BlocksBeside.{IsBeside};
ghost use Rattle.zarrs_group.specs.BlocksOfGroups.{held_by_in, fields_with, metadata_with, with_block, Fits, RefusesBlock, CanHoldIn};
ghost use Rattle.zarrs_group.specs.Lending.{Rests};
ghost use Rattle.zarrs_group.specs.StepsOfLending.{RestsLent, group_lent};
ghost use Rattle.zarrs_fault.specs.declared.numbers.Numbers.TheVariants.{Whole};

use crate::group::Group;
use crate::group_value::field_of;
use std::alloc::{AllocError, Global};
use zarrs_block::{ConsolidatedMetadata, consolidated_metadata_of_in};
use zarrs_meaning::NodeCreateError;
use zarrs_meta::{AdditionalFieldV3, AdditionalFieldsV3, GroupMetadata, GroupMetadataV2};
use zarrs_store::Numbers;

impl Group {
    /// The consolidated block that the group holds: of version 3 the field `consolidated_metadata`, where it reads as one; of version 2 a copy
    /// of the block beside its metadata.
    ///
    /// It knows no store, so the field is read in whole numbers: one with a fraction is no block. [`Group::children`] and [`Group::traverse`]
    /// read it in the numbers of their store.
    ///
    /// # Errors
    ///
    /// `AllocError` where there is no memory for the block.
    ///
    /// Source: `zarrs::group::Group::consolidated_metadata`; zarr-python, consolidated metadata of version 2.
    pub fn consolidated_metadata(
        &self,
        alloc: Global,
    ) -> Result<Option<ConsolidatedMetadata>, AllocError>
        ensures { IfOk result (λ block. as_block block ≡ held_by_in Whole self.now) }
    {
        self.consolidated_metadata_in(alloc, Numbers::Whole)
    }

    /// The consolidated block that the group holds, as [`Group::consolidated_metadata`] says, where the field of a version 3 group is read in
    /// these numbers: that of [`Group::children`] over a store with them. The block of a version 2 group was read in those of its store.
    ///
    /// # Errors
    ///
    /// `AllocError` where there is no memory for the block.
    ///
    /// Source: own; RFC 8259, "Numbers".
    /// <https://www.rfc-editor.org/rfc/rfc8259#section-6>
    pub fn consolidated_metadata_in(
        &self,
        alloc: Global,
        numbers: Numbers,
    ) -> Result<Option<ConsolidatedMetadata>, AllocError>
        ensures { IfOk result (λ block. as_block block ≡ held_by_in numbers self.now) }
    {
        match &self.metadata {
            GroupMetadata::V3(_) => consolidated_metadata_of_in(alloc, numbers, &self.metadata),
            GroupMetadata::V2(_) => copy_of(alloc, &self.block),
        }
    }

    /// Sets the consolidated block: of a version 3 group its field `consolidated_metadata`, which need not be understood; of a version 2 group
    /// the block beside its metadata, which is stored as `.zmetadata`. Or removes it.
    ///
    /// # Errors
    ///
    /// Of a version 2 group, which a block has to fit, the first that applies:
    ///
    /// - `NodePathError` where a key of the block is not names joined by slashes, also behind one slash.
    /// - `MetadataVersionMismatch` where an entry of the block is of version 3.
    ///
    /// Of either, `OutOfMemory` when out of memory. After an error nothing is changed.
    ///
    /// Source: `zarrs::group::Group::set_consolidated_metadata`; zarr-python, consolidated metadata of version 2.
    pub fn set_consolidated_metadata(
        &mut self,
        alloc: Global,
        consolidated_metadata: Option<ConsolidatedMetadata>,
    ) -> Result<&mut Group, NodeCreateError>
        ensures* rests { sem 𝓛 (Rests self.entry result) }
        ensures same { IfOk result (λ group. group.ghost_name ≡ self.entry.ghost_name) }
        ensures ok { IfOk result
            (λ group. group.now ≡ with_block self.old (as_block consolidated_metadata)) }
        ensures held { IfOk result
            (λ group. (numbers : Numbers)
            → CanHoldIn numbers self.old (as_block consolidated_metadata)
            → held_by_in numbers group.now ≡ as_block consolidated_metadata) }
        ensures fits { IfOk result (λ _. Fits self.old.metadata (as_block consolidated_metadata)) }
        ensures err { IfErr result
            (RefusesBlock self.old.metadata (as_block consolidated_metadata)) }
    {
        into_group(self.set_lent(alloc, consolidated_metadata))
    }

    // Sets or removes the block, and lends the group on in a struct, where the prover shows by itself what a refusal leaves.
    fn set_lent(
        &mut self,
        alloc: Global,
        block: Option<ConsolidatedMetadata>,
    ) -> Result<LentGroup<'_>, NodeCreateError>
        ensures* rests { sem 𝓛 (RestsLent self.entry result) }
        ensures same { IfOk result (λ lent. lent.group.ghost_name ≡ self.entry.ghost_name) }
        ensures ok { IfOk result (λ lent. lent.group.now ≡ with_block self.old (as_block block)) }
        ensures fits { IfOk result (λ _. Fits self.old.metadata (as_block block)) }
        ensures err { IfErr result (RefusesBlock self.old.metadata (as_block block)) }
    {
        self.replace_consolidated_metadata(alloc, block)?;
        Ok(LentGroup { group: self })
    }

    /// Sets or removes the consolidated block, as [`Group::set_consolidated_metadata`] does by this call. It lends nothing, so the proof of a
    /// caller that goes on after a refusal finds by itself that nothing is changed.
    ///
    /// # Errors
    ///
    /// Those of [`Group::set_consolidated_metadata`]. Then nothing is changed.
    pub fn replace_consolidated_metadata(
        &mut self,
        alloc: Global,
        block: Option<ConsolidatedMetadata>,
    ) -> Result<(), NodeCreateError>
        ensures ok { OnOk result (self.new ≡ with_block self.old (as_block block)) }
        ensures fits { OnOk result (Fits self.old.metadata (as_block block)) }
        ensures unchanged { OnErr result (self.new ≡ self.old) }
        ensures err { IfErr result (RefusesBlock self.old.metadata (as_block block)) }
    {
        match &mut self.metadata {
            GroupMetadata::V3(group) => Ok(set_block(&mut group.additional_fields, alloc, block)?),
            GroupMetadata::V2(group) => {
                self.block = fitting(alloc, group, block)?;
                Ok(())
            }
        }
    }
}

// A group that is lent on, in a struct.
#[derive(Drop)]
struct LentGroup<'a> {
    group: &'a mut Group,
}

// The group that is lent in the struct, or the refusal.
fn into_group(lent: Result<LentGroup<'_>, NodeCreateError>) -> Result<&mut Group, NodeCreateError>
    ensures { result ≡ group_lent lent.entry }
{
    match lent {
        Ok(lent) => {
            let LentGroup { group } = lent;
            Ok(group)
        }
        Err(error) => Err(error),
    }
}

/// A copy of a block, where there is one.
pub(crate) fn copy_of(
    alloc: Global,
    block: &Option<ConsolidatedMetadata>,
) -> Result<Option<ConsolidatedMetadata>, AllocError>
    ensures { IfOk result (λ copy. copy ≡ block.now) }
{
    match block {
        Some(block) => Ok(Some(block.try_clone(alloc)?)),
        None => Ok(None),
    }
}

// The block itself, where it can stand beside the metadata of a version 2 group: what is written of it is made, and let go.
fn fitting(
    alloc: Global,
    group: &GroupMetadataV2,
    block: Option<ConsolidatedMetadata>,
) -> Result<Option<ConsolidatedMetadata>, NodeCreateError>
    ensures ok { IfOk result (λ same. same ≡ block) }
    ensures fits { IfOk result (λ _. IsBeside (as_block block)) }
    ensures err { IfErr result (RefusesBlock (V2 group.now) (as_block block)) }
{
    match block {
        Some(block) => {
            drop(block.to_zmetadata(alloc, group)?);
            Ok(Some(block))
        }
        None => Ok(None),
    }
}

// Sets the block among the fields, or removes it.
fn set_block(
    fields: &mut AdditionalFieldsV3,
    alloc: Global,
    block: Option<ConsolidatedMetadata>,
) -> Result<(), AllocError>
    ensures ok { OnOk result (fields.new ≡ fields_with (as_block block) fields.old) }
    ensures unchanged { OnErr result (fields.new ≡ fields.old) }
{
    match block {
        Some(block) => {
            let field = field_of(alloc, block)?;
            put_block(fields, alloc, field)
        }
        None => {
            remove_block(fields);
            Ok(())
        }
    }
}

/// Puts the field `consolidated_metadata` among the fields, in the place of the one that was there.
pub(crate) fn put_block(
    fields: &mut AdditionalFieldsV3,
    alloc: Global,
    field: AdditionalFieldV3,
) -> Result<(), AllocError>
    ensures ok { OnOk result (fields.new ≡ put (codes "consolidated_metadata") field fields.old) }
    ensures unchanged { OnErr result (fields.new ≡ fields.old) }
{
    let name = String::from_str(alloc, "consolidated_metadata")?;
    drop(fields.insert(name, field)?);
    Ok(())
}

/// Removes the field `consolidated_metadata`.
pub(crate) fn remove_block(fields: &mut AdditionalFieldsV3)
    ensures { fields.new ≡ besides (codes "consolidated_metadata" ∷ []) fields.old }
{
    drop(fields.remove("consolidated_metadata"));
}

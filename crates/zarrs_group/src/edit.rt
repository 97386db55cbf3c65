//! Changes of a store, made ready before the first is done.
ghost use Rattle.std.specs.Prelude.{◌≡◌, map, OnOk, OnErr, IfErr};
ghost use Rattle.zarrs_store.specs.Faults.{IsStoreError};
ghost use Rattle.zarrs_group.specs.Edits.{AgreesOutsideKey, after, after_edit, edit_key, IsCutShort};
ghost use Rattle.zarrs_group.specs.StepsOfGroups.{edit_of};

use zarrs_store::{StorageError, StoreKey, WritableStorageTraits};

/// One change of a store.
#[derive(Drop)]
pub(crate) enum Edit {
    /// The key is set to these bytes.
    Set(StoreKey, Vec<u8>),
    /// The key is erased.
    Erase(StoreKey),
}

impl Edit {
    /// Does the edit. A refused one leaves every other key as it was.
    pub(crate) fn apply<S: WritableStorageTraits>(
        &self,
        storage: &mut S,
    ) -> Result<(), StorageError>
        ensures ok { OnOk result
            (S.contents storage.new ≡ after_edit (S.contents storage.old) (edit_of self.now)) }
        ensures err { IfErr result (IsStoreError (S.can_fail storage.old)) }
        ensures others { OnErr result
            (AgreesOutsideKey (edit_key (edit_of self.now)) (S.contents storage.old)
            (S.contents storage.new)) }
        ensures nature { S.can_fail storage.new ≡ S.can_fail storage.old }
    {
        match self {
            Edit::Set(key, value) => storage.set(key, value.as_slice()),
            Edit::Erase(key) => storage.erase(key),
        }
    }
}

/// Does the edits in turn, up to the first that the store refuses.
pub(crate) fn apply_all<S: WritableStorageTraits>(
    storage: &mut S,
    edits: &[Edit],
) -> Result<(), StorageError>
    ensures ok { OnOk result
        (S.contents storage.new ≡ after (S.contents storage.old) (map edit_of edits.now)) }
    ensures err { IfErr result (IsStoreError (S.can_fail storage.old)) }
    ensures cut { OnErr result
        (IsCutShort (S.contents storage.old) (map edit_of edits.now) (S.contents storage.new)) }
    ensures nature { S.can_fail storage.new ≡ S.can_fail storage.old }
{
    for edit in edits {
        edit.apply(storage)?;
    }
    Ok(())
}

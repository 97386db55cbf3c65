//! What a loader asks of a folder.
ghost use Rattle.std.specs.Prelude.{◌≡◌, Bool, IfOk, IfErr, IfSome, option_map, Contains};
ghost use Rattle.std.specs.FinMap as map;
ghost use Rattle.zarrs_store.specs.Segments.{Segments};
ghost use Rattle.zarrs_store.specs.Contents.{Values, IsChildPrefix, IsKeyBelow};
ghost use Rattle.zarrs_folder.specs.Folders.{NoneIsBelow, IsFaultOfFolder};

use crate::fault::FolderFault;
use std::alloc::Global;
use zarrs_store::{StoreKey, StorePrefix};

/// The files below a folder: the key of each is the names that lead to it. What a file holds is not known before it is read, and nothing
/// promises that it stays. So each call promises its answer of every store with which all answers so far agree.
///
/// Source: Zarr core specification 3.1, "Storage keys".
/// <https://zarr-specs.readthedocs.io/en/latest/v3/core/index.html#storage-keys>
pub trait Folder {
    // all answers so far are those of a folder that holds these files
    ghost agrees: { Self → Values → Type 0 };

    // whether a call may answer another fault than `OutOfMemory`
    ghost can_fail: { Self → Bool };

    /// The bytes of the file with the key, or nothing where there is none.
    ///
    /// # Errors
    /// `Unread`, of a folder that can fail, where the file is not read. `OutOfMemory`.
    fn document(&mut self, alloc: Global, key: &StoreKey) -> Result<Option<Vec<u8>>, FolderFault>
        ensures before { (V : Values) → Self.agrees self.new V → Self.agrees self.old V }
        ensures ok { IfOk result (λ found. (V : Values) → Self.agrees self.new V
            → option_map (λ v. v.items) found ≡ map.get V key.now) }
        ensures err { IfErr result (IsFaultOfFolder (Self.can_fail self.new)) };

    /// Prefixes, among them the prefix and one segment more wherever some file has another segment behind that.
    ///
    /// # Errors
    /// `Unread`, of a folder that can fail, where the folder is not read. `OutOfMemory`.
    fn children(
        &mut self,
        alloc: Global,
        prefix: &StorePrefix,
    ) -> Result<Vec<StorePrefix>, FolderFault>
        ensures before { (V : Values) → Self.agrees self.new V → Self.agrees self.old V }
        ensures complete { IfOk result (λ children. (V : Values) → Self.agrees self.new V
            → (child : Segments) → IsChildPrefix V prefix.now child
            → Contains children.items child) }
        ensures err { IfErr result (IsFaultOfFolder (Self.can_fail self.new)) };

    /// The key of some file below the prefix, or nothing where there is none. No file is read.
    ///
    /// # Errors
    /// `Unread`, of a folder that can fail, where a folder is not read. `OutOfMemory`.
    fn any_below(
        &mut self,
        alloc: Global,
        prefix: &StorePrefix,
    ) -> Result<Option<StoreKey>, FolderFault>
        ensures before { (V : Values) → Self.agrees self.new V → Self.agrees self.old V }
        ensures some { IfOk result (λ found. IfSome found
            (λ key. (V : Values) → Self.agrees self.new V → IsKeyBelow V prefix.now key)) }
        ensures none { IfOk result (λ found. (V : Values) → Self.agrees self.new V
            → NoneIsBelow V prefix.now found) }
        ensures err { IfErr result (IsFaultOfFolder (Self.can_fail self.new)) };
}

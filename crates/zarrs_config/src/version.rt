//! The choices between versions of metadata, and of the use of a consolidated block.

/// Which version of metadata is written.
///
/// Source: `zarrs::config::MetadataConvertVersion`.
/// <https://docs.rs/zarrs/0.23.13/zarrs/config/enum.MetadataConvertVersion.html>
#[derive(Clone, Copy, PartialEq, Eq, Debug)]
pub enum MetadataConvertVersion {
    /// The version that the metadata have.
    Default,
    /// Version 3: older metadata are converted.
    V3,
}

/// Which metadata are erased.
///
/// Source: `zarrs::config::MetadataEraseVersion`.
/// <https://docs.rs/zarrs/0.23.13/zarrs/config/enum.MetadataEraseVersion.html>
#[derive(Clone, Copy, PartialEq, Eq, Debug)]
pub enum MetadataEraseVersion {
    /// Those of the version that is held.
    Default,
    /// Those of every version.
    All,
    /// Those of version 3.
    V3,
    /// Those of version 2.
    V2,
}

/// Which metadata are looked for.
///
/// Source: `zarrs::config::MetadataRetrieveVersion`.
/// <https://docs.rs/zarrs/0.23.13/zarrs/config/enum.MetadataRetrieveVersion.html>
#[derive(Clone, Copy, PartialEq, Eq, Debug)]
pub enum MetadataRetrieveVersion {
    /// Version 3, and where there is none version 2.
    Default,
    /// Version 3 alone.
    V3,
    /// Version 2 alone.
    V2,
}

/// Whether a consolidated block of metadata stands in place of a listing of the store.
///
/// Source: `zarrs::config::UseConsolidatedMetadata`.
/// <https://docs.rs/zarrs/0.23.13/zarrs/config/enum.UseConsolidatedMetadata.html>
#[derive(Clone, Copy, PartialEq, Eq, Debug)]
pub enum UseConsolidatedMetadata {
    /// It is used where there is one.
    Auto,
    /// There must be one, and it is used; without one the call is refused.
    Must,
    /// It is not looked at.
    Never,
}

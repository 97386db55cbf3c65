//! How the metadata of a group are written.
ghost use Rattle.std.specs.Prelude.{◌≡◌};

use crate::version::MetadataConvertVersion;
use std::marker::Model;

/// How the metadata of a group are written: the version that they are converted to.
///
/// Source: `zarrs::group::GroupMetadataOptions`.
/// <https://docs.rs/zarrs/0.23.13/zarrs/group/struct.GroupMetadataOptions.html>
#[derive(Clone, Copy, Debug)]
pub struct GroupMetadataOptions {
    convert_version: MetadataConvertVersion,
}

// Contracts see the version.
impl Model for GroupMetadataOptions {
    ghost use Rattle.zarrs_config.specs.declared.version.MetadataConvertVersion.{MetadataConvertVersion};

    ghost Value = { MetadataConvertVersion };

    ghost view = { λ options. options.convert_version };

    ghost inverse = { λ version. record { convert_version = version } };
}

impl Default for GroupMetadataOptions {
    fn default() -> GroupMetadataOptions
        ensures { result ≡ MetadataConvertVersion.Default }
    {
        GroupMetadataOptions {
            convert_version: MetadataConvertVersion::Default,
        }
    }
}

impl GroupMetadataOptions {
    /// The version that metadata are converted to.
    ///
    /// Source: `zarrs::group::GroupMetadataOptions::metadata_convert_version`.
    pub fn metadata_convert_version(&self) -> MetadataConvertVersion
        ensures { result ≡ self.now }
    {
        self.convert_version
    }

    /// The options with this version in place of the other.
    ///
    /// Source: `zarrs::group::GroupMetadataOptions::with_metadata_convert_version`.
    pub fn with_metadata_convert_version(
        self,
        convert_version: MetadataConvertVersion,
    ) -> GroupMetadataOptions
        ensures { result ≡ convert_version }
    {
        let mut options = self;
        options.convert_version = convert_version;
        options
    }

    /// Puts this version in place of the other.
    ///
    /// Source: `zarrs::group::GroupMetadataOptions::set_metadata_convert_version`.
    pub fn set_metadata_convert_version(
        &mut self,
        convert_version: MetadataConvertVersion,
    ) -> &mut GroupMetadataOptions
        ensures same { result.ghost_name ≡ self.entry.ghost_name }
        ensures value { result.now ≡ convert_version }
    {
        self.convert_version = convert_version;
        self
    }
}

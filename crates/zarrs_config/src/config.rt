//! A configuration: the settings that calls take.
ghost use Rattle.std.specs.Prelude.{◌≡◌};
ghost use Rattle.zarrs_config.specs.Settings.{default_settings};

use crate::group_metadata_options::GroupMetadataOptions;
use crate::version::{MetadataConvertVersion, MetadataEraseVersion, UseConsolidatedMetadata};
use std::marker::Model;

/// The settings that a call goes by.
///
/// Source: `zarrs::config::Config`.
/// <https://docs.rs/zarrs/0.23.13/zarrs/config/struct.Config.html>
#[derive(Clone, Copy, Debug)]
pub struct Config {
    group_metadata_options: GroupMetadataOptions,
    metadata_erase_version: MetadataEraseVersion,
    use_consolidated_metadata: UseConsolidatedMetadata,
}

// Contracts see the record of the settings.
impl Model for Config {
    ghost use Rattle.zarrs_config.specs.Settings.{Settings};

    ghost Value = { Settings };

    ghost view = { λ config. record {
      convert_version = config.group_metadata_options;
      erase_version = config.metadata_erase_version;
      use_consolidated = config.use_consolidated_metadata;
    } };

    ghost inverse = { λ settings. record {
      group_metadata_options = settings.convert_version;
      metadata_erase_version = settings.erase_version;
      use_consolidated_metadata = settings.use_consolidated;
    } };
}

impl Default for Config {
    fn default() -> Config
        ensures { result ≡ default_settings }
    {
        Config::new()
    }
}

impl Config {
    /// The configuration that writes and erases the version that is held, and uses a block where there is one.
    ///
    /// Source: `zarrs::config::Config`, its default.
    pub fn new() -> Config
        ensures { result ≡ default_settings }
    {
        Config {
            group_metadata_options: GroupMetadataOptions::default(),
            metadata_erase_version: MetadataEraseVersion::Default,
            use_consolidated_metadata: UseConsolidatedMetadata::Auto,
        }
    }

    /// How the metadata of a group are written.
    ///
    /// Source: `zarrs::config::Config::metadata_convert_version`.
    pub fn group_metadata_options(&self) -> GroupMetadataOptions
        ensures { result ≡ self.now.convert_version }
    {
        self.group_metadata_options
    }

    /// Which metadata are erased.
    ///
    /// Source: `zarrs::config::Config::metadata_erase_version`.
    pub fn metadata_erase_version(&self) -> MetadataEraseVersion
        ensures { result ≡ self.now.erase_version }
    {
        self.metadata_erase_version
    }

    /// Whether a consolidated block stands in place of a listing.
    ///
    /// Source: `zarrs::config::Config::use_consolidated_metadata`.
    pub fn use_consolidated_metadata(&self) -> UseConsolidatedMetadata
        ensures { result ≡ self.now.use_consolidated }
    {
        self.use_consolidated_metadata
    }

    /// Sets which version is written. The other settings stay.
    ///
    /// Source: `zarrs::config::Config::set_metadata_convert_version`.
    pub fn set_metadata_convert_version(&mut self, version: MetadataConvertVersion) -> &mut Config
        ensures same { result.ghost_name ≡ self.entry.ghost_name }
        ensures value { result.now ≡ record self.old { convert_version = version } }
    {
        self.group_metadata_options
            .set_metadata_convert_version(version);
        self
    }

    /// Sets which metadata are erased. The other settings stay.
    ///
    /// Source: `zarrs::config::Config::set_metadata_erase_version`.
    pub fn set_metadata_erase_version(&mut self, version: MetadataEraseVersion) -> &mut Config
        ensures same { result.ghost_name ≡ self.entry.ghost_name }
        ensures value { result.now ≡ record self.old { erase_version = version } }
    {
        self.metadata_erase_version = version;
        self
    }

    /// Sets whether a consolidated block stands in place of a listing. The other settings stay.
    ///
    /// Source: `zarrs::config::Config::set_use_consolidated_metadata`.
    pub fn set_use_consolidated_metadata(&mut self, choice: UseConsolidatedMetadata) -> &mut Config
        ensures same { result.ghost_name ≡ self.entry.ghost_name }
        ensures value { result.now ≡ record self.old { use_consolidated = choice } }
    {
        self.use_consolidated_metadata = choice;
        self
    }
}

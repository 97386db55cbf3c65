//! Settings. Each configuration and each value of options is read from a word, and answers its settings by their names.
use std::alloc::{AllocError, Global};
use std::test::Fail;
use tests_support::check_rows;
use zarrs_config::{
    Config, GroupMetadataOptions, MetadataConvertVersion, MetadataEraseVersion,
    UseConsolidatedMetadata,
};

fn convert_word(version: MetadataConvertVersion) -> &'static str {
    match version {
        MetadataConvertVersion::Default => "Default",
        MetadataConvertVersion::V3 => "V3",
    }
}

fn erase_word(version: MetadataEraseVersion) -> &'static str {
    match version {
        MetadataEraseVersion::Default => "Default",
        MetadataEraseVersion::All => "All",
        MetadataEraseVersion::V3 => "V3",
        MetadataEraseVersion::V2 => "V2",
    }
}

fn block_word(choice: UseConsolidatedMetadata) -> &'static str {
    match choice {
        UseConsolidatedMetadata::Auto => "Auto",
        UseConsolidatedMetadata::Must => "Must",
        UseConsolidatedMetadata::Never => "Never",
    }
}

// A configuration with each setting set to what is not its default.
fn set_config() -> Config {
    let mut config = Config::new();
    config.set_metadata_convert_version(MetadataConvertVersion::V3);
    config.set_metadata_erase_version(MetadataEraseVersion::All);
    config.set_use_consolidated_metadata(UseConsolidatedMetadata::Must);
    config
}

// The settings of a configuration.
fn config_said(alloc: Global, config: &Config) -> Result<String, AllocError> {
    let convert = convert_word(config.group_metadata_options().metadata_convert_version());
    let erase = erase_word(config.metadata_erase_version());
    let block = block_word(config.use_consolidated_metadata());
    format!(in alloc; "convert {convert}, erase {erase}, block {block}")
}

// Options whose version was set.
fn set_options() -> GroupMetadataOptions {
    let mut options = GroupMetadataOptions::default();
    options.set_metadata_convert_version(MetadataConvertVersion::V3);
    options
}

// The version of options.
fn options_said(alloc: Global, options: &GroupMetadataOptions) -> Result<String, AllocError> {
    let convert = convert_word(options.metadata_convert_version());
    format!(in alloc; "convert {convert}")
}

// The settings of what a word makes.
fn settings_said(alloc: Global, word: &str) -> Result<String, AllocError> {
    match word {
        "Config::new" => config_said(alloc, &Config::new()),
        "Config::default" => config_said(alloc, &Config::default()),
        "config, each set" => config_said(alloc, &set_config()),
        "GroupMetadataOptions::default" => options_said(alloc, &GroupMetadataOptions::default()),
        "options, set to V3" => options_said(alloc, &set_options()),
        "options, set to V3, with Default" => {
            let default = MetadataConvertVersion::Default;
            options_said(alloc, &set_options().with_metadata_convert_version(default))
        }
        _ => String::from_str(alloc, "no such settings"),
    }
}

const SETTINGS: &str = r#"
# a new configuration holds the defaults
Config::new => convert Default, erase Default, block Auto
Config::default => convert Default, erase Default, block Auto
# each setting is as it was set
config, each set => convert V3, erase All, block Must
# options hold the version that they were given
GroupMetadataOptions::default => convert Default
options, set to V3 => convert V3
options, set to V3, with Default => convert Default
"#;

#[test]
fn settings_are_the_defaults_or_as_they_were_set(rt: HostRuntime) -> Result<(), Fail> {
    check_rows(rt.alloc(), SETTINGS, settings_said)
}

//! Tests of all below nodes: keys, prefixes and stores, names, paths and their keys, settings, the documents of groups and arrays with the
//! forms of their members, their conversion and comparison, consolidated blocks, the loading of images and folders, and what the programs
//! share. By public calls alone. The crate has no call of its own.
#![tactic(auto)]

#[cfg(test)]
mod blocks;
#[cfg(test)]
mod loading;
#[cfg(test)]
mod metadata;
#[cfg(test)]
mod paths;
#[cfg(test)]
mod program;
#[cfg(test)]
mod settings;
#[cfg(test)]
mod stores;

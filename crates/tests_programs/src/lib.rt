//! Tests of what the program `zarrs` does: what is loaded of a folder, and that a listing over that shows what the whole shows; documents that are
//! replaced and removed, and what becomes of the block of a group; and what each word writes of images and of folders, each text and each status. Over
//! stores and folders in memory, and over folders of the system. And tables of rows that have to fail. By public calls alone. The crate has no call of
//! its own.
#![tactic(auto)]

#[cfg(test)]
mod asserts;
#[cfg(test)]
mod consolidated;
#[cfg(test)]
mod disks;
#[cfg(test)]
mod documents;
#[cfg(test)]
mod escapes;
#[cfg(test)]
mod faults;
#[cfg(test)]
mod folders;
#[cfg(test)]
mod fractions;
#[cfg(test)]
mod loads;
#[cfg(test)]
mod passed;
#[cfg(test)]
mod plans;
#[cfg(test)]
mod rows;
#[cfg(test)]
mod runs;
#[cfg(test)]
mod same;
#[cfg(test)]
mod shown;
#[cfg(test)]
mod ticking;
#[cfg(test)]
mod told;
#[cfg(test)]
mod words;
#[cfg(test)]
mod writing;

//! Stores that are loaded, for any program: from an image, a JSON object from keys to texts that a reader gives, and from a folder of the file
//! system. What is read is bounded; contracts see a store as a finite map from keys to bytes.
#![tactic(auto)]

mod fault;
mod folder;
mod image;
mod read;

pub use fault::LoadFault;
pub use folder::{MOST_DEPTH, MOST_ENTRIES, load_folder};
pub use image::load_image;
pub use read::{MOST_READS, READ_SIZE, read_whole};

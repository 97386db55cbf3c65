//! A document of a folder, replaced or removed so that no crash can harm it: at each point the old document stands at its name, or the new
//! one, whole. That is a law over the calls that are made; of what the system does with them it is supposed. `MemoryPlace`, a folder in
//! memory, shows that the promises of a `Place` can be kept. `zarrs consolidate` writes by this crate.
#![tactic(auto)]

mod disk;
mod fault;
pub mod laws;
mod memory;
mod place;
mod reading;
mod record;
mod remove;
mod replace;
mod stop;

pub use disk::Disk;
pub use fault::{PlaceFault, ReplaceError, Step};
pub use memory::MemoryPlace;
pub use place::Place;
pub use remove::{Removed, remove_document};
pub use replace::{Replaced, replace_document};

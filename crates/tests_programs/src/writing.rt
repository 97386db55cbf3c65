//! Documents that are replaced and removed: over a folder in memory, each of its calls failing in turn, and over a folder of the system.

mod disks;
mod places;
mod watched;

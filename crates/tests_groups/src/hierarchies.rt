//! Hierarchies, version 2 groups with a `.zmetadata`, and every call that opens, lists, prints, stores or erases over stores that fail.

mod any_numbers;
mod failing;
mod opening;
mod small_stores;
mod stores;

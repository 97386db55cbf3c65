//! Tests that cross crates: groups that are made, opened, stored and erased, their blocks and what stands below them; hierarchies; and every
//! call that opens, lists, prints, stores or erases over stores that fail. By public calls alone. The crate has no call of its own.
#![tactic(auto)]

#[cfg(test)]
mod any_numbers;
#[cfg(test)]
mod block_documents;
#[cfg(test)]
mod fixture_rows;
#[cfg(test)]
mod fixtures;
#[cfg(test)]
mod group_children;
#[cfg(test)]
mod groups;
#[cfg(test)]
mod hierarchies;

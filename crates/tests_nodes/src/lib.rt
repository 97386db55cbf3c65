//! Tests that cross crates: nodes and their blocks, read, listed, opened and made current in stores; surveys and checks, with what is told of blocks
//! and of nodes; and the callers of `zarrs_examples` with its store of one's own. By public calls alone. The crate has no call of its own.
#![tactic(auto)]

#[cfg(test)]
mod above;
#[cfg(test)]
mod check_fractions;
#[cfg(test)]
mod consolidation;
#[cfg(test)]
mod depth;
#[cfg(test)]
mod documents;
#[cfg(test)]
mod examples;
#[cfg(test)]
mod failing;
#[cfg(test)]
mod findings;
#[cfg(test)]
mod given;
#[cfg(test)]
mod listing;
#[cfg(test)]
mod metadata;
#[cfg(test)]
mod nodes;
#[cfg(test)]
mod nodes_told;
#[cfg(test)]
mod notes;
#[cfg(test)]
mod numbers;
#[cfg(test)]
mod opening;
#[cfg(test)]
mod orphans;
#[cfg(test)]
mod refreshing;
#[cfg(test)]
mod surveys;
#[cfg(test)]
mod text;

//! What is told of one node by its own documents, by the public calls of `zarrs_notes`.

mod failing;
mod told;

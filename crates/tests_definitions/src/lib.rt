//! Facts about the definitions that public contracts rest on, over literal names, documents, stores, blocks and texts: what each says of an
//! example, and of one that it does not hold of. They stand in `proofs/`, a file a subject, each with its sentence; the check of this crate
//! proves them, and nothing runs. Who changes a definition sees here what it says then.
#![tactic(auto)]

//! Consolidated blocks: read, also in numbers, written, chosen by a policy and expanded.

mod numbers;
mod read;
mod zmetadata;
mod zmetadata_written;

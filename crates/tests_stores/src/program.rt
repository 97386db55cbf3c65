//! Words, paths and what is written.

mod arguments;
mod outputs;
mod paths;
mod planned;

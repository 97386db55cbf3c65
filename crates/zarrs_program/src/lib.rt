//! What the programs share: the words of a run, the path that a word names, and what is written: an output whole, and a line on the
//! standard error. Which words are a command, what it writes and which status a run ends with each program says itself.
#![tactic(auto)]

mod arguments;
mod output;
mod path;

pub use arguments::{WordsFault, words};
pub use output::{WriteFault, tell, tell_line, write_whole};
pub use path::path_of;

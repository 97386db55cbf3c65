//! What the program `zarrs` does: its words, what each writes of a store or writes back to it, its refusals, and a whole run of it, `answer`.
//! `run_store` does a word over any store, `run_of_image` and `run_of_folder` load one first; `consolidate_folder` writes a block back.
#![tactic(auto)]

mod answers;
mod consolidate;
mod document;
mod ending;
mod escapes;
mod fault;
mod folder;
mod hint;
mod image;
mod kind;
mod nowhere;
mod output;
mod remark;
mod remarks_json;
mod report;
mod run;
mod shown;
mod texts;
mod usage;
mod warnings;
mod words;

pub use answers::{Host, answer};
pub use consolidate::{Consolidated, consolidate_folder};
pub use ending::{Answered, Ending, finish};
pub use escapes::{escaped, push_line};
pub use fault::ZarrsFault;
pub use folder::run_of_folder;
pub use image::load_image;
pub use report::Tally;
pub use run::{run_of_image, run_store};
pub use usage::{USAGE, VERSION};
pub use warnings::Warnings;
pub use words::{
    Asked, BlockRequest, CheckOptions, Command, ConsolidateOptions, Request, Word, parse,
};

//! The program `zarrs`: it shows what a store has and what is bad in it, and writes the block of a group back. Its `main` hands the words, the system and the
//! three streams to `answer` of [`zarrs_cli`], which is what is promised, and ends with the status that it answers.
#![tactic(auto)]

use log::{Level, Logged};
use std::io;
use std::io::IsTerminal;
use std::process::ExitCode;
use zarrs_cli::{Host, Warnings, ZarrsFault, answer, finish};
use zarrs_program::words;

fn main(rt: HostRuntime) -> ExitCode {
    let log = Logged::new(&rt, Level::Warn, Warnings(&rt));
    let mut errors = rt.stderr();
    let host = Host {
        rt: &log,
        files: &rt,
        is_watched: errors.is_terminal(),
    };
    let ending = match words(&rt) {
        Ok(words) => answer(
            &host,
            &words,
            &mut rt.reader(),
            &mut io::writer(&rt),
            &mut errors,
        ),
        Err(fault) => finish(
            rt.alloc(),
            &Err(ZarrsFault::from(fault)),
            &None,
            &mut errors,
        ),
    };
    ExitCode::from(ending.status)
}

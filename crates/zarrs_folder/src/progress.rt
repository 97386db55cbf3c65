//! How many nodes were read so far, told while a folder is read.
use std::io::Eprint;
use std::time::{Clock, Duration, Instant};

// How many seconds pass before each line.
const PAUSE: u64 = 2;

// How many nodes were read so far; where that is told, also when it was told last.
#[derive(Drop)]
pub(crate) struct Progress {
    told: Option<Instant>,
    nodes: u64,
}

impl Progress {
    // No node so far. Where the clock is not read, nothing is told.
    pub(crate) fn new<R: Clock>(rt: &R, is_wanted: bool) -> Progress {
        let told = if is_wanted {
            Instant::now(rt).ok()
        } else {
            None
        };
        Progress { told, nodes: 0 }
    }

    // Counts a node that was read, and tells how many there were where the time has come.
    pub(crate) fn count<R: Clock + Eprint>(&mut self, rt: &R, is_node: bool) {
        if !is_node {
            return;
        }
        self.nodes = self.nodes.saturating_add(1);
        let Some(told) = self.told else {
            return;
        };
        let Ok(now) = Instant::now(rt) else {
            return;
        };
        if now.duration_since(told) < Duration::from_secs(PAUSE) {
            return;
        }
        self.told = Some(now);
        let nodes = self.nodes;
        let _ = rt.eprintln(format_args!("{nodes} nodes read so far"));
    }
}

//! Where warnings go.
ghost use Rattle.std.specs.Prelude.{true, [], Some};

use crate::escapes::escaped;
use log::kv::Source;
use log::span::Spans;
use log::{Line, Log, Metadata, Record};
use std::fmt::Display;
use std::io::Eprint;

/// Writes each record to the standard error, a line each, with control characters and backslashes as JSON writes them. A record for which there is no memory is
/// dropped.
///
/// Source: `log::sink::Console`, but for the characters. <https://www.rfc-editor.org/rfc/rfc8259#section-7>
#[derive(Clone, Copy, Drop)]
pub struct Warnings<'a, R>(pub &'a R);

impl<R: Eprint + AllocGlobal> Log for Warnings<'_, R> {
    ghost enables = { λ _ _ _. Some true };

    ghost target_of = { λ _. Some [] };

    fn enabled(&self, _metadata: &Metadata<'_>) -> bool {
        true
    }

    fn log<D: Display, K: Source, S: Spans>(&self, record: &Record<'_, D, K, S>) {
        let alloc = self.0.alloc();
        let line = Line::new(record);
        let Ok(text) = format!(in alloc; "{line}") else {
            return;
        };
        if let Ok(text) = escaped(alloc, text.as_str()) {
            let _ = self.0.eprintln(text);
        }
    }

    fn flush(&self) {}

    fn target(&self) -> &str {
        ""
    }
}

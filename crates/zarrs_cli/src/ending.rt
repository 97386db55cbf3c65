//! What a run says at its end on standard error, and its status.
ghost use Rattle.std.specs.Prelude.{◌≡◌, ◌≢◌, IfErr, IfOk, OnOk, string_bytes};
ghost use Rattle.std.specs.Option.{option_map};
ghost use Rattle.zarrs_cli.specs.Escapes.{escaped_text};
ghost use Rattle.zarrs_cli.specs.RefusalLines.{SaysReason, reason_text};
ghost use Rattle.zarrs_cli.specs.Refusals.{answered_status, run_status};

use crate::consolidate::Consolidated;
use crate::escapes::escaped;
use crate::fault::ZarrsFault;
use crate::report::Tally;
use crate::usage::USAGE;
use std::alloc::{AllocError, Global};
use std::io::Write;
use zarrs_program::{WriteFault, tell, write_whole};

/// How a run ends that is not refused.
///
/// Source: own.
/// <https://pubs.opengroup.org/onlinepubs/9699919799/utilities/V3_chap01.html>
#[derive(Clone, Copy, Debug, PartialEq, Eq)]
pub enum Answered {
    /// What was asked is shown; of a check, how much it looked at and found.
    Looked(Option<Tally>),
    /// A block is written or removed, or, by a dry run, would be.
    Consolidated(Consolidated),
}

/// How a run ended.
///
/// Source: own.
/// <https://pubs.opengroup.org/onlinepubs/9699919799/utilities/V3_chap01.html>
#[derive(Debug, Drop)]
pub struct Ending {
    /// The exit status.
    pub status: u8,
    /// Whether the standard error took what there was to say.
    pub said: Result<(), WriteFault>,
}

/// Writes how much a check looked at and found, or why the run was refused, and gives the exit status. Where nobody reads the output of a run any more, nothing
/// is said.
///
/// Source: own.
pub fn finish<W: Write>(
    alloc: Global,
    outcome: &Result<Answered, ZarrsFault>,
    hint: &Option<String>,
    writer: &mut W,
) -> Ending
    ensures status { result.status ≡ run_status outcome.now }
    ensures said { OnOk result.said (IfErr outcome.now (λ fault.
        SaysReason (option_map string_bytes hint.now) fault
        (W.contents writer.old) (W.contents writer.new))) }
{
    match outcome {
        Ok(answered) => Ending {
            status: status_of(answered),
            said: say_tally(answered, writer),
        },
        Err(fault) => Ending {
            status: 2,
            said: say_reason(alloc, fault, hint, writer),
        },
    }
}

// The exit status of a run that is not refused.
fn status_of(answered: &Answered) -> u8
    ensures { result ≡ answered_status answered.now }
{
    match answered {
        Answered::Looked(None) => 0,
        Answered::Looked(Some(tally)) => u8::from(tally.findings > 0),
        Answered::Consolidated(Consolidated::Complete) => 0,
        Answered::Consolidated(Consolidated::Due) => 1,
    }
}

// Writes how much a check looked at and found, where it was one.
fn say_tally<W: Write>(answered: &Answered, writer: &mut W) -> Result<(), WriteFault> {
    match answered {
        Answered::Looked(Some(tally)) => tell("zarrs", tally, writer),
        _ => Ok(()),
    }
}

// Writes why the run was refused: of wrong words the usage, where nobody reads the output nothing, and else a line.
fn say_reason<W: Write>(
    alloc: Global,
    fault: &ZarrsFault,
    hint: &Option<String>,
    writer: &mut W,
) -> Result<(), WriteFault>
    ensures { OnOk result (SaysReason (option_map string_bytes hint.now) fault.now
        (W.contents writer.old) (W.contents writer.new)) }
{
    match fault {
        ZarrsFault::Usage => write_whole(USAGE.as_bytes(), writer),
        ZarrsFault::Closed => Ok(()),
        _ => say_line(alloc, fault, hint, writer),
    }
}

// Writes why the run was refused, as one line.
fn say_line<W: Write>(
    alloc: Global,
    fault: &ZarrsFault,
    hint: &Option<String>,
    writer: &mut W,
) -> Result<(), WriteFault>
    requires usage { fault.now ≢ ZarrsFault.Usage }
    requires closed { fault.now ≢ ZarrsFault.Closed }
    ensures { OnOk result (SaysReason (option_map string_bytes hint.now) fault.now
        (W.contents writer.old) (W.contents writer.new)) }
{
    match reason(alloc, fault, hint) {
        Ok(text) => tell("zarrs", &text, writer),
        Err(AllocError) => tell("zarrs", &ZarrsFault::OutOfMemory, writer),
    }
}

// Why the run was refused: what there is to say in the place of what the fault says, else that.
fn reason(alloc: Global, fault: &ZarrsFault, hint: &Option<String>) -> Result<String, AllocError>
    ensures { IfOk result (λ text. string_bytes text
        ≡ escaped_text (reason_text (option_map string_bytes hint.now) fault.now)) }
{
    match hint {
        Some(text) => escaped(alloc, text.as_str()),
        None => {
            let text = format!(in alloc; "{fault}")?;
            escaped(alloc, text.as_str())
        }
    }
}

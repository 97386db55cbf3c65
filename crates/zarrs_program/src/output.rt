//! What a program writes: its output, whole, and a line that says how a run ended.
ghost use Rattle.std.specs.Prelude.{OnOk, IfSome, Some};
ghost use Rattle.std.specs.Io.KnownBytes.{Appends};
ghost use Rattle.zarrs_program.specs.FaultTexts.{write_fault_text};
ghost use Rattle.zarrs_program.specs.Lines.{text_line, told_line};

use std::error::Error;
use std::fmt;
use std::fmt::Display;
use std::io::Write;

/// The writer failed.
///
/// <https://pubs.opengroup.org/onlinepubs/9699919799/functions/write.html>
#[derive(Debug, Drop)]
pub struct WriteFault;

impl fmt::Display for WriteFault {
    ghost output = { λ _. Some write_fault_text };

    /// Writes the fault's text.
    fn fmt<W: fmt::Write>(&self, f: &mut fmt::Formatter<W>) -> fmt::Result {
        f.write_str("write fault")
    }
}

impl Error for WriteFault {}

/// Writes a text whole, and flushes the writer.
///
/// # Errors
/// `WriteFault` where the writer fails, when some of the text may be written.
///
/// Source: own.
pub fn write_whole<W: Write>(text: &[u8], writer: &mut W) -> Result<(), WriteFault>
    ensures ok { OnOk result (Appends (W.contents writer.old) (W.contents writer.new) text.now) }
{
    if writer.write_all(text).is_err() || writer.flush().is_err() {
        return Err(WriteFault);
    }
    Ok(())
}

/// Writes a line that tells something of a run: the name of the program, a colon, a space, and what there is to tell.
///
/// # Errors
/// `WriteFault` where the writer fails, when some of the line may be written.
///
/// Source: own.
#[tactic(auto, using(crate::proofs::LinesTold::told))]
pub fn tell<W: Write, D: Display>(program: &str, what: &D, writer: &mut W) -> Result<(), WriteFault>
    ensures ok { OnOk result (IfSome (D.output what.now) (λ text.
        Appends (W.contents writer.old) (W.contents writer.new) (told_line program.now text))) }
{
    if writeln!(writer, "{program}: {what}").is_err() {
        return Err(WriteFault);
    }
    Ok(())
}

/// Writes a line of its own, as the one that says how a program is called.
///
/// # Errors
/// `WriteFault` where the writer fails, when some of the line may be written.
///
/// Source: own.
#[tactic(auto, using(crate::proofs::LinesTold::lined))]
pub fn tell_line<W: Write, D: Display>(what: &D, writer: &mut W) -> Result<(), WriteFault>
    ensures ok { OnOk result (IfSome (D.output what.now) (λ text.
        Appends (W.contents writer.old) (W.contents writer.new) (text_line text))) }
{
    if writeln!(writer, "{what}").is_err() {
        return Err(WriteFault);
    }
    Ok(())
}

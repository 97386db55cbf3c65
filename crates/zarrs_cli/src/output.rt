//! What a run writes on its output.
ghost use Rattle.std.specs.Prelude.{IfErr, OnOk};
ghost use Rattle.std.specs.Io.KnownBytes.{Appends};
ghost use Rattle.zarrs_cli.specs.Refusals.{IsOfWriter};

use crate::fault::ZarrsFault;
use std::io::Write;

// Writes a text whole, and flushes the writer. Where that fails, some of the text may be written.
pub(crate) fn write_output<W: Write>(text: &str, writer: &mut W) -> Result<(), ZarrsFault>
    ensures ok { OnOk result (Appends (W.contents writer.old) (W.contents writer.new) text.now) }
    ensures err { IfErr result IsOfWriter }
{
    writer.write_all(text.as_bytes())?;
    writer.flush()?;
    Ok(())
}

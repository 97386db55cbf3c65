//! The layouts of a text, and what they differ in: lines and what follows a name.
ghost use Rattle.std.specs.Prelude.{◌≡◌, ◌++◌, string_bytes, IfOk, OnOk};
ghost use Rattle.json.specs.Layout.{line};
ghost use Rattle.zarrs_form.specs.Layouts.{close_line, deeper, key_in, line_in};

use crate::text::{write_comma, write_text};
use std::alloc::{AllocError, Global};

/// How a JSON text is laid out.
///
/// RFC 8259, "JSON Grammar": white space is insignificant.
/// <https://www.rfc-editor.org/rfc/rfc8259#section-2>
#[derive(Clone, Copy, Debug, PartialEq, Eq)]
pub enum Layout {
    /// No white space.
    Compact,
    /// Each item and each member on a line of its own, two spaces a level, of a value that stands so many levels deep.
    Pretty(usize),
}

/// Appends what stands before the value of a member: a comma where a member stands before it, in the pretty layout a line of its own, the
/// name in quotes and a colon, behind which a space stands in the pretty layout.
///
/// # Errors
///
/// `AllocError` where there is no memory for it; a beginning of the text may have been appended.
///
/// Source: RFC 8259, "Objects".
pub fn write_key(
    alloc: Global,
    out: &mut String,
    later: bool,
    layout: Layout,
    name: &str,
) -> Result<(), AllocError>
    ensures ok { OnOk result (string_bytes out.new
        ≡ string_bytes out.old ++ key_in later layout name.now) }
{
    write_comma(out, later)?;
    write_line(out, layout)?;
    write_text(alloc, out, name)?;
    match layout {
        Layout::Compact => out.push_str(":"),
        Layout::Pretty(_) => out.push_str(": "),
    }
}

/// The layout of what stands within a value. A text so deep that its level is no `usize` has no place in memory.
pub(crate) fn deeper(layout: Layout) -> Result<Layout, AllocError>
    ensures { IfOk result (λ inner. inner ≡ deeper layout) }
{
    match layout {
        Layout::Pretty(usize::MAX) => Err(AllocError),
        Layout::Pretty(level) => Ok(Layout::Pretty(level + 1)),
        Layout::Compact => Ok(Layout::Compact),
    }
}

/// Appends in the pretty layout a line of its own for a closing bracket, where something stands before it.
pub(crate) fn write_close(out: &mut String, later: bool, layout: Layout) -> Result<(), AllocError>
    ensures ok { OnOk result
        (string_bytes out.new ≡ string_bytes out.old ++ close_line later layout) }
{
    if later {
        write_line(out, layout)
    } else {
        Ok(())
    }
}

/// Appends the beginning of a line, in the pretty layout.
pub(crate) fn write_line(out: &mut String, layout: Layout) -> Result<(), AllocError>
    ensures ok { OnOk result (string_bytes out.new ≡ string_bytes out.old ++ line_in layout) }
{
    match layout {
        Layout::Compact => Ok(()),
        Layout::Pretty(0) => out.push_str("\n"),
        Layout::Pretty(1) => out.push_str("\n  "),
        Layout::Pretty(2) => out.push_str("\n    "),
        Layout::Pretty(3) => out.push_str("\n      "),
        Layout::Pretty(4) => out.push_str("\n        "),
        Layout::Pretty(5) => out.push_str("\n          "),
        Layout::Pretty(6) => out.push_str("\n            "),
        Layout::Pretty(level) => write_deep_line(out, level),
    }
}

/// Appends the beginning of a line, with two spaces a level, one level after the other.
fn write_deep_line(out: &mut String, level: usize) -> Result<(), AllocError>
    ensures ok { OnOk result (string_bytes out.new ≡ string_bytes out.old ++ line level) }
{
    out.push_str("\n")?;
    for _ in 0..level {
        out.push_str("  ")?;
    }
    Ok(())
}

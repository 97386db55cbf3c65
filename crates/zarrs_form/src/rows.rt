//! The rows of a table, appended one after the other: the members of an object in the order of their names, of which the last is there.
ghost use Rattle.std.specs.Prelude.{◌≡◌, ◌++◌, false, option_map, string_bytes, OnOk};
ghost use Rattle.std.specs.Option.{option_copied};
ghost use Rattle.serde_json.specs.Data.{member, no_members};
ghost use Rattle.serde_json.specs.Written.{has_float};
ghost use Rattle.zarrs_form.specs.Forms as forms;
ghost use Rattle.zarrs_form.specs.Layouts.{IsWhole, members_in, row_in};

use crate::form::Form;
use crate::layout::{Layout, deeper, write_close, write_key};
use std::alloc::{AllocError, Global};

/// Appends a member of an object and a comma, where there is a value: in the pretty layout a line of its own, the name in quotes, a colon
/// and the text of what is written of the value.
///
/// # Errors
///
/// `AllocError` where there is no memory for it; a beginning of the text may have been appended.
///
/// Source: RFC 8259, "Objects".
pub fn write_row<T: Form>(
    alloc: Global,
    out: &mut String,
    layout: Layout,
    name: &str,
    value: Option<&T>,
) -> Result<(), AllocError>
    ensures ok { OnOk result
        (IsWhole (option_map T.written (option_copied value.entry))
        → string_bytes out.new ≡ string_bytes out.old
        ++ row_in layout name.now (option_map T.written (option_copied value.entry))) }
{
    let Some(value) = value else {
        return Ok(());
    };
    let inner = deeper(layout)?;
    write_key(alloc, out, false, inner, name)?;
    value.write(alloc, out, inner)?;
    out.push_str(",")
}

/// Appends a member of an object and a comma as [`write_row`] does, unless it is empty.
///
/// # Errors
///
/// `AllocError` where there is no memory for it; a beginning of the text may have been appended.
///
/// Source: RFC 8259, "Objects".
pub fn write_unless<T: Form>(
    alloc: Global,
    out: &mut String,
    layout: Layout,
    name: &str,
    is_empty: bool,
    value: &T,
) -> Result<(), AllocError>
    ensures ok { OnOk result
        (IsWhole (forms.unless is_empty (T.written value.now))
        → string_bytes out.new ≡ string_bytes out.old
        ++ row_in layout name.now (forms.unless is_empty (T.written value.now))) }
{
    if is_empty {
        return Ok(());
    }
    write_row(alloc, out, layout, name, Some(value))
}

/// Appends the last member of an object and the closing brace, in the pretty layout each on a line of its own.
///
/// # Errors
///
/// `AllocError` where there is no memory for it; a beginning of the text may have been appended.
///
/// Source: RFC 8259, "Objects".
pub fn write_last<T: Form>(
    alloc: Global,
    out: &mut String,
    layout: Layout,
    name: &str,
    last: &T,
) -> Result<(), AllocError>
    ensures ok { OnOk result
        (has_float (T.written last.now) ≡ false
        → string_bytes out.new ≡ string_bytes out.old
        ++ members_in false layout (member name.now (T.written last.now) no_members)) }
{
    let inner = deeper(layout)?;
    write_key(alloc, out, false, inner, name)?;
    last.write(alloc, out, inner)?;
    write_close(out, true, layout)?;
    out.push_str("}")
}

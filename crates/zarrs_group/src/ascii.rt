//! The bytes of a document in ASCII, as readers of version 2 documents want them.
ghost use Rattle.std.specs.Prelude.{◌≡◌, ◌++◌, ◌<◌, None, IfOk, IfSome, OnOk};
ghost use Rattle.std.specs.Char.Escape.{hex_digit_at};
ghost use Rattle.std.specs.Str.{IsUtf8};
ghost use Rattle.serde_json.specs.Data.{depth};
ghost use Rattle.serde_json.specs.Read.{max_depth};
ghost use Rattle.serde_json.specs.View.{view};
ghost use Rattle.zarrs_group.specs.AsciiTexts.{IsAsciiTextOf, ascii_char, ascii_text, unit_escape};

use serde_json::Value;
use std::alloc::{AllocError, Global};
use zarrs_form::document_text;

/// The bytes of a document in ASCII: those of `document_text`, each character beyond ASCII as the escapes of its UTF-16 code units,
/// with digits in lower case. They are read as the value again. None where it nests deeper than any document that is read.
///
/// # Errors
///
/// `AllocError` where there is no memory for them.
///
/// Source: RFC 8259, "Strings"; specification version 2, "Metadata". zarr-python 2 reads these documents as ASCII only.
pub(crate) fn ascii_document_text(
    alloc: Global,
    value: &Value,
) -> Result<Option<Vec<u8>>, AllocError>
    ensures text { IfOk result
        (λ found. IfSome found (λ bytes. IsAsciiTextOf bytes.items (view value.now))) }
    ensures none { IfOk result (λ found. found ≡ None → max_depth < depth (view value.now)) }
{
    let Some(text) = document_text(alloc, value)? else {
        return Ok(None);
    };
    Ok(Some(in_ascii(alloc, text)?))
}

// The bytes of a text in ASCII: the bytes themselves where they are ASCII, as those of most documents are.
fn in_ascii(alloc: Global, text: Vec<u8>) -> Result<Vec<u8>, AllocError>
    requires { IsUtf8 text.items }
    ensures { IfOk result (λ bytes. bytes.items ≡ ascii_text text.items) }
{
    if text.is_ascii() {
        return Ok(text);
    }
    match str::from_utf8(text.as_slice()) {
        Ok(letters) => escaped(alloc, letters),
        Err(_) => unreachable!(),
    }
}

// The bytes of a text in ASCII.
fn escaped(alloc: Global, text: &str) -> Result<Vec<u8>, AllocError>
    ensures { IfOk result (λ bytes. bytes.items ≡ ascii_text text.now) }
{
    let mut out = Vec::with_capacity(alloc, text.len())?;
    for letter in text.chars() {
        push_char(&mut out, letter)?;
    }
    Ok(out)
}

// Puts a character in ASCII behind bytes.
fn push_char(out: &mut Vec<u8>, letter: char) -> Result<(), AllocError>
    ensures { OnOk result (out.new.items ≡ out.old.items ++ ascii_char letter) }
{
    let code = u32::from(letter);
    if code < 128 {
        out.push(code as u8)?;
        return Ok(());
    }
    let mut room = [0u16; 2];
    for unit in letter.encode_utf16(&mut room).iter() {
        push_unit(out, *unit)?;
    }
    Ok(())
}

// Puts the escape of a UTF-16 code unit behind bytes.
fn push_unit(out: &mut Vec<u8>, unit: u16) -> Result<(), AllocError>
    ensures { OnOk result (out.new.items ≡ out.old.items ++ unit_escape unit) }
{
    let escape = [
        b'\\',
        b'u',
        digit_at(4096, unit),
        digit_at(256, unit),
        digit_at(16, unit),
        digit_at(1, unit),
    ];
    out.extend_from_slice(&escape)
}

// The hexadecimal digit at the place that is worth so much, in lower case.
fn digit_at(worth: u16, unit: u16) -> u8
    requires { 0 < worth }
    ensures { result ≡ hex_digit_at worth unit }
{
    let digit = (unit / worth % 16) as u8;
    if digit < 10 {
        b'0' + digit
    } else {
        b'a' + (digit - 10)
    }
}

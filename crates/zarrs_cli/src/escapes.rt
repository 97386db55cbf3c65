//! Texts as lines of output: with control characters and backslashes as JSON writes them, so that a name can neither end a line nor tell a terminal anything.
ghost use Rattle.std.specs.Prelude.{◌≡◌, ◌++◌, ◌<◌, IfOk, OnOk, string_bytes};
ghost use Rattle.std.specs.Char.{digit_char, encode_utf8};
ghost use Rattle.zarrs_cli.specs.Escapes.{code_escape, code_or_char, escaped_char, escaped_line, escaped_text};

use std::alloc::{AllocError, Global};

/// Puts a text behind another as a line.
///
/// # Errors
/// `AllocError` where there is no memory for it.
///
/// Source: own. <https://www.rfc-editor.org/rfc/rfc8259#section-7>
pub fn push_line(out: &mut String, text: &str) -> Result<(), AllocError>
    ensures { OnOk result (string_bytes out.new ≡ string_bytes out.old ++ escaped_line text.now) }
{
    push_escaped(out, text)?;
    out.push('\n')?;
    Ok(())
}

/// The text with control characters and backslashes as JSON writes them.
///
/// # Errors
/// `AllocError` where there is no memory for it.
///
/// Source: own. <https://www.rfc-editor.org/rfc/rfc8259#section-7>
pub fn escaped(alloc: Global, text: &str) -> Result<String, AllocError>
    ensures { IfOk result (λ out. string_bytes out ≡ escaped_text text.now) }
{
    let mut out = String::new(alloc);
    push_escaped(&mut out, text)?;
    Ok(out)
}

// Puts a text behind another, with control characters and backslashes as JSON writes them.
fn push_escaped(out: &mut String, text: &str) -> Result<(), AllocError>
    ensures { OnOk result (string_bytes out.new ≡ string_bytes out.old ++ escaped_text text.now) }
{
    for letter in text.chars() {
        push_char(out, letter)?;
    }
    Ok(())
}

// Puts a character behind a text, as it is to be written.
fn push_char(out: &mut String, letter: char) -> Result<(), AllocError>
    ensures { OnOk result (string_bytes out.new ≡ string_bytes out.old ++ escaped_char letter) }
{
    match letter {
        '\\' => put(out, "\\\\"),
        '\u{8}' => put(out, "\\b"),
        '\t' => put(out, "\\t"),
        '\n' => put(out, "\\n"),
        '\u{c}' => put(out, "\\f"),
        '\r' => put(out, "\\r"),
        _ => push_code_or_char(out, letter),
    }
}

// Puts a control character behind a text by its code, and any other as it is.
fn push_code_or_char(out: &mut String, letter: char) -> Result<(), AllocError>
    ensures { OnOk result (string_bytes out.new ≡ string_bytes out.old ++ code_or_char letter) }
{
    let code = u32::from(letter);
    if code < 32 {
        return push_code(out, code);
    }
    if code < 127 {
        return put_char(out, letter);
    }
    if code < 160 {
        return push_code(out, code);
    }
    put_char(out, letter)
}

// Puts a character behind a text by its code.
fn push_code(out: &mut String, code: u32) -> Result<(), AllocError>
    requires { code < 256 }
    ensures { OnOk result (string_bytes out.new ≡ string_bytes out.old ++ code_escape code) }
{
    put(out, "\\u00")?;
    put_char(out, digit(code / 16))?;
    put_char(out, digit(code % 16))
}

// A hexadecimal digit.
fn digit(value: u32) -> char
    requires { value < 16 }
    ensures { result ≡ digit_char value }
{
    match char::from_digit(value, 16) {
        Some(digit) => digit,
        None => '0',
    }
}

// Puts a text behind another.
fn put(out: &mut String, text: &str) -> Result<(), AllocError>
    ensures { OnOk result (string_bytes out.new ≡ string_bytes out.old ++ text.now) }
{
    out.push_str(text)?;
    Ok(())
}

// Puts a character behind a text as it is.
fn put_char(out: &mut String, letter: char) -> Result<(), AllocError>
    ensures { OnOk result (string_bytes out.new ≡ string_bytes out.old ++ encode_utf8 letter) }
{
    out.push(letter)?;
    Ok(())
}

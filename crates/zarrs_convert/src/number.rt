//! Numbers at the end of texts, as in `|V8` and `r64`.
ghost use Rattle.std.specs.Prelude.{◌≡◌, IsTrue, None, Some, if◌then◌else◌, option_map};
ghost use Rattle.std.specs.Str.Parse.{digits_value};
ghost use Rattle.zarrs_convert.specs.Tables.{fits_u64, is_decimal};
ghost use Rattle.zarrs_convert.specs.StepsOfConversion.{digits_behind};

/// What stands behind the beginning of a text, where that is one or more decimal digits.
pub(crate) fn digits_behind<'a>(text: &'a str, start: &str) -> Option<&'a str>
    ensures { option_map (λ digits. digits.now) result ≡ digits_behind start.now text.now }
{
    let digits = text.strip_prefix(start)?;
    if is_decimal(digits) {
        Some(digits)
    } else {
        None
    }
}

// Whether the text is one or more decimal digits.
fn is_decimal(text: &str) -> bool
    ensures { result ≡ is_decimal text.now }
{
    !text.is_empty() && text.bytes().all(|byte| byte.is_ascii_digit())
}

/// The number that one or more decimal digits write, where it fits 64 bits.
pub(crate) fn number_of(digits: &str) -> Option<u64>
    requires { IsTrue (is_decimal digits.now) }
    ensures { result
        ≡ (if fits_u64 (digits_value 10 digits.now) then Some
        (digits_value 10 digits.now) else None) }
{
    digits.parse().ok()
}

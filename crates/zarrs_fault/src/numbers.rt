//! Which numbers documents may hold.

/// Which numbers the documents of a store may hold.
///
/// Source: own; RFC 8259, "Numbers".
/// <https://www.rfc-editor.org/rfc/rfc8259#section-6>
#[derive(Clone, Copy, PartialEq, Eq, Debug)]
pub enum Numbers {
    /// Those that are `u64` or `i64`. A document with any other is refused.
    Whole,
    /// All numbers of JSON. One with a fraction or an exponent, or outside both ranges, is read as `f64`.
    Any,
}

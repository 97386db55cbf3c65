//! What the documents of a store have in common: how they are written, and that what is written reads back.
ghost use Rattle.std.specs.Prelude.{◌≡◌, ◌++◌, Bool, false, Ok, IfOk, OnOk, IsTrue, string_bytes};
ghost use Rattle.serde_json.specs.Data.{Data};
ghost use Rattle.serde_json.specs.View.{view};
ghost use Rattle.serde_json.specs.Written.{compact_text, has_float};
ghost use Rattle.zarrs_form.specs.Layouts.{text_in};
ghost use Rattle.zarrs_meta.specs.Laws.{ReadIsPlain};
ghost use Rattle.zarrs_fault.specs.declared.numbers.Numbers.{Numbers};
ghost use Rattle.zarrs_fault.specs.declared.numbers.Numbers.TheVariants.{Whole};

use crate::document::Document;
use serde_json::Value;
use std::alloc::{AllocError, Global};
use zarrs_fault::Numbers;
use zarrs_form::Layout;

/// A kind of document that is written as one JSON value, its written form. What is written of a *plain* one, which could have come from a
/// document, reads as it again; and what was read is plain.
///
/// <https://zarr-specs.readthedocs.io/en/latest/v3/core/index.html#metadata>
/// <https://zarr-specs.readthedocs.io/en/latest/v2/v2.0.html#metadata>
pub trait WrittenDocument: Document {
    /// The written form.
    ghost tree: { Self → Data };

    /// Whether it could have come from a document that may hold these numbers.
    ghost plain: { Numbers → Self → Bool };

    /// The written form: the members of the table and the additional fields. Empty attributes are not written.
    ///
    /// # Errors
    ///
    /// `AllocError` where there is no memory for it.
    ///
    /// Source: Zarr core specification 3.1, "Metadata documents"; specification version 2, "Metadata".
    fn to_value(&self, alloc: Global) -> Result<Value, AllocError>
        ensures { IfOk result (λ v. view v ≡ tree self.now) };

    /// Appends the text of the written form in a layout, with no newline at the end. It is written row by row, and no JSON value of the
    /// whole is made unless there are additional fields.
    ///
    /// # Errors
    ///
    /// `AllocError` where there is no memory for it; a beginning of the text may have been appended.
    ///
    /// Source: Zarr core specification 3.1, "Metadata documents"; specification version 2, "Metadata".
    fn write(&self, alloc: Global, out: &mut String, layout: Layout) -> Result<(), AllocError>
        ensures ok { OnOk result (has_float (tree self.now) ≡ false
            → string_bytes out.new ≡ string_bytes out.old ++ text_in layout (tree self.now)) };

    /// Whether it could have come from a document whose numbers are `u64` or `i64`: its own are, no additional field has an own name,
    /// and of a version 2 array no chunk length is 0 and no codec has a member `id` in its configuration.
    ///
    /// Source: own.
    fn is_plain(&self) -> bool
        ensures { result ≡ plain Whole self.now };

    /// What is written of a document that is plain in some numbers reads as it where it may hold them: a law, the call does nothing.
    ///
    /// Source: own; Zarr core specification 3.1, "Metadata documents".
    fn reads_back(&self, numbers: Numbers)
        requires { IsTrue (plain numbers self.now) }
        ensures { Self.meaning numbers (tree self.now) ≡ Ok self.now };

    /// What was read in some numbers is plain in them: a law, the call does nothing.
    ///
    /// Source: own; Zarr core specification 3.1, "Metadata documents".
    fn read_is_plain()
        ensures { ReadIsPlain Self.meaning plain };

    /// A document that is plain in whole numbers writes no fraction: a law, the call does nothing.
    ///
    /// Source: own.
    fn plain_is_whole(&self)
        ensures { IsTrue (plain Whole self.now) → has_float (tree self.now) ≡ false };

    /// The compact JSON text of the written form, where the document is plain.
    ///
    /// # Errors
    ///
    /// `AllocError` where there is no memory for it.
    ///
    /// Source: Zarr core specification 3.1, "Metadata documents"; specification version 2, "Metadata".
    final fn to_text(&self, alloc: Global) -> Result<String, AllocError>
        ensures { IfOk result (λ text. IsTrue (plain Whole self.now)
            → string_bytes text ≡ compact_text (tree self.now)) }
    {
        self.plain_is_whole();
        let mut out = String::with_capacity(alloc, 512)?;
        self.write(alloc, &mut out, Layout::Compact)?;
        Ok(out)
    }
}

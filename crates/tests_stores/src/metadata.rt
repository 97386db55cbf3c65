//! The documents of groups and arrays, with fractions too, the forms of their members, the conversion of version 2 to
//! 3, and the comparison of two nodes' metadata, by public calls alone.

mod compared;
mod conversion;
mod conversion_errors;
mod conversion_tables;
mod documents;
mod forms;
mod fraction_kinds;
mod fractions;
mod given;
mod owned;
mod parts;
mod texts;
